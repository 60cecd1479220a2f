// The modes of the bodies of literals, by the names of the Rust's `Mode`, and the tests on them; a character as a byte; and the errors.
#![tactic(auto, unfolding(crate::specs::Modes::is_single, crate::specs::Modes::in_double_quotes, crate::specs::Modes::characters_should_be_ascii, crate::specs::Modes::has_prefix, crate::specs::Modes::is_raw))]

ghost use Rattle.std.specs.Prelude.{◌≡◌, ◌%◌};
ghost use Rattle.text.specs.Refusals.{given, told};
ghost use Rattle.modes.specs.Modes.{is_single, in_double_quotes, characters_should_be_ascii, is_unicode_escape_disallowed, has_prefix, is_raw, tested_mode};
ghost use Rattle.modes.specs.Numbers.{mode_number, is_mode_of};

mod errors;

pub use errors::{EscapeError, is_fatal};
use text::Refusal;

// Their numbers go from 0 on.
#[derive(Clone, Copy, Debug, PartialEq, Eq)]
pub enum Mode {
    Char,
    Str,
    Byte,
    BitStr,
    ByteStr,
    RawStr,
    RawByteStr,
}

impl TryFrom<u32> for Mode {
    type Error = Refusal;

    ghost try_from_gives = { is_mode_of };

    fn try_from(number: u32) -> Result<Mode, Refusal> {
        match number {
            0 => Ok(Mode::Char),
            1 => Ok(Mode::Str),
            2 => Ok(Mode::Byte),
            3 => Ok(Mode::BitStr),
            4 => Ok(Mode::ByteStr),
            5 => Ok(Mode::RawStr),
            6 => Ok(Mode::RawByteStr),
            _ => Err(Refusal::UnknownSelector),
        }
    }
}

impl Mode {
    // By which the calls take it.
    pub fn number(self) -> u32
        ensures { result ≡ mode_number self }
    {
        self as u32
    }

    // Whether it holds one character.
    pub fn is_single(self) -> bool
        ensures { result ≡ is_single (mode_number self) }
    {
        matches!(self, Mode::Char | Mode::Byte)
    }

    // Str, BitStr and ByteStr, raw or not.
    pub fn in_double_quotes(self) -> bool
        ensures { result ≡ in_double_quotes (mode_number self) }
    {
        !self.is_single()
    }

    pub fn characters_should_be_ascii(self) -> bool
        ensures { result ≡ characters_should_be_ascii (mode_number self) }
    {
        matches!(
            self,
            Mode::Byte | Mode::BitStr | Mode::ByteStr | Mode::RawByteStr
        )
    }

    pub fn is_unicode_escape_disallowed(self) -> bool
        ensures { result ≡ is_unicode_escape_disallowed (mode_number self) }
    {
        self.characters_should_be_ascii()
    }

    // Whether the prefix is `b`.
    pub fn has_prefix(self) -> bool
        ensures { result ≡ has_prefix (mode_number self) }
    {
        matches!(self, Mode::Byte | Mode::ByteStr | Mode::RawByteStr)
    }

    pub fn is_raw(self) -> bool
        ensures { result ≡ is_raw (mode_number self) }
    {
        matches!(self, Mode::RawStr | Mode::RawByteStr)
    }
}

// The low eight bits.
pub fn byte_from_char(c: u32) -> u8
    ensures { result ≡ c % 256 }
{
    (c % 256) as u8
}

// By a number, one by one, as the promises for C have them. Of a number that is no mode this test and the next three say no.
pub fn is_single(mode: u32) -> bool
    ensures { result ≡ is_single mode }
{
    Mode::try_from(mode).is_ok_and(Mode::is_single)
}

pub fn is_ascii_only(mode: u32) -> bool
    ensures { result ≡ characters_should_be_ascii mode }
{
    Mode::try_from(mode).is_ok_and(Mode::characters_should_be_ascii)
}

pub fn has_prefix(mode: u32) -> bool
    ensures { result ≡ has_prefix mode }
{
    Mode::try_from(mode).is_ok_and(Mode::has_prefix)
}

pub fn is_raw(mode: u32) -> bool
    ensures { result ≡ is_raw mode }
{
    Mode::try_from(mode).is_ok_and(Mode::is_raw)
}

pub fn in_double_quotes(mode: u32) -> Result<bool, Refusal>
    ensures { told result ≡ tested_mode in_double_quotes mode }
{
    Ok(Mode::try_from(mode)?.in_double_quotes())
}

pub fn characters_should_be_ascii(mode: u32) -> Result<bool, Refusal>
    ensures { told result ≡ tested_mode characters_should_be_ascii mode }
{
    Ok(Mode::try_from(mode)?.characters_should_be_ascii())
}

pub fn is_unicode_escape_disallowed(mode: u32) -> Result<bool, Refusal>
    ensures { told result ≡ tested_mode is_unicode_escape_disallowed mode }
{
    Ok(Mode::try_from(mode)?.is_unicode_escape_disallowed())
}

// The length of the prefix: 1 for `b`, else 0.
pub fn prefix_noraw(mode: u32) -> Result<usize, Refusal>
    ensures { given result ≡ tested_mode has_prefix mode }
{
    Ok(usize::from(Mode::try_from(mode)?.has_prefix()))
}
