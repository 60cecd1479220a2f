// The characters of a body, and what each gives.
ghost use Rattle.std.specs.Prelude.{◌≡◌, false, length};
ghost use Rattle.lists.specs.Eat.{eat};
ghost use Rattle.characters.specs.Text.{left};
ghost use Rattle.unescape.specs.Bodies.{is_escape_only, one_char, char_or_byte, str_char, is_skipped, saw_lf, skipped, slashed, str_common, raw_char, turn};
ghost use Rattle.modes.specs.Numbers.{mode_number, outcome_of};
ghost use Rattle.unescape.specs.Steps.{ascii_only, step_of, Scanned, AteOn, Behind, From};

use crate::chars::Chars;
use crate::escapes::{ascii_check, scan_escape, scan_hex, scan_unicode, simple};
use modes::{EscapeError, Mode};
use ucd::is_white_space;

// What a turn over a body gives, which leads up to where the characters then are: the item up to there, if there is one; and the place up to which
// warning 21 goes, if it is given.
#[derive(Clone, Copy)]
pub struct Step {
    pub item: Option<Result<u32, EscapeError>>,
    pub space: Option<usize>,
}

// One item.
fn item(read: Result<u32, EscapeError>) -> Step
    ensures { result ≡ step_of read }
{
    Step {
        item: Some(read),
        space: None,
    }
}

fn is_escape_only(c: u32) -> bool
    ensures { result ≡ is_escape_only c }
{
    matches!(c, 0x0A | 0x09 | 0x27)
}

// The character c, or its escape behind it.
fn one_char(chars: &mut Chars<'_>, c: u32, mode: Mode) -> Result<u32, EscapeError>
    ensures { Scanned (one_char (ascii_only mode) c) chars.old.text.now chars.old.at result chars.new.text.now chars.new.at }
{
    match c {
        0x5C => scan_escape(chars, mode),
        0x0D => Err(EscapeError::BareCarriageReturn),
        _ if is_escape_only(c) => Err(EscapeError::EscapeOnlyChar),
        _ => ascii_check(c, mode),
    }
}

pub fn unescape_char_or_byte(chars: &mut Chars<'_>, mode: Mode) -> Result<u32, EscapeError>
    ensures { Scanned (char_or_byte (ascii_only mode)) chars.old.text.now chars.old.at result chars.new.text.now chars.new.at }
{
    let c = chars.next().ok_or(EscapeError::ZeroChars)?;
    let read = one_char(chars, c, mode)?;
    if chars.next().is_some() {
        return Err(EscapeError::MoreThanOneChar);
    }
    Ok(read)
}

// A character of Str, BitStr or ByteStr that is no backslash. LF and tab are as any other.
#[tactic(auto, unfolding(crate::specs::Bodies::str_char))]
fn str_char(c: u32, mode: Mode) -> Result<u32, EscapeError>
    ensures { outcome_of result ≡ str_char (ascii_only mode) c }
{
    match c {
        0x22 => Err(EscapeError::EscapeOnlyChar),
        0x0D => Err(EscapeError::BareCarriageReturn),
        _ => ascii_check(c, mode),
    }
}

// Behind a backslash: as `scan_escape`, but for the newline. It tells the escapes apart itself, so that what stands there is decoded
// once, and an escape of one character is compiled into the loop.
fn slash(chars: &mut Chars<'_>, mode: Mode) -> Step
    ensures { Behind (λ from. slashed (length chars.old.text.now) (ascii_only mode) from (left chars.old.text.now chars.old.at)) chars.old.text.now chars.old.at result chars.new.text.now chars.new.at }
{
    match chars.next() {
        None => item(Err(EscapeError::LoneSlash)),
        Some(0x0A) => skip_ascii_whitespace(chars),
        Some(0x78) => item(scan_hex(chars)),
        Some(0x75) => item(scan_unicode(chars, mode)),
        Some(c) => item(simple(c)),
    }
}

// Behind a character c of Str, BitStr or ByteStr.
fn unescape_str_common(chars: &mut Chars<'_>, c: u32, mode: Mode) -> Step
    ensures { From (str_common (length chars.old.text.now) (ascii_only mode)) c chars.old.text.now chars.old.at result chars.new.text.now chars.new.at }
{
    if c == 0x5C {
        return slash(chars, mode);
    }
    item(str_char(c, mode))
}

fn is_skipped(c: u32) -> bool
    ensures { result ≡ is_skipped c }
{
    matches!(c, 0x20 | 0x09 | 0x0A | 0x0D)
}

// Whether an LF is among the spaces, tabs, LF and CR that are eaten, byte by byte: only ASCII is skipped.
fn eat_skipped(chars: &mut Chars<'_>) -> bool
    ensures { AteOn is_skipped saw_lf chars.old.text.now chars.old.at false chars.new.text.now chars.new.at result }
{
    let mut lines = false;
    for (i, b) in chars.text[chars.at..].iter().enumerate() {
        let c = *b as u32;
        if !is_skipped(c) {
            chars.at += i;
            return lines;
        }
        lines |= c == 0x0A;
    }
    chars.at = chars.text.len();
    lines
}

// Behind a backslash and a newline. A text's end is no white space.
fn skip_ascii_whitespace(chars: &mut Chars<'_>) -> Step
    ensures { Behind (λ from. skipped (length chars.old.text.now) from (eat is_skipped saw_lf false (left chars.old.text.now chars.old.at))) chars.old.text.now chars.old.at result chars.new.text.now chars.new.at }
{
    let lines = eat_skipped(chars);
    let mut behind = *chars;
    let white = behind.next().is_some_and(is_white_space);
    Step {
        item: lines.then_some(Err(EscapeError::MultipleSkippedLinesWarning)),
        space: white.then_some(behind.at),
    }
}

// A character of RawStr or RawByteStr.
#[tactic(auto, unfolding(crate::specs::Bodies::raw_char))]
fn unescape_raw_str_or_raw_byte_str(c: u32, mode: Mode) -> Result<u32, EscapeError>
    ensures { outcome_of result ≡ raw_char (ascii_only mode) c }
{
    match c {
        0x0D => Err(EscapeError::BareCarriageReturnInRawString),
        _ => ascii_check(c, mode),
    }
}

// Behind a character c of a body of any mode but Char and Byte.
pub fn turn(chars: &mut Chars<'_>, c: u32, mode: Mode) -> Step
    ensures { From (turn (mode_number mode) (length chars.old.text.now)) c chars.old.text.now chars.old.at result chars.new.text.now chars.new.at }
{
    if mode.is_raw() {
        return item(unescape_raw_str_or_raw_byte_str(c, mode));
    }
    unescape_str_common(chars, c, mode)
}
