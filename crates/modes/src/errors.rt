// The errors and warnings of escapes, by the names of the Rust's `EscapeError`.
ghost use Rattle.std.specs.Prelude.{◌≡◌};
ghost use Rattle.modes.specs.Numbers.{error_number, is_fatal, is_error_of};
ghost use Rattle.text.specs.Refusals.{told};
ghost use Rattle.modes.specs.Errors.{fatal};

use text::Refusal;

// Their numbers go from 1 on. The tenth, OutOfRangeHexEscape, is never given.
#[derive(Clone, Copy, Debug, PartialEq, Eq)]
pub enum EscapeError {
    ZeroChars = 1,
    MoreThanOneChar,
    LoneSlash,
    InvalidEscape,
    BareCarriageReturn,
    BareCarriageReturnInRawString,
    EscapeOnlyChar,
    TooShortHexEscape,
    InvalidCharInHexEscape,
    OutOfRangeHexEscape,
    NoBraceInUnicodeEscape,
    InvalidCharInUnicodeEscape,
    EmptyUnicodeEscape,
    UnclosedUnicodeEscape,
    LeadingUnderscoreUnicodeEscape,
    OverlongUnicodeEscape,
    LoneSurrogateUnicodeEscape,
    OutOfRangeUnicodeEscape,
    UnicodeEscapeInByte,
    NonAsciiCharInByte,
    UnskippedWhitespaceWarning,
    MultipleSkippedLinesWarning,
}

impl TryFrom<u32> for EscapeError {
    type Error = Refusal;

    ghost try_from_gives = { is_error_of };

    fn try_from(number: u32) -> Result<EscapeError, Refusal> {
        match number {
            1 => Ok(EscapeError::ZeroChars),
            2 => Ok(EscapeError::MoreThanOneChar),
            3 => Ok(EscapeError::LoneSlash),
            4 => Ok(EscapeError::InvalidEscape),
            5 => Ok(EscapeError::BareCarriageReturn),
            6 => Ok(EscapeError::BareCarriageReturnInRawString),
            7 => Ok(EscapeError::EscapeOnlyChar),
            8 => Ok(EscapeError::TooShortHexEscape),
            9 => Ok(EscapeError::InvalidCharInHexEscape),
            10 => Ok(EscapeError::OutOfRangeHexEscape),
            11 => Ok(EscapeError::NoBraceInUnicodeEscape),
            12 => Ok(EscapeError::InvalidCharInUnicodeEscape),
            13 => Ok(EscapeError::EmptyUnicodeEscape),
            14 => Ok(EscapeError::UnclosedUnicodeEscape),
            15 => Ok(EscapeError::LeadingUnderscoreUnicodeEscape),
            16 => Ok(EscapeError::OverlongUnicodeEscape),
            17 => Ok(EscapeError::LoneSurrogateUnicodeEscape),
            18 => Ok(EscapeError::OutOfRangeUnicodeEscape),
            19 => Ok(EscapeError::UnicodeEscapeInByte),
            20 => Ok(EscapeError::NonAsciiCharInByte),
            21 => Ok(EscapeError::UnskippedWhitespaceWarning),
            22 => Ok(EscapeError::MultipleSkippedLinesWarning),
            _ => Err(Refusal::UnknownSelector),
        }
    }
}

impl EscapeError {
    pub fn number(self) -> u32
        ensures { result ≡ error_number self }
    {
        self as u32
    }

    // Whether it is no mere warning.
    pub fn is_fatal(self) -> bool
        ensures { result ≡ is_fatal (error_number self) }
    {
        !matches!(
            self,
            EscapeError::UnskippedWhitespaceWarning | EscapeError::MultipleSkippedLinesWarning
        )
    }
}

// The same of the error with a number.
pub fn is_fatal(error: u32) -> Result<bool, Refusal>
    ensures { told result ≡ fatal error }
{
    Ok(EscapeError::try_from(error)?.is_fatal())
}
