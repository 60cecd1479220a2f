// Escapes: what stands behind a backslash.
ghost use Rattle.std.specs.Prelude.{◌≡◌, ◌<◌, IfSome, IfOk};
ghost use Rattle.unescape.specs.Escapes.{to_digit, hex_digit, hex_escape, first_digit, or_underscore, add_digit, code_point, closing, braced, unicode_escape, simple, escape, ascii_check};
ghost use Rattle.modes.specs.Numbers.{outcome_of};
ghost use Rattle.unescape.specs.Steps.{ascii_only, is_digit, with_digit, Scanned, AteOn};

use crate::chars::Chars;
use modes::{EscapeError, Mode};

// The digits of `\u{..}`: how many, and the value of the first six.
#[derive(Clone, Copy)]
struct Digits {
    count: usize,
    value: u32,
}

// The value of a hexadecimal digit, by its range. All three are asked, so that no jump depends on the digit, which cannot be guessed; until they are,
// 16 stands for none.
#[inline(always)]
fn to_digit(c: u32) -> Option<u32>
    ensures { is_digit c result }
{
    let mut value = 16;
    if (0x30 <= c) & (c <= 0x39) {
        value = c - 0x30;
    }
    if (0x41 <= c) & (c <= 0x46) {
        value = c - 0x41 + 10;
    }
    if (0x61 <= c) & (c <= 0x66) {
        value = c - 0x61 + 10;
    }
    (value < 16).then_some(value)
}

// The escapes of one character.
#[tactic(auto, unfolding(crate::specs::Escapes::simple))]
pub fn simple(c: u32) -> Result<u32, EscapeError>
    ensures { outcome_of result ≡ simple c }
{
    match c {
        0x22 => Ok(0x22),
        0x6E => Ok(0x0A),
        0x72 => Ok(0x0D),
        0x74 => Ok(0x09),
        0x5C => Ok(0x5C),
        0x27 => Ok(0x27),
        0x30 => Ok(0x00),
        _ => Err(EscapeError::InvalidEscape),
    }
}

#[inline(always)]
fn hex_digit(chars: &mut Chars<'_>) -> Result<u32, EscapeError>
    ensures { (Scanned hex_digit chars.old.text.now chars.old.at result chars.new.text.now chars.new.at) × IfOk result (λ v. v < 16) }
{
    let c = chars.next().ok_or(EscapeError::TooShortHexEscape)?;
    to_digit(c).ok_or(EscapeError::InvalidCharInHexEscape)
}

// Behind `\x`: two digits.
#[inline(always)]
pub fn scan_hex(chars: &mut Chars<'_>) -> Result<u32, EscapeError>
    ensures { Scanned hex_escape chars.old.text.now chars.old.at result chars.new.text.now chars.new.at }
{
    let hi = hex_digit(chars)?;
    let lo = hex_digit(chars)?;
    Ok(hi * 16 + lo)
}

// Behind a backslash.
pub fn scan_escape(chars: &mut Chars<'_>, mode: Mode) -> Result<u32, EscapeError>
    ensures { Scanned (escape (ascii_only mode)) chars.old.text.now chars.old.at result chars.new.text.now chars.new.at }
{
    match chars.next().ok_or(EscapeError::LoneSlash)? {
        0x78 => scan_hex(chars),
        0x75 => scan_unicode(chars, mode),
        c => simple(c),
    }
}

// The first digit of `\u{..}`.
fn first_digit(chars: &mut Chars<'_>) -> Result<u32, EscapeError>
    ensures { (Scanned first_digit chars.old.text.now chars.old.at result chars.new.text.now chars.new.at) × IfOk result (λ v. v < 16) }
{
    match chars.next().ok_or(EscapeError::UnclosedUnicodeEscape)? {
        0x5F => Err(EscapeError::LeadingUnderscoreUnicodeEscape),
        0x7D => Err(EscapeError::EmptyUnicodeEscape),
        c => to_digit(c).ok_or(EscapeError::InvalidCharInUnicodeEscape),
    }
}

impl Digits {
    // With one digit more, or none. From the seventh on the value is no longer asked for, and so it stays below 2^24.
    fn and(self, digit: Option<u32>) -> Digits
        requires { IfSome digit (λ d. (d < 16) × (self.count < 18446744073709551615) × (self.count < 6 → self.value < 1048576)) }
        ensures { result ≡ with_digit self digit }
    {
        let Some(digit) = digit else {
            return self;
        };
        Digits {
            count: self.count + 1,
            value: if self.count < 6 {
                self.value * 16 + digit
            } else {
                self.value
            },
        }
    }
}

// By the character and what it is worth.
fn is_digit_or_underscore(c: u32, digit: Option<u32>) -> bool
    requires { is_digit c digit }
    ensures { result ≡ or_underscore c }
{
    digit.is_some() || c == 0x5F
}

// Behind a first digit, byte by byte: only ASCII is a digit. No text has so many that the count wraps.
#[inline(always)]
fn more_digits(chars: &mut Chars<'_>, first: u32) -> Digits
    requires { first < 16 }
    ensures { AteOn or_underscore add_digit chars.old.text.now chars.old.at (1, first) chars.new.text.now chars.new.at (result.count, result.value) }
{
    let mut digits = Digits {
        count: 1,
        value: first,
    };
    for (i, b) in chars.text[chars.at..].iter().enumerate() {
        let c = *b as u32;
        let digit = to_digit(c);
        if !is_digit_or_underscore(c, digit) {
            chars.at += i;
            return digits;
        }
        digits = digits.and(digit);
    }
    chars.at = chars.text.len();
    digits
}

// Wrong syntax comes before a value that the literal can't hold.
#[tactic(auto, unfolding(crate::specs::Escapes::code_point, characters::specs::Utf8::is_scalar))]
fn code_point(digits: Digits, mode: Mode) -> Result<u32, EscapeError>
    ensures { outcome_of result ≡ code_point (ascii_only mode) digits.count digits.value }
{
    if 6 < digits.count {
        return Err(EscapeError::OverlongUnicodeEscape);
    }
    if mode.is_unicode_escape_disallowed() {
        return Err(EscapeError::UnicodeEscapeInByte);
    }
    match digits.value {
        0..=0xD7FF | 0xE000..=0x10FFFF => Ok(digits.value),
        0xD800..=0xDFFF => Err(EscapeError::LoneSurrogateUnicodeEscape),
        _ => Err(EscapeError::OutOfRangeUnicodeEscape),
    }
}

// Behind the digits of `\u{..}`.
#[inline(always)]
fn closing_brace(chars: &mut Chars<'_>, digits: Digits, mode: Mode) -> Result<u32, EscapeError>
    ensures { Scanned (closing (ascii_only mode) (digits.count, digits.value)) chars.old.text.now chars.old.at result chars.new.text.now chars.new.at }
{
    match chars.next().ok_or(EscapeError::UnclosedUnicodeEscape)? {
        0x7D => code_point(digits, mode),
        _ => Err(EscapeError::InvalidCharInUnicodeEscape),
    }
}

// Behind `\u{`.
#[inline(always)]
fn scan_braced(chars: &mut Chars<'_>, mode: Mode) -> Result<u32, EscapeError>
    ensures { Scanned (braced (ascii_only mode)) chars.old.text.now chars.old.at result chars.new.text.now chars.new.at }
{
    let first = first_digit(chars)?;
    let digits = more_digits(chars, first);
    closing_brace(chars, digits, mode)
}

// Behind `\u`.
#[inline(always)]
pub fn scan_unicode(chars: &mut Chars<'_>, mode: Mode) -> Result<u32, EscapeError>
    ensures { Scanned (unicode_escape (ascii_only mode)) chars.old.text.now chars.old.at result chars.new.text.now chars.new.at }
{
    match chars.next().ok_or(EscapeError::NoBraceInUnicodeEscape)? {
        0x7B => scan_braced(chars, mode),
        _ => Err(EscapeError::NoBraceInUnicodeEscape),
    }
}

// A character that stands for itself.
#[tactic(auto, unfolding(crate::specs::Escapes::ascii_check))]
pub fn ascii_check(c: u32, mode: Mode) -> Result<u32, EscapeError>
    ensures { outcome_of result ≡ ascii_check (ascii_only mode) c }
{
    if 0x80 <= c && mode.characters_should_be_ascii() {
        return Err(EscapeError::NonAsciiCharInByte);
    }
    Ok(c)
}
