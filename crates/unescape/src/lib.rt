// The bodies of literals: what their escapes stand for.
#![tactic(auto)]

ghost use Rattle.std.specs.Prelude.{◌≡◌, true, false, min, IfOk};
ghost use Rattle.characters.specs.Utf8.{chars};
ghost use Rattle.text.specs.Refusals.{given};
ghost use Rattle.modes.specs.Numbers.{outcome_of};
ghost use Rattle.unescape.specs.Bodies.{char_or_byte};
ghost use Rattle.unescape.specs.Steps.{ascii_only};
ghost use Rattle.unescape.specs.Promises.{Unescaped, part, single, read_one};

mod bodies;
mod chars;
mod escapes;
mod list;

use chars::Chars;
pub use list::outcome;
use modes::Mode;
pub use modes::{
    EscapeError, byte_from_char, characters_should_be_ascii, in_double_quotes, is_fatal,
    is_unicode_escape_disallowed, prefix_noraw,
};
use text::{Refusal, check_text};

// The items of a body, three words for each: start, end and outcome. Start and end count bytes from the body's first; the
// outcome is the code point, or 1,114,112 plus the number of its `EscapeError`.
pub fn unescape_literal(body: &[u8], mode: u32, list: &mut [u32]) -> Result<usize, Refusal>
    ensures { Unescaped body.now mode list.old (given result).0 (given result).1 list.new }
{
    let mode = Mode::try_from(mode)?;
    check_text(body)?;
    list::store(body, mode, list)
}

// The same for a body inside its text, from `from` up to `to`: `to` is first brought down to the text's length, then `from` to `to`.
pub fn unescape_part(
    text: &[u8],
    from: usize,
    to: usize,
    mode: u32,
    list: &mut [u32],
) -> Result<usize, Refusal>
    ensures { Unescaped (part text.now from to) mode list.old (given result).0 (given result).1 list.new }
{
    let end = to.min(text.len());
    let start = from.min(end);
    unescape_literal(&text[start..end], mode, list)
}

fn unescape_single(text: &[u8], mode: Mode) -> Result<Result<u32, EscapeError>, Refusal>
    ensures answer { read_one result ≡ single (ascii_only mode) text.now }
    ensures read { IfOk result (λ r. outcome_of r ≡ (char_or_byte (ascii_only mode) (chars text.now)).0) }
{
    check_text(text)?;
    Ok(bodies::unescape_char_or_byte(&mut Chars { text, at: 0 }, mode))
}

#[tactic(auto, unfolding(modes::specs::Modes::characters_should_be_ascii))]
pub fn unescape_char(text: &[u8]) -> Result<Result<u32, EscapeError>, Refusal>
    ensures answer { read_one result ≡ single false text.now }
    ensures read { IfOk result (λ r. outcome_of r ≡ (char_or_byte false (chars text.now)).0) }
{
    unescape_single(text, Mode::Char)
}

#[tactic(auto, unfolding(modes::specs::Modes::characters_should_be_ascii))]
pub fn unescape_byte(text: &[u8]) -> Result<Result<u32, EscapeError>, Refusal>
    ensures answer { read_one result ≡ single true text.now }
    ensures read { IfOk result (λ r. outcome_of r ≡ (char_or_byte true (chars text.now)).0) }
{
    unescape_single(text, Mode::Byte)
}
