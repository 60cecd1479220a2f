// The lexer: how OpenQASM 3 text is cut into tokens, one at a place.
#![tactic(auto)]

ghost use Rattle.std.specs.Prelude.{◌≡◌};
ghost use Rattle.characters.specs.Utf8.{chars};
ghost use Rattle.letters.specs.Chars.{ident_by};
ghost use Rattle.lexer.specs.Unicode.{start_in, more_in, unicode, lent};
ghost use Rattle.text.specs.Refusals.{told};
ghost use Rattle.lexer.specs.Promises.{identified};

mod advance;
mod comments;
mod cursor;
mod lent;
mod numbers;
mod quotes;
mod words;

pub use advance::advance_token;
use characters::utf8::decode;
use cursor::Cursor;
pub use cursor::{is_digit, is_digit_by, is_hex_digit, not_lf};
pub use cutters::{Base, Kind};
pub use lent::Letters;
pub use letters::{is_id_continue, is_id_start, is_whitespace};
pub use numbers::{is_e, is_sign, is_unit};
use text::{Refusal, check_text};

// Over letters that are lent.
fn is_ident_in(text: &[u8], letters: &Letters<'_>) -> bool
    ensures { result ≡ ident_by (start_in letters.now.start.now) (more_in letters.now.more.now) (chars text.now) }
{
    if text.len() == 0 {
        return false;
    }
    let d = decode(text, 0);
    if !letters.is_id_start(d.code) {
        return false;
    }
    let next = Cursor { at: d.wide };
    let end = next.eat_id_continue(text, letters);
    end.at == text.len()
}

// Whether a text is an identifier.
pub fn is_ident(text: &[u8]) -> Result<bool, Refusal>
    ensures { told result ≡ identified text.now }
{
    check_text(text)?;
    Ok(is_ident_in(text, &Letters::unicode()))
}
