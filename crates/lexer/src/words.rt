// Identifiers, pragmas, annotations and hardware identifiers.
ghost use Rattle.std.specs.Prelude.{◌≡◌, ◌∷◌, ◌≤◌, length};
ghost use Rattle.characters.specs.Text.{left};
ghost use Rattle.cutters.specs.Numbers.{kind_number};
ghost use Rattle.lexer.specs.Cut.{agree, name, word, pound, annotated, hardware};
ghost use Rattle.lexer.specs.Unicode.{start_in, more_in, emoji_in};
ghost use Rattle.lexer.specs.Steps.{Parted, Wired, place_of};

use crate::comments::Part;
use crate::cursor::{Cursor, byte};
use crate::lent::Letters;
use crate::numbers::Figures;
use cutters::Kind;

// The word that makes a Pragma of a line.
static PRAGMA_WORD: [u8; 6] = *b"pragma";

// How many bytes of a text agree with a word.
fn agree_with(text: &[u8], word: &[u8]) -> usize
    ensures { result ≡ agree word.now text.now }
{
    text.iter().zip(word).take_while(|(b, w)| b == w).count()
}

// Behind a number sign: the bytes of `pragma` make a Pragma of the line.
pub fn pound(text: &[u8], from: Cursor) -> Part
    requires { from.at ≤ length text.now }
    ensures { Parted pound text.now from.at (kind_number result.kind) result.cursor.at }
{
    let n = agree_with(&text[from.at..], &PRAGMA_WORD);
    if n == PRAGMA_WORD.len() {
        return Part {
            kind: Kind::Pragma,
            cursor: from.eat_line(text),
        };
    }
    Part {
        kind: Kind::InvalidIdent,
        cursor: Cursor { at: from.at + n },
    }
}

// Behind the ASCII that an identifier begins with.
fn wide_name(text: &[u8], from: Cursor, letters: &Letters<'_>) -> Part
    requires { from.at ≤ length text.now }
    ensures { Parted (name (more_in letters.now.more.now) (emoji_in letters.now.emoji.now)) text.now from.at (kind_number result.kind) result.cursor.at }
{
    let cursor = from.eat_id_continue(text, letters);
    if letters.is_wide_emoji(cursor.first(text)) {
        return Part {
            kind: Kind::InvalidIdent,
            cursor: cursor.eat_fake(text, letters),
        };
    }
    Part {
        kind: Kind::Ident,
        cursor,
    }
}

// Behind the first character of an identifier. Most are of ASCII alone, and end here.
fn name(text: &[u8], from: Cursor, letters: &Letters<'_>) -> Part
    requires { from.at ≤ length text.now }
    ensures { Parted (name (more_in letters.now.more.now) (emoji_in letters.now.emoji.now)) text.now from.at (kind_number result.kind) result.cursor.at }
{
    let cursor = from.eat_ascii_continue(text, letters);
    if byte(text, cursor.at) < 0x80 {
        return Part {
            kind: Kind::Ident,
            cursor,
        };
    }
    wide_name(text, cursor, letters)
}

// Behind the first character c of an identifier that begins at `own`. Under profile 1 the bytes of `pragma` make a Pragma of
// the line.
pub fn ident_or_unknown_prefix(
    text: &[u8],
    own: Cursor,
    c: u32,
    from: Cursor,
    profile: u32,
    letters: &Letters<'_>,
) -> Part
    requires { (own.at ≤ length text.now) × (from.at ≤ length text.now) × (left text.now own.at ≡ c ∷ left text.now from.at) }
    ensures { Parted (word (more_in letters.now.more.now) (emoji_in letters.now.emoji.now) profile c) text.now from.at (kind_number result.kind) result.cursor.at }
{
    if profile == 1 && text[own.at..].starts_with(&PRAGMA_WORD) {
        return Part {
            kind: Kind::Pragma,
            cursor: from.eat_line(text),
        };
    }
    name(text, from, letters)
}

// Behind an at sign.
pub fn annotation(text: &[u8], from: Cursor, letters: &Letters<'_>) -> Part
    requires { from.at ≤ length text.now }
    ensures { Parted (annotated (start_in letters.now.start.now)) text.now from.at (kind_number result.kind) result.cursor.at }
{
    if letters.is_id_start(from.first(text)) {
        return Part {
            kind: Kind::Annotation,
            cursor: from.eat_line(text),
        };
    }
    Part {
        kind: Kind::At,
        cursor: from,
    }
}

// Behind a dollar sign.
pub fn hardware_ident(text: &[u8], from: Cursor, letters: &Letters<'_>) -> Figures
    requires { from.at ≤ length text.now }
    ensures { (Parted (hardware (more_in letters.now.more.now) (emoji_in letters.now.emoji.now)) text.now from.at (kind_number result.kind) result.cursor.at) × (Wired text.now from.at (kind_number result.kind) (place_of result.misplaced) result.cursor.at) }
{
    if letters.is_wide_emoji(from.first(text)) {
        let mid = from.eat_id_continue(text, letters);
        return Figures {
            kind: Kind::InvalidIdent,
            misplaced: None,
            cursor: mid.eat_fake(text, letters),
        };
    }
    let d = from.eat_digits::<false>(text);
    Figures {
        kind: if d.any {
            Kind::HardwareIdent
        } else {
            Kind::Dollar
        },
        misplaced: d.misplaced,
        cursor: d.cursor,
    }
}
