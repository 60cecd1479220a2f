// The token at a place: decided by its first character, in the order of the tests.
ghost use Rattle.std.specs.Prelude.{◌≡◌, ◌-◌, ◌≤◌, length};
ghost use Rattle.lexer.specs.Unicode.{start_in, more_in, letters_in, lent};
ghost use Rattle.lexer.specs.Steps.{place_of, Stands, Lettered, NumberAt, StringAt, LiteralAt, Plainly, Cuts};
ghost use Rattle.lexer.specs.Promises.{Advanced};
ghost use Rattle.cutters.specs.Numbers.{kind_number};

use crate::comments::{Part, slash};
use crate::cursor::Cursor;
use crate::lent::Letters;
use crate::numbers::{Figures, eat_literal_suffix, has_timing_or_imaginary_suffix, number};
use crate::quotes::double_quoted_string;
use crate::words::{annotation, hardware_ident, ident_or_unknown_prefix, pound};
use characters::utf8::decode;
use cutters::{Kind, Piece};
use std::num::NonZeroUsize;

// A token that is no literal: its suffix is told at its own start.
fn plain(at: usize, kind: Kind, end: Cursor) -> Piece
    ensures { Plainly at (kind_number kind) 0 end.at (kind_number result.kind) result.suffix result.misplaced result.end }
{
    Piece {
        kind,
        suffix: at,
        misplaced: 0,
        end: end.at,
    }
}

fn plain_part(at: usize, p: Part) -> Piece
    ensures { Plainly at (kind_number p.kind) 0 p.cursor.at (kind_number result.kind) result.suffix result.misplaced result.end }
{
    plain(at, p.kind, p.cursor)
}

// The place in a token that starts at `at`, of a place in the text, 0 for none.
fn place_in(at: usize, found: Option<NonZeroUsize>) -> usize
    ensures { result ≡ place_of found - at }
{
    found.map_or(0, |place| place.get().saturating_sub(at))
}

// A hardware identifier, or what else begins with a dollar sign.
fn wire(at: usize, f: Figures) -> Piece
    ensures { Plainly at (kind_number f.kind) (place_of f.misplaced) f.cursor.at (kind_number result.kind) result.suffix result.misplaced result.end }
{
    Piece {
        kind: f.kind,
        suffix: at,
        misplaced: place_in(at, f.misplaced),
        end: f.cursor.at,
    }
}

// A quoted text, behind its quote.
fn string(text: &[u8], from: Cursor, letters: &Letters<'_>) -> Piece
    requires { from.at ≤ length text.now }
    ensures { StringAt (start_in letters.now.start.now) (more_in letters.now.more.now) text.now from.at (kind_number result.kind) result.suffix result.misplaced result.end }
{
    let q = double_quoted_string(text, from);
    let end = if q.closed {
        eat_literal_suffix(text, q.cursor, letters)
    } else {
        q.cursor
    };
    Piece {
        kind: q.kind,
        suffix: q.cursor.at,
        misplaced: 0,
        end: end.at,
    }
}

// A number, behind its first digit. A unit is a token of its own.
fn numeral(text: &[u8], at: usize, from: Cursor, first_digit: u32, letters: &Letters<'_>) -> Piece
    requires { from.at ≤ length text.now }
    ensures { NumberAt (start_in letters.now.start.now) (more_in letters.now.more.now) first_digit text.now at from.at (kind_number result.kind) result.suffix result.misplaced result.end }
{
    let n = number(text, from, first_digit);
    let end = if has_timing_or_imaginary_suffix(text, n.cursor) {
        n.cursor
    } else {
        eat_literal_suffix(text, n.cursor, letters)
    };
    Piece {
        kind: n.kind,
        suffix: n.cursor.at,
        misplaced: place_in(at, n.misplaced),
        end: end.at,
    }
}

// A quoted text or a number, behind its first character c.
fn literal(text: &[u8], at: usize, from: Cursor, c: u32, letters: &Letters<'_>) -> Piece
    requires { from.at ≤ length text.now }
    ensures { LiteralAt (start_in letters.now.start.now) (more_in letters.now.more.now) c text.now at from.at (kind_number result.kind) result.suffix result.misplaced result.end }
{
    if c == 0x22 {
        return string(text, from, letters);
    }
    numeral(text, at, from, c, letters)
}

// A letter of ASCII, an underscore, or a character beyond ASCII, where the tables decide: an identifier, one that begins with an
// emoji, or an unknown character.
fn named(text: &[u8], at: usize, c: u32, next: Cursor, profile: u32, letters: &Letters<'_>) -> Piece
    requires { (Stands text.now at c next.at) × (Lettered c) }
    ensures { Cuts (letters_in letters.now) profile text.now at (kind_number result.kind) result.suffix result.misplaced result.end }
{
    if letters.is_id_start(c) {
        let own = Cursor { at };
        let p = ident_or_unknown_prefix(text, own, c, next, profile, letters);
        return plain_part(at, p);
    }
    if letters.is_wide_emoji(c) {
        return plain(at, Kind::InvalidIdent, next.eat_fake(text, letters));
    }
    plain(at, Kind::Unknown, next)
}

// The token that begins with c, in the order of the tests; no two arms take the same character but white space beyond ASCII. A
// quoted text stands with the numbers: the compiler would take the range of the digits alone for rare, and call what cuts a number
// instead of placing it in line.
fn advance(
    text: &[u8],
    at: usize,
    c: u32,
    next: Cursor,
    profile: u32,
    letters: &Letters<'_>,
) -> Piece
    requires { Stands text.now at c next.at }
    ensures { Cuts (letters_in letters.now) profile text.now at (kind_number result.kind) result.suffix result.misplaced result.end }
{
    match c {
        0x2F => plain_part(at, slash(text, next)),
        0x09..=0x0D | 0x20 | 0x85 | 0x200E..=0x200F | 0x2028..=0x2029 => plain(
            at,
            Kind::Whitespace,
            next.eat_whitespace(text),
        ),
        0x41..=0x5A | 0x5F | 0x61..=0x7A | 0x80..=0xFFFF_FFFF => named(
            text, at, c, next, profile, letters,
        ),
        0x22 | 0x30..=0x39 => literal(text, at, next, c, letters),
        0x23 => plain_part(at, pound(text, next)),
        0x40 => plain_part(at, annotation(text, next, letters)),
        0x24 => wire(at, hardware_ident(text, next, letters)),
        0x3B => plain(at, Kind::Semi, next),
        0x2C => plain(at, Kind::Comma, next),
        0x2E => plain(at, Kind::Dot, next),
        0x28 => plain(at, Kind::OpenParen, next),
        0x29 => plain(at, Kind::CloseParen, next),
        0x7B => plain(at, Kind::OpenBrace, next),
        0x7D => plain(at, Kind::CloseBrace, next),
        0x5B => plain(at, Kind::OpenBracket, next),
        0x5D => plain(at, Kind::CloseBracket, next),
        0x7E => plain(at, Kind::Tilde, next),
        0x3F => plain(at, Kind::Question, next),
        0x3A => plain(at, Kind::Colon, next),
        0x3D => plain(at, Kind::Eq, next),
        0x21 => plain(at, Kind::Bang, next),
        0x3C => plain(at, Kind::Lt, next),
        0x3E => plain(at, Kind::Gt, next),
        0x2D => plain(at, Kind::Minus, next),
        0x26 => plain(at, Kind::And, next),
        0x7C => plain(at, Kind::Or, next),
        0x2B => plain(at, Kind::Plus, next),
        0x2A => plain(at, Kind::Star, next),
        0x5E => plain(at, Kind::Caret, next),
        0x25 => plain(at, Kind::Percent, next),
        _ => plain(at, Kind::Unknown, next),
    }
}

// The token at any place, over tables of the letters that are lent; at or past the end there is none.
pub fn advance_token(text: &[u8], at: usize, profile: u32, letters: &Letters<'_>) -> Piece
    ensures { Advanced (letters_in letters.now) profile text.now at (kind_number result.kind) result.suffix result.misplaced result.end }
{
    if text.len() <= at {
        return Piece {
            kind: Kind::Eof,
            suffix: at,
            misplaced: 0,
            end: at,
        };
    }
    let d = decode(text, at);
    let next = Cursor { at: at + d.wide };
    advance(text, at, d.code, next, profile, letters)
}
