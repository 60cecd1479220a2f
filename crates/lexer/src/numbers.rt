// Numbers and their suffixes.
ghost use Rattle.std.specs.Prelude.{◌≡◌, ◌||◌, ◌≤◌, eqb, length};
ghost use mathlib.Core.List.{tail};
ghost use Rattle.characters.specs.Steps.{Place};
ghost use Rattle.characters.specs.Text.{left};
ghost use Rattle.cutters.specs.Digits.{peek};
ghost use Rattle.cutters.specs.Numbers.{base_number, kind_number};
ghost use Rattle.lexer.specs.Cut.{is_e, exponent, exponent_of, point, fraction, based, number, is_unit, identifier};
ghost use Rattle.lexer.specs.Unicode.{start_in, more_in};
ghost use Rattle.lexer.specs.Steps.{Read, Numbered, place_of};

use crate::cursor::{Cursor, Digits, is_digit};
use crate::lent::Letters;
use cutters::{Base, Kind};
use std::num::NonZeroUsize;

// What holds digits: its kind, the place of its first misplaced underscore, and the cursor behind it.
#[derive(Clone, Copy)]
pub struct Figures {
    pub kind: Kind,
    pub misplaced: Option<NonZeroUsize>,
    pub cursor: Cursor,
}

pub fn is_sign(c: u32) -> bool
    ensures { result ≡ (eqb c 0x2D || eqb c 0x2B) }
{
    matches!(c, 0x2D | 0x2B)
}

pub fn is_e(c: u32) -> bool
    ensures { result ≡ is_e c }
{
    matches!(c, 0x65 | 0x45)
}

fn eat_float_exponent(text: &[u8], from: Cursor) -> Digits
    requires { from.at ≤ length text.now }
    ensures { Read exponent text.now from.at 0 result.any (place_of result.misplaced) result.cursor.at }
{
    if is_sign(from.first(text)) {
        return from.bump(text).eat_digits::<false>(text);
    }
    from.eat_digits::<false>(text)
}

// A Float, behind its e. The place `found` is that of the first misplaced underscore before, as it is below.
fn exponent_of(text: &[u8], from: Cursor, base: Base, found: Option<NonZeroUsize>) -> Figures
    requires { from.at ≤ length text.now }
    ensures { Read (exponent_of (base_number base)) text.now from.at (place_of found) (kind_number result.kind) (place_of result.misplaced) result.cursor.at }
{
    let e = eat_float_exponent(text, from);
    Figures {
        kind: Kind::Float {
            base,
            empty_exponent: !e.any,
        },
        misplaced: found.or(e.misplaced),
        cursor: e.cursor,
    }
}

// A Float, behind its point.
fn point(text: &[u8], from: Cursor, base: Base, found: Option<NonZeroUsize>) -> Figures
    requires { from.at ≤ length text.now }
    ensures { Read (point (base_number base)) text.now from.at (place_of found) (kind_number result.kind) (place_of result.misplaced) result.cursor.at }
{
    let kind = Kind::Float {
        base,
        empty_exponent: false,
    };
    if !is_digit(from.first(text)) {
        return Figures {
            kind,
            misplaced: found,
            cursor: from,
        };
    }
    let d = from.eat_digits::<false>(text);
    let misplaced = found.or(d.misplaced);
    if is_e(d.cursor.first(text)) {
        return exponent_of(text, d.cursor.bump(text), base, misplaced);
    }
    Figures {
        kind,
        misplaced,
        cursor: d.cursor,
    }
}

// Behind the digits of a base: a point, an exponent, or nothing. Placed in line, as most numbers end here: a call takes some forty instructions more
// for each number.
#[inline(always)]
fn fraction(text: &[u8], from: Cursor, base: Base, found: Option<NonZeroUsize>) -> Figures
    requires { from.at ≤ length text.now }
    ensures { Read (fraction (base_number base)) text.now from.at (place_of found) (kind_number result.kind) (place_of result.misplaced) result.cursor.at }
{
    let x = from.first(text);
    if x == 0x2E {
        return point(text, from.bump(text), base, found);
    }
    if is_e(x) {
        return exponent_of(text, from.bump(text), base, found);
    }
    Figures {
        kind: Kind::Int {
            base,
            empty_int: false,
        },
        misplaced: found,
        cursor: from,
    }
}

// Behind 0b, 0o or 0x and what digits there are.
#[inline(always)]
fn based(text: &[u8], d: Digits, base: Base) -> Figures
    requires { d.cursor.at ≤ length text.now }
    ensures { Read (based (base_number base) d.any) text.now d.cursor.at (place_of d.misplaced) (kind_number result.kind) (place_of result.misplaced) result.cursor.at }
{
    if d.any {
        return fraction(text, d.cursor, base, d.misplaced);
    }
    Figures {
        kind: Kind::Int {
            base,
            empty_int: true,
        },
        misplaced: d.misplaced,
        cursor: d.cursor,
    }
}

// Behind a first digit.
pub fn number(text: &[u8], from: Cursor, first_digit: u32) -> Figures
    requires { from.at ≤ length text.now }
    ensures { Numbered first_digit text.now from.at (kind_number result.kind) (place_of result.misplaced) result.cursor.at }
{
    if first_digit == 0x30 {
        match from.first(text) {
            0x62 => return based(
                text,
                from.bump(text).eat_digits::<false>(text),
                Base::Binary,
            ),
            0x6F => return based(text, from.bump(text).eat_digits::<false>(text), Base::Octal),
            0x78 => return based(
                text,
                from.bump(text).eat_digits::<true>(text),
                Base::Hexadecimal,
            ),
            _ => {}
        }
    }
    let d = from.eat_digits::<false>(text);
    fraction(text, d.cursor, Base::Decimal, d.misplaced)
}

#[tactic(auto, unfolding(crate::specs::Cut::is_unit))]
pub fn is_unit(x: u32, y: u32) -> bool
    ensures { result ≡ is_unit x y }
{
    match x {
        0x73 => true,
        0x64 => y == 0x74,
        0x6E | 0x75 | 0x6D | 0xB5 => y == 0x73,
        0x69 => y == 0x6D,
        _ => false,
    }
}

pub fn has_timing_or_imaginary_suffix(text: &[u8], from: Cursor) -> bool
    requires { from.at ≤ length text.now }
    ensures { result ≡ is_unit (peek (left text.now from.at)) (peek (tail (left text.now from.at))) }
{
    let x = from.first(text);
    let y = from.bump(text).first(text);
    is_unit(x, y)
}

// The suffix of a literal is an identifier.
pub fn eat_literal_suffix(text: &[u8], from: Cursor, letters: &Letters<'_>) -> Cursor
    requires { from.at ≤ length text.now }
    ensures { Place text.now from.at result.at (identifier (start_in letters.now.start.now) (more_in letters.now.more.now) (left text.now from.at)) }
{
    if !letters.is_id_start(from.first(text)) {
        return from;
    }
    from.bump(text).eat_id_continue(text, letters)
}
