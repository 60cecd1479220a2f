// The tests of a code point: XID_Start, XID_Continue, Emoji and White_Space of the Unicode Character Database. ASCII is decided before any table.
#![tactic(auto)]

ghost use Rattle.std.specs.Prelude.{◌≡◌, List};
ghost use Rattle.characters.specs.Ranges.{Range, in_table, flat};
ghost use Rattle.ucd.specs.Ucd.{xid_start, xid_continue, emoji, white_space};
ghost use Rattle.ucd.specs.Search.{searched};
ghost use Rattle.ucd.specs.Order.{AsciiFirst, start_first, continue_first, emoji_first, space_first};
ghost use Rattle.ucd.specs.Properties.{is_xid_start, is_xid_continue, is_emoji, is_white_space, ascii_start, ascii_continue, ascii_emoji, ascii_space, tested_in};

mod ranges;
pub mod tables;

use ranges::{search, search_by_call};

// A property that characters have or not.
pub trait Property {
    // The ranges below 0x80 that have it.
    ghost ascii: { List Range };

    // All ranges that have it.
    ghost all: { List Range };

    // Whether an ASCII character has it.
    fn is_ascii(c: u8) -> bool
        ensures { result ≡ in_table c ascii };

    // Its table, low and high end of each range in turn.
    fn table() -> &'static [u32]
        ensures { result.now ≡ flat all };

    // The table rises, and begins with its ASCII: so a search in it, once ASCII is decided, finds what has the property.
    ghost ascii_first: { AsciiFirst ascii all };
}

pub struct XidStart;

pub struct XidContinue;

pub struct Emoji;

pub struct WhiteSpace;

#[tactic(auto, unfolding(crate::specs::Properties::ascii_start, crate::specs::Ucd::xid_start, characters::specs::Ranges::in_table))]
impl Property for XidStart {
    ghost ascii = { ascii_start };

    ghost all = { xid_start };

    ghost ascii_first = { start_first };

    fn is_ascii(c: u8) -> bool {
        c.is_ascii_alphabetic()
    }

    fn table() -> &'static [u32] {
        &tables::XID_START
    }
}

#[tactic(auto, unfolding(crate::specs::Properties::ascii_continue, crate::specs::Ucd::xid_continue, characters::specs::Ranges::in_table))]
impl Property for XidContinue {
    ghost ascii = { ascii_continue };

    ghost all = { xid_continue };

    ghost ascii_first = { continue_first };

    fn is_ascii(c: u8) -> bool {
        c == b'_' || c.is_ascii_alphanumeric()
    }

    fn table() -> &'static [u32] {
        &tables::XID_CONTINUE
    }
}

#[tactic(auto, unfolding(crate::specs::Properties::ascii_emoji, crate::specs::Ucd::emoji, characters::specs::Ranges::in_table))]
impl Property for Emoji {
    ghost ascii = { ascii_emoji };

    ghost all = { emoji };

    ghost ascii_first = { emoji_first };

    fn is_ascii(c: u8) -> bool {
        matches!(c, b'#' | b'*' | b'0'..=b'9')
    }

    fn table() -> &'static [u32] {
        &tables::EMOJI
    }
}

#[tactic(auto, unfolding(crate::specs::Properties::ascii_space, crate::specs::Ucd::white_space, characters::specs::Ranges::in_table))]
impl Property for WhiteSpace {
    ghost ascii = { ascii_space };

    ghost all = { white_space };

    ghost ascii_first = { space_first };

    fn is_ascii(c: u8) -> bool {
        matches!(c, b'\t'..=b'\r' | b' ')
    }

    fn table() -> &'static [u32] {
        &tables::WHITE_SPACE
    }
}

// Whether a character from 0x80 on has the property P over a table that is lent. Nearly every table that is lent is P's own: where the length is its
// own table's, the compiler knows it, and each step of the search is a conditional move by a known number. Under a length that it does not
// know, the steps above 32 ranges are a loop, with a jump in each that c decides: a text of CJK identifiers takes 1.3 times the instructions.
// This is a call, so that `is_in` has ASCII alone in line.
#[inline(never)]
fn is_wide_in<P: Property>(table: &[u32], c: u32) -> bool
    ensures { result ≡ searched table.now c }
{
    if table.len() == P::table().len() {
        search(table, c)
    } else {
        search_by_call(table, c)
    }
}

// Whether a character has the property P over a table that is lent in place of its own. A caller asks for each byte of an identifier: with a call
// for each, a text of identifiers takes 1.3 times the instructions.
#[inline(always)]
#[tactic(auto, using(crate::proofs::Member::tested))]
pub fn is_in<P: Property>(table: &[u32], c: u32) -> bool
    ensures { result ≡ tested_in P.ascii table.now c }
{
    if c < 0x80 {
        P::is_ascii(c as u8)
    } else {
        is_wide_in::<P>(table, c)
    }
}

// Whether a character has the property P.
fn has<P: Property>(c: u32) -> bool
    ensures { result ≡ in_table c P.all }
{
    is_in::<P>(P::table(), c)
}

pub fn is_xid_start(c: u32) -> bool
    ensures { result ≡ is_xid_start c }
{
    has::<XidStart>(c)
}

pub fn is_xid_continue(c: u32) -> bool
    ensures { result ≡ is_xid_continue c }
{
    has::<XidContinue>(c)
}

pub fn is_emoji(c: u32) -> bool
    ensures { result ≡ is_emoji c }
{
    has::<Emoji>(c)
}

pub fn is_white_space(c: u32) -> bool
    ensures { result ≡ is_white_space c }
{
    has::<WhiteSpace>(c)
}
