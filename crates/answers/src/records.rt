// The tasks on tokens and items: lists of words, `RECORD` for a token and `ITEM` for an item, and rows of records.
ghost use Rattle.std.specs.Prelude.{◌<◌};

use crate::output::{Fault, Result, print_answer, print_records};
use crate::words::{TEXT, Words, bytes, number};
use cutters::RECORD;
use rows::{ROW, Rows, Token, rows_of};
use std::io;
use std::ops::Range;
use text::Refusal;

// How many words an item has.
pub const ITEM: usize = 3;

// The most words of a list: a token's for each byte of the longest text. An item has no more words than a token.
pub const LIST: usize = RECORD * TEXT;

// What stands in a word before the call.
pub const BLANK: u32 = 0xA5A5A5A5;

// What a call answers to a text, and the records that it lists, so many words each. The list is made here, and not by what reads the line: a function
// pays for its large arrays where it begins, and an unreadable line needs none.
fn list_text<F: Fn(&[u8], u32, &mut [u32]) -> Result<usize, Refusal>>(
    rt: &impl Print,
    text: &[u8],
    selector: u32,
    width: usize,
    call: F,
) -> Result<()>
    requires can { F.IsAlwaysCallable call }
    requires wide { 0 < width }
{
    let mut list = [BLANK; LIST];
    let n = call(text, selector, &mut list)?;
    print!(rt; "0 {n}")?;
    print_records(rt, &list, width, n, " ", ",")?;
    Ok(())
}

// tok PROFILE HEX, unescape MODE HEX.
pub fn listed<F: Fn(&[u8], u32, &mut [u32]) -> Result<usize, Refusal>>(
    rt: &impl Print,
    mut words: Words<'_>,
    width: usize,
    call: F,
) -> Result<()>
    requires can { F.IsAlwaysCallable call }
    requires wide { 0 < width }
{
    let mut room = [0u8; TEXT];
    let selector = number(words.word())?;
    let text = bytes(words.rest(), &mut room)?;
    list_text(rt, text, selector, width, call)
}

// What a call answers where it is lent so many words, with A5 in each byte, and all of them after the call, so that what it doesn't write is seen.
fn lend_room<F: Fn(&[u8], u32, &mut [u32]) -> Result<usize, Refusal>>(
    rt: &impl Print,
    text: &[u8],
    selector: u32,
    n: usize,
    call: F,
) -> Result<()>
    requires { F.IsAlwaysCallable call }
{
    let mut list = [BLANK; LIST];
    let lent = list.get_mut(..n).ok_or(Fault::Unreadable)?;
    print_answer(rt, call(text, selector, lent))?;
    print_records(rt, lent, 1, n, " ", "")?;
    Ok(())
}

// tokroom PROFILE WORDS HEX, itemroom MODE WORDS HEX.
pub fn room<F: Fn(&[u8], u32, &mut [u32]) -> Result<usize, Refusal>>(
    rt: &impl Print,
    mut words: Words<'_>,
    call: F,
) -> Result<()>
    requires { F.IsAlwaysCallable call }
{
    let mut room = [0u8; TEXT];
    let selector = number(words.word())?;
    let n = number(words.word())? as usize;
    let text = bytes(words.rest(), &mut room)?;
    lend_room(rt, text, selector, n, call)
}

// The body of a string or a bit string, the kinds from 56 to 61: behind its quote, and before the one that closes it. The closed ones are odd.
fn body_of(record: &[u32]) -> Option<Range<usize>> {
    match record {
        [kind @ 56..=61, _, suffix, start, _] if 0 < *suffix => {
            let start = *start as usize;
            Some(start + 1..start + *suffix as usize - (*kind % 2) as usize)
        }
        _ => None,
    }
}

// The items of the body of a token.
fn list_body(rt: &impl Print, text: &[u8], profile: u32, index: usize, mode: u32) -> Result<()> {
    let mut list = [BLANK; LIST];
    let n = listing::tokenize(text, profile, &mut list)?;
    let body = list
        .chunks_exact(RECORD)
        .take(n)
        .nth(index)
        .and_then(body_of)
        .ok_or(Fault::Unreadable)?;
    let n = unescape::unescape_part(text, body.start, body.end, mode, &mut list)?;
    print!(rt; "0 {n}")?;
    print_records(rt, &list, ITEM, n, " ", ",")?;
    Ok(())
}

// body PROFILE INDEX MODE HEX.
pub fn body(rt: &impl Print, mut words: Words<'_>) -> Result<()> {
    let mut room = [0u8; TEXT];
    let profile = number(words.word())?;
    let index = number(words.word())? as usize;
    let mode = number(words.word())?;
    let text = bytes(words.rest(), &mut room)?;
    list_body(rt, text, profile, index, mode)
}

fn print_token(rt: &impl Print, t: Token) -> io::Result<()> {
    let Token {
        kind,
        len,
        suffix,
        start,
        misplaced,
    } = t;
    print!(rt; " {kind} {len} {suffix} {start} {misplaced}")
}

// rowroom PROFILE RECORDS HEX: what `tokenize_rows` answers for a row of so many records, and all of the row after the call.
pub fn row_room(rt: &impl Print, mut words: Words<'_>) -> Result<()> {
    let mut room = [0u8; TEXT];
    let profile = number(words.word())?;
    let n = number(words.word())? as usize;
    let text = bytes(words.rest(), &mut room)?;
    if ROW < n {
        return Err(Fault::Unreadable);
    }
    let blank = Token {
        kind: BLANK,
        len: BLANK,
        suffix: BLANK,
        start: BLANK,
        misplaced: BLANK,
    };
    let Rows { answer, row } = rows_of(text, profile, [blank; ROW], n);
    print_answer(rt, answer)?;
    for t in row.iter().take(n) {
        print_token(rt, *t)?;
    }
    Ok(())
}
