// The second entry of the tokenizer: the tokens of a text in a lent row of records, one struct each.
#![tactic(auto)]

ghost use Rattle.std.specs.Prelude.{◌≡◌, ◌≤◌, ◌<◌, length};
ghost use Rattle.text.specs.Answer.{done, longest, check_cut, ◌and_then◌};
ghost use Rattle.text.specs.Refusals.{given, checked};
ghost use Rattle.lexer.specs.Unicode.{letters_in};
ghost use Rattle.rows.specs.Rows.{Rowed, Bridged};
ghost use Rattle.rows.specs.Steps.{Judged, record_at, Filled};
ghost use Rattle.lexer.specs.Promises.{tokens_of, tokens_by};

use cutters::RECORD;
use lexer::Letters;
use listing::{cut_run, tokenize};
use text::{Refusal, check_cut};

// A token as `tokenize` lists it in words: C gets it so.
#[repr(C)]
#[derive(Clone, Copy)]
pub struct Token {
    pub kind: u32,
    pub len: u32,
    pub suffix: u32,
    pub start: u32,
    pub misplaced: u32,
}

impl From<[u32; RECORD]> for Token {
    ghost use Rattle.rows.specs.Rows.{fields};

    ghost from_gives = { λ words t. fields t ≡ words };

    fn from([kind, len, suffix, start, misplaced]: [u32; RECORD]) -> Token {
        Token {
            kind,
            len,
            suffix,
            start,
            misplaced,
        }
    }
}

// How many records a text needs that passes the checks, as `tokenize` says it with room for none.
fn needed(text: &[u8], profile: u32) -> Result<usize, Refusal>
    ensures { given result ≡ (check_cut text.now profile and_then (done, length (tokens_of profile text.now))) }
{
    match tokenize(text, profile, &mut []) {
        Ok(n) => Ok(n),
        Err(refusal) => match refusal {
            Refusal::RoomTooSmall(need) => Ok(need),
            _ => Err(refusal),
        },
    }
}

// The checks, for a row of so many records. A row of as many records as the text has bytes cannot be short, and nothing is
// counted for it.
fn judged(text: &[u8], profile: u32, room: usize) -> Result<(), Refusal>
    ensures { Judged text.now profile room (checked result).0 (checked result).1 }
{
    if text.len() <= room {
        return check_cut(text, profile);
    }
    let need = needed(text, profile)?;
    if room < need {
        return Err(Refusal::RoomTooSmall(need));
    }
    Ok(())
}

// The record of the token at a place of the text.
fn token_from(text: &[u8], at: usize, profile: u32, letters: &Letters<'_>) -> Token
    requires { (length text.now ≤ longest) × (at < length text.now) }
    ensures { result ≡ record_at (letters_in letters.now) profile text.now at }
{
    let mut words = [0; RECORD];
    cut_run(text, at, profile, &mut words, letters);
    Token::from(words)
}

// Stores the record of each token, and counts them. It counts by hand: what is written through `iter_mut` is not known of the row afterwards.
fn fill(text: &[u8], profile: u32, row: &mut [Token], letters: &Letters<'_>) -> usize
    requires { (length text.now ≤ longest) × (length (tokens_by (letters_in letters.now) profile text.now) ≤ length row.old) }
    ensures { Filled (letters_in letters.now) profile text.now row.old result row.new }
{
    let mut n: usize = 0;
    let mut at: usize = 0;
    while at < text.len() {
        let t = token_from(text, at, profile, letters);
        row[n] = t;
        at += t.len as usize;
        n += 1;
    }
    n
}

// The tokens of a text, in a lent row of records.
pub fn tokenize_rows(text: &[u8], profile: u32, row: &mut [Token]) -> Result<usize, Refusal>
    ensures { Rowed text.now profile row.old (given result).0 (given result).1 row.new }
{
    judged(text, profile, row.len())?;
    Ok(fill(text, profile, row, &Letters::unicode()))
}

// A row by value, for a caller that holds no lent slice of structs.
pub const ROW: usize = 64;

pub type Row = [Token; ROW];

#[derive(Clone, Copy)]
pub struct Rows {
    pub answer: Result<usize, Refusal>,
    pub row: Row,
}

// `tokenize_rows` on the first records of a row by value, on all where more are asked for: from plain parameters to a row and back.
pub fn rows_of(text: &[u8], profile: u32, row: Row, records: usize) -> Rows
    ensures { Bridged text.now profile records row (given result.answer).0 (given result.answer).1 result.row }
{
    let n = records.min(ROW);
    let mut row = row;
    let answer = tokenize_rows(text, profile, &mut row[..n]);
    Rows { answer, row }
}
