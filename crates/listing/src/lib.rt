// The list of tokens of a whole text, or of a run of them from a place on, the words of a record for each.
#![tactic(auto)]

ghost use Rattle.std.specs.Prelude.{◌≡◌, true, ◌+◌, ◌-◌, ◌≤◌, [], ◌∷◌, length};
ghost use Rattle.std.proofs.lemmas.List.Edits.{sets};
ghost use Rattle.text.specs.Answer.{longest};
ghost use Rattle.text.specs.Refusals.{given};
ghost use Rattle.cutters.specs.Numbers.{kind_number, known_kind};
ghost use Rattle.cutters.specs.Records.{record_words};
ghost use Rattle.lexer.specs.Unicode.{letters_in};
ghost use Rattle.lexer.specs.Promises.{tokens_by};
ghost use Rattle.listing.specs.Promises.{Listed, CutRun, TokenAt};
ghost use Rattle.listing.specs.Steps.{Filled, StoredTokens, Placed};

pub use cutters::Piece;
use cutters::RECORD;
use lexer::{Kind, Letters, advance_token};
use text::{LONGEST, Refusal, check_cut};

// Runs are of 64 tokens where nobody says how many.
const RUN: usize = 64 * RECORD;

// The place behind a run of tokens, and how many they are.
#[derive(Clone, Copy)]
pub struct Run {
    pub at: usize,
    pub count: usize,
}

// Stores the record of a token that starts at a place, from word k on: word by word, since `copy_from_slice` compiles to a test for overlap and
// to the stores twice.
fn put(list: &mut [u32], k: usize, at: usize, t: Piece)
    requires room { k + record_words ≤ length list.old }
    requires places { Placed at t.suffix t.misplaced t.end }
    ensures { list.new ≡ sets list.old k (kind_number t.kind ∷ (t.end - at) ∷ (t.suffix - at) ∷ at ∷ t.misplaced ∷ []) }
{
    list[k] = t.kind.number();
    list[k + 1] = (t.end - at) as u32;
    list[k + 2] = (t.suffix - at) as u32;
    list[k + 3] = at as u32;
    list[k + 4] = t.misplaced as u32;
}

// Fills the list with tokens from a place on, until it is full or the text ends. It is the one loop around the cutter, which is so
// compiled into it. It counts words and not records: a record's first word is then found with nothing worked out. A loop over
// `chunks_exact_mut` does not prove: what is written through a chunk is not known of the list afterwards.
fn fill(text: &[u8], from: usize, profile: u32, list: &mut [u32], letters: &Letters<'_>) -> Run
    requires { length text.now ≤ longest }
    ensures { Filled (letters_in letters.now) profile text.now from list.old result.at result.count list.new }
{
    let full = list.len() / RECORD * RECORD;
    let mut at = from;
    let mut k: usize = 0;
    while k < full && at < text.len() {
        let t = advance_token(text, at, profile, letters);
        put(list, k, at, t);
        k += RECORD;
        at = t.end;
    }
    Run {
        at,
        count: k / RECORD,
    }
}

// The tokens of any bytes from a place on, as many as the list has room for, under any number as profile and over tables of the letters that are
// lent. None of a text of more than 4,294,967,295 bytes, none at or past the end, none into fewer words than a record has: then the place is `from`.
pub fn cut_run(
    text: &[u8],
    from: usize,
    profile: u32,
    list: &mut [u32],
    letters: &Letters<'_>,
) -> Run
    ensures { CutRun (letters_in letters.now) profile text.now from list.old result.at result.count list.new }
{
    if LONGEST < text.len() {
        return Run { at: from, count: 0 };
    }
    fill(text, from, profile, list, letters)
}

// The kind with a number that a run tells, which is a kind's.
fn kind_of(number: u32) -> Kind
    requires { known_kind number ≡ true }
    ensures { kind_number result ≡ number }
{
    Kind::try_from(number).unwrap_or(Kind::Unknown)
}

// The token at a place, by a run of one; where `cut_run` gives none, Eof and no length. To ask the cutter itself would be a second call of it, and it
// is then compiled into neither: linked beside this, `tokenize` took up to 60 per cent more.
pub fn token_at(text: &[u8], at: usize, profile: u32, letters: &Letters<'_>) -> Piece
    ensures { TokenAt (letters_in letters.now) profile text.now at (kind_number result.kind) result.suffix result.misplaced result.end }
{
    let mut words = [0; RECORD];
    let r = cut_run(text, at, profile, &mut words, letters);
    Piece {
        kind: kind_of(words[0]),
        suffix: at + words[2] as usize,
        misplaced: words[4] as usize,
        end: r.at,
    }
}

// How many tokens a text has, by runs of 64: the place moves by a run.
fn count(text: &[u8], profile: u32, letters: &Letters<'_>) -> usize
    requires { length text.now ≤ longest }
    ensures { result ≡ length (tokens_by (letters_in letters.now) profile text.now) }
{
    let mut list = [0u32; RUN];
    let mut at: usize = 0;
    let mut n: usize = 0;
    while at < text.len() {
        let r = fill(text, at, profile, &mut list, letters);
        n += r.count;
        at = r.at;
    }
    n
}

// For a text that passed the checks. Where the list has room for as many records as the text has bytes it cannot be short, and
// nothing is counted first.
fn store(
    text: &[u8],
    profile: u32,
    list: &mut [u32],
    letters: &Letters<'_>,
) -> Result<usize, Refusal>
    requires { length text.now ≤ longest }
    ensures { StoredTokens (letters_in letters.now) profile text.now list.old (given result).0 (given result).1 list.new }
{
    let room = list.len() / RECORD;
    if room < text.len() {
        let n = count(text, profile, letters);
        if room < n {
            return Err(Refusal::RoomTooSmall(n));
        }
    }
    Ok(fill(text, 0, profile, list, letters).count)
}

// The tokens of a text, `RECORD` words for each: kind, length in bytes, suffix start, where it starts in the text, and where its first
// misplaced underscore stands in it, 0 for none, all in bytes.
pub fn tokenize(text: &[u8], profile: u32, list: &mut [u32]) -> Result<usize, Refusal>
    ensures { Listed text.now profile list.old (given result).0 (given result).1 list.new }
{
    check_cut(text, profile)?;
    store(text, profile, list, &Letters::unicode())
}
