// The counted tokens of two texts, side by side.
ghost use Rattle.std.specs.Prelude.{◌≡◌, ◌≤◌, length};
ghost use Rattle.text.specs.Answer.{longest};
ghost use Rattle.lexer.specs.Unicode.{letters_in};
ghost use Rattle.lexer.specs.Promises.{tokens_by};
ghost use Rattle.tokens.specs.Members.{is_counted};
ghost use Rattle.same.specs.Compare.{alike, parted_by};
ghost use Rattle.same.specs.Steps.{Within, member_at, sight_at, Ahead};
ghost use Rattle.same.specs.Told.{seen, told};

use crate::{Agreement, Comparison, Sight};
use cutters::RECORD;
use lexer::Letters;
use listing::cut_run;

// A counted token by its kind's number and its places: its start, where its suffix starts, and its end.
#[derive(Clone, Copy)]
struct Found {
    kind: u32,
    start: usize,
    suffix: usize,
    end: usize,
}

impl Found {
    fn sight(self) -> Sight
        requires { self.start ≤ self.end }
        ensures { seen result ≡ sight_at self.kind self.start self.end }
    {
        Sight {
            kind: self.kind,
            start: self.start,
            len: self.end - self.start,
        }
    }
}

// Line comments, closed block comments and white space are uncounted. By the number of a kind, as the words of a run have it.
fn is_counted(kind: u32) -> bool
    ensures { result ≡ is_counted kind }
{
    match kind {
        1 => false, // LineComment
        2 => false, // BlockComment, closed
        4 => false, // Whitespace
        _ => true,
    }
}

// The first counted token at or behind a place. Where there is none, it is Eof, which counts, and the end. By runs of one, whose words have
// the numbers of kinds: `listing::token_at` makes kinds of them.
fn next_counted(text: &[u8], from: usize, profile: u32, letters: &Letters<'_>) -> Found
    requires { (from ≤ length text.now) × (length text.now ≤ longest) }
    ensures { Ahead (tokens_by (letters_in letters.now) profile) text.now from result.kind result.start result.suffix result.end }
{
    let mut start = from;
    loop {
        let mut words = [0; RECORD];
        let end = cut_run(text, start, profile, &mut words, letters).at;
        let [kind, _, suffix, _, _] = words;
        if is_counted(kind) {
            return Found {
                kind,
                start,
                suffix: start + suffix as usize,
                end,
            };
        }
        start = end;
    }
}

// In kind, suffix start and bytes.
fn are_alike(old: &[u8], new: &[u8], p: Found, q: Found) -> bool
    requires old { Within old.now p.start p.suffix p.end }
    requires new { Within new.now q.start q.suffix q.end }
    ensures { result ≡ alike (member_at old.now p.kind p.start p.suffix p.end) (member_at new.now q.kind q.start q.suffix q.end) }
{
    p.kind == q.kind
        && p.suffix - p.start == q.suffix - q.start
        && old[p.start..p.end] == new[q.start..q.end]
}

// Walks both texts until a counted token of one differs from that of the other, or both have no more: the places move by a token.
pub fn part(old: &[u8], new: &[u8], profile: u32, letters: &Letters<'_>) -> Comparison
    requires { (length old.now ≤ longest) × (length new.now ≤ longest) }
    ensures { told result ≡ parted_by (tokens_by (letters_in letters.now) profile) old.now new.now }
{
    let mut a: usize = 0;
    let mut b: usize = 0;
    let mut agreed: usize = 0;
    loop {
        let p = next_counted(old, a, profile, letters);
        let q = next_counted(new, b, profile, letters);
        let agreement = Agreement {
            agreed,
            old: p.sight(),
            new: q.sight(),
        };
        if !are_alike(old, new, p, q) {
            return Comparison::Different(agreement);
        }
        if agreement.old.len == 0 {
            return Comparison::Same(agreement);
        }
        a = p.end;
        b = q.end;
        agreed += 1;
    }
}
