// Whether two texts have the same counted tokens, and where they part.
#![tactic(auto)]

ghost use Rattle.std.specs.Prelude.{◌≡◌};
ghost use Rattle.same.specs.Compare.{compared};
ghost use Rattle.same.specs.Told.{told};

mod answer;
mod places;
mod walk;

pub use answer::{ComparisonAnswer, DIFFERENT, NEW_REFUSED, OLD_REFUSED, SAME};
use lexer::Letters;
pub use places::place_of;
use text::{Refusal, check_cut};
use walk::part;

// A counted token: its kind's number, where it starts and its length in bytes. At the end of a text kind and length are 0. C gets it so too.
#[repr(C)]
#[derive(Clone, Copy, Debug, PartialEq, Eq)]
pub struct Sight {
    pub kind: u32,
    pub start: usize,
    pub len: usize,
}

// How many counted tokens agree, from the first on, and what stands behind those in each text.
#[derive(Clone, Copy, Debug, PartialEq, Eq)]
pub struct Agreement {
    pub agreed: usize,
    pub old: Sight,
    pub new: Sight,
}

#[derive(Clone, Copy, Debug, PartialEq, Eq)]
pub enum Comparison {
    Same(Agreement),
    Different(Agreement),
    OldRefused(Refusal),
    NewRefused(Refusal),
}

// Both from 1: lines end at LF, and a column is a code point where the text is UTF-8.
#[repr(C)]
#[derive(Clone, Copy, Debug, PartialEq, Eq)]
pub struct Place {
    pub line: usize,
    pub column: usize,
}

// Compares two texts. The old one is checked first.
pub fn compare(old: &[u8], new: &[u8], profile: u32) -> Comparison
    ensures { told result ≡ compared profile old.now new.now }
{
    if let Err(refusal) = check_cut(old, profile) {
        return Comparison::OldRefused(refusal);
    }
    if let Err(refusal) = check_cut(new, profile) {
        return Comparison::NewRefused(refusal);
    }
    part(old, new, profile, &Letters::unicode())
}
