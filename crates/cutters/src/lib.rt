// The kinds and the records of tokens, for every cutter and every list of them.
#![tactic(auto)]

mod kinds;

pub use kinds::{Base, Kind, UnknownKind};

// A token: its kind, the place where its suffix starts (of a literal with none, its end; of all else, its own start), how far into it its
// first misplaced underscore stands, 0 for none as in the words of a record, and its end.
#[derive(Clone, Copy)]
pub struct Piece {
    pub kind: Kind,
    pub suffix: usize,
    pub misplaced: usize,
    pub end: usize,
}

// How many words a record has.
pub const RECORD: usize = 5;
