// What C gets of a comparison.
ghost use Rattle.std.specs.Prelude.{◌≡◌};

use crate::{Agreement, Comparison, Sight};
use text::Answer;

// The verdicts.
pub const SAME: u32 = 0;

pub const DIFFERENT: u32 = 1;

pub const OLD_REFUSED: u32 = 2;

pub const NEW_REFUSED: u32 = 3;

// The verdict; the answer to the text that was refused; how many counted tokens agree, from the first on; and what stands
// behind those in each text.
#[repr(C)]
#[derive(Clone, Copy)]
pub struct ComparisonAnswer {
    pub verdict: u32,
    pub refusal: Answer,
    pub agreed: usize,
    pub old: Sight,
    pub new: Sight,
}

// What is told of a text that is refused.
const NOTHING: Sight = Sight {
    kind: 0,
    start: 0,
    len: 0,
};

const NONE: Agreement = Agreement {
    agreed: 0,
    old: NOTHING,
    new: NOTHING,
};

impl From<Comparison> for ComparisonAnswer {
    ghost use Rattle.same.specs.Compare.{Compared};
    ghost use Rattle.same.specs.Told.{told};

    ghost from_gives = { λ c a. Compared (told c) a.verdict a.refusal.number a.refusal.also a.agreed a.old.kind a.old.start a.old.len a.new.kind a.new.start a.new.len };

    fn from(comparison: Comparison) -> ComparisonAnswer {
        let (verdict, refusal, agreement) = match comparison {
            Comparison::Same(agreement) => (SAME, Ok(0usize), agreement),
            Comparison::Different(agreement) => (DIFFERENT, Ok(0), agreement),
            Comparison::OldRefused(refusal) => (OLD_REFUSED, Err(refusal), NONE),
            Comparison::NewRefused(refusal) => (NEW_REFUSED, Err(refusal), NONE),
        };
        ComparisonAnswer {
            verdict,
            refusal: Answer::from(refusal),
            agreed: agreement.agreed,
            old: agreement.old,
            new: agreement.new,
        }
    }
}
