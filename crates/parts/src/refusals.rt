// Why a call is refused.
ghost use Rattle.std.specs.Prelude.{◌≡◌, ◌||◌, eqb};
ghost use Rattle.text.specs.Answer.{Answered, too_long, not_utf8, direction_mark};
ghost use Rattle.parts.specs.Refusals.{feed_refused};

use text::{Answer, Refusal};

// The lexer has ended, or is none; or what any text is refused for.
#[derive(Clone, Copy, Debug, PartialEq, Eq)]
pub enum FeedRefusal {
    NotOpen,
    Text(Refusal),
}

// The number of a lexer that has ended, or is none, as C gets it.
pub const NOT_OPEN: u32 = 5;

impl From<Refusal> for FeedRefusal {
    ghost use Rattle.std.specs.Prelude.{◌≡◌};
    ghost use Rattle.parts.specs.declared.refusals.FeedRefusal.TheVariants.{Text};

    ghost from_gives = { λ r f. f ≡ Text r };

    fn from(refusal: Refusal) -> FeedRefusal {
        FeedRefusal::Text(refusal)
    }
}

impl FeedRefusal {
    // Whether it ends the lexer: 2, 3 and 7 do.
    pub fn ends(self) -> bool
        ensures { result ≡ (eqb (feed_refused self).0 too_long || (eqb (feed_refused self).0 not_utf8 || eqb (feed_refused self).0 direction_mark)) }
    {
        matches!(
            self,
            FeedRefusal::Text(Refusal::TooLong | Refusal::NotUtf8(_) | Refusal::DirectionMark(_))
        )
    }

    pub fn answer(self) -> Answer
        ensures { Answered (feed_refused self) result.number result.also }
    {
        match self {
            FeedRefusal::NotOpen => Answer {
                number: NOT_OPEN,
                also: 0,
            },
            FeedRefusal::Text(refusal) => Answer::from(Err::<usize, Refusal>(refusal)),
        }
    }
}
