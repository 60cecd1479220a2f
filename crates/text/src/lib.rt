// Why an entry refuses, the checks that it begins with, and the answer that C gets.
#![tactic(auto)]

ghost use Rattle.std.specs.Prelude.{◌≡◌};
ghost use Rattle.text.specs.Answer.{Answered, default_profile, check_text, check_marks, check_cut, ◌and_then◌};
ghost use Rattle.text.specs.Refusals.{given, checked};

use characters::utf8::{clean_up_to, valid_up_to};

// Why a call is refused, with the place or the number that is told beside it.
#[derive(Clone, Copy, Debug, PartialEq, Eq)]
pub enum Refusal {
    UnknownSelector,
    TooLong,
    NotUtf8(usize),
    RoomTooSmall(usize),
    DirectionMark(usize),
}

// What C gets of a call: the number says how it went, and `also` what comes with it.
#[repr(C)]
#[derive(Clone, Copy)]
pub struct Answer {
    pub number: u32,
    pub also: u64,
}

pub const DONE: u32 = 0;

pub const UNKNOWN_SELECTOR: u32 = 1;

pub const TOO_LONG: u32 = 2;

pub const NOT_UTF8: u32 = 3;

pub const ROOM_TOO_SMALL: u32 = 4;

pub const DIRECTION_MARK: u32 = 7;

// The most bytes that a text may have.
pub const LONGEST: usize = 4294967295;

// The profile of a caller that names none, and how many profiles there are.
pub const DEFAULT_PROFILE: u32 = 1;

pub const PROFILES: u32 = 2;

impl From<Result<usize, Refusal>> for Answer {
    ghost use Rattle.text.specs.Answer.{Answered};
    ghost use Rattle.text.specs.Refusals.{given};

    ghost from_gives = { λ r a. Answered (given r) a.number a.also };

    fn from(given: Result<usize, Refusal>) -> Answer {
        let (number, also) = match given {
            Ok(n) => (DONE, n),
            Err(Refusal::UnknownSelector) => (UNKNOWN_SELECTOR, 0),
            Err(Refusal::TooLong) => (TOO_LONG, 0),
            Err(Refusal::NotUtf8(good)) => (NOT_UTF8, good),
            Err(Refusal::RoomTooSmall(need)) => (ROOM_TOO_SMALL, need),
            Err(Refusal::DirectionMark(at)) => (DIRECTION_MARK, at),
        };
        Answer {
            number,
            also: also as u64,
        }
    }
}

impl From<Result<(), Refusal>> for Answer {
    ghost use Rattle.text.specs.Answer.{Answered};
    ghost use Rattle.text.specs.Refusals.{checked};

    ghost from_gives = { λ r a. Answered (checked r) a.number a.also };

    fn from(checked: Result<(), Refusal>) -> Answer {
        Answer::from(checked.map(|()| 0usize))
    }
}

// 1 for yes, 0 for no.
impl From<Result<bool, Refusal>> for Answer {
    ghost use Rattle.text.specs.Answer.{Answered};
    ghost use Rattle.text.specs.Refusals.{told};

    ghost from_gives = { λ r a. Answered (told r) a.number a.also };

    fn from(told: Result<bool, Refusal>) -> Answer {
        Answer::from(told.map(usize::from))
    }
}

// That profile, by a promise.
pub fn default_profile() -> u32
    ensures { result ≡ default_profile }
{
    DEFAULT_PROFILE
}

// Refuses a text that is too long, then one that is not UTF-8; it writes nothing.
pub fn check_text(text: &[u8]) -> Result<(), Refusal>
    ensures { checked result ≡ check_text text.now }
{
    if LONGEST < text.len() {
        return Err(Refusal::TooLong);
    }
    let good = valid_up_to(text);
    if good < text.len() {
        return Err(Refusal::NotUtf8(good));
    }
    Ok(())
}

// What check_text refuses, then a text that holds a direction mark. One walk finds the first fault of either kind, and only where there is
// one is it asked which of them is given: bytes that are not UTF-8 go first wherever they stand.
fn check_clean(text: &[u8]) -> Result<(), Refusal>
    ensures { checked result ≡ (check_text text.now and_then check_marks text.now) }
{
    if LONGEST < text.len() {
        return check_text(text);
    }
    let clean = clean_up_to(text);
    if text.len() <= clean {
        return Ok(());
    }
    check_text(text)?;
    Err(Refusal::DirectionMark(clean))
}

// Refuses an unknown profile, then what check_clean refuses: for the entries that list tokens or make keys.
pub fn check_cut(text: &[u8], profile: u32) -> Result<(), Refusal>
    ensures { checked result ≡ check_cut text.now profile }
{
    if PROFILES <= profile {
        return Err(Refusal::UnknownSelector);
    }
    check_clean(text)
}
