// What a call is refused for before its records are counted, and where the whole characters of its bytes stand.
ghost use Rattle.std.specs.Prelude.{◌≡◌, true, not, ◌||◌, ◌+◌, ◌-◌, ◌≤◌, ◌<◌, length};
ghost use Rattle.characters.specs.Unfinished.{unfinished};
ghost use Rattle.text.specs.Answer.{longest};
ghost use Rattle.feeding.specs.Lexer.{running};
ghost use Rattle.phases.specs.Codec.{flag};
ghost use Rattle.parts.specs.Coded.{pend_of, meaning};
ghost use Rattle.parts.specs.Steps.{RestScanned, Scanned, Checked};

use crate::pend::{Head, Pend};
use crate::refusals::FeedRefusal;
use crate::state::State;
use crate::{Call, Lexer};
use characters::utf8::{NO_CHAR, clean_up_to, decode, is_direction, is_unfinished};
use text::Refusal;

// The first character of bytes without a fault, if it began before the chunk, the part of the chunk that holds the others, and the bytes behind them.
#[derive(Clone, Copy)]
pub struct Scan<'c> {
    pub head: Option<u32>,
    pub text: &'c [u8],
    pub pend: Pend,
}

// The profiles that can be fed in parts: those of OpenQASM 3.
const PROFILES: u32 = 2;

impl<'c> Call<'c> {
    // The chunk from a place on.
    fn scan_rest(self, from: usize, head: Option<u32>) -> Result<Scan<'c>, Refusal>
        requires { (from ≤ length self.chunk.now) × (self.lexer.fed + length self.chunk.now ≤ longest) }
        ensures { RestScanned self.entry.last self.entry.lexer.fed self.entry.chunk.now from head result }
    {
        let rest = &self.chunk[from..];
        let clean = clean_up_to(rest);
        let until = from + clean;
        let place = self.lexer.fed as usize + until;
        let tail = &self.chunk[until..];
        if until < self.chunk.len() {
            let d = decode(rest, clean);
            if d.code < NO_CHAR {
                return Err(Refusal::DirectionMark(place));
            }
            if self.last || !is_unfinished(tail) {
                return Err(Refusal::NotUtf8(place));
            }
        }
        Ok(Scan {
            head,
            text: &rest[..clean],
            pend: Pend::holding(tail),
        })
    }

    // Behind the bytes of a character that is not finished.
    fn scan_head(self) -> Result<Scan<'c>, Refusal>
        requires { (unfinished (pend_of self.lexer.pend) ≡ true) × (0 < length (pend_of self.lexer.pend)) × (length (pend_of self.lexer.pend) ≤ self.lexer.fed) × (self.lexer.fed + length self.chunk.now ≤ longest) }
        ensures { Scanned self.entry.last (self.entry.lexer.fed - length (pend_of self.entry.lexer.pend)) (pend_of self.entry.lexer.pend) self.entry.chunk.now result }
    {
        let pend = self.lexer.pend;
        let place = self.lexer.fed as usize - pend.len();
        match pend.head(self.chunk) {
            Head::Whole { code, .. } if is_direction(code) => Err(Refusal::DirectionMark(place)),
            Head::Whole { code, from } => self.scan_rest(from, Some(code)),
            Head::Short(pend) if !self.last => Ok(Scan {
                head: None,
                text: &[],
                pend,
            }),
            _ => Err(Refusal::NotUtf8(place)),
        }
    }

    fn scan(self) -> Result<Scan<'c>, Refusal>
        requires { (unfinished (pend_of self.lexer.pend) ≡ true) × (length (pend_of self.lexer.pend) ≤ self.lexer.fed) × (self.lexer.fed + length self.chunk.now ≤ longest) }
        ensures { Scanned self.entry.last (self.entry.lexer.fed - length (pend_of self.entry.lexer.pend)) (pend_of self.entry.lexer.pend) self.entry.chunk.now result }
    {
        if self.lexer.pend.count == 0 {
            return self.scan_rest(0, None);
        }
        self.scan_head()
    }

    // The refusals in their order.
    #[tactic(auto, unfolding(crate::specs::Steps::check_of))]
    pub fn check(self) -> Result<Scan<'c>, FeedRefusal>
        ensures { Checked (meaning self.entry.lexer) self.entry.last self.entry.chunk.now result }
    {
        let lexer = self.lexer;
        if !lexer.is_running() {
            return Err(FeedRefusal::NotOpen);
        }
        if PROFILES <= lexer.profile {
            return Err(FeedRefusal::Text(Refusal::UnknownSelector));
        }
        if text::LONGEST - (lexer.fed as usize) < self.chunk.len() {
            return Err(FeedRefusal::Text(Refusal::TooLong));
        }
        Ok(self.scan()?)
    }
}

impl Lexer {
    // Whether a value is a lexer that has not ended: what has been fed is what was handed out, what the machine has eaten, and the bytes behind it.
    #[tactic(auto, unfolding(feeding::specs::Lexer::running))]
    fn is_running(self) -> bool
        ensures { result ≡ not (flag self.over || not (running (meaning self))) }
    {
        if self.over != 0 || !self.pend.is_open() {
            return false;
        }
        let state = State::from(self.machine);
        let place = u64::from(self.begun) + state.taken() + self.pend.len() as u64;
        state.fits() && place == u64::from(self.fed)
    }
}
