// A text that comes in parts, cut anywhere: a lexer is fed chunk by chunk, and finished.
#![tactic(auto)]

ghost use Rattle.std.specs.Prelude.{◌≡◌, true, false, cond, [], ◌+◌, ◌/◌, ◌≤◌, length};
ghost use Rattle.text.specs.Answer.{longest};
ghost use Rattle.cutters.specs.Records.{record_words};
ghost use Rattle.feeding.specs.Fed.{idle};
ghost use Rattle.feeding.specs.Call.{given, fed_to, next_begun};
ghost use Rattle.parts.specs.Coded.{state_of, meaning};
ghost use Rattle.parts.specs.Promises.{Called, start_of};
ghost use Rattle.parts.specs.Refusals.{feed_refused};
ghost use Rattle.parts.specs.Steps.{Gone, handed_out, behind_as, CallReady, AcceptReady, Accepted, Refused, Roomed, Delivered, Attempted};

mod carry;
mod check;
mod packed;
mod passes;
mod pend;
mod question;
mod refusals;
mod state;

use carry::{end_before, keep};
use check::Scan;
use cutters::RECORD;
use lexer::Letters;
use packed::Machine;
use passes::{Went, pass};
use pend::Pend;
pub use question::{Place, text, text_number, text_place};
use refusals::FeedRefusal;
pub use refusals::NOT_OPEN;
use state::{Point, Rules, State};
use text::{Answer, Refusal};

// Of the last accepted call: where its tokens start and end, where its chunk starts, how long that and the carry were, how many bytes of these tokens
// belong into the carry, and how many are kept there in all: a part of `Lexer`, and C's.
#[repr(C)]
#[derive(Clone, Copy, Default)]
pub struct Last {
    from: u32,
    until: u32,
    place: u32,
    chunk: u32,
    carry: usize,
    packed: u32,
    kept: u32,
}

// A lexer between two calls, in integers alone, so that every value that C hands in has a meaning (`Called`): flags and states are numbers here alone.
#[repr(C)]
#[derive(Clone, Copy, Default)]
pub struct Lexer {
    profile: u32,
    over: u32,
    machine: Machine,
    begun: u32,
    pend: Pend,
    fed: u32,
    last: Last,
}

// What a call answers, and the lexer behind it: C gets it as it is, and `Called` speaks of these numbers.
#[repr(C)]
#[derive(Clone, Copy)]
pub struct Fed {
    pub answer: Answer,
    pub lexer: Lexer,
}

pub fn start(profile: u32) -> Lexer
    ensures { result ≡ start_of profile }
{
    Lexer {
        profile,
        ..Lexer::default()
    }
}

// A call: what is fed to a lexer, and whether that is the end of the text.
#[derive(Clone, Copy)]
struct Call<'c> {
    lexer: Lexer,
    chunk: &'c [u8],
    last: bool,
}

impl Lexer {
    fn refuse(self, refusal: FeedRefusal) -> Fed
        ensures { Refused self (feed_refused refusal).0 (feed_refused refusal).1 result }
    {
        let lexer = if refusal.ends() {
            Lexer { over: 1, ..self }
        } else {
            self
        };
        Fed {
            answer: refusal.answer(),
            lexer,
        }
    }

    // Behind an accepted call.
    fn behind(self, ended: bool, point: Point, pend: Pend, call: Last) -> Lexer
        requires { self.fed + call.chunk ≤ longest }
        ensures { result ≡ behind_as self ended (state_of point.state) point.begun pend call }
    {
        Lexer {
            profile: self.profile,
            over: u32::from(ended),
            machine: Machine::from(point.state),
            begun: point.begun,
            pend,
            fed: self.fed + call.chunk,
            last: call,
        }
    }
}

impl Call<'_> {
    // The chunk, and the end of the text where it is the last, through the machine.
    fn pass(self, scan: Scan<'_>, write: bool, list: &mut [u32]) -> Went
        requires { (CallReady (meaning self.lexer) self.last self.chunk.now scan) × (write ≡ true → length (given (meaning self.lexer) self.last self.chunk.now) ≤ length list.old / record_words) }
        ensures { Gone (handed_out (meaning self.entry.lexer) self.entry.last self.entry.chunk.now) write list.old 0 result list.new }
    {
        let point = Point {
            state: State::from(self.lexer.machine),
            begun: self.lexer.begun,
        };
        let rules = Rules {
            profile: self.lexer.profile,
            letters: Letters::unicode(),
        };
        pass(point, scan.head, scan.text, self.last, write, list, rules)
    }

    // Refuses a room for fewer records than there are. Where there is room for as many as there can be, nothing is counted.
    fn check_room(self, scan: Scan<'_>, room: usize) -> Result<(), Refusal>
        requires { CallReady (meaning self.lexer) self.last self.chunk.now scan }
        ensures { Roomed room (length (given (meaning self.entry.lexer) self.entry.last self.entry.chunk.now)) result }
    {
        if self.chunk.len() + 5 <= room {
            return Ok(());
        }
        let went = self.pass(scan, false, &mut []);
        let need = went.words / RECORD;
        if room < need {
            return Err(Refusal::RoomTooSmall(need));
        }
        Ok(())
    }

    // The records are stored; the carry follows, and the next state.
    fn accept(self, pend: Pend, went: Went, carry: &mut [u8], list: &[u32]) -> Fed
        requires { AcceptReady self.lexer self.last self.chunk.now pend went list.now }
        ensures { Accepted (meaning self.entry.lexer) self.entry.last self.entry.chunk.now carry.old result carry.new }
    {
        let lexer = self.lexer;
        let count = went.words / RECORD;
        let early = end_before(list, count, lexer.fed, lexer.begun);
        let fed = lexer.fed as usize;
        let begun = lexer.begun as usize;
        let front = early.saturating_sub(fed);
        let back = (went.point.begun as usize).saturating_sub(fed);
        let kept = keep(carry, self.chunk, lexer.last, fed - begun, front, back);
        let call = Last {
            from: lexer.begun,
            until: went.point.begun,
            place: lexer.fed,
            chunk: self.chunk.len() as u32,
            carry: carry.len(),
            packed: (early - begun) as u32,
            kept: kept as u32,
        };
        Fed {
            answer: Answer {
                number: text::DONE,
                also: count as u64,
            },
            lexer: lexer.behind(self.last, went.point, pend, call),
        }
    }

    // Where the checks pass.
    fn deliver(self, scan: Scan<'_>, carry: &mut [u8], list: &mut [u32]) -> Result<Fed, Refusal>
        requires { CallReady (meaning self.lexer) self.last self.chunk.now scan }
        ensures { Delivered self.entry.lexer self.entry.last self.entry.chunk.now carry.old list.old result carry.new list.new }
    {
        self.check_room(scan, list.len() / RECORD)?;
        let went = self.pass(scan, true, list);
        Ok(self.accept(scan.pend, went, carry, list))
    }

    fn attempt(self, carry: &mut [u8], list: &mut [u32]) -> Result<Fed, FeedRefusal>
        ensures { Attempted self.entry.lexer self.entry.last self.entry.chunk.now carry.old list.old result carry.new list.new }
    {
        let scan = self.check()?;
        Ok(self.deliver(scan, carry, list)?)
    }

    fn run(self, carry: &mut [u8], list: &mut [u32]) -> Fed
        ensures { Called self.entry.lexer self.entry.last self.entry.chunk.now carry.old list.old result.answer.number result.answer.also result.lexer carry.new list.new }
    {
        match self.attempt(carry, list) {
            Ok(fed) => fed,
            Err(refusal) => self.lexer.refuse(refusal),
        }
    }
}

// One chunk more.
pub fn feed(lexer: Lexer, chunk: &[u8], carry: &mut [u8], list: &mut [u32]) -> Fed
    ensures { Called lexer false chunk.now carry.old list.old result.answer.number result.answer.also result.lexer carry.new list.new }
{
    let call = Call {
        lexer,
        chunk,
        last: false,
    };
    call.run(carry, list)
}

// The end of the text.
pub fn finish(lexer: Lexer, carry: &mut [u8], list: &mut [u32]) -> Fed
    ensures { Called lexer true [] carry.old list.old result.answer.number result.answer.also result.lexer carry.new list.new }
{
    let call = Call {
        lexer,
        chunk: &[],
        last: true,
    };
    call.run(carry, list)
}
