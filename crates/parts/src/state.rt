// The machine between two characters, and one character more: it decides on a character when the one behind it has come. What is done for each
// character is placed in line (`inline(always)`), here, in `passes` and in `phases`: states that calls hand on by memory took 1.3 to 1.7 times the
// instructions.
ghost use Rattle.std.specs.Prelude.{◌≡◌, ℕ, true, cond, [], ◌∷◌, ◌+◌, ◌≤◌};
ghost use Rattle.characters.specs.Utf8.{width};
ghost use Rattle.text.specs.Answer.{longest};
ghost use Rattle.lexer.specs.Unicode.{letters_in};
ghost use Rattle.locality.specs.Phases.{first};
ghost use Rattle.feeding.specs.Fed.{words, busy, ended, feed};
ghost use Rattle.feeding.specs.Lexer.{depth_of, fits, taken};
ghost use Rattle.feeding.specs.Tracker.{fresh, seen};
ghost use Rattle.phases.specs.Coded.{phase_of, tracker_of};
ghost use Rattle.parts.specs.Coded.{busy_of, state_of};
ghost use Rattle.parts.specs.Steps.{rec_of, recs_of, len_of, turned, Stepped, released, Lastly, Free};

use cutters::RECORD;
use lexer::Letters;
use phases::tracker::Tracker;
use phases::{Act, End, Look, Phase, decide, decide_end, first_phase};

// By which profile and which letters tokens are cut.
#[derive(Clone, Copy)]
pub struct Rules<'t> {
    pub profile: u32,
    pub letters: Letters<'t>,
}

// A token that has begun: the state in it, how many of its bytes are eaten, where its suffix starts, and what has been seen of its underscores.
#[derive(Clone, Copy)]
pub struct Token {
    pub phase: Phase,
    pub eaten: u32,
    pub mark: u32,
    pub tracker: Tracker,
}

// Nothing has been fed; a token has begun; the same, and a character behind, which is not yet decided.
#[derive(Clone, Copy)]
pub enum State {
    Idle,
    Busy(Token),
    Held { token: Token, next: u32 },
}

// The state between two characters, and where its token starts.
#[derive(Clone, Copy)]
pub struct Point {
    pub state: State,
    pub begun: u32,
}

// The words of a record, but for where its token starts.
#[derive(Clone, Copy)]
pub struct Record {
    pub kind: u32,
    pub len: u32,
    pub suffix: u32,
    pub misplaced: u32,
}

impl Record {
    // All five, of a token that starts at `at`.
    #[tactic(auto, unfolding(feeding::specs::Fed::words))]
    pub fn words(self, at: u32) -> [u32; RECORD]
        ensures { result ≡ words (rec_of at self ∷ []) }
    {
        [self.kind, self.len, self.suffix, at, self.misplaced]
    }
}

// What is behind a character, and the record that is handed out, if any.
#[derive(Clone, Copy)]
pub struct Turn {
    pub point: Point,
    pub given: Option<Record>,
}

// The bytes of a character; a number that is none stands for one byte.
#[tactic(auto, unfolding(characters::specs::Utf8::width))]
pub fn width_of(c: u32) -> u32
    ensures { result ≡ width c }
{
    match c {
        0..=0x7F => 1,
        0x80..=0x7FF => 2,
        0x800..=0xFFFF => 3,
        0x10000..=0x10FFFF => 4,
        _ => 1,
    }
}

impl Token {
    // Behind its first character.
    #[inline(always)]
    fn first(c: u32, rules: Rules<'_>) -> Token
        ensures { busy_of result ≡ busy (first (letters_in rules.entry.letters) rules.entry.profile c) (width c) 0 (fresh c) }
    {
        Token {
            phase: first_phase(c, rules.profile, rules.letters),
            eaten: width_of(c),
            mark: 0,
            tracker: Tracker::fresh(c),
        }
    }

    // Behind x; the suffix starts at x where `suffix` says so.
    #[inline(always)]
    fn eat(self, x: u32, suffix: bool, phase: Phase) -> Token
        requires { self.eaten + width x ≤ longest }
        ensures { busy_of result ≡ busy (phase_of phase) (self.eaten + width x) (cond suffix self.eaten self.mark) (seen (tracker_of self.tracker) suffix self.eaten x) }
    {
        Token {
            phase,
            eaten: self.eaten + width_of(x),
            mark: if suffix { self.eaten } else { self.mark },
            tracker: self.tracker.see(suffix, self.eaten, x),
        }
    }

    // Its record, where it ends here.
    #[inline(always)]
    fn end(self, end: End) -> Record
        ensures len { result.len ≡ self.eaten }
        ensures words { (at : ℕ) → rec_of at result ≡ ended at self.eaten self.mark (tracker_of self.tracker) end.suffix end.kind }
    {
        Record {
            kind: end.kind,
            len: self.eaten,
            suffix: if end.suffix { self.eaten } else { self.mark },
            misplaced: self.tracker.word_by(end.kind),
        }
    }

    // x, behind which y stands, is decided: the token behind it, and the record of the one that ended before it, if any.
    #[inline(always)]
    fn step(self, x: u32, y: u32, rules: Rules<'_>) -> (Token, Option<Record>)
        requires { (depth_of (phase_of self.phase) ≤ self.eaten) × (self.eaten + width x ≤ longest) }
        ensures { Stepped (letters_in rules.entry.letters) rules.entry.profile self x y result.0 result.1 }
    {
        let look = Look {
            here: x,
            next: y,
            letters: rules.letters,
        };
        match decide(self.phase, look) {
            Act::Eats { suffix, phase } => (self.eat(x, suffix, phase), None),
            Act::Halts(end) => (Token::first(x, rules), Some(self.end(end))),
        }
    }
}

impl State {
    // Whether no comment is deeper than the bytes eaten.
    pub fn fits(self) -> bool
        ensures { result ≡ fits (state_of self) }
    {
        match self {
            State::Idle => true,
            State::Busy(token) | State::Held { token, .. } => token.phase.depth() <= token.eaten,
        }
    }

    // The bytes of whole characters that were fed and not handed out.
    pub fn taken(self) -> u64
        ensures { (result ≡ taken (state_of self)) × (result ≤ 8589934590) }
    {
        match self {
            State::Idle => 0,
            State::Busy(token) => u64::from(token.eaten),
            State::Held { token, next } => u64::from(token.eaten) + u64::from(width_of(next)),
        }
    }
}

impl Point {
    // Behind the token of a record, or at the same token, in a state.
    #[inline(always)]
    fn turn(self, state: State, given: Option<Record>) -> Turn
        requires { self.begun + len_of given ≤ longest }
        ensures { turned result self.begun ≡ (recs_of self.begun given, (state_of state, self.begun + len_of given)) }
    {
        let len = given.map_or(0, |record| record.len);
        Turn {
            point: Point {
                state,
                begun: self.begun + len,
            },
            given,
        }
    }

    // One character more.
    #[inline(always)]
    #[tactic(auto, unfolding(feeding::specs::Fed::feed))]
    pub fn feed(self, c: u32, rules: Rules<'_>) -> Turn
        requires { (fits (state_of self.state) ≡ true) × (self.begun + taken (state_of self.state) ≤ longest) }
        ensures { turned result self.begun ≡ feed (letters_in rules.entry.letters) rules.entry.profile self.begun (state_of self.state) c }
    {
        match self.state {
            State::Idle => self.turn(State::Busy(Token::first(c, rules)), None),
            State::Busy(token) => self.turn(State::Held { token, next: c }, None),
            State::Held { token, next } => {
                let (token, given) = token.step(next, c, rules);
                self.turn(State::Held { token, next: c }, given)
            }
        }
    }

    // At the end of the text: the character that is held is decided, with nothing behind it. A token may end before it.
    #[tactic(auto, unfolding(crate::specs::Steps::released))]
    pub fn release(self, rules: Rules<'_>) -> Turn
        requires { (fits (state_of self.state) ≡ true) × (self.begun + taken (state_of self.state) ≤ longest) }
        ensures { turned result self.begun ≡ released (letters_in rules.entry.letters) rules.entry.profile self.begun (state_of self.state) }
    {
        match self.state {
            State::Held { token, next } => {
                let (token, given) = token.step(next, 0, rules);
                self.turn(State::Busy(token), given)
            }
            state => self.turn(state, None),
        }
    }

    // And then the token that has begun ends.
    #[tactic(auto, unfolding(crate::specs::Steps::lastly))]
    pub fn last(self) -> Turn
        requires { (Free (state_of self.state)) × (self.begun + taken (state_of self.state) ≤ longest) }
        ensures { Lastly self.begun (state_of self.state) result }
    {
        match self.state {
            State::Busy(token) => {
                let record = token.end(decide_end(token.phase));
                self.turn(State::Idle, Some(record))
            }
            _ => self.turn(State::Idle, None),
        }
    }
}
