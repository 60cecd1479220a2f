// The machine between two characters as integers: what a caller may hold, and what comes back from it.
use crate::state::{State, Token};
use phases::Phase;
use phases::codec::Code;
use phases::tracker::Tracker;
use std::num::NonZeroU32;

// Nothing has been fed (0), a token has begun (1), or a character behind is not yet decided (any other); the phase as a code; the bytes eaten; where the
// suffix starts; the tracker, its flags as numbers; that character. A caller in C holds it, and so it has numbers for all that, with a meaning each.
#[repr(C)]
#[derive(Clone, Copy, Default)]
pub struct Machine {
    pub stage: u32,
    pub number: u32,
    pub one: u32,
    pub two: u32,
    pub eaten: u32,
    pub mark: u32,
    pub found: u32,
    pub wait: u32,
    pub prev: u32,
    pub hex: u32,
    pub shut: u32,
    pub held: u32,
}

impl From<Machine> for Token {
    ghost use Rattle.std.specs.Prelude.{◌≡◌};
    ghost use Rattle.parts.specs.Coded.{busy_of, busy_in};

    ghost from_gives = { λ x t. busy_of t ≡ busy_in x };

    fn from(x: Machine) -> Token {
        Token {
            phase: Phase::from(Code {
                number: x.number,
                one: x.one,
                two: x.two,
            }),
            eaten: x.eaten,
            mark: x.mark,
            tracker: Tracker {
                found: NonZeroU32::new(x.found),
                wait: NonZeroU32::new(x.wait),
                prev: x.prev,
                hex: x.hex != 0,
                shut: x.shut != 0,
            },
        }
    }
}

impl From<Machine> for State {
    ghost use Rattle.std.specs.Prelude.{◌≡◌};
    ghost use Rattle.parts.specs.Coded.{state_of, machine_of};

    ghost from_gives = { λ x s. state_of s ≡ machine_of x };

    fn from(x: Machine) -> State {
        match x.stage {
            0 => State::Idle,
            1 => State::Busy(Token::from(x)),
            _ => State::Held {
                token: Token::from(x),
                next: x.held,
            },
        }
    }
}

impl From<State> for Machine {
    ghost use Rattle.std.specs.Prelude.{◌≡◌};
    ghost use Rattle.parts.specs.Coded.{state_of, packed_machine};

    ghost from_gives = { λ s x. x ≡ packed_machine (state_of s) };

    fn from(state: State) -> Machine {
        let (stage, token, held) = match state {
            State::Idle => return Machine::default(),
            State::Busy(token) => (1, token, 0),
            State::Held { token, next } => (2, token, next),
        };
        let code = Code::from(token.phase);
        let tracker = token.tracker;
        Machine {
            stage,
            number: code.number,
            one: code.one,
            two: code.two,
            eaten: token.eaten,
            mark: token.mark,
            found: tracker.found.map_or(0, NonZeroU32::get),
            wait: tracker.wait.map_or(0, NonZeroU32::get),
            prev: tracker.prev,
            hex: tracker.hex as u32,
            shut: tracker.shut as u32,
            held,
        }
    }
}
