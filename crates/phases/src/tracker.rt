// The fifth word of a record, as the characters of its token come.
ghost use Rattle.std.specs.Prelude.{◌≡◌, not, ◌&&◌, eqb};
ghost use Rattle.cutters.specs.Kinds.{is_number, is_wire};
ghost use Rattle.feeding.specs.Tracker.{fresh, late, bare, is_x, seen, word_by};
ghost use Rattle.phases.specs.Coded.{tracker_of};

use cutters::Kind;
use lexer::is_digit_by;
use std::num::NonZeroU32;

// The place that was found; the underscore behind a digit that still waits for one; the last character; whether the digits are
// hexadecimal; whether the suffix has begun.
#[derive(Clone, Copy)]
pub struct Tracker {
    pub found: Option<NonZeroU32>,
    pub wait: Option<NonZeroU32>,
    pub prev: u32,
    pub hex: bool,
    pub shut: bool,
}

impl Tracker {
    #[inline(always)]
    pub fn fresh(c: u32) -> Tracker
        ensures { tracker_of result ≡ fresh c }
    {
        Tracker {
            found: None,
            wait: None,
            prev: c,
            hex: false,
            shut: false,
        }
    }

    #[inline(always)]
    fn is_late(self, c: u32) -> bool
        ensures { result ≡ late (tracker_of self) c }
    {
        self.wait.is_some() && !is_digit_by(self.hex, c)
    }

    #[inline(always)]
    fn is_bare(self, c: u32) -> bool
        ensures { result ≡ bare (tracker_of self) c }
    {
        c == 0x5F && !is_digit_by(self.hex, self.prev)
    }

    // The x behind a first 0.
    #[inline(always)]
    fn is_x(self, n: u32, c: u32) -> bool
        ensures { result ≡ is_x (tracker_of self) n c }
    {
        n == 1 && self.prev == 0x30 && c == 0x78
    }

    // One character more, at place n; `suffix`: the suffix starts there.
    #[inline(always)]
    #[tactic(auto, unfolding(feeding::specs::Tracker::seen))]
    pub fn see(self, suffix: bool, n: u32, c: u32) -> Tracker
        ensures { tracker_of result ≡ seen (tracker_of self) suffix n c }
    {
        if self.shut || suffix {
            return Tracker {
                found: self.found.or(self.wait),
                wait: None,
                prev: c,
                hex: self.hex,
                shut: true,
            };
        }
        let here = NonZeroU32::new(n);
        let bare = self.is_bare(c);
        let lost = if self.is_late(c) {
            self.wait
        } else if bare {
            here
        } else {
            None
        };
        Tracker {
            found: self.found.or(lost),
            wait: if c == 0x5F && !bare { here } else { None },
            prev: c,
            hex: (self.hex || self.is_x(n, c)) && c != 0x2E,
            shut: false,
        }
    }

    pub fn word_by(self, kind: u32) -> u32
        ensures { result ≡ word_by (tracker_of self) kind }
    {
        if is_number(kind) || is_wire(kind) {
            self.found.or(self.wait).map_or(0, NonZeroU32::get)
        } else {
            0
        }
    }
}

// The kinds of numbers: from a binary Int to a hexadecimal Float with an empty exponent. These tests are on numbers and not on a `Kind`, since a state
// that a caller hands in may name any number as one.
fn is_number(kind: u32) -> bool
    ensures { result ≡ is_number kind }
{
    matches!(kind, 40..=55)
}

fn is_wire(kind: u32) -> bool
    ensures { result ≡ is_wire kind }
{
    kind == Kind::HardwareIdent.number() || kind == Kind::Dollar.number()
}
