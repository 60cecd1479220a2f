// Quoted texts.
ghost use Rattle.std.specs.Prelude.{◌≡◌, cond, ◌+◌, ◌≤◌, ◌<◌, min, length, get_or};
ghost use Rattle.cutters.specs.Kinds.{str, bit_str};
ghost use Rattle.cutters.specs.Numbers.{kind_number};
ghost use Rattle.lexer.specs.Cut.{escapes};
ghost use Rattle.lexer.specs.Steps.{Quoted, Added, bits_by, lines_number};

use crate::cursor::{Cursor, byte};
use cutters::Kind;

// A quoted text: whether it is closed, its kind, and the cursor behind it, which there is either way: no Option.
#[derive(Clone, Copy)]
pub struct Quote {
    pub closed: bool,
    pub kind: Kind,
    pub cursor: Cursor,
}

// How many LF there are. The Rust counts them in 32 bits, which wrap; a second one settles what the count is asked for, so counting no
// further gives the same.
#[derive(Clone, Copy)]
enum Lines {
    Zero,
    One,
    Many,
}

// What was seen of a quoted text: whether all of it is 0, 1, an underscore or LF; how many LF there are; whether two underscores stand
// side by side; and the last character. The flags stand beside no value.
#[derive(Clone, Copy)]
struct Body {
    plain: bool,
    lines: Lines,
    twice: bool,
    prev: u32,
}

impl Lines {
    fn more(self) -> Lines
        ensures { lines_number result ≡ min 2 (lines_number self + 1) }
    {
        match self {
            Lines::Zero => Lines::One,
            Lines::One | Lines::Many => Lines::Many,
        }
    }
}

impl Body {
    // One character more. In a match the compiler tests for the two digits with no jump, and takes a quarter more instructions for a quoted text.
    fn add(self, c: u32) -> Body
        ensures { Added c self.plain (lines_number self.lines) self.twice self.prev result.plain (lines_number result.lines) result.twice result.prev }
    {
        let kept = Body { prev: c, ..self };
        if c == 0x30 {
            return kept;
        }
        if c == 0x31 {
            return kept;
        }
        if c == 0x5F {
            let twice = self.twice || self.prev == 0x5F;
            return Body { twice, ..kept };
        }
        if c == 0x0A {
            let lines = self.lines.more();
            return Body { lines, ..kept };
        }
        Body {
            plain: false,
            ..kept
        }
    }

    // Whether all of it is bits; an unclosed text may end in one LF.
    fn is_bits(self, closed: bool) -> bool
        ensures { result ≡ bits_by closed self.plain (lines_number self.lines) self.prev }
    {
        self.plain
            && match self.lines {
                Lines::Zero => true,
                Lines::One => !closed && self.prev == 0x0A,
                Lines::Many => false,
            }
    }

    fn kind(self, closed: bool) -> Kind
        ensures { kind_number result ≡ cond (bits_by closed self.plain (lines_number self.lines) self.prev) (bit_str closed self.twice) (str closed) }
    {
        if self.is_bits(closed) {
            Kind::BitStr {
                terminated: closed,
                consecutive_underscores: self.twice,
            }
        } else {
            Kind::Str { terminated: closed }
        }
    }
}

fn is_escape(text: &[u8], at: usize) -> bool
    requires { at < length text.now }
    ensures { result ≡ escapes (get_or text.now at 0) (get_or text.now (at + 1) 0) }
{
    byte(text, at) == 0x5C && matches!(byte(text, at + 1), 0x5C | 0x22)
}

// Behind a double quote, byte by byte: only ASCII ends it or is a bit. An escape moves the place by two bytes.
pub fn double_quoted_string(text: &[u8], from: Cursor) -> Quote
    requires { from.at ≤ length text.now }
    ensures { Quoted text.now from.at result.closed (kind_number result.kind) result.cursor.at }
{
    let mut at = from.at;
    let mut body = Body {
        plain: true,
        lines: Lines::Zero,
        twice: false,
        prev: 0,
    };
    while at < text.len() {
        let c = byte(text, at);
        if c == 0x22 {
            return Quote {
                closed: true,
                kind: body.kind(true),
                cursor: Cursor { at: at + 1 },
            };
        }
        body = body.add(c);
        if is_escape(text, at) {
            body = body.add(byte(text, at + 1));
            at = at + 2;
        } else {
            at = at + 1;
        }
    }
    Quote {
        closed: false,
        kind: body.kind(false),
        cursor: Cursor { at },
    }
}
