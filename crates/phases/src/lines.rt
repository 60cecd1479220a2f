// Comments, white space, and what goes to the end of its line.
#![tactic(auto, unfolding(locality::specs::Phases::act))]

ghost use Rattle.std.specs.Prelude.{◌≡◌, [], ◌∷◌, false, cond, ltb};
ghost use Rattle.cutters.specs.Numbers.{kind_number};
ghost use Rattle.lexer.specs.Cut.{opens, closes};
ghost use Rattle.lexer.specs.Unicode.{unicode};
ghost use Rattle.locality.specs.Machine.{eats, halts};
ghost use Rattle.locality.specs.Phases.{behind_slash, inside, space, line_kind, line_acts, closing_acts, inside_acts, act};
ghost use Rattle.phases.specs.Coded.{line_of, act_of, deepest};

use crate::{Act, Line, Phase};
use cutters::Kind;
use lexer::{is_whitespace, not_lf};

impl Line {
    pub(crate) fn kind(self) -> Kind
        ensures { kind_number result ≡ line_kind (line_of self) }
    {
        match self {
            Line::Comment => Kind::LineComment,
            Line::Pragma => Kind::Pragma,
            Line::Annotation => Kind::Annotation,
        }
    }
}

pub fn line_acts(line: Line, x: u32) -> Act
    ensures { act_of result ≡ line_acts (line_of line) (x ∷ []) }
{
    if not_lf(x) {
        return Act::eat(Phase::Line(line));
    }
    Act::halt(line.kind())
}

pub fn slash_acts(x: u32) -> Act
    ensures { act_of result ≡ act unicode behind_slash (x ∷ []) }
{
    match x {
        0x2F => Act::eat(Phase::Line(Line::Comment)),
        0x2A => Act::eat(Phase::Inside { depth: 1 }),
        _ => Act::halt(Kind::Slash),
    }
}

pub fn space_acts(x: u32) -> Act
    ensures { act_of result ≡ act unicode space (x ∷ []) }
{
    if is_whitespace(x) {
        return Act::eat(Phase::Space);
    }
    Act::halt(Kind::Whitespace)
}

// This test and the next are each the code of a definition, `opens` and `closes`, as in the lexer.
fn is_open(x: u32, y: u32) -> bool
    ensures { result ≡ opens x y }
{
    x == 0x2F && y == 0x2A
}

fn is_close(x: u32, y: u32) -> bool
    ensures { result ≡ closes x y }
{
    x == 0x2A && y == 0x2F
}

fn closing_acts(depth: u32) -> Act
    ensures { act_of result ≡ closing_acts depth }
{
    if depth <= 1 {
        return Act::eat(Phase::Closing);
    }
    Act::eat(Phase::Into { depth: depth - 1 })
}

// A comment can be told to be as deep as an integer says: no text gets there, and the token ends with the kind that none has.
pub fn inside_acts(depth: u32, x: u32, y: u32) -> Act
    ensures { act_of result ≡ cond (ltb depth deepest) (inside_acts depth (x ∷ y ∷ [])) (halts false 0) }
{
    let Some(deeper) = depth.checked_add(1) else {
        return Act::halt(Kind::Eof);
    };
    if is_open(x, y) {
        return Act::eat(Phase::Into { depth: deeper });
    }
    if is_close(x, y) {
        return closing_acts(depth);
    }
    Act::eat(Phase::Inside { depth })
}

// Between the two characters that open or close a comment.
pub fn into_acts(depth: u32) -> Act
    ensures { act_of result ≡ cond (ltb depth deepest) (eats false (inside depth)) (halts false 0) }
{
    if depth == u32::MAX {
        return Act::halt(Kind::Eof);
    }
    Act::eat(Phase::Inside { depth })
}
