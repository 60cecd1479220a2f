// The tests on single characters that the readers of `lexer` make a loop of.
ghost use Rattle.std.specs.Prelude.{◌≡◌, ◌<◌, MatchOption};
ghost use Rattle.cutters.specs.Kinds.{marks, mark_in};
ghost use Rattle.cutters.specs.Numbers.{kind_number};
ghost use Rattle.lexer.specs.Cut.{or_underscore, met};
ghost use Rattle.locality.specs.Phases.{figure};
ghost use Rattle.phases.specs.Coded.{base_of};

use cutters::{Base, Kind};
use lexer::{is_digit, is_hex_digit};

// A digit of a base: the digits of the first three are those of decimal numbers.
fn is_figure(base: Base, c: u32) -> bool
    ensures { result ≡ figure (base_of base) c }
{
    match base {
        Base::Binary | Base::Octal | Base::Decimal => is_digit(c),
        Base::Hexadecimal => is_hex_digit(c),
    }
}

pub fn is_figure_or_underscore(base: Base, c: u32) -> bool
    ensures { result ≡ or_underscore (figure (base_of base)) c }
{
    c == 0x5F || is_figure(base, c)
}

pub fn met_figure(base: Base, any: bool, c: u32) -> bool
    ensures { result ≡ met (figure (base_of base)) any c }
{
    any || is_figure(base, c)
}

// The kind of a single mark.
#[tactic(auto, unfolding(cutters::specs::Kinds::marks, cutters::specs::Kinds::mark_in))]
pub fn mark_of(c: u32) -> Option<Kind>
    ensures { MatchOption result (mark_in marks c ≡ 0) (λ kind. (kind_number kind ≡ mark_in marks c) × (0 < kind_number kind)) }
{
    let kind = match c {
        0x3B => Kind::Semi,
        0x2C => Kind::Comma,
        0x2E => Kind::Dot,
        0x28 => Kind::OpenParen,
        0x29 => Kind::CloseParen,
        0x7B => Kind::OpenBrace,
        0x7D => Kind::CloseBrace,
        0x5B => Kind::OpenBracket,
        0x5D => Kind::CloseBracket,
        0x7E => Kind::Tilde,
        0x3F => Kind::Question,
        0x3A => Kind::Colon,
        0x3D => Kind::Eq,
        0x21 => Kind::Bang,
        0x3C => Kind::Lt,
        0x3E => Kind::Gt,
        0x2D => Kind::Minus,
        0x26 => Kind::And,
        0x7C => Kind::Or,
        0x2B => Kind::Plus,
        0x2A => Kind::Star,
        0x5E => Kind::Caret,
        0x25 => Kind::Percent,
        _ => return None,
    };
    Some(kind)
}
