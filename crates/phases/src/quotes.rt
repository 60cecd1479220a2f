// Quoted texts.
ghost use Rattle.std.specs.Prelude.{◌≡◌, not, ◌&&◌, [], ◌∷◌, eqb};
ghost use Rattle.cutters.specs.Numbers.{kind_number};
ghost use Rattle.lexer.specs.Cut.{is_bit};
ghost use Rattle.locality.specs.Phases.{seeing, seen_kind, quote_acts};
ghost use Rattle.phases.specs.Coded.{seen_of, act_of};

use crate::{Act, Phase, Seen};
use cutters::Kind;

fn is_bit(c: u32) -> bool
    ensures { result ≡ is_bit c }
{
    matches!(c, 0x30 | 0x31 | 0x5F)
}

impl Seen {
    // One character more.
    fn add(self, c: u32) -> Seen
        ensures { seen_of result ≡ seeing (seen_of self) c }
    {
        match self {
            Seen::Bits { twice, .. } if c == 0x0A => Seen::Broken { twice },
            Seen::Bits { twice, low } if is_bit(c) => Seen::Bits {
                twice: twice || low && c == 0x5F,
                low: c == 0x5F,
            },
            _ => Seen::Other,
        }
    }
}

// The kind of a quoted text, closed or not: what is broken in two lines is no bit string once it is closed.
pub fn seen_kind(closed: bool, seen: Seen) -> Kind
    ensures { kind_number result ≡ seen_kind closed (seen_of seen) }
{
    match seen {
        Seen::Bits { twice, .. } => Kind::BitStr {
            terminated: closed,
            consecutive_underscores: twice,
        },
        Seen::Broken { twice } if !closed => Kind::BitStr {
            terminated: false,
            consecutive_underscores: twice,
        },
        _ => Kind::Str { terminated: closed },
    }
}

// c, unless a backslash takes it along.
fn is_plainly(k: u32, escaped: bool, c: u32) -> bool
    ensures { result ≡ (eqb c k && not escaped) }
{
    c == k && !escaped
}

pub fn quote_acts(escaped: bool, seen: Seen, x: u32) -> Act
    ensures { act_of result ≡ quote_acts escaped (seen_of seen) (x ∷ []) }
{
    if is_plainly(0x22, escaped, x) {
        return Act::eat(Phase::QuoteClosed {
            kind: seen_kind(true, seen).number(),
        });
    }
    Act::eat(Phase::Quote {
        escaped: is_plainly(0x5C, escaped, x),
        seen: seen.add(x),
    })
}
