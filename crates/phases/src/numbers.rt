// Numbers and the suffixes of literals.
#![tactic(auto, unfolding(locality::specs::Phases::act))]

ghost use Rattle.std.specs.Prelude.{◌≡◌, true, false, cond, [], ◌∷◌, eqb};
ghost use Rattle.locality.specs.Phases.{zero_first, figures, pointed, decimals, behind_e, suffixed, suffix_acts, number_ends, fraction_acts, figure_acts, power_acts, act};
ghost use Rattle.phases.specs.Coded.{base_of, phase_of, act_of, lent_to};

use crate::tests::{is_figure_or_underscore, met_figure};
use crate::{Act, End, Look, Phase};
use cutters::Base;
use lexer::{is_digit, is_e, is_sign, is_unit};

// Behind a first digit.
pub fn digit_phase(c: u32) -> Phase
    ensures { phase_of result ≡ cond (eqb c 0x30) zero_first (figures 2 true) }
{
    if c == 0x30 {
        return Phase::ZeroFirst;
    }
    Phase::Figures {
        base: Base::Decimal,
        any: true,
    }
}

// Where a literal may have a suffix.
#[inline(always)]
pub fn suffix_acts(kind: u32, look: Look<'_>) -> Act
    ensures { act_of result ≡ suffix_acts (lent_to look.entry) kind (look.entry.here ∷ []) }
{
    if look.letters.is_id_start(look.here) {
        return Act::Eats {
            suffix: true,
            phase: Phase::Suffixed { kind },
        };
    }
    Act::Halts(End { suffix: true, kind })
}

#[inline(always)]
pub fn suffixed_acts(kind: u32, look: Look<'_>) -> Act
    ensures { act_of result ≡ act (lent_to look.entry) (suffixed kind) (look.entry.here ∷ []) }
{
    if look.letters.is_id_continue(look.here) {
        return Act::eat(Phase::Suffixed { kind });
    }
    Act::Halts(End {
        suffix: false,
        kind,
    })
}

// Where a number ends: a unit is no suffix.
#[inline(always)]
fn number_ends(end: End, look: Look<'_>) -> Act
    requires { end.suffix ≡ true }
    ensures { act_of result ≡ number_ends (lent_to look.entry) end.kind (look.entry.here ∷ look.entry.next ∷ []) }
{
    if is_unit(look.here, look.next) {
        return Act::Halts(end);
    }
    suffix_acts(end.kind, look)
}

// Behind digits.
#[inline(always)]
fn fraction_acts(base: Base, look: Look<'_>) -> Act
    ensures { act_of result ≡ fraction_acts (lent_to look.entry) (base_of base) (look.entry.here ∷ look.entry.next ∷ []) }
{
    if look.here == 0x2E {
        return Act::eat(Phase::Pointed(base));
    }
    if is_e(look.here) {
        return Act::eat(Phase::BehindE(base));
    }
    number_ends(End::int(base, false), look)
}

#[inline(always)]
pub fn figure_acts(base: Base, any: bool, look: Look<'_>) -> Act
    ensures { act_of result ≡ figure_acts (lent_to look.entry) (base_of base) any (look.entry.here ∷ look.entry.next ∷ []) }
{
    if is_figure_or_underscore(base, look.here) {
        return Act::eat(Phase::Figures {
            base,
            any: met_figure(base, any, look.here),
        });
    }
    if any {
        return fraction_acts(base, look);
    }
    number_ends(End::int(base, true), look)
}

// Behind a first 0.
pub fn zero_acts(look: Look<'_>) -> Act
    ensures { act_of result ≡ act (lent_to look.entry) zero_first (look.entry.here ∷ look.entry.next ∷ []) }
{
    let base = match look.here {
        0x62 => Base::Binary,
        0x6F => Base::Octal,
        0x78 => Base::Hexadecimal,
        _ => return figure_acts(Base::Decimal, true, look),
    };
    Act::eat(Phase::Figures { base, any: false })
}

// Behind a point.
pub fn pointed_acts(base: Base, look: Look<'_>) -> Act
    ensures { act_of result ≡ act (lent_to look.entry) (pointed (base_of base)) (look.entry.here ∷ look.entry.next ∷ []) }
{
    if is_digit(look.here) {
        return Act::eat(Phase::Decimals(base));
    }
    number_ends(End::float(base, false), look)
}

// In the digits behind it.
pub fn decimals_acts(base: Base, look: Look<'_>) -> Act
    ensures { act_of result ≡ act (lent_to look.entry) (decimals (base_of base)) (look.entry.here ∷ look.entry.next ∷ []) }
{
    if is_figure_or_underscore(Base::Decimal, look.here) {
        return Act::eat(Phase::Decimals(base));
    }
    if is_e(look.here) {
        return Act::eat(Phase::BehindE(base));
    }
    number_ends(End::float(base, false), look)
}

// In the digits of an exponent.
#[inline(always)]
pub fn power_acts(base: Base, any: bool, look: Look<'_>) -> Act
    ensures { act_of result ≡ power_acts (lent_to look.entry) (base_of base) any (look.entry.here ∷ look.entry.next ∷ []) }
{
    if is_figure_or_underscore(Base::Decimal, look.here) {
        return Act::eat(Phase::Power {
            base,
            any: met_figure(Base::Decimal, any, look.here),
        });
    }
    number_ends(End::float(base, !any), look)
}

pub fn behind_e_acts(base: Base, look: Look<'_>) -> Act
    ensures { act_of result ≡ act (lent_to look.entry) (behind_e (base_of base)) (look.entry.here ∷ look.entry.next ∷ []) }
{
    if is_sign(look.here) {
        return Act::eat(Phase::Power { base, any: false });
    }
    power_acts(base, false, look)
}
