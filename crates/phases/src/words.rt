// Identifiers, pragmas, annotations and hardware identifiers.
#![tactic(auto, unfolding(locality::specs::Phases::act))]

ghost use Rattle.std.specs.Prelude.{◌≡◌, true, cond, ◌&&◌, [], ◌∷◌, suc, eqb, leb};
ghost use Rattle.cutters.specs.Kinds.{ident, invalid_ident, hardware_ident, dollar};
ghost use Rattle.cutters.specs.Numbers.{kind_number};
ghost use Rattle.locality.specs.Phases.{line, of_pragma, name, emoji_name, spelling, behind_at, behind_dollar, letter, name_acts, wire_acts, act};
ghost use Rattle.phases.specs.Coded.{phase_of, act_of, lent_to};

use crate::lines::line_acts;
use crate::tests::{is_figure_or_underscore, met_figure};
use crate::{Act, Line, Look, Phase};
use cutters::{Base, Kind};

// Behind c, which begins an identifier.
pub fn word_phase(profile: u32, c: u32) -> Phase
    ensures { phase_of result ≡ cond (eqb profile 1 && eqb c 0x70) (spelling true 1) name }
{
    if profile == 1 && c == 0x70 {
        return Phase::Spelling {
            bare: true,
            spelt: 1,
        };
    }
    Phase::Name
}

pub fn name_acts(look: Look<'_>) -> Act
    ensures { act_of result ≡ name_acts (lent_to look.entry) (look.entry.here ∷ []) }
{
    if look.letters.is_id_continue(look.here) {
        return Act::eat(Phase::Name);
    }
    if look.letters.is_wide_emoji(look.here) {
        return Act::eat(Phase::EmojiName);
    }
    Act::halt(Kind::Ident)
}

pub fn emoji_acts(look: Look<'_>) -> Act
    ensures { act_of result ≡ act (lent_to look.entry) emoji_name (look.entry.here ∷ []) }
{
    if look.letters.goes_on(look.here) {
        return Act::eat(Phase::EmojiName);
    }
    Act::halt(Kind::InvalidIdent)
}

const PRAGMA: &[u8; 6] = b"pragma";

// Its letter behind so many.
fn letter_behind(spelt: u32) -> u32
    ensures { result ≡ letter spelt }
{
    PRAGMA.get(spelt as usize).map_or(0x61, |c| u32::from(*c))
}

// One letter more: the sixth makes a pragma of the line.
fn spelt_on(bare: bool, spelt: u32) -> Phase
    ensures { phase_of result ≡ cond (leb 5 spelt) (line of_pragma) (spelling bare (suc spelt)) }
{
    if PRAGMA.len() as u32 - 1 <= spelt {
        return Phase::Line(Line::Pragma);
    }
    Phase::Spelling {
        bare,
        spelt: spelt + 1,
    }
}

// The kind of a word that is no pragma: at its own start, or behind a number sign.
pub fn word_kind(bare: bool) -> Kind
    ensures { kind_number result ≡ cond bare ident invalid_ident }
{
    if bare {
        Kind::Ident
    } else {
        Kind::InvalidIdent
    }
}

pub fn spelling_acts(bare: bool, spelt: u32, look: Look<'_>) -> Act
    ensures { act_of result ≡ act (lent_to look.entry) (spelling bare spelt) (look.entry.here ∷ []) }
{
    if look.here == letter_behind(spelt) {
        return Act::eat(spelt_on(bare, spelt));
    }
    if bare {
        return name_acts(look);
    }
    Act::halt(Kind::InvalidIdent)
}

pub fn at_acts(look: Look<'_>) -> Act
    ensures { act_of result ≡ act (lent_to look.entry) behind_at (look.entry.here ∷ []) }
{
    if look.letters.is_id_start(look.here) {
        return line_acts(Line::Annotation, look.here);
    }
    Act::halt(Kind::At)
}

pub fn wire_kind(any: bool) -> Kind
    ensures { kind_number result ≡ cond any hardware_ident dollar }
{
    if any {
        Kind::HardwareIdent
    } else {
        Kind::Dollar
    }
}

pub fn wire_acts(any: bool, x: u32) -> Act
    ensures { act_of result ≡ wire_acts any (x ∷ []) }
{
    if is_figure_or_underscore(Base::Decimal, x) {
        return Act::eat(Phase::Wire {
            any: met_figure(Base::Decimal, any, x),
        });
    }
    Act::halt(wire_kind(any))
}

pub fn dollar_acts(look: Look<'_>) -> Act
    ensures { act_of result ≡ act (lent_to look.entry) behind_dollar (look.entry.here ∷ []) }
{
    if look.letters.is_wide_emoji(look.here) {
        return Act::eat(Phase::EmojiName);
    }
    wire_acts(false, look.here)
}
