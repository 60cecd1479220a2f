// The machine of `locality/specs/Phases` in code: the state behind a first character, and what is done in each state.
#![tactic(auto)]

ghost use Rattle.std.specs.Prelude.{◌≡◌, true, false, [], ◌∷◌};
ghost use Rattle.cutters.specs.Kinds.{int, float};
ghost use Rattle.cutters.specs.Numbers.{kind_number};
ghost use Rattle.lexer.specs.Unicode.{letters_in};
ghost use Rattle.locality.specs.Machine.{eats, halts};
ghost use Rattle.locality.specs.Phases.{first};
ghost use Rattle.feeding.specs.Lexer.{depth_of};
ghost use Rattle.phases.specs.Coded.{base_of, phase_of, act_of, lent_to, late, act_in, EndsWith};

pub mod codec;
mod lines;
mod numbers;
mod quotes;
mod tests;
pub mod tracker;
mod words;

use cutters::{Base, Kind};
use lexer::{Letters, is_digit, is_whitespace};
use lines::{inside_acts, into_acts, line_acts, slash_acts, space_acts};
use numbers::{
    behind_e_acts, decimals_acts, digit_phase, figure_acts, pointed_acts, power_acts, suffix_acts,
    suffixed_acts, zero_acts,
};
use quotes::{quote_acts, seen_kind};
use tests::mark_of;
use words::{
    at_acts, dollar_acts, emoji_acts, name_acts, spelling_acts, wire_acts, wire_kind, word_kind,
    word_phase,
};

// The tokens that go to the end of their line.
#[derive(Clone, Copy)]
pub enum Line {
    Comment,
    Pragma,
    Annotation,
}

// What has been seen of a quoted text: only 0, 1 and underscores (whether two of these stood side by side, and whether one is the
// last); the same and then an LF; anything else.
#[derive(Clone, Copy)]
pub enum Seen {
    Bits { twice: bool, low: bool },
    Broken { twice: bool },
    Other,
}

// The states, each with what it has to remember. A kind is a number here, and no `Kind`: a state that a caller hands in may name any number, and `Called` of
// `parts` says what is done under each.
#[derive(Clone, Copy)]
pub enum Phase {
    BehindSlash,
    Line(Line),
    Inside { depth: u32 },
    Into { depth: u32 },
    Closing,
    Closed,
    Space,
    Name,
    EmojiName,
    // Behind so many letters of `pragma`, at the start of an identifier (bare) or behind a number sign.
    Spelling { bare: bool, spelt: u32 },
    BehindAt,
    BehindDollar,
    // In digits and underscores, and whether a digit was met.
    Wire { any: bool },
    ZeroFirst,
    Figures { base: Base, any: bool },
    Pointed(Base),
    Decimals(Base),
    BehindE(Base),
    Power { base: Base, any: bool },
    Quote { escaped: bool, seen: Seen },
    QuoteClosed { kind: u32 },
    Suffixed { kind: u32 },
    Single { kind: u32 },
}

// How a token ends: whether its suffix starts here, where it is empty, and its kind, as in a state any number.
#[derive(Clone, Copy)]
pub struct End {
    pub suffix: bool,
    pub kind: u32,
}

// One character is eaten, and whether the suffix starts at it; or the token has ended.
#[derive(Clone, Copy)]
pub enum Act {
    Eats { suffix: bool, phase: Phase },
    Halts(End),
}

// What a state looks at: the character that it decides on, the one behind it (NUL stands for the end), and the letters.
#[derive(Clone, Copy)]
pub struct Look<'t> {
    pub here: u32,
    pub next: u32,
    pub letters: Letters<'t>,
}

impl End {
    // Of a token that is no literal.
    #[inline(always)]
    fn plain(kind: Kind) -> End
        ensures suffix { result.suffix ≡ false }
        ensures kind { result.kind ≡ kind_number kind }
    {
        End {
            suffix: false,
            kind: kind.number(),
        }
    }

    // Of a literal that has no suffix so far.
    #[inline(always)]
    fn literal(kind: Kind) -> End
        ensures suffix { result.suffix ≡ true }
        ensures kind { result.kind ≡ kind_number kind }
    {
        End {
            suffix: true,
            kind: kind.number(),
        }
    }

    fn int(base: Base, empty_int: bool) -> End
        ensures suffix { result.suffix ≡ true }
        ensures kind { result.kind ≡ int (base_of base) empty_int }
    {
        End::literal(Kind::Int { base, empty_int })
    }

    fn float(base: Base, empty_exponent: bool) -> End
        ensures suffix { result.suffix ≡ true }
        ensures kind { result.kind ≡ float (base_of base) empty_exponent }
    {
        End::literal(Kind::Float {
            base,
            empty_exponent,
        })
    }
}

impl Act {
    fn eat(phase: Phase) -> Act
        ensures { act_of result ≡ eats false (phase_of phase) }
    {
        Act::Eats {
            suffix: false,
            phase,
        }
    }

    fn halt(kind: Kind) -> Act
        ensures { act_of result ≡ halts false (kind_number kind) }
    {
        Act::Halts(End::plain(kind))
    }
}

// Behind a first character that no test before these takes.
fn late_phase(c: u32, letters: Letters<'_>) -> Phase
    ensures { phase_of result ≡ late (letters_in letters.entry) c }
{
    if let Some(mark) = mark_of(c) {
        return Phase::Single {
            kind: mark.number(),
        };
    }
    if c == 0x22 {
        return Phase::Quote {
            escaped: false,
            seen: Seen::Bits {
                twice: false,
                low: false,
            },
        };
    }
    if letters.is_wide_emoji(c) {
        return Phase::EmojiName;
    }
    Phase::Single {
        kind: Kind::Unknown.number(),
    }
}

// The state behind the first character of a token.
#[tactic(auto, unfolding(locality::specs::Phases::first))]
pub fn first_phase(c: u32, profile: u32, letters: Letters<'_>) -> Phase
    ensures { phase_of result ≡ first (letters_in letters.entry) profile c }
{
    match c {
        0x2F => Phase::BehindSlash,
        _ if is_whitespace(c) => Phase::Space,
        _ if letters.is_id_start(c) => word_phase(profile, c),
        _ if is_digit(c) => digit_phase(c),
        0x23 => Phase::Spelling {
            bare: false,
            spelt: 0,
        },
        0x40 => Phase::BehindAt,
        0x24 => Phase::BehindDollar,
        _ => late_phase(c, letters),
    }
}

// What is done in a state.
#[tactic(auto, unfolding(locality::specs::Phases::act, crate::specs::Coded::act_in))]
pub fn decide(phase: Phase, look: Look<'_>) -> Act
    ensures { act_of result ≡ act_in (lent_to look.entry) (phase_of phase) (look.entry.here ∷ look.entry.next ∷ []) }
{
    match phase {
        Phase::BehindSlash => slash_acts(look.here),
        Phase::Line(line) => line_acts(line, look.here),
        Phase::Inside { depth } => inside_acts(depth, look.here, look.next),
        Phase::Into { depth } => into_acts(depth),
        Phase::Closing => Act::eat(Phase::Closed),
        Phase::Closed => Act::halt(Kind::BlockComment { terminated: true }),
        Phase::Space => space_acts(look.here),
        Phase::Name => name_acts(look),
        Phase::EmojiName => emoji_acts(look),
        Phase::Spelling { bare, spelt } => spelling_acts(bare, spelt, look),
        Phase::BehindAt => at_acts(look),
        Phase::BehindDollar => dollar_acts(look),
        Phase::Wire { any } => wire_acts(any, look.here),
        Phase::ZeroFirst => zero_acts(look),
        Phase::Figures { base, any } => figure_acts(base, any, look),
        Phase::Pointed(base) => pointed_acts(base, look),
        Phase::Decimals(base) => decimals_acts(base, look),
        Phase::BehindE(base) => behind_e_acts(base, look),
        Phase::Power { base, any } => power_acts(base, any, look),
        Phase::Quote { escaped, seen } => quote_acts(escaped, seen, look.here),
        Phase::QuoteClosed { kind } => suffix_acts(kind, look),
        Phase::Suffixed { kind } => suffixed_acts(kind, look),
        Phase::Single { kind } => Act::Halts(End {
            suffix: false,
            kind,
        }),
    }
}

// What is done at the end of the text: the token ends.
#[tactic(auto, unfolding(locality::specs::Phases::act, lexer::specs::Cut::is_unit, cutters::specs::Digits::is_digit))]
pub fn decide_end(phase: Phase) -> End
    ensures { EndsWith (phase_of phase) result.suffix result.kind }
{
    match phase {
        Phase::BehindSlash => End::plain(Kind::Slash),
        Phase::Line(line) => End::plain(line.kind()),
        Phase::Inside { .. } | Phase::Into { .. } | Phase::Closing => {
            End::plain(Kind::BlockComment { terminated: false })
        }
        Phase::Closed => End::plain(Kind::BlockComment { terminated: true }),
        Phase::Space => End::plain(Kind::Whitespace),
        Phase::Name => End::plain(Kind::Ident),
        Phase::EmojiName => End::plain(Kind::InvalidIdent),
        Phase::Spelling { bare, .. } => End::plain(word_kind(bare)),
        Phase::BehindAt => End::plain(Kind::At),
        Phase::BehindDollar => End::plain(Kind::Dollar),
        Phase::Wire { any } => End::plain(wire_kind(any)),
        Phase::ZeroFirst => End::int(Base::Decimal, false),
        Phase::Figures { base, any } => End::int(base, !any),
        Phase::Pointed(base) | Phase::Decimals(base) => End::float(base, false),
        Phase::BehindE(base) => End::float(base, true),
        Phase::Power { base, any } => End::float(base, !any),
        Phase::Quote { seen, .. } => End::literal(seen_kind(false, seen)),
        Phase::QuoteClosed { kind } => End { suffix: true, kind },
        Phase::Suffixed { kind } | Phase::Single { kind } => End {
            suffix: false,
            kind,
        },
    }
}

impl Phase {
    // How deep in comments a state is.
    pub fn depth(self) -> u32
        ensures { result ≡ depth_of (phase_of self) }
    {
        match self {
            Phase::Inside { depth } | Phase::Into { depth } => depth,
            _ => 0,
        }
    }
}
