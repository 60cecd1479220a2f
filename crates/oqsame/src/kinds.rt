// The names of the kinds, those of docs/KINDS.md: the Rust's, with what tells two kinds of one name apart.
use cutters::{Base, Kind};
use std::fmt;

// A kind, which prints as its name.
#[derive(Clone, Copy)]
pub struct Name(pub Kind);

fn digits(base: Base) -> &'static str {
    match base {
        Base::Binary => "binary",
        Base::Octal => "octal",
        Base::Decimal => "decimal",
        Base::Hexadecimal => "hexadecimal",
    }
}

fn ended(terminated: bool) -> &'static str {
    if terminated {
        "terminated"
    } else {
        "unterminated"
    }
}

fn when(flag: bool, words: &str) -> &str {
    if flag { words } else { "" }
}

impl fmt::Display for Name {
    fn fmt<W: fmt::Write>(&self, f: &mut fmt::Formatter<W>) -> fmt::Result {
        match self.0 {
            Kind::BlockComment { terminated: true } => write!(f, "closed BlockComment"),
            Kind::BlockComment { terminated: false } => write!(f, "unclosed BlockComment"),
            Kind::Int { base, empty_int } => {
                let lack = when(empty_int, " without digits");
                write!(f, "{} Int{lack}", digits(base))
            }
            Kind::Float {
                base,
                empty_exponent,
            } => {
                let lack = when(empty_exponent, " with an empty exponent");
                write!(f, "{} Float{lack}", digits(base))
            }
            Kind::Str { terminated } => write!(f, "{} Str", ended(terminated)),
            Kind::BitStr {
                terminated,
                consecutive_underscores,
            } => {
                let twice = when(consecutive_underscores, " with consecutive underscores");
                write!(f, "{} BitStr{twice}", ended(terminated))
            }
            // Each of the others by its name alone.
            kind => write!(f, "{kind:?}"),
        }
    }
}
