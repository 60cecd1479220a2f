// The kinds of tokens, by the names of the Rust's TokenKind, LiteralKind and Base, and the numbers that stand for them in records.
ghost use Rattle.std.specs.Prelude.{◌≡◌};
ghost use Rattle.cutters.specs.Numbers.{base_number, kind_number, is_kind_of};

// In the order of the places that kinds count.
#[derive(Clone, Copy, Debug, PartialEq, Eq)]
pub enum Base {
    Binary,
    Octal,
    Decimal,
    Hexadecimal,
}

#[derive(Clone, Copy, Debug, PartialEq, Eq)]
pub enum Kind {
    Eof,
    LineComment,
    BlockComment {
        terminated: bool,
    },
    Whitespace,
    Ident,
    HardwareIdent,
    InvalidIdent,
    Pragma,
    Annotation,
    Semi,
    Comma,
    Dot,
    OpenParen,
    CloseParen,
    OpenBrace,
    CloseBrace,
    OpenBracket,
    CloseBracket,
    At,
    Tilde,
    Question,
    Colon,
    Dollar,
    Eq,
    Bang,
    Lt,
    Gt,
    Minus,
    And,
    Or,
    Plus,
    Star,
    Slash,
    Caret,
    Percent,
    Unknown,
    Int {
        base: Base,
        empty_int: bool,
    },
    Float {
        base: Base,
        empty_exponent: bool,
    },
    Str {
        terminated: bool,
    },
    BitStr {
        terminated: bool,
        consecutive_underscores: bool,
    },
}

impl Base {
    pub fn number(self) -> u32
        ensures { result ≡ base_number self }
    {
        self as u32
    }
}

impl Kind {
    // In line, since `listing` asks it of every token; called from many places it would not be.
    #[inline(always)]
    pub fn number(self) -> u32
        ensures { result ≡ kind_number self }
    {
        match self {
            Kind::Eof => 0,
            Kind::LineComment => 1,
            Kind::BlockComment { terminated: true } => 2,
            Kind::BlockComment { terminated: false } => 3,
            Kind::Whitespace => 4,
            Kind::Ident => 5,
            Kind::HardwareIdent => 6,
            Kind::InvalidIdent => 7,
            Kind::Pragma => 8,
            Kind::Annotation => 9,
            Kind::Semi => 10,
            Kind::Comma => 11,
            Kind::Dot => 12,
            Kind::OpenParen => 13,
            Kind::CloseParen => 14,
            Kind::OpenBrace => 15,
            Kind::CloseBrace => 16,
            Kind::OpenBracket => 17,
            Kind::CloseBracket => 18,
            Kind::At => 19,
            Kind::Tilde => 21,
            Kind::Question => 22,
            Kind::Colon => 23,
            Kind::Dollar => 24,
            Kind::Eq => 25,
            Kind::Bang => 26,
            Kind::Lt => 27,
            Kind::Gt => 28,
            Kind::Minus => 29,
            Kind::And => 30,
            Kind::Or => 31,
            Kind::Plus => 32,
            Kind::Star => 33,
            Kind::Slash => 34,
            Kind::Caret => 35,
            Kind::Percent => 36,
            Kind::Unknown => 37,
            Kind::Int { base, empty_int } => 40 + 2 * base.number() + empty_int as u32,
            Kind::Float {
                base,
                empty_exponent,
            } => 48 + 2 * base.number() + empty_exponent as u32,
            Kind::Str { terminated } => 56 + terminated as u32,
            Kind::BitStr {
                terminated,
                consecutive_underscores,
            } => 58 + terminated as u32 + 2 * consecutive_underscores as u32,
        }
    }
}

// A number that stands for no kind.
#[derive(Clone, Copy, Debug, PartialEq, Eq)]
pub struct UnknownKind(pub u32);

impl TryFrom<u32> for Kind {
    type Error = UnknownKind;

    ghost try_from_gives = { is_kind_of };

    fn try_from(number: u32) -> Result<Kind, UnknownKind> {
        let kind = match number {
            0 => Kind::Eof,
            1 => Kind::LineComment,
            2 => Kind::BlockComment { terminated: true },
            3 => Kind::BlockComment { terminated: false },
            4 => Kind::Whitespace,
            5 => Kind::Ident,
            6 => Kind::HardwareIdent,
            7 => Kind::InvalidIdent,
            8 => Kind::Pragma,
            9 => Kind::Annotation,
            10 => Kind::Semi,
            11 => Kind::Comma,
            12 => Kind::Dot,
            13 => Kind::OpenParen,
            14 => Kind::CloseParen,
            15 => Kind::OpenBrace,
            16 => Kind::CloseBrace,
            17 => Kind::OpenBracket,
            18 => Kind::CloseBracket,
            19 => Kind::At,
            21 => Kind::Tilde,
            22 => Kind::Question,
            23 => Kind::Colon,
            24 => Kind::Dollar,
            25 => Kind::Eq,
            26 => Kind::Bang,
            27 => Kind::Lt,
            28 => Kind::Gt,
            29 => Kind::Minus,
            30 => Kind::And,
            31 => Kind::Or,
            32 => Kind::Plus,
            33 => Kind::Star,
            34 => Kind::Slash,
            35 => Kind::Caret,
            36 => Kind::Percent,
            37 => Kind::Unknown,
            40 => Kind::Int {
                base: Base::Binary,
                empty_int: false,
            },
            41 => Kind::Int {
                base: Base::Binary,
                empty_int: true,
            },
            42 => Kind::Int {
                base: Base::Octal,
                empty_int: false,
            },
            43 => Kind::Int {
                base: Base::Octal,
                empty_int: true,
            },
            44 => Kind::Int {
                base: Base::Decimal,
                empty_int: false,
            },
            45 => Kind::Int {
                base: Base::Decimal,
                empty_int: true,
            },
            46 => Kind::Int {
                base: Base::Hexadecimal,
                empty_int: false,
            },
            47 => Kind::Int {
                base: Base::Hexadecimal,
                empty_int: true,
            },
            48 => Kind::Float {
                base: Base::Binary,
                empty_exponent: false,
            },
            49 => Kind::Float {
                base: Base::Binary,
                empty_exponent: true,
            },
            50 => Kind::Float {
                base: Base::Octal,
                empty_exponent: false,
            },
            51 => Kind::Float {
                base: Base::Octal,
                empty_exponent: true,
            },
            52 => Kind::Float {
                base: Base::Decimal,
                empty_exponent: false,
            },
            53 => Kind::Float {
                base: Base::Decimal,
                empty_exponent: true,
            },
            54 => Kind::Float {
                base: Base::Hexadecimal,
                empty_exponent: false,
            },
            55 => Kind::Float {
                base: Base::Hexadecimal,
                empty_exponent: true,
            },
            56 => Kind::Str { terminated: false },
            57 => Kind::Str { terminated: true },
            58 => Kind::BitStr {
                terminated: false,
                consecutive_underscores: false,
            },
            59 => Kind::BitStr {
                terminated: true,
                consecutive_underscores: false,
            },
            60 => Kind::BitStr {
                terminated: false,
                consecutive_underscores: true,
            },
            61 => Kind::BitStr {
                terminated: true,
                consecutive_underscores: true,
            },
            _ => return Err(UnknownKind(number)),
        };
        Ok(kind)
    }
}
