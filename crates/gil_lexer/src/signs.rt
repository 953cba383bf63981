//! The signs: operators, brackets and marks.
ghost use Rattle.std.specs.Prelude.{◌≡◌};
ghost use Rattle.gil_lexer.specs.Signs.{sign_bytes};
ghost use Rattle.gil_lexer.specs.Reading.{sign_of};

/// A sign, named by what it looks like.
#[derive(Clone, Copy, Debug, PartialEq, Eq)]
pub enum Sign {
    /// `:=`
    ColonEqual,
    /// `==`
    EqualEqual,
    /// `!=`
    NotEqual,
    /// `<=`
    LessEqual,
    /// `>=`
    GreaterEqual,
    /// `&&`
    AndAnd,
    /// `||`
    OrOr,
    /// `++`
    PlusPlus,
    /// `(`
    LeftParenthesis,
    /// `)`
    RightParenthesis,
    /// `[`
    LeftBracket,
    /// `]`
    RightBracket,
    /// `{`
    LeftBrace,
    /// `}`
    RightBrace,
    /// `,`
    Comma,
    /// `;`
    Semicolon,
    /// `:`
    Colon,
    /// `.`
    Dot,
    /// `+`
    Plus,
    /// `-`
    Minus,
    /// `*`
    Star,
    /// `/`
    Slash,
    /// `%`
    Percent,
    /// `=`
    Equal,
    /// `<`
    Less,
    /// `>`
    Greater,
    /// `!`
    Bang,
    /// `&`
    Ampersand,
}

impl Sign {
    // Every sign, those of two bytes first.
    pub(crate) const ALL: [Sign; 28] = [
        Sign::ColonEqual,
        Sign::EqualEqual,
        Sign::NotEqual,
        Sign::LessEqual,
        Sign::GreaterEqual,
        Sign::AndAnd,
        Sign::OrOr,
        Sign::PlusPlus,
        Sign::LeftParenthesis,
        Sign::RightParenthesis,
        Sign::LeftBracket,
        Sign::RightBracket,
        Sign::LeftBrace,
        Sign::RightBrace,
        Sign::Comma,
        Sign::Semicolon,
        Sign::Colon,
        Sign::Dot,
        Sign::Plus,
        Sign::Minus,
        Sign::Star,
        Sign::Slash,
        Sign::Percent,
        Sign::Equal,
        Sign::Less,
        Sign::Greater,
        Sign::Bang,
        Sign::Ampersand,
    ];

    /// The bytes that the sign is written with.
    #[tactic(auto, unfolding(crate::specs::Signs::sign_bytes))]
    pub fn spelling(self) -> &'static [u8]
        ensures { result.now ≡ sign_bytes self }
    {
        match self {
            Sign::ColonEqual => b":=",
            Sign::EqualEqual => b"==",
            Sign::NotEqual => b"!=",
            Sign::LessEqual => b"<=",
            Sign::GreaterEqual => b">=",
            Sign::AndAnd => b"&&",
            Sign::OrOr => b"||",
            Sign::PlusPlus => b"++",
            Sign::LeftParenthesis => b"(",
            Sign::RightParenthesis => b")",
            Sign::LeftBracket => b"[",
            Sign::RightBracket => b"]",
            Sign::LeftBrace => b"{",
            Sign::RightBrace => b"}",
            Sign::Comma => b",",
            Sign::Semicolon => b";",
            Sign::Colon => b":",
            Sign::Dot => b".",
            Sign::Plus => b"+",
            Sign::Minus => b"-",
            Sign::Star => b"*",
            Sign::Slash => b"/",
            Sign::Percent => b"%",
            Sign::Equal => b"=",
            Sign::Less => b"<",
            Sign::Greater => b">",
            Sign::Bang => b"!",
            Sign::Ampersand => b"&",
        }
    }
}

// The longest sign at the front of the text.
#[tactic(auto, unfolding(crate::specs::Reading::sign_of, crate::specs::Signs::all_signs))]
pub(crate) fn find_sign(text: &[u8]) -> Option<Sign>
    ensures { result ≡ sign_of text.now }
{
    Sign::ALL
        .iter()
        .copied()
        .find(|sign| text.starts_with(sign.spelling()))
}
