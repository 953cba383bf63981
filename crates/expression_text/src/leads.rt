//! What the names at the front of expressions are.
ghost use Rattle.std.specs.Prelude.{◌≡◌};
ghost use Rattle.gil_lexer.specs.Reading as lexing;
ghost use Rattle.expression_text.specs.Reading as spec;

use gil_lexer::Word;
use gil_values::{Kind, Text, UnOp};

/// What a name at the front of an expression is, by the reserved word that it is, if it is one.
#[derive(Clone, Copy, Debug, PartialEq, Eq)]
pub enum Lead {
    /// The expression, which is a variable.
    Variable,
    /// An operator, whose operand follows in parentheses.
    Unary(UnOp),
    /// `nth`, whose operands follow in parentheses.
    Nth,
    /// The expression, which is a truth.
    Truth(bool),
    /// The expression, which is a kind.
    Kind(Kind),
    /// The beginning of no expression.
    Other,
}

/// The reserved word that a name is.
fn word_of(name: &Text) -> Option<Word>
    ensures { result ≡ lexing.word_of name.now }
{
    Word::from_spelling(name.as_str().as_bytes())
}

/// What a reserved word is at the front of an expression.
fn lead_of_word(word: Word) -> Lead
    ensures { result ≡ spec.lead_of_word word }
{
    match word {
        Word::Ret => Lead::Variable,
        Word::Not => Lead::Unary(UnOp::Not),
        Word::Neg => Lead::Unary(UnOp::Neg),
        Word::Len => Lead::Unary(UnOp::Len),
        Word::Kind => Lead::Unary(UnOp::Kind),
        Word::Nth => Lead::Nth,
        Word::True => Lead::Truth(true),
        Word::False => Lead::Truth(false),
        Word::IntKind => Lead::Kind(Kind::Int),
        Word::BoolKind => Lead::Kind(Kind::Bool),
        Word::StrKind => Lead::Kind(Kind::Str),
        Word::SymKind => Lead::Kind(Kind::Sym),
        Word::KindKind => Lead::Kind(Kind::Kind),
        Word::ProcKind => Lead::Kind(Kind::Proc),
        Word::ListKind => Lead::Kind(Kind::List),
        Word::UndefKind => Lead::Kind(Kind::Undef),
        Word::NullKind => Lead::Kind(Kind::Null),
        _ => Lead::Other,
    }
}

/// What a name is at the front of an expression.
pub(crate) fn lead_of(name: &Text) -> Lead
    ensures { result ≡ spec.lead_of (lexing.word_of name.now) }
{
    match word_of(name) {
        Some(word) => lead_of_word(word),
        None => Lead::Variable,
    }
}
