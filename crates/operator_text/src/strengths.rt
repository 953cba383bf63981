//! What follows an expression, and how strongly it binds.
ghost use Rattle.std.specs.Prelude.{◌≡◌};
ghost use Rattle.operator_text.specs.Signs as signs;

use gil_lexer::{Form, Sign};
use source_operators::{Connective, Operator};

/// What a lexeme behind an expression begins.
#[derive(Clone, Copy, Debug, PartialEq, Eq)]
pub enum After {
    /// An operator and its right side.
    Infix(Operator),
    /// A connective and its right side.
    Connects(Connective),
    /// An expression up to a closing bracket.
    Bracketed,
    /// A name.
    Dotted,
}

/// The strength of a prefix.
pub const TIGHT: u8 = 6;

/// The strength of what follows an expression directly.
const TIGHTEST: u8 = 7;

/// How strongly it binds.
pub(crate) fn strength(after: After) -> u8
    ensures { result ≡ signs.strength after }
{
    match after {
        After::Connects(Connective::Or) => 0,
        After::Connects(Connective::And) => 1,
        After::Infix(Operator::Equal | Operator::Unequal) => 2,
        After::Infix(
            Operator::Less | Operator::LessOrEqual | Operator::Greater | Operator::GreaterOrEqual,
        ) => 3,
        After::Infix(Operator::Add | Operator::Subtract) => 4,
        After::Infix(Operator::Multiply | Operator::Divide | Operator::Remainder) => 5,
        After::Bracketed | After::Dotted => TIGHTEST,
    }
}

/// What a token of this form begins behind an expression, in a language with dots or without.
pub(crate) fn after_of(dots: bool, form: Form) -> Option<After>
    ensures { result ≡ signs.after dots form }
{
    match form {
        Form::Sign(Sign::EqualEqual) => Some(After::Infix(Operator::Equal)),
        Form::Sign(Sign::NotEqual) => Some(After::Infix(Operator::Unequal)),
        Form::Sign(Sign::Less) => Some(After::Infix(Operator::Less)),
        Form::Sign(Sign::LessEqual) => Some(After::Infix(Operator::LessOrEqual)),
        Form::Sign(Sign::Greater) => Some(After::Infix(Operator::Greater)),
        Form::Sign(Sign::GreaterEqual) => Some(After::Infix(Operator::GreaterOrEqual)),
        Form::Sign(Sign::Plus) => Some(After::Infix(Operator::Add)),
        Form::Sign(Sign::Minus) => Some(After::Infix(Operator::Subtract)),
        Form::Sign(Sign::Star) => Some(After::Infix(Operator::Multiply)),
        Form::Sign(Sign::Slash) => Some(After::Infix(Operator::Divide)),
        Form::Sign(Sign::Percent) => Some(After::Infix(Operator::Remainder)),
        Form::Sign(Sign::AndAnd) => Some(After::Connects(Connective::And)),
        Form::Sign(Sign::OrOr) => Some(After::Connects(Connective::Or)),
        Form::Sign(Sign::LeftBracket) => Some(After::Bracketed),
        Form::Sign(Sign::Dot) if dots => Some(After::Dotted),
        _ => None,
    }
}
