//! Reading expressions.
ghost use Rattle.std.specs.Prelude.{◌≡◌};
ghost use Rattle.gil_lexemes.specs.Reading.{Gives};
ghost use Rattle.clike_lang.specs.View.{expression_view};
ghost use Rattle.clike_operators.specs.Ranges as ranges;
ghost use Rattle.clike_grammar.specs.Reading as read;
ghost use Rattle.clike_grammar.specs.Signs as signs;
ghost use Rattle.clike_grammar.specs.Signs.{clike_signs};
ghost use Rattle.clike_grammar.proofs.Beginnings.{clike_apart};

use clike_operators::{Expression, Joint, Prefix};
use gil_lexemes::{Cursor, Stop};
use gil_lexer::{Form, Sign, Word};
use gil_values::{Kind, Value};
use operator_text::OperatorLanguage;
use source_operators::Operator;
use std::alloc::Global;

/// The greatest `int`.
const GREATEST: i64 = 2_147_483_647;

/// The least `int`.
const LEAST: i64 = -2_147_483_648;

/// Whether a number is an `int`.
fn is_int(number: i64) -> bool
    ensures { result ≡ ranges.is_int number }
{
    number <= GREATEST && LEAST <= number
}

/// The number at the front, which must be an `int`.
#[tactic(auto, unfolding(clike_grammar::specs::Reading::number_leaf))]
fn number_leaf<'a>(cursor: Cursor<'a>) -> Result<(Expression, Cursor<'a>), Stop>
    ensures { Gives (λ found. (expression_view found.0, found.1)) result (read.number_leaf cursor.entry) }
{
    let left = cursor.left();
    let (number, cursor) = cursor.number()?;
    if !is_int(number) {
        return Err(Stop::Syntax(left));
    }
    let value = Value::Int(i128::from(number));
    Ok((Expression::Constant(value), cursor))
}

/// The variable at the front.
fn variable_leaf<'a>(alloc: Global, cursor: Cursor<'a>) -> Result<(Expression, Cursor<'a>), Stop>
    ensures { Gives (λ found. (expression_view found.0, found.1)) result (read.variable_leaf cursor.entry) }
{
    let (name, cursor) = cursor.name(alloc)?;
    Ok((Expression::Variable(name), cursor))
}

/// The constant or the variable at the front.
fn leaf_at<'a>(alloc: Global, cursor: Cursor<'a>) -> Result<(Expression, Cursor<'a>), Stop>
    ensures { Gives (λ found. (expression_view found.0, found.1)) result (read.leaf_at cursor.entry) }
{
    match cursor.first() {
        Some(Form::Name) => variable_leaf(alloc, cursor),
        Some(Form::Number) => number_leaf(cursor),
        Some(Form::Word(Word::NullPointer)) => {
            let null = Expression::Constant(Value::Kind(Kind::Null));
            Ok((null, cursor.behind()))
        }
        _ => Err(Stop::Syntax(cursor.left())),
    }
}

/// The operator of one operand that a token of this form is.
fn prefix(form: Form) -> Option<Prefix>
    ensures { result ≡ signs.prefix form }
{
    match form {
        Form::Sign(Sign::Minus) => Some(Prefix::Minus),
        Form::Sign(Sign::Bang) => Some(Prefix::Not),
        Form::Sign(Sign::Star) => Some(Prefix::Pointee),
        _ => None,
    }
}

/// The C-like language, as its expressions are read.
pub(crate) struct Expressions;

impl OperatorLanguage for Expressions {
    type Prefix = Prefix;

    type Joint = Joint;

    ghost signs = { clike_signs };

    fn prefix(form: Form) -> Option<Prefix> {
        prefix(form)
    }

    fn operation(operator: Operator) -> Joint {
        Joint::Operation(operator)
    }

    fn indexed() -> Joint {
        Joint::Cell
    }

    fn taken(operator: Joint) -> Option<Joint> {
        match operator {
            Joint::Cell => Some(Joint::Address),
            _ => None,
        }
    }

    fn dots() -> bool {
        false
    }

    #[tactic(auto, using(clike_grammar::proofs::Leaves::leaf_same))]
    fn leaf_at<'a>(alloc: Global, cursor: Cursor<'a>) -> Result<(Expression, Cursor<'a>), Stop> {
        leaf_at(alloc, cursor)
    }

    ghost apart = { clike_apart };
}

/// The expression at the front.
pub(crate) fn expression_at<'a>(
    alloc: Global,
    cursor: Cursor<'a>,
) -> Result<(Expression, Cursor<'a>), Stop>
    ensures { Gives (λ found. (expression_view found.0, found.1)) result (read.expression_at cursor.entry) }
{
    operator_text::whole_at::<Expressions>(alloc, cursor)
}
