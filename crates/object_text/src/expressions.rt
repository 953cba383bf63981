//! Reading expressions.
ghost use Rattle.std.specs.Prelude.{◌≡◌};
ghost use Rattle.gil_lexemes.specs.Reading.{Gives};
ghost use Rattle.gil_values.specs.View.{value_view};
ghost use Rattle.object_lang.specs.View.{expression_view};
ghost use Rattle.object_grammar.specs.Reading as read;
ghost use Rattle.object_grammar.specs.Signs as signs;
ghost use Rattle.object_grammar.specs.Signs.{object_signs};
ghost use Rattle.object_grammar.proofs.Beginnings.{object_apart};

use gil_lexemes::{Cursor, Stop};
use gil_lexer::{Form, Sign, Word};
use gil_values::{Kind, Value};
use object_operators::{Expression, Joint, Prefix};
use operator_text::OperatorLanguage;
use source_operators::Operator;
use std::alloc::Global;

/// The variable at the front.
fn variable_leaf<'a>(alloc: Global, cursor: Cursor<'a>) -> Result<(Expression, Cursor<'a>), Stop>
    ensures { Gives (λ found. (expression_view found.0, found.1)) result (read.variable_leaf cursor.entry) }
{
    let (name, cursor) = cursor.name(alloc)?;
    Ok((Expression::Variable(name), cursor))
}

/// The number at the front.
fn number_leaf<'a>(cursor: Cursor<'a>) -> Result<(Expression, Cursor<'a>), Stop>
    ensures { Gives (λ found. (expression_view found.0, found.1)) result (read.number_leaf cursor.entry) }
{
    let (number, cursor) = cursor.number()?;
    let value = Value::Int(i128::from(number));
    Ok((Expression::Constant(value), cursor))
}

/// The text at the front.
fn text_leaf<'a>(alloc: Global, cursor: Cursor<'a>) -> Result<(Expression, Cursor<'a>), Stop>
    ensures { Gives (λ found. (expression_view found.0, found.1)) result (read.text_leaf cursor.entry) }
{
    let (characters, cursor) = cursor.characters(alloc)?;
    Ok((Expression::Constant(Value::Str(characters)), cursor))
}

/// A constant that the word at the front stands for.
fn constant_leaf<'a>(value: Value, cursor: Cursor<'a>) -> Result<(Expression, Cursor<'a>), Stop>
    ensures { Gives (λ found. (expression_view found.0, found.1)) result (read.constant_leaf (value_view value) cursor.entry) }
{
    Ok((Expression::Constant(value), cursor.behind()))
}

/// The constant or the variable at the front.
fn leaf_at<'a>(alloc: Global, cursor: Cursor<'a>) -> Result<(Expression, Cursor<'a>), Stop>
    ensures { Gives (λ found. (expression_view found.0, found.1)) result (read.leaf_at cursor.entry) }
{
    match cursor.first() {
        Some(Form::Name) => variable_leaf(alloc, cursor),
        Some(Form::Number) => number_leaf(cursor),
        Some(Form::Text) => text_leaf(alloc, cursor),
        Some(Form::Word(Word::True)) => constant_leaf(Value::Bool(true), cursor),
        Some(Form::Word(Word::False)) => constant_leaf(Value::Bool(false), cursor),
        Some(Form::Word(Word::Undefined)) => constant_leaf(Value::Kind(Kind::Undef), cursor),
        Some(Form::Word(Word::Null)) => constant_leaf(Value::Kind(Kind::Null), cursor),
        _ => Err(Stop::Syntax(cursor.left())),
    }
}

/// The operator of one operand that a token of this form is.
fn prefix(form: Form) -> Option<Prefix>
    ensures { result ≡ signs.prefix form }
{
    match form {
        Form::Sign(Sign::Minus) => Some(Prefix::Minus),
        Form::Sign(Sign::Bang) => Some(Prefix::Not),
        _ => None,
    }
}

/// The object language, as its expressions are read.
pub(crate) struct Expressions;

impl OperatorLanguage for Expressions {
    type Prefix = Prefix;

    type Joint = Joint;

    ghost signs = { object_signs };

    fn prefix(form: Form) -> Option<Prefix> {
        prefix(form)
    }

    fn operation(operator: Operator) -> Joint {
        Joint::Operation(operator)
    }

    fn indexed() -> Joint {
        Joint::Property
    }

    fn taken(_operator: Joint) -> Option<Joint> {
        None
    }

    fn dots() -> bool {
        true
    }

    #[tactic(auto, using(object_grammar::proofs::Leaves::leaf_same))]
    fn leaf_at<'a>(alloc: Global, cursor: Cursor<'a>) -> Result<(Expression, Cursor<'a>), Stop> {
        leaf_at(alloc, cursor)
    }

    ghost apart = { object_apart };
}

/// The expression at the front.
pub(crate) fn expression_at<'a>(
    alloc: Global,
    cursor: Cursor<'a>,
) -> Result<(Expression, Cursor<'a>), Stop>
    ensures { Gives (λ found. (expression_view found.0, found.1)) result (read.expression_at cursor.entry) }
{
    operator_text::whole_at::<Expressions>(alloc, cursor)
}
