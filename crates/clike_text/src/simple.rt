//! Reading statements without statements in them.
ghost use Rattle.std.specs.Prelude.{◌≡◌, Some, None, option_map, IfOk};
ghost use Rattle.gil_lexemes.specs.Reading.{Gives};
ghost use Rattle.clike_lang.specs.View.{expression_view, simple_view};
ghost use Rattle.clike_grammar.specs.Reading as read;
ghost use Rattle.clike_grammar.specs.Statements as statements;

use crate::expressions::{Expressions, expression_at};
use crate::names::declared_name_at;
use clike_lang::SimpleStatement;
use clike_operators::{Expression, Joint, Prefix};
use gil_lexemes::{Cursor, Stop};
use gil_lexer::{Form, Sign, Word};
use gil_values::{Text, Value};
use operator_text::{TIGHT, argument_at, arguments_at, expression_from, value_at};
use std::alloc::{AllocError, Global};

/// `e, ..);`, behind `x = f(` or `f(`.
fn call_at<'a>(
    alloc: Global,
    target: Option<Text>,
    function: Text,
    cursor: Cursor<'a>,
) -> Result<(SimpleStatement, Cursor<'a>), Stop>
    ensures { Gives (λ found. (simple_view found.0, found.1)) result (read.call_at target function cursor.entry) }
{
    let (arguments, cursor) = arguments_at::<Expressions>(alloc, cursor)?;
    let call = SimpleStatement::Call(target, function, arguments);
    Ok((call, cursor))
}

/// `();`, behind `input`.
#[tactic(auto, unfolding(clike_grammar::specs::Reading::input_at))]
fn input_at<'a>(target: Text, cursor: Cursor<'a>) -> Result<(SimpleStatement, Cursor<'a>), Stop>
    ensures { Gives (λ found. (simple_view found.0, found.1)) result (read.input_at target cursor.entry) }
{
    let cursor = cursor.sign(Sign::LeftParenthesis)?;
    let cursor = cursor.sign(Sign::RightParenthesis)?;
    let cursor = cursor.sign(Sign::Semicolon)?;
    Ok((SimpleStatement::Input(target), cursor))
}

/// `(e);`, behind `malloc`.
fn malloc_at<'a>(
    alloc: Global,
    target: Text,
    cursor: Cursor<'a>,
) -> Result<(SimpleStatement, Cursor<'a>), Stop>
    ensures { Gives (λ found. (simple_view found.0, found.1)) result (read.malloc_at target cursor.entry) }
{
    let (size, cursor) = argument_at::<Expressions>(alloc, cursor)?;
    Ok((SimpleStatement::Malloc(target, size), cursor))
}

/// `(e);`, behind `free`.
fn free_at<'a>(alloc: Global, cursor: Cursor<'a>) -> Result<(SimpleStatement, Cursor<'a>), Stop>
    ensures { Gives (λ found. (simple_view found.0, found.1)) result (read.free_at cursor.entry) }
{
    let (pointer, cursor) = argument_at::<Expressions>(alloc, cursor)?;
    Ok((SimpleStatement::Free(pointer), cursor))
}

/// The variable or the function that an expression names.
fn variable_of(alloc: Global, expression: &Expression) -> Result<Option<Text>, AllocError>
    ensures { IfOk result (λ name. name ≡ read.variable_of (expression_view expression.now)) }
{
    match expression {
        Expression::Variable(name) => Ok(Some(name.copy(alloc)?)),
        Expression::Constant(_) => Ok(None),
        Expression::Brackets(_) => Ok(None),
        Expression::Prefixed(_, _) => Ok(None),
        Expression::Joined(_, _, _) => Ok(None),
        Expression::Skipping(_, _, _) => Ok(None),
    }
}

/// `e, ..);`, behind an expression that is called and `(`.
fn called_at<'a>(
    alloc: Global,
    target: Text,
    callee: Expression,
    cursor: Cursor<'a>,
) -> Result<(SimpleStatement, Cursor<'a>), Stop>
    ensures { Gives (λ found. (simple_view found.0, found.1)) result (read.called_at target (expression_view callee) cursor.entry) }
{
    match variable_of(alloc, &callee)? {
        Some(function) => call_at(alloc, Some(target), function, cursor),
        None => Err(Stop::Syntax(cursor.left())),
    }
}

/// `;`, behind an expression that is assigned.
fn assign_at<'a>(
    target: Text,
    value: Expression,
    cursor: Cursor<'a>,
) -> Result<(SimpleStatement, Cursor<'a>), Stop>
    ensures { Gives (λ found. (simple_view found.0, found.1)) result (read.assign_at target (expression_view value) cursor.entry) }
{
    let cursor = cursor.sign(Sign::Semicolon)?;
    Ok((SimpleStatement::Assign(target, value), cursor))
}

/// What stands behind an expression that is assigned or called.
#[tactic(auto, unfolding(clike_grammar::specs::Reading::behind_value))]
fn behind_value<'a>(
    alloc: Global,
    target: Text,
    value: Expression,
    cursor: Cursor<'a>,
) -> Result<(SimpleStatement, Cursor<'a>), Stop>
    ensures { Gives (λ found. (simple_view found.0, found.1)) result (read.behind_value target (expression_view value) cursor.entry) }
{
    if cursor.is_at(Sign::LeftParenthesis) {
        return called_at(alloc, target, value, cursor.behind());
    }
    assign_at(target, value, cursor)
}

/// An expression that is assigned or called.
fn given_at<'a>(
    alloc: Global,
    target: Text,
    cursor: Cursor<'a>,
) -> Result<(SimpleStatement, Cursor<'a>), Stop>
    ensures { Gives (λ found. (simple_view found.0, found.1)) result (read.given_at target cursor.entry) }
{
    let (value, cursor) = expression_at(alloc, cursor)?;
    behind_value(alloc, target, value, cursor)
}

/// What is assigned, behind `=`.
fn assigned_at<'a>(
    alloc: Global,
    target: Text,
    cursor: Cursor<'a>,
) -> Result<(SimpleStatement, Cursor<'a>), Stop>
    ensures { Gives (λ found. (simple_view found.0, found.1)) result (read.assigned_at target cursor.entry) }
{
    match cursor.first() {
        Some(Form::Word(Word::Input)) => input_at(target, cursor.behind()),
        Some(Form::Word(Word::Malloc)) => malloc_at(alloc, target, cursor.behind()),
        _ => given_at(alloc, target, cursor),
    }
}

/// `=` and what is assigned.
fn target_at<'a>(
    alloc: Global,
    target: Text,
    cursor: Cursor<'a>,
) -> Result<(SimpleStatement, Cursor<'a>), Stop>
    ensures { Gives (λ found. (simple_view found.0, found.1)) result (read.target_at target cursor.entry) }
{
    let cursor = cursor.sign(Sign::Equal)?;
    assigned_at(alloc, target, cursor)
}

/// The pointer and the offset of a place.
struct Place {
    pointer: Expression,
    offset: Expression,
}

/// The parts of a place: of `*a`, which is `a[0]`, or of `a[b]`.
fn place_parts(expression: Expression) -> Option<Place>
    ensures { option_map (λ place. (expression_view place.pointer, expression_view place.offset)) result
        ≡ statements.place_parts (expression_view expression) }
{
    match expression {
        Expression::Prefixed(Prefix::Pointee, pointer) => Some(Place {
            pointer: Box::into_inner(pointer),
            offset: Expression::Constant(Value::Int(0)),
        }),
        Expression::Joined(Joint::Cell, pointer, offset) => Some(Place {
            pointer: Box::into_inner(pointer),
            offset: Box::into_inner(offset),
        }),
        _ => None,
    }
}

/// `= e;`, behind a place.
#[tactic(auto, unfolding(clike_grammar::specs::Reading::store_at))]
fn store_at<'a>(
    alloc: Global,
    place: Expression,
    cursor: Cursor<'a>,
) -> Result<(SimpleStatement, Cursor<'a>), Stop>
    ensures { Gives (λ found. (simple_view found.0, found.1)) result (read.store_at (expression_view place) cursor.entry) }
{
    let Some(Place { pointer, offset }) = place_parts(place) else {
        return Err(Stop::Syntax(cursor.left()));
    };
    let cursor = cursor.sign(Sign::Equal)?;
    let (value, cursor) = value_at::<Expressions>(alloc, cursor)?;
    Ok((SimpleStatement::Store(pointer, offset, value), cursor))
}

/// What stands behind a variable that is assigned or called.
#[tactic(auto, unfolding(clike_grammar::specs::Reading::behind_name))]
fn behind_name<'a>(
    alloc: Global,
    name: Text,
    cursor: Cursor<'a>,
) -> Result<(SimpleStatement, Cursor<'a>), Stop>
    ensures { Gives (λ found. (simple_view found.0, found.1)) result (read.behind_name name cursor.entry) }
{
    if cursor.is_at(Sign::LeftParenthesis) {
        return call_at(alloc, None, name, cursor.behind());
    }
    target_at(alloc, name, cursor)
}

/// What stands behind the expression with which a statement begins.
fn begun_by<'a>(
    alloc: Global,
    expression: Expression,
    cursor: Cursor<'a>,
) -> Result<(SimpleStatement, Cursor<'a>), Stop>
    ensures { Gives (λ found. (simple_view found.0, found.1)) result (read.begun_by (expression_view expression) cursor.entry) }
{
    match variable_of(alloc, &expression)? {
        Some(name) => behind_name(alloc, name, cursor),
        None => store_at(alloc, expression, cursor),
    }
}

/// A statement that begins with an expression.
fn begun_at<'a>(alloc: Global, cursor: Cursor<'a>) -> Result<(SimpleStatement, Cursor<'a>), Stop>
    ensures { Gives (λ found. (simple_view found.0, found.1)) result (read.begun_at cursor.entry) }
{
    let (expression, cursor) = expression_from::<Expressions>(alloc, TIGHT, cursor)?;
    begun_by(alloc, expression, cursor)
}

/// A declaration, behind `int`.
fn declared_at<'a>(alloc: Global, cursor: Cursor<'a>) -> Result<(SimpleStatement, Cursor<'a>), Stop>
    ensures { Gives (λ found. (simple_view found.0, found.1)) result (read.declared_at cursor.entry) }
{
    let (name, cursor) = declared_name_at(alloc, cursor)?;
    target_at(alloc, name, cursor)
}

/// The statement at the front, which has no statements in it.
#[tactic(auto, unfolding(clike_grammar::specs::Reading::simple_at))]
pub(crate) fn simple_at<'a>(
    alloc: Global,
    cursor: Cursor<'a>,
) -> Result<(SimpleStatement, Cursor<'a>), Stop>
    ensures { Gives (λ found. (simple_view found.0, found.1)) result (read.simple_at cursor.entry) }
{
    match cursor.first() {
        Some(Form::Word(Word::Int)) => declared_at(alloc, cursor.behind()),
        Some(Form::Word(Word::Free)) => free_at(alloc, cursor.behind()),
        _ => begun_at(alloc, cursor),
    }
}
