//! Reading statements without statements in them.
ghost use Rattle.std.specs.Prelude.{◌≡◌, option_map};
ghost use Rattle.gil_lexemes.specs.Reading.{Gives};
ghost use Rattle.object_lang.specs.View.{expression_view, simple_view};
ghost use Rattle.object_grammar.specs.Reading as read;

use crate::expressions::{Expressions, expression_at};
use gil_lexemes::{Cursor, Stop};
use gil_lexer::{Form, Sign, Word};
use gil_text::{input_of_word, word_of};
use gil_values::Text;
use object_lang::SimpleStatement;
use object_operators::{Expression, Joint};
use operator_text::{TIGHT, argument_at, arguments_at, expression_from, pair_at, value_at};
use std::alloc::Global;

// ---- what is assigned

/// `sort;`, behind `input`.
#[tactic(auto, unfolding(object_grammar::specs::Reading::input_at))]
fn input_at<'a>(target: Text, cursor: Cursor<'a>) -> Result<(SimpleStatement, Cursor<'a>), Stop>
    ensures { Gives (λ found. (simple_view found.0, found.1)) result (read.input_at target cursor.entry) }
{
    let Some(word) = word_of(cursor.first()) else {
        return Err(Stop::Syntax(cursor.left()));
    };
    let Some(kind) = input_of_word(word) else {
        return Err(Stop::Syntax(cursor.left()));
    };
    let cursor = cursor.behind().sign(Sign::Semicolon)?;
    Ok((SimpleStatement::Input(target, kind), cursor))
}

/// `(e);`, behind `create`.
fn create_at<'a>(
    alloc: Global,
    target: Text,
    cursor: Cursor<'a>,
) -> Result<(SimpleStatement, Cursor<'a>), Stop>
    ensures { Gives (λ found. (simple_view found.0, found.1)) result (read.create_at target cursor.entry) }
{
    let (prototype, cursor) = argument_at::<Expressions>(alloc, cursor)?;
    Ok((SimpleStatement::Create(target, prototype), cursor))
}

/// `(e);`, behind `proto`.
fn proto_at<'a>(
    alloc: Global,
    target: Text,
    cursor: Cursor<'a>,
) -> Result<(SimpleStatement, Cursor<'a>), Stop>
    ensures { Gives (λ found. (simple_view found.0, found.1)) result (read.proto_at target cursor.entry) }
{
    let (object, cursor) = argument_at::<Expressions>(alloc, cursor)?;
    Ok((SimpleStatement::Proto(target, object), cursor))
}

/// `(a, b);`, behind `has`.
fn has_at<'a>(
    alloc: Global,
    target: Text,
    cursor: Cursor<'a>,
) -> Result<(SimpleStatement, Cursor<'a>), Stop>
    ensures { Gives (λ found. (simple_view found.0, found.1)) result (read.has_at target cursor.entry) }
{
    let (object, property, cursor) = pair_at::<Expressions>(alloc, cursor)?;
    Ok((SimpleStatement::Has(target, object, property), cursor))
}

/// `e, ..);`, behind an expression that is called and `(`.
fn call_at<'a>(
    alloc: Global,
    target: Text,
    callee: Expression,
    cursor: Cursor<'a>,
) -> Result<(SimpleStatement, Cursor<'a>), Stop>
    ensures { Gives (λ found. (simple_view found.0, found.1)) result (read.call_at target (expression_view callee) cursor.entry) }
{
    let (arguments, cursor) = arguments_at::<Expressions>(alloc, cursor)?;
    Ok((SimpleStatement::Call(target, callee, arguments), cursor))
}

/// `;`, behind an expression that is assigned.
fn assign_at<'a>(
    target: Text,
    value: Expression,
    cursor: Cursor<'a>,
) -> Result<(SimpleStatement, Cursor<'a>), Stop>
    ensures { Gives (λ found. (simple_view found.0, found.1)) result (read.assign_at target (expression_view value) cursor.entry) }
{
    let cursor = cursor.sign(Sign::Semicolon)?;
    Ok((SimpleStatement::Assign(target, value), cursor))
}

/// What stands behind an expression that is assigned or called.
#[tactic(auto, unfolding(object_grammar::specs::Reading::behind_value))]
fn behind_value<'a>(
    alloc: Global,
    target: Text,
    value: Expression,
    cursor: Cursor<'a>,
) -> Result<(SimpleStatement, Cursor<'a>), Stop>
    ensures { Gives (λ found. (simple_view found.0, found.1)) result (read.behind_value target (expression_view value) cursor.entry) }
{
    if cursor.is_at(Sign::LeftParenthesis) {
        return call_at(alloc, target, value, cursor.behind());
    }
    assign_at(target, value, cursor)
}

/// An expression that is assigned or called.
fn given_at<'a>(
    alloc: Global,
    target: Text,
    cursor: Cursor<'a>,
) -> Result<(SimpleStatement, Cursor<'a>), Stop>
    ensures { Gives (λ found. (simple_view found.0, found.1)) result (read.given_at target cursor.entry) }
{
    let (value, cursor) = expression_at(alloc, cursor)?;
    behind_value(alloc, target, value, cursor)
}

/// What is assigned, behind `=`.
fn assigned_at<'a>(
    alloc: Global,
    target: Text,
    cursor: Cursor<'a>,
) -> Result<(SimpleStatement, Cursor<'a>), Stop>
    ensures { Gives (λ found. (simple_view found.0, found.1)) result (read.assigned_at target cursor.entry) }
{
    match cursor.first() {
        Some(Form::Word(Word::Input)) => input_at(target, cursor.behind()),
        Some(Form::Word(Word::Create)) => create_at(alloc, target, cursor.behind()),
        Some(Form::Word(Word::Proto)) => proto_at(alloc, target, cursor.behind()),
        Some(Form::Word(Word::Has)) => has_at(alloc, target, cursor.behind()),
        _ => given_at(alloc, target, cursor),
    }
}

/// `=` and what is assigned.
fn target_at<'a>(
    alloc: Global,
    target: Text,
    cursor: Cursor<'a>,
) -> Result<(SimpleStatement, Cursor<'a>), Stop>
    ensures { Gives (λ found. (simple_view found.0, found.1)) result (read.target_at target cursor.entry) }
{
    let cursor = cursor.sign(Sign::Equal)?;
    assigned_at(alloc, target, cursor)
}

// ---- places

/// The object and the property of a place.
struct Place {
    object: Expression,
    property: Expression,
}

/// The parts of a place, `a[b]` or `a.p`.
fn place_parts(expression: Expression) -> Option<Place>
    ensures { option_map (λ place. (expression_view place.object, expression_view place.property)) result
        ≡ read.place_parts (expression_view expression) }
{
    match expression {
        Expression::Joined(Joint::Property, object, property) => Some(Place {
            object: Box::into_inner(object),
            property: Box::into_inner(property),
        }),
        _ => None,
    }
}

/// The expression at the front, where no operator of two operands may stand.
fn place_at<'a>(alloc: Global, cursor: Cursor<'a>) -> Result<(Expression, Cursor<'a>), Stop>
    ensures { Gives (λ found. (expression_view found.0, found.1)) result (read.place_at cursor.entry) }
{
    expression_from::<Expressions>(alloc, TIGHT, cursor)
}

/// `= e;`, behind a place.
#[tactic(auto, unfolding(object_grammar::specs::Reading::set_at))]
fn set_at<'a>(
    alloc: Global,
    place: Expression,
    cursor: Cursor<'a>,
) -> Result<(SimpleStatement, Cursor<'a>), Stop>
    ensures { Gives (λ found. (simple_view found.0, found.1)) result (read.set_at (expression_view place) cursor.entry) }
{
    let Some(Place { object, property }) = place_parts(place) else {
        return Err(Stop::Syntax(cursor.left()));
    };
    let cursor = cursor.sign(Sign::Equal)?;
    let (value, cursor) = value_at::<Expressions>(alloc, cursor)?;
    Ok((SimpleStatement::Set(object, property, value), cursor))
}

/// A place and `;`, behind `delete`.
#[tactic(auto, unfolding(object_grammar::specs::Reading::delete_at))]
fn delete_at<'a>(alloc: Global, cursor: Cursor<'a>) -> Result<(SimpleStatement, Cursor<'a>), Stop>
    ensures { Gives (λ found. (simple_view found.0, found.1)) result (read.delete_at cursor.entry) }
{
    let (place, cursor) = place_at(alloc, cursor)?;
    let Some(Place { object, property }) = place_parts(place) else {
        return Err(Stop::Syntax(cursor.left()));
    };
    let cursor = cursor.sign(Sign::Semicolon)?;
    Ok((SimpleStatement::Delete(object, property), cursor))
}

// ---- statements

/// What stands behind the variable or the place with which a statement begins.
#[tactic(auto, unfolding(object_grammar::specs::Reading::set_at))]
fn begun_by<'a>(
    alloc: Global,
    expression: Expression,
    cursor: Cursor<'a>,
) -> Result<(SimpleStatement, Cursor<'a>), Stop>
    ensures { Gives (λ found. (simple_view found.0, found.1)) result (read.begun_by (expression_view expression) cursor.entry) }
{
    match expression {
        Expression::Variable(name) => target_at(alloc, name, cursor),
        Expression::Joined(joint, left, right) => {
            set_at(alloc, Expression::Joined(joint, left, right), cursor)
        }
        Expression::Constant(_) => Err(Stop::Syntax(cursor.left())),
        Expression::Brackets(_) => Err(Stop::Syntax(cursor.left())),
        Expression::Prefixed(_, _) => Err(Stop::Syntax(cursor.left())),
        Expression::Skipping(_, _, _) => Err(Stop::Syntax(cursor.left())),
    }
}

/// A statement that begins with a variable or a place.
fn begun_at<'a>(alloc: Global, cursor: Cursor<'a>) -> Result<(SimpleStatement, Cursor<'a>), Stop>
    ensures { Gives (λ found. (simple_view found.0, found.1)) result (read.begun_at cursor.entry) }
{
    let (expression, cursor) = place_at(alloc, cursor)?;
    begun_by(alloc, expression, cursor)
}

/// A variable that is assigned, behind `let`.
fn declared_at<'a>(alloc: Global, cursor: Cursor<'a>) -> Result<(SimpleStatement, Cursor<'a>), Stop>
    ensures { Gives (λ found. (simple_view found.0, found.1)) result (read.declared_at cursor.entry) }
{
    let (name, cursor) = cursor.name(alloc)?;
    target_at(alloc, name, cursor)
}

/// `(a, b);`, behind `setproto`.
fn set_proto_at<'a>(
    alloc: Global,
    cursor: Cursor<'a>,
) -> Result<(SimpleStatement, Cursor<'a>), Stop>
    ensures { Gives (λ found. (simple_view found.0, found.1)) result (read.set_proto_at cursor.entry) }
{
    let (object, prototype, cursor) = pair_at::<Expressions>(alloc, cursor)?;
    Ok((SimpleStatement::SetProto(object, prototype), cursor))
}

/// `e;`, behind `fail`.
fn fail_at<'a>(alloc: Global, cursor: Cursor<'a>) -> Result<(SimpleStatement, Cursor<'a>), Stop>
    ensures { Gives (λ found. (simple_view found.0, found.1)) result (read.fail_at cursor.entry) }
{
    let (value, cursor) = value_at::<Expressions>(alloc, cursor)?;
    Ok((SimpleStatement::Fail(value), cursor))
}

/// `e;`, behind `throw`.
fn throw_at<'a>(alloc: Global, cursor: Cursor<'a>) -> Result<(SimpleStatement, Cursor<'a>), Stop>
    ensures { Gives (λ found. (simple_view found.0, found.1)) result (read.throw_at cursor.entry) }
{
    let (value, cursor) = value_at::<Expressions>(alloc, cursor)?;
    Ok((SimpleStatement::Throw(value), cursor))
}

/// The statement at the front, which has no statements in it.
#[tactic(auto, unfolding(object_grammar::specs::Reading::simple_at))]
pub(crate) fn simple_at<'a>(
    alloc: Global,
    cursor: Cursor<'a>,
) -> Result<(SimpleStatement, Cursor<'a>), Stop>
    ensures { Gives (λ found. (simple_view found.0, found.1)) result (read.simple_at cursor.entry) }
{
    match cursor.first() {
        Some(Form::Word(Word::Let)) => declared_at(alloc, cursor.behind()),
        Some(Form::Word(Word::Delete)) => delete_at(alloc, cursor.behind()),
        Some(Form::Word(Word::Setproto)) => set_proto_at(alloc, cursor.behind()),
        Some(Form::Word(Word::Fail)) => fail_at(alloc, cursor.behind()),
        Some(Form::Word(Word::Throw)) => throw_at(alloc, cursor.behind()),
        _ => begun_at(alloc, cursor),
    }
}
