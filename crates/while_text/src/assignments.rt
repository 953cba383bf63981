//! Reading statements that begin with a name.
ghost use Rattle.std.specs.Prelude.{◌≡◌};
ghost use Rattle.gil_lexemes.specs.Reading.{Gives};
ghost use Rattle.while_lang.specs.View.{statement_view};
ghost use Rattle.while_grammar.specs.Reading.Statements as read;

use crate::pieces::{fields_at, value_at};
use gil_grammar::Position;
use gil_lexemes::{Cursor, Stop};
use gil_lexer::{Form, Sign, Word};
use gil_text::{expressions_at, input_of_word, word_of};
use gil_values::Text;
use std::alloc::Global;
use while_lang::Statement;

/// `e;`, which is assigned to the variable.
fn assign_at<'a>(
    alloc: Global,
    variable: Text,
    cursor: Cursor<'a>,
) -> Result<(Statement, Cursor<'a>), Stop>
    ensures { Gives (λ found. (statement_view found.0, found.1)) result (read.assign_at variable cursor.entry) }
{
    let (value, cursor) = value_at(alloc, cursor)?;
    Ok((Statement::Assign(variable, value), cursor))
}

/// `sort;`, behind `input`.
#[tactic(auto, unfolding(while_grammar::specs::Reading::Statements::input_at))]
fn input_at<'a>(variable: Text, cursor: Cursor<'a>) -> Result<(Statement, Cursor<'a>), Stop>
    ensures { Gives (λ found. (statement_view found.0, found.1)) result (read.input_at variable cursor.entry) }
{
    let Some(word) = word_of(cursor.first()) else {
        return Err(Stop::Syntax(cursor.left()));
    };
    let Some(kind) = input_of_word(word) else {
        return Err(Stop::Syntax(cursor.left()));
    };
    let cursor = cursor.behind().sign(Sign::Semicolon)?;
    Ok((Statement::Input(variable, kind), cursor))
}

/// `;`, behind `symbol`.
fn symbol_at<'a>(variable: Text, cursor: Cursor<'a>) -> Result<(Statement, Cursor<'a>), Stop>
    ensures { Gives (λ found. (statement_view found.0, found.1)) result (read.symbol_at variable cursor.entry) }
{
    let cursor = cursor.sign(Sign::Semicolon)?;
    Ok((Statement::Symbol(variable), cursor))
}

/// `{p: e, ..};`, behind `new`.
#[tactic(auto, unfolding(while_grammar::specs::Reading::Statements::new_at))]
fn new_at<'a>(
    alloc: Global,
    variable: Text,
    cursor: Cursor<'a>,
) -> Result<(Statement, Cursor<'a>), Stop>
    ensures { Gives (λ found. (statement_view found.0, found.1)) result (read.new_at variable cursor.entry) }
{
    let cursor = cursor.sign(Sign::LeftBrace)?;
    let (fields, cursor) = fields_at(alloc, cursor)?;
    let cursor = cursor.sign(Sign::RightBrace)?;
    let cursor = cursor.sign(Sign::Semicolon)?;
    Ok((Statement::New(variable, fields), cursor))
}

/// `y.p;`
#[tactic(auto, unfolding(while_grammar::specs::Reading::Statements::lookup_at))]
fn lookup_at<'a>(
    alloc: Global,
    variable: Text,
    cursor: Cursor<'a>,
) -> Result<(Statement, Cursor<'a>), Stop>
    ensures { Gives (λ found. (statement_view found.0, found.1)) result (read.lookup_at variable cursor.entry) }
{
    let (record, cursor) = cursor.name(alloc)?;
    let cursor = cursor.sign(Sign::Dot)?;
    let (field, cursor) = cursor.name(alloc)?;
    let cursor = cursor.sign(Sign::Semicolon)?;
    Ok((Statement::Lookup(variable, record, field), cursor))
}

/// `f(e, ..);`
#[tactic(auto, unfolding(while_grammar::specs::Reading::Statements::call_at))]
fn call_at<'a>(
    alloc: Global,
    variable: Text,
    cursor: Cursor<'a>,
) -> Result<(Statement, Cursor<'a>), Stop>
    ensures { Gives (λ found. (statement_view found.0, found.1)) result (read.call_at variable cursor.entry) }
{
    let (function, cursor) = cursor.name(alloc)?;
    let cursor = cursor.sign(Sign::LeftParenthesis)?;
    let (arguments, cursor) = expressions_at(
        alloc,
        Position::Command,
        Sign::RightParenthesis,
        cursor,
    )?;
    let cursor = cursor.sign(Sign::RightParenthesis)?;
    let cursor = cursor.sign(Sign::Semicolon)?;
    Ok((Statement::Call(variable, function, arguments), cursor))
}

/// What is assigned to the variable and begins with a name.
#[tactic(auto, unfolding(while_grammar::specs::Reading::Statements::named_at))]
fn named_at<'a>(
    alloc: Global,
    variable: Text,
    cursor: Cursor<'a>,
) -> Result<(Statement, Cursor<'a>), Stop>
    ensures { Gives (λ found. (statement_view found.0, found.1)) result (read.named_at variable cursor.entry) }
{
    let behind = cursor.copy().behind();
    if behind.is_at(Sign::Dot) {
        return lookup_at(alloc, variable, cursor);
    }
    if behind.is_at(Sign::LeftParenthesis) {
        return call_at(alloc, variable, cursor);
    }
    assign_at(alloc, variable, cursor)
}

/// What is assigned to the variable, behind `=`.
fn assigned_at<'a>(
    alloc: Global,
    variable: Text,
    cursor: Cursor<'a>,
) -> Result<(Statement, Cursor<'a>), Stop>
    ensures { Gives (λ found. (statement_view found.0, found.1)) result (read.assigned_at variable cursor.entry) }
{
    match cursor.first() {
        Some(Form::Name) => named_at(alloc, variable, cursor),
        Some(Form::Word(Word::Input)) => input_at(variable, cursor.behind()),
        Some(Form::Word(Word::Symbol)) => symbol_at(variable, cursor.behind()),
        Some(Form::Word(Word::New)) => new_at(alloc, variable, cursor.behind()),
        _ => assign_at(alloc, variable, cursor),
    }
}

/// `x = ..`
#[tactic(auto, unfolding(while_grammar::specs::Reading::Statements::assignment_at))]
fn assignment_at<'a>(alloc: Global, cursor: Cursor<'a>) -> Result<(Statement, Cursor<'a>), Stop>
    ensures { Gives (λ found. (statement_view found.0, found.1)) result (read.assignment_at cursor.entry) }
{
    let (variable, cursor) = cursor.name(alloc)?;
    let cursor = cursor.sign(Sign::Equal)?;
    assigned_at(alloc, variable, cursor)
}

/// `y.p = e;`
#[tactic(auto, unfolding(while_grammar::specs::Reading::Statements::mutate_at))]
fn mutate_at<'a>(alloc: Global, cursor: Cursor<'a>) -> Result<(Statement, Cursor<'a>), Stop>
    ensures { Gives (λ found. (statement_view found.0, found.1)) result (read.mutate_at cursor.entry) }
{
    let (record, cursor) = cursor.name(alloc)?;
    let cursor = cursor.sign(Sign::Dot)?;
    let (field, cursor) = cursor.name(alloc)?;
    let cursor = cursor.sign(Sign::Equal)?;
    let (value, cursor) = value_at(alloc, cursor)?;
    Ok((Statement::Mutate(record, field, value), cursor))
}

/// The statement at the front, which begins with a name.
#[tactic(auto, unfolding(while_grammar::specs::Reading::Statements::of_name_at))]
pub(crate) fn of_name_at<'a>(
    alloc: Global,
    cursor: Cursor<'a>,
) -> Result<(Statement, Cursor<'a>), Stop>
    ensures { Gives (λ found. (statement_view found.0, found.1)) result (read.of_name_at cursor.entry) }
{
    if cursor.copy().behind().is_at(Sign::Dot) {
        return mutate_at(alloc, cursor);
    }
    assignment_at(alloc, cursor)
}
