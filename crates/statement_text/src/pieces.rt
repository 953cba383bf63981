//! Reading the pieces of statements, and statements without blocks.
ghost use Rattle.std.specs.Prelude.{◌≡◌};
ghost use Rattle.gil_lexemes.specs.Reading.{Gives};
ghost use Rattle.source_statements.specs.View.{statement_view};
ghost use Rattle.statement_text.specs.Reading as read;

use crate::language::StatementReader;
use gil_lexemes::{Cursor, Stop};
use gil_lexer::{Sign, Word};
use gil_values::Text;
use source_statements::Statement;
use std::alloc::Global;

/// `e;`
#[tactic(auto, unfolding(crate::specs::Reading::value_at))]
fn value_at<'a, L: StatementReader>(
    alloc: Global,
    cursor: Cursor<'a>,
) -> Result<(L::Expression, Cursor<'a>), Stop>
    ensures { Gives (λ found. (L.expression_view found.0, found.1)) result (read.value_at L.readers cursor.entry) }
{
    let (value, cursor) = L::expression_at(alloc, cursor)?;
    let cursor = cursor.sign(Sign::Semicolon)?;
    Ok((value, cursor))
}

/// `(e)`
#[tactic(auto, unfolding(crate::specs::Reading::condition_at))]
pub(crate) fn condition_at<'a, L: StatementReader>(
    alloc: Global,
    cursor: Cursor<'a>,
) -> Result<(L::Expression, Cursor<'a>), Stop>
    ensures { Gives (λ found. (L.expression_view found.0, found.1)) result (read.condition_at L.readers cursor.entry) }
{
    let cursor = cursor.sign(Sign::LeftParenthesis)?;
    let (condition, cursor) = L::expression_at(alloc, cursor)?;
    let cursor = cursor.sign(Sign::RightParenthesis)?;
    Ok((condition, cursor))
}

/// `(e);`
#[tactic(auto, unfolding(crate::specs::Reading::claim_at))]
fn claim_at<'a, L: StatementReader>(
    alloc: Global,
    cursor: Cursor<'a>,
) -> Result<(L::Expression, Cursor<'a>), Stop>
    ensures { Gives (λ found. (L.expression_view found.0, found.1)) result (read.claim_at L.readers cursor.entry) }
{
    let (condition, cursor) = condition_at::<L>(alloc, cursor)?;
    let cursor = cursor.sign(Sign::Semicolon)?;
    Ok((condition, cursor))
}

/// A simple statement.
pub(crate) fn plain_at<'a, L: StatementReader>(
    alloc: Global,
    cursor: Cursor<'a>,
) -> Result<(Statement<L::Expression, L::Simple>, Cursor<'a>), Stop>
    ensures { Gives (λ found. (statement_view L.expression_view L.simple_view found.0, found.1)) result (read.plain_at L.readers cursor.entry) }
{
    let (simple, cursor) = L::simple_at(alloc, cursor)?;
    Ok((Statement::Simple(simple), cursor))
}

/// `e;`, behind `return`.
pub(crate) fn return_at<'a, L: StatementReader>(
    alloc: Global,
    cursor: Cursor<'a>,
) -> Result<(Statement<L::Expression, L::Simple>, Cursor<'a>), Stop>
    ensures { Gives (λ found. (statement_view L.expression_view L.simple_view found.0, found.1)) result (read.return_at L.readers cursor.entry) }
{
    let (value, cursor) = value_at::<L>(alloc, cursor)?;
    Ok((Statement::Return(value), cursor))
}

/// `(e);`, behind `assert`.
fn assert_at<'a, L: StatementReader>(
    alloc: Global,
    cursor: Cursor<'a>,
) -> Result<(Statement<L::Expression, L::Simple>, Cursor<'a>), Stop>
    ensures { Gives (λ found. (statement_view L.expression_view L.simple_view found.0, found.1)) result (read.assert_at L.readers cursor.entry) }
{
    let (condition, cursor) = claim_at::<L>(alloc, cursor)?;
    Ok((Statement::Assert(condition), cursor))
}

/// `(e);`, behind `assume`.
pub(crate) fn assume_at<'a, L: StatementReader>(
    alloc: Global,
    cursor: Cursor<'a>,
) -> Result<(Statement<L::Expression, L::Simple>, Cursor<'a>), Stop>
    ensures { Gives (λ found. (statement_view L.expression_view L.simple_view found.0, found.1)) result (read.assume_at L.readers cursor.entry) }
{
    let (condition, cursor) = claim_at::<L>(alloc, cursor)?;
    Ok((Statement::Assume(condition), cursor))
}

/// What only proofs look at, from its word on.
pub(crate) fn logic_at<'a, L: StatementReader>(
    alloc: Global,
    word: Word,
    cursor: Cursor<'a>,
) -> Result<(Statement<L::Expression, L::Simple>, Cursor<'a>), Stop>
    ensures { Gives (λ found. (statement_view L.expression_view L.simple_view found.0, found.1)) result (read.logic_at L.readers word cursor.entry) }
{
    let (logic, cursor) = source_text::logic_at(alloc, word, cursor)?;
    Ok((Statement::Logic(logic), cursor))
}

/// The statement at the front, which begins with `assert`.
#[tactic(auto, unfolding(crate::specs::Reading::asserted_at))]
pub(crate) fn asserted_at<'a, L: StatementReader>(
    alloc: Global,
    cursor: Cursor<'a>,
) -> Result<(Statement<L::Expression, L::Simple>, Cursor<'a>), Stop>
    ensures { Gives (λ found. (statement_view L.expression_view L.simple_view found.0, found.1)) result (read.asserted_at L.readers cursor.entry) }
{
    if cursor.copy().behind().is_at(Sign::LeftBrace) {
        return logic_at::<L>(alloc, Word::Assert, cursor);
    }
    assert_at::<L>(alloc, cursor.behind())
}

/// `(x)`, behind `catch`.
#[tactic(auto, unfolding(crate::specs::Reading::caught_at))]
pub(crate) fn caught_at<'a>(alloc: Global, cursor: Cursor<'a>) -> Result<(Text, Cursor<'a>), Stop>
    ensures { Gives (λ found. (found.0, found.1)) result (read.caught_at cursor.entry) }
{
    let cursor = cursor.sign(Sign::LeftParenthesis)?;
    let (name, cursor) = cursor.name(alloc)?;
    let cursor = cursor.sign(Sign::RightParenthesis)?;
    Ok((name, cursor))
}
