//! Reading statements that begin with a reserved word and have no block.
ghost use Rattle.std.specs.Prelude.{◌≡◌};
ghost use Rattle.gil_lexemes.specs.Reading.{Gives};
ghost use Rattle.while_lang.specs.View.{statement_view};
ghost use Rattle.while_grammar.specs.Reading.Statements as read;

use crate::pieces::{claim_at, value_at};
use gil_lexemes::{Cursor, Stop};
use gil_lexer::{Sign, Word};
use std::alloc::Global;
use while_lang::Statement;

/// `e;`, behind `dispose`.
pub(crate) fn dispose_at<'a>(
    alloc: Global,
    cursor: Cursor<'a>,
) -> Result<(Statement, Cursor<'a>), Stop>
    ensures { Gives (λ found. (statement_view found.0, found.1)) result (read.dispose_at cursor.entry) }
{
    let (record, cursor) = value_at(alloc, cursor)?;
    Ok((Statement::Dispose(record), cursor))
}

/// `e;`, behind `return`.
pub(crate) fn return_at<'a>(
    alloc: Global,
    cursor: Cursor<'a>,
) -> Result<(Statement, Cursor<'a>), Stop>
    ensures { Gives (λ found. (statement_view found.0, found.1)) result (read.return_at cursor.entry) }
{
    let (value, cursor) = value_at(alloc, cursor)?;
    Ok((Statement::Return(value), cursor))
}

/// `e;`, behind `fail`.
pub(crate) fn fail_at<'a>(
    alloc: Global,
    cursor: Cursor<'a>,
) -> Result<(Statement, Cursor<'a>), Stop>
    ensures { Gives (λ found. (statement_view found.0, found.1)) result (read.fail_at cursor.entry) }
{
    let (value, cursor) = value_at(alloc, cursor)?;
    Ok((Statement::Fail(value), cursor))
}

/// `(e);`, behind `assert`.
fn assert_at<'a>(alloc: Global, cursor: Cursor<'a>) -> Result<(Statement, Cursor<'a>), Stop>
    ensures { Gives (λ found. (statement_view found.0, found.1)) result (read.assert_at cursor.entry) }
{
    let (condition, cursor) = claim_at(alloc, cursor)?;
    Ok((Statement::Assert(condition), cursor))
}

/// `(e);`, behind `assume`.
pub(crate) fn assume_at<'a>(
    alloc: Global,
    cursor: Cursor<'a>,
) -> Result<(Statement, Cursor<'a>), Stop>
    ensures { Gives (λ found. (statement_view found.0, found.1)) result (read.assume_at cursor.entry) }
{
    let (condition, cursor) = claim_at(alloc, cursor)?;
    Ok((Statement::Assume(condition), cursor))
}

/// What only proofs look at, from its word on.
pub(crate) fn logic_at<'a>(
    alloc: Global,
    word: Word,
    cursor: Cursor<'a>,
) -> Result<(Statement, Cursor<'a>), Stop>
    ensures { Gives (λ found. (statement_view found.0, found.1)) result (read.logic_at word cursor.entry) }
{
    let (logic, cursor) = source_text::logic_at(alloc, word, cursor)?;
    Ok((Statement::Logic(logic), cursor))
}

/// The statement at the front, which begins with `assert`.
#[tactic(auto, unfolding(while_grammar::specs::Reading::Statements::asserted_at))]
pub(crate) fn asserted_at<'a>(
    alloc: Global,
    cursor: Cursor<'a>,
) -> Result<(Statement, Cursor<'a>), Stop>
    ensures { Gives (λ found. (statement_view found.0, found.1)) result (read.asserted_at cursor.entry) }
{
    if cursor.copy().behind().is_at(Sign::LeftBrace) {
        return logic_at(alloc, Word::Assert, cursor);
    }
    assert_at(alloc, cursor.behind())
}
