//! Reading expressions as statements have them.
ghost use Rattle.gil_lexemes.specs.Reading.{Gives};
ghost use Rattle.source_operators.specs.View.{expression_view};
ghost use Rattle.operator_text.specs.PieceReading as read;

use crate::expressions::{Tree, expression_at};
use crate::language::OperatorLanguage;
use gil_lexemes::{Cursor, Stop};
use gil_lexer::Sign;
use std::alloc::Global;

/// The expression at the front, where only operators of at least a strength may stand.
pub fn expression_from<'a, L: OperatorLanguage>(
    alloc: Global,
    least: u8,
    cursor: Cursor<'a>,
) -> Result<(Tree<L>, Cursor<'a>), Stop>
    ensures { Gives (λ found. (expression_view found.0, found.1)) result (read.expression_from L.signs least cursor.entry) }
{
    let most = cursor.left();
    expression_at::<L>(alloc, most, least, cursor)
}

/// The expression at the front.
pub fn whole_at<'a, L: OperatorLanguage>(
    alloc: Global,
    cursor: Cursor<'a>,
) -> Result<(Tree<L>, Cursor<'a>), Stop>
    ensures { Gives (λ found. (expression_view found.0, found.1)) result (read.whole_at L.signs cursor.entry) }
{
    expression_from::<L>(alloc, 0, cursor)
}

/// `e;`
#[tactic(auto, unfolding(crate::specs::PieceReading::value_at))]
pub fn value_at<'a, L: OperatorLanguage>(
    alloc: Global,
    cursor: Cursor<'a>,
) -> Result<(Tree<L>, Cursor<'a>), Stop>
    ensures { Gives (λ found. (expression_view found.0, found.1)) result (read.value_at L.signs cursor.entry) }
{
    let (value, cursor) = whole_at::<L>(alloc, cursor)?;
    let cursor = cursor.sign(Sign::Semicolon)?;
    Ok((value, cursor))
}

/// `(e);`
#[tactic(auto, unfolding(crate::specs::PieceReading::argument_at))]
pub fn argument_at<'a, L: OperatorLanguage>(
    alloc: Global,
    cursor: Cursor<'a>,
) -> Result<(Tree<L>, Cursor<'a>), Stop>
    ensures { Gives (λ found. (expression_view found.0, found.1)) result (read.argument_at L.signs cursor.entry) }
{
    let cursor = cursor.sign(Sign::LeftParenthesis)?;
    let (argument, cursor) = whole_at::<L>(alloc, cursor)?;
    let cursor = cursor.sign(Sign::RightParenthesis)?;
    let cursor = cursor.sign(Sign::Semicolon)?;
    Ok((argument, cursor))
}

/// `(d, e);`
#[tactic(auto, unfolding(crate::specs::PieceReading::pair_at))]
pub fn pair_at<'a, L: OperatorLanguage>(
    alloc: Global,
    cursor: Cursor<'a>,
) -> Result<(Tree<L>, Tree<L>, Cursor<'a>), Stop>
    ensures { Gives (λ found. ((expression_view found.0, expression_view found.1), found.2)) result (read.pair_at L.signs cursor.entry) }
{
    let cursor = cursor.sign(Sign::LeftParenthesis)?;
    let (first, cursor) = whole_at::<L>(alloc, cursor)?;
    let cursor = cursor.sign(Sign::Comma)?;
    let (second, cursor) = whole_at::<L>(alloc, cursor)?;
    let cursor = cursor.sign(Sign::RightParenthesis)?;
    let cursor = cursor.sign(Sign::Semicolon)?;
    Ok((first, second, cursor))
}
