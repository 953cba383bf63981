//! Reading the arguments of calls.
ghost use Rattle.std.specs.Prelude.{◌≡◌, map, length};
ghost use Rattle.gil_lexer.specs.declared.signs.Sign.TheVariants as signs;
ghost use Rattle.gil_lexemes.specs.Lists.{more_at, separated_at, with_front};
ghost use Rattle.gil_lexemes.specs.Reading.{Gives};
ghost use Rattle.source_operators.specs.View.{expression_view};
ghost use Rattle.operator_text.specs.PieceReading as read;

use crate::expressions::Tree;
use crate::language::OperatorLanguage;
use crate::pieces::whole_at;
use gil_lexemes::{Cursor, Stop};
use gil_lexer::Sign;
use sequence::Sequence;
use std::alloc::Global;

/// The expressions up to the closing parenthesis, with commas between them.
fn expressions_at<'a, L: OperatorLanguage>(
    alloc: Global,
    cursor: Cursor<'a>,
) -> Result<(Sequence<Tree<L>>, Cursor<'a>), Stop>
    ensures { Gives (λ found. (map expression_view found.0, found.1)) result
        (separated_at (read.whole_at L.signs) signs.RightParenthesis signs.Comma cursor.entry) }
{
    let mut list = Sequence::new(alloc);
    if cursor.is_at(Sign::RightParenthesis) {
        return Ok((list, cursor));
    }
    let (first, cursor) = whole_at::<L>(alloc, cursor)?;
    list.push(first)?;
    more_expressions::<L>(alloc, list, cursor)
}

/// The expressions of the list, and those at the front that stand behind a comma each.
fn more_expressions<'a, L: OperatorLanguage>(
    alloc: Global,
    list: Sequence<Tree<L>>,
    cursor: Cursor<'a>,
) -> Result<(Sequence<Tree<L>>, Cursor<'a>), Stop>
    ensures { Gives (λ found. (map expression_view found.0, found.1)) result
        (with_front (map expression_view list) (more_at (read.whole_at L.signs) (length cursor.entry) signs.Comma cursor.entry)) }
{
    let mut list = list;
    let mut rest = cursor;
    // Each turn takes a comma at least.
    let most = rest.left();
    for _ in 0..most {
        if !rest.is_at(Sign::Comma) {
            return Ok((list, rest));
        }
        let (expression, behind) = whole_at::<L>(alloc, rest.behind())?;
        list.push(expression)?;
        rest = behind;
    }
    Ok((list, rest))
}

/// `e, ..);`, behind `(`.
#[tactic(auto, unfolding(crate::specs::PieceReading::arguments_at))]
pub fn arguments_at<'a, L: OperatorLanguage>(
    alloc: Global,
    cursor: Cursor<'a>,
) -> Result<(Sequence<Tree<L>>, Cursor<'a>), Stop>
    ensures { Gives (λ found. (map expression_view found.0, found.1)) result (read.arguments_at L.signs cursor.entry) }
{
    let (arguments, cursor) = expressions_at::<L>(alloc, cursor)?;
    let cursor = cursor.sign(Sign::RightParenthesis)?;
    let cursor = cursor.sign(Sign::Semicolon)?;
    Ok((arguments, cursor))
}
