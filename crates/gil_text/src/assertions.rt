//! Reading parameters and assertions.
ghost use Rattle.std.specs.Prelude.{◌≡◌, length};
ghost use Rattle.gil_lexer.specs.declared.signs.Sign.TheVariants as signs;
ghost use Rattle.gil_lexemes.specs.Lists.{more_at, with_front};
ghost use Rattle.gil_lexemes.specs.Reading.{Gives};
ghost use Rattle.gil_syntax.specs.View.{expr_view, exprs_view, pred_use_view, item_view, assertion_view};
ghost use Rattle.gil_grammar.specs.Reading.Assertions as read;

use crate::expressions::{expr_at, exprs_at};
use crate::vocabulary::{named_at, sort_of_word, word_of};
use gil_grammar::{Naming, Position};
use gil_lexemes::{Cursor, Stop};
use gil_lexer::{Form, Sign, Word};
use gil_syntax::{Assertion, Expr, Exprs, Item, Param, Params, PredUse, SpecSort};
use gil_values::Text;
use sequence::Sequence;
use std::alloc::Global;

/// The most brackets that may be open.
pub(crate) const MOST_OPEN: u32 = 64;

/// The name of a variable.
fn variable_at<'a>(
    alloc: Global,
    naming: Naming,
    cursor: Cursor<'a>,
) -> Result<(Text, Cursor<'a>), Stop>
    ensures { Gives (λ found. (found.0, found.1)) result (read.variable_at naming cursor.entry) }
{
    match naming {
        Naming::Program => cursor.name(alloc),
        Naming::Logical => cursor.logical_name(alloc),
    }
}

/// A colon and a sort, or else the sort `any`.
#[tactic(auto, unfolding(gil_grammar::specs::Reading::Assertions::sort_at))]
fn sort_at<'a>(cursor: Cursor<'a>) -> Result<(SpecSort, Cursor<'a>), Stop>
    ensures { Gives (λ found. (found.0, found.1)) result (read.sort_at cursor.entry) }
{
    if !cursor.is_at(Sign::Colon) {
        return Ok((SpecSort::Any, cursor));
    }
    let cursor = cursor.behind();
    let Some(word) = word_of(cursor.first()) else {
        return Err(Stop::Syntax(cursor.left()));
    };
    match sort_of_word(word) {
        Some(sort) => Ok((sort, cursor.behind())),
        None => Err(Stop::Syntax(cursor.left())),
    }
}

/// `name : sort`, or `name` alone.
#[tactic(auto, unfolding(gil_grammar::specs::Reading::Assertions::param_at))]
fn param_at<'a>(
    alloc: Global,
    naming: Naming,
    cursor: Cursor<'a>,
) -> Result<(Param, Cursor<'a>), Stop>
    ensures { Gives (λ found. (found.0, found.1)) result (read.param_at naming cursor.entry) }
{
    let (name, cursor) = variable_at(alloc, naming, cursor)?;
    let (sort, cursor) = sort_at(cursor)?;
    Ok((Param { name, sort }, cursor))
}

/// The parameters up to the closing sign, with commas between them.
pub(crate) fn params_at<'a>(
    alloc: Global,
    naming: Naming,
    closing: Sign,
    cursor: Cursor<'a>,
) -> Result<(Params, Cursor<'a>), Stop>
    ensures { Gives (λ found. (found.0, found.1)) result (read.params_at naming closing cursor.entry) }
{
    let mut list = Sequence::new(alloc);
    if cursor.is_at(closing) {
        return Ok((list, cursor));
    }
    let (first, cursor) = param_at(alloc, naming, cursor)?;
    list.push(first)?;
    more_params(alloc, naming, list, cursor)
}

/// The parameters of the list, and those at the front that stand behind a comma each.
fn more_params<'a>(
    alloc: Global,
    naming: Naming,
    list: Params,
    cursor: Cursor<'a>,
) -> Result<(Params, Cursor<'a>), Stop>
    ensures { Gives (λ found. (found.0, found.1)) result
        (with_front list (more_at (read.param_at naming) (length cursor.entry) signs.Comma cursor.entry)) }
{
    let mut list = list;
    let mut rest = cursor;
    // Each turn takes a comma at least.
    let most = rest.left();
    for _ in 0..most {
        if !rest.is_at(Sign::Comma) {
            return Ok((list, rest));
        }
        let (param, behind) = param_at(alloc, naming, rest.behind())?;
        list.push(param)?;
        rest = behind;
    }
    Ok((list, rest))
}

/// `[#x : sort, ..]`
#[tactic(auto, unfolding(gil_grammar::specs::Reading::Assertions::variables_at))]
pub(crate) fn variables_at<'a>(
    alloc: Global,
    cursor: Cursor<'a>,
) -> Result<(Params, Cursor<'a>), Stop>
    ensures { Gives (λ found. (found.0, found.1)) result (read.variables_at cursor.entry) }
{
    let cursor = cursor.sign(Sign::LeftBracket)?;
    let (variables, cursor) = params_at(alloc, Naming::Logical, Sign::RightBracket, cursor)?;
    let cursor = cursor.sign(Sign::RightBracket)?;
    Ok((variables, cursor))
}

/// The expression at the front.
pub fn expression_at<'a>(
    alloc: Global,
    position: Position,
    cursor: Cursor<'a>,
) -> Result<(Expr, Cursor<'a>), Stop>
    ensures { Gives (λ found. (expr_view found.0, found.1)) result (read.expression_at position cursor.entry) }
{
    expr_at(alloc, MOST_OPEN, position, cursor)
}

/// The expressions up to the closing sign, with commas between them.
pub fn expressions_at<'a>(
    alloc: Global,
    position: Position,
    closing: Sign,
    cursor: Cursor<'a>,
) -> Result<(Exprs, Cursor<'a>), Stop>
    ensures { Gives (λ found. (exprs_view found.0, found.1)) result (read.expressions_at position closing cursor.entry) }
{
    exprs_at(alloc, MOST_OPEN, position, closing, cursor)
}

/// `name(e, ..; e, ..)`
#[tactic(auto, unfolding(gil_grammar::specs::Reading::Assertions::use_at))]
pub(crate) fn use_at<'a>(alloc: Global, cursor: Cursor<'a>) -> Result<(PredUse, Cursor<'a>), Stop>
    ensures { Gives (λ found. (pred_use_view found.0, found.1)) result (read.use_at cursor.entry) }
{
    let (pred, cursor) = named_at(alloc, Position::Predicate, cursor)?;
    let cursor = cursor.sign(Sign::LeftParenthesis)?;
    let (ins, cursor) = expressions_at(alloc, Position::Assertion, Sign::Semicolon, cursor)?;
    let cursor = cursor.sign(Sign::Semicolon)?;
    let (outs, cursor) = expressions_at(
        alloc,
        Position::Assertion,
        Sign::RightParenthesis,
        cursor,
    )?;
    let cursor = cursor.sign(Sign::RightParenthesis)?;
    Ok((PredUse { pred, ins, outs }, cursor))
}

/// An expression as an item.
fn pure_at<'a>(alloc: Global, cursor: Cursor<'a>) -> Result<(Item, Cursor<'a>), Stop>
    ensures { Gives (λ found. (item_view found.0, found.1)) result (read.pure_at cursor.entry) }
{
    let (expression, cursor) = expression_at(alloc, Position::Assertion, cursor)?;
    Ok((Item::Pure(expression), cursor))
}

/// A use of a predicate as an item.
fn uses_at<'a>(alloc: Global, cursor: Cursor<'a>) -> Result<(Item, Cursor<'a>), Stop>
    ensures { Gives (λ found. (item_view found.0, found.1)) result (read.uses_at cursor.entry) }
{
    let (pred_use, cursor) = use_at(alloc, cursor)?;
    Ok((Item::Uses(pred_use), cursor))
}

/// The item at the front.
#[tactic(auto, unfolding(gil_grammar::specs::Reading::Assertions::item_at))]
fn item_at<'a>(alloc: Global, cursor: Cursor<'a>) -> Result<(Item, Cursor<'a>), Stop>
    ensures { Gives (λ found. (item_view found.0, found.1)) result (read.item_at cursor.entry) }
{
    match cursor.first() {
        Some(Form::Sign(Sign::LeftParenthesis)) => pure_at(alloc, cursor),
        Some(Form::Word(Word::Not)) => pure_at(alloc, cursor),
        _ => uses_at(alloc, cursor),
    }
}

/// `emp`, or items with stars between them.
#[tactic(auto, unfolding(gil_grammar::specs::Reading::Assertions::assertion_at))]
fn assertion_at<'a>(alloc: Global, cursor: Cursor<'a>) -> Result<(Assertion, Cursor<'a>), Stop>
    ensures { Gives (λ found. (assertion_view found.0, found.1)) result (read.assertion_at cursor.entry) }
{
    let mut list = Sequence::new(alloc);
    if cursor.is_at_word(Word::Emp) {
        return Ok((list, cursor.behind()));
    }
    let (first, cursor) = item_at(alloc, cursor)?;
    list.push(first)?;
    more_items(alloc, list, cursor)
}

/// The items of the list, and those at the front that stand behind a star each.
fn more_items<'a>(
    alloc: Global,
    list: Assertion,
    cursor: Cursor<'a>,
) -> Result<(Assertion, Cursor<'a>), Stop>
    ensures { Gives (λ found. (assertion_view found.0, found.1)) result
        (with_front (assertion_view list) (more_at read.item_at (length cursor.entry) signs.Star cursor.entry)) }
{
    let mut list = list;
    let mut rest = cursor;
    // Each turn takes a star at least.
    let most = rest.left();
    for _ in 0..most {
        if !rest.is_at(Sign::Star) {
            return Ok((list, rest));
        }
        let (item, behind) = item_at(alloc, rest.behind())?;
        list.push(item)?;
        rest = behind;
    }
    Ok((list, rest))
}

/// `{ assertion }`
#[tactic(auto, unfolding(gil_grammar::specs::Reading::Assertions::block_at))]
pub(crate) fn block_at<'a>(
    alloc: Global,
    cursor: Cursor<'a>,
) -> Result<(Assertion, Cursor<'a>), Stop>
    ensures { Gives (λ found. (assertion_view found.0, found.1)) result (read.block_at cursor.entry) }
{
    let cursor = cursor.sign(Sign::LeftBrace)?;
    let (items, cursor) = assertion_at(alloc, cursor)?;
    let cursor = cursor.sign(Sign::RightBrace)?;
    Ok((items, cursor))
}
