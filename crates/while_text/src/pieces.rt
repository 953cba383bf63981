//! Reading the pieces of statements.
ghost use Rattle.std.specs.Prelude.{◌≡◌, map, length};
ghost use Rattle.gil_lexer.specs.declared.signs.Sign.TheVariants as signs;
ghost use Rattle.gil_lexemes.specs.Lists.{more_at, separated_at, with_front};
ghost use Rattle.gil_lexemes.specs.Reading.{Gives};
ghost use Rattle.gil_syntax.specs.View.{expr_view};
ghost use Rattle.while_lang.specs.View.{field_view};
ghost use Rattle.while_grammar.specs.Reading.Statements as read;

use gil_grammar::Position;
use gil_lexemes::{Cursor, Stop};
use gil_lexer::Sign;
use gil_syntax::Expr;
use gil_text::expression_at;
use sequence::Sequence;
use std::alloc::Global;
use while_lang::{Field, Fields};

/// `e;`
#[tactic(auto, unfolding(while_grammar::specs::Reading::Statements::value_at))]
pub(crate) fn value_at<'a>(alloc: Global, cursor: Cursor<'a>) -> Result<(Expr, Cursor<'a>), Stop>
    ensures { Gives (λ found. (expr_view found.0, found.1)) result (read.value_at cursor.entry) }
{
    let (value, cursor) = expression_at(alloc, Position::Command, cursor)?;
    let cursor = cursor.sign(Sign::Semicolon)?;
    Ok((value, cursor))
}

/// `(e)`
#[tactic(auto, unfolding(while_grammar::specs::Reading::Statements::condition_at))]
pub(crate) fn condition_at<'a>(
    alloc: Global,
    cursor: Cursor<'a>,
) -> Result<(Expr, Cursor<'a>), Stop>
    ensures { Gives (λ found. (expr_view found.0, found.1)) result (read.condition_at cursor.entry) }
{
    let cursor = cursor.sign(Sign::LeftParenthesis)?;
    let (condition, cursor) = expression_at(alloc, Position::Command, cursor)?;
    let cursor = cursor.sign(Sign::RightParenthesis)?;
    Ok((condition, cursor))
}

/// `(e);`
#[tactic(auto, unfolding(while_grammar::specs::Reading::Statements::claim_at))]
pub(crate) fn claim_at<'a>(alloc: Global, cursor: Cursor<'a>) -> Result<(Expr, Cursor<'a>), Stop>
    ensures { Gives (λ found. (expr_view found.0, found.1)) result (read.claim_at cursor.entry) }
{
    let (condition, cursor) = condition_at(alloc, cursor)?;
    let cursor = cursor.sign(Sign::Semicolon)?;
    Ok((condition, cursor))
}

/// `name: e`
#[tactic(auto, unfolding(while_grammar::specs::Reading::Statements::field_at))]
fn field_at<'a>(alloc: Global, cursor: Cursor<'a>) -> Result<(Field, Cursor<'a>), Stop>
    ensures { Gives (λ found. (field_view found.0, found.1)) result (read.field_at cursor.entry) }
{
    let (name, cursor) = cursor.name(alloc)?;
    let cursor = cursor.sign(Sign::Colon)?;
    let (value, cursor) = expression_at(alloc, Position::Command, cursor)?;
    Ok((Field { name, value }, cursor))
}

/// The fields up to the closing brace, with commas between them.
pub(crate) fn fields_at<'a>(alloc: Global, cursor: Cursor<'a>) -> Result<(Fields, Cursor<'a>), Stop>
    ensures { Gives (λ found. (map field_view found.0, found.1)) result
        (separated_at read.field_at signs.RightBrace signs.Comma cursor.entry) }
{
    let mut list = Sequence::new(alloc);
    if cursor.is_at(Sign::RightBrace) {
        return Ok((list, cursor));
    }
    let (first, cursor) = field_at(alloc, cursor)?;
    list.push(first)?;
    more_fields(alloc, list, cursor)
}

/// The fields of the list, and those at the front that stand behind a comma each.
fn more_fields<'a>(
    alloc: Global,
    list: Fields,
    cursor: Cursor<'a>,
) -> Result<(Fields, Cursor<'a>), Stop>
    ensures { Gives (λ found. (map field_view found.0, found.1)) result
        (with_front (map field_view list) (more_at read.field_at (length cursor.entry) signs.Comma cursor.entry)) }
{
    let mut list = list;
    let mut rest = cursor;
    // Each turn takes a comma at least.
    let most = rest.left();
    for _ in 0..most {
        if !rest.is_at(Sign::Comma) {
            return Ok((list, rest));
        }
        let (field, behind) = field_at(alloc, rest.behind())?;
        list.push(field)?;
        rest = behind;
    }
    Ok((list, rest))
}
