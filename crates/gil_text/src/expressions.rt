//! Reading expressions.
ghost use Rattle.std.specs.Prelude.{◌≡◌, length};
ghost use Rattle.gil_lexer.specs.declared.signs.Sign.TheVariants as signs;
ghost use Rattle.gil_lexemes.specs.Lists.{separated_at, more_at, with_front};
ghost use Rattle.gil_lexemes.specs.Reading.{Gives};
ghost use Rattle.gil_syntax.specs.View.{expr_view, exprs_view};
ghost use Rattle.gil_grammar.specs.Reading.Expressions as read;

use crate::vocabulary::{named_at, operator_of, unary_of_word, word_value};
use gil_grammar::Position;
use gil_lexemes::{Cursor, Stop};
use gil_lexer::{Form, Sign, Word};
use gil_syntax::{Expr, Exprs};
use gil_values::{BinOp, UnOp, Value};
use std::alloc::Global;

/// Whether an expression with brackets begins with a token of this form.
fn opens(form: Option<Form>) -> bool
    ensures { result ≡ read.opens form }
{
    match form {
        Some(Form::Sign(Sign::LeftParenthesis | Sign::LeftBracket)) => true,
        Some(Form::Word(word)) => word_opens(word),
        _ => false,
    }
}

/// Whether an expression with brackets begins with this reserved word.
fn word_opens(word: Word) -> bool
    ensures { result ≡ read.word_opens word }
{
    match word {
        Word::Nth => true,
        _ => unary_of_word(word).is_some(),
    }
}

/// The logical name at the front, where one may stand.
fn logical_leaf<'a>(
    alloc: Global,
    position: Position,
    cursor: Cursor<'a>,
) -> Result<(Expr, Cursor<'a>), Stop>
    ensures { Gives (λ found. (expr_view found.0, found.1)) result (read.logical_leaf position cursor.entry) }
{
    match position {
        Position::Assertion => {
            let (name, cursor) = cursor.logical_name(alloc)?;
            Ok((Expr::Logical(name), cursor))
        }
        _ => Err(Stop::Syntax(cursor.left())),
    }
}

/// The name at the front.
fn name_leaf<'a>(
    alloc: Global,
    position: Position,
    cursor: Cursor<'a>,
) -> Result<(Expr, Cursor<'a>), Stop>
    ensures { Gives (λ found. (expr_view found.0, found.1)) result (read.name_leaf position cursor.entry) }
{
    let (name, cursor) = named_at(alloc, position, cursor)?;
    Ok((Expr::Name(name), cursor))
}

/// The literal that a reserved word is, or the name for which it serves.
fn word_leaf<'a>(
    alloc: Global,
    position: Position,
    word: Word,
    cursor: Cursor<'a>,
) -> Result<(Expr, Cursor<'a>), Stop>
    ensures { Gives (λ found. (expr_view found.0, found.1)) result (read.word_leaf word position cursor.entry) }
{
    match word_value(word) {
        Some(value) => Ok((Expr::Lit(value), cursor.behind())),
        None => name_leaf(alloc, position, cursor),
    }
}

/// The literal or the name at the front.
fn leaf_at<'a>(
    alloc: Global,
    position: Position,
    cursor: Cursor<'a>,
) -> Result<(Expr, Cursor<'a>), Stop>
    ensures { Gives (λ found. (expr_view found.0, found.1)) result (read.leaf_at position cursor.entry) }
{
    match cursor.first() {
        Some(Form::Name) => name_leaf(alloc, position, cursor),
        Some(Form::Word(word)) => word_leaf(alloc, position, word, cursor),
        Some(Form::Logical) => logical_leaf(alloc, position, cursor),
        Some(Form::Procedure) => {
            let (name, cursor) = cursor.procedure(alloc)?;
            Ok((Expr::Lit(Value::Proc(name)), cursor))
        }
        Some(Form::Number) => {
            let (number, cursor) = cursor.number()?;
            Ok((Expr::Lit(Value::Int(i128::from(number))), cursor))
        }
        Some(Form::Text) => {
            let (characters, cursor) = cursor.characters(alloc)?;
            Ok((Expr::Lit(Value::Str(characters)), cursor))
        }
        _ => Err(Stop::Syntax(cursor.left())),
    }
}

/// The expression at the front, within which so many brackets may be open.
#[cycle(expression)]
#[tactic(auto, unfolding(gil_grammar::specs::Reading::Expressions::expr_at))]
pub(crate) fn expr_at<'a>(
    alloc: Global,
    brackets: u32,
    position: Position,
    cursor: Cursor<'a>,
) -> Result<(Expr, Cursor<'a>), Stop>
    ensures { Gives (λ found. (expr_view found.0, found.1)) result (read.expr_at brackets position cursor.entry) }
{
    if !opens(cursor.first()) {
        return leaf_at(alloc, position, cursor);
    }
    if brackets == 0 {
        return Err(Stop::Syntax(cursor.left()));
    }
    bracketed_at(alloc, brackets - 1, position, cursor)
}

/// The expression with brackets at the front, within which so many more may be open.
#[cycle(expression)]
fn bracketed_at<'a>(
    alloc: Global,
    inner: u32,
    position: Position,
    cursor: Cursor<'a>,
) -> Result<(Expr, Cursor<'a>), Stop>
    ensures { Gives (λ found. (expr_view found.0, found.1)) result (read.bracketed_at (read.expr_at inner position) cursor.entry) }
{
    match cursor.first() {
        Some(Form::Sign(Sign::LeftParenthesis)) => infix_at(alloc, inner, position, cursor),
        Some(Form::Sign(Sign::LeftBracket)) => list_at(alloc, inner, position, cursor),
        Some(Form::Word(word)) => word_bracketed(alloc, inner, position, word, cursor),
        _ => Err(Stop::Syntax(cursor.left())),
    }
}

/// The expression at the front that begins with this reserved word and has brackets.
#[cycle(expression)]
fn word_bracketed<'a>(
    alloc: Global,
    inner: u32,
    position: Position,
    word: Word,
    cursor: Cursor<'a>,
) -> Result<(Expr, Cursor<'a>), Stop>
    ensures { Gives (λ found. (expr_view found.0, found.1)) result (read.word_bracketed word (read.expr_at inner position) cursor.entry) }
{
    if word == Word::Nth {
        return nth_at(alloc, inner, position, cursor);
    }
    match unary_of_word(word) {
        Some(op) => unary_at(alloc, inner, position, op, cursor),
        None => Err(Stop::Syntax(cursor.left())),
    }
}

/// `(e op e)`
#[cycle(expression)]
#[tactic(auto, unfolding(gil_grammar::specs::Reading::Expressions::infix_at))]
fn infix_at<'a>(
    alloc: Global,
    inner: u32,
    position: Position,
    cursor: Cursor<'a>,
) -> Result<(Expr, Cursor<'a>), Stop>
    ensures { Gives (λ found. (expr_view found.0, found.1)) result (read.infix_at (read.expr_at inner position) cursor.entry) }
{
    let cursor = cursor.sign(Sign::LeftParenthesis)?;
    let (left, cursor) = expr_at(alloc, inner, position, cursor)?;
    let Some(op) = operator_of(cursor.first()) else {
        return Err(Stop::Syntax(cursor.left()));
    };
    let (right, cursor) = expr_at(alloc, inner, position, cursor.behind())?;
    let cursor = cursor.sign(Sign::RightParenthesis)?;
    let left = Box::new(alloc, left)?;
    let right = Box::new(alloc, right)?;
    Ok((Expr::Op2(op, left, right), cursor))
}

/// `nth(e, e)`
#[cycle(expression)]
#[tactic(auto, unfolding(gil_grammar::specs::Reading::Expressions::nth_at))]
fn nth_at<'a>(
    alloc: Global,
    inner: u32,
    position: Position,
    cursor: Cursor<'a>,
) -> Result<(Expr, Cursor<'a>), Stop>
    ensures { Gives (λ found. (expr_view found.0, found.1)) result (read.nth_at (read.expr_at inner position) cursor.entry) }
{
    let cursor = cursor.behind().sign(Sign::LeftParenthesis)?;
    let (left, cursor) = expr_at(alloc, inner, position, cursor)?;
    let cursor = cursor.sign(Sign::Comma)?;
    let (right, cursor) = expr_at(alloc, inner, position, cursor)?;
    let cursor = cursor.sign(Sign::RightParenthesis)?;
    let left = Box::new(alloc, left)?;
    let right = Box::new(alloc, right)?;
    Ok((Expr::Op2(BinOp::Nth, left, right), cursor))
}

/// `op(e)`
#[cycle(expression)]
#[tactic(auto, unfolding(gil_grammar::specs::Reading::Expressions::unary_at))]
fn unary_at<'a>(
    alloc: Global,
    inner: u32,
    position: Position,
    op: UnOp,
    cursor: Cursor<'a>,
) -> Result<(Expr, Cursor<'a>), Stop>
    ensures { Gives (λ found. (expr_view found.0, found.1)) result (read.unary_at op (read.expr_at inner position) cursor.entry) }
{
    let cursor = cursor.behind().sign(Sign::LeftParenthesis)?;
    let (operand, cursor) = expr_at(alloc, inner, position, cursor)?;
    let cursor = cursor.sign(Sign::RightParenthesis)?;
    Ok((Expr::Op1(op, Box::new(alloc, operand)?), cursor))
}

/// `[e, ..]`
#[cycle(expression)]
#[tactic(auto, unfolding(gil_grammar::specs::Reading::Expressions::list_at))]
fn list_at<'a>(
    alloc: Global,
    inner: u32,
    position: Position,
    cursor: Cursor<'a>,
) -> Result<(Expr, Cursor<'a>), Stop>
    ensures { Gives (λ found. (expr_view found.0, found.1)) result (read.list_at (read.expr_at inner position) cursor.entry) }
{
    let cursor = cursor.sign(Sign::LeftBracket)?;
    let (elements, cursor) = exprs_at(alloc, inner, position, Sign::RightBracket, cursor)?;
    let cursor = cursor.sign(Sign::RightBracket)?;
    Ok((Expr::List(elements), cursor))
}

/// The expressions up to the closing sign, with commas between them.
#[cycle(expression)]
pub(crate) fn exprs_at<'a>(
    alloc: Global,
    inner: u32,
    position: Position,
    closing: Sign,
    cursor: Cursor<'a>,
) -> Result<(Exprs, Cursor<'a>), Stop>
    ensures { Gives (λ found. (
      exprs_view found.0,
      found.1,
    )) result (separated_at (read.expr_at inner position) closing signs.Comma cursor.entry) }
{
    let mut list = Exprs::new(alloc);
    if cursor.is_at(closing) {
        return Ok((list, cursor));
    }
    let (first, cursor) = expr_at(alloc, inner, position, cursor)?;
    list.push(first)?;
    more_exprs(alloc, inner, position, list, cursor)
}

/// The expressions of the list, and those at the front that stand behind a comma each.
#[cycle(expression)]
fn more_exprs<'a>(
    alloc: Global,
    inner: u32,
    position: Position,
    list: Exprs,
    cursor: Cursor<'a>,
) -> Result<(Exprs, Cursor<'a>), Stop>
    ensures { Gives (λ found. (exprs_view found.0, found.1)) result
        (with_front (exprs_view list) (more_at (read.expr_at inner position) (length cursor.entry) signs.Comma cursor.entry)) }
{
    let mut list = list;
    let mut rest = cursor;
    // Each turn takes a comma at least.
    let most = rest.left();
    for _ in 0..most {
        if !rest.is_at(Sign::Comma) {
            return Ok((list, rest));
        }
        let (expression, behind) = expr_at(alloc, inner, position, rest.behind())?;
        list.push(expression)?;
        rest = behind;
    }
    Ok((list, rest))
}
