//! Reading expressions.
ghost use Rattle.std.specs.Prelude.{◌≡◌, length, option_map, IfOk};
ghost use Rattle.gil_lexemes.specs.Reading.{Gives, first_form};
ghost use Rattle.source_operators.specs.Pure.{brackets as in_brackets, prefixed as pure_prefixed};
ghost use Rattle.source_operators.specs.View.{expression_view};
ghost use Rattle.operator_text.specs.Grammar.{first_after};
ghost use Rattle.operator_text.specs.Reading as read;
ghost use Rattle.operator_text.specs.Signs as signs;

use crate::language::OperatorLanguage;
use crate::strengths::{After, TIGHT, after_of, strength};
use gil_lexemes::{Cursor, Stop};
use gil_lexer::Sign;
use gil_values::Value;
use source_operators::Expression;
use std::alloc::{AllocError, Global};

/// An expression of a language.
pub(crate) type Tree<L> = Expression<
    <L as OperatorLanguage>::Prefix,
    <L as OperatorLanguage>::Joint,
>;

/// What a token at the front begins behind an expression.
fn after_at<L: OperatorLanguage>(cursor: &Cursor<'_>) -> Option<After>
    ensures { result ≡ first_after L.signs cursor.now }
{
    match cursor.first() {
        Some(form) => after_of(L::dots(), form),
        None => None,
    }
}

/// The operator of one operand that a token at the front is.
fn prefix_at<L: OperatorLanguage>(cursor: &Cursor<'_>) -> Option<L::Prefix>
    ensures { result ≡ read.prefix_of L.signs (first_form cursor.now) }
{
    match cursor.first() {
        Some(form) => L::prefix(form),
        None => None,
    }
}

/// A left side, what follows it, and a right side.
fn join<L: OperatorLanguage>(
    alloc: Global,
    after: After,
    left: Tree<L>,
    right: Tree<L>,
) -> Result<Tree<L>, AllocError>
    ensures { IfOk result (λ e. expression_view e ≡ signs.join L.signs after (expression_view left) (expression_view right)) }
{
    let left = Box::new(alloc, left)?;
    let right = Box::new(alloc, right)?;
    match after {
        After::Infix(operator) => Ok(Expression::Joined(L::operation(operator), left, right)),
        After::Connects(connective) => Ok(Expression::Skipping(connective, left, right)),
        After::Bracketed => Ok(Expression::Joined(L::indexed(), left, right)),
        After::Dotted => Ok(Expression::Joined(L::indexed(), left, right)),
    }
}

/// An expression in brackets.
fn brackets<L: OperatorLanguage>(alloc: Global, inner: Tree<L>) -> Result<Tree<L>, AllocError>
    ensures { IfOk result (λ e. expression_view e ≡ in_brackets (expression_view inner)) }
{
    Ok(Expression::Brackets(Box::new(alloc, inner)?))
}

/// An operator of one operand and its operand.
fn prefixed<L: OperatorLanguage>(
    alloc: Global,
    operator: L::Prefix,
    operand: Tree<L>,
) -> Result<Tree<L>, AllocError>
    ensures { IfOk result (λ e. expression_view e ≡ pure_prefixed operator (expression_view operand)) }
{
    Ok(Expression::Prefixed(operator, Box::new(alloc, operand)?))
}

/// What `&` makes of an expression.
fn addressed<L: OperatorLanguage>(expression: Tree<L>) -> Option<Tree<L>>
    ensures { option_map expression_view result ≡ read.addressed L.signs (expression_view expression) }
{
    match expression {
        Expression::Joined(operator, left, right) => match L::taken(operator) {
            Some(operator) => Some(Expression::Joined(operator, left, right)),
            None => None,
        },
        _ => None,
    }
}

/// An expression where only operators of at least a strength may stand, in which so many stand within one another at most, this one among
/// them.
#[cycle(expression)]
#[tactic(auto, unfolding(crate::specs::Reading::expression_by))]
pub fn expression_at<'a, L: OperatorLanguage>(
    alloc: Global,
    most: usize,
    least: u8,
    cursor: Cursor<'a>,
) -> Result<(Tree<L>, Cursor<'a>), Stop>
    ensures { Gives (λ found. (expression_view found.0, found.1)) result (read.expression_at L.signs most least cursor.entry) }
{
    if most == 0 {
        return Err(Stop::Syntax(cursor.left()));
    }
    let (left, cursor) = single_at::<L>(alloc, most - 1, cursor)?;
    more_at::<L>(alloc, most - 1, least, left, cursor)
}

/// What no operator joins.
#[cycle(expression)]
#[tactic(auto, unfolding(crate::specs::Reading::single_at))]
fn single_at<'a, L: OperatorLanguage>(
    alloc: Global,
    inner: usize,
    cursor: Cursor<'a>,
) -> Result<(Tree<L>, Cursor<'a>), Stop>
    ensures { Gives (λ found. (expression_view found.0, found.1)) result
        (read.single_at L.signs (read.expression_at L.signs inner) cursor.entry) }
{
    if cursor.is_at(Sign::LeftParenthesis) {
        return bracketed_at::<L>(alloc, inner, cursor.behind());
    }
    if cursor.is_at(Sign::Ampersand) {
        return address_at::<L>(alloc, inner, cursor.behind());
    }
    match prefix_at::<L>(&cursor) {
        Some(operator) => prefixed_at::<L>(alloc, inner, operator, cursor.behind()),
        None => L::leaf_at(alloc, cursor),
    }
}

/// `e)`, behind `(`.
#[cycle(expression)]
#[tactic(auto, unfolding(crate::specs::Reading::bracketed_at))]
fn bracketed_at<'a, L: OperatorLanguage>(
    alloc: Global,
    inner: usize,
    cursor: Cursor<'a>,
) -> Result<(Tree<L>, Cursor<'a>), Stop>
    ensures { Gives (λ found. (expression_view found.0, found.1)) result
        (read.bracketed_at L.signs (read.expression_at L.signs inner) cursor.entry) }
{
    let (expression, cursor) = expression_at::<L>(alloc, inner, 0, cursor)?;
    let cursor = cursor.sign(Sign::RightParenthesis)?;
    let expression = brackets::<L>(alloc, expression)?;
    Ok((expression, cursor))
}

/// What stands behind `&`.
#[cycle(expression)]
#[tactic(auto, unfolding(crate::specs::Reading::address_at))]
fn address_at<'a, L: OperatorLanguage>(
    alloc: Global,
    inner: usize,
    cursor: Cursor<'a>,
) -> Result<(Tree<L>, Cursor<'a>), Stop>
    ensures { Gives (λ found. (expression_view found.0, found.1)) result
        (read.address_at L.signs (read.expression_at L.signs inner) cursor.entry) }
{
    let (expression, cursor) = expression_at::<L>(alloc, inner, TIGHT, cursor)?;
    match addressed::<L>(expression) {
        Some(expression) => Ok((expression, cursor)),
        None => Err(Stop::Syntax(cursor.left())),
    }
}

/// What stands behind an operator of one operand.
#[cycle(expression)]
fn prefixed_at<'a, L: OperatorLanguage>(
    alloc: Global,
    inner: usize,
    operator: L::Prefix,
    cursor: Cursor<'a>,
) -> Result<(Tree<L>, Cursor<'a>), Stop>
    ensures { Gives (λ found. (expression_view found.0, found.1)) result
        (read.prefixed_at L.signs (read.expression_at L.signs inner) operator cursor.entry) }
{
    let (expression, cursor) = expression_at::<L>(alloc, inner, TIGHT, cursor)?;
    let expression = prefixed::<L>(alloc, operator, expression)?;
    Ok((expression, cursor))
}

/// `e]`, behind `[`.
#[cycle(expression)]
#[tactic(auto, unfolding(crate::specs::Reading::index_at))]
fn index_at<'a, L: OperatorLanguage>(
    alloc: Global,
    inner: usize,
    cursor: Cursor<'a>,
) -> Result<(Tree<L>, Cursor<'a>), Stop>
    ensures { Gives (λ found. (expression_view found.0, found.1)) result
        (read.index_at L.signs (read.expression_at L.signs inner) cursor.entry) }
{
    let (expression, cursor) = expression_at::<L>(alloc, inner, 0, cursor)?;
    let cursor = cursor.sign(Sign::RightBracket)?;
    Ok((expression, cursor))
}

/// A name, behind a dot.
fn named_at<'a, L: OperatorLanguage>(
    alloc: Global,
    cursor: Cursor<'a>,
) -> Result<(Tree<L>, Cursor<'a>), Stop>
    ensures { Gives (λ found. (expression_view found.0, found.1)) result (read.named_at L.signs cursor.entry) }
{
    let (name, cursor) = cursor.name(alloc)?;
    Ok((Expression::Constant(Value::Str(name)), cursor))
}

/// The right side of what follows a left side.
#[cycle(expression)]
fn side_at<'a, L: OperatorLanguage>(
    alloc: Global,
    inner: usize,
    after: After,
    cursor: Cursor<'a>,
) -> Result<(Tree<L>, Cursor<'a>), Stop>
    ensures { Gives (λ found. (expression_view found.0, found.1)) result
        (read.side_at L.signs (read.expression_at L.signs inner) after cursor.entry) }
{
    match after {
        After::Infix(_) => expression_at::<L>(alloc, inner, strength(after) + 1, cursor),
        After::Connects(_) => expression_at::<L>(alloc, inner, strength(after) + 1, cursor),
        After::Bracketed => index_at::<L>(alloc, inner, cursor),
        After::Dotted => named_at::<L>(alloc, cursor),
    }
}

/// What follows the left side, as long as it is strong enough.
#[cycle(expression)]
fn more_at<'a, L: OperatorLanguage>(
    alloc: Global,
    inner: usize,
    least: u8,
    left: Tree<L>,
    cursor: Cursor<'a>,
) -> Result<(Tree<L>, Cursor<'a>), Stop>
    ensures { Gives (λ found. (expression_view found.0, found.1)) result
        (read.more_at L.signs (read.expression_at L.signs inner) (length cursor.entry) least (expression_view left) cursor.entry) }
{
    let mut left = left;
    let mut rest = cursor;
    // Each turn takes what follows.
    let most = rest.left();
    for _ in 0..most {
        let Some(after) = after_at::<L>(&rest) else {
            return Ok((left, rest));
        };
        if strength(after) < least {
            return Ok((left, rest));
        }
        let (right, behind) = side_at::<L>(alloc, inner, after, rest.behind())?;
        left = join::<L>(alloc, after, left, right)?;
        rest = behind;
    }
    Ok((left, rest))
}
