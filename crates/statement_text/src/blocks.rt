//! Reading statements with blocks, and blocks.
ghost use Rattle.std.specs.Prelude.{◌≡◌, length};
ghost use Rattle.gil_lexer.specs.declared.signs.Sign.TheVariants as signs;
ghost use Rattle.gil_lexemes.specs.Lists.{each_until};
ghost use Rattle.gil_lexemes.specs.Reading.{Gives};
ghost use Rattle.gil_grammar.specs.Texts.{byte_before};
ghost use Rattle.source_statements.specs.View.{block_view, placed_statements_view, placed_view, statement_view};
ghost use Rattle.statement_text.specs.Reading as read;

use crate::language::StatementReader;
use crate::pieces::{
    asserted_at, assume_at, caught_at, condition_at, logic_at, plain_at, return_at,
};
use gil_lexemes::{Cursor, Stop};
use gil_lexer::{Form, Sign, Token, Word};
use source_statements::{Block, PlacedStatement, Statement};
use source_text::{invariant_at, next_place};
use std::alloc::Global;

/// A block, in which so many blocks stand within one another at most, this one among them.
#[cycle(statement)]
pub fn block_at<'a, L: StatementReader>(
    alloc: Global,
    tokens: &[Token],
    most: usize,
    cursor: Cursor<'a>,
) -> Result<(Block<L::Expression, L::Simple>, Cursor<'a>), Stop>
    ensures { Gives (λ found. (block_view L.expression_view L.simple_view found.0, found.1)) result
        (read.block_at L.readers (byte_before tokens.now) most cursor.entry) }
{
    if most == 0 {
        return Err(Stop::Syntax(cursor.left()));
    }
    braced_at::<L>(alloc, tokens, most - 1, cursor)
}

/// `{ statement .. }`, in which so many blocks may stand within one another.
#[cycle(statement)]
#[tactic(auto, unfolding(crate::specs::Reading::block_by))]
fn braced_at<'a, L: StatementReader>(
    alloc: Global,
    tokens: &[Token],
    inner: usize,
    cursor: Cursor<'a>,
) -> Result<(Block<L::Expression, L::Simple>, Cursor<'a>), Stop>
    ensures { Gives (λ found. (block_view L.expression_view L.simple_view found.0, found.1)) result
        (read.block_by L.readers (byte_before tokens.now)
        (read.statement_at L.readers (read.block_at L.readers (byte_before tokens.now) inner)) cursor.entry) }
{
    let cursor = cursor.sign(Sign::LeftBrace)?;
    let (body, cursor) = statements_at::<L>(alloc, tokens, inner, cursor)?;
    let cursor = cursor.sign(Sign::RightBrace)?;
    Ok((body, cursor))
}

/// The statements up to the closing brace.
#[cycle(statement)]
fn statements_at<'a, L: StatementReader>(
    alloc: Global,
    tokens: &[Token],
    inner: usize,
    cursor: Cursor<'a>,
) -> Result<(Block<L::Expression, L::Simple>, Cursor<'a>), Stop>
    ensures { Gives (λ found. (placed_statements_view L.expression_view L.simple_view found.0, found.1)) result
        (each_until (read.placed_at L.readers (byte_before tokens.now)
        (read.statement_at L.readers (read.block_at L.readers (byte_before tokens.now) inner)))
        (length cursor.entry) signs.RightBrace cursor.entry) }
{
    let mut list = Block::new(alloc);
    let mut rest = cursor;
    // Each turn takes a statement.
    let most = rest.left();
    for _ in 0..most {
        if rest.is_at(Sign::RightBrace) {
            return Ok((list, rest));
        }
        let (placed, behind) = placed_at::<L>(alloc, tokens, inner, rest)?;
        list.push(placed)?;
        rest = behind;
    }
    Ok((list, rest))
}

/// The statement at the front, and the byte at which it begins.
#[cycle(statement)]
#[tactic(auto, unfolding(crate::specs::Reading::placed_at))]
fn placed_at<'a, L: StatementReader>(
    alloc: Global,
    tokens: &[Token],
    inner: usize,
    cursor: Cursor<'a>,
) -> Result<(PlacedStatement<L::Expression, L::Simple>, Cursor<'a>), Stop>
    ensures { Gives (λ found. (placed_view L.expression_view L.simple_view found.0, found.1)) result
        (read.placed_at L.readers (byte_before tokens.now)
        (read.statement_at L.readers (read.block_at L.readers (byte_before tokens.now) inner)) cursor.entry) }
{
    let at = next_place(tokens, &cursor)?;
    let (statement, cursor) = statement_at::<L>(alloc, tokens, inner, cursor)?;
    Ok((PlacedStatement { at, statement }, cursor))
}

/// The statement at the front, in whose blocks so many may stand within one another.
#[cycle(statement)]
#[tactic(auto, unfolding(crate::specs::Reading::statement_at))]
fn statement_at<'a, L: StatementReader>(
    alloc: Global,
    tokens: &[Token],
    inner: usize,
    cursor: Cursor<'a>,
) -> Result<(Statement<L::Expression, L::Simple>, Cursor<'a>), Stop>
    ensures { Gives (λ found. (statement_view L.expression_view L.simple_view found.0, found.1)) result
        (read.statement_at L.readers (read.block_at L.readers (byte_before tokens.now) inner) cursor.entry) }
{
    match cursor.first() {
        Some(Form::Word(word)) => of_word_at::<L>(alloc, tokens, inner, word, cursor),
        _ => plain_at::<L>(alloc, cursor),
    }
}

/// The statement at the front, which begins with this reserved word.
#[cycle(statement)]
fn of_word_at<'a, L: StatementReader>(
    alloc: Global,
    tokens: &[Token],
    inner: usize,
    word: Word,
    cursor: Cursor<'a>,
) -> Result<(Statement<L::Expression, L::Simple>, Cursor<'a>), Stop>
    ensures { Gives (λ found. (statement_view L.expression_view L.simple_view found.0, found.1)) result
        (read.of_word_at L.readers (read.block_at L.readers (byte_before tokens.now) inner) word cursor.entry) }
{
    match word {
        Word::Assert => asserted_at::<L>(alloc, cursor),
        Word::Assume => assume_at::<L>(alloc, cursor.behind()),
        Word::If => if_at::<L>(alloc, tokens, inner, cursor.behind()),
        Word::While => while_at::<L>(alloc, tokens, inner, cursor.behind()),
        Word::Return => return_at::<L>(alloc, cursor.behind()),
        Word::Fold => logic_at::<L>(alloc, Word::Fold, cursor),
        Word::Unfold => logic_at::<L>(alloc, Word::Unfold, cursor),
        Word::Invariant => logic_at::<L>(alloc, Word::Invariant, cursor),
        Word::Try => tried_at::<L>(alloc, tokens, inner, cursor),
        _ => plain_at::<L>(alloc, cursor),
    }
}

/// `(e) block` or `(e) block else block`, behind `if`.
#[cycle(statement)]
#[tactic(auto, unfolding(crate::specs::Reading::if_at))]
fn if_at<'a, L: StatementReader>(
    alloc: Global,
    tokens: &[Token],
    inner: usize,
    cursor: Cursor<'a>,
) -> Result<(Statement<L::Expression, L::Simple>, Cursor<'a>), Stop>
    ensures { Gives (λ found. (statement_view L.expression_view L.simple_view found.0, found.1)) result
        (read.if_at L.readers (read.block_at L.readers (byte_before tokens.now) inner) cursor.entry) }
{
    let (condition, cursor) = condition_at::<L>(alloc, cursor)?;
    let (body, cursor) = block_at::<L>(alloc, tokens, inner, cursor)?;
    let (other, cursor) = else_at::<L>(alloc, tokens, inner, cursor)?;
    Ok((Statement::If(condition, body, other), cursor))
}

/// The block behind `else`, or the block without statements.
#[cycle(statement)]
#[tactic(auto, unfolding(crate::specs::Reading::else_at))]
fn else_at<'a, L: StatementReader>(
    alloc: Global,
    tokens: &[Token],
    inner: usize,
    cursor: Cursor<'a>,
) -> Result<(Block<L::Expression, L::Simple>, Cursor<'a>), Stop>
    ensures { Gives (λ found. (block_view L.expression_view L.simple_view found.0, found.1)) result
        (read.else_at L.readers (read.block_at L.readers (byte_before tokens.now) inner) cursor.entry) }
{
    if !cursor.is_at_word(Word::Else) {
        return Ok((Block::new(alloc), cursor));
    }
    block_at::<L>(alloc, tokens, inner, cursor.behind())
}

/// `(e) block` or `(e) invariant block`, behind `while`.
#[cycle(statement)]
#[tactic(auto, unfolding(crate::specs::Reading::while_at))]
fn while_at<'a, L: StatementReader>(
    alloc: Global,
    tokens: &[Token],
    inner: usize,
    cursor: Cursor<'a>,
) -> Result<(Statement<L::Expression, L::Simple>, Cursor<'a>), Stop>
    ensures { Gives (λ found. (statement_view L.expression_view L.simple_view found.0, found.1)) result
        (read.while_at L.readers (read.block_at L.readers (byte_before tokens.now) inner) cursor.entry) }
{
    let (condition, cursor) = condition_at::<L>(alloc, cursor)?;
    let (invariant, cursor) = invariant_at(alloc, cursor)?;
    let (body, cursor) = block_at::<L>(alloc, tokens, inner, cursor)?;
    Ok((Statement::While(condition, invariant, body), cursor))
}

/// The statement at the front, which begins with `try`, in a language that has it.
#[cycle(statement)]
#[tactic(auto, unfolding(crate::specs::Reading::tried_at))]
fn tried_at<'a, L: StatementReader>(
    alloc: Global,
    tokens: &[Token],
    inner: usize,
    cursor: Cursor<'a>,
) -> Result<(Statement<L::Expression, L::Simple>, Cursor<'a>), Stop>
    ensures { Gives (λ found. (statement_view L.expression_view L.simple_view found.0, found.1)) result
        (read.tried_at L.readers (read.block_at L.readers (byte_before tokens.now) inner) cursor.entry) }
{
    if !L::has_try() {
        return Err(Stop::Syntax(cursor.left()));
    }
    try_at::<L>(alloc, tokens, inner, cursor.behind())
}

/// `block catch (x) block`, behind `try`.
#[cycle(statement)]
#[tactic(auto, unfolding(crate::specs::Reading::try_at))]
fn try_at<'a, L: StatementReader>(
    alloc: Global,
    tokens: &[Token],
    inner: usize,
    cursor: Cursor<'a>,
) -> Result<(Statement<L::Expression, L::Simple>, Cursor<'a>), Stop>
    ensures { Gives (λ found. (statement_view L.expression_view L.simple_view found.0, found.1)) result
        (read.try_at L.readers (read.block_at L.readers (byte_before tokens.now) inner) cursor.entry) }
{
    let (body, cursor) = block_at::<L>(alloc, tokens, inner, cursor)?;
    let cursor = cursor.word(Word::Catch)?;
    let (name, cursor) = caught_at(alloc, cursor)?;
    let (handler, cursor) = block_at::<L>(alloc, tokens, inner, cursor)?;
    Ok((Statement::Try(body, name, handler), cursor))
}
