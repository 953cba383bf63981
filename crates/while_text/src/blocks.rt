//! Reading statements with blocks, and blocks.
ghost use Rattle.std.specs.Prelude.{◌≡◌, length};
ghost use Rattle.gil_lexer.specs.declared.signs.Sign.TheVariants as signs;
ghost use Rattle.gil_lexemes.specs.Lists.{each_until};
ghost use Rattle.gil_lexemes.specs.Reading.{Gives};
ghost use Rattle.gil_grammar.specs.Texts.{byte_before};
ghost use Rattle.while_lang.specs.View.{block_view, placed_statements_view, placed_view, statement_view};
ghost use Rattle.while_grammar.specs.Reading.Statements as read;

use crate::assignments::of_name_at;
use crate::pieces::condition_at;
use crate::worded::{asserted_at, assume_at, dispose_at, fail_at, logic_at, return_at};
use gil_lexemes::{Cursor, Stop};
use gil_lexer::{Form, Sign, Token, Word};
use source_text::{invariant_at, next_place};
use std::alloc::Global;
use while_lang::{Block, PlacedStatement, Statement};

/// A block, in which so many blocks stand within one another at most, this one among them.
#[cycle(statement)]
#[tactic(auto, unfolding(while_grammar::specs::Reading::Statements::block_at, while_grammar::specs::Reading::Statements::block_by))]
pub(crate) fn block_at<'a>(
    alloc: Global,
    tokens: &[Token],
    most: usize,
    cursor: Cursor<'a>,
) -> Result<(Block, Cursor<'a>), Stop>
    ensures { Gives (λ found. (block_view found.0, found.1)) result (read.block_at (byte_before tokens.now) most cursor.entry) }
{
    if most == 0 {
        return Err(Stop::Syntax(cursor.left()));
    }
    let cursor = cursor.sign(Sign::LeftBrace)?;
    let (body, cursor) = statements_at(alloc, tokens, most - 1, cursor)?;
    let cursor = cursor.sign(Sign::RightBrace)?;
    Ok((body, cursor))
}

/// The statements up to the closing brace.
#[cycle(statement)]
fn statements_at<'a>(
    alloc: Global,
    tokens: &[Token],
    inner: usize,
    cursor: Cursor<'a>,
) -> Result<(Block, Cursor<'a>), Stop>
    ensures { Gives (λ found. (placed_statements_view found.0, found.1)) result
        (each_until (read.placed_at (byte_before tokens.now) (read.statement_at (read.block_at (byte_before tokens.now) inner)))
        (length cursor.entry) signs.RightBrace cursor.entry) }
{
    let mut list = Block::new(alloc);
    let mut rest = cursor;
    // Each turn takes a statement.
    let most = rest.left();
    for _ in 0..most {
        if rest.is_at(Sign::RightBrace) {
            return Ok((list, rest));
        }
        let (placed, behind) = placed_at(alloc, tokens, inner, rest)?;
        list.push(placed)?;
        rest = behind;
    }
    Ok((list, rest))
}

/// The statement at the front, and the byte at which it begins.
#[cycle(statement)]
#[tactic(auto, unfolding(while_grammar::specs::Reading::Statements::placed_at))]
fn placed_at<'a>(
    alloc: Global,
    tokens: &[Token],
    inner: usize,
    cursor: Cursor<'a>,
) -> Result<(PlacedStatement, Cursor<'a>), Stop>
    ensures { Gives (λ found. (placed_view found.0, found.1)) result
        (read.placed_at (byte_before tokens.now) (read.statement_at (read.block_at (byte_before tokens.now) inner)) cursor.entry) }
{
    let at = next_place(tokens, &cursor)?;
    let (statement, cursor) = statement_at(alloc, tokens, inner, cursor)?;
    Ok((PlacedStatement { at, statement }, cursor))
}

/// The statement at the front, in whose blocks so many may stand within one another.
#[cycle(statement)]
#[tactic(auto, unfolding(while_grammar::specs::Reading::Statements::statement_at))]
fn statement_at<'a>(
    alloc: Global,
    tokens: &[Token],
    inner: usize,
    cursor: Cursor<'a>,
) -> Result<(Statement, Cursor<'a>), Stop>
    ensures { Gives (λ found. (statement_view found.0, found.1)) result
        (read.statement_at (read.block_at (byte_before tokens.now) inner) cursor.entry) }
{
    match cursor.first() {
        Some(Form::Name) => of_name_at(alloc, cursor),
        Some(Form::Word(word)) => of_word_at(alloc, tokens, inner, word, cursor),
        _ => Err(Stop::Syntax(cursor.left())),
    }
}

/// The statement at the front, which begins with this reserved word.
#[cycle(statement)]
fn of_word_at<'a>(
    alloc: Global,
    tokens: &[Token],
    inner: usize,
    word: Word,
    cursor: Cursor<'a>,
) -> Result<(Statement, Cursor<'a>), Stop>
    ensures { Gives (λ found. (statement_view found.0, found.1)) result
        (read.of_word_at (read.block_at (byte_before tokens.now) inner) word cursor.entry) }
{
    match word {
        Word::Dispose => dispose_at(alloc, cursor.behind()),
        Word::Assert => asserted_at(alloc, cursor),
        Word::Assume => assume_at(alloc, cursor.behind()),
        Word::If => if_at(alloc, tokens, inner, cursor.behind()),
        Word::While => while_at(alloc, tokens, inner, cursor.behind()),
        Word::Return => return_at(alloc, cursor.behind()),
        Word::Fail => fail_at(alloc, cursor.behind()),
        Word::Fold => logic_at(alloc, Word::Fold, cursor),
        Word::Unfold => logic_at(alloc, Word::Unfold, cursor),
        Word::Invariant => logic_at(alloc, Word::Invariant, cursor),
        _ => Err(Stop::Syntax(cursor.left())),
    }
}

/// `(e) block` or `(e) block else block`, behind `if`.
#[cycle(statement)]
#[tactic(auto, unfolding(while_grammar::specs::Reading::Statements::if_at))]
fn if_at<'a>(
    alloc: Global,
    tokens: &[Token],
    inner: usize,
    cursor: Cursor<'a>,
) -> Result<(Statement, Cursor<'a>), Stop>
    ensures { Gives (λ found. (statement_view found.0, found.1)) result
        (read.if_at (read.block_at (byte_before tokens.now) inner) cursor.entry) }
{
    let (condition, cursor) = condition_at(alloc, cursor)?;
    let (body, cursor) = block_at(alloc, tokens, inner, cursor)?;
    let (other, cursor) = else_at(alloc, tokens, inner, cursor)?;
    Ok((Statement::If(condition, body, other), cursor))
}

/// The block behind `else`, or the block without statements.
#[cycle(statement)]
#[tactic(auto, unfolding(while_grammar::specs::Reading::Statements::else_at))]
fn else_at<'a>(
    alloc: Global,
    tokens: &[Token],
    inner: usize,
    cursor: Cursor<'a>,
) -> Result<(Block, Cursor<'a>), Stop>
    ensures { Gives (λ found. (block_view found.0, found.1)) result
        (read.else_at (read.block_at (byte_before tokens.now) inner) cursor.entry) }
{
    if !cursor.is_at_word(Word::Else) {
        return Ok((Block::new(alloc), cursor));
    }
    block_at(alloc, tokens, inner, cursor.behind())
}

/// `(e) block` or `(e) invariant block`, behind `while`.
#[cycle(statement)]
#[tactic(auto, unfolding(while_grammar::specs::Reading::Statements::while_at))]
fn while_at<'a>(
    alloc: Global,
    tokens: &[Token],
    inner: usize,
    cursor: Cursor<'a>,
) -> Result<(Statement, Cursor<'a>), Stop>
    ensures { Gives (λ found. (statement_view found.0, found.1)) result
        (read.while_at (read.block_at (byte_before tokens.now) inner) cursor.entry) }
{
    let (condition, cursor) = condition_at(alloc, cursor)?;
    let (invariant, cursor) = invariant_at(alloc, cursor)?;
    let (body, cursor) = block_at(alloc, tokens, inner, cursor)?;
    Ok((Statement::While(condition, invariant, body), cursor))
}
