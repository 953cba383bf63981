//! Reading assertions in braces, one after another.
ghost use Rattle.std.specs.Prelude.{◌≡◌, List, map, length};
ghost use Rattle.gil_lexemes.specs.Lists.{with_front};
ghost use Rattle.gil_lexemes.specs.Reading.{Gives, first_form};
ghost use Rattle.gil_syntax.specs.View.{assertion_view};
ghost use Rattle.gil_grammar.specs.Reading.Assertions as read;
ghost use Rattle.gil_text.specs.Blocks.{GivesWithout};

use crate::assertions::block_at;
use gil_grammar::{Extent, Opening};
use gil_lexemes::{Cursor, Stop};
use gil_lexer::{Sign, Word};
use gil_syntax::{Assertion, Assertions};
use sequence::Sequence;
use std::alloc::Global;

/// Whether an assertion in braces may begin at the cursor.
fn opens<'a>(opening: Opening, cursor: &Cursor<'a>) -> bool
    ensures { result ≡ read.opens_by opening (first_form cursor.now) }
{
    match opening {
        Opening::Brace => cursor.is_at(Sign::LeftBrace),
        Opening::Throw => cursor.is_at_word(Word::Throw),
    }
}

/// `throw { assertion }`
#[tactic(auto, unfolding(gil_grammar::specs::Reading::Assertions::error_at))]
fn error_at<'a>(alloc: Global, cursor: Cursor<'a>) -> Result<(Assertion, Cursor<'a>), Stop>
    ensures { Gives (λ found. (assertion_view found.0, found.1)) result (read.error_at cursor.entry) }
{
    let cursor = cursor.word(Word::Throw)?;
    block_at(alloc, cursor)
}

/// `{ assertion }` or `throw { assertion }`
fn opened_at<'a>(
    alloc: Global,
    opening: Opening,
    cursor: Cursor<'a>,
) -> Result<(Assertion, Cursor<'a>), Stop>
    ensures { Gives (λ found. (assertion_view found.0, found.1)) result (read.opened_at opening cursor.entry) }
{
    match opening {
        Opening::Brace => block_at(alloc, cursor),
        Opening::Throw => error_at(alloc, cursor),
    }
}

/// Assertions in braces, at least one.
#[tactic(auto, unfolding(gil_grammar::specs::Reading::Assertions::blocks_at))]
pub(crate) fn blocks_at<'a>(
    alloc: Global,
    opening: Opening,
    extent: Extent,
    cursor: Cursor<'a>,
) -> Result<(Assertions, Cursor<'a>), Stop>
    ensures { Gives (λ found. (map assertion_view found.0, found.1)) result (read.blocks_at opening extent cursor.entry) }
{
    let (first, cursor) = opened_at(alloc, opening, cursor)?;
    let mut list = Sequence::new(alloc);
    list.push(first)?;
    more_blocks(alloc, opening, extent, list, cursor)
}

/// The assertions of the list, and those at the front.
fn more_blocks<'a>(
    alloc: Global,
    opening: Opening,
    extent: Extent,
    list: Assertions,
    cursor: Cursor<'a>,
) -> Result<(Assertions, Cursor<'a>), Stop>
    ensures { Gives (λ found. (map assertion_view found.0, found.1)) result
        (with_front (map assertion_view list) (read.more_blocks opening extent (length cursor.entry) cursor.entry)) }
{
    let mut list = list;
    let mut rest = cursor;
    // Each turn takes a token at least.
    let most = rest.left();
    for _ in 0..most {
        if !opens(opening, &rest) {
            return Ok((list, rest));
        }
        match opened_at(alloc, opening, rest.copy()) {
            Ok((block, behind)) => {
                list.push(block)?;
                rest = behind;
            }
            Err(stop) => return without_block(extent, stop, list, rest),
        }
    }
    Ok((list, rest))
}

/// The assertions that were read, where the next one in braces isn't one that can be read.
fn without_block<'a>(
    extent: Extent,
    stop: Stop,
    list: Assertions,
    rest: Cursor<'a>,
) -> Result<(Assertions, Cursor<'a>), Stop>
    ensures { GivesWithout extent stop result (map assertion_view list) rest.entry }
{
    match (extent, stop) {
        (Extent::Longest, Stop::Syntax(_)) => Ok((list, rest)),
        _ => Err(stop),
    }
}

/// `{ postcondition } .. throw { error postcondition } ..`, at least one of either.
#[tactic(auto, unfolding(gil_grammar::specs::Reading::Assertions::posts_at))]
pub(crate) fn posts_at<'a>(
    alloc: Global,
    extent: Extent,
    cursor: Cursor<'a>,
) -> Result<((Assertions, Assertions), Cursor<'a>), Stop>
    ensures { Gives (λ found. ((map assertion_view (found.0).0, map assertion_view (found.0).1), found.1)) result
        (read.posts_at extent cursor.entry) }
{
    if opens(Opening::Throw, &cursor) {
        let (errors, cursor) = blocks_at(alloc, Opening::Throw, extent, cursor)?;
        return Ok(((Sequence::new(alloc), errors), cursor));
    }
    let (posts, cursor) = blocks_at(alloc, Opening::Brace, extent, cursor)?;
    let (errors, cursor) = more_blocks(
        alloc,
        Opening::Throw,
        extent,
        Sequence::new(alloc),
        cursor,
    )?;
    Ok(((posts, errors), cursor))
}
