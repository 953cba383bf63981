//! Reading the items of a text: functions, specifications and predicates.
ghost use Rattle.std.specs.Prelude.{◌≡◌};
ghost use Rattle.gil_lexemes.specs.Reading.{Gives};
ghost use Rattle.gil_grammar.specs.Texts.{byte_before};
ghost use Rattle.source_text.specs.Located.{source_item_view};
ghost use Rattle.source_text.specs.Reading as read;

use crate::language::SourceLanguage;
use gil_grammar::Extent;
use gil_lexemes::{Cursor, Stop};
use gil_lexer::{Token, Word};
use gil_text::{TextItem, pred_at, spec_at, word_of};
use std::alloc::Global;

/// The function at the front.
fn a_function_at<'a, L: SourceLanguage>(
    alloc: Global,
    tokens: &[Token],
    cursor: Cursor<'a>,
) -> Result<(TextItem<L::Function>, Cursor<'a>), Stop>
    ensures { Gives (λ found. (source_item_view L.view found.0, found.1)) result
        (read.a_function_at L.first L.reads (byte_before tokens.now) cursor.entry) }
{
    let (function, cursor) = L::function_at(alloc, tokens, cursor)?;
    Ok((TextItem::Function(function), cursor))
}

/// The specification at the front.
fn a_spec_at<'a, L: SourceLanguage>(
    alloc: Global,
    cursor: Cursor<'a>,
) -> Result<(TextItem<L::Function>, Cursor<'a>), Stop>
    ensures { Gives (λ found. (source_item_view L.view found.0, found.1)) result (read.a_spec_at cursor.entry) }
{
    let (specification, cursor) = spec_at(alloc, Extent::Whole, cursor.behind())?;
    Ok((TextItem::Spec(specification), cursor))
}

/// The predicate at the front.
fn a_pred_at<'a, L: SourceLanguage>(
    alloc: Global,
    cursor: Cursor<'a>,
) -> Result<(TextItem<L::Function>, Cursor<'a>), Stop>
    ensures { Gives (λ found. (source_item_view L.view found.0, found.1)) result (read.a_pred_at cursor.entry) }
{
    let (predicate, cursor) = pred_at(alloc, Extent::Whole, cursor.behind())?;
    Ok((TextItem::Pred(predicate), cursor))
}

/// The specification or the predicate at the front.
#[tactic(auto, unfolding(crate::specs::Reading::logical_item_at))]
fn logical_item_at<'a, L: SourceLanguage>(
    alloc: Global,
    cursor: Cursor<'a>,
) -> Result<(TextItem<L::Function>, Cursor<'a>), Stop>
    ensures { Gives (λ found. (source_item_view L.view found.0, found.1)) result (read.logical_item_at cursor.entry) }
{
    match word_of(cursor.first()) {
        Some(Word::Spec) => a_spec_at::<L>(alloc, cursor),
        Some(Word::Pred) => a_pred_at::<L>(alloc, cursor),
        _ => Err(Stop::Syntax(cursor.left())),
    }
}

/// The item at the front.
#[tactic(auto, unfolding(crate::specs::Reading::item_at))]
pub(crate) fn item_at<'a, L: SourceLanguage>(
    alloc: Global,
    tokens: &[Token],
    cursor: Cursor<'a>,
) -> Result<(TextItem<L::Function>, Cursor<'a>), Stop>
    ensures { Gives (λ found. (source_item_view L.view found.0, found.1)) result
        (read.item_at L.first L.reads (byte_before tokens.now) cursor.entry) }
{
    if cursor.is_at_word(L::first_word()) {
        return a_function_at::<L>(alloc, tokens, cursor);
    }
    logical_item_at::<L>(alloc, cursor)
}
