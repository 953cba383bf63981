//! Reading the items of a whole text.
ghost use Rattle.std.specs.Prelude.{◌≡◌, length, option_map};
ghost use Rattle.gil_lexemes.specs.Reading.{Gives};
ghost use Rattle.gil_grammar.specs.Texts.{byte_before};
ghost use Rattle.gil_text.specs.Located.{located_view};
ghost use Rattle.source_text.specs.Located.{located_of};
ghost use Rattle.source_text.specs.Reading as read;

use crate::items::item_at;
use crate::language::SourceLanguage;
use gil_lexemes::{Cursor, Stop};
use gil_lexer::Token;
use gil_text::{Located, byte_before};
use std::alloc::Global;

/// The items of which the text consists.
fn items_at<L: SourceLanguage>(
    alloc: Global,
    tokens: &[Token],
    cursor: Cursor<'_>,
) -> Result<Located<L::Function>, Stop>
    ensures { Gives (located_view L.view) result
        (option_map located_of (read.items_at L.first L.reads (byte_before tokens.now) (length cursor.entry) cursor.entry)) }
{
    let mut located = Located::new(alloc);
    let mut rest = cursor;
    // Each turn takes an item.
    let most = rest.left();
    for _ in 0..most {
        let left = rest.left();
        if left == 0 {
            return Ok(located);
        }
        let (item, behind) = item_at::<L>(alloc, tokens, rest)?;
        located.add(item, byte_before(tokens, left))?;
        rest = behind;
    }
    let unread = rest.left();
    if unread > 0 {
        return Err(Stop::Syntax(unread));
    }
    Ok(located)
}

/// The items of the text, of which a function is the first.
#[tactic(auto, unfolding(crate::specs::Reading::source_at))]
pub(crate) fn source_at<L: SourceLanguage>(
    alloc: Global,
    tokens: &[Token],
    cursor: Cursor<'_>,
) -> Result<Located<L::Function>, Stop>
    ensures { Gives (located_view L.view) result
        (option_map located_of (read.source_at L.first L.reads (byte_before tokens.now) cursor.entry)) }
{
    if !cursor.is_at_word(L::first_word()) {
        return Err(Stop::Syntax(cursor.left()));
    }
    items_at::<L>(alloc, tokens, cursor)
}
