//! Reading the items of a whole text.
ghost use Rattle.std.specs.Prelude.{◌≡◌, length, option_map};
ghost use Rattle.gil_lexemes.specs.Reading.{Gives};
ghost use Rattle.gil_syntax.specs.View.{proc_view};
ghost use Rattle.gil_grammar.specs.Texts as text;
ghost use Rattle.gil_grammar.specs.Reading.Texts as read;
ghost use Rattle.gil_text.specs.Located.{located_of, located_view};

use crate::located::Located;
use crate::programs::item_at;
use gil_lexemes::{Cursor, Stop};
use gil_lexer::{Token, Word};
use gil_syntax::Proc;
use std::alloc::Global;

/// The byte at which the last tokens begin, so many of them.
pub fn byte_before(tokens: &[Token], left: usize) -> usize
    ensures { result ≡ text.byte_before tokens.now left }
{
    match tokens.get(tokens.len().saturating_sub(left)) {
        Some(token) => token.from,
        None => 0,
    }
}

/// The items of which the text consists.
fn items_at(alloc: Global, tokens: &[Token], cursor: Cursor<'_>) -> Result<Located<Proc>, Stop>
    ensures { Gives (located_view proc_view) result (option_map located_of (read.items_at tokens.now (length cursor.entry) cursor.entry)) }
{
    let mut located = Located::new(alloc);
    let mut rest = cursor;
    // Each turn takes an item.
    let most = rest.left();
    for _ in 0..most {
        let left = rest.left();
        if left == 0 {
            return Ok(located);
        }
        let (item, behind) = item_at(alloc, rest)?;
        located.add(item, byte_before(tokens, left))?;
        rest = behind;
    }
    let unread = rest.left();
    if unread > 0 {
        return Err(Stop::Syntax(unread));
    }
    Ok(located)
}

/// The items of the program of which the text consists.
#[tactic(auto, unfolding(gil_grammar::specs::Reading::Texts::program_at))]
pub(crate) fn program_at(
    alloc: Global,
    tokens: &[Token],
    cursor: Cursor<'_>,
) -> Result<Located<Proc>, Stop>
    ensures { Gives (located_view proc_view) result (option_map located_of (read.program_at tokens.now cursor.entry)) }
{
    if !cursor.is_at_word(Word::Proc) {
        return Err(Stop::Syntax(cursor.left()));
    }
    items_at(alloc, tokens, cursor)
}
