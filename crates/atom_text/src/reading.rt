//! Reading declarations and expressions.
ghost use Rattle.std.specs.Prelude.{◌≡◌, length, map};
ghost use Rattle.gil_lexer.specs.declared.signs.Sign.TheVariants as signs;
ghost use Rattle.gil_lexemes.specs.Lists.{more_at, with_front};
ghost use Rattle.gil_lexemes.specs.Reading.{Gives};
ghost use Rattle.atom_text.specs.Reading as read;
ghost use Rattle.atom_text.specs.Sources.{source_view, stated_view};

use crate::sources::{AtomSource, Declaration, Declarations, Stated, StatedList};
use gil_grammar::Position;
use gil_lexemes::{Cursor, Stop};
use gil_lexer::{Form, Sign, Token, Word};
use gil_text::{byte_before, expression_at};
use pure_terms::Sort;
use sequence::Sequence;
use std::alloc::Global;

/// The sort that a reserved word names.
fn sort_of_word(word: Word) -> Option<Sort>
    ensures { result ≡ read.sort_of_word word }
{
    match word {
        Word::Int => Some(Sort::Int),
        Word::Bool => Some(Sort::Bool),
        Word::Str => Some(Sort::Str),
        Word::Sym => Some(Sort::Sym),
        Word::Any => Some(Sort::Any),
        _ => None,
    }
}

/// `name : sort`
#[tactic(auto, unfolding(crate::specs::Reading::declaration_at))]
fn declaration_at<'a>(
    alloc: Global,
    tokens: &[Token],
    cursor: Cursor<'a>,
) -> Result<(Declaration, Cursor<'a>), Stop>
    ensures { Gives (λ found. (found.0, found.1)) result (read.declaration_at tokens.now cursor.entry) }
{
    let at = byte_before(tokens, cursor.left());
    let (name, cursor) = cursor.name(alloc)?;
    let cursor = cursor.sign(Sign::Colon)?;
    let Some(Form::Word(word)) = cursor.first() else {
        return Err(Stop::Syntax(cursor.left()));
    };
    match sort_of_word(word) {
        Some(sort) => Ok((Declaration { name, sort, at }, cursor.behind())),
        None => Err(Stop::Syntax(cursor.left())),
    }
}

/// Declarations, at least one, with commas between them.
#[tactic(auto, unfolding(crate::specs::Reading::declarations_at))]
fn declarations_at<'a>(
    alloc: Global,
    tokens: &[Token],
    cursor: Cursor<'a>,
) -> Result<(Declarations, Cursor<'a>), Stop>
    ensures { Gives (λ found. (found.0, found.1)) result (read.declarations_at tokens.now cursor.entry) }
{
    let (first, cursor) = declaration_at(alloc, tokens, cursor)?;
    let mut list = Sequence::new(alloc);
    list.push(first)?;
    more_declarations(alloc, tokens, list, cursor)
}

/// The declarations of the list, and those at the front that stand behind a comma each.
fn more_declarations<'a>(
    alloc: Global,
    tokens: &[Token],
    list: Declarations,
    cursor: Cursor<'a>,
) -> Result<(Declarations, Cursor<'a>), Stop>
    ensures { Gives (λ found. (found.0, found.1)) result
        (with_front list (more_at (read.declaration_at tokens.now) (length cursor.entry) signs.Comma cursor.entry)) }
{
    let mut list = list;
    let mut rest = cursor;
    // Each turn takes a comma at least.
    let most = rest.left();
    for _ in 0..most {
        if !rest.is_at(Sign::Comma) {
            return Ok((list, rest));
        }
        let (declaration, behind) = declaration_at(alloc, tokens, rest.behind())?;
        list.push(declaration)?;
        rest = behind;
    }
    Ok((list, rest))
}

/// An expression and its `;`.
#[tactic(auto, unfolding(crate::specs::Reading::stated_at))]
fn stated_at<'a>(
    alloc: Global,
    tokens: &[Token],
    cursor: Cursor<'a>,
) -> Result<(Stated, Cursor<'a>), Stop>
    ensures { Gives (λ found. (stated_view found.0, found.1)) result (read.stated_at tokens.now cursor.entry) }
{
    let at = byte_before(tokens, cursor.left());
    let (expression, cursor) = expression_at(alloc, Position::Command, cursor)?;
    let cursor = cursor.sign(Sign::Semicolon)?;
    Ok((Stated { expression, at }, cursor))
}

/// The expressions of which the rest of the text consists.
fn all_stated(alloc: Global, tokens: &[Token], cursor: Cursor<'_>) -> Result<StatedList, Stop>
    ensures { Gives (map stated_view) result (read.all_at (read.stated_at tokens.now) (length cursor.entry) cursor.entry) }
{
    let mut list = Sequence::new(alloc);
    let mut rest = cursor;
    // Each turn takes a `;` at least.
    let most = rest.left();
    for _ in 0..most {
        if rest.left() == 0 {
            return Ok(list);
        }
        let (stated, behind) = stated_at(alloc, tokens, rest)?;
        list.push(stated)?;
        rest = behind;
    }
    let unread = rest.left();
    if unread > 0 {
        return Err(Stop::Syntax(unread));
    }
    Ok(list)
}

/// The declarations and the expressions of which the text consists.
#[tactic(auto, unfolding(crate::specs::Reading::source_at))]
pub(crate) fn source_at(
    alloc: Global,
    tokens: &[Token],
    cursor: Cursor<'_>,
) -> Result<AtomSource, Stop>
    ensures { Gives source_view result (read.source_at tokens.now cursor.entry) }
{
    let cursor = cursor.word(Word::Vars)?;
    let (declarations, cursor) = declarations_at(alloc, tokens, cursor)?;
    let cursor = cursor.sign(Sign::Semicolon)?;
    let stated = all_stated(alloc, tokens, cursor)?;
    Ok(AtomSource {
        declarations,
        stated,
    })
}
