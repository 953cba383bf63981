//! Reading functions.
ghost use Rattle.std.specs.Prelude.{◌≡◌};
ghost use Rattle.gil_lexer.specs.declared.words.Word.TheVariants.{Func};
ghost use Rattle.gil_lexemes.specs.Reading.{Gives};
ghost use Rattle.gil_grammar.specs.Nesting.{IsNested};
ghost use Rattle.gil_grammar.specs.Texts.{byte_before};
ghost use Rattle.while_lang.specs.Pure.{PureFunction};
ghost use Rattle.while_lang.specs.View.{function_view};
ghost use Rattle.while_grammar.specs.Reading.Statements as read;
ghost use Rattle.while_grammar.specs.Statements.{SpellsFunction};
ghost use Rattle.while_grammar.proofs.TextLaws.{functions_read};

use crate::blocks::block_at;
use gil_lexemes::{Cursor, Stop};
use gil_lexer::{Sign, Token, Word};
use gil_text::{names_at, nesting_fault};
use source_text::{SourceLanguage, next_place};
use std::alloc::Global;
use while_lang::Function;

/// While, as its texts are read.
pub(crate) struct While;

impl SourceLanguage for While {
    type Function = Function;

    ghost Pure = { PureFunction };

    ghost view = { function_view };

    ghost first = { Func };

    ghost nested = { IsNested };

    ghost spells = { SpellsFunction };

    ghost reads = { read.function_at };

    fn first_word() -> Word {
        Word::Func
    }

    fn function_at<'a>(
        alloc: Global,
        tokens: &[Token],
        cursor: Cursor<'a>,
    ) -> Result<(Function, Cursor<'a>), Stop> {
        function_at(alloc, tokens, cursor)
    }

    fn nesting_fault(cursor: Cursor<'_>) -> Option<usize> {
        nesting_fault(cursor)
    }

    ghost bracketed = { λ ls nested. nested };

    ghost reading = { functions_read };
}

/// `func name(x, ..) block`, from its word on.
#[tactic(auto, unfolding(while_grammar::specs::Reading::Statements::function_at))]
fn function_at<'a>(
    alloc: Global,
    tokens: &[Token],
    cursor: Cursor<'a>,
) -> Result<(Function, Cursor<'a>), Stop>
    ensures { Gives (λ found. (function_view found.0, found.1)) result (read.function_at (byte_before tokens.now) cursor.entry) }
{
    let at = next_place(tokens, &cursor)?;
    let (name, cursor) = cursor.behind().name(alloc)?;
    let cursor = cursor.sign(Sign::LeftParenthesis)?;
    let (params, cursor) = names_at(alloc, Sign::RightParenthesis, cursor)?;
    let cursor = cursor.sign(Sign::RightParenthesis)?;
    let most = cursor.left();
    let (body, cursor) = block_at(alloc, tokens, most, cursor)?;
    let function = Function {
        name,
        params,
        body,
        at,
    };
    Ok((function, cursor))
}
