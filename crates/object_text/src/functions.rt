//! Reading functions.
ghost use Rattle.std.specs.Prelude.{◌≡◌};
ghost use Rattle.gil_lexer.specs.declared.words.Word.TheVariants as words;
ghost use Rattle.gil_lexemes.specs.Reading.{Gives};
ghost use Rattle.gil_grammar.specs.Texts.{byte_before};
ghost use Rattle.operator_text.specs.Few.{IsNestedWithFew};
ghost use Rattle.object_lang.specs.Pure.{PureFunction};
ghost use Rattle.object_lang.specs.View.{function_view};
ghost use Rattle.object_grammar.specs.Functions as read;
ghost use Rattle.object_grammar.specs.Functions.{SpellsFunction};
ghost use Rattle.object_grammar.proofs.FunctionLaws.{functions_read};

use crate::statements::Statements;
use gil_lexemes::{Cursor, Stop};
use gil_lexer::{Sign, Token, Word};
use gil_text::names_at;
use object_lang::Function;
use operator_text::nesting_fault;
use source_text::{SourceLanguage, next_place};
use statement_text::block_at;
use std::alloc::Global;

/// The object language, as its texts are read.
pub(crate) struct Objects;

impl SourceLanguage for Objects {
    type Function = Function;

    ghost Pure = { PureFunction };

    ghost view = { function_view };

    ghost first = { words.Function };

    ghost nested = { IsNestedWithFew };

    ghost spells = { SpellsFunction };

    ghost reads = { read.function_at };

    fn first_word() -> Word {
        Word::Function
    }

    fn function_at<'a>(
        alloc: Global,
        tokens: &[Token],
        cursor: Cursor<'a>,
    ) -> Result<(Function, Cursor<'a>), Stop> {
        function_at(alloc, tokens, cursor)
    }

    fn nesting_fault(cursor: Cursor<'_>) -> Option<usize> {
        nesting_fault(cursor)
    }

    ghost bracketed = { λ ls nested. nested.0 };

    ghost reading = { functions_read };
}

/// `function name(x, ..) block`, from its word on.
#[tactic(auto, unfolding(object_grammar::specs::Functions::function_at))]
fn function_at<'a>(
    alloc: Global,
    tokens: &[Token],
    cursor: Cursor<'a>,
) -> Result<(Function, Cursor<'a>), Stop>
    ensures { Gives (λ found. (function_view found.0, found.1)) result (read.function_at (byte_before tokens.now) cursor.entry) }
{
    let at = next_place(tokens, &cursor)?;
    let (name, cursor) = cursor.behind().name(alloc)?;
    let cursor = cursor.sign(Sign::LeftParenthesis)?;
    let (params, cursor) = names_at(alloc, Sign::RightParenthesis, cursor)?;
    let cursor = cursor.sign(Sign::RightParenthesis)?;
    let most = cursor.left();
    let (body, cursor) = block_at::<Statements>(alloc, tokens, most, cursor)?;
    let function = Function {
        name,
        params,
        body,
        at,
    };
    Ok((function, cursor))
}
