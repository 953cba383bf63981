//! Reading functions.
ghost use Rattle.std.specs.Prelude.{◌≡◌, length};
ghost use Rattle.gil_lexer.specs.declared.words.Word.TheVariants as words;
ghost use Rattle.gil_lexer.specs.declared.signs.Sign.TheVariants as signs;
ghost use Rattle.gil_lexemes.specs.Lists.{more_at, with_front};
ghost use Rattle.gil_lexemes.specs.Reading.{Gives};
ghost use Rattle.gil_grammar.specs.Texts.{byte_before};
ghost use Rattle.operator_text.specs.Few.{IsNestedWithFew};
ghost use Rattle.clike_lang.specs.Pure.{PureFunction};
ghost use Rattle.clike_lang.specs.View.{function_view};
ghost use Rattle.clike_grammar.specs.Functions as read;
ghost use Rattle.clike_grammar.specs.Functions.{SpellsFunction};
ghost use Rattle.clike_grammar.proofs.FunctionLaws.{functions_read};

use crate::names::declared_name_at;
use crate::statements::Statements;
use clike_lang::Function;
use gil_lexemes::{Cursor, Stop};
use gil_lexer::{Sign, Token, Word};
use gil_syntax::Texts;
use gil_values::Text;
use operator_text::nesting_fault;
use sequence::Sequence;
use source_text::{SourceLanguage, next_place};
use statement_text::block_at;
use std::alloc::Global;

/// The C-like language, as its texts are read.
pub(crate) struct Clike;

impl SourceLanguage for Clike {
    type Function = Function;

    ghost Pure = { PureFunction };

    ghost view = { function_view };

    ghost first = { words.Int };

    ghost nested = { IsNestedWithFew };

    ghost spells = { SpellsFunction };

    ghost reads = { read.function_at };

    fn first_word() -> Word {
        Word::Int
    }

    fn function_at<'a>(
        alloc: Global,
        tokens: &[Token],
        cursor: Cursor<'a>,
    ) -> Result<(Function, Cursor<'a>), Stop> {
        function_at(alloc, tokens, cursor)
    }

    fn nesting_fault(cursor: Cursor<'_>) -> Option<usize> {
        nesting_fault(cursor)
    }

    ghost bracketed = { λ ls nested. nested.0 };

    ghost reading = { functions_read };
}

/// A parameter.
#[tactic(auto, unfolding(clike_grammar::specs::Functions::param_at))]
fn param_at<'a>(alloc: Global, cursor: Cursor<'a>) -> Result<(Text, Cursor<'a>), Stop>
    ensures { Gives (λ found. (found.0, found.1)) result (read.param_at cursor.entry) }
{
    let cursor = cursor.word(Word::Int)?;
    declared_name_at(alloc, cursor)
}

/// The parameters up to the closing parenthesis.
fn params_at<'a>(alloc: Global, cursor: Cursor<'a>) -> Result<(Texts, Cursor<'a>), Stop>
    ensures { Gives (λ found. (found.0, found.1)) result (read.params_at cursor.entry) }
{
    let mut list = Sequence::new(alloc);
    if cursor.is_at(Sign::RightParenthesis) {
        return Ok((list, cursor));
    }
    let (first, cursor) = param_at(alloc, cursor)?;
    list.push(first)?;
    more_params(alloc, list, cursor)
}

/// The parameters of the list, and those at the front that stand behind a comma each.
fn more_params<'a>(
    alloc: Global,
    list: Texts,
    cursor: Cursor<'a>,
) -> Result<(Texts, Cursor<'a>), Stop>
    ensures { Gives (λ found. (found.0, found.1)) result
        (with_front list (more_at read.param_at (length cursor.entry) signs.Comma cursor.entry)) }
{
    let mut list = list;
    let mut rest = cursor;
    // Each turn takes a comma at least.
    let most = rest.left();
    for _ in 0..most {
        if !rest.is_at(Sign::Comma) {
            return Ok((list, rest));
        }
        let (param, behind) = param_at(alloc, rest.behind())?;
        list.push(param)?;
        rest = behind;
    }
    Ok((list, rest))
}

/// `int name(int x, ..) block`, from its word on.
#[tactic(auto, unfolding(clike_grammar::specs::Functions::function_at))]
fn function_at<'a>(
    alloc: Global,
    tokens: &[Token],
    cursor: Cursor<'a>,
) -> Result<(Function, Cursor<'a>), Stop>
    ensures { Gives (λ found. (function_view found.0, found.1)) result (read.function_at (byte_before tokens.now) cursor.entry) }
{
    let at = next_place(tokens, &cursor)?;
    let (name, cursor) = declared_name_at(alloc, cursor.behind())?;
    let cursor = cursor.sign(Sign::LeftParenthesis)?;
    let (params, cursor) = params_at(alloc, cursor)?;
    let cursor = cursor.sign(Sign::RightParenthesis)?;
    let most = cursor.left();
    let (body, cursor) = block_at::<Statements>(alloc, tokens, most, cursor)?;
    let function = Function {
        name,
        params,
        body,
        at,
    };
    Ok((function, cursor))
}
