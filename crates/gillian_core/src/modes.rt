//! The program of a text whose assertions can be read from left to right.
ghost use Rattle.std.specs.Prelude.{◌≡◌, ◌≢◌, IfOk, IfErr};
ghost use Rattle.assert_logic.specs.Modes.{HasModes};
ghost use Rattle.gil_syntax.specs.Program.{prog_view};
ghost use Rattle.gil_text.specs.declared.refused.RefusedKind.TheVariants as kinds;
ghost use Rattle.gillian_core.specs.Finishing.{IsNoReadable};
ghost use Rattle.gillian_core.specs.Languages.{definition_of};
ghost use Rattle.gillian_core.specs.Refusals.{IsPlaceIn};
ghost use Rattle.gillian_core.specs.Right.{IsProgramOf};

use crate::languages::{memory_name, program};
use assert_logic::{ModeItem, modes};
use gil_lexer::{Form, Sign, Token, Word};
use gil_syntax::Prog;
use gil_text::{Refused, RefusedKind, place_of, tokens_of};
use gillian_words::Language;
use std::alloc::{AllocError, Global};

/// The program of a text, whose assertions can be read.
pub fn readable_program(alloc: Global, language: Language, bytes: &[u8]) -> Result<Prog, Refused>
    ensures program { IfOk result (λ prog. IsProgramOf (definition_of language) bytes.now (prog_view prog)) }
    ensures modes { IfOk result (λ prog. HasModes (prog_view prog) (definition_of language).memory.name) }
    ensures none { IfErr result (IsNoReadable (definition_of language) bytes.now) }
{
    let prog = program(alloc, language, bytes)?;
    match modes(&prog, memory_name(language)) {
        Ok(()) => Ok(prog),
        Err(fault) => Err(modes_refused(alloc, bytes, fault.item)),
    }
}

/// What a text is refused as for an item that can't be read.
fn modes_refused(alloc: Global, bytes: &[u8], item: ModeItem) -> Refused
    ensures { result.kind ≢ kinds.Memory → (result.kind ≡ kinds.Modes) × IsPlaceIn bytes.now result.at }
{
    match item_place(alloc, bytes, item) {
        Ok(at) => Refused {
            at,
            kind: RefusedKind::Modes,
        },
        Err(_) => Refused {
            at: 0,
            kind: RefusedKind::Memory,
        },
    }
}

/// The byte at which an item of the text begins.
fn item_place(alloc: Global, bytes: &[u8], item: ModeItem) -> Result<usize, AllocError>
    ensures { IfOk result (IsPlaceIn bytes.now) }
{
    match tokens_of(alloc, bytes) {
        Ok(tokens) => {
            let left = left_from(tokens.as_slice(), item);
            Ok(place_of(bytes, tokens.as_slice(), left))
        }
        Err(_) => Err(AllocError),
    }
}

/// How many tokens are left from the first one of an item on. Items are counted by their first words, which stand outside of all brackets.
fn left_from(tokens: &[Token], item: ModeItem) -> usize {
    let mut open = 0usize;
    let mut before = 0usize;
    for (index, token) in tokens.iter().enumerate() {
        if open == 0 && begins(item, token.form) {
            if before == number_of(item) {
                return tokens.len().saturating_sub(index);
            }
            before = before.saturating_add(1);
        }
        open = open_behind(open, token.form);
    }
    0
}

/// The number of an item among those of its kind.
fn number_of(item: ModeItem) -> usize {
    match item {
        ModeItem::Spec(number) | ModeItem::Pred(number) | ModeItem::Proc(number) => number,
    }
}

/// Whether items of this kind begin with such a token, in any of the languages.
fn begins(item: ModeItem, form: Form) -> bool {
    match item {
        ModeItem::Spec(_) => matches!(form, Form::Word(Word::Spec)),
        ModeItem::Pred(_) => matches!(form, Form::Word(Word::Pred)),
        ModeItem::Proc(_) => matches!(
            form,
            Form::Word(Word::Proc | Word::Func | Word::Int | Word::Function)
        ),
    }
}

/// How many brackets are open behind a token, where so many are before it.
fn open_behind(open: usize, form: Form) -> usize {
    match form {
        Form::Sign(Sign::LeftParenthesis | Sign::LeftBracket | Sign::LeftBrace) => {
            open.saturating_add(1)
        }
        Form::Sign(Sign::RightParenthesis | Sign::RightBracket | Sign::RightBrace) => {
            open.saturating_sub(1)
        }
        _ => open,
    }
}
