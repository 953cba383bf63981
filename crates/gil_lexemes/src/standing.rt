//! Lexemes, and those that the tokens of a text stand for.
ghost use Rattle.std.specs.Prelude.{◌≡◌, ℕ, List, ◌∷◌, IfOk};
ghost use Rattle.gil_values.specs.Characters.{IsText};
ghost use Rattle.gil_lexer.specs.Bytes.{at_sign};
ghost use Rattle.gil_lexer.specs.Spelling.{IsMarkedName, IsNumber, SpellsNumber, SpellsText};

use gil_lexer::{Sign, Word, number_of, text_of};
use gil_values::Text;
use std::alloc::{AllocError, Global};
use std::str;

/// What a token stands for.
#[derive(Debug, Drop)]
pub enum Lexeme {
    /// A name that is no reserved word.
    Name(Text),
    /// A reserved word.
    Word(Word),
    /// A logical name, with its `#`.
    Logical(Text),
    /// The name of a procedure literal, without its `@`.
    Procedure(Text),
    Number(i64),
    /// The characters of a text literal.
    Literal(Text),
    Sign(Sign),
}

/// The number that a number's digits spell.
pub(crate) fn number_from(spelling: &[u8]) -> i64
    requires { IsNumber spelling.now }
    ensures { SpellsNumber spelling.now result }
{
    match number_of(spelling) {
        Some(number) => number,
        None => unreachable!(),
    }
}

/// The name of the procedure literal that the bytes are.
pub(crate) fn procedure_name(alloc: Global, spelling: &[u8]) -> Result<Text, AllocError>
    requires { IsMarkedName at_sign spelling.now }
    ensures { IfOk result (λ name. spelling.now ≡ at_sign ∷ name) }
{
    match spelling {
        [_, name @ ..] => text_from_bytes(alloc, name),
        [] => unreachable!(),
    }
}

/// The characters that a text literal stands for.
pub(crate) fn literal_text(alloc: Global, spelling: &[u8]) -> Result<Text, AllocError>
    requires { (characters : List ℕ) × SpellsText spelling.now characters }
    ensures { IfOk result (λ characters. SpellsText spelling.now characters) }
{
    match text_of(alloc, spelling)? {
        Some(characters) => text_from(alloc, characters.as_str()),
        None => unreachable!(),
    }
}

/// The text of these bytes, each of which may stand in one.
pub(crate) fn text_from_bytes(alloc: Global, characters: &[u8]) -> Result<Text, AllocError>
    requires { IsText characters.now }
    ensures { IfOk result (λ text. text ≡ characters.now) }
{
    match str::from_utf8(characters) {
        Ok(characters) => text_from(alloc, characters),
        Err(_) => unreachable!(),
    }
}

/// The text of these characters, each of which may stand in one.
fn text_from(alloc: Global, characters: &str) -> Result<Text, AllocError>
    requires { IsText characters.now }
    ensures { IfOk result (λ text. text ≡ characters.now) }
{
    match Text::from_str(alloc, characters)? {
        Some(text) => Ok(text),
        None => unreachable!(),
    }
}
