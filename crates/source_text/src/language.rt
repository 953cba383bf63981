//! What a reader of a source language has to give.
ghost use Rattle.std.specs.Prelude.{◌≡◌, ℕ, List, IfNone, IfSome};
ghost use Rattle.gil_lexer.specs.declared.words.Word.{Word};
ghost use Rattle.gil_lexemes.specs.declared.standing.Lexeme.{Lexeme};
ghost use Rattle.gil_lexemes.specs.Reading.{Gives, Reading};
ghost use Rattle.gil_grammar.specs.Nesting.{IsNested};
ghost use Rattle.gil_grammar.specs.Texts.{byte_before};
ghost use Rattle.gil_text.specs.Refusals.{IsTooDeep};
ghost use Rattle.source_text.specs.Grammar.{HasReading};

use gil_lexemes::{Cursor, Stop};
use gil_lexer::{Token, Word};
use std::alloc::Global;

/// A source language, by the functions of its texts.
pub trait SourceLanguage {
    /// The trees of functions.
    type Function: Drop;

    /// The pure data of functions.
    ghost Pure: { Type 0 };

    ghost view: { Self.Function → Pure };

    /// The word with which a function begins.
    ghost first: { Word };

    /// Which lexemes nest no deeper than the language lets those of a text nest.
    ghost nested: { List Lexeme → Type 0 };

    /// Which lexemes spell a function. Where the last so many lexemes of the text begin is said first.
    ghost spells: { (ℕ → ℕ) → Pure → List Lexeme → List Lexeme → Type 0 };

    /// Reading a function, from its word on.
    ghost reads: { (ℕ → ℕ) → List Lexeme → Reading Pure };

    fn first_word() -> Word
        ensures { result ≡ first };

    fn function_at<'a>(
        alloc: Global,
        tokens: &[Token],
        cursor: Cursor<'a>,
    ) -> Result<(Self::Function, Cursor<'a>), Stop>
        ensures { Gives (λ found. (view found.0, found.1)) result (reads (byte_before tokens.now) cursor.entry) };

    /// Where the lexemes nest too deep, how many tokens are left from the first one on at which they do.
    fn nesting_fault(cursor: Cursor<'_>) -> Option<usize>
        ensures none { IfNone result (nested cursor.entry) }
        ensures some { IfSome result (IsTooDeep nested cursor.entry) };

    ghost bracketed: { (ls : List Lexeme) → nested ls → IsNested ls };

    ghost reading: { HasReading first spells reads };
}
