//! A cursor over the tokens of a text, which says what they stand for.
ghost use Rattle.std.specs.Prelude.{◌≡◌, ◌∷◌, List, All, length};
ghost use Rattle.gil_lexer.specs.Texts.{IsSlice};
ghost use Rattle.gil_lexemes.specs.Lexemes.{StandForAll};
ghost use Rattle.gil_lexemes.specs.Standing.{FirstStands};
ghost use Rattle.gil_lexemes.specs.Reading as spec;
ghost use Rattle.gil_lexemes.specs.Reading.{Gives, behind, first_form, sign_at, word_at, name_at, logical_at, procedure_at, number_at, characters_at};

use crate::standing::{literal_text, number_from, procedure_name, text_from_bytes};
use crate::stops::Stop;
use gil_lexer::{Form, Sign, Token, Word};
use gil_values::Text;
use std::alloc::Global;
use std::marker::Model;

/// The tokens of a text that are still to be read. Contracts see the lexemes that they stand for.
#[derive(Debug, Drop)]
pub struct Cursor<'a> {
    bytes: &'a [u8],
    tokens: &'a [Token],
}

impl<'a> Model for Cursor<'a> {
    ghost use Rattle.std.specs.Prelude.{List, All};
    ghost use Rattle.gil_lexer.specs.Texts.{IsSlice};
    ghost use Rattle.gil_lexemes.specs.Standing.{lexemes_of};
    ghost use Rattle.gil_lexemes.specs.declared.standing.Lexeme.{Lexeme};

    ghost Value = { List Lexeme };

    ghost view = { λ c. lexemes_of c.bytes.now c.tokens.now };

    ghost invariant = { λ c. All (IsSlice c.bytes.now) c.tokens.now };
}

impl<'a> Cursor<'a> {
    /// A cursor over tokens of a text.
    pub fn new(bytes: &'a [u8], tokens: &'a [Token]) -> Cursor<'a>
        requires { All (IsSlice bytes.now) tokens.now }
        ensures { StandForAll bytes.now tokens.now result }
    {
        Cursor { bytes, tokens }
    }

    /// How many tokens are left.
    pub fn left(&self) -> usize
        ensures { result ≡ length self.now }
    {
        self.tokens.len()
    }

    /// The form of the next token, if one is left.
    pub fn first(&self) -> Option<Form>
        ensures { result ≡ first_form self.now }
    {
        match self.tokens {
            [token, ..] => Some(token.form),
            [] => None,
        }
    }

    /// Whether the next token is the sign.
    pub fn is_at(&self, sign: Sign) -> bool
        ensures { result ≡ spec.is_sign sign (first_form self.now) }
    {
        is_sign(sign, self.first())
    }

    /// Whether the next token is the reserved word.
    pub fn is_at_word(&self, word: Word) -> bool
        ensures { result ≡ spec.is_word word (first_form self.now) }
    {
        is_word(word, self.first())
    }

    /// Another cursor at the same place.
    pub fn copy(&self) -> Cursor<'a>
        ensures { result ≡ self.now }
    {
        Cursor {
            bytes: self.bytes,
            tokens: self.tokens,
        }
    }

    /// The cursor behind the next token, or at the end where none is left.
    pub fn behind(self) -> Cursor<'a>
        ensures { result ≡ behind self.entry }
    {
        match self.tokens {
            [_, tokens @ ..] => Cursor {
                bytes: self.bytes,
                tokens,
            },
            [] => self,
        }
    }

    /// The bytes of the next token, or none where no token is left.
    fn spelling(&self) -> &'a [u8]
        ensures { FirstStands result.now self.now }
    {
        match self.tokens {
            [token, ..] => token.text(self.bytes),
            [] => &[],
        }
    }

    /// The cursor behind a sign, where the next token is that sign.
    pub fn sign(self, sign: Sign) -> Result<Cursor<'a>, Stop>
        ensures { Gives (λ rest. rest) result (sign_at sign self.entry) }
    {
        if is_sign(sign, self.first()) {
            Ok(self.behind())
        } else {
            Err(Stop::Syntax(self.left()))
        }
    }

    /// The cursor behind a reserved word, where the next token is that word.
    pub fn word(self, word: Word) -> Result<Cursor<'a>, Stop>
        ensures { Gives (λ rest. rest) result (word_at word self.entry) }
    {
        if is_word(word, self.first()) {
            Ok(self.behind())
        } else {
            Err(Stop::Syntax(self.left()))
        }
    }

    /// The name that the next token is, and the cursor behind it.
    pub fn name(self, alloc: Global) -> Result<(Text, Cursor<'a>), Stop>
        ensures { Gives (λ found. (found.0, found.1)) result (name_at self.entry) }
    {
        match self.first() {
            Some(Form::Name) => {
                let name = text_from_bytes(alloc, self.spelling())?;
                Ok((name, self.behind()))
            }
            _ => Err(Stop::Syntax(self.left())),
        }
    }

    /// The logical name that the next token is, with its `#`, and the cursor behind it.
    pub fn logical_name(self, alloc: Global) -> Result<(Text, Cursor<'a>), Stop>
        ensures { Gives (λ found. (found.0, found.1)) result (logical_at self.entry) }
    {
        match self.first() {
            Some(Form::Logical) => {
                let name = text_from_bytes(alloc, self.spelling())?;
                Ok((name, self.behind()))
            }
            _ => Err(Stop::Syntax(self.left())),
        }
    }

    /// The name of the procedure literal that the next token is, without its `@`, and the cursor behind it.
    pub fn procedure(self, alloc: Global) -> Result<(Text, Cursor<'a>), Stop>
        ensures { Gives (λ found. (found.0, found.1)) result (procedure_at self.entry) }
    {
        match self.first() {
            Some(Form::Procedure) => {
                let name = procedure_name(alloc, self.spelling())?;
                Ok((name, self.behind()))
            }
            _ => Err(Stop::Syntax(self.left())),
        }
    }

    /// The number that the next token spells, and the cursor behind it.
    pub fn number(self) -> Result<(i64, Cursor<'a>), Stop>
        ensures { Gives (λ found. (found.0, found.1)) result (number_at self.entry) }
    {
        match self.first() {
            Some(Form::Number) => {
                let number = number_from(self.spelling());
                Ok((number, self.behind()))
            }
            _ => Err(Stop::Syntax(self.left())),
        }
    }

    /// The characters of the text literal that the next token is, and the cursor behind it.
    pub fn characters(self, alloc: Global) -> Result<(Text, Cursor<'a>), Stop>
        ensures { Gives (λ found. (found.0, found.1)) result (characters_at self.entry) }
    {
        match self.first() {
            Some(Form::Text) => {
                let characters = literal_text(alloc, self.spelling())?;
                Ok((characters, self.behind()))
            }
            _ => Err(Stop::Syntax(self.left())),
        }
    }
}

/// Whether a token of this form is the sign.
#[tactic(auto, unfolding(crate::specs::Reading::same_sign))]
fn is_sign(sign: Sign, form: Option<Form>) -> bool
    ensures { result ≡ spec.is_sign sign form }
{
    match form {
        Some(Form::Sign(found)) => found == sign,
        _ => false,
    }
}

/// Whether a token of this form is the reserved word.
#[tactic(auto, unfolding(crate::specs::Reading::same_word))]
fn is_word(word: Word, form: Option<Form>) -> bool
    ensures { result ≡ spec.is_word word form }
{
    match form {
        Some(Form::Word(found)) => found == word,
        _ => false,
    }
}
