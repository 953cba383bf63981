//! Names and texts.
ghost use Rattle.std.specs.Prelude.{◌≡◌, codes};
ghost use Rattle.std.specs.Str.{bytes_eq};
ghost use Rattle.gil_lexer.specs.Reading as lexing;
ghost use Rattle.writable_reports.specs.Tests as test;

use gil_lexer::{Word, is_name as has_form_of_name};
use gil_values::Text;

/// Whether each character is such as texts have, which holds of each text.
pub(crate) fn is_text(text: &Text) -> bool
    ensures { result ≡ test.is_text text.now }
{
    let _characters = text.as_str();
    true
}

/// Whether bytes are a name, reserved or not.
fn are_name(bytes: &[u8]) -> bool
    ensures { result ≡ test.is_name bytes.now }
{
    has_form_of_name(bytes)
}

/// Whether it is a name, reserved or not.
pub(crate) fn is_name(text: &Text) -> bool
    ensures { result ≡ test.is_name text.now }
{
    are_name(text.as_str().as_bytes())
}

/// Whether bytes are `#` and a name.
fn are_logical_name(bytes: &[u8]) -> bool
    ensures { result ≡ test.is_logical_name bytes.now }
{
    match bytes {
        [] => false,
        [first, rest @ ..] => *first == b'#' && are_name(rest),
    }
}

/// Whether it is the name of a logical variable: `#` and a name.
pub(crate) fn is_logical_name(text: &Text) -> bool
    ensures { result ≡ test.is_logical_name text.now }
{
    are_logical_name(text.as_str().as_bytes())
}

/// The reserved word that it is.
fn word_of(text: &Text) -> Option<Word>
    ensures { result ≡ lexing.word_of text.now }
{
    Word::from_spelling(text.as_str().as_bytes())
}

/// Whether a reserved word is the value returned.
fn is_ret(word: Word) -> bool
    ensures { result ≡ test.is_ret word }
{
    match word {
        Word::Ret => true,
        _ => false,
    }
}

/// Whether it is no reserved word, or that for the value returned.
fn is_free(text: &Text) -> bool
    ensures { result ≡ test.is_free (lexing.word_of text.now) }
{
    match word_of(text) {
        None => true,
        Some(word) => is_ret(word),
    }
}

/// Whether it is the name of a variable of an expression.
pub(crate) fn is_variable(text: &Text) -> bool
    ensures { result ≡ test.is_variable text.now }
{
    is_name(text) && is_free(text)
}

/// Whether it is the name of a variable of a binding.
pub(crate) fn is_variable_name(text: &Text) -> bool
    ensures { result ≡ test.is_variable_name text.now }
{
    is_name(text) || is_logical_name(text)
}

fn is_word_not(text: &Text) -> bool
    ensures { result ≡ bytes_eq text.now (codes "not") }
{
    text.as_str() == "not"
}

/// Whether a predicate may be called so.
pub(crate) fn is_predicate_name(text: &Text) -> bool
    ensures { result ≡ test.is_predicate_name text.now }
{
    is_name(text) && !is_word_not(text)
}
