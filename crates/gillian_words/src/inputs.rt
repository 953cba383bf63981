//! The values of the option of inputs.
ghost use Rattle.std.specs.Prelude.{◌≡◌, ◌≤◌, ◌<◌, ◌+◌, ◌∷◌, drop, ℕ, ℤ, List, length, IfOk, IfSome, IfNone};
ghost use Rattle.gil_values.specs.Pure.{PureValue};
ghost use Rattle.gil_values.specs.View.{value_view, values_view};
ghost use Rattle.gillian_words.specs.Inputs.{SpellsInput, SpellsInputs, SpellsNumber};
ghost use Rattle.gillian_words.specs.Pieces.{piece_len};

use crate::scan::Scan;
use gil_lexer::text_of;
use gil_values::{Text, Value, Values};
use std::alloc::{AllocError, Global};
use std::str;

/// The values that the word spells, and None where it spells none.
pub fn inputs_of(alloc: Global, word: &[u8]) -> Result<Option<Values>, AllocError>
    ensures some { IfOk result (λ found. IfSome found (λ values. SpellsInputs word.now (values_view values))) }
    ensures none { IfOk result (λ found. IfNone found ((vs : List PureValue) → SpellsInputs word.now vs → ⊥)) }
{
    let mut values = Values::new(alloc);
    if word.is_empty() {
        return Ok(Some(values));
    }
    let mut rest = word;
    'pieces: loop {
        let len = piece_len(rest);
        match input_of(alloc, &rest[..len])? {
            Some(value) => values.push(value)?,
            None => return Ok(None),
        }
        if rest.len() <= len {
            return Ok(Some(values));
        }
        rest = behind(rest, len);
    }
}

/// What stands behind the byte at a place.
fn behind(text: &[u8], place: usize) -> &[u8]
    requires { place < length text.now }
    ensures { result.now ≡ drop (place + 1) text.now }
{
    let _len = text.len();
    &text[place + 1..]
}

/// How many bytes stand before the first comma that isn't between quotes.
fn piece_len(text: &[u8]) -> usize
    ensures len { result ≡ piece_len Scan.Outside text.now }
    ensures within { result ≤ length text.now }
{
    let mut scan = Scan::Outside;
    'bytes: for i in 0..text.len() {
        match scan.next(text[i]) {
            Some(next) => scan = next,
            None => return i,
        }
    }
    text.len()
}

/// The value that the word spells, and None where it spells none.
fn input_of(alloc: Global, word: &[u8]) -> Result<Option<Value>, AllocError>
    ensures some { IfOk result (λ found. IfSome found (λ value. SpellsInput word.now (value_view value))) }
    ensures none { IfOk result (λ found. IfNone found ((v : PureValue) → SpellsInput word.now v → ⊥)) }
{
    match word {
        b"true" => Ok(Some(Value::Bool(true))),
        b"false" => Ok(Some(Value::Bool(false))),
        [b'"', ..] => text_input(alloc, word),
        _ => Ok(number_of(word).map(Value::Int)),
    }
}

/// The text that a literal spells.
fn text_input(alloc: Global, word: &[u8]) -> Result<Option<Value>, AllocError>
    requires { (rest : List ℕ) × (word.now ≡ 34 ∷ rest) }
    ensures some { IfOk result (λ found. IfSome found (λ value. SpellsInput word.now (value_view value))) }
    ensures none { IfOk result (λ found. IfNone found ((v : PureValue) → SpellsInput word.now v → ⊥)) }
{
    match text_of(alloc, word)? {
        Some(characters) => match Text::from_str(alloc, characters.as_str())? {
            Some(text) => Ok(Some(Value::Str(text))),
            None => unreachable!(),
        },
        None => Ok(None),
    }
}

/// The number of 128 bits that the word spells.
fn number_of(word: &[u8]) -> Option<i128>
    ensures some { IfSome result (λ n. SpellsNumber word.now n) }
    ensures none { IfNone result ((n : ℤ) → SpellsNumber word.now n → ⊥) }
{
    if word.first() == Some(&b'+') {
        return None;
    }
    match str::from_utf8(word) {
        Ok(digits) => digits.parse::<i128>().ok(),
        Err(_) => None,
    }
}
