//! What the options and the size of a made program spell.
ghost use Rattle.std.specs.Prelude.{◌≡◌, ◌≢◌, ◌≤◌, ℕ, List, None, IfOk, IfSome, IfNone, IsErrOf, OnOk};
ghost use Rattle.std.specs.Option.{option_map};
ghost use Rattle.gil_values.specs.Pure.{PureValue};
ghost use Rattle.gil_values.specs.View.{values_view};
ghost use Rattle.gillian_words.specs.Asked.{IsBoundOption, IsEntryOption, IsGiven, IsInputsOption, SpellsBound, SpellsEntry, SpellsSize};
ghost use Rattle.gillian_words.specs.Inputs.{SpellsInputs};

use crate::asked::WordsFault;
use crate::inputs::inputs_of;
use crate::tasks::{Bound, Size};
use gil_lexer::is_name;
use gil_values::{Text, Values};
use std::alloc::{AllocError, Global};

/// The bound: one to five digits, at most 10,000.
fn bound_of(word: &str) -> Option<Bound>
    ensures some { IfSome result (λ bound. SpellsBound word.now bound.steps) }
    ensures none { IfNone result ((n : ℕ) → SpellsBound word.now n → ⊥) }
{
    if word.len() > 5 || word.as_bytes().first() == Some(&b'+') {
        return None;
    }
    match word.parse::<u32>() {
        Ok(steps) if steps <= 10_000 => Some(Bound { steps }),
        _ => None,
    }
}

/// The bound that is given.
pub fn bound_option(word: Option<&str>) -> Result<Bound, WordsFault>
    ensures spelled { IfOk result (λ bound. IsBoundOption (option_map (λ s. s.now) word.entry) bound.steps) }
    ensures refused { IsErrOf result WordsFault.Refused → (n : ℕ) → IsBoundOption (option_map (λ s. s.now) word.entry) n → ⊥ }
{
    match word {
        None => Ok(Bound { steps: 1000 }),
        Some(word) => match bound_of(word) {
            Some(bound) => Ok(bound),
            None => Err(WordsFault::Refused),
        },
    }
}

/// The size of a made program: one to four digits, from 1 to 1,000.
fn size_of(word: &str) -> Option<Size>
    ensures some { IfSome result (λ size. SpellsSize word.now size.assertions) }
    ensures none { IfNone result ((n : ℕ) → SpellsSize word.now n → ⊥) }
{
    if word.len() > 4 || word.as_bytes().first() == Some(&b'+') {
        return None;
    }
    match word.parse::<u32>() {
        Ok(assertions) if 1 <= assertions && assertions <= 1000 => Some(Size { assertions }),
        _ => None,
    }
}

/// The size that is given.
pub fn given_size(word: Option<&str>) -> Result<Size, WordsFault>
    ensures spelled { IfOk result (λ size. IsGiven SpellsSize (option_map (λ s. s.now) word.entry) size.assertions) }
    ensures refused { IsErrOf result WordsFault.Refused → (n : ℕ) → IsGiven SpellsSize (option_map (λ s. s.now) word.entry) n → ⊥ }
{
    match word.and_then(size_of) {
        Some(size) => Ok(size),
        None => Err(WordsFault::Refused),
    }
}

/// The entry that is given.
pub fn entry_option(alloc: Global, word: Option<&str>) -> Result<Text, WordsFault>
    ensures spelled { IfOk result (λ entry. IsEntryOption (option_map (λ s. s.now) word.entry) entry) }
    ensures refused { IsErrOf result WordsFault.Refused → (entry : List ℕ)
        → IsEntryOption (option_map (λ s. s.now) word.entry) entry → ⊥ }
{
    let entry = match word {
        None => Text::from_str(alloc, "main")?,
        Some(word) => entry_of(alloc, word)?,
    };
    match entry {
        Some(entry) => Ok(entry),
        None => Err(WordsFault::Refused),
    }
}

/// The name that a word is.
fn entry_of(alloc: Global, word: &str) -> Result<Option<Text>, AllocError>
    ensures some { IfOk result (λ found. IfSome found (λ entry. SpellsEntry word.now entry)) }
    ensures none { IfOk result (λ found. IfNone found ((entry : List ℕ) → SpellsEntry word.now entry → ⊥)) }
{
    if is_name(word.as_bytes()) {
        Text::from_str(alloc, word)
    } else {
        Ok(None)
    }
}

/// The inputs that are given.
pub fn inputs_option(alloc: Global, word: Option<&str>) -> Result<Values, WordsFault>
    ensures spelled { IfOk result (λ values. IsInputsOption (option_map (λ s. s.now) word.entry) (values_view values)) }
    ensures refused { IsErrOf result WordsFault.Refused → (vs : List PureValue)
        → IsInputsOption (option_map (λ s. s.now) word.entry) vs → ⊥ }
{
    match word {
        None => Ok(Values::new(alloc)),
        Some(word) => match inputs_of(alloc, word.as_bytes())? {
            Some(values) => Ok(values),
            None => Err(WordsFault::Refused),
        },
    }
}

/// An option that isn't taken is refused where it is given.
pub fn no_option(word: Option<&str>) -> Result<(), WordsFault>
    ensures none { OnOk result (option_map (λ s. s.now) word.entry ≡ None) }
    ensures refused { IsErrOf result WordsFault.Refused → option_map (λ s. s.now) word.entry ≢ None }
{
    match word {
        None => Ok(()),
        Some(_) => Err(WordsFault::Refused),
    }
}
