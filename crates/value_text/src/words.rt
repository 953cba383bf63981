//! Words.
ghost use Rattle.std.specs.Prelude.{◌≡◌, ◌==◌, option_copied};
ghost use Rattle.gil_lexer.specs.Bytes.{begins};
ghost use Rattle.value_text.specs.Reading as spec;
ghost use Rattle.value_text.specs.Reading.{Gives};

use crate::faults::ReadFault;

/// Whether the bytes begin with this one.
pub fn begins_with(byte: u8, bytes: &[u8]) -> bool
    ensures { result ≡ begins (λ b. b == byte) bytes.now }
{
    match bytes {
        [first, ..] => *first == byte,
        [] => false,
    }
}

/// The bytes behind a word, where they begin with it.
pub fn behind<'a>(word: &str, bytes: &'a [u8]) -> Option<&'a [u8]>
    ensures { option_copied result ≡ spec.behind word.now bytes.now }
{
    bytes.strip_prefix(word.as_bytes())
}

/// The bytes behind a word.
pub fn expect<'a>(word: &str, bytes: &'a [u8]) -> Result<&'a [u8], ReadFault>
    ensures { Gives (λ rest. rest.now) result (spec.behind word.now bytes.now) }
{
    match behind(word, bytes) {
        Some(rest) => Ok(rest),
        None => Err(ReadFault::Form),
    }
}
