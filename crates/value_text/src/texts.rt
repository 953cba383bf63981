//! Text literals.
ghost use Rattle.std.specs.Prelude.{◌≡◌, ◌<◌, [], ◌∷◌, ◌++◌, string_bytes, OnOk};
ghost use Rattle.gil_lexer.specs.Bytes as class;
ghost use Rattle.gil_lexer.specs.Reading.{escaped_character};
ghost use Rattle.value_text.specs.Reading as spec;
ghost use Rattle.value_text.specs.Reading.{Gives};

use crate::faults::ReadFault;
use crate::names::text_from;
use crate::words::{begins_with, expect};
use gil_values::Text;
use std::alloc::{AllocError, Global};

/// Whether the byte stands for itself in a literal.
fn is_plain(byte: u8) -> bool
    ensures { result ≡ class.is_plain byte }
{
    32 <= byte && byte <= 126 && byte != b'"' && byte != b'\\'
}

/// Whether the byte may follow the backslash of an escape.
fn is_escape(byte: u8) -> bool
    ensures { result ≡ class.is_escape byte }
{
    byte == b'"' || byte == b'\\' || byte == b'n'
}

/// The character that an escape stands for, by the byte behind its backslash.
fn escaped_character(byte: u8) -> u8
    ensures { result ≡ escaped_character byte }
{
    if byte == b'n' { b'\n' } else { byte }
}

/// The character at the front, as it is written in a literal.
fn character_at(bytes: &[u8]) -> Result<(u8, &[u8]), ReadFault>
    ensures { Gives (λ x. (x.0, x.1.now)) result (spec.character_at bytes.now) }
{
    match bytes {
        [first, rest @ ..] => {
            if *first == b'\\' {
                escape_at(rest)
            } else if is_plain(*first) {
                Ok((*first, rest))
            } else {
                Err(ReadFault::Form)
            }
        }
        [] => Err(ReadFault::Form),
    }
}

/// The character of the escape whose backslash stands before the bytes.
fn escape_at(bytes: &[u8]) -> Result<(u8, &[u8]), ReadFault>
    ensures { Gives (λ x. (x.0, x.1.now)) result (spec.escape_at bytes.now) }
{
    match bytes {
        [first, rest @ ..] => {
            if is_escape(*first) {
                Ok((escaped_character(*first), rest))
            } else {
                Err(ReadFault::Form)
            }
        }
        [] => Err(ReadFault::Form),
    }
}

/// Adds an ASCII character.
fn push_ascii(text: &mut String, byte: u8) -> Result<(), AllocError>
    requires { byte < 128 }
    ensures { OnOk result (string_bytes text.new ≡ string_bytes text.old ++ byte ∷ []) }
{
    text.push(char::from(byte))
}

/// The characters up to the next quote.
fn characters_at(alloc: Global, bytes: &[u8]) -> Result<(String, &[u8]), ReadFault>
    ensures { Gives (λ x. (string_bytes x.0, x.1.now)) result (spec.characters_at bytes.now) }
{
    let mut characters = String::new(alloc);
    let mut rest = bytes;
    // Each turn takes a byte at least.
    let most = bytes.len();
    for _ in 0..most {
        if begins_with(b'"', rest) {
            return Ok((characters, rest));
        }
        let (character, behind) = character_at(rest)?;
        push_ascii(&mut characters, character)?;
        rest = behind;
    }
    Ok((characters, rest))
}

/// The text at the front, as a literal.
#[tactic(auto, unfolding(crate::specs::Reading::text_at))]
pub fn text_at(alloc: Global, bytes: &[u8]) -> Result<(Text, &[u8]), ReadFault>
    ensures { Gives (λ x. (x.0, x.1.now)) result (spec.text_at bytes.now) }
{
    let inner = expect("\"", bytes)?;
    let (characters, rest) = characters_at(alloc, inner)?;
    let text = text_from(alloc, characters.as_str())?;
    let rest = expect("\"", rest)?;
    Ok((text, rest))
}
