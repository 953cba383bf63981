//! Names.
ghost use Rattle.std.specs.Prelude.{◌≡◌, ◌≤◌, length, IfOk};
ghost use Rattle.std.specs.List.{prefix_len};
ghost use Rattle.gil_values.specs.Characters.{IsText};
ghost use Rattle.gil_lexer.specs.Bytes as class;
ghost use Rattle.gil_lexer.specs.Bytes.{begins};
ghost use Rattle.value_text.specs.Reading as spec;
ghost use Rattle.value_text.specs.Reading.{Gives};

use crate::faults::ReadFault;
use gil_values::Text;
use std::alloc::{AllocError, Global};
use std::str;

fn is_name_start(byte: u8) -> bool
    ensures { result ≡ class.is_name_start byte }
{
    byte.is_ascii_alphabetic() || byte == b'_'
}

fn is_name_byte(byte: u8) -> bool
    ensures { result ≡ class.is_name_byte byte }
{
    is_name_start(byte) || byte.is_ascii_digit() || byte == b'$'
}

/// Whether the bytes begin as a name does.
pub fn begins_name(bytes: &[u8]) -> bool
    ensures { result ≡ begins class.is_name_start bytes.now }
{
    match bytes {
        [first, ..] => is_name_start(*first),
        [] => false,
    }
}

/// How many bytes of a name stand at the front.
fn name_len(bytes: &[u8]) -> usize
    ensures len { result ≡ prefix_len class.is_name_byte bytes.now }
    ensures within { result ≤ length bytes.now }
{
    bytes.iter().take_while(|b| is_name_byte(**b)).count()
}

/// What stands behind the name at the front, or behind the bytes that a name may go on with.
pub fn past_name(bytes: &[u8]) -> &[u8]
    ensures { result.now ≡ spec.past_name bytes.now }
{
    let len = name_len(bytes);
    &bytes[len..]
}

/// The name at the front, reserved or not.
pub fn name_at(alloc: Global, bytes: &[u8]) -> Result<(Text, &[u8]), ReadFault>
    ensures { Gives (λ x. (x.0, x.1.now)) result (spec.name_at bytes.now) }
{
    if !begins_name(bytes) {
        return Err(ReadFault::Form);
    }
    let len = name_len(bytes);
    let name = text_from_bytes(alloc, &bytes[..len])?;
    Ok((name, &bytes[len..]))
}

/// The text of these characters, each of which may stand in one.
fn text_from_bytes(alloc: Global, characters: &[u8]) -> Result<Text, AllocError>
    requires { IsText characters.now }
    ensures { IfOk result (λ text. text ≡ characters.now) }
{
    match str::from_utf8(characters) {
        Ok(characters) => text_from(alloc, characters),
        Err(_) => unreachable!(),
    }
}

/// The text of these characters, each of which may stand in one.
pub(crate) fn text_from(alloc: Global, characters: &str) -> Result<Text, AllocError>
    requires { IsText characters.now }
    ensures { IfOk result (λ text. text ≡ characters.now) }
{
    match Text::from_str(alloc, characters)? {
        Some(text) => Ok(text),
        None => unreachable!(),
    }
}
