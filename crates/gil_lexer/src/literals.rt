//! Text literals: characters 0x20 to 0x7E between quotes, with the escapes `\"`, `\\` and `\n`.
ghost use Rattle.std.specs.Prelude.{◌≡◌, ◌≤◌, ◌<◌, [], ◌∷◌, ◌++◌, false, ℕ, List, IsTrue, ◌↔◌, OnOk, IfSome, IfNone, length, IfOk, option_map};
ghost use Rattle.std.specs.String.{string_bytes};
ghost use Rattle.gil_lexer.specs.Bytes.{IsQuoted};
ghost use Rattle.gil_lexer.specs.Spelling.{SpellsText};
ghost use Rattle.gil_lexer.specs.Reading as spec;

use crate::bytes::{is_escape, is_plain, is_printable};
use crate::faults::LexKind;
use std::alloc::{AllocError, Global};

// How many bytes a text literal has behind its opening quote, with the closing one.
pub(crate) fn literal_len(text: &[u8]) -> Result<usize, LexKind>
    ensures exact { result ≡ spec.literal_len false text.now }
    ensures within { IfOk result (λ len. len ≤ length text.now) }
{
    let mut escaped = false;
    'bytes: for i in 0..text.len() {
        let byte = text[i];
        if escaped {
            if !is_escape(byte) {
                return Err(LexKind::Escape);
            }
            escaped = false;
        } else if byte == b'"' {
            return Ok(i + 1);
        } else if byte == b'\\' {
            escaped = true;
        } else if !is_printable(byte) {
            return Err(LexKind::Open);
        }
    }
    Err(if escaped {
        LexKind::Escape
    } else {
        LexKind::Open
    })
}

// The character that an escape stands for, by the byte behind its backslash.
fn escaped_character(byte: u8) -> u8
    ensures { result ≡ spec.escaped_character byte }
{
    if byte == b'n' { b'\n' } else { byte }
}

// Writes an ASCII character at the end.
fn push_ascii(text: &mut String, byte: u8) -> Result<(), AllocError>
    requires { byte < 128 }
    ensures { OnOk result (string_bytes text.new ≡ string_bytes text.old ++ byte ∷ []) }
{
    text.push(char::from(byte))
}

// The characters between the quotes of a literal.
fn unescaped(alloc: Global, body: &[u8]) -> Result<Option<String>, AllocError>
    ensures { IfOk result (λ text. option_map string_bytes text ≡ spec.unescaped false body.now) }
{
    let mut text = String::new(alloc);
    let mut escaped = false;
    'bytes: for byte in body {
        if escaped {
            if !is_escape(*byte) {
                return Ok(None);
            }
            push_ascii(&mut text, escaped_character(*byte))?;
            escaped = false;
        } else if *byte == b'\\' {
            escaped = true;
        } else if is_plain(*byte) {
            push_ascii(&mut text, *byte)?;
        } else {
            return Ok(None);
        }
    }
    Ok(if escaped { None } else { Some(text) })
}

// Whether a quote stands at either end.
fn is_quoted(literal: &[u8]) -> bool
    ensures { IsTrue result ↔ IsQuoted literal.now }
{
    literal.len() >= 2 && literal[0] == b'"' && literal[literal.len() - 1] == b'"'
}

/// The characters of a text literal's token, without its quotes and with its escapes resolved. None where
/// the bytes are no text literal, or not that alone.
pub fn text_of(alloc: Global, literal: &[u8]) -> Result<Option<String>, AllocError>
    ensures some { IfOk result (λ found. IfSome found (λ text. SpellsText literal.now (string_bytes text))) }
    ensures none { IfOk result (λ found. IfNone found ((cs : List ℕ) → SpellsText literal.now cs → ⊥)) }
{
    if !is_quoted(literal) {
        return Ok(None);
    }
    unescaped(alloc, &literal[1..literal.len() - 1])
}
