//! Numbers, text literals, separators, names of kinds and places.
ghost use Rattle.std.specs.Prelude.{◌≡◌, ◌++◌, string_bytes, OnOk};
ghost use Rattle.std.specs.List.{flat_map};
ghost use Rattle.gil_values.specs.Characters.{IsText, IsTextCharacter};
ghost use Rattle.gil_values.specs.Printed.{numeral, signed_numeral, text_literal, literal_character, kind_name};
ghost use Rattle.gil_values.specs.Pieces.{printed_place, separator_before};

use crate::{Kind, Place, Text};
use std::alloc::AllocError;
use std::fmt::Write;

/// Adds a whole number in decimal digits, with a minus sign where it is negative.
#[tactic(auto, using(crate::proofs::Numbers::printed_integer))]
pub fn push_integer(out: &mut String, number: i128) -> Result<(), AllocError>
    ensures { OnOk result (string_bytes out.new ≡ string_bytes out.old ++ signed_numeral number) }
{
    write!(out, "{number}")
}

/// Adds a number in decimal digits.
#[tactic(auto, using(crate::proofs::Numbers::printed_number))]
pub fn push_number(out: &mut String, number: u64) -> Result<(), AllocError>
    ensures { OnOk result (string_bytes out.new ≡ string_bytes out.old ++ numeral number) }
{
    write!(out, "{number}")
}

/// Adds what stands before the element with this number of a list whose elements are separated so.
pub fn push_separator(out: &mut String, separator: &str, index: usize) -> Result<(), AllocError>
    ensures { OnOk result (string_bytes out.new ≡ string_bytes out.old ++ separator_before separator.now index) }
{
    if index > 0 {
        out.push_str(separator)
    } else {
        Ok(())
    }
}

/// Adds a text between double quotes, with escapes.
pub fn push_literal(out: &mut String, text: &Text) -> Result<(), AllocError>
    ensures { OnOk result (string_bytes out.new ≡ string_bytes out.old ++ text_literal text.now) }
{
    out.push_str("\"")?;
    push_characters(out, text.as_str())?;
    out.push_str("\"")
}

/// Adds the characters of a text literal.
fn push_characters(out: &mut String, characters: &str) -> Result<(), AllocError>
    requires { IsText characters.now }
    ensures { OnOk result (string_bytes out.new ≡ string_bytes out.old ++ flat_map literal_character characters.now) }
{
    for character in characters.as_bytes() {
        push_character(out, *character)?;
    }
    Ok(())
}

/// Adds one character of a text literal.
fn push_character(out: &mut String, character: u8) -> Result<(), AllocError>
    requires { IsTextCharacter character }
    ensures { OnOk result (string_bytes out.new ≡ string_bytes out.old ++ literal_character character) }
{
    match character {
        b'"' => out.push_str("\\\""),
        b'\\' => out.push_str("\\\\"),
        b'\n' => out.push_str("\\n"),
        _ => out.push(char::from(character)),
    }
}

/// The name of a kind.
pub fn kind_name(kind: Kind) -> &'static str
    ensures { result.now ≡ kind_name kind }
{
    match kind {
        Kind::Int => "Int",
        Kind::Bool => "Bool",
        Kind::Str => "Str",
        Kind::Sym => "Sym",
        Kind::Kind => "Kind",
        Kind::Proc => "Proc",
        Kind::List => "List",
        Kind::Undef => "Undef",
        Kind::Null => "Null",
    }
}

/// Adds a place, as `main:4`.
pub fn push_place(out: &mut String, place: &Place) -> Result<(), AllocError>
    ensures { OnOk result (string_bytes out.new ≡ string_bytes out.old ++ printed_place place.now) }
{
    out.push_str(place.proc.as_str())?;
    out.push_str(":")?;
    push_number(out, u64::from(place.at))
}
