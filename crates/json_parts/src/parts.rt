//! Parts of objects: a text itself, the digits of a number, and lists of these in brackets.
ghost use Rattle.std.specs.Prelude.{◌≡◌, ◌++◌, Some, None, codes, option_map, string_bytes};
ghost use Rattle.value_text.specs.Reading.{Gives};
ghost use Rattle.serde_json.specs.Data.{boolean};
ghost use Rattle.serde_json.specs.Find.{get};
ghost use Rattle.serde_json.specs.View.{items_view, view};
ghost use Rattle.json_parts.specs.Parts as spec;
ghost use Rattle.json_parts.specs.Parts.{Adds};

use gil_values::{push_number, push_separator};
use serde_json::Value as Json;
use value_text::ReadFault;

/// The text of an object with this key.
pub(crate) fn text_at<'a>(key: &str, object: &'a Json) -> Result<&'a str, ReadFault>
    ensures { Gives (λ text. text.now) result (spec.text_at key.now (view object.now)) }
{
    match object.get(key) {
        Some(value) => value.as_str().ok_or(ReadFault::Form),
        None => Err(ReadFault::Form),
    }
}

/// Whether the member of an object with this key is true.
pub(crate) fn is_marked(key: &str, object: &Json) -> bool
    ensures { result ≡ spec.is_marked key.now (view object.now) }
{
    match object.get(key) {
        Some(value) => value.as_bool() == Some(true),
        None => false,
    }
}

/// Adds the part of an object with this key.
pub(crate) fn push_part_at(out: &mut String, key: &str, object: &Json) -> Result<(), ReadFault>
    ensures { Adds (spec.part_at key.now (view object.now)) result (string_bytes out.old) (string_bytes out.new) }
{
    match object.get(key) {
        Some(value) => push_part(out, value),
        None => Err(ReadFault::Form),
    }
}

/// Adds a part.
fn push_part(out: &mut String, value: &Json) -> Result<(), ReadFault>
    ensures { Adds (spec.part (view value.now)) result (string_bytes out.old) (string_bytes out.new) }
{
    match value.as_array() {
        Some(items) => push_list(out, items.as_slice()),
        None => push_leaf(out, value),
    }
}

/// Adds a list in brackets.
fn push_list(out: &mut String, items: &[Json]) -> Result<(), ReadFault>
    ensures { Adds (spec.listed (items_view items.now)) result (string_bytes out.old) (string_bytes out.new) }
{
    out.push_str("[")?;
    push_items(out, items)?;
    out.push_str("]")?;
    Ok(())
}

/// Adds the elements of a list, with commas between them.
fn push_items(out: &mut String, items: &[Json]) -> Result<(), ReadFault>
    ensures { Adds (spec.joined_from 0 (items_view items.now)) result (string_bytes out.old) (string_bytes out.new) }
{
    for (index, item) in items.iter().enumerate() {
        push_separator(out, ", ", index)?;
        push_leaf(out, item)?;
    }
    Ok(())
}

/// Adds a text, or the digits of a number.
fn push_leaf(out: &mut String, value: &Json) -> Result<(), ReadFault>
    ensures { Adds (spec.leaf (view value.now)) result (string_bytes out.old) (string_bytes out.new) }
{
    if let Some(text) = value.as_str() {
        out.push_str(text)?;
        return Ok(());
    }
    let Some(number) = value.as_u64() else {
        return Err(ReadFault::Form);
    };
    push_number(out, number)?;
    Ok(())
}
