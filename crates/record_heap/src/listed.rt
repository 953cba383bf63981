//! The names that a record is made with.
ghost use Rattle.std.specs.Prelude.{◌≡◌, map, false, IfOk, MatchOption};
ghost use Rattle.gil_values.specs.Pure.{text};
ghost use Rattle.gil_values.specs.View.{value_view};
ghost use Rattle.mem_model.specs.Names.{is_text, are_distinct_texts};

use gil_values::Value;
use std::alloc::{AllocError, Global};
use std::collections::HashSet;

/// The text that a value is.
fn text_of(value: &Value) -> Option<&str>
    ensures { MatchOption result (is_text (value_view value.now) ≡ false) (λ name. value_view value.now ≡ text name.now) }
{
    match value {
        Value::Str(text) => Some(text.as_str()),
        _ => None,
    }
}

/// Whether the values are texts, no two of which are the same. Each text is looked up once among those before it.
pub fn distinct_texts(alloc: Global, values: &[Value]) -> Result<bool, AllocError>
    ensures { IfOk result (λ b. b ≡ are_distinct_texts (map value_view values.now)) }
{
    let mut before = HashSet::new(alloc);
    for value in values {
        let Some(name) = text_of(value) else {
            return Ok(false);
        };
        if !before.insert(name)? {
            return Ok(false);
        }
    }
    Ok(true)
}
