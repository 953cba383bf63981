//! The names that a record or an object lists: distinct texts.
ghost use Rattle.std.specs.Prelude.{◌≡◌, map, IfOk};
ghost use Rattle.std.specs.List.{list_any};
ghost use Rattle.gil_values.specs.Pure.{text};
ghost use Rattle.gil_values.specs.Equality.{same_value};
ghost use Rattle.gil_values.specs.View.{value_view, values_view};
ghost use Rattle.mem_model.specs.Names.{lists_name};
ghost use Rattle.mem_model.specs.Tables.{texts_of, names_of, name_keys};

use crate::keys::Key;
use gil_values::{Text, Value, Values};
use std::alloc::{AllocError, Global};

/// Whether the name is one of the values.
pub fn lists(values: &[Value], name: &Text) -> bool
    ensures { result ≡ list_any (same_value (text name.now)) (map value_view values.now) }
{
    for value in values {
        if is_name(value, name) {
            return true;
        }
    }
    false
}

/// The keys of the location's properties that have the texts among the values as their names, in this order.
pub fn keys_of_names(alloc: Global, location: u64, names: &[Value]) -> Result<Vec<Key>, AllocError>
    ensures { IfOk result (λ ks. ks.items ≡ name_keys location (texts_of (map value_view names.now))) }
{
    let mut keys = Vec::new(alloc);
    for value in names {
        if let Value::Str(name) = value {
            keys.push(Key::property(alloc, location, name)?)?;
        }
    }
    Ok(keys)
}

/// Whether the name is one of a list of names.
pub fn is_listed(names: &Value, name: &Text) -> bool
    ensures { result ≡ lists_name (value_view names.now) name.now }
{
    match names {
        Value::List(names) => lists(names.as_slice(), name),
        _ => false,
    }
}

/// The keys of the location's properties that have the names of a list, in its order.
pub fn keys_of_list(alloc: Global, location: u64, names: &Value) -> Result<Vec<Key>, AllocError>
    ensures { IfOk result (λ ks. ks.items ≡ name_keys location (names_of (value_view names.now))) }
{
    match names {
        Value::List(names) => keys_of_names(alloc, location, names.as_slice()),
        _ => Ok(Vec::new(alloc)),
    }
}

/// Whether the value is the name.
pub fn is_name(value: &Value, name: &Text) -> bool
    ensures { result ≡ same_value (text name.now) (value_view value.now) }
{
    match value {
        Value::Str(text) => *name == *text,
        _ => false,
    }
}
