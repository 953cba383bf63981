//! Changes of an object's list of names.
ghost use Rattle.std.specs.Prelude.{◌≡◌, ◌++◌, map, not, filter, IfOk};
ghost use Rattle.gil_values.specs.Pure.{text};
ghost use Rattle.gil_values.specs.Equality.{same_value};
ghost use Rattle.gil_values.specs.View.{value_view, values_view};
ghost use Rattle.object_heap.specs.Table.{appended, without_name};

use gil_values::{Text, Value, Values};
use mem_model::names::is_name;
use std::alloc::{AllocError, Global};

/// The list of names with a name at its end.
pub fn with_name(alloc: Global, names: &Value, name: &Text) -> Result<Value, AllocError>
    ensures { IfOk result (λ d. value_view d ≡ appended (value_view names.now) name.now) }
{
    match names {
        Value::List(names) => {
            let mut longer = names.copy(alloc)?;
            longer.push(Value::Str(name.copy(alloc)?))?;
            Ok(Value::List(longer))
        }
        _ => names.copy(alloc),
    }
}

/// The list of names without a name.
pub fn without(alloc: Global, names: &Value, name: &Text) -> Result<Value, AllocError>
    ensures { IfOk result (λ d. value_view d ≡ without_name (value_view names.now) name.now) }
{
    match names {
        Value::List(names) => Ok(Value::List(others(alloc, names.as_slice(), name)?)),
        _ => names.copy(alloc),
    }
}

/// The values other than the name.
fn others(alloc: Global, values: &[Value], name: &Text) -> Result<Values, AllocError>
    ensures { IfOk result (λ vs. values_view vs ≡ filter (λ v. not (same_value (text name.now) v)) (map value_view values.now)) }
{
    let mut kept = Values::new(alloc);
    for value in values {
        if !is_name(value, name) {
            kept.push(value.copy(alloc)?)?;
        }
    }
    Ok(kept)
}
