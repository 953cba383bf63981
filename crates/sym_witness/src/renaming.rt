//! Other names for symbols.
ghost use Rattle.std.specs.Prelude.{◌≡◌, map, IfOk};
ghost use Rattle.gil_values.specs.View.{value_view, values_view};
ghost use Rattle.pure_terms.specs.Renaming.{renamed};
ghost use Rattle.sym_witness.specs.Numbering.{place_in};

use gil_values::{Value, Values};
use std::alloc::{AllocError, Global};

/// The first place of a number in a list, or the length of the list.
fn place_of(numbers: &[u64], number: u64) -> usize
    ensures { result ≡ place_in numbers.now number }
{
    for place in 0..numbers.len() {
        if numbers[place] == number {
            return place;
        }
    }
    numbers.len()
}

/// The value with each symbol given its place among the names.
#[cycle(rename)]
fn rename(alloc: Global, names: &[u64], value: &Value) -> Result<Value, AllocError>
    ensures { IfOk result (λ w. value_view w ≡ renamed (place_in names.now) (value_view value.now)) }
{
    match value {
        Value::Sym(symbol) => Ok(Value::Sym(place_of(names, *symbol) as u64)),
        Value::List(values) => Ok(Value::List(rename_all(alloc, names, values)?)),
        Value::Int(n) => Ok(Value::Int(*n)),
        Value::Bool(b) => Ok(Value::Bool(*b)),
        Value::Str(text) => Ok(Value::Str(text.copy(alloc)?)),
        Value::Kind(kind) => Ok(Value::Kind(*kind)),
        Value::Proc(name) => Ok(Value::Proc(name.copy(alloc)?)),
    }
}

/// The values with each symbol given its place among the names.
#[cycle(rename)]
pub(crate) fn rename_all(
    alloc: Global,
    names: &[u64],
    values: &Values,
) -> Result<Values, AllocError>
    ensures { IfOk result (λ ws. values_view ws ≡ map (renamed (place_in names.now)) (values_view values.now)) }
{
    let mut renamed = Values::new(alloc);
    for value in values.as_slice() {
        renamed.push(rename(alloc, names, value)?)?;
    }
    Ok(renamed)
}
