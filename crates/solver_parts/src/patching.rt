//! Values for a list with those of a part in their places. What is made here is only proposed.
use gil_values::Value;
use pure_terms::Valuation;
use std::alloc::{AllocError, Global};

/// The values, but those of the part for variables with its numbers, which ascend.
pub(crate) fn patched(
    alloc: Global,
    values: &Valuation,
    numbers: &[usize],
    found: &Valuation,
) -> Result<Valuation, AllocError> {
    let mut all = Valuation::new(alloc);
    let mut next: usize = 0;
    for (number, value) in values.as_slice().iter().enumerate() {
        if is_next(numbers, next, number) {
            all.push(own_value(alloc, numbers, found.get(next), value)?)?;
            next = next.saturating_add(1);
        } else {
            all.push(value.copy(alloc)?)?;
        }
    }
    Ok(all)
}

fn is_next(numbers: &[usize], next: usize, number: usize) -> bool {
    match numbers.get(next) {
        Some(own) => *own == number,
        None => false,
    }
}

/// A value of the part in the list: a symbol goes with the variable whose number it is.
fn own_value(
    alloc: Global,
    numbers: &[usize],
    found: Option<&Value>,
    value: &Value,
) -> Result<Value, AllocError> {
    match found {
        Some(Value::Sym(symbol)) => Ok(Value::Sym(whole_symbol(numbers, *symbol))),
        Some(new) => new.copy(alloc),
        None => value.copy(alloc),
    }
}

fn whole_symbol(numbers: &[usize], symbol: u64) -> u64 {
    match numbers.get(symbol as usize) {
        Some(number) => *number as u64,
        None => symbol,
    }
}
