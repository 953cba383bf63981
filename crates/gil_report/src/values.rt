//! The parts of answers as JSON.
ghost use Rattle.std.specs.Prelude.{◌≡◌, map, IfOk};
ghost use Rattle.serde_json.specs.Data.{array, string};
ghost use Rattle.serde_json.specs.View.{items_of, view};
ghost use Rattle.gil_values.specs.Printed.{printed_value};
ghost use Rattle.gil_values.specs.View.{values_view};
ghost use Rattle.gil_report.specs.Json.{count, counts, texts};
ghost use Rattle.gil_report.specs.Printed.{printed_binding, printed_condition};
ghost use Rattle.gil_report.specs.View.{binding_view, condition_view};

use crate::answers::{Bindings, Conditions};
use crate::print::Print;
use gil_values::Values;
use serde_json::Value as Json;
use std::alloc::{AllocError, Global};

/// What is printed as a text.
pub fn text_value<T: Print>(alloc: Global, item: &T) -> Result<Json, AllocError>
    ensures { IfOk result (λ v. view v ≡ string (T.printed item.now)) }
{
    let mut out = String::new(alloc);
    item.print(&mut out)?;
    Ok(Json::String(out))
}

/// A list of texts.
pub fn texts_value<T: Print>(alloc: Global, items: &[T]) -> Result<Json, AllocError>
    ensures { IfOk result (λ v. view v ≡ texts T.printed items.now) }
{
    let mut list = Vec::new(alloc);
    for item in items {
        list.push(text_value(alloc, item)?)?;
    }
    Ok(Json::Array(list))
}

/// A list of numbers.
pub fn counts_value(alloc: Global, numbers: &[u64]) -> Result<Json, AllocError>
    ensures { IfOk result (λ v. view v ≡ counts numbers.now) }
{
    let mut list = Vec::new(alloc);
    for number in numbers {
        list.push(Json::from(*number))?;
    }
    Ok(Json::Array(list))
}

/// Values as texts.
pub fn inputs_value(alloc: Global, inputs: &Values) -> Result<Json, AllocError>
    ensures { IfOk result (λ v. view v ≡ texts printed_value (values_view inputs.now)) }
{
    let list = texts_value(alloc, inputs.as_slice())?;
    Ok(list)
}

/// Variables and their values as texts.
pub fn bindings_value(alloc: Global, bindings: &Bindings) -> Result<Json, AllocError>
    ensures { IfOk result (λ v. view v ≡ texts printed_binding (map binding_view bindings.now)) }
{
    let list = texts_value(alloc, bindings.as_slice())?;
    Ok(list)
}

/// Conditions as texts.
pub fn conditions_value(alloc: Global, conditions: &Conditions) -> Result<Json, AllocError>
    ensures { IfOk result (λ v. view v ≡ texts printed_condition (map condition_view conditions.now)) }
{
    let list = texts_value(alloc, conditions.as_slice())?;
    Ok(list)
}
