//! Values.
ghost use Rattle.std.specs.Prelude.{◌≡◌};
ghost use Rattle.gil_values.specs.Pure.{from_list};
ghost use Rattle.gil_values.specs.View.{value_view, values_view};
ghost use Rattle.writable_reports.specs.Tests as test;

use crate::names::{is_name, is_text};
use crate::numbers::{has_64_bits, has_128_bits};
use gil_values::{Value, Values};

/// Whether some text has the value.
#[cycle(value)]
pub(crate) fn is_writable_value(value: &Value) -> bool
    ensures { result ≡ test.is_writable_value (value_view value.now) }
{
    match value {
        Value::Int(number) => has_128_bits(*number),
        Value::Bool(_) => true,
        Value::Str(text) => is_text(text),
        Value::Sym(symbol) => has_64_bits(*symbol),
        Value::Kind(_) => true,
        Value::Proc(name) => is_name(name),
        Value::List(values) => are_writable_values(values),
    }
}

/// Whether some text has each of the values.
#[cycle(value)]
pub(crate) fn are_writable_values(values: &Values) -> bool
    ensures { result ≡ test.are_writable_values (from_list (values_view values.now)) }
{
    for value in values.as_slice() {
        if !is_writable_value(value) {
            return false;
        }
    }
    true
}
