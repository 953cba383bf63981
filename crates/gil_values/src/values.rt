//! Values and lists of values.
ghost use Rattle.std.specs.Prelude.{◌≡◌, ◌++◌, string_bytes, OnOk};
ghost use Rattle.gil_values.specs.View.{value_view, values_view};
ghost use Rattle.gil_values.specs.Pure.{symbol as symbol_value};
ghost use Rattle.gil_values.specs.Printed.{printed_value};
ghost use Rattle.gil_values.specs.Pieces.{printed_list};

use crate::pieces::{kind_name, push_integer, push_literal, push_number, push_separator};
use crate::{Value, Values};
use std::alloc::AllocError;
use std::fmt::Write;

/// Adds the printed form of a value.
#[cycle(print)]
pub fn push_value(out: &mut String, value: &Value) -> Result<(), AllocError>
    ensures { OnOk result (string_bytes out.new ≡ string_bytes out.old ++ printed_value (value_view value.now)) }
{
    match value {
        Value::Int(number) => push_integer(out, *number),
        Value::Bool(truth) => write!(out, "{truth}"),
        Value::Str(text) => push_literal(out, text),
        Value::Sym(symbol) => push_symbol(out, *symbol),
        Value::Kind(kind) => out.push_str(kind_name(*kind)),
        Value::Proc(name) => {
            out.push_str("@")?;
            out.push_str(name.as_str())
        }
        Value::List(values) => push_values(out, values),
    }
}

/// Adds the printed form of a list of values, in its brackets.
#[cycle(print)]
pub fn push_values(out: &mut String, values: &Values) -> Result<(), AllocError>
    ensures { OnOk result (string_bytes out.new ≡ string_bytes out.old ++ printed_list (values_view values.now)) }
{
    out.push_str("[")?;
    for (index, value) in values.as_slice().iter().enumerate() {
        push_separator(out, ", ", index)?;
        push_value(out, value)?;
    }
    out.push_str("]")?;
    Ok(())
}

/// Adds a symbol, as `$4`.
fn push_symbol(out: &mut String, symbol: u64) -> Result<(), AllocError>
    ensures { OnOk result (string_bytes out.new ≡ string_bytes out.old ++ printed_value (symbol_value symbol)) }
{
    out.push_str("$")?;
    push_number(out, symbol)
}
