//! The symbols of values.
ghost use Rattle.std.specs.Prelude.{◌≡◌, ◌++◌, length, IfOk, OnOk};
ghost use Rattle.gil_values.specs.Symbols.{symbols, symbols_of_all};
ghost use Rattle.gil_values.specs.View.{value_view, values_view};
ghost use Rattle.sym_witness.specs.Numbering.{fresh_symbol, fresh_symbols};

use gil_values::{Value, Values};
use pure_terms::{Sort, Valuation, VarTable};
use std::alloc::{AllocError, Global};

/// Adds the symbols of a value.
#[cycle(symbols)]
fn add_symbols(found: &mut Vec<u64>, value: &Value) -> Result<(), AllocError>
    ensures { OnOk result (found.new.items ≡ found.old.items ++ symbols (value_view value.now)) }
{
    match value {
        Value::Sym(symbol) => {
            found.push(*symbol)?;
            Ok(())
        }
        Value::List(values) => {
            add_all_symbols(found, values)?;
            Ok(())
        }
        Value::Int(_) => Ok(()),
        Value::Bool(_) => Ok(()),
        Value::Str(_) => Ok(()),
        Value::Kind(_) => Ok(()),
        Value::Proc(_) => Ok(()),
    }
}

/// Adds the symbols of values, in order.
#[cycle(symbols)]
pub(crate) fn add_all_symbols(found: &mut Vec<u64>, values: &Values) -> Result<(), AllocError>
    ensures { OnOk result (found.new.items ≡ found.old.items ++ symbols_of_all (values_view values.now)) }
{
    for value in values.as_slice() {
        add_symbols(found, value)?;
    }
    Ok(())
}

/// Adds the symbol of a fresh variable.
fn add_fresh(found: &mut Vec<u64>, sort: Sort, value: &Value) -> Result<(), AllocError>
    ensures { OnOk result (found.new.items ≡ found.old.items ++ fresh_symbol sort (value_view value.now)) }
{
    match sort {
        Sort::Fresh => match value {
            Value::Sym(symbol) => {
                found.push(*symbol)?;
                Ok(())
            }
            Value::Int(_) => Ok(()),
            Value::Bool(_) => Ok(()),
            Value::Str(_) => Ok(()),
            Value::Kind(_) => Ok(()),
            Value::Proc(_) => Ok(()),
            Value::List(_) => Ok(()),
        },
        Sort::Int | Sort::Bool | Sort::Str | Sort::Sym | Sort::List | Sort::Any => Ok(()),
    }
}

/// The symbols of the fresh variables, in order.
pub(crate) fn fresh_symbols(
    alloc: Global,
    vars: &VarTable,
    valuation: &Valuation,
) -> Result<Vec<u64>, AllocError>
    requires { length (values_view valuation.now) ≡ length vars.now }
    ensures { IfOk result (λ found. found.items ≡ fresh_symbols vars.now (values_view valuation.now)) }
{
    let sorts = vars.as_slice();
    let values = valuation.as_slice();
    let mut found = Vec::new(alloc);
    for number in 0..sorts.len() {
        add_fresh(&mut found, sorts[number], &values[number])?;
    }
    Ok(found)
}
