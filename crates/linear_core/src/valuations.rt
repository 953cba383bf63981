//! Valuations with the numbers that nodes got.
ghost use Rattle.std.specs.Prelude.{◌≡◌, ◌<◌, ◌+◌, ◌^◌, [], length, IfOk};
ghost use Rattle.gil_values.specs.View.{value_view, values_view};
ghost use Rattle.linear_core.specs.Valuations.{counted, value_for, values_from};
ghost use Rattle.linear_core.specs.Walks.{AreModerate};

use crate::walks::Reaches;
use gil_values::{Text, Value, Values};
use pure_terms::{Sort, Valuation, VarTable};
use std::alloc::{AllocError, Global};

fn empty_text(alloc: Global) -> Result<Text, AllocError>
    ensures { IfOk result (λ t. t ≡ []) }
{
    match Text::from_str(alloc, "")? {
        Some(text) => Ok(text),
        None => unreachable!(),
    }
}

/// The number of a variable, or some value of another sort.
fn value_for(alloc: Global, number: i128, variable: usize, sort: Sort) -> Result<Value, AllocError>
    ensures { IfOk result (λ v. value_view v ≡ value_for number variable sort) }
{
    match sort {
        Sort::Int => Ok(Value::Int(number)),
        Sort::Bool => Ok(Value::Bool(false)),
        Sort::Str => Ok(Value::Str(empty_text(alloc)?)),
        Sort::Sym => Ok(Value::Sym(variable as u64)),
        Sort::Fresh => Ok(Value::Sym(variable as u64)),
        Sort::List => Ok(Value::List(Values::new(alloc))),
        Sort::Any => Ok(Value::Bool(false)),
    }
}

/// The number of a variable, counted from that of the node 0.
fn counted(reaches: &Reaches, variable: usize) -> i128
    requires fits { variable + 1 < 2 ^ 64 }
    requires placed { variable + 1 < length reaches.now }
    requires moderate { AreModerate reaches.now }
    ensures { result ≡ counted reaches.now variable }
{
    reaches.at(variable + 1).number - reaches.at(0).number
}

/// The values of all variables of a table.
pub(crate) fn valuation_of(
    alloc: Global,
    vars: &VarTable,
    reaches: &Reaches,
) -> Result<Valuation, AllocError>
    requires same_length { length reaches.now ≡ length vars.now + 1 }
    requires moderate { AreModerate reaches.now }
    ensures { IfOk result (λ v. values_view v ≡ values_from reaches.now 0 vars.now) }
{
    let sorts = vars.as_slice();
    let mut values = Values::new(alloc);
    for (variable, sort) in sorts.iter().enumerate() {
        let number = counted(reaches, variable);
        values.push(value_for(alloc, number, variable, *sort)?)?;
    }
    Ok(values)
}
