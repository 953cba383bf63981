//! Values of which it is easy to see that they are proper: the symbol of a variable is that of one with no greater number.
ghost use Rattle.std.specs.Prelude.{◌≡◌, ◌&&◌, ◌||◌, not, IsTrue};
ghost use Rattle.gil_values.specs.View.{value_view, values_view};
ghost use Rattle.pure_terms.specs.Kinds.{has_sort, same_sort};
ghost use Rattle.solver_guess.specs.Tame.{is_tame, is_own_symbol, is_tame_for, AreTame};

use gil_values::Value;
use pure_terms::{Sort, Valuation, VarTable};

/// The least and the greatest number that a decider gives.
const LEAST: i128 = -42_535_295_865_117_307_932_921_825_928_971_026_432;

const GREATEST: i128 = 42_535_295_865_117_307_932_921_825_928_971_026_432;

/// Whether a value has a moderate number, or a symbol that may be the variable's, or neither.
fn is_tame(variable: usize, value: &Value) -> bool
    ensures { result ≡ is_tame variable (value_view value.now) }
{
    match value {
        Value::Int(number) => LEAST <= *number && *number <= GREATEST,
        Value::Sym(number) => *number <= variable as u64,
        Value::List(_) => false,
        Value::Bool(_) => true,
        Value::Str(_) => true,
        Value::Kind(_) => true,
        Value::Proc(_) => true,
    }
}

fn is_own_symbol(variable: usize, value: &Value) -> bool
    ensures { result ≡ is_own_symbol variable (value_view value.now) }
{
    match value {
        Value::Sym(number) => *number == variable as u64,
        _ => false,
    }
}

fn has_sort(sort: Sort, value: &Value) -> bool
    ensures { result ≡ has_sort sort (value_view value.now) }
{
    match sort.kind() {
        Some(kind) => kind == value.kind(),
        None => true,
    }
}

fn is_fresh(sort: Sort) -> bool
    ensures { result ≡ same_sort sort Sort.Fresh }
{
    sort == Sort::Fresh
}

fn is_tame_for(variable: usize, sort: Sort, value: &Value) -> bool
    ensures { result ≡ is_tame_for variable sort (value_view value.now) }
{
    if !has_sort(sort, value) {
        return false;
    }
    if is_fresh(sort) {
        return is_own_symbol(variable, value);
    }
    is_tame(variable, value)
}

/// Whether there is such a value for each variable of a table.
pub(crate) fn are_tame(vars: &VarTable, values: &Valuation) -> bool
    ensures { IsTrue result → AreTame vars.now (values_view values.now) }
{
    if vars.len() != values.len() {
        return false;
    }
    for (variable, sort) in vars.as_slice().iter().enumerate() {
        match values.get(variable) {
            Some(value) => {
                if !is_tame_for(variable, *sort, value) {
                    return false;
                }
            }
            None => return false,
        }
    }
    true
}
