//! Canonical valuations, and the inputs that they stand for.
ghost use Rattle.std.specs.Prelude.{◌≡◌, ◌<◌, ◌^◌, ◌-◌, List, ◌∷◌, if◌then◌else◌, length, slice_get, Some, IfOk, IsTrue};
ghost use Rattle.gil_values.specs.Pure.{PureValue};
ghost use Rattle.gil_values.specs.View.{value_view, values_view};
ghost use Rattle.pure_terms.specs.Deciding.{has_moderate_numbers};
ghost use Rattle.pure_terms.specs.Meaning.{AreOver, Satisfies};
ghost use Rattle.pure_terms.specs.Naming.{names_number};
ghost use Rattle.pure_terms.specs.Pure.{term_of};
ghost use Rattle.pure_terms.specs.View.{atom_view, atoms_view};
ghost use Rattle.std.specs.List.{list_all, list_any};
ghost use Rattle.sym_model.specs.Lists.{Each};
ghost use Rattle.sym_paths.specs.Steps.{IsNewSort, counter_after};
ghost use Rattle.sym_test.specs.Canonical.{blank, draw_and, draws_among, IsAt, IsCanonical};

use gil_values::{Text, Value, Values};
use pure_terms::{Atom, Atoms, Sort, Valuation, VarTable};
use std::alloc::{AllocError, Global};

fn names(atom: &Atom, number: u64) -> bool
    ensures { result ≡ names_number number (term_of (atom_view atom.now)) }
{
    atom.term().names(number)
}

/// Whether some atom names the variable with a number.
fn is_named(atoms: &Atoms, number: u64) -> bool
    ensures { result ≡ list_any (λ a. names_number number (term_of (atom_view a))) atoms.now }
{
    atoms.iter().any(|atom| names(atom, number))
}

/// A draw that nothing says anything of.
fn blank(alloc: Global, sort: Sort) -> Result<Value, AllocError>
    ensures { IfOk result (λ w. value_view w ≡ blank sort) }
{
    match sort {
        Sort::Int => Ok(Value::Int(0)),
        Sort::Bool => Ok(Value::Bool(false)),
        Sort::Str | Sort::Sym | Sort::Fresh | Sort::List | Sort::Any => {
            match Text::from_str(alloc, "")? {
                Some(text) => Ok(Value::Str(text)),
                None => unreachable!(),
            }
        }
    }
}

/// The value of a draw: the one that was found, where an atom names it.
fn draw(alloc: Global, sort: Sort, named: bool, found: &Value) -> Result<Value, AllocError>
    ensures { IfOk result (λ w. value_view w ≡ (if named then value_view found.now else blank sort)) }
{
    if named {
        return found.copy(alloc);
    }
    blank(alloc, sort)
}

/// The value of a variable of a sort, where the next new symbol has this number.
fn choose(
    alloc: Global,
    sort: Sort,
    next: u64,
    named: bool,
    found: &Value,
) -> Result<Value, AllocError>
    ensures { IfOk result (λ w. IsAt named next sort (value_view found.now) (value_view w)) }
{
    match sort {
        Sort::Fresh => Ok(Value::Sym(next)),
        Sort::Int | Sort::Bool | Sort::Str | Sort::Sym | Sort::List | Sort::Any => {
            draw(alloc, sort, named, found)
        }
    }
}

/// The number of the next new symbol after a variable of a sort.
fn count(sort: Sort, next: u64) -> u64
    requires { next < 2 ^ 64 - 1 }
    ensures { result ≡ counter_after sort next }
{
    match sort {
        Sort::Fresh => next + 1,
        Sort::Int | Sort::Bool | Sort::Str | Sort::Sym | Sort::List | Sort::Any => next,
    }
}

/// The canonical valuation that meets what another one meets.
pub(crate) fn canonical_valuation(
    alloc: Global,
    vars: &VarTable,
    atoms: &Atoms,
    found: &Valuation,
) -> Result<Valuation, AllocError>
    requires sorts { Each IsNewSort vars.now }
    requires over { AreOver vars.now (atoms_view atoms.now) }
    requires meets { Satisfies vars.now (values_view found.now) (atoms_view atoms.now) }
    ensures canonical { IfOk result (λ w. IsCanonical vars.now (atoms_view atoms.now) (values_view w)) }
    ensures moderate { IfOk result (λ w. IsTrue (list_all has_moderate_numbers (values_view found.now))
        → IsTrue (list_all has_moderate_numbers (values_view w))) }
{
    let sorts = vars.as_slice();
    let values = found.as_slice();
    let mut chosen = Values::new(alloc);
    let mut next: u64 = 0;
    for number in 0..sorts.len() {
        let sort = sorts[number];
        let named = is_named(atoms, number as u64);
        chosen.push(choose(alloc, sort, next, named, &values[number])?)?;
        next = count(sort, next);
    }
    Ok(chosen)
}

/// The values of the draws, in order.
pub(crate) fn draws_among(
    alloc: Global,
    vars: &VarTable,
    valuation: &Valuation,
) -> Result<Values, AllocError>
    requires { length (values_view valuation.now) ≡ length vars.now }
    ensures { IfOk result (λ inputs. values_view inputs ≡ draws_among vars.now (values_view valuation.now)) }
{
    let sorts = vars.as_slice();
    let values = valuation.as_slice();
    let mut inputs = Values::new(alloc);
    for number in 0..sorts.len() {
        if is_draw(sorts[number]) {
            inputs.push(values[number].copy(alloc)?)?;
        }
    }
    Ok(inputs)
}

fn is_draw(sort: Sort) -> bool
    ensures { (w : PureValue) (later : List PureValue) → draw_and sort w later ≡ (if result then w ∷ later else later) }
{
    match sort {
        Sort::Fresh => false,
        Sort::Int | Sort::Bool | Sort::Str | Sort::Sym | Sort::List | Sort::Any => true,
    }
}
