//! Values that another list had, as values for this one.
ghost use Rattle.std.specs.Prelude.{IfOk, IfSome};
ghost use Rattle.gil_values.specs.View.{values_view};
ghost use Rattle.pure_terms.specs.View.{atoms_view};
ghost use Rattle.solver_guess.specs.Guesses.{IsModel};

use crate::moving::{Side, is_broken_at, moved};
use gil_values::{Kind, Text, Value};
use pure_terms::{Atoms, Sort, Valuation, VarTable};
use solver_guess::is_model;
use std::alloc::{AllocError, Global};

/// The sides of comparisons that are moved first.
const SIDES: [Side; 2] = [Side::Left, Side::Right];

/// The values that are there, for the variables of a table whose sorts they have, and usual ones for the others.
pub fn fitted(alloc: Global, vars: &VarTable, values: &Valuation) -> Result<Valuation, AllocError> {
    let mut all = Valuation::new(alloc);
    for (number, sort) in vars.as_slice().iter().enumerate() {
        all.push(fitted_value(alloc, number, *sort, values.get(number))?)?;
    }
    Ok(all)
}

fn fitted_value(
    alloc: Global,
    number: usize,
    sort: Sort,
    value: Option<&Value>,
) -> Result<Value, AllocError> {
    match value {
        Some(value) if fits(sort, value) => value.copy(alloc),
        _ => usual_value(alloc, number, sort),
    }
}

fn fits(sort: Sort, value: &Value) -> bool {
    match sort.kind() {
        Some(kind) => kind == value.kind() && sort != Sort::Fresh,
        None => true,
    }
}

fn usual_value(alloc: Global, number: usize, sort: Sort) -> Result<Value, AllocError> {
    match sort {
        Sort::Int => Ok(Value::Int(0)),
        Sort::Bool => Ok(Value::Bool(false)),
        Sort::Str => Ok(empty_text(alloc)?),
        Sort::Sym => Ok(Value::Sym(number as u64)),
        Sort::Fresh => Ok(Value::Sym(number as u64)),
        Sort::List => Ok(Value::Kind(Kind::List)),
        Sort::Any => Ok(Value::Int(0)),
    }
}

fn empty_text(alloc: Global) -> Result<Value, AllocError> {
    match Text::from_str(alloc, "")? {
        Some(text) => Ok(Value::Str(text)),
        None => Ok(Value::Int(0)),
    }
}

/// The values themselves, if they satisfy a list.
fn same_values(
    alloc: Global,
    vars: &VarTable,
    atoms: &Atoms,
    values: &Valuation,
) -> Result<Option<Valuation>, AllocError>
    ensures { IfOk result (λ found. IfSome found (λ v. IsModel vars.now (atoms_view atoms.now) (values_view v))) }
{
    if is_model(alloc, vars, atoms, values)? {
        Ok(Some(values.copy(alloc)?))
    } else {
        Ok(None)
    }
}

/// Values that satisfy a list and are near to these: the same, or some of them moved. These values are taken to satisfy so many first
/// atoms, which aren't gone over to find those that they break.
pub fn near_values(
    alloc: Global,
    vars: &VarTable,
    atoms: &Atoms,
    values: &Valuation,
    held: usize,
) -> Result<Option<Valuation>, AllocError>
    ensures { IfOk result (λ found. IfSome found (λ v. IsModel vars.now (atoms_view atoms.now) (values_view v))) }
{
    let broken = broken_since(alloc, atoms, values, held)?;
    if broken.len() == 0 {
        return same_values(alloc, vars, atoms, values);
    }
    for side in SIDES.as_slice() {
        let found = moved_values(alloc, vars, atoms, values, broken.as_slice(), *side)?;
        if found.is_some() {
            return Ok(found);
        }
    }
    Ok(None)
}

/// The places, from one on, of the atoms that values break.
pub(crate) fn broken_since(
    alloc: Global,
    atoms: &Atoms,
    values: &Valuation,
    first: usize,
) -> Result<Vec<usize>, AllocError> {
    let mut broken: Vec<usize> = Vec::new(alloc);
    for place in first..atoms.len() {
        if is_broken_at(alloc, atoms, values, place)? {
            broken.push(place)?;
        }
    }
    Ok(broken)
}

/// Values that satisfy a list, of which such sides of the comparisons at these places were moved first.
fn moved_values(
    alloc: Global,
    vars: &VarTable,
    atoms: &Atoms,
    values: &Valuation,
    broken: &[usize],
    side: Side,
) -> Result<Option<Valuation>, AllocError>
    ensures { IfOk result (λ found. IfSome found (λ v. IsModel vars.now (atoms_view atoms.now) (values_view v))) }
{
    match moved(alloc, atoms, values, broken, side)? {
        Some(found) => tested(alloc, vars, atoms, found),
        None => Ok(None),
    }
}

/// The values, if they satisfy a list.
pub(crate) fn tested(
    alloc: Global,
    vars: &VarTable,
    atoms: &Atoms,
    values: Valuation,
) -> Result<Option<Valuation>, AllocError>
    ensures { IfOk result (λ found. IfSome found (λ v. IsModel vars.now (atoms_view atoms.now) (values_view v))) }
{
    if is_model(alloc, vars, atoms, &values)? {
        Ok(Some(values))
    } else {
        Ok(None)
    }
}
