//! Testing values on a list.
ghost use Rattle.std.specs.Prelude.{◌≡◌, true, IfOk, IsTrue};
ghost use Rattle.gil_values.specs.View.{values_view};
ghost use Rattle.pure_terms.specs.Meaning.{truth, all_true};
ghost use Rattle.pure_terms.specs.View.{atom_view, atoms_view};
ghost use Rattle.solver_guess.specs.Guesses.{IsModel};

use crate::comparing::is_true_comparison;
use crate::proper::are_tame;
use pure_terms::{Atom, Atoms, HoldsFault, Valuation, VarTable, holds};
use std::alloc::{AllocError, Global};

/// Whether an atom is surely true under a valuation. Where a number is too wide to tell, it isn't.
fn is_true(alloc: Global, atom: &Atom, valuation: &Valuation) -> Result<bool, AllocError>
    ensures { IfOk result (λ b. IsTrue b → truth (values_view valuation.now) (atom_view atom.now) ≡ true) }
{
    if is_true_comparison(atom, valuation) {
        return Ok(true);
    }
    match holds(alloc, atom, valuation) {
        Ok(truth) => Ok(truth),
        Err(HoldsFault::Number) => Ok(false),
        Err(HoldsFault::Memory) => Err(AllocError),
    }
}

/// Whether every atom is surely true under a valuation.
fn are_true(alloc: Global, atoms: &Atoms, valuation: &Valuation) -> Result<bool, AllocError>
    ensures { IfOk result (λ b. IsTrue b → all_true (values_view valuation.now) (atoms_view atoms.now) ≡ true) }
{
    for atom in atoms.as_slice() {
        if !is_true(alloc, atom, valuation)? {
            return Ok(false);
        }
    }
    Ok(true)
}

/// Whether values are surely a model of a list.
pub fn is_model(
    alloc: Global,
    vars: &VarTable,
    list: &Atoms,
    values: &Valuation,
) -> Result<bool, AllocError>
    ensures { IfOk result (λ b. IsTrue b → IsModel vars.now (atoms_view list.now) (values_view values.now)) }
{
    if !are_tame(vars, values) {
        return Ok(false);
    }
    are_true(alloc, list, values)
}
