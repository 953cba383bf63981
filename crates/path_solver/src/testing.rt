//! Testing what was found on atoms as they were given.
ghost use Rattle.std.specs.Prelude.{◌≡◌, true, IfOk, IsTrue};
ghost use Rattle.gil_values.specs.View.{values_view};
ghost use Rattle.pure_terms.specs.Meaning.{truth, all_true};
ghost use Rattle.pure_terms.specs.View.{atom_view, atoms_view};

use pure_terms::{Atom, Atoms, HoldsFault, Valuation, holds};
use std::alloc::{AllocError, Global};

/// Whether an atom is surely true under a valuation. Where a number is too wide to tell, it isn't.
fn is_true(alloc: Global, atom: &Atom, valuation: &Valuation) -> Result<bool, AllocError>
    ensures { IfOk result (λ b. IsTrue b → truth (values_view valuation.now) (atom_view atom.now) ≡ true) }
{
    match holds(alloc, atom, valuation) {
        Ok(truth) => Ok(truth),
        Err(HoldsFault::Number) => Ok(false),
        Err(HoldsFault::Memory) => Err(AllocError),
    }
}

/// Whether every atom is surely true under a valuation.
pub(crate) fn are_true(
    alloc: Global,
    atoms: &Atoms,
    valuation: &Valuation,
) -> Result<bool, AllocError>
    ensures { IfOk result (λ b. IsTrue b → all_true (values_view valuation.now) (atoms_view atoms.now) ≡ true) }
{
    for atom in atoms.as_slice() {
        if !is_true(alloc, atom, valuation)? {
            return Ok(false);
        }
    }
    Ok(true)
}
