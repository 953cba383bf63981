//! Sums with their factors in the order of the list, which is how a reader looks for them.
ghost use Rattle.std.specs.Prelude.{IfOk};
ghost use Rattle.pure_terms.specs.View.{atoms_view};
ghost use Rattle.solver_proof.specs.Closing.{Closes};
ghost use Rattle.solver_proof.specs.View.{proof_view};

use pure_terms::{Atoms, VarTable};
use solver_proof::{Factor, Factors, Proof, accepts};
use std::alloc::{AllocError, Global};

/// The factor of the atom at a place.
fn factor_at(factors: &Factors, place: usize) -> Option<Factor> {
    for factor in factors.as_slice() {
        if factor.atom == place {
            return Some(*factor);
        }
    }
    None
}

/// The factors of a sum by the places of their atoms.
fn by_places(alloc: Global, atoms: usize, factors: &Factors) -> Result<Factors, AllocError> {
    let mut ordered = Factors::new(alloc);
    for place in 0..atoms {
        if let Some(factor) = factor_at(factors, place) {
            ordered.push(factor)?;
        }
    }
    Ok(ordered)
}

/// So many factors are put in order. To test the sum of more takes long, and they stay as the cycle has them, each row beside the
/// next.
const MANY: usize = 100;

/// A proof that closes the list, of which a sum of few rows is in the order of the list.
pub(crate) fn in_order(
    alloc: Global,
    vars: &VarTable,
    list: &Atoms,
    proof: Proof,
) -> Result<Proof, AllocError>
    requires { Closes vars.now (atoms_view list.now) (proof_view proof) }
    ensures { IfOk result (λ p. Closes vars.now (atoms_view list.now) (proof_view p)) }
{
    let Proof::Sum(factors) = &proof else {
        return Ok(proof);
    };
    if MANY < factors.len() {
        return Ok(proof);
    }
    let ordered = Proof::Sum(by_places(alloc, list.len(), factors)?);
    if accepts(vars, list, &ordered) {
        return Ok(ordered);
    }
    Ok(proof)
}
