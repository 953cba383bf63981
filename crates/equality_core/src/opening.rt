//! Equalities of the elements of equal list terms.
ghost use Rattle.std.specs.Prelude.{◌≡◌, [], ◌∷◌, ◌++◌, map, IfOk, OnOk};
ghost use Rattle.pure_terms.specs.Pure.{from_list, positive};
ghost use Rattle.pure_terms.specs.View.{atoms_view, term_view};
ghost use Rattle.solver_proof.specs.Chains.{equals};
ghost use Rattle.solver_proof.specs.Closing.{element_equalities};
ghost use Rattle.solver_proof.specs.View.{proof_view};
ghost use Rattle.equality_core.specs.Classes.{under_parts};

use gil_values::BinOp;
use pure_terms::{Atom, Atoms, Term};
use solver_proof::Proof;
use std::alloc::{AllocError, Global};
use std::rc::Rc;

/// Adds the equality of two terms to a list.
fn push_equality(
    alloc: Global,
    list: &mut Atoms,
    left: &Term,
    right: &Term,
) -> Result<(), AllocError>
    ensures { OnOk result (atoms_view list.new ≡ atoms_view list.old ++ positive (equals (term_view left.now) (term_view right.now)) ∷ []) }
{
    let left = left.copy(alloc)?;
    let right = right.copy(alloc)?;
    let term = Term::Op2(BinOp::Equal, Rc::new(alloc, left)?, Rc::new(alloc, right)?);
    list.push(Atom::Holds(term))?;
    Ok(())
}

/// Adds the equalities of the elements of two lists of terms to a list.
pub(crate) fn push_elements(
    alloc: Global,
    list: &mut Atoms,
    left: &[Term],
    right: &[Term],
) -> Result<(), AllocError>
    ensures { OnOk result (atoms_view list.new
        ≡ atoms_view list.old ++ element_equalities (from_list (map term_view left.now)) (from_list (map term_view right.now))) }
{
    match left {
        [] => Ok(()),
        [first, left_rest @ ..] => match right {
            [] => Ok(()),
            [second, right_rest @ ..] => {
                push_equality(alloc, list, first, second)?;
                push_elements(alloc, list, left_rest, right_rest)
            }
        },
    }
}

/// A proof over a list with equalities of elements as one over the list without them.
pub(crate) fn under_parts(
    alloc: Global,
    opened: &[usize],
    proof: Proof,
) -> Result<Proof, AllocError>
    ensures { IfOk result (λ p. proof_view p ≡ under_parts opened.now (proof_view proof)) }
{
    match opened {
        [] => Ok(proof),
        [first, rest @ ..] => {
            let inner = under_parts(alloc, rest, proof)?;
            Ok(Proof::Parts(*first, Some(Box::new(alloc, inner)?)))
        }
    }
}
