//! The refutation of preconditions.
ghost use Rattle.std.specs.Prelude.{IfOk, IfSome};
ghost use Rattle.std.specs.Option.{option_map};
ghost use Rattle.gil_syntax.specs.View.{spec_view};
ghost use Rattle.solver_proof.specs.Refuting.{RefutesRightly};
ghost use Rattle.solver_proof.specs.View.{proof_view};
ghost use Rattle.spec_vacuity.specs.Translation.{precondition_atoms, precondition_table};
ghost use Rattle.spec_vacuity.specs.Vacuity.{HasNoStart};

use crate::atoms::atoms_of;
use crate::variables::{table_of, variables_of};
use gil_syntax::Spec;
use solver_proof::{Proof, Refuter, closed_lists_have_no_solution};
use std::alloc::{AllocError, Global};

/// A proof that nothing makes the precondition's pure items true. Then no checked run of the specification begins.
pub fn vacuous<R: Refuter>(
    alloc: Global,
    spec: &Spec,
    refuter: &mut R,
) -> Result<Option<Proof>, AllocError>
    ensures refutes { IfOk result
        (λ found. RefutesRightly (precondition_table (spec_view spec.now)) (precondition_atoms (spec_view spec.now)) (option_map proof_view found)) }
    ensures vacuous { IfOk result (λ found. IfSome found (λ _. HasNoStart (spec_view spec.now))) }
{
    closed_lists_have_no_solution();
    let variables = variables_of(alloc, spec)?;
    let table = table_of(alloc, &variables)?;
    let atoms = atoms_of(alloc, &variables, &spec.pre)?;
    refuter.refute(alloc, &table, &atoms)
}
