//! What gives proofs.
ghost use Rattle.std.specs.Prelude.{IfOk};
ghost use Rattle.std.specs.Option.{option_map};
ghost use Rattle.pure_terms.specs.Meaning.{AreOver};
ghost use Rattle.pure_terms.specs.View.{atoms_view};
ghost use Rattle.solver_proof.specs.Refuting.{RefutesRightly};
ghost use Rattle.solver_proof.specs.View.{proof_view};

use crate::proofs::Proof;
use pure_terms::{Atoms, Decider, VarTable};
use std::alloc::{AllocError, Global};

/// A decider that proves what it refutes.
pub trait Refuter: Decider {
    /// A proof that closes the list, and None only where the list isn't in the fragment or some proper valuation makes
    /// every atom true.
    fn refute(
        &mut self,
        alloc: Global,
        vars: &VarTable,
        atoms: &Atoms,
    ) -> Result<Option<Proof>, AllocError>
        requires { AreOver vars.now (atoms_view atoms.now) }
        ensures { IfOk result (λ found. RefutesRightly vars.now (atoms_view atoms.now) (option_map proof_view found)) };
}
