//! Proofs over the list to which the equalities of elements were added.
ghost use Rattle.std.specs.Prelude.{List, IfOk};
ghost use Rattle.pure_terms.specs.declared.variables.Sort.{Sort};
ghost use Rattle.solver_proof.specs.Closing.{Closes};
ghost use Rattle.solver_proof.specs.View.{proof_view};
ghost use Rattle.equality_core.specs.Classes.{classes_view, given_list};
ghost use Rattle.equality_core.specs.Classified.{IsWhole};

use crate::classes::Classes;
use crate::opening::under_parts;
use solver_proof::Proof;
use std::alloc::{AllocError, Global};

impl Classes {
    /// A proof over the list as one over the list that was given.
    pub fn proof_of_given(&self, alloc: Global, proof: Proof) -> Result<Proof, AllocError>
        requires { IsWhole (classes_view self.now) }
        ensures { IfOk result (λ p. (vars : List Sort) → Closes vars (classes_view self.now).list (proof_view proof)
            → Closes vars (given_list (classes_view self.now)) (proof_view p)) }
    {
        under_parts(alloc, self.opened.as_slice(), proof)
    }
}
