//! Solved forms.
ghost use Rattle.pure_terms.specs.View.{atoms_view};
ghost use Rattle.equality_core.specs.Equating.{EquatesNoClash, HaveFragmentForms};

use crate::closing::{Closing, close};
use crate::copying::{copy_of, push_disequality};
use crate::linking::linked;
use pure_terms::{Atoms, Term, VarTable};
use solver_proof::Proof;
use std::alloc::{AllocError, Global};

/// Equalities that were taken in without a clash. Contracts see the table of their variables by `table`, and the list of which
/// they are by `equalities`.
#[derive(Drop)]
pub struct SolvedForm {
    pub(crate) vars: VarTable,
    pub(crate) atoms: Atoms,
    ghost no_clash: { HaveFragmentForms (atoms_view atoms) → EquatesNoClash (atoms_view atoms) },
}

impl SolvedForm {
    ghost use Rattle.std.specs.Prelude.{IfOk};
    ghost use Rattle.std.specs.Option.{option_map};
    ghost use Rattle.pure_terms.specs.View.{term_view};
    ghost use Rattle.solver_proof.specs.View.{proof_view};
    ghost use Rattle.equality_core.specs.Solved.{equalities, IsLinked};

    /// A proof that the equalities make two terms equal: it closes their list with the disequality of the two appended.
    pub fn link(&self, alloc: Global, s: &Term, t: &Term) -> Result<Option<Proof>, AllocError>
        ensures { IfOk result (λ found. IsLinked (equalities self.now) (term_view s.now) (term_view t.now) (option_map proof_view found)) }
    {
        let place = self.atoms.len();
        let mut list = copy_of(alloc, &self.atoms)?;
        push_disequality(alloc, &mut list, s, t)?;
        match close(alloc, list)? {
            Closing::Whole(classes) => linked(alloc, &classes, s, t, place),
            Closing::Clash(_) => Ok(None),
        }
    }
}

/// What is known of equalities.
#[derive(Drop)]
pub enum Solved {
    Form(SolvedForm),
    /// The equalities can't all be true.
    Clash(Proof),
}
