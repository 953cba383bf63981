//! Solving equalities.
ghost use Rattle.std.specs.Prelude.{◌≡◌, IfOk, OnErr};
ghost use Rattle.std.specs.Option.{option_map};
ghost use Rattle.pure_terms.specs.View.{atom_view, atoms_view};
ghost use Rattle.solver_proof.specs.View.{proof_view};
ghost use Rattle.equality_core.specs.Solved.{IsSolved, IsExtended};

use crate::closing::{Closing, close};
use crate::copying::{copy_of, copy_of_table};
use crate::forms::{Solved, SolvedForm};
use crate::linking::clash_proof;
use pure_terms::{Atom, Atoms, VarTable};
use solver_proof::Proof;
use std::alloc::{AllocError, Global};

/// Solves the equalities among the atoms of a list over the variables of a table: a form that has no clash, or a proof that
/// they can't all be true.
pub fn equal(alloc: Global, vars: &VarTable, atoms: &Atoms) -> Result<Solved, AllocError>
    ensures { IfOk result (IsSolved vars.now (atoms_view atoms.now)) }
{
    let list = copy_of(alloc, atoms)?;
    match close(alloc, list)? {
        Closing::Whole(classes) => match clash_proof(alloc, &classes)? {
            Some(proof) => Ok(Solved::Clash(proof)),
            None => {
                let vars = copy_of_table(alloc, vars)?;
                let atoms = copy_of(alloc, atoms)?;
                Ok(Solved::Form(SolvedForm { vars, atoms }))
            }
        },
        Closing::Clash(proof) => Ok(Solved::Clash(proof)),
    }
}

impl SolvedForm {
    /// Puts one more atom at the end of the form's list, and the table in place of its own. Where the equalities then can't all be
    /// true a proof of that is answered, and the form stays as it was.
    pub fn extend(
        &mut self,
        alloc: Global,
        vars: &VarTable,
        atom: &Atom,
    ) -> Result<Option<Proof>, AllocError>
        ensures ok { IfOk result (λ found. IsExtended self.old vars.now (atom_view atom.now) self.new (option_map proof_view found)) }
        ensures err { OnErr result (self.new ≡ self.old) }
    {
        let mut atoms = copy_of(alloc, &self.atoms)?;
        atoms.push(atom.copy(alloc)?)?;
        match equal(alloc, vars, &atoms)? {
            Solved::Form(form) => {
                *self = form;
                Ok(None)
            }
            Solved::Clash(proof) => Ok(Some(proof)),
        }
    }
}
