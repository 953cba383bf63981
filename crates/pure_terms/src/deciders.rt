//! What decides whether some valuation makes every atom of a list true.
ghost use Rattle.std.specs.Prelude.{IfOk};
ghost use Rattle.pure_terms.specs.Deciding.{IsRight};
ghost use Rattle.pure_terms.specs.Meaning.{AreOver};
ghost use Rattle.pure_terms.specs.View.{atoms_view, decision_view};

use crate::atoms::Atoms;
use crate::variables::{Valuation, VarTable};
use std::alloc::{AllocError, Global};

/// What a decider says of a list of atoms. Contracts see it as its pure data, by `decision_view`.
#[derive(Debug, Drop)]
pub enum Decision {
    /// This proper valuation makes every atom true.
    Sat(Valuation),
    /// No proper valuation makes every atom true.
    Unsat,
    /// The list isn't in the fragment.
    Unknown(Reason),
}

/// Why a list isn't in the fragment.
#[derive(Clone, Copy, Debug, PartialEq, Eq)]
pub enum Reason {
    /// The place of an atom that has no form of the fragment.
    Atom(usize),
    /// The place of an atom with a literal outside the fragment's range, or whose literals alone make a number that
    /// leaves 128 bits.
    Number(usize),
}

/// A decider, which its users know by its laws alone. It keeps only them from call to call.
pub trait Decider: Drop {
    /// Decides a list of atoms over the variables of a table.
    fn decide(
        &mut self,
        alloc: Global,
        vars: &VarTable,
        atoms: &Atoms,
    ) -> Result<Decision, AllocError>
        requires { AreOver vars.now (atoms_view atoms.now) }
        ensures { IfOk result (λ decision. IsRight vars.now (atoms_view atoms.now) (decision_view decision)) };
}
