//! Atoms and lists of atoms.
ghost use Rattle.std.specs.Prelude.{◌≡◌, IfOk};
ghost use Rattle.pure_terms.specs.Pure.{term_of};
ghost use Rattle.pure_terms.specs.View.{term_view, atom_view};

use crate::terms::Term;
use sequence::Sequence;
use std::alloc::{AllocError, Global};

/// What is said of a term. Contracts see it as its pure data, by `atom_view`.
#[derive(Debug, Drop)]
pub enum Atom {
    /// The term is defined and true.
    Holds(Term),
    /// The term is defined and false.
    Not(Term),
    /// The term is defined. It marks a term whose literal form an analysis would need.
    Open(Term),
}

/// A list of atoms, which contracts see as a list of pure data by `atoms_view`.
pub type Atoms = Sequence<Atom>;

impl Atom {
    /// The term of which it is said.
    pub fn term(&self) -> &Term
        ensures { term_view result.now ≡ term_of (atom_view self.now) }
    {
        match self {
            Atom::Holds(term) => term,
            Atom::Not(term) => term,
            Atom::Open(term) => term,
        }
    }

    /// An equal atom.
    pub fn copy(&self, alloc: Global) -> Result<Atom, AllocError>
        ensures { IfOk result (λ a. atom_view a ≡ atom_view self.now) }
    {
        match self {
            Atom::Holds(term) => Ok(Atom::Holds(term.copy(alloc)?)),
            Atom::Not(term) => Ok(Atom::Not(term.copy(alloc)?)),
            Atom::Open(term) => Ok(Atom::Open(term.copy(alloc)?)),
        }
    }
}
