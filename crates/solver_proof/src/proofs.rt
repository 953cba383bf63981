//! Proofs of unsatisfiability.
ghost use Rattle.std.specs.Prelude.{◌≡◌, [], ◌∷◌, ◌++◌, length, map, slice_get, OnOk, OnErr};
ghost use Rattle.std.specs.Option.{option_map};
ghost use Rattle.std.specs.Slice.Iter.{iter_rest};
ghost use Rattle.solver_proof.specs.View.{proof_view, proofs_view};

use pure_terms::Term;
use sequence::Sequence;
use std::alloc::{AllocError, Global};
use std::slice::Iter;

/// The place of an atom in a list, and the factor of its row.
#[derive(Clone, Copy, Debug, PartialEq, Eq)]
pub struct Factor {
    pub atom: usize,
    pub factor: i128,
}

pub type Factors = Sequence<Factor>;

/// Places of atoms in a list.
pub type Places = Sequence<usize>;

/// Why the two terms that a chain of equalities links have different values.
#[derive(Clone, Copy, Debug, PartialEq, Eq)]
pub enum ChainEnd {
    /// They are two different literals.
    Literals,
    /// Their kinds differ, by form or sort.
    Kinds,
    /// One is a Fresh variable and the other a term over variables with lower numbers.
    Fresh,
    /// The atom at this place is their disequality.
    Not(usize),
    /// The atom at this place says of the first term a kind that the second doesn't have, or that it lacks the kind that
    /// the second has.
    Kind(usize),
    /// The atoms at these places say of the two terms kinds that can't both be.
    BothKinds(usize, usize),
}

/// A proof that no proper valuation makes every atom of a list true. Contracts see it as its pure data, by `proof_view`.
#[cycle(proof)]
#[derive(Debug, Drop)]
pub enum Proof {
    /// The rows of these atoms times these factors add to a positive constant.
    Sum(Factors),
    /// The atom at this place compares two literals and isn't true.
    False(usize),
    /// Equalities lead from a term to another, which can't be equal.
    Chain(Places, ChainEnd),
    /// A proof for each kind that the value of the term, which is a variable, may have.
    Cases(Term, Proofs),
    /// A proof for each value of the kind that the atom at this place says of a variable.
    Values(usize, Proofs),
    /// The equality of list terms at this place: of other lengths, or with a proof from the equalities of the elements.
    Parts(usize, Option<Box<Proof>>),
    /// A proof for each pair of elements of the list terms whose disequality stands at this place.
    Differ(usize, Proofs),
    /// A proof where the term is true, and one where it is false.
    Split(Term, Box<Proof>, Box<Proof>),
    /// The atoms at these places say `s <= t`, `t <= s`, and that s and t differ.
    Meet(usize, usize, usize),
}

/// A list of proofs. Contracts see it as a list of pure data, by `proofs_view`.
#[cycle(proof)]
#[derive(Debug, Drop)]
pub struct Proofs {
    pub(crate) items: Vec<Proof>,
}

impl Proofs {
    /// The empty list, which takes no memory.
    pub fn new(alloc: Global) -> Proofs
        ensures { proofs_view result ≡ [] }
    {
        Proofs {
            items: Vec::new(alloc),
        }
    }

    /// How many proofs there are.
    pub fn len(&self) -> usize
        ensures { result ≡ length (proofs_view self.now) }
    {
        self.items.len()
    }

    /// The proof at a place of the list, counted from 0.
    pub fn get(&self, index: usize) -> Option<&Proof>
        ensures { option_map (λ p. proof_view p.now) result ≡ slice_get (proofs_view self.now) index }
    {
        self.items.get(index)
    }

    /// Adds a proof at the end.
    pub fn push(&mut self, proof: Proof) -> Result<(), AllocError>
        ensures ok { OnOk result (proofs_view self.new ≡ proofs_view self.old ++ proof_view proof ∷ []) }
        ensures err { OnErr result (proofs_view self.new ≡ proofs_view self.old) }
    {
        self.items.push(proof)?;
        Ok(())
    }

    /// Goes over the proofs in order.
    pub fn iter(&self) -> Iter<'_, Proof>
        ensures { map proof_view (iter_rest result) ≡ proofs_view self.now }
    {
        self.items.iter()
    }
}
