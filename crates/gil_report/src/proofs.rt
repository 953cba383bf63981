//! Proofs of unsatisfiability whose terms are expressions: their variables have names.
ghost use Rattle.std.specs.Prelude.{◌≡◌, [], ◌∷◌, ◌++◌, length, slice_get, OnOk, OnErr};
ghost use Rattle.std.specs.Option.{option_map};
ghost use Rattle.gil_report.specs.View.{named_proof_view, named_proofs_view};

use gil_syntax::Expr;
use solver_proof::{ChainEnd, Factors, Places};
use std::alloc::{AllocError, Global};

/// A proof as `solver_proof` has it, with an expression where that has a term. Contracts see it as its pure data, by
/// `named_proof_view`.
#[cycle(named_proof)]
#[derive(Debug, Drop)]
pub enum NamedProof {
    Sum(Factors),
    False(usize),
    Chain(Places, ChainEnd),
    Cases(Expr, NamedProofs),
    Values(usize, NamedProofs),
    Parts(usize, Option<Box<NamedProof>>),
    Differ(usize, NamedProofs),
    Split(Expr, Box<NamedProof>, Box<NamedProof>),
    Meet(usize, usize, usize),
}

/// A list of proofs. Contracts see it as a list of pure data, by `named_proofs_view`.
#[cycle(named_proof)]
#[derive(Debug, Drop)]
pub struct NamedProofs {
    pub(crate) items: Vec<NamedProof>,
}

impl NamedProofs {
    /// The empty list, which takes no memory.
    pub fn new(alloc: Global) -> NamedProofs
        ensures { named_proofs_view result ≡ [] }
    {
        NamedProofs {
            items: Vec::new(alloc),
        }
    }

    /// How many proofs there are.
    pub fn len(&self) -> usize
        ensures { result ≡ length (named_proofs_view self.now) }
    {
        self.items.len()
    }

    /// The proof at a place of the list, counted from 0.
    pub fn get(&self, index: usize) -> Option<&NamedProof>
        ensures { option_map (λ p. named_proof_view p.now) result ≡ slice_get (named_proofs_view self.now) index }
    {
        self.items.get(index)
    }

    /// Adds a proof at the end.
    pub fn push(&mut self, proof: NamedProof) -> Result<(), AllocError>
        ensures ok { OnOk result (named_proofs_view self.new ≡ named_proofs_view self.old ++ named_proof_view proof ∷ []) }
        ensures err { OnErr result (named_proofs_view self.new ≡ named_proofs_view self.old) }
    {
        self.items.push(proof)?;
        Ok(())
    }
}
