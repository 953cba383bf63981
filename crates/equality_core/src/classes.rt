//! A list to which equalities of elements were added, and the classes of its terms.
ghost use Rattle.std.specs.Prelude.{◌≡◌, ◌&&◌, map, nat_eq, IfOk};
ghost use Rattle.std.specs.Option.{option_map};
ghost use Rattle.pure_terms.specs.View.{term_view, atoms_view};
ghost use Rattle.solver_proof.specs.View.{proof_view};
ghost use Rattle.equality_core.specs.Classes.{classes_view};
ghost use Rattle.equality_core.specs.Classified.{IsWhole, is_wanted, first_of, first_in_class, IsChained, IsEquating};
ghost use Rattle.equality_core.specs.Nodes.{node_view};

use crate::linking::{are_linked, chained};
use crate::nodes::{Node, Nodes, find};
use pure_terms::{Atoms, Sort, Term};
use solver_proof::{ChainEnd, Proof};
use std::alloc::{AllocError, Global};

/// A list with the equalities of the elements of equal list terms, and the classes of its terms. Contracts see it by
/// `classes_view`.
#[derive(Drop)]
pub struct Classes {
    /// How many atoms were given; those behind them were added.
    pub(crate) given: usize,
    pub(crate) list: Atoms,
    /// The places of the equalities of list terms, in the order in which the equalities of their elements were added.
    pub(crate) opened: Vec<usize>,
    pub(crate) nodes: Nodes,
}

/// What is sought in a class.
#[derive(Clone, Copy)]
pub enum Wanted {
    /// An Int variable or a number.
    Number,
    Literal,
    /// A term whose kind form and sorts tell.
    KnownKind,
}

fn is_wanted(term: &Term, wanted: Wanted) -> bool
    ensures { result ≡ is_wanted wanted (term_view term.now) }
{
    match wanted {
        Wanted::Number => term.is_variable_of(Sort::Int) || term.is_integer_literal(),
        Wanted::Literal => matches!(term, Term::Lit(_)),
        Wanted::KnownKind => term.known_kind().is_some(),
    }
}

fn is_wanted_in(node: &Node, root: usize, wanted: Wanted) -> bool
    ensures { result ≡ (nat_eq (node_view node.now).root root && is_wanted wanted (node_view node.now).term) }
{
    node.root == root && is_wanted(&node.term, wanted)
}

/// The first node of a class whose term is sought.
fn first_of(nodes: &[Node], root: usize, wanted: Wanted) -> Option<&Term>
    ensures { option_map (λ t. term_view t.now) result ≡ first_of (map node_view nodes.now) root wanted }
{
    for node in nodes {
        if is_wanted_in(node, root, wanted) {
            return Some(&node.term);
        }
    }
    None
}

impl Classes {
    /// The atoms that were given, and behind them the equalities of elements.
    pub fn list(&self) -> &Atoms
        ensures { atoms_view result.now ≡ (classes_view self.now).list }
    {
        &self.list
    }

    /// The first term of a term's class that is sought.
    pub fn first_in_class<'a>(&'a self, term: &'a Term, wanted: Wanted) -> Option<&'a Term>
        ensures { option_map (λ t. term_view t.now) result ≡ first_in_class (classes_view self.now).nodes wanted (term_view term.now) }
    {
        match find(&self.nodes, term) {
            Some(place) => first_of(
                self.nodes.items.as_slice(),
                self.nodes.items[place].root,
                wanted,
            ),
            None => {
                if is_wanted(term, wanted) {
                    return Some(term);
                }
                None
            }
        }
    }

    /// Whether two terms are equated.
    pub fn equates(&self, s: &Term, t: &Term) -> bool
        requires { IsWhole (classes_view self.now) }
        ensures { IsEquating (classes_view self.now) (term_view s.now) (term_view t.now) result }
    {
        are_linked(self, s, t)
    }

    /// A proof by a chain from one term to another, where they are equated and the end says why they can't be.
    pub fn chain(
        &self,
        alloc: Global,
        s: &Term,
        t: &Term,
        end: ChainEnd,
    ) -> Result<Option<Proof>, AllocError>
        requires { IsWhole (classes_view self.now) }
        ensures { IfOk result (λ found. IsChained (classes_view self.now) (term_view s.now) (term_view t.now) end (option_map proof_view found)) }
    {
        chained(alloc, self, s, t, end)
    }
}
