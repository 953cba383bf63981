//! Rules about disequalities, and proofs by chains.
ghost use Rattle.std.specs.Prelude.{◌≡◌, slice_get, true, Some, IfOk};
ghost use Rattle.pure_terms.specs.View.{term_view, atom_view};
ghost use Rattle.solver_proof.specs.Chains.{end_closes};
ghost use Rattle.equality_core.specs.Classes.{given_list};
ghost use Rattle.equality_core.specs.Equating.{Equates};
ghost use Rattle.solver_rules.specs.declared.rules.Rule.{Rule};
ghost use Rattle.solver_rules.specs.Nodes.{vars_of, list_of_node, classes_of, IsNodeOf, IsApplied};
ghost use Rattle.solver_rules.specs.Steps.{IsStep};

use crate::atoms::elements_differ;
use crate::nodes::Node;
use crate::pairs::{disequality_of, list_pair};
use crate::steps::Step;
use pure_terms::{Atom, Term};
use solver_proof::ChainEnd;
use std::alloc::{AllocError, Global};

/// A disequality of list terms.
pub(crate) fn lists(node: &Node<'_>, place: usize, atom: &Atom) -> Option<Step>
    requires node { IsNodeOf node.now }
    requires at { slice_get (list_of_node node.now) place ≡ Some (atom_view atom.now) }
    ensures { IsApplied node.now Rule.Lists (atom_view atom.now) result }
{
    match list_pair(atom) {
        Some(pair) => {
            if pair.left.len() != pair.right.len() {
                return None;
            }
            if elements_differ(node.list, pair.left.as_slice(), pair.right.as_slice()) {
                return None;
            }
            Some(Step::Differ(place))
        }
        None => None,
    }
}

/// A disequality of terms that are equated.
pub(crate) fn linked(
    alloc: Global,
    node: &Node<'_>,
    place: usize,
    atom: &Atom,
) -> Result<Option<Step>, AllocError>
    requires node { IsNodeOf node.now }
    requires at { slice_get (list_of_node node.now) place ≡ Some (atom_view atom.now) }
    ensures { IfOk result (IsApplied node.now Rule.Linked (atom_view atom.now)) }
{
    match disequality_of(atom) {
        Some(pair) => {
            let end = ChainEnd::Not(place);
            match node.classes.chain(alloc, pair.left, pair.right, end)? {
                Some(proof) => Ok(Some(Step::Closed(proof))),
                None => Ok(None),
            }
        }
        None => Ok(None),
    }
}

/// The proof by a chain between two terms that are equated.
pub(crate) fn closed_by(
    alloc: Global,
    node: &Node<'_>,
    s: &Term,
    t: &Term,
    end: ChainEnd,
) -> Result<Step, AllocError>
    requires node { IsNodeOf node.now }
    requires equated { Equates (given_list (classes_of node.now)) (term_view s.now) (term_view t.now) }
    requires ends { end_closes (classes_of node.now).list end (term_view s.now) (term_view t.now) ≡ true }
    ensures { IfOk result (IsStep (vars_of node.now) (list_of_node node.now)) }
{
    match node.classes.chain(alloc, s, t, end)? {
        Some(proof) => Ok(Step::Closed(proof)),
        None => unreachable!(),
    }
}
