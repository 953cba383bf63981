//! Rules about kinds.
ghost use Rattle.std.specs.Prelude.{◌≡◌, slice_get, Some, IfOk, IfSome, IfNone};
ghost use Rattle.pure_terms.specs.View.{term_view, atom_view};
ghost use Rattle.solver_proof.specs.Chains.{kind_fact_at};
ghost use Rattle.solver_rules.specs.declared.rules.Rule.{Rule};
ghost use Rattle.solver_rules.specs.Atoms.{fact_view};
ghost use Rattle.solver_rules.specs.Nodes.{vars_of, list_of_node, classes_of, IsNodeOf, IsApplied, IsStepOr};
ghost use Rattle.solver_rules.specs.Rules.{IsSettledSide, IsPairDone, ArePairsDone};
ghost use Rattle.solver_rules.specs.Sides.{IsTableSide};
ghost use Rattle.solver_rules.specs.Steps.{IsStep};

use crate::applying::closed_by;
use crate::nodes::Node;
use crate::pairs::{
    Fact, are_apart, fact_of, flat_disequality, is_against, is_small, variable_kind,
};
use crate::steps::Step;
use equality_core::Wanted;
use pure_terms::{Atom, Sort, Term};
use solver_proof::ChainEnd;
use std::alloc::{AllocError, Global};

/// What an atom says of a kind, beside a term that is equated with its subject.
pub(crate) fn one_kind(
    alloc: Global,
    node: &Node<'_>,
    place: usize,
    atom: &Atom,
) -> Result<Option<Step>, AllocError>
    requires node { IsNodeOf node.now }
    requires at { slice_get (list_of_node node.now) place ≡ Some (atom_view atom.now) }
    ensures { IfOk result (IsApplied node.now Rule.OneKind (atom_view atom.now)) }
{
    match fact_of(atom) {
        Some(fact) => {
            let end = ChainEnd::Kind(place);
            match node.classes.first_in_class(fact.subject, Wanted::KnownKind) {
                Some(term) => {
                    if is_against(fact, term.known_kind()) {
                        return Ok(Some(closed_by(alloc, node, fact.subject, term, end)?));
                    }
                    Ok(None)
                }
                None => {
                    if is_against(fact, fact.subject.known_kind()) {
                        return Ok(Some(closed_by(alloc, node, fact.subject, fact.subject, end)?));
                    }
                    Ok(None)
                }
            }
        }
        None => Ok(None),
    }
}

/// What two atoms say of kinds.
fn pair_of_facts(
    alloc: Global,
    node: &Node<'_>,
    place: usize,
    fact: Fact<'_>,
    other: usize,
    atom: &Atom,
) -> Result<Option<Step>, AllocError>
    requires node { IsNodeOf node.now }
    requires fact { kind_fact_at (list_of_node node.now) place ≡ Some (fact_view fact) }
    requires at { slice_get (list_of_node node.now) other ≡ Some (atom_view atom.now) }
    ensures { IfOk result (IsStepOr node.now (IsPairDone (classes_of node.now) (fact_view fact.entry) (atom_view atom.now))) }
{
    match fact_of(atom) {
        Some(second) => {
            if !are_apart(fact, second) {
                return Ok(None);
            }
            if !node.classes.equates(fact.subject, second.subject) {
                return Ok(None);
            }
            let end = ChainEnd::BothKinds(place, other);
            Ok(Some(closed_by(alloc, node, fact.subject, second.subject, end)?))
        }
        None => Ok(None),
    }
}

/// What an atom says of a kind, beside all others.
fn pairs_of_fact(
    alloc: Global,
    node: &Node<'_>,
    place: usize,
    fact: Fact<'_>,
) -> Result<Option<Step>, AllocError>
    requires node { IsNodeOf node.now }
    requires fact { kind_fact_at (list_of_node node.now) place ≡ Some (fact_view fact) }
    ensures { IfOk result (IsStepOr node.now (ArePairsDone (classes_of node.now) (list_of_node node.now) (fact_view fact.entry))) }
{
    let atoms = node.list.as_slice();
    for (other, atom) in atoms.iter().enumerate() {
        if let Some(step) = pair_of_facts(alloc, node, place, fact, other, atom)? {
            return Ok(Some(step));
        }
    }
    Ok(None)
}

/// What an atom says of a kind, beside what others say.
pub(crate) fn two_kinds(
    alloc: Global,
    node: &Node<'_>,
    place: usize,
    atom: &Atom,
) -> Result<Option<Step>, AllocError>
    requires node { IsNodeOf node.now }
    requires at { slice_get (list_of_node node.now) place ≡ Some (atom_view atom.now) }
    ensures { IfOk result (IsApplied node.now Rule.TwoKinds (atom_view atom.now)) }
{
    match fact_of(atom) {
        Some(fact) => pairs_of_fact(alloc, node, place, fact),
        None => Ok(None),
    }
}

/// A variable of which a kind with few values is said.
pub(crate) fn small_fact(node: &Node<'_>, place: usize, atom: &Atom) -> Option<Step>
    requires node { IsNodeOf node.now }
    requires at { slice_get (list_of_node node.now) place ≡ Some (atom_view atom.now) }
    ensures { IsApplied node.now Rule.SmallFact (atom_view atom.now) result }
{
    match variable_kind(atom) {
        Some(fact) => {
            if !is_small(fact.kind) {
                return None;
            }
            match node.classes.first_in_class(fact.subject, Wanted::Literal) {
                Some(_) => None,
                None => Some(Step::Values(place)),
            }
        }
        None => None,
    }
}

/// A side of a disequality that is equated with a Bool variable.
fn small_term(alloc: Global, node: &Node<'_>, term: &Term) -> Result<Option<Step>, AllocError>
    requires node { IsNodeOf node.now }
    requires side { IsTableSide (vars_of node.now) (term_view term.now) }
    ensures some { IfOk result (λ found. IfSome found (IsStep (vars_of node.now) (list_of_node node.now))) }
    ensures none { IfOk result (λ found. IfNone found (IsSettledSide (classes_of node.now) (term_view term.now))) }
{
    match node.classes.first_in_class(term, Wanted::KnownKind) {
        Some(known) => {
            if !known.is_variable_of(Sort::Bool) {
                return Ok(None);
            }
            match node.classes.first_in_class(term, Wanted::Literal) {
                Some(_) => Ok(None),
                None => Ok(Some(Step::Split(known.copy(alloc)?))),
            }
        }
        None => Ok(None),
    }
}

/// The sides of a disequality.
pub(crate) fn small_side(
    alloc: Global,
    node: &Node<'_>,
    place: usize,
    atom: &Atom,
) -> Result<Option<Step>, AllocError>
    requires node { IsNodeOf node.now }
    requires at { slice_get (list_of_node node.now) place ≡ Some (atom_view atom.now) }
    ensures { IfOk result (IsApplied node.now Rule.SmallSide (atom_view atom.now)) }
{
    match flat_disequality(atom) {
        Some(pair) => match small_term(alloc, node, pair.left)? {
            Some(step) => Ok(Some(step)),
            None => small_term(alloc, node, pair.right),
        },
        None => Ok(None),
    }
}
