//! Rules about whole numbers.
ghost use Rattle.std.specs.Prelude.{◌≡◌, slice_get, true, Some, IfOk, IfSome, IfNone};
ghost use Rattle.pure_terms.specs.Fragment.{is_flat, is_integer_side};
ghost use Rattle.gil_values.specs.View.{values_view};
ghost use Rattle.pure_terms.specs.Meaning.{truth};
ghost use Rattle.pure_terms.specs.Pure.{positive, negative};
ghost use Rattle.pure_terms.specs.View.{term_view, atom_view};
ghost use Rattle.solver_proof.specs.Chains.{equals};
ghost use Rattle.solver_proof.specs.Closing.{at_most};
ghost use Rattle.equality_core.specs.declared.classes.Wanted.{Wanted};
ghost use Rattle.equality_core.specs.Classes.{given_list};
ghost use Rattle.equality_core.specs.Classified.{is_wanted};
ghost use Rattle.equality_core.specs.Equating.{Equates};
ghost use Rattle.solver_rules.specs.declared.rules.Rule.{Rule};
ghost use Rattle.solver_rules.specs.Nodes.{vars_of, list_of_node, classes_of, IsNodeOf, IsSolvedNode, IsApplied, IsStepOr};
ghost use Rattle.solver_rules.specs.Rules.{IsMet, IsUnsaid, IsDenied, AreApartAt, IsOrderSaid};
ghost use Rattle.solver_rules.specs.Sides.{IsTableSide};
ghost use Rattle.solver_rules.specs.Steps.{IsStep};

use crate::applying::closed_by;
use crate::atoms::{are_same, find_said, joined, says_different, says_equal};
use crate::nodes::Node;
use crate::pairs::{disequality_of, flat_disequality, simple_equality};
use crate::steps::Step;
use equality_core::Wanted;
use gil_values::{BinOp, Kind};
use pure_terms::{Atom, Sort, Term, holds};
use solver_proof::{ChainEnd, Proof};
use std::alloc::{AllocError, Global};

/// Whether a term is an Int variable or a number.
fn is_number(term: &Term) -> bool
    ensures { result ≡ is_wanted Wanted.Number (term_view term.now) }
{
    term.is_variable_of(Sort::Int) || term.is_integer_literal()
}

/// Whether form and sorts tell that a simple term is a whole number.
fn is_integer_side(term: &Term) -> bool
    ensures { result ≡ is_integer_side (term_view term.now) }
{
    if !term.is_simple() {
        return false;
    }
    match term.known_kind() {
        Some(kind) => kind == Kind::Int,
        None => false,
    }
}

/// A variable of sort any, and what it is said to be equal to.
fn met(
    alloc: Global,
    node: &Node<'_>,
    variable: &Term,
    number: &Term,
) -> Result<Option<Step>, AllocError>
    requires node { IsNodeOf node.now }
    requires equated { Equates (given_list (classes_of node.now)) (term_view variable.now) (term_view number.now) }
    requires left { IsTableSide (vars_of node.now) (term_view variable.now) }
    requires right { IsTableSide (vars_of node.now) (term_view number.now) }
    ensures { IfOk result (IsStepOr node.now (IsMet (classes_of node.now) (term_view variable.now) (term_view number.now))) }
{
    if !variable.is_variable_of(Sort::Any) {
        return Ok(None);
    }
    if !is_number(number) {
        return Ok(None);
    }
    match node.classes.first_in_class(variable, Wanted::Number) {
        Some(first) => {
            if are_same(first, number) {
                return Ok(None);
            }
            if says_equal(node.classes.list(), first, number) {
                return Ok(None);
            }
            match find_said(node.list, false, BinOp::Equal, first, number) {
                Some(other) => {
                    let end = ChainEnd::Not(other);
                    Ok(Some(closed_by(alloc, node, first, number, end)?))
                }
                None => Ok(Some(Step::Split(joined(alloc, BinOp::Equal, first, number)?))),
            }
        }
        None => unreachable!(),
    }
}

/// An equality of a variable of sort any and a number.
pub(crate) fn meeting(
    alloc: Global,
    node: &Node<'_>,
    place: usize,
    atom: &Atom,
) -> Result<Option<Step>, AllocError>
    requires node { IsNodeOf node.now }
    requires at { slice_get (list_of_node node.now) place ≡ Some (atom_view atom.now) }
    ensures { IfOk result (IsApplied node.now Rule.Meeting (atom_view atom.now)) }
{
    match simple_equality(atom) {
        Some(pair) => match met(alloc, node, pair.left, pair.right)? {
            Some(step) => Ok(Some(step)),
            None => met(alloc, node, pair.right, pair.left),
        },
        None => Ok(None),
    }
}

/// A disequality of terms that are equated with numbers.
pub(crate) fn numbers(
    alloc: Global,
    node: &Node<'_>,
    place: usize,
    atom: &Atom,
) -> Result<Option<Step>, AllocError>
    requires node { IsNodeOf node.now }
    requires at { slice_get (list_of_node node.now) place ≡ Some (atom_view atom.now) }
    ensures { IfOk result (IsApplied node.now Rule.Numbers (atom_view atom.now)) }
{
    match flat_disequality(atom) {
        Some(pair) => {
            if is_integer_side(pair.left) && is_integer_side(pair.right) {
                return Ok(None);
            }
            match node.classes.first_in_class(pair.left, Wanted::Number) {
                Some(first) => match node.classes.first_in_class(pair.right, Wanted::Number) {
                    Some(second) => {
                        if says_different(node.list, first, second) {
                            return Ok(None);
                        }
                        if node.classes.equates(first, second) {
                            let end = ChainEnd::Not(place);
                            return Ok(Some(closed_by(alloc, node, pair.left, pair.right, end)?));
                        }
                        Ok(Some(Step::Split(joined(alloc, BinOp::Equal, first, second)?)))
                    }
                    None => Ok(None),
                },
                None => Ok(None),
            }
        }
        None => Ok(None),
    }
}

/// Whether an atom is true with the numbers.
fn is_true(alloc: Global, node: &Node<'_>, atom: &Atom) -> Result<bool, AllocError>
    ensures { IfOk result (λ b. b ≡ truth (values_view node.now.numbers.now) (atom_view atom.now)) }
{
    match holds(alloc, atom, node.numbers) {
        Ok(truth) => Ok(truth),
        // a fault comes on no atom of the fragment
        Err(_) => Err(AllocError),
    }
}

/// The split by whether a term is at most another one, where the list doesn't deny it.
fn at_most(
    alloc: Global,
    node: &Node<'_>,
    place: usize,
    s: &Term,
    t: &Term,
) -> Result<Option<Step>, AllocError>
    requires node { IsNodeOf node.now }
    requires at { AreApartAt (list_of_node node.now) place (term_view s.now) (term_view t.now) }
    requires left { is_integer_side (term_view s.now) ≡ true }
    requires right { is_integer_side (term_view t.now) ≡ true }
    requires unsaid { IsUnsaid (list_of_node node.now) (positive (at_most (term_view s.now) (term_view t.now))) }
    ensures some { IfOk result (λ found. IfSome found (IsStep (vars_of node.now) (list_of_node node.now))) }
    ensures none { IfOk result (λ found. IfNone found (IsDenied (list_of_node node.now) (at_most (term_view s.now) (term_view t.now)))) }
{
    match find_said(node.list, false, BinOp::LessOrEqual, s, t) {
        Some(_) => Ok(None),
        None => Ok(Some(Step::Split(joined(alloc, BinOp::LessOrEqual, s, t)?))),
    }
}

/// The order of two terms that are said to differ, where the list doesn't say it.
fn ordered(
    alloc: Global,
    node: &Node<'_>,
    place: usize,
    s: &Term,
    t: &Term,
) -> Result<Option<Step>, AllocError>
    requires node { IsNodeOf node.now }
    requires at { slice_get (list_of_node node.now) place ≡ Some (negative (equals (term_view s.now) (term_view t.now))) }
    requires left { is_integer_side (term_view s.now) ≡ true }
    requires right { is_integer_side (term_view t.now) ≡ true }
    ensures some { IfOk result (λ found. IfSome found (IsStep (vars_of node.now) (list_of_node node.now))) }
    ensures none { IfOk result (λ found. IfNone found (IsOrderSaid (list_of_node node.now) (term_view s.now) (term_view t.now))) }
{
    match find_said(node.list, true, BinOp::LessOrEqual, s, t) {
        Some(up) => match find_said(node.list, true, BinOp::LessOrEqual, t, s) {
            Some(down) => Ok(Some(Step::Closed(Proof::Meet(up, down, place)))),
            None => at_most(alloc, node, place, t, s),
        },
        None => at_most(alloc, node, place, s, t),
    }
}

/// A disequality of whole numbers that is not true with the numbers.
pub(crate) fn orders(
    alloc: Global,
    node: &Node<'_>,
    place: usize,
    atom: &Atom,
) -> Result<Option<Step>, AllocError>
    requires node { IsNodeOf node.now }
    requires solved { IsSolvedNode node.now }
    requires at { slice_get (list_of_node node.now) place ≡ Some (atom_view atom.now) }
    ensures { IfOk result (IsApplied node.now Rule.Orders (atom_view atom.now)) }
{
    match disequality_of(atom) {
        Some(pair) => {
            if !is_integer_side(pair.left) {
                return Ok(None);
            }
            if !is_integer_side(pair.right) {
                return Ok(None);
            }
            if is_true(alloc, node, atom)? {
                return Ok(None);
            }
            match ordered(alloc, node, place, pair.left, pair.right)? {
                Some(step) => Ok(Some(step)),
                // where an order is denied the numbers aren't equal
                None => unreachable!(),
            }
        }
        None => Ok(None),
    }
}

/// The order of the whole numbers that the atom at a place says to be different, whatever the numbers, where the list doesn't
/// say it.
pub fn order_at(alloc: Global, node: &Node<'_>, place: usize) -> Result<Option<Step>, AllocError>
    requires node { IsNodeOf node.now }
    ensures { IfOk result (λ found. IfSome found (IsStep (vars_of node.now) (list_of_node node.now))) }
{
    match node.list.get(place) {
        Some(atom) => match disequality_of(atom) {
            Some(pair) => {
                if !is_integer_side(pair.left) {
                    return Ok(None);
                }
                if !is_integer_side(pair.right) {
                    return Ok(None);
                }
                ordered(alloc, node, place, pair.left, pair.right)
            }
            None => Ok(None),
        },
        None => Ok(None),
    }
}
