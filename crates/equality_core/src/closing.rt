//! Taking in all equalities of a list.
ghost use Rattle.std.specs.Prelude.{◌≡◌, ◌<◌, ◌+◌, length, Some, IfOk, IfSome, IfNone};
ghost use Rattle.std.specs.Option.{option_map};
ghost use Rattle.pure_terms.specs.Pure.{PureTerms, list_of, from_list};
ghost use Rattle.pure_terms.specs.View.{atoms_view, term_view, terms_view};
ghost use Rattle.solver_proof.specs.Chains.{equality_at};
ghost use Rattle.equality_core.specs.Classes.{sides_view, list_sides, classes_view, IsTakenTo, IsTaken, HasTaken, IsClosing};
ghost use Rattle.equality_core.specs.Nodes.{nodes_view, IsUnitedBy};

use crate::classes::Classes;
use crate::nodes::{Nodes, add_node, joined};
use crate::opening::{push_elements, under_parts};
use crate::sides::{BothSides, sides_of};
use pure_terms::{Atoms, Term, Terms};
use solver_proof::Proof;
use std::alloc::{AllocError, Global};

/// What taking in an equality gave.
#[derive(Drop)]
pub(crate) enum Taken {
    Goes(Classes),
    /// List terms of different length are equated.
    Clash(Proof),
}

/// What taking in all equalities gave.
#[derive(Drop)]
pub(crate) enum Closing {
    Whole(Classes),
    /// List terms of different length are equated.
    Clash(Proof),
}

/// The sides of the equality at a place.
fn sides_at(alloc: Global, list: &Atoms, place: usize) -> Result<Option<BothSides>, AllocError>
    ensures { IfOk result (λ o. option_map sides_view o ≡ equality_at (atoms_view list.now) place) }
{
    match list.get(place) {
        Some(atom) => sides_of(alloc, atom),
        None => Ok(None),
    }
}

/// The nodes with the classes of the sides of an equality as one.
fn united(alloc: Global, nodes: Nodes, sides: &BothSides, place: usize) -> Result<Nodes, AllocError>
    ensures { IfOk result (λ n. IsUnitedBy (nodes_view nodes) (sides_view sides.now) place (nodes_view n)) }
{
    let left = add_node(alloc, nodes, &sides.left)?;
    let first = left.place;
    let right = add_node(alloc, left.nodes, &sides.right)?;
    let second = right.place;
    joined(alloc, right.nodes, first, second, place)
}

/// The elements of a list term.
fn as_list(term: &Term) -> Option<&Terms>
    ensures found { IfSome result (λ ts. term_view term.now ≡ list_of (from_list (terms_view ts.now))) }
    ensures none { IfNone result ((ts : PureTerms) → term_view term.now ≡ list_of ts → ⊥) }
{
    match term {
        Term::List(terms) => Some(terms),
        Term::Lit(_) => None,
        Term::Var(_) => None,
        Term::Op1(_, _) => None,
        Term::Op2(_, _, _) => None,
    }
}

/// Adds the equalities of the elements of list terms, of which the equality at a place is.
fn open_lists(
    alloc: Global,
    classes: Classes,
    left: &Terms,
    right: &Terms,
    place: usize,
) -> Result<Taken, AllocError>
    requires placed { place < length (atoms_view classes.list) }
    requires sides { equality_at (atoms_view classes.list) place ≡ Some (list_sides left.now right.now) }
    requires taken { IsTakenTo (classes_view classes) (place + 1) place }
    ensures { IfOk result (HasTaken (classes_view classes) place) }
{
    let Classes {
        given,
        mut list,
        mut opened,
        nodes,
    } = classes;
    if left.len() != right.len() {
        let apart = Proof::Parts(place, None);
        return Ok(Taken::Clash(under_parts(alloc, opened.as_slice(), apart)?));
    }
    push_elements(alloc, &mut list, left.as_slice(), right.as_slice())?;
    opened.push(place)?;
    Ok(Taken::Goes(Classes {
        given,
        list,
        opened,
        nodes,
    }))
}

/// Adds the equalities of elements, where the equality at a place is one of list terms.
fn open(
    alloc: Global,
    classes: Classes,
    sides: &BothSides,
    place: usize,
) -> Result<Taken, AllocError>
    requires placed { place < length (atoms_view classes.list) }
    requires sides { equality_at (atoms_view classes.list) place ≡ Some (sides_view sides.now) }
    requires taken { IsTakenTo (classes_view classes) (place + 1) place }
    ensures { IfOk result (HasTaken (classes_view classes) place) }
{
    match as_list(&sides.left) {
        Some(left) => match as_list(&sides.right) {
            Some(right) => open_lists(alloc, classes, left, right, place),
            None => Ok(Taken::Goes(classes)),
        },
        None => Ok(Taken::Goes(classes)),
    }
}

/// Takes in the atom at a place.
fn take_in(alloc: Global, classes: Classes, place: usize) -> Result<Taken, AllocError>
    requires placed { place < length (atoms_view classes.list) }
    requires taken { IsTaken (classes_view classes) place }
    ensures { IfOk result (HasTaken (classes_view classes) place) }
{
    match sides_at(alloc, &classes.list, place)? {
        Some(sides) => {
            let Classes {
                given,
                list,
                opened,
                nodes,
            } = classes;
            let nodes = united(alloc, nodes, &sides, place)?;
            let classes = Classes {
                given,
                list,
                opened,
                nodes,
            };
            open(alloc, classes, &sides, place)
        }
        None => Ok(Taken::Goes(classes)),
    }
}

/// Takes in all equalities of a list.
pub(crate) fn close(alloc: Global, list: Atoms) -> Result<Closing, AllocError>
    ensures { IfOk result (IsClosing (atoms_view list)) }
{
    let mut classes = Classes {
        given: list.len(),
        list,
        opened: Vec::new(alloc),
        nodes: Nodes {
            items: Vec::new(alloc),
        },
    };
    let mut place = 0;
    'places: while place < classes.list.len() {
        match take_in(alloc, classes, place)? {
            Taken::Goes(next) => classes = next,
            Taken::Clash(proof) => return Ok(Closing::Clash(proof)),
        }
        place += 1;
    }
    Ok(Closing::Whole(classes))
}
