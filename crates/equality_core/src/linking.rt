//! Proofs by chains between the nodes of one class.
ghost use Rattle.std.specs.Prelude.{◌≡◌, [], ◌++◌, length, reverse, Some, None, IfOk, OnOk, IfSome, IfNone};
ghost use Rattle.std.specs.Option.{option_map};
ghost use Rattle.pure_terms.specs.View.{term_view};
ghost use Rattle.solver_proof.specs.Chains.{disequality_at};
ghost use Rattle.solver_proof.specs.Pure.{chain};
ghost use Rattle.solver_proof.specs.View.{proof_view};
ghost use Rattle.equality_core.specs.Classes.{classes_view, given_list, under_parts, IsTaken};
ghost use Rattle.equality_core.specs.Classified.{IsChained, IsEquating};
ghost use Rattle.equality_core.specs.Linking.{IsCleared, IsLinkedIn, IsPair, both_sides};
ghost use Rattle.equality_core.specs.Nodes.{node_view, nodes_view, IsUnited};

use crate::clashes::find_clash;
use crate::classes::Classes;
use crate::nodes::{Node, Nodes, find};
use crate::opening::under_parts;
use pure_terms::Term;
use solver_proof::{ChainEnd, Places, Proof};
use std::alloc::{AllocError, Global};

/// The places of two nodes of one class.
#[derive(Clone, Copy)]
pub(crate) struct Pair {
    pub(crate) first: usize,
    pub(crate) second: usize,
}

fn push_all(places: &mut Places, more: &[usize]) -> Result<(), AllocError>
    ensures { OnOk result (places.new ≡ places.old ++ more.now) }
{
    for place in more {
        places.push(*place)?;
    }
    Ok(())
}

/// The chain up one node's chain and down another's.
fn way(alloc: Global, up: &[usize], down: &[usize]) -> Result<Places, AllocError>
    ensures { IfOk result (λ places. places ≡ up.now ++ reverse down.now) }
{
    let back: Vec<usize> = down.iter().rev().copied().collect(alloc)?;
    let mut places = Places::new(alloc);
    push_all(&mut places, up)?;
    push_all(&mut places, back.as_slice())?;
    Ok(places)
}

/// The proof by a chain from one node to another of its class.
fn chain_proof(
    alloc: Global,
    opened: &[usize],
    first: &Node,
    second: &Node,
    end: ChainEnd,
) -> Result<Proof, AllocError>
    ensures { IfOk result (λ p. proof_view p
        ≡ under_parts opened.now (chain ((node_view first.now).chain ++ reverse (node_view second.now).chain) end)) }
{
    let places = way(alloc, first.chain.as_slice(), second.chain.as_slice())?;
    under_parts(alloc, opened, Proof::Chain(places, end))
}

/// A proof by two terms of one class that can't be equal.
pub(crate) fn clash_proof(alloc: Global, classes: &Classes) -> Result<Option<Proof>, AllocError>
    requires { IsTaken (classes_view classes.now) (length (classes_view classes.now).list) }
    ensures { IfOk result (λ found. IsCleared (classes_view classes.now) (option_map proof_view found)) }
{
    let nodes = classes.nodes.items.as_slice();
    match find_clash(nodes) {
        Some(clash) => {
            let first = &nodes[clash.first];
            let second = &nodes[clash.second];
            let opened = classes.opened.as_slice();
            Ok(Some(chain_proof(alloc, opened, first, second, clash.end)?))
        }
        None => Ok(None),
    }
}

/// The first nodes of two terms, where these are of one class.
fn find_pair(nodes: &Nodes, s: &Term, t: &Term) -> Option<Pair>
    ensures found { IfSome result (IsPair (nodes_view nodes.now) (term_view s.now) (term_view t.now)) }
    ensures none { IfNone result (IsUnited (nodes_view nodes.now) (term_view s.now) (term_view t.now) → ⊥) }
{
    match find(nodes, s) {
        Some(first) => match find(nodes, t) {
            Some(second) => {
                if nodes.items[first].root == nodes.items[second].root {
                    return Some(Pair { first, second });
                }
                None
            }
            None => None,
        },
        None => None,
    }
}

/// A proof by a chain between two terms, whose disequality stands at a place.
pub(crate) fn linked(
    alloc: Global,
    classes: &Classes,
    s: &Term,
    t: &Term,
    place: usize,
) -> Result<Option<Proof>, AllocError>
    requires taken { IsTaken (classes_view classes.now) (length (classes_view classes.now).list) }
    requires differ { disequality_at (given_list (classes_view classes.now)) place ≡ Some (both_sides (term_view s.now) (term_view t.now)) }
    ensures { IfOk result (λ found. IsLinkedIn (classes_view classes.now) (term_view s.now) (term_view t.now) (option_map proof_view found)) }
{
    let opened = classes.opened.as_slice();
    let end = ChainEnd::Not(place);
    if *s == *t {
        let nothing = Proof::Chain(Places::new(alloc), end);
        return Ok(Some(under_parts(alloc, opened, nothing)?));
    }
    match find_pair(&classes.nodes, s, t) {
        Some(pair) => {
            let first = &classes.nodes.items[pair.first];
            let second = &classes.nodes.items[pair.second];
            Ok(Some(chain_proof(alloc, opened, first, second, end)?))
        }
        None => Ok(None),
    }
}

/// A proof by a chain from one term to another, with an end.
pub(crate) fn chained(
    alloc: Global,
    classes: &Classes,
    s: &Term,
    t: &Term,
    end: ChainEnd,
) -> Result<Option<Proof>, AllocError>
    requires { IsTaken (classes_view classes.now) (length (classes_view classes.now).list) }
    ensures { IfOk result (λ found. IsChained (classes_view classes.now) (term_view s.now) (term_view t.now) end (option_map proof_view found)) }
{
    let opened = classes.opened.as_slice();
    if *s == *t {
        let nothing = Proof::Chain(Places::new(alloc), end);
        return Ok(Some(under_parts(alloc, opened, nothing)?));
    }
    match find_pair(&classes.nodes, s, t) {
        Some(pair) => {
            let first = &classes.nodes.items[pair.first];
            let second = &classes.nodes.items[pair.second];
            Ok(Some(chain_proof(alloc, opened, first, second, end)?))
        }
        None => Ok(None),
    }
}

/// Whether two terms are equated.
pub(crate) fn are_linked(classes: &Classes, s: &Term, t: &Term) -> bool
    requires { IsTaken (classes_view classes.now) (length (classes_view classes.now).list) }
    ensures { IsEquating (classes_view classes.now) (term_view s.now) (term_view t.now) result }
{
    if *s == *t {
        return true;
    }
    match find_pair(&classes.nodes, s, t) {
        Some(_) => true,
        None => false,
    }
}
