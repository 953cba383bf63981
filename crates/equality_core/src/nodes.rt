//! Nodes: the terms that equalities name, in classes, each with a chain to the first term of its class.
ghost use Rattle.std.specs.Prelude.{◌≡◌, ◌<◌, ◌∷◌, length, reverse, None, IfOk, IfSome, IfNone};
ghost use Rattle.pure_terms.specs.View.{term_view};
ghost use Rattle.equality_core.specs.Nodes.{node_view, nodes_view, root_of, IsFound, AddsAtMost, ShareEnd, GoesBack, ArePaired, IsMoved, IsMovedInto, AreJoined};

use pure_terms::Term;
use std::alloc::{AllocError, Global};

/// A term, the place of the first node of its class, and the places of equalities that lead to that node's term.
#[derive(Drop)]
pub(crate) struct Node {
    pub(crate) term: Term,
    pub(crate) root: usize,
    pub(crate) chain: Vec<usize>,
}

/// All nodes.
#[derive(Drop)]
pub(crate) struct Nodes {
    pub(crate) items: Vec<Node>,
}

/// Nodes, and the place of one of them.
#[derive(Drop)]
pub(crate) struct Placed {
    pub(crate) nodes: Nodes,
    pub(crate) place: usize,
}

/// The place of the first node of a term.
pub(crate) fn find(nodes: &Nodes, term: &Term) -> Option<usize>
    ensures found { IfSome result (IsFound (nodes_view nodes.now) (term_view term.now)) }
    ensures none { IfNone result (root_of (nodes_view nodes.now) (term_view term.now) ≡ None) }
{
    for (place, node) in nodes.items.iter().enumerate() {
        if node.term == *term {
            return Some(place);
        }
    }
    None
}

/// The nodes with one for a term, where there was none.
pub(crate) fn add_node(alloc: Global, nodes: Nodes, term: &Term) -> Result<Placed, AllocError>
    ensures found { IfOk result (λ p. IsFound (nodes_view p.nodes) (term_view term.now) p.place) }
    ensures added { IfOk result (λ p. AddsAtMost (nodes_view nodes) (term_view term.now) (nodes_view p.nodes)) }
{
    if let Some(place) = find(&nodes, term) {
        return Ok(Placed { nodes, place });
    }
    let Nodes { mut items } = nodes;
    let place = items.len();
    let node = Node {
        term: term.copy(alloc)?,
        root: place,
        chain: Vec::new(alloc),
    };
    items.push(node)?;
    Ok(Placed {
        nodes: Nodes { items },
        place,
    })
}

/// How many places two chains share at their ends.
fn shared_end(first: &[usize], second: &[usize]) -> usize
    ensures { ShareEnd first.now second.now result }
{
    let most = first.len().min(second.len());
    for count in 0..most {
        if first[first.len() - (count + 1)] != second[second.len() - (count + 1)] {
            return count;
        }
    }
    most
}

/// The places of a chain, the last first.
fn turned(alloc: Global, chain: &[usize]) -> Result<Vec<usize>, AllocError>
    ensures { IfOk result (λ v. v.items ≡ reverse chain.now) }
{
    let places: Vec<usize> = chain.iter().rev().copied().collect(alloc)?;
    Ok(places)
}

/// The way along one chain and back along another, without the end that they share.
fn way_back(alloc: Global, along: &[usize], back: &[usize]) -> Result<Vec<usize>, AllocError>
    ensures { IfOk result (λ v. GoesBack along.now back.now v.items) }
{
    let shared = shared_end(along, back);
    let behind = turned(alloc, &back[..back.len() - shared])?;
    let mut way: Vec<usize> = Vec::new(alloc);
    way.extend_from_slice(&along[..along.len() - shared])?;
    way.extend_from_slice(behind.as_slice())?;
    Ok(way)
}

/// A place, and behind it a chain.
fn onward(alloc: Global, place: usize, chain: &[usize]) -> Result<Vec<usize>, AllocError>
    ensures { IfOk result (λ v. v.items ≡ place ∷ chain.now) }
{
    let mut all: Vec<usize> = Vec::new(alloc);
    all.push(place)?;
    all.extend_from_slice(chain)?;
    Ok(all)
}

/// The node in another class, where it is in this one.
fn moved(
    alloc: Global,
    node: Node,
    from: usize,
    into: usize,
    back: &[usize],
    onward: &[usize],
) -> Result<Node, AllocError>
    ensures { IfOk result (λ n. IsMoved from into back.now onward.now (node_view node) (node_view n)) }
{
    if node.root != from {
        return Ok(node);
    }
    let Node { term, chain, .. } = node;
    let mut chain = way_back(alloc, chain.as_slice(), back)?;
    chain.extend_from_slice(onward)?;
    Ok(Node {
        term,
        root: into,
        chain,
    })
}

/// All nodes of a class in another one.
fn all_moved(
    alloc: Global,
    nodes: Nodes,
    from: usize,
    into: usize,
    back: &[usize],
    onward: &[usize],
) -> Result<Nodes, AllocError>
    ensures { IfOk result (λ n. ArePaired (IsMoved from into back.now onward.now) (nodes_view nodes) (nodes_view n)) }
{
    let Nodes { items } = nodes;
    let mut all = Vec::with_capacity(alloc, items.len())?;
    for node in items {
        all.push(moved(alloc, node, from, into, back, onward)?)?;
    }
    Ok(Nodes { items: all })
}

/// The nodes with one node's class moved into that of another, by the equality of their terms at a place.
fn moved_into(
    alloc: Global,
    nodes: Nodes,
    from: usize,
    into: usize,
    place: usize,
) -> Result<Nodes, AllocError>
    requires from { from < length (nodes_view nodes) }
    requires into { into < length (nodes_view nodes) }
    ensures { IfOk result (λ n. IsMovedInto (nodes_view nodes) from into place (nodes_view n)) }
{
    let old = nodes.items[from].root;
    let new = nodes.items[into].root;
    let mut back: Vec<usize> = Vec::new(alloc);
    back.extend_from_slice(nodes.items[from].chain.as_slice())?;
    let next = onward(alloc, place, nodes.items[into].chain.as_slice())?;
    all_moved(alloc, nodes, old, new, back.as_slice(), next.as_slice())
}

/// How many nodes have a root.
fn class_size(nodes: &Nodes, root: usize) -> usize {
    let mut size: usize = 0;
    for node in &nodes.items {
        if node.root == root {
            size = size.saturating_add(1);
        }
    }
    size
}

/// The nodes with the classes of two of them as one, by the equality of their terms at a place. The smaller class moves, so that
/// no node moves often.
pub(crate) fn joined(
    alloc: Global,
    nodes: Nodes,
    left: usize,
    right: usize,
    place: usize,
) -> Result<Nodes, AllocError>
    requires left { left < length (nodes_view nodes) }
    requires right { right < length (nodes_view nodes) }
    ensures { IfOk result (λ n. AreJoined (nodes_view nodes) left right place (nodes_view n)) }
{
    let first = nodes.items[left].root;
    let second = nodes.items[right].root;
    if first == second {
        return Ok(nodes);
    }
    if class_size(&nodes, first) < class_size(&nodes, second) {
        return moved_into(alloc, nodes, left, right, place);
    }
    moved_into(alloc, nodes, right, left, place)
}
