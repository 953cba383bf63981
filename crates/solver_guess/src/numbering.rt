//! Numbers for classes of variables, far from each other where nothing links them. This guides a guess, and no answer rests on it.
use crate::facts::{Facts, literal_said};
use crate::graphs::{Edge, numbers_by};
use crate::joining::Classes;
use crate::repairing::{Apart, repair};
use crate::terms::{AtMost, Shift, difference_said, order_back, order_said};
use pure_terms::{Atoms, Literal};
use std::alloc::{AllocError, Global};

/// The numbers of the nodes: node 0 is the number 0, and each class has the node after its root.
#[derive(Drop)]
pub(crate) struct Numbers {
    items: Vec<i128>,
}

impl Numbers {
    pub(crate) fn of_class(&self, root: usize) -> i128 {
        match self.items.get(root.saturating_add(1)) {
            Some(number) => *number,
            None => 0,
        }
    }
}

fn node_of(classes: &Classes, side: Shift) -> usize {
    match side.variable {
        Some(variable) => classes.root(variable).saturating_add(1),
        None => 0,
    }
}

/// `low + more <= high`.
fn edge_of(classes: &Classes, order: AtMost) -> Option<Edge> {
    let apart = order.high.plus.checked_sub(order.low.plus)?;
    let weight = apart.checked_sub(order.more)?;
    Some(Edge {
        from: node_of(classes, order.high),
        to: node_of(classes, order.low),
        weight,
    })
}

/// Adds an edge that says something.
fn push_edge(edges: &mut Vec<Edge>, edge: Option<Edge>) -> Result<(), AllocError> {
    match edge {
        Some(edge) if edge.from != edge.to || edge.weight < 0 => {
            edges.push(edge)?;
            Ok(())
        }
        _ => Ok(()),
    }
}

fn push_order(
    classes: &Classes,
    edges: &mut Vec<Edge>,
    order: Option<AtMost>,
) -> Result<(), AllocError> {
    match order {
        Some(order) => push_edge(edges, edge_of(classes, order)),
        None => Ok(()),
    }
}

/// Adds that a class has a number.
fn push_number(edges: &mut Vec<Edge>, node: usize, number: i128) -> Result<(), AllocError> {
    edges.push(Edge {
        from: 0,
        to: node,
        weight: number,
    })?;
    if let Some(weight) = 0i128.checked_sub(number) {
        edges.push(Edge {
            from: node,
            to: 0,
            weight,
        })?;
    }
    Ok(())
}

fn number_said(list: &Atoms, facts: &Facts, root: usize) -> Option<i128> {
    let fact = facts.get(root)?;
    match literal_said(list, fact.said?)? {
        Literal::Int(number) => Some(*number),
        _ => None,
    }
}

/// What atoms say of the numbers of classes.
fn edges_of(
    alloc: Global,
    list: &Atoms,
    classes: &Classes,
    facts: &Facts,
) -> Result<Vec<Edge>, AllocError> {
    let mut edges: Vec<Edge> = Vec::new(alloc);
    for root in 0..facts.items.len() {
        if let Some(number) = number_said(list, facts, root) {
            push_number(&mut edges, root.saturating_add(1), number)?;
        }
    }
    for atom in list.as_slice() {
        push_order(classes, &mut edges, order_said(atom))?;
        push_order(classes, &mut edges, order_back(atom))?;
    }
    Ok(edges)
}

/// How far a number is from 0, as far as it is moderate.
fn size_of(number: i128) -> i128 {
    number.checked_abs().unwrap_or(i128::MAX)
}

/// More than any weight or number.
fn span_of(edges: &[Edge], numbers: &[i128]) -> Option<i128> {
    let mut most: i128 = 0;
    for edge in edges {
        most = most.max(size_of(edge.weight));
    }
    for number in numbers {
        most = most.max(size_of(*number));
    }
    most.checked_mul(2)?.checked_add(1)
}

/// The numbers of nodes that nothing links are moved far from each other.
fn spread(
    alloc: Global,
    edges: &[Edge],
    numbers: &[i128],
) -> Result<Option<Vec<i128>>, AllocError> {
    let mut parts = Classes::new(alloc, numbers.len())?;
    for edge in edges {
        parts.join(edge.from, edge.to, 0);
    }
    let Some(span) = span_of(edges, numbers) else {
        return Ok(None);
    };
    let zero = match numbers.first() {
        Some(number) => *number,
        None => 0,
    };
    let mut moved: Vec<i128> = Vec::with_capacity(alloc, numbers.len())?;
    for (node, number) in numbers.iter().enumerate() {
        match place_in(span, zero, parts.root(node), parts.root(0), *number) {
            Some(number) => moved.push(number)?,
            None => return Ok(None),
        }
    }
    Ok(Some(moved))
}

/// The number of a node, by the part where it is.
fn place_in(span: i128, zero: i128, part: usize, first: usize, number: i128) -> Option<i128> {
    if part == first {
        return number.checked_sub(zero);
    }
    let turn = (part as i128).checked_add(2)?;
    span.checked_mul(turn)?.checked_add(number)
}

/// The numbers that atoms say to differ.
fn aparts_of(alloc: Global, list: &Atoms, classes: &Classes) -> Result<Vec<Apart>, AllocError> {
    let mut aparts: Vec<Apart> = Vec::new(alloc);
    for atom in list.as_slice() {
        if let Some((first, second)) = difference_said(atom) {
            if let Some(by) = first.plus.checked_sub(second.plus) {
                aparts.push(Apart {
                    left: node_of(classes, first),
                    right: node_of(classes, second),
                    by,
                })?;
            }
        }
    }
    Ok(aparts)
}

/// Numbers for all classes that meet what atoms say of their order, where they are found.
pub(crate) fn numbers_for(
    alloc: Global,
    list: &Atoms,
    classes: &Classes,
    facts: &Facts,
) -> Result<Option<Numbers>, AllocError> {
    let edges = edges_of(alloc, list, classes, facts)?;
    let count = facts.items.len().saturating_add(1);
    match numbers_by(alloc, count, edges.as_slice())? {
        Some(numbers) => match spread(alloc, edges.as_slice(), numbers.as_slice())? {
            Some(mut items) => {
                let aparts = aparts_of(alloc, list, classes)?;
                repair(
                    alloc,
                    edges.as_slice(),
                    aparts.as_slice(),
                    items.as_mut_slice(),
                )?;
                Ok(Some(Numbers { items }))
            }
            None => Ok(None),
        },
        None => Ok(None),
    }
}
