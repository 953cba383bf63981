//! The proof that a tree stands for.
use crate::closing::{Site, at_most, split};
use crate::paths::Paths;
use crate::problems::Problem;
use crate::shapes::Shape;
use crate::trees::{Node, Tree};
use pure_terms::{Atoms, Literal, Sort, Term, Var};
use solver_proof::{Proof, Proofs};
use std::alloc::{AllocError, Global};

/// A proof has at most so many splits under one another, since it is gone over by recursion.
pub const DEEPEST_PROOF: usize = 1_000;

/// More halvings than numbers have.
const HALVINGS: usize = 64;

fn variable_term(variable: usize, sort: Sort) -> Term {
    let number = variable as u64;
    Term::Var(Var { number, sort })
}

/// The splits over the values of a variable from one to another, whose proofs are the last ones.
fn values_proof(
    alloc: Global,
    problem: &Problem,
    variable: usize,
    low: usize,
    high: usize,
    proofs: &mut Vec<Proof>,
    halvings: usize,
) -> Result<Option<Proof>, AllocError> {
    if high <= low || halvings == 0 {
        return Ok(proofs.pop());
    }
    let middle = low + (high - low) / 2;
    let next = middle.saturating_add(1);
    let above = values_proof(alloc, problem, variable, next, high, proofs, halvings - 1)?;
    let below = values_proof(alloc, problem, variable, low, middle, proofs, halvings - 1)?;
    let (Some(below), Some(above)) = (below, above) else {
        return Ok(None);
    };
    let number = Term::Lit(Literal::Int(problem.number(variable, middle)));
    let term = at_most(alloc, &variable_term(variable, Sort::Int), &number)?;
    Ok(Some(split(alloc, term, below, above)?))
}

/// The split by a truth value, whose proofs where it is false and where it is true are the last ones.
fn truths_proof(
    alloc: Global,
    variable: usize,
    proofs: &mut Vec<Proof>,
) -> Result<Option<Proof>, AllocError> {
    match (proofs.pop(), proofs.pop()) {
        (Some(where_true), Some(where_false)) => {
            let term = variable_term(variable, Sort::Bool);
            Ok(Some(split(alloc, term, where_true, where_false)?))
        }
        _ => Ok(None),
    }
}

/// The proof that goes over the values that an atom at a place says of a variable. Their proofs are the last ones, and those of
/// truth values stand with false first.
fn told_proof(
    alloc: Global,
    shape: Shape,
    place: usize,
    count: usize,
    proofs: &mut Vec<Proof>,
) -> Result<Option<Proof>, AllocError> {
    let mut turned = Proofs::new(alloc);
    let mut last: Vec<Proof> = Vec::new(alloc);
    for _value in 0..count {
        if let Some(proof) = proofs.pop() {
            if shape == Shape::Truth {
                turned.push(proof)?;
            } else {
                last.push(proof)?;
            }
        }
    }
    for _value in 0..count {
        if let Some(proof) = last.pop() {
            turned.push(proof)?;
        }
    }
    Ok(Some(Proof::Values(place, turned)))
}

/// The proof that goes over the values of a variable, whose proofs are the last ones.
fn each_proof(
    alloc: Global,
    problem: &Problem,
    variable: usize,
    proofs: &mut Vec<Proof>,
) -> Result<Option<Proof>, AllocError> {
    let size = problem.size(variable);
    let Some(shaped) = problem.shapes.get(variable) else {
        return Ok(None);
    };
    match (shaped.shape, shaped.place) {
        (Shape::Number, _) => {
            let high = size.saturating_sub(1);
            values_proof(alloc, problem, variable, 0, high, proofs, HALVINGS)
        }
        (shape, Some(place)) => told_proof(alloc, shape, place, size, proofs),
        (_, None) => truths_proof(alloc, variable, proofs),
    }
}

/// The proof that a node stands for, of which those of its values are the last ones.
fn proof_of_node(
    alloc: Global,
    site: Site<'_>,
    node: Node,
    len: usize,
    proofs: &mut Vec<Proof>,
) -> Result<Option<Proof>, AllocError> {
    let problem = site.problem;
    match node {
        Node::Broken(index) => match problem.rules.get(index) {
            Some(rule) => site.broken(alloc, rule, len),
            None => Ok(None),
        },
        Node::Each(variable, _) => each_proof(alloc, problem, variable, proofs),
    }
}

/// The proof that a tree stands for, from its root.
pub(crate) fn proof_of_tree(
    alloc: Global,
    problem: &Problem,
    list: &Atoms,
    tree: &Tree,
    root: usize,
) -> Result<Option<Proof>, AllocError> {
    let paths = Paths::new(alloc, problem, tree, root, list.len())?;
    if list.len().saturating_add(DEEPEST_PROOF) < paths.deepest() {
        return Ok(None);
    }
    let mut proofs: Vec<Proof> = Vec::new(alloc);
    for index in 0..tree.len() {
        if let (Some(reached), Some(node)) = (paths.get(index), tree.get(index)) {
            let site = Site {
                problem,
                list,
                tree,
                paths: &paths,
                node: index,
            };
            match proof_of_node(alloc, site, node, reached.len, &mut proofs)? {
                Some(proof) => proofs.push(proof)?,
                None => return Ok(None),
            }
        }
    }
    Ok(proofs.pop())
}
