//! The classes of variables: the roots of their nodes.
ghost use Rattle.std.specs.Prelude.{◌≡◌, ◌↔◌, ◌<◌, length, map, IsTrue, Some, IfOk, IfSome, IfNone};
ghost use Rattle.pure_terms.specs.declared.literals.Literal.{Literal};
ghost use Rattle.pure_terms.specs.Pure.{variable, literal};
ghost use Rattle.equality_core.specs.Nodes.{node_view, nodes_view, root_of};
ghost use Rattle.equality_core.specs.Values.{roots_from, IsFirstWith, IsIntWith, HasNoIntWith, IsLiteralIn, HasNoLiteralIn};

use crate::nodes::{Node, Nodes, find};
use pure_terms::{Literal, Sort, Term, Var, VarTable};
use std::alloc::{AllocError, Global};

/// The root of the first node of a variable.
fn root_of(nodes: &Nodes, x: Var) -> Option<usize>
    ensures { result ≡ root_of (nodes_view nodes.now) (variable x) }
{
    let term = Term::Var(x);
    match find(nodes, &term) {
        Some(place) => Some(nodes.items[place].root),
        None => None,
    }
}

/// The roots of the variables of a table.
pub(crate) fn roots_of(
    alloc: Global,
    vars: &VarTable,
    nodes: &Nodes,
) -> Result<Vec<Option<usize>>, AllocError>
    ensures { IfOk result (λ v. v.items ≡ roots_from (nodes_view nodes.now) 0 vars.now) }
{
    let sorts = vars.as_slice();
    let mut roots: Vec<Option<usize>> = Vec::new(alloc);
    for (number, sort) in sorts.iter().enumerate() {
        let x = Var {
            number: number as u64,
            sort: *sort,
        };
        roots.push(root_of(nodes, x))?;
    }
    Ok(roots)
}

fn has_root(found: Option<usize>, root: usize) -> bool
    ensures { IsTrue result ↔ (found ≡ Some root) }
{
    match found {
        Some(other) => other == root,
        None => false,
    }
}

/// The first place of a root, if it is before the end.
pub(crate) fn first_with(roots: &[Option<usize>], root: usize, last: usize) -> usize
    requires { last < length roots.now }
    ensures { IsFirstWith roots.now root last result }
{
    for place in 0..last {
        if has_root(roots[place], root) {
            return place;
        }
    }
    last
}

/// An Int variable with a root.
pub(crate) fn int_with(sorts: &[Sort], roots: &[Option<usize>], root: usize) -> Option<usize>
    requires { length roots.now ≡ length sorts.now }
    ensures found { IfSome result (IsIntWith sorts.now roots.now root) }
    ensures none { IfNone result (HasNoIntWith sorts.now roots.now root) }
{
    for (place, sort) in sorts.iter().enumerate() {
        if *sort == Sort::Int && has_root(roots[place], root) {
            return Some(place);
        }
    }
    None
}

fn literal_in(node: &Node, root: usize) -> Option<&Literal>
    ensures found { IfSome result (λ l. ((node_view node.now).root ≡ root) × ((node_view node.now).term ≡ literal l.now)) }
    ensures none { IfNone result ((l : Literal) → (node_view node.now).root ≡ root → (node_view node.now).term ≡ literal l → ⊥) }
{
    if node.root != root {
        return None;
    }
    match &node.term {
        Term::Lit(literal) => Some(literal),
        Term::Var(_) => None,
        Term::List(_) => None,
        Term::Op1(_, _) => None,
        Term::Op2(_, _, _) => None,
    }
}

/// A literal that is the term of a node with a root.
pub(crate) fn literal_with(nodes: &[Node], root: usize) -> Option<&Literal>
    ensures found { IfSome result (λ l. IsLiteralIn (map node_view nodes.now) root l.now) }
    ensures none { IfNone result (HasNoLiteralIn (map node_view nodes.now) root) }
{
    for node in nodes {
        if let Some(literal) = literal_in(node, root) {
            return Some(literal);
        }
    }
    None
}
