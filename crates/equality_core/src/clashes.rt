//! Terms of one class that can't be equal.
ghost use Rattle.std.specs.Prelude.{◌≡◌, ℕ, map, slice_get, Some, None, IfSome, IfNone};
ghost use Rattle.pure_terms.specs.View.{term_view};
ghost use Rattle.equality_core.specs.Nodes.{node_view, end_between, clash_end, IsClash, ClashesWithNone, HaveNoClash};

use crate::nodes::Node;
use pure_terms::Term;
use solver_proof::{ChainEnd, are_different_literals, are_other_kinds, is_fresh_over};

/// The places of two nodes of one class, and why their terms can't be equal.
#[derive(Clone, Copy)]
pub(crate) struct Clash {
    pub(crate) first: usize,
    pub(crate) second: usize,
    pub(crate) end: ChainEnd,
}

/// Why two terms can't be equal, list terms aside.
fn end_between(s: &Term, t: &Term) -> Option<ChainEnd>
    ensures { result ≡ end_between (term_view s.now) (term_view t.now) }
{
    if are_different_literals(s, t) {
        return Some(ChainEnd::Literals);
    }
    if are_other_kinds(s.known_kind(), t.known_kind()) {
        return Some(ChainEnd::Kinds);
    }
    if is_fresh_over(s, t) {
        return Some(ChainEnd::Fresh);
    }
    if is_fresh_over(t, s) {
        return Some(ChainEnd::Fresh);
    }
    None
}

fn clash_end(first: &Node, second: &Node) -> Option<ChainEnd>
    ensures { result ≡ clash_end (node_view first.now) (node_view second.now) }
{
    if first.root == second.root {
        return end_between(&first.term, &second.term);
    }
    None
}

/// The first node that clashes with this one.
fn clash_with(nodes: &[Node], first: usize, node: &Node) -> Option<Clash>
    requires { slice_get (map node_view nodes.now) first ≡ Some (node_view node.now) }
    ensures found { IfSome result (IsClash (map node_view nodes.now)) }
    ensures none { IfNone result (ClashesWithNone (node_view node.now) (map node_view nodes.now)) }
{
    for (second, other) in nodes.iter().enumerate() {
        if let Some(end) = clash_end(node, other) {
            return Some(Clash { first, second, end });
        }
    }
    None
}

/// Two nodes of one class whose terms can't be equal.
pub(crate) fn find_clash(nodes: &[Node]) -> Option<Clash>
    ensures found { IfSome result (IsClash (map node_view nodes.now)) }
    ensures none { IfNone result (HaveNoClash (map node_view nodes.now)) }
{
    for (first, node) in nodes.iter().enumerate() {
        if let Some(clash) = clash_with(nodes, first, node) {
            return Some(clash);
        }
    }
    None
}
