//! A rule at each atom of a list.
ghost use Rattle.std.specs.Prelude.{◌≡◌, slice_get, Some, IfOk};
ghost use Rattle.pure_terms.specs.View.{atom_view};
ghost use Rattle.solver_rules.specs.Nodes.{list_of_node, IsNodeOf, IsSolvedNode, IsApplied, IsRun};

use crate::applying::{linked, lists};
use crate::kinding::{one_kind, small_fact, small_side, two_kinds};
use crate::nodes::Node;
use crate::numbering::{meeting, numbers, orders};
use crate::rules::Rule;
use crate::steps::Step;
use pure_terms::Atom;
use std::alloc::{AllocError, Global};

/// What a rule says of one atom.
fn apply(
    alloc: Global,
    node: &Node<'_>,
    rule: Rule,
    place: usize,
    atom: &Atom,
) -> Result<Option<Step>, AllocError>
    requires node { IsNodeOf node.now }
    requires solved { IsSolvedNode node.now }
    requires at { slice_get (list_of_node node.now) place ≡ Some (atom_view atom.now) }
    ensures { IfOk result (IsApplied node.now rule (atom_view atom.now)) }
{
    match rule {
        Rule::Lists => Ok(lists(node, place, atom)),
        Rule::Linked => linked(alloc, node, place, atom),
        Rule::OneKind => one_kind(alloc, node, place, atom),
        Rule::TwoKinds => two_kinds(alloc, node, place, atom),
        Rule::SmallFact => Ok(small_fact(node, place, atom)),
        Rule::SmallSide => small_side(alloc, node, place, atom),
        Rule::Meeting => meeting(alloc, node, place, atom),
        Rule::Numbers => numbers(alloc, node, place, atom),
        Rule::Orders => orders(alloc, node, place, atom),
    }
}

/// The first step that a rule gives.
pub fn run(alloc: Global, node: &Node<'_>, rule: Rule) -> Result<Option<Step>, AllocError>
    requires node { IsNodeOf node.now }
    requires solved { IsSolvedNode node.now }
    ensures { IfOk result (IsRun node.now rule) }
{
    let atoms = node.list.as_slice();
    for (place, atom) in atoms.iter().enumerate() {
        if let Some(step) = apply(alloc, node, rule, place, atom)? {
            return Ok(Some(step));
        }
    }
    Ok(None)
}
