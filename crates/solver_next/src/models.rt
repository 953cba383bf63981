//! Valuations of lists on which no rule has anything to add.
ghost use Rattle.std.specs.Prelude.{IfOk};
ghost use Rattle.gil_values.specs.View.{values_view};
ghost use Rattle.solver_rules.specs.Laws.{IsSettled};
ghost use Rattle.solver_rules.specs.Nodes.{vars_of, list_of_node, classes_of};
ghost use Rattle.solver_next.specs.Steps.{IsModel};

use crate::loose::loose_of;
use equality_core::Kinds;
use pure_terms::Valuation;
use solver_rules::Node;
use std::alloc::{AllocError, Global};

/// A valuation that meets the list: numbers and kinds as they are given, and new values for classes without literals and numbers.
pub(crate) fn model_of(
    alloc: Global,
    node: &Node<'_>,
    kinds: &Kinds,
) -> Result<Valuation, AllocError>
    requires settled { IsSettled (vars_of node.now) (list_of_node node.now) (classes_of node.now) (values_view node.now.numbers.now) kinds.now }
    ensures { IfOk result (λ v. IsModel (vars_of node.now) (list_of_node node.now) (values_view v)) }
{
    let apart = loose_of(alloc, node)?;
    node.classes
        .values(alloc, node.vars, node.numbers, kinds, &apart)
}
