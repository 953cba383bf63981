//! Rules one after another.
ghost use Rattle.std.specs.Prelude.{IfOk};
ghost use Rattle.gil_values.specs.View.{values_view};
ghost use Rattle.solver_rules.specs.Nodes.{classes_of, IsNodeOf, IsSolvedNode, IsStepOr};
ghost use Rattle.solver_next.specs.Steps.{AreAllDone};

use solver_rules::{Node, Rule, Step, run};
use std::alloc::{AllocError, Global};

/// The first step that one of the rules gives.
pub(crate) fn run_each(
    alloc: Global,
    node: &Node<'_>,
    rules: &[Rule],
) -> Result<Option<Step>, AllocError>
    requires node { IsNodeOf node.now }
    requires solved { IsSolvedNode node.now }
    ensures { IfOk result (IsStepOr node.now (AreAllDone rules.now (classes_of node.now) (values_view node.now.numbers.now))) }
{
    for rule in rules {
        if let Some(step) = run(alloc, node, *rule)? {
            return Ok(Some(step));
        }
    }
    Ok(None)
}
