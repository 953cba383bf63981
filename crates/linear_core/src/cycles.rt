//! Walks that come back to a node.
ghost use Rattle.std.specs.Prelude.{◌≡◌, IfOk, IsTrue};
ghost use Rattle.linear_core.specs.Walks.{leaves, factor_of, factors_up_to};

use crate::walks::Step;
use solver_proof::{Factor, Factors};
use std::alloc::{AllocError, Global};

/// Whether a step of the walk leaves the node.
pub(crate) fn leaves(node: usize, steps: &[Step]) -> bool
    ensures { result ≡ leaves node steps.now }
{
    match steps {
        [] => false,
        [first, rest @ ..] => first.from == node || leaves(node, rest),
    }
}

/// What a step adds to a sum.
fn factor_of(step: &Step) -> Factor
    ensures { result ≡ factor_of step.now }
{
    Factor {
        atom: step.row,
        factor: if step.backwards { -1 } else { 1 },
    }
}

/// What the steps add to a sum, from the last up to the first of these that leaves the node.
pub(crate) fn factors_up_to(
    alloc: Global,
    node: usize,
    steps: &[Step],
) -> Result<Factors, AllocError>
    ensures { IfOk result (λ fs. fs ≡ factors_up_to node steps.now) }
{
    let mut factors = Factors::new(alloc);
    for step in steps {
        factors.push(factor_of(step))?;
        if step.from == node {
            return Ok(factors);
        }
    }
    Ok(factors)
}
