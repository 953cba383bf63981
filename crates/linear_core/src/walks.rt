//! Walks along differences, and the numbers that nodes get by them.
ghost use Rattle.std.specs.Prelude.{◌≡◌, ◌<◌, [], ◌∷◌, ◌++◌, length, slice_get, slice_set, IfOk, Some};

use std::alloc::{AllocError, Global};
use std::marker::Model;

/// A step from a node along the difference of a row.
#[derive(Clone, Copy)]
pub(crate) struct Step {
    pub(crate) row: usize,
    /// From `plus` to `minus`, which equalities alone allow.
    pub(crate) backwards: bool,
    pub(crate) from: usize,
    /// The number that the walk so far gives the node that is left.
    pub(crate) before: i128,
}

/// Steps one after another, which contracts see as the list of them, the last first.
#[derive(Drop)]
pub(crate) struct Walk {
    steps: Vec<Step>,
}

impl Model for Walk {
    ghost use Rattle.std.specs.Prelude.{List};
    ghost use Rattle.linear_core.specs.declared.walks.Step.{Step};

    ghost Value = { List Step };

    ghost view = { λ w. w.steps.items };
}

impl Walk {
    /// No step, which takes no memory.
    pub(crate) fn new(alloc: Global) -> Walk
        ensures { result ≡ [] }
    {
        Walk {
            steps: Vec::new(alloc),
        }
    }

    /// The walk of these steps, the last first.
    pub(crate) fn of_steps(steps: Vec<Step>) -> Walk
        ensures { result ≡ steps.items }
    {
        Walk { steps }
    }

    /// The walk with one more step.
    pub(crate) fn and_then(&self, alloc: Global, step: Step) -> Result<Walk, AllocError>
        ensures { IfOk result (λ walk. walk ≡ step ∷ self.now) }
    {
        let mut steps = Vec::with_capacity(alloc, 1)?;
        steps.push(step)?;
        steps.extend_from_slice(self.steps.as_slice())?;
        Ok(Walk { steps })
    }

    /// The steps, the last first.
    pub(crate) fn as_slice(&self) -> &[Step]
        ensures { result.now ≡ self.now }
    {
        self.steps.as_slice()
    }
}

/// The number that a node has, and the walk that gave it.
#[derive(Drop)]
pub(crate) struct Reach {
    pub(crate) number: i128,
    pub(crate) walk: Walk,
}

/// The numbers of all nodes, which contracts see as the list of them.
#[derive(Drop)]
pub(crate) struct Reaches {
    items: Vec<Reach>,
}

impl Model for Reaches {
    ghost use Rattle.std.specs.Prelude.{List};
    ghost use Rattle.linear_core.specs.declared.walks.Reach.{Reach};

    ghost Value = { List Reach };

    ghost view = { λ r. r.items.items };
}

impl Reaches {
    ghost use Rattle.std.specs.Prelude.{ℕ, pos};
    ghost use Rattle.linear_core.specs.declared.walks.Reach.{Reach};

    /// This many nodes, each with the number 0 by a walk without steps.
    pub(crate) fn new(alloc: Global, count: usize) -> Result<Reaches, AllocError>
        ensures len { IfOk result (λ reaches. length reaches ≡ count) }
        ensures zero { IfOk result (λ reaches. (x : ℕ) (reach : Reach) → slice_get reaches x ≡ Some reach
            → reach ≡ record { number = pos 0; walk = [] }) }
    {
        let mut items = Vec::with_capacity(alloc, count)?;
        for _node in 0..count {
            items.push(Reach {
                number: 0,
                walk: Walk::new(alloc),
            })?;
        }
        Ok(Reaches { items })
    }

    /// How many nodes there are.
    pub(crate) fn len(&self) -> usize
        ensures { result ≡ length self.now }
    {
        self.items.len()
    }

    /// A node's number and its walk.
    pub(crate) fn at(&self, node: usize) -> &Reach
        requires { node < length self.now }
        ensures { slice_get self.now node ≡ Some result.now }
    {
        &self.items[node]
    }

    /// Gives a node another number, by another walk.
    pub(crate) fn put(&mut self, node: usize, reach: Reach)
        requires { node < length self.old }
        ensures { self.new ≡ slice_set self.old node reach }
    {
        self.items[node] = reach;
    }
}
