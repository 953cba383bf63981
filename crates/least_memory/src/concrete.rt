//! The concrete memory without actions.
use gil_values::{Text, Values};
use mem_model::{Failure, LocalMemory, Outcome};
use std::alloc::{AllocError, Global};

/// The memory that has no action: its heap is empty, and every action fails with `"action"`.
#[derive(Debug, Drop)]
pub struct NoActions {}

impl LocalMemory for NoActions {
    ghost use Rattle.std.specs.FinMap.{empty};
    ghost use Rattle.mem_model.specs.declared.keys.MemoryName.TheVariants.{Record};
    ghost use Rattle.mem_model.specs.Actions.{no_memory};
    ghost use Rattle.mem_model.specs.NoMemory.{no_memory_is_one};

    ghost heap = { λ _. empty };

    ghost memory = { Record };

    ghost actions = { no_memory };

    ghost laws = { no_memory_is_one Record };

    fn empty(_alloc: Global) -> Result<NoActions, AllocError> {
        Ok(NoActions {})
    }

    fn fresh_for(_action: &Text) -> bool {
        false
    }

    fn act(
        &mut self,
        alloc: Global,
        _action: &Text,
        _fresh: Option<u64>,
        _args: &Values,
    ) -> Result<Outcome, AllocError> {
        Failure::Action.outcome(alloc)
    }
}
