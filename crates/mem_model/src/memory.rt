//! The interface of a concrete memory: a set of named actions on a heap.
ghost use Rattle.std.specs.Prelude.{◌≡◌, ◌↔◌, IfOk, OnErr, IsTrue};
ghost use Rattle.std.specs.FinMap.{empty};
ghost use Rattle.gil_values.specs.View.{values_view};
ghost use Rattle.mem_model.specs.declared.keys.MemoryName.{MemoryName};
ghost use Rattle.mem_model.specs.Heaps.{Heap, IsHeapOf};
ghost use Rattle.mem_model.specs.Actions.{Actions, MayAct, IsMemory};
ghost use Rattle.mem_model.specs.View.{outcome_view};

use crate::keys::Key;
use gil_values::{Text, Value, Values};
use std::alloc::{AllocError, Global};

/// What an action comes to. Only where it is done may the memory have changed.
#[derive(Debug, Drop)]
pub enum Outcome {
    Done(Value),
    Failed(Value),
    /// The action needs this key. Where a memory keeps `MissesWhatLacks`, the heap lacks it.
    Miss(Key),
}

/// A concrete memory (Gillian, Part I, PLDI 2020). `act` answers by the meaning of the memory, which keeps the laws.
pub trait LocalMemory: Drop {
    ghost heap: { Self → Heap };

    ghost memory: { MemoryName };

    ghost actions: { Actions };

    /// The memory with the empty heap.
    fn empty(alloc: Global) -> Result<Self, AllocError>
        ensures { IfOk result (λ m. heap m ≡ empty) };

    /// Whether the action takes a new symbol.
    fn fresh_for(action: &Text) -> bool
        ensures { result ≡ actions.takes_symbol action.now };

    /// Does an action. After want of memory the heap is as before.
    fn act(
        &mut self,
        alloc: Global,
        action: &Text,
        fresh: Option<u64>,
        args: &Values,
    ) -> Result<Outcome, AllocError>
        requires of_memory { IsHeapOf memory (heap self.old) }
        requires may { MayAct actions action.now fresh (values_view args.now) (heap self.old) }
        ensures outcome { IfOk result (λ o. outcome_view o ≡ (actions.act action.now fresh (values_view args.now) (heap self.old)).outcome) }
        ensures changed { IfOk result (λ _. heap self.new ≡ (actions.act action.now fresh (values_view args.now) (heap self.old)).heap) }
        ensures err { OnErr result (heap self.new ≡ heap self.old) };

    ghost laws: { IsMemory memory actions };
}
