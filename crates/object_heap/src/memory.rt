//! The memory of objects.
use crate::actions::ObjectAction;
use crate::table::{act_delete, act_get, act_get_proto, act_has, act_new, act_set, act_set_proto};
use gil_values::{Text, Values};
use mem_model::{Failure, LocalMemory, Outcome, StoredHeap};
use std::alloc::{AllocError, Global};

/// The heap of objects, whose actions are `new`, `get`, `set`, `delete`, `has`, `getproto` and `setproto`. A lookup costs
/// the logarithm of the heap's size; to add or take away a name costs no more than that and the length of the object's
/// list of names.
#[derive(Debug, Drop)]
pub struct ObjectHeap {
    heap: StoredHeap,
}

impl LocalMemory for ObjectHeap {
    ghost use Rattle.mem_model.specs.declared.keys.MemoryName.TheVariants.{Object};
    ghost use Rattle.mem_model.specs.Stored.{stored_heap_view};
    ghost use Rattle.object_heap.specs.Table.{object_actions};
    ghost use Rattle.object_heap.specs.ObjectLaws.{object_is_memory};

    ghost heap = { λ m. stored_heap_view m.heap };

    ghost memory = { Object };

    ghost actions = { object_actions };

    ghost laws = { object_is_memory };

    fn empty(alloc: Global) -> Result<ObjectHeap, AllocError> {
        Ok(ObjectHeap {
            heap: StoredHeap::new(alloc),
        })
    }

    fn fresh_for(action: &Text) -> bool {
        match ObjectAction::from_name(action) {
            Some(action) => action.takes_symbol(),
            None => false,
        }
    }

    fn act(
        &mut self,
        alloc: Global,
        action: &Text,
        fresh: Option<u64>,
        args: &Values,
    ) -> Result<Outcome, AllocError> {
        match ObjectAction::from_name(action) {
            Some(ObjectAction::New) => act_new(&mut self.heap, alloc, fresh, args),
            Some(ObjectAction::Get) => act_get(&self.heap, alloc, args),
            Some(ObjectAction::Set) => act_set(&mut self.heap, alloc, args),
            Some(ObjectAction::Delete) => act_delete(&mut self.heap, alloc, args),
            Some(ObjectAction::Has) => act_has(&self.heap, alloc, args),
            Some(ObjectAction::GetProto) => act_get_proto(&self.heap, alloc, args),
            Some(ObjectAction::SetProto) => act_set_proto(&mut self.heap, alloc, args),
            None => Failure::Action.outcome(alloc),
        }
    }
}
