//! What several memories do with a whole location: make one, and dispose of one.
ghost use Rattle.std.specs.Prelude.{◌≡◌, OnOk, OnErr};
ghost use Rattle.std.specs.Option.{option_map};
ghost use Rattle.gil_values.specs.View.{value_view};
ghost use Rattle.mem_model.specs.Stored.{stored_heap_view};
ghost use Rattle.mem_model.specs.Tables.{Does, IsWhole, LacksAll, created, first_missing, dispose_whole};

use crate::keys::{Key, Sub};
use crate::memory::Outcome;
use crate::stored::StoredHeap;
use gil_values::Value;
use std::alloc::{AllocError, Global};

impl StoredHeap {
    /// Makes a location: one value at each of its parts, and the descriptor that tells of them. After want of memory
    /// the heap is as before.
    pub fn create(
        &mut self,
        alloc: Global,
        descriptor: Key,
        description: Value,
        parts: &[Key],
        value: &Value,
    ) -> Result<(), AllocError>
        requires { LacksAll (stored_heap_view self.old) parts.now }
        ensures ok { OnOk result
            (stored_heap_view self.new ≡ created descriptor (value_view description) parts.now (value_view value.now)
            (stored_heap_view self.old)) }
        ensures err { OnErr result (stored_heap_view self.new ≡ stored_heap_view self.old) }
    {
        self.put_all(alloc, parts, value)?;
        if let Err(error) = self.put(descriptor, description) {
            self.remove_all(parts);
            return Err(error);
        }
        Ok(())
    }

    /// Disposes of a location, where none of its parts is missing: all its keys go, and `Gone` holds true. After want
    /// of memory the heap is as before. It costs no more than the lookups of the parts.
    pub fn dispose(
        &mut self,
        alloc: Global,
        location: u64,
        descriptor: &Key,
        parts: &[Key],
    ) -> Result<Outcome, AllocError>
        requires { IsWhole (stored_heap_view self.old) location descriptor.now parts.now }
        ensures { Does result (stored_heap_view self.old) (stored_heap_view self.new) (dispose_whole location parts.now) }
    {
        match self.first_missing(parts) {
            Some(missing) => return Ok(Outcome::Miss(missing.copy(alloc)?)),
            None => {}
        }
        let gone = Key {
            loc: location,
            sub: Sub::Gone,
        };
        self.put(gone, Value::Bool(true))?;
        self.remove_all(parts);
        self.remove(descriptor);
        Ok(Outcome::Done(Value::Bool(true)))
    }

    /// The first of the keys that the heap lacks.
    fn first_missing<'a>(&self, keys: &'a [Key]) -> Option<&'a Key>
        ensures { option_map (λ k. k.now) result ≡ first_missing (stored_heap_view self.now) keys.now }
    {
        for key in keys {
            if !self.has(key) {
                return Some(key);
            }
        }
        None
    }
}
