//! A heap as it is kept in memory.
ghost use Rattle.std.specs.Prelude.{◌≡◌, OnOk, OnErr};
ghost use Rattle.std.specs.Option.{option_map};
ghost use Rattle.std.specs.FinMap.{empty, get, contains_key, insert, remove};
ghost use Rattle.gil_values.specs.View.{value_view};
ghost use Rattle.mem_model.specs.Heaps.{HasKey};
ghost use Rattle.mem_model.specs.Stored.{stored_heap_view};
ghost use Rattle.mem_model.specs.Tables.{LacksAll, with_all, without_keys};

use crate::keys::Key;
use gil_values::Value;
use std::alloc::{AllocError, Global};
use std::collections::BTreeMap;

/// A heap as it is kept in memory: its entries in the order of their keys. Contracts see it as a heap, by
/// `stored_heap_view`. A lookup and a change cost the logarithm of the number of entries.
#[derive(Debug, Drop)]
pub struct StoredHeap {
    entries: BTreeMap<Key, Value>,
}

impl StoredHeap {
    /// The empty heap, which takes no memory.
    pub fn new(alloc: Global) -> StoredHeap
        ensures { stored_heap_view result ≡ empty }
    {
        StoredHeap {
            entries: BTreeMap::new(alloc),
        }
    }

    /// The value at a key.
    pub fn get(&self, key: &Key) -> Option<&Value>
        ensures { option_map (λ v. value_view v.now) result ≡ get (stored_heap_view self.now) key.now }
    {
        self.entries.get(key)
    }

    /// Whether the heap has a key.
    pub fn has(&self, key: &Key) -> bool
        ensures { result ≡ contains_key (stored_heap_view self.now) key.now }
    {
        self.entries.contains_key(key)
    }

    /// Puts a value at a key, in the place of the one that is there.
    pub fn put(&mut self, key: Key, value: Value) -> Result<(), AllocError>
        ensures ok { OnOk result (stored_heap_view self.new ≡ insert (stored_heap_view self.old) key (value_view value)) }
        ensures err { OnErr result (stored_heap_view self.new ≡ stored_heap_view self.old) }
    {
        self.entries.insert(key, value)?;
        Ok(())
    }

    /// Puts a value in the place of the one that is at the key, which takes no memory.
    pub fn replace(&mut self, key: Key, value: Value)
        requires { HasKey (stored_heap_view self.old) key }
        ensures { stored_heap_view self.new ≡ insert (stored_heap_view self.old) key (value_view value) }
    {
        match self.entries.insert(key, value) {
            Ok(_) => {}
            Err(_) => unreachable!(),
        }
    }

    /// Removes a key and its value.
    pub fn remove(&mut self, key: &Key)
        ensures { stored_heap_view self.new ≡ remove (stored_heap_view self.old) key.now }
    {
        let _ = self.entries.remove(key);
    }

    /// Removes keys and their values.
    pub fn remove_all(&mut self, keys: &[Key])
        ensures { stored_heap_view self.new ≡ without_keys keys.now (stored_heap_view self.old) }
    {
        for key in keys {
            self.remove(key);
        }
    }

    /// Puts an equal value at an equal key.
    fn put_copy(&mut self, alloc: Global, key: &Key, value: &Value) -> Result<(), AllocError>
        ensures ok { OnOk result (stored_heap_view self.new ≡ insert (stored_heap_view self.old) key.now (value_view value.now)) }
        ensures err { OnErr result (stored_heap_view self.new ≡ stored_heap_view self.old) }
    {
        let key = key.copy(alloc)?;
        let value = value.copy(alloc)?;
        self.put(key, value)
    }

    /// Puts one value at each of the keys, which the heap lacks. After want of memory the heap is as before.
    pub fn put_all(&mut self, alloc: Global, keys: &[Key], value: &Value) -> Result<(), AllocError>
        requires { LacksAll (stored_heap_view self.old) keys.now }
        ensures ok { OnOk result (stored_heap_view self.new ≡ with_all keys.now (value_view value.now) (stored_heap_view self.old)) }
        ensures err { OnErr result (stored_heap_view self.new ≡ stored_heap_view self.old) }
    {
        for (index, key) in keys.iter().enumerate() {
            if let Err(error) = self.put_copy(alloc, key, value) {
                self.remove_all(&keys[..index]);
                return Err(error);
            }
        }
        Ok(())
    }
}
