//! Stores: the values of variables.
ghost use Rattle.std.specs.Prelude.{◌≡◌, ◌<◌, ◌≤◌, ◌⊎◌, ℕ, [], OnErr, OnOk, length};
ghost use Rattle.std.specs.Option.{option_map};
ghost use Rattle.gil_values.specs.View.{value_view};
ghost use Rattle.gil_machine.specs.Depth.{depth};
ghost use Rattle.gil_machine.specs.Kept.{Sets, kept_value};
ghost use Rattle.gil_machine.specs.StoreView.{store_view};

use crate::depth::{DEEPEST_VALUE, is_no_deeper};
use gil_values::Value;
use std::alloc::{AllocError, Global};

/// The values of variables by their slots, as many as were needed so far. Contracts see it by `store_view`.
#[derive(Drop)]
pub(crate) struct Store {
    values: Vec<Option<Value>>,
}

impl Store {
    /// The store without values.
    pub(crate) fn new(alloc: Global) -> Store
        ensures { store_view result ≡ [] }
    {
        Store {
            values: Vec::new(alloc),
        }
    }

    /// The value of a slot.
    pub(crate) fn get(&self, slot: usize) -> Option<&Value>
        ensures { option_map (λ v. value_view v.now) result ≡ kept_value (store_view self.now) slot }
    {
        match self.values.get(slot) {
            Some(kept) => kept.as_ref(),
            None => None,
        }
    }

    /// Gives a slot a value, where lists don't stand too deep in one another.
    pub(crate) fn set(&mut self, slot: usize, value: Value) -> Result<(), AllocError>
        ensures sets { OnOk result (Sets (store_view self.old) (store_view self.new) slot (value_view value)) }
        ensures within { OnOk result (depth (value_view value) ≤ DEEPEST_VALUE) }
        ensures beyond { OnErr result ((DEEPEST_VALUE < depth (value_view value)) ⊎ (length (store_view self.old) ≤ slot)) }
    {
        if !is_no_deeper(&value, DEEPEST_VALUE) {
            return Err(AllocError);
        }
        if slot < self.values.len() {
            self.values[slot] = Some(value);
            Ok(())
        } else {
            self.lengthen(slot)?;
            self.values.push(Some(value))?;
            Ok(())
        }
    }

    /// As many slots without values that there are so many.
    fn lengthen(&mut self, count: usize) -> Result<(), AllocError>
        requires { length self.old.values.items ≤ count }
        ensures count { OnOk result (length self.new.values.items ≡ count) }
        ensures same { OnOk result ((j : ℕ) → kept_value (store_view self.new) j ≡ kept_value (store_view self.old) j) }
    {
        for _slot in self.values.len()..count {
            self.values.push(None)?;
        }
        Ok(())
    }
}
