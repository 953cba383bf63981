//! Slots: the variables of a procedure by numbers.
ghost use Rattle.std.specs.Prelude.{◌≡◌, ◌<◌, [], None, IfOk, OnOk, length};
ghost use Rattle.gil_syntax.specs.Names.{first_place};
ghost use Rattle.gil_machine.specs.SlotNames.{Grows, IsNames, name_at, names_of};

use gil_values::Text;
use std::alloc::{AllocError, Global};
use std::collections::HashMap;

/// The names of slots, and the slot of each.
#[derive(Drop)]
pub(crate) struct SlotNames<'p> {
    pub(crate) names: Vec<&'p Text>,
    pub(crate) slots: HashMap<&'p str, usize>,
}

impl<'p> SlotNames<'p> {
    /// No names.
    pub(crate) fn new(alloc: Global) -> SlotNames<'p>
        ensures none { names_of result.names.items ≡ [] }
        ensures names { IsNames result }
    {
        SlotNames {
            names: Vec::new(alloc),
            slots: HashMap::new(alloc),
        }
    }

    /// The slot of a name, a new one where it has none.
    pub(crate) fn slot(&mut self, name: &'p Text) -> Result<usize, AllocError>
        requires { IsNames self.old }
        ensures names { OnOk result (IsNames self.new) }
        ensures grows { OnOk result (Grows (names_of self.old.names.items) (names_of self.new.names.items)) }
        ensures below { IfOk result (λ slot. slot < length (names_of self.new.names.items)) }
        ensures name { IfOk result (λ slot. name_at (names_of self.new.names.items) slot ≡ name.now) }
    {
        match self.slots.get(name.as_str()) {
            Some(slot) => Ok(*slot),
            None => self.add(name),
        }
    }

    /// A new slot.
    fn add(&mut self, name: &'p Text) -> Result<usize, AllocError>
        requires names { IsNames self.old }
        requires absent { first_place (names_of self.old.names.items) name.now ≡ None }
        ensures names { OnOk result (IsNames self.new) }
        ensures grows { OnOk result (Grows (names_of self.old.names.items) (names_of self.new.names.items)) }
        ensures below { IfOk result (λ slot. slot < length (names_of self.new.names.items)) }
        ensures name { IfOk result (λ slot. name_at (names_of self.new.names.items) slot ≡ name.now) }
    {
        let slot = self.names.len();
        let characters = name.as_str();
        self.names.push(name)?;
        self.slots.insert(characters, slot)?;
        Ok(slot)
    }
}
