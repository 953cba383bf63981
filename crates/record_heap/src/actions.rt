//! The actions of records.
ghost use Rattle.std.specs.Prelude.{◌≡◌, Some};
ghost use Rattle.record_heap.specs.Names.{action_of, takes_symbol_of};

use gil_values::Text;

/// An action of records.
#[derive(Clone, Copy, Debug, PartialEq, Eq)]
pub enum RecordAction {
    New,
    Lookup,
    Mutate,
    Dispose,
}

impl RecordAction {
    /// The action of this name.
    pub fn from_name(name: &Text) -> Option<RecordAction>
        ensures { result ≡ action_of name.now }
    {
        let name = name.as_str();
        if name == "new" {
            Some(RecordAction::New)
        } else if name == "lookup" {
            Some(RecordAction::Lookup)
        } else if name == "mutate" {
            Some(RecordAction::Mutate)
        } else if name == "dispose" {
            Some(RecordAction::Dispose)
        } else {
            None
        }
    }

    /// Whether the action takes a new symbol.
    pub fn takes_symbol(self) -> bool
        ensures { result ≡ takes_symbol_of (Some self) }
    {
        match self {
            RecordAction::New => true,
            RecordAction::Lookup | RecordAction::Mutate | RecordAction::Dispose => false,
        }
    }
}
