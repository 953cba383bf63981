//! The actions of objects.
ghost use Rattle.std.specs.Prelude.{◌≡◌, Some};
ghost use Rattle.object_heap.specs.Names.{action_of, takes_symbol_of};

use gil_values::Text;

/// An action of objects.
#[derive(Clone, Copy, Debug, PartialEq, Eq)]
pub enum ObjectAction {
    New,
    Get,
    Set,
    Delete,
    Has,
    GetProto,
    SetProto,
}

impl ObjectAction {
    /// The action of this name.
    pub fn from_name(name: &Text) -> Option<ObjectAction>
        ensures { result ≡ action_of name.now }
    {
        let name = name.as_str();
        if name == "new" {
            Some(ObjectAction::New)
        } else if name == "get" {
            Some(ObjectAction::Get)
        } else if name == "set" {
            Some(ObjectAction::Set)
        } else if name == "delete" {
            Some(ObjectAction::Delete)
        } else if name == "has" {
            Some(ObjectAction::Has)
        } else if name == "getproto" {
            Some(ObjectAction::GetProto)
        } else if name == "setproto" {
            Some(ObjectAction::SetProto)
        } else {
            None
        }
    }

    /// Whether the action takes a new symbol.
    pub fn takes_symbol(self) -> bool
        ensures { result ≡ takes_symbol_of (Some self) }
    {
        matches!(self, ObjectAction::New)
    }
}
