//! The actions of blocks.
ghost use Rattle.std.specs.Prelude.{◌≡◌, Some};
ghost use Rattle.block_heap.specs.Names.{action_of, takes_symbol_of};

use gil_values::Text;

/// An action of blocks.
#[derive(Clone, Copy, Debug, PartialEq, Eq)]
pub enum BlockAction {
    Alloc,
    Load,
    Store,
    Free,
}

impl BlockAction {
    /// The action of this name.
    pub fn from_name(name: &Text) -> Option<BlockAction>
        ensures { result ≡ action_of name.now }
    {
        let name = name.as_str();
        if name == "alloc" {
            Some(BlockAction::Alloc)
        } else if name == "load" {
            Some(BlockAction::Load)
        } else if name == "store" {
            Some(BlockAction::Store)
        } else if name == "free" {
            Some(BlockAction::Free)
        } else {
            None
        }
    }

    /// Whether the action takes a new symbol.
    pub fn takes_symbol(self) -> bool
        ensures { result ≡ takes_symbol_of (Some self) }
    {
        matches!(self, BlockAction::Alloc)
    }
}
