//! The keys of symbolic states.
ghost use Rattle.std.specs.Prelude.{◌≡◌, IfOk};
ghost use Rattle.sym_model.specs.View.{sub_view, key_view};

use pure_terms::Term;
use std::alloc::{AllocError, Global};

/// What of a location a key holds, with terms for names and offsets. Contracts see it as its pure data, by `sub_view`.
#[derive(Debug, Drop)]
pub enum SymSub {
    /// The property whose name is this term's value.
    Name(Term),
    /// The cell whose offset is this term's value.
    At(Term),
    /// The names that a record has.
    Shape,
    /// The number of cells of a block.
    Bound,
    /// The names that an object has.
    Dom,
    /// The prototype of an object.
    Proto,
    /// That the location was disposed of or freed.
    Gone,
}

/// A key whose location is a term's value. Contracts see it as its pure data, by `key_view`.
#[derive(Debug)]
pub struct SymKey {
    pub loc: Term,
    pub sub: SymSub,
}

// Written out, so that code which may drop a key calls this, and isn't made longer by it.
impl Drop for SymKey {
    fn drop(self) {
        let SymKey { loc: _, sub: _ } = self;
    }
}

impl SymSub {
    /// An equal subkey.
    pub fn copy(&self, alloc: Global) -> Result<SymSub, AllocError>
        ensures { IfOk result (λ s. sub_view s ≡ sub_view self.now) }
    {
        match self {
            SymSub::Name(name) => Ok(SymSub::Name(name.copy(alloc)?)),
            SymSub::At(offset) => Ok(SymSub::At(offset.copy(alloc)?)),
            SymSub::Shape => Ok(SymSub::Shape),
            SymSub::Bound => Ok(SymSub::Bound),
            SymSub::Dom => Ok(SymSub::Dom),
            SymSub::Proto => Ok(SymSub::Proto),
            SymSub::Gone => Ok(SymSub::Gone),
        }
    }
}

impl SymKey {
    /// An equal key.
    pub fn copy(&self, alloc: Global) -> Result<SymKey, AllocError>
        ensures { IfOk result (λ k. key_view k ≡ key_view self.now) }
    {
        let loc = self.loc.copy(alloc)?;
        let sub = self.sub.copy(alloc)?;
        Ok(SymKey { loc, sub })
    }
}
