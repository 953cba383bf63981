//! The keys of heaps, and the memories.
ghost use Rattle.std.specs.Prelude.{◌≡◌, IfOk};
ghost use Rattle.mem_model.specs.declared.keys.Sub.TheVariants.{Name};
ghost use Rattle.mem_model.specs.Keys.{key};

use gil_values::Text;
use std::alloc::{AllocError, Global};

/// What of a location a key holds.
#[derive(Debug, Drop)]
pub enum Sub {
    /// The property of this name.
    Name(Text),
    /// The cell at this offset.
    At(i128),
    /// The names that a record has.
    Shape,
    /// The number of cells of a block.
    Bound,
    /// The names that an object has.
    Dom,
    /// The prototype of an object.
    Proto,
    /// That the location was disposed of or freed.
    Gone,
}

/// A key of a heap: a location, which is a symbol's number, and a subkey.
#[derive(Debug, Drop)]
pub struct Key {
    pub loc: u64,
    pub sub: Sub,
}

/// The memories: records, blocks of cells, and objects with prototypes.
#[derive(Clone, Copy, Debug, PartialEq, Eq)]
pub enum MemoryName {
    Record,
    Block,
    Object,
}

impl Key {
    /// The key of a location's property.
    pub fn property(alloc: Global, location: u64, name: &Text) -> Result<Key, AllocError>
        ensures { IfOk result (λ k. k ≡ key location (Name name.now)) }
    {
        Ok(Key {
            loc: location,
            sub: Sub::Name(name.copy(alloc)?),
        })
    }

    /// An equal key.
    pub fn copy(&self, alloc: Global) -> Result<Key, AllocError>
        ensures { IfOk result (λ k. k ≡ self.now) }
    {
        let sub = self.sub.copy(alloc)?;
        Ok(Key { loc: self.loc, sub })
    }
}

impl Sub {
    /// An equal subkey.
    pub fn copy(&self, alloc: Global) -> Result<Sub, AllocError>
        ensures { IfOk result (λ s. s ≡ self.now) }
    {
        match self {
            Sub::Name(name) => Ok(Sub::Name(name.copy(alloc)?)),
            Sub::At(offset) => Ok(Sub::At(*offset)),
            Sub::Shape => Ok(Sub::Shape),
            Sub::Bound => Ok(Sub::Bound),
            Sub::Dom => Ok(Sub::Dom),
            Sub::Proto => Ok(Sub::Proto),
            Sub::Gone => Ok(Sub::Gone),
        }
    }
}
