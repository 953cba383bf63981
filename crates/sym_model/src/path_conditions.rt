//! The conditions of a path.
ghost use Rattle.std.specs.Prelude.{◌≡◌, [], ◌∷◌, ◌++◌, OnOk, OnErr};
ghost use Rattle.pure_terms.specs.View.{atom_view, atoms_view};
ghost use Rattle.sym_model.specs.View.{path_view};

use pure_terms::{Atom, Atoms};
use sequence::Sequence;
use std::alloc::{AllocError, Global};

/// The conditions under which a path is taken, which contracts see as the list of their pure data by
/// `path_view`.
#[derive(Debug, Drop)]
pub struct PathCond {
    conds: Atoms,
}

impl PathCond {
    /// No condition, which takes no memory.
    pub fn new(alloc: Global) -> PathCond
        ensures { path_view result ≡ [] }
    {
        PathCond {
            conds: Sequence::new(alloc),
        }
    }

    /// Adds a condition at the end.
    pub fn add(&mut self, condition: Atom) -> Result<(), AllocError>
        ensures ok { OnOk result (path_view self.new ≡ path_view self.old ++ atom_view condition ∷ []) }
        ensures err { OnErr result (path_view self.new ≡ path_view self.old) }
    {
        self.conds.push(condition)?;
        Ok(())
    }

    /// The conditions in order.
    pub fn atoms(&self) -> &Atoms
        ensures { atoms_view result.now ≡ path_view self.now }
    {
        &self.conds
    }

    /// The conditions in order, which stay where they are.
    pub fn into_atoms(self) -> Atoms
        ensures { atoms_view result ≡ path_view self }
    {
        let PathCond { conds } = self;
        conds
    }
}
