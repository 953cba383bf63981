//! Classes of the terms of a list.
ghost use Rattle.std.specs.Prelude.{IfOk};
ghost use Rattle.pure_terms.specs.View.{atoms_view};
ghost use Rattle.equality_core.specs.Classified.{IsClassified};

use crate::classes::Classes;
use crate::closing::{Closing, close};
use crate::copying::copy_of;
use crate::linking::clash_proof;
use pure_terms::Atoms;
use solver_proof::Proof;
use std::alloc::{AllocError, Global};

/// What taking in the equalities of a list gave.
#[derive(Drop)]
pub enum Classified {
    Whole(Classes),
    /// The equalities can't all be true.
    Clash(Proof),
}

/// Takes in the equalities of a list.
pub fn classify(alloc: Global, atoms: &Atoms) -> Result<Classified, AllocError>
    ensures { IfOk result (IsClassified (atoms_view atoms.now)) }
{
    let list = copy_of(alloc, atoms)?;
    match close(alloc, list)? {
        Closing::Whole(classes) => match clash_proof(alloc, &classes)? {
            Some(proof) => Ok(Classified::Clash(proof)),
            None => Ok(Classified::Whole(classes)),
        },
        Closing::Clash(proof) => Ok(Classified::Clash(proof)),
    }
}
