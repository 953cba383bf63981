//! How a path ends.
ghost use Rattle.std.specs.Prelude.{◌≡◌, IfOk};
ghost use Rattle.std.specs.Option.{option_map};
ghost use Rattle.sym_paths.specs.View.{end_view};

use gil_values::Place;
use pure_terms::{Reason, Term};
use std::alloc::{AllocError, Global};
use sym_model::SymKey;

/// How a path ends. Contracts see it as its pure data, by `end_view`.
#[derive(Debug, Drop)]
pub enum PathEnd {
    /// The entry returned this.
    Returned(Term),
    /// The command at the place failed with this.
    Failed(Term, Place),
    /// The command at the place threw this, and no handler caught it.
    Threw(Term, Place),
    /// The action at the place missed a key.
    Missed(SymKey, Place),
    Vanished,
    /// The bound was reached.
    Cut,
    /// At the place the conditions are outside the fragment, for this reason.
    Unknown(Place, Reason),
}

/// An equal place.
pub fn copy_place(alloc: Global, place: &Place) -> Result<Place, AllocError>
    ensures { IfOk result (λ p. p ≡ place.now) }
{
    let proc = place.proc.copy(alloc)?;
    Ok(Place { proc, at: place.at })
}

impl PathEnd {
    /// An equal end.
    pub fn copy(&self, alloc: Global) -> Result<PathEnd, AllocError>
        ensures { IfOk result (λ e. end_view e ≡ end_view self.now) }
    {
        match self {
            PathEnd::Returned(term) => Ok(PathEnd::Returned(term.copy(alloc)?)),
            PathEnd::Failed(term, place) => {
                let term = term.copy(alloc)?;
                Ok(PathEnd::Failed(term, copy_place(alloc, place)?))
            }
            PathEnd::Threw(term, place) => {
                let term = term.copy(alloc)?;
                Ok(PathEnd::Threw(term, copy_place(alloc, place)?))
            }
            PathEnd::Missed(key, place) => {
                let key = key.copy(alloc)?;
                Ok(PathEnd::Missed(key, copy_place(alloc, place)?))
            }
            PathEnd::Vanished => Ok(PathEnd::Vanished),
            PathEnd::Cut => Ok(PathEnd::Cut),
            PathEnd::Unknown(place, reason) => {
                Ok(PathEnd::Unknown(copy_place(alloc, place)?, *reason))
            }
        }
    }
}

pub(crate) fn copy_end(alloc: Global, end: &Option<PathEnd>) -> Result<Option<PathEnd>, AllocError>
    ensures { IfOk result (λ e. option_map end_view e ≡ option_map end_view end.now) }
{
    match end {
        Some(end) => Ok(Some(end.copy(alloc)?)),
        None => Ok(None),
    }
}
