//! The fault that is named of parts that aren't valid.
ghost use Rattle.std.specs.Prelude.{◌≡◌};
ghost use Rattle.gil_syntax.specs.declared.validity.InvalidKind.TheVariants.{Memory};

use crate::InvalidKind;
use std::alloc::AllocError;
use thiserror::Error;

/// A fault of parts, and the number of the item that has it: items are counted from 0, through the procedures, then the
/// specifications, then the predicates. Where memory ran out the number says nothing.
#[derive(Clone, Copy, Debug, PartialEq, Eq, Error)]
#[error("item {item} of the program is at fault: {kind:?}")]
pub struct Invalid {
    pub kind: InvalidKind,
    pub item: usize,
}

impl From<AllocError> for Invalid {
    ghost from_gives = { λ e r. r.kind ≡ Memory };

    fn from(_error: AllocError) -> Invalid {
        Invalid {
            kind: InvalidKind::Memory,
            item: 0,
        }
    }
}
