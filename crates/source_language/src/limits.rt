//! Why a source isn't compiled.
ghost use Rattle.std.specs.Prelude.{◌≡◌, map};
ghost use Rattle.gil_syntax.specs.View.{proc_view};
ghost use Rattle.source_language.specs.Limits as limits;
ghost use Rattle.source_language.specs.declared.limits.TooMany.TheVariants.{Memory};

use crate::pieces::code_len;
use gil_syntax::Proc;
use std::alloc::AllocError;
use thiserror::Error;

/// Why a source isn't compiled.
#[derive(Clone, Copy, Debug, PartialEq, Eq, Error)]
pub enum TooMany {
    /// A function gives more than 1,000 commands: the first one that does begins at this byte.
    #[error("the function at byte {0} gives more than 1000 commands")]
    Limit(usize),
    #[error("no memory is left")]
    Memory,
}

impl From<AllocError> for TooMany {
    ghost from_gives = { λ e r. r ≡ Memory };

    fn from(_error: AllocError) -> TooMany {
        TooMany::Memory
    }
}

/// How many commands a procedure may have.
const MOST_COMMANDS: usize = 1000;

/// The number of the first procedure that has too many commands.
pub fn first_long(procs: &[Proc]) -> Option<usize>
    ensures { result ≡ limits.first_long (map proc_view procs.now) }
{
    for number in 0..procs.len() {
        if code_len(&procs[number].body) > MOST_COMMANDS {
            return Some(number);
        }
    }
    None
}
