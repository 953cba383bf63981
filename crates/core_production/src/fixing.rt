//! What fixes a key that is missed.
ghost use Rattle.std.specs.Prelude.{◌≡◌, ◌∷◌, [], IfOk};
ghost use Rattle.core_uses.specs.Uses.{fix_of};
ghost use Rattle.sym_model.specs.View.{key_view, fixes_view};

use core_uses::fix_of_key;
use sequence::Sequence;
use std::alloc::{AllocError, Global};
use sym_model::{Fixes, SymKey};

/// The core predicate of the key alone.
pub fn fixes_of_key(alloc: Global, key: &SymKey) -> Result<Fixes, AllocError>
    ensures { IfOk result (λ fs. fixes_view fs ≡ fix_of (key_view key.now) ∷ []) }
{
    let mut fixes = Sequence::new(alloc);
    fixes.push(fix_of_key(alloc, key)?)?;
    Ok(fixes)
}
