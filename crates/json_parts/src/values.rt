//! Values are read from their compact text.
ghost use Rattle.std.specs.Prelude.{◌≡◌, ◌↔◌, ◌++◌, List, [], ◌∷◌, ℕ, Some, IfOk, IsUtf8};
ghost use Rattle.value_text.specs.Reading.{Gives};
ghost use Rattle.serde_json.specs.Data.{Data};
ghost use Rattle.serde_json.specs.Errors.{IsMemory};
ghost use Rattle.serde_json.specs.Read.{read, max_depth};
ghost use Rattle.serde_json.specs.View.{view};
ghost use Rattle.serde_json.specs.Written.{compact_text};
ghost use Rattle.json_parts.specs.Kept.{IsKept};

use serde_json::{Error, Value as Json};
use std::alloc::Global;
use value_text::ReadFault;

/// The value whose text the bytes are, up to the LF at their end.
pub fn value_of(alloc: Global, bytes: &[u8]) -> Result<Json, ReadFault>
    ensures text { IfOk result (λ v. (text : List ℕ) × (bytes.now ≡ text ++ 10 ∷ []) × IsUtf8 text × (read text ≡ Some (view v))) }
    // Data that their compact text keeps are read back from it.
    ensures again { (d : Data) → IsKept d max_depth → bytes.now ≡ compact_text d ++ 10 ∷ [] → Gives view result (Some d) }
{
    match bytes {
        [text @ .., b'\n'] => parsed(alloc, text),
        _ => Err(ReadFault::Form),
    }
}

/// The value whose text the bytes are.
fn parsed(alloc: Global, text: &[u8]) -> Result<Json, ReadFault>
    ensures text { IfOk result (λ v. IsUtf8 text.now × (read text.now ≡ Some (view v))) }
    ensures again { (d : Data) → IsKept d max_depth → text.now ≡ compact_text d → Gives view result (Some d) }
{
    match Json::from_slice(alloc, text) {
        Ok(value) => Ok(value),
        Err(error) => Err(fault_of(&error)),
    }
}

/// Why a text isn't read.
fn fault_of(error: &Error) -> ReadFault
    ensures { (result ≡ ReadFault.Memory) ↔ IsMemory error.now }
{
    if error.is_memory() {
        ReadFault::Memory
    } else {
        ReadFault::Form
    }
}
