//! Pieces of bytes.
ghost use Rattle.std.specs.Prelude.{◌<◌, ◌^◌, ℕ, List, length, IfOk};
ghost use Rattle.value_text.specs.Reading.{Gives};
ghost use Rattle.tests_read_back.specs.Pieces.{IsPiece, IsWritten, split};

use value_text::{ReadFault, expect, long_at};

/// The bytes that stand behind a line with their number, and what follows them.
pub fn piece_at(bytes: &[u8]) -> Result<(&[u8], &[u8]), ReadFault>
    // What is split is the number in digits, a line feed, so many bytes, and the rest.
    ensures split { IfOk result (λ x. IsPiece bytes.now x.0.now x.1.now) }
    // Each piece behind the numeral of its length and a line feed is found, whatever follows it.
    ensures again { (piece rest : List ℕ) → length piece < 2 ^ 64 → IsWritten bytes.now piece rest
        → Gives (λ x. (x.0.now, x.1.now)) result (split piece rest) }
{
    let (size, rest) = long_at(bytes)?;
    let rest = expect("\n", rest)?;
    match rest.split_at_checked(size) {
        Some(parts) => Ok(parts),
        None => Err(ReadFault::Form),
    }
}
