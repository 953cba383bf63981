//! What bytes are read from.
ghost use Rattle.std.specs.Prelude.{◌≡◌, ◌<◌, ◌≤◌, List, Option, ℕ, length, take, drop, IfOk, OnOk, OnErr};
ghost use Rattle.std.specs.Io.KnownBytes.{Consumes, IsAtEnd, Keeps};
ghost use Rattle.gil_io.specs.Faults.{FaultRose};

use crate::Failed;

/// A reader of bytes that counts its faults. One that tells its bytes goes on telling them.
pub trait Source {
    /// The bytes that reads will give from here on, where the source tells them.
    ghost left: { Self → Option (List ℕ) };

    /// How many faults there were. The count never falls, and stays at 2^64 - 1.
    ghost faults: { Self → ℕ };

    /// Puts the next bytes at the front of the buffer, and answers how many.
    fn read(&mut self, buf: &mut [u8]) -> Result<usize, Failed>
        ensures bound { IfOk result (λ count. count ≤ length buf.new) }
        ensures bytes { IfOk result (λ count. Consumes (left self.old) (left self.new) (take count buf.new)) }
        ensures rest_stays { IfOk result (λ count. drop count buf.new ≡ drop count buf.old) }

        // With room for a byte it gives none only at the end.
        ensures end { IfOk result (λ count. count ≡ 0 → 0 < length buf.old → IsAtEnd (left self.new)) }

        // A failed read took nothing, and left the buffer as it was.
        ensures nothing_lost { OnErr result (Keeps (left self.old) (left self.new)) }
        ensures buffer_stays { OnErr result (buf.new ≡ buf.old) }

        // The count rises in a read that failed, and in no other.
        ensures no_fault { OnOk result (faults self.new ≡ faults self.old) }
        ensures failed { OnErr result (FaultRose (faults self.old) (faults self.new)) }
        ensures never_falls { faults self.old ≤ faults self.new };
}
