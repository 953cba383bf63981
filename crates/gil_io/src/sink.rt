//! What bytes are written to.
ghost use Rattle.std.specs.Prelude.{◌≡◌, ◌<◌, ◌≤◌, List, Option, ℕ, length, take, IfOk, OnOk, OnErr};
ghost use Rattle.std.specs.Io.KnownBytes.{Appends, Keeps};
ghost use Rattle.gil_io.specs.Faults.{FaultRose};
ghost use Rattle.gil_io.specs.Writing.{IsUsedUp};

use crate::Failed;

/// A writer of bytes that counts its faults. One that tells its bytes goes on telling them.
pub trait Sink {
    /// The bytes that writes have given it so far, where the sink tells them.
    ghost taken: { Self → Option (List ℕ) };

    /// How many faults there were. The count never falls, and stays at 2^64 - 1.
    ghost faults: { Self → ℕ };

    /// How many bytes it takes in all, where the sink tells: such a sink fails only when they are taken.
    ghost room: { Self → Option ℕ };

    /// Takes some of the piece, from its front, and answers how many bytes.
    fn write(&mut self, piece: &[u8]) -> Result<usize, Failed>
        ensures bound { IfOk result (λ count. count ≤ length piece.now) }
        ensures bytes { IfOk result (λ count. Appends (taken self.old) (taken self.new) (take count piece.now)) }
        ensures progress { IfOk result (λ count. 0 < length piece.now → 0 < count) }

        // A failed write took nothing.
        ensures nothing_taken { OnErr result (Keeps (taken self.old) (taken self.new)) }

        ensures room_stays { room self.new ≡ room self.old }
        ensures used_up { OnErr result (IsUsedUp (room self.new) (taken self.new)) }

        // The count rises in a write that failed, and in no other.
        ensures no_fault { OnOk result (faults self.new ≡ faults self.old) }
        ensures failed { OnErr result (FaultRose (faults self.old) (faults self.new)) }
        ensures never_falls { faults self.old ≤ faults self.new };
}
