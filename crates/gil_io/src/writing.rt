//! Writing all of some bytes to a sink.
ghost use Rattle.std.specs.Prelude.{◌≡◌, ◌<◌, ◌≤◌, ℕ, length, take, OnOk, OnErr};
ghost use Rattle.std.specs.Io.KnownBytes.{Appends};
ghost use Rattle.gil_io.specs.Faults.{FaultRose};
ghost use Rattle.gil_io.specs.Writing.{IsUsedUp, TakesPart};

use crate::{Failed, Sink};
use thiserror::Error;

/// The sink met a fault before it had taken all of the bytes.
#[derive(Clone, Copy, Debug, PartialEq, Eq, Error)]
#[error("the sink met a fault")]
pub struct WriteFault;

impl From<Failed> for WriteFault {
    fn from(_: Failed) -> Self {
        WriteFault
    }
}

/// Writes all of the bytes. It offers the whole rest at each call of `write`, and takes no memory.
pub fn write_all<K: Sink>(sink: &mut K, bytes: &[u8]) -> Result<(), WriteFault>
    ensures ok { OnOk result (Appends (K.taken sink.old) (K.taken sink.new) bytes.now) }
    ensures no_fault { OnOk result (K.faults sink.new ≡ K.faults sink.old) }
    ensures fault { OnErr result (FaultRose (K.faults sink.old) (K.faults sink.new)) }

    // After a fault the sink has taken some of the bytes, from their front, and not all.
    ensures part { OnErr result (TakesPart (K.taken sink.old) (K.taken sink.new) bytes.now) }

    // A sink that tells its room fails only when it is used up.
    ensures room_stays { K.room sink.new ≡ K.room sink.old }
    ensures used_up { OnErr result (IsUsedUp (K.room sink.new) (K.taken sink.new)) }

    ensures never_falls { K.faults sink.old ≤ K.faults sink.new }
{
    let mut rest = bytes;
    while !rest.is_empty() {
        let count = sink.write(rest)?;
        rest = &rest[count..];
    }
    Ok(())
}
