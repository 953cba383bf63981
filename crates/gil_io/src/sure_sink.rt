//! A sink with reserved room, which fails only when that is used up.
ghost use Rattle.std.specs.Prelude.{◌≡◌, ◌↔◌, ◌++◌, ◌-◌, ◌<◌, ◌≤◌, [], min, length, take, IfOk, OnErr, IsErr, Some};
ghost use Rattle.gil_io.specs.Faults.{next_count};

use crate::reserved::Reserved;
use crate::{Failed, Sink};
use std::alloc::{AllocError, Global};
use std::marker::Model;

/// A sink of as many bytes as were reserved for it. A write takes no memory. Clauses see the bytes that it has taken, its
/// room in all, and its count of faults.
#[derive(Drop)]
pub struct SureSink {
    kept: Reserved,
    faults: u64,
}

impl Model for SureSink {
    ghost use Rattle.gil_io.specs.SureSink.{SureSinkState};

    ghost Value = { SureSinkState };

    ghost view = { λ sink. record { taken = sink.kept.taken; room = sink.kept.room; faults = sink.faults } };
}

impl SureSink {
    /// Reserves memory for `room` bytes.
    pub fn new(alloc: Global, room: usize) -> Result<SureSink, AllocError>
        ensures { IfOk result (λ sink. sink ≡ record { taken = []; room = room; faults = 0 }) }
    {
        let kept = Reserved::new(alloc, room)?;
        Ok(SureSink { kept, faults: 0 })
    }

    /// The bytes that it has taken.
    pub fn taken(&self) -> &[u8]
        ensures bytes { result.now ≡ self.now.taken }
        ensures within { length self.now.taken ≤ self.now.room }
    {
        self.kept.bytes()
    }
}

impl Sink for SureSink {
    ghost taken = { λ sink. Some sink.taken };

    ghost faults = { λ sink. sink.faults };

    ghost room = { λ sink. Some sink.room };

    /// Takes what fits. It fails exactly where the room is used up and the piece has a byte.
    fn write(&mut self, piece: &[u8]) -> Result<usize, Failed>
        ensures fails { IsErr result ↔ ((0 < length piece.now) × (self.old.room ≤ length self.old.taken)) }
        ensures count { IfOk result (λ count. count ≡ min (length piece.now) (self.old.room - length self.old.taken)) }
        ensures bytes { IfOk result (λ count.
            self.new ≡ record self.old { taken = self.old.taken ++ take count piece.now }) }
        ensures fault { OnErr result (self.new ≡ record self.old { faults = next_count self.old.faults }) }
        ensures progress { IfOk result (λ count. 0 < length piece.now → 0 < count) }
        ensures never_falls { self.old.faults ≤ self.new.faults }
    {
        if self.kept.is_full() && !piece.is_empty() {
            self.faults = self.faults.saturating_add(1);
            return Err(Failed);
        }
        Ok(self.kept.take(piece, usize::MAX))
    }
}
