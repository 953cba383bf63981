//! A sink with reserved room whose calls fail as they are told.
ghost use Rattle.std.specs.Prelude.{◌≡◌, ◌↔◌, ◌⊎◌, ◌++◌, ◌-◌, ◌<◌, ◌≤◌, [], min, length, take, IfOk, OnErr, IsErr, Contains, None, Some};
ghost use Rattle.gil_io.specs.Faults.{next_count};

use crate::calls::Calls;
use crate::reserved::Reserved;
use crate::{Failed, Sink};
use std::alloc::{AllocError, Global};
use std::marker::Model;

/// A sink of as many bytes as were reserved for it, at most so many a call. Calls are numbered from 1, and stay at
/// 2^64 - 1; those whose number was given fail. A write takes no memory. Clauses see the bytes that it has taken, its room
/// in all, the most bytes of a call, the numbers that fail, the number of the last call and the count of faults.
#[derive(Drop)]
pub struct MemSink {
    kept: Reserved,
    most: usize,
    calls: Calls,
}

impl Model for MemSink {
    ghost use Rattle.std.specs.Prelude.{◌<◌};
    ghost use Rattle.gil_io.specs.MemSink.{MemSinkState};

    ghost Value = { MemSinkState };

    ghost view = { λ sink. record {
      taken = sink.kept.taken;
      room = sink.kept.room;
      most = sink.most;
      fail = sink.calls.fail;
      calls = sink.calls.calls;
      faults = sink.calls.faults;
    } };

    ghost invariant = { λ sink. 0 < sink.most };
}

impl MemSink {
    /// Reserves memory for `room` bytes. The sink takes at most `most` a call, and fails at the calls with these numbers.
    pub fn new(
        alloc: Global,
        room: usize,
        most: usize,
        fail: Vec<usize>,
    ) -> Result<MemSink, AllocError>
        requires { 0 < most }
        ensures { IfOk result (λ sink. sink ≡ record {
          taken = [];
          room = room;
          most = most;
          fail = fail.items;
          calls = 0;
          faults = 0;
        }) }
    {
        let kept = Reserved::new(alloc, room)?;
        Ok(MemSink {
            kept,
            most,
            calls: Calls::new(fail),
        })
    }

    /// The bytes that it has taken.
    pub fn taken(&self) -> &[u8]
        ensures bytes { result.now ≡ self.now.taken }
        ensures within { length self.now.taken ≤ self.now.room }
    {
        self.kept.bytes()
    }
}

impl Sink for MemSink {
    ghost taken = { λ sink. Some sink.taken };

    ghost faults = { λ sink. sink.faults };

    ghost room = { λ _. None };

    /// Takes what fits, at most the most bytes of a call, where this call isn't to fail.
    fn write(&mut self, piece: &[u8]) -> Result<usize, Failed>
        // It fails where it is told to, and where the room is used up and the piece has a byte.
        ensures fails { IsErr result ↔ (Contains self.old.fail (next_count self.old.calls)
            ⊎ ((0 < length piece.now) × (self.old.room ≤ length self.old.taken))) }

        ensures count { IfOk result (λ count.
            count ≡ min self.old.most (min (length piece.now) (self.old.room - length self.old.taken))) }
        ensures bytes { IfOk result (λ count. self.new ≡ record self.old {
          taken = self.old.taken ++ take count piece.now;
          calls = next_count self.old.calls;
        }) }
        ensures progress { IfOk result (λ count. 0 < length piece.now → 0 < count) }

        ensures fault { OnErr result (self.new ≡ record self.old {
          calls = next_count self.old.calls;
          faults = next_count self.old.faults;
        }) }

        ensures never_falls { self.old.faults ≤ self.new.faults }
    {
        let told = self.calls.begin();
        if told || (self.kept.is_full() && !piece.is_empty()) {
            self.calls.add_fault();
            return Err(Failed);
        }
        Ok(self.kept.take(piece, self.most))
    }
}
