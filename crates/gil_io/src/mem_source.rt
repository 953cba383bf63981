//! A source of a vector's bytes whose calls fail as they are told.
ghost use Rattle.std.specs.Prelude.{◌≡◌, ◌↔◌, ◌<◌, ◌≤◌, [], min, length, drop, IfOk, OnErr, IsErr, Contains, Some};
ghost use Rattle.gil_io.specs.Faults.{next_count};
ghost use Rattle.gil_io.specs.Reading.{MovesFront};

use crate::calls::Calls;
use crate::copying::copy_front;
use crate::{Failed, Source};
use std::marker::Model;

/// The bytes of a vector, at most so many a call. Calls are numbered from 1, and stay at 2^64 - 1; those whose number was
/// given fail. Clauses see the bytes that are left, the most bytes of a call, the numbers that fail, the number of the last
/// call and the count of faults.
#[derive(Drop)]
pub struct MemSource {
    bytes: Vec<u8>,
    at: usize,
    most: usize,
    calls: Calls,
}

impl Model for MemSource {
    ghost use Rattle.std.specs.Prelude.{◌<◌, ◌≤◌, length, drop};
    ghost use Rattle.gil_io.specs.MemSource.{MemSourceState};

    ghost Value = { MemSourceState };

    ghost view = { λ source. record {
      left = drop source.at source.bytes.items;
      most = source.most;
      fail = source.calls.fail;
      calls = source.calls.calls;
      faults = source.calls.faults;
    } };

    ghost invariant = { λ source. (source.at ≤ length source.bytes.items) × (0 < source.most) };
}

impl MemSource {
    /// A source that has these bytes left, gives at most `most` a call, and fails at the calls with these numbers.
    pub fn new(bytes: Vec<u8>, most: usize, fail: Vec<usize>) -> MemSource
        requires { 0 < most }
        ensures { result ≡ record { left = bytes.items; most = most; fail = fail.items; calls = 0; faults = 0 } }
    {
        MemSource {
            bytes,
            at: 0,
            most,
            calls: Calls::new(fail),
        }
    }
}

impl Source for MemSource {
    ghost left = { λ source. Some source.left };

    ghost faults = { λ source. source.faults };

    /// Reads what is left, as far as the buffer and the most bytes of a call allow, where this call isn't to fail.
    fn read(&mut self, buf: &mut [u8]) -> Result<usize, Failed>
        ensures fails { IsErr result ↔ Contains self.old.fail (next_count self.old.calls) }

        ensures count { IfOk result (λ count.
            count ≡ min self.old.most (min (length self.old.left) (length buf.old))) }
        ensures bytes { IfOk result (MovesFront self.old.left self.new.left buf.old buf.new) }
        ensures source { IfOk result (λ count. self.new ≡ record self.old {
          left = drop count self.old.left;
          calls = next_count self.old.calls;
        }) }
        ensures end { IfOk result (λ count. count ≡ 0 → 0 < length buf.old → self.old.left ≡ []) }

        ensures fault { OnErr result (self.new ≡ record self.old {
          calls = next_count self.old.calls;
          faults = next_count self.old.faults;
        }) }
        ensures buffer_stays { OnErr result (buf.new ≡ buf.old) }

        ensures never_falls { self.old.faults ≤ self.new.faults }
    {
        if self.calls.begin() {
            self.calls.add_fault();
            return Err(Failed);
        }
        let count = copy_front(&self.bytes[self.at..], buf, self.most);
        self.at += count;
        Ok(count)
    }
}
