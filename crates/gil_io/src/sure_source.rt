//! A source that never fails.
ghost use Rattle.std.specs.Prelude.{◌≡◌, ◌≤◌, ℕ, List, min, length, drop, IsOk, IfOk, Some};
ghost use Rattle.gil_io.specs.Reading.{MovesFront};

use crate::copying::copy_front;
use crate::{Failed, Source};
use std::marker::Model;

/// The bytes of a vector, read without a fault. Clauses see it as the bytes that are left.
#[derive(Drop)]
pub struct SureSource {
    bytes: Vec<u8>,
    at: usize,
}

impl Model for SureSource {
    ghost Value = { List ℕ };

    ghost view = { λ source. drop source.at source.bytes.items };

    ghost invariant = { λ source. source.at ≤ length source.bytes.items };
}

impl SureSource {
    /// A source that has these bytes left.
    pub fn new(bytes: Vec<u8>) -> SureSource
        ensures { result ≡ bytes.items }
    {
        SureSource { bytes, at: 0 }
    }
}

impl Source for SureSource {
    ghost left = { λ source. Some source };

    ghost faults = { λ _. 0 };

    /// Reads what is left, as far as the buffer has room for it.
    fn read(&mut self, buf: &mut [u8]) -> Result<usize, Failed>
        ensures sure { IsOk result }
        ensures count { IfOk result (λ count. count ≡ min (length self.old) (length buf.old)) }
        ensures bytes { IfOk result (MovesFront self.old self.new buf.old buf.new) }
    {
        let count = copy_front(&self.bytes[self.at..], buf, usize::MAX);
        self.at += count;
        Ok(count)
    }
}
