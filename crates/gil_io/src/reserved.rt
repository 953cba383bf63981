//! Bytes that are kept in memory that was reserved before the first of them came.
ghost use Rattle.std.specs.Prelude.{◌≡◌, ◌↔◌, ◌++◌, ◌-◌, ◌≤◌, [], min, length, take, IfOk, IsTrue};

use std::alloc::{AllocError, Global};
use std::marker::Model;

/// Room for some bytes, and those that stand in it.
#[derive(Drop)]
pub struct Reserved {
    bytes: Vec<u8>,
    room: usize,
}

impl Model for Reserved {
    ghost use Rattle.std.specs.Prelude.{◌≤◌, length, vec_capacity};
    ghost use Rattle.gil_io.specs.Reserved.{Kept};

    ghost Value = { Kept };

    ghost view = { λ reserved. record { taken = reserved.bytes.items; room = reserved.room } };

    ghost invariant = { λ reserved. (length reserved.bytes.items ≤ reserved.room)
        × (reserved.room ≤ vec_capacity reserved.bytes) };
}

impl Reserved {
    pub fn new(alloc: Global, room: usize) -> Result<Reserved, AllocError>
        ensures { IfOk result (λ reserved. reserved ≡ record { taken = []; room = room }) }
    {
        let bytes = Vec::with_capacity(alloc, room)?;
        Ok(Reserved { bytes, room })
    }

    pub fn bytes(&self) -> &[u8]
        ensures bytes { result.now ≡ self.now.taken }
        ensures within { length self.now.taken ≤ self.now.room }
    {
        &self.bytes
    }

    pub fn is_full(&self) -> bool
        ensures { IsTrue result ↔ (self.now.room ≤ length self.now.taken) }
    {
        self.room == self.bytes.len()
    }

    /// Takes bytes from the front of the piece, at most `most` and what there is room for, and answers how many.
    pub fn take(&mut self, piece: &[u8], most: usize) -> usize
        ensures count { result ≡ min most (min (length piece.now) (self.old.room - length self.old.taken)) }
        ensures taken { self.new ≡ record self.old { taken = self.old.taken ++ take result piece.now } }
    {
        let room = self.room - self.bytes.len();
        let count = most.min(piece.len().min(room));
        self.bytes.extend_from_slice(&piece[..count]).unwrap();
        count
    }
}
