//! Reading a source to its end.
ghost use Rattle.std.specs.Prelude.{◌≡◌, ◌↔◌, ◌<◌, ◌≤◌, length, IfOk, OnOk, IfSome, IsErrOf};
ghost use Rattle.std.specs.Io.KnownBytes.{IsAtEnd};
ghost use Rattle.gil_io.specs.Faults.{FaultRose};
ghost use Rattle.gil_io.specs.Reading.{Takes};
ghost use Rattle.gil_io.specs.declared.reading.ReadEnd.TheVariants.{ReadFault, Memory};

use crate::{Failed, Source};
use std::alloc::{AllocError, Global};
use thiserror::Error;

// The bytes of one read.
const CHUNK: usize = 4096;

/// Why a source was not read to its end.
#[derive(Clone, Copy, Debug, PartialEq, Eq, Error)]
pub enum ReadEnd {
    #[error("the source met a fault")]
    ReadFault,
    #[error("the source has more bytes than the limit")]
    TooLarge,
    #[error("out of memory")]
    Memory,
}

impl From<Failed> for ReadEnd {
    ghost from_gives = { λ _ end. end ≡ ReadFault };

    fn from(_: Failed) -> Self {
        ReadEnd::ReadFault
    }
}

impl From<AllocError> for ReadEnd {
    ghost from_gives = { λ _ end. end ≡ Memory };

    fn from(_: AllocError) -> Self {
        ReadEnd::Memory
    }
}

/// Reads to the end of the source, which may have up to `limit` bytes left. After a refusal the bytes taken are lost.
pub fn read_all<S: Source>(alloc: Global, source: &mut S, limit: usize) -> Result<Vec<u8>, ReadEnd>
    ensures whole { IfOk result (λ bytes. IfSome (S.left source.old) (λ left. bytes.items ≡ left)) }
    ensures at_end { OnOk result (IsAtEnd (S.left source.new)) }
    ensures within { IfOk result (λ bytes. length bytes.items ≤ limit) }

    // Whatever the answer, it took bytes from the front, and it took byte `limit + 1` exactly where it says so.
    ensures taken { Takes (S.left source.old) (S.left source.new)
        (λ taken. IsErrOf result ReadEnd.TooLarge ↔ (limit < length taken)) }

    ensures no_fault { OnOk result (S.faults source.new ≡ S.faults source.old) }
    ensures read_fault { IsErrOf result ReadEnd.ReadFault → FaultRose (S.faults source.old) (S.faults source.new) }
    ensures never_falls { S.faults source.old ≤ S.faults source.new }
{
    let mut bytes = Vec::new(alloc);
    let mut chunk = [0u8; CHUNK];
    loop {
        let count = source.read(&mut chunk)?;
        if count == 0 {
            return Ok(bytes);
        }
        if count > limit - bytes.len() {
            return Err(ReadEnd::TooLarge);
        }
        bytes.extend_from_slice(&chunk[..count])?;
    }
}
