//! A source over a reader of std: the edge at which bytes come in.
ghost use Rattle.std.specs.Prelude.{◌≡◌, ◌↔◌, ◌≤◌, length, drop, IfOk, OnOk, OnErr, IsErr};
ghost use Rattle.std.specs.Io.KnownBytes.{ReadConsumes};
ghost use Rattle.gil_io.specs.Faults.{next_count};

use crate::{Failed, Source};
use std::io;
use std::io::Read;

// The bytes of one read at most.
const CHUNK: usize = 4096;

/// A source over a reader. It tells its bytes where the reader does, as the readers in memory do and the standard streams don't.
/// It counts each `Err` of the reader as a fault, an interrupted call too: nothing is tried again.
#[derive(Drop)]
pub struct StdSource<R: Read> {
    reader: R,
    faults: u64,
}

impl<R: Read> StdSource<R> {
    ghost use Rattle.gil_io.specs.StdSource.{wrapped, fault_count};

    /// A source over this reader, without a fault so far.
    pub fn new(reader: R) -> StdSource<R>
        ensures reader { wrapped result ≡ reader }
        ensures faults { fault_count result ≡ 0 }
    {
        StdSource { reader, faults: 0 }
    }
}

impl<R: Read> Source for StdSource<R> {
    ghost use Rattle.gil_io.specs.StdSource.{wrapped, fault_count};

    ghost left = { λ source. R.remaining (wrapped source) };

    ghost faults = { fault_count };

    fn read(&mut self, buf: &mut [u8]) -> Result<usize, Failed>
        // The bytes are those that the reader gave, where those are known.
        ensures reader { ReadConsumes (R.remaining (wrapped self.old)) (R.remaining (wrapped self.new)) result buf.new }

        ensures bound { IfOk result (λ count. count ≤ length buf.new) }
        ensures rest_stays { IfOk result (λ count. drop count buf.new ≡ drop count buf.old) }
        ensures buffer_stays { OnErr result (buf.new ≡ buf.old) }

        ensures no_fault { OnOk result (fault_count self.new ≡ fault_count self.old) }
        ensures fault { OnErr result (fault_count self.new ≡ next_count (fault_count self.old)) }
        ensures never_falls { fault_count self.old ≤ fault_count self.new }
    {
        // What a reader writes past its count, or before an `Err`, isn't known, so it writes into bytes of our own.
        let mut chunk = [0u8; CHUNK];
        let room = buf.len().min(CHUNK);
        let answer = self.reader.read(&mut chunk[..room]);
        let count = counted(&mut self.faults, answer)?;
        buf[..count].copy_from_slice(&chunk[..count]);
        Ok(count)
    }
}

/// What a reader's answer comes to: a fault exactly where it is an `Err`, and exactly then the count rises.
fn counted(faults: &mut u64, answer: io::Result<usize>) -> Result<usize, Failed>
    ensures failed { IsErr result ↔ IsErr answer }
    ensures given { IfOk result (λ count. answer ≡ Ok count) }
    ensures no_fault { OnOk result (faults.new ≡ faults.old) }
    ensures fault { OnErr result (faults.new ≡ next_count faults.old) }
    ensures never_falls { faults.old ≤ faults.new }
{
    match answer {
        Ok(count) => Ok(count),
        Err(_) => {
            *faults = faults.saturating_add(1);
            Err(Failed)
        }
    }
}
