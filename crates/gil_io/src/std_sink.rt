//! A sink over a writer of std: the edge at which bytes go out.
ghost use Rattle.std.specs.Prelude.{◌≡◌, ◌↔◌, ◌⊎◌, ◌<◌, ◌≤◌, length, None, IfOk, OnOk, OnErr, IsErr};
ghost use Rattle.std.specs.Io.KnownBytes.{WriteAppends};
ghost use Rattle.gil_io.specs.Faults.{next_count};

use crate::{Failed, Sink};
use std::io;
use std::io::Write;

/// A sink over a writer. It tells its bytes where the writer does, as the writers in memory do and the standard streams don't.
/// It counts as a fault each `Err` of the writer, an interrupted call too, and each write that took nothing of a piece that
/// isn't empty. It flushes nothing.
#[derive(Drop)]
pub struct StdSink<W: Write> {
    writer: W,
    faults: u64,
}

impl<W: Write> StdSink<W> {
    ghost use Rattle.gil_io.specs.StdSink.{wrapped, fault_count};

    /// A sink over this writer, without a fault so far.
    pub fn new(writer: W) -> StdSink<W>
        ensures writer { wrapped result ≡ writer }
        ensures faults { fault_count result ≡ 0 }
    {
        StdSink { writer, faults: 0 }
    }
}

impl<W: Write> Sink for StdSink<W> {
    ghost use Rattle.gil_io.specs.StdSink.{wrapped, fault_count};

    ghost taken = { λ sink. W.contents (wrapped sink) };

    ghost faults = { fault_count };

    ghost room = { λ _. None };

    fn write(&mut self, piece: &[u8]) -> Result<usize, Failed>
        // The writer took those bytes, where it is known what it holds.
        ensures writer { WriteAppends (W.contents (wrapped self.old)) (W.contents (wrapped self.new)) result piece.now }

        ensures bound { IfOk result (λ count. count ≤ length piece.now) }
        ensures progress { IfOk result (λ count. 0 < length piece.now → 0 < count) }

        ensures no_fault { OnOk result (fault_count self.new ≡ fault_count self.old) }
        ensures fault { OnErr result (fault_count self.new ≡ next_count (fault_count self.old)) }
        ensures never_falls { fault_count self.old ≤ fault_count self.new }
    {
        let answer = self.writer.write(piece);
        counted(&mut self.faults, piece.len(), answer)
    }
}

/// What a writer's answer comes to, where so many bytes were offered: a fault exactly where it is an `Err`, or takes none of
/// some bytes, and exactly then the count rises.
fn counted(faults: &mut u64, offered: usize, answer: io::Result<usize>) -> Result<usize, Failed>
    ensures failed { IsErr result ↔ (IsErr answer ⊎ ((0 < offered) × (answer ≡ Ok 0))) }
    ensures given { IfOk result (λ count. answer ≡ Ok count) }
    ensures no_fault { OnOk result (faults.new ≡ faults.old) }
    ensures fault { OnErr result (faults.new ≡ next_count faults.old) }
    ensures never_falls { faults.old ≤ faults.new }
{
    match answer {
        Ok(count) if count > 0 || offered == 0 => Ok(count),
        _ => {
            *faults = faults.saturating_add(1);
            Err(Failed)
        }
    }
}
