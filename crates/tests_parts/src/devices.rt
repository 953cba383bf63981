//! Sources and sinks that no fault meets, and readers and writers of std that are interrupted.
use gil_io::{ReadEnd, StdSink, StdSource, SureSink, SureSource, WriteFault, read_all, write_all};
use std::io;
use std::io::{ErrorKind, Read, Write};
use std::test::Fail;

#[test]
fn all_is_read_and_written(rt: HostRuntime) -> Result<(), Fail> {
    let alloc = rt.alloc();
    let text = b"gillian test gillian".as_slice();
    let mut source = SureSource::new(text.to_vec(alloc)?);
    let mut sink = SureSink::new(alloc, 20)?;
    write_all(&mut sink, read_all(alloc, &mut source, 20)?.as_slice())?;
    assert_eq!(rt; sink.taken(), text);
    Ok(())
}

const TEXT: &[u8] = &[b'g'; 150];

// Is interrupted once, and then gives what it has.
#[derive(Drop)]
struct InterruptedReader<'a> {
    once: bool,
    rest: &'a [u8],
}

impl<'a> Read for InterruptedReader<'a> {
    fn read(&mut self, buf: &mut [u8]) -> io::Result<usize> {
        if self.once {
            self.once = false;
            return Err(ErrorKind::Interrupted.into());
        }
        self.rest.read(buf)
    }
}

#[test]
fn an_interrupted_read_is_a_fault_and_the_next_one_works(rt: HostRuntime) -> Result<(), Fail> {
    let mut source = StdSource::new(InterruptedReader {
        once: true,
        rest: TEXT,
    });
    let answer = read_all(rt.alloc(), &mut source, 150);
    assert_eq!(rt; answer.err(), Some(ReadEnd::ReadFault));
    let bytes = read_all(rt.alloc(), &mut source, 150)?;
    assert_eq!(rt; bytes.as_slice(), TEXT);
    Ok(())
}

// Is interrupted once, and then takes what fits into its room, and nothing once that is full.
#[derive(Drop)]
struct InterruptedWriter<'a> {
    once: bool,
    room: &'a mut [u8],
}

impl<'a> Write for InterruptedWriter<'a> {
    fn write(&mut self, piece: &[u8]) -> io::Result<usize> {
        if self.once {
            self.once = false;
            return Err(ErrorKind::Interrupted.into());
        }
        self.room.write(piece)
    }

    fn flush(&mut self) -> io::Result<()> {
        Ok(())
    }
}

#[test]
fn an_interrupted_write_and_one_that_takes_nothing_are_faults(rt: HostRuntime) -> Result<(), Fail> {
    let mut room = [0u8; 150];
    let mut sink = StdSink::new(InterruptedWriter {
        once: true,
        room: room.as_mut_slice(),
    });
    assert_eq!(rt; write_all(&mut sink, TEXT), Err(WriteFault));
    write_all(&mut sink, TEXT)?;
    assert_eq!(rt; write_all(&mut sink, b"n"), Err(WriteFault));
    drop(sink);
    assert_eq!(rt; room.as_slice(), TEXT);
    Ok(())
}
