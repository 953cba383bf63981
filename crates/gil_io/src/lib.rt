//! Bytes in and bytes out: sources that are read to their end, sinks that are written in full, and faults that are counted.
//!
//! A source may tell the bytes that it has left, and a sink those that it has taken: clauses then name them. A source or a
//! sink that doesn't tell is under the same clauses, which say nothing of its bytes.
#![tactic(auto)]

mod calls;
mod copying;
mod failed;
mod faults;
mod mem_sink;
mod mem_source;
mod reading;
mod reserved;
mod sink;
mod source;
mod std_sink;
mod std_source;
mod sure_sink;
mod sure_source;
mod writing;

pub use failed::Failed;
pub use faults::fault_laws;
pub use mem_sink::MemSink;
pub use mem_source::MemSource;
pub use reading::{ReadEnd, read_all};
pub use sink::Sink;
pub use source::Source;
pub use std_sink::StdSink;
pub use std_source::StdSource;
pub use sure_sink::SureSink;
pub use sure_source::SureSource;
pub use writing::{WriteFault, write_all};
