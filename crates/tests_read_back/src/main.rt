//! Reads back reports that stand behind one another on standard input, each behind a line with the number of its bytes, and writes
//! which of them aren't read and how many are.
#![tactic(auto)]

mod pieces;
mod reports;

use gil_io::{StdSource, read_all};
use pieces::piece_at;
use reports::is_report;
use std::io;
use std::process::ExitCode;

/// The most bytes of standard input.
const MOST_BYTES: usize = 1 << 30;

fn main(rt: HostRuntime) -> io::Result<ExitCode> {
    let mut source = StdSource::new(rt.reader());
    match read_all(rt.alloc(), &mut source, MOST_BYTES) {
        Ok(bytes) => read_reports(&rt, &bytes),
        Err(fault) => {
            println!(rt; "not read: {fault}")?;
            Ok(ExitCode::from(1))
        }
    }
}

/// Reads the reports one after the other, and writes how many are read and which aren't, counted from 0.
fn read_reports(rt: &HostRuntime, bytes: &[u8]) -> io::Result<ExitCode> {
    let mut read: usize = 0;
    let mut number: usize = 0;
    let mut rest = bytes;
    // Each turn takes a byte at least.
    for _ in 0..bytes.len() {
        if rest.is_empty() {
            break;
        }
        let Ok((report, behind)) = piece_at(rest) else {
            println!(rt; "piece {number} has another form")?;
            return Ok(ExitCode::from(1));
        };
        match is_report(rt.alloc(), report) {
            Ok(true) => read = read.saturating_add(1),
            Ok(false) => println!(rt; "report {number} isn't read back")?,
            Err(_) => println!(rt; "report {number} isn't read for want of memory")?,
        }
        number = number.saturating_add(1);
        rest = behind;
    }
    println!(rt; "{read} of {number} reports are read back")?;
    Ok(ExitCode::from(if read == number { 0 } else { 1 }))
}
