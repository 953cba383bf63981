//! The program `gillian`: it takes the words of the command line, reads standard input, writes standard output and
//! ends with the exit code of the answer's status. Where nothing or only a part was written, standard error says why.
#![tactic(auto)]

use gil_io::{StdSink, StdSource};
use gillian_core::{Status, gillian};
use pure_terms::Term;
use rewrite_book::{Rule, RuleBook, ShippedRule};
use std::alloc::{AllocError, Global};
use std::process::ExitCode;
use std::{env, io};

fn main(rt: HostRuntime) -> ExitCode {
    let status = answer(&rt);
    if let Some(cause) = cause_of(status) {
        // Where standard error fails too, the exit code is all that is told.
        let _ = eprintln!(rt; "gillian: {cause}");
    }
    ExitCode::from(status.code())
}

/// Why nothing was written, or only a part, where that is so.
fn cause_of(status: Status) -> Option<&'static str> {
    match status {
        Status::ReadFault => Some("standard input can't be read"),
        Status::WriteFault => Some("standard output can't be written"),
        Status::Memory => Some("out of memory, or past a limit of depth or size"),
        _ => None,
    }
}

/// Answers the words with the standard streams.
fn answer(rt: &HostRuntime) -> Status {
    match words(rt) {
        Ok(words) => match answer_by_rules(rt, &words) {
            Ok(status) => status,
            Err(_) => Status::Memory,
        },
        Err(_) => Status::Memory,
    }
}

/// Answers the words with the standard streams and the rules that simplify terms.
fn answer_by_rules(rt: &HostRuntime, words: &Vec<String>) -> Result<Status, AllocError> {
    let alloc = rt.alloc();
    let mut book = RuleBook::new(alloc);
    for shipped in ShippedRule::ALL {
        let answer = Box::new(
            alloc,
            move |alloc: Global, t: &Term| shipped.answer(alloc, t),
        )?;
        book.add(Rule::new(shipped.name(alloc)?, shipped.head(), answer))?;
    }
    let mut source = StdSource::new(rt.reader());
    let mut sink = StdSink::new(io::writer(rt));
    Ok(gillian(alloc, words, &book, &mut source, &mut sink))
}

/// The words of the command line. A word that isn't UTF-8 leaves no words, and no words never fit.
fn words(rt: &HostRuntime) -> io::Result<Vec<String>> {
    let mut words = Vec::new(rt.alloc());
    match env::args(rt) {
        Ok(args) => {
            for word in args {
                words.push(word)?;
            }
        }
        Err(fault) if fault.kind() == io::ErrorKind::OutOfMemory => return Err(fault),
        Err(_) => {}
    }
    Ok(words)
}
