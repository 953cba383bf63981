//! Calls the program as a case says, and compares what it answers.
ghost use Rattle.std.specs.Prelude.{◌≡◌, ◌↔◌, IsTrue};
ghost use Rattle.row_cases.specs.Wanted.{IsWanted};

use gil_io::{MemSink, MemSource};
use gillian_core::gillian;
use pure_terms::Term;
use rewrite_book::{Rule, RuleBook, ShippedRule};
use row_cases::{Case, Output, Rules, SourceFault};
use std::alloc::{AllocError, AllocFailed, Global};
use thiserror::Error;

/// The most bytes of a read or a write, and the room of a sink, where a case says nothing of it.
const USUAL_SIZE: usize = 4096;

const USUAL_ROOM: usize = 65_536;

/// How a call ended, and what it wrote.
#[derive(Debug, Drop)]
pub struct Answer {
    pub status: u8,
    pub output: Vec<u8>,
}

/// Why a case can't be called.
#[derive(Debug, Drop, Error)]
pub enum CaseFault {
    #[error("{0}")]
    Source(SourceFault),
    #[error("reads or writes of no byte")]
    NoSize,
    #[error("a read or a write with the number 0")]
    NoNumber,
    #[error("any output begins so")]
    AnyOutput,
    #[error("out of memory")]
    Memory,
}

impl From<AllocError> for CaseFault {
    fn from(_fault: AllocError) -> CaseFault {
        CaseFault::Memory
    }
}

impl<T: Drop> From<AllocFailed<T>> for CaseFault {
    fn from(_fault: AllocFailed<T>) -> CaseFault {
        CaseFault::Memory
    }
}

/// Why the case says nothing by one of its keys, if it does.
fn empty_key(case: &Case) -> Option<CaseFault> {
    if case.failing_reads.contains(&0) || case.failing_writes.contains(&0) {
        return Some(CaseFault::NoNumber);
    }
    if is_any(&case.output) {
        return Some(CaseFault::AnyOutput);
    }
    None
}

/// Whether every output is wanted.
fn is_any(output: &Output) -> bool {
    match output {
        Output::Text(_) => false,
        Output::Begins(beginning) => beginning.begins.is_empty(),
    }
}

/// Calls the program over a source and a sink in memory, with the rules that the case names.
pub fn call(alloc: Global, case: &Case) -> Result<Answer, CaseFault> {
    if let Some(fault) = empty_key(case) {
        return Err(fault);
    }
    match case.rules {
        Rules::Shipped => call_by_rules(alloc, case),
        Rules::None => call_with(alloc, case, &RuleBook::new(alloc)),
    }
}

/// Calls the program with the rules that simplify terms.
fn call_by_rules(alloc: Global, case: &Case) -> Result<Answer, CaseFault> {
    let mut book = RuleBook::new(alloc);
    for shipped in ShippedRule::ALL {
        let answer = Box::new(
            alloc,
            move |alloc: Global, t: &Term| shipped.answer(alloc, t),
        )?;
        book.add(Rule::new(shipped.name(alloc)?, shipped.head(), answer))?;
    }
    call_with(alloc, case, &book)
}

/// Calls the program with these rules.
fn call_with(alloc: Global, case: &Case, rules: &RuleBook) -> Result<Answer, CaseFault> {
    let bytes = case.source.bytes(alloc).map_err(CaseFault::Source)?;
    let read_size = case.read_size.unwrap_or(USUAL_SIZE);
    let write_size = case.write_size.unwrap_or(USUAL_SIZE);
    if read_size == 0 || write_size == 0 {
        return Err(CaseFault::NoSize);
    }
    let room = case.room.unwrap_or(USUAL_ROOM);
    let mut source = MemSource::new(bytes, read_size, case.failing_reads.clone()?);
    let mut sink = MemSink::new(alloc, room, write_size, case.failing_writes.clone()?)?;
    let status = gillian(alloc, &case.words, rules, &mut source, &mut sink);
    Ok(Answer {
        status: status.code(),
        output: sink.taken().to_vec(alloc)?,
    })
}

/// Whether the answer is one that the case wants.
pub fn agrees(case: &Case, answer: &Answer) -> bool
    ensures { IsTrue result ↔ ((answer.now.status ≡ case.now.status) × IsWanted case.now.output answer.now.output.items) }
{
    answer.status == case.status && is_wanted(&case.output, answer.output.as_slice())
}

/// Whether what was written is wanted.
fn is_wanted(output: &Output, written: &[u8]) -> bool
    ensures { IsTrue result ↔ IsWanted output.now written.now }
{
    match output {
        Output::Text(text) => written == text.as_bytes(),
        Output::Begins(beginning) => written.starts_with(beginning.begins.as_bytes()),
    }
}
