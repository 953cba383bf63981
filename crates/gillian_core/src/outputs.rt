//! What is written of an accepted text.
use gil_report::Report;
use gil_syntax::Prog;

/// What is written: a report, or a program.
#[derive(Drop)]
pub enum Output {
    Report(Report),
    Program(Prog),
}
