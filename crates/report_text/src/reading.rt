//! Reports are read from their lines.
ghost use Rattle.std.specs.Prelude.{◌≡◌, ◌↔◌, map, length, Some, IsTrue, IfOk};
ghost use Rattle.value_text.specs.Reading.{Gives, many_at, with_front};
ghost use Rattle.gil_report.specs.Lines.{report_text};
ghost use Rattle.gil_report.specs.Pure.{PureReport};
ghost use Rattle.gil_report.specs.View.{answer_view, report_view};
ghost use Rattle.report_text.specs.Reading as spec;
ghost use Rattle.report_text.specs.Writable.{IsWritable};

use crate::heads::head_at;
use crate::lines::answer_at;
use gil_report::{Answers, Report, text};
use std::alloc::Global;
use value_text::ReadFault;

/// The report whose lines the bytes are.
pub fn read_report(alloc: Global, bytes: &[u8]) -> Result<Report, ReadFault>
    // The report that is read is writable, and the bytes are its lines.
    ensures lines { IfOk result (λ report. bytes.now ≡ report_text (report_view report)) }
    ensures writable { IfOk result (λ report. IsWritable (report_view report)) }
    // Every writable report is read back from its lines, so bytes are refused only where no report has them.
    ensures again { (r : PureReport) → IsWritable r → bytes.now ≡ report_text r → Gives report_view result (Some r) }
{
    let report = report_at(alloc, bytes)?;
    let lines = text(alloc, &report)?;
    if are_same(lines.as_slice(), bytes) {
        Ok(report)
    } else {
        Err(ReadFault::Form)
    }
}

/// Whether two slices have the same bytes.
fn are_same(first: &[u8], second: &[u8]) -> bool
    ensures { IsTrue result ↔ (first.now ≡ second.now) }
{
    first == second
}

/// A head line and the lines of answers.
#[tactic(auto, unfolding(crate::specs::Reading::report_at))]
fn report_at(alloc: Global, bytes: &[u8]) -> Result<Report, ReadFault>
    ensures { Gives report_view result (spec.report_at bytes.now) }
{
    let (head, rest) = head_at(alloc, bytes)?;
    let answers = answers_at(alloc, rest)?;
    Ok(Report { head, answers })
}

/// The lines of answers, up to the end.
fn answers_at(alloc: Global, bytes: &[u8]) -> Result<Answers, ReadFault>
    ensures { Gives (λ answers. map answer_view answers) result (spec.answers_at bytes.now) }
{
    let (answers, _rest) = lines_at(alloc, bytes)?;
    Ok(answers)
}

/// The lines of answers, up to the end, and what follows them.
fn lines_at(alloc: Global, bytes: &[u8]) -> Result<(Answers, &[u8]), ReadFault>
    ensures { Gives (λ x. (map answer_view x.0, x.1.now)) result (spec.lines_at bytes.now) }
{
    let mut answers = Answers::new(alloc);
    let mut rest = bytes;
    // Each turn takes a byte at least.
    let most = bytes.len();
    for _ in 0..most {
        if is_at_end(rest) {
            return Ok((answers, rest));
        }
        let (answer, behind) = answer_at(alloc, rest)?;
        answers.push(answer)?;
        rest = behind;
    }
    Ok((answers, rest))
}

fn is_at_end(bytes: &[u8]) -> bool
    ensures { result ≡ spec.is_at_end bytes.now }
{
    match bytes {
        [_, ..] => false,
        [] => true,
    }
}
