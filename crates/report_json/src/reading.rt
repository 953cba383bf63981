//! Reports are read from their JSON text.
ghost use Rattle.std.specs.Prelude.{◌≡◌, ◌⊎◌, Some, IfOk, string_bytes};
ghost use Rattle.value_text.specs.Reading.{Gives};
ghost use Rattle.gil_report.specs.Json.{report_json};
ghost use Rattle.gil_report.specs.Lines.{report_text};
ghost use Rattle.gil_report.specs.Pure.{PureReport};
ghost use Rattle.gil_report.specs.View.{report_view};
ghost use Rattle.report_text.specs.Writable.{IsWritable};

use crate::depth::is_too_deep;
use gil_report::{Report, json};
use json_parts::{lines_of, value_of};
use report_text::read_report as read_lines;
use std::alloc::Global;
use value_text::{ReadFault, begins_with};

/// The report whose JSON text the bytes are. Where more than `DEEPEST_REPORT` brackets are open at once, want of memory is answered.
pub fn read_json(alloc: Global, bytes: &[u8]) -> Result<Report, ReadFault>
    // The report that is read is writable, and the bytes are its JSON text.
    ensures json { IfOk result (λ report. bytes.now ≡ report_json (report_view report)) }
    ensures writable { IfOk result (λ report. IsWritable (report_view report)) }
    // Every writable report is read back from its JSON text, so bytes are refused only where no report has them.
    ensures again { (r : PureReport) → IsWritable r → bytes.now ≡ report_json r → Gives report_view result (Some r) }
{
    let lines = lines_in(alloc, bytes)?;
    let report = read_report(alloc, lines.as_bytes())?;
    let text = json(alloc, &report)?;
    if text.as_slice() == bytes {
        Ok(report)
    } else {
        Err(ReadFault::Form)
    }
}

/// The report whose lines the bytes are, where they aren't nested too deep.
fn read_report(alloc: Global, bytes: &[u8]) -> Result<Report, ReadFault>
    ensures lines { IfOk result (λ report. bytes.now ≡ report_text (report_view report)) }
    ensures writable { IfOk result (λ report. IsWritable (report_view report)) }
    ensures again { (r : PureReport) → IsWritable r → bytes.now ≡ report_text r → Gives report_view result (Some r) }
{
    if is_too_deep(bytes) {
        return Err(ReadFault::Memory);
    }
    read_lines(alloc, bytes)
}

/// The lines of the report whose JSON text the bytes are.
fn lines_in(alloc: Global, bytes: &[u8]) -> Result<String, ReadFault>
    ensures { (r : PureReport) → IsWritable r → bytes.now ≡ report_json r → Gives string_bytes result (Some (report_text r)) }
{
    let report = value_of(alloc, bytes)?;
    lines_of(alloc, &report)
}

/// The report whose lines or whose JSON text the bytes are. Where more than `DEEPEST_REPORT` brackets are open at once, want of memory is
/// answered.
pub fn read_either(alloc: Global, bytes: &[u8]) -> Result<Report, ReadFault>
    // The report that is read is writable, and the bytes are one of its forms.
    ensures form { IfOk result (λ report.
        (bytes.now ≡ report_text (report_view report)) ⊎ (bytes.now ≡ report_json (report_view report))) }
    ensures writable { IfOk result (λ report. IsWritable (report_view report)) }
    // Every writable report is read back from each of its forms, so bytes are refused only where no report has them.
    ensures lines { (r : PureReport) → IsWritable r → bytes.now ≡ report_text r → Gives report_view result (Some r) }
    ensures json { (r : PureReport) → IsWritable r → bytes.now ≡ report_json r → Gives report_view result (Some r) }
{
    if begins_with(b'{', bytes) {
        read_json(alloc, bytes)
    } else {
        read_report(alloc, bytes)
    }
}
