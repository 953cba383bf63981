//! Reports.
ghost use Rattle.std.specs.Prelude.{◌≡◌, ◌↔◌, IsTrue};
ghost use Rattle.gil_report.specs.View.{report_view};
ghost use Rattle.report_text.specs.Writable.{IsWritable};
ghost use Rattle.writable_reports.specs.Tests as test;

use crate::answers::are_writable_answers;
use crate::names::is_name;
use crate::numbers::has_32_bits;
use gil_report::{Head, Report};

/// Whether some text has the head.
fn is_writable_head(head: &Head) -> bool
    ensures { result ≡ test.is_writable_head head.now }
{
    match head {
        Head::Entry {
            mode: _,
            language: _,
            entry,
            bound,
        } => is_name(entry) && has_32_bits(*bound),
        Head::Check { language: _, bound } => has_32_bits(*bound),
        Head::Solve => true,
        Head::Sweep { size } => has_32_bits(*size),
    }
}

/// Whether some text has the head and each of the answers.
fn passes(report: &Report) -> bool
    ensures { result ≡ test.is_writable (report_view report.now) }
{
    is_writable_head(&report.head) && are_writable_answers(report.answers.as_slice())
}

/// Whether the report is one that some text has: its names are names, its values and expressions are such as texts have, and a specification
/// that was found is cut exactly where it has no postcondition. Such reports, and no others, are read back.
pub fn is_writable(report: &Report) -> bool
    ensures { IsTrue result ↔ IsWritable (report_view report.now) }
{
    passes(report)
}
