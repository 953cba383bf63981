//! Outputs and refusals as bytes, with the status with which they are written.
ghost use Rattle.std.specs.Prelude.{◌≡◌, ◌≢◌, map, IfOk, OnOk};
ghost use Rattle.gil_text.specs.declared.refused.RefusedKind.TheVariants.{Memory};
ghost use Rattle.gil_report.specs.View.{answer_view, report_view};
ghost use Rattle.gillian_core.specs.Answers.{output_view};
ghost use Rattle.gillian_core.specs.Outputs.{IsWritableOutput, answers_status, is_good, output_status, output_text, report_written};
ghost use Rattle.gillian_core.specs.Refusals.{refusal_line};
ghost use Rattle.report_text.specs.Writable.{IsWritable};

use crate::outputs::Output;
use crate::refusals::refusal_text;
use crate::status::Status;
use gil_print::print_prog;
use gil_report::{Answer, Report, json, text};
use gil_text::Refused;
use std::alloc::{AllocError, Global};
use writable_reports::is_writable;

/// What a call writes once the source is read, and how it then ends.
#[derive(Debug, Drop)]
pub struct Response {
    pub status: Status,
    pub text: Vec<u8>,
}

/// The response of an output, a report as JSON or as text. A report that no text has is not written: it is answered as want of memory.
pub fn output_response(
    alloc: Global,
    output: &Output,
    as_json: bool,
) -> Result<Response, AllocError>
    ensures status { IfOk result (λ response. response.status ≡ output_status (output_view output.now)) }
    ensures text { IfOk result (λ response. response.text.items ≡ output_text as_json (output_view output.now)) }
    ensures writable { OnOk result (IsWritableOutput (output_view output.now)) }
{
    match output {
        Output::Report(report) => report_response(alloc, report, as_json),
        Output::Program(prog) => Ok(Response {
            status: Status::Good,
            text: print_prog(alloc, prog)?,
        }),
    }
}

/// The response of a report.
fn report_response(alloc: Global, report: &Report, as_json: bool) -> Result<Response, AllocError>
    ensures status { IfOk result (λ response. response.status ≡ answers_status (report_view report.now).answers) }
    ensures text { IfOk result (λ response. response.text.items ≡ report_written as_json (report_view report.now)) }
    ensures writable { OnOk result (IsWritable (report_view report.now)) }
{
    if !is_writable(report) {
        return Err(AllocError);
    }
    Ok(Response {
        status: status_of(report.answers.as_slice()),
        text: written(alloc, report, as_json)?,
    })
}

/// A report in one of its forms.
fn written(alloc: Global, report: &Report, as_json: bool) -> Result<Vec<u8>, AllocError>
    ensures { IfOk result (λ bytes. bytes.items ≡ report_written as_json (report_view report.now)) }
{
    if as_json {
        json(alloc, report)
    } else {
        text(alloc, report)
    }
}

/// The status of answers: whether all are good.
fn status_of(answers: &[Answer]) -> Status
    ensures { result ≡ answers_status (map answer_view answers.now) }
{
    for answer in answers {
        if !is_good(answer) {
            return Status::Found;
        }
    }
    Status::Good
}

/// Whether an answer is good.
fn is_good(answer: &Answer) -> bool
    ensures { result ≡ is_good (answer_view answer.now) }
{
    match answer {
        Answer::Returned(_)
        | Answer::Vanished
        | Answer::Clean
        | Answer::Verified(_)
        | Answer::Vacuous(_, _)
        | Answer::Sat(_)
        | Answer::Unsat(_)
        | Answer::Bytes(_) => true,
        Answer::Failed(_, _)
        | Answer::Cut
        | Answer::NoInput(_)
        | Answer::BadInput(_)
        | Answer::Number(_)
        | Answer::Bug { .. }
        | Answer::Undecided(_)
        | Answer::Unproved(_, _)
        | Answer::Unknown(_) => false,
        Answer::Found { cut, .. } => !*cut,
    }
}

/// The response of a refusal. Want of memory has none.
pub fn refusal_response(alloc: Global, refused: Refused) -> Result<Response, AllocError>
    ensures status { IfOk result (λ response. response.status ≡ Status.Text) }
    ensures text { IfOk result (λ response. response.text.items ≡ refusal_line refused) }
    ensures refusal { OnOk result (refused.kind ≢ Memory) }
{
    let text = refusal_text(alloc, refused)?;
    Ok(Response {
        status: Status::Text,
        text: text.into_bytes(),
    })
}
