//! Reports and their two forms.
ghost use Rattle.std.specs.Prelude.{◌≡◌, ◌++◌, map, string_bytes, IfOk, OnOk};
ghost use Rattle.std.specs.List.{flat_map};
ghost use Rattle.serde_json.specs.Data.{Data};
ghost use Rattle.serde_json.specs.View.{view};
ghost use Rattle.gil_report.specs.Json.{answers_data, headed, report_data, report_json};
ghost use Rattle.gil_report.specs.Lines.{answer_line, report_text};
ghost use Rattle.gil_report.specs.View.{answer_view, report_view};

use crate::answer_lines::push_answer;
use crate::answer_values::answer_value;
use crate::answers::{Answer, Answers};
use crate::head_lines::{push_head, word_of_mode};
use crate::heads::Head;
use serde_json::{Value as Json, json};
use std::alloc::{AllocError, Global};

/// What was asked, and what is answered. Contracts see it as its pure data, by `report_view`.
#[derive(Debug, Drop)]
pub struct Report {
    pub head: Head,
    pub answers: Answers,
}

/// The lines of a report.
pub fn text(alloc: Global, report: &Report) -> Result<Vec<u8>, AllocError>
    ensures { IfOk result (λ bytes. bytes.items ≡ report_text (report_view report.now)) }
{
    let mut out = String::new(alloc);
    push_head(&mut out, &report.head)?;
    push_answers(&mut out, report.answers.as_slice())?;
    Ok(out.into_bytes())
}

/// Adds the lines of answers.
fn push_answers(out: &mut String, answers: &[Answer]) -> Result<(), AllocError>
    ensures { OnOk result (string_bytes out.new ≡ string_bytes out.old ++ flat_map answer_line (map answer_view answers.now)) }
{
    for answer in answers {
        push_answer(out, answer)?;
    }
    Ok(())
}

/// A report as JSON, on one line.
pub fn json(alloc: Global, report: &Report) -> Result<Vec<u8>, AllocError>
    ensures { IfOk result (λ bytes. bytes.items ≡ report_json (report_view report.now)) }
{
    let value = report_value(alloc, report)?;
    let mut out = value.to_string(alloc)?;
    out.push_str("\n")?;
    Ok(out.into_bytes())
}

/// A report as a value.
fn report_value(alloc: Global, report: &Report) -> Result<Json, AllocError>
    ensures { IfOk result (λ v. view v ≡ report_data (report_view report.now)) }
{
    let answers = answers_value(alloc, report.answers.as_slice())?;
    headed_value(alloc, &report.head, answers)
}

/// Answers as a list of values.
fn answers_value(alloc: Global, answers: &[Answer]) -> Result<Json, AllocError>
    ensures { IfOk result (λ v. view v ≡ answers_data (map answer_view answers.now)) }
{
    let mut list = Vec::new(alloc);
    for answer in answers {
        list.push(answer_value(alloc, answer)?)?;
    }
    Ok(Json::Array(list))
}

/// Answers with their head.
fn headed_value(alloc: Global, head: &Head, answers: Json) -> Result<Json, AllocError>
    ensures { IfOk result (λ v. view v ≡ headed head.now (view answers)) }
{
    match head {
        Head::Entry {
            mode,
            language,
            entry,
            bound,
        } => json!(in alloc; {
            "answers": answers,
            "bound": *bound,
            "entry": entry.as_str(),
            "lang": language.word(),
            "mode": word_of_mode(*mode)
        }),
        Head::Check { language, bound } => json!(in alloc; {
            "answers": answers,
            "bound": *bound,
            "lang": language.word(),
            "mode": "check"
        }),
        Head::Solve => json!(in alloc; {"answers": answers, "lang": "atoms", "mode": "solve"}),
        Head::Sweep { size } => json!(in alloc; {"answers": answers, "mode": "sweep", "n": *size}),
    }
}
