//! Parts of reports, and both forms of a whole one.
use gil_report::{Answer, Answers, Binding, Bindings, Head, Report, Witness, json, text};
use gil_values::{Place, Text, Value};
use pure_terms::Choices;
use sequence::Sequence;
use std::alloc::Global;
use std::test::Fail;
use value_text::ReadFault;

pub fn text_of(alloc: Global, characters: &str) -> Result<Text, Fail> {
    match Text::from_str(alloc, characters)? {
        Some(text) => Ok(text),
        None => Err(Fail::from("no text")),
    }
}

pub fn place(alloc: Global, proc: &str, at: u32) -> Result<Place, Fail> {
    Ok(Place {
        proc: text_of(alloc, proc)?,
        at,
    })
}

/// A path of one choice, with a value of `n`.
pub fn witness(alloc: Global, proc: &str, at: u32) -> Result<Witness, Fail> {
    let mut path: Choices = Sequence::new(alloc);
    path.push(1)?;
    let mut with: Bindings = Sequence::new(alloc);
    with.push(Binding {
        name: text_of(alloc, "n")?,
        value: Value::Int(-7),
    })?;
    Ok(Witness {
        place: place(alloc, proc, at)?,
        path,
        with,
    })
}

/// Whether a report of one answer has these lines and this JSON.
pub fn is_written(
    alloc: Global,
    head: Head,
    answer: Answer,
    lines: &str,
    object: &str,
) -> Result<bool, Fail> {
    let mut answers: Answers = Sequence::new(alloc);
    answers.push(answer)?;
    let report = Report { head, answers };
    has_forms(alloc, &report, lines, object)
}

/// Whether a report has these lines and this JSON.
pub fn has_forms(alloc: Global, report: &Report, lines: &str, object: &str) -> Result<bool, Fail> {
    let as_text = text(alloc, report)?;
    let as_json = json(alloc, report)?;
    Ok(as_text.as_slice() == lines.as_bytes() && as_json.as_slice() == object.as_bytes())
}

/// A report, if one was read.
pub fn read(found: Result<Report, ReadFault>) -> Result<Option<Report>, Fail> {
    match found {
        Ok(report) => Ok(Some(report)),
        Err(ReadFault::Form) => Ok(None),
        Err(ReadFault::Memory) => Err(Fail::from("out of memory")),
    }
}
