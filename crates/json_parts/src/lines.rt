//! The lines of a report, put together from the parts of its objects: the head line, and a line for each answer.
ghost use Rattle.std.specs.Prelude.{◌≡◌, map, string_bytes, Some};
ghost use Rattle.value_text.specs.Reading.{Gives};
ghost use Rattle.serde_json.specs.View.{items_view, view};
ghost use Rattle.json_parts.specs.Lines as spec;
ghost use Rattle.json_parts.specs.Parts.{Adds};

use crate::parts::{is_marked, push_part_at, text_at};
use serde_json::Value as Json;
use std::alloc::Global;
use value_text::ReadFault;

/// The lines of a report. They need be those of no report where the object is that of none.
pub fn lines_of(alloc: Global, report: &Json) -> Result<String, ReadFault>
    ensures { Gives string_bytes result (spec.lines (view report.now)) }
{
    let mut out = String::new(alloc);
    push_lines(&mut out, report)?;
    Ok(out)
}

/// Adds the lines of a report.
#[tactic(auto, using(crate::proofs::Followed::both_added))]
fn push_lines(out: &mut String, report: &Json) -> Result<(), ReadFault>
    ensures { Adds (spec.lines (view report.now)) result (string_bytes out.old) (string_bytes out.new) }
{
    push_head(out, report)?;
    push_answers(out, report)
}

// ---- words and parts in turn

/// Adds words, and the part of the object with this key behind them.
fn push_piece(out: &mut String, words: &str, key: &str, object: &Json) -> Result<(), ReadFault>
    ensures { Adds (spec.piece (view object.now) (words.now, key.now)) result (string_bytes out.old) (string_bytes out.new) }
{
    out.push_str(words)?;
    push_part_at(out, key, object)
}

/// Adds words, each with the part of the object behind it.
fn push_pieces(out: &mut String, pieces: &[(&str, &str)], object: &Json) -> Result<(), ReadFault>
    ensures { Adds (spec.pieces (view object.now) (map (λ p. (p.0.now, p.1.now)) pieces.now)) result
        (string_bytes out.old) (string_bytes out.new) }
{
    for piece in pieces {
        push_piece(out, piece.0, piece.1, object)?;
    }
    Ok(())
}

/// Adds words, each with the part of the object behind it, and the last words.
fn push_line(
    out: &mut String,
    pieces: &[(&str, &str)],
    last: &str,
    object: &Json,
) -> Result<(), ReadFault>
    ensures { Adds (spec.line (view object.now) (map (λ p. (p.0.now, p.1.now)) pieces.now) last.now) result
        (string_bytes out.old) (string_bytes out.new) }
{
    push_pieces(out, pieces, object)?;
    push_words(out, last)
}

/// Adds words.
fn push_words(out: &mut String, words: &str) -> Result<(), ReadFault>
    ensures { Adds (Some words.now) result (string_bytes out.old) (string_bytes out.new) }
{
    out.push_str(words)?;
    Ok(())
}

// ---- heads

/// Adds the head line of a report.
fn push_head(out: &mut String, report: &Json) -> Result<(), ReadFault>
    ensures { Adds (spec.head (view report.now)) result (string_bytes out.old) (string_bytes out.new) }
{
    let mode = text_at("mode", report)?;
    push_head_of(out, mode, report)
}

/// Adds the head line of a report in this mode.
fn push_head_of(out: &mut String, mode: &str, report: &Json) -> Result<(), ReadFault>
    ensures { Adds (spec.head_of mode.now (view report.now)) result (string_bytes out.old) (string_bytes out.new) }
{
    match mode {
        "check" => push_line(
            out,
            &[("gillian check ", "lang"), (" bound ", "bound")],
            "\n",
            report,
        ),
        "solve" => push_line(out, &[], "gillian solve atoms\n", report),
        "sweep" => push_line(out, &[("gillian sweep ", "n")], "\n", report),
        _ => push_line(
            out,
            &[
                ("gillian ", "mode"),
                (" ", "lang"),
                (" entry ", "entry"),
                (" bound ", "bound"),
            ],
            "\n",
            report,
        ),
    }
}

// ---- answers

/// Adds the lines of the answers of a report.
fn push_answers(out: &mut String, report: &Json) -> Result<(), ReadFault>
    ensures { Adds (spec.answers_at (view report.now)) result (string_bytes out.old) (string_bytes out.new) }
{
    match report.get("answers") {
        Some(answers) => push_list_of_answers(out, answers),
        None => Err(ReadFault::Form),
    }
}

/// Adds the lines of a list of answers.
fn push_list_of_answers(out: &mut String, answers: &Json) -> Result<(), ReadFault>
    ensures { Adds (spec.list_of_answers (view answers.now)) result (string_bytes out.old) (string_bytes out.new) }
{
    match answers.as_array() {
        Some(answers) => push_each_answer(out, answers.as_slice()),
        None => Err(ReadFault::Form),
    }
}

/// Adds the lines of answers.
fn push_each_answer(out: &mut String, answers: &[Json]) -> Result<(), ReadFault>
    ensures { Adds (spec.answers (items_view answers.now)) result (string_bytes out.old) (string_bytes out.new) }
{
    for answer in answers {
        push_answer(out, answer)?;
    }
    Ok(())
}

/// Adds the line of an answer.
fn push_answer(out: &mut String, answer: &Json) -> Result<(), ReadFault>
    ensures { Adds (spec.answer (view answer.now)) result (string_bytes out.old) (string_bytes out.new) }
{
    let kind = text_at("kind", answer)?;
    push_answer_of(out, kind, answer)
}

/// Adds the line of an answer of this kind.
fn push_answer_of(out: &mut String, kind: &str, answer: &Json) -> Result<(), ReadFault>
    ensures { Adds (spec.answer_of kind.now (view answer.now)) result (string_bytes out.old) (string_bytes out.new) }
{
    match kind {
        "returned" => push_line(out, &[("returned ", "value")], "\n", answer),
        "failed" => push_line(
            out,
            &[("failed ", "value"), (" ", "proc"), (":", "at")],
            "\n",
            answer,
        ),
        "vanished" => push_line(out, &[], "vanished\n", answer),
        "cut" => push_line(out, &[], "cut\n", answer),
        "no-input" => push_line(out, &[("no input ", "draw")], "\n", answer),
        "bad-input" => push_line(out, &[("bad input ", "draw")], "\n", answer),
        "number" => push_line(out, &[("number ", "proc"), (":", "at")], "\n", answer),
        _ => push_verdict_of(out, kind, answer),
    }
}

/// Adds the line of an answer of this kind, if it is the verdict of a test or the solution of a list of atoms.
fn push_verdict_of(out: &mut String, kind: &str, answer: &Json) -> Result<(), ReadFault>
    ensures { Adds (spec.verdict_of kind.now (view answer.now)) result (string_bytes out.old) (string_bytes out.new) }
{
    match kind {
        "clean" => push_line(out, &[], "clean\n", answer),
        "bug" => push_line(
            out,
            &[
                ("bug ", "proc"),
                (":", "at"),
                (" ", "value"),
                (" inputs ", "inputs"),
            ],
            "\n",
            answer,
        ),
        "unknown" => push_question(out, "unknown ", answer),
        "sat" => push_line(out, &[("sat ", "with")], "\n", answer),
        "unsat" => push_line(out, &[("unsat ", "proof")], "\n", answer),
        "unknown-atoms" => push_line(out, &[("unknown ", "outside")], "\n", answer),
        "bytes" => push_line(out, &[("bytes ", "bytes")], "\n", answer),
        _ => push_specification_of(out, kind, answer),
    }
}

/// Adds the line of an answer of this kind, if it is about a specification.
fn push_specification_of(out: &mut String, kind: &str, answer: &Json) -> Result<(), ReadFault>
    ensures { Adds (spec.specification_of kind.now (view answer.now)) result (string_bytes out.old) (string_bytes out.new) }
{
    match kind {
        "verified" => push_line(out, &[("", "name")], " verified\n", answer),
        "vacuous" => push_line(out, &[("", "name"), (" vacuous ", "proof")], "\n", answer),
        "unproved" => push_unproved(out, answer),
        "spec" => push_line(out, &[("", "spec")], cut_mark(answer), answer),
        _ => Err(ReadFault::Form),
    }
}

/// What stands behind a specification that was found.
fn cut_mark(answer: &Json) -> &'static str
    ensures { result.now ≡ spec.cut_mark (view answer.now) }
{
    if is_marked("cut", answer) {
        " cut\n"
    } else {
        "\n"
    }
}

/// Adds the line of a specification that isn't verified.
fn push_unproved(out: &mut String, answer: &Json) -> Result<(), ReadFault>
    ensures { Adds (spec.unproved (view answer.now)) result (string_bytes out.old) (string_bytes out.new) }
{
    let why = text_at("why", answer)?;
    push_unproved_why(out, why, answer)
}

/// Adds the line of a specification that isn't verified for this reason.
fn push_unproved_why(out: &mut String, why: &str, answer: &Json) -> Result<(), ReadFault>
    ensures { Adds (spec.unproved_why why.now (view answer.now)) result (string_bytes out.old) (string_bytes out.new) }
{
    match why {
        "fails" => push_line(
            out,
            &[
                ("", "name"),
                (" unproved fails ", "value"),
                (" ", "proc"),
                (":", "at"),
                (" path ", "path"),
                (" with ", "with"),
            ],
            "\n",
            answer,
        ),
        "unknown" => push_unproved_question(out, answer),
        "depends" => push_line(
            out,
            &[("", "name"), (" unproved depends ", "on")],
            "\n",
            answer,
        ),
        _ => push_line(
            out,
            &[
                ("", "name"),
                (" unproved ", "why"),
                (" ", "proc"),
                (":", "at"),
                (" path ", "path"),
                (" with ", "with"),
            ],
            "\n",
            answer,
        ),
    }
}

/// Adds the line of a specification of which conditions aren't decided.
fn push_unproved_question(out: &mut String, answer: &Json) -> Result<(), ReadFault>
    ensures { Adds (spec.unproved_question (view answer.now)) result (string_bytes out.old) (string_bytes out.new) }
{
    push_part_at(out, "name", answer)?;
    push_question(out, " unproved unknown ", answer)
}

/// Adds words, and conditions that aren't decided behind them.
fn push_question(out: &mut String, words: &str, answer: &Json) -> Result<(), ReadFault>
    ensures { Adds (spec.question words.now (view answer.now)) result (string_bytes out.old) (string_bytes out.new) }
{
    push_line(
        out,
        &[
            (words, "proc"),
            (":", "at"),
            (" path ", "path"),
            (" vars ", "vars"),
            (" given ", "given"),
            (" query ", "query"),
            (" outside ", "outside"),
        ],
        "\n",
        answer,
    )
}
