//! The lines of answers.
ghost use Rattle.std.specs.Prelude.{◌≡◌, ◌++◌, map, string_bytes, OnOk};
ghost use Rattle.gil_values.specs.View.{value_view, values_view};
ghost use Rattle.gil_syntax.specs.View.{spec_view};
ghost use Rattle.gil_report.specs.Lines.{answer_line, printed_cause, printed_question, printed_witness};
ghost use Rattle.gil_report.specs.Pure.{returned, failed, number, bug, undecided, verified, vacuous, unproved, found, sat, unsat};
ghost use Rattle.gil_report.specs.View.{answer_view, binding_view, cause_view, named_proof_view, question_view, witness_view};

use crate::answers::{Answer, Bindings, Cause, Question, Witness};
use crate::lists::{push_bindings, push_conditions, push_list};
use crate::pieces::{push_counted, word_of_lack};
use crate::print::Print;
use crate::proofs::NamedProof;
use gil_syntax::Spec;
use gil_values::{Place, Text, Value, Values, push_number, push_place, push_value, push_values};
use std::alloc::AllocError;

/// Adds the line of an answer.
pub fn push_answer(out: &mut String, answer: &Answer) -> Result<(), AllocError>
    ensures { OnOk result (string_bytes out.new ≡ string_bytes out.old ++ answer_line (answer_view answer.now)) }
{
    match answer {
        Answer::Returned(value) => push_returned(out, value),
        Answer::Failed(value, place) => push_failed(out, value, place),
        Answer::Vanished => out.push_str("vanished\n"),
        Answer::Cut => out.push_str("cut\n"),
        Answer::NoInput(draw) => push_counted(out, "no input ", u64::from(*draw)),
        Answer::BadInput(draw) => push_counted(out, "bad input ", u64::from(*draw)),
        Answer::Number(place) => push_too_wide(out, place),
        Answer::Clean => out.push_str("clean\n"),
        Answer::Bug {
            place,
            value,
            inputs,
        } => push_bug(out, place, value, inputs),
        Answer::Undecided(question) => push_undecided(out, question),
        Answer::Verified(name) => push_verified(out, name),
        Answer::Vacuous(name, proof) => push_vacuous(out, name, proof),
        Answer::Unproved(name, cause) => push_unproved(out, name, cause),
        Answer::Found { spec, cut } => push_found(out, spec, *cut),
        Answer::Sat(bindings) => push_sat(out, bindings),
        Answer::Unsat(proof) => push_unsat(out, proof),
        Answer::Unknown(place) => push_counted(out, "unknown ", *place as u64),
        Answer::Bytes(length) => push_counted(out, "bytes ", *length as u64),
    }
}

/// Adds the line of a run that returned.
fn push_returned(out: &mut String, value: &Value) -> Result<(), AllocError>
    ensures { OnOk result (string_bytes out.new ≡ string_bytes out.old ++ answer_line (returned (value_view value.now))) }
{
    out.push_str("returned ")?;
    push_value(out, value)?;
    out.push_str("\n")?;
    Ok(())
}

/// Adds the line of a run that failed.
fn push_failed(out: &mut String, value: &Value, place: &Place) -> Result<(), AllocError>
    ensures { OnOk result (string_bytes out.new ≡ string_bytes out.old ++ answer_line (failed (value_view value.now) place.now)) }
{
    out.push_str("failed ")?;
    push_value(out, value)?;
    out.push_str(" ")?;
    push_place(out, place)?;
    out.push_str("\n")?;
    Ok(())
}

/// Adds the line of a result that leaves 128 bits.
fn push_too_wide(out: &mut String, place: &Place) -> Result<(), AllocError>
    ensures { OnOk result (string_bytes out.new ≡ string_bytes out.old ++ answer_line (number place.now)) }
{
    out.push_str("number ")?;
    push_place(out, place)?;
    out.push_str("\n")?;
    Ok(())
}

/// Adds the line of a bug.
fn push_bug(
    out: &mut String,
    place: &Place,
    value: &Value,
    inputs: &Values,
) -> Result<(), AllocError>
    ensures { OnOk result (string_bytes out.new
        ≡ string_bytes out.old ++ answer_line (bug place.now (value_view value.now) (values_view inputs.now))) }
{
    out.push_str("bug ")?;
    push_place(out, place)?;
    out.push_str(" ")?;
    push_value(out, value)?;
    out.push_str(" inputs ")?;
    push_values(out, inputs)?;
    out.push_str("\n")?;
    Ok(())
}

/// Adds the line of a verdict that isn't decided.
fn push_undecided(out: &mut String, question: &Question) -> Result<(), AllocError>
    ensures { OnOk result (string_bytes out.new ≡ string_bytes out.old ++ answer_line (undecided (question_view question.now))) }
{
    out.push_str("unknown ")?;
    push_question(out, question)?;
    out.push_str("\n")?;
    Ok(())
}

/// Adds the line of a specification that holds.
fn push_verified(out: &mut String, name: &Text) -> Result<(), AllocError>
    ensures { OnOk result (string_bytes out.new ≡ string_bytes out.old ++ answer_line (verified name.now)) }
{
    out.push_str(name.as_str())?;
    out.push_str(" verified\n")
}

/// Adds the line of a specification whose precondition nothing meets.
fn push_vacuous(out: &mut String, name: &Text, proof: &NamedProof) -> Result<(), AllocError>
    ensures { OnOk result (string_bytes out.new
        ≡ string_bytes out.old ++ answer_line (vacuous name.now (named_proof_view proof.now))) }
{
    out.push_str(name.as_str())?;
    out.push_str(" vacuous ")?;
    proof.print(out)?;
    out.push_str("\n")?;
    Ok(())
}

/// Adds the line of a specification that isn't verified.
fn push_unproved(out: &mut String, name: &Text, cause: &Cause) -> Result<(), AllocError>
    ensures { OnOk result (string_bytes out.new ≡ string_bytes out.old ++ answer_line (unproved name.now (cause_view cause.now))) }
{
    out.push_str(name.as_str())?;
    out.push_str(" unproved ")?;
    push_cause(out, cause)?;
    out.push_str("\n")?;
    Ok(())
}

/// Adds why a specification isn't verified.
fn push_cause(out: &mut String, cause: &Cause) -> Result<(), AllocError>
    ensures { OnOk result (string_bytes out.new ≡ string_bytes out.old ++ printed_cause (cause_view cause.now)) }
{
    match cause {
        Cause::Fails(value, witness) => {
            out.push_str("fails ")?;
            push_value(out, value)?;
            out.push_str(" ")?;
            push_witness(out, witness)
        }
        Cause::Lacks(lack, witness) => {
            out.push_str(word_of_lack(*lack))?;
            out.push_str(" ")?;
            push_witness(out, witness)
        }
        Cause::Undecided(question) => {
            out.push_str("unknown ")?;
            push_question(out, question)
        }
        Cause::Depends(name) => {
            out.push_str("depends ")?;
            out.push_str(name.as_str())
        }
    }
}

/// Adds a path and its values.
fn push_witness(out: &mut String, witness: &Witness) -> Result<(), AllocError>
    ensures { OnOk result (string_bytes out.new ≡ string_bytes out.old ++ printed_witness (witness_view witness.now)) }
{
    push_place(out, &witness.place)?;
    out.push_str(" path ")?;
    push_list(out, witness.path.as_slice())?;
    out.push_str(" with ")?;
    push_bindings(out, &witness.with)
}

/// Adds conditions that aren't decided.
fn push_question(out: &mut String, question: &Question) -> Result<(), AllocError>
    ensures { OnOk result (string_bytes out.new ≡ string_bytes out.old ++ printed_question (question_view question.now)) }
{
    push_place(out, &question.place)?;
    out.push_str(" path ")?;
    push_list(out, question.path.as_slice())?;
    out.push_str(" vars ")?;
    push_list(out, question.vars.as_slice())?;
    out.push_str(" given ")?;
    push_conditions(out, &question.given)?;
    out.push_str(" query ")?;
    push_conditions(out, &question.query)?;
    out.push_str(" outside ")?;
    push_number(out, question.outside as u64)
}

/// Adds the line of a specification that was found.
fn push_found(out: &mut String, spec: &Spec, cut: bool) -> Result<(), AllocError>
    ensures { OnOk result (string_bytes out.new ≡ string_bytes out.old ++ answer_line (found (spec_view spec.now) cut)) }
{
    spec.print(out)?;
    out.push_str(if cut { " cut\n" } else { "\n" })
}

/// Adds the line of values that make every atom true.
fn push_sat(out: &mut String, bindings: &Bindings) -> Result<(), AllocError>
    ensures { OnOk result (string_bytes out.new ≡ string_bytes out.old ++ answer_line (sat (map binding_view bindings.now))) }
{
    out.push_str("sat ")?;
    push_bindings(out, bindings)?;
    out.push_str("\n")?;
    Ok(())
}

/// Adds the line of a proof that no values make every atom true.
fn push_unsat(out: &mut String, proof: &NamedProof) -> Result<(), AllocError>
    ensures { OnOk result (string_bytes out.new ≡ string_bytes out.old ++ answer_line (unsat (named_proof_view proof.now))) }
{
    out.push_str("unsat ")?;
    proof.print(out)?;
    out.push_str("\n")?;
    Ok(())
}
