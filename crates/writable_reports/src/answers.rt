//! Answers.
ghost use Rattle.std.specs.Prelude.{◌≡◌, map};
ghost use Rattle.std.specs.List.{list_all};
ghost use Rattle.gil_report.specs.Pure.{failed, found, unproved, vacuous};
ghost use Rattle.gil_report.specs.View.{answer_view, cause_view, named_proof_view};
ghost use Rattle.gil_syntax.specs.View.{assertion_view, spec_view};
ghost use Rattle.gil_values.specs.View.{value_view, values_view};
ghost use Rattle.report_text.specs.Reading as form;
ghost use Rattle.writable_reports.specs.Tests as test;

use crate::names::is_name;
use crate::numbers::{has_32_bits, has_64_bits};
use crate::parts::{
    are_writable_bindings, is_writable_cause, is_writable_place, is_writable_question,
};
use crate::proofs::is_writable_proof;
use crate::specifications::is_writable_spec;
use crate::values::{are_writable_values, is_writable_value};
use gil_report::{Answer, Cause, NamedProof};
use gil_syntax::{Assertions, Spec};
use gil_values::{Place, Text, Value, Values};

/// Whether some text has the value and the place at which a run fails with it.
fn is_writable_failure(value: &Value, place: &Place) -> bool
    ensures { result ≡ test.is_writable_answer (failed (value_view value.now) place.now) }
{
    is_writable_value(value) && is_writable_place(place)
}

/// Whether some text has the bug.
fn is_writable_bug(place: &Place, value: &Value, inputs: &Values) -> bool
    ensures { result ≡ test.is_writable_bug place.now (value_view value.now) (values_view inputs.now) }
{
    is_writable_place(place) && is_writable_value(value) && are_writable_values(inputs)
}

/// Whether some text has the name and the proof that nothing meets the precondition.
fn is_writable_vacuity(name: &Text, proof: &NamedProof) -> bool
    ensures { result ≡ test.is_writable_answer (vacuous name.now (named_proof_view proof.now)) }
{
    is_name(name) && is_writable_proof(proof)
}

/// Whether some text has the name and the cause.
fn is_writable_unproved(name: &Text, cause: &Cause) -> bool
    ensures { result ≡ test.is_writable_answer (unproved name.now (cause_view cause.now)) }
{
    is_name(name) && is_writable_cause(cause)
}

/// Whether there are no postconditions.
fn has_none(posts: &Assertions) -> bool
    ensures { result ≡ form.has_none (map assertion_view posts.now) }
{
    match posts.as_slice() {
        [_, ..] => false,
        [] => true,
    }
}

/// Whether a specification doesn't say how its runs end.
fn is_open(spec: &Spec) -> bool
    ensures { result ≡ form.is_open (spec_view spec.now) }
{
    has_none(&spec.posts) && has_none(&spec.errors)
}

/// Whether a specification is marked as cut exactly where it is open.
fn is_marked(is_open: bool, is_cut: bool) -> bool
    ensures { result ≡ test.is_marked is_open is_cut }
{
    if is_open { is_cut } else { !is_cut }
}

/// Whether some text has the specification that was found.
fn is_writable_finding(spec: &Spec, cut: bool) -> bool
    ensures { result ≡ test.is_writable_answer (found (spec_view spec.now) cut) }
{
    is_writable_spec(spec) && is_marked(is_open(spec), cut)
}

/// Whether some text has the answer.
fn is_writable_answer(answer: &Answer) -> bool
    ensures { result ≡ test.is_writable_answer (answer_view answer.now) }
{
    match answer {
        Answer::Returned(value) => is_writable_value(value),
        Answer::Failed(value, place) => is_writable_failure(value, place),
        Answer::Vanished => true,
        Answer::Cut => true,
        Answer::NoInput(draw) => has_32_bits(*draw),
        Answer::BadInput(draw) => has_32_bits(*draw),
        Answer::Number(place) => is_writable_place(place),
        Answer::Clean => true,
        Answer::Bug {
            place,
            value,
            inputs,
        } => is_writable_bug(place, value, inputs),
        Answer::Undecided(question) => is_writable_question(question),
        Answer::Verified(name) => is_name(name),
        Answer::Vacuous(name, proof) => is_writable_vacuity(name, proof),
        Answer::Unproved(name, cause) => is_writable_unproved(name, cause),
        Answer::Found { spec, cut } => is_writable_finding(spec, *cut),
        Answer::Sat(bindings) => are_writable_bindings(bindings.as_slice()),
        Answer::Unsat(proof) => is_writable_proof(proof),
        Answer::Unknown(place) => has_64_bits(*place as u64),
        Answer::Bytes(length) => has_64_bits(*length as u64),
    }
}

/// Whether some text has each of the answers.
pub(crate) fn are_writable_answers(answers: &[Answer]) -> bool
    ensures { result ≡ list_all test.is_writable_answer (map answer_view answers.now) }
{
    for answer in answers {
        if !is_writable_answer(answer) {
            return false;
        }
    }
    true
}
