//! Answers as JSON.
ghost use Rattle.std.specs.Prelude.{◌≡◌, map, IfOk};
ghost use Rattle.serde_json.specs.View.{view};
ghost use Rattle.gil_syntax.specs.View.{spec_view};
ghost use Rattle.gil_values.specs.View.{value_view, values_view};
ghost use Rattle.gil_report.specs.declared.answers.Lack.{Lack};
ghost use Rattle.gil_report.specs.Json.{answer_data, draw_data, kind_alone, question_data, unproved_data};
ghost use Rattle.gil_report.specs.Pure.{returned, failed, number, bug, verified, vacuous, found, sat, unsat, unknown, bytes};
ghost use Rattle.gil_report.specs.Pure.{fails, lacks, undecided_cause, depends};
ghost use Rattle.gil_report.specs.View.{answer_view, binding_view, cause_view, named_proof_view, question_view, witness_view};

use crate::answers::{Answer, Bindings, Cause, Lack, Question, Witness};
use crate::pieces::word_of_lack;
use crate::proofs::NamedProof;
use crate::values::{
    bindings_value, conditions_value, counts_value, inputs_value, text_value, texts_value,
};
use gil_syntax::Spec;
use gil_values::{Place, Text, Value, Values};
use serde_json::{Value as Json, json};
use std::alloc::{AllocError, Global};

/// An answer as JSON.
pub fn answer_value(alloc: Global, answer: &Answer) -> Result<Json, AllocError>
    ensures { IfOk result (λ v. view v ≡ answer_data (answer_view answer.now)) }
{
    match answer {
        Answer::Returned(value) => returned_value(alloc, value),
        Answer::Failed(value, place) => failed_value(alloc, value, place),
        Answer::Vanished => kind_value(alloc, "vanished"),
        Answer::Cut => kind_value(alloc, "cut"),
        Answer::NoInput(draw) => draw_value(alloc, "no-input", *draw),
        Answer::BadInput(draw) => draw_value(alloc, "bad-input", *draw),
        Answer::Number(place) => number_value(alloc, place),
        Answer::Clean => kind_value(alloc, "clean"),
        Answer::Bug {
            place,
            value,
            inputs,
        } => bug_value(alloc, place, value, inputs),
        Answer::Undecided(question) => question_value(alloc, question),
        Answer::Verified(name) => verified_value(alloc, name),
        Answer::Vacuous(name, proof) => vacuous_value(alloc, name, proof),
        Answer::Unproved(name, cause) => unproved_value(alloc, name, cause),
        Answer::Found { spec, cut } => found_value(alloc, spec, *cut),
        Answer::Sat(bindings) => sat_value(alloc, bindings),
        Answer::Unsat(proof) => unsat_value(alloc, proof),
        Answer::Unknown(place) => unknown_value(alloc, *place),
        Answer::Bytes(length) => bytes_value(alloc, *length),
    }
}

/// An answer that says no more than its kind.
fn kind_value(alloc: Global, kind: &str) -> Result<Json, AllocError>
    ensures { IfOk result (λ v. view v ≡ kind_alone kind.now) }
{
    json!(in alloc; {"kind": kind})
}

/// An answer about a draw.
fn draw_value(alloc: Global, kind: &str, draw: u32) -> Result<Json, AllocError>
    ensures { IfOk result (λ v. view v ≡ draw_data kind.now draw) }
{
    json!(in alloc; {"draw": draw, "kind": kind})
}

/// A run that returned.
fn returned_value(alloc: Global, value: &Value) -> Result<Json, AllocError>
    ensures { IfOk result (λ v. view v ≡ answer_data (returned (value_view value.now))) }
{
    json!(in alloc; {"kind": "returned", "value": text_value(alloc, value)?})
}

/// A run that failed.
fn failed_value(alloc: Global, value: &Value, place: &Place) -> Result<Json, AllocError>
    ensures { IfOk result (λ v. view v ≡ answer_data (failed (value_view value.now) place.now)) }
{
    json!(in alloc; {"at": place.at, "kind": "failed", "proc": place.proc.as_str(), "value": text_value(alloc, value)?})
}

/// A result that leaves 128 bits.
fn number_value(alloc: Global, place: &Place) -> Result<Json, AllocError>
    ensures { IfOk result (λ v. view v ≡ answer_data (number place.now)) }
{
    json!(in alloc; {"at": place.at, "kind": "number", "proc": place.proc.as_str()})
}

/// A bug.
fn bug_value(
    alloc: Global,
    place: &Place,
    value: &Value,
    inputs: &Values,
) -> Result<Json, AllocError>
    ensures { IfOk result (λ v. view v ≡ answer_data (bug place.now (value_view value.now) (values_view inputs.now))) }
{
    json!(in alloc; {
        "at": place.at,
        "inputs": inputs_value(alloc, inputs)?,
        "kind": "bug",
        "proc": place.proc.as_str(),
        "value": text_value(alloc, value)?
    })
}

/// Conditions that aren't decided.
fn question_value(alloc: Global, question: &Question) -> Result<Json, AllocError>
    ensures { IfOk result (λ v. view v ≡ question_data (question_view question.now)) }
{
    json!(in alloc; {
        "at": question.place.at,
        "given": conditions_value(alloc, &question.given)?,
        "kind": "unknown",
        "outside": question.outside,
        "path": counts_value(alloc, question.path.as_slice())?,
        "proc": question.place.proc.as_str(),
        "query": conditions_value(alloc, &question.query)?,
        "vars": texts_value(alloc, question.vars.as_slice())?
    })
}

/// A specification that holds.
fn verified_value(alloc: Global, name: &Text) -> Result<Json, AllocError>
    ensures { IfOk result (λ v. view v ≡ answer_data (verified name.now)) }
{
    json!(in alloc; {"kind": "verified", "name": name.as_str()})
}

/// A specification whose precondition nothing meets.
fn vacuous_value(alloc: Global, name: &Text, proof: &NamedProof) -> Result<Json, AllocError>
    ensures { IfOk result (λ v. view v ≡ answer_data (vacuous name.now (named_proof_view proof.now))) }
{
    json!(in alloc; {"kind": "vacuous", "name": name.as_str(), "proof": text_value(alloc, proof)?})
}

/// A specification that isn't verified.
fn unproved_value(alloc: Global, name: &Text, cause: &Cause) -> Result<Json, AllocError>
    ensures { IfOk result (λ v. view v ≡ unproved_data name.now (cause_view cause.now)) }
{
    match cause {
        Cause::Fails(value, witness) => fails_value(alloc, name, value, witness),
        Cause::Lacks(lack, witness) => lacks_value(alloc, name, *lack, witness),
        Cause::Undecided(question) => unproved_question_value(alloc, name, question),
        Cause::Depends(other) => depends_value(alloc, name, other),
    }
}

/// A specification of which a path fails.
fn fails_value(
    alloc: Global,
    name: &Text,
    value: &Value,
    witness: &Witness,
) -> Result<Json, AllocError>
    ensures { IfOk result (λ v. view v ≡ unproved_data name.now (fails (value_view value.now) (witness_view witness.now))) }
{
    json!(in alloc; {
        "at": witness.place.at,
        "kind": "unproved",
        "name": name.as_str(),
        "path": counts_value(alloc, witness.path.as_slice())?,
        "proc": witness.place.proc.as_str(),
        "value": text_value(alloc, value)?,
        "why": "fails",
        "with": bindings_value(alloc, &witness.with)?
    })
}

/// A specification of which a path lacks something.
fn lacks_value(
    alloc: Global,
    name: &Text,
    lack: Lack,
    witness: &Witness,
) -> Result<Json, AllocError>
    ensures { IfOk result (λ v. view v ≡ unproved_data name.now (lacks lack (witness_view witness.now))) }
{
    json!(in alloc; {
        "at": witness.place.at,
        "kind": "unproved",
        "name": name.as_str(),
        "path": counts_value(alloc, witness.path.as_slice())?,
        "proc": witness.place.proc.as_str(),
        "why": word_of_lack(lack),
        "with": bindings_value(alloc, &witness.with)?
    })
}

/// A specification of which conditions aren't decided.
fn unproved_question_value(
    alloc: Global,
    name: &Text,
    question: &Question,
) -> Result<Json, AllocError>
    ensures { IfOk result (λ v. view v ≡ unproved_data name.now (undecided_cause (question_view question.now))) }
{
    json!(in alloc; {
        "at": question.place.at,
        "given": conditions_value(alloc, &question.given)?,
        "kind": "unproved",
        "name": name.as_str(),
        "outside": question.outside,
        "path": counts_value(alloc, question.path.as_slice())?,
        "proc": question.place.proc.as_str(),
        "query": conditions_value(alloc, &question.query)?,
        "vars": texts_value(alloc, question.vars.as_slice())?,
        "why": "unknown"
    })
}

/// A specification that uses one that isn't verified.
fn depends_value(alloc: Global, name: &Text, other: &Text) -> Result<Json, AllocError>
    ensures { IfOk result (λ v. view v ≡ unproved_data name.now (depends other.now)) }
{
    json!(in alloc; {"kind": "unproved", "name": name.as_str(), "on": other.as_str(), "why": "depends"})
}

/// A specification that was found.
fn found_value(alloc: Global, spec: &Spec, cut: bool) -> Result<Json, AllocError>
    ensures { IfOk result (λ v. view v ≡ answer_data (found (spec_view spec.now) cut)) }
{
    json!(in alloc; {"cut": cut, "kind": "spec", "spec": text_value(alloc, spec)?})
}

/// Values that make every atom true.
fn sat_value(alloc: Global, bindings: &Bindings) -> Result<Json, AllocError>
    ensures { IfOk result (λ v. view v ≡ answer_data (sat (map binding_view bindings.now))) }
{
    json!(in alloc; {"kind": "sat", "with": bindings_value(alloc, bindings)?})
}

/// A proof that no values make every atom true.
fn unsat_value(alloc: Global, proof: &NamedProof) -> Result<Json, AllocError>
    ensures { IfOk result (λ v. view v ≡ answer_data (unsat (named_proof_view proof.now))) }
{
    json!(in alloc; {"kind": "unsat", "proof": text_value(alloc, proof)?})
}

/// A list that isn't in the fragment.
fn unknown_value(alloc: Global, place: usize) -> Result<Json, AllocError>
    ensures { IfOk result (λ v. view v ≡ answer_data (unknown place)) }
{
    json!(in alloc; {"kind": "unknown-atoms", "outside": place})
}

/// The length of a made text.
fn bytes_value(alloc: Global, length: usize) -> Result<Json, AllocError>
    ensures { IfOk result (λ v. view v ≡ answer_data (bytes length)) }
{
    json!(in alloc; {"bytes": length, "kind": "bytes"})
}
