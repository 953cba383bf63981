//! Parts of answers.
ghost use Rattle.std.specs.Prelude.{◌≡◌, map};
ghost use Rattle.std.specs.List.{list_all};
ghost use Rattle.gil_report.specs.Pure.{fails};
ghost use Rattle.gil_report.specs.View.{binding_view, cause_view, condition_view, question_view, witness_view};
ghost use Rattle.gil_values.specs.View.{value_view};
ghost use Rattle.writable_reports.specs.Tests as test;

use crate::expressions::is_writable_expr;
use crate::names::{is_name, is_variable_name};
use crate::numbers::{are_choices, has_32_bits, has_64_bits};
use crate::values::is_writable_value;
use gil_report::{Binding, Cause, Condition, Question, Witness};
use gil_values::{Place, Value};

/// Whether some text has the place.
pub(crate) fn is_writable_place(place: &Place) -> bool
    ensures { result ≡ test.is_writable_place place.now }
{
    is_name(&place.proc) && has_32_bits(place.at)
}

/// Whether some text has the variable and its value.
fn is_writable_binding(binding: &Binding) -> bool
    ensures { result ≡ test.is_writable_binding (binding_view binding.now) }
{
    is_variable_name(&binding.name) && is_writable_value(&binding.value)
}

/// Whether some text has each of the bindings.
pub(crate) fn are_writable_bindings(bindings: &[Binding]) -> bool
    ensures { result ≡ list_all test.is_writable_binding (map binding_view bindings.now) }
{
    for binding in bindings {
        if !is_writable_binding(binding) {
            return false;
        }
    }
    true
}

/// Whether some text has the condition.
fn is_writable_condition(condition: &Condition) -> bool
    ensures { result ≡ test.is_writable_condition (condition_view condition.now) }
{
    match condition {
        Condition::Holds(expression) => is_writable_expr(expression),
        Condition::Open(expression) => is_writable_expr(expression),
    }
}

/// Whether some text has each of the conditions.
fn are_writable_conditions(conditions: &[Condition]) -> bool
    ensures { result ≡ list_all test.is_writable_condition (map condition_view conditions.now) }
{
    for condition in conditions {
        if !is_writable_condition(condition) {
            return false;
        }
    }
    true
}

/// Whether some text has the place where a path leads, and its choices.
fn is_writable_path(place: &Place, path: &[u64]) -> bool
    ensures { result ≡ test.is_writable_path place.now path.now }
{
    is_writable_place(place) && are_choices(path)
}

/// Whether some text has what is assumed, what is asked, and the place of a condition of these.
fn is_writable_query(given: &[Condition], query: &[Condition], outside: usize) -> bool
    ensures { result ≡ test.is_writable_query (map condition_view given.now) (map condition_view query.now) outside }
{
    are_writable_conditions(given) && are_writable_conditions(query) && has_64_bits(outside as u64)
}

/// Whether some text has the question.
pub(crate) fn is_writable_question(question: &Question) -> bool
    ensures { result ≡ test.is_writable_question (question_view question.now) }
{
    is_writable_path(&question.place, question.path.as_slice())
        && is_writable_query(
            question.given.as_slice(),
            question.query.as_slice(),
            question.outside,
        )
}

/// Whether some text has the path and its values.
fn is_writable_witness(witness: &Witness) -> bool
    ensures { result ≡ test.is_writable_witness (witness_view witness.now) }
{
    is_writable_path(&witness.place, witness.path.as_slice())
        && are_writable_bindings(witness.with.as_slice())
}

/// Whether some text has the value and the path that fails with it.
fn is_writable_failure(value: &Value, witness: &Witness) -> bool
    ensures { result ≡ test.is_writable_cause (fails (value_view value.now) (witness_view witness.now)) }
{
    is_writable_value(value) && is_writable_witness(witness)
}

/// Whether some text has the cause.
pub(crate) fn is_writable_cause(cause: &Cause) -> bool
    ensures { result ≡ test.is_writable_cause (cause_view cause.now) }
{
    match cause {
        Cause::Fails(value, witness) => is_writable_failure(value, witness),
        Cause::Lacks(_, witness) => is_writable_witness(witness),
        Cause::Undecided(question) => is_writable_question(question),
        Cause::Depends(name) => is_name(name),
    }
}
