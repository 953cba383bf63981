//! The limits of programs: how many items, commands, parameters and variables there may be, and how wide a literal is.
ghost use Rattle.std.specs.Prelude.{◌≡◌, nat_lt, map, length, ◌+◌, ◌<◌};
ghost use Rattle.std.specs.List.{list_any};
ghost use Rattle.gil_values.specs.View.{value_view};
ghost use Rattle.gil_syntax.specs.Valid as valid;
ghost use Rattle.gil_syntax.specs.Valid.{is_large, has_wide_literal, is_too_many, a_proc, a_spec, a_pred};
ghost use Rattle.gil_syntax.specs.View.{command_view, numbered_command_view, proc_view, spec_view, pred_def_view};
ghost use Rattle.gil_syntax.specs.Pure.{PureParts};
ghost use Rattle.gil_syntax.specs.Items.{before_proc, before_spec, before_pred};
ghost use Rattle.gil_syntax.specs.Sought.{is_wide_literal, no_use};
ghost use Rattle.gil_syntax.specs.Uncounted.{passes_limit};

use crate::seeking::{Sought, in_assertions, in_body, in_spec};
use crate::{Body, Command, Expr, NumberedCommand, PredDef, PredUse, Proc, Spec};
use gil_values::Value;

/// How many items a list of a program may have, and how many commands a procedure.
const MOST_ITEMS: usize = 1000;

/// How many parameters a procedure or a predicate may have, and how many logical variables a specification, a predicate
/// or an invariant.
const MOST_PARAMS: usize = 64;

/// Literals that don't fit 64 bits.
#[derive(Clone, Copy)]
struct WideLiteral {}

impl Sought for WideLiteral {
    ghost is_ready = { λ s. Unit {0} };

    ghost is_node = { λ s. is_wide_literal };

    ghost is_use = { λ s. no_use };

    fn tests_node(&self, expression: &Expr) -> bool {
        match expression {
            Expr::Lit(value) => is_wide(value),
            _ => false,
        }
    }

    fn tests_use(&self, _used: &PredUse) -> bool {
        false
    }
}

/// Whether a value is a number that doesn't fit 64 bits.
fn is_wide(value: &Value) -> bool
    ensures { result ≡ valid.is_wide (value_view value.now) }
{
    match value {
        Value::Int(n) => *n < -9_223_372_036_854_775_808 || 9_223_372_036_854_775_808 <= *n,
        _ => false,
    }
}

/// Whether an invariant declares too many variables.
fn has_many_variables(command: &Command) -> bool
    ensures { result ≡ valid.has_many_variables (command_view command.now) }
{
    match command {
        Command::LoopInvariant(_, params, _) => params.len() > MOST_PARAMS,
        _ => false,
    }
}

/// Whether some invariant declares too many variables.
fn has_large_invariant(body: &[NumberedCommand]) -> bool
    ensures { result ≡ list_any (λ c. valid.has_many_variables (command_view c.command)) body.now }
{
    body.iter()
        .any(|numbered| has_many_variables(&numbered.command))
}

/// Whether some invariant of a body declares too many variables.
fn body_has_large_invariant(body: &Body) -> bool
    ensures { result ≡ list_any (λ c. valid.has_many_variables c.command) (map numbered_command_view body.now) }
{
    has_large_invariant(body.as_slice())
}

/// Whether a procedure has too many parameters, or an invariant in it too many variables.
fn has_many_names(proc: &Proc) -> bool
    ensures { result ≡ valid.has_many_names (a_proc (proc_view proc.now)) }
{
    proc.params.len() > MOST_PARAMS || body_has_large_invariant(&proc.body)
}

/// Whether a procedure passes a limit.
fn is_large_proc(proc: &Proc) -> bool
    ensures { result ≡ is_large (a_proc (proc_view proc.now)) }
{
    proc.body.len() > MOST_ITEMS
        || proc.params.len() > MOST_PARAMS
        || body_has_large_invariant(&proc.body)
}

/// Whether a specification passes a limit.
fn is_large_spec(spec: &Spec) -> bool
    ensures { result ≡ is_large (a_spec (spec_view spec.now)) }
{
    spec.logicals.len() > MOST_PARAMS
}

/// Whether a predicate passes a limit.
fn is_large_pred(pred: &PredDef) -> bool
    ensures { result ≡ is_large (a_pred (pred_def_view pred.now)) }
{
    has_many_params(pred.ins.len(), pred.outs.len()) || pred.logicals.len() > MOST_PARAMS
}

/// Whether the ins and the outs together are too many.
fn has_many_params(ins: usize, outs: usize) -> bool
    ensures { result ≡ nat_lt valid.most_params (ins + outs) }
{
    ins > MOST_PARAMS || outs > MOST_PARAMS - ins
}

/// Whether a procedure has a wide literal.
fn proc_has_wide_literal(proc: &Proc) -> bool
    ensures { (p : PureParts) → result ≡ has_wide_literal p (a_proc (proc_view proc.now)) }
{
    in_body(&WideLiteral {}, &proc.body)
}

/// Whether a specification has a wide literal.
fn spec_has_wide_literal(spec: &Spec) -> bool
    ensures { (p : PureParts) → result ≡ has_wide_literal p (a_spec (spec_view spec.now)) }
{
    in_spec(&WideLiteral {}, spec)
}

/// Whether a predicate has a wide literal.
fn pred_has_wide_literal(pred: &PredDef) -> bool
    ensures { (p : PureParts) → result ≡ has_wide_literal p (a_pred (pred_def_view pred.now)) }
{
    in_assertions(&WideLiteral {}, &pred.cases)
}

/// Whether a procedure stands past the limit of its list, or passes a limit.
pub(crate) fn proc_is_too_many(place: usize, proc: &Proc) -> bool
    ensures { (p : PureParts) → place < length p.procs → result ≡ is_too_many p (before_proc p place) (a_proc (proc_view proc.now)) }
{
    place >= MOST_ITEMS || is_large_proc(proc) || proc_has_wide_literal(proc)
}

/// Whether a specification stands past the limit of its list, or passes a limit.
pub(crate) fn spec_is_too_many(place: usize, spec: &Spec) -> bool
    ensures { (p : PureParts) → place < length p.specs → result ≡ is_too_many p (before_spec p place) (a_spec (spec_view spec.now)) }
{
    place >= MOST_ITEMS || is_large_spec(spec) || spec_has_wide_literal(spec)
}

/// Whether a predicate stands past the limit of its list, or passes a limit.
pub(crate) fn pred_is_too_many(place: usize, pred: &PredDef) -> bool
    ensures { (p : PureParts) → place < length p.preds → result ≡ is_too_many p (before_pred p place) (a_pred (pred_def_view pred.now)) }
{
    place >= MOST_ITEMS || is_large_pred(pred) || pred_has_wide_literal(pred)
}

/// Whether a procedure stands past the limit of its list, or passes a limit, whatever the number of its commands.
pub(crate) fn proc_passes_limit(place: usize, proc: &Proc) -> bool
    ensures { (p : PureParts) → place < length p.procs → result ≡ passes_limit p (before_proc p place) (a_proc (proc_view proc.now)) }
{
    place >= MOST_ITEMS || has_many_names(proc) || proc_has_wide_literal(proc)
}
