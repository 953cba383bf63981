//! Whether parts are well made: what no reader and no compiler writes otherwise.
ghost use Rattle.std.specs.Prelude.{◌≡◌, map};
ghost use Rattle.std.specs.List.{list_all};
ghost use Rattle.gil_values.specs.View.{value_view};
ghost use Rattle.gil_syntax.specs.View.{command_view, numbered_command_view, assertion_view, proc_view, spec_view, pred_def_view, parts_view};
ghost use Rattle.gil_syntax.specs.Subexpressions.{assertions_of};
ghost use Rattle.gil_syntax.specs.WellMade as made;
ghost use Rattle.gil_syntax.specs.Sought.{is_ill_made, no_use};

use crate::seeking::{Sought, in_assertions, in_command, in_spec};
use crate::{
    Assertions, Body, Command, Expr, NumberedCommand, Param, Parts, PredDef, PredUse, Proc, Spec,
};
use gil_values::{Kind, Text, Value};

/// Literals and names that no program has.
#[derive(Clone, Copy)]
struct IllMade {}

impl Sought for IllMade {
    ghost is_ready = { λ s. Unit {0} };

    ghost is_node = { λ s. is_ill_made };

    ghost is_use = { λ s. no_use };

    fn tests_node(&self, expression: &Expr) -> bool {
        match expression {
            Expr::Lit(value) => !is_spellable(value),
            Expr::Name(name) => has_hash(name),
            Expr::Logical(name) => !has_hash(name),
            _ => false,
        }
    }

    fn tests_use(&self, _used: &PredUse) -> bool {
        false
    }
}

/// Whether a literal may be the value: no symbol and no list.
fn is_spellable(value: &Value) -> bool
    ensures { result ≡ made.is_spellable (value_view value.now) }
{
    !matches!(value, Value::Sym(_) | Value::List(_))
}

/// Whether an input may have the kind.
fn is_drawable(kind: Kind) -> bool
    ensures { result ≡ made.is_drawable kind }
{
    matches!(kind, Kind::Int | Kind::Bool | Kind::Str)
}

/// Whether a name begins with `#`.
fn has_hash(name: &Text) -> bool
    ensures { result ≡ made.has_hash name.now }
{
    match name.as_str().as_bytes() {
        [first, ..] => *first == b'#',
        [] => false,
    }
}

/// Whether each text is the name of a program variable.
fn are_variables(names: &[Text]) -> bool
    ensures { result ≡ list_all made.is_program_name names.now }
{
    names.iter().all(|name| !has_hash(name))
}

/// Whether each name is that of a logical variable.
fn are_logical(params: &[Param]) -> bool
    ensures { result ≡ made.are_logical params.now }
{
    params.iter().all(|param| has_hash(&param.name))
}

/// Whether no name is that of a logical variable.
fn are_program_names(params: &[Param]) -> bool
    ensures { result ≡ made.are_program_names params.now }
{
    params.iter().all(|param| !has_hash(&param.name))
}

/// Whether what a command assigns, draws and lists is well made.
fn has_well_made_names(command: &Command) -> bool
    ensures { result ≡ made.has_well_made_names (command_view command.now) }
{
    match command {
        Command::Assign(variable, _)
        | Command::Call(variable, _, _, _)
        | Command::Act(variable, _, _)
        | Command::Usym(variable) => !has_hash(variable),
        Command::Isym(variable, kind) => !has_hash(variable) && is_drawable(*kind),
        Command::LoopInvariant(variables, params, _) => {
            are_variables(variables.as_slice()) && are_logical(params.as_slice())
        }
        _ => true,
    }
}

/// Whether a command is well made.
fn is_well_made_command(command: &Command) -> bool
    ensures { result ≡ made.is_well_made_command (command_view command.now) }
{
    has_well_made_names(command) && !in_command(&IllMade {}, command)
}

/// Whether each command is well made.
fn are_well_made_commands(body: &[NumberedCommand]) -> bool
    ensures { result ≡ list_all (λ c. made.is_well_made_command (command_view c.command)) body.now }
{
    body.iter()
        .all(|numbered| is_well_made_command(&numbered.command))
}

/// Whether a body is well made.
fn is_well_made_body(body: &Body) -> bool
    ensures { result ≡ list_all (λ c. made.is_well_made_command c.command) (map numbered_command_view body.now) }
{
    are_well_made_commands(body.as_slice())
}

/// Whether each assertion of a specification is well made.
fn has_well_made_assertions(spec: &Spec) -> bool
    ensures { result ≡ list_all made.is_well_made_assertion (assertions_of (spec_view spec.now)) }
{
    !in_spec(&IllMade {}, spec)
}

/// Whether each assertion is well made.
fn are_well_made_assertions(assertions: &Assertions) -> bool
    ensures { result ≡ list_all made.is_well_made_assertion (map assertion_view assertions.now) }
{
    !in_assertions(&IllMade {}, assertions)
}

/// Whether a procedure is well made.
fn is_well_made_proc(proc: &Proc) -> bool
    ensures { result ≡ made.is_well_made_proc (proc_view proc.now) }
{
    are_variables(proc.params.as_slice()) && is_well_made_body(&proc.body)
}

/// Whether a specification is well made.
fn is_well_made_spec(spec: &Spec) -> bool
    ensures { result ≡ made.is_well_made_spec (spec_view spec.now) }
{
    are_program_names(spec.params.as_slice())
        && are_logical(spec.logicals.as_slice())
        && has_well_made_assertions(spec)
}

/// Whether a predicate is well made.
fn is_well_made_pred(pred: &PredDef) -> bool
    ensures { result ≡ made.is_well_made_pred (pred_def_view pred.now) }
{
    are_program_names(pred.ins.as_slice())
        && are_program_names(pred.outs.as_slice())
        && are_logical(pred.logicals.as_slice())
        && are_well_made_assertions(&pred.cases)
}

/// Whether each procedure is well made.
fn are_well_made_procs(procs: &[Proc]) -> bool
    ensures { result ≡ list_all (λ q. made.is_well_made_proc (proc_view q)) procs.now }
{
    procs.iter().all(|proc| is_well_made_proc(proc))
}

/// Whether each specification is well made.
fn are_well_made_specs(specs: &[Spec]) -> bool
    ensures { result ≡ list_all (λ s. made.is_well_made_spec (spec_view s)) specs.now }
{
    specs.iter().all(|spec| is_well_made_spec(spec))
}

/// Whether each predicate is well made.
fn are_well_made_preds(preds: &[PredDef]) -> bool
    ensures { result ≡ list_all (λ d. made.is_well_made_pred (pred_def_view d)) preds.now }
{
    preds.iter().all(|pred| is_well_made_pred(pred))
}

/// Whether parts are well made: no symbol and no list in a literal, draws of an int, a bool or a str, and `#` before the names
/// of logical variables alone.
pub fn is_well_made(parts: &Parts) -> bool
    ensures { result ≡ made.is_well_made (parts_view parts.now) }
{
    if !are_well_made_procs(parts.procs.as_slice()) {
        return false;
    }
    if !are_well_made_specs(parts.specs.as_slice()) {
        return false;
    }
    are_well_made_preds(parts.preds.as_slice())
}
