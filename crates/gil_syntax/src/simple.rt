//! Simple programs: those of which each command has simple form.
ghost use Rattle.std.specs.Prelude.{◌≡◌, true, map, not, ◌||◌, codes, slice_get};
ghost use Rattle.std.specs.List.{list_all};
ghost use Rattle.std.specs.Option.{option_map_or};
ghost use Rattle.std.specs.Str.{bytes_eq};
ghost use Rattle.gil_syntax.specs.Simple as simple;
ghost use Rattle.gil_syntax.specs.View.{expr_view, exprs_view, command_view, numbered_command_view, proc_view};
ghost use Rattle.gil_syntax.specs.Program.{prog_view};
ghost use Rattle.gil_syntax.specs.Values.{is_variable};

use crate::program::Prog;
use crate::{Body, Command, Expr, Exprs};
use gil_values::{BinOp, Text, UnOp, Value};

/// Whether each command of the program has simple form: no value computes but by one plus or minus of a variable and a
/// literal, or takes an element but of a variable at a literal place; guards compare such values, callees and sizes are
/// literals.
pub fn is_simple(prog: &Prog) -> bool
    ensures { result ≡ simple.is_simple (prog_view prog.now) }
{
    for place in 0..prog.proc_count() {
        if !is_simple_at(prog, place) {
            return false;
        }
    }
    true
}

/// Whether the procedure at a place has commands of simple form alone.
fn is_simple_at(prog: &Prog, place: usize) -> bool
    ensures { result ≡ option_map_or (λ q. list_all (λ c. simple.is_simple_command c.command) q.body)
        (slice_get (prog_view prog.now).procs place) true }
{
    match prog.proc_at(place) {
        Some(proc) => has_simple_commands(&proc.body),
        None => true,
    }
}

/// Whether each command of a body has simple form.
fn has_simple_commands(body: &Body) -> bool
    ensures { result ≡ list_all (λ c. simple.is_simple_command c.command) (map numbered_command_view body.now) }
{
    for numbered in body.as_slice() {
        if !is_simple_command(&numbered.command) {
            return false;
        }
    }
    true
}

/// Whether a command has simple form.
fn is_simple_command(command: &Command) -> bool
    ensures { result ≡ simple.is_simple_command (command_view command.now) }
{
    match command {
        Command::Assign(_, value) => is_simple_value(value),
        Command::Call(_, callee, arguments, _) => {
            is_literal(callee) && are_simple_values(arguments)
        }
        Command::Act(_, action, arguments) => has_simple_arguments(action, arguments),
        Command::IfGoto(guard, _) => is_simple_guard(guard),
        Command::Return(value) | Command::Fail(value) | Command::Throw(value) => is_simple_value(
            value,
        ),
        _ => true,
    }
}

/// Whether the arguments of an action have simple form.
fn has_simple_arguments(action: &Text, arguments: &Exprs) -> bool
    ensures { result ≡ simple.has_simple_arguments action.now (exprs_view arguments.now) }
{
    has_literal_size(action, arguments) && are_simple_values(arguments)
}

/// Whether the arguments are literals, where the action is `alloc`.
fn has_literal_size(action: &Text, arguments: &Exprs) -> bool
    ensures { result ≡ list_all (λ e. simple.is_literal e || not (bytes_eq action.now (codes "alloc"))) (exprs_view arguments.now) }
{
    if action.as_str() == "alloc" {
        return are_literals(arguments);
    }
    true
}

/// Whether each expression is a literal.
fn are_literals(expressions: &Exprs) -> bool
    ensures { result ≡ list_all simple.is_literal (exprs_view expressions.now) }
{
    for expression in expressions.as_slice() {
        if !is_literal(expression) {
            return false;
        }
    }
    true
}

/// Whether each expression is a simple value.
fn are_simple_values(expressions: &Exprs) -> bool
    ensures { result ≡ list_all simple.is_simple_value (exprs_view expressions.now) }
{
    for expression in expressions.as_slice() {
        if !is_simple_value(expression) {
            return false;
        }
    }
    true
}

/// Whether an expression is a guard of simple form.
fn is_simple_guard(guard: &Expr) -> bool
    ensures { result ≡ simple.is_simple_guard (expr_view guard.now) }
{
    match guard {
        Expr::Op1(UnOp::Not, inner) => is_bare_guard(inner),
        _ => is_bare_guard(guard),
    }
}

/// Whether an expression is true, a variable, or compares two simple values.
fn is_bare_guard(guard: &Expr) -> bool
    ensures { result ≡ simple.is_bare_guard (expr_view guard.now) }
{
    match guard {
        Expr::Lit(Value::Bool(true)) => true,
        Expr::Name(_) => true,
        Expr::Op2(operator, left, right) => {
            compares(*operator) && is_simple_value(left) && is_simple_value(right)
        }
        _ => false,
    }
}

/// Whether a guard may compare by the operator.
fn compares(operator: BinOp) -> bool
    ensures { result ≡ simple.compares operator }
{
    matches!(operator, BinOp::Equal | BinOp::Less | BinOp::LessOrEqual)
}

/// Whether an expression is a simple value.
fn is_simple_value(value: &Expr) -> bool
    ensures { result ≡ simple.is_simple_value (expr_view value.now) }
{
    match value {
        Expr::Op2(BinOp::Nth, list, place) => is_name(list) && is_literal(place),
        _ => is_plain_value(value),
    }
}

/// Whether an expression is a literal, a variable, a variable plus or minus a literal, or a list of such.
#[cycle(plain)]
fn is_plain_value(value: &Expr) -> bool
    ensures { result ≡ simple.is_plain_value (expr_view value.now) }
{
    match value {
        Expr::Lit(_) | Expr::Name(_) => true,
        Expr::Op2(operator, left, right) => shifts(*operator) && is_name(left) && is_literal(right),
        Expr::List(elements) => are_plain_values(elements),
        _ => false,
    }
}

/// Whether each expression is such a value.
#[cycle(plain)]
fn are_plain_values(values: &Exprs) -> bool
    ensures { result ≡ list_all simple.is_plain_value (exprs_view values.now) }
{
    for value in values.as_slice() {
        if !is_plain_value(value) {
            return false;
        }
    }
    true
}

/// Whether the operator is plus or minus.
fn shifts(operator: BinOp) -> bool
    ensures { result ≡ simple.shifts operator }
{
    matches!(operator, BinOp::Add | BinOp::Subtract)
}

/// Whether an expression is a literal.
fn is_literal(expression: &Expr) -> bool
    ensures { result ≡ simple.is_literal (expr_view expression.now) }
{
    matches!(expression, Expr::Lit(_))
}

/// Whether an expression is a program variable.
fn is_name(expression: &Expr) -> bool
    ensures { result ≡ is_variable (expr_view expression.now) }
{
    matches!(expression, Expr::Name(_))
}
