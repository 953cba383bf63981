//! Commands.
ghost use Rattle.std.specs.Prelude.{◌≡◌, ◌++◌, string_bytes, OnOk};
ghost use Rattle.gil_syntax.specs.Pure.{assign, call, act, isym, ifgoto, loop_invariant};
ghost use Rattle.gil_syntax.specs.View.{expr_view, exprs_view, assertion_view, command_view};
ghost use Rattle.syntax_print.specs.Commands.{input_name, printed_names, printed_handler, printed_command};

use crate::assertions::{push_block, push_use, push_variables};
use crate::expressions::{push_expr, push_exprs};
use gil_syntax::{Assertion, Command, Expr, Exprs, Params, Texts};
use gil_values::{Kind, Text, kind_name, push_integer, push_separator};
use std::alloc::AllocError;

/// The kind of an input as a sort.
fn input_name(kind: Kind) -> &'static str
    ensures { result.now ≡ input_name kind }
{
    match kind {
        Kind::Int => "int",
        Kind::Bool => "bool",
        Kind::Str => "str",
        _ => kind_name(kind),
    }
}

/// Adds names, with commas between them.
pub(crate) fn push_names(out: &mut String, names: &Texts) -> Result<(), AllocError>
    ensures { OnOk result (string_bytes out.new ≡ string_bytes out.old ++ printed_names names.now) }
{
    for (index, name) in names.as_slice().iter().enumerate() {
        push_separator(out, ", ", index)?;
        out.push_str(name.as_str())?;
    }
    Ok(())
}

fn push_assign(out: &mut String, variable: &Text, value: &Expr) -> Result<(), AllocError>
    ensures { OnOk result (string_bytes out.new ≡ string_bytes out.old ++ printed_command (assign variable.now (expr_view value.now))) }
{
    out.push_str(variable.as_str())?;
    out.push_str(" := ")?;
    push_expr(out, value)
}

/// Adds the label of a call's handler, if it has one.
fn push_handler(out: &mut String, handler: Option<i64>) -> Result<(), AllocError>
    ensures { OnOk result (string_bytes out.new ≡ string_bytes out.old ++ printed_handler handler) }
{
    match handler {
        Some(label) => {
            out.push_str(" catch ")?;
            push_integer(out, i128::from(label))
        }
        None => Ok(()),
    }
}

fn push_call(
    out: &mut String,
    variable: &Text,
    callee: &Expr,
    arguments: &Exprs,
    handler: Option<i64>,
) -> Result<(), AllocError>
    ensures { OnOk result (string_bytes out.new ≡ string_bytes out.old
        ++ printed_command (call variable.now (expr_view callee.now) (exprs_view arguments.now) handler)) }
{
    out.push_str(variable.as_str())?;
    out.push_str(" := call ")?;
    push_expr(out, callee)?;
    out.push_str("(")?;
    push_exprs(out, arguments)?;
    out.push_str(")")?;
    push_handler(out, handler)
}

fn push_action(
    out: &mut String,
    variable: &Text,
    action: &Text,
    arguments: &Exprs,
) -> Result<(), AllocError>
    ensures { OnOk result (string_bytes out.new ≡ string_bytes out.old
        ++ printed_command (act variable.now action.now (exprs_view arguments.now))) }
{
    out.push_str(variable.as_str())?;
    out.push_str(" := do ")?;
    out.push_str(action.as_str())?;
    out.push_str("(")?;
    push_exprs(out, arguments)?;
    out.push_str(")")
}

fn push_draw(out: &mut String, variable: &Text, kind: Kind) -> Result<(), AllocError>
    ensures { OnOk result (string_bytes out.new ≡ string_bytes out.old ++ printed_command (isym variable.now kind)) }
{
    out.push_str(variable.as_str())?;
    out.push_str(" := isym ")?;
    out.push_str(input_name(kind))
}

fn push_jump(out: &mut String, guard: &Expr, label: i64) -> Result<(), AllocError>
    ensures { OnOk result (string_bytes out.new ≡ string_bytes out.old ++ printed_command (ifgoto (expr_view guard.now) label)) }
{
    out.push_str("ifgoto ")?;
    push_expr(out, guard)?;
    out.push_str(" ")?;
    push_integer(out, i128::from(label))
}

fn push_invariant(
    out: &mut String,
    names: &Texts,
    variables: &Params,
    assertion: &Assertion,
) -> Result<(), AllocError>
    ensures { OnOk result (string_bytes out.new ≡ string_bytes out.old
        ++ printed_command (loop_invariant names.now variables.now (assertion_view assertion.now))) }
{
    out.push_str("invariant (")?;
    push_names(out, names)?;
    out.push_str(") ")?;
    push_variables(out, variables)?;
    out.push_str(" ")?;
    push_block(out, assertion)?;
    Ok(())
}

/// Adds a command, without its `;`.
pub fn push_command(out: &mut String, command: &Command) -> Result<(), AllocError>
    ensures { OnOk result (string_bytes out.new ≡ string_bytes out.old ++ printed_command (command_view command.now)) }
{
    match command {
        Command::Assign(variable, value) => push_assign(out, variable, value),
        Command::Call(variable, callee, arguments, handler) => {
            push_call(out, variable, callee, arguments, *handler)
        }
        Command::Act(variable, action, arguments) => push_action(out, variable, action, arguments),
        Command::Usym(variable) => {
            out.push_str(variable.as_str())?;
            out.push_str(" := usym")
        }
        Command::Isym(variable, kind) => push_draw(out, variable, *kind),
        Command::IfGoto(guard, label) => push_jump(out, guard, *label),
        Command::Return(value) => {
            out.push_str("return ")?;
            push_expr(out, value)
        }
        Command::Fail(value) => {
            out.push_str("fail ")?;
            push_expr(out, value)
        }
        Command::Throw(value) => {
            out.push_str("throw ")?;
            push_expr(out, value)
        }
        Command::Vanish => out.push_str("vanish"),
        Command::Fold(used) => {
            out.push_str("fold ")?;
            push_use(out, used)
        }
        Command::Unfold(used) => {
            out.push_str("unfold ")?;
            push_use(out, used)
        }
        Command::AssertThat(assertion) => {
            out.push_str("assert ")?;
            push_block(out, assertion)
        }
        Command::LoopInvariant(names, variables, assertion) => push_invariant(
            out, names, variables, assertion,
        ),
    }
}
