//! Procedures, specifications and predicates.
ghost use Rattle.std.specs.Prelude.{◌≡◌, ◌++◌, map, string_bytes, OnOk};
ghost use Rattle.std.specs.List.{flat_map};
ghost use Rattle.gil_syntax.specs.View.{numbered_command_view, proc_view, spec_view, pred_def_view};
ghost use Rattle.syntax_print.specs.Programs.{printed_statement, printed_proc, printed_spec, printed_pred};

use crate::assertions::{
    push_block, push_blocks, push_later_params, push_params, push_posts, push_variables,
};
use crate::commands::{push_command, push_names};
use gil_syntax::{Body, NumberedCommand, PredDef, Proc, Spec};
use std::alloc::AllocError;

/// Adds the line of a command.
fn push_statement(out: &mut String, numbered: &NumberedCommand) -> Result<(), AllocError>
    ensures { OnOk result (string_bytes out.new ≡ string_bytes out.old ++ printed_statement (numbered_command_view numbered.now)) }
{
    push_command(out, &numbered.command)?;
    out.push_str(";\n")
}

/// Adds the lines of a body.
fn push_body(out: &mut String, body: &Body) -> Result<(), AllocError>
    ensures { OnOk result (string_bytes out.new ≡ string_bytes out.old ++ flat_map printed_statement (map numbered_command_view body.now)) }
{
    for numbered in body.as_slice() {
        push_statement(out, numbered)?;
    }
    Ok(())
}

/// Adds the lines of a procedure.
pub fn push_proc(out: &mut String, proc: &Proc) -> Result<(), AllocError>
    ensures { OnOk result (string_bytes out.new ≡ string_bytes out.old ++ printed_proc (proc_view proc.now)) }
{
    out.push_str("proc ")?;
    out.push_str(proc.name.as_str())?;
    out.push_str("(")?;
    push_names(out, &proc.params)?;
    out.push_str(") {\n")?;
    push_body(out, &proc.body)?;
    out.push_str("}\n")
}

/// Adds the line of a specification.
pub fn push_spec(out: &mut String, spec: &Spec) -> Result<(), AllocError>
    ensures { OnOk result (string_bytes out.new ≡ string_bytes out.old ++ printed_spec (spec_view spec.now)) }
{
    out.push_str("spec ")?;
    out.push_str(spec.name.as_str())?;
    out.push_str("(")?;
    push_params(out, &spec.params)?;
    out.push_str(") ")?;
    push_variables(out, &spec.logicals)?;
    out.push_str(" ")?;
    push_block(out, &spec.pre)?;
    push_posts(out, &spec.posts, &spec.errors)?;
    out.push_str("\n")?;
    Ok(())
}

/// Adds the line of a predicate.
pub fn push_pred(out: &mut String, pred: &PredDef) -> Result<(), AllocError>
    ensures { OnOk result (string_bytes out.new ≡ string_bytes out.old ++ printed_pred (pred_def_view pred.now)) }
{
    out.push_str("pred ")?;
    out.push_str(pred.name.as_str())?;
    out.push_str("(")?;
    push_params(out, &pred.ins)?;
    out.push_str(";")?;
    push_later_params(out, &pred.outs)?;
    out.push_str(") ")?;
    push_variables(out, &pred.logicals)?;
    out.push_str(" ")?;
    push_blocks(out, &pred.cases)?;
    out.push_str("\n")?;
    Ok(())
}
