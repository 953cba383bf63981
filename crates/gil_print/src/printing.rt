//! The printed text of a program.
ghost use Rattle.std.specs.Prelude.{◌≡◌, ◌++◌, map, slice_get, string_bytes, OnOk, IfOk};
ghost use Rattle.std.specs.List.{flat_map};
ghost use Rattle.gil_syntax.specs.Pure.{PureProc};
ghost use Rattle.gil_syntax.specs.View.{spec_view, pred_def_view};
ghost use Rattle.gil_syntax.specs.Program.{prog_view};
ghost use Rattle.gil_syntax.specs.Programs.{renumbered};
ghost use Rattle.gil_syntax.specs.Valid.{IsValid};
ghost use Rattle.gil_grammar.specs.Texts.{SpellProgram};
ghost use Rattle.gil_print.specs.Writable.{IsWritable};
ghost use Rattle.syntax_print.specs.Programs.{printed_proc, printed_spec, printed_pred, printed_program};

use gil_syntax::{PredDefs, Prog, Specs};
use std::alloc::{AllocError, Global};
use syntax_print::{push_pred, push_proc, push_spec};

/// Adds the procedures of a program.
fn push_procs(out: &mut String, prog: &Prog) -> Result<(), AllocError>
    ensures { OnOk result (string_bytes out.new ≡ string_bytes out.old ++ flat_map printed_proc (prog_view prog.now).procs) }
{
    for place in 0..prog.proc_count() {
        push_proc_at(out, prog, place)?;
    }
    Ok(())
}

/// Adds the procedure at a place of the list, if there is one.
fn push_proc_at(out: &mut String, prog: &Prog, place: usize) -> Result<(), AllocError>
    ensures { OnOk result ((q : PureProc) → slice_get (prog_view prog.now).procs place ≡ Some q
        → string_bytes out.new ≡ string_bytes out.old ++ printed_proc q) }
{
    match prog.proc_at(place) {
        Some(proc) => push_proc(out, proc),
        None => Ok(()),
    }
}

/// Adds specifications, each on a line of its own.
fn push_specs(out: &mut String, specs: &Specs) -> Result<(), AllocError>
    ensures { OnOk result (string_bytes out.new ≡ string_bytes out.old ++ flat_map printed_spec (map spec_view specs.now)) }
{
    for spec in specs.as_slice() {
        push_spec(out, spec)?;
    }
    Ok(())
}

/// Adds predicates, each on a line of its own.
fn push_preds(out: &mut String, preds: &PredDefs) -> Result<(), AllocError>
    ensures { OnOk result (string_bytes out.new ≡ string_bytes out.old ++ flat_map printed_pred (map pred_def_view preds.now)) }
{
    for pred in preds.as_slice() {
        push_pred(out, pred)?;
    }
    Ok(())
}

/// The text of a program: a command on each line; then each specification and each predicate on a line of its own.
pub fn print_prog(alloc: Global, prog: &Prog) -> Result<Vec<u8>, AllocError>
    ensures printed { IfOk result (λ bytes. bytes.items ≡ printed_program (prog_view prog.now)) }
    // Where some text spells the program, but for the numbers of its commands, this one spells it, with each command's index
    // as its number.
    ensures again { IfOk result (λ bytes. IsWritable (prog_view prog.now) → SpellProgram bytes.items (renumbered (prog_view prog.now))) }
    // The program with these numbers is valid too, so that readers take the text.
    ensures valid { OnOk result (IsValid (renumbered (prog_view prog.now))) }
{
    let mut out = String::new(alloc);
    push_procs(&mut out, prog)?;
    push_specs(&mut out, prog.specs())?;
    push_preds(&mut out, prog.preds())?;
    Ok(out.into_bytes())
}
