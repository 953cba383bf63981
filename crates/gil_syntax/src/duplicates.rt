//! Names that stand twice: of two items of one list, of a core predicate, or in one list of parameters or variables.
ghost use Rattle.std.specs.Prelude.{◌≡◌, IfOk, nat_lt, false};
ghost use Rattle.std.specs.List.{list_any};
ghost use Rattle.std.specs.Option.{option_map_or};
ghost use Rattle.gil_syntax.specs.Valid as valid;
ghost use Rattle.gil_syntax.specs.Valid.{is_duplicate, name_lists, lists_in_command, a_proc, a_spec, a_pred};
ghost use Rattle.gil_syntax.specs.View.{command_view, proc_view, spec_view, pred_def_view};
ghost use Rattle.gil_syntax.specs.ByName.{parts_of, IsIndexed};
ghost use Rattle.gil_syntax.specs.Items.{before_proc, before_spec, before_pred, has_name_again};
ghost use Rattle.gil_syntax.specs.Names.{place_of};

use crate::by_name::{PartsByName, core_arity};
use crate::named::{Places, has_twice};
use crate::{Command, PredDef, Proc, Spec};
use std::alloc::{AllocError, Global};

/// Whether a name stands before a place.
fn stands_before(places: &Places<'_>, name: &str, place: usize) -> bool
    ensures { result ≡ option_map_or (λ j. nat_lt j place) (place_of places.now name.now) false }
{
    match places.get(name) {
        Some(first) => *first < place,
        None => false,
    }
}

/// Whether a command has a list with a name twice.
fn command_repeats_name(alloc: Global, command: &Command) -> Result<bool, AllocError>
    ensures { IfOk result (λ b. b ≡ list_any valid.has_twice (lists_in_command (command_view command.now))) }
{
    match command {
        Command::LoopInvariant(variables, logicals, _) => {
            Ok(has_twice(alloc, variables.as_slice())? || has_twice(alloc, logicals.as_slice())?)
        }
        _ => Ok(false),
    }
}

/// Whether a procedure has a list with a name twice.
fn proc_repeats_name(alloc: Global, proc: &Proc) -> Result<bool, AllocError>
    ensures { IfOk result (λ b. b ≡ list_any valid.has_twice (name_lists (a_proc (proc_view proc.now)))) }
{
    if has_twice(alloc, proc.params.as_slice())? {
        return Ok(true);
    }
    for numbered in proc.body.as_slice() {
        if command_repeats_name(alloc, &numbered.command)? {
            return Ok(true);
        }
    }
    Ok(false)
}

/// Whether a specification has a list with a name twice.
fn spec_repeats_name(alloc: Global, spec: &Spec) -> Result<bool, AllocError>
    ensures { IfOk result (λ b. b ≡ list_any valid.has_twice (name_lists (a_spec (spec_view spec.now)))) }
{
    if has_twice(alloc, spec.params.as_slice())? {
        return Ok(true);
    }
    has_twice(alloc, spec.logicals.as_slice())
}

/// Whether a predicate has a list with a name twice.
fn pred_repeats_name(alloc: Global, pred: &PredDef) -> Result<bool, AllocError>
    ensures { IfOk result (λ b. b ≡ list_any valid.has_twice (name_lists (a_pred (pred_def_view pred.now)))) }
{
    if has_twice(alloc, pred.ins.as_slice())? {
        return Ok(true);
    }
    if has_twice(alloc, pred.outs.as_slice())? {
        return Ok(true);
    }
    has_twice(alloc, pred.logicals.as_slice())
}

/// Whether a procedure has the name of one before it.
fn proc_stands_again(program: &PartsByName<'_>, place: usize, proc: &Proc) -> bool
    requires { IsIndexed program.now }
    ensures { result ≡ has_name_again (before_proc (parts_of program.now) place) (a_proc (proc_view proc.now)) }
{
    stands_before(&program.procs, proc.name.as_str(), place)
}

/// Whether a specification has the name of one before it.
fn spec_stands_again(program: &PartsByName<'_>, place: usize, spec: &Spec) -> bool
    requires { IsIndexed program.now }
    ensures { result ≡ has_name_again (before_spec (parts_of program.now) place) (a_spec (spec_view spec.now)) }
{
    stands_before(&program.specs, spec.name.as_str(), place)
}

/// Whether a predicate has the name of one before it, or of a core predicate.
fn pred_stands_again(program: &PartsByName<'_>, place: usize, pred: &PredDef) -> bool
    requires { IsIndexed program.now }
    ensures { result ≡ has_name_again (before_pred (parts_of program.now) place) (a_pred (pred_def_view pred.now)) }
{
    let name = pred.name.as_str();
    stands_before(&program.preds, name, place) || core_arity(name).is_some()
}

/// Whether a procedure is a duplicate, at its place.
pub(crate) fn proc_is_duplicate(
    alloc: Global,
    program: &PartsByName<'_>,
    place: usize,
    proc: &Proc,
) -> Result<bool, AllocError>
    requires { IsIndexed program.now }
    ensures { IfOk result (λ b. b ≡ is_duplicate (before_proc (parts_of program.now) place) (a_proc (proc_view proc.now))) }
{
    if proc_stands_again(program, place, proc) {
        return Ok(true);
    }
    proc_repeats_name(alloc, proc)
}

/// Whether a specification is a duplicate, at its place.
pub(crate) fn spec_is_duplicate(
    alloc: Global,
    program: &PartsByName<'_>,
    place: usize,
    spec: &Spec,
) -> Result<bool, AllocError>
    requires { IsIndexed program.now }
    ensures { IfOk result (λ b. b ≡ is_duplicate (before_spec (parts_of program.now) place) (a_spec (spec_view spec.now))) }
{
    if spec_stands_again(program, place, spec) {
        return Ok(true);
    }
    spec_repeats_name(alloc, spec)
}

/// Whether a predicate is a duplicate, at its place.
pub(crate) fn pred_is_duplicate(
    alloc: Global,
    program: &PartsByName<'_>,
    place: usize,
    pred: &PredDef,
) -> Result<bool, AllocError>
    requires { IsIndexed program.now }
    ensures { IfOk result (λ b. b ≡ is_duplicate (before_pred (parts_of program.now) place) (a_pred (pred_def_view pred.now))) }
{
    if pred_stands_again(program, place, pred) {
        return Ok(true);
    }
    pred_repeats_name(alloc, pred)
}
