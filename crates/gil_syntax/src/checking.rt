//! The first fault of parts: of the lowest kind that there is, at the first item that has it.
ghost use Rattle.std.specs.Prelude.{◌≡◌, ◌≢◌, IfOk, IfErr, OnOk, length, ◌<◌};
ghost use Rattle.gil_syntax.specs.Valid as valid;
ghost use Rattle.gil_syntax.specs.Valid.{a_proc, a_spec, a_pred, fault_at, IsNamedFault, IsValid};
ghost use Rattle.gil_syntax.specs.View.{proc_view, spec_view, pred_def_view, parts_view};
ghost use Rattle.gil_syntax.specs.ByName.{parts_of, IsIndexed, AreDistinct};
ghost use Rattle.gil_syntax.specs.Items.{before_proc, before_spec, before_pred, items_before, item_of, IsWithin};
ghost use Rattle.gil_syntax.specs.First.{IsFirst, HasNone, IsFirstOf};

use crate::arities::{pred_has_wrong_arity, proc_has_wrong_arity, spec_has_wrong_arity};
use crate::bodies::{has_bad_label, has_no_end};
use crate::by_name::PartsByName;
use crate::duplicates::{pred_is_duplicate, proc_is_duplicate, spec_is_duplicate};
use crate::invalid::Invalid;
use crate::items::{ItemRef, item_at};
use crate::limits::{pred_is_too_many, proc_is_too_many, spec_is_too_many};
use crate::unknown::{pred_has_unknown_name, proc_has_unknown_name, spec_has_unknown_name};
use crate::{InvalidKind, Parts, PredDef, Proc, Spec};
use std::alloc::{AllocError, Global};

/// Whether a procedure has a fault of a kind, at its place.
fn proc_has_fault(
    alloc: Global,
    program: &PartsByName<'_>,
    kind: InvalidKind,
    place: usize,
    proc: &Proc,
) -> Result<bool, AllocError>
    requires indexed { IsIndexed program.now }
    requires distinct { kind ≡ InvalidKind.Arity → AreDistinct (parts_of program.now) }
    requires within { place < length (parts_of program.now).procs }
    ensures { IfOk result
        (λ b. b ≡ valid.has_fault kind (parts_of program.now) (before_proc (parts_of program.now) place) (a_proc (proc_view proc.now))) }
{
    match kind {
        InvalidKind::Duplicate => proc_is_duplicate(alloc, program, place, proc),
        InvalidKind::BadLabel => Ok(has_bad_label(proc)),
        InvalidKind::NoEnd => Ok(has_no_end(proc)),
        InvalidKind::UnknownName => proc_has_unknown_name(alloc, program, proc),
        InvalidKind::Arity => Ok(proc_has_wrong_arity(program, proc)),
        InvalidKind::TooMany => Ok(proc_is_too_many(place, proc)),
        InvalidKind::Memory => Ok(false),
    }
}

/// Whether a specification has a fault of a kind, at its place.
fn spec_has_fault(
    alloc: Global,
    program: &PartsByName<'_>,
    kind: InvalidKind,
    place: usize,
    spec: &Spec,
) -> Result<bool, AllocError>
    requires indexed { IsIndexed program.now }
    requires distinct { kind ≡ InvalidKind.Arity → AreDistinct (parts_of program.now) }
    requires within { place < length (parts_of program.now).specs }
    ensures { IfOk result
        (λ b. b ≡ valid.has_fault kind (parts_of program.now) (before_spec (parts_of program.now) place) (a_spec (spec_view spec.now))) }
{
    match kind {
        InvalidKind::Duplicate => spec_is_duplicate(alloc, program, place, spec),
        InvalidKind::UnknownName => spec_has_unknown_name(alloc, program, spec),
        InvalidKind::Arity => Ok(spec_has_wrong_arity(program, spec)),
        InvalidKind::TooMany => Ok(spec_is_too_many(place, spec)),
        InvalidKind::BadLabel | InvalidKind::NoEnd | InvalidKind::Memory => Ok(false),
    }
}

/// Whether a predicate has a fault of a kind, at its place.
fn pred_has_fault(
    alloc: Global,
    program: &PartsByName<'_>,
    kind: InvalidKind,
    place: usize,
    pred: &PredDef,
) -> Result<bool, AllocError>
    requires indexed { IsIndexed program.now }
    requires distinct { kind ≡ InvalidKind.Arity → AreDistinct (parts_of program.now) }
    requires within { place < length (parts_of program.now).preds }
    ensures { IfOk result
        (λ b. b ≡ valid.has_fault kind (parts_of program.now) (before_pred (parts_of program.now) place)
        (a_pred (pred_def_view pred.now))) }
{
    match kind {
        InvalidKind::Duplicate => pred_is_duplicate(alloc, program, place, pred),
        InvalidKind::UnknownName => pred_has_unknown_name(alloc, program, pred),
        InvalidKind::Arity => Ok(pred_has_wrong_arity(program, pred)),
        InvalidKind::TooMany => Ok(pred_is_too_many(place, pred)),
        InvalidKind::BadLabel | InvalidKind::NoEnd | InvalidKind::Memory => Ok(false),
    }
}

/// Whether an item has a fault of a kind.
fn has_fault(
    alloc: Global,
    program: &PartsByName<'_>,
    kind: InvalidKind,
    item: ItemRef<'_>,
) -> Result<bool, AllocError>
    requires indexed { IsIndexed program.now }
    requires distinct { kind ≡ InvalidKind.Arity → AreDistinct (parts_of program.now) }
    requires within { IsWithin (parts_of program.now) item }
    ensures { IfOk result
        (λ b. b ≡ valid.has_fault kind (parts_of program.now) (items_before (parts_of program.now) item.entry) (item_of item.entry)) }
{
    match item {
        ItemRef::Proc(place, proc) => proc_has_fault(alloc, program, kind, place, proc),
        ItemRef::Spec(place, spec) => spec_has_fault(alloc, program, kind, place, spec),
        ItemRef::Pred(place, pred) => pred_has_fault(alloc, program, kind, place, pred),
    }
}

/// The first item that has a fault of a kind.
fn first_fault(
    alloc: Global,
    program: &PartsByName<'_>,
    kind: InvalidKind,
) -> Result<Option<usize>, AllocError>
    requires indexed { IsIndexed program.now }
    requires distinct { kind ≡ InvalidKind.Arity → AreDistinct (parts_of program.now) }
    ensures { IfOk result (IsFirst (fault_at (parts_of program.now) kind)) }
{
    for item in 0..usize::MAX {
        let Some(found) = item_at(program.parts, item) else {
            return Ok(None);
        };
        if has_fault(alloc, program, kind, found)? {
            return Ok(Some(item));
        }
    }
    // no list in memory has as many items
    Err(AllocError)
}

/// Refuses a kind of fault, at the first item that has it.
fn refuse(alloc: Global, program: &PartsByName<'_>, kind: InvalidKind) -> Result<(), Invalid>
    requires indexed { IsIndexed program.now }
    requires distinct { kind ≡ InvalidKind.Arity → AreDistinct (parts_of program.now) }
    ensures none { OnOk result (HasNone (parts_of program.now) kind) }
    ensures first { IfErr result (λ e. e.kind ≢ InvalidKind.Memory → IsFirstOf (parts_of program.now) kind e.kind e.item) }
{
    match first_fault(alloc, program, kind)? {
        Some(item) => Err(Invalid { kind, item }),
        None => Ok(()),
    }
}

/// Refuses parts that aren't valid.
pub(crate) fn check(alloc: Global, parts: &Parts) -> Result<(), Invalid>
    ensures valid { OnOk result (IsValid (parts_view parts.now)) }
    ensures named { IfErr result (λ e. e.kind ≢ InvalidKind.Memory → IsNamedFault (parts_view parts.now) e.kind e.item) }
{
    let program = PartsByName::new(alloc, parts)?;
    refuse(alloc, &program, InvalidKind::Duplicate)?;
    refuse(alloc, &program, InvalidKind::BadLabel)?;
    refuse(alloc, &program, InvalidKind::NoEnd)?;
    refuse(alloc, &program, InvalidKind::UnknownName)?;
    refuse(alloc, &program, InvalidKind::Arity)?;
    refuse(alloc, &program, InvalidKind::TooMany)
}
