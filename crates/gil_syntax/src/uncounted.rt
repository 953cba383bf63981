//! The first fault of parts whose procedures may have any number of commands, as those of compiled programs may that are refused
//! for their length alone.
ghost use Rattle.std.specs.Prelude.{◌≡◌, ◌≢◌, IfOk, IfErr, OnOk};
ghost use Rattle.gil_syntax.specs.declared.validity.InvalidKind.{InvalidKind};
ghost use Rattle.gil_syntax.specs.Pure.{PureParts};
ghost use Rattle.gil_syntax.specs.View.{parts_view};
ghost use Rattle.gil_syntax.specs.First.{IsFirst};
ghost use Rattle.gil_syntax.specs.Items.{items_before, item_of, IsWithin};
ghost use Rattle.gil_syntax.specs.Uncounted.{passes_limit, fault_but_length_at, IsValidButLength, IsNamedButLength};

use crate::checking::check;
use crate::invalid::Invalid;
use crate::items::{ItemRef, item_at};
use crate::limits::{pred_is_too_many, proc_passes_limit, spec_is_too_many};
use crate::{InvalidKind, Parts};
use std::alloc::{AllocError, Global};

/// Whether an item stands past the limit of its list, or passes a limit.
fn item_passes_limit(item: ItemRef<'_>) -> bool
    ensures { (p : PureParts) → IsWithin p item.entry → result ≡ passes_limit p (items_before p item.entry) (item_of item.entry) }
{
    match item {
        ItemRef::Proc(place, proc) => proc_passes_limit(place, proc),
        ItemRef::Spec(place, spec) => spec_is_too_many(place, spec),
        ItemRef::Pred(place, pred) => pred_is_too_many(place, pred),
    }
}

/// The first item that stands past the limit of its list, or passes a limit.
fn first_past_limit(parts: &Parts) -> Result<Option<usize>, AllocError>
    ensures { IfOk result (IsFirst (fault_but_length_at (parts_view parts.now) InvalidKind.TooMany)) }
{
    for item in 0..usize::MAX {
        let Some(found) = item_at(parts, item) else {
            return Ok(None);
        };
        if item_passes_limit(found) {
            return Ok(Some(item));
        }
    }
    // no list in memory has as many items
    Err(AllocError)
}

/// Refuses parts that have a fault other than the number of a procedure's commands.
pub fn check_but_length(alloc: Global, parts: &Parts) -> Result<(), Invalid>
    ensures valid { OnOk result (IsValidButLength (parts_view parts.now)) }
    ensures named { IfErr result (λ e. e.kind ≢ InvalidKind.Memory → IsNamedButLength (parts_view parts.now) e.kind e.item) }
{
    let invalid = match check(alloc, parts) {
        Ok(()) => return Ok(()),
        Err(invalid) => invalid,
    };
    match invalid.kind {
        InvalidKind::TooMany => match first_past_limit(parts)? {
            Some(item) => Err(Invalid {
                kind: InvalidKind::TooMany,
                item,
            }),
            None => Ok(()),
        },
        _ => Err(invalid),
    }
}
