//! The items of parts by their numbers, from 0: the procedures, then the specifications, then the predicates.
ghost use Rattle.std.specs.Prelude.{◌≡◌, None, IfSome, IfNone, slice_get};
ghost use Rattle.gil_syntax.specs.Valid.{items_of};
ghost use Rattle.gil_syntax.specs.View.{parts_view};
ghost use Rattle.gil_syntax.specs.Items.{StandsAt};

use crate::{Parts, PredDef, Proc, Spec};

/// An item, with its place in the list that it is of.
#[derive(Clone, Copy)]
pub(crate) enum ItemRef<'a> {
    Proc(usize, &'a Proc),
    Spec(usize, &'a Spec),
    Pred(usize, &'a PredDef),
}

/// The item with a number.
pub(crate) fn item_at(parts: &Parts, item: usize) -> Option<ItemRef<'_>>
    ensures there { IfSome result (StandsAt (parts_view parts.now) item) }
    ensures past { IfNone result (slice_get (items_of (parts_view parts.now)) item ≡ None) }
{
    let procs = parts.procs.len();
    if let Some(proc) = parts.procs.get(item) {
        return Some(ItemRef::Proc(item, proc));
    }
    let place = item - procs;
    if let Some(spec) = parts.specs.get(place) {
        return Some(ItemRef::Spec(place, spec));
    }
    let place = place - parts.specs.len();
    match parts.preds.get(place) {
        Some(pred) => Some(ItemRef::Pred(place, pred)),
        None => None,
    }
}
