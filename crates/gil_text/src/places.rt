//! The byte at which an item of a program begins.
ghost use Rattle.std.specs.Prelude.{◌≡◌, ◌++◌, slice_get};

use crate::located::Places;

/// The place of an item, of which there are so many procedures or functions, then specifications, then predicates.
pub fn place_at(procs: &Places, specs: &Places, preds: &Places, item: usize) -> Option<usize>
    ensures { result ≡ slice_get (procs.now ++ specs.now ++ preds.now) item }
{
    if item < procs.len() {
        return procs.get(item).copied();
    }
    let item = item - procs.len();
    if item < specs.len() {
        return specs.get(item).copied();
    }
    preds.get(item - specs.len()).copied()
}
