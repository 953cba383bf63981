//! Elements up to the byte that closes their list.
ghost use Rattle.std.specs.Prelude.{map};
ghost use Rattle.value_text.specs.Reading.{Gives};
ghost use Rattle.specification_text.specs.Reading as spec;

use list_text::{Reader, more_at};
use sequence::Sequence;
use std::alloc::Global;
use value_text::{ReadFault, begins_with};

/// The elements up to this byte, with commas between them.
pub(crate) fn elements_until<R: Reader>(
    alloc: Global,
    stop: u8,
    bytes: &[u8],
) -> Result<(Sequence<R::Item>, &[u8]), ReadFault>
    ensures { Gives (λ x. (map R.view x.0, x.1.now)) result (spec.elements_until stop R.reading bytes.now) }
{
    let mut items = Sequence::new(alloc);
    if begins_with(stop, bytes) {
        return Ok((items, bytes));
    }
    let (first, rest) = R::item_at(alloc, bytes)?;
    items.push(first)?;
    more_at::<R>(alloc, items, rest)
}
