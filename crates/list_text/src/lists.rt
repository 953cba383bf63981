//! Lists.
ghost use Rattle.std.specs.Prelude.{◌≡◌, map, length};
ghost use Rattle.value_text.specs.Reading as spec;
ghost use Rattle.value_text.specs.Reading.{Gives, many_at, with_front, before_no_comma, behind_comma};

use crate::reader::Reader;
use sequence::Sequence;
use std::alloc::Global;
use value_text::{ReadFault, begins_with, ends_elements, expect};

/// The elements at the front, in brackets.
#[tactic(auto, unfolding(value_text::specs::Reading::bracketed_at))]
pub fn list_at<R: Reader>(
    alloc: Global,
    bytes: &[u8],
) -> Result<(Sequence<R::Item>, &[u8]), ReadFault>
    ensures { Gives (λ x. (map R.view x.0, x.1.now)) result (spec.bracketed_at R.reading bytes.now) }
{
    let rest = expect("[", bytes)?;
    let (items, rest) = elements_at::<R>(alloc, rest)?;
    let rest = expect("]", rest)?;
    Ok((items, rest))
}

/// The elements up to the closing bracket, with commas between them.
fn elements_at<R: Reader>(
    alloc: Global,
    bytes: &[u8],
) -> Result<(Sequence<R::Item>, &[u8]), ReadFault>
    ensures { Gives (λ x. (map R.view x.0, x.1.now)) result (spec.elements_at R.reading bytes.now) }
{
    let mut items = Sequence::new(alloc);
    if begins_with(b']', bytes) {
        return Ok((items, bytes));
    }
    let (first, rest) = R::item_at(alloc, bytes)?;
    items.push(first)?;
    more_at::<R>(alloc, items, rest)
}

/// The elements of the list, and those at the front that stand behind a comma each.
pub fn more_at<R: Reader>(
    alloc: Global,
    items: Sequence<R::Item>,
    bytes: &[u8],
) -> Result<(Sequence<R::Item>, &[u8]), ReadFault>
    ensures { Gives (λ x. (map R.view x.0, x.1.now)) result
        (with_front (map R.view items) (many_at before_no_comma (behind_comma R.reading) (length bytes.now) bytes.now)) }
{
    let mut items = items;
    let mut rest = bytes;
    // Each turn takes a comma at least.
    let most = bytes.len();
    for _ in 0..most {
        if ends_elements(rest) {
            return Ok((items, rest));
        }
        let (item, behind) = next_at::<R>(alloc, rest)?;
        items.push(item)?;
        rest = behind;
    }
    Ok((items, rest))
}

/// The element behind the comma at the front.
fn next_at<R: Reader>(alloc: Global, bytes: &[u8]) -> Result<(R::Item, &[u8]), ReadFault>
    ensures { Gives (λ x. (R.view x.0, x.1.now)) result (behind_comma R.reading bytes.now) }
{
    let rest = expect(", ", bytes)?;
    R::item_at(alloc, rest)
}
