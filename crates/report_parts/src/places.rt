//! Places.
ghost use Rattle.value_text.specs.Reading.{Gives};
ghost use Rattle.report_parts.specs.Reading as spec;

use gil_values::Place;
use std::alloc::Global;
use value_text::{ReadFault, expect, name_at, small_at};

/// The place at the front.
#[tactic(auto, unfolding(crate::specs::Reading::place_at))]
pub fn place_at(alloc: Global, bytes: &[u8]) -> Result<(Place, &[u8]), ReadFault>
    ensures { Gives (λ x. (x.0, x.1.now)) result (spec.place_at bytes.now) }
{
    let (proc, rest) = name_at(alloc, bytes)?;
    let rest = expect(":", rest)?;
    let (at, rest) = small_at(rest)?;
    Ok((Place { proc, at }, rest))
}
