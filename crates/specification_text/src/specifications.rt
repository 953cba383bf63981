//! Specifications.
ghost use Rattle.gil_syntax.specs.View.{spec_view};
ghost use Rattle.value_text.specs.Reading.{Gives};
ghost use Rattle.specification_text.specs.Reading as spec;

use crate::assertions::{block_at, errors_at, posts_at};
use crate::params::{logicals_at, params_at};
use gil_syntax::Spec;
use std::alloc::Global;
use value_text::{ReadFault, expect, name_at};

/// The specification at the front, behind its first word.
#[tactic(auto, unfolding(crate::specs::Reading::specification_at))]
pub fn specification_at(alloc: Global, bytes: &[u8]) -> Result<(Spec, &[u8]), ReadFault>
    ensures { Gives (λ x. (spec_view x.0, x.1.now)) result (spec.specification_at bytes.now) }
{
    let (name, rest) = name_at(alloc, bytes)?;
    let rest = expect("(", rest)?;
    let (params, rest) = params_at(alloc, rest)?;
    let rest = expect(") ", rest)?;
    let (logicals, rest) = logicals_at(alloc, rest)?;
    let rest = expect(" ", rest)?;
    let (pre, rest) = block_at(alloc, rest)?;
    let (posts, rest) = posts_at(alloc, rest)?;
    let (errors, rest) = errors_at(alloc, rest)?;
    let spec = Spec {
        name,
        params,
        logicals,
        pre,
        posts,
        errors,
    };
    Ok((spec, rest))
}
