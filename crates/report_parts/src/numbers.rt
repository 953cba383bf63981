//! Lists of choices.
ghost use Rattle.std.specs.Prelude.{ℕ};
ghost use Rattle.value_text.specs.Reading.{Gives, natural_at as number};
ghost use Rattle.report_parts.specs.Reading as spec;

use list_text::{Reader, list_at};
use pure_terms::Choices;
use std::alloc::Global;
use value_text::{ReadFault, natural_at};

struct ChoiceReader;

impl Reader for ChoiceReader {
    type Item = u64;

    ghost Pure = { ℕ };

    ghost view = { λ n. n };

    ghost reading = { number 64 };

    fn item_at(_alloc: Global, bytes: &[u8]) -> Result<(u64, &[u8]), ReadFault> {
        natural_at(bytes)
    }
}

/// The choices at the front, in brackets.
pub(crate) fn choices_at(alloc: Global, bytes: &[u8]) -> Result<(Choices, &[u8]), ReadFault>
    ensures { Gives (λ x. (x.0, x.1.now)) result (spec.choices_at bytes.now) }
{
    list_at::<ChoiceReader>(alloc, bytes)
}
