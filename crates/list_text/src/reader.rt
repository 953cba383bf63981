//! What a reader of elements has to give.
use std::alloc::Global;
use value_text::ReadFault;

/// How elements of one form are read from the front of bytes.
pub trait Reader {
    ghost use Rattle.std.specs.Prelude.{ℕ, List};
    ghost use Rattle.value_text.specs.Reading.{Gives, Reading};

    /// An element.
    type Item: Drop;

    ghost Pure: { Type 0 };

    ghost view: { Self.Item → Pure };

    ghost reading: { List ℕ → Reading Pure };

    /// The element at the front.
    fn item_at(alloc: Global, bytes: &[u8]) -> Result<(Self::Item, &[u8]), ReadFault>
        ensures { Gives (λ x. (view x.0, x.1.now)) result (reading bytes.now) };
}
