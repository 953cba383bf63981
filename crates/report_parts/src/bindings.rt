//! Variables and their values.
ghost use Rattle.std.specs.Prelude.{map};
ghost use Rattle.value_text.specs.Reading.{Gives};
ghost use Rattle.gil_report.specs.Pure as pure;
ghost use Rattle.gil_report.specs.View.{binding_view};
ghost use Rattle.report_parts.specs.Reading as spec;

use expression_text::marked_name_at;
use gil_report::{Binding, Bindings};
use gil_values::Text;
use list_text::{Reader, list_at};
use std::alloc::Global;
use value_text::{ReadFault, begins_with, expect, name_at, value_at};

struct BindingReader;

impl Reader for BindingReader {
    type Item = Binding;

    ghost Pure = { pure.PureBinding };

    ghost view = { binding_view };

    ghost reading = { spec.binding_at };

    fn item_at(alloc: Global, bytes: &[u8]) -> Result<(Binding, &[u8]), ReadFault> {
        binding_at(alloc, bytes)
    }
}

/// The variables and their values at the front, in brackets.
pub fn bindings_at(alloc: Global, bytes: &[u8]) -> Result<(Bindings, &[u8]), ReadFault>
    ensures { Gives (λ x. (map binding_view x.0, x.1.now)) result (spec.bindings_at bytes.now) }
{
    list_at::<BindingReader>(alloc, bytes)
}

/// The variable and its value at the front.
#[tactic(auto, unfolding(crate::specs::Reading::binding_at))]
fn binding_at(alloc: Global, bytes: &[u8]) -> Result<(Binding, &[u8]), ReadFault>
    ensures { Gives (λ x. (binding_view x.0, x.1.now)) result (spec.binding_at bytes.now) }
{
    let (name, rest) = variable_at(alloc, bytes)?;
    let rest = expect(" = ", rest)?;
    let (value, rest) = value_at(alloc, rest)?;
    Ok((Binding { name, value }, rest))
}

/// The name of the variable at the front, which is logical where it begins with `#`.
fn variable_at(alloc: Global, bytes: &[u8]) -> Result<(Text, &[u8]), ReadFault>
    ensures { Gives (λ x. (x.0, x.1.now)) result (spec.variable_at bytes.now) }
{
    if begins_with(b'#', bytes) {
        return marked_name_at(alloc, bytes);
    }
    name_at(alloc, bytes)
}
