//! Printed lists.
ghost use Rattle.std.specs.Prelude.{◌≡◌, ◌++◌, codes, map, string_bytes, OnOk};
ghost use Rattle.std.specs.List.{join_by};
ghost use Rattle.gil_report.specs.Printed.{bracketed, printed_binding, printed_condition};
ghost use Rattle.gil_report.specs.View.{binding_view, condition_view};

use crate::answers::{Bindings, Conditions};
use crate::print::Print;
use gil_values::push_separator;
use std::alloc::AllocError;

/// Adds a list in brackets.
pub fn push_list<T: Print>(out: &mut String, items: &[T]) -> Result<(), AllocError>
    ensures { OnOk result (string_bytes out.new ≡ string_bytes out.old ++ bracketed T.printed items.now) }
{
    out.push_str("[")?;
    push_items(out, items)?;
    out.push_str("]")?;
    Ok(())
}

/// Adds the elements of a list, with commas between them.
fn push_items<T: Print>(out: &mut String, items: &[T]) -> Result<(), AllocError>
    ensures { OnOk result (string_bytes out.new ≡ string_bytes out.old ++ join_by T.printed (codes ", ") items.now) }
{
    for (index, item) in items.iter().enumerate() {
        push_separator(out, ", ", index)?;
        item.print(out)?;
    }
    Ok(())
}

/// Adds variables and their values.
pub fn push_bindings(out: &mut String, bindings: &Bindings) -> Result<(), AllocError>
    ensures { OnOk result (string_bytes out.new ≡ string_bytes out.old ++ bracketed printed_binding (map binding_view bindings.now)) }
{
    push_list(out, bindings.as_slice())?;
    Ok(())
}

/// Adds conditions.
pub fn push_conditions(out: &mut String, conditions: &Conditions) -> Result<(), AllocError>
    ensures { OnOk result (string_bytes out.new ≡ string_bytes out.old ++ bracketed printed_condition (map condition_view conditions.now)) }
{
    push_list(out, conditions.as_slice())?;
    Ok(())
}
