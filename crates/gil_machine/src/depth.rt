//! How deep lists stand in one another in a value.
ghost use Rattle.std.specs.Prelude.{◌≡◌, nat_le};
ghost use Rattle.gil_values.specs.Pure.{from_list};
ghost use Rattle.gil_values.specs.View.{value_view, values_view};
ghost use Rattle.gil_machine.specs.Depth.{deepest, depth};

use gil_values::{Value, Values};

/// How deep lists may stand in one another in the value of a variable. Values are copied, compared, printed and let go by
/// recursion, which takes stack for each list.
pub const DEEPEST_VALUE: usize = 1_000;

/// Whether lists stand in one another at most so deep. What stands deeper isn't looked at.
#[cycle(depth)]
pub(crate) fn is_no_deeper(value: &Value, limit: usize) -> bool
    ensures { result ≡ nat_le (depth (value_view value.now)) limit }
{
    match value {
        Value::List(values) => limit > 0 && are_no_deeper(values, limit - 1),
        _ => true,
    }
}

#[cycle(depth)]
fn are_no_deeper(values: &Values, limit: usize) -> bool
    ensures { result ≡ nat_le (deepest (from_list (values_view values.now))) limit }
{
    for value in values.as_slice() {
        if !is_no_deeper(value, limit) {
            return false;
        }
    }
    true
}
