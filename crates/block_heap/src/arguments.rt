//! Reading numbers and addresses.
ghost use Rattle.gil_values.specs.View.{value_view, values_view};
ghost use Rattle.mem_model.specs.Arguments.{Reads};
ghost use Rattle.std.specs.Prelude.{map};
ghost use Rattle.block_heap.specs.Table.{
  number_of,
  address_parts,
  address_of,
  number_in,
  address_in,
  address_and_value_in,
};

use gil_values::{Value, Values};
use mem_model::Failure;
use mem_model::arguments::{one_argument, symbol_in, two_arguments};

fn number(value: &Value) -> Result<i128, Failure>
    ensures { Reads (λ n. n) result (number_of (value_view value.now)) }
{
    match value {
        Value::Int(n) => Ok(*n),
        _ => Err(Failure::Kind),
    }
}

/// The location and the offset of an address.
fn parts_of_address(values: &[Value]) -> Result<(u64, i128), Failure>
    ensures { Reads (λ r. r) result (address_parts (map value_view values.now)) }
{
    match values {
        [location, offset] => {
            let location = symbol_in(location)?;
            let offset = number(offset)?;
            Ok((location, offset))
        }
        _ => Err(Failure::Kind),
    }
}

fn address(value: &Value) -> Result<(u64, i128), Failure>
    ensures { Reads (λ r. r) result (address_of (value_view value.now)) }
{
    match value {
        Value::List(values) => parts_of_address(values.as_slice()),
        _ => Err(Failure::Kind),
    }
}

/// The number that is the only argument.
pub fn number_argument(args: &Values) -> Result<i128, Failure>
    ensures { Reads (λ n. n) result (number_in (values_view args.now)) }
{
    number(one_argument(args)?)
}

/// The address that is the only argument.
pub fn address_argument(args: &Values) -> Result<(u64, i128), Failure>
    ensures { Reads (λ r. r) result (address_in (values_view args.now)) }
{
    address(one_argument(args)?)
}

/// The address and the value that are the arguments.
pub fn address_and_value_arguments(args: &Values) -> Result<(u64, i128, &Value), Failure>
    ensures { Reads (λ r. (r.0, r.1, value_view r.2.now)) result (address_and_value_in (values_view args.now)) }
{
    let (location, value) = two_arguments(args)?;
    let (location, offset) = address(location)?;
    Ok((location, offset, value))
}
