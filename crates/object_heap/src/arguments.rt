//! Reading prototypes: a symbol or Null.
ghost use Rattle.gil_values.specs.View.{value_view, values_view};
ghost use Rattle.mem_model.specs.Arguments.{Reads};
ghost use Rattle.object_heap.specs.Table.{prototype_of, prototype_in, location_and_prototype_in};

use gil_values::{Kind, Value, Values};
use mem_model::Failure;
use mem_model::arguments::{one_argument, symbol_in, two_arguments};

/// The prototype.
fn prototype(value: &Value) -> Result<&Value, Failure>
    ensures { Reads (λ v. value_view v.now) result (prototype_of (value_view value.now)) }
{
    match value {
        Value::Sym(_) => Ok(value),
        Value::Kind(Kind::Null) => Ok(value),
        _ => Err(Failure::Kind),
    }
}

/// The prototype that is the only argument.
pub fn prototype_argument(args: &Values) -> Result<&Value, Failure>
    ensures { Reads (λ v. value_view v.now) result (prototype_in (values_view args.now)) }
{
    prototype(one_argument(args)?)
}

/// The location and the prototype that are the arguments.
pub fn location_and_prototype_arguments(args: &Values) -> Result<(u64, &Value), Failure>
    ensures { Reads (λ r. (r.0, value_view r.1.now)) result (location_and_prototype_in (values_view args.now)) }
{
    let (location, value) = two_arguments(args)?;
    let location = symbol_in(location)?;
    let value = prototype(value)?;
    Ok((location, value))
}
