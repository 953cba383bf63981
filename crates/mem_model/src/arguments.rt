//! Reading the arguments of an action: first how many there are, then the kind of each.
ghost use Rattle.gil_values.specs.View.{value_view, values_view};
ghost use Rattle.mem_model.specs.Arguments.{
  Reads,
  one_of,
  two_of,
  three_of,
  symbol_of,
  text_of,
  location_in,
  property_in,
  property_and_value_in,
};

use crate::failures::Failure;
use gil_values::{Text, Value, Values};

/// The argument, where there is one.
pub fn one_argument(args: &Values) -> Result<&Value, Failure>
    ensures { Reads (λ v. value_view v.now) result (one_of (values_view args.now)) }
{
    match args.as_slice() {
        [a] => Ok(a),
        _ => Err(Failure::Arity),
    }
}

/// The arguments, where there are two.
pub fn two_arguments(args: &Values) -> Result<(&Value, &Value), Failure>
    ensures { Reads (λ r. (value_view r.0.now, value_view r.1.now)) result (two_of (values_view args.now)) }
{
    match args.as_slice() {
        [a, b] => Ok((a, b)),
        _ => Err(Failure::Arity),
    }
}

/// The arguments, where there are three.
pub fn three_arguments(args: &Values) -> Result<(&Value, &Value, &Value), Failure>
    ensures { Reads (λ r. (value_view r.0.now, value_view r.1.now, value_view r.2.now)) result (three_of (values_view args.now)) }
{
    match args.as_slice() {
        [a, b, c] => Ok((a, b, c)),
        _ => Err(Failure::Arity),
    }
}

/// The symbol's number.
pub fn symbol_in(value: &Value) -> Result<u64, Failure>
    ensures { Reads (λ l. l) result (symbol_of (value_view value.now)) }
{
    match value {
        Value::Sym(symbol) => Ok(*symbol),
        _ => Err(Failure::Kind),
    }
}

/// The text.
pub fn text_in(value: &Value) -> Result<&Text, Failure>
    ensures { Reads (λ p. p.now) result (text_of (value_view value.now)) }
{
    match value {
        Value::Str(text) => Ok(text),
        _ => Err(Failure::Kind),
    }
}

/// The location that is the only argument.
pub fn location_argument(args: &Values) -> Result<u64, Failure>
    ensures { Reads (λ l. l) result (location_in (values_view args.now)) }
{
    symbol_in(one_argument(args)?)
}

/// The location and the name that are the arguments.
pub fn property_arguments(args: &Values) -> Result<(u64, &Text), Failure>
    ensures { Reads (λ r. (r.0, r.1.now)) result (property_in (values_view args.now)) }
{
    let (location, name) = two_arguments(args)?;
    let location = symbol_in(location)?;
    let name = text_in(name)?;
    Ok((location, name))
}

/// The location, the name and the value that are the arguments.
pub fn property_and_value_arguments(args: &Values) -> Result<(u64, &Text, &Value), Failure>
    ensures { Reads (λ r. (r.0, r.1.now, value_view r.2.now)) result (property_and_value_in (values_view args.now)) }
{
    let (location, name, value) = three_arguments(args)?;
    let location = symbol_in(location)?;
    let name = text_in(name)?;
    Ok((location, name, value))
}
