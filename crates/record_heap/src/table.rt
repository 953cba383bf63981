//! The actions of records one by one, each by its row of the table.
ghost use Rattle.std.specs.Prelude.{◌≡◌, IsTrue, Some, IfOk};
ghost use Rattle.gil_values.specs.Pure.{list, from_list};
ghost use Rattle.gil_values.specs.View.{value_view, values_view};
ghost use Rattle.mem_model.specs.declared.keys.MemoryName.TheVariants.{Record};
ghost use Rattle.mem_model.specs.declared.keys.Sub.TheVariants.{Name};
ghost use Rattle.mem_model.specs.Keys.{key};
ghost use Rattle.mem_model.specs.Heaps.{IsHeapOf, OccursInHeap};
ghost use Rattle.mem_model.specs.Arguments.{Reads, location_in, property_in, property_and_value_in};
ghost use Rattle.mem_model.specs.Stored.{stored_heap_view};
ghost use Rattle.mem_model.specs.Tables.{Does, DoesWith};
ghost use Rattle.record_heap.specs.Table.{name_list_in, new, lookup, mutate, dispose, no_property};

use crate::listed::distinct_texts;
use gil_values::{Kind, Text, Value, Values};
use mem_model::arguments::{
    location_argument, one_argument, property_and_value_arguments, property_arguments,
};
use mem_model::names::{is_listed, keys_of_list, keys_of_names};
use mem_model::{Failure, Key, Outcome, StoredHeap, Sub};
use std::alloc::{AllocError, Global};

/// The names of a new record, which are the only argument.
fn name_list_argument(alloc: Global, args: &Values) -> Result<Result<&Values, Failure>, AllocError>
    ensures { IfOk result (λ read. Reads (λ names. list (from_list (values_view names.now))) read (name_list_in (values_view args.now))) }
{
    let argument = match one_argument(args) {
        Ok(argument) => argument,
        Err(failure) => return Ok(Err(failure)),
    };
    let Value::List(names) = argument else {
        return Ok(Err(Failure::Kind));
    };
    if distinct_texts(alloc, names.as_slice())? {
        Ok(Ok(names))
    } else {
        Ok(Err(Failure::Kind))
    }
}

/// `new`.
pub fn act_new(
    heap: &mut StoredHeap,
    alloc: Global,
    fresh: Option<u64>,
    args: &Values,
) -> Result<Outcome, AllocError>
    requires { (n : _) → fresh ≡ Some n → ¬ OccursInHeap n (stored_heap_view heap.old) }
    ensures { DoesWith result (stored_heap_view heap.old) (stored_heap_view heap.new)
        (name_list_in (values_view args.now)) (new fresh) }
{
    match name_list_argument(alloc, args)? {
        Ok(names) => make(heap, alloc, fresh, names),
        Err(failure) => failure.outcome(alloc),
    }
}

/// A new record with these names.
fn make(
    heap: &mut StoredHeap,
    alloc: Global,
    fresh: Option<u64>,
    names: &Values,
) -> Result<Outcome, AllocError>
    requires { (n : _) → fresh ≡ Some n → ¬ OccursInHeap n (stored_heap_view heap.old) }
    ensures { Does result (stored_heap_view heap.old) (stored_heap_view heap.new) (new fresh (list (from_list (values_view names.now)))) }
{
    let Some(location) = fresh else {
        return Failure::Action.outcome(alloc);
    };
    let keys = keys_of_names(alloc, location, names.as_slice())?;
    let shape = Key {
        loc: location,
        sub: Sub::Shape,
    };
    let names = Value::List(names.copy(alloc)?);
    heap.create(alloc, shape, names, &keys, &Value::Kind(Kind::Null))?;
    Ok(Outcome::Done(Value::Sym(location)))
}

/// `lookup`.
pub fn act_lookup(heap: &StoredHeap, alloc: Global, args: &Values) -> Result<Outcome, AllocError>
    ensures { DoesWith result (stored_heap_view heap.now) (stored_heap_view heap.now)
        (property_in (values_view args.now)) (λ (l, p). lookup l p) }
{
    match property_arguments(args) {
        Ok((location, name)) => value_of(heap, alloc, location, name),
        Err(failure) => failure.outcome(alloc),
    }
}

/// The value of a property.
fn value_of(
    heap: &StoredHeap,
    alloc: Global,
    location: u64,
    name: &Text,
) -> Result<Outcome, AllocError>
    ensures { Does result (stored_heap_view heap.now) (stored_heap_view heap.now) (lookup location name.now) }
{
    let key = Key::property(alloc, location, name)?;
    match heap.get(&key) {
        Some(value) => Ok(Outcome::Done(value.copy(alloc)?)),
        None => no_value(heap, alloc, location, name, key),
    }
}

/// What comes of a property that the heap lacks.
fn no_value(
    heap: &StoredHeap,
    alloc: Global,
    location: u64,
    name: &Text,
    property: Key,
) -> Result<Outcome, AllocError>
    requires { property ≡ key location (Name name.now) }
    ensures { Does result (stored_heap_view heap.now) (stored_heap_view heap.now) (no_property location name.now) }
{
    let gone = Key {
        loc: location,
        sub: Sub::Gone,
    };
    if heap.has(&gone) {
        return Failure::Gone.outcome(alloc);
    }
    let shape = Key {
        loc: location,
        sub: Sub::Shape,
    };
    match heap.get(&shape) {
        Some(names) => {
            if is_listed(names, name) {
                Ok(Outcome::Miss(property))
            } else {
                Failure::Absent.outcome(alloc)
            }
        }
        None => Ok(Outcome::Miss(property)),
    }
}

/// `mutate`.
pub fn act_mutate(
    heap: &mut StoredHeap,
    alloc: Global,
    args: &Values,
) -> Result<Outcome, AllocError>
    ensures { DoesWith result (stored_heap_view heap.old) (stored_heap_view heap.new)
        (property_and_value_in (values_view args.now)) (λ (l, p, v). mutate l p v) }
{
    match property_and_value_arguments(args) {
        Ok((location, name, value)) => assign(heap, alloc, location, name, value),
        Err(failure) => failure.outcome(alloc),
    }
}

/// Gives a property a value.
fn assign(
    heap: &mut StoredHeap,
    alloc: Global,
    location: u64,
    name: &Text,
    value: &Value,
) -> Result<Outcome, AllocError>
    ensures { Does result (stored_heap_view heap.old) (stored_heap_view heap.new) (mutate location name.now (value_view value.now)) }
{
    let key = Key::property(alloc, location, name)?;
    if !heap.has(&key) {
        return no_value(heap, alloc, location, name, key);
    }
    let outcome = Outcome::Done(value.copy(alloc)?);
    heap.replace(key, value.copy(alloc)?);
    Ok(outcome)
}

/// `dispose`.
pub fn act_dispose(
    heap: &mut StoredHeap,
    alloc: Global,
    args: &Values,
) -> Result<Outcome, AllocError>
    requires { IsHeapOf Record (stored_heap_view heap.old) }
    ensures { DoesWith result (stored_heap_view heap.old) (stored_heap_view heap.new)
        (location_in (values_view args.now)) dispose }
{
    match location_argument(args) {
        Ok(location) => dispose_of(heap, alloc, location),
        Err(failure) => failure.outcome(alloc),
    }
}

/// Disposes of a record.
fn dispose_of(heap: &mut StoredHeap, alloc: Global, location: u64) -> Result<Outcome, AllocError>
    requires { IsHeapOf Record (stored_heap_view heap.old) }
    ensures { Does result (stored_heap_view heap.old) (stored_heap_view heap.new) (dispose location) }
{
    let gone = Key {
        loc: location,
        sub: Sub::Gone,
    };
    if heap.has(&gone) {
        return Failure::Gone.outcome(alloc);
    }
    let shape = Key {
        loc: location,
        sub: Sub::Shape,
    };
    let keys = match heap.get(&shape) {
        Some(names) => keys_of_list(alloc, location, names)?,
        None => return Ok(Outcome::Miss(shape)),
    };
    heap.dispose(alloc, location, &shape, &keys)
}
