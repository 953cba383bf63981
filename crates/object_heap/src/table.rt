//! The actions of objects one by one, each by its row of the table.
ghost use Rattle.std.specs.Prelude.{◌≡◌, Some};
ghost use Rattle.gil_values.specs.View.{value_view, values_view};
ghost use Rattle.mem_model.specs.Keys.{key};
ghost use Rattle.mem_model.specs.Heaps.{OccursInHeap};
ghost use Rattle.mem_model.specs.Arguments.{location_in, property_in, property_and_value_in};
ghost use Rattle.mem_model.specs.Stored.{stored_heap_view};
ghost use Rattle.mem_model.specs.Tables.{Does, DoesWith};
ghost use Rattle.object_heap.specs.Table.{
  prototype_in,
  location_and_prototype_in,
  new,
  get_property,
  set_property,
  delete_property,
  has_property,
  get_prototype,
  set_prototype,
};

use crate::arguments::{location_and_prototype_arguments, prototype_argument};
use crate::names::{with_name, without};
use gil_values::{Kind, Text, Value, Values};
use mem_model::arguments::{location_argument, property_and_value_arguments, property_arguments};
use mem_model::names::is_listed;
use mem_model::{Failure, Key, Outcome, StoredHeap, Sub};
use std::alloc::{AllocError, Global};

/// `new`.
pub fn act_new(
    heap: &mut StoredHeap,
    alloc: Global,
    fresh: Option<u64>,
    args: &Values,
) -> Result<Outcome, AllocError>
    requires { (n : _) → fresh ≡ Some n → ¬ OccursInHeap n (stored_heap_view heap.old) }
    ensures { DoesWith result (stored_heap_view heap.old) (stored_heap_view heap.new)
        (prototype_in (values_view args.now)) (new fresh) }
{
    match prototype_argument(args) {
        Ok(prototype) => make(heap, alloc, fresh, prototype),
        Err(failure) => failure.outcome(alloc),
    }
}

/// A new object without names.
fn make(
    heap: &mut StoredHeap,
    alloc: Global,
    fresh: Option<u64>,
    prototype: &Value,
) -> Result<Outcome, AllocError>
    requires { (n : _) → fresh ≡ Some n → ¬ OccursInHeap n (stored_heap_view heap.old) }
    ensures { Does result (stored_heap_view heap.old) (stored_heap_view heap.new) (new fresh (value_view prototype.now)) }
{
    let Some(location) = fresh else {
        return Failure::Action.outcome(alloc);
    };
    let parts = [key_at(location, Sub::Proto)];
    let names = Value::List(Values::new(alloc));
    heap.create(alloc, key_at(location, Sub::Dom), names, &parts, prototype)?;
    Ok(Outcome::Done(Value::Sym(location)))
}

/// `get`.
pub fn act_get(heap: &StoredHeap, alloc: Global, args: &Values) -> Result<Outcome, AllocError>
    ensures { DoesWith result (stored_heap_view heap.now) (stored_heap_view heap.now)
        (property_in (values_view args.now)) (λ (l, p). get_property l p) }
{
    match property_arguments(args) {
        Ok((location, name)) => value_of(heap, alloc, location, name),
        Err(failure) => failure.outcome(alloc),
    }
}

/// The value of a property.
fn value_of(
    heap: &StoredHeap,
    alloc: Global,
    location: u64,
    name: &Text,
) -> Result<Outcome, AllocError>
    ensures { Does result (stored_heap_view heap.now) (stored_heap_view heap.now) (get_property location name.now) }
{
    let property = Key::property(alloc, location, name)?;
    if let Some(value) = heap.get(&property) {
        return Ok(Outcome::Done(value.copy(alloc)?));
    }
    match heap.get(&key_at(location, Sub::Dom)) {
        Some(names) => {
            if is_listed(names, name) {
                Ok(Outcome::Miss(property))
            } else {
                Ok(Outcome::Done(Value::Kind(Kind::Undef)))
            }
        }
        None => Ok(Outcome::Miss(property)),
    }
}

/// `set`.
pub fn act_set(heap: &mut StoredHeap, alloc: Global, args: &Values) -> Result<Outcome, AllocError>
    ensures { DoesWith result (stored_heap_view heap.old) (stored_heap_view heap.new)
        (property_and_value_in (values_view args.now)) (λ (l, p, v). set_property l p v) }
{
    match property_and_value_arguments(args) {
        Ok((location, name, value)) => assign(heap, alloc, location, name, value),
        Err(failure) => failure.outcome(alloc),
    }
}

/// Gives a property a value.
fn assign(
    heap: &mut StoredHeap,
    alloc: Global,
    location: u64,
    name: &Text,
    value: &Value,
) -> Result<Outcome, AllocError>
    ensures { Does result (stored_heap_view heap.old) (stored_heap_view heap.new) (set_property location name.now (value_view value.now)) }
{
    let property = Key::property(alloc, location, name)?;
    let outcome = Outcome::Done(value.copy(alloc)?);
    if heap.has(&property) {
        heap.replace(property, value.copy(alloc)?);
        return Ok(outcome);
    }
    let domain = key_at(location, Sub::Dom);
    let names = match heap.get(&domain) {
        Some(names) => {
            if is_listed(names, name) {
                return Ok(Outcome::Miss(property));
            }
            with_name(alloc, names, name)?
        }
        None => return Ok(Outcome::Miss(property)),
    };
    heap.put(property, value.copy(alloc)?)?;
    heap.replace(domain, names);
    Ok(outcome)
}

/// `delete`.
pub fn act_delete(
    heap: &mut StoredHeap,
    alloc: Global,
    args: &Values,
) -> Result<Outcome, AllocError>
    ensures { DoesWith result (stored_heap_view heap.old) (stored_heap_view heap.new)
        (property_in (values_view args.now)) (λ (l, p). delete_property l p) }
{
    match property_arguments(args) {
        Ok((location, name)) => delete(heap, alloc, location, name),
        Err(failure) => failure.outcome(alloc),
    }
}

/// Takes a property away.
fn delete(
    heap: &mut StoredHeap,
    alloc: Global,
    location: u64,
    name: &Text,
) -> Result<Outcome, AllocError>
    ensures { Does result (stored_heap_view heap.old) (stored_heap_view heap.new) (delete_property location name.now) }
{
    let domain = key_at(location, Sub::Dom);
    let names = match heap.get(&domain) {
        Some(names) => {
            if !is_listed(names, name) {
                return Ok(Outcome::Done(Value::Bool(true)));
            }
            without(alloc, names, name)?
        }
        None => return Ok(Outcome::Miss(domain)),
    };
    let property = Key::property(alloc, location, name)?;
    if !heap.has(&property) {
        return Ok(Outcome::Miss(property));
    }
    heap.remove(&property);
    heap.replace(domain, names);
    Ok(Outcome::Done(Value::Bool(true)))
}

/// `has`.
pub fn act_has(heap: &StoredHeap, alloc: Global, args: &Values) -> Result<Outcome, AllocError>
    ensures { DoesWith result (stored_heap_view heap.now) (stored_heap_view heap.now)
        (property_in (values_view args.now)) (λ (l, p). has_property l p) }
{
    match property_arguments(args) {
        Ok((location, name)) => has(heap, alloc, location, name),
        Err(failure) => failure.outcome(alloc),
    }
}

/// Whether an object has a property.
fn has(heap: &StoredHeap, alloc: Global, location: u64, name: &Text) -> Result<Outcome, AllocError>
    ensures { Does result (stored_heap_view heap.now) (stored_heap_view heap.now) (has_property location name.now) }
{
    let property = Key::property(alloc, location, name)?;
    if heap.has(&property) {
        return Ok(Outcome::Done(Value::Bool(true)));
    }
    match heap.get(&key_at(location, Sub::Dom)) {
        Some(names) => Ok(Outcome::Done(Value::Bool(is_listed(names, name)))),
        None => Ok(Outcome::Miss(property)),
    }
}

/// `getproto`.
pub fn act_get_proto(heap: &StoredHeap, alloc: Global, args: &Values) -> Result<Outcome, AllocError>
    ensures { DoesWith result (stored_heap_view heap.now) (stored_heap_view heap.now)
        (location_in (values_view args.now)) get_prototype }
{
    match location_argument(args) {
        Ok(location) => prototype_of(heap, alloc, location),
        Err(failure) => failure.outcome(alloc),
    }
}

/// The prototype of an object.
fn prototype_of(heap: &StoredHeap, alloc: Global, location: u64) -> Result<Outcome, AllocError>
    ensures { Does result (stored_heap_view heap.now) (stored_heap_view heap.now) (get_prototype location) }
{
    let key = key_at(location, Sub::Proto);
    match heap.get(&key) {
        Some(value) => Ok(Outcome::Done(value.copy(alloc)?)),
        None => Ok(Outcome::Miss(key)),
    }
}

/// `setproto`.
pub fn act_set_proto(
    heap: &mut StoredHeap,
    alloc: Global,
    args: &Values,
) -> Result<Outcome, AllocError>
    ensures { DoesWith result (stored_heap_view heap.old) (stored_heap_view heap.new)
        (location_and_prototype_in (values_view args.now)) (λ (l, v). set_prototype l v) }
{
    match location_and_prototype_arguments(args) {
        Ok((location, value)) => set_prototype_of(heap, alloc, location, value),
        Err(failure) => failure.outcome(alloc),
    }
}

/// Gives an object a prototype.
fn set_prototype_of(
    heap: &mut StoredHeap,
    alloc: Global,
    location: u64,
    value: &Value,
) -> Result<Outcome, AllocError>
    ensures { Does result (stored_heap_view heap.old) (stored_heap_view heap.new) (set_prototype location (value_view value.now)) }
{
    let key = key_at(location, Sub::Proto);
    if !heap.has(&key) {
        return Ok(Outcome::Miss(key));
    }
    let outcome = Outcome::Done(value.copy(alloc)?);
    heap.replace(key, value.copy(alloc)?);
    Ok(outcome)
}

/// A key of the location.
fn key_at(location: u64, sub: Sub) -> Key
    ensures { result ≡ key location sub }
{
    Key { loc: location, sub }
}
