//! The actions of blocks one by one, each by its row of the table.
ghost use Rattle.std.specs.Prelude.{◌≡◌, pos, Some, IsTrue};
ghost use Rattle.gil_values.specs.View.{value_view, values_view};
ghost use Rattle.mem_model.specs.declared.keys.MemoryName.TheVariants.{Block};
ghost use Rattle.mem_model.specs.Keys.{key};
ghost use Rattle.mem_model.specs.Heaps.{IsHeapOf, OccursInHeap};
ghost use Rattle.mem_model.specs.Stored.{stored_heap_view};
ghost use Rattle.mem_model.specs.Tables.{Does, DoesWith};
ghost use Rattle.block_heap.specs.Table.{
  number_in,
  address_in,
  address_and_value_in,
  is_size,
  allocated,
  alloc_block,
  load,
  store,
  free,
};

use crate::arguments::{address_and_value_arguments, address_argument, number_argument};
use crate::cells::{fits_size, is_past, keys_of_cells, least_missing, number_of_cells};
use gil_values::{Value, Values};
use mem_model::{Failure, Key, Outcome, StoredHeap, Sub};
use std::alloc::{AllocError, Global};

/// `alloc`.
pub fn act_alloc(
    heap: &mut StoredHeap,
    alloc: Global,
    fresh: Option<u64>,
    args: &Values,
) -> Result<Outcome, AllocError>
    requires { (n : _) → fresh ≡ Some n → ¬ OccursInHeap n (stored_heap_view heap.old) }
    ensures { DoesWith result (stored_heap_view heap.old) (stored_heap_view heap.new)
        (number_in (values_view args.now)) (alloc_block fresh) }
{
    match number_argument(args) {
        Ok(cells) => {
            if fits_size(cells) {
                make(heap, alloc, fresh, cells)
            } else {
                Failure::Size.outcome(alloc)
            }
        }
        Err(failure) => failure.outcome(alloc),
    }
}

/// A new block of so many cells.
fn make(
    heap: &mut StoredHeap,
    alloc: Global,
    fresh: Option<u64>,
    cells: i128,
) -> Result<Outcome, AllocError>
    requires new { (n : _) → fresh ≡ Some n → ¬ OccursInHeap n (stored_heap_view heap.old) }
    requires size { IsTrue (is_size cells) }
    ensures { Does result (stored_heap_view heap.old) (stored_heap_view heap.new) (allocated fresh cells) }
{
    let Some(location) = fresh else {
        return Failure::Action.outcome(alloc);
    };
    let bound = Value::Int(cells);
    let keys = keys_of_cells(alloc, location, number_of_cells(&bound))?;
    let mut address = Values::new(alloc);
    address.push(Value::Sym(location))?;
    address.push(Value::Int(0))?;
    heap.create(
        alloc,
        key_at(location, Sub::Bound),
        bound,
        &keys,
        &Value::Int(0),
    )?;
    Ok(Outcome::Done(Value::List(address)))
}

/// `load`.
pub fn act_load(heap: &StoredHeap, alloc: Global, args: &Values) -> Result<Outcome, AllocError>
    ensures { DoesWith result (stored_heap_view heap.now) (stored_heap_view heap.now)
        (address_in (values_view args.now)) (λ (l, i). load l i) }
{
    match address_argument(args) {
        Ok((location, offset)) => value_of(heap, alloc, location, offset),
        Err(failure) => failure.outcome(alloc),
    }
}

/// The value of a cell.
fn value_of(
    heap: &StoredHeap,
    alloc: Global,
    location: u64,
    offset: i128,
) -> Result<Outcome, AllocError>
    ensures { Does result (stored_heap_view heap.now) (stored_heap_view heap.now) (load location offset) }
{
    if heap.has(&key_at(location, Sub::Gone)) {
        return Failure::Gone.outcome(alloc);
    }
    if let Some(bound) = heap.get(&key_at(location, Sub::Bound)) {
        if is_past(bound, offset) {
            return Failure::Bound.outcome(alloc);
        }
    }
    let cell = key_at(location, Sub::At(offset));
    match heap.get(&cell) {
        Some(value) => Ok(Outcome::Done(value.copy(alloc)?)),
        None => Ok(Outcome::Miss(cell)),
    }
}

/// `store`.
pub fn act_store(heap: &mut StoredHeap, alloc: Global, args: &Values) -> Result<Outcome, AllocError>
    ensures { DoesWith result (stored_heap_view heap.old) (stored_heap_view heap.new)
        (address_and_value_in (values_view args.now)) (λ (l, i, v). store l i v) }
{
    match address_and_value_arguments(args) {
        Ok((location, offset, value)) => assign(heap, alloc, location, offset, value),
        Err(failure) => failure.outcome(alloc),
    }
}

/// Gives a cell a value.
fn assign(
    heap: &mut StoredHeap,
    alloc: Global,
    location: u64,
    offset: i128,
    value: &Value,
) -> Result<Outcome, AllocError>
    ensures { Does result (stored_heap_view heap.old) (stored_heap_view heap.new) (store location offset (value_view value.now)) }
{
    if heap.has(&key_at(location, Sub::Gone)) {
        return Failure::Gone.outcome(alloc);
    }
    if let Some(bound) = heap.get(&key_at(location, Sub::Bound)) {
        if is_past(bound, offset) {
            return Failure::Bound.outcome(alloc);
        }
    }
    let cell = key_at(location, Sub::At(offset));
    if !heap.has(&cell) {
        return Ok(Outcome::Miss(cell));
    }
    let outcome = Outcome::Done(value.copy(alloc)?);
    heap.replace(cell, value.copy(alloc)?);
    Ok(outcome)
}

/// `free`.
pub fn act_free(heap: &mut StoredHeap, alloc: Global, args: &Values) -> Result<Outcome, AllocError>
    requires { IsHeapOf Block (stored_heap_view heap.old) }
    ensures { DoesWith result (stored_heap_view heap.old) (stored_heap_view heap.new)
        (address_in (values_view args.now)) (λ (l, i). free l i) }
{
    match address_argument(args) {
        Ok((location, offset)) => {
            if offset == 0 {
                free_block(heap, alloc, location)
            } else {
                Failure::Free.outcome(alloc)
            }
        }
        Err(failure) => failure.outcome(alloc),
    }
}

/// Frees a block by its first address.
fn free_block(heap: &mut StoredHeap, alloc: Global, location: u64) -> Result<Outcome, AllocError>
    requires { IsHeapOf Block (stored_heap_view heap.old) }
    ensures { Does result (stored_heap_view heap.old) (stored_heap_view heap.new) (free location (pos 0)) }
{
    if heap.has(&key_at(location, Sub::Gone)) {
        return Failure::Gone.outcome(alloc);
    }
    let bound = key_at(location, Sub::Bound);
    let count = match heap.get(&bound) {
        Some(cells) => number_of_cells(cells),
        None => return Ok(Outcome::Miss(bound)),
    };
    match least_missing(heap, location, count) {
        Some(cell) => Ok(Outcome::Miss(cell)),
        None => {
            let keys = keys_of_cells(alloc, location, count)?;
            heap.dispose(alloc, location, &bound, &keys)
        }
    }
}

/// A key of the location.
fn key_at(location: u64, sub: Sub) -> Key
    ensures { result ≡ key location sub }
{
    Key { loc: location, sub }
}
