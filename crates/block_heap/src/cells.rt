//! The cells of a block.
ghost use Rattle.std.specs.Prelude.{◌≡◌, ◌<◌, ◌^◌, pos, IfOk};
ghost use Rattle.gil_values.specs.View.{value_view};
ghost use Rattle.mem_model.specs.declared.keys.Sub.TheVariants.{At};
ghost use Rattle.mem_model.specs.Keys.{key};
ghost use Rattle.mem_model.specs.Stored.{stored_heap_view};
ghost use Rattle.mem_model.specs.Tables.{first_missing};
ghost use Rattle.block_heap.specs.Table.{cell_keys, count_of, is_outside, is_size};

use gil_values::Value;
use mem_model::{Key, StoredHeap, Sub};
use std::alloc::{AllocError, Global};

/// Whether a block may have so many cells.
pub fn fits_size(cells: i128) -> bool
    ensures { result ≡ is_size cells }
{
    0 <= cells && cells <= 10_000
}

/// Whether an offset is outside the bound of a block.
pub fn is_past(bound: &Value, offset: i128) -> bool
    ensures { result ≡ is_outside (value_view bound.now) offset }
{
    match bound {
        Value::Int(cells) => offset < 0 || *cells <= offset,
        _ => false,
    }
}

/// How many cells a bound tells of.
pub fn number_of_cells(bound: &Value) -> u128
    ensures number { result ≡ count_of (value_view bound.now) }
    ensures small { result < 2 ^ 127 }
{
    match bound {
        Value::Int(cells) => { if *cells > 0 { *cells as u128 } else { 0 } }
        _ => 0,
    }
}

/// The keys of so many cells.
pub fn keys_of_cells(alloc: Global, location: u64, count: u128) -> Result<Vec<Key>, AllocError>
    requires { count < 2 ^ 127 }
    ensures { IfOk result (λ ks. ks.items ≡ cell_keys location count) }
{
    let mut keys = Vec::new(alloc);
    for offset in 0..count {
        keys.push(cell(location, offset))?;
    }
    Ok(keys)
}

/// The least of so many cells that the heap lacks. It looks no further than that.
pub fn least_missing(heap: &StoredHeap, location: u64, count: u128) -> Option<Key>
    requires { count < 2 ^ 127 }
    ensures { result ≡ first_missing (stored_heap_view heap.now) (cell_keys location count) }
{
    for offset in 0..count {
        let key = cell(location, offset);
        if !heap.has(&key) {
            return Some(key);
        }
    }
    None
}

/// The key of a cell.
fn cell(location: u64, offset: u128) -> Key
    requires { offset < 2 ^ 127 }
    ensures { result ≡ key location (At (pos offset)) }
{
    Key {
        loc: location,
        sub: Sub::At(offset as i128),
    }
}
