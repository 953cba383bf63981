//! The numbering of a valuation's symbols.
ghost use Rattle.std.specs.Prelude.{◌≡◌, ◌==◌, ℕ, List, ◌∷◌, ◌++◌, [], IfOk, OnOk};
ghost use Rattle.std.specs.List.{list_any};
ghost use Rattle.gil_values.specs.View.{values_view};
ghost use Rattle.pure_terms.specs.Meaning.{IsProper};
ghost use Rattle.sym_witness.specs.Numbering.{AreOthers, IsNumbered};

use crate::renaming::rename_all;
use crate::symbols::{add_all_symbols, fresh_symbols};
use pure_terms::{Valuation, VarTable};
use std::alloc::{AllocError, Global};

/// A valuation whose symbols are numbered, and the counter above those that no fresh variable has.
#[derive(Debug, Drop)]
pub struct Witness {
    pub valuation: Valuation,
    pub counter: u64,
}

/// Whether the number is one of the list.
fn is_among(numbers: &[u64], number: u64) -> bool
    ensures { result ≡ list_any (λ n. n == number) numbers.now }
{
    numbers.iter().any(|n| *n == number)
}

/// Adds a symbol that no fresh variable has, if it isn't there.
fn add_other(free: &mut Vec<u64>, fresh: &[u64], symbol: u64) -> Result<(), AllocError>
    ensures { OnOk result ((seen : List ℕ) → AreOthers seen fresh.now free.old.items
        → AreOthers (seen ++ symbol ∷ []) fresh.now free.new.items) }
{
    if is_among(fresh, symbol) {
        return Ok(());
    }
    if is_among(free.as_slice(), symbol) {
        return Ok(());
    }
    free.push(symbol)?;
    Ok(())
}

/// The symbols that no fresh variable has, each once.
fn others(alloc: Global, symbols: &[u64], fresh: &[u64]) -> Result<Vec<u64>, AllocError>
    ensures { IfOk result (λ free. AreOthers symbols.now fresh.now free.items) }
{
    let mut free = Vec::new(alloc);
    for place in 0..symbols.len() {
        add_other(&mut free, fresh, symbols[place])?;
    }
    Ok(free)
}

/// The valuation with other names for its symbols: those of fresh variables are numbered in their order from a counter on, and all others
/// are the numbers below it.
pub fn number_symbols(
    alloc: Global,
    vars: &VarTable,
    valuation: &Valuation,
) -> Result<Witness, AllocError>
    requires { IsProper vars.now (values_view valuation.now) }
    ensures { IfOk result (λ w. IsNumbered vars.now w.counter (values_view valuation.now) (values_view w.valuation)) }
{
    let mut fresh = fresh_symbols(alloc, vars, valuation)?;
    let mut all = Vec::new(alloc);
    add_all_symbols(&mut all, valuation)?;
    let mut names = others(alloc, all.as_slice(), fresh.as_slice())?;
    let counter = names.as_slice().len() as u64;
    names.append(&mut fresh)?;
    let valuation = rename_all(alloc, names.as_slice(), valuation)?;
    Ok(Witness { valuation, counter })
}
