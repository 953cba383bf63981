//! Whether what an invariant leaves is what it left before.
ghost use Rattle.std.specs.Prelude.{IfOk, IsTrue};
ghost use Rattle.checked_paths.specs.View.{passed_view};
ghost use Rattle.invariant_rows.specs.Remainders.{IsSurelyAsBefore};
ghost use Rattle.sym_evaluation.specs.View.{store_view};
ghost use Rattle.sym_states.specs.View.{facts_view};

use crate::comparing::{are_same_bindings, are_same_facts, are_same_uses};
use checked_paths::Passed;
use std::alloc::{AllocError, Global};
use sym_evaluation::SymStore;
use sym_model::ListedMemory;
use sym_states::PredChunks;

/// Whether memory, facts and the variables that aren't listed surely are as the invariant left them before: it compares their terms, in
/// order, and says no where these only have equal values.
pub fn is_as_before<M: ListedMemory>(
    alloc: Global,
    memory: &M,
    facts: &PredChunks,
    unlisted: &SymStore,
    former: &Passed<M>,
) -> Result<bool, AllocError>
    ensures { IfOk result (λ b. IsTrue b → IsSurelyAsBefore M.stands memory.now (facts_view facts.now) (store_view unlisted.now)
        (passed_view former.now)) }
{
    if !are_same_facts(facts.as_slice(), former.preds.as_slice()) {
        return Ok(false);
    }
    if !are_same_bindings(unlisted.bindings(), former.unlisted.bindings()) {
        return Ok(false);
    }
    let listed = memory.listing(alloc)?;
    let before = former.memory.listing(alloc)?;
    Ok(are_same_uses(listed.as_slice(), before.as_slice()))
}
