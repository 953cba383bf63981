//! Consuming assertions.
ghost use Rattle.std.specs.Prelude.{◌≡◌, [], ◌∷◌, IfOk};
ghost use Rattle.gil_syntax.specs.View.{assertion_view};
ghost use Rattle.gil_syntax.specs.Program.{prog_view};
ghost use Rattle.sym_evaluation.specs.Meaning.{IsStoreOver};
ghost use Rattle.sym_evaluation.specs.View.{store_view};
ghost use Rattle.sym_states.specs.Meaning.{Serves, IsOverTable};
ghost use Rattle.sym_states.specs.View.{state_view};
ghost use Rattle.footprint.specs.Leaves.{IsAnswer};
ghost use Rattle.footprint.specs.Consuming.{MayMatch, CasesMayMatch, Matches, StopsAt};
ghost use Rattle.footprint.specs.Origins.{AnswerComesFrom, IsOneOf, origin_of};
ghost use Rattle.footprint.specs.View.{matching_view};

use crate::answering::answer;
use crate::leaves::{Match, Matching};
use crate::matching::match_items;
use gil_syntax::{Assertion, Params, Prog};
use pure_terms::{Decider, VarTable};
use sequence::Sequence;
use std::alloc::{AllocError, Global};
use sym_evaluation::SymStore;
use sym_model::ListedMemory;
use sym_states::SymState;

pub(crate) fn copy_table(alloc: Global, vars: &VarTable) -> Result<VarTable, AllocError>
    ensures { IfOk result (λ copied. copied ≡ vars.now) }
{
    let mut copied = Sequence::new(alloc);
    for sort in vars.as_slice() {
        copied.push(*sort)?;
    }
    Ok(copied)
}

/// Takes an assertion out of a state: items are matched from left to right, and names of the scope without a term get theirs. An item
/// that surely isn't matched comes before one that isn't decided.
pub fn consume_all<M: ListedMemory, D: Decider>(
    alloc: Global,
    state: SymState<M>,
    prog: &Prog,
    scope: &Params,
    items: &Assertion,
    store: SymStore,
    decider: &mut D,
) -> Result<Matching<M>, AllocError>
    requires over { IsOverTable M.terms (state_view state) }
    requires store_over { IsStoreOver (state_view state).vars (store_view store) }
    requires may { MayMatch M.Local.memory (assertion_view items.now) }
    requires cases { CasesMayMatch M.Local.memory (prog_view prog.now).preds }
    ensures says { IfOk result (λ r. IsAnswer M.stands M.terms M.kept (state_view state) (Serves M.stands M.terms (state_view state) (store_view store))
        (Matches (prog_view prog.now).preds scope.now (assertion_view items.now))
        (StopsAt (prog_view prog.now).preds scope.now (assertion_view items.now)) (matching_view r)) }
    ensures origin { IfOk result (λ r. AnswerComesFrom M.terms
        (origin_of M.terms (prog_view prog.now).preds scope.now (assertion_view items.now ∷ []) (store_view store) (state_view state))
        (IsOneOf scope.now (assertion_view items.now ∷ [])) (state_view state).conds (matching_view r)) }
{
    let vars = copy_table(alloc, &state.vars)?;
    let start = Match { state, store };
    let leaves = match_items(alloc, start, prog.preds(), scope, items, 1, decider)?;
    answer(alloc, &vars, leaves, decider)
}
