//! Folding.
ghost use Rattle.std.specs.Prelude.{◌≡◌, map, Some, IfOk};
ghost use Rattle.gil_syntax.specs.Program.{prog_view};
ghost use Rattle.gil_syntax.specs.View.{pred_def_view};
ghost use Rattle.pure_terms.specs.View.{terms_view};
ghost use Rattle.sym_matching.specs.View.{outs_view};
ghost use Rattle.sym_model.specs.Terms.{AreEachOver};
ghost use Rattle.sym_states.specs.Meaning.{IsOverTable};
ghost use Rattle.sym_states.specs.View.{state_view};
ghost use Rattle.footprint.specs.Coming.{FoldComesFrom};
ghost use Rattle.footprint.specs.Consuming.{CasesMayMatch, IsFolding, Folds, FoldsNever, asked_all};
ghost use Rattle.footprint.specs.Leaves.{AreLeaves, IsAnswer};
ghost use Rattle.footprint.specs.Origins.{AnswerComesFrom, IsCaseOf, fold_origin};
ghost use Rattle.footprint.specs.View.{asked_view, leaves_view, matching_view};

use crate::answering::answer;
use crate::consuming::copy_table;
use crate::items::stop_in;
use crate::leaves::{Leaves, Matching};
use crate::matching::{pred_of, try_pred};
use crate::uses::Asked;
use gil_syntax::{PredDefs, Prog};
use gil_values::Text;
use pure_terms::{Decider, Terms};
use sequence::Sequence;
use std::alloc::{AllocError, Global};
use sym_matching::KnownOuts;
use sym_model::ListedMemory;
use sym_states::SymState;

/// All of the terms, as outs that are known.
fn all_known(alloc: Global, terms: &Terms) -> Result<KnownOuts, AllocError>
    ensures { IfOk result (λ x. outs_view x ≡ map Some (terms_view terms.now)) }
{
    let mut known = Sequence::new(alloc);
    for term in terms.as_slice() {
        known.push(Some(term.copy(alloc)?))?;
    }
    Ok(known)
}

/// What is asked of a predicate whose ins and outs all have terms.
fn ask_all(alloc: Global, ins: &Terms, outs: &Terms) -> Result<Asked, AllocError>
    ensures { IfOk result (λ a. asked_view a ≡ asked_all (terms_view ins.now) (terms_view outs.now)) }
{
    let ins = ins.copy(alloc)?;
    let known = all_known(alloc, outs)?;
    Ok(Asked { ins, known })
}

/// The leaves of the cases of the predicate of this name.
fn fold_leaves<M: ListedMemory, D: Decider>(
    alloc: Global,
    state: SymState<M>,
    preds: &PredDefs,
    name: &Text,
    ins: &Terms,
    outs: &Terms,
    decider: &mut D,
) -> Result<Leaves<M>, AllocError>
    requires over { IsOverTable M.terms (state_view state) }
    requires ins_over { AreEachOver (state_view state).vars (terms_view ins.now) }
    requires outs_over { AreEachOver (state_view state).vars (terms_view outs.now) }
    requires cases { CasesMayMatch M.Local.memory (map pred_def_view preds.now) }
    ensures says { IfOk result (λ r. AreLeaves M.stands M.terms M.kept (state_view state)
        (IsFolding M.stands M.terms (state_view state) (terms_view ins.now) (terms_view outs.now))
        (Folds (map pred_def_view preds.now) name.now (terms_view ins.now) (terms_view outs.now))
        (FoldsNever (map pred_def_view preds.now) name.now (terms_view ins.now) (terms_view outs.now)) (leaves_view r)) }
    ensures origin { IfOk result (λ r. FoldComesFrom M.terms (map pred_def_view preds.now) name.now (terms_view ins.now) (terms_view outs.now)
        (state_view state) (leaves_view r)) }
{
    match pred_of(preds, name) {
        Some(pred) => {
            let asked = ask_all(alloc, ins, outs)?;
            try_pred(alloc, state, &asked, 0, preds, pred, 1, decider)
        }
        None => stop_in(alloc, 0, state),
    }
}

/// Takes the first case of a predicate out of a state that is matched with these ins and outs.
pub fn fold<M: ListedMemory, D: Decider>(
    alloc: Global,
    state: SymState<M>,
    prog: &Prog,
    pred: &Text,
    ins: &Terms,
    outs: &Terms,
    decider: &mut D,
) -> Result<Matching<M>, AllocError>
    requires over { IsOverTable M.terms (state_view state) }
    requires ins_over { AreEachOver (state_view state).vars (terms_view ins.now) }
    requires outs_over { AreEachOver (state_view state).vars (terms_view outs.now) }
    requires cases { CasesMayMatch M.Local.memory (prog_view prog.now).preds }
    ensures says { IfOk result (λ r. IsAnswer M.stands M.terms M.kept (state_view state)
        (IsFolding M.stands M.terms (state_view state) (terms_view ins.now) (terms_view outs.now))
        (Folds (prog_view prog.now).preds pred.now (terms_view ins.now) (terms_view outs.now))
        (FoldsNever (prog_view prog.now).preds pred.now (terms_view ins.now) (terms_view outs.now)) (matching_view r)) }
    ensures origin { IfOk result (λ r. AnswerComesFrom M.terms
        (fold_origin M.terms (prog_view prog.now).preds pred.now (terms_view ins.now) (terms_view outs.now) (state_view state))
        (IsCaseOf (prog_view prog.now).preds pred.now) (state_view state).conds (matching_view r)) }
{
    let vars = copy_table(alloc, &state.vars)?;
    let preds = prog.preds();
    let leaves = fold_leaves(alloc, state, preds, pred, ins, outs, decider)?;
    answer(alloc, &vars, leaves, decider)
}
