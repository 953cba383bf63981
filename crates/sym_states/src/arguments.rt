//! The arguments of a use of a predicate.
ghost use Rattle.std.specs.Prelude.{◌≡◌, ◌++◌, IfOk, IsTrue};
ghost use Rattle.std.specs.Option.{option_map};
ghost use Rattle.gil_syntax.specs.Pure.{uses};
ghost use Rattle.gil_syntax.specs.Subexpressions.{exprs_of_item};
ghost use Rattle.gil_syntax.specs.View.{pred_use_view};
ghost use Rattle.pure_terms.specs.View.{terms_view, atoms_view};
ghost use Rattle.sym_evaluation.specs.View.{good_view, store_view};
ghost use Rattle.sym_states.specs.Producing.{are_spelled, arguments_of, AreArgumentsIfAny};
ghost use Rattle.sym_states.specs.View.{arguments_view};

use gil_syntax::PredUse;
use pure_terms::{Atoms, Terms};
use std::alloc::{AllocError, Global};
use sym_evaluation::{GoodCase, SymStore, evaluate_all};
use sym_paths::plain_expressions_ask_nothing;

/// The terms of ins and outs, and the conditions under which these have values. Contracts see them as their pure data, by
/// `arguments_view`.
#[derive(Debug, Drop)]
pub struct Arguments {
    pub conds: Atoms,
    pub ins: Terms,
    pub outs: Terms,
}

/// Adds conditions at the end.
fn join(alloc: Global, first: Atoms, second: &Atoms) -> Result<Atoms, AllocError>
    ensures { IfOk result (λ a. atoms_view a ≡ atoms_view first ++ atoms_view second.now) }
{
    let mut joined = first;
    for atom in second.as_slice() {
        joined.push(atom.copy(alloc)?)?;
    }
    Ok(joined)
}

/// The arguments, where all have terms.
fn both(
    alloc: Global,
    ins: Option<GoodCase<Terms>>,
    outs: Option<GoodCase<Terms>>,
) -> Result<Option<Arguments>, AllocError>
    ensures { IfOk result (λ o. option_map arguments_view o ≡ arguments_of (option_map (good_view terms_view) ins)
        (option_map (good_view terms_view) outs)) }
{
    match (ins, outs) {
        (Some(ins), Some(outs)) => Ok(Some(Arguments {
            conds: join(alloc, ins.conds, &outs.conds)?,
            ins: ins.result,
            outs: outs.result,
        })),
        _ => Ok(None),
    }
}

/// The arguments of a use, unless one of them surely has no value.
pub(crate) fn evaluate_use(
    alloc: Global,
    store: &SymStore,
    used: &PredUse,
) -> Result<Option<Arguments>, AllocError>
    requires { IsTrue (are_spelled (exprs_of_item (uses (pred_use_view used.now)))) }
    ensures { IfOk result (λ o. AreArgumentsIfAny (store_view store.now) (pred_use_view used.now) (option_map arguments_view o)) }
{
    plain_expressions_ask_nothing();
    let ins = evaluate_all(alloc, store, &used.ins)?;
    let outs = evaluate_all(alloc, store, &used.outs)?;
    both(alloc, ins.good, outs.good)
}
