//! The sorts of the arguments of a call.
ghost use Rattle.std.specs.Prelude.{◌≡◌, ◌++◌, IfNone, IfOk, IfSome};
ghost use Rattle.call_rows.specs.Asked.{AsksParams};
ghost use Rattle.checked_rows.specs.Asked.{DoubtAdds};
ghost use Rattle.call_rows.specs.Arguments.{FitParams, FitsParam, IsDoubtOver, IsUnfit, IsUnfitDoubt};
ghost use Rattle.checked_rows.specs.Doubts.{IsToldThere};
ghost use Rattle.checked_rows.specs.View.{doubt_view};
ghost use Rattle.pure_terms.specs.Meaning.{IsOver, IsUnsatisfiable};
ghost use Rattle.pure_terms.specs.Pure.{term_of};
ghost use Rattle.pure_terms.specs.View.{atoms_view};
ghost use Rattle.sym_model.specs.Alternatives.{alternatives_view};
ghost use Rattle.sym_evaluation.specs.Meaning.{IsStoreOver};
ghost use Rattle.sym_evaluation.specs.View.{store_view};
ghost use Rattle.sym_model.specs.Lists.{Each, OneOf};

use checked_rows::{Doubt, doubt_there};
use gil_syntax::{Param, Params};
use pure_terms::{Atoms, Decider, VarTable};
use std::alloc::{AllocError, Global};
use sym_evaluation::SymStore;
use sym_matching::fits_sorts;
use sym_model::Alternatives;

/// Why the conditions and one of the alternatives aren't surely never met together.
fn alternatives_doubt<D: Decider>(
    alloc: Global,
    vars: &VarTable,
    conds: &Atoms,
    alternatives: &Alternatives,
    decider: &mut D,
) -> Result<Option<Doubt>, AllocError>
    requires conds { Each (λ a. IsOver vars.now (term_of a)) (atoms_view conds.now) }
    requires alternatives { Each (Each (λ a. IsOver vars.now (term_of a))) (alternatives_view alternatives.now) }
    ensures none { IfOk result (λ o. IfNone o (Each (λ more. IsUnsatisfiable vars.now (atoms_view conds.now ++ more))
        (alternatives_view alternatives.now))) }
    ensures doubt { IfOk result (λ o. IfSome o (λ d. OneOf (λ more. IsToldThere vars.now (atoms_view conds.now) more (doubt_view d))
        (alternatives_view alternatives.now))) }
{
    for more in alternatives.as_slice() {
        if let Some(doubt) = doubt_there(alloc, vars, conds, more, decider)? {
            return Ok(Some(doubt));
        }
    }
    Ok(None)
}

/// Why the argument of a parameter hasn't surely the sorts that are declared for its name.
fn argument_doubt<D: Decider>(
    alloc: Global,
    vars: &VarTable,
    conds: &Atoms,
    store: &SymStore,
    scope: &Params,
    param: &Param,
    decider: &mut D,
) -> Result<Option<Doubt>, AllocError>
    requires conds { Each (λ a. IsOver vars.now (term_of a)) (atoms_view conds.now) }
    requires store { IsStoreOver vars.now (store_view store.now) }
    ensures fit { IfOk result (λ o. IfNone o (FitsParam vars.now (atoms_view conds.now) (store_view store.now) scope.now param.now)) }
    ensures doubt { IfOk result (λ o. IfSome o (λ d. IsDoubtOver vars.now (atoms_view conds.now)
        (IsUnfit vars.now (atoms_view conds.now) (store_view store.now) scope.now param.now) (doubt_view d))) }
    ensures asked { IfOk result (λ o. IfSome o (λ d. DoubtAdds (AsksParams scope.now (store_view store.now)) (atoms_view conds.now) (doubt_view d))) }
{
    match store.get(&param.name) {
        Some(term) => {
            let test = fits_sorts(alloc, scope, &param.name, term)?;
            alternatives_doubt(alloc, vars, conds, &test.otherwise, decider)
        }
        None => Ok(Some(Doubt::Always)),
    }
}

/// Why the arguments haven't surely the sorts of the parameters.
pub(crate) fn arguments_doubt<D: Decider>(
    alloc: Global,
    vars: &VarTable,
    conds: &Atoms,
    store: &SymStore,
    params: &Params,
    decider: &mut D,
) -> Result<Option<Doubt>, AllocError>
    requires conds { Each (λ a. IsOver vars.now (term_of a)) (atoms_view conds.now) }
    requires store { IsStoreOver vars.now (store_view store.now) }
    ensures fit { IfOk result (λ o. IfNone o (FitParams vars.now (atoms_view conds.now) (store_view store.now) params.now params.now)) }
    ensures doubt { IfOk result (λ o. IfSome o (λ d. IsUnfitDoubt vars.now (atoms_view conds.now) (store_view store.now) params.now
        (doubt_view d))) }
    ensures asked { IfOk result (λ o. IfSome o (λ d. DoubtAdds (AsksParams params.now (store_view store.now)) (atoms_view conds.now) (doubt_view d))) }
{
    for param in params.as_slice() {
        if let Some(doubt) = argument_doubt(alloc, vars, conds, store, params, param, decider)? {
            return Ok(Some(doubt));
        }
    }
    Ok(None)
}
