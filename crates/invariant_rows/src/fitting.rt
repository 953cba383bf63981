//! Whether names that have terms surely have values of the sorts that are declared for them.
ghost use Rattle.std.specs.Prelude.{IfNone, IfOk, IfSome};
ghost use Rattle.checked_rows.specs.Asked.{DoubtAdds};
ghost use Rattle.checked_rows.specs.View.{doubt_view};
ghost use Rattle.invariant_rows.specs.Asked.{AsksNames};
ghost use Rattle.invariant_rows.specs.Fitting.{AllFit, DoubtsOne, DoubtsSorts, NeverMet, SurelyFits};
ghost use Rattle.pure_terms.specs.Meaning.{IsOver};
ghost use Rattle.pure_terms.specs.Pure.{term_of};
ghost use Rattle.pure_terms.specs.View.{atoms_view};
ghost use Rattle.sym_model.specs.Alternatives.{alternatives_view};
ghost use Rattle.sym_evaluation.specs.Meaning.{IsStoreOver};
ghost use Rattle.sym_evaluation.specs.View.{store_view};
ghost use Rattle.sym_model.specs.Lists.{Each};

use checked_rows::{Doubt, doubt_there};
use gil_syntax::Params;
use gil_values::Text;
use pure_terms::{Atoms, Decider, VarTable};
use std::alloc::{AllocError, Global};
use sym_evaluation::SymStore;
use sym_matching::fits_sorts;
use sym_model::Alternatives;

/// Why the conditions and those of some alternative aren't surely never met together, if they aren't.
pub(crate) fn doubt_of_any<D: Decider>(
    alloc: Global,
    vars: &VarTable,
    conds: &Atoms,
    alternatives: &Alternatives,
    decider: &mut D,
) -> Result<Option<Doubt>, AllocError>
    requires conds { Each (λ a. IsOver vars.now (term_of a)) (atoms_view conds.now) }
    requires alternatives { Each (Each (λ a. IsOver vars.now (term_of a))) (alternatives_view alternatives.now) }
    ensures none { IfOk result (λ o. IfNone o (NeverMet vars.now (atoms_view conds.now) (alternatives_view alternatives.now))) }
    ensures doubt { IfOk result (λ o. IfSome o (λ d. DoubtsOne vars.now (atoms_view conds.now) (alternatives_view alternatives.now) (doubt_view d))) }
{
    for more in alternatives.as_slice() {
        let doubt = doubt_there(alloc, vars, conds, more, decider)?;
        if doubt.is_some() {
            return Ok(doubt);
        }
    }
    Ok(None)
}

/// Why the value of a name isn't surely of its sorts, if it has a term and isn't.
fn doubt_of_name<D: Decider>(
    alloc: Global,
    vars: &VarTable,
    conds: &Atoms,
    names: &SymStore,
    scope: &Params,
    name: &Text,
    decider: &mut D,
) -> Result<Option<Doubt>, AllocError>
    requires conds { Each (λ a. IsOver vars.now (term_of a)) (atoms_view conds.now) }
    requires names { IsStoreOver vars.now (store_view names.now) }
    ensures none { IfOk result (λ o. IfNone o (SurelyFits scope.now vars.now (atoms_view conds.now) (store_view names.now) name.now)) }
    ensures doubt { IfOk result (λ o. IfSome o (λ d. DoubtsSorts scope.now vars.now (atoms_view conds.now) (store_view names.now) (doubt_view d))) }
    ensures asked { IfOk result (λ o. IfSome o (λ d. DoubtAdds (AsksNames scope.now (store_view names.now)) (atoms_view conds.now) (doubt_view d))) }
{
    match names.get(name) {
        Some(term) => {
            let test = fits_sorts(alloc, scope, name, term)?;
            doubt_of_any(alloc, vars, conds, &test.otherwise, decider)
        }
        None => Ok(None),
    }
}

/// Why the value of some declared name isn't surely of its sorts, if it has a term and isn't.
pub(crate) fn doubt_of_sorts<D: Decider>(
    alloc: Global,
    vars: &VarTable,
    conds: &Atoms,
    names: &SymStore,
    scope: &Params,
    decider: &mut D,
) -> Result<Option<Doubt>, AllocError>
    requires conds { Each (λ a. IsOver vars.now (term_of a)) (atoms_view conds.now) }
    requires names { IsStoreOver vars.now (store_view names.now) }
    ensures none { IfOk result (λ o. IfNone o (AllFit scope.now vars.now (atoms_view conds.now) (store_view names.now) scope.now)) }
    ensures doubt { IfOk result (λ o. IfSome o (λ d. DoubtsSorts scope.now vars.now (atoms_view conds.now) (store_view names.now) (doubt_view d))) }
    ensures asked { IfOk result (λ o. IfSome o (λ d. DoubtAdds (AsksNames scope.now (store_view names.now)) (atoms_view conds.now) (doubt_view d))) }
{
    for param in scope.as_slice() {
        let name = &param.name;
        let doubt = doubt_of_name(alloc, vars, conds, names, scope, name, decider)?;
        if doubt.is_some() {
            return Ok(doubt);
        }
    }
    Ok(None)
}
