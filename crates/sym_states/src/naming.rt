//! New variables for names that have no term.
ghost use Rattle.std.specs.Prelude.{◌∷◌, ◌≡◌, [], IfOk, length};
ghost use Rattle.std.specs.Option.{option_map};
ghost use Rattle.pure_terms.specs.Pure.{variable};
ghost use Rattle.sym_evaluation.specs.View.{store_view};
ghost use Rattle.sym_states.specs.Naming.{NamesAll, AddsVariable};
ghost use Rattle.sym_states.specs.NamingView.{named_view};

use crate::sorts::sort_of;
use gil_syntax::{Params, Texts};
use gil_values::Text;
use pure_terms::{Sort, Term, Var, VarTable};
use std::alloc::{AllocError, Global};
use sym_evaluation::SymStore;

/// A table of variables, and a store of terms over it. Contracts see them as their pure data, by `named_view`.
#[derive(Debug, Drop)]
pub struct Named {
    pub vars: VarTable,
    pub store: SymStore,
}

/// Gives a name a new variable of a sort.
fn add_variable(alloc: Global, named: Named, name: &Text, sort: Sort) -> Result<Named, AllocError>
    ensures { IfOk result (λ next. AddsVariable name.now sort (named_view named) (named_view next)) }
{
    let Named {
        mut vars,
        mut store,
    } = named;
    let number = vars.len() as u64;
    vars.push(sort)?;
    store.set(name.copy(alloc)?, Term::Var(Var { number, sort }))?;
    Ok(Named { vars, store })
}

/// Gives a name a new variable, unless it has a term.
fn name_next(
    alloc: Global,
    named: Named,
    params: &Params,
    name: &Text,
) -> Result<Option<Named>, AllocError>
    ensures { IfOk result (λ o. NamesAll params.now (name.now ∷ []) named.vars (store_view named.store) (option_map named_view o)) }
{
    if named.store.get(name).is_some() {
        return Ok(Some(named));
    }
    match sort_of(params, name) {
        Some(sort) => Ok(Some(add_variable(alloc, named, name, sort)?)),
        None => Ok(None),
    }
}

/// Gives each of the names that has no term a new variable of the sort that is declared for it, unless no value has all the sorts
/// that are declared for one of them.
pub fn with_variables(
    alloc: Global,
    vars: VarTable,
    store: SymStore,
    params: &Params,
    names: &Texts,
) -> Result<Option<Named>, AllocError>
    ensures { IfOk result (λ o. NamesAll params.now names.now vars (store_view store) (option_map named_view o)) }
{
    let mut named = Named { vars, store };
    for name in names.as_slice() {
        match name_next(alloc, named, params, name)? {
            Some(next) => named = next,
            None => return Ok(None),
        }
    }
    Ok(Some(named))
}
