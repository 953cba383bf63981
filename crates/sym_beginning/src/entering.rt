//! The terms of the values with which a specification is entered.
ghost use Rattle.std.specs.Prelude.{◌≡◌, ℕ, List, [], ◌++◌, IfOk, IfSome, IsTrue, IsSome, false};
ghost use Rattle.std.specs.List.{filter};
ghost use Rattle.std.specs.Option.{option_map};
ghost use Rattle.gil_syntax.specs.Valid.{param_names, is_among, has_twice};
ghost use Rattle.gil_syntax.specs.View.{spec_view};
ghost use Rattle.gil_syntax.specs.WellMade.{are_program_names};
ghost use Rattle.gil_syntax.specs.WellMade as made;
ghost use Rattle.pure_terms.specs.View.{terms_view};
ghost use Rattle.sym_evaluation.specs.Pure.{term_at};
ghost use Rattle.sym_evaluation.specs.View.{store_view};
ghost use Rattle.sym_beginning.specs.Entering.{AreTermsAt, EntersIfAny};
ghost use Rattle.sym_beginning.specs.Plainly.{HasPlainSorts, IsPlainEntry};
ghost use Rattle.sym_beginning.specs.View.{entry_view};

use gil_syntax::{Params, Spec, Texts};
use gil_values::Text;
use pure_terms::{Terms, VarTable};
use sequence::Sequence;
use std::alloc::{AllocError, Global};
use sym_evaluation::SymStore;
use sym_states::{beside, names_in, with_variables};

/// A table of variables, the terms of the parameters and of the variables that the precondition names, and the store of both.
/// Contracts see them as their pure data, by `entry_view`.
#[derive(Debug, Drop)]
pub(crate) struct EntryTerms {
    pub(crate) vars: VarTable,
    pub(crate) args: Terms,
    pub(crate) variables: SymStore,
    pub(crate) store: SymStore,
}

/// The names of parameters.
fn names_of(alloc: Global, params: &Params) -> Result<Texts, AllocError>
    ensures { IfOk result (λ names. names ≡ param_names params.now) }
{
    let mut names = Sequence::new(alloc);
    for param in params.as_slice() {
        names.push(param.name.copy(alloc)?)?;
    }
    Ok(names)
}

/// Whether it is the name of a logical variable.
fn has_hash(name: &Text) -> bool
    ensures { result ≡ made.has_hash name.now }
{
    match name.as_str().as_bytes() {
        [first, ..] => *first == b'#',
        [] => false,
    }
}

/// The names of logical variables among some names.
fn logical_names(alloc: Global, names: &Texts) -> Result<Texts, AllocError>
    ensures { IfOk result (λ logical. logical ≡ filter made.has_hash names.now) }
{
    let mut logical = Sequence::new(alloc);
    for name in names.as_slice() {
        if has_hash(name) {
            logical.push(name.copy(alloc)?)?;
        }
    }
    Ok(logical)
}

/// Whether a name is one of a list.
fn is_among(names: &Texts, name: &Text) -> bool
    ensures { result ≡ is_among names.now name.now }
{
    for other in names.as_slice() {
        if *name == *other {
            return true;
        }
    }
    false
}

/// The names of a list that are declared, in the order of declaration.
fn declared_among(alloc: Global, declared: &Params, names: &Texts) -> Result<Texts, AllocError>
    ensures { IfOk result (λ found. found ≡ filter (is_among names.now) (param_names declared.now)) }
{
    let mut found = Sequence::new(alloc);
    for param in declared.as_slice() {
        if is_among(names, &param.name) {
            found.push(param.name.copy(alloc)?)?;
        }
    }
    Ok(found)
}

/// The names with others behind them.
fn with_names(names: Texts, more: Texts) -> Result<Texts, AllocError>
    ensures { IfOk result (λ all. all ≡ names ++ more) }
{
    let mut all = names;
    for name in more.into_vec() {
        all.push(name)?;
    }
    Ok(all)
}

/// The terms of names.
fn terms_at(alloc: Global, store: &SymStore, names: &Texts) -> Result<Terms, AllocError>
    requires { (x : List ℕ) → IsTrue (is_among names.now x) → IsSome (term_at (store_view store.now) x) }
    ensures { IfOk result (λ ts. AreTermsAt (store_view store.now) names.now (terms_view ts)) }
{
    let mut terms = Terms::new(alloc);
    for name in names.as_slice() {
        match store.get(name) {
            Some(term) => terms.push(term.copy(alloc)?)?,
            None => unreachable!(),
        }
    }
    Ok(terms)
}

/// The terms of the values with which a specification is entered, unless it can't be entered at all. The variables are numbered in this order:
/// the parameters, and then the variables that the precondition names, as they are declared.
pub(crate) fn entry_terms(alloc: Global, spec: &Spec) -> Result<Option<EntryTerms>, AllocError>
    requires once { has_twice (param_names (spec_view spec.now).params) ≡ false }
    requires names { IsTrue (are_program_names (spec_view spec.now).params) }
    ensures enters { IfOk result (λ o. EntersIfAny (spec_view spec.now) (option_map entry_view o)) }
    ensures plain { HasPlainSorts (spec_view spec.now) → IfOk result (λ o. IfSome o (λ e. IsPlainEntry (entry_view e))) }
{
    let names = names_of(alloc, &spec.params)?;
    let named = with_variables(
        alloc,
        Sequence::new(alloc),
        SymStore::new(alloc),
        &spec.params,
        &names,
    )?;
    let params = match named {
        Some(params) => params,
        None => return Ok(None),
    };
    let args = terms_at(alloc, &params.store, &names)?;
    let standing = names_in(alloc, &spec.pre)?;
    let logical = logical_names(alloc, &standing)?;
    let declared = declared_among(alloc, &spec.logicals, &logical)?;
    let ordered = with_names(declared, logical)?;
    let named = with_variables(
        alloc,
        params.vars,
        SymStore::new(alloc),
        &spec.logicals,
        &ordered,
    )?;
    let variables = match named {
        Some(variables) => variables,
        None => return Ok(None),
    };
    let store = beside(alloc, params.store, &variables.store)?;
    Ok(Some(EntryTerms {
        vars: variables.vars,
        args,
        variables: variables.store,
        store,
    }))
}
