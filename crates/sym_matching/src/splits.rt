//! What may come of matching.
ghost use Rattle.std.specs.Prelude.{◌≡◌, ◌++◌, [], IfOk};
ghost use Rattle.std.specs.Option.{option_map};
ghost use Rattle.pure_terms.specs.View.{atoms_view};
ghost use Rattle.sym_model.specs.Alternatives.{alternatives_view, always as always_true};
ghost use Rattle.sym_evaluation.specs.View.{good_view, store_view};
ghost use Rattle.sym_matching.specs.Splitting.{passed as is_passed, failed as is_failed, last_of as last_alternative, behind_conds, also as both_tests, case_behind as good_behind, behind as comes_behind, where_met as met_by, nothing, sure};
ghost use Rattle.sym_matching.specs.View.{test_view, stores_view, split_by};

use pure_terms::{Atoms, Term};
use sequence::Sequence;
use std::alloc::{AllocError, Global};
use sym_evaluation::{GoodCase, SymStore};
use sym_model::{Alternatives, always, both, copy_conditions, extend, never};

/// Whether something is so: the conditions under which it is, if it can be, and those under which it isn't. Contracts see it as
/// its pure data, by `test_view`.
#[derive(Debug, Drop)]
pub struct Test {
    pub when: Option<Atoms>,
    pub otherwise: Alternatives,
}

/// What is found, if something can be, with the conditions under which it is, and the conditions under which nothing is. There is
/// one way to match at most.
#[derive(Debug, Drop)]
pub struct Split<T> {
    pub found: Option<GoodCase<T>>,
    pub none: Alternatives,
}

/// A store, where matching gives one. Contracts see it as its pure data, by `stores_view`.
pub type StoreSplit = Split<SymStore>;

/// The terms of outs that are known before an item. Contracts see them by `outs_view`.
pub type KnownOuts = Sequence<Option<Term>>;

/// The known outs, where the known ones have values. Contracts see them as their pure data, by `known_view`.
pub type KnownSplit = Split<KnownOuts>;

/// The test that is met.
pub(crate) fn passed(alloc: Global) -> Test
    ensures { test_view result ≡ is_passed }
{
    Test {
        when: Some(Sequence::new(alloc)),
        otherwise: never(alloc),
    }
}

/// The test that isn't met.
pub(crate) fn failed(alloc: Global) -> Result<Test, AllocError>
    ensures { IfOk result (λ x. test_view x ≡ is_failed) }
{
    Ok(Test {
        when: None,
        otherwise: always(alloc)?,
    })
}

/// The conditions of both lists.
fn join(first: Atoms, second: Atoms) -> Result<Atoms, AllocError>
    ensures { IfOk result (λ a. atoms_view a ≡ atoms_view first ++ atoms_view second) }
{
    let mut joined = first;
    for atom in second.into_vec() {
        joined.push(atom)?;
    }
    Ok(joined)
}

/// The last alternative, if there is one.
pub(crate) fn last_of(alternatives: Alternatives) -> Option<Atoms>
    ensures { option_map atoms_view result ≡ last_alternative (alternatives_view alternatives) }
{
    let mut alternatives = alternatives;
    alternatives.pop()
}

/// Adds alternatives, each behind these conditions.
fn extend_behind(
    alloc: Global,
    first: Alternatives,
    conds: &Atoms,
    more: &Alternatives,
) -> Result<Alternatives, AllocError>
    ensures { IfOk result
        (λ x. alternatives_view x ≡ alternatives_view first ++ behind_conds (atoms_view conds.now) (alternatives_view more.now)) }
{
    let mut before = Sequence::new(alloc);
    before.push(copy_conditions(alloc, conds)?)?;
    let behind = both(alloc, &before, more)?;
    extend(alloc, first, &behind)
}

/// The conditions behind the first ones, if there are any.
fn join_to(first: Atoms, second: Option<Atoms>) -> Result<Option<Atoms>, AllocError>
    ensures { IfOk result
        (λ o. option_map atoms_view o ≡ option_map (λ more. atoms_view first ++ more) (option_map atoms_view second)) }
{
    match second {
        Some(more) => Ok(Some(join(first, more)?)),
        None => Ok(None),
    }
}

/// Both tests, of which the second is asked only where the first is met.
pub(crate) fn also(alloc: Global, first: Test, second: Test) -> Result<Test, AllocError>
    ensures { IfOk result (λ x. test_view x ≡ both_tests (test_view first) (test_view second)) }
{
    let Test { when, otherwise } = first;
    let Test {
        when: more,
        otherwise: others,
    } = second;
    match when {
        Some(conds) => {
            let otherwise = extend_behind(alloc, otherwise, &conds, &others)?;
            let when = join_to(conds, more)?;
            Ok(Test { when, otherwise })
        }
        None => Ok(Test {
            when: None,
            otherwise,
        }),
    }
}

/// The case behind these conditions.
fn case_behind<T: Drop>(
    conds: Atoms,
    found: Option<GoodCase<T>>,
) -> Result<Option<GoodCase<T>>, AllocError>
    ensures { IfOk result
        (λ o. option_map (good_view (λ t. t)) o ≡ option_map (good_behind (atoms_view conds)) (option_map (good_view (λ t. t)) found)) }
{
    match found {
        Some(
            GoodCase {
                conds: more,
                result,
            },
        ) => Ok(Some(GoodCase {
            conds: join(conds, more)?,
            result,
        })),
        None => Ok(None),
    }
}

/// What comes where these conditions are true, beside conditions under which nothing is found.
pub(crate) fn behind<T: Drop>(
    alloc: Global,
    conds: Atoms,
    none: Alternatives,
    next: Split<T>,
) -> Result<Split<T>, AllocError>
    ensures { IfOk result
        (λ x. split_by (λ t. t) x ≡ comes_behind (atoms_view conds) (alternatives_view none) (split_by (λ t. t) next)) }
{
    let Split { found, none: more } = next;
    let none = extend_behind(alloc, none, &conds, &more)?;
    let found = case_behind(conds, found)?;
    Ok(Split { found, none })
}

/// A store, where the test is met.
pub(crate) fn where_met(test: Test, store: SymStore) -> StoreSplit
    ensures { stores_view result ≡ met_by (test_view test) (store_view store) }
{
    let Test { when, otherwise } = test;
    match when {
        Some(conds) => Split {
            found: Some(GoodCase {
                conds,
                result: store,
            }),
            none: otherwise,
        },
        None => Split {
            found: None,
            none: otherwise,
        },
    }
}

/// No store.
pub(crate) fn no_store(alloc: Global) -> Result<StoreSplit, AllocError>
    ensures { IfOk result (λ x. stores_view x ≡ nothing always_true) }
{
    Ok(Split {
        found: None,
        none: always(alloc)?,
    })
}

/// This store, without conditions.
pub(crate) fn sure_store(alloc: Global, store: SymStore) -> StoreSplit
    ensures { stores_view result ≡ sure (store_view store) }
{
    Split {
        found: Some(GoodCase {
            conds: Sequence::new(alloc),
            result: store,
        }),
        none: never(alloc),
    }
}
