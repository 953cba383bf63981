//! The outs that are known before an item.
ghost use Rattle.std.specs.Prelude.{◌≡◌, ◌++◌, ◌∷◌, [], Some, IfOk, IsTrue};
ghost use Rattle.std.specs.List.{list_all};
ghost use Rattle.gil_syntax.specs.Subexpressions.{literals_of};
ghost use Rattle.gil_syntax.specs.View.{expr_view, exprs_view};
ghost use Rattle.gil_syntax.specs.WellMade.{is_spellable};
ghost use Rattle.pure_terms.specs.View.{term_view};
ghost use Rattle.sym_evaluation.specs.View.{store_view};
ghost use Rattle.sym_matching.specs.Matching.{SplitsOuts, OutsStayOver};
ghost use Rattle.sym_matching.specs.Origins.{OutsComeFrom};
ghost use Rattle.sym_matching.specs.Parts.{AddsOut, Continues};
ghost use Rattle.sym_matching.specs.Plainly.{OutsStayDecided};
ghost use Rattle.sym_matching.specs.Splitting.{with_known};
ghost use Rattle.sym_matching.specs.View.{known_view, outs_view, split_by};

use crate::names::knows_all;
use crate::splits::{KnownOuts, KnownSplit, Split, behind};
use crate::values::value_of;
use gil_syntax::{Expr, Exprs};
use pure_terms::Term;
use sequence::Sequence;
use std::alloc::{AllocError, Global};
use sym_evaluation::{GoodCase, SymStore};
use sym_model::never;

/// The outs, and then one that is known.
fn add_known(outs: KnownOuts, value: Split<Term>) -> Result<KnownSplit, AllocError>
    ensures { IfOk result (λ x. known_view x ≡ with_known (outs_view outs) (split_by term_view value)) }
{
    let Split { found, none } = value;
    match found {
        Some(GoodCase { conds, result }) => {
            let mut outs = outs;
            outs.push(Some(result))?;
            Ok(Split {
                found: Some(GoodCase {
                    conds,
                    result: outs,
                }),
                none,
            })
        }
        None => Ok(Split { found: None, none }),
    }
}

/// The outs, and then this one.
fn next_out(
    alloc: Global,
    store: &SymStore,
    expression: &Expr,
    outs: KnownOuts,
) -> Result<KnownSplit, AllocError>
    requires { IsTrue (list_all is_spellable (literals_of (expr_view expression.now))) }
    ensures { IfOk result (λ x. AddsOut (store_view store.now) (expr_view expression.now) (outs_view outs) (known_view x)) }
{
    if knows_all(store, expression) {
        let value = value_of(alloc, store, expression)?;
        return add_known(outs, value);
    }
    let mut outs = outs;
    outs.push(None)?;
    Ok(Split {
        found: Some(GoodCase {
            conds: Sequence::new(alloc),
            result: outs,
        }),
        none: never(alloc),
    })
}

/// Adds an out, where those before have values.
fn add_out(
    alloc: Global,
    store: &SymStore,
    expression: &Expr,
    split: KnownSplit,
) -> Result<KnownSplit, AllocError>
    requires { IsTrue (list_all is_spellable (literals_of (expr_view expression.now))) }
    ensures { IfOk result
        (λ x. Continues (AddsOut (store_view store.now) (expr_view expression.now)) (known_view split).found (known_view split).none
        (known_view x)) }
{
    let Split { found, none } = split;
    match found {
        Some(GoodCase { conds, result }) => {
            let next = next_out(alloc, store, expression, result)?;
            behind(alloc, conds, none, next)
        }
        None => Ok(Split { found: None, none }),
    }
}

/// The terms of the outs whose names all are known, and nothing for the others.
pub fn known_outs(alloc: Global, store: &SymStore, outs: &Exprs) -> Result<KnownSplit, AllocError>
    requires { IsTrue (list_all (λ e. list_all is_spellable (literals_of e)) (exprs_view outs.now)) }
    ensures says { IfOk result (λ x. SplitsOuts (store_view store.now) (exprs_view outs.now) (known_view x)) }
    ensures names { IfOk result (λ x. OutsStayOver (store_view store.now) (known_view x)) }
    ensures plain { IfOk result (λ x. OutsStayDecided (store_view store.now) (exprs_view outs.now) (known_view x)) }
    ensures origin { IfOk result (λ x. OutsComeFrom (store_view store.now) (exprs_view outs.now) (known_view x)) }
{
    let mut split = Split {
        found: Some(GoodCase {
            conds: Sequence::new(alloc),
            result: Sequence::new(alloc),
        }),
        none: never(alloc),
    };
    for out in outs.as_slice() {
        split = add_out(alloc, store, out, split)?;
    }
    Ok(split)
}
