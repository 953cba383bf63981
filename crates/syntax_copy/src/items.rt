//! Copies of specifications and predicates.
ghost use Rattle.std.specs.Prelude.{◌≡◌, IfOk, map};
ghost use Rattle.gil_syntax.specs.View.{spec_view, pred_def_view};

use crate::assertions::{copy_assertion, copy_assertions, copy_params};
use gil_syntax::{PredDef, PredDefs, Spec, Specs};
use std::alloc::{AllocError, Global};

fn copy_spec(alloc: Global, spec: &Spec) -> Result<Spec, AllocError>
    ensures { IfOk result (λ s. spec_view s ≡ spec_view spec.now) }
{
    let name = spec.name.copy(alloc)?;
    let params = copy_params(alloc, &spec.params)?;
    let logicals = copy_params(alloc, &spec.logicals)?;
    let pre = copy_assertion(alloc, &spec.pre)?;
    let posts = copy_assertions(alloc, &spec.posts)?;
    let errors = copy_assertions(alloc, &spec.errors)?;
    Ok(Spec {
        name,
        params,
        logicals,
        pre,
        posts,
        errors,
    })
}

/// An equal list of specifications.
pub fn copy_specs(alloc: Global, specs: &Specs) -> Result<Specs, AllocError>
    ensures { IfOk result (λ list. map spec_view list ≡ map spec_view specs.now) }
{
    let specs = specs.as_slice();
    let mut list = Specs::new(alloc);
    for spec in specs {
        list.push(copy_spec(alloc, spec)?)?;
    }
    Ok(list)
}

fn copy_pred(alloc: Global, pred: &PredDef) -> Result<PredDef, AllocError>
    ensures { IfOk result (λ d. pred_def_view d ≡ pred_def_view pred.now) }
{
    let name = pred.name.copy(alloc)?;
    let ins = copy_params(alloc, &pred.ins)?;
    let outs = copy_params(alloc, &pred.outs)?;
    let logicals = copy_params(alloc, &pred.logicals)?;
    let cases = copy_assertions(alloc, &pred.cases)?;
    Ok(PredDef {
        name,
        ins,
        outs,
        logicals,
        cases,
    })
}

/// An equal list of predicates.
pub fn copy_preds(alloc: Global, preds: &PredDefs) -> Result<PredDefs, AllocError>
    ensures { IfOk result (λ list. map pred_def_view list ≡ map pred_def_view preds.now) }
{
    let preds = preds.as_slice();
    let mut list = PredDefs::new(alloc);
    for pred in preds {
        list.push(copy_pred(alloc, pred)?)?;
    }
    Ok(list)
}
