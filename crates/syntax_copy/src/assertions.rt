//! Copies of assertions and of their parts.
ghost use Rattle.std.specs.Prelude.{◌≡◌, IfOk, map};
ghost use Rattle.gil_syntax.specs.View.{item_view, pred_use_view, assertion_view};

use crate::expressions::{copy_of_expression, copy_of_expressions};
use gil_syntax::{Assertion, Assertions, Item, Param, Params, PredUse};
use std::alloc::{AllocError, Global};

/// An equal list of parameters or logical variables.
pub fn copy_params(alloc: Global, params: &Params) -> Result<Params, AllocError>
    ensures { IfOk result (λ list. list ≡ params.now) }
{
    let params = params.as_slice();
    let mut list = Params::new(alloc);
    for param in params {
        let name = param.name.copy(alloc)?;
        list.push(Param {
            name,
            sort: param.sort,
        })?;
    }
    Ok(list)
}

/// An equal use of a predicate.
pub fn copy_use(alloc: Global, used: &PredUse) -> Result<PredUse, AllocError>
    ensures { IfOk result (λ u. pred_use_view u ≡ pred_use_view used.now) }
{
    let pred = used.pred.copy(alloc)?;
    let ins = copy_of_expressions(alloc, &used.ins)?;
    let outs = copy_of_expressions(alloc, &used.outs)?;
    Ok(PredUse { pred, ins, outs })
}

fn copy_item(alloc: Global, item: &Item) -> Result<Item, AllocError>
    ensures { IfOk result (λ i. item_view i ≡ item_view item.now) }
{
    match item {
        Item::Pure(expression) => Ok(Item::Pure(copy_of_expression(alloc, expression)?)),
        Item::Uses(used) => Ok(Item::Uses(copy_use(alloc, used)?)),
    }
}

/// An equal assertion.
pub fn copy_assertion(alloc: Global, assertion: &Assertion) -> Result<Assertion, AllocError>
    ensures { IfOk result (λ a. assertion_view a ≡ assertion_view assertion.now) }
{
    let items = assertion.as_slice();
    let mut list = Assertion::new(alloc);
    for item in items {
        list.push(copy_item(alloc, item)?)?;
    }
    Ok(list)
}

pub(crate) fn copy_assertions(
    alloc: Global,
    assertions: &Assertions,
) -> Result<Assertions, AllocError>
    ensures { IfOk result (λ list. map assertion_view list ≡ map assertion_view assertions.now) }
{
    let assertions = assertions.as_slice();
    let mut list = Assertions::new(alloc);
    for assertion in assertions {
        list.push(copy_assertion(alloc, assertion)?)?;
    }
    Ok(list)
}
