//! Parameters and assertions.
ghost use Rattle.std.specs.Prelude.{◌≡◌, ◌++◌, map, codes, string_bytes, OnOk};
ghost use Rattle.std.specs.List.{flat_map, join_by};
ghost use Rattle.gil_syntax.specs.View.{exprs_view, pred_use_view, item_view, assertion_view};
ghost use Rattle.syntax_print.specs.Expressions.{printed_exprs};
ghost use Rattle.syntax_print.specs.Assertions.{
  printed_sort,
  printed_param,
  printed_params,
  printed_variables,
  behind_semicolon,
  printed_use,
  printed_item,
  printed_assertion,
  printed_block,
  printed_posts,
  printed_blocks,
};

use crate::expressions::{push_expr, push_exprs};
use gil_syntax::{Assertion, Assertions, Exprs, Item, Param, Params, PredUse, SpecSort};
use gil_values::push_separator;
use std::alloc::AllocError;

/// What stands behind a name of this sort.
fn printed_sort(sort: SpecSort) -> &'static str
    ensures { result.now ≡ printed_sort sort }
{
    match sort {
        SpecSort::Int => ": int",
        SpecSort::Bool => ": bool",
        SpecSort::Str => ": str",
        SpecSort::Sym => ": sym",
        SpecSort::List => ": list",
        SpecSort::Any => "",
    }
}

/// Adds a parameter or a logical variable, with its sort unless that is any.
pub fn push_param(out: &mut String, param: &Param) -> Result<(), AllocError>
    ensures { OnOk result (string_bytes out.new ≡ string_bytes out.old ++ printed_param param.now) }
{
    out.push_str(param.name.as_str())?;
    out.push_str(printed_sort(param.sort))
}

/// Adds parameters, with commas between them.
pub fn push_params(out: &mut String, params: &Params) -> Result<(), AllocError>
    ensures { OnOk result (string_bytes out.new ≡ string_bytes out.old ++ printed_params params.now) }
{
    for (index, param) in params.as_slice().iter().enumerate() {
        push_separator(out, ", ", index)?;
        push_param(out, param)?;
    }
    Ok(())
}

/// Adds the parameters behind a semicolon.
pub(crate) fn push_later_params(out: &mut String, params: &Params) -> Result<(), AllocError>
    ensures { OnOk result (string_bytes out.new ≡ string_bytes out.old ++ behind_semicolon printed_params params.now) }
{
    if params.len() > 0 {
        out.push_str(" ")?;
    }
    push_params(out, params)
}

/// Adds logical variables in their brackets.
pub fn push_variables(out: &mut String, variables: &Params) -> Result<(), AllocError>
    ensures { OnOk result (string_bytes out.new ≡ string_bytes out.old ++ printed_variables variables.now) }
{
    out.push_str("[")?;
    push_params(out, variables)?;
    out.push_str("]")
}

/// Adds the expressions behind a semicolon.
fn push_later_exprs(out: &mut String, expressions: &Exprs) -> Result<(), AllocError>
    ensures { OnOk result (string_bytes out.new ≡ string_bytes out.old ++ behind_semicolon printed_exprs (exprs_view expressions.now)) }
{
    if expressions.len() > 0 {
        out.push_str(" ")?;
    }
    push_exprs(out, expressions)
}

/// Adds a use of a predicate.
pub fn push_use(out: &mut String, used: &PredUse) -> Result<(), AllocError>
    ensures { OnOk result (string_bytes out.new ≡ string_bytes out.old ++ printed_use (pred_use_view used.now)) }
{
    out.push_str(used.pred.as_str())?;
    out.push_str("(")?;
    push_exprs(out, &used.ins)?;
    out.push_str(";")?;
    push_later_exprs(out, &used.outs)?;
    out.push_str(")")
}

/// Adds an item of an assertion.
pub fn push_item(out: &mut String, item: &Item) -> Result<(), AllocError>
    ensures { OnOk result (string_bytes out.new ≡ string_bytes out.old ++ printed_item (item_view item.now)) }
{
    match item {
        Item::Pure(expression) => push_expr(out, expression),
        Item::Uses(used) => push_use(out, used),
    }
}

/// Adds items, with stars between them.
fn push_items(out: &mut String, items: &[Item]) -> Result<(), AllocError>
    ensures { OnOk result (string_bytes out.new ≡ string_bytes out.old ++ join_by printed_item (codes " * ") (map item_view items.now)) }
{
    for (index, item) in items.iter().enumerate() {
        push_separator(out, " * ", index)?;
        push_item(out, item)?;
    }
    Ok(())
}

/// Adds an assertion.
pub fn push_assertion(out: &mut String, assertion: &Assertion) -> Result<(), AllocError>
    ensures { OnOk result (string_bytes out.new ≡ string_bytes out.old ++ printed_assertion (assertion_view assertion.now)) }
{
    if assertion.len() == 0 {
        out.push_str("emp")
    } else {
        push_items(out, assertion.as_slice())
    }
}

/// Adds an assertion in braces.
pub fn push_block(out: &mut String, assertion: &Assertion) -> Result<(), AllocError>
    ensures { OnOk result (string_bytes out.new ≡ string_bytes out.old ++ printed_block (assertion_view assertion.now)) }
{
    out.push_str("{ ")?;
    push_assertion(out, assertion)?;
    out.push_str(" }")
}

/// Adds assertions in braces, with blanks between them.
pub(crate) fn push_blocks(out: &mut String, assertions: &Assertions) -> Result<(), AllocError>
    ensures { OnOk result (string_bytes out.new ≡ string_bytes out.old ++ printed_blocks (map assertion_view assertions.now)) }
{
    for (index, assertion) in assertions.as_slice().iter().enumerate() {
        push_separator(out, " ", index)?;
        push_block(out, assertion)?;
    }
    Ok(())
}

/// Adds assertions in braces, each behind these characters.
fn push_each(out: &mut String, before: &str, assertions: &Assertions) -> Result<(), AllocError>
    ensures { OnOk result (string_bytes out.new ≡ string_bytes out.old
        ++ flat_map (λ items. before.now ++ printed_block items) (map assertion_view assertions.now)) }
{
    for assertion in assertions.as_slice() {
        out.push_str(before)?;
        push_block(out, assertion)?;
    }
    Ok(())
}

/// Adds postconditions and error postconditions, each behind a blank.
pub(crate) fn push_posts(
    out: &mut String,
    posts: &Assertions,
    errors: &Assertions,
) -> Result<(), AllocError>
    ensures { OnOk result (string_bytes out.new ≡ string_bytes out.old
        ++ printed_posts (map assertion_view posts.now) (map assertion_view errors.now)) }
{
    push_each(out, " ", posts)?;
    push_each(out, " throw ", errors)
}
