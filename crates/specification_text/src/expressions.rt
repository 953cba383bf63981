//! Lists of expressions.
ghost use Rattle.std.specs.Prelude.{◌≡◌, length};
ghost use Rattle.gil_syntax.specs.View.{expr_view, exprs_view};
ghost use Rattle.value_text.specs.Reading.{Gives, many_at, with_front, before_no_comma, behind_comma};
ghost use Rattle.expression_text.specs.Reading.{any_expression_at};
ghost use Rattle.specification_text.specs.Reading as spec;

use expression_text::expression_at;
use gil_syntax::{Expr, Exprs};
use std::alloc::Global;
use value_text::{ReadFault, begins_with, ends_elements, expect};

/// The expressions up to this byte, with commas between them.
pub(crate) fn expressions_until(
    alloc: Global,
    stop: u8,
    bytes: &[u8],
) -> Result<(Exprs, &[u8]), ReadFault>
    ensures { Gives (λ x. (exprs_view x.0, x.1.now)) result (spec.elements_until stop any_expression_at bytes.now) }
{
    let mut items = Exprs::new(alloc);
    if begins_with(stop, bytes) {
        return Ok((items, bytes));
    }
    let (first, rest) = expression_at(alloc, bytes)?;
    items.push(first)?;
    more_expressions(alloc, items, rest)
}

/// The expressions of the list, and those at the front that stand behind a comma each.
fn more_expressions(alloc: Global, items: Exprs, bytes: &[u8]) -> Result<(Exprs, &[u8]), ReadFault>
    ensures { Gives (λ x. (exprs_view x.0, x.1.now)) result
        (with_front (exprs_view items) (many_at before_no_comma (behind_comma any_expression_at) (length bytes.now) bytes.now)) }
{
    let mut items = items;
    let mut rest = bytes;
    // Each turn takes a comma at least.
    let most = bytes.len();
    for _ in 0..most {
        if ends_elements(rest) {
            return Ok((items, rest));
        }
        let (item, behind) = next_at(alloc, rest)?;
        items.push(item)?;
        rest = behind;
    }
    Ok((items, rest))
}

/// The expression behind the comma at the front.
fn next_at(alloc: Global, bytes: &[u8]) -> Result<(Expr, &[u8]), ReadFault>
    ensures { Gives (λ x. (expr_view x.0, x.1.now)) result (behind_comma any_expression_at bytes.now) }
{
    let rest = expect(", ", bytes)?;
    expression_at(alloc, rest)
}
