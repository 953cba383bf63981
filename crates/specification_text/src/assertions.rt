//! Assertions in braces.
ghost use Rattle.std.specs.Prelude.{◌≡◌, map, length};
ghost use Rattle.gil_syntax.specs.View.{assertion_view, item_view};
ghost use Rattle.value_text.specs.Reading.{Gives, many_at, with_front};
ghost use Rattle.specification_text.specs.Reading as spec;

use crate::items::{has_word, item_at};
use gil_syntax::{Assertion, Assertions, Item};
use std::alloc::Global;
use value_text::{ReadFault, behind, expect};

/// The assertion at the front, in braces.
pub(crate) fn block_at(alloc: Global, bytes: &[u8]) -> Result<(Assertion, &[u8]), ReadFault>
    ensures { Gives (λ x. (assertion_view x.0, x.1.now)) result (spec.block_at bytes.now) }
{
    if let Some(rest) = behind("{ emp ", bytes) {
        return nothing_at(alloc, rest);
    }
    let rest = expect("{ ", bytes)?;
    items_at(alloc, rest)
}

/// The end of an assertion without items.
#[tactic(auto, unfolding(crate::specs::Reading::nothing_at))]
fn nothing_at(alloc: Global, bytes: &[u8]) -> Result<(Assertion, &[u8]), ReadFault>
    ensures { Gives (λ x. (assertion_view x.0, x.1.now)) result (spec.nothing_at bytes.now) }
{
    let rest = expect("}", bytes)?;
    Ok((Assertion::new(alloc), rest))
}

/// The items up to the closing brace.
#[tactic(auto, unfolding(crate::specs::Reading::items_at))]
fn items_at(alloc: Global, bytes: &[u8]) -> Result<(Assertion, &[u8]), ReadFault>
    ensures { Gives (λ x. (assertion_view x.0, x.1.now)) result (spec.items_at bytes.now) }
{
    let (items, rest) = some_items_at(alloc, bytes)?;
    let rest = expect(" }", rest)?;
    Ok((items, rest))
}

/// The items at the front, with stars between them.
#[tactic(auto, unfolding(crate::specs::Reading::some_items_at))]
fn some_items_at(alloc: Global, bytes: &[u8]) -> Result<(Assertion, &[u8]), ReadFault>
    ensures { Gives (λ x. (assertion_view x.0, x.1.now)) result (spec.some_items_at bytes.now) }
{
    let mut items = Assertion::new(alloc);
    let (first, rest) = item_at(alloc, bytes)?;
    items.push(first)?;
    more_items(alloc, items, rest)
}

/// The items of the list, and those at the front that stand behind a star each.
fn more_items(
    alloc: Global,
    items: Assertion,
    bytes: &[u8],
) -> Result<(Assertion, &[u8]), ReadFault>
    ensures { Gives (λ x. (assertion_view x.0, x.1.now)) result
        (with_front (assertion_view items) (many_at spec.before_no_star spec.behind_star (length bytes.now) bytes.now)) }
{
    let mut items = items;
    let mut rest = bytes;
    // Each turn takes a star at least.
    let most = bytes.len();
    for _ in 0..most {
        if !has_word(" * ", rest) {
            return Ok((items, rest));
        }
        let (item, behind) = behind_star(alloc, rest)?;
        items.push(item)?;
        rest = behind;
    }
    Ok((items, rest))
}

/// The item behind the star at the front.
fn behind_star(alloc: Global, bytes: &[u8]) -> Result<(Item, &[u8]), ReadFault>
    ensures { Gives (λ x. (item_view x.0, x.1.now)) result (spec.behind_star bytes.now) }
{
    let rest = expect(" * ", bytes)?;
    item_at(alloc, rest)
}

/// The postconditions at the front, each behind a blank.
pub(crate) fn posts_at(alloc: Global, bytes: &[u8]) -> Result<(Assertions, &[u8]), ReadFault>
    ensures { Gives (λ x. (map assertion_view x.0, x.1.now)) result (spec.posts_at bytes.now) }
{
    let mut posts = Assertions::new(alloc);
    let mut rest = bytes;
    // Each turn takes a blank at least.
    let most = bytes.len();
    for _ in 0..most {
        if !has_word(" {", rest) {
            return Ok((posts, rest));
        }
        let (post, behind) = post_at(alloc, rest)?;
        posts.push(post)?;
        rest = behind;
    }
    Ok((posts, rest))
}

/// The postcondition behind the blank at the front.
fn post_at(alloc: Global, bytes: &[u8]) -> Result<(Assertion, &[u8]), ReadFault>
    ensures { Gives (λ x. (assertion_view x.0, x.1.now)) result (spec.post_at bytes.now) }
{
    let rest = expect(" ", bytes)?;
    block_at(alloc, rest)
}

/// The error postconditions at the front.
pub(crate) fn errors_at(alloc: Global, bytes: &[u8]) -> Result<(Assertions, &[u8]), ReadFault>
    ensures { Gives (λ x. (map assertion_view x.0, x.1.now)) result (spec.errors_at bytes.now) }
{
    let mut errors = Assertions::new(alloc);
    let mut rest = bytes;
    // Each turn takes a word at least.
    let most = bytes.len();
    for _ in 0..most {
        if !has_word(" throw ", rest) {
            return Ok((errors, rest));
        }
        let (error, behind) = error_at(alloc, rest)?;
        errors.push(error)?;
        rest = behind;
    }
    Ok((errors, rest))
}

/// The error postcondition behind the word at the front.
fn error_at(alloc: Global, bytes: &[u8]) -> Result<(Assertion, &[u8]), ReadFault>
    ensures { Gives (λ x. (assertion_view x.0, x.1.now)) result (spec.error_at bytes.now) }
{
    let rest = expect(" throw ", bytes)?;
    block_at(alloc, rest)
}
