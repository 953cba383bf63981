//! The names that stand in assertions.
ghost use Rattle.std.specs.Prelude.{◌≡◌, ◌∷◌, ◌++◌, [], ℕ, List, IfOk};
ghost use Rattle.std.specs.List.{flat_map};
ghost use Rattle.gil_syntax.specs.Subexpressions.{names_of};
ghost use Rattle.gil_syntax.specs.Valid.{is_among};
ghost use Rattle.gil_syntax.specs.View.{expr_view, exprs_view, item_view, assertion_view};
ghost use Rattle.assert_logic.specs.Names.{named_by_items};
ghost use Rattle.sym_states.specs.Standing.{names_of_item};

use gil_syntax::{Assertion, Expr, Exprs, Item, Texts};
use gil_values::Text;
use sequence::Sequence;
use std::alloc::{AllocError, Global};

/// Adds a name at the end.
fn add_name(alloc: Global, names: Texts, name: &Text) -> Result<Texts, AllocError>
    ensures { IfOk result (λ r. r ≡ names ++ name.now ∷ []) }
{
    let mut names = names;
    names.push(name.copy(alloc)?)?;
    Ok(names)
}

/// Adds the names of an expression at the end.
#[cycle(adding_names)]
fn add_names(alloc: Global, names: Texts, expression: &Expr) -> Result<Texts, AllocError>
    ensures { IfOk result (λ r. r ≡ names ++ names_of (expr_view expression.now)) }
{
    match expression {
        Expr::Lit(_) => Ok(names),
        Expr::Name(name) | Expr::Logical(name) => add_name(alloc, names, name),
        Expr::List(elements) => add_all_names(alloc, names, elements),
        Expr::Op1(_, operand) => add_names(alloc, names, operand),
        Expr::Op2(_, left, right) => {
            let names = add_names(alloc, names, left)?;
            add_names(alloc, names, right)
        }
    }
}

/// Adds the names of all expressions of a list at the end.
#[cycle(adding_names)]
fn add_all_names(alloc: Global, names: Texts, expressions: &Exprs) -> Result<Texts, AllocError>
    ensures { IfOk result (λ r. r ≡ names ++ flat_map names_of (exprs_view expressions.now)) }
{
    let mut names = names;
    for expression in expressions.as_slice() {
        names = add_names(alloc, names, expression)?;
    }
    Ok(names)
}

/// Adds the names of an item at the end.
fn add_names_of_item(alloc: Global, names: Texts, item: &Item) -> Result<Texts, AllocError>
    ensures { IfOk result (λ r. r ≡ names ++ names_of_item (item_view item.now)) }
{
    match item {
        Item::Pure(expression) => add_names(alloc, names, expression),
        Item::Uses(used) => {
            let names = add_all_names(alloc, names, &used.ins)?;
            add_all_names(alloc, names, &used.outs)
        }
    }
}

/// The names that stand in the items of an assertion.
pub fn names_in(alloc: Global, items: &Assertion) -> Result<Texts, AllocError>
    ensures { IfOk result (λ names. (x : List ℕ) → is_among names x ≡ named_by_items (assertion_view items.now) x) }
{
    let mut names = Sequence::new(alloc);
    for item in items.as_slice() {
        names = add_names_of_item(alloc, names, item)?;
    }
    Ok(names)
}
