//! Reading the items of an assertion from left to right.
ghost use Rattle.std.specs.Prelude.{◌≡◌, [], map};
ghost use Rattle.std.specs.List.{list_all};
ghost use Rattle.gil_syntax.specs.Valid.{param_names};
ghost use Rattle.gil_syntax.specs.View.{expr_view, exprs_view, pred_use_view, item_view, assertion_view};
ghost use Rattle.assert_logic.specs.Modes as modes;
ghost use Rattle.assert_logic.specs.ModesView.{scope_view, known_here};

use crate::checking::ModeKind;
use crate::names::{NameTest, all_names, all_names_among, stands_in_expressions, stands_in_items};
use crate::scopes::Scope;
use gil_syntax::{Assertion, Expr, Exprs, Item, Param, PredUse};
use gil_values::{BinOp, Text};
use mem_model::{Core, MemoryName};

/// What is known at an item, or at one of its outs.
#[derive(Clone, Copy)]
pub(crate) struct Here<'a> {
    scope: Scope<'a>,
    items: &'a [Item],
    outs: &'a [Expr],
}

impl<'a> NameTest for Here<'a> {
    ghost accepts = { known_here };

    fn accepts_name(&self, name: &str) -> bool {
        stands_in_expressions(name, self.outs)
            || stands_in_items(name, self.items)
            || self.scope.knows(name)
    }
}

/// Whether it is a core predicate of another memory.
fn is_foreign(memory: MemoryName, name: &Text) -> bool
    ensures { result ≡ modes.is_foreign memory name.now }
{
    match Core::from_name(name) {
        Some(core) => !core.is_of(memory),
        None => false,
    }
}

/// Whether the expression is an equality that gives a name its value.
fn gives_value(here: &Here<'_>, expression: &Expr) -> bool
    ensures { result ≡ modes.gives_value (scope_view here.now.scope) (known_here here.now) (expr_view expression.now) }
{
    match expression {
        Expr::Op2(BinOp::Equal, left, right) => {
            here.scope.may_become_known(left) && all_names(here, right)
        }
        _ => false,
    }
}

/// Whether each out is known when it is reached, or becomes known.
fn outs_fit(scope: Scope<'_>, items: &[Item], outs: &Exprs) -> bool
    ensures { result ≡ modes.outs_fit (scope_view scope.entry)
        (modes.known_after (modes.known_at_first (scope_view scope.entry)) (map item_view items.now)) [] (exprs_view outs.now) }
{
    let outs = outs.as_slice();
    for (place, out) in outs.iter().enumerate() {
        let here = Here {
            scope,
            items,
            outs: &outs[..place],
        };
        if !all_names(&here, out) && !scope.may_become_known(out) {
            return false;
        }
    }
    true
}

/// The fault of a use of a predicate, the lowest kind that it has.
fn use_fault(
    memory: MemoryName,
    scope: Scope<'_>,
    items: &[Item],
    used: &PredUse,
) -> Option<ModeKind>
    ensures { result ≡ modes.use_fault memory (scope_view scope.entry)
        (modes.known_after (modes.known_at_first (scope_view scope.entry)) (map item_view items.now)) (pred_use_view used.now) }
{
    let here = Here {
        scope,
        items,
        outs: &[],
    };
    if !all_names_among(&here, &used.ins) {
        Some(ModeKind::In)
    } else if !outs_fit(scope, items, &used.outs) {
        Some(ModeKind::Out)
    } else if is_foreign(memory, &used.pred) {
        Some(ModeKind::Core)
    } else {
        None
    }
}

/// The fault of an item, after the items before it.
fn item_fault(
    memory: MemoryName,
    scope: Scope<'_>,
    before: &[Item],
    item: &Item,
) -> Option<ModeKind>
    ensures { result ≡ modes.item_fault memory (scope_view scope.entry)
        (modes.known_after (modes.known_at_first (scope_view scope.entry)) (map item_view before.now)) (item_view item.now) }
{
    match item {
        Item::Pure(expression) => {
            let here = Here {
                scope,
                items: before,
                outs: &[],
            };
            if all_names(&here, expression) || gives_value(&here, expression) {
                None
            } else {
                Some(ModeKind::In)
            }
        }
        Item::Uses(used) => use_fault(memory, scope, before, used),
    }
}

/// The first fault of an assertion.
pub(crate) fn assertion_fault(
    memory: MemoryName,
    scope: Scope<'_>,
    items: &Assertion,
) -> Option<ModeKind>
    ensures { result ≡ modes.assertion_fault memory (scope_view scope.entry) (assertion_view items.now) }
{
    let items = items.as_slice();
    for (place, item) in items.iter().enumerate() {
        let fault = item_fault(memory, scope, &items[..place], item);
        if fault.is_some() {
            return fault;
        }
    }
    None
}

/// Whether all these parameters are known after the items.
pub(crate) fn knows_params(scope: Scope<'_>, items: &[Item], params: &[Param]) -> bool
    ensures { result ≡ list_all (modes.known_after (modes.known_at_first (scope_view scope.entry)) (map item_view items.now))
        (param_names params.now) }
{
    for param in params {
        let here = Here {
            scope,
            items,
            outs: &[],
        };
        if !here.accepts_name(param.name.as_str()) {
            return false;
        }
    }
    true
}

/// The fault of a use in `fold` and `unfold`, where ins and outs are given.
pub(crate) fn given_fault(memory: MemoryName, scope: Scope<'_>, used: &PredUse) -> Option<ModeKind>
    ensures { result ≡ modes.given_fault memory (modes.known_at_first (scope_view scope.entry)) (pred_use_view used.now) }
{
    let here = Here {
        scope,
        items: &[],
        outs: &[],
    };
    if !all_names_among(&here, &used.ins) {
        Some(ModeKind::In)
    } else if !all_names_among(&here, &used.outs) {
        Some(ModeKind::Out)
    } else if is_foreign(memory, &used.pred) {
        Some(ModeKind::Core)
    } else {
        None
    }
}
