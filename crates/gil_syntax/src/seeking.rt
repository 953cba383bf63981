//! Whether something stands in an expression, an assertion or a command: a node of an expression or a use of a predicate.
ghost use Rattle.std.specs.Prelude.{◌≡◌, Bool, [], ◌∷◌, map};
ghost use Rattle.std.specs.List.{list_any};
ghost use Rattle.gil_syntax.specs.Pure.{PureExpr, PurePredUse};
ghost use Rattle.gil_syntax.specs.View.{expr_view, exprs_view, pred_use_view, item_view, assertion_view, command_view, numbered_command_view, spec_view};
ghost use Rattle.gil_syntax.specs.Subexpressions.{exprs_of_use, exprs_of_item, uses_of_item, exprs_of, uses_of, assertions_of};
ghost use Rattle.gil_syntax.specs.Found.{stands_in, stands_among, stands_in_assertion, stands_in_command};

use crate::{Assertion, Assertions, Body, Command, Expr, Exprs, Item, PredUse, Spec};

/// What is sought.
pub(crate) trait Sought {
    // what has to hold before it can test
    ghost is_ready: { Self → Type 0 };

    ghost is_node: { Self → PureExpr → Bool };

    ghost is_use: { Self → PurePredUse → Bool };

    /// Whether this very expression is sought, whatever stands in it.
    fn tests_node(&self, expression: &Expr) -> bool
        requires { is_ready self.now }
        ensures { result ≡ is_node self.now (expr_view expression.now) };

    /// Whether this use of a predicate is sought.
    fn tests_use(&self, used: &PredUse) -> bool
        requires { is_ready self.now }
        ensures { result ≡ is_use self.now (pred_use_view used.now) };
}

/// Whether such a node stands in the expression.
#[cycle(seeking)]
pub(crate) fn in_expression<S: Sought>(sought: &S, expression: &Expr) -> bool
    requires { S.is_ready sought.now }
    ensures { result ≡ stands_in (S.is_node sought.now) (expr_view expression.now) }
{
    if sought.tests_node(expression) {
        return true;
    }
    match expression {
        Expr::List(elements) => in_expressions(sought, elements),
        Expr::Op1(_, operand) => in_expression(sought, operand),
        Expr::Op2(_, left, right) => { in_expression(sought, left) || in_expression(sought, right) }
        _ => false,
    }
}

/// Whether such a node stands in one of the expressions.
#[cycle(seeking)]
pub(crate) fn in_expressions<S: Sought>(sought: &S, expressions: &Exprs) -> bool
    requires { S.is_ready sought.now }
    ensures { result ≡ list_any (stands_in (S.is_node sought.now)) (exprs_view expressions.now) }
{
    for expression in expressions.as_slice() {
        if in_expression(sought, expression) {
            return true;
        }
    }
    false
}

/// Whether what is sought stands in a use of a predicate, or is that use.
fn in_use<S: Sought>(sought: &S, used: &PredUse) -> bool
    requires { S.is_ready sought.now }
    ensures { result ≡ stands_among (S.is_node sought.now) (S.is_use sought.now) (exprs_of_use (pred_use_view used.now))
        (pred_use_view used.now ∷ []) }
{
    sought.tests_use(used)
        || in_expressions(sought, &used.ins)
        || in_expressions(sought, &used.outs)
}

/// Whether it stands in an item.
fn in_item<S: Sought>(sought: &S, item: &Item) -> bool
    requires { S.is_ready sought.now }
    ensures { result ≡ stands_among (S.is_node sought.now) (S.is_use sought.now) (exprs_of_item (item_view item.now))
        (uses_of_item (item_view item.now)) }
{
    match item {
        Item::Pure(expression) => in_expression(sought, expression),
        Item::Uses(used) => in_use(sought, used),
    }
}

/// Whether it stands in an assertion.
pub(crate) fn in_assertion<S: Sought>(sought: &S, items: &Assertion) -> bool
    requires { S.is_ready sought.now }
    ensures { result ≡ stands_in_assertion (S.is_node sought.now) (S.is_use sought.now) (assertion_view items.now) }
{
    for item in items.as_slice() {
        if in_item(sought, item) {
            return true;
        }
    }
    false
}

/// Whether it stands in a command.
pub(crate) fn in_command<S: Sought>(sought: &S, command: &Command) -> bool
    requires { S.is_ready sought.now }
    ensures { result ≡ stands_among (S.is_node sought.now) (S.is_use sought.now) (exprs_of (command_view command.now))
        (uses_of (command_view command.now)) }
{
    match command {
        Command::Assign(_, value) => in_expression(sought, value),
        Command::Call(_, callee, arguments, _) => {
            in_expression(sought, callee) || in_expressions(sought, arguments)
        }
        Command::Act(_, _, arguments) => in_expressions(sought, arguments),
        Command::Usym(_) | Command::Isym(_, _) | Command::Vanish => false,
        Command::IfGoto(guard, _) => in_expression(sought, guard),
        Command::Return(value) | Command::Fail(value) | Command::Throw(value) => {
            in_expression(sought, value)
        }
        Command::Fold(used) | Command::Unfold(used) => in_use(sought, used),
        Command::AssertThat(items) | Command::LoopInvariant(_, _, items) => in_assertion(
            sought, items,
        ),
    }
}

/// Whether it stands in one of the assertions.
pub(crate) fn in_assertions<S: Sought>(sought: &S, assertions: &Assertions) -> bool
    requires { S.is_ready sought.now }
    ensures { result ≡ list_any (stands_in_assertion (S.is_node sought.now) (S.is_use sought.now)) (map assertion_view assertions.now) }
{
    for items in assertions.as_slice() {
        if in_assertion(sought, items) {
            return true;
        }
    }
    false
}

/// Whether it stands in the precondition, in a postcondition or in an error postcondition.
pub(crate) fn in_spec<S: Sought>(sought: &S, spec: &Spec) -> bool
    requires { S.is_ready sought.now }
    ensures { result ≡ list_any (stands_in_assertion (S.is_node sought.now) (S.is_use sought.now)) (assertions_of (spec_view spec.now)) }
{
    in_assertion(sought, &spec.pre)
        || in_assertions(sought, &spec.posts)
        || in_assertions(sought, &spec.errors)
}

/// Whether it stands in one of the commands.
pub(crate) fn in_body<S: Sought>(sought: &S, body: &Body) -> bool
    requires { S.is_ready sought.now }
    ensures { result ≡ list_any (stands_in_command (S.is_node sought.now) (S.is_use sought.now)) (map numbered_command_view body.now) }
{
    for numbered in body.as_slice() {
        if in_command(sought, &numbered.command) {
            return true;
        }
    }
    false
}
