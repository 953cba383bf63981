//! Which names of a function are functions of the program.
ghost use Rattle.std.specs.Prelude.{◌≡◌, ◌||◌, map};
ghost use Rattle.std.specs.List.{list_any};
ghost use Rattle.std.specs.Str.{bytes_eq};
ghost use Rattle.object_lang.specs.Resolved as resolved;
ghost use Rattle.object_lang.specs.View.{block_view, function_view, simple_view, statement_view};

use crate::tree::{Block, Function, SimpleStatement, Statement};
use gil_syntax::Texts;
use gil_values::Text;

/// Whether two names are the same.
fn are_same(name: &Text, other: &Text) -> bool
    ensures { result ≡ bytes_eq name.now other.now }
{
    name == other
}

/// Whether one of two holds.
fn either(first: bool, second: bool) -> bool
    ensures { result ≡ (first || second) }
{
    first || second
}

/// Whether a statement without statements in it assigns a variable.
fn is_target(name: &Text, simple: &SimpleStatement) -> bool
    ensures { result ≡ resolved.is_target name.now (simple_view simple.now) }
{
    match simple {
        SimpleStatement::Assign(target, _) => are_same(target, name),
        SimpleStatement::Input(target, _) => are_same(target, name),
        SimpleStatement::Create(target, _) => are_same(target, name),
        SimpleStatement::Proto(target, _) => are_same(target, name),
        SimpleStatement::Has(target, _, _) => are_same(target, name),
        SimpleStatement::Call(target, _, _) => are_same(target, name),
        SimpleStatement::Set(_, _, _) => false,
        SimpleStatement::Delete(_, _) => false,
        SimpleStatement::SetProto(_, _) => false,
        SimpleStatement::Fail(_) => false,
        SimpleStatement::Throw(_) => false,
    }
}

/// Whether a statement assigns a variable.
#[cycle(assigning)]
fn statement_assigns(name: &Text, statement: &Statement) -> bool
    ensures { result ≡ resolved.statement_assigns name.now (statement_view statement.now) }
{
    match statement {
        Statement::Simple(simple) => is_target(name, simple),
        Statement::Assert(_) => false,
        Statement::Assume(_) => false,
        Statement::If(_, body, other) => either(
            block_assigns(name, body),
            block_assigns(name, other),
        ),
        Statement::While(_, _, body) => block_assigns(name, body),
        Statement::Return(_) => false,
        Statement::Logic(_) => false,
        Statement::Try(body, target, handler) => {
            let inside = either(block_assigns(name, body), block_assigns(name, handler));
            either(are_same(target, name), inside)
        }
    }
}

/// Whether the statements of a block assign a variable.
#[cycle(assigning)]
fn block_assigns(name: &Text, block: &Block) -> bool
    ensures { result ≡ resolved.block_assigns name.now (block_view block.now) }
{
    let mut assigns = false;
    for placed in block.as_slice() {
        assigns = either(assigns, statement_assigns(name, &placed.statement));
    }
    assigns
}

/// Whether a name is a parameter.
fn is_parameter(params: &Texts, name: &Text) -> bool
    ensures { result ≡ list_any (λ y. bytes_eq y name.now) params.now }
{
    for parameter in params.as_slice() {
        if are_same(parameter, name) {
            return true;
        }
    }
    false
}

/// Whether one of the functions has a name.
fn is_function(functions: &[Function], name: &Text) -> bool
    ensures { result ≡ resolved.is_function (map function_view functions.now) name.now }
{
    for function in functions {
        if are_same(&function.name, name) {
            return true;
        }
    }
    false
}

/// Whether a name is a function of the program in one of its functions.
pub(crate) fn names_function(functions: &[Function], function: &Function, name: &Text) -> bool
    ensures { result ≡ resolved.names_function (map function_view functions.now) (function_view function.now) name.now }
{
    if !is_function(functions, name) {
        return false;
    }
    !either(
        is_parameter(&function.params, name),
        block_assigns(name, &function.body),
    )
}
