//! Statements that one command stands for.
ghost use Rattle.std.specs.Prelude.{◌≡◌, [], ◌∷◌, IfOk, None, codes};
ghost use Rattle.gil_values.specs.Characters.{IsText};
ghost use Rattle.gil_values.specs.Pure.{procedure};
ghost use Rattle.gil_syntax.specs.Pure.{literal, name, assign, call, act, usym, isym, return, fail};
ghost use Rattle.gil_syntax.specs.View.{expr_view, exprs_view};
ghost use Rattle.source_language.specs.Code.{code_view};
ghost use Rattle.source_language.specs.Names.{temporary as pure_temporary};
ghost use Rattle.source_language.specs.Procedures.{placed};
ghost use Rattle.while_compiler.specs.Compiled.{property};

use gil_syntax::{Body, Command, Expr, Exprs};
use gil_values::{Kind, Text};
use source_language::{one, procedure_literal, temporary, text, text_literal, variable};
use std::alloc::{AllocError, Global};
use syntax_copy::{copy_of_expression, copy_of_expressions};

/// `x = e`
pub(crate) fn assign_code(
    alloc: Global,
    at: u32,
    target: &Text,
    value: &Expr,
) -> Result<Body, AllocError>
    ensures { IfOk result (λ code. code_view code ≡ placed at (assign target.now (expr_view value.now)) ∷ []) }
{
    let value = copy_of_expression(alloc, value)?;
    one(alloc, at, Command::Assign(target.copy(alloc)?, value))
}

/// `x = input s`
pub(crate) fn input_code(
    alloc: Global,
    at: u32,
    target: &Text,
    kind: Kind,
) -> Result<Body, AllocError>
    ensures { IfOk result (λ code. code_view code ≡ placed at (isym target.now kind) ∷ []) }
{
    one(alloc, at, Command::Isym(target.copy(alloc)?, kind))
}

/// `x = symbol`
pub(crate) fn symbol_code(alloc: Global, at: u32, target: &Text) -> Result<Body, AllocError>
    ensures { IfOk result (λ code. code_view code ≡ placed at (usym target.now) ∷ []) }
{
    one(alloc, at, Command::Usym(target.copy(alloc)?))
}

/// `x = f(e, ..)`
pub(crate) fn call_code(
    alloc: Global,
    at: u32,
    target: &Text,
    function: &Text,
    arguments: &Exprs,
) -> Result<Body, AllocError>
    ensures { IfOk result
        (λ code. code_view code ≡ placed at (call target.now (literal (procedure function.now)) (exprs_view arguments.now) None) ∷ []) }
{
    let callee = procedure_literal(alloc, function)?;
    let arguments = copy_of_expressions(alloc, arguments)?;
    one(
        alloc,
        at,
        Command::Call(target.copy(alloc)?, callee, arguments, None),
    )
}

/// An action of the memory, whose value a variable gets.
fn act_code(
    alloc: Global,
    at: u32,
    target: Text,
    action: &str,
    arguments: Exprs,
) -> Result<Body, AllocError>
    requires { IsText action.now }
    ensures { IfOk result (λ code. code_view code ≡ placed at (act target action.now (exprs_view arguments)) ∷ []) }
{
    let action = text(alloc, action)?;
    one(alloc, at, Command::Act(target, action, arguments))
}

/// The arguments that name a field of a record.
fn place_arguments(alloc: Global, record: &Text, field: &Text) -> Result<Exprs, AllocError>
    ensures { IfOk result (λ es. exprs_view es ≡ name «record».now ∷ property field.now ∷ []) }
{
    let mut arguments = Exprs::new(alloc);
    arguments.push(variable(alloc, record)?)?;
    arguments.push(text_literal(alloc, field)?)?;
    Ok(arguments)
}

/// `x = y.p`
pub(crate) fn lookup_code(
    alloc: Global,
    at: u32,
    target: &Text,
    record: &Text,
    field: &Text,
) -> Result<Body, AllocError>
    ensures { IfOk result
        (λ code. code_view code ≡ placed at (act target.now (codes "lookup") (name «record».now ∷ property field.now ∷ [])) ∷ []) }
{
    let arguments = place_arguments(alloc, record, field)?;
    act_code(alloc, at, target.copy(alloc)?, "lookup", arguments)
}

/// `y.p = e`
pub(crate) fn mutate_code(
    alloc: Global,
    at: u32,
    record: &Text,
    field: &Text,
    value: &Expr,
) -> Result<Body, AllocError>
    ensures { IfOk result
        (λ code. code_view code
        ≡ placed at (act (pure_temporary 0) (codes "mutate") (name «record».now ∷ property field.now ∷ expr_view value.now ∷ [])) ∷ []) }
{
    let mut arguments = place_arguments(alloc, record, field)?;
    arguments.push(copy_of_expression(alloc, value)?)?;
    act_code(alloc, at, temporary(alloc, 0)?, "mutate", arguments)
}

/// `dispose e`
pub(crate) fn dispose_code(alloc: Global, at: u32, record: &Expr) -> Result<Body, AllocError>
    ensures { IfOk result
        (λ code. code_view code ≡ placed at (act (pure_temporary 0) (codes "dispose") (expr_view «record».now ∷ [])) ∷ []) }
{
    let mut arguments = Exprs::new(alloc);
    arguments.push(copy_of_expression(alloc, record)?)?;
    act_code(alloc, at, temporary(alloc, 0)?, "dispose", arguments)
}

/// `return e`
pub(crate) fn return_code(alloc: Global, at: u32, value: &Expr) -> Result<Body, AllocError>
    ensures { IfOk result (λ code. code_view code ≡ placed at (return (expr_view value.now)) ∷ []) }
{
    one(
        alloc,
        at,
        Command::Return(copy_of_expression(alloc, value)?),
    )
}

/// `fail e`
pub(crate) fn fail_code(alloc: Global, at: u32, value: &Expr) -> Result<Body, AllocError>
    ensures { IfOk result (λ code. code_view code ≡ placed at (fail (expr_view value.now)) ∷ []) }
{
    one(alloc, at, Command::Fail(copy_of_expression(alloc, value)?))
}
