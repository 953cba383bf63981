//! The commands of statements without statements in them.
ghost use Rattle.std.specs.Prelude.{◌≡◌, ◌+◌, ◌++◌, [], ◌∷◌, map, pos, None, IfOk};
ghost use Rattle.gil_values.specs.Characters.{IsText};
ghost use Rattle.gil_syntax.specs.Pure.{act as pure_act};
ghost use Rattle.gil_syntax.specs.View.{expr_view, exprs_view};
ghost use Rattle.source_language.specs.Code.{code_view};
ghost use Rattle.source_language.specs.Names.{temporary as pure_temporary};
ghost use Rattle.source_language.specs.Procedures.{placed};
ghost use Rattle.object_lang.specs.Pure as pure;
ghost use Rattle.object_lang.specs.View.{expression_view, simple_view};
ghost use Rattle.object_compiler.specs.Compiled as compiled;

use crate::operands::{one_operand, three_operands, two_operands};
use gil_syntax::{Body, Command, Expr, Exprs};
use gil_values::Text;
use object_lang::{Expressions, SimpleStatement};
use object_operators::{Expression, ObjectOperators};
use source_language::{
    append, caught, code_len, jump, one, put, sum, temporary, text, truth, variable,
};
use source_operators::{Operands, operand_code, operand_uses, operands_code, operands_uses};
use std::alloc::{AllocError, Global};

/// An action behind its operands, whose value a variable gets.
fn act(
    alloc: Global,
    at: u32,
    target: Text,
    action: &str,
    operands: Operands,
) -> Result<Body, AllocError>
    requires { IsText action.now }
    ensures { IfOk result (λ code. code_view code
        ≡ code_view operands.code ++ placed at (pure_act target action.now (exprs_view operands.expressions)) ∷ []) }
{
    let action = text(alloc, action)?;
    let mut code = operands.code;
    put(
        &mut code,
        at,
        Command::Act(target, action, operands.expressions),
    )?;
    Ok(code)
}

/// An action behind its operands, whose value the first temporary that is free gets.
fn change(alloc: Global, at: u32, action: &str, operands: Operands) -> Result<Body, AllocError>
    requires { IsText action.now }
    ensures { IfOk result (λ code. code_view code
        ≡ code_view operands.code ++ placed at (pure_act (pure_temporary operands.next) action.now (exprs_view operands.expressions)) ∷ []) }
{
    let target = temporary(alloc, operands.next)?;
    act(alloc, at, target, action, operands)
}

/// A command behind the operand of an expression.
fn assign_code(
    alloc: Global,
    label: usize,
    at: u32,
    target: &Text,
    value: &Expression,
) -> Result<Body, AllocError>
    ensures { IfOk result (λ code. code_view code
        ≡ compiled.simple_code label at None (pure.assign target.now (expression_view value.now))) }
{
    let operand = operand_code(alloc, &ObjectOperators, value, label, at, 0)?;
    let mut code = operand.code;
    let target = target.copy(alloc)?;
    put(&mut code, at, Command::Assign(target, operand.expression))?;
    Ok(code)
}

/// A failure.
fn fail_code(alloc: Global, label: usize, at: u32, value: &Expression) -> Result<Body, AllocError>
    ensures { IfOk result (λ code. code_view code
        ≡ compiled.simple_code label at None (pure.fail (expression_view value.now))) }
{
    let operand = operand_code(alloc, &ObjectOperators, value, label, at, 0)?;
    let mut code = operand.code;
    put(&mut code, at, Command::Fail(operand.expression))?;
    Ok(code)
}

/// A throw of the value of an operand.
fn thrown_code(
    alloc: Global,
    handler: Option<usize>,
    at: u32,
    value: Expr,
) -> Result<Body, AllocError>
    ensures { IfOk result (λ code. code_view code ≡ compiled.throw_code handler at (expr_view value)) }
{
    match handler {
        None => one(alloc, at, Command::Throw(value)),
        Some(label) => {
            let mut code = one(alloc, at, Command::Assign(caught(alloc)?, value))?;
            jump(&mut code, at, truth(), label)?;
            Ok(code)
        }
    }
}

/// `throw e`
fn throw_code(
    alloc: Global,
    handler: Option<usize>,
    label: usize,
    at: u32,
    value: &Expression,
) -> Result<Body, AllocError>
    ensures { IfOk result (λ code. code_view code
        ≡ compiled.simple_code label at handler (pure.throw (expression_view value.now))) }
{
    let operand = operand_code(alloc, &ObjectOperators, value, label, at, 0)?;
    let mut code = operand.code;
    append(
        &mut code,
        thrown_code(alloc, handler, at, operand.expression)?,
    )?;
    Ok(code)
}

/// The label of a handler as that of a call. No body in memory is so long that it doesn't fit.
fn handler_label(label: usize) -> Result<i64, AllocError>
    ensures { IfOk result (λ n. n ≡ pos label) }
{
    if label > 9_223_372_036_854_775_807 {
        return Err(AllocError);
    }
    Ok(label as i64)
}

/// A call of a value.
fn called_code(
    alloc: Global,
    handler: Option<usize>,
    at: u32,
    target: &Text,
    callee: Expr,
    arguments: Exprs,
) -> Result<Body, AllocError>
    ensures { IfOk result (λ code. code_view code
        ≡ compiled.call_code handler at target.now (expr_view callee ∷ exprs_view arguments)) }
{
    let target = target.copy(alloc)?;
    match handler {
        None => one(alloc, at, Command::Call(target, callee, arguments, None)),
        Some(label) => {
            let label = handler_label(label)?;
            let call = Command::Call(caught(alloc)?, callee, arguments, Some(label));
            let mut code = one(alloc, at, call)?;
            let thrown = variable(alloc, &caught(alloc)?)?;
            put(&mut code, at, Command::Assign(target, thrown))?;
            Ok(code)
        }
    }
}

/// `x = a(e, ..)`
fn call_code(
    alloc: Global,
    handler: Option<usize>,
    label: usize,
    at: u32,
    target: &Text,
    callee: &Expression,
    arguments: &Expressions,
) -> Result<Body, AllocError>
    ensures { IfOk result (λ code. code_view code ≡ compiled.simple_code label at handler
        (pure.call target.now (expression_view callee.now) (map expression_view arguments.now))) }
{
    let callee = operand_code(alloc, &ObjectOperators, callee, label, at, 0)?;
    let behind = sum(label, code_len(&callee.code))?;
    let operands = operands_code(
        alloc,
        &ObjectOperators,
        arguments.as_slice(),
        behind,
        at,
        callee.next,
    )?;
    let call = called_code(
        alloc,
        handler,
        at,
        target,
        callee.expression,
        operands.expressions,
    )?;
    let mut code = callee.code;
    append(&mut code, operands.code)?;
    append(&mut code, call)?;
    Ok(code)
}

/// How many temporaries a statement uses.
pub(crate) fn simple_uses(simple: &SimpleStatement) -> Result<usize, AllocError>
    ensures { IfOk result (λ n. n ≡ compiled.simple_uses (simple_view simple.now)) }
{
    match simple {
        SimpleStatement::Assign(_, value) => operand_uses(&ObjectOperators, value),
        SimpleStatement::Input(_, _) => Ok(0),
        SimpleStatement::Create(_, value) => operand_uses(&ObjectOperators, value),
        SimpleStatement::Proto(_, value) => operand_uses(&ObjectOperators, value),
        SimpleStatement::Has(_, object, name) => two_uses(object, name),
        SimpleStatement::Call(_, callee, arguments) => {
            let callee = operand_uses(&ObjectOperators, callee)?;
            sum(
                callee,
                operands_uses(&ObjectOperators, arguments.as_slice())?,
            )
        }
        SimpleStatement::Set(object, name, value) => {
            let place = two_uses(object, name)?;
            sum(sum(place, operand_uses(&ObjectOperators, value)?)?, 1)
        }
        SimpleStatement::Delete(object, name) => sum(two_uses(object, name)?, 1),
        SimpleStatement::SetProto(object, prototype) => sum(two_uses(object, prototype)?, 1),
        SimpleStatement::Fail(value) => operand_uses(&ObjectOperators, value),
        SimpleStatement::Throw(value) => operand_uses(&ObjectOperators, value),
    }
}

/// How many temporaries two expressions use.
fn two_uses(first: &Expression, second: &Expression) -> Result<usize, AllocError>
    ensures { IfOk result (λ n. n ≡ compiled.expressions_uses (expression_view first.now ∷ expression_view second.now ∷ [])) }
{
    let first = operand_uses(&ObjectOperators, first)?;
    sum(first, operand_uses(&ObjectOperators, second)?)
}

/// Whether a statement is a call of the source or a throw.
pub(crate) fn may_throw(simple: &SimpleStatement) -> bool
    ensures { result ≡ compiled.may_throw (simple_view simple.now) }
{
    match simple {
        SimpleStatement::Assign(_, _) => false,
        SimpleStatement::Input(_, _) => false,
        SimpleStatement::Create(_, _) => false,
        SimpleStatement::Proto(_, _) => false,
        SimpleStatement::Has(_, _, _) => false,
        SimpleStatement::Call(_, _, _) => true,
        SimpleStatement::Set(_, _, _) => false,
        SimpleStatement::Delete(_, _) => false,
        SimpleStatement::SetProto(_, _) => false,
        SimpleStatement::Fail(_) => false,
        SimpleStatement::Throw(_) => true,
    }
}

/// The commands of a statement, at a label.
pub(crate) fn simple_code(
    alloc: Global,
    handler: Option<usize>,
    label: usize,
    at: u32,
    simple: &SimpleStatement,
) -> Result<Body, AllocError>
    ensures { IfOk result (λ code. code_view code ≡ compiled.simple_code label at handler (simple_view simple.now)) }
{
    match simple {
        SimpleStatement::Assign(target, value) => assign_code(alloc, label, at, target, value),
        SimpleStatement::Input(target, kind) => {
            one(alloc, at, Command::Isym(target.copy(alloc)?, *kind))
        }
        SimpleStatement::Create(target, prototype) => {
            let operands = one_operand(alloc, label, at, prototype)?;
            act(alloc, at, target.copy(alloc)?, "new", operands)
        }
        SimpleStatement::Proto(target, object) => {
            let operands = one_operand(alloc, label, at, object)?;
            act(alloc, at, target.copy(alloc)?, "getproto", operands)
        }
        SimpleStatement::Has(target, object, name) => {
            let operands = two_operands(alloc, label, at, object, name)?;
            act(alloc, at, target.copy(alloc)?, "has", operands)
        }
        SimpleStatement::Call(target, callee, arguments) => {
            call_code(alloc, handler, label, at, target, callee, arguments)
        }
        SimpleStatement::Set(object, name, value) => {
            let operands = three_operands(alloc, label, at, object, name, value)?;
            change(alloc, at, "set", operands)
        }
        SimpleStatement::Delete(object, name) => {
            let operands = two_operands(alloc, label, at, object, name)?;
            change(alloc, at, "delete", operands)
        }
        SimpleStatement::SetProto(object, prototype) => {
            let operands = two_operands(alloc, label, at, object, prototype)?;
            change(alloc, at, "setproto", operands)
        }
        SimpleStatement::Fail(value) => fail_code(alloc, label, at, value),
        SimpleStatement::Throw(value) => throw_code(alloc, handler, label, at, value),
    }
}
