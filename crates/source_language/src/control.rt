//! Choices and loops, assertions and assumptions of languages whose conditions are booleans.
ghost use Rattle.std.specs.Prelude.{◌≡◌, ◌+◌, [], ◌∷◌, length, IfOk};
ghost use Rattle.gil_syntax.specs.View.{expr_view};
ghost use Rattle.source_language.specs.Code.{code_view, jump as jump_to};
ghost use Rattle.source_language.specs.Compiled as compiled;

use crate::expressions::{text_value, truth};
use crate::pieces::{append, code_len, jump, put, sum};
use gil_syntax::{Body, Command, Expr};
use std::alloc::{AllocError, Global};
use syntax_copy::copy_of_expression;

/// Where a choice at a label goes on where its condition is true: behind a jump, the commands where it is false, and another jump.
pub fn then_label(label: usize, off: &Body) -> Result<usize, AllocError>
    ensures { IfOk result (λ n. n ≡ label + 1 + length (code_view off.now) + 1) }
{
    sum(sum(label, 1)?, sum(code_len(off), 1)?)
}

/// A choice at a label: the commands where the condition is false, and then those where it is true.
pub fn if_code(
    alloc: Global,
    label: usize,
    at: u32,
    condition: &Expr,
    off: Body,
    on: Body,
) -> Result<Body, AllocError>
    ensures { IfOk result
        (λ code. code_view code ≡ compiled.if_code label at (expr_view condition.now) (code_view off) (code_view on)) }
{
    let start = then_label(label, &off)?;
    let end = sum(start, code_len(&on))?;
    let mut code = Body::new(alloc);
    jump(&mut code, at, copy_of_expression(alloc, condition)?, start)?;
    append(&mut code, off)?;
    jump(&mut code, at, truth(), end)?;
    append(&mut code, on)?;
    Ok(code)
}

/// Where the body of a loop at a label begins, behind the commands before its test, and the test.
pub fn body_label(label: usize, front: &Body) -> Result<usize, AllocError>
    ensures { IfOk result (λ n. n ≡ label + length (code_view front.now) + 1 + 1) }
{
    sum(sum(label, code_len(front))?, 2)
}

/// A loop at a label: the commands before its test, its test, its body, and the jump back.
pub fn while_code(
    alloc: Global,
    label: usize,
    at: u32,
    condition: &Expr,
    front: Body,
    body: Body,
) -> Result<Body, AllocError>
    ensures { IfOk result
        (λ code. code_view code ≡ compiled.while_code label at (expr_view condition.now) (code_view front) (code_view body)) }
{
    let start = body_label(label, &front)?;
    let end = sum(sum(start, code_len(&body))?, 1)?;
    let mut code = front;
    jump(&mut code, at, copy_of_expression(alloc, condition)?, start)?;
    jump(&mut code, at, truth(), end)?;
    append(&mut code, body)?;
    jump(&mut code, at, truth(), label)?;
    Ok(code)
}

/// A jump past the next command where a condition is true.
fn jump_past(alloc: Global, label: usize, at: u32, condition: &Expr) -> Result<Body, AllocError>
    ensures { IfOk result (λ code. code_view code ≡ jump_to at (expr_view condition.now) (label + 2) ∷ []) }
{
    let mut code = Body::new(alloc);
    let condition = copy_of_expression(alloc, condition)?;
    jump(&mut code, at, condition, sum(label, 2)?)?;
    Ok(code)
}

/// A failure at a label where a condition is false.
pub fn assert_code(
    alloc: Global,
    label: usize,
    at: u32,
    condition: &Expr,
) -> Result<Body, AllocError>
    ensures { IfOk result (λ code. code_view code ≡ compiled.assert_code label at (expr_view condition.now)) }
{
    let mut code = jump_past(alloc, label, at, condition)?;
    let value = text_value(alloc, "assert")?;
    put(&mut code, at, Command::Fail(value))?;
    Ok(code)
}

/// The end of the path at a label where a condition is false.
pub fn assume_code(
    alloc: Global,
    label: usize,
    at: u32,
    condition: &Expr,
) -> Result<Body, AllocError>
    ensures { IfOk result (λ code. code_view code ≡ compiled.assume_code label at (expr_view condition.now)) }
{
    let mut code = jump_past(alloc, label, at, condition)?;
    put(&mut code, at, Command::Vanish)?;
    Ok(code)
}
