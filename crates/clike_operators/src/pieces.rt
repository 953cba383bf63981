//! The commands that several operators and statements have.
ghost use Rattle.std.specs.Prelude.{◌≡◌, ◌+◌, pos, [], ◌∷◌, ◌++◌, IfOk, OnOk};
ghost use Rattle.gil_values.specs.declared.operators.UnOp.TheVariants.{Not};
ghost use Rattle.gil_values.specs.Pure.{integer};
ghost use Rattle.gil_syntax.specs.Pure.{literal, unary_of, binary_of};
ghost use Rattle.gil_syntax.specs.View.{command_view, expr_view};
ghost use Rattle.source_language.specs.Code.{code_view};
ghost use Rattle.clike_operators.specs.Codes as codes;
ghost use Rattle.clike_operators.specs.Codes.{beyond_command as command_beyond};

use gil_syntax::{Body, Command, Expr, Exprs};
use gil_values::{BinOp, UnOp, Value};
use source_language::{jump, null, put, sum, temporary, temporary_variable, text, truth};
use std::alloc::{AllocError, Global};
use syntax_copy::copy_of_expression;

/// Where a number that is no `int` leads.
#[derive(Clone, Copy, Debug, PartialEq, Eq)]
pub enum Beyond {
    /// An operator whose result it is fails.
    Overflows,
    /// An input that is none ends the path without a report.
    Vanishes,
}

/// The greatest `int`.
const GREATEST: i128 = 2_147_483_647;

/// The least `int`.
const LEAST: i128 = -2_147_483_648;

/// A literal number.
pub(crate) fn number(value: i128) -> Expr
    ensures { expr_view result ≡ literal (integer value) }
{
    Expr::Lit(Value::Int(value))
}

/// An operator over two expressions.
pub(crate) fn binary(
    alloc: Global,
    operator: BinOp,
    left: &Expr,
    right: &Expr,
) -> Result<Expr, AllocError>
    ensures { IfOk result (λ e. expr_view e ≡ binary_of operator (expr_view left.now) (expr_view right.now)) }
{
    let left = copy_of_expression(alloc, left)?;
    let right = copy_of_expression(alloc, right)?;
    Ok(Expr::Op2(operator, Box::new(alloc, left)?, Box::new(alloc, right)?))
}

/// The negation of an expression.
pub(crate) fn negation(alloc: Global, expression: Expr) -> Result<Expr, AllocError>
    ensures { IfOk result (λ e. expr_view e ≡ unary_of Not (expr_view expression)) }
{
    Ok(Expr::Op1(UnOp::Not, Box::new(alloc, expression)?))
}

/// A temporary gets a value.
pub(crate) fn set(
    alloc: Global,
    commands: &mut Body,
    at: u32,
    number: usize,
    value: Expr,
) -> Result<(), AllocError>
    ensures { OnOk result (code_view commands.new ≡ code_view commands.old ++ codes.sets at number (expr_view value) ∷ []) }
{
    let target = temporary(alloc, number)?;
    put(commands, at, Command::Assign(target, value))
}

fn beyond_command(alloc: Global, beyond: Beyond) -> Result<Command, AllocError>
    ensures { IfOk result (λ c. command_view c ≡ command_beyond beyond) }
{
    match beyond {
        Beyond::Overflows => {
            let value = text(alloc, "overflow")?;
            Ok(Command::Fail(Expr::Lit(Value::Str(value))))
        }
        Beyond::Vanishes => Ok(Command::Vanish),
    }
}

/// The test that the value of an expression is an `int`.
pub fn range_code(
    alloc: Global,
    label: usize,
    at: u32,
    value: &Expr,
    beyond: Beyond,
) -> Result<Body, AllocError>
    ensures { IfOk result (λ code. code_view code ≡ codes.range_code label at (expr_view value.now) beyond) }
{
    let second = sum(label, 2)?;
    let end = sum(second, 2)?;
    let above = binary(alloc, BinOp::LessOrEqual, value, &number(GREATEST))?;
    let below = binary(alloc, BinOp::LessOrEqual, &number(LEAST), value)?;
    let mut code = Body::new(alloc);
    jump(&mut code, at, above, second)?;
    put(&mut code, at, beyond_command(alloc, beyond)?)?;
    jump(&mut code, at, below, end)?;
    put(&mut code, at, beyond_command(alloc, beyond)?)?;
    Ok(code)
}

/// Jumps to a label where the value of an expression is false.
pub fn false_code(alloc: Global, at: u32, value: &Expr, label: usize) -> Result<Body, AllocError>
    ensures { IfOk result (λ code. code_view code ≡ codes.false_code at (expr_view value.now) label) }
{
    let zero = binary(alloc, BinOp::Equal, value, &number(0))?;
    let null = binary(alloc, BinOp::Equal, value, &null())?;
    let mut code = Body::new(alloc);
    jump(&mut code, at, zero, label)?;
    jump(&mut code, at, null, label)?;
    Ok(code)
}

/// A temporary gets a number, or another one where a jump leads to the command behind the next two.
pub(crate) fn choice_code(
    alloc: Global,
    label: usize,
    at: u32,
    temporary: usize,
    first: u8,
    second: u8,
) -> Result<Body, AllocError>
    ensures { IfOk result (λ code. code_view code ≡ codes.choice_code label at temporary first second) }
{
    let end = sum(sum(label, 1)?, 2)?;
    let mut code = Body::new(alloc);
    set(alloc, &mut code, at, temporary, number(i128::from(first)))?;
    jump(&mut code, at, truth(), end)?;
    set(alloc, &mut code, at, temporary, number(i128::from(second)))?;
    Ok(code)
}

/// The block of the cell so many places behind a pointer and the number of the cell, in two temporaries.
pub fn cell_code(
    alloc: Global,
    label: usize,
    at: u32,
    free: usize,
    pointer: &Expr,
    offset: &Expr,
) -> Result<Body, AllocError>
    ensures { IfOk result (λ code. code_view code ≡ codes.cell_code label at free (expr_view pointer.now) (expr_view offset.now)) }
{
    let start = sum(free, 1)?;
    let is_null = binary(alloc, BinOp::Equal, pointer, &null())?;
    let fault = text(alloc, "null")?;
    let mut code = Body::new(alloc);
    jump(&mut code, at, negation(alloc, is_null)?, sum(label, 2)?)?;
    put(&mut code, at, Command::Fail(Expr::Lit(Value::Str(fault))))?;
    let block = binary(alloc, BinOp::Nth, pointer, &number(0))?;
    set(alloc, &mut code, at, free, block)?;
    let first = binary(alloc, BinOp::Nth, pointer, &number(1))?;
    set(alloc, &mut code, at, start, first)?;
    let cell = binary(
        alloc,
        BinOp::Add,
        &temporary_variable(alloc, start)?,
        offset,
    )?;
    set(alloc, &mut code, at, start, cell)?;
    Ok(code)
}

/// The address in two temporaries.
pub fn address_expression(alloc: Global, number: usize) -> Result<Expr, AllocError>
    ensures { IfOk result (λ e. expr_view e ≡ codes.address_expr number) }
{
    let mut elements = Exprs::new(alloc);
    elements.push(temporary_variable(alloc, number)?)?;
    elements.push(temporary_variable(alloc, sum(number, 1)?)?)?;
    Ok(Expr::List(elements))
}
