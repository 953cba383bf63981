//! The commands of the operators.
ghost use Rattle.std.specs.Prelude.{◌≡◌, IfOk};
ghost use Rattle.gil_syntax.specs.View.{expr_view};
ghost use Rattle.source_language.specs.Code.{code_view};
ghost use Rattle.clike_operators.specs.Codes as codes;

use crate::pieces::{
    Beyond, address_expression, binary, cell_code, choice_code, false_code, negation, number,
    range_code, set,
};
use crate::trees::{Joint, Prefix};
use gil_syntax::{Body, Command, Expr, Exprs};
use gil_values::{BinOp, Text};
use source_language::{
    append, jump, put, sum, temporary, temporary_variable, text, truth, variable,
};
use source_operators::{Connective, Operator, Operators};
use std::alloc::{AllocError, Global};

/// A sum, difference, product or quotient.
fn arithmetic_code(
    alloc: Global,
    operator: BinOp,
    label: usize,
    at: u32,
    free: usize,
    left: &Expr,
    right: &Expr,
) -> Result<Body, AllocError>
    ensures { IfOk result (λ code. code_view code
        ≡ codes.arithmetic_code operator label at free (expr_view left.now) (expr_view right.now)) }
{
    let value = binary(alloc, operator, left, right)?;
    let mut code = Body::new(alloc);
    set(alloc, &mut code, at, free, value)?;
    let value = temporary_variable(alloc, free)?;
    let range = range_code(alloc, sum(label, 1)?, at, &value, Beyond::Overflows)?;
    append(&mut code, range)?;
    Ok(code)
}

/// A remainder, behind the quotient.
fn remainder_code(
    alloc: Global,
    label: usize,
    at: u32,
    free: usize,
    left: &Expr,
    right: &Expr,
) -> Result<Body, AllocError>
    ensures { IfOk result (λ code. code_view code
        ≡ codes.remainder_code label at free (expr_view left.now) (expr_view right.now)) }
{
    let mut code = arithmetic_code(alloc, BinOp::Divide, label, at, free, left, right)?;
    let value = binary(alloc, BinOp::Remainder, left, right)?;
    set(alloc, &mut code, at, sum(free, 1)?, value)?;
    Ok(code)
}

/// 1 where a comparison holds, and 0 where not.
fn comparison_code(
    alloc: Global,
    label: usize,
    at: u32,
    free: usize,
    comparison: Expr,
) -> Result<Body, AllocError>
    ensures { IfOk result (λ code. code_view code ≡ codes.comparison_code label at free (expr_view comparison)) }
{
    let mut code = Body::new(alloc);
    jump(&mut code, at, comparison, sum(label, 3)?)?;
    append(
        &mut code,
        choice_code(alloc, sum(label, 1)?, at, free, 0, 1)?,
    )?;
    Ok(code)
}

fn operation_code(
    alloc: Global,
    operator: Operator,
    label: usize,
    at: u32,
    free: usize,
    left: &Expr,
    right: &Expr,
) -> Result<Body, AllocError>
    ensures { IfOk result (λ code. code_view code
        ≡ codes.operation_code operator label at free (expr_view left.now) (expr_view right.now)) }
{
    match operator {
        Operator::Equal => {
            let equal = binary(alloc, BinOp::Equal, left, right)?;
            comparison_code(alloc, label, at, free, equal)
        }
        Operator::Unequal => {
            let equal = binary(alloc, BinOp::Equal, left, right)?;
            comparison_code(alloc, label, at, free, negation(alloc, equal)?)
        }
        Operator::Less => {
            let less = binary(alloc, BinOp::Less, left, right)?;
            comparison_code(alloc, label, at, free, less)
        }
        Operator::LessOrEqual => {
            let less = binary(alloc, BinOp::LessOrEqual, left, right)?;
            comparison_code(alloc, label, at, free, less)
        }
        Operator::Greater => {
            let less = binary(alloc, BinOp::Less, right, left)?;
            comparison_code(alloc, label, at, free, less)
        }
        Operator::GreaterOrEqual => {
            let less = binary(alloc, BinOp::LessOrEqual, right, left)?;
            comparison_code(alloc, label, at, free, less)
        }
        Operator::Add => arithmetic_code(alloc, BinOp::Add, label, at, free, left, right),
        Operator::Subtract => arithmetic_code(alloc, BinOp::Subtract, label, at, free, left, right),
        Operator::Multiply => arithmetic_code(alloc, BinOp::Multiply, label, at, free, left, right),
        Operator::Divide => arithmetic_code(alloc, BinOp::Divide, label, at, free, left, right),
        Operator::Remainder => remainder_code(alloc, label, at, free, left, right),
    }
}

/// 1 where a value is false, and 0 where not.
fn not_code(
    alloc: Global,
    label: usize,
    at: u32,
    free: usize,
    value: &Expr,
) -> Result<Body, AllocError>
    ensures { IfOk result (λ code. code_view code ≡ codes.not_code label at free (expr_view value.now)) }
{
    let second = sum(label, 2)?;
    let mut code = false_code(alloc, at, value, sum(second, 2)?)?;
    append(&mut code, choice_code(alloc, second, at, free, 0, 1)?)?;
    Ok(code)
}

/// `&a[b]`
fn address_code(
    alloc: Global,
    label: usize,
    at: u32,
    free: usize,
    pointer: &Expr,
    offset: &Expr,
) -> Result<Body, AllocError>
    ensures { IfOk result (λ code. code_view code
        ≡ codes.address_code label at free (expr_view pointer.now) (expr_view offset.now)) }
{
    let mut code = cell_code(alloc, label, at, free, pointer, offset)?;
    let address = address_expression(alloc, free)?;
    set(alloc, &mut code, at, sum(free, 2)?, address)?;
    Ok(code)
}

/// `a[b]`
fn content_code(
    alloc: Global,
    label: usize,
    at: u32,
    free: usize,
    pointer: &Expr,
    offset: &Expr,
) -> Result<Body, AllocError>
    ensures { IfOk result (λ code. code_view code
        ≡ codes.content_code label at free (expr_view pointer.now) (expr_view offset.now)) }
{
    let mut code = cell_code(alloc, label, at, free, pointer, offset)?;
    let mut arguments = Exprs::new(alloc);
    arguments.push(address_expression(alloc, free)?)?;
    let target = temporary(alloc, sum(free, 2)?)?;
    let action = text(alloc, "load")?;
    put(&mut code, at, Command::Act(target, action, arguments))?;
    Ok(code)
}

/// The C-like language, whose commands depend on nothing besides.
#[derive(Clone, Copy, Debug)]
pub struct Clike;

impl Operators for Clike {
    type Prefix = Prefix;

    type Joint = Joint;

    ghost codes = { λ language. codes.codes_of_operators };

    fn variable(&self, alloc: Global, name: &Text) -> Result<Expr, AllocError> {
        variable(alloc, name)
    }

    fn apply_uses(&self, operator: &Prefix) -> usize {
        match operator {
            Prefix::Minus => 1,
            Prefix::Not => 1,
            Prefix::Pointee => 3,
        }
    }

    fn apply(
        &self,
        alloc: Global,
        operator: &Prefix,
        label: usize,
        at: u32,
        free: usize,
        operand: &Expr,
    ) -> Result<Body, AllocError> {
        match operator {
            Prefix::Minus => {
                arithmetic_code(alloc, BinOp::Subtract, label, at, free, &number(0), operand)
            }
            Prefix::Not => not_code(alloc, label, at, free, operand),
            Prefix::Pointee => content_code(alloc, label, at, free, operand, &number(0)),
        }
    }

    fn join_uses(&self, operator: &Joint) -> usize {
        match operator {
            Joint::Operation(Operator::Remainder) => 2,
            Joint::Operation(_) => 1,
            Joint::Cell => 3,
            Joint::Address => 3,
        }
    }

    fn join(
        &self,
        alloc: Global,
        operator: &Joint,
        label: usize,
        at: u32,
        free: usize,
        left: &Expr,
        right: &Expr,
    ) -> Result<Body, AllocError> {
        match operator {
            Joint::Operation(operator) => {
                operation_code(alloc, *operator, label, at, free, left, right)
            }
            Joint::Cell => content_code(alloc, label, at, free, left, right),
            Joint::Address => address_code(alloc, label, at, free, left, right),
        }
    }

    fn early(&self) -> bool {
        false
    }

    fn decide_size(&self, connective: Connective) -> usize {
        match connective {
            Connective::And => 2,
            Connective::Or => 3,
        }
    }

    fn decide(
        &self,
        alloc: Global,
        connective: Connective,
        label: usize,
        at: u32,
        _temporary: usize,
        right: usize,
        operand: &Expr,
    ) -> Result<Body, AllocError> {
        match connective {
            Connective::And => {
                let end = sum(sum(sum(sum(label, 2)?, right)?, 2)?, 2)?;
                false_code(alloc, at, operand, end)
            }
            Connective::Or => {
                let behind = sum(label, 3)?;
                let mut code = false_code(alloc, at, operand, behind)?;
                jump(&mut code, at, truth(), sum(sum(behind, right)?, 2)?)?;
                Ok(code)
            }
        }
    }

    fn conclude(
        &self,
        alloc: Global,
        _connective: Connective,
        label: usize,
        at: u32,
        temporary: usize,
        operand: &Expr,
    ) -> Result<Body, AllocError> {
        let second = sum(label, 2)?;
        let mut code = false_code(alloc, at, operand, sum(second, 2)?)?;
        append(&mut code, choice_code(alloc, second, at, temporary, 1, 0)?)?;
        Ok(code)
    }
}
