//! The commands of the operators.
ghost use Rattle.std.specs.Prelude.{◌≡◌, [], ◌∷◌, IfOk};
ghost use Rattle.gil_syntax.specs.View.{expr_view};
ghost use Rattle.source_language.specs.Code.{code_view};
ghost use Rattle.object_operators.specs.Codes as codes;
ghost use Rattle.object_operators.specs.Operations as operations;

use crate::library::get_name;
use crate::pieces::{binary, set, unary};
use crate::trees::{Joint, Prefix};
use gil_syntax::{Body, Command, Expr, Exprs};
use gil_values::{BinOp, Text, UnOp, Value};
use source_language::{jump, one, sum, temporary, truth, variable};
use source_operators::{Connective, Operator, Operators};
use std::alloc::{AllocError, Global};
use syntax_copy::copy_of_expression;

/// A binary operator over its operands.
fn operation(
    alloc: Global,
    operator: Operator,
    left: &Expr,
    right: &Expr,
) -> Result<Expr, AllocError>
    ensures { IfOk result (λ e. expr_view e ≡ operations.operation operator (expr_view left.now) (expr_view right.now)) }
{
    match operator {
        Operator::Equal => binary(alloc, BinOp::Equal, left, right),
        Operator::Unequal => unary(alloc, UnOp::Not, binary(alloc, BinOp::Equal, left, right)?),
        Operator::Less => binary(alloc, BinOp::Less, left, right),
        Operator::LessOrEqual => binary(alloc, BinOp::LessOrEqual, left, right),
        Operator::Greater => binary(alloc, BinOp::Less, right, left),
        Operator::GreaterOrEqual => binary(alloc, BinOp::LessOrEqual, right, left),
        Operator::Add => binary(alloc, BinOp::Add, left, right),
        Operator::Subtract => binary(alloc, BinOp::Subtract, left, right),
        Operator::Multiply => binary(alloc, BinOp::Multiply, left, right),
        Operator::Divide => binary(alloc, BinOp::Divide, left, right),
        Operator::Remainder => binary(alloc, BinOp::Remainder, left, right),
    }
}

/// A temporary gets a value, and no command more.
fn set_code(alloc: Global, at: u32, number: usize, value: Expr) -> Result<Body, AllocError>
    ensures { IfOk result (λ code. code_view code ≡ codes.sets at number (expr_view value) ∷ []) }
{
    let mut code = Body::new(alloc);
    set(alloc, &mut code, at, number, value)?;
    Ok(code)
}

/// The call that reads a property into a temporary.
fn property_code(
    alloc: Global,
    at: u32,
    number: usize,
    object: &Expr,
    name: &Expr,
) -> Result<Body, AllocError>
    ensures { IfOk result (λ code. code_view code
        ≡ codes.property_call at number (expr_view object.now) (expr_view name.now) ∷ []) }
{
    let mut arguments = Exprs::new(alloc);
    arguments.push(copy_of_expression(alloc, object)?)?;
    arguments.push(copy_of_expression(alloc, name)?)?;
    let callee = Expr::Lit(Value::Proc(get_name(alloc)?));
    let target = temporary(alloc, number)?;
    one(alloc, at, Command::Call(target, callee, arguments, None))
}

/// The operators of the object language, whose commands depend on nothing besides.
#[derive(Clone, Copy, Debug)]
pub struct ObjectOperators;

impl Operators for ObjectOperators {
    type Prefix = Prefix;

    type Joint = Joint;

    ghost codes = { λ language. codes.codes_of_operators };

    fn variable(&self, alloc: Global, name: &Text) -> Result<Expr, AllocError> {
        variable(alloc, name)
    }

    fn apply_uses(&self, _operator: &Prefix) -> usize {
        1
    }

    fn apply(
        &self,
        alloc: Global,
        operator: &Prefix,
        _label: usize,
        at: u32,
        free: usize,
        operand: &Expr,
    ) -> Result<Body, AllocError> {
        let operand = copy_of_expression(alloc, operand)?;
        match operator {
            Prefix::Minus => set_code(alloc, at, free, unary(alloc, UnOp::Neg, operand)?),
            Prefix::Not => set_code(alloc, at, free, unary(alloc, UnOp::Not, operand)?),
        }
    }

    fn join_uses(&self, _operator: &Joint) -> usize {
        1
    }

    fn join(
        &self,
        alloc: Global,
        operator: &Joint,
        _label: usize,
        at: u32,
        free: usize,
        left: &Expr,
        right: &Expr,
    ) -> Result<Body, AllocError> {
        match operator {
            Joint::Operation(operator) => {
                set_code(alloc, at, free, operation(alloc, *operator, left, right)?)
            }
            Joint::Property => property_code(alloc, at, free, left, right),
        }
    }

    fn early(&self) -> bool {
        true
    }

    fn decide_size(&self, connective: Connective) -> usize {
        match connective {
            Connective::And => 3,
            Connective::Or => 2,
        }
    }

    fn decide(
        &self,
        alloc: Global,
        connective: Connective,
        label: usize,
        at: u32,
        temporary: usize,
        right: usize,
        operand: &Expr,
    ) -> Result<Body, AllocError> {
        let mut code = Body::new(alloc);
        match connective {
            Connective::And => {
                let start = sum(label, 3)?;
                let end = sum(sum(start, right)?, 1)?;
                jump(&mut code, at, copy_of_expression(alloc, operand)?, start)?;
                set(
                    alloc,
                    &mut code,
                    at,
                    temporary,
                    Expr::Lit(Value::Bool(false)),
                )?;
                jump(&mut code, at, truth(), end)?;
            }
            Connective::Or => {
                let end = sum(sum(sum(label, 2)?, right)?, 1)?;
                set(
                    alloc,
                    &mut code,
                    at,
                    temporary,
                    copy_of_expression(alloc, operand)?,
                )?;
                jump(&mut code, at, copy_of_expression(alloc, operand)?, end)?;
            }
        }
        Ok(code)
    }

    fn conclude(
        &self,
        alloc: Global,
        _connective: Connective,
        _label: usize,
        at: u32,
        temporary: usize,
        operand: &Expr,
    ) -> Result<Body, AllocError> {
        set_code(alloc, at, temporary, copy_of_expression(alloc, operand)?)
    }
}
