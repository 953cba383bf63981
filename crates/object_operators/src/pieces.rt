//! Expressions and commands of which those of the operators are made.
ghost use Rattle.std.specs.Prelude.{◌≡◌, [], ◌∷◌, ◌++◌, IfOk, OnOk};
ghost use Rattle.gil_syntax.specs.Pure.{unary_of, binary_of};
ghost use Rattle.gil_syntax.specs.View.{expr_view};
ghost use Rattle.source_language.specs.Code.{code_view};
ghost use Rattle.object_operators.specs.Codes as codes;

use gil_syntax::{Body, Command, Expr};
use gil_values::{BinOp, UnOp};
use source_language::{put, temporary};
use std::alloc::{AllocError, Global};
use syntax_copy::copy_of_expression;

/// An operator over an expression.
pub(crate) fn unary(alloc: Global, operator: UnOp, operand: Expr) -> Result<Expr, AllocError>
    ensures { IfOk result (λ e. expr_view e ≡ unary_of operator (expr_view operand)) }
{
    Ok(Expr::Op1(operator, Box::new(alloc, operand)?))
}

/// An operator over two expressions.
pub(crate) fn binary(
    alloc: Global,
    operator: BinOp,
    left: &Expr,
    right: &Expr,
) -> Result<Expr, AllocError>
    ensures { IfOk result (λ e. expr_view e ≡ binary_of operator (expr_view left.now) (expr_view right.now)) }
{
    let left = copy_of_expression(alloc, left)?;
    let right = copy_of_expression(alloc, right)?;
    Ok(Expr::Op2(operator, Box::new(alloc, left)?, Box::new(alloc, right)?))
}

/// A temporary gets a value.
pub(crate) fn set(
    alloc: Global,
    commands: &mut Body,
    at: u32,
    number: usize,
    value: Expr,
) -> Result<(), AllocError>
    ensures { OnOk result (code_view commands.new ≡ code_view commands.old ++ codes.sets at number (expr_view value) ∷ []) }
{
    let target = temporary(alloc, number)?;
    put(commands, at, Command::Assign(target, value))
}
