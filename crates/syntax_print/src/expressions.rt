//! Expressions and their operators.
ghost use Rattle.std.specs.Prelude.{◌≡◌, ◌++◌, string_bytes, OnOk};
ghost use Rattle.gil_syntax.specs.View.{expr_view, exprs_view};
ghost use Rattle.syntax_print.specs.Expressions.{unary_name, before_operands, between_operands, printed_expr, printed_exprs};

use gil_syntax::{Expr, Exprs};
use gil_values::{BinOp, UnOp, push_separator, push_value};
use std::alloc::AllocError;

/// The name of an operator of one operand.
pub fn unary_name(op: UnOp) -> &'static str
    ensures { result.now ≡ unary_name op }
{
    match op {
        UnOp::Not => "not",
        UnOp::Neg => "neg",
        UnOp::Len => "len",
        UnOp::Kind => "kind",
    }
}

/// What stands before the operands.
pub fn before_operands(op: BinOp) -> &'static str
    ensures { result.now ≡ before_operands op }
{
    match op {
        BinOp::Nth => "nth(",
        _ => "(",
    }
}

/// What stands between the operands.
pub fn between_operands(op: BinOp) -> &'static str
    ensures { result.now ≡ between_operands op }
{
    match op {
        BinOp::Add => " + ",
        BinOp::Subtract => " - ",
        BinOp::Multiply => " * ",
        BinOp::Divide => " / ",
        BinOp::Remainder => " % ",
        BinOp::Equal => " = ",
        BinOp::Less => " < ",
        BinOp::LessOrEqual => " <= ",
        BinOp::And => " and ",
        BinOp::Or => " or ",
        BinOp::Append => " ++ ",
        BinOp::Nth => ", ",
    }
}

/// Adds an expression.
#[cycle(print)]
pub fn push_expr(out: &mut String, expression: &Expr) -> Result<(), AllocError>
    ensures { OnOk result (string_bytes out.new ≡ string_bytes out.old ++ printed_expr (expr_view expression.now)) }
{
    match expression {
        Expr::Lit(value) => push_value(out, value),
        Expr::Name(name) => out.push_str(name.as_str()),
        Expr::Logical(name) => out.push_str(name.as_str()),
        Expr::List(elements) => {
            out.push_str("[")?;
            push_exprs(out, elements)?;
            out.push_str("]")?;
            Ok(())
        }
        Expr::Op1(op, operand) => {
            out.push_str(unary_name(*op))?;
            out.push_str("(")?;
            push_expr(out, operand)?;
            out.push_str(")")?;
            Ok(())
        }
        Expr::Op2(op, left, right) => {
            out.push_str(before_operands(*op))?;
            push_expr(out, left)?;
            out.push_str(between_operands(*op))?;
            push_expr(out, right)?;
            out.push_str(")")?;
            Ok(())
        }
    }
}

/// Adds expressions, with commas between them.
#[cycle(print)]
pub fn push_exprs(out: &mut String, expressions: &Exprs) -> Result<(), AllocError>
    ensures { OnOk result (string_bytes out.new ≡ string_bytes out.old ++ printed_exprs (exprs_view expressions.now)) }
{
    for (index, expression) in expressions.as_slice().iter().enumerate() {
        push_separator(out, ", ", index)?;
        push_expr(out, expression)?;
    }
    Ok(())
}
