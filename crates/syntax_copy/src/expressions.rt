//! Copies of expressions and of lists of texts.
ghost use Rattle.std.specs.Prelude.{◌≡◌, IfOk};
ghost use Rattle.gil_syntax.specs.View.{expr_view, exprs_view};

use gil_syntax::{Expr, Exprs, Texts};
use std::alloc::{AllocError, Global};

/// An equal expression.
pub fn copy_of_expression(alloc: Global, expression: &Expr) -> Result<Expr, AllocError>
    ensures { IfOk result (λ e. expr_view e ≡ expr_view expression.now) }
{
    copy_expr(alloc, expression)
}

/// An equal list of expressions.
pub fn copy_of_expressions(alloc: Global, expressions: &Exprs) -> Result<Exprs, AllocError>
    ensures { IfOk result (λ es. exprs_view es ≡ exprs_view expressions.now) }
{
    copy_exprs(alloc, expressions)
}

/// An equal list of texts.
pub fn copy_texts(alloc: Global, texts: &Texts) -> Result<Texts, AllocError>
    ensures { IfOk result (λ list. list ≡ texts.now) }
{
    let texts = texts.as_slice();
    let mut list = Texts::new(alloc);
    for text in texts {
        list.push(text.copy(alloc)?)?;
    }
    Ok(list)
}

#[cycle(copy)]
fn copy_expr(alloc: Global, expression: &Expr) -> Result<Expr, AllocError>
    ensures { IfOk result (λ e. expr_view e ≡ expr_view expression.now) }
{
    match expression {
        Expr::Lit(value) => Ok(Expr::Lit(value.copy(alloc)?)),
        Expr::Name(name) => Ok(Expr::Name(name.copy(alloc)?)),
        Expr::Logical(name) => Ok(Expr::Logical(name.copy(alloc)?)),
        Expr::List(elements) => Ok(Expr::List(copy_exprs(alloc, elements)?)),
        Expr::Op1(op, operand) => {
            let operand = copy_expr(alloc, operand)?;
            Ok(Expr::Op1(*op, Box::new(alloc, operand)?))
        }
        Expr::Op2(op, left, right) => {
            let left = copy_expr(alloc, left)?;
            let right = copy_expr(alloc, right)?;
            Ok(Expr::Op2(*op, Box::new(alloc, left)?, Box::new(alloc, right)?))
        }
    }
}

#[cycle(copy)]
fn copy_exprs(alloc: Global, expressions: &Exprs) -> Result<Exprs, AllocError>
    ensures { IfOk result (λ es. exprs_view es ≡ exprs_view expressions.now) }
{
    let mut list = Exprs::new(alloc);
    for expression in expressions.as_slice() {
        list.push(copy_expr(alloc, expression)?)?;
    }
    Ok(list)
}
