//! Commands of expressions.
ghost use Rattle.std.specs.Prelude.{◌≡◌, ◌+◌, ◌-◌, ◌++◌, length, not, IfOk};
ghost use Rattle.gil_syntax.specs.Pure.{name};
ghost use Rattle.gil_syntax.specs.View.{expr_view};
ghost use Rattle.source_language.specs.Code.{code_view};
ghost use Rattle.source_language.specs.Names.{temporary};
ghost use Rattle.source_operators.specs.Codes as codes;
ghost use Rattle.source_operators.specs.View.{expression_view};

use crate::language::{Operand, Operators};
use crate::trees::{Connective, Expression};
use gil_syntax::{Body, Expr};
use source_language::{append, code_len, sum, temporary_variable};
use std::alloc::{AllocError, Global};

/// The last temporary before a number.
fn last_before(alloc: Global, number: usize) -> Result<Expr, AllocError>
    ensures { IfOk result (λ e. expr_view e ≡ name (temporary (number - 1))) }
{
    temporary_variable(alloc, number.saturating_sub(1))
}

/// An operator behind its operand, which stands at a label.
fn prefixed<L: Operators>(
    alloc: Global,
    language: &L,
    operator: &L::Prefix,
    label: usize,
    at: u32,
    inner: Operand,
) -> Result<Operand, AllocError>
    ensures code { IfOk result (λ all. code_view all.code ≡ code_view inner.code
        ++ (L.codes language.now).apply operator.now (label + length (code_view inner.code)) at inner.next (expr_view inner.expression)) }
    ensures expression { IfOk result (λ all. expr_view all.expression
        ≡ codes.last inner.next ((L.codes language.now).apply_uses operator.now)) }
    ensures next { IfOk result (λ all. all.next ≡ inner.next + (L.codes language.now).apply_uses operator.now) }
{
    let mut code = inner.code;
    let label = sum(label, code_len(&code))?;
    let row = language.apply(alloc, operator, label, at, inner.next, &inner.expression)?;
    append(&mut code, row)?;
    let next = sum(inner.next, language.apply_uses(operator))?;
    let expression = last_before(alloc, next)?;
    Ok(Operand {
        code,
        expression,
        next,
    })
}

/// An operator behind its operands, of which the left one stands at a label and the right one behind it.
fn joined<L: Operators>(
    alloc: Global,
    language: &L,
    operator: &L::Joint,
    label: usize,
    at: u32,
    left: Operand,
    right: Operand,
) -> Result<Operand, AllocError>
    ensures code { IfOk result (λ all. code_view all.code ≡ code_view left.code ++ (code_view right.code
        ++ (L.codes language.now).join operator.now (label + length (code_view left.code) + length (code_view right.code)) at right.next
        (expr_view left.expression) (expr_view right.expression))) }
    ensures expression { IfOk result (λ all. expr_view all.expression
        ≡ codes.last right.next ((L.codes language.now).join_uses operator.now)) }
    ensures next { IfOk result (λ all. all.next ≡ right.next + (L.codes language.now).join_uses operator.now) }
{
    let label = sum(sum(label, code_len(&left.code))?, code_len(&right.code))?;
    let row = language.join(
        alloc,
        operator,
        label,
        at,
        right.next,
        &left.expression,
        &right.expression,
    )?;
    let mut behind = right.code;
    append(&mut behind, row)?;
    let mut code = left.code;
    append(&mut code, behind)?;
    let next = sum(right.next, language.join_uses(operator))?;
    let expression = last_before(alloc, next)?;
    Ok(Operand {
        code,
        expression,
        next,
    })
}

/// The first temporary that is free for the right side of a connective, where a number is free behind the left one.
fn right_from(early: bool, free: usize) -> Result<usize, AllocError>
    ensures { IfOk result (λ n. n ≡ codes.right_from early free) }
{
    if early { sum(free, 1) } else { Ok(free) }
}

/// The temporary of what comes out of a connective, where these are free behind the left side and behind the right one.
fn taken(early: bool, left: usize, right: usize) -> usize
    ensures { result ≡ codes.taken early left right }
{
    if early { left } else { right }
}

/// The right side of a connective, which stands at a label, and the commands behind it.
fn concluded<L: Operators>(
    alloc: Global,
    language: &L,
    connective: Connective,
    label: usize,
    at: u32,
    temporary: usize,
    right: Operand,
) -> Result<Body, AllocError>
    ensures { IfOk result (λ code. code_view code ≡ code_view right.code
        ++ (L.codes language.now).conclude connective (label + length (code_view right.code)) at temporary (expr_view right.expression)) }
{
    let label = sum(label, code_len(&right.code))?;
    let last = language.conclude(alloc, connective, label, at, temporary, &right.expression)?;
    let mut code = right.code;
    append(&mut code, last)?;
    Ok(code)
}

/// The commands of a connective behind its left side, which stand at a label: those that decide, the right side, and those behind it.
fn skip_code<L: Operators>(
    alloc: Global,
    language: &L,
    connective: Connective,
    label: usize,
    at: u32,
    temporary: usize,
    operand: &Expr,
    right: Operand,
) -> Result<Body, AllocError>
    ensures { IfOk result (λ code. code_view code ≡ codes.skip_code (L.codes language.now) connective label at temporary (expr_view operand.now)
        (expr_view right.expression) (λ n. code_view right.code)) }
{
    let count = code_len(&right.code);
    let decided = sum(label, language.decide_size(connective))?;
    let mut code = language.decide(alloc, connective, label, at, temporary, count, operand)?;
    append(
        &mut code,
        concluded(alloc, language, connective, decided, at, temporary, right)?,
    )?;
    Ok(code)
}

/// A connective, of which the left side stands at a label, and the right side behind the commands that decide whether it is skipped.
fn skipping<L: Operators>(
    alloc: Global,
    language: &L,
    connective: Connective,
    label: usize,
    at: u32,
    left: Operand,
    right: Operand,
) -> Result<Operand, AllocError>
    ensures code { IfOk result (λ all. code_view all.code ≡ code_view left.code
        ++ codes.skip_code (L.codes language.now) connective (label + length (code_view left.code)) at
        (codes.taken (L.codes language.now).early left.next right.next) (expr_view left.expression) (expr_view right.expression)
        (λ n. code_view right.code)) }
    ensures expression { IfOk result (λ all. expr_view all.expression
        ≡ name (temporary (codes.taken (L.codes language.now).early left.next right.next))) }
    ensures next { IfOk result (λ all. all.next ≡ codes.right_from (not (L.codes language.now).early) right.next) }
{
    let number = taken(language.early(), left.next, right.next);
    let next = right_from(!language.early(), right.next)?;
    let label = sum(label, code_len(&left.code))?;
    let behind = skip_code(
        alloc,
        language,
        connective,
        label,
        at,
        number,
        &left.expression,
        right,
    )?;
    let mut code = left.code;
    append(&mut code, behind)?;
    let expression = temporary_variable(alloc, number)?;
    Ok(Operand {
        code,
        expression,
        next,
    })
}

/// The commands at a label that do an expression, where the temporaries from a number on are free.
pub fn operand_code<L: Operators>(
    alloc: Global,
    language: &L,
    expression: &Expression<L::Prefix, L::Joint>,
    label: usize,
    at: u32,
    free: usize,
) -> Result<Operand, AllocError>
    ensures code { IfOk result (λ all. code_view all.code ≡ codes.code (L.codes language.now) (expression_view expression.now) label at free) }
    ensures expression { IfOk result (λ all. expr_view all.expression
        ≡ codes.result (L.codes language.now) (expression_view expression.now) free) }
    ensures next { IfOk result (λ all. all.next ≡ free + codes.uses (L.codes language.now) (expression_view expression.now)) }
{
    match expression {
        Expression::Constant(value) => Ok(Operand {
            code: Body::new(alloc),
            expression: Expr::Lit(value.copy(alloc)?),
            next: free,
        }),
        Expression::Variable(name) => Ok(Operand {
            code: Body::new(alloc),
            expression: language.variable(alloc, name)?,
            next: free,
        }),
        Expression::Brackets(inner) => operand_code(alloc, language, inner, label, at, free),
        Expression::Prefixed(operator, inner) => {
            let inner = operand_code(alloc, language, inner, label, at, free)?;
            prefixed(alloc, language, operator, label, at, inner)
        }
        Expression::Joined(operator, left, right) => {
            let left = operand_code(alloc, language, left, label, at, free)?;
            let behind = sum(label, code_len(&left.code))?;
            let right = operand_code(alloc, language, right, behind, at, left.next)?;
            joined(alloc, language, operator, label, at, left, right)
        }
        Expression::Skipping(connective, left, right) => {
            let left = operand_code(alloc, language, left, label, at, free)?;
            let decided = sum(
                sum(label, code_len(&left.code))?,
                language.decide_size(*connective),
            )?;
            let first = right_from(language.early(), left.next)?;
            let right = operand_code(alloc, language, right, decided, at, first)?;
            skipping(alloc, language, *connective, label, at, left, right)
        }
    }
}

/// How many temporaries an expression takes.
pub fn operand_uses<L: Operators>(
    language: &L,
    expression: &Expression<L::Prefix, L::Joint>,
) -> Result<usize, AllocError>
    ensures { IfOk result (λ n. n ≡ codes.uses (L.codes language.now) (expression_view expression.now)) }
{
    match expression {
        Expression::Constant(_) => Ok(0),
        Expression::Variable(_) => Ok(0),
        Expression::Brackets(inner) => operand_uses(language, inner),
        Expression::Prefixed(operator, inner) => {
            sum(
                operand_uses(language, inner)?,
                language.apply_uses(operator),
            )
        }
        Expression::Joined(operator, left, right) => {
            let left = operand_uses(language, left)?;
            let right = operand_uses(language, right)?;
            sum(sum(left, right)?, language.join_uses(operator))
        }
        Expression::Skipping(_, left, right) => {
            let left = operand_uses(language, left)?;
            let right = operand_uses(language, right)?;
            sum(sum(left, right)?, 1)
        }
    }
}
