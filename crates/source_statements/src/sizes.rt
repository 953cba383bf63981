//! How many commands statements give inside a block whose throws are handled.
ghost use Rattle.std.specs.Prelude.{◌≡◌, length, IfOk};
ghost use Rattle.source_language.specs.View.{invariants_view};
ghost use Rattle.source_statements.specs.Lengths as lengths;
ghost use Rattle.source_statements.specs.View.{block_view, statement_view};

use crate::language::Language;
use crate::tree::{Block, Statement};
use source_language::{Invariant, code_len, sum};
use std::alloc::{AllocError, Global};

/// The commands that find the value of an expression.
fn front_len<L: Language>(alloc: Global, expression: &L::Expression) -> Result<usize, AllocError>
    ensures { IfOk result (λ n. n ≡ length (L.codes.front (L.expression_view expression.now) 0 0)) }
{
    Ok(code_len(&L::front(alloc, 0, 0, expression)?.code))
}

/// A condition and its jumps.
fn condition_len<L: Language>(alloc: Global, condition: &L::Expression) -> Result<usize, AllocError>
    ensures { IfOk result (λ n. n ≡ lengths.condition_length L.codes (L.expression_view condition.now)) }
{
    let front = L::front(alloc, 0, 0, condition)?;
    let jumps = L::jumps(alloc, &front.operand)?;
    sum(code_len(&front.code), jumps.len())
}

/// The same, and the jump out where the others lead in.
fn guard_len<L: Language>(
    alloc: Global,
    into: bool,
    condition: &L::Expression,
) -> Result<usize, AllocError>
    ensures { IfOk result (λ n. n ≡ lengths.guard_length L.codes into (L.expression_view condition.now)) }
{
    let condition = condition_len::<L>(alloc, condition)?;
    if into {
        sum(condition, 1)
    } else {
        Ok(condition)
    }
}

/// A simple statement.
fn simple_len<L: Language>(alloc: Global, simple: &L::Simple) -> Result<usize, AllocError>
    ensures { IfOk result (λ n. n ≡ length (L.codes.simple_code (Some 0) 0 0 (L.simple_view simple.now))) }
{
    Ok(code_len(&L::simple_code(alloc, Some(0), 0, 0, simple)?))
}

/// An invariant.
fn invariant_len(invariant: &Option<Invariant>) -> usize
    ensures { result ≡ lengths.invariant_length (invariants_view invariant.now) }
{
    match invariant {
        Some(_) => 1,
        None => 0,
    }
}

/// How many commands a statement gives there.
#[cycle(lengths)]
fn statement_len<L: Language>(
    alloc: Global,
    statement: &Statement<L::Expression, L::Simple>,
) -> Result<usize, AllocError>
    ensures { IfOk result (λ n. n ≡ lengths.statement_length L.codes (statement_view L.expression_view L.simple_view statement.now)) }
{
    match statement {
        Statement::Simple(simple) => simple_len::<L>(alloc, simple),
        Statement::Assert(condition) | Statement::Assume(condition) => {
            sum(guard_len::<L>(alloc, !L::jumps_where_true(), condition)?, 1)
        }
        Statement::If(condition, body, other) => {
            let blocks = sum(block_len::<L>(alloc, body)?, block_len::<L>(alloc, other)?)?;
            sum(condition_len::<L>(alloc, condition)?, sum(blocks, 1)?)
        }
        Statement::While(condition, invariant, body) => {
            let test = guard_len::<L>(alloc, L::jumps_where_true(), condition)?;
            let head = sum(invariant_len(invariant), test)?;
            sum(sum(head, block_len::<L>(alloc, body)?)?, 1)
        }
        Statement::Return(value) => sum(front_len::<L>(alloc, value)?, 1),
        Statement::Logic(_) => Ok(1),
        Statement::Try(body, _, handler) => {
            let blocks = sum(
                block_len::<L>(alloc, body)?,
                block_len::<L>(alloc, handler)?,
            )?;
            sum(blocks, 2)
        }
    }
}

/// How many commands the statements of a block give there.
#[cycle(lengths)]
pub(crate) fn block_len<L: Language>(
    alloc: Global,
    block: &Block<L::Expression, L::Simple>,
) -> Result<usize, AllocError>
    ensures { IfOk result (λ n. n ≡ lengths.block_length L.codes (block_view L.expression_view L.simple_view block.now)) }
{
    let mut total = 0;
    for placed in block.as_slice() {
        total = sum(total, statement_len::<L>(alloc, &placed.statement)?)?;
    }
    Ok(total)
}
