//! Commands of several expressions, one after the other.
ghost use Rattle.std.specs.Prelude.{◌≡◌, ◌+◌, map, IfOk};
ghost use Rattle.gil_syntax.specs.View.{exprs_view};
ghost use Rattle.source_language.specs.Code.{code_view};
ghost use Rattle.source_operators.specs.Codes as codes;
ghost use Rattle.source_operators.specs.View.{expression_view};

use crate::compiling::{operand_code, operand_uses};
use crate::language::Operators;
use crate::trees::Expression;
use gil_syntax::{Body, Exprs};
use source_language::{append, code_len, sum};
use std::alloc::{AllocError, Global};

/// What several expressions are compiled to: their commands, what stands for their operands behind them, and the first temporary that is
/// free there.
#[derive(Debug, Drop)]
pub struct Operands {
    pub code: Body,
    pub expressions: Exprs,
    pub next: usize,
}

/// The commands at a label that do expressions from left to right, where the temporaries from a number on are free.
pub fn operands_code<L: Operators>(
    alloc: Global,
    language: &L,
    expressions: &[Expression<L::Prefix, L::Joint>],
    label: usize,
    at: u32,
    free: usize,
) -> Result<Operands, AllocError>
    ensures code { IfOk result (λ all. code_view all.code
        ≡ codes.all_code (L.codes language.now) (map expression_view expressions.now) label at free) }
    ensures expressions { IfOk result (λ all. exprs_view all.expressions
        ≡ codes.results (L.codes language.now) (map expression_view expressions.now) free) }
    ensures next { IfOk result (λ all. all.next ≡ free + codes.all_uses (L.codes language.now) (map expression_view expressions.now)) }
{
    let mut code = Body::new(alloc);
    let mut results = Exprs::new(alloc);
    let mut next = free;
    for expression in expressions {
        let behind = sum(label, code_len(&code))?;
        let operand = operand_code(alloc, language, expression, behind, at, next)?;
        append(&mut code, operand.code)?;
        results.push(operand.expression)?;
        next = operand.next;
    }
    Ok(Operands {
        code,
        expressions: results,
        next,
    })
}

/// How many temporaries several expressions take.
pub fn operands_uses<L: Operators>(
    language: &L,
    expressions: &[Expression<L::Prefix, L::Joint>],
) -> Result<usize, AllocError>
    ensures { IfOk result (λ n. n ≡ codes.all_uses (L.codes language.now) (map expression_view expressions.now)) }
{
    let mut total = 0;
    for expression in expressions {
        total = sum(total, operand_uses(language, expression)?)?;
    }
    Ok(total)
}
