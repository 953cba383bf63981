//! Commands of one expression, or two, or three.
ghost use Rattle.std.specs.Prelude.{◌≡◌, ◌+◌, [], ◌∷◌, ◌++◌, length, IfOk};
ghost use Rattle.gil_syntax.specs.View.{expr_view, exprs_view};
ghost use Rattle.source_language.specs.Code.{code_view};
ghost use Rattle.source_operators.specs.Codes as codes;
ghost use Rattle.object_operators.specs.Codes.{codes_of_operators};
ghost use Rattle.object_lang.specs.View.{expression_view};

use gil_syntax::{Body, Exprs};
use object_operators::{Expression, ObjectOperators};
use source_language::{append, code_len, sum};
use source_operators::{Operands, operand_code};
use std::alloc::{AllocError, Global};

/// No expressions.
fn no_operands(alloc: Global) -> Operands
    ensures code { code_view result.code ≡ [] }
    ensures expressions { exprs_view result.expressions ≡ [] }
    ensures next { result.next ≡ 0 }
{
    Operands {
        code: Body::new(alloc),
        expressions: Exprs::new(alloc),
        next: 0,
    }
}

/// An expression behind others, of which the commands stand at a label.
fn and_operand(
    alloc: Global,
    label: usize,
    at: u32,
    before: Operands,
    expression: &Expression,
) -> Result<Operands, AllocError>
    ensures code { IfOk result (λ all. code_view all.code ≡ code_view before.code
        ++ codes.code codes_of_operators (expression_view expression.now) (label + length (code_view before.code)) at before.next) }
    ensures expressions { IfOk result (λ all. exprs_view all.expressions ≡ exprs_view before.expressions
        ++ codes.result codes_of_operators (expression_view expression.now) before.next ∷ []) }
    ensures next { IfOk result (λ all. all.next ≡ before.next + codes.uses codes_of_operators (expression_view expression.now)) }
{
    let mut code = before.code;
    let behind = sum(label, code_len(&code))?;
    let operand = operand_code(alloc, &ObjectOperators, expression, behind, at, before.next)?;
    append(&mut code, operand.code)?;
    let mut expressions = before.expressions;
    expressions.push(operand.expression)?;
    Ok(Operands {
        code,
        expressions,
        next: operand.next,
    })
}

/// One expression at a label.
#[tactic(auto, using(crate::proofs::Fronts::code_of_one))]
pub(crate) fn one_operand(
    alloc: Global,
    label: usize,
    at: u32,
    first: &Expression,
) -> Result<Operands, AllocError>
    ensures code { IfOk result (λ all. code_view all.code ≡ codes.all_code codes_of_operators (expression_view first.now ∷ []) label at 0) }
    ensures expressions { IfOk result (λ all. exprs_view all.expressions
        ≡ codes.results codes_of_operators (expression_view first.now ∷ []) 0) }
    ensures next { IfOk result (λ all. all.next ≡ codes.all_uses codes_of_operators (expression_view first.now ∷ [])) }
{
    and_operand(alloc, label, at, no_operands(alloc), first)
}

/// Two expressions at a label.
#[tactic(auto, using(crate::proofs::Fronts::code_of_two))]
pub(crate) fn two_operands(
    alloc: Global,
    label: usize,
    at: u32,
    first: &Expression,
    second: &Expression,
) -> Result<Operands, AllocError>
    ensures code { IfOk result (λ all. code_view all.code
        ≡ codes.all_code codes_of_operators (expression_view first.now ∷ expression_view second.now ∷ []) label at 0) }
    ensures expressions { IfOk result (λ all. exprs_view all.expressions
        ≡ codes.results codes_of_operators (expression_view first.now ∷ expression_view second.now ∷ []) 0) }
    ensures next { IfOk result (λ all. all.next
        ≡ codes.all_uses codes_of_operators (expression_view first.now ∷ expression_view second.now ∷ [])) }
{
    let first = and_operand(alloc, label, at, no_operands(alloc), first)?;
    and_operand(alloc, label, at, first, second)
}

/// Three expressions at a label.
#[tactic(auto, using(crate::proofs::Fronts::code_of_three))]
pub(crate) fn three_operands(
    alloc: Global,
    label: usize,
    at: u32,
    first: &Expression,
    second: &Expression,
    third: &Expression,
) -> Result<Operands, AllocError>
    ensures code { IfOk result (λ all. code_view all.code ≡ codes.all_code codes_of_operators
        (expression_view first.now ∷ expression_view second.now ∷ expression_view third.now ∷ []) label at 0) }
    ensures expressions { IfOk result (λ all. exprs_view all.expressions ≡ codes.results codes_of_operators
        (expression_view first.now ∷ expression_view second.now ∷ expression_view third.now ∷ []) 0) }
    ensures next { IfOk result (λ all. all.next ≡ codes.all_uses codes_of_operators
        (expression_view first.now ∷ expression_view second.now ∷ expression_view third.now ∷ [])) }
{
    let first = and_operand(alloc, label, at, no_operands(alloc), first)?;
    let second = and_operand(alloc, label, at, first, second)?;
    and_operand(alloc, label, at, second, third)
}
