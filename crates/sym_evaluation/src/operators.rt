//! What operators require of their operands.
ghost use Rattle.std.specs.Prelude.{◌≡◌, IfOk};
ghost use Rattle.gil_values.specs.declared.operators.BinOp.{BinOp};
ghost use Rattle.gil_values.specs.Operators.{wrong_kind};
ghost use Rattle.pure_terms.specs.View.{term_view};
ghost use Rattle.sym_evaluation.specs.Checks as checks;
ghost use Rattle.sym_evaluation.specs.CheckView.{stage_view};

use crate::checks::{
    append_check, divisor_check, end_check, kind_check, length_check, start_check,
};
use crate::faults::Fault;
use crate::requiring::{Stage, require};
use gil_values::{BinOp, Kind, UnOp};
use pure_terms::Term;
use std::alloc::{AllocError, Global};

fn require_kind(alloc: Global, kind: Kind, term: &Term, stage: Stage) -> Result<Stage, AllocError>
    ensures { IfOk result
        (λ s. stage_view s ≡ checks.required wrong_kind (checks.kind_check kind (term_view term.now)) (stage_view stage)) }
{
    let check = kind_check(alloc, kind, term)?;
    require(alloc, Fault::WrongKind, check, stage)
}

fn require_kinds(
    alloc: Global,
    left: Kind,
    right: Kind,
    s: &Term,
    t: &Term,
    stage: Stage,
) -> Result<Stage, AllocError>
    ensures { IfOk result
        (λ r. stage_view r ≡ checks.kinds_required left right (term_view s.now) (term_view t.now) (stage_view stage)) }
{
    let stage = require_kind(alloc, left, s, stage)?;
    require_kind(alloc, right, t, stage)
}

/// What an operator of one operand requires.
pub fn require_operand(
    alloc: Global,
    op: UnOp,
    operand: &Term,
    stage: Stage,
) -> Result<Stage, AllocError>
    ensures { IfOk result (λ s. stage_view s ≡ checks.unary_required op (term_view operand.now) (stage_view stage)) }
{
    match op {
        UnOp::Not => require_kind(alloc, Kind::Bool, operand, stage),
        UnOp::Neg => require_kind(alloc, Kind::Int, operand, stage),
        UnOp::Len => {
            let check = length_check(alloc, operand)?;
            require(alloc, Fault::WrongKind, check, stage)
        }
        UnOp::Kind => Ok(stage),
    }
}

fn require_divisible(
    alloc: Global,
    left: &Term,
    right: &Term,
    stage: Stage,
) -> Result<Stage, AllocError>
    ensures { IfOk result
        (λ s. stage_view s ≡ checks.binary_required BinOp.Divide (term_view left.now) (term_view right.now) (stage_view stage)) }
{
    let stage = require_kinds(alloc, Kind::Int, Kind::Int, left, right, stage)?;
    let check = divisor_check(alloc, right)?;
    require(alloc, Fault::Zero, check, stage)
}

fn require_element(
    alloc: Global,
    left: &Term,
    right: &Term,
    stage: Stage,
) -> Result<Stage, AllocError>
    ensures { IfOk result
        (λ s. stage_view s ≡ checks.binary_required BinOp.Nth (term_view left.now) (term_view right.now) (stage_view stage)) }
{
    let stage = require_kinds(alloc, Kind::List, Kind::Int, left, right, stage)?;
    let check = start_check(alloc, right)?;
    let stage = require(alloc, Fault::Range, check, stage)?;
    let check = end_check(alloc, left, right)?;
    require(alloc, Fault::Range, check, stage)
}

/// What an operator of two operands requires.
pub fn require_operands(
    alloc: Global,
    op: BinOp,
    left: &Term,
    right: &Term,
    stage: Stage,
) -> Result<Stage, AllocError>
    ensures { IfOk result
        (λ s. stage_view s ≡ checks.binary_required op (term_view left.now) (term_view right.now) (stage_view stage)) }
{
    match op {
        BinOp::Add | BinOp::Subtract | BinOp::Multiply | BinOp::Less | BinOp::LessOrEqual =>
            require_kinds(alloc, Kind::Int, Kind::Int, left, right, stage),
        BinOp::Divide | BinOp::Remainder => require_divisible(alloc, left, right, stage),
        BinOp::Equal => Ok(stage),
        BinOp::And | BinOp::Or => {
            require_kinds(alloc, Kind::Bool, Kind::Bool, left, right, stage)
        }
        BinOp::Append => {
            let check = append_check(alloc, left, right)?;
            require(alloc, Fault::WrongKind, check, stage)
        }
        BinOp::Nth => require_element(alloc, left, right, stage),
    }
}
