//! What a language has to give of its operators.
ghost use Rattle.std.specs.Prelude.{◌≡◌, IfOk};
ghost use Rattle.gil_syntax.specs.View.{expr_view};
ghost use Rattle.source_language.specs.Code.{code_view};
ghost use Rattle.source_operators.specs.Codes.{Codes};

use crate::trees::Connective;
use gil_syntax::{Body, Expr};
use gil_values::Text;
use std::alloc::{AllocError, Global};

/// What an expression is compiled to: its commands, what stands for its operand behind them, and the first temporary that is free
/// there.
#[derive(Debug, Drop)]
pub struct Operand {
    pub code: Body,
    pub expression: Expr,
    pub next: usize,
}

/// The operators of a language, by their commands. A value of the type may hold what the commands depend on besides.
pub trait Operators {
    /// The operators of one operand.
    type Prefix: Drop;

    /// The operators of two operands.
    type Joint: Drop;

    ghost codes: { Self → Codes Self.Prefix Self.Joint };

    /// What stands for a variable.
    fn variable(&self, alloc: Global, name: &Text) -> Result<Expr, AllocError>
        ensures { IfOk result (λ e. expr_view e ≡ (codes self.now).variable name.now) };

    /// How many temporaries an operator of one operand takes.
    fn apply_uses(&self, operator: &Self::Prefix) -> usize
        ensures { result ≡ (codes self.now).apply_uses operator.now };

    /// The commands of an operator of one operand at a label, where the temporaries from a number on are free.
    fn apply(
        &self,
        alloc: Global,
        operator: &Self::Prefix,
        label: usize,
        at: u32,
        free: usize,
        operand: &Expr,
    ) -> Result<Body, AllocError>
        ensures { IfOk result (λ code. code_view code ≡ (codes self.now).apply operator.now label at free (expr_view operand.now)) };

    /// How many temporaries an operator of two operands takes.
    fn join_uses(&self, operator: &Self::Joint) -> usize
        ensures { result ≡ (codes self.now).join_uses operator.now };

    /// The commands of an operator of two operands.
    fn join(
        &self,
        alloc: Global,
        operator: &Self::Joint,
        label: usize,
        at: u32,
        free: usize,
        left: &Expr,
        right: &Expr,
    ) -> Result<Body, AllocError>
        ensures { IfOk result (λ code. code_view code
            ≡ (codes self.now).join operator.now label at free (expr_view left.now) (expr_view right.now)) };

    /// Whether what comes out of a connective has its temporary before those of the right side.
    fn early(&self) -> bool
        ensures { result ≡ (codes self.now).early };

    /// How many commands decide whether the right side is skipped.
    fn decide_size(&self, connective: Connective) -> usize
        ensures { result ≡ (codes self.now).decide_size connective };

    /// The commands that decide it, before so many of the right side.
    fn decide(
        &self,
        alloc: Global,
        connective: Connective,
        label: usize,
        at: u32,
        temporary: usize,
        right: usize,
        operand: &Expr,
    ) -> Result<Body, AllocError>
        ensures { IfOk result (λ code. code_view code
            ≡ (codes self.now).decide connective label at temporary right (expr_view operand.now)) };

    /// The commands behind the right side.
    fn conclude(
        &self,
        alloc: Global,
        connective: Connective,
        label: usize,
        at: u32,
        temporary: usize,
        operand: &Expr,
    ) -> Result<Body, AllocError>
        ensures { IfOk result (λ code. code_view code
            ≡ (codes self.now).conclude connective label at temporary (expr_view operand.now)) };
}
