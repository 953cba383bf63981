//! What a language says of its expressions and its simple statements.
ghost use Rattle.std.specs.Prelude.{◌≡◌, map, IfOk};
ghost use Rattle.gil_syntax.specs.View.{expr_view};
ghost use Rattle.source_language.specs.Code.{code_view};
ghost use Rattle.source_statements.specs.Codes.{Codes};

use gil_syntax::{Body, Expr};
use sequence::Sequence;
use std::alloc::{AllocError, Global};

/// What an expression is compiled to: the commands before it can be named, and what names it behind them.
#[derive(Debug, Drop)]
pub struct Front {
    pub code: Body,
    pub operand: Expr,
}

/// A language, by the commands of its expressions and its simple statements.
pub trait Language {
    /// Its expressions, which are conditions and values.
    type Expression: Drop;

    /// Its own statements, which have no statements in them.
    type Simple: Drop;

    ghost PureExpression: { Type 0 };

    ghost PureSimple: { Type 0 };

    ghost expression_view: { Self.Expression → PureExpression };

    ghost simple_view: { Self.Simple → PureSimple };

    ghost codes: { Codes PureExpression PureSimple };

    /// How many temporaries an expression uses.
    fn uses(expression: &Self::Expression) -> Result<usize, AllocError>
        ensures { IfOk result (λ n. n ≡ codes.uses (expression_view expression.now)) };

    /// What an expression is compiled to, from a label on.
    fn front(
        alloc: Global,
        label: usize,
        at: u32,
        expression: &Self::Expression,
    ) -> Result<Front, AllocError>
        ensures code { IfOk result (λ front. code_view front.code ≡ codes.front (expression_view expression.now) label at) }
        ensures operand { IfOk result (λ front. expr_view front.operand ≡ codes.operand (expression_view expression.now)) };

    /// Where jumps are taken that test an operand.
    fn jumps(alloc: Global, operand: &Expr) -> Result<Sequence<Expr>, AllocError>
        ensures { IfOk result (λ es. map expr_view es ≡ codes.jumps (expr_view operand.now)) };

    /// Whether the jumps are taken where a condition holds, or where it doesn't.
    fn jumps_where_true() -> bool
        ensures { result ≡ codes.where_true };

    /// How many temporaries a simple statement uses.
    fn simple_uses(simple: &Self::Simple) -> Result<usize, AllocError>
        ensures { IfOk result (λ n. n ≡ codes.simple_uses (simple_view simple.now)) };

    /// Whether a simple statement may throw: where throws are handled, its commands assign the variable of thrown values.
    fn may_throw(simple: &Self::Simple) -> bool
        ensures { result ≡ codes.may_throw (simple_view simple.now) };

    /// The commands of a simple statement, from a label on, where throws are handled at another label or leave the procedure.
    fn simple_code(
        alloc: Global,
        handler: Option<usize>,
        label: usize,
        at: u32,
        simple: &Self::Simple,
    ) -> Result<Body, AllocError>
        ensures { IfOk result (λ code. code_view code ≡ codes.simple_code handler label at (simple_view simple.now)) };
}
