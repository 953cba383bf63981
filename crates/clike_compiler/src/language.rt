//! The C-like language, as its statements are compiled.
ghost use Rattle.clike_operators.specs.Pure.{PureExpression};
ghost use Rattle.clike_lang.specs.Pure.{PureSimple};
ghost use Rattle.clike_lang.specs.View as views;
ghost use Rattle.clike_compiler.specs.Compiled.{clike_codes};

use crate::simple;
use clike_lang::SimpleStatement;
use clike_operators::{Clike, Expression};
use gil_syntax::{Body, Expr};
use sequence::Sequence;
use source_operators::{operand_code, operand_uses};
use source_statements::{Front, Language};
use std::alloc::{AllocError, Global};

/// The C-like language, by its commands.
pub(crate) struct ClikeCodes;

impl Language for ClikeCodes {
    type Expression = Expression;

    type Simple = SimpleStatement;

    ghost PureExpression = { PureExpression };

    ghost PureSimple = { PureSimple };

    ghost expression_view = { views.expression_view };

    ghost simple_view = { views.simple_view };

    ghost codes = { clike_codes };

    fn uses(expression: &Expression) -> Result<usize, AllocError> {
        operand_uses(&Clike, expression)
    }

    fn front(
        alloc: Global,
        label: usize,
        at: u32,
        expression: &Expression,
    ) -> Result<Front, AllocError> {
        let operand = operand_code(alloc, &Clike, expression, label, at, 0)?;
        Ok(Front {
            code: operand.code,
            operand: operand.expression,
        })
    }

    fn jumps(alloc: Global, operand: &Expr) -> Result<Sequence<Expr>, AllocError> {
        simple::false_conditions(alloc, operand)
    }

    fn jumps_where_true() -> bool {
        false
    }

    fn simple_uses(simple: &SimpleStatement) -> Result<usize, AllocError> {
        simple::simple_uses(simple)
    }

    fn may_throw(_simple: &SimpleStatement) -> bool {
        false
    }

    fn simple_code(
        alloc: Global,
        _handler: Option<usize>,
        label: usize,
        at: u32,
        simple: &SimpleStatement,
    ) -> Result<Body, AllocError> {
        simple::simple_code(alloc, label, at, simple)
    }
}
