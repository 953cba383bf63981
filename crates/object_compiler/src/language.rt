//! The object language, as its statements are compiled.
ghost use Rattle.object_operators.specs.Pure.{PureExpression};
ghost use Rattle.object_lang.specs.Pure.{PureSimple};
ghost use Rattle.object_lang.specs.View as views;
ghost use Rattle.object_compiler.specs.Compiled.{object_codes};

use crate::simple;
use gil_syntax::{Body, Expr};
use object_lang::SimpleStatement;
use object_operators::{Expression, ObjectOperators};
use sequence::Sequence;
use source_operators::{operand_code, operand_uses};
use source_statements::{Front, Language};
use std::alloc::{AllocError, Global};
use syntax_copy::copy_of_expression;

/// The object language, by its commands.
pub(crate) struct ObjectCodes;

impl Language for ObjectCodes {
    type Expression = Expression;

    type Simple = SimpleStatement;

    ghost PureExpression = { PureExpression };

    ghost PureSimple = { PureSimple };

    ghost expression_view = { views.expression_view };

    ghost simple_view = { views.simple_view };

    ghost codes = { object_codes };

    fn uses(expression: &Expression) -> Result<usize, AllocError> {
        operand_uses(&ObjectOperators, expression)
    }

    fn front(
        alloc: Global,
        label: usize,
        at: u32,
        expression: &Expression,
    ) -> Result<Front, AllocError> {
        let operand = operand_code(alloc, &ObjectOperators, expression, label, at, 0)?;
        Ok(Front {
            code: operand.code,
            operand: operand.expression,
        })
    }

    fn jumps(alloc: Global, operand: &Expr) -> Result<Sequence<Expr>, AllocError> {
        let mut conditions = Sequence::new(alloc);
        conditions.push(copy_of_expression(alloc, operand)?)?;
        Ok(conditions)
    }

    fn jumps_where_true() -> bool {
        true
    }

    fn simple_uses(simple: &SimpleStatement) -> Result<usize, AllocError> {
        simple::simple_uses(simple)
    }

    fn may_throw(simple: &SimpleStatement) -> bool {
        simple::may_throw(simple)
    }

    fn simple_code(
        alloc: Global,
        handler: Option<usize>,
        label: usize,
        at: u32,
        simple: &SimpleStatement,
    ) -> Result<Body, AllocError> {
        simple::simple_code(alloc, handler, label, at, simple)
    }
}
