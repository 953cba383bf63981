//! The C-like language, as its statements are read.
ghost use Rattle.clike_lang.specs.View as views;
ghost use Rattle.clike_operators.specs.Pure as expressions;
ghost use Rattle.clike_lang.specs.Pure as trees;
ghost use Rattle.clike_grammar.specs.Functions.{clike_readers};

use crate::expressions::expression_at;
use crate::simple::simple_at;
use clike_lang::SimpleStatement;
use clike_operators::Expression;
use gil_lexemes::{Cursor, Stop};
use statement_text::StatementReader;
use std::alloc::Global;

/// The C-like language, by its expressions and its statements without statements in them.
pub(crate) struct Statements;

impl StatementReader for Statements {
    type Expression = Expression;

    type Simple = SimpleStatement;

    ghost PureExpression = { expressions.PureExpression };

    ghost PureSimple = { trees.PureSimple };

    ghost expression_view = { views.expression_view };

    ghost simple_view = { views.simple_view };

    ghost readers = { clike_readers };

    fn has_try() -> bool {
        false
    }

    fn expression_at<'a>(
        alloc: Global,
        cursor: Cursor<'a>,
    ) -> Result<(Expression, Cursor<'a>), Stop> {
        expression_at(alloc, cursor)
    }

    fn simple_at<'a>(
        alloc: Global,
        cursor: Cursor<'a>,
    ) -> Result<(SimpleStatement, Cursor<'a>), Stop> {
        simple_at(alloc, cursor)
    }
}
