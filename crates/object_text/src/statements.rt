//! The object language, as its statements are read.
ghost use Rattle.object_lang.specs.View as views;
ghost use Rattle.object_operators.specs.Pure as expressions;
ghost use Rattle.object_lang.specs.Pure as trees;
ghost use Rattle.object_grammar.specs.Functions.{object_readers};

use crate::expressions::expression_at;
use crate::simple::simple_at;
use gil_lexemes::{Cursor, Stop};
use object_lang::SimpleStatement;
use object_operators::Expression;
use statement_text::StatementReader;
use std::alloc::Global;

/// The object language, by its expressions and its statements without statements in them.
pub(crate) struct Statements;

impl StatementReader for Statements {
    type Expression = Expression;

    type Simple = SimpleStatement;

    ghost PureExpression = { expressions.PureExpression };

    ghost PureSimple = { trees.PureSimple };

    ghost expression_view = { views.expression_view };

    ghost simple_view = { views.simple_view };

    ghost readers = { object_readers };

    fn has_try() -> bool {
        true
    }

    fn expression_at<'a>(
        alloc: Global,
        cursor: Cursor<'a>,
    ) -> Result<(Expression, Cursor<'a>), Stop> {
        expression_at(alloc, cursor)
    }

    fn simple_at<'a>(
        alloc: Global,
        cursor: Cursor<'a>,
    ) -> Result<(SimpleStatement, Cursor<'a>), Stop> {
        simple_at(alloc, cursor)
    }
}
