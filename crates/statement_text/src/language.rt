//! What a reader of statements has to give.
ghost use Rattle.std.specs.Prelude.{◌≡◌};
ghost use Rattle.gil_lexemes.specs.Reading.{Gives};
ghost use Rattle.statement_text.specs.Reading.{Readers};

use gil_lexemes::{Cursor, Stop};
use std::alloc::Global;

/// A language, by the reading of its expressions and its simple statements.
pub trait StatementReader {
    /// Its expressions, which are conditions and values.
    type Expression: Drop;

    /// Its own statements, which have no statements in them.
    type Simple: Drop;

    ghost PureExpression: { Type 0 };

    ghost PureSimple: { Type 0 };

    ghost expression_view: { Self.Expression → PureExpression };

    ghost simple_view: { Self.Simple → PureSimple };

    ghost readers: { Readers PureExpression PureSimple };

    /// Whether it has `try`.
    fn has_try() -> bool
        ensures { result ≡ readers.has_try };

    /// The expression at the front.
    fn expression_at<'a>(
        alloc: Global,
        cursor: Cursor<'a>,
    ) -> Result<(Self::Expression, Cursor<'a>), Stop>
        ensures { Gives (λ found. (expression_view found.0, found.1)) result (readers.expression_at cursor.entry) };

    /// The simple statement at the front, to its last `;`.
    fn simple_at<'a>(alloc: Global, cursor: Cursor<'a>) -> Result<(Self::Simple, Cursor<'a>), Stop>
        ensures { Gives (λ found. (simple_view found.0, found.1)) result (readers.simple_at cursor.entry) };
}
