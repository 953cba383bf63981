//! What a language has to say of the lexemes of its expressions.
ghost use Rattle.std.specs.Prelude.{◌≡◌};
ghost use Rattle.gil_lexemes.specs.Reading.{Gives};
ghost use Rattle.source_operators.specs.View.{expression_view};
ghost use Rattle.operator_text.specs.Apart.{AreApart};
ghost use Rattle.operator_text.specs.Reading as read;
ghost use Rattle.operator_text.specs.Signs.{Signs};

use gil_lexemes::{Cursor, Stop};
use gil_lexer::Form;
use source_operators::{Expression, Operator};
use std::alloc::Global;

/// A language, by the lexemes of its expressions.
pub trait OperatorLanguage {
    /// The operators of one operand.
    type Prefix: Drop;

    /// The operators of two operands.
    type Joint: Drop;

    ghost signs: { Signs Self.Prefix Self.Joint };

    /// The operator of one operand that a token of this form is.
    fn prefix(form: Form) -> Option<Self::Prefix>
        ensures { result ≡ signs.prefix form };

    fn operation(operator: Operator) -> Self::Joint
        ensures { result ≡ signs.operation operator };

    /// The operator that a suffix is.
    fn indexed() -> Self::Joint
        ensures { result ≡ signs.indexed };

    /// What `&` makes of an operator.
    fn taken(operator: Self::Joint) -> Option<Self::Joint>
        ensures { result ≡ signs.taken operator };

    /// Whether a dot and a name are a suffix.
    fn dots() -> bool
        ensures { result ≡ signs.dots };

    /// The constant or the variable at the front.
    fn leaf_at<'a>(
        alloc: Global,
        cursor: Cursor<'a>,
    ) -> Result<(Expression<Self::Prefix, Self::Joint>, Cursor<'a>), Stop>
        ensures { Gives (λ found. (expression_view found.0, found.1)) result (read.leaf_at signs cursor.entry) };

    ghost apart: { AreApart signs };
}
