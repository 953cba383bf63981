//! How many operators stand in a statement of a text.
ghost use Rattle.std.specs.Prelude.{◌≡◌, ◌≤◌, IfNone, IfSome};
ghost use Rattle.gil_text.specs.Refusals.{IsTooDeep};
ghost use Rattle.operator_text.specs.Few.{AreFewFrom, IsNestedWithFew, most_operators};
ghost use Rattle.operator_text.specs.Counting as counting;

use gil_lexemes::Cursor;
use gil_lexer::{Form, Sign};
use gil_text::nesting_fault as bracket_fault;

/// How many operators may stand in a statement.
const MOST_OPERATORS: u32 = 64;

/// How many operators there are up to a token of this form, where there were so many before it.
fn operators_by(count: u32, form: Form) -> u32
    requires { count ≤ most_operators }
    ensures { result ≡ counting.operators_by count form }
{
    match form {
        Form::Sign(
            Sign::EqualEqual
            | Sign::NotEqual
            | Sign::LessEqual
            | Sign::GreaterEqual
            | Sign::AndAnd
            | Sign::OrOr
            | Sign::Plus
            | Sign::Minus
            | Sign::Star
            | Sign::Slash
            | Sign::Percent
            | Sign::Less
            | Sign::Greater
            | Sign::Bang
            | Sign::Ampersand
            | Sign::Dot
            | Sign::LeftBracket,
        ) => count + 1,
        Form::Sign(Sign::Semicolon | Sign::LeftBrace | Sign::RightBrace) => 0,
        _ => count,
    }
}

/// Where a statement has more operators than it may, how many tokens are left from the first one on that is one too many.
fn operator_fault(cursor: Cursor<'_>) -> Option<usize>
    ensures none { IfNone result (AreFewFrom 0 cursor.entry) }
    ensures some { IfSome result (IsTooDeep (AreFewFrom 0) cursor.entry) }
{
    let mut count = 0u32;
    let mut rest = cursor;
    while let Some(form) = rest.first() {
        count = operators_by(count, form);
        if count > MOST_OPERATORS {
            return Some(rest.left());
        }
        rest = rest.behind();
    }
    None
}

/// Where more brackets are open than may be, or a statement has more operators than it may, how many tokens are left from the first one
/// on at which either is so.
pub fn nesting_fault(cursor: Cursor<'_>) -> Option<usize>
    ensures none { IfNone result (IsNestedWithFew cursor.entry) }
    ensures some { IfSome result (IsTooDeep IsNestedWithFew cursor.entry) }
{
    let operators = operator_fault(cursor.copy());
    match (bracket_fault(cursor), operators) {
        (Some(brackets), Some(operators)) => {
            if brackets < operators {
                return Some(operators);
            }
            Some(brackets)
        }
        (Some(brackets), None) => Some(brackets),
        (None, Some(operators)) => Some(operators),
        (None, None) => None,
    }
}
