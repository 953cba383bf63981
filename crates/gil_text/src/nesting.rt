//! How many brackets are open in a text.
ghost use Rattle.std.specs.Prelude.{◌≡◌, ◌≤◌, IfNone, IfSome};
ghost use Rattle.gil_grammar.specs.Nesting.{most_open, IsNested};
ghost use Rattle.gil_text.specs.Brackets.{open_by};
ghost use Rattle.gil_text.specs.Refusals.{IsTooDeep};

use crate::assertions::MOST_OPEN;
use gil_lexemes::Cursor;
use gil_lexer::{Form, Sign};

/// How many brackets are open behind a token of this form, where so many were before it.
fn open_by(count: u32, form: Form) -> u32
    requires { count ≤ most_open }
    ensures { result ≡ open_by count form }
{
    match form {
        Form::Sign(Sign::LeftParenthesis | Sign::LeftBracket | Sign::LeftBrace) => count + 1,
        Form::Sign(Sign::RightParenthesis | Sign::RightBracket | Sign::RightBrace) => {
            count.saturating_sub(1)
        }
        _ => count,
    }
}

/// Where more brackets are open than may be, how many tokens are left from the first one on that opens one too many.
pub fn nesting_fault(cursor: Cursor<'_>) -> Option<usize>
    ensures none { IfNone result (IsNested cursor.entry) }
    ensures some { IfSome result (IsTooDeep IsNested cursor.entry) }
{
    let mut count = 0u32;
    let mut rest = cursor;
    while let Some(form) = rest.first() {
        count = open_by(count, form);
        if count > MOST_OPEN {
            return Some(rest.left());
        }
        rest = rest.behind();
    }
    None
}
