//! Reading declared names.
ghost use Rattle.std.specs.Prelude.{◌≡◌, length};
ghost use Rattle.gil_lexemes.specs.Reading.{Gives};
ghost use Rattle.clike_grammar.specs.Reading as read;

use gil_lexemes::{Cursor, Stop};
use gil_lexer::Sign;
use gil_values::Text;
use std::alloc::Global;

/// The cursor behind the stars at the front.
fn behind_stars<'a>(cursor: Cursor<'a>) -> Cursor<'a>
    ensures { result ≡ read.behind_stars cursor.entry }
{
    let mut rest = cursor;
    while rest.is_at(Sign::Star) {
        rest = rest.behind();
    }
    rest
}

/// Stars and a name, behind `int`.
pub(crate) fn declared_name_at<'a>(
    alloc: Global,
    cursor: Cursor<'a>,
) -> Result<(Text, Cursor<'a>), Stop>
    ensures { Gives (λ found. (found.0, found.1)) result (read.declared_name_at cursor.entry) }
{
    behind_stars(cursor).name(alloc)
}
