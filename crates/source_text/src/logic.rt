//! Reading what only proofs look at.
ghost use Rattle.std.specs.Prelude.{◌≡◌};
ghost use Rattle.gil_lexemes.specs.Reading.{Gives};
ghost use Rattle.source_language.specs.View.{invariants_view, logic_view};
ghost use Rattle.source_text.specs.Logic as read;

use gil_lexemes::{Cursor, Stop};
use gil_lexer::{Sign, Word};
use gil_syntax::Command;
use gil_text::logic_at as command_at;
use source_language::{Invariant, Logic};
use std::alloc::Global;

/// What only proofs look at, and its `;`, from its word on.
#[tactic(auto, unfolding(crate::specs::Logic::logic_at))]
pub fn logic_at<'a>(
    alloc: Global,
    word: Word,
    cursor: Cursor<'a>,
) -> Result<(Logic, Cursor<'a>), Stop>
    ensures { Gives (λ found. (logic_view found.0, found.1)) result (read.logic_at word cursor.entry) }
{
    let left = cursor.left();
    let (command, cursor) = command_at(alloc, word, cursor)?;
    let logic = match command {
        Command::Fold(pred_use) => Logic::Fold(pred_use),
        Command::Unfold(pred_use) => Logic::Unfold(pred_use),
        Command::AssertThat(assertion) => Logic::Assert(assertion),
        Command::LoopInvariant(names, logicals, assertion) => Logic::Invariant(Invariant {
            names,
            logicals,
            assertion,
        }),
        _ => return Err(Stop::Syntax(left)),
    };
    let cursor = cursor.sign(Sign::Semicolon)?;
    Ok((logic, cursor))
}

/// The invariant at the front, from its word on.
#[tactic(auto, unfolding(crate::specs::Logic::one_invariant_at))]
fn one_invariant_at<'a>(
    alloc: Global,
    cursor: Cursor<'a>,
) -> Result<(Option<Invariant>, Cursor<'a>), Stop>
    ensures { Gives (λ found. (invariants_view found.0, found.1)) result (read.one_invariant_at cursor.entry) }
{
    let left = cursor.left();
    let (command, cursor) = command_at(alloc, Word::Invariant, cursor)?;
    match command {
        Command::LoopInvariant(names, logicals, assertion) => {
            let invariant = Invariant {
                names,
                logicals,
                assertion,
            };
            Ok((Some(invariant), cursor))
        }
        _ => Err(Stop::Syntax(left)),
    }
}

/// An invariant, where one comes next.
#[tactic(auto, unfolding(crate::specs::Logic::invariant_at))]
pub fn invariant_at<'a>(
    alloc: Global,
    cursor: Cursor<'a>,
) -> Result<(Option<Invariant>, Cursor<'a>), Stop>
    ensures { Gives (λ found. (invariants_view found.0, found.1)) result (read.invariant_at cursor.entry) }
{
    if !cursor.is_at_word(Word::Invariant) {
        return Ok((None, cursor));
    }
    one_invariant_at(alloc, cursor)
}
