//! Reading procedures, specifications and predicates.
ghost use Rattle.std.specs.Prelude.{◌≡◌, map};
ghost use Rattle.gil_lexemes.specs.Reading.{Gives};
ghost use Rattle.gil_syntax.specs.View.{numbered_command_view, proc_view, spec_view, pred_def_view};
ghost use Rattle.gil_grammar.specs.Reading.Programs as read;
ghost use Rattle.gil_text.specs.Located.{text_item_view};

use crate::assertions::{block_at, params_at, variables_at};
use crate::blocks::{blocks_at, posts_at};
use crate::commands::{names_at, statement_at};
use crate::located::TextItem;
use crate::vocabulary::{named_at, word_of};
use gil_grammar::{Extent, Naming, Opening, Position};
use gil_lexemes::{Cursor, Stop};
use gil_lexer::{Sign, Word};
use gil_syntax::{Body, NumberedCommand, PredDef, Proc, Spec};
use sequence::Sequence;
use std::alloc::Global;

/// The commands up to the closing brace, each with its index as its number.
fn body_at<'a>(alloc: Global, cursor: Cursor<'a>) -> Result<(Body, Cursor<'a>), Stop>
    ensures { Gives (λ found. (map numbered_command_view found.0, found.1)) result (read.body_at cursor.entry) }
{
    let mut list = Sequence::new(alloc);
    let mut rest = cursor;
    // Each turn takes a command.
    let most = rest.left();
    for index in 0..most {
        if rest.is_at(Sign::RightBrace) {
            return Ok((list, rest));
        }
        let (command, behind) = statement_at(alloc, rest)?;
        // So many commands are more than memory holds.
        let Ok(at) = u32::try_from(index) else {
            return Err(Stop::Memory);
        };
        list.push(NumberedCommand { command, at })?;
        rest = behind;
    }
    Ok((list, rest))
}

/// `name(x, ..) { command; .. }`, behind `proc`.
#[tactic(auto, unfolding(gil_grammar::specs::Reading::Programs::proc_at))]
fn proc_at<'a>(alloc: Global, cursor: Cursor<'a>) -> Result<(Proc, Cursor<'a>), Stop>
    ensures { Gives (λ found. (proc_view found.0, found.1)) result (read.proc_at cursor.entry) }
{
    let (name, cursor) = cursor.name(alloc)?;
    let cursor = cursor.sign(Sign::LeftParenthesis)?;
    let (params, cursor) = names_at(alloc, Sign::RightParenthesis, cursor)?;
    let cursor = cursor.sign(Sign::RightParenthesis)?;
    let cursor = cursor.sign(Sign::LeftBrace)?;
    let (body, cursor) = body_at(alloc, cursor)?;
    let cursor = cursor.sign(Sign::RightBrace)?;
    Ok((Proc { name, params, body }, cursor))
}

/// `name(x : sort, ..) [#x : sort, ..] { precondition } { postcondition } .. throw { error postcondition } ..`, behind `spec`.
#[tactic(auto, unfolding(gil_grammar::specs::Reading::Programs::spec_at))]
pub fn spec_at<'a>(
    alloc: Global,
    extent: Extent,
    cursor: Cursor<'a>,
) -> Result<(Spec, Cursor<'a>), Stop>
    ensures { Gives (λ found. (spec_view found.0, found.1)) result (read.spec_at extent cursor.entry) }
{
    let (name, cursor) = cursor.name(alloc)?;
    let cursor = cursor.sign(Sign::LeftParenthesis)?;
    let (params, cursor) = params_at(alloc, Naming::Program, Sign::RightParenthesis, cursor)?;
    let cursor = cursor.sign(Sign::RightParenthesis)?;
    let (logicals, cursor) = variables_at(alloc, cursor)?;
    let (pre, cursor) = block_at(alloc, cursor)?;
    let ((posts, errors), cursor) = posts_at(alloc, extent, cursor)?;
    let specification = Spec {
        name,
        params,
        logicals,
        pre,
        posts,
        errors,
    };
    Ok((specification, cursor))
}

/// `name(x : sort, ..; x : sort, ..) [#x : sort, ..] { case } ..`, behind `pred`.
#[tactic(auto, unfolding(gil_grammar::specs::Reading::Programs::pred_at))]
pub fn pred_at<'a>(
    alloc: Global,
    extent: Extent,
    cursor: Cursor<'a>,
) -> Result<(PredDef, Cursor<'a>), Stop>
    ensures { Gives (λ found. (pred_def_view found.0, found.1)) result (read.pred_at extent cursor.entry) }
{
    let (name, cursor) = named_at(alloc, Position::Predicate, cursor)?;
    let cursor = cursor.sign(Sign::LeftParenthesis)?;
    let (ins, cursor) = params_at(alloc, Naming::Program, Sign::Semicolon, cursor)?;
    let cursor = cursor.sign(Sign::Semicolon)?;
    let (outs, cursor) = params_at(alloc, Naming::Program, Sign::RightParenthesis, cursor)?;
    let cursor = cursor.sign(Sign::RightParenthesis)?;
    let (logicals, cursor) = variables_at(alloc, cursor)?;
    let (cases, cursor) = blocks_at(alloc, Opening::Brace, extent, cursor)?;
    let predicate = PredDef {
        name,
        ins,
        outs,
        logicals,
        cases,
    };
    Ok((predicate, cursor))
}

/// The procedure at the front.
fn a_proc_at<'a>(alloc: Global, cursor: Cursor<'a>) -> Result<(TextItem<Proc>, Cursor<'a>), Stop>
    ensures { Gives (λ found. (text_item_view found.0, found.1)) result (read.a_proc_at cursor.entry) }
{
    let (procedure, cursor) = proc_at(alloc, cursor.behind())?;
    Ok((TextItem::Function(procedure), cursor))
}

/// The specification at the front.
fn a_spec_at<'a>(alloc: Global, cursor: Cursor<'a>) -> Result<(TextItem<Proc>, Cursor<'a>), Stop>
    ensures { Gives (λ found. (text_item_view found.0, found.1)) result (read.a_spec_at cursor.entry) }
{
    let (specification, cursor) = spec_at(alloc, Extent::Whole, cursor.behind())?;
    Ok((TextItem::Spec(specification), cursor))
}

/// The predicate at the front.
fn a_pred_at<'a>(alloc: Global, cursor: Cursor<'a>) -> Result<(TextItem<Proc>, Cursor<'a>), Stop>
    ensures { Gives (λ found. (text_item_view found.0, found.1)) result (read.a_pred_at cursor.entry) }
{
    let (predicate, cursor) = pred_at(alloc, Extent::Whole, cursor.behind())?;
    Ok((TextItem::Pred(predicate), cursor))
}

/// The item at the front.
#[tactic(auto, unfolding(gil_grammar::specs::Reading::Programs::item_at))]
pub(crate) fn item_at<'a>(
    alloc: Global,
    cursor: Cursor<'a>,
) -> Result<(TextItem<Proc>, Cursor<'a>), Stop>
    ensures { Gives (λ found. (text_item_view found.0, found.1)) result (read.item_at cursor.entry) }
{
    match word_of(cursor.first()) {
        Some(Word::Proc) => a_proc_at(alloc, cursor),
        Some(Word::Spec) => a_spec_at(alloc, cursor),
        Some(Word::Pred) => a_pred_at(alloc, cursor),
        _ => Err(Stop::Syntax(cursor.left())),
    }
}
