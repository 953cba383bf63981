//! Reading commands.
ghost use Rattle.std.specs.Prelude.{◌≡◌, length};
ghost use Rattle.gil_lexer.specs.declared.signs.Sign.TheVariants as signs;
ghost use Rattle.gil_lexemes.specs.Lists.{more_at, with_front};
ghost use Rattle.gil_lexemes.specs.Reading.{Gives, name_at};
ghost use Rattle.gil_syntax.specs.View.{command_view};
ghost use Rattle.gil_grammar.specs.Reading.Commands as read;

use crate::assertions::{block_at, expression_at, expressions_at, use_at, variables_at};
use crate::vocabulary::{input_of_word, named_at, word_of};
use gil_grammar::Position;
use gil_lexemes::{Cursor, Stop};
use gil_lexer::{Form, Sign, Word};
use gil_syntax::{Command, Texts};
use gil_values::Text;
use sequence::Sequence;
use std::alloc::Global;

/// `e`, which is assigned to the variable.
fn assign_at<'a>(
    alloc: Global,
    variable: Text,
    cursor: Cursor<'a>,
) -> Result<(Command, Cursor<'a>), Stop>
    ensures { Gives (λ found. (command_view found.0, found.1)) result (read.assign_at variable cursor.entry) }
{
    let (value, cursor) = expression_at(alloc, Position::Command, cursor)?;
    Ok((Command::Assign(variable, value), cursor))
}

/// `catch label`, or nothing.
#[tactic(auto, unfolding(gil_grammar::specs::Reading::Commands::handler_at))]
fn handler_at<'a>(cursor: Cursor<'a>) -> Result<(Option<i64>, Cursor<'a>), Stop>
    ensures { Gives (λ found. (found.0, found.1)) result (read.handler_at cursor.entry) }
{
    if !cursor.is_at_word(Word::Catch) {
        return Ok((None, cursor));
    }
    let (label, cursor) = cursor.behind().number()?;
    Ok((Some(label), cursor))
}

/// `e(e, ..)` and the label of its handler, behind `call`.
#[tactic(auto, unfolding(gil_grammar::specs::Reading::Commands::call_at))]
fn call_at<'a>(
    alloc: Global,
    variable: Text,
    cursor: Cursor<'a>,
) -> Result<(Command, Cursor<'a>), Stop>
    ensures { Gives (λ found. (command_view found.0, found.1)) result (read.call_at variable cursor.entry) }
{
    let (callee, cursor) = expression_at(alloc, Position::Command, cursor)?;
    let cursor = cursor.sign(Sign::LeftParenthesis)?;
    let (arguments, cursor) = expressions_at(
        alloc,
        Position::Command,
        Sign::RightParenthesis,
        cursor,
    )?;
    let cursor = cursor.sign(Sign::RightParenthesis)?;
    let (handler, cursor) = handler_at(cursor)?;
    let call = Command::Call(variable, callee, arguments, handler);
    Ok((call, cursor))
}

/// `action(e, ..)`, behind `do`.
#[tactic(auto, unfolding(gil_grammar::specs::Reading::Commands::act_at))]
fn act_at<'a>(
    alloc: Global,
    variable: Text,
    cursor: Cursor<'a>,
) -> Result<(Command, Cursor<'a>), Stop>
    ensures { Gives (λ found. (command_view found.0, found.1)) result (read.act_at variable cursor.entry) }
{
    let (action, cursor) = named_at(alloc, Position::Action, cursor)?;
    let cursor = cursor.sign(Sign::LeftParenthesis)?;
    let (arguments, cursor) = expressions_at(
        alloc,
        Position::Command,
        Sign::RightParenthesis,
        cursor,
    )?;
    let cursor = cursor.sign(Sign::RightParenthesis)?;
    Ok((Command::Act(variable, action, arguments), cursor))
}

/// A sort of inputs, behind `isym`.
#[tactic(auto, unfolding(gil_grammar::specs::Reading::Commands::isym_at))]
fn isym_at<'a>(variable: Text, cursor: Cursor<'a>) -> Result<(Command, Cursor<'a>), Stop>
    ensures { Gives (λ found. (command_view found.0, found.1)) result (read.isym_at variable cursor.entry) }
{
    let Some(word) = word_of(cursor.first()) else {
        return Err(Stop::Syntax(cursor.left()));
    };
    match input_of_word(word) {
        Some(kind) => Ok((Command::Isym(variable, kind), cursor.behind())),
        None => Err(Stop::Syntax(cursor.left())),
    }
}

/// What is assigned to the variable, behind `:=`.
fn assigned_at<'a>(
    alloc: Global,
    variable: Text,
    cursor: Cursor<'a>,
) -> Result<(Command, Cursor<'a>), Stop>
    ensures { Gives (λ found. (command_view found.0, found.1)) result (read.assigned_at variable cursor.entry) }
{
    match cursor.first() {
        Some(Form::Word(Word::Call)) => call_at(alloc, variable, cursor.behind()),
        Some(Form::Word(Word::Do)) => act_at(alloc, variable, cursor.behind()),
        Some(Form::Word(Word::Usym)) => Ok((Command::Usym(variable), cursor.behind())),
        Some(Form::Word(Word::Isym)) => isym_at(variable, cursor.behind()),
        _ => assign_at(alloc, variable, cursor),
    }
}

/// `x := ..`
#[tactic(auto, unfolding(gil_grammar::specs::Reading::Commands::assignment_at))]
fn assignment_at<'a>(alloc: Global, cursor: Cursor<'a>) -> Result<(Command, Cursor<'a>), Stop>
    ensures { Gives (λ found. (command_view found.0, found.1)) result (read.assignment_at cursor.entry) }
{
    let (variable, cursor) = cursor.name(alloc)?;
    let cursor = cursor.sign(Sign::ColonEqual)?;
    assigned_at(alloc, variable, cursor)
}

/// `e i`, behind `ifgoto`.
#[tactic(auto, unfolding(gil_grammar::specs::Reading::Commands::ifgoto_at))]
fn ifgoto_at<'a>(alloc: Global, cursor: Cursor<'a>) -> Result<(Command, Cursor<'a>), Stop>
    ensures { Gives (λ found. (command_view found.0, found.1)) result (read.ifgoto_at cursor.entry) }
{
    let (guard, cursor) = expression_at(alloc, Position::Command, cursor)?;
    let (label, cursor) = cursor.number()?;
    Ok((Command::IfGoto(guard, label), cursor))
}

/// `e`, behind `return`.
fn return_at<'a>(alloc: Global, cursor: Cursor<'a>) -> Result<(Command, Cursor<'a>), Stop>
    ensures { Gives (λ found. (command_view found.0, found.1)) result (read.return_at cursor.entry) }
{
    let (value, cursor) = expression_at(alloc, Position::Command, cursor)?;
    Ok((Command::Return(value), cursor))
}

/// `e`, behind `fail`.
fn fail_at<'a>(alloc: Global, cursor: Cursor<'a>) -> Result<(Command, Cursor<'a>), Stop>
    ensures { Gives (λ found. (command_view found.0, found.1)) result (read.fail_at cursor.entry) }
{
    let (value, cursor) = expression_at(alloc, Position::Command, cursor)?;
    Ok((Command::Fail(value), cursor))
}

/// `e`, behind `throw`.
fn throw_at<'a>(alloc: Global, cursor: Cursor<'a>) -> Result<(Command, Cursor<'a>), Stop>
    ensures { Gives (λ found. (command_view found.0, found.1)) result (read.throw_at cursor.entry) }
{
    let (value, cursor) = expression_at(alloc, Position::Command, cursor)?;
    Ok((Command::Throw(value), cursor))
}

/// A use of a predicate, behind `fold`.
fn fold_at<'a>(alloc: Global, cursor: Cursor<'a>) -> Result<(Command, Cursor<'a>), Stop>
    ensures { Gives (λ found. (command_view found.0, found.1)) result (read.fold_at cursor.entry) }
{
    let (pred_use, cursor) = use_at(alloc, cursor)?;
    Ok((Command::Fold(pred_use), cursor))
}

/// A use of a predicate, behind `unfold`.
fn unfold_at<'a>(alloc: Global, cursor: Cursor<'a>) -> Result<(Command, Cursor<'a>), Stop>
    ensures { Gives (λ found. (command_view found.0, found.1)) result (read.unfold_at cursor.entry) }
{
    let (pred_use, cursor) = use_at(alloc, cursor)?;
    Ok((Command::Unfold(pred_use), cursor))
}

/// `{ assertion }`, behind `assert`.
fn assert_at<'a>(alloc: Global, cursor: Cursor<'a>) -> Result<(Command, Cursor<'a>), Stop>
    ensures { Gives (λ found. (command_view found.0, found.1)) result (read.assert_at cursor.entry) }
{
    let (items, cursor) = block_at(alloc, cursor)?;
    Ok((Command::AssertThat(items), cursor))
}

/// The names up to the closing sign, with commas between them.
pub fn names_at<'a>(
    alloc: Global,
    closing: Sign,
    cursor: Cursor<'a>,
) -> Result<(Texts, Cursor<'a>), Stop>
    ensures { Gives (λ found. (found.0, found.1)) result (read.names_at closing cursor.entry) }
{
    let mut list = Sequence::new(alloc);
    if cursor.is_at(closing) {
        return Ok((list, cursor));
    }
    let (first, cursor) = cursor.name(alloc)?;
    list.push(first)?;
    more_names(alloc, list, cursor)
}

/// The names of the list, and those at the front that stand behind a comma each.
fn more_names<'a>(
    alloc: Global,
    list: Texts,
    cursor: Cursor<'a>,
) -> Result<(Texts, Cursor<'a>), Stop>
    ensures { Gives (λ found. (found.0, found.1)) result
        (with_front list (more_at name_at (length cursor.entry) signs.Comma cursor.entry)) }
{
    let mut list = list;
    let mut rest = cursor;
    // Each turn takes a comma at least.
    let most = rest.left();
    for _ in 0..most {
        if !rest.is_at(Sign::Comma) {
            return Ok((list, rest));
        }
        let (name, behind) = rest.behind().name(alloc)?;
        list.push(name)?;
        rest = behind;
    }
    Ok((list, rest))
}

/// `(x, ..) [#x : sort, ..] { assertion }`, behind `invariant`.
#[tactic(auto, unfolding(gil_grammar::specs::Reading::Commands::invariant_at))]
fn invariant_at<'a>(alloc: Global, cursor: Cursor<'a>) -> Result<(Command, Cursor<'a>), Stop>
    ensures { Gives (λ found. (command_view found.0, found.1)) result (read.invariant_at cursor.entry) }
{
    let cursor = cursor.sign(Sign::LeftParenthesis)?;
    let (names, cursor) = names_at(alloc, Sign::RightParenthesis, cursor)?;
    let cursor = cursor.sign(Sign::RightParenthesis)?;
    let (variables, cursor) = variables_at(alloc, cursor)?;
    let (items, cursor) = block_at(alloc, cursor)?;
    Ok((Command::LoopInvariant(names, variables, items), cursor))
}

/// The command of which assertions are made, which begins with this reserved word.
pub fn logic_at<'a>(
    alloc: Global,
    word: Word,
    cursor: Cursor<'a>,
) -> Result<(Command, Cursor<'a>), Stop>
    ensures { Gives (λ found. (command_view found.0, found.1)) result (read.logic_by word cursor.entry) }
{
    match word {
        Word::Fold => fold_at(alloc, cursor.behind()),
        Word::Unfold => unfold_at(alloc, cursor.behind()),
        Word::Assert => assert_at(alloc, cursor.behind()),
        Word::Invariant => invariant_at(alloc, cursor.behind()),
        _ => Err(Stop::Syntax(cursor.left())),
    }
}

/// The command that begins with this reserved word.
fn worded_at<'a>(
    alloc: Global,
    word: Word,
    cursor: Cursor<'a>,
) -> Result<(Command, Cursor<'a>), Stop>
    ensures { Gives (λ found. (command_view found.0, found.1)) result (read.worded_by word cursor.entry) }
{
    match word {
        Word::Ifgoto => ifgoto_at(alloc, cursor.behind()),
        Word::Return => return_at(alloc, cursor.behind()),
        Word::Fail => fail_at(alloc, cursor.behind()),
        Word::Throw => throw_at(alloc, cursor.behind()),
        Word::Vanish => Ok((Command::Vanish, cursor.behind())),
        _ => logic_at(alloc, word, cursor),
    }
}

/// The command at the front.
#[tactic(auto, unfolding(gil_grammar::specs::Reading::Commands::command_at))]
fn command_at<'a>(alloc: Global, cursor: Cursor<'a>) -> Result<(Command, Cursor<'a>), Stop>
    ensures { Gives (λ found. (command_view found.0, found.1)) result (read.command_at cursor.entry) }
{
    match cursor.first() {
        Some(Form::Name) => assignment_at(alloc, cursor),
        Some(Form::Word(word)) => worded_at(alloc, word, cursor),
        _ => Err(Stop::Syntax(cursor.left())),
    }
}

/// The command at the front, and its `;`.
#[tactic(auto, unfolding(gil_grammar::specs::Reading::Commands::statement_at))]
pub(crate) fn statement_at<'a>(
    alloc: Global,
    cursor: Cursor<'a>,
) -> Result<(Command, Cursor<'a>), Stop>
    ensures { Gives (λ found. (command_view found.0, found.1)) result (read.statement_at cursor.entry) }
{
    let (command, cursor) = command_at(alloc, cursor)?;
    let cursor = cursor.sign(Sign::Semicolon)?;
    Ok((command, cursor))
}
