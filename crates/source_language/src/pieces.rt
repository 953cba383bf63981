//! Commands that are put one after the other.
ghost use Rattle.std.specs.Prelude.{◌≡◌, ◌+◌, [], ◌∷◌, ◌++◌, length, IfOk, OnOk};
ghost use Rattle.gil_values.specs.Characters.{IsText};
ghost use Rattle.gil_syntax.specs.View.{command_view, expr_view};
ghost use Rattle.source_language.specs.Code as code;
ghost use Rattle.source_language.specs.Code.{code_view};
ghost use Rattle.source_language.specs.Procedures.{placed};

use gil_syntax::{Body, Command, Expr, NumberedCommand};
use gil_values::Text;
use std::alloc::{AllocError, Global};

/// The text with these characters.
pub fn text(alloc: Global, characters: &str) -> Result<Text, AllocError>
    requires { IsText characters.now }
    ensures { IfOk result (λ t. t ≡ characters.now) }
{
    match Text::from_str(alloc, characters)? {
        Some(text) => Ok(text),
        None => unreachable!(),
    }
}

/// A command after the others, with a place.
pub fn put(commands: &mut Body, at: u32, command: Command) -> Result<(), AllocError>
    ensures { OnOk result (code_view commands.new ≡ code_view commands.old ++ placed at (command_view command) ∷ []) }
{
    commands.push(NumberedCommand { command, at })
}

/// One command, with a place.
pub fn one(alloc: Global, at: u32, command: Command) -> Result<Body, AllocError>
    ensures { IfOk result (λ code. code_view code ≡ placed at (command_view command) ∷ []) }
{
    let mut code = Body::new(alloc);
    put(&mut code, at, command)?;
    Ok(code)
}

/// A jump after the other commands. No body in memory is so long that its labels don't fit.
pub fn jump(commands: &mut Body, at: u32, condition: Expr, label: usize) -> Result<(), AllocError>
    ensures { OnOk result (code_view commands.new ≡ code_view commands.old ++ code.jump at (expr_view condition) label ∷ []) }
{
    if label > 9_223_372_036_854_775_807 {
        return Err(AllocError);
    }
    put(commands, at, Command::IfGoto(condition, label as i64))
}

/// More commands after the others.
pub fn append(commands: &mut Body, more: Body) -> Result<(), AllocError>
    ensures { OnOk result (code_view commands.new ≡ code_view commands.old ++ code_view more) }
{
    for command in more.into_vec() {
        commands.push(command)?;
    }
    Ok(())
}

/// How many commands there are.
pub fn code_len(commands: &Body) -> usize
    ensures { result ≡ length (code_view commands.now) }
{
    commands.len()
}

/// The sum of two counts. No body in memory is so long that it doesn't fit.
pub fn sum(count: usize, more: usize) -> Result<usize, AllocError>
    ensures { IfOk result (λ total. total ≡ count + more) }
{
    match count.checked_add(more) {
        Some(total) => Ok(total),
        None => Err(AllocError),
    }
}
