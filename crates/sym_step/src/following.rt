//! What comes next of a path, at each command.
ghost use Rattle.std.specs.Prelude.{◌≡◌, Some, IfOk};
ghost use Rattle.gil_syntax.specs.Program.{prog_view};
ghost use Rattle.gil_syntax.specs.View.{numbered_command_view};
ghost use Rattle.sym_engine.specs.Lawful.{MayAdvance};
ghost use Rattle.sym_paths.specs.Meaning.{command_of_path};
ghost use Rattle.sym_paths.specs.Moves.{draw_sort};
ghost use Rattle.sym_paths.specs.View.{frames_view, path_view};
ghost use Rattle.sym_step.specs.Next.{IsNext};
ghost use Rattle.sym_step.specs.Stepping.{MayStep};
ghost use Rattle.sym_step.specs.View.{next_view};

use gil_syntax::{Command, NumberedCommand, Prog};
use gil_values::{Kind, Place};
use pure_terms::Sort;
use rewrite_book::RuleBook;
use std::alloc::{AllocError, Global};
use sym_engine::{
    Candidates, act_candidates, assign_candidates, call_candidates, draw, fail_candidates,
    guard_candidates, pass, return_candidates, take_symbol, throw_candidates, vanish,
};
use sym_model::SymMemory;
use sym_paths::Path;

/// What comes next of a path.
#[derive(Drop)]
pub(crate) enum Next<M> {
    /// The one path of a command that asks nothing.
    Alone(Path<M>),
    /// The candidates of a command that asks something.
    Asked(Candidates<M>),
}

/// The sort of the draws of a kind.
fn sort_of_draw(kind: Kind) -> Option<Sort>
    ensures { result ≡ draw_sort kind }
{
    match kind {
        Kind::Int => Some(Sort::Int),
        Kind::Bool => Some(Sort::Bool),
        Kind::Str => Some(Sort::Str),
        _ => None,
    }
}

/// What comes next at a command.
pub(crate) fn next_of<M: SymMemory>(
    alloc: Global,
    prog: &Prog,
    rules: &RuleBook,
    path: Path<M>,
    here: &Place,
    numbered: &NumberedCommand,
) -> Result<Next<M>, AllocError>
    requires may { MayStep (prog_view prog.now) M.terms (path_view path) }
    requires at { command_of_path (prog_view prog.now) (path_view path) ≡ Some (numbered_command_view numbered.now) }
    requires next { MayAdvance (frames_view path.stack) }
    ensures { IfOk result (λ next. IsNext (prog_view prog.now) M.Local.actions M.stands M.terms M.asked M.depends M.plain M.keeps_plain M.keeps_narrow
        (path_view path) here.now (numbered_command_view numbered.now).command (next_view next)) }
{
    match &numbered.command {
        Command::Vanish => Ok(Next::Alone(vanish(path))),
        Command::Fold(_)
        | Command::Unfold(_)
        | Command::AssertThat(_)
        | Command::LoopInvariant(_, _, _) => Ok(Next::Alone(pass(path)?)),
        Command::Usym(name) => Ok(Next::Alone(take_symbol(alloc, path, name)?)),
        Command::Isym(name, kind) => match sort_of_draw(*kind) {
            Some(sort) => Ok(Next::Alone(draw(alloc, path, name, sort)?)),
            None => unreachable!(),
        },
        Command::Assign(name, value) => {
            Ok(Next::Asked(assign_candidates(alloc, path, here, name, value)?))
        }
        Command::Call(name, callee, arguments, handler) => Ok(Next::Asked(call_candidates(
            alloc, prog, path, here, name, callee, arguments, *handler,
        )?)),
        Command::Act(name, action, arguments) => {
            Ok(Next::Asked(act_candidates(alloc, path, here, name, action, arguments)?))
        }
        Command::IfGoto(guard, label) => {
            Ok(Next::Asked(guard_candidates(alloc, rules, path, here, guard, label)?))
        }
        Command::Return(value) => Ok(Next::Asked(return_candidates(alloc, path, here, value)?)),
        Command::Fail(value) => Ok(Next::Asked(fail_candidates(alloc, path, here, value)?)),
        Command::Throw(value) => Ok(Next::Asked(throw_candidates(alloc, path, here, value)?)),
    }
}
