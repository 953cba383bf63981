//! The next path at the commands that ask nothing.
ghost use Rattle.std.specs.Prelude.{◌≡◌, ◌+◌, ◌<◌, ◌^◌, IfOk};
ghost use Rattle.pure_terms.specs.declared.variables.Sort.TheVariants.{Fresh};
ghost use Rattle.sym_engine.specs.Lawful.{MayAdvance};
ghost use Rattle.sym_evaluation.specs.Pure.{PureStore};
ghost use Rattle.sym_paths.specs.Laws.{IsBound};
ghost use Rattle.sym_paths.specs.Moves.{next_variable, passing, running_store, vanishing, with_draw, with_fresh};
ghost use Rattle.sym_paths.specs.View.{frames_view, path_view};

use crate::frames::{advance, assign};
use gil_values::Text;
use pure_terms::{Sort, Term, Var};
use std::alloc::{AllocError, Global};
use sym_paths::{Path, PathEnd};

/// The path at `vanish`.
pub fn vanish<M: Drop>(path: Path<M>) -> Path<M>
    requires { path.steps + 1 < 2 ^ 32 }
    ensures { path_view result ≡ vanishing (path_view path) }
{
    let mut path = path;
    path.steps += 1;
    path.end_as(PathEnd::Vanished);
    path
}

/// The path at a command that does nothing in a run.
pub fn pass<M: Drop>(path: Path<M>) -> Result<Path<M>, AllocError>
    requires steps { path.steps + 1 < 2 ^ 32 }
    requires next { MayAdvance (frames_view path.stack) }
    ensures { IfOk result (λ next. path_view next ≡ passing (path_view path)) }
{
    let mut path = path;
    advance(&mut path.stack)?;
    path.steps += 1;
    Ok(path)
}

/// The path at `x := usym`, where the variable gets a fresh variable.
pub fn take_symbol<M: Drop>(
    alloc: Global,
    path: Path<M>,
    name: &Text,
) -> Result<Path<M>, AllocError>
    requires steps { path.steps + 1 < 2 ^ 32 }
    requires next { MayAdvance (frames_view path.stack) }
    ensures { IfOk result (λ next. (bs : PureStore) × (IsBound (running_store (frames_view path.stack)) name.now
        (next_variable (path_view path) Fresh) bs × (path_view next ≡ with_fresh (path_view path) bs))) }
{
    let mut path = path;
    let number = path.vars.len() as u64;
    let sort = Sort::Fresh;
    assign(
        alloc,
        &mut path.stack,
        name,
        Term::Var(Var { number, sort }),
    )?;
    path.vars.push(sort)?;
    path.steps += 1;
    Ok(path)
}

/// The path at `x := isym` of a sort of draws, where the variable gets a new variable of that sort.
pub fn draw<M: Drop>(
    alloc: Global,
    path: Path<M>,
    name: &Text,
    sort: Sort,
) -> Result<Path<M>, AllocError>
    requires steps { path.steps + 1 < 2 ^ 32 }
    requires next { MayAdvance (frames_view path.stack) }
    ensures { IfOk result (λ next. (bs : PureStore) × (IsBound (running_store (frames_view path.stack)) name.now
        (next_variable (path_view path) sort) bs × (path_view next ≡ with_draw (path_view path) sort bs))) }
{
    let mut path = path;
    let number = path.vars.len() as u64;
    assign(
        alloc,
        &mut path.stack,
        name,
        Term::Var(Var { number, sort }),
    )?;
    path.drawn.push(Term::Var(Var { number, sort }))?;
    path.vars.push(sort)?;
    path.steps += 1;
    Ok(path)
}
