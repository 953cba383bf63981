//! The next paths of a path.
ghost use Rattle.std.specs.Prelude.{◌≡◌, ◌∷◌, [], Some, None, IfOk, IsTrue};
ghost use Rattle.gil_syntax.specs.Program.{prog_view};
ghost use Rattle.gil_syntax.specs.Simple.{is_simple_command};
ghost use Rattle.gil_syntax.specs.View.{numbered_command_view};
ghost use Rattle.sym_engine.specs.Lawful.{IsOwnAt, IsAskedByMemoryAt, MayAdvance};
ghost use Rattle.sym_engine.specs.Narrow.{StaysNarrow};
ghost use Rattle.sym_model.specs.Lists.{Each};
ghost use Rattle.sym_paths.specs.Forms.{NeedsWhatMatters};
ghost use Rattle.sym_paths.specs.Meaning.{command_of_path};
ghost use Rattle.sym_paths.specs.Steps.{AreNextPaths, IsPlainPath, StaysWithin};
ghost use Rattle.sym_paths.specs.View.{frames_view, path_view, paths_view};
ghost use Rattle.sym_step.specs.Stepping.{AreAtCommands, MayStep};
ghost use Rattle.sym_step.specs.Next.{AreStepped};

use crate::finding::{command_of, place_of};
use crate::following::{Next, next_of};
use gil_syntax::{NumberedCommand, Prog};
use pure_terms::Decider;
use rewrite_book::RuleBook;
use sequence::Sequence;
use std::alloc::{AllocError, Global};
use sym_engine::settle;
use sym_model::SymMemory;
use sym_paths::{Path, Paths};

/// One next path.
fn alone<M: Drop>(alloc: Global, path: Path<M>) -> Result<Paths<M>, AllocError>
    ensures { IfOk result (λ ps. paths_view ps ≡ path_view path ∷ []) }
{
    let mut paths = Sequence::new(alloc);
    paths.push(path)?;
    Ok(paths)
}

/// The next paths at a command: one where it asks nothing, and else what the decider leaves of its candidates.
fn step_at<M: SymMemory, D: Decider>(
    alloc: Global,
    prog: &Prog,
    path: Path<M>,
    rules: &RuleBook,
    decider: &mut D,
    numbered: &NumberedCommand,
) -> Result<Paths<M>, AllocError>
    requires may { MayStep (prog_view prog.now) M.terms (path_view path) }
    requires at { command_of_path (prog_view prog.now) (path_view path) ≡ Some (numbered_command_view numbered.now) }
    requires next { MayAdvance (frames_view path.stack) }
    ensures { IfOk result (λ ps. AreStepped (prog_view prog.now) M.Local.actions M.stands M.terms M.asked M.depends M.plain M.keeps_plain M.keeps_narrow
        (path_view path) (paths_view ps)) }
{
    let here = place_of(alloc, &path.stack, numbered)?;
    let old = path.conds.atoms().len();
    match next_of(alloc, prog, rules, path, &here, numbered)? {
        Next::Alone(path) => alone(alloc, path),
        Next::Asked(candidates) => settle(alloc, decider, old, &here, candidates),
    }
}

/// The next paths of a path (Gillian, Part I, PLDI 2020): one where its command asks nothing, and else what the decider leaves of the
/// command's candidates. The rules may simplify what is asked.
pub fn step<M: SymMemory, D: Decider>(
    alloc: Global,
    prog: &Prog,
    path: Path<M>,
    rules: &RuleBook,
    decider: &mut D,
) -> Result<Paths<M>, AllocError>
    requires { MayStep (prog_view prog.now) M.terms (path_view path) }
    ensures next { IfOk result (λ ps. AreNextPaths (prog_view prog.now) M.Local.actions M.stands M.terms
        (IsOwnAt M.stands M.terms M.asked M.Local.actions (prog_view prog.now) (path_view path))
        (IsAskedByMemoryAt M.stands M.terms M.asked M.Local.actions (prog_view prog.now) (path_view path)) (path_view path) (paths_view ps)) }
    ensures placed { IfOk result (λ ps. Each (λ next. next.ending ≡ None → AreAtCommands (prog_view prog.now) next.stack)
        (paths_view ps)) }
    ensures simple { M.keeps_plain → IfOk result (λ ps. StaysWithin (prog_view prog.now) (λ c. IsTrue (is_simple_command c))
        (IsPlainPath M.plain) (path_view path) (paths_view ps)) }
    ensures narrow { M.keeps_narrow → IfOk result (λ ps. StaysNarrow (prog_view prog.now) M.terms (path_view path) (paths_view ps)) }
    ensures forms { IfOk result (λ ps. Each (NeedsWhatMatters (prog_view prog.now) M.stands M.depends (path_view path)) (paths_view ps)) }
{
    match command_of(prog, &path.stack) {
        Some(numbered) => step_at(alloc, prog, path, rules, decider, numbered),
        None => unreachable!(),
    }
}
