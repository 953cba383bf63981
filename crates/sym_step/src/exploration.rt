//! Exploration depth first, over the paths that are left.
ghost use Rattle.std.specs.Prelude.{◌≡◌, ◌≤◌, [], ◌∷◌, ◌++◌, IfOk, IfNone, None};
ghost use Rattle.std.specs.Option.{option_map};
ghost use Rattle.gil_syntax.specs.Program.{prog_view};
ghost use Rattle.sym_step.specs.Exploring.{CoverRuns, cut_off as pure_cut_off, IsEndedFrom, KeepAccounts, KeepTrails, MayGoOn, or_none};
ghost use Rattle.sym_step.specs.Narrow.{IsNarrowEndedFrom, KeepNarrowTrails};
ghost use Rattle.sym_step.specs.ExplorationView.{paths_left};
ghost use Rattle.sym_model.specs.Lists.{Each};
ghost use Rattle.sym_paths.specs.View.{path_view, paths_view};

use crate::step;
use gil_syntax::Prog;
use pure_terms::Decider;
use rewrite_book::RuleBook;
use sequence::Sequence;
use std::alloc::{AllocError, Global};
use sym_model::SymMemory;
use sym_paths::{Path, PathEnd, Paths};

/// Paths that are left to be explored, the next one last. Contracts see them by `paths_left`. After want of memory some are lost.
#[derive(Drop)]
pub struct Exploration<M> {
    left: Vec<Path<M>>,
}

impl<M: SymMemory> Exploration<M> {
    /// The exploration from one path.
    pub fn new(alloc: Global, start: Path<M>) -> Result<Exploration<M>, AllocError>
        ensures { IfOk result (λ e. paths_left e ≡ path_view start ∷ []) }
    {
        let mut left = Vec::new(alloc);
        left.push(start)?;
        Ok(Exploration { left })
    }

    /// Does steps until a path has an end, and hands that one out: a path that has done as many steps as the bound is cut. No path
    /// is left where it answers `None`. After 2^64 - 1 steps it answers want of memory.
    pub fn next_ended<D: Decider>(
        &mut self,
        alloc: Global,
        prog: &Prog,
        bound: u32,
        rules: &RuleBook,
        decider: &mut D,
    ) -> Result<Option<Path<M>>, AllocError>
        requires bounded { bound ≤ 10000 }
        requires placed { Each (MayGoOn (prog_view prog.now) M.terms) (paths_left self.old) }
        ensures placed { IfOk result (λ ended. Each (MayGoOn (prog_view prog.now) M.terms) (paths_left self.new)) }
        ensures trails { IfOk result (λ ended. KeepTrails (prog_view prog.now) M.Local.actions M.stands M.terms M.asked M.depends M.plain M.keeps_plain bound
            (paths_left self.old) (or_none (option_map path_view ended)) (paths_left self.new)) }
        ensures narrow { M.keeps_narrow → IfOk result (λ ended. KeepNarrowTrails (prog_view prog.now) M.Local.actions M.stands M.terms M.asked M.depends M.plain
            M.keeps_plain bound (paths_left self.old) (or_none (option_map path_view ended)) (paths_left self.new)) }
        ensures cover { IfOk result (λ ended. KeepAccounts (prog_view prog.now) M.Local.actions M.stands bound (paths_left self.old)
            (or_none (option_map path_view ended) ++ paths_left self.new)) }
        ensures last { IfOk result (λ ended. IfNone ended (paths_left self.new ≡ [])) }
    {
        for _turn in 0..u64::MAX {
            let Some(path) = self.left.pop() else {
                return Ok(None);
            };
            if path.end.is_some() {
                return Ok(Some(path));
            }
            if path.steps >= bound {
                return Ok(Some(cut_off(path)));
            }
            let next = step(alloc, prog, path, rules, decider)?;
            self.left.append(&mut next.into_vec())?;
        }
        Err(AllocError)
    }
}

/// The path ends where it is.
fn cut_off<M: Drop>(path: Path<M>) -> Path<M>
    ensures { path_view result ≡ pure_cut_off (path_view path) }
{
    let mut path = path;
    path.end_as(PathEnd::Cut);
    path
}

/// Does steps until every path has an end, a path that has done as many as the bound being cut.
pub fn explore<M: SymMemory, D: Decider>(
    alloc: Global,
    prog: &Prog,
    start: Path<M>,
    bound: u32,
    rules: &RuleBook,
    decider: &mut D,
) -> Result<Paths<M>, AllocError>
    requires bounded { bound ≤ 10000 }
    requires placed { MayGoOn (prog_view prog.now) M.terms (path_view start) }
    requires going { start.end ≡ None }
    requires first { start.steps ≡ 0 }
    ensures cover { IfOk result (λ ps. CoverRuns (prog_view prog.now) M.Local.actions M.stands bound (path_view start) (paths_view ps)) }
    ensures trails { IfOk result (λ ps. Each (IsEndedFrom (prog_view prog.now) M.Local.actions M.stands M.terms M.asked M.depends M.plain M.keeps_plain bound
        (path_view start)) (paths_view ps)) }
    ensures narrow { M.keeps_narrow → IfOk result (λ ps. Each (IsNarrowEndedFrom (prog_view prog.now) M.Local.actions M.stands M.terms M.asked M.depends
        M.plain M.keeps_plain bound (path_view start)) (paths_view ps)) }
{
    let mut exploration = Exploration::new(alloc, start)?;
    let mut ended = Sequence::new(alloc);
    for _turn in 0..u64::MAX {
        match exploration.next_ended(alloc, prog, bound, rules, decider)? {
            Some(path) => ended.push(path)?,
            None => return Ok(ended),
        }
    }
    Err(AllocError)
}
