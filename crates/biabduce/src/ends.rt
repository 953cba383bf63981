//! What an ended path tells inference.
ghost use Rattle.std.specs.Prelude.{◌≡◌, ◌↔◌, ℕ, ◌+◌, ◌≤◌, [], length, IsTrue, OnOk, Some};
ghost use Rattle.std.specs.Option.{option_map};
ghost use Rattle.gil_syntax.specs.Program.{prog_view};
ghost use Rattle.gil_syntax.specs.Pure.{PureProc, PureParts};
ghost use Rattle.gil_syntax.specs.View.{proc_view};
ghost use Rattle.pure_terms.specs.View.{atoms_view};
ghost use Rattle.sym_model.specs.View.{key_view};
ghost use Rattle.sym_step.specs.Narrow.{IsNarrowEndedFrom};
ghost use Rattle.sym_paths.specs.Pure.{missed, PurePath};
ghost use Rattle.sym_paths.specs.View.{end_view, path_view};
ghost use Rattle.bi_beginnings.specs.Beginnings.{PureBeginning, IsBeginning, BeginsBare};
ghost use Rattle.bi_beginnings.specs.Fixing.{IsKeyAtNewSymbol};
ghost use Rattle.bi_beginnings.specs.Narrowly.{MissesNarrowly};
ghost use Rattle.bi_beginnings.specs.View.{beginning_view};
ghost use Rattle.bi_specifications.specs.Shape.{MayBeSaid};
ghost use Rattle.bi_specifications.specs.Specified.{IsExplored};
ghost use Rattle.bi_specifications.specs.View.{entry_view};
ghost use Rattle.biabduce.specs.Asked.{IsOfPath, Adds};
ghost use Rattle.biabduce.specs.Covering.{Keeps, IsToldEnd, CoversMiss, CoversEnd, CoversPath};
ghost use Rattle.biabduce.specs.Decided.{IsDecidable, StaysDecided, IsClosed};
ghost use Rattle.biabduce.specs.NarrowRuns.{KeepsNarrowly, CoversNarrowMiss, CoversNarrowEnd, CoversSaidPath, CoversNarrowPath};
ghost use Rattle.biabduce.specs.Narrowly.{IsNarrowEntry, numbers_at, IsNarrowLeft, IsNarrowAlong, StartsNarrowly, IsNarrowlyClosed, BeginsNarrowly, LeavesAlone};
ghost use Rattle.biabduce.specs.Sound.{IsSound, IsUndecidedIfUnknown};
ghost use Rattle.biabduce.specs.View.{inference_view};

use crate::finding::place_of_end;
use crate::inferences::Inference;
use crate::queries::{ask_conditions, ask_end, ask_form, late_term, number_of};
use bi_beginnings::{Again, Beginning, begin_again};
use bi_specifications::{Told, specify};
use gil_syntax::{Proc, Prog};
use gil_values::Place;
use std::alloc::{AllocError, Global};
use std::mem::replace;
use sym_model::{ListedMemory, SymKey};
use sym_paths::{Ended, Path, PathEnd};

/// What a path tells that returned, threw or was cut.
fn tell<M: ListedMemory>(
    alloc: Global,
    inference: &mut Inference,
    prog: &Prog,
    proc: &Proc,
    beginning: &Beginning,
    path: Path<M>,
) -> Result<(), AllocError>
    requires beginning { IsBeginning M.Local.memory (proc_view proc.now).params (beginning_view beginning.now) }
    requires told { IsToldEnd (path_view path).ending }
    requires no_draw { (path_view path).drawn ≡ [] }
    ensures sound { OnOk result ((p : PureParts) (n : ℕ)
        → IsSound p M.Local.memory M.Local.actions (proc_view proc.now) n (inference_view inference.old)
        → IsExplored M.Local.memory M.Local.actions M.stands M.terms M.asked M.depends M.plain M.keeps_plain M.kept (proc_view proc.now)
        (entry_view beginning.now) (path_view path) p n
        → IsSound p M.Local.memory M.Local.actions (proc_view proc.now) n (inference_view inference.new)) }
    ensures cover { OnOk result ((p : PureParts) (n : ℕ) (b : PureBeginning)
        → (explored : IsExplored M.Local.memory M.Local.actions M.stands M.terms M.asked M.depends M.plain M.keeps_plain M.kept
        (proc_view proc.now) (entry_view beginning.now) (path_view path) p n)
        → Keeps p M.Local.memory M.Local.actions (proc_view proc.now) n (inference_view inference.old) (inference_view inference.new)
        × CoversPath p M.Local.memory M.Local.actions (proc_view proc.now) n M.stands explored.start b (path_view path)
        (inference_view inference.new)) }
    ensures asked { OnOk result ((n : ℕ)
        → IsExplored M.Local.memory M.Local.actions M.stands M.terms M.asked M.depends M.plain M.keeps_plain M.kept (proc_view proc.now)
        (entry_view beginning.now) (path_view path) (prog_view prog.now) n
        → Adds (prog_view prog.now) (proc_view proc.now) (path_view path) (inference_view inference.old) (inference_view inference.new)) }
    ensures decided { OnOk result (MayBeSaid (proc_view proc.now) (entry_view beginning.now) (path_view path)
        → LeavesAlone (inference_view inference.old) (inference_view inference.new)) }
    ensures narrow_cover { OnOk result ((p : PureParts) (n : ℕ) (b : PureBeginning)
        → (explored : IsExplored M.Local.memory M.Local.actions M.stands M.terms M.asked M.depends M.plain M.keeps_plain M.kept
        (proc_view proc.now) (entry_view beginning.now) (path_view path) p n)
        → KeepsNarrowly p M.Local.memory M.Local.actions (proc_view proc.now) n (inference_view inference.old) (inference_view inference.new)
        × CoversSaidPath p M.Local.memory M.Local.actions (proc_view proc.now) n M.stands M.terms explored.start b (path_view path)
        (MayBeSaid (proc_view proc.now) (entry_view beginning.now) (path_view path)) (inference_view inference.new)) }
{
    match specify(alloc, proc, beginning, &path)? {
        Told::Found(found) => inference.find(found),
        Told::Unsaid(term) => {
            let place = place_of_end(alloc, prog, &path)?;
            inference.leave(ask_end(path.into_ended(), place, term)?);
            Ok(())
        }
        Told::Nothing => Ok(()),
    }
}

/// Begins again with heaps that have a key which a path missed.
fn fix<M: ListedMemory>(
    alloc: Global,
    inference: &mut Inference,
    beginning: &Beginning,
    bound: u32,
    path: Ended,
    key: &SymKey,
    place: Place,
) -> Result<(), AllocError>
    ensures sound { OnOk result ((p : PureParts) (q : PureProc) (n : ℕ)
        → IsSound p M.Local.memory M.Local.actions q n (inference_view inference.old)
        → IsBeginning M.Local.memory q.params (beginning_view beginning.now)
        → IsSound p M.Local.memory M.Local.actions q n (inference_view inference.new)) }
    ensures cover { OnOk result ((p : PureParts) (q : PureProc) → IsBeginning M.Local.memory q.params (beginning_view beginning.now)
        → Keeps p M.Local.memory M.Local.actions q bound (inference_view inference.old) (inference_view inference.new)
        × CoversMiss p M.Local.memory M.Local.actions q bound (beginning_view beginning.now) path.vars (atoms_view path.conds) (key_view key.now)
        (inference_view inference.new)) }
    ensures asked { OnOk result ((p : PureParts) (q : PureProc) (way : PurePath M)
        → IsOfPath way path.vars (atoms_view path.conds) (atoms_view path.given) path.choices
        → way.ending ≡ Some (missed (key_view key.now) place) → Adds p q way (inference_view inference.old) (inference_view inference.new)) }
    ensures decided { OnOk result (IsKeyAtNewSymbol M.Local.memory path.vars (key_view key.now)
        → StaysDecided (inference_view inference.old) (inference_view inference.new)) }
    ensures narrow { M.keeps_narrow → OnOk result ((n : ℕ) → MissesNarrowly M.Local.memory n (beginning_view beginning.now) path.vars
        (atoms_view path.conds) (key_view key.now)
        → BeginsNarrowly n bound (beginning_view beginning.now) (inference_view inference.old) (inference_view inference.new)) }
    ensures narrow_cover { M.keeps_narrow → OnOk result ((p : PureParts) (q : PureProc) → IsBeginning M.Local.memory q.params (beginning_view beginning.now)
        → KeepsNarrowly p M.Local.memory M.Local.actions q bound (inference_view inference.old) (inference_view inference.new)
        × CoversNarrowMiss p M.Local.memory M.Local.actions q bound (beginning_view beginning.now) path.vars (atoms_view path.conds) (key_view key.now)
        (inference_view inference.new)) }
{
    match begin_again::<M>(alloc, beginning, bound, &path, key, &place)? {
        Again::With(beginnings) => inference.begin_with(beginnings),
        Again::Late(_) => {
            let term = late_term(alloc, &beginning.vars, key)?;
            inference.leave(ask_form(path, place, term)?);
            Ok(())
        }
    }
}

/// What a path tells that missed a key or is unknown.
fn go_on<M: ListedMemory>(
    alloc: Global,
    inference: &mut Inference,
    beginning: &Beginning,
    bound: u32,
    path: Ended,
) -> Result<(), AllocError>
    ensures sound { OnOk result ((p : PureParts) (q : PureProc) (n : ℕ)
        → IsSound p M.Local.memory M.Local.actions q n (inference_view inference.old)
        → IsBeginning M.Local.memory q.params (beginning_view beginning.now)
        → IsUndecidedIfUnknown (option_map end_view path.end) (atoms_view path.conds)
        → IsSound p M.Local.memory M.Local.actions q n (inference_view inference.new)) }
    ensures cover { OnOk result ((p : PureParts) (q : PureProc) → IsBeginning M.Local.memory q.params (beginning_view beginning.now)
        → Keeps p M.Local.memory M.Local.actions q bound (inference_view inference.old) (inference_view inference.new)
        × CoversEnd p M.Local.memory M.Local.actions q bound (beginning_view beginning.now) path.vars (atoms_view path.conds)
        (option_map end_view path.end) (inference_view inference.new)) }
    ensures asked { OnOk result ((p : PureParts) (q : PureProc) (way : PurePath M)
        → IsOfPath way path.vars (atoms_view path.conds) (atoms_view path.given) path.choices
        → option_map end_view path.end ≡ way.ending → Adds p q way (inference_view inference.old) (inference_view inference.new)) }
    ensures decided { OnOk result (IsClosed M.Local.memory path.vars (option_map end_view path.end)
        → StaysDecided (inference_view inference.old) (inference_view inference.new)) }
    ensures narrow { M.keeps_narrow → OnOk result ((n : ℕ) → IsNarrowlyClosed M.Local.memory n (beginning_view beginning.now) path.vars
        (atoms_view path.conds) (option_map end_view path.end)
        → BeginsNarrowly n bound (beginning_view beginning.now) (inference_view inference.old) (inference_view inference.new)) }
    ensures narrow_cover { M.keeps_narrow → OnOk result ((p : PureParts) (q : PureProc) → IsBeginning M.Local.memory q.params (beginning_view beginning.now)
        → KeepsNarrowly p M.Local.memory M.Local.actions q bound (inference_view inference.old) (inference_view inference.new)
        × CoversNarrowEnd p M.Local.memory M.Local.actions q bound (beginning_view beginning.now) path.vars (atoms_view path.conds)
        (option_map end_view path.end) (inference_view inference.new)) }
{
    let mut path = path;
    match replace(&mut path.end, None) {
        Some(PathEnd::Missed(key, place)) => {
            fix::<M>(alloc, inference, beginning, bound, path, &key, place)
        }
        Some(PathEnd::Unknown(place, reason)) => {
            inference.leave(ask_conditions(path, place, number_of(reason)));
            Ok(())
        }
        _ => Ok(()),
    }
}

/// Whether a run that ends so has a specification.
fn is_told(end: &Option<PathEnd>) -> bool
    ensures { IsTrue result ↔ IsToldEnd (option_map end_view end.now) }
{
    matches!(
        end,
        Some(PathEnd::Returned(_) | PathEnd::Threw(_, _) | PathEnd::Cut)
    )
}

/// What an ended path tells. One that drew tells nothing.
pub(crate) fn take_end<M: ListedMemory>(
    alloc: Global,
    inference: &mut Inference,
    prog: &Prog,
    proc: &Proc,
    beginning: &Beginning,
    bound: u32,
    path: Path<M>,
) -> Result<(), AllocError>
    requires beginning { IsBeginning M.Local.memory (proc_view proc.now).params (beginning_view beginning.now) }
    ensures sound { OnOk result ((p : PureParts) (n : ℕ)
        → IsSound p M.Local.memory M.Local.actions (proc_view proc.now) n (inference_view inference.old)
        → IsExplored M.Local.memory M.Local.actions M.stands M.terms M.asked M.depends M.plain M.keeps_plain M.kept (proc_view proc.now)
        (entry_view beginning.now) (path_view path) p n
        → IsSound p M.Local.memory M.Local.actions (proc_view proc.now) n (inference_view inference.new)) }
    ensures cover { OnOk result ((p : PureParts)
        → (explored : IsExplored M.Local.memory M.Local.actions M.stands M.terms M.asked M.depends M.plain M.keeps_plain M.kept
        (proc_view proc.now) (entry_view beginning.now) (path_view path) p bound)
        → Keeps p M.Local.memory M.Local.actions (proc_view proc.now) bound (inference_view inference.old) (inference_view inference.new)
        × CoversPath p M.Local.memory M.Local.actions (proc_view proc.now) bound M.stands explored.start (beginning_view beginning.now)
        (path_view path) (inference_view inference.new)) }
    ensures asked { OnOk result (IsExplored M.Local.memory M.Local.actions M.stands M.terms M.asked M.depends M.plain M.keeps_plain M.kept
        (proc_view proc.now) (entry_view beginning.now) (path_view path) (prog_view prog.now) bound
        → Adds (prog_view prog.now) (proc_view proc.now) (path_view path) (inference_view inference.old) (inference_view inference.new)) }
    ensures decided { OnOk result ((p : PureParts) → IsDecidable M.keeps_plain p M.Local.memory M.Local.actions (proc_view proc.now).name → bound ≤ 10000
        → (explored : IsExplored M.Local.memory M.Local.actions M.stands M.terms M.asked M.depends M.plain M.keeps_plain M.kept
        (proc_view proc.now) (entry_view beginning.now) (path_view path) p bound)
        → BeginsBare M.stands M.plain explored.start → StaysDecided (inference_view inference.old) (inference_view inference.new)) }
    ensures narrow { M.keeps_narrow → OnOk result ((p : PureParts) → IsNarrowEntry M.Local.memory (proc_view proc.now) → bound ≤ 10000
        → (explored : IsExplored M.Local.memory M.Local.actions M.stands M.terms M.asked M.depends M.plain M.keeps_plain M.kept
        (proc_view proc.now) (entry_view beginning.now) (path_view path) p bound)
        → (ended : IsNarrowEndedFrom p M.Local.actions M.stands M.terms M.asked M.depends M.plain M.keeps_plain bound explored.start (path_view path))
        → IsNarrowAlong p M.Local.actions M.stands M.terms M.asked M.depends M.plain M.keeps_plain bound explored.start (path_view path) ended
        → IsNarrowLeft (proc_view proc.now) bound (beginning_view beginning.now) → StartsNarrowly M.terms (beginning_view beginning.now) explored.start
        → BeginsNarrowly (numbers_at (length (beginning_view beginning.now).uses + 1)) bound (beginning_view beginning.now)
        (inference_view inference.old) (inference_view inference.new)) }
    ensures narrow_cover { M.keeps_narrow → OnOk result ((p : PureParts) → IsNarrowEntry M.Local.memory (proc_view proc.now) → bound ≤ 10000
        → (explored : IsExplored M.Local.memory M.Local.actions M.stands M.terms M.asked M.depends M.plain M.keeps_plain M.kept
        (proc_view proc.now) (entry_view beginning.now) (path_view path) p bound)
        → IsNarrowEndedFrom p M.Local.actions M.stands M.terms M.asked M.depends M.plain M.keeps_plain bound explored.start (path_view path)
        → KeepsNarrowly p M.Local.memory M.Local.actions (proc_view proc.now) bound (inference_view inference.old) (inference_view inference.new)
        × (IsNarrowLeft (proc_view proc.now) bound (beginning_view beginning.now) → StartsNarrowly M.terms (beginning_view beginning.now) explored.start
        → CoversNarrowPath p M.Local.memory M.Local.actions (proc_view proc.now) bound M.stands M.terms explored.start (beginning_view beginning.now)
        (path_view path) (inference_view inference.new))) }
{
    if path.drawn.len() > 0 {
        return Ok(());
    }
    if is_told(&path.end) {
        return tell(alloc, inference, prog, proc, beginning, path);
    }
    go_on::<M>(alloc, inference, beginning, bound, path.into_ended())
}
