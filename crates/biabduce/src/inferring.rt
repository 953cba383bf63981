//! The inference of a procedure's specifications.
ghost use Rattle.std.specs.Prelude.{◌≡◌, ◌⊎◌, ◌≤◌, Some, None, IfOk, IfSome, IsSome, OnOk};
ghost use Rattle.gil_syntax.specs.Program.{prog_view};
ghost use Rattle.gil_syntax.specs.Programs.{find_proc};
ghost use Rattle.gil_syntax.specs.Pure.{PureProc};
ghost use Rattle.gil_syntax.specs.View.{proc_view};
ghost use Rattle.inferred_specs.specs.Inferred.{Covers};
ghost use Rattle.pure_terms.specs.Fragment.{InFragment};
ghost use Rattle.pure_terms.specs.View.{atoms_view};
ghost use Rattle.sym_model.specs.Lists.{Each};
ghost use Rattle.sym_paths.specs.View.{path_view, paths_view};
ghost use Rattle.sym_step.specs.Stepping.{MayStep};
ghost use Rattle.bi_beginnings.specs.Beginnings.{IsBeginning, IsOpening, BeginsExactly, IsBare, BeginsBare};
ghost use Rattle.bi_beginnings.specs.View.{beginning_view};
ghost use Rattle.bi_specifications.specs.Specified.{IsTrulyFound};
ghost use Rattle.bi_specifications.specs.View.{founds_view};
ghost use Rattle.biabduce.specs.Asked.{IsLeftOf, AsksRightly, IsAskedOfRun, IsOtherBegun, AsksOthers, IsOtherOfRun};
ghost use Rattle.biabduce.specs.Covering.{Keeps, CoversStart, CoversAwaited, CoversAll};
ghost use Rattle.biabduce.specs.Decided.{IsDecidable, IsDecided, StaysDecided};
ghost use Rattle.biabduce.specs.NarrowRuns.{CoversNarrowly, KeepsNarrowly, CoversNarrowStart, CoversNarrowAwaited, CoversNarrowAll};
ghost use Rattle.biabduce.specs.Narrowly.{IsNarrowEntry, IsNarrowlyDecidable, IsNarrowLeft, IsNarrowlyDecided, StaysNarrowlyDecided, StartsNarrowly};
ghost use Rattle.biabduce.specs.Sound.{IsSound};
ghost use Rattle.biabduce.specs.View.{asked_view, inference_view};

use crate::ends::take_end;
use crate::inferences::Inference;
use bi_beginnings::{Beginning, Opened, begin};
use bi_specifications::Founds;
use gil_syntax::{Proc, Prog};
use gil_values::Text;
use pure_terms::{Decider, Query};
use rewrite_book::RuleBook;
use std::alloc::{AllocError, Global};
use sym_model::ListedMemory;
use sym_paths::{Path, Paths};
use sym_step::Exploration;

/// What is inferred of a procedure.
#[derive(Debug, Drop)]
pub struct Inferred {
    pub founds: Founds,
    /// The first list of conditions that wasn't decided, if there is one.
    pub unknown: Option<Query>,
}

/// Takes what each path tells that comes of one on which runs begin.
fn explore_start<M: ListedMemory, D: Decider>(
    alloc: Global,
    prog: &Prog,
    proc: &Proc,
    bound: u32,
    rules: &RuleBook,
    decider: &mut D,
    inference: &mut Inference,
    beginning: &Beginning,
    start: Path<M>,
) -> Result<(), AllocError>
    requires found { find_proc (prog_view prog.now).procs (proc_view proc.now).name ≡ Some (proc_view proc.now) }
    requires bounded { bound ≤ 10000 }
    requires beginning { IsBeginning M.Local.memory (proc_view proc.now).params (beginning_view beginning.now) }
    requires opening { IsOpening M.stands M.terms M.kept (proc_view proc.now) (path_view start) }
    requires exact { BeginsExactly M.stands (beginning_view beginning.now) (path_view start) }
    requires step { MayStep (prog_view prog.now) M.terms (path_view start) }
    requires sound { IsSound (prog_view prog.now) M.Local.memory M.Local.actions (proc_view proc.now) bound (inference_view inference.old) }
    ensures sound { OnOk result (IsSound (prog_view prog.now) M.Local.memory M.Local.actions (proc_view proc.now) bound (inference_view inference.new)) }
    ensures keeps { OnOk result (Keeps (prog_view prog.now) M.Local.memory M.Local.actions (proc_view proc.now) bound (inference_view inference.old)
        (inference_view inference.new)) }
    ensures cover { OnOk result (CoversStart (prog_view prog.now) M.Local.memory M.Local.actions (proc_view proc.now) bound M.stands
        (beginning_view beginning.now) (inference_view inference.new) (path_view start)) }
    ensures asked { OnOk result (AsksRightly (prog_view prog.now) M.Local.memory M.Local.actions M.stands M.terms M.asked M.depends M.plain M.keeps_plain M.kept
        (proc_view proc.now) bound (inference_view inference.old)
        → AsksRightly (prog_view prog.now) M.Local.memory M.Local.actions M.stands M.terms M.asked M.depends M.plain M.keeps_plain M.kept (proc_view proc.now)
        bound (inference_view inference.new)) }
    ensures other { M.keeps_narrow → OnOk result (IsNarrowEntry M.Local.memory (proc_view proc.now)
        → (IsNarrowLeft (proc_view proc.now) bound (beginning_view beginning.now)
        × StartsNarrowly M.terms (beginning_view beginning.now) (path_view start))
        ⊎ IsOtherBegun (prog_view prog.now) M.Local.memory M.Local.actions M.stands M.terms M.asked M.depends M.plain M.keeps_plain M.kept (proc_view proc.now) bound
        (beginning_view beginning.now)
        → AsksOthers (prog_view prog.now) M.Local.memory M.Local.actions M.stands M.terms M.asked M.depends M.plain M.keeps_plain M.kept (proc_view proc.now)
        bound (inference_view inference.old)
        → AsksOthers (prog_view prog.now) M.Local.memory M.Local.actions M.stands M.terms M.asked M.depends M.plain M.keeps_plain M.kept (proc_view proc.now)
        bound (inference_view inference.new)) }
    ensures decided { OnOk result (IsDecidable M.keeps_plain (prog_view prog.now) M.Local.memory M.Local.actions (proc_view proc.now).name
        → BeginsBare M.stands M.plain (path_view start) → StaysDecided (inference_view inference.old) (inference_view inference.new)) }
    ensures narrow { M.keeps_narrow → OnOk result (IsNarrowlyDecidable (prog_view prog.now) M.Local.memory (proc_view proc.now)
        → IsNarrowLeft (proc_view proc.now) bound (beginning_view beginning.now) → StartsNarrowly M.terms (beginning_view beginning.now) (path_view start)
        → StaysNarrowlyDecided (proc_view proc.now) bound (inference_view inference.old) (inference_view inference.new)) }
    ensures narrow_cover { M.keeps_narrow → OnOk result (IsNarrowEntry M.Local.memory (proc_view proc.now)
        → KeepsNarrowly (prog_view prog.now) M.Local.memory M.Local.actions (proc_view proc.now) bound (inference_view inference.old)
        (inference_view inference.new)
        × (IsNarrowLeft (proc_view proc.now) bound (beginning_view beginning.now) → StartsNarrowly M.terms (beginning_view beginning.now) (path_view start)
        → CoversNarrowStart (prog_view prog.now) M.Local.memory M.Local.actions (proc_view proc.now) bound M.stands M.terms
        (beginning_view beginning.now) (inference_view inference.new) (path_view start))) }
{
    let mut exploration = Exploration::new(alloc, start)?;
    for _turn in 0..u64::MAX {
        match exploration.next_ended(alloc, prog, bound, rules, decider)? {
            None => return Ok(()),
            Some(path) => take_end(alloc, inference, prog, proc, beginning, bound, path)?,
        }
    }
    Err(AllocError)
}

/// Takes what each path tells that comes of those on which runs begin.
fn explore_starts<M: ListedMemory, D: Decider>(
    alloc: Global,
    prog: &Prog,
    proc: &Proc,
    bound: u32,
    rules: &RuleBook,
    decider: &mut D,
    inference: &mut Inference,
    beginning: &Beginning,
    starts: Paths<M>,
) -> Result<(), AllocError>
    requires found { find_proc (prog_view prog.now).procs (proc_view proc.now).name ≡ Some (proc_view proc.now) }
    requires bounded { bound ≤ 10000 }
    requires beginning { IsBeginning M.Local.memory (proc_view proc.now).params (beginning_view beginning.now) }
    requires opening { Each (IsOpening M.stands M.terms M.kept (proc_view proc.now)) (paths_view starts) }
    requires exact { Each (BeginsExactly M.stands (beginning_view beginning.now)) (paths_view starts) }
    requires step { Each (MayStep (prog_view prog.now) M.terms) (paths_view starts) }
    requires sound { IsSound (prog_view prog.now) M.Local.memory M.Local.actions (proc_view proc.now) bound (inference_view inference.old) }
    ensures sound { OnOk result (IsSound (prog_view prog.now) M.Local.memory M.Local.actions (proc_view proc.now) bound (inference_view inference.new)) }
    ensures keeps { OnOk result (Keeps (prog_view prog.now) M.Local.memory M.Local.actions (proc_view proc.now) bound (inference_view inference.old)
        (inference_view inference.new)) }
    ensures cover { OnOk result (Each (CoversStart (prog_view prog.now) M.Local.memory M.Local.actions (proc_view proc.now) bound M.stands
        (beginning_view beginning.now) (inference_view inference.new)) (paths_view starts)) }
    ensures asked { OnOk result (AsksRightly (prog_view prog.now) M.Local.memory M.Local.actions M.stands M.terms M.asked M.depends M.plain M.keeps_plain M.kept
        (proc_view proc.now) bound (inference_view inference.old)
        → AsksRightly (prog_view prog.now) M.Local.memory M.Local.actions M.stands M.terms M.asked M.depends M.plain M.keeps_plain M.kept (proc_view proc.now)
        bound (inference_view inference.new)) }
    ensures other { M.keeps_narrow → OnOk result (IsNarrowEntry M.Local.memory (proc_view proc.now)
        → (IsNarrowLeft (proc_view proc.now) bound (beginning_view beginning.now)
        × Each (StartsNarrowly M.terms (beginning_view beginning.now)) (paths_view starts))
        ⊎ IsOtherBegun (prog_view prog.now) M.Local.memory M.Local.actions M.stands M.terms M.asked M.depends M.plain M.keeps_plain M.kept (proc_view proc.now) bound
        (beginning_view beginning.now)
        → AsksOthers (prog_view prog.now) M.Local.memory M.Local.actions M.stands M.terms M.asked M.depends M.plain M.keeps_plain M.kept (proc_view proc.now)
        bound (inference_view inference.old)
        → AsksOthers (prog_view prog.now) M.Local.memory M.Local.actions M.stands M.terms M.asked M.depends M.plain M.keeps_plain M.kept (proc_view proc.now)
        bound (inference_view inference.new)) }
    ensures decided { OnOk result (IsDecidable M.keeps_plain (prog_view prog.now) M.Local.memory M.Local.actions (proc_view proc.now).name
        → Each (BeginsBare M.stands M.plain) (paths_view starts) → StaysDecided (inference_view inference.old) (inference_view inference.new)) }
    ensures narrow { M.keeps_narrow → OnOk result (IsNarrowlyDecidable (prog_view prog.now) M.Local.memory (proc_view proc.now)
        → IsNarrowLeft (proc_view proc.now) bound (beginning_view beginning.now)
        → Each (StartsNarrowly M.terms (beginning_view beginning.now)) (paths_view starts)
        → StaysNarrowlyDecided (proc_view proc.now) bound (inference_view inference.old) (inference_view inference.new)) }
    ensures narrow_cover { M.keeps_narrow → OnOk result (IsNarrowEntry M.Local.memory (proc_view proc.now)
        → KeepsNarrowly (prog_view prog.now) M.Local.memory M.Local.actions (proc_view proc.now) bound (inference_view inference.old)
        (inference_view inference.new)
        × (IsNarrowLeft (proc_view proc.now) bound (beginning_view beginning.now)
        → Each (StartsNarrowly M.terms (beginning_view beginning.now)) (paths_view starts)
        → Each (CoversNarrowStart (prog_view prog.now) M.Local.memory M.Local.actions (proc_view proc.now) bound M.stands M.terms
        (beginning_view beginning.now) (inference_view inference.new)) (paths_view starts))) }
{
    for start in starts.into_vec() {
        explore_start(
            alloc, prog, proc, bound, rules, decider, inference, beginning, start,
        )?;
    }
    Ok(())
}

/// Takes what the paths tell that come of a beginning.
fn follow<M: ListedMemory, D: Decider>(
    alloc: Global,
    prog: &Prog,
    proc: &Proc,
    bound: u32,
    rules: &RuleBook,
    decider: &mut D,
    inference: &mut Inference,
    beginning: &Beginning,
) -> Result<(), AllocError>
    requires found { find_proc (prog_view prog.now).procs (proc_view proc.now).name ≡ Some (proc_view proc.now) }
    requires bounded { bound ≤ 10000 }
    requires beginning { IsBeginning M.Local.memory (proc_view proc.now).params (beginning_view beginning.now) }
    requires sound { IsSound (prog_view prog.now) M.Local.memory M.Local.actions (proc_view proc.now) bound (inference_view inference.old) }
    ensures sound { OnOk result (IsSound (prog_view prog.now) M.Local.memory M.Local.actions (proc_view proc.now) bound (inference_view inference.new)) }
    ensures keeps { OnOk result (Keeps (prog_view prog.now) M.Local.memory M.Local.actions (proc_view proc.now) bound (inference_view inference.old)
        (inference_view inference.new)) }
    ensures cover { OnOk result (CoversAwaited (prog_view prog.now) M.Local.memory M.Local.actions (proc_view proc.now) bound
        (beginning_view beginning.now) (inference_view inference.new)) }
    ensures asked { OnOk result (IsLeftOf (prog_view prog.now) M.Local.memory M.Local.actions M.stands M.terms M.asked M.depends M.plain M.keeps_plain M.kept
        (proc_view proc.now) bound (beginning_view beginning.now)
        → AsksRightly (prog_view prog.now) M.Local.memory M.Local.actions M.stands M.terms M.asked M.depends M.plain M.keeps_plain M.kept (proc_view proc.now)
        bound (inference_view inference.old)
        → AsksRightly (prog_view prog.now) M.Local.memory M.Local.actions M.stands M.terms M.asked M.depends M.plain M.keeps_plain M.kept (proc_view proc.now)
        bound (inference_view inference.new)) }
    ensures other { M.keeps_narrow → OnOk result (IsNarrowEntry M.Local.memory (proc_view proc.now)
        → IsNarrowLeft (proc_view proc.now) bound (beginning_view beginning.now)
        ⊎ IsOtherBegun (prog_view prog.now) M.Local.memory M.Local.actions M.stands M.terms M.asked M.depends M.plain M.keeps_plain M.kept (proc_view proc.now) bound
        (beginning_view beginning.now)
        → AsksOthers (prog_view prog.now) M.Local.memory M.Local.actions M.stands M.terms M.asked M.depends M.plain M.keeps_plain M.kept (proc_view proc.now)
        bound (inference_view inference.old)
        → AsksOthers (prog_view prog.now) M.Local.memory M.Local.actions M.stands M.terms M.asked M.depends M.plain M.keeps_plain M.kept (proc_view proc.now)
        bound (inference_view inference.new)) }
    ensures decided { OnOk result (IsDecidable M.keeps_plain (prog_view prog.now) M.Local.memory M.Local.actions (proc_view proc.now).name
        → IsBare (beginning_view beginning.now) → StaysDecided (inference_view inference.old) (inference_view inference.new)) }
    ensures narrow { M.keeps_narrow → OnOk result (IsNarrowlyDecidable (prog_view prog.now) M.Local.memory (proc_view proc.now)
        → IsNarrowLeft (proc_view proc.now) bound (beginning_view beginning.now)
        → StaysNarrowlyDecided (proc_view proc.now) bound (inference_view inference.old) (inference_view inference.new)) }
    ensures narrow_cover { M.keeps_narrow → OnOk result (IsNarrowEntry M.Local.memory (proc_view proc.now)
        → KeepsNarrowly (prog_view prog.now) M.Local.memory M.Local.actions (proc_view proc.now) bound (inference_view inference.old)
        (inference_view inference.new)
        × (IsNarrowLeft (proc_view proc.now) bound (beginning_view beginning.now)
        → CoversNarrowAwaited (prog_view prog.now) M.Local.memory M.Local.actions (proc_view proc.now) bound (beginning_view beginning.now)
        (inference_view inference.new))) }
{
    let opened = begin::<M, D>(alloc, prog, proc, beginning, decider)?;
    let Opened { starts, undecided } = opened;
    inference.leave_any(undecided);
    explore_starts(
        alloc, prog, proc, bound, rules, decider, inference, beginning, starts,
    )
}

/// Follows each beginning, until none is left.
fn follow_all<M: ListedMemory, D: Decider>(
    alloc: Global,
    prog: &Prog,
    proc: &Proc,
    bound: u32,
    rules: &RuleBook,
    decider: &mut D,
) -> Result<Inference, AllocError>
    requires found { find_proc (prog_view prog.now).procs (proc_view proc.now).name ≡ Some (proc_view proc.now) }
    requires bounded { bound ≤ 10000 }
    ensures sound { IfOk result (λ i. IsSound (prog_view prog.now) M.Local.memory M.Local.actions (proc_view proc.now) bound (inference_view i)) }
    ensures cover { IfOk result (λ i. CoversAll (prog_view prog.now) M.Local.memory M.Local.actions (proc_view proc.now) bound (inference_view i)) }
    ensures asked { IfOk result (λ i. AsksRightly (prog_view prog.now) M.Local.memory M.Local.actions M.stands M.terms M.asked M.depends M.plain M.keeps_plain M.kept
        (proc_view proc.now) bound (inference_view i)) }
    ensures other { M.keeps_narrow → IfOk result (λ i. IsNarrowEntry M.Local.memory (proc_view proc.now)
        → AsksOthers (prog_view prog.now) M.Local.memory M.Local.actions M.stands M.terms M.asked M.depends M.plain M.keeps_plain M.kept (proc_view proc.now)
        bound (inference_view i)) }
    ensures decided { IfOk result (λ i. IsDecidable M.keeps_plain (prog_view prog.now) M.Local.memory M.Local.actions (proc_view proc.now).name
        → IsDecided (inference_view i)) }
    ensures narrow { M.keeps_narrow → IfOk result (λ i. IsNarrowlyDecidable (prog_view prog.now) M.Local.memory (proc_view proc.now)
        → IsNarrowlyDecided (proc_view proc.now) bound (inference_view i)) }
    ensures narrow_cover { M.keeps_narrow → IfOk result (λ i. IsNarrowEntry M.Local.memory (proc_view proc.now)
        → CoversNarrowAll (prog_view prog.now) M.Local.memory M.Local.actions (proc_view proc.now) bound (inference_view i)) }
{
    let mut inference = Inference::new(alloc, proc)?;
    for _turn in 0..u64::MAX {
        let Some(beginning) = inference.left.pop() else {
            return Ok(inference);
        };
        follow::<M, D>(
            alloc,
            prog,
            proc,
            bound,
            rules,
            decider,
            &mut inference,
            &beginning,
        )?;
    }
    Err(AllocError)
}

/// Specifications of a procedure, found from its code alone. Each of them holds of every run, its runs return or throw or are cut as it is
/// marked, and it is exact. Where the conditions of a path can't be decided or said, that list of conditions is answered, and what is
/// found elsewhere all the same. It is asked along a path that drew nothing, or of a beginning that comes of such a path, which missed a
/// key; and along that path comes some run. Where there is no such list, the specifications cover the runs of the procedure. There is none
/// of a simple program, over a memory that keeps the law of plain memories and misses only keys of its own, where the procedure has no parameters; and
/// none of a narrow program, over a memory that keeps the law of narrow memories. Over such a memory the runs whose commands are all of
/// narrow form are covered whatever list is answered, and what is asked is asked where some command on the way isn't of narrow form.
pub fn infer<M: ListedMemory, D: Decider>(
    alloc: Global,
    prog: &Prog,
    name: &Text,
    bound: u32,
    rules: &RuleBook,
    decider: &mut D,
) -> Result<Inferred, AllocError>
    requires entry { IsSome (find_proc (prog_view prog.now).procs name.now) }
    requires bounded { bound ≤ 10000 }
    ensures found { IfOk result (λ i. Each (IsTrulyFound (prog_view prog.now) M.Local.memory M.Local.actions name.now bound) (founds_view i.founds)) }
    ensures covers { IfOk result (λ i. i.unknown ≡ None → Covers (prog_view prog.now) M.Local.memory M.Local.actions name.now (founds_view i.founds)
        bound) }
    ensures unknown { IfOk result (λ i. IfSome i.unknown (λ q. ¬ InFragment (atoms_view q.query))) }
    ensures asked { IfOk result (λ i. (q : PureProc) → find_proc (prog_view prog.now).procs name.now ≡ Some q
        → IfSome i.unknown (λ x. IsAskedOfRun (prog_view prog.now) M.Local.memory M.Local.actions M.stands M.terms M.asked M.depends M.plain
        M.keeps_plain M.kept q bound (asked_view x))) }
    ensures other { M.keeps_narrow → IfOk result (λ i. (q : PureProc) → find_proc (prog_view prog.now).procs name.now ≡ Some q
        → IsNarrowEntry M.Local.memory q
        → IfSome i.unknown (λ x. IsOtherOfRun (prog_view prog.now) M.Local.memory M.Local.actions M.stands M.terms M.asked M.depends M.plain
        M.keeps_plain M.kept q bound (asked_view x))) }
    ensures decided { IsDecidable M.keeps_plain (prog_view prog.now) M.Local.memory M.Local.actions name.now → IfOk result (λ i. i.unknown ≡ None) }
    ensures narrow { M.keeps_narrow → (q : PureProc) → find_proc (prog_view prog.now).procs name.now ≡ Some q
        → IsNarrowlyDecidable (prog_view prog.now) M.Local.memory q → IfOk result (λ i. i.unknown ≡ None) }
    ensures narrow_cover { M.keeps_narrow → IfOk result (λ i. CoversNarrowly (prog_view prog.now) M.Local.memory M.Local.actions name.now bound
        (founds_view i.founds)) }
{
    let proc = match prog.proc(name) {
        Some(proc) => proc,
        None => unreachable!(),
    };
    let inference = follow_all::<M, D>(alloc, prog, proc, bound, rules, decider)?;
    let Inference {
        left: _,
        founds,
        undecided,
    } = inference;
    Ok(Inferred {
        founds,
        unknown: undecided,
    })
}
