//! The starts of a specification as checked paths.
ghost use Rattle.std.specs.Prelude.{◌≡◌, IfOk, IsSome, IsTrue, false, true};
ghost use Rattle.std.specs.Option.{option_map};
ghost use Rattle.checked_paths.specs.Pure.{further};
ghost use Rattle.checked_paths.specs.View.{next_view, nexts_view};
ghost use Rattle.gil_machine.specs.Step.{command_of};
ghost use Rattle.gil_syntax.specs.Program.{prog_view};
ghost use Rattle.gil_syntax.specs.Programs.{find_proc};
ghost use Rattle.gil_syntax.specs.View.{numbered_command_view, spec_view};
ghost use Rattle.pure_terms.specs.Meaning.{AreOver, IsUnsatisfiable};
ghost use Rattle.pure_terms.specs.View.{atom_view, atoms_view};
ghost use Rattle.spec_causes.specs.Causes.{MayBeMet, without_forms};
ghost use Rattle.spec_causes.specs.Reaching.{checked_start};
ghost use Rattle.spec_exploration.specs.Beginning.{AreStartsOf, IsFirstPlace, IsStartOf, IsStartOver};
ghost use Rattle.sym_paths.specs.Asking.{IsOutside};
ghost use Rattle.sym_beginning.specs.View.{start_view, starts_view};
ghost use Rattle.sym_model.specs.Lists.{Each};
ghost use Rattle.sym_model.specs.Meaning.{has_open, is_open};
ghost use Rattle.sym_paths.specs.View.{path_view};

use checked_paths::{Cause, Checking, Next, Nexts, Shown};
use gil_syntax::{NumberedCommand, Prog, Spec};
use gil_values::Place;
use pure_terms::{Atom, Atoms, Decider, Reason, VarTable};
use sequence::Sequence;
use std::alloc::{AllocError, Global};
use sym_beginning::{Started, Starts};
use sym_model::ListedMemory;
use sym_paths::{Satisfiability, ask, needs_form};

/// The first command of a specification's procedure.
fn first_command<'p>(prog: &'p Prog, spec: &Spec) -> Option<&'p NumberedCommand>
    ensures { option_map (λ c. numbered_command_view c.now) result
        ≡ command_of (find_proc (prog_view prog.now).procs (spec_view spec.now).name) 0 }
{
    let proc = prog.proc(&spec.name)?;
    proc.body.as_slice().get(0)
}

/// The place of that command.
pub(crate) fn first_place(alloc: Global, prog: &Prog, spec: &Spec) -> Result<Place, AllocError>
    requires { IsSome (command_of (find_proc (prog_view prog.now).procs (spec_view spec.now).name) 0) }
    ensures { IfOk result (IsFirstPlace (prog_view prog.now) (spec_view spec.now)) }
{
    let numbered = match first_command(prog, spec) {
        Some(numbered) => numbered,
        None => unreachable!(),
    };
    let proc = spec.name.copy(alloc)?;
    Ok(Place {
        proc,
        at: numbered.at,
    })
}

/// The checked path of a start, whose frame passed no invariant.
fn path_from<M: ListedMemory>(alloc: Global, started: Started<M>) -> Result<Next<M>, AllocError>
    ensures { IfOk result (λ n. next_view n ≡ further (checked_start (start_view started))) }
{
    let Started { path, preds } = started;
    let mut passed = Sequence::new(alloc);
    passed.push(Sequence::new(alloc))?;
    Ok(Next::Further(Checking {
        path,
        preds,
        passed,
    }))
}

fn is_form_needed(atom: &Atom) -> bool
    ensures { result ≡ is_open (atom_view atom.now) }
{
    match atom {
        Atom::Open(_) => true,
        Atom::Holds(_) | Atom::Not(_) => false,
    }
}

/// The conditions but for those that a literal form is needed.
fn without_forms(alloc: Global, conds: &Atoms) -> Result<Atoms, AllocError>
    ensures { IfOk result (λ others. atoms_view others ≡ without_forms (atoms_view conds.now)) }
{
    let mut others = Sequence::new(alloc);
    for atom in conds.as_slice() {
        if !is_form_needed(atom) {
            others.push(atom.copy(alloc)?)?;
        }
    }
    Ok(others)
}

/// Whether conditions may be met: not where a decider says that no valuation meets them.
fn may_be_met<D: Decider>(
    alloc: Global,
    decider: &mut D,
    vars: &VarTable,
    conds: &Atoms,
) -> Result<bool, AllocError>
    requires { AreOver vars.now (atoms_view conds.now) }
    ensures met { IfOk result (λ may. IsTrue may → MayBeMet vars.now (atoms_view conds.now)) }
    ensures none { IfOk result (λ may. may ≡ false → IsUnsatisfiable vars.now (atoms_view conds.now)) }
{
    match ask(alloc, decider, vars, conds)? {
        Satisfiability::Satisfiable(_) => Ok(true),
        Satisfiability::Unsatisfiable => Ok(false),
        Satisfiability::Undecided(_) => Ok(true),
    }
}

/// What is answered of a start at which a literal form is needed: that it isn't decided for this reason, unless no valuation meets its other
/// conditions.
fn start_in_need<M: ListedMemory, D: Decider>(
    alloc: Global,
    decider: &mut D,
    here: &Place,
    started: Started<M>,
    reason: Reason,
) -> Result<Next<M>, AllocError>
    requires over { IsStartOver (start_view started) }
    requires outside { IsOutside (path_view started.path).conds reason }
    requires needed { has_open (path_view started.path).conds ≡ true }
    ensures { IfOk result (λ n. IsStartOf here.now (start_view started) (next_view n)) }
{
    let others = without_forms(alloc, started.path.conds.atoms())?;
    if !may_be_met(alloc, decider, &started.path.vars, &others)? {
        return Ok(Next::Over);
    }
    let shown = Shown::of(alloc, here, &started.path)?;
    Ok(Next::Caused(Cause::Unknown(reason, shown)))
}

/// What is answered of a start whose conditions aren't decided, for this reason: where none of them needs a literal form, its path.
fn undecided_start<M: ListedMemory, D: Decider>(
    alloc: Global,
    decider: &mut D,
    here: &Place,
    started: Started<M>,
    reason: Reason,
) -> Result<Next<M>, AllocError>
    requires over { IsStartOver (start_view started) }
    requires outside { IsOutside (path_view started.path).conds reason }
    ensures { IfOk result (λ n. IsStartOf here.now (start_view started) (next_view n)) }
{
    if needs_form(started.path.conds.atoms()) {
        start_in_need(alloc, decider, here, started, reason)
    } else {
        path_from(alloc, started)
    }
}

/// What is answered of a start. Where a decider says that no valuation meets its conditions, no run begins on it.
fn start_of<M: ListedMemory, D: Decider>(
    alloc: Global,
    decider: &mut D,
    here: &Place,
    started: Started<M>,
) -> Result<Next<M>, AllocError>
    requires { IsStartOver (start_view started) }
    ensures { IfOk result (λ n. IsStartOf here.now (start_view started) (next_view n)) }
{
    match ask(
        alloc,
        decider,
        &started.path.vars,
        started.path.conds.atoms(),
    )? {
        Satisfiability::Satisfiable(_) => path_from(alloc, started),
        Satisfiability::Unsatisfiable => Ok(Next::Over),
        Satisfiability::Undecided(reason) => undecided_start(alloc, decider, here, started, reason),
    }
}

/// What is answered of all starts, in order.
pub(crate) fn starts_of<M: ListedMemory, D: Decider>(
    alloc: Global,
    decider: &mut D,
    here: &Place,
    starts: Starts<M>,
) -> Result<Nexts<M>, AllocError>
    requires { Each IsStartOver (starts_view starts) }
    ensures { IfOk result (λ ns. AreStartsOf here.now (starts_view starts) (nexts_view ns)) }
{
    let mut nexts = Sequence::new(alloc);
    for started in starts.into_vec() {
        nexts.push(start_of(alloc, decider, here, started)?)?;
    }
    Ok(nexts)
}
