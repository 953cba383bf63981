//! Where the runs of a specification begin.
ghost use Rattle.std.specs.Prelude.{◌≡◌, IfOk, IsTrue, Some, length};
ghost use Rattle.gil_syntax.specs.Program.{prog_view};
ghost use Rattle.gil_syntax.specs.Programs.{find_spec};
ghost use Rattle.gil_syntax.specs.View.{proc_view, spec_view};
ghost use Rattle.assert_logic.specs.Modes.{HasModes};
ghost use Rattle.pure_terms.specs.View.{terms_view};
ghost use Rattle.sym_model.specs.Lists.{Each};
ghost use Rattle.sym_states.specs.Producing.{MayAdd};
ghost use Rattle.sym_states.specs.View.{state_view, states_view};
ghost use Rattle.sym_beginning.specs.Beginning.{CoversStarts, AreStarts, AreBeginnings};
ghost use Rattle.sym_beginning.specs.Plainly.{BeginsPlainly, ArePlainBeginnings, BeginsPlainlyWith};
ghost use Rattle.sym_beginning.specs.Origins.{AreOfPrecondition};
ghost use Rattle.sym_beginning.specs.Starting.{IsFirstState, StartsFrom, BeginsEach, BeginsWith, no_beginnings};
ghost use Rattle.sym_beginning.specs.View.{entry_view, start_view, starts_view, beginnings_view};

use crate::entering::{EntryTerms, entry_terms};
use gil_syntax::{Proc, Prog, Spec};
use gil_values::Place;
use pure_terms::{Terms, VarTable};
use sequence::Sequence;
use std::alloc::{AllocError, Global};
use std::mem::replace;
use sym_evaluation::SymStore;
use sym_model::{ListedMemory, PathCond};
use sym_paths::Path;
use sym_states::{PredChunks, SymState, SymStates, produce_items};

/// A path at the first command of a procedure, with the facts that the precondition gives.
#[derive(Debug, Drop)]
pub struct Started<M> {
    pub path: Path<M>,
    pub preds: PredChunks,
}

pub type Starts<M> = Sequence<Started<M>>;

/// All beginnings of a specification, over one table of variables, and the terms of the values with which it is entered: of its
/// parameters in order, and of the variables that its precondition names. Contracts see them by `beginnings_view`.
#[derive(Debug, Drop)]
pub struct Beginnings<M> {
    pub vars: VarTable,
    pub args: Terms,
    pub variables: SymStore,
    pub starts: Starts<M>,
}

fn copy_table(alloc: Global, vars: &VarTable) -> Result<VarTable, AllocError>
    ensures { IfOk result (λ copied. copied ≡ vars.now) }
{
    let mut copied = Sequence::new(alloc);
    for sort in vars.as_slice() {
        copied.push(*sort)?;
    }
    Ok(copied)
}

/// The state without conditions, keys and facts over a table.
fn first_state<M: ListedMemory>(
    alloc: Global,
    spec: &Spec,
    vars: VarTable,
) -> Result<SymState<M>, AllocError>
    ensures { IfOk result (λ s. IsFirstState M.stands M.terms M.kept vars (state_view s)) }
{
    let memory = M::empty(alloc)?;
    let proc = spec.name.copy(alloc)?;
    Ok(SymState {
        vars,
        given: Sequence::new(alloc),
        conds: PathCond::new(alloc),
        memory,
        preds: Sequence::new(alloc),
        place: Place { proc, at: 0 },
        path: Sequence::new(alloc),
    })
}

/// The path on which a procedure begins in a state.
fn start_from<M: ListedMemory>(
    alloc: Global,
    proc: &Proc,
    args: &Terms,
    state: SymState<M>,
) -> Result<Started<M>, AllocError>
    requires { length (terms_view args.now) ≡ length (proc_view proc.now).params }
    ensures { IfOk result (λ s. StartsFrom (proc_view proc.now) (terms_view args.now) (state_view state) (start_view s)) }
{
    let mut state = state;
    let vars = replace(&mut state.vars, Sequence::new(alloc));
    let conds = replace(&mut state.conds, PathCond::new(alloc));
    let preds = replace(&mut state.preds, Sequence::new(alloc));
    let memory = replace(&mut state.memory, M::empty(alloc)?);
    let path = Path::begin(alloc, proc, args, vars, conds, memory)?;
    Ok(Started { path, preds })
}

/// The paths on which a procedure begins in each of some states.
fn start_in_each<M: ListedMemory>(
    alloc: Global,
    proc: &Proc,
    args: &Terms,
    states: SymStates<M>,
) -> Result<Starts<M>, AllocError>
    requires { length (terms_view args.now) ≡ length (proc_view proc.now).params }
    ensures { IfOk result (λ ss. BeginsEach (proc_view proc.now) (terms_view args.now) (states_view states) (starts_view ss)) }
{
    let mut starts = Sequence::new(alloc);
    for state in states.into_vec() {
        starts.push(start_from(alloc, proc, args, state)?)?;
    }
    Ok(starts)
}

/// The beginnings of a procedure with these terms.
fn begin_with<M: ListedMemory>(
    alloc: Global,
    proc: &Proc,
    spec: &Spec,
    entry: EntryTerms,
) -> Result<Beginnings<M>, AllocError>
    requires arguments { length (terms_view entry.args) ≡ length (proc_view proc.now).params }
    requires addable { Each (MayAdd M.Local.memory) (spec_view spec.now).pre }
    ensures begins { IfOk result (λ b. BeginsWith M.Local.memory M.stands M.terms M.kept (proc_view proc.now) (spec_view spec.now).pre
        (entry_view entry) (beginnings_view b)) }
    ensures plain { M.keeps_plain → IfOk result (λ b. BeginsPlainlyWith M.Local.memory M.stands M.terms M.kept (proc_view proc.now)
        (spec_view spec.now).pre (entry_view entry) (beginnings_view b)) }
{
    let EntryTerms {
        vars,
        args,
        variables,
        store,
    } = entry;
    let table = copy_table(alloc, &vars)?;
    let state = first_state(alloc, spec, table)?;
    let states = produce_items(alloc, state, &spec.pre, &store)?;
    let starts = start_in_each(alloc, proc, &args, states)?;
    Ok(Beginnings {
        vars,
        args,
        variables,
        starts,
    })
}

/// No beginning.
fn begin_nowhere<M: ListedMemory>(alloc: Global) -> Beginnings<M>
    ensures { beginnings_view result ≡ no_beginnings }
{
    Beginnings {
        vars: Sequence::new(alloc),
        args: Terms::new(alloc),
        variables: SymStore::new(alloc),
        starts: Sequence::new(alloc),
    }
}

/// The beginnings of the runs of a specification. No decider is asked, so that the conditions of one may contradict each other.
pub fn begin_specification<M: ListedMemory>(
    alloc: Global,
    prog: &Prog,
    spec: &Spec,
) -> Result<Beginnings<M>, AllocError>
    requires found { find_spec (prog_view prog.now).specs (spec_view spec.now).name ≡ Some (spec_view spec.now) }
    requires modes { HasModes (prog_view prog.now) M.Local.memory }
    ensures cover { IfOk result (λ b. CoversStarts (beginnings_view b) (prog_view prog.now) M.Local.memory M.Local.actions M.stands
        (spec_view spec.now)) }
    ensures exact { IfOk result (λ b. AreStarts (beginnings_view b) M.Local.memory M.stands (spec_view spec.now)) }
    ensures begin { IfOk result (λ b. AreBeginnings (beginnings_view b) (prog_view prog.now) M.terms M.kept (spec_view spec.now)) }
    ensures plain { M.keeps_plain → BeginsPlainly (spec_view spec.now)
        → IfOk result (λ b. ArePlainBeginnings M.plain (spec_view spec.now) (beginnings_view b)) }
    ensures origin { IfOk result (λ b. AreOfPrecondition (beginnings_view b) (spec_view spec.now)) }
{
    let proc = match prog.proc(&spec.name) {
        Some(proc) => proc,
        None => unreachable!(),
    };
    match entry_terms(alloc, spec)? {
        Some(entry) => begin_with(alloc, proc, spec, entry),
        None => Ok(begin_nowhere(alloc)),
    }
}
