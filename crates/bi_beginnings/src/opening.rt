//! The paths on which the runs of a beginning begin.
ghost use Rattle.std.specs.Prelude.{◌≡◌, ◌++◌, [], ℕ, ◌≤◌, length, map, false, Some, IsSome, IfOk, IfSome, IsTrue};
ghost use Rattle.std.specs.List.{list_all, list_any};
ghost use Rattle.std.specs.Option.{option_or};
ghost use Rattle.gil_syntax.specs.Program.{prog_view};
ghost use Rattle.gil_syntax.specs.Programs.{find_proc};
ghost use Rattle.gil_syntax.specs.Valid.{has_twice};
ghost use Rattle.gil_syntax.specs.View.{proc_view};
ghost use Rattle.gil_syntax.specs.WellMade.{is_program_name};
ghost use Rattle.pure_terms.specs.Fragment.{InFragment};
ghost use Rattle.pure_terms.specs.View.{terms_view, atom_view, atoms_view};
ghost use Rattle.sym_evaluation.specs.View.{store_view};
ghost use Rattle.sym_model.specs.Lists.{Each, OneOf};
ghost use Rattle.sym_paths.specs.Beginning.{Begins};
ghost use Rattle.sym_paths.specs.Steps.{narrow_bound, place_of as pure_place};
ghost use Rattle.sym_paths.specs.View.{path_view, paths_view};
ghost use Rattle.sym_model.specs.Meaning.{is_open};
ghost use Rattle.sym_states.specs.View.{state_view, states_view};
ghost use Rattle.sym_step.specs.Stepping.{MayStep};
ghost use Rattle.bi_beginnings.specs.Beginnings.{any_for_each, variables_from, PureBeginning, IsBeginning, IsOpening, BeginsExactly, IsBare, OpensBare, CoversBeginning};
ghost use Rattle.bi_beginnings.specs.Narrowly.{IsNarrowBeginning, IsNarrowStart, StartNarrow, OpensNarrow, begun_bound};
ghost use Rattle.bi_beginnings.specs.Opening.{
  IsFirstState,
  IsEntryState,
  IsBareState,
  IsBegunFrom,
  IsEnteredFrom,
  IsAskedThere,
  IsQueryOf,
  HasVariables,
  IsNamedFurther,
  AreNamed,
  AreEntered,
  IsEnteredExactly,
  IsOpenedBy,
  carrying,
  starts_of,
  undecided_of,
  without_conditions,
};
ghost use Rattle.bi_beginnings.specs.View.{beginning_view};

use crate::beginnings::{Beginning, copy_choices, copy_table, extended, sorts_of_params};
use assertion_terms::{assertion_of, names_of_table};
use gil_syntax::{Proc, Prog, Texts};
use gil_values::Text;
use pure_terms::{Atom, Atoms, Decider, Query, Reason, Term, Terms, Var, VarTable};
use sequence::Sequence;
use std::alloc::{AllocError, Global};
use std::mem::replace;
use sym_evaluation::SymStore;
use sym_model::{ListedMemory, PathCond};
use sym_paths::{Path, Paths, Satisfiability, ask, copy_place};
use sym_states::{SymState, SymStates, produce_items};

/// The paths on which the runs of a beginning begin, and the first list of conditions of which the decider doesn't know whether they
/// can be met, if there is one.
#[derive(Debug, Drop)]
pub struct Opened<M> {
    pub starts: Paths<M>,
    pub undecided: Option<Query>,
}

/// What comes of a state in which a procedure may be entered.
#[derive(Debug, Drop)]
pub(crate) enum Opening<M> {
    Start(Path<M>),
    /// No valuation meets its conditions.
    Nowhere,
    /// The decider doesn't know whether one does.
    Undecided(Query),
}

// ---- states in which a procedure may be entered

/// Gives a name the variable of the table with this number, if there is one.
fn with_variable(
    alloc: Global,
    store: SymStore,
    vars: &VarTable,
    name: &Text,
    number: usize,
) -> Result<SymStore, AllocError>
    requires { HasVariables vars.now (store_view store) }
    ensures variables { IfOk result (λ s. HasVariables vars.now (store_view s)) }
    ensures named { IfOk result (λ s. IsNamedFurther vars.now number name.now (store_view store) (store_view s)) }
{
    let sort = match vars.get(number) {
        Some(sort) => *sort,
        None => return Ok(store),
    };
    let number = number as u64;
    let mut store = store;
    store.set(name.copy(alloc)?, Term::Var(Var { number, sort }))?;
    Ok(store)
}

/// The store in which the names have the variables of the table, in order.
fn store_of(alloc: Global, names: &Texts, vars: &VarTable) -> Result<SymStore, AllocError>
    ensures variables { IfOk result (λ s. HasVariables vars.now (store_view s)) }
    ensures named { has_twice names.now ≡ false → IfOk result (λ s. AreNamed names.now vars.now (length names.now) (store_view s)) }
{
    let names = names.as_slice();
    let mut store = SymStore::new(alloc);
    for number in 0..names.len() {
        store = with_variable(alloc, store, vars, &names[number], number)?;
    }
    Ok(store)
}

/// The state without conditions, keys and facts, at the place and behind the choices of a beginning.
fn first_state<M: ListedMemory>(
    alloc: Global,
    beginning: &Beginning,
) -> Result<SymState<M>, AllocError>
    ensures { IfOk result (λ s. IsFirstState M.stands M.terms M.kept (beginning_view beginning.now).vars (state_view s)) }
{
    let vars = copy_table(alloc, &beginning.vars)?;
    let memory = M::empty(alloc)?;
    let place = copy_place(alloc, &beginning.place)?;
    let path = copy_choices(alloc, &beginning.choices)?;
    Ok(SymState {
        vars,
        given: Sequence::new(alloc),
        conds: PathCond::new(alloc),
        memory,
        preds: Sequence::new(alloc),
        place,
        path,
    })
}

/// The states in which a procedure may be entered, whatever conditions a beginning carries: with a variable for each parameter, and the
/// heaps of the uses. No decider is asked.
fn used_states<M: ListedMemory>(
    alloc: Global,
    proc: &Proc,
    beginning: &Beginning,
) -> Result<SymStates<M>, AllocError>
    requires { IsBeginning M.Local.memory (proc_view proc.now).params (beginning_view beginning.now) }
    ensures entries { IfOk result (λ ss. Each (IsEntryState M.stands M.terms M.kept (proc_view proc.now).params) (states_view ss)) }
    ensures table { IfOk result (λ ss. Each (λ s. s.vars ≡ beginning.now.vars) (states_view ss)) }
    ensures cover { IsTrue (list_all is_program_name (proc_view proc.now).params) → has_twice (proc_view proc.now).params ≡ false
        → IfOk result (λ ss. AreEntered M.Local.memory M.stands (without_conditions (beginning_view beginning.now)) (states_view ss)) }
    ensures exact { IsTrue (list_all is_program_name (proc_view proc.now).params) → has_twice (proc_view proc.now).params ≡ false
        → IfOk result (λ ss. Each (IsEnteredExactly M.stands (beginning_view beginning.now)) (states_view ss)) }
    ensures origin { IsTrue (list_all is_program_name (proc_view proc.now).params) → has_twice (proc_view proc.now).params ≡ false
        → IfOk result (λ ss. Each (IsBegunFrom M.stands M.terms M.kept (proc_view proc.now).params (beginning_view beginning.now)) (states_view ss)) }
    ensures bare { IsBare (beginning_view beginning.now) → IfOk result (λ ss. Each (IsBareState M.stands M.terms) (states_view ss)) }
    ensures narrow { M.keeps_narrow → IfOk result (λ ss. StartNarrow M.terms (beginning_view beginning.now) (states_view ss)) }
{
    let others = beginning.vars.len() - proc.params.len();
    let names = names_of_table(alloc, &proc.params, others)?;
    let items = assertion_of(alloc, &names, &beginning.uses, &Sequence::new(alloc))?;
    let store = store_of(alloc, &names, &beginning.vars)?;
    let state = first_state(alloc, beginning)?;
    produce_items(alloc, state, &items, &store)
}

/// Whether a condition is that a literal form is needed.
fn is_form_needed(condition: &Atom) -> bool
    ensures { result ≡ is_open (atom_view condition.now) }
{
    matches!(condition, Atom::Open(_))
}

/// Whether one of the conditions is that a literal form is needed.
fn needs_form(conds: &Atoms) -> bool
    ensures { result ≡ list_any (λ a. is_open (atom_view a)) conds.now }
{
    conds.iter().any(|condition| is_form_needed(condition))
}

/// The state with the conditions behind its own, unless a literal form is needed there.
fn carry<M: ListedMemory>(
    alloc: Global,
    state: SymState<M>,
    conds: &Atoms,
) -> Result<SymState<M>, AllocError>
    ensures { IfOk result (λ s. state_view s ≡ carrying (atoms_view conds.now) (state_view state)) }
{
    if needs_form(state.conds.atoms()) {
        return Ok(state);
    }
    state.under(alloc, conds)
}

/// Each state with the conditions behind its own, unless a literal form is needed there.
fn carry_each<M: ListedMemory>(
    alloc: Global,
    states: SymStates<M>,
    conds: &Atoms,
) -> Result<SymStates<M>, AllocError>
    ensures { IfOk result (λ ss. states_view ss ≡ map (carrying (atoms_view conds.now)) (states_view states)) }
{
    let mut carried = Sequence::new(alloc);
    for state in states.into_vec() {
        carried.push(carry(alloc, state, conds)?)?;
    }
    Ok(carried)
}

/// The states in which a procedure may be entered: with a variable for each parameter, the heaps of the uses and the conditions of a
/// beginning. No decider is asked.
fn entry_states<M: ListedMemory>(
    alloc: Global,
    proc: &Proc,
    beginning: &Beginning,
) -> Result<SymStates<M>, AllocError>
    requires { IsBeginning M.Local.memory (proc_view proc.now).params (beginning_view beginning.now) }
    ensures entries { IfOk result (λ ss. Each (IsEntryState M.stands M.terms M.kept (proc_view proc.now).params) (states_view ss)) }
    ensures cover { IsTrue (list_all is_program_name (proc_view proc.now).params) → has_twice (proc_view proc.now).params ≡ false
        → IfOk result (λ ss. AreEntered M.Local.memory M.stands (beginning_view beginning.now) (states_view ss)) }
    ensures exact { IsTrue (list_all is_program_name (proc_view proc.now).params) → has_twice (proc_view proc.now).params ≡ false
        → IfOk result (λ ss. Each (IsEnteredExactly M.stands (beginning_view beginning.now)) (states_view ss)) }
    ensures origin { IsTrue (list_all is_program_name (proc_view proc.now).params) → has_twice (proc_view proc.now).params ≡ false
        → IfOk result (λ ss. Each (IsEnteredFrom M.stands M.terms M.kept (proc_view proc.now).params (beginning_view beginning.now)) (states_view ss)) }
    ensures table { IfOk result (λ ss. Each (λ s. s.vars ≡ beginning.now.vars) (states_view ss)) }
    ensures bare { IsBare (beginning_view beginning.now) → IfOk result (λ ss. Each (IsBareState M.stands M.terms) (states_view ss)) }
    ensures narrow { M.keeps_narrow → IfOk result (λ ss. StartNarrow M.terms (beginning_view beginning.now) (states_view ss)) }
{
    let states = used_states(alloc, proc, beginning)?;
    carry_each(alloc, states, &beginning.conds)
}

// ---- what comes of them

/// The variables of the parameters.
fn entry_args(alloc: Global, proc: &Proc) -> Result<Terms, AllocError>
    ensures { IfOk result (λ ts. terms_view ts ≡ variables_from 0 (any_for_each (proc_view proc.now).params)) }
{
    let sorts = sorts_of_params(alloc, &proc.params)?;
    let extended = extended(alloc, &Sequence::new(alloc), &sorts)?;
    Ok(extended.added)
}

/// The path on which a procedure begins in a state.
fn start_from<M: ListedMemory>(
    alloc: Global,
    proc: &Proc,
    args: &Terms,
    state: SymState<M>,
) -> Result<Path<M>, AllocError>
    requires { length (terms_view args.now) ≡ length (proc_view proc.now).params }
    ensures { IfOk result (λ path. Begins (proc_view proc.now) (terms_view args.now) (state_view state).vars (state_view state).conds
        state.memory (path_view path)) }
{
    let mut state = state;
    let vars = replace(&mut state.vars, Sequence::new(alloc));
    let conds = replace(&mut state.conds, PathCond::new(alloc));
    let memory = replace(&mut state.memory, M::empty(alloc)?);
    Path::begin(alloc, proc, args, vars, conds, memory)
}

fn place_of(reason: Reason) -> usize
    ensures { result ≡ pure_place reason }
{
    match reason {
        Reason::Atom(place) | Reason::Number(place) => place,
    }
}

/// The conditions of a state as a query of a beginning, with the place of an atom that keeps them out of the fragment.
fn query_of<M: Drop>(
    alloc: Global,
    beginning: &Beginning,
    state: SymState<M>,
    reason: Reason,
) -> Result<Query, AllocError>
    ensures place { IfOk result (λ q. q.place ≡ beginning.now.place) }
    ensures choices { IfOk result (λ q. q.path ≡ beginning.now.choices) }
    ensures vars { IfOk result (λ q. q.vars ≡ state.vars) }
    ensures given { IfOk result (λ q. atoms_view q.given ≡ []) }
    ensures query { IfOk result (λ q. atoms_view q.query ≡ (state_view state).conds) }
{
    let place = copy_place(alloc, &beginning.place)?;
    let path = copy_choices(alloc, &beginning.choices)?;
    let mut state = state;
    let vars = replace(&mut state.vars, Sequence::new(alloc));
    let conds = replace(&mut state.conds, PathCond::new(alloc));
    Ok(Query {
        place,
        path,
        vars,
        given: Sequence::new(alloc),
        query: conds.into_atoms(),
        outside: place_of(reason),
    })
}

/// What comes of a state of a beginning: a path where a valuation meets its conditions, as the decider says.
fn enter<M: ListedMemory, D: Decider>(
    alloc: Global,
    proc: &Proc,
    beginning: &Beginning,
    args: &Terms,
    state: SymState<M>,
    decider: &mut D,
) -> Result<Opening<M>, AllocError>
    requires args { terms_view args.now ≡ variables_from 0 (any_for_each (proc_view proc.now).params) }
    requires entry { IsEntryState M.stands M.terms M.kept (proc_view proc.now).params (state_view state) }
    ensures starts { IfOk result (λ o. Each (IsOpening M.stands M.terms M.kept (proc_view proc.now)) (starts_of o)) }
    ensures cover { IfOk result (λ o. IsOpenedBy M.stands (state_view state) (IsSome (undecided_of o)) (starts_of o)) }
    ensures exact { (b : PureBeginning) → IsEnteredExactly M.stands b (state_view state) → IfOk result (λ o. Each (BeginsExactly M.stands b) (starts_of o)) }
    ensures undecided { IfOk result (λ o. IfSome (undecided_of o) (λ q. ¬ InFragment (atoms_view q.query))) }
    ensures asked { IfOk result (λ o. IfSome (undecided_of o) (IsQueryOf (beginning_view beginning.now) (state_view state))) }
    ensures bare { IsBareState M.stands M.terms (state_view state) → IfOk result (λ o. OpensBare M.stands M.plain (IsSome (undecided_of o)) (starts_of o)) }
    ensures narrow { (n : ℕ) → n ≤ narrow_bound → IsNarrowStart M.terms n (state_view state)
        → IfOk result (λ o. OpensNarrow M.terms n (IsSome (undecided_of o)) (starts_of o)) }
{
    match ask(alloc, decider, &state.vars, state.conds.atoms())? {
        Satisfiability::Satisfiable(_) => {
            Ok(Opening::Start(start_from(alloc, proc, args, state)?))
        }
        Satisfiability::Unsatisfiable => Ok(Opening::Nowhere),
        Satisfiability::Undecided(reason) => {
            Ok(Opening::Undecided(query_of(alloc, beginning, state, reason)?))
        }
    }
}

impl<M: Drop> Opened<M> {
    /// With what comes of a further state.
    fn with(self, opening: Opening<M>) -> Result<Opened<M>, AllocError>
        ensures starts { IfOk result (λ o. paths_view o.starts ≡ paths_view self.starts ++ starts_of opening) }
        ensures undecided { IfOk result (λ o. o.undecided ≡ option_or self.undecided (undecided_of opening)) }
    {
        let Opened {
            mut starts,
            mut undecided,
        } = self;
        match opening {
            Opening::Start(path) => starts.push(path)?,
            Opening::Nowhere => {}
            Opening::Undecided(query) => {
                if undecided.is_none() {
                    undecided = Some(query);
                }
            }
        }
        Ok(Opened { starts, undecided })
    }
}

/// What comes of each of some states of a beginning.
fn enter_each<M: ListedMemory, D: Decider>(
    alloc: Global,
    proc: &Proc,
    beginning: &Beginning,
    args: &Terms,
    states: SymStates<M>,
    decider: &mut D,
) -> Result<Opened<M>, AllocError>
    requires args { terms_view args.now ≡ variables_from 0 (any_for_each (proc_view proc.now).params) }
    requires entries { Each (IsEntryState M.stands M.terms M.kept (proc_view proc.now).params) (states_view states) }
    ensures starts { IfOk result (λ o. Each (IsOpening M.stands M.terms M.kept (proc_view proc.now)) (paths_view o.starts)) }
    ensures cover { IfOk result (λ o. Each (λ s. IsOpenedBy M.stands s (IsSome o.undecided) (paths_view o.starts)) (states_view states)) }
    ensures exact { (b : PureBeginning) → Each (IsEnteredExactly M.stands b) (states_view states)
        → IfOk result (λ o. Each (BeginsExactly M.stands b) (paths_view o.starts)) }
    ensures undecided { IfOk result (λ o. IfSome o.undecided (λ q. ¬ InFragment (atoms_view q.query))) }
    ensures asked { IfOk result (λ o. IfSome o.undecided (λ q. OneOf (λ s. IsQueryOf (beginning_view beginning.now) s q) (states_view states))) }
    ensures bare { Each (IsBareState M.stands M.terms) (states_view states) → IfOk result (λ o. OpensBare M.stands M.plain (IsSome o.undecided)
        (paths_view o.starts)) }
    ensures narrow { (n : ℕ) → n ≤ narrow_bound → Each (IsNarrowStart M.terms n) (states_view states)
        → IfOk result (λ o. OpensNarrow M.terms n (IsSome o.undecided) (paths_view o.starts)) }
{
    let mut opened = Opened {
        starts: Sequence::new(alloc),
        undecided: None,
    };
    for state in states.into_vec() {
        let opening = enter(alloc, proc, beginning, args, state, decider)?;
        opened = opened.with(opening)?;
    }
    Ok(opened)
}

/// The paths on which the runs of a beginning begin: with any values, the heaps that its uses fix, and the conditions that it carries.
/// Of one that no valuation meets there is no path, and of one that the decider doesn't know there is a query. Where there is none, each
/// heap that the uses have is one with which a path begins. Each path begins with exactly the heap that the uses say. A query is of the
/// beginning's place and choices, over its variables, and asks the conditions of adding its uses, and those that it carries. There is none
/// of a beginning that fixes and assumes nothing.
pub fn begin<M: ListedMemory, D: Decider>(
    alloc: Global,
    prog: &Prog,
    proc: &Proc,
    beginning: &Beginning,
    decider: &mut D,
) -> Result<Opened<M>, AllocError>
    requires found { find_proc (prog_view prog.now).procs (proc_view proc.now).name ≡ Some (proc_view proc.now) }
    requires beginning { IsBeginning M.Local.memory (proc_view proc.now).params (beginning_view beginning.now) }
    ensures starts { IfOk result (λ o. Each (IsOpening M.stands M.terms M.kept (proc_view proc.now)) (paths_view o.starts)) }
    ensures step { IfOk result (λ o. Each (MayStep (prog_view prog.now) M.terms) (paths_view o.starts)) }
    ensures exact { IfOk result (λ o. Each (BeginsExactly M.stands (beginning_view beginning.now)) (paths_view o.starts)) }
    ensures cover { IfOk result (λ o. CoversBeginning M.Local.memory M.stands (beginning_view beginning.now) (IsSome o.undecided)
        (paths_view o.starts)) }
    ensures undecided { IfOk result (λ o. IfSome o.undecided (λ q. ¬ InFragment (atoms_view q.query))) }
    ensures asked { IfOk result (λ o. IfSome o.undecided (λ q. IsAskedThere M.stands M.terms M.kept (proc_view proc.now).params (beginning_view beginning.now)
        q.place q.path q.vars (atoms_view q.given) (atoms_view q.query))) }
    ensures decided { (beginning_view beginning.now).uses ≡ [] → (beginning_view beginning.now).conds ≡ [] → IfOk result (λ o. ¬ IsSome o.undecided) }
    ensures bare { IsBare (beginning_view beginning.now) → IfOk result (λ o. OpensBare M.stands M.plain (IsSome o.undecided) (paths_view o.starts)) }
    ensures narrow { M.keeps_narrow → (n : ℕ) → IsNarrowBeginning n (beginning_view beginning.now)
        → begun_bound n (beginning_view beginning.now) ≤ narrow_bound
        → IfOk result (λ o. OpensNarrow M.terms (begun_bound n (beginning_view beginning.now)) (IsSome o.undecided) (paths_view o.starts)) }
{
    let states = entry_states(alloc, proc, beginning)?;
    let args = entry_args(alloc, proc)?;
    enter_each(alloc, proc, beginning, &args, states, decider)
}
