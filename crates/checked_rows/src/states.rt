//! Paths beside facts as states, and back.
ghost use Rattle.std.specs.Prelude.{◌≡◌, IfOk};
ghost use Rattle.checked_rows.specs.States.{IsStateOf, with_state};
ghost use Rattle.sym_paths.specs.View.{path_view};
ghost use Rattle.sym_states.specs.View.{facts_view, state_view};

use checked_paths::copy_facts;
use gil_values::Place;
use sequence::Sequence;
use std::alloc::{AllocError, Global};
use std::mem;
use sym_model::{PathCond, SymMemory};
use sym_paths::{Path, copy_place};
use sym_states::{PredChunks, SymState};

/// The state of a path beside facts, with a copy of the memory.
pub fn state_of<M: SymMemory>(
    alloc: Global,
    path: &Path<M>,
    facts: &PredChunks,
    here: &Place,
) -> Result<SymState<M>, AllocError>
    ensures { IfOk result (λ s. IsStateOf M.stands M.terms (path_view path.now) (facts_view facts.now) (state_view s)) }
{
    let mut copy = path.copy(alloc)?;
    let preds = copy_facts(alloc, facts)?;
    let empty = M::empty(alloc)?;
    Ok(SymState {
        vars: mem::replace(&mut copy.vars, Sequence::new(alloc)),
        given: mem::replace(&mut copy.given, Sequence::new(alloc)),
        conds: mem::replace(&mut copy.conds, PathCond::new(alloc)),
        memory: mem::replace(&mut copy.memory, empty),
        preds,
        place: copy_place(alloc, here)?,
        path: mem::replace(&mut copy.choices, Sequence::new(alloc)),
    })
}

/// The path with variables, conditions, memory and choices of a state, and the state's facts.
pub fn path_with<M: SymMemory>(
    alloc: Global,
    path: &Path<M>,
    state: SymState<M>,
) -> Result<(Path<M>, PredChunks), AllocError>
    ensures path { IfOk result (λ r. path_view r.0 ≡ with_state (path_view path.now) (state_view state)) }
    ensures facts { IfOk result (λ r. facts_view r.1 ≡ (state_view state).facts) }
{
    let mut path = path.copy(alloc)?;
    let mut state = state;
    mem::swap(&mut path.vars, &mut state.vars);
    mem::swap(&mut path.conds, &mut state.conds);
    mem::swap(&mut path.memory, &mut state.memory);
    mem::swap(&mut path.choices, &mut state.path);
    let preds = mem::replace(&mut state.preds, Sequence::new(alloc));
    Ok((path, preds))
}
