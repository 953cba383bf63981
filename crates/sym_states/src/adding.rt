//! Adding one item to a state.
ghost use Rattle.std.specs.Prelude.{◌≡◌, ◌∷◌, ◌++◌, [], IfOk, IsTrue};
ghost use Rattle.std.specs.List.{list_any};
ghost use Rattle.std.specs.Option.{option_map};
ghost use Rattle.gil_syntax.specs.Pure.{pure, uses};
ghost use Rattle.gil_syntax.specs.View.{expr_view, pred_use_view, item_view};
ghost use Rattle.mem_model.specs.CoreNames.{core_of};
ghost use Rattle.sym_evaluation.specs.View.{good_view, store_view};
ghost use Rattle.pure_terms.specs.View.{atom_view, atoms_view, term_view, terms_view};
ghost use Rattle.sym_model.specs.Cores.{TakesBoth};
ghost use Rattle.sym_model.specs.Meaning.{is_open};
ghost use Rattle.sym_model.specs.View.{branches_view};
ghost use Rattle.sym_states.specs.Producing.{are_spelled, MayAdd, AddsToEach, AddsKey, AddsByName, TakesBothIfCore, assumed_where, added_fact, divided};
ghost use Rattle.sym_states.specs.View.{state_view, arguments_view, production_view};

use crate::arguments::{Arguments, evaluate_use};
use crate::production::Production;
use crate::states::{PredChunk, SymState, require};
use gil_syntax::{Expr, Item, PredUse};
use gil_values::Text;
use mem_model::Core;
use pure_terms::{Atom, Atoms, Term};
use std::alloc::{AllocError, Global};
use sym_evaluation::{Cases, GoodCase, SymStore, evaluate, guard_sides};
use sym_model::{Branch, Branches, ListedMemory, SymResult};
use sym_paths::plain_expressions_ask_nothing;

/// The state where the guard is true, unless it surely isn't.
fn take_side<M: ListedMemory>(
    alloc: Global,
    state: SymState<M>,
    good: &GoodCase<Term>,
    side: Option<Atoms>,
) -> Result<Production<M>, AllocError>
    ensures { IfOk result (λ p. production_view p ≡ assumed_where (state_view state) (good_view term_view good.now)
        (option_map atoms_view side)) }
{
    match side {
        Some(conds) => {
            let mut state = state;
            require(alloc, &mut state.conds, &good.conds)?;
            require(alloc, &mut state.conds, &conds)?;
            Production::of_whole(alloc, state)
        }
        None => Ok(Production::new(alloc)),
    }
}

/// Assumes a pure item: its expression has a value, which is true.
fn assume<M: ListedMemory>(
    alloc: Global,
    state: SymState<M>,
    expression: &Expr,
    store: &SymStore,
) -> Result<Production<M>, AllocError>
    requires { IsTrue (are_spelled (expr_view expression.now ∷ [])) }
    ensures { IfOk result (λ p. AddsToEach M.Local.memory M.stands M.terms M.kept M.keeps_plain M.keeps_narrow (store_view store.now) (pure (expr_view expression.now))
        (state_view state ∷ []) (production_view p)) }
{
    plain_expressions_ask_nothing();
    let Cases { faults: _, good } = evaluate(alloc, store, expression)?;
    match good {
        Some(good) => {
            let sides = guard_sides(alloc, &good.result)?;
            take_side(alloc, state, &good, sides.when_true)
        }
        None => Ok(Production::new(alloc)),
    }
}

/// Adds a fact behind the others.
fn add_fact<M: ListedMemory>(
    alloc: Global,
    state: SymState<M>,
    pred: &Text,
    arguments: Arguments,
) -> Result<Production<M>, AllocError>
    ensures { IfOk result (λ p. production_view p ≡ added_fact (state_view state) pred.now (arguments_view arguments)) }
{
    let Arguments { conds, ins, outs } = arguments;
    let mut state = state;
    require(alloc, &mut state.conds, &conds)?;
    let pred = pred.copy(alloc)?;
    state.preds.push(PredChunk { pred, ins, outs })?;
    Production::of_whole(alloc, state)
}

/// Whether the condition is that a literal form is needed.
fn is_form_needed(condition: &Atom) -> bool
    ensures { result ≡ is_open (atom_view condition.now) }
{
    match condition {
        Atom::Open(_) => true,
        _ => false,
    }
}

/// Whether one of the conditions is that a literal form is needed.
fn needs_form(conds: &Atoms) -> bool
    ensures { result ≡ list_any (λ a. is_open (atom_view a)) conds.now }
{
    conds.iter().any(|condition| is_form_needed(condition))
}

/// The state as a branch of production leaves it.
fn follow<M: ListedMemory>(
    alloc: Global,
    state: &SymState<M>,
    arguments: &Arguments,
    conds: &Atoms,
    memory: M,
) -> Result<SymState<M>, AllocError>
    ensures { IfOk result (λ r. state_view r ≡ record (state_view state.now) {
      conds = (state_view state.now).conds ++ ((arguments_view arguments.now).conds ++ atoms_view conds.now);
      memory = memory;
    }) }
{
    let mut next = state.over_memory(alloc, memory)?;
    require(alloc, &mut next.conds, &arguments.conds)?;
    require(alloc, &mut next.conds, conds)?;
    Ok(next)
}

// A result is dropped here, so that the loop below isn't made longer by it.
fn let_go(ended: SymResult) {
    let _ = ended;
}

/// The states of the branches of production.
fn divide<M: ListedMemory>(
    alloc: Global,
    state: &SymState<M>,
    arguments: &Arguments,
    branches: Branches<M>,
) -> Result<Production<M>, AllocError>
    ensures { IfOk result (λ p. production_view p ≡ divided (state_view state.now) (arguments_view arguments.now) (branches_view branches)) }
{
    let mut production = Production::new(alloc);
    for branch in branches.into_vec() {
        let Branch {
            conds,
            state: memory,
            result,
        } = branch;
        let_go(result);
        let next = follow(alloc, state, arguments, &conds, memory)?;
        production.place(next, needs_form(&conds))?;
    }
    Ok(production)
}

/// Produces a core predicate.
fn add_core<M: ListedMemory>(
    alloc: Global,
    state: SymState<M>,
    core: &Text,
    arguments: Arguments,
) -> Result<Production<M>, AllocError>
    requires { TakesBoth M.Local.memory core.now (terms_view arguments.ins) (terms_view arguments.outs) }
    ensures { IfOk result (λ p. AddsKey M.Local.memory M.stands M.terms M.kept M.keeps_plain M.keeps_narrow core.now (state_view state) (arguments_view arguments)
        (production_view p)) }
{
    let branches = state
        .memory
        .produce(alloc, core, &arguments.ins, &arguments.outs)?;
    divide(alloc, &state, &arguments, branches)
}

/// Adds a predicate: a core predicate is produced, and any other is a fact.
fn add_predicate<M: ListedMemory>(
    alloc: Global,
    state: SymState<M>,
    pred: &Text,
    arguments: Arguments,
) -> Result<Production<M>, AllocError>
    requires { TakesBothIfCore M.Local.memory pred.now (terms_view arguments.ins) (terms_view arguments.outs) }
    ensures { IfOk result (λ p. AddsByName M.Local.memory M.stands M.terms M.kept M.keeps_plain M.keeps_narrow (core_of pred.now) pred.now (state_view state)
        (arguments_view arguments) (production_view p)) }
{
    match Core::from_name(pred) {
        Some(_) => add_core(alloc, state, pred, arguments),
        None => add_fact(alloc, state, pred, arguments),
    }
}

/// Adds a use of a predicate.
fn add_use<M: ListedMemory>(
    alloc: Global,
    state: SymState<M>,
    used: &PredUse,
    store: &SymStore,
) -> Result<Production<M>, AllocError>
    requires { MayAdd M.Local.memory (uses (pred_use_view used.now)) }
    ensures { IfOk result (λ p. AddsToEach M.Local.memory M.stands M.terms M.kept M.keeps_plain M.keeps_narrow (store_view store.now) (uses (pred_use_view used.now))
        (state_view state ∷ []) (production_view p)) }
{
    let arguments = evaluate_use(alloc, store, used)?;
    match arguments {
        Some(arguments) => add_predicate(alloc, state, &used.pred, arguments),
        None => Ok(Production::new(alloc)),
    }
}

/// Adds an item.
pub(crate) fn add_item<M: ListedMemory>(
    alloc: Global,
    state: SymState<M>,
    item: &Item,
    store: &SymStore,
) -> Result<Production<M>, AllocError>
    requires { MayAdd M.Local.memory (item_view item.now) }
    ensures { IfOk result (λ p. AddsToEach M.Local.memory M.stands M.terms M.kept M.keeps_plain M.keeps_narrow (store_view store.now) (item_view item.now)
        (state_view state ∷ []) (production_view p)) }
{
    match item {
        Item::Pure(expression) => assume(alloc, state, expression, store),
        Item::Uses(used) => add_use(alloc, state, used, store),
    }
}
