//! The candidates of actions.
ghost use Rattle.std.specs.Prelude.{◌≡◌, ◌+◌, ◌<◌, ◌^◌, ◌++◌, ◌∷◌, [], List, Some, None, IfOk, IsTrue, OnOk};
ghost use Rattle.std.specs.List.{list_all};
ghost use Rattle.gil_syntax.specs.Pure.{act as pure_act};
ghost use Rattle.gil_syntax.specs.Subexpressions.{literals_of};
ghost use Rattle.gil_syntax.specs.View.{exprs_view};
ghost use Rattle.gil_syntax.specs.WellMade.{is_spellable};
ghost use Rattle.pure_terms.specs.View.{term_view, terms_view, atoms_view};
ghost use Rattle.sym_engine.specs.Forms.{NeedWhatMatters};
ghost use Rattle.sym_engine.specs.Lawful.{AreLawful, MayAdvance};
ghost use Rattle.sym_engine.specs.Narrow.{StayNarrow};
ghost use Rattle.sym_engine.specs.Plain.{StayPlain};
ghost use Rattle.sym_engine.specs.View.{candidate_view, candidates_view};
ghost use Rattle.sym_evaluation.specs.Pure.{PureStore};
ghost use Rattle.sym_evaluation.specs.View.{good_view};
ghost use Rattle.sym_model.specs.View.{result_view, branch_view, branches_view};
ghost use Rattle.sym_paths.specs.Laws.{IsBound};
ghost use Rattle.sym_paths.specs.Meaning.{IsOverTable};
ghost use Rattle.sym_paths.specs.Moves.{advanced, running_store};
ghost use Rattle.sym_paths.specs.Settling.{Candidate as PureCandidate};
ghost use Rattle.sym_paths.specs.View.{end_view, frames_view, path_view};
ghost use Rattle.sym_paths.specs.Acting.{taken, fresh_where, ActsTo, ActsAsEach};

use crate::calling::evaluate_all_in;
use crate::candidates::{Candidate, Candidates, assume, copy_place, require_both};
use crate::frames::assign;
use crate::valued::fail_each;
use gil_syntax::Exprs;
use gil_values::{Place, Text};
use mem_model::LocalMemory;
use pure_terms::{Atoms, Sort, Term, Terms, Var, VarTable};
use sequence::Sequence;
use std::alloc::{AllocError, Global};
use sym_evaluation::{Cases, GoodCase};
use sym_model::{Branch, Branches, SymMemory, SymResult};
use sym_paths::{Path, PathEnd};

/// The variable for the symbol that an action takes, if it takes one.
fn fresh_variable(vars: &VarTable, takes: bool) -> Option<Var>
    ensures { result ≡ fresh_where takes vars.now }
{
    if takes {
        return Some(Var {
            number: vars.len() as u64,
            sort: Sort::Fresh,
        });
    }
    None
}

/// Adds that variable to the table.
fn take_variable(vars: &mut VarTable, takes: bool) -> Result<(), AllocError>
    ensures { OnOk result (vars.new ≡ vars.old ++ taken takes) }
{
    if takes {
        vars.push(Sort::Fresh)?;
    }
    Ok(())
}

/// The path as a branch leaves it, without its choice.
fn follow<M: Drop>(
    alloc: Global,
    path: Path<M>,
    takes: bool,
    good: &GoodCase<Terms>,
    conds: &Atoms,
    state: M,
) -> Result<Path<M>, AllocError>
    requires { path.steps + 1 < 2 ^ 32 }
    ensures { IfOk result (λ next. path_view next ≡ record (path_view path) {
      vars = path.vars ++ taken takes;
      conds = (path_view path).conds ++ (atoms_view good.now.conds ++ atoms_view conds.now);
      given = (path_view path).given ++ atoms_view conds.now;
      memory = state;
      steps = path.steps + 1;
    }) }
{
    let mut path = path;
    require_both(alloc, &mut path.conds, &good.conds, conds)?;
    assume(alloc, &mut path.given, conds)?;
    take_variable(&mut path.vars, takes)?;
    path.memory = state;
    path.steps += 1;
    Ok(path)
}

/// The action is done: the variable gets the result, and the path goes on.
fn finish<M: Drop>(
    alloc: Global,
    path: Path<M>,
    name: &Text,
    term: Term,
) -> Result<Candidate<M>, AllocError>
    requires { MayAdvance (frames_view path.stack) }
    ensures { IfOk result (λ c. (bs : PureStore) × (IsBound (running_store (frames_view path.stack)) name.now (term_view term) bs
        × (candidate_view c ≡ record {
          path = record (path_view path) {
            choices = path.choices ++ 0 ∷ [];
            stack = advanced bs (frames_view path.stack);
            ending = None;
          };
          no_fault = [];
        }))) }
{
    let mut path = path;
    assign(alloc, &mut path.stack, name, term)?;
    path.choices.push(0)?;
    path.end = None;
    Ok(Candidate {
        path,
        no_fault: Sequence::new(alloc),
    })
}

/// The path ends with a choice.
fn end<M: Drop>(
    alloc: Global,
    path: Path<M>,
    choice: u64,
    end: PathEnd,
) -> Result<Candidate<M>, AllocError>
    ensures { IfOk result (λ c. candidate_view c ≡ record {
      path = record (path_view path) { choices = path.choices ++ choice ∷ []; ending = Some (end_view end) };
      no_fault = [];
    }) }
{
    let mut path = path;
    path.choices.push(choice)?;
    path.end_as(end);
    Ok(Candidate {
        path,
        no_fault: Sequence::new(alloc),
    })
}

/// The candidate of a branch.
fn act_to<M: Drop>(
    alloc: Global,
    path: Path<M>,
    here: &Place,
    name: &Text,
    takes: bool,
    good: &GoodCase<Terms>,
    branch: Branch<M>,
) -> Result<Candidate<M>, AllocError>
    requires steps { path.steps + 1 < 2 ^ 32 }
    requires next { MayAdvance (frames_view path.stack) }
    ensures { IfOk result (λ c. ActsTo (path_view path) name.now here.now takes (good_view terms_view good.now) (branch_view branch)
        (result_view branch.result) (candidate_view c)) }
{
    let Branch {
        conds,
        state,
        result,
    } = branch;
    let path = follow(alloc, path, takes, good, &conds, state)?;
    match result {
        SymResult::Done(term) => finish(alloc, path, name, term),
        SymResult::Failed(term) => {
            end(
                alloc,
                path,
                1,
                PathEnd::Failed(term, copy_place(alloc, here)?),
            )
        }
        SymResult::Miss(key) => {
            end(
                alloc,
                path,
                2,
                PathEnd::Missed(key, copy_place(alloc, here)?),
            )
        }
    }
}

/// Adds a candidate for each branch, on copies of the path.
fn add_copies<M: SymMemory>(
    alloc: Global,
    candidates: Candidates<M>,
    path: &Path<M>,
    here: &Place,
    name: &Text,
    takes: bool,
    good: &GoodCase<Terms>,
    branches: Vec<Branch<M>>,
) -> Result<Candidates<M>, AllocError>
    requires steps { path.now.steps + 1 < 2 ^ 32 }
    requires next { MayAdvance (frames_view path.now.stack) }
    ensures { IfOk result (λ cs. (ds : List (PureCandidate M)) × ((candidates_view cs ≡ candidates_view candidates ++ ds)
        × ActsAsEach (path_view path.now) name.now here.now takes (good_view terms_view good.now) (branches_view branches.items) ds)) }
{
    let mut candidates = candidates;
    for branch in branches {
        let copy = path.copy(alloc)?;
        candidates.push(act_to(alloc, copy, here, name, takes, good, branch)?)?;
    }
    Ok(candidates)
}

/// Adds a candidate for each branch. The last one takes the path itself.
fn add_each<M: SymMemory>(
    alloc: Global,
    candidates: Candidates<M>,
    path: Path<M>,
    here: &Place,
    name: &Text,
    takes: bool,
    good: &GoodCase<Terms>,
    branches: Branches<M>,
) -> Result<Candidates<M>, AllocError>
    requires steps { path.steps + 1 < 2 ^ 32 }
    requires next { MayAdvance (frames_view path.stack) }
    ensures { IfOk result (λ cs. (ds : List (PureCandidate M)) × ((candidates_view cs ≡ candidates_view candidates ++ ds)
        × ActsAsEach (path_view path) name.now here.now takes (good_view terms_view good.now) (branches_view branches) ds)) }
{
    let mut branches = branches.into_vec();
    match branches.pop() {
        Some(last) => {
            let mut candidates = add_copies(
                alloc, candidates, &path, here, name, takes, good, branches,
            )?;
            candidates.push(act_to(alloc, path, here, name, takes, good, last)?)?;
            Ok(candidates)
        }
        None => Ok(candidates),
    }
}

/// The candidates of `x := [action](e1, ..)`.
pub fn act_candidates<M: SymMemory>(
    alloc: Global,
    path: Path<M>,
    here: &Place,
    name: &Text,
    action: &Text,
    arguments: &Exprs,
) -> Result<Candidates<M>, AllocError>
    requires over { IsOverTable M.terms (path_view path) }
    requires spellable { IsTrue (list_all (λ e. list_all is_spellable (literals_of e)) (exprs_view arguments.now)) }
    requires steps { path.steps + 1 < 2 ^ 32 }
    requires next { MayAdvance (frames_view path.stack) }
    ensures lawful { IfOk result (λ cs. AreLawful M.stands M.terms M.asked M.Local.actions (path_view path) here.now
        (pure_act name.now action.now (exprs_view arguments.now)) (candidates_view cs)) }
    ensures forms { IfOk result (λ cs. NeedWhatMatters M.stands M.terms M.depends (path_view path)
        (pure_act name.now action.now (exprs_view arguments.now)) (candidates_view cs)) }
    ensures plain { M.keeps_plain → IfOk result (λ cs. StayPlain M.plain (path_view path)
        (pure_act name.now action.now (exprs_view arguments.now)) (candidates_view cs)) }
    ensures narrow { M.keeps_narrow → IfOk result (λ cs. StayNarrow M.terms (path_view path) (pure_act name.now action.now (exprs_view arguments.now)) (candidates_view cs)) }
{
    let Cases { faults, good } = evaluate_all_in(alloc, &path.stack, arguments)?;
    let candidates = fail_each(alloc, &path, here, &faults)?;
    match good {
        Some(good) => {
            let takes = M::Local::fresh_for(action);
            let fresh = fresh_variable(&path.vars, takes);
            let branches = path.memory.act(alloc, action, fresh, &good.result)?;
            add_each(alloc, candidates, path, here, name, takes, &good, branches)
        }
        None => Ok(candidates),
    }
}
