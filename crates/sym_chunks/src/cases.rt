//! Cases of actions, and their branches.
ghost use Rattle.std.specs.Prelude.{◌≡◌, [], ◌∷◌, ◌++◌, map, IfOk};
ghost use Rattle.std.specs.Option.{option_map};
ghost use Rattle.std.specs.List.{flat_map, list_any};
ghost use Rattle.mem_model.specs.declared.failures.Failure.{Failure};
ghost use Rattle.sym_chunks.specs.Cases.{branch_with, branches_of, case_of, case_branches, choose as choose_of, failure, sure_case};
ghost use Rattle.pure_terms.specs.View.{atoms_view};
ghost use Rattle.sym_chunks.specs.View.{case_view, cases_view, chunk_branches_view};
ghost use Rattle.sym_model.specs.Alternatives.{alternatives_view, is_empty};
ghost use Rattle.sym_model.specs.View.{frag_view, result_view};

use mem_model::Failure;
use pure_terms::Atoms;
use sequence::Sequence;
use std::alloc::{AllocError, Global};
use sym_model::{
    Alternatives, Branch, Branches, SymFrag, SymResult, both, copy_conditions, settle,
};

/// A case of an action: the conditions under which it comes, the chunks after it and its result. Contracts see it as its pure
/// data, by `case_view`.
#[derive(Debug, Drop)]
pub struct Case {
    pub when: Alternatives,
    pub after: SymFrag,
    pub result: SymResult,
}

/// A list of cases, which contracts see as a list of pure data by `cases_view`.
pub type Cases = Sequence<Case>;

/// Whether there is an alternative without conditions.
pub fn is_sure(alternatives: &Alternatives) -> bool
    ensures { result ≡ list_any is_empty (alternatives_view alternatives.now) }
{
    for conditions in alternatives.as_slice() {
        if conditions.len() == 0 {
            return true;
        }
    }
    false
}

/// The cases and one more, unless it never comes.
pub fn with_made_case(
    cases: Cases,
    when: Alternatives,
    after: SymFrag,
    outcome: SymResult,
) -> Result<Cases, AllocError>
    ensures { IfOk result (λ cs. cases_view cs ≡ cases_view cases ++ case_of (alternatives_view when) (frag_view after)
        (result_view outcome)) }
{
    let mut cases = cases;
    if when.len() > 0 {
        cases.push(Case {
            when,
            after,
            result: outcome,
        })?;
    }
    Ok(cases)
}

/// The cases, and one more with equal chunks and an equal result, unless it never comes.
pub fn with_case(
    alloc: Global,
    cases: Cases,
    when: Alternatives,
    chunks: &SymFrag,
    outcome: &SymResult,
) -> Result<Cases, AllocError>
    ensures { IfOk result (λ cs. cases_view cs ≡ cases_view cases ++ case_of (alternatives_view when) (frag_view chunks.now)
        (result_view outcome.now)) }
{
    if when.len() == 0 {
        return Ok(cases);
    }
    let after = chunks.copy(alloc)?;
    let outcome = outcome.copy(alloc)?;
    with_made_case(cases, when, after, outcome)
}

/// The cases, and one more in which the action fails.
pub fn with_failure_case(
    alloc: Global,
    cases: Cases,
    when: Alternatives,
    chunks: &SymFrag,
    why: Failure,
) -> Result<Cases, AllocError>
    ensures { IfOk result (λ cs. cases_view cs ≡ cases_view cases ++ case_of (alternatives_view when) (frag_view chunks.now) (failure why)) }
{
    let outcome = SymResult::failed_with(alloc, why)?;
    with_case(alloc, cases, when, chunks, &outcome)
}

/// The branches, and one for each of these alternatives, with equal chunks and results.
fn with_each_alternative(
    alloc: Global,
    branches: Branches<SymFrag>,
    when: &Alternatives,
    chunks: &SymFrag,
    outcome: &SymResult,
) -> Result<Branches<SymFrag>, AllocError>
    ensures { IfOk result (λ bs. chunk_branches_view bs ≡ chunk_branches_view branches ++ map (branch_with (frag_view chunks.now)
        (result_view outcome.now)) (alternatives_view when.now)) }
{
    let mut branches = branches;
    for conditions in when.as_slice() {
        let conds = copy_conditions(alloc, conditions)?;
        let state = chunks.copy(alloc)?;
        let result = outcome.copy(alloc)?;
        branches.push(Branch {
            conds,
            state,
            result,
        })?;
    }
    Ok(branches)
}

/// The branches, and those of these alternatives, with equal chunks and results.
pub fn with_branches(
    alloc: Global,
    branches: Branches<SymFrag>,
    when: Alternatives,
    chunks: &SymFrag,
    outcome: &SymResult,
) -> Result<Branches<SymFrag>, AllocError>
    ensures { IfOk result (λ bs. chunk_branches_view bs ≡ chunk_branches_view branches ++ branches_of (alternatives_view when)
        (frag_view chunks.now) (result_view outcome.now)) }
{
    let when = settle(alloc, when)?;
    with_each_alternative(alloc, branches, &when, chunks, outcome)
}

/// The branches and one more.
fn with_branch(
    branches: Branches<SymFrag>,
    conds: Atoms,
    chunks: SymFrag,
    outcome: SymResult,
) -> Result<Branches<SymFrag>, AllocError>
    ensures { IfOk result (λ bs. chunk_branches_view bs ≡ chunk_branches_view branches ++ branch_with (frag_view chunks)
        (result_view outcome) (atoms_view conds) ∷ []) }
{
    let mut branches = branches;
    branches.push(Branch {
        conds,
        state: chunks,
        result: outcome,
    })?;
    Ok(branches)
}

/// The branches, and those of these alternatives. The last one has the chunks and the result themselves, so that one alternative
/// copies none.
pub fn with_last_branches(
    alloc: Global,
    branches: Branches<SymFrag>,
    when: Alternatives,
    chunks: SymFrag,
    outcome: SymResult,
) -> Result<Branches<SymFrag>, AllocError>
    ensures { IfOk result (λ bs. chunk_branches_view bs ≡ chunk_branches_view branches ++ branches_of (alternatives_view when)
        (frag_view chunks) (result_view outcome)) }
{
    let mut when = settle(alloc, when)?;
    match when.pop() {
        Some(last) => {
            let before = with_each_alternative(alloc, branches, &when, &chunks, &outcome)?;
            with_branch(before, last, chunks, outcome)
        }
        None => Ok(branches),
    }
}

/// The branches, and those in which the action fails.
pub fn with_failure(
    alloc: Global,
    branches: Branches<SymFrag>,
    when: Alternatives,
    chunks: &SymFrag,
    why: Failure,
) -> Result<Branches<SymFrag>, AllocError>
    ensures { IfOk result (λ bs. chunk_branches_view bs ≡ chunk_branches_view branches ++ branches_of (alternatives_view when)
        (frag_view chunks.now) (failure why)) }
{
    let outcome = SymResult::failed_with(alloc, why)?;
    with_branches(alloc, branches, when, chunks, &outcome)
}

/// The first case that surely comes.
fn sure(cases: &Cases) -> Option<&Case>
    ensures { option_map (λ c. case_view c.now) result ≡ sure_case (cases_view cases.now) }
{
    for case in cases.as_slice() {
        if is_sure(&case.when) {
            return Some(case);
        }
    }
    None
}

/// Whether one of the cases surely comes, so that the branches are its own, whatever cases come after.
pub fn has_sure_case(cases: &Cases) -> bool
    ensures { result ≡ list_any (λ c. list_any is_empty c.when) (cases_view cases.now) }
{
    for case in cases.as_slice() {
        if is_sure(&case.when) {
            return true;
        }
    }
    false
}

/// The branches, and those of the case where the alternatives hold. The last one has the chunks and the result of the case
/// themselves.
fn with_case_branches(
    alloc: Global,
    branches: Branches<SymFrag>,
    when: &Alternatives,
    case: Case,
) -> Result<Branches<SymFrag>, AllocError>
    ensures { IfOk result (λ bs. chunk_branches_view bs ≡ chunk_branches_view branches ++ case_branches (alternatives_view when.now)
        (case_view case)) }
{
    let Case {
        when: comes,
        after,
        result: outcome,
    } = case;
    let both = both(alloc, when, &comes)?;
    with_last_branches(alloc, branches, both, after, outcome)
}

/// The branches, and those of each case where the alternatives hold.
fn with_each(
    alloc: Global,
    branches: Branches<SymFrag>,
    when: &Alternatives,
    cases: Cases,
) -> Result<Branches<SymFrag>, AllocError>
    ensures { IfOk result (λ bs. chunk_branches_view bs ≡ chunk_branches_view branches ++ flat_map (case_branches
        (alternatives_view when.now)) (cases_view cases)) }
{
    let mut branches = branches;
    for case in cases.into_vec() {
        branches = with_case_branches(alloc, branches, when, case)?;
    }
    Ok(branches)
}

/// The branches, and where the alternatives hold those of a case that surely comes, or else of every case.
fn choose_among(
    alloc: Global,
    branches: Branches<SymFrag>,
    when: Alternatives,
    cases: Cases,
) -> Result<Branches<SymFrag>, AllocError>
    ensures { IfOk result (λ bs. chunk_branches_view bs ≡ chunk_branches_view branches ++ choose_of (alternatives_view when)
        (cases_view cases)) }
{
    match sure(&cases) {
        Some(case) => with_branches(alloc, branches, when, &case.after, &case.result),
        None => with_each(alloc, branches, &when, cases),
    }
}

/// The branches, and where the alternatives hold those of the only case there is, which has its chunks and its result itself.
fn choose_only(
    alloc: Global,
    branches: Branches<SymFrag>,
    when: Alternatives,
    case: Case,
) -> Result<Branches<SymFrag>, AllocError>
    ensures { IfOk result (λ bs. chunk_branches_view bs ≡ chunk_branches_view branches ++ choose_of (alternatives_view when) (case_view case
        ∷ [])) }
{
    let Case {
        when: comes,
        after,
        result: outcome,
    } = case;
    if is_sure(&comes) {
        return with_last_branches(alloc, branches, when, after, outcome);
    }
    let both = both(alloc, &when, &comes)?;
    with_last_branches(alloc, branches, both, after, outcome)
}

/// The branches, and where the alternatives hold those of a case that surely comes, or else of every case. Where there is one
/// case alone, nothing is copied for its last branch.
pub fn choose(
    alloc: Global,
    branches: Branches<SymFrag>,
    when: Alternatives,
    cases: Cases,
) -> Result<Branches<SymFrag>, AllocError>
    ensures { IfOk result (λ bs. chunk_branches_view bs ≡ chunk_branches_view branches ++ choose_of (alternatives_view when)
        (cases_view cases)) }
{
    let mut cases = cases;
    if cases.len() > 1 {
        return choose_among(alloc, branches, when, cases);
    }
    match cases.pop() {
        Some(case) => choose_only(alloc, branches, when, case),
        None => Ok(branches),
    }
}
