//! The specification of a path.
ghost use Rattle.std.specs.Prelude.{◌≡◌, ◌↔◌, ℕ, ◌≤◌, ◌<◌, ◌||◌, List, [], ◌∷◌, length, drop, map, IfOk, IsTrue, Some};
ghost use Rattle.std.specs.List.{list_all};
ghost use Rattle.gil_syntax.specs.View.{proc_view, spec_view, assertion_view};
ghost use Rattle.pure_terms.specs.declared.variables.Sort.{Sort as PureSort};
ghost use Rattle.pure_terms.specs.Kinds.{same_sort};
ghost use Rattle.pure_terms.specs.View.{term_view, atoms_view};
ghost use Rattle.sym_model.specs.Listing.{IsListing};
ghost use Rattle.sym_model.specs.Pure.{PureUse};
ghost use Rattle.sym_paths.specs.View.{end_view, path_view};
ghost use Rattle.bi_beginnings.specs.Beginnings.{IsBeginning};
ghost use Rattle.bi_beginnings.specs.View.{beginning_view};
ghost use Rattle.bi_specifications.specs.Shape.{early_conds, late_conds, post_of, spec_of, HasGrown, MayBeTold, MayBeSaid};
ghost use Rattle.bi_specifications.specs.Specified.{IsTrulyTold, IsMetAlong, TellsNothing};
ghost use Rattle.bi_specifications.specs.View.{entry_view, found_view, IfTold, MatchTold, IsUnsaid};

use crate::conditions::{early_conditions, first_unsaid, late_conditions};
use crate::wording::{
    any_parameters, numbered_variables, only, postcondition, precondition, result_parameter,
};
use bi_beginnings::Beginning;
use gil_syntax::{Assertions, Proc, Spec};
use pure_terms::{Atoms, Sort, Term, Var, VarTable};
use sequence::Sequence;
use std::alloc::{AllocError, Global};
use sym_model::ListedMemory;
use sym_paths::{Path, PathEnd};

/// A specification that is found: of runs that end, or of runs that a bound cuts. Contracts see it as its pure data, by `found_view`.
#[derive(Debug, Drop)]
pub struct Found {
    pub spec: Spec,
    pub cut: bool,
}

/// A list of specifications that are found, which contracts see as a list of pure data by `founds_view`.
pub type Founds = Sequence<Found>;

/// What is told of a path that has ended.
#[derive(Debug, Drop)]
pub enum Told {
    Found(Found),
    /// What the path says of this term can't be said in a specification: it is of a condition that names a symbol that the run took; or it
    /// is a parameter that is named as the result.
    Unsaid(Term),
    /// No specification is found from it: it drew, failed, missed a key, vanished or is unknown.
    Nothing,
}

/// Whether each variable from a number on is a new symbol.
fn are_new_symbols(vars: &VarTable, first: usize) -> bool
    requires { first ≤ length vars.now }
    ensures { result ≡ list_all (same_sort PureSort.Fresh) (drop first vars.now) }
{
    let sorts = vars.as_slice();
    for number in first..sorts.len() {
        if sorts[number] != Sort::Fresh {
            return false;
        }
    }
    true
}

/// Whether the path has new symbols behind the variables of the beginning, of which the first are the parameters. One that drew nothing
/// has.
fn grew_by_symbols<M>(proc: &Proc, beginning: &Beginning, path: &Path<M>) -> bool
    ensures { IsTrue result ↔ HasGrown (proc_view proc.now) (entry_view beginning.now) (path_view path.now) }
{
    if beginning.vars.len() < proc.params.len() || path.vars.len() < beginning.vars.len() {
        return false;
    }
    are_new_symbols(&path.vars, beginning.vars.len())
}

/// The variable of a table with a number.
fn variable_at(vars: &VarTable, number: usize) -> Term {
    let sort = match vars.get(number) {
        Some(sort) => *sort,
        None => Sort::Any,
    };
    let number = number as u64;
    Term::Var(Var { number, sort })
}

/// The specification with these conditions on what was there and these postconditions.
fn specification<M>(
    alloc: Global,
    proc: &Proc,
    beginning: &Beginning,
    path: &Path<M>,
    early: &Atoms,
    posts: Assertions,
    errors: Assertions,
) -> Result<Spec, AllocError>
    requires params_first { length (proc_view proc.now).params ≤ (entry_view beginning.now).count }
    requires count_within { (entry_view beginning.now).count ≤ length (path_view path.now).vars }
    requires early { atoms_view early.now ≡ early_conds (entry_view beginning.now).count (path_view path.now).conds }
    ensures { IfOk result (λ s. spec_view s ≡ spec_of (proc_view proc.now) (entry_view beginning.now) (path_view path.now)
        (map assertion_view posts) (map assertion_view errors)) }
{
    let pre = precondition(
        alloc,
        &proc.params,
        beginning.vars.len(),
        &beginning.uses,
        early,
    )?;
    Ok(Spec {
        name: proc.name.copy(alloc)?,
        params: any_parameters(alloc, &proc.params)?,
        logicals: numbered_variables(alloc, &path.vars, proc.params.len())?,
        pre,
        posts,
        errors,
    })
}

/// What the path left, with the value of a term.
fn left_with<M: ListedMemory>(
    alloc: Global,
    proc: &Proc,
    path: &Path<M>,
    term: &Term,
    late: &Atoms,
) -> Result<Assertions, AllocError>
    requires { length (proc_view proc.now).params ≤ length (path_view path.now).vars }
    ensures { IfOk result (λ posts. (us : List PureUse) × (IsListing M.Local.memory M.stands M.terms M.kept (path_view path.now).memory us
        × ((count : ℕ) (uses : List PureUse) → atoms_view late.now ≡ late_conds count (path_view path.now).conds
        → map assertion_view posts ≡ post_of (proc_view proc.now) (record { count = count; uses = uses }) (path_view path.now) us
        (term_view term.now) ∷ []))) }
{
    let uses = path.memory.listing(alloc)?;
    let post = postcondition(alloc, &proc.params, path.vars.len(), &uses, term, late)?;
    let posts = only(alloc, post)?;
    Ok(posts)
}

/// What is told of a path with this end, which may be told.
fn tell<M: ListedMemory>(
    alloc: Global,
    proc: &Proc,
    beginning: &Beginning,
    path: &Path<M>,
    end: &PathEnd,
    early: &Atoms,
    late: &Atoms,
) -> Result<Told, AllocError>
    requires ends { (path_view path.now).ending ≡ Some (end_view end.now) }
    requires may { MayBeTold (proc_view proc.now) (entry_view beginning.now) (path_view path.now) }
    requires early { atoms_view early.now ≡ early_conds (entry_view beginning.now).count (path_view path.now).conds }
    requires late { atoms_view late.now ≡ late_conds (entry_view beginning.now).count (path_view path.now).conds }
    ensures found { IfOk result (λ told. IfTold told (IsTrulyTold M.Local.memory M.Local.actions M.stands M.terms M.asked M.depends M.plain
        M.keeps_plain M.kept (proc_view proc.now) (entry_view beginning.now) (path_view path.now))) }
    ensures cover { IfOk result (λ told. MatchTold told (IsMetAlong M.Local.memory M.Local.actions M.stands M.terms M.asked M.depends M.plain
        M.keeps_plain M.kept (proc_view proc.now) (entry_view beginning.now) (path_view path.now)) (TellsNothing M.Local.memory M.Local.actions M.stands
        M.terms M.asked M.depends M.plain M.keeps_plain M.kept (proc_view proc.now) (entry_view beginning.now) (path_view path.now))) }
    ensures said { IfOk result (λ told. ¬ IsUnsaid told) }
{
    match end {
        PathEnd::Returned(term) => {
            let posts = left_with(alloc, proc, path, term, late)?;
            let errors = Sequence::new(alloc);
            let spec = specification(alloc, proc, beginning, path, early, posts, errors)?;
            Ok(Told::Found(Found { spec, cut: false }))
        }
        PathEnd::Threw(term, _) => {
            let errors = left_with(alloc, proc, path, term, late)?;
            let posts = Sequence::new(alloc);
            let spec = specification(alloc, proc, beginning, path, early, posts, errors)?;
            Ok(Told::Found(Found { spec, cut: false }))
        }
        PathEnd::Cut => {
            let posts = Sequence::new(alloc);
            let errors = Sequence::new(alloc);
            let spec = specification(alloc, proc, beginning, path, early, posts, errors)?;
            Ok(Told::Found(Found { spec, cut: true }))
        }
        PathEnd::Failed(_, _)
        | PathEnd::Missed(_, _)
        | PathEnd::Unknown(_, _)
        | PathEnd::Vanished => Ok(Told::Nothing),
    }
}

/// The specification that a path tells which returned, threw or was cut, and drew nothing. Its precondition has the uses of the beginning
/// of which the path came, and those of its conditions that name only what was there; its postcondition has the memory that it left, its
/// result, and its conditions on new symbols. Each heap with which a run along the path begins meets the precondition. Where all of the
/// path can be said, it isn't answered that something can't.
pub fn specify<M: ListedMemory>(
    alloc: Global,
    proc: &Proc,
    beginning: &Beginning,
    path: &Path<M>,
) -> Result<Told, AllocError>
    requires { IsBeginning M.Local.memory (proc_view proc.now).params (beginning_view beginning.now) }
    ensures found { IfOk result (λ told. IfTold told (IsTrulyTold M.Local.memory M.Local.actions M.stands M.terms M.asked M.depends M.plain
        M.keeps_plain M.kept (proc_view proc.now) (entry_view beginning.now) (path_view path.now))) }
    ensures cover { IfOk result (λ told. MatchTold told (IsMetAlong M.Local.memory M.Local.actions M.stands M.terms M.asked M.depends M.plain
        M.keeps_plain M.kept (proc_view proc.now) (entry_view beginning.now) (path_view path.now)) (TellsNothing M.Local.memory M.Local.actions M.stands
        M.terms M.asked M.depends M.plain M.keeps_plain M.kept (proc_view proc.now) (entry_view beginning.now) (path_view path.now))) }
    ensures said { MayBeSaid (proc_view proc.now) (entry_view beginning.now) (path_view path.now) → IfOk result (λ told. ¬ IsUnsaid told) }
{
    let Some(end) = &path.end else {
        return Ok(Told::Nothing);
    };
    if path.drawn.len() > 0 {
        return Ok(Told::Nothing);
    }
    if let Some(number) = result_parameter(&proc.params) {
        return Ok(Told::Unsaid(variable_at(&path.vars, number)));
    }
    if !grew_by_symbols(proc, beginning, path) {
        return Ok(Told::Nothing);
    }
    let early = early_conditions(alloc, path.conds.atoms(), beginning.vars.len())?;
    let late = late_conditions(alloc, path.conds.atoms(), beginning.vars.len())?;
    if let Some(term) = first_unsaid(alloc, &late)? {
        return Ok(Told::Unsaid(term));
    }
    tell(alloc, proc, beginning, path, end, &early, &late)
}
