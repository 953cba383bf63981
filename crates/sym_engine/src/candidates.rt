//! Candidates for the next paths of a step.
ghost use Rattle.std.specs.Prelude.{◌≡◌, ◌+◌, ◌++◌, ◌<◌, ◌^◌, IfOk, OnOk};
ghost use Rattle.pure_terms.specs.View.{term_view, atoms_view};
ghost use Rattle.sym_engine.specs.Lawful.{proceeding};
ghost use Rattle.sym_engine.specs.View.{candidate_view};
ghost use Rattle.sym_model.specs.View.{path_view as conditions_view};
ghost use Rattle.sym_paths.specs.Valued.{failing};
ghost use Rattle.sym_paths.specs.View.{frames_view, path_view};

use gil_values::Place;
use pure_terms::{Atoms, Term};
use sequence::Sequence;
use std::alloc::{AllocError, Global};
use sym_model::PathCond;
use sym_paths::{Path, PathEnd};

/// A path that may come next. Contracts see it as its pure data, by `candidate_view`.
#[derive(Debug, Drop)]
pub struct Candidate<M> {
    pub path: Path<M>,
    /// What is assumed besides, where the path ends as unknown: that there is no fault at its command.
    pub no_fault: Atoms,
}

pub type Candidates<M> = Sequence<Candidate<M>>;

/// Adds conditions at the end.
pub(crate) fn require(alloc: Global, conds: &mut PathCond, more: &Atoms) -> Result<(), AllocError>
    ensures { OnOk result (conditions_view conds.new ≡ conditions_view conds.old ++ atoms_view more.now) }
{
    for atom in more.as_slice() {
        conds.add(atom.copy(alloc)?)?;
    }
    Ok(())
}

/// Adds conditions, and more of them, at the end.
pub(crate) fn require_both(
    alloc: Global,
    conds: &mut PathCond,
    first: &Atoms,
    more: &Atoms,
) -> Result<(), AllocError>
    ensures { OnOk result
        (conditions_view conds.new ≡ conditions_view conds.old ++ (atoms_view first.now ++ atoms_view more.now)) }
{
    require(alloc, conds, first)?;
    require(alloc, conds, more)
}

/// Adds atoms at the end.
pub(crate) fn assume(alloc: Global, given: &mut Atoms, more: &Atoms) -> Result<(), AllocError>
    ensures { OnOk result (atoms_view given.new ≡ atoms_view given.old ++ atoms_view more.now) }
{
    for atom in more.as_slice() {
        given.push(atom.copy(alloc)?)?;
    }
    Ok(())
}

pub(crate) fn copy_place(alloc: Global, place: &Place) -> Result<Place, AllocError>
    ensures { IfOk result (λ p. p ≡ place.now) }
{
    let proc = place.proc.copy(alloc)?;
    Ok(Place { proc, at: place.at })
}

/// The path fails with a term under these conditions.
pub(crate) fn fail_with<M: Drop>(
    alloc: Global,
    path: Path<M>,
    here: &Place,
    conds: &Atoms,
    term: Term,
) -> Result<Candidate<M>, AllocError>
    requires { path.steps + 1 < 2 ^ 32 }
    ensures { IfOk result (λ c. candidate_view c ≡ failing (path_view path) here.now
        (record { conds = atoms_view conds.now; result = term_view term })) }
{
    let here = copy_place(alloc, here)?;
    let mut path = path;
    require(alloc, &mut path.conds, conds)?;
    assume(alloc, &mut path.given, conds)?;
    path.steps += 1;
    path.end_as(PathEnd::Failed(term, here));
    Ok(Candidate {
        path,
        no_fault: Sequence::new(alloc),
    })
}

/// The path goes on under these conditions.
pub(crate) fn proceed<M: Drop>(
    alloc: Global,
    path: Path<M>,
    conds: Atoms,
) -> Result<Candidate<M>, AllocError>
    requires { path.steps + 1 < 2 ^ 32 }
    ensures { IfOk result (λ c. candidate_view c ≡ proceeding (path_view path) (frames_view path.stack) (atoms_view conds)) }
{
    let mut path = path;
    require(alloc, &mut path.conds, &conds)?;
    path.steps += 1;
    Ok(Candidate {
        path,
        no_fault: conds,
    })
}
