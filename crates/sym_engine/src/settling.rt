//! What a decider leaves of candidates.
ghost use Rattle.std.specs.Prelude.{◌≡◌, ◌↔◌, List, ◌∷◌, [], IfOk, IfSome, IfNone, IsTrue, Some, slice_get};
ghost use Rattle.std.specs.List.{list_any};
ghost use Rattle.std.specs.Option.{option_map};
ghost use Rattle.gil_syntax.specs.Pure.{PureParts};
ghost use Rattle.pure_terms.specs.Deciding.{IsReason};
ghost use Rattle.pure_terms.specs.Fragment.{InFragment};
ghost use Rattle.pure_terms.specs.Laws.{AreEachInFragment};
ghost use Rattle.pure_terms.specs.Meaning.{AreOver};
ghost use Rattle.pure_terms.specs.Pure.{PureAtom};
ghost use Rattle.pure_terms.specs.View.{atom_view, atoms_view};
ghost use Rattle.sym_engine.specs.Settles.{StandsThere, IsAfter, AreAllOver, SettlesAs};
ghost use Rattle.sym_engine.specs.View.{candidate_view, candidates_view};
ghost use Rattle.sym_model.specs.Lists.{Each};
ghost use Rattle.sym_model.specs.Meaning.{is_open};
ghost use Rattle.sym_model.specs.View.{path_view as conditions_view};
ghost use Rattle.sym_paths.specs.Pure.{PurePath};
ghost use Rattle.sym_paths.specs.Settling.{AreSettled, ended_unknown};
ghost use Rattle.sym_paths.specs.Steps.{IsFirstOutside, place_of};
ghost use Rattle.sym_paths.specs.View.{path_view, paths_view};

use crate::candidates::{Candidate, Candidates, assume, copy_place};
use gil_values::Place;
use pure_terms::{Atom, Atoms, Decider, Decision, Reason, VarTable, in_fragment};
use sequence::Sequence;
use std::alloc::{AllocError, Global};
use sym_model::SymMemory;
use sym_paths::{Path, PathEnd, Paths};

/// Whether the atom by itself is in the fragment.
fn is_inside(alloc: Global, vars: &VarTable, atom: &Atom) -> Result<bool, AllocError>
    requires { AreOver vars.now (atom_view atom.now ∷ []) }
    ensures { IfOk result (λ b. IsTrue b ↔ InFragment (atom_view atom.now ∷ [])) }
{
    let mut alone = Sequence::new(alloc);
    alone.push(atom.copy(alloc)?)?;
    Ok(in_fragment(vars, &alone))
}

/// Why the atom at a place isn't in the fragment. One that only names too many variables is more than memory holds.
fn reason_at(atom: &Atom, place: usize) -> Result<Reason, AllocError>
    ensures place { IfOk result (λ r. place_of r ≡ place) }
    ensures reason { IfOk result (λ r. (atoms : List PureAtom) → slice_get atoms place ≡ Some (atom_view atom.now) → IsReason atoms r) }
{
    if !atom.has_fragment_form() {
        return Ok(Reason::Atom(place));
    }
    if !atom.has_narrow_literals() {
        return Ok(Reason::Number(place));
    }
    Err(AllocError)
}

/// The first atom that isn't in the fragment by itself, if there is one.
fn first_outside(
    alloc: Global,
    vars: &VarTable,
    atoms: &Atoms,
) -> Result<Option<Reason>, AllocError>
    requires { AreOver vars.now (atoms_view atoms.now) }
    ensures first { IfOk result (λ o. IfSome o (IsFirstOutside (atoms_view atoms.now))) }
    ensures none { IfOk result (λ o. IfNone o (AreEachInFragment (atoms_view atoms.now))) }
{
    let items = atoms.as_slice();
    for place in 0..items.len() {
        if !is_inside(alloc, vars, &items[place])? {
            return Ok(Some(reason_at(&items[place], place)?));
        }
    }
    Ok(None)
}

fn is_form_needed(atom: &Atom) -> bool
    ensures { result ≡ is_open (atom_view atom.now) }
{
    match atom {
        Atom::Open(_) => true,
        Atom::Holds(_) | Atom::Not(_) => false,
    }
}

/// Whether one of the conditions is that a literal form is needed.
fn needs_form(atoms: &Atoms) -> bool
    ensures { result ≡ list_any (λ a. is_open (atom_view a)) atoms.now }
{
    atoms.iter().any(|atom| is_form_needed(atom))
}

/// The path ends as unknown.
fn leave_unknown<M: Drop>(
    alloc: Global,
    candidate: Candidate<M>,
    here: &Place,
    reason: Reason,
) -> Result<Path<M>, AllocError>
    ensures { IfOk result (λ next. path_view next ≡ ended_unknown (candidate_view candidate) here.now reason) }
{
    let Candidate { path, no_fault } = candidate;
    let here = copy_place(alloc, here)?;
    let mut path = path;
    assume(alloc, &mut path.given, &no_fault)?;
    path.end_as(PathEnd::Unknown(here, reason));
    Ok(path)
}

/// What becomes of a candidate: it stays, it ends as unknown, or there is none, where no valuation meets it. Where it has no
/// condition more than the old path had, the decider isn't asked.
fn settle_one<M: SymMemory, D: Decider>(
    alloc: Global,
    decider: &mut D,
    old: usize,
    here: &Place,
    candidate: Candidate<M>,
) -> Result<Option<Path<M>>, AllocError>
    requires { AreOver candidate.path.vars (conditions_view candidate.path.conds) }
    ensures { IfOk result (λ o. (p : PureParts) (path : PurePath M) → StandsThere p path old here.now
        → IsAfter path (candidate_view candidate) → SettlesAs p path (candidate_view candidate) (option_map path_view o)) }
{
    let atoms = candidate.path.conds.atoms();
    let open = needs_form(atoms);
    if !open && atoms.len() == old {
        return Ok(Some(candidate.path));
    }
    match decider.decide(alloc, &candidate.path.vars, atoms)? {
        Decision::Unsat => Ok(None),
        Decision::Sat(_) => {
            if !open {
                return Ok(Some(candidate.path));
            }
            match first_outside(alloc, &candidate.path.vars, atoms)? {
                Some(reason) => Ok(Some(leave_unknown(alloc, candidate, here, reason)?)),
                None => unreachable!(),
            }
        }
        Decision::Unknown(named) => {
            let reason = match first_outside(alloc, &candidate.path.vars, atoms)? {
                Some(reason) => reason,
                None => named,
            };
            Ok(Some(leave_unknown(alloc, candidate, here, reason)?))
        }
    }
}

/// What becomes of candidates, in order.
pub fn settle<M: SymMemory, D: Decider>(
    alloc: Global,
    decider: &mut D,
    old: usize,
    here: &Place,
    candidates: Candidates<M>,
) -> Result<Paths<M>, AllocError>
    requires { AreAllOver (candidates_view candidates) }
    ensures { IfOk result (λ ps. (p : PureParts) (path : PurePath M) → StandsThere p path old here.now
        → Each (IsAfter path) (candidates_view candidates) → AreSettled p path (candidates_view candidates) (paths_view ps)) }
{
    let mut paths = Sequence::new(alloc);
    for candidate in candidates.into_vec() {
        let settled = settle_one(alloc, decider, old, here, candidate)?;
        match settled {
            Some(path) => paths.push(path)?,
            None => {}
        }
    }
    Ok(paths)
}
