//! What matching on terms comes to.
ghost use Rattle.std.specs.Prelude.{◌≡◌, [], ◌∷◌, ◌++◌, IfOk};
ghost use Rattle.pure_terms.specs.View.{atoms_view};
ghost use Rattle.sym_model.specs.Alternatives.{alternatives_view};
ghost use Rattle.footprint.specs.Spreading.{no_leaves, joined, stops_at};
ghost use Rattle.footprint.specs.View.{match_view, stops_view, undecided_view, leaves_view};

use pure_terms::{Atoms, Reason, Valuation};
use sequence::Sequence;
use std::alloc::{AllocError, Global};
use sym_evaluation::SymStore;
use sym_model::{Alternatives, copy_conditions};
use sym_states::SymState;

/// What is left of a state, and the terms that names got. Contracts see it as its pure data, by `match_view`.
#[derive(Debug, Drop)]
pub struct Match<M> {
    pub state: SymState<M>,
    pub store: SymStore,
}

/// A list of matches, which contracts see as a list of pure data by `matches_view`.
pub type Matches<M> = Sequence<Match<M>>;

/// What consuming comes to. Contracts see it as its pure data, by `matching_view`.
#[derive(Debug, Drop)]
pub enum Matching<M> {
    /// Each valuation of the state matches, as those of these say whose conditions are true.
    All(Matches<M>),
    /// Where these conditions are true, which this valuation meets, the item with this number, counted from 0, isn't matched.
    Unmatched {
        item: usize,
        conds: Atoms,
        valuation: Valuation,
    },
    /// These conditions aren't decided, for this reason, and nothing is known not to match.
    Unknown {
        conds: Atoms,
        reason: Reason,
    },
}

/// The item that isn't matched where these conditions are true.
#[derive(Debug, Drop)]
pub(crate) struct Stop {
    pub(crate) item: usize,
    pub(crate) conds: Atoms,
}

pub(crate) type Stops = Sequence<Stop>;

/// Conditions that aren't decided, and why.
#[derive(Debug, Drop)]
pub(crate) struct Undecided {
    pub(crate) conds: Atoms,
    pub(crate) reason: Reason,
}

pub(crate) type UndecidedList = Sequence<Undecided>;

/// How far matching came, in all cases. Contracts see it as its pure data, by `leaves_view`.
#[derive(Debug, Drop)]
pub(crate) struct Leaves<M> {
    pub(crate) matched: Matches<M>,
    pub(crate) stopped: Stops,
    pub(crate) undecided: UndecidedList,
}

/// The elements of a list, and then those of another one.
fn push_all<T: Drop>(list: Sequence<T>, more: Sequence<T>) -> Result<Sequence<T>, AllocError>
    ensures { IfOk result (λ all. all ≡ list ++ more) }
{
    let mut list = list;
    for item in more.into_vec() {
        list.push(item)?;
    }
    Ok(list)
}

impl<M: Drop> Leaves<M> {
    /// No leaf.
    pub(crate) fn new(alloc: Global) -> Leaves<M>
        ensures { leaves_view result ≡ no_leaves }
    {
        Leaves {
            matched: Sequence::new(alloc),
            stopped: Sequence::new(alloc),
            undecided: Sequence::new(alloc),
        }
    }

    /// One match.
    pub(crate) fn of_match(alloc: Global, found: Match<M>) -> Result<Leaves<M>, AllocError>
        ensures { IfOk result (λ r. leaves_view r ≡ record { matched = match_view found ∷ []; stopped = []; undecided = [] }) }
    {
        let mut matched = Sequence::new(alloc);
        matched.push(found)?;
        Ok(Leaves {
            matched,
            stopped: Sequence::new(alloc),
            undecided: Sequence::new(alloc),
        })
    }

    /// Stops alone.
    pub(crate) fn of_stops(alloc: Global, stopped: Stops) -> Leaves<M>
        ensures { leaves_view result ≡ record { matched = []; stopped = stops_view stopped; undecided = [] } }
    {
        Leaves {
            matched: Sequence::new(alloc),
            stopped,
            undecided: Sequence::new(alloc),
        }
    }

    /// Conditions that aren't decided, alone.
    pub(crate) fn of_undecided(alloc: Global, undecided: Undecided) -> Result<Leaves<M>, AllocError>
        ensures { IfOk result (λ r. leaves_view r ≡ record { matched = []; stopped = []; undecided = undecided_view undecided ∷ [] }) }
    {
        let mut all = Sequence::new(alloc);
        all.push(undecided)?;
        Ok(Leaves {
            matched: Sequence::new(alloc),
            stopped: Sequence::new(alloc),
            undecided: all,
        })
    }

    /// With further leaves behind those that are there.
    pub(crate) fn joined_with(self, more: Leaves<M>) -> Result<Leaves<M>, AllocError>
        ensures { IfOk result (λ r. leaves_view r ≡ joined (leaves_view self) (leaves_view more)) }
    {
        let Leaves {
            matched,
            stopped,
            undecided,
        } = self;
        let matched = push_all(matched, more.matched)?;
        let stopped = push_all(stopped, more.stopped)?;
        let undecided = push_all(undecided, more.undecided)?;
        Ok(Leaves {
            matched,
            stopped,
            undecided,
        })
    }
}

/// The conditions of both lists.
pub(crate) fn join(alloc: Global, first: &Atoms, second: &Atoms) -> Result<Atoms, AllocError>
    ensures { IfOk result (λ a. atoms_view a ≡ atoms_view first.now ++ atoms_view second.now) }
{
    let mut joined = copy_conditions(alloc, first)?;
    for atom in second.as_slice() {
        joined.push(atom.copy(alloc)?)?;
    }
    Ok(joined)
}

/// That an item isn't matched, under each of the alternatives beside these conditions.
pub(crate) fn stops(
    alloc: Global,
    item: usize,
    conds: &Atoms,
    alternatives: &Alternatives,
) -> Result<Stops, AllocError>
    ensures { IfOk result (λ r. stops_view r ≡ stops_at item (atoms_view conds.now) (alternatives_view alternatives.now)) }
{
    let mut stops = Sequence::new(alloc);
    for more in alternatives.as_slice() {
        let conds = join(alloc, conds, more)?;
        stops.push(Stop { item, conds })?;
    }
    Ok(stops)
}
