//! Asking a decider of matches, so that those that can't be are dropped.
ghost use Rattle.std.specs.Prelude.{◌≡◌, IfOk};
ghost use Rattle.pure_terms.specs.Meaning.{AreOver};
ghost use Rattle.sym_model.specs.Lists.{Each};
ghost use Rattle.footprint.specs.Assertions.{PrunesMatch, Prunes};
ghost use Rattle.footprint.specs.Spreading.{Gathers};
ghost use Rattle.footprint.specs.View.{match_view, leaves_view};

use crate::leaves::{Leaves, Match, Undecided};
use pure_terms::Decider;
use sequence::Sequence;
use std::alloc::{AllocError, Global};
use sym_model::{ListedMemory, copy_conditions};
use sym_paths::{Satisfiability, ask};

/// Keeps a match, unless no valuation meets its conditions, or they aren't decided.
fn prune_match<M: ListedMemory, D: Decider>(
    alloc: Global,
    found: Match<M>,
    decider: &mut D,
) -> Result<Leaves<M>, AllocError>
    requires { AreOver (match_view found).state.vars (match_view found).state.conds }
    ensures { IfOk result (λ r. PrunesMatch M.stands M.terms M.kept (match_view found) (leaves_view r)) }
{
    match ask(alloc, decider, &found.state.vars, found.state.conds.atoms())? {
        Satisfiability::Satisfiable(_) => Leaves::of_match(alloc, found),
        Satisfiability::Unsatisfiable => Ok(Leaves::new(alloc)),
        Satisfiability::Undecided(reason) => {
            let conds = copy_conditions(alloc, found.state.conds.atoms())?;
            Leaves::of_undecided(alloc, Undecided { conds, reason })
        }
    }
}

/// Keeps a match as it is, where it isn't asked about.
fn prune_if<M: ListedMemory, D: Decider>(
    alloc: Global,
    asks: bool,
    found: Match<M>,
    decider: &mut D,
) -> Result<Leaves<M>, AllocError>
    requires { AreOver (match_view found).state.vars (match_view found).state.conds }
    ensures { IfOk result (λ r. PrunesMatch M.stands M.terms M.kept (match_view found) (leaves_view r)) }
{
    if asks {
        return prune_match(alloc, found, decider);
    }
    Leaves::of_match(alloc, found)
}

/// Drops matches whose conditions no valuation meets, and those that aren't decided, where there are several.
pub(crate) fn prune<M: ListedMemory, D: Decider>(
    alloc: Global,
    leaves: Leaves<M>,
    decider: &mut D,
) -> Result<Leaves<M>, AllocError>
    requires { Each (λ m. AreOver m.state.vars m.state.conds) (leaves_view leaves).matched }
    ensures { IfOk result (λ r. Prunes M.stands M.terms M.kept (leaves_view leaves) (leaves_view r)) }
{
    let Leaves {
        matched,
        stopped,
        undecided,
    } = leaves;
    let asks = matched.len() > 1;
    let mut kept = Leaves::new(alloc);
    for found in matched.into_vec() {
        let more = prune_if(alloc, asks, found, decider)?;
        kept = kept.joined_with(more)?;
    }
    let rest = Leaves {
        matched: Sequence::new(alloc),
        stopped,
        undecided,
    };
    rest.joined_with(kept)
}
