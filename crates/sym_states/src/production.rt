//! What adding items gives.
ghost use Rattle.std.specs.Prelude.{◌≡◌, [], ◌∷◌, ◌++◌, IfOk, OnOk};
ghost use Rattle.sym_states.specs.Producing.{joined, no_states, placed};
ghost use Rattle.sym_states.specs.View.{state_view, states_view, production_view};

use crate::states::{SymState, SymStates};
use sequence::Sequence;
use std::alloc::{AllocError, Global};

/// States to which all items so far were added, and those at which a literal form is needed, so that no further item is added to
/// them. Contracts see them as their pure data, by `production_view`.
#[derive(Debug, Drop)]
pub(crate) struct Production<M> {
    pub(crate) whole: SymStates<M>,
    pub(crate) stopped: SymStates<M>,
}

/// The states of a list, and then those of another one.
pub(crate) fn push_all<M: Drop>(
    states: SymStates<M>,
    more: SymStates<M>,
) -> Result<SymStates<M>, AllocError>
    ensures { IfOk result (λ rs. states_view rs ≡ states_view states ++ states_view more) }
{
    let mut states = states;
    for state in more.into_vec() {
        states.push(state)?;
    }
    Ok(states)
}

impl<M: Drop> Production<M> {
    /// No state.
    pub(crate) fn new(alloc: Global) -> Production<M>
        ensures { production_view result ≡ no_states }
    {
        Production {
            whole: Sequence::new(alloc),
            stopped: Sequence::new(alloc),
        }
    }

    /// One state, to which all was added.
    pub(crate) fn of_whole(alloc: Global, state: SymState<M>) -> Result<Production<M>, AllocError>
        ensures { IfOk result (λ p. production_view p ≡ record { whole = state_view state ∷ []; stopped = [] }) }
    {
        let mut whole = Sequence::new(alloc);
        whole.push(state)?;
        Ok(Production {
            whole,
            stopped: Sequence::new(alloc),
        })
    }

    /// Adds a state, at which adding stops or not.
    pub(crate) fn place(&mut self, state: SymState<M>, stops: bool) -> Result<(), AllocError>
        ensures { OnOk result (production_view self.new ≡ placed stops (state_view state) (production_view self.old)) }
    {
        if stops {
            self.stopped.push(state)?;
        } else {
            self.whole.push(state)?;
        }
        Ok(())
    }

    /// With further states behind those that are there.
    pub(crate) fn joined_with(self, more: Production<M>) -> Result<Production<M>, AllocError>
        ensures { IfOk result (λ p. production_view p ≡ joined (production_view self) (production_view more)) }
    {
        let Production { whole, stopped } = self;
        let whole = push_all(whole, more.whole)?;
        let stopped = push_all(stopped, more.stopped)?;
        Ok(Production { whole, stopped })
    }
}
