//! Matching an assertion where a checked path stands.
ghost use Rattle.std.specs.Prelude.{◌≡◌, IfOk};
ghost use Rattle.checked_paths.specs.Meaning.{IsCheckedOver};
ghost use Rattle.checked_paths.specs.View.{checking_view, entry_view};
ghost use Rattle.checked_rows.specs.Asked.{MatchingAsks};
ghost use Rattle.checked_rows.specs.Matching.{MatchesThere};
ghost use Rattle.footprint.specs.Consuming.{MayMatch, CasesMayMatch};
ghost use Rattle.footprint.specs.View.{matching_view};
ghost use Rattle.gil_syntax.specs.Program.{prog_view};
ghost use Rattle.gil_syntax.specs.View.{assertion_view};

use crate::names::names_in;
use crate::states::state_of;
use checked_paths::{Checking, Entered};
use footprint::{Matching, consume_all};
use gil_syntax::{Assertion, Params, Prog, Spec};
use gil_values::Place;
use pure_terms::Decider;
use std::alloc::{AllocError, Global};
use sym_model::ListedMemory;

/// Matches an assertion, in which program variables and those of the precondition have their terms.
pub fn match_there<M: ListedMemory, D: Decider>(
    alloc: Global,
    prog: &Prog,
    spec: &Spec,
    entered: &Entered,
    checking: &Checking<M>,
    here: &Place,
    scope: &Params,
    items: &Assertion,
    decider: &mut D,
) -> Result<Matching<M>, AllocError>
    requires over { IsCheckedOver M.terms (entry_view spec.now entered.now) (checking_view checking.now) }
    requires may { MayMatch M.Local.memory (assertion_view items.now) }
    requires cases { CasesMayMatch M.Local.memory (prog_view prog.now).preds }
    ensures says { IfOk result (λ r. MatchesThere M.stands M.terms (entry_view spec.now entered.now) (checking_view checking.now)
        (prog_view prog.now).preds scope.now (assertion_view items.now) (matching_view r)) }
    ensures origin { IfOk result (λ r. MatchingAsks M.terms (entry_view spec.now entered.now) (checking_view checking.now)
        (prog_view prog.now).preds scope.now (assertion_view items.now) (matching_view r)) }
{
    let _spec = spec;
    let names = names_in(alloc, &checking.path.stack, &entered.variables)?;
    let state = state_of(alloc, &checking.path, &checking.preds, here)?;
    consume_all(alloc, state, prog, scope, items, names, decider)
}
