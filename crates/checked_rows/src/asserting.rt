//! `assert`: the assertion is matched, and the path goes on as it was.
ghost use Rattle.std.specs.Prelude.{◌≡◌, ◌+◌, ◌<◌, ◌^◌, [], IfOk};
ghost use Rattle.checked_paths.specs.Meaning.{IsCheckedOver};
ghost use Rattle.checked_paths.specs.View.{checking_view, entry_view, nexts_view};
ghost use Rattle.checked_rows.specs.Asking.{AsksOnlyOwn};
ghost use Rattle.checked_rows.specs.Rows.{AreRowOf, IsExactRowOf};
ghost use Rattle.footprint.specs.Consuming.{MayMatch, CasesMayMatch};
ghost use Rattle.gil_syntax.specs.Program.{prog_view};
ghost use Rattle.gil_syntax.specs.Pure.{assert_that};
ghost use Rattle.gil_syntax.specs.View.{assertion_view};
ghost use Rattle.sym_engine.specs.Lawful.{MayAdvance};
ghost use Rattle.sym_paths.specs.View.{frames_view};

use crate::matching::match_there;
use crate::names::logicals_in;
use crate::nexts::{Doubt, doubted, go_on};
use checked_paths::{Checking, Entered, FaultKind, Nexts};
use footprint::Matching;
use gil_syntax::{Assertion, Prog, Spec};
use gil_values::Place;
use pure_terms::Decider;
use sequence::Sequence;
use std::alloc::{AllocError, Global};
use sym_model::ListedMemory;

/// The answers at `assert`.
pub fn assert_row<M: ListedMemory, D: Decider>(
    alloc: Global,
    prog: &Prog,
    spec: &Spec,
    entered: &Entered,
    checking: Checking<M>,
    here: &Place,
    items: &Assertion,
    decider: &mut D,
) -> Result<Nexts<M>, AllocError>
    requires over { IsCheckedOver M.terms (entry_view spec.now entered.now) (checking_view checking) }
    requires steps { checking.path.steps + 1 < 2 ^ 32 }
    requires next { MayAdvance (frames_view checking.path.stack) }
    requires may { MayMatch M.Local.memory (assertion_view items.now) }
    requires cases { CasesMayMatch M.Local.memory (prog_view prog.now).preds }
    ensures next { IfOk result (λ ns. AreRowOf (prog_view prog.now) M.Local.memory M.Local.actions M.stands M.terms
        (entry_view spec.now entered.now) (checking_view checking) (assert_that (assertion_view items.now)) [] (nexts_view ns)) }
    ensures exact { IfOk result (λ ns. IsExactRowOf (prog_view prog.now) M.Local.memory M.Local.actions M.stands M.terms
        (entry_view spec.now entered.now) (checking_view checking) (assert_that (assertion_view items.now)) here.now (nexts_view ns)) }
    ensures asked { IfOk result (λ ns. AsksOnlyOwn (prog_view prog.now) (entry_view spec.now entered.now) (checking_view checking)
        (assert_that (assertion_view items.now)) (nexts_view ns)) }
{
    let none = Sequence::new(alloc);
    let scope = logicals_in(&checking.path.stack, &spec.logicals, &none);
    match match_there(
        alloc, prog, spec, entered, &checking, here, scope, items, decider,
    )? {
        Matching::All(_) => go_on(alloc, here, checking),
        Matching::Unmatched {
            item: _,
            conds,
            valuation,
        } => {
            let doubt = Doubt::Under(conds, valuation);
            doubted(alloc, FaultKind::FoldBody, here, &checking.path, doubt)
        }
        Matching::Unknown { conds, reason } => {
            let doubt = Doubt::Undecided(conds, reason);
            doubted(alloc, FaultKind::FoldBody, here, &checking.path, doubt)
        }
    }
}
