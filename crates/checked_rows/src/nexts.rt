//! The answers of a row.
ghost use Rattle.std.specs.Prelude.{◌≡◌, ◌+◌, ◌<◌, ◌^◌, ◌∷◌, [], IfOk};
ghost use Rattle.checked_paths.specs.Covering.{IsCaused};
ghost use Rattle.checked_paths.specs.Following.{IsAnswered};
ghost use Rattle.checked_paths.specs.Pure.{PureNext};
ghost use Rattle.checked_paths.specs.View.{checking_view, next_view, nexts_view};
ghost use Rattle.checked_rows.specs.Asked.{HasConds};
ghost use Rattle.checked_rows.specs.Doubts.{IsDoubtAlone, IsDoubtNext, ShowsDoubt};
ghost use Rattle.checked_rows.specs.Rows.{IsCauseAlone};
ghost use Rattle.checked_rows.specs.View.{doubt_view};
ghost use Rattle.sym_model.specs.Lists.{Each};
ghost use Rattle.sym_paths.specs.Moves.{passing};
ghost use Rattle.sym_engine.specs.Lawful.{MayAdvance};
ghost use Rattle.sym_paths.specs.View.{frames_view, path_view};

use checked_paths::{Cause, Checking, FaultKind, Next, Nexts, Shown, follow};
use gil_values::Place;
use pure_terms::{Atoms, Reason, Valuation};
use sequence::Sequence;
use std::alloc::{AllocError, Global};
use sym_engine::pass;
use sym_model::SymMemory;
use sym_paths::Path;

/// One answer.
fn alone<M: Drop>(alloc: Global, next: Next<M>) -> Result<Nexts<M>, AllocError>
    ensures { IfOk result (λ ns. nexts_view ns ≡ next_view next ∷ []) }
{
    let mut nexts = Sequence::new(alloc);
    nexts.push(next)?;
    Ok(nexts)
}

/// No answer.
pub fn nothing<M: Drop>(alloc: Global) -> Result<Nexts<M>, AllocError>
    ensures { IfOk result (λ ns. nexts_view ns ≡ []) }
{
    Ok(Sequence::new(alloc))
}

/// Why a row isn't decided for all valuations.
#[derive(Debug, Drop)]
pub enum Doubt {
    /// There is a fault under every valuation.
    Always,
    /// There is a fault wherever these conditions are true, which this valuation meets.
    Under(Atoms, Valuation),
    /// These conditions are outside the fragment, for this reason.
    Undecided(Atoms, Reason),
}

/// The cause that a doubt is, at a place of a path.
fn cause_of<M: Drop>(
    alloc: Global,
    kind: FaultKind,
    here: &Place,
    path: &Path<M>,
    doubt: Doubt,
) -> Result<Cause, AllocError>
    ensures { IfOk result (ShowsDoubt kind here.now (path_view path.now) (doubt_view doubt)) }
{
    let mut shown = Shown::of(alloc, here, path)?;
    match doubt {
        Doubt::Always => Ok(Cause::Fault(kind, shown)),
        Doubt::Under(conds, valuation) => {
            shown.conds = conds;
            shown.valuation = Some(valuation);
            Ok(Cause::Fault(kind, shown))
        }
        Doubt::Undecided(conds, reason) => {
            shown.conds = conds;
            Ok(Cause::Unknown(reason, shown))
        }
    }
}

/// The answer of a doubt.
pub fn doubted_next<M: Drop>(
    alloc: Global,
    kind: FaultKind,
    here: &Place,
    path: &Path<M>,
    doubt: Doubt,
) -> Result<Next<M>, AllocError>
    ensures caused { IfOk result (λ n. IsCaused (next_view n)) }
    ensures shows { IfOk result (λ n. IsDoubtNext kind here.now (path_view path.now) (doubt_view doubt) (next_view n)) }
{
    Ok(Next::Caused(cause_of(alloc, kind, here, path, doubt)?))
}

/// The same, alone.
pub fn doubted<M: Drop>(
    alloc: Global,
    kind: FaultKind,
    here: &Place,
    path: &Path<M>,
    doubt: Doubt,
) -> Result<Nexts<M>, AllocError>
    ensures alone { IfOk result (λ ns. IsCauseAlone (nexts_view ns)) }
    ensures shows { IfOk result (λ ns. IsDoubtAlone kind here.now (path_view path.now) (doubt_view doubt) (nexts_view ns)) }
{
    alone(
        alloc,
        Next::Caused(cause_of(alloc, kind, here, path, doubt)?),
    )
}

/// The one path that goes on at the next command, with facts and passed invariants as they are.
pub(crate) fn go_on<M: SymMemory>(
    alloc: Global,
    here: &Place,
    checking: Checking<M>,
) -> Result<Nexts<M>, AllocError>
    requires steps { checking.path.steps + 1 < 2 ^ 32 }
    requires next { MayAdvance (frames_view checking.path.stack) }
    ensures next { IfOk result (λ ns. (n : PureNext M) × ((nexts_view ns ≡ n ∷ []) × IsAnswered M.stands M.terms (checking_view checking).facts
        (checking_view checking).passed (passing (checking_view checking).path) n)) }
    ensures same { IfOk result (λ ns. Each (HasConds (checking_view checking).path.conds) (nexts_view ns)) }
{
    let (path, preds, passed) = checking.into_parts();
    let next = follow(alloc, &preds, &passed, here, pass(path)?)?;
    alone(alloc, next)
}
