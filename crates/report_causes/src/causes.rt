//! Why specifications aren't verified, as reports have it.
ghost use Rattle.std.specs.Prelude.{◌≡◌, [], ◌∷◌, Some, IfOk};
ghost use Rattle.checked_paths.specs.Causes.{cause_view, shown_view};
ghost use Rattle.gil_report.specs.View as report;
ghost use Rattle.gil_syntax.specs.View.{spec_view};
ghost use Rattle.gil_values.specs.View.{value_view, values_view};
ghost use Rattle.pure_terms.specs.Meaning.{value as pure_value};
ghost use Rattle.pure_terms.specs.Pure.{PureTerm};
ghost use Rattle.pure_terms.specs.View.{term_view};
ghost use Rattle.report_causes.specs.Causes.{entry_terms, AreTooWide};
ghost use Rattle.report_causes.specs.Telling.{lack_of, CanBeTold, HasShownValue, IsAskedOfWide, IsShownUnder};
ghost use Rattle.report_causes.specs.Telling.{TellsCause, TellsFailure, TellsLack, TellsOpen};
ghost use Rattle.spec_causes.specs.Causes.{entry_for};

use crate::questions::{place_of, question, wide_question};
use crate::values::{entry_terms, witness};
use checked_paths::{Cause as CheckCause, Entered, FaultKind, Shown};
use gil_report::{Cause, Lack};
use gil_syntax::Spec;
use gil_values::Value;
use pure_terms::{HoldsFault, Term, Terms, Valuation, value_of};
use spec_causes::Met;
use std::alloc::{AllocError, Global};

/// What a path lacks that has such a fault.
fn lack_of(kind: FaultKind) -> Lack
    ensures { result ≡ lack_of kind }
{
    match kind {
        FaultKind::Missing => Lack::Missing,
        FaultKind::Post => Lack::Post,
        FaultKind::Invariant => Lack::Invariant,
        FaultKind::CallPrecondition => Lack::CallPre,
        FaultKind::FoldBody => Lack::FoldBody,
    }
}

/// The conditions that are shown, which aren't decided, with the place of one that keeps them out of the fragment.
fn undecided(alloc: Global, shown: &Shown, outside: usize) -> Result<Cause, AllocError>
    ensures { IfOk result (λ told. TellsOpen outside (shown_view shown.now) (report.cause_view told)) }
{
    Ok(Cause::Undecided(question(alloc, shown, outside)?))
}

/// The conditions that are shown, and behind them whether this term has a form, whose value leaves 128 bits.
fn wide_value(
    alloc: Global,
    term: &Term,
    shown: &Shown,
    valuation: &Valuation,
) -> Result<Cause, AllocError>
    requires shown { (shown_view shown.now).valuation ≡ Some (values_view valuation.now) }
    requires wide { AreTooWide (values_view valuation.now) (term_view term.now ∷ []) }
    ensures { IfOk result (λ told. IsAskedOfWide (term_view term.now ∷ []) (shown_view shown.now) (report.cause_view told)) }
{
    let mut terms = Terms::new(alloc);
    terms.push(term.copy(alloc)?)?;
    Ok(Cause::Undecided(wide_question(alloc, shown, &terms)?))
}

/// The conditions that are shown, and behind them whether the terms of the entry have a form, of which some value leaves 128 bits.
fn wide_entry(
    alloc: Global,
    spec: &Spec,
    entered: &Entered,
    shown: &Shown,
    valuation: &Valuation,
) -> Result<Cause, AllocError>
    requires shown { (shown_view shown.now).valuation ≡ Some (values_view valuation.now) }
    requires wide { AreTooWide (values_view valuation.now) (entry_terms (spec_view spec.now) (entry_for (spec_view spec.now) entered.now)) }
    ensures { IfOk result (λ told. IsAskedOfWide (entry_terms (spec_view spec.now) (entry_for (spec_view spec.now) entered.now))
        (shown_view shown.now) (report.cause_view told)) }
{
    let terms = entry_terms(alloc, spec, entered)?;
    Ok(Cause::Undecided(wide_question(alloc, shown, &terms)?))
}

/// What a path lacks, or its conditions where a value of the entry leaves 128 bits.
fn lack(
    alloc: Global,
    spec: &Spec,
    entered: &Entered,
    lack: Lack,
    shown: &Shown,
) -> Result<Cause, AllocError>
    requires { IsShownUnder (shown_view shown.now) }
    ensures { IfOk result (λ told. TellsLack lack (spec_view spec.now) (entry_for (spec_view spec.now) entered.now)
        (shown_view shown.now) (report.cause_view told)) }
{
    let Some(valuation) = &shown.valuation else {
        unreachable!()
    };
    match witness(alloc, spec, entered, shown, valuation) {
        Ok(witness) => Ok(Cause::Lacks(lack, witness)),
        Err(HoldsFault::Number) => wide_entry(alloc, spec, entered, shown, valuation),
        Err(HoldsFault::Memory) => Err(AllocError),
    }
}

/// A failure with this value under the valuation that is shown, or the conditions where a value of the entry leaves 128 bits.
fn failed(
    alloc: Global,
    spec: &Spec,
    entered: &Entered,
    value: Value,
    shown: &Shown,
    valuation: &Valuation,
) -> Result<Cause, AllocError>
    requires { (shown_view shown.now).valuation ≡ Some (values_view valuation.now) }
    ensures { IfOk result (λ told. (t : PureTerm) → pure_value (values_view valuation.now) t ≡ Some (value_view value)
        → TellsFailure t (spec_view spec.now) (entry_for (spec_view spec.now) entered.now)
        (shown_view shown.now) (report.cause_view told)) }
{
    match witness(alloc, spec, entered, shown, valuation) {
        Ok(witness) => Ok(Cause::Fails(value, witness)),
        Err(HoldsFault::Number) => wide_entry(alloc, spec, entered, shown, valuation),
        Err(HoldsFault::Memory) => Err(AllocError),
    }
}

/// The value with which a path fails, or its conditions where that value or one of the entry leaves 128 bits.
fn failure(
    alloc: Global,
    spec: &Spec,
    entered: &Entered,
    term: &Term,
    shown: &Shown,
) -> Result<Cause, AllocError>
    requires { HasShownValue (term_view term.now) (shown_view shown.now) }
    ensures { IfOk result (λ told. TellsFailure (term_view term.now) (spec_view spec.now) (entry_for (spec_view spec.now) entered.now)
        (shown_view shown.now) (report.cause_view told)) }
{
    let Some(valuation) = &shown.valuation else {
        unreachable!()
    };
    match value_of(alloc, term, valuation) {
        Ok(Some(value)) => failed(alloc, spec, entered, value, shown, valuation),
        Ok(None) => unreachable!(),
        Err(HoldsFault::Number) => wide_value(alloc, term, shown, valuation),
        Err(HoldsFault::Memory) => Err(AllocError),
    }
}

/// The cause that a check met, as a report names it. What isn't decided is told as a question, and so is a cause with a value that a report
/// can't have: a whole number that leaves 128 bits.
pub fn cause_of(alloc: Global, spec: &Spec, met: &Met) -> Result<Cause, AllocError>
    requires { CanBeTold (cause_view met.now.cause) }
    ensures { IfOk result (λ told. TellsCause (spec_view spec.now) (entry_for (spec_view spec.now) met.now.entered)
        (cause_view met.now.cause) (report.cause_view told)) }
{
    let entered = &met.entered;
    match &met.cause {
        CheckCause::Fails(term, shown) => failure(alloc, spec, entered, term, shown),
        CheckCause::Fault(kind, shown) => lack(alloc, spec, entered, lack_of(*kind), shown),
        CheckCause::Cut(shown) => lack(alloc, spec, entered, Lack::Cut, shown),
        CheckCause::Unknown(reason, shown) => undecided(alloc, shown, place_of(*reason)),
    }
}
