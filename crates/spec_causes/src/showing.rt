//! Valuations that lead to causes.
ghost use Rattle.std.specs.Prelude.{◌≡◌, Some, IfOk, IsTrue};
ghost use Rattle.checked_paths.specs.Causes.{cause_view, shown_in, shown_view};
ghost use Rattle.gil_values.specs.View.{values_view};
ghost use Rattle.pure_terms.specs.Meaning.{AreOver, IsProper};
ghost use Rattle.pure_terms.specs.View.{atoms_view};
ghost use Rattle.spec_causes.specs.Reaching.{IsKnown};
ghost use Rattle.spec_causes.specs.Showing.{IsCanonicalLike, IsShownAs, IsToldOf};
ghost use Rattle.spec_causes.specs.View.{telling_view};
ghost use Rattle.sym_paths.specs.Steps.{IsFirstOutside};

use checked_paths::{Cause, Shown};
use pure_terms::{Atoms, Decider, Reason, Valuation, VarTable};
use std::alloc::{AllocError, Global};
use sym_paths::{Satisfiability, ask, first_outside};
use sym_witness::number_symbols;

/// What is told of the conditions of a cause.
#[derive(Debug, Drop)]
enum Telling {
    /// This valuation meets them.
    Met(Valuation),
    /// They aren't decided, and this is why the first that isn't in the fragment isn't.
    Open(Reason),
}

/// Whether the atoms name only variables of the table, with their sorts there.
fn are_over(vars: &VarTable, atoms: &Atoms) -> bool
    ensures { IsTrue result → AreOver vars.now (atoms_view atoms.now) }
{
    for atom in atoms.as_slice() {
        if !atom.term().is_over(vars) {
            return false;
        }
    }
    true
}

/// A valuation that meets what this one meets, with the symbols of fresh variables in turn.
fn numbered(alloc: Global, vars: &VarTable, valuation: &Valuation) -> Result<Valuation, AllocError>
    requires { IsProper vars.now (values_view valuation.now) }
    ensures { IfOk result (λ w. IsCanonicalLike vars.now (values_view valuation.now) (values_view w)) }
{
    let witness = number_symbols(alloc, vars, valuation)?;
    Ok(witness.valuation)
}

/// Why the conditions, of which no valuation meets all, weren't decided before.
fn why_open(alloc: Global, shown: &Shown) -> Result<Reason, AllocError>
    requires { AreOver shown.now.vars (atoms_view shown.now.conds) }
    ensures { IfOk result (IsFirstOutside (atoms_view shown.now.conds)) }
{
    match first_outside(alloc, &shown.vars, &shown.conds)? {
        Some(reason) => Ok(reason),
        None => Err(AllocError),
    }
}

/// What a decider tells of the conditions that are shown.
fn asked<D: Decider>(alloc: Global, decider: &mut D, shown: &Shown) -> Result<Telling, AllocError>
    requires { AreOver shown.now.vars (atoms_view shown.now.conds) }
    ensures { IfOk result (λ t. IsToldOf (shown_view shown.now) (telling_view t)) }
{
    match ask(alloc, decider, &shown.vars, &shown.conds)? {
        Satisfiability::Satisfiable(found) => {
            Ok(Telling::Met(numbered(alloc, &shown.vars, &found)?))
        }
        Satisfiability::Unsatisfiable => Ok(Telling::Open(why_open(alloc, shown)?)),
        Satisfiability::Undecided(reason) => Ok(Telling::Open(reason)),
    }
}

/// What is told of the conditions that are shown: a valuation, where one is known or a decider finds one.
fn tell<D: Decider>(alloc: Global, decider: &mut D, shown: &Shown) -> Result<Telling, AllocError>
    requires { IsKnown (shown_view shown.now) }
    ensures { IfOk result (λ t. IsToldOf (shown_view shown.now) (telling_view t)) }
{
    match &shown.valuation {
        Some(valuation) => Ok(Telling::Met(numbered(alloc, &shown.vars, valuation)?)),
        None => {
            if are_over(&shown.vars, &shown.conds) {
                asked(alloc, decider, shown)
            } else {
                Err(AllocError)
            }
        }
    }
}

/// The same with a valuation.
fn with_valuation(shown: Shown, valuation: Valuation) -> Shown
    ensures { shown_view result ≡ record (shown_view shown) { valuation = Some (values_view valuation) } }
{
    let mut shown = shown;
    shown.valuation = Some(valuation);
    shown
}

/// The cause with a valuation that leads to it. One whose conditions aren't decided is unknown.
pub fn show<D: Decider>(alloc: Global, decider: &mut D, cause: Cause) -> Result<Cause, AllocError>
    requires { IsKnown (shown_in (cause_view cause)) }
    ensures { IfOk result (λ c. IsShownAs (cause_view cause) (cause_view c)) }
{
    match cause {
        Cause::Fails(term, shown) => match tell(alloc, decider, &shown)? {
            Telling::Met(valuation) => Ok(Cause::Fails(term, with_valuation(shown, valuation))),
            Telling::Open(reason) => Ok(Cause::Unknown(reason, shown)),
        },
        Cause::Fault(kind, shown) => match tell(alloc, decider, &shown)? {
            Telling::Met(valuation) => Ok(Cause::Fault(kind, with_valuation(shown, valuation))),
            Telling::Open(reason) => Ok(Cause::Unknown(reason, shown)),
        },
        Cause::Cut(shown) => match tell(alloc, decider, &shown)? {
            Telling::Met(valuation) => Ok(Cause::Cut(with_valuation(shown, valuation))),
            Telling::Open(reason) => Ok(Cause::Unknown(reason, shown)),
        },
        Cause::Unknown(reason, shown) => Ok(Cause::Unknown(reason, shown)),
    }
}
