//! What leaves answer.
ghost use Rattle.std.specs.Prelude.{◌≡◌, [], ◌∷◌, map, IfOk};
ghost use Rattle.pure_terms.specs.Meaning.{AreOver};
ghost use Rattle.sym_model.specs.Lists.{Each};
ghost use Rattle.footprint.specs.Answers.{TellsStops, first_told, AnswersTold, AnswersLeaves};
ghost use Rattle.footprint.specs.View.{stop_view, stops_view, undecided_view, matches_view, leaves_view, told_view, matching_view};

use crate::leaves::{Leaves, Matches, Matching, Stop, Stops, Undecided, UndecidedList};
use pure_terms::{Decider, Valuation, VarTable};
use std::alloc::{AllocError, Global};
use sym_paths::{Satisfiability, ask};

/// What is known of stops. Contracts see it as its pure data, by `told_view`.
#[derive(Debug, Drop)]
pub(crate) enum Told {
    /// This valuation meets the conditions of this one.
    Met { stop: Stop, valuation: Valuation },
    /// Those of one aren't decided, and those of no other one are known to be met.
    Undecided(Undecided),
    /// No valuation meets those of any.
    Never,
}

/// What is known of one stop.
fn tell<D: Decider>(
    alloc: Global,
    vars: &VarTable,
    stop: Stop,
    decider: &mut D,
) -> Result<Told, AllocError>
    requires { AreOver vars.now (stop_view stop).conds }
    ensures { IfOk result (λ t. TellsStops vars.now (stop_view stop ∷ []) (told_view t)) }
{
    let Stop { item, conds } = stop;
    match ask(alloc, decider, vars, &conds)? {
        Satisfiability::Satisfiable(valuation) => {
            let stop = Stop { item, conds };
            Ok(Told::Met { stop, valuation })
        }
        Satisfiability::Unsatisfiable => Ok(Told::Never),
        Satisfiability::Undecided(reason) => Ok(Told::Undecided(Undecided { conds, reason })),
    }
}

/// What is known of the stops that these tell of: the first one that is met counts, and else the first that isn't decided.
fn tell_first(first: Told, second: Told) -> Told
    ensures { told_view result ≡ first_told (told_view first) (told_view second) }
{
    match first {
        Told::Met { stop, valuation } => Told::Met { stop, valuation },
        Told::Undecided(undecided) => match second {
            Told::Met { stop, valuation } => Told::Met { stop, valuation },
            _ => Told::Undecided(undecided),
        },
        Told::Never => second,
    }
}

/// What is known of stops.
fn tell_stops<D: Decider>(
    alloc: Global,
    vars: &VarTable,
    stops: Stops,
    decider: &mut D,
) -> Result<Told, AllocError>
    requires { Each (λ c. AreOver vars.now c.conds) (stops_view stops) }
    ensures { IfOk result (λ t. TellsStops vars.now (stops_view stops) (told_view t)) }
{
    let mut told = Told::Never;
    for stop in stops.into_vec() {
        let next = tell(alloc, vars, stop, decider)?;
        told = tell_first(told, next);
    }
    Ok(told)
}

fn answer_told<M: Drop>(told: Told, matched: Matches<M>, undecided: UndecidedList) -> Matching<M>
    ensures { AnswersTold (told_view told) (matches_view matched) (map undecided_view undecided) (matching_view result) }
{
    match told {
        Told::Met {
            stop: Stop { item, conds },
            valuation,
        } => Matching::Unmatched {
            item,
            conds,
            valuation,
        },
        Told::Undecided(Undecided { conds, reason }) => Matching::Unknown { conds, reason },
        Told::Never => {
            let mut undecided = undecided;
            match undecided.pop() {
                Some(Undecided { conds, reason }) => Matching::Unknown { conds, reason },
                None => Matching::All(matched),
            }
        }
    }
}

/// The answer of leaves over the variables of a table: a stop that is met, or one that isn't decided, or all matches.
pub(crate) fn answer<M: Drop, D: Decider>(
    alloc: Global,
    vars: &VarTable,
    leaves: Leaves<M>,
    decider: &mut D,
) -> Result<Matching<M>, AllocError>
    requires { Each (λ c. AreOver vars.now c.conds) (leaves_view leaves).stopped }
    ensures { IfOk result (λ r. AnswersLeaves vars.now (leaves_view leaves) (matching_view r)) }
{
    let Leaves {
        matched,
        stopped,
        undecided,
    } = leaves;
    let told = tell_stops(alloc, vars, stopped, decider)?;
    Ok(answer_told(told, matched, undecided))
}
