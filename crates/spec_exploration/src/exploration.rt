//! Steps of checked paths until each has an end, or as many as the bound were done.
ghost use Rattle.std.specs.Prelude.{◌≡◌, ◌≤◌, ◌∷◌, ◌++◌, [], Some, IfOk, IfNone, IfSome};
ghost use Rattle.assert_logic.specs.Modes.{HasModes};
ghost use Rattle.checked_paths.specs.Accounting.{CoversStarts};
ghost use Rattle.checked_paths.specs.Causes.{cause_view, shown_in};
ghost use Rattle.checked_paths.specs.Meaning.{MayGoOn};
ghost use Rattle.checked_paths.specs.Plainly.{IsSureCause};
ghost use Rattle.checked_paths.specs.View.{checking_view, entry_view, next_view, nexts_view};
ghost use Rattle.checked_runs.specs.Checked.{HasNoFault, UsesOnly};
ghost use Rattle.gil_syntax.specs.Program.{prog_view};
ghost use Rattle.gil_syntax.specs.Programs.{find_spec};
ghost use Rattle.gil_syntax.specs.Valid.{is_among};
ghost use Rattle.gil_syntax.specs.View.{spec_view};
ghost use Rattle.plain_specs.specs.Contained.{IsContained};
ghost use Rattle.spec_causes.specs.Causes.{IsCauseOf, entry_for};
ghost use Rattle.spec_causes.specs.Reaching.{IsFoundCause, IsKnown};
ghost use Rattle.spec_exploration.specs.Calls.{IsUsedByRuns};
ghost use Rattle.spec_exploration.specs.Ending.{NoneIsCut};
ghost use Rattle.spec_exploration.specs.Exploring.{ArePlaced, AreReached, AreTaken, IsCutAt, IsMetOf, IsNamed, IsReachedNext, IsReachedWithin, IsSettledBy, StartPlaced, exploration_view};
ghost use Rattle.spec_exploration.specs.Inside.{IsInside, IsNextInside, StaysInside};
ghost use Rattle.spec_exploration.specs.Plain.{HasPlainTerms, IsPlainAt, IsPlainNext, IsPlainSpec, StaysPlain};
ghost use Rattle.sym_model.specs.Lists.{Each};

use crate::beginning::{first_place, starts_of};
use crate::finding::{command_of, place_of};
use crate::stepping::check_step;
use checked_paths::{Cause, Checking, Entered, FaultKind, Next, Nexts, Shown, Stepped};
use gil_syntax::{Prog, Spec, Texts};
use pure_terms::Decider;
use rewrite_book::RuleBook;
use sequence::Sequence;
use spec_causes::{Met, show};
use std::alloc::{AllocError, Global};
use sym_beginning::{Beginnings, begin_specification};
use sym_model::ListedMemory;

/// What an exploration found: the first cause in the order of their kinds, if there is one; and the names of the specifications that
/// were used.
#[derive(Debug, Drop)]
pub struct Explored {
    pub cause: Option<Met>,
    pub uses: Texts,
}

/// The same, where no valuation need be known that leads to the cause.
#[derive(Debug, Drop)]
pub(crate) struct Found {
    cause: Option<Cause>,
    uses: Texts,
}

/// Paths that are left to be explored, the next one last, and what was found so far.
#[derive(Debug, Drop)]
pub(crate) struct Exploration<M> {
    left: Vec<Checking<M>>,
    found: Found,
}

/// The place of a cause among the kinds of causes.
fn rank(cause: &Cause) -> u8 {
    match cause {
        Cause::Fails(_, _) => 0,
        Cause::Fault(FaultKind::Missing, _) => 1,
        Cause::Fault(FaultKind::Post, _) => 2,
        Cause::Fault(FaultKind::Invariant, _) => 3,
        Cause::Fault(FaultKind::CallPrecondition, _) => 4,
        Cause::Fault(FaultKind::FoldBody, _) => 5,
        Cause::Cut(_) => 6,
        Cause::Unknown(_, _) => 7,
    }
}

/// The one that is named of two causes: that of the lower rank, and else the first.
fn named(old: Option<Cause>, new: Cause) -> Option<Cause>
    ensures { IsNamed old new result }
{
    match old {
        Some(cause) => {
            if rank(&cause) <= rank(&new) {
                Some(cause)
            } else {
                Some(new)
            }
        }
        None => Some(new),
    }
}

/// The names with others behind them.
fn with_names(names: Texts, more: Texts) -> Result<Texts, AllocError>
    ensures { IfOk result (λ all. all ≡ names ++ more) }
{
    let mut all = names;
    for name in more.into_vec() {
        all.push(name)?;
    }
    Ok(all)
}

/// The exploration with one path more.
fn with_path<M: ListedMemory>(
    exploration: Exploration<M>,
    checking: Checking<M>,
) -> Result<Exploration<M>, AllocError>
    ensures { IfOk result (λ after. exploration_view after
        ≡ record (exploration_view exploration) { left = (exploration_view exploration).left ++ checking_view checking ∷ [] }) }
{
    let mut exploration = exploration;
    exploration.left.push(checking)?;
    Ok(exploration)
}

/// The exploration in which a cause was found.
fn with_cause<M: ListedMemory>(exploration: Exploration<M>, cause: Cause) -> Exploration<M>
    ensures left { (exploration_view result).left ≡ (exploration_view exploration).left }
    ensures cause { IsNamed (exploration_view exploration).cause cause (exploration_view result).cause }
    ensures uses { (exploration_view result).uses ≡ (exploration_view exploration).uses }
{
    let Exploration { left, found } = exploration;
    let Found { cause: old, uses } = found;
    Exploration {
        left,
        found: Found {
            cause: named(old, cause),
            uses,
        },
    }
}

/// The exploration in which specifications of these names were used besides.
fn with_uses<M: ListedMemory>(
    exploration: Exploration<M>,
    more: Texts,
) -> Result<Exploration<M>, AllocError>
    ensures { IfOk result (λ after. exploration_view after
        ≡ record (exploration_view exploration) { uses = (exploration_view exploration).uses ++ more }) }
{
    let Exploration { left, found } = exploration;
    let Found { cause, uses } = found;
    let uses = with_names(uses, more)?;
    Ok(Exploration {
        left,
        found: Found { cause, uses },
    })
}

/// The exploration with one answer more.
fn take_one<M: ListedMemory>(
    exploration: Exploration<M>,
    next: Next<M>,
) -> Result<Exploration<M>, AllocError>
    ensures { IfOk result (λ after. AreTaken (exploration_view exploration) (next_view next ∷ []) (exploration_view after)) }
{
    match next {
        Next::Further(checking) => with_path(exploration, checking),
        Next::Over => Ok(exploration),
        Next::Caused(cause) => Ok(with_cause(exploration, cause)),
    }
}

/// The exploration with all answers of a step.
fn take<M: ListedMemory>(
    exploration: Exploration<M>,
    nexts: Nexts<M>,
) -> Result<Exploration<M>, AllocError>
    ensures { IfOk result (λ after. AreTaken (exploration_view exploration) (nexts_view nexts) (exploration_view after)) }
{
    let mut exploration = exploration;
    for next in nexts.into_vec() {
        exploration = take_one(exploration, next)?;
    }
    Ok(exploration)
}

/// The cause of a path that has done as many steps as the bound.
fn cut<M: ListedMemory>(
    alloc: Global,
    prog: &Prog,
    spec: &Spec,
    entered: &Entered,
    checking: &Checking<M>,
) -> Result<Cause, AllocError>
    requires { MayGoOn (prog_view prog.now) M.terms (entry_view spec.now entered.now) (checking_view checking.now) }
    ensures { IfOk result (λ cause. IsCutAt (prog_view prog.now) (checking_view checking.now).path (cause_view cause)) }
{
    let numbered = match command_of(prog, &checking.path.stack) {
        Some(numbered) => numbered,
        None => unreachable!(),
    };
    let place = place_of(alloc, &checking.path.stack, numbered)?;
    let shown = Shown::of(alloc, &place, &checking.path)?;
    Ok(Cause::Cut(shown))
}

/// The exploration after the next step of a path, which is cut where it has done as many as the bound.
fn advance<M: ListedMemory, D: Decider>(
    alloc: Global,
    prog: &Prog,
    rules: &RuleBook,
    spec: &Spec,
    entered: &Entered,
    bound: u32,
    exploration: Exploration<M>,
    checking: Checking<M>,
    decider: &mut D,
) -> Result<Exploration<M>, AllocError>
    requires bounded { bound ≤ 10000 }
    requires found { find_spec (prog_view prog.now).specs (spec_view spec.now).name ≡ Some (spec_view spec.now) }
    requires modes { HasModes (prog_view prog.now) M.Local.memory }
    requires may { MayGoOn (prog_view prog.now) M.terms (entry_view spec.now entered.now) (checking_view checking) }
    requires reached { IsReachedWithin (prog_view prog.now) M.Local.memory M.Local.actions M.stands M.terms
        (entry_view spec.now entered.now) bound (checking_view checking) }
    requires placed { ArePlaced (prog_view prog.now) M.terms (entry_view spec.now entered.now) (exploration_view exploration) }
    requires all_reached { AreReached (prog_view prog.now) M.Local.memory M.Local.actions M.stands M.terms
        (entry_view spec.now entered.now) bound (exploration_view exploration) }
    ensures settled { IfOk result (λ after. IsSettledBy (prog_view prog.now) M.Local.memory M.Local.actions M.stands
        (entry_view spec.now entered.now) bound (record (exploration_view exploration) { left = (exploration_view exploration).left ++ checking_view checking ∷ [] })
        (exploration_view after)) }
    ensures placed { IfOk result (λ after. ArePlaced (prog_view prog.now) M.terms (entry_view spec.now entered.now) (exploration_view after)) }
    ensures all_reached { IfOk result (λ after. AreReached (prog_view prog.now) M.Local.memory M.Local.actions M.stands M.terms
        (entry_view spec.now entered.now) bound (exploration_view after)) }
    ensures inside { IsContained (prog_view prog.now) (spec_view spec.now)
        → StaysInside (prog_view prog.now) (spec_view spec.now) (exploration_view exploration)
        → IsInside (prog_view prog.now) (spec_view spec.now) (checking_view checking).path
        → IfOk result (λ after. StaysInside (prog_view prog.now) (spec_view spec.now) (exploration_view after)) }
    ensures plain { M.keeps_plain → IsPlainSpec (prog_view prog.now) (spec_view spec.now) → HasPlainTerms (entry_view spec.now entered.now)
        → StaysPlain M.plain (spec_view spec.now) (exploration_view exploration)
        → IsInside (prog_view prog.now) (spec_view spec.now) (checking_view checking).path
        → IsPlainAt M.plain (spec_view spec.now) (checking_view checking).path
        → IfOk result (λ after. StaysPlain M.plain (spec_view spec.now) (exploration_view after)) }
{
    if checking.path.steps >= bound {
        let cause = cut(alloc, prog, spec, entered, &checking)?;
        return take_one(exploration, Next::Caused(cause));
    }
    let stepped = check_step(alloc, prog, rules, spec, entered, checking, decider)?;
    let Stepped { nexts, uses } = stepped;
    let exploration = with_uses(exploration, uses)?;
    take(exploration, nexts)
}

/// Does steps of the paths of a specification until nothing is left of them, from starts that cover those of its checked runs, and that
/// runs reach. After 2^64 - 1 steps it answers want of memory.
fn explore_from<M: ListedMemory, D: Decider>(
    alloc: Global,
    prog: &Prog,
    rules: &RuleBook,
    spec: &Spec,
    entered: &Entered,
    starts: Nexts<M>,
    bound: u32,
    decider: &mut D,
) -> Result<Found, AllocError>
    requires bounded { bound ≤ 10000 }
    requires found { find_spec (prog_view prog.now).specs (spec_view spec.now).name ≡ Some (spec_view spec.now) }
    requires modes { HasModes (prog_view prog.now) M.Local.memory }
    requires cover { CoversStarts (prog_view prog.now) M.Local.memory M.Local.actions M.stands (entry_view spec.now entered.now)
        (nexts_view starts) }
    requires placed { Each (StartPlaced (prog_view prog.now) M.terms (entry_view spec.now entered.now)) (nexts_view starts) }
    requires reached { Each (IsReachedNext (prog_view prog.now) M.Local.memory M.Local.actions M.stands M.terms
        (entry_view spec.now entered.now) bound) (nexts_view starts) }
    ensures verified { IfOk result (λ found. IfNone found.cause (HasNoFault (prog_view prog.now) M.Local.memory M.Local.actions (spec_view spec.now)
        × UsesOnly (prog_view prog.now) M.Local.memory M.Local.actions (is_among found.uses) (spec_view spec.now))) }
    ensures ended { IfOk result (λ found. IfNone found.cause (NoneIsCut (prog_view prog.now) M.Local.memory M.Local.actions bound
        (spec_view spec.now))) }
    ensures used { IfOk result (λ found. Each (IsUsedByRuns (prog_view prog.now) M.Local.memory M.Local.actions (spec_view spec.now) bound)
        found.uses) }
    ensures inside { IsContained (prog_view prog.now) (spec_view spec.now)
        → Each (IsNextInside (prog_view prog.now) (spec_view spec.now)) (nexts_view starts) → IfOk result (λ found. found.uses ≡ []) }
    ensures causes { IfOk result (λ found. IfSome found.cause (λ cause. IsFoundCause (prog_view prog.now) M.Local.memory M.Local.actions
        (entry_view spec.now entered.now) bound (cause_view cause))) }
    ensures plain { M.keeps_plain → IsPlainSpec (prog_view prog.now) (spec_view spec.now) → HasPlainTerms (entry_view spec.now entered.now)
        → Each (IsNextInside (prog_view prog.now) (spec_view spec.now)) (nexts_view starts)
        → Each (IsPlainNext M.plain (spec_view spec.now)) (nexts_view starts)
        → IfOk result (λ found. IfSome found.cause (λ cause. IsSureCause (cause_view cause))) }
{
    let mut exploration = Exploration {
        left: Vec::new(alloc),
        found: Found {
            cause: None,
            uses: Sequence::new(alloc),
        },
    };
    exploration = take(exploration, starts)?;
    for _turn in 0..u64::MAX {
        let Some(checking) = exploration.left.pop() else {
            return Ok(exploration.found);
        };
        exploration = advance(
            alloc,
            prog,
            rules,
            spec,
            entered,
            bound,
            exploration,
            checking,
            decider,
        )?;
    }
    Err(AllocError)
}

/// The cause that was found, if there is one, with a valuation that leads to it, beside the terms of the entry.
fn met<D: Decider>(
    alloc: Global,
    decider: &mut D,
    entered: Entered,
    cause: Option<Cause>,
) -> Result<Option<Met>, AllocError>
    requires { IfSome cause (λ c. IsKnown (shown_in (cause_view c))) }
    ensures { IfOk result (λ o. IsMetOf cause entered o) }
{
    match cause {
        Some(cause) => {
            let cause = show(alloc, decider, cause)?;
            Ok(Some(Met { cause, entered }))
        }
        None => Ok(None),
    }
}

/// Explores the checked paths of a specification within a bound of steps. Where there is no cause, none of its checked runs has a fault,
/// and each uses only the named specifications; of a contained one none is named. A cause is right: runs come to it wherever its conditions are met, and a valuation is
/// shown that meets them unless they aren't in the fragment.
pub fn explore_specification<M: ListedMemory, D: Decider>(
    alloc: Global,
    prog: &Prog,
    rules: &RuleBook,
    spec: &Spec,
    bound: u32,
    decider: &mut D,
) -> Result<Explored, AllocError>
    requires bounded { bound ≤ 10000 }
    requires found { find_spec (prog_view prog.now).specs (spec_view spec.now).name ≡ Some (spec_view spec.now) }
    requires modes { HasModes (prog_view prog.now) M.Local.memory }
    ensures verified { IfOk result (λ explored. IfNone explored.cause (HasNoFault (prog_view prog.now) M.Local.memory M.Local.actions
        (spec_view spec.now)
        × UsesOnly (prog_view prog.now) M.Local.memory M.Local.actions (is_among explored.uses) (spec_view spec.now))) }
    // Nor is any of them cut: where there is no cause, each has ended before it makes as many steps as the bound.
    ensures ended { IfOk result (λ explored. IfNone explored.cause (NoneIsCut (prog_view prog.now) M.Local.memory M.Local.actions bound
        (spec_view spec.now))) }
    // And a named specification is one that they use.
    ensures used { IfOk result (λ explored. Each (IsUsedByRuns (prog_view prog.now) M.Local.memory M.Local.actions (spec_view spec.now) bound)
        explored.uses) }
    ensures causes { IfOk result (λ explored. IfSome explored.cause (λ met. IsCauseOf (prog_view prog.now) M.Local.memory M.Local.actions
        (spec_view spec.now) bound (entry_for (spec_view spec.now) met.entered) (cause_view met.cause))) }
    ensures contained { IsContained (prog_view prog.now) (spec_view spec.now) → IfOk result (λ explored. explored.uses ≡ []) }

    // Nothing of a plain specification is left undecided: a cause of it is a failure, a fault or the bound.
    ensures plain { M.keeps_plain → IsPlainSpec (prog_view prog.now) (spec_view spec.now)
        → IfOk result (λ explored. IfSome explored.cause (λ met. IsSureCause (cause_view met.cause))) }
{
    let Beginnings {
        vars: _,
        args,
        variables,
        starts,
    } = begin_specification::<M>(alloc, prog, spec)?;
    let entered = Entered { args, variables };
    let here = first_place(alloc, prog, spec)?;
    let starts = starts_of(alloc, decider, &here, starts)?;
    let Found { cause, uses } = explore_from(
        alloc, prog, rules, spec, &entered, starts, bound, decider,
    )?;
    let cause = met(alloc, decider, entered, cause)?;
    Ok(Explored { cause, uses })
}
