//! The test of a procedure.
ghost use Rattle.std.specs.Prelude.{◌≡◌, ◌≤◌, List, IfOk, IsTrue};
ghost use Rattle.std.specs.Option.{option_map};
ghost use Rattle.gil_machine.specs.Run.{IsEntry};
ghost use Rattle.gil_syntax.specs.Program.{prog_view};
ghost use Rattle.gil_syntax.specs.Simple.{is_simple};
ghost use Rattle.gil_values.specs.Pure.{PureValue};
ghost use Rattle.sym_test.specs.Judged.{first_query, verdict_of};
ghost use Rattle.sym_test.specs.Undecided.{FailsSimply, IsRightVerdict, IsUnknownVerdict, IsBugVerdict};
ghost use Rattle.sym_test.specs.View.{query_view, verdict_view};

use crate::judging::{Judgement, judge};
use crate::verdicts::Verdict;
use gil_syntax::Prog;
use gil_values::Text;
use pure_terms::{Decider, Query};
use rewrite_book::RuleBook;
use std::alloc::{AllocError, Global};
use sym_model::SymMemory;
use sym_paths::Path;
use sym_step::{Exploration, starts_may_step};

/// The query that is kept, or else this one.
fn first_query(kept: Option<Query>, query: Query) -> Option<Query>
    ensures { option_map query_view result ≡ first_query (option_map query_view kept) (query_view query) }
{
    match kept {
        Some(kept) => Some(kept),
        None => Some(query),
    }
}

/// What is answered where no path is left.
fn conclude(kept: Option<Query>) -> Verdict
    ensures { verdict_view result ≡ verdict_of (option_map query_view kept) }
{
    match kept {
        Some(query) => Verdict::Unknown(query),
        None => Verdict::Clean,
    }
}

/// Runs a procedure without parameters from the empty memory on symbolic inputs, along all paths of at most so many steps. It stops at
/// the first bug, and keeps no path that has ended.
pub fn test<M: SymMemory, D: Decider>(
    alloc: Global,
    prog: &Prog,
    proc: &Text,
    bound: u32,
    rules: &RuleBook,
    decider: &mut D,
) -> Result<Verdict, AllocError>
    requires entry { IsEntry (prog_view prog.now) proc.now }
    requires bound { bound ≤ 10000 }
    ensures right { IfOk result (λ verdict. IsRightVerdict (prog_view prog.now) M.Local.actions M.stands M.terms M.asked M.depends
        M.keeps_plain proc.now bound (verdict_view verdict)) }

    // A simple program is never left unknown, and a bug is answered wherever a run fails by commands of simple form alone.
    ensures decided { M.keeps_plain → IsTrue (is_simple (prog_view prog.now)) → IfOk result (λ verdict. ¬ IsUnknownVerdict
        (verdict_view verdict)) }
    ensures found { M.keeps_plain → (inputs : List PureValue) → FailsSimply (prog_view prog.now) M.Local.actions proc.now inputs bound
        → IfOk result (λ verdict. IsBugVerdict (verdict_view verdict)) }
{
    starts_may_step::<M>();
    let start: Path<M> = Path::start(alloc, proc)?;
    let mut exploration = Exploration::new(alloc, start)?;
    let mut kept: Option<Query> = None;
    for _turn in 0..u64::MAX {
        match exploration.next_ended(alloc, prog, bound, rules, decider)? {
            None => return Ok(conclude(kept)),
            Some(path) => match judge(alloc, decider, path)? {
                Judgement::Harmless => {}
                Judgement::Bug {
                    place,
                    value,
                    inputs,
                } => {
                    return Ok(Verdict::Bug {
                        place,
                        value,
                        inputs,
                    });
                }
                Judgement::Undecided(query) => kept = first_query(kept, query),
            },
        }
    }
    Err(AllocError)
}
