//! The specifications that are inferred of a procedure.
ghost use Rattle.std.specs.Prelude.{◌≡◌, ◌++◌, map, IfOk, IsSome};
ghost use Rattle.std.specs.Option.{option_map};
ghost use Rattle.bi_specifications.specs.View.{found_view, founds_view};
ghost use Rattle.gil_syntax.specs.Program.{prog_view};
ghost use Rattle.gil_report.specs.Pure.{found};
ghost use Rattle.gil_report.specs.View.{answer_view};
ghost use Rattle.gil_syntax.specs.Programs.{find_proc};
ghost use Rattle.mem_model.specs.Actions.{MissesWhatLacks};
ghost use Rattle.sym_test.specs.View.{query_view};
ghost use Rattle.gillian_core.specs.Definitions.{memory_of};
ghost use Rattle.gillian_core.specs.Inferred.{AreRightFounds, found_answers, question_answers};

use crate::testing::question_of;
use bi_specifications::{Found, Founds};
use biabduce::infer;
use gil_report::{Answer, Answers};
use gil_syntax::Prog;
use gil_values::Text;
use gillian_words::Bound;
use path_solver::PathSolver;
use pure_terms::Query;
use rewrite_book::RuleBook;
use std::alloc::{AllocError, Global};
use sym_model::ListedMemory;

/// The specifications of a procedure that are found within a bound, over the symbolic states of a memory, and what isn't decided.
pub fn inferred<M: ListedMemory>(
    alloc: Global,
    prog: &Prog,
    entry: &Text,
    bound: Bound,
    rules: &RuleBook,
) -> Result<Answers, AllocError>
    requires entry { IsSome (find_proc (prog_view prog.now).procs entry.now) }
    requires own_keys { MissesWhatLacks M.Local.memory M.Local.actions }
    ensures { IfOk result (λ answers. AreRightFounds (memory_of M.Local.memory M.Local.actions M.stands M.terms M.asked M.depends M.plain M.kept
        M.keeps_plain M.keeps_narrow) (prog_view prog.now) entry.now bound.steps (map answer_view answers)) }
{
    let mut decider = PathSolver::new(alloc);
    let inferred = infer::<M, PathSolver>(alloc, prog, entry, bound.steps, rules, &mut decider)?;
    let answers = found_answers(alloc, inferred.founds)?;
    let answers = with_question(alloc, answers, inferred.unknown)?;
    Ok(answers)
}

/// The answers, and behind them what isn't decided.
fn with_question(
    alloc: Global,
    answers: Answers,
    unknown: Option<Query>,
) -> Result<Answers, AllocError>
    ensures { IfOk result (λ more. map answer_view more ≡ map answer_view answers ++ question_answers (option_map query_view unknown)) }
{
    let mut answers = answers;
    if let Some(query) = unknown {
        let question = question_of(alloc, query)?;
        answers.push(Answer::Undecided(question))?;
        return Ok(answers);
    }
    Ok(answers)
}

/// The answers that tell these specifications.
fn found_answers(alloc: Global, founds: Founds) -> Result<Answers, AllocError>
    ensures { IfOk result (λ answers. map answer_view answers ≡ found_answers (founds_view founds)) }
{
    let mut answers = Answers::new(alloc);
    for told in founds.into_vec() {
        answers.push(found_answer(told))?;
    }
    Ok(answers)
}

/// The answer that tells a specification.
fn found_answer(told: Found) -> Answer
    ensures { answer_view result ≡ found (found_view told).spec (found_view told).cut }
{
    let Found { spec, cut } = told;
    Answer::Found { spec, cut }
}
