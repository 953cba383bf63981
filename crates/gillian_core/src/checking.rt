//! The check of a program's specifications.
ghost use Rattle.std.specs.Prelude.{◌≡◌, length, map, IfOk};
ghost use Rattle.assert_logic.specs.Modes.{HasModes};
ghost use Rattle.gil_syntax.specs.Program.{prog_view};
ghost use Rattle.gil_report.specs.View.{answer_view};
ghost use Rattle.gil_syntax.specs.View.{spec_view};
ghost use Rattle.gillian_core.specs.Checked.{AreRightAnswers, CanEachBeTold, CanVerdictBeTold, IsReportOf, ReportsEach};

use gil_report::{Answer, Answers, Cause};
use gil_syntax::{Prog, Spec, Specs};
use gil_values::Text;
use gillian_words::Bound;
use path_solver::PathSolver;
use report_causes::{cause_of, variable_names};
use report_names::named_proof;
use rewrite_book::RuleBook;
use spec_answers::{SpecAnswer, SpecAnswers, Verdict};
use spec_causes::Met;
use spec_checker::check;
use std::alloc::{AllocError, Global};
use sym_model::ListedMemory;

/// An answer for each specification of a program, over the symbolic states of a memory.
pub fn checked<M: ListedMemory>(
    alloc: Global,
    prog: &Prog,
    bound: Bound,
    rules: &RuleBook,
) -> Result<Answers, AllocError>
    requires { HasModes (prog_view prog.now) M.Local.memory }
    ensures { IfOk result (λ answers. AreRightAnswers M.Local.memory M.Local.actions M.keeps_plain bound.steps (prog_view prog.now)
        (map answer_view answers)) }
{
    let mut decider = PathSolver::new(alloc);
    let answers = check::<M, PathSolver>(alloc, prog, rules, bound.steps, &mut decider)?;
    let reported = report_all(alloc, prog.specs(), &answers)?;
    Ok(reported)
}

/// The answers that are reported, place by place.
fn report_all(
    alloc: Global,
    specs: &Specs,
    answers: &SpecAnswers<Met>,
) -> Result<Answers, AllocError>
    requires as_many { length answers.now ≡ length specs.now }
    requires told { CanEachBeTold (map spec_view specs.now) answers.now }
    ensures { IfOk result (λ reported. ReportsEach (map spec_view specs.now) answers.now (map answer_view reported)) }
{
    let mut reported = Answers::new(alloc);
    let items = answers.as_slice();
    let specs = specs.as_slice();
    for place in 0..specs.len() {
        let answer = report(alloc, &specs[place], &items[place])?;
        reported.push(answer)?;
    }
    Ok(reported)
}

/// The answer to a specification that is reported.
fn report(alloc: Global, spec: &Spec, answered: &SpecAnswer<Met>) -> Result<Answer, AllocError>
    requires { CanVerdictBeTold answered.now.verdict }
    ensures { IfOk result (λ answer. IsReportOf (spec_view spec.now) answered.now.name answered.now.verdict (answer_view answer)) }
{
    let name = answered.name.copy(alloc)?;
    let answer = report_named(alloc, spec, name, &answered.verdict)?;
    Ok(answer)
}

fn report_named(
    alloc: Global,
    spec: &Spec,
    name: Text,
    verdict: &Verdict<Met>,
) -> Result<Answer, AllocError>
    requires { CanVerdictBeTold verdict.now }
    ensures { IfOk result (λ answer. IsReportOf (spec_view spec.now) name verdict.now (answer_view answer)) }
{
    match verdict {
        Verdict::Verified => Ok(Answer::Verified(name)),
        Verdict::Vacuous(proof) => {
            let names = variable_names(alloc, spec)?;
            let proof = named_proof(alloc, &names, proof)?;
            Ok(Answer::Vacuous(name, proof))
        }
        Verdict::Unproved(met) => {
            let cause = cause_of(alloc, spec, met)?;
            Ok(Answer::Unproved(name, cause))
        }
        Verdict::DependsOn(other) => {
            let other = other.copy(alloc)?;
            Ok(Answer::Unproved(name, Cause::Depends(other)))
        }
    }
}
