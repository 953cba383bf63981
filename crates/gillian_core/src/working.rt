//! The work: what is to be written of a text.
ghost use Rattle.std.specs.Prelude.{◌≡◌, ℕ, List, [], ◌∷◌, IfOk, IfErr};
ghost use Rattle.gil_values.specs.View.{values_view};
ghost use Rattle.gillian_words.specs.Tasks.{run, test, check, infer, compile, solve, sweep};
ghost use Rattle.gillian_words.specs.View.{task_view};
ghost use Rattle.gil_report.specs.View.{answer_view};
ghost use Rattle.gillian_core.specs.Answers.{output_view};
ghost use Rattle.gillian_core.specs.Finishing.{IsNoOutput};
ghost use Rattle.gillian_core.specs.Outputs.{a_report};
ghost use Rattle.gillian_core.specs.Right.{IsRightOutput, IsSwept};

use crate::entries::{program_that_has, program_with};
use crate::judging::verdict_on;
use crate::languages::{check_in, infer_in, program, run_in};
use crate::modes::readable_program;
use crate::outputs::Output;
use crate::refusals::or_memory;
use crate::solving::solution;
use crate::sweeping::swept;
use gil_report::{Answer, Answers, EntryMode, Head, Report};
use gil_text::Refused;
use gil_values::{Text, Values};
use gillian_words::{Bound, Language, Size, Task};
use rewrite_book::RuleBook;
use std::alloc::{AllocError, Global};

/// Does what is asked with a text, which a sweep doesn't look at.
pub fn work(alloc: Global, task: Task, rules: &RuleBook, bytes: &[u8]) -> Result<Output, Refused>
    ensures output { IfOk result (λ output. IsRightOutput (task_view task) bytes.now (output_view output)) }
    ensures none { IfErr result (IsNoOutput (task_view task) bytes.now) }
{
    match task {
        Task::Run {
            language,
            entry,
            bound,
            inputs,
        } => run_output(alloc, language, entry, bound, &inputs, bytes),
        Task::Test {
            language,
            entry,
            bound,
        } => test_output(alloc, language, entry, bound, rules, bytes),
        Task::Check { language, bound } => check_output(alloc, language, bound, rules, bytes),
        Task::Infer {
            language,
            entry,
            bound,
        } => infer_output(alloc, language, entry, bound, rules, bytes),
        Task::Compile { language } => compile_output(alloc, language, bytes),
        Task::Solve => solve_output(alloc, rules, bytes),
        Task::Sweep { size } => sweep_output(alloc, size, rules),
    }
}

/// The report of a run.
fn run_output(
    alloc: Global,
    language: Language,
    entry: Text,
    bound: Bound,
    inputs: &Values,
    bytes: &[u8],
) -> Result<Output, Refused>
    ensures output { IfOk result (λ output. IsRightOutput (run language entry bound.steps (values_view inputs.now)) bytes.now
        (output_view output)) }
    ensures none { IfErr result (IsNoOutput (run language entry bound.steps (values_view inputs.now)) bytes.now) }
{
    let prog = program_with(alloc, language, &entry, bytes)?;
    let answer = or_memory(run_in(alloc, language, &prog, &entry, bound, inputs))?;
    let head = Head::Entry {
        mode: EntryMode::Run,
        language,
        entry,
        bound: bound.steps,
    };
    let output = or_memory(report_of(alloc, head, answer))?;
    Ok(output)
}

/// The report of a verdict.
fn test_output(
    alloc: Global,
    language: Language,
    entry: Text,
    bound: Bound,
    rules: &RuleBook,
    bytes: &[u8],
) -> Result<Output, Refused>
    ensures output { IfOk result (λ output. IsRightOutput (test language entry bound.steps) bytes.now (output_view output)) }
    ensures none { IfErr result (IsNoOutput (test language entry bound.steps) bytes.now) }
{
    let answer = verdict_on(alloc, language, &entry, bound, rules, bytes)?;
    let head = Head::Entry {
        mode: EntryMode::Test,
        language,
        entry,
        bound: bound.steps,
    };
    let output = or_memory(report_of(alloc, head, answer))?;
    Ok(output)
}

/// The report of a check.
fn check_output(
    alloc: Global,
    language: Language,
    bound: Bound,
    rules: &RuleBook,
    bytes: &[u8],
) -> Result<Output, Refused>
    ensures output { IfOk result (λ output. IsRightOutput (check language bound.steps) bytes.now (output_view output)) }
    ensures none { IfErr result (IsNoOutput (check language bound.steps) bytes.now) }
{
    let prog = readable_program(alloc, language, bytes)?;
    let answers = or_memory(check_in(alloc, language, &prog, bound, rules))?;
    let head = Head::Check {
        language,
        bound: bound.steps,
    };
    Ok(Output::Report(Report { head, answers }))
}

/// The report of what is inferred.
fn infer_output(
    alloc: Global,
    language: Language,
    entry: Text,
    bound: Bound,
    rules: &RuleBook,
    bytes: &[u8],
) -> Result<Output, Refused>
    ensures output { IfOk result (λ output. IsRightOutput (infer language entry bound.steps) bytes.now (output_view output)) }
    ensures none { IfErr result (IsNoOutput (infer language entry bound.steps) bytes.now) }
{
    let prog = program_that_has(alloc, language, &entry, bytes)?;
    let answers = or_memory(infer_in(alloc, language, &prog, &entry, bound, rules))?;
    let head = Head::Entry {
        mode: EntryMode::Infer,
        language,
        entry,
        bound: bound.steps,
    };
    Ok(Output::Report(Report { head, answers }))
}

/// The program.
fn compile_output(alloc: Global, language: Language, bytes: &[u8]) -> Result<Output, Refused>
    ensures output { IfOk result (λ output. IsRightOutput (compile language) bytes.now (output_view output)) }
    ensures none { IfErr result (IsNoOutput (compile language) bytes.now) }
{
    let prog = program(alloc, language, bytes)?;
    Ok(Output::Program(prog))
}

/// The report of a solution.
fn solve_output(alloc: Global, rules: &RuleBook, bytes: &[u8]) -> Result<Output, Refused>
    ensures output { IfOk result (λ output. IsRightOutput solve bytes.now (output_view output)) }
    ensures none { IfErr result (IsNoOutput solve bytes.now) }
{
    let answer = solution(alloc, rules, bytes)?;
    let output = or_memory(report_of(alloc, Head::Solve, answer))?;
    Ok(output)
}

/// The report of a sweep. What keeps it from coming is want of memory alone, whatever the source has.
fn sweep_output(alloc: Global, size: Size, rules: &RuleBook) -> Result<Output, Refused>
    ensures output { IfOk result (λ output. IsSwept size.assertions (output_view output)) }
    ensures none { (bytes : List ℕ) → IfErr result (IsNoOutput (sweep size.assertions) bytes) }
{
    let answers = or_memory(swept(alloc, size, rules))?;
    let head = Head::Sweep {
        size: size.assertions,
    };
    Ok(Output::Report(Report { head, answers }))
}

/// The report with one answer.
fn report_of(alloc: Global, head: Head, answer: Answer) -> Result<Output, AllocError>
    ensures { IfOk result (λ output. output_view output
        ≡ a_report (record { head = head; answers = answer_view answer ∷ [] })) }
{
    let mut answers = Answers::new(alloc);
    answers.push(answer)?;
    Ok(Output::Report(Report { head, answers }))
}
