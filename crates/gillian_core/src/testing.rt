//! Whether some inputs make a program fail.
ghost use Rattle.std.specs.Prelude.{◌≡◌, IfOk};
ghost use Rattle.gil_syntax.specs.Program.{prog_view};
ghost use Rattle.gil_machine.specs.Run.{IsEntry};
ghost use Rattle.sym_test.specs.View.{query_view, verdict_view};
ghost use Rattle.gil_report.specs.View.{answer_view, question_view};
ghost use Rattle.gillian_core.specs.Answers.{question_of, verdict_answer};
ghost use Rattle.gillian_core.specs.Definitions.{memory_of};
ghost use Rattle.gillian_core.specs.Right.{IsRightVerdict};

use gil_report::{Answer, Question};
use gil_syntax::Prog;
use gil_values::Text;
use gillian_words::Bound;
use path_solver::PathSolver;
use pure_terms::Query;
use report_names::named_atoms;
use rewrite_book::RuleBook;
use solver_print::Names;
use std::alloc::{AllocError, Global};
use sym_model::SymMemory;
use sym_test::{Verdict, test};

/// The verdict on an entry of a program, over the symbolic states of a memory.
pub fn verdict<M: SymMemory>(
    alloc: Global,
    prog: &Prog,
    entry: &Text,
    bound: Bound,
    rules: &RuleBook,
) -> Result<Answer, AllocError>
    requires { IsEntry (prog_view prog.now) entry.now }
    ensures { IfOk result (λ answer. IsRightVerdict (memory_of M.Local.memory M.Local.actions M.stands M.terms M.asked M.depends M.plain M.kept
        M.keeps_plain M.keeps_narrow) (prog_view prog.now) entry.now bound.steps (answer_view answer)) }
{
    let mut decider = PathSolver::new(alloc);
    let tested = test::<M, PathSolver>(alloc, prog, entry, bound.steps, rules, &mut decider)?;
    let answer = answer_of(alloc, tested)?;
    Ok(answer)
}

/// The answer that a verdict is.
fn answer_of(alloc: Global, verdict: Verdict) -> Result<Answer, AllocError>
    ensures { IfOk result (λ answer. answer_view answer ≡ verdict_answer (verdict_view verdict)) }
{
    match verdict {
        Verdict::Bug {
            place,
            value,
            inputs,
        } => Ok(Answer::Bug {
            place,
            value,
            inputs,
        }),
        Verdict::Clean => Ok(Answer::Clean),
        Verdict::Unknown(query) => Ok(Answer::Undecided(question_of(alloc, query)?)),
    }
}

/// The question that a query is. Its variables have no names but `v` and their numbers.
pub(crate) fn question_of(alloc: Global, query: Query) -> Result<Question, AllocError>
    ensures { IfOk result (λ question. question_view question ≡ question_of (query_view query)) }
{
    let Query {
        place,
        path,
        vars,
        given,
        query,
        outside,
    } = query;
    let names = Names::new(alloc);
    let given = named_atoms(alloc, &names, &given)?;
    let query = named_atoms(alloc, &names, &query)?;
    Ok(Question {
        place,
        path,
        vars,
        given,
        query,
        outside,
    })
}
