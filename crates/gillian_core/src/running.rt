//! One run of a program on given inputs.
ghost use Rattle.std.specs.Prelude.{◌≡◌, [], IfOk};
ghost use Rattle.std.specs.FinMap.{empty};
ghost use Rattle.gil_values.specs.View.{values_view};
ghost use Rattle.gil_syntax.specs.Program.{prog_view};
ghost use Rattle.gil_machine.specs.Held.{HeldEnd, held_run_of};
ghost use Rattle.gil_machine.specs.Run.{IsEntry};
ghost use Rattle.gil_machine.specs.Standing.{IsEndOf};
ghost use Rattle.gil_report.specs.View.{answer_view};
ghost use Rattle.gillian_core.specs.Ends.{end_answer};

use gil_machine::{End, run};
use gil_report::Answer;
use gil_syntax::Prog;
use gil_values::{Text, Values};
use gillian_words::Bound;
use mem_model::LocalMemory;
use std::alloc::{AllocError, Global};

/// How the run of an entry of a program ends, from the empty heap of a memory and the counter 0.
pub fn run_answer<M: LocalMemory>(
    alloc: Global,
    prog: &Prog,
    entry: &Text,
    bound: Bound,
    inputs: &Values,
) -> Result<Answer, AllocError>
    requires { IsEntry (prog_view prog.now) entry.now }
    ensures { IfOk result (λ answer. answer_view answer ≡ end_answer
        (held_run_of (prog_view prog.now) M.actions entry.now [] empty 0 (values_view inputs.now) bound.steps)) }
{
    let heap = M::empty(alloc)?;
    let args = Values::new(alloc);
    let end = run(alloc, prog, entry, args, heap, 0, inputs, bound.steps);
    let answer = answer_of(end)?;
    Ok(answer)
}

/// How a run ended, without its memory. A throw that no call has a handler for is a failure.
fn answer_of<M: LocalMemory>(end: End<M>) -> Result<Answer, AllocError>
    ensures { IfOk result (λ answer. (e : HeldEnd) → IsEndOf M.heap end e → answer_view answer ≡ end_answer e) }
{
    match end {
        End::Returned(value, _) => Ok(Answer::Returned(value)),
        End::Threw(value, place, _) => Ok(Answer::Failed(value, place)),
        End::Failed(value, place, _) => Ok(Answer::Failed(value, place)),
        End::Vanished(_) => Ok(Answer::Vanished),
        End::Cut(_) => Ok(Answer::Cut),
        End::NoInput(draw, _) => Ok(Answer::NoInput(draw)),
        End::BadInput(draw, _) => Ok(Answer::BadInput(draw)),
        End::Number(place, _) => Ok(Answer::Number(place)),
        End::Memory => Err(AllocError),
    }
}
