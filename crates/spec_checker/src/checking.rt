//! The check of a program's specifications.
ghost use Rattle.std.specs.Prelude.{◌≤◌, IfOk};
ghost use Rattle.assert_logic.specs.Modes.{HasModes};
ghost use Rattle.gil_syntax.specs.Program.{prog_view};
ghost use Rattle.spec_answers.specs.Holding.{AreTrue};
ghost use Rattle.spec_checker.specs.Answers.{AnswerEach, AreCauses, AreEnded, AreFaultless, AreUsed};
ghost use Rattle.spec_checker.specs.Deciding.{AreDecided, AreSettled};

use crate::examining::examine_all;
use gil_syntax::Prog;
use plain_specs::contained_specifications_are_decided;
use rewrite_book::RuleBook;
use solver_proof::Refuter;
use spec_answers::{SpecAnswers, answer_specifications};
use spec_causes::Met;
use std::alloc::{AllocError, Global};
use sym_model::ListedMemory;

/// One answer for each specification of a program, in order. Each that is answered verified or vacuous holds, and uses only such
/// ones; it is vacuous wherever its precondition's pure items can be refuted; and the cause of each that is unproved is right.
pub fn check<M: ListedMemory, D: Refuter>(
    alloc: Global,
    prog: &Prog,
    rules: &RuleBook,
    bound: u32,
    decider: &mut D,
) -> Result<SpecAnswers<Met>, AllocError>
    requires bounded { bound ≤ 10000 }
    requires modes { HasModes (prog_view prog.now) M.Local.memory }
    ensures answers { IfOk result (AnswerEach (prog_view prog.now).specs) }
    ensures hold { IfOk result (AreTrue (prog_view prog.now) M.Local.memory M.Local.actions) }
    // Each that has no cause of its own has no checked run with a fault, also where it depends on another.
    ensures faultless { IfOk result (AreFaultless (prog_view prog.now) M.Local.memory M.Local.actions) }
    // Nor has it one that is under way after as many steps as the bound.
    ensures ended { IfOk result (AreEnded (prog_view prog.now) M.Local.memory M.Local.actions bound) }
    // One that depends on another one has a checked run within the bound that calls by that one, as far as its precondition is decided.
    ensures used { IfOk result (AreUsed (prog_view prog.now) M.Local.memory M.Local.actions bound) }
    ensures causes { IfOk result (AreCauses (prog_view prog.now) M.Local.memory M.Local.actions bound) }

    // A contained specification depends on no other one, and where its runs do as it tells, no fault of it is shown.
    ensures contained { IfOk result (AreDecided (prog_view prog.now) M.Local.memory M.Local.actions bound) }

    // Nothing of a plain specification is left undecided, and it is verified or vacuous where its runs do as it tells.
    ensures plain { M.keeps_plain → IfOk result (AreSettled (prog_view prog.now) M.Local.memory M.Local.actions bound) }
{
    contained_specifications_are_decided();
    let examined = examine_all::<M, D>(alloc, prog, rules, bound, decider)?;
    answer_specifications(alloc, examined)
}
