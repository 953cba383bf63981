//! What is found out of each specification by itself.
ghost use Rattle.std.specs.Prelude.{◌≡◌, ◌≤◌, Some, IfOk};
ghost use Rattle.assert_logic.specs.Modes.{HasModes};
ghost use Rattle.gil_syntax.specs.Program.{prog_view};
ghost use Rattle.gil_syntax.specs.Programs.{find_spec};
ghost use Rattle.gil_syntax.specs.View.{spec_view};
ghost use Rattle.spec_checker.specs.Examining.{AreExamined, IsExamined, IsFindingOf, IsFound};

use gil_syntax::{Prog, Spec};
use rewrite_book::RuleBook;
use sequence::Sequence;
use solver_proof::Refuter;
use spec_answers::{Examinations, Examined, Finding};
use spec_causes::Met;
use spec_exploration::{Explored, explore_specification};
use spec_vacuity::{vacuous, vacuous_specifications_have_no_run};
use std::alloc::{AllocError, Global};
use sym_model::ListedMemory;

/// What the exploration of a specification shows.
fn finding_of(explored: Explored) -> Finding<Met>
    ensures { IsFindingOf explored result }
{
    let Explored { cause, uses } = explored;
    match cause {
        Some(cause) => Finding::Caused(cause),
        None => Finding::Clean(uses),
    }
}

/// What is found out of a specification: whether nothing meets its precondition, and else what its paths come to within the bound.
fn find<M: ListedMemory, D: Refuter>(
    alloc: Global,
    prog: &Prog,
    rules: &RuleBook,
    spec: &Spec,
    bound: u32,
    decider: &mut D,
) -> Result<Finding<Met>, AllocError>
    requires bounded { bound ≤ 10000 }
    requires found { find_spec (prog_view prog.now).specs (spec_view spec.now).name ≡ Some (spec_view spec.now) }
    requires modes { HasModes (prog_view prog.now) M.Local.memory }
    ensures { IfOk result (IsFound (prog_view prog.now) M.Local.memory M.Local.actions M.keeps_plain bound (spec_view spec.now)) }
{
    vacuous_specifications_have_no_run();
    match vacuous(alloc, spec, decider)? {
        Some(proof) => Ok(Finding::Vacuous(proof)),
        None => {
            let explored = explore_specification::<M, D>(alloc, prog, rules, spec, bound, decider)?;
            Ok(finding_of(explored))
        }
    }
}

fn examine<M: ListedMemory, D: Refuter>(
    alloc: Global,
    prog: &Prog,
    rules: &RuleBook,
    spec: &Spec,
    bound: u32,
    decider: &mut D,
) -> Result<Examined<Met>, AllocError>
    requires bounded { bound ≤ 10000 }
    requires found { find_spec (prog_view prog.now).specs (spec_view spec.now).name ≡ Some (spec_view spec.now) }
    requires modes { HasModes (prog_view prog.now) M.Local.memory }
    ensures { IfOk result (IsExamined (prog_view prog.now) M.Local.memory M.Local.actions M.keeps_plain bound (spec_view spec.now)) }
{
    let name = spec.name.copy(alloc)?;
    let finding = find::<M, D>(alloc, prog, rules, spec, bound, decider)?;
    Ok(Examined { name, finding })
}

/// What is found out of each specification of a program, in order.
pub(crate) fn examine_all<M: ListedMemory, D: Refuter>(
    alloc: Global,
    prog: &Prog,
    rules: &RuleBook,
    bound: u32,
    decider: &mut D,
) -> Result<Examinations<Met>, AllocError>
    requires bounded { bound ≤ 10000 }
    requires modes { HasModes (prog_view prog.now) M.Local.memory }
    ensures { IfOk result (AreExamined (prog_view prog.now) M.Local.memory M.Local.actions M.keeps_plain bound (prog_view prog.now).specs) }
{
    let mut examined = Sequence::new(alloc);
    let specs = prog.specs().as_slice();
    for place in 0..specs.len() {
        examined.push(examine::<M, D>(alloc, prog, rules, &specs[place], bound, decider)?)?;
    }
    Ok(examined)
}
