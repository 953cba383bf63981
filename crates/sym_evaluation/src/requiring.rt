//! How far an evaluation is, and what it requires to go on.
ghost use Rattle.std.specs.Prelude.{◌≡◌, ◌++◌, IfOk, Some};
ghost use Rattle.pure_terms.specs.View.{atoms_view};
ghost use Rattle.sym_model.specs.Alternatives.{alternatives_view};
ghost use Rattle.sym_evaluation.specs.Checks as checks;
ghost use Rattle.sym_evaluation.specs.CheckView.{check_view, stage_view};
ghost use Rattle.sym_evaluation.specs.View.{fault_view, faults_view};

use crate::cases::{FaultCase, FaultCases};
use crate::checks::{Check, Question};
use crate::faults::Fault;
use pure_terms::Atoms;
use sequence::Sequence;
use std::alloc::{AllocError, Global};
use sym_model::{Alternatives, copy_conditions};

/// The faults so far, and the conditions under which there is none of them, unless one is sure.
#[derive(Drop)]
pub struct Stage {
    pub faults: FaultCases,
    pub conds: Option<Atoms>,
}

/// The conditions of both lists.
pub fn join(alloc: Global, first: &Atoms, second: &Atoms) -> Result<Atoms, AllocError>
    ensures { IfOk result (λ all. atoms_view all ≡ atoms_view first.now ++ atoms_view second.now) }
{
    let mut all = copy_conditions(alloc, first)?;
    for condition in second.as_slice() {
        all.push(condition.copy(alloc)?)?;
    }
    Ok(all)
}

/// The faults, and then one for each alternative.
fn fail_each(
    alloc: Global,
    faults: FaultCases,
    fault: Fault,
    conds: &Atoms,
    alternatives: &Alternatives,
) -> Result<FaultCases, AllocError>
    ensures { IfOk result (λ all. faults_view all ≡ faults_view faults ++ checks.failing (fault_view fault) (atoms_view conds.now)
        (alternatives_view alternatives.now)) }
{
    let mut faults = faults;
    for alternative in alternatives.as_slice() {
        let conds = join(alloc, conds, alternative)?;
        faults.push(FaultCase { conds, fault })?;
    }
    Ok(faults)
}

fn ask(
    alloc: Global,
    fault: Fault,
    question: &Question,
    faults: FaultCases,
    conds: &Atoms,
) -> Result<Stage, AllocError>
    ensures { IfOk result (λ s. stage_view s ≡ checks.required_from (fault_view fault)
        (checks.asks (atoms_view question.now.met) (alternatives_view question.now.unmet)) (faults_view faults) (atoms_view conds.now)) }
{
    let faults = fail_each(alloc, faults, fault, conds, &question.unmet)?;
    let conds = join(alloc, conds, &question.met)?;
    Ok(Stage {
        faults,
        conds: Some(conds),
    })
}

/// Requires that a check passes; where it doesn't, there is the fault.
pub fn require(alloc: Global, fault: Fault, check: Check, stage: Stage) -> Result<Stage, AllocError>
    ensures { IfOk result (λ s. stage_view s ≡ checks.required (fault_view fault) (check_view check) (stage_view stage)) }
{
    let Stage { mut faults, conds } = stage;
    let Some(conds) = conds else {
        return Ok(Stage {
            faults,
            conds: None,
        });
    };
    match check {
        Check::Passes => Ok(Stage {
            faults,
            conds: Some(conds),
        }),
        Check::Fails => {
            faults.push(FaultCase { conds, fault })?;
            Ok(Stage {
                faults,
                conds: None,
            })
        }
        Check::Asks(question) => ask(alloc, fault, &question, faults, &conds),
    }
}
