//! Copies of tables, choices and conditions.
ghost use Rattle.std.specs.Prelude.{◌≡◌, IfOk};
ghost use Rattle.sym_model.specs.View.{path_view as conditions_view};

use pure_terms::{Choices, VarTable};
use sequence::Sequence;
use std::alloc::{AllocError, Global};
use sym_model::PathCond;

pub(crate) fn copy_table(alloc: Global, vars: &VarTable) -> Result<VarTable, AllocError>
    ensures { IfOk result (λ copied. copied ≡ vars.now) }
{
    let mut copied = Sequence::new(alloc);
    for sort in vars.as_slice() {
        copied.push(*sort)?;
    }
    Ok(copied)
}

pub(crate) fn copy_choices(alloc: Global, choices: &Choices) -> Result<Choices, AllocError>
    ensures { IfOk result (λ copied. copied ≡ choices.now) }
{
    let mut copied = Sequence::new(alloc);
    for choice in choices.as_slice() {
        copied.push(*choice)?;
    }
    Ok(copied)
}

pub(crate) fn copy_path_condition(alloc: Global, conds: &PathCond) -> Result<PathCond, AllocError>
    ensures { IfOk result (λ copied. conditions_view copied ≡ conditions_view conds.now) }
{
    let mut copied = PathCond::new(alloc);
    for atom in conds.atoms().as_slice() {
        copied.add(atom.copy(alloc)?)?;
    }
    Ok(copied)
}
