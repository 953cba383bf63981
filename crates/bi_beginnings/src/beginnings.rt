//! Beginnings.
ghost use Rattle.std.specs.Prelude.{◌≡◌, ◌++◌, length, IfOk};
ghost use Rattle.gil_syntax.specs.View.{proc_view};
ghost use Rattle.pure_terms.specs.View.{terms_view};
ghost use Rattle.sym_model.specs.View.{use_view, uses_view};
ghost use Rattle.bi_beginnings.specs.Beginnings.{any_for_each, variables_from, first_beginning};
ghost use Rattle.bi_beginnings.specs.View.{beginning_view};

use gil_syntax::{Proc, Texts};
use gil_values::Place;
use pure_terms::{Atoms, Choices, Sort, Term, Terms, Var, VarTable};
use sequence::Sequence;
use std::alloc::{AllocError, Global};
use sym_model::{CoreUse, CoreUses, Sorts};

/// What inference begins with. Contracts see it as its pure data, by `beginning_view`.
#[derive(Debug, Drop)]
pub struct Beginning {
    /// The sorts of the parameters' variables, and then of the outs.
    pub vars: VarTable,
    /// What fixes the keys that earlier paths missed.
    pub uses: CoreUses,
    /// The conditions that are carried.
    pub conds: Atoms,
    /// Where the last of these paths missed a key.
    pub place: Place,
    /// The choices of that path.
    pub choices: Choices,
}

/// A list of beginnings, which contracts see as a list of pure data by `beginnings_view`.
pub type Beginnings = Sequence<Beginning>;

/// Sort any for each parameter.
pub(crate) fn sorts_of_params(alloc: Global, params: &Texts) -> Result<Sorts, AllocError>
    ensures { IfOk result (λ sorts. sorts ≡ any_for_each params.now) }
{
    let mut sorts = Sequence::new(alloc);
    for _param in params.as_slice() {
        sorts.push(Sort::Any)?;
    }
    Ok(sorts)
}

/// A table with new variables behind those that it had.
#[derive(Debug, Drop)]
pub(crate) struct Extension {
    pub(crate) vars: VarTable,
    pub(crate) added: Terms,
}

/// The table with new variables of these sorts.
pub(crate) fn extended(
    alloc: Global,
    vars: &VarTable,
    sorts: &Sorts,
) -> Result<Extension, AllocError>
    ensures vars { IfOk result (λ e. e.vars ≡ vars.now ++ sorts.now) }
    ensures added { IfOk result (λ e. terms_view e.added ≡ variables_from (length vars.now) sorts.now) }
{
    let mut vars = copy_table(alloc, vars)?;
    let mut added = Terms::new(alloc);
    for sort in sorts.as_slice() {
        let number = vars.len() as u64;
        vars.push(*sort)?;
        added.push(Term::Var(Var {
            number,
            sort: *sort,
        }))?;
    }
    Ok(Extension { vars, added })
}

pub(crate) fn copy_table(alloc: Global, vars: &VarTable) -> Result<VarTable, AllocError>
    ensures { IfOk result (λ copied. copied ≡ vars.now) }
{
    let mut copied = Sequence::new(alloc);
    for sort in vars.as_slice() {
        copied.push(*sort)?;
    }
    Ok(copied)
}

pub(crate) fn copy_choices(alloc: Global, choices: &Choices) -> Result<Choices, AllocError>
    ensures { IfOk result (λ copied. copied ≡ choices.now) }
{
    let mut copied = Sequence::new(alloc);
    for choice in choices.as_slice() {
        copied.push(*choice)?;
    }
    Ok(copied)
}

fn copy_use(alloc: Global, used: &CoreUse) -> Result<CoreUse, AllocError>
    ensures { IfOk result (λ copied. use_view copied ≡ use_view used.now) }
{
    let core = used.core.copy(alloc)?;
    let ins = used.ins.copy(alloc)?;
    let outs = used.outs.copy(alloc)?;
    Ok(CoreUse { core, ins, outs })
}

pub(crate) fn copy_uses(alloc: Global, uses: &CoreUses) -> Result<CoreUses, AllocError>
    ensures { IfOk result (λ copied. uses_view copied ≡ uses_view uses.now) }
{
    let mut copied = Sequence::new(alloc);
    for used in uses.as_slice() {
        copied.push(copy_use(alloc, used)?)?;
    }
    Ok(copied)
}

impl Beginning {
    /// The beginning that fixes and assumes nothing.
    pub fn first(alloc: Global, proc: &Proc) -> Result<Beginning, AllocError>
        ensures { IfOk result (λ b. beginning_view b ≡ first_beginning (proc_view proc.now)) }
    {
        let vars = sorts_of_params(alloc, &proc.params)?;
        let place = Place {
            proc: proc.name.copy(alloc)?,
            at: 0,
        };
        Ok(Beginning {
            vars,
            uses: Sequence::new(alloc),
            conds: Sequence::new(alloc),
            place,
            choices: Sequence::new(alloc),
        })
    }
}
