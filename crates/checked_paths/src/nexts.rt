//! What a step of a checked path answers.
ghost use Rattle.std.specs.Prelude.{◌≡◌, IfOk};
ghost use Rattle.checked_paths.specs.Causes.{shown_of, shown_view};
ghost use Rattle.sym_paths.specs.View.{path_view};

use crate::checking::Checking;
use gil_syntax::Texts;
use gil_values::Place;
use pure_terms::{Atoms, Choices, Reason, Term, Valuation, VarTable};
use sequence::Sequence;
use std::alloc::{AllocError, Global};
use sym_model::copy_conditions;
use sym_paths::{Path, copy_place};

/// Which fault a checked run meets, beside a failure.
#[derive(Clone, Copy, Debug, PartialEq, Eq)]
pub enum FaultKind {
    /// An action misses a key.
    Missing,
    /// A return or a throw meets no postcondition, or leaves something over.
    Post,
    Invariant,
    CallPrecondition,
    FoldBody,
}

/// The command at which a path came to a cause, and what a question about the path needs: its choices, its table, what was assumed and
/// its conditions; and a valuation that leads there, where one is known.
#[derive(Debug, Drop)]
pub struct Shown {
    pub place: Place,
    pub path: Choices,
    pub vars: VarTable,
    pub given: Atoms,
    pub conds: Atoms,
    pub valuation: Option<Valuation>,
}

/// Why a specification isn't verified.
#[derive(Debug, Drop)]
pub enum Cause {
    /// The command fails with this.
    Fails(Term, Shown),
    /// The command has another fault.
    Fault(FaultKind, Shown),
    /// The bound was reached.
    Cut(Shown),
    /// The conditions are outside the fragment, for this reason.
    Unknown(Reason, Shown),
}

/// Equal choices.
fn copy_choices(alloc: Global, choices: &Choices) -> Result<Choices, AllocError>
    ensures { IfOk result (λ copied. copied ≡ choices.now) }
{
    let mut copied = Choices::new(alloc);
    for choice in choices.as_slice() {
        copied.push(*choice)?;
    }
    Ok(copied)
}

/// An equal table.
fn copy_table(alloc: Global, vars: &VarTable) -> Result<VarTable, AllocError>
    ensures { IfOk result (λ copied. copied ≡ vars.now) }
{
    let mut copied = VarTable::new(alloc);
    for sort in vars.as_slice() {
        copied.push(*sort)?;
    }
    Ok(copied)
}

impl Shown {
    /// What is shown of a path that stands at a place.
    pub fn of<M: Drop>(alloc: Global, place: &Place, path: &Path<M>) -> Result<Shown, AllocError>
        ensures { IfOk result (λ s. shown_view s ≡ shown_of place.now (path_view path.now)) }
    {
        let place = copy_place(alloc, place)?;
        let choices = copy_choices(alloc, &path.choices)?;
        let vars = copy_table(alloc, &path.vars)?;
        let given = copy_conditions(alloc, &path.given)?;
        let conds = copy_conditions(alloc, path.conds.atoms())?;
        Ok(Shown {
            place,
            path: choices,
            vars,
            given,
            conds,
            valuation: None,
        })
    }
}

/// What a step answers. Contracts see it as its pure data, by `next_view`.
#[derive(Debug, Drop)]
pub enum Next<M> {
    /// A path that goes on.
    Further(Checking<M>),
    /// Nothing is left to be looked at.
    Over,
    /// The specification isn't verified.
    Caused(Cause),
}

/// The answers of a step, which contracts see as a list of pure data by `nexts_view`.
pub type Nexts<M> = Sequence<Next<M>>;

/// All that is known of a step: its answers, and the names of the specifications that it uses.
#[derive(Debug, Drop)]
pub struct Stepped<M> {
    pub nexts: Nexts<M>,
    pub uses: Texts,
}
