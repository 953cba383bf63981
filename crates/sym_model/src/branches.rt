//! What an action on symbolic states may come to.
ghost use Rattle.std.specs.Prelude.{◌≡◌, IfOk};
ghost use Rattle.mem_model.specs.Tables.{failure_text};
ghost use Rattle.pure_terms.specs.declared.literals.Literal.TheVariants.{Str};
ghost use Rattle.pure_terms.specs.Pure.{literal};
ghost use Rattle.sym_model.specs.Pure.{failed};
ghost use Rattle.sym_model.specs.View.{result_view};

use crate::keys::SymKey;
use gil_values::Text;
use mem_model::Failure;
use pure_terms::{Atoms, Literal, Term};
use sequence::Sequence;
use std::alloc::{AllocError, Global};

/// What an action comes to, in terms. Contracts see it as its pure data, by `result_view`.
#[derive(Debug, Drop)]
pub enum SymResult {
    Done(Term),
    Failed(Term),
    Miss(SymKey),
}

impl SymResult {
    /// That the action fails, with the text that names why.
    pub fn failed_with(alloc: Global, why: Failure) -> Result<SymResult, AllocError>
        ensures { IfOk result (λ r. result_view r ≡ failed (literal (Str (failure_text why)))) }
    {
        match Text::from_str(alloc, why.as_str())? {
            Some(text) => Ok(SymResult::Failed(Term::Lit(Literal::Str(text)))),
            None => unreachable!(),
        }
    }

    /// An equal result.
    pub fn copy(&self, alloc: Global) -> Result<SymResult, AllocError>
        ensures { IfOk result (λ r. result_view r ≡ result_view self.now) }
    {
        match self {
            SymResult::Done(term) => Ok(SymResult::Done(term.copy(alloc)?)),
            SymResult::Failed(term) => Ok(SymResult::Failed(term.copy(alloc)?)),
            SymResult::Miss(key) => Ok(SymResult::Miss(key.copy(alloc)?)),
        }
    }
}

/// What an action may come to where the conditions are true. Contracts see it as its pure data, by `branch_view`.
#[derive(Debug, Drop)]
pub struct Branch<M> {
    pub conds: Atoms,
    pub state: M,
    pub result: SymResult,
}

/// A list of branches, which contracts see as a list of pure data by `branches_view`.
pub type Branches<M> = Sequence<Branch<M>>;
