//! Inference under way.
ghost use Rattle.std.specs.Prelude.{◌≡◌, ◌++◌, ◌∷◌, [], None, IfOk, OnOk};
ghost use Rattle.std.specs.Option.{option_map, option_or};
ghost use Rattle.gil_syntax.specs.View.{proc_view};
ghost use Rattle.bi_beginnings.specs.Beginnings.{first_beginning};
ghost use Rattle.bi_beginnings.specs.View.{beginnings_view};
ghost use Rattle.bi_specifications.specs.View.{found_view};
ghost use Rattle.biabduce.specs.Sound.{first_asked};
ghost use Rattle.biabduce.specs.View.{asked_view, inference_view};

use bi_beginnings::{Beginning, Beginnings};
use bi_specifications::{Found, Founds};
use gil_syntax::Proc;
use pure_terms::Query;
use sequence::Sequence;
use std::alloc::{AllocError, Global};

/// The beginnings that are left, the next one last; what is found; and the first list of conditions that wasn't decided. Contracts see
/// it as its pure data, by `inference_view`.
#[derive(Drop)]
pub(crate) struct Inference {
    pub(crate) left: Vec<Beginning>,
    pub(crate) founds: Founds,
    pub(crate) undecided: Option<Query>,
}

impl Inference {
    /// Nothing is found, and only the first beginning of the procedure is left.
    pub(crate) fn new(alloc: Global, proc: &Proc) -> Result<Inference, AllocError>
        ensures { IfOk result (λ i. inference_view i ≡ record { left = first_beginning (proc_view proc.now) ∷ []; founds = []; undecided = None }) }
    {
        let mut left = Vec::new(alloc);
        left.push(Beginning::first(alloc, proc)?)?;
        Ok(Inference {
            left,
            founds: Sequence::new(alloc),
            undecided: None,
        })
    }

    /// Begins with these too.
    pub(crate) fn begin_with(&mut self, more: Beginnings) -> Result<(), AllocError>
        ensures { OnOk result (inference_view self.new ≡ record (inference_view self.old) { left = (inference_view self.old).left ++ beginnings_view more }) }
    {
        self.left.append(&mut more.into_vec())
    }

    /// A specification is found.
    pub(crate) fn find(&mut self, found: Found) -> Result<(), AllocError>
        ensures { OnOk result (inference_view self.new ≡ record (inference_view self.old) { founds = (inference_view self.old).founds ++ found_view found ∷ [] }) }
    {
        self.founds.push(found)?;
        Ok(())
    }

    /// A list of conditions isn't decided. The first one is kept.
    pub(crate) fn leave(&mut self, query: Query)
        ensures { inference_view self.new ≡ record (inference_view self.old) { undecided = first_asked (inference_view self.old).undecided (asked_view query) } }
    {
        if self.undecided.is_none() {
            self.undecided = Some(query);
        }
    }

    /// A list of conditions isn't decided, if there is one.
    pub(crate) fn leave_any(&mut self, query: Option<Query>)
        ensures { inference_view self.new ≡ record (inference_view self.old) {
          undecided = option_or (inference_view self.old).undecided (option_map asked_view query);
        } }
    {
        if let Some(query) = query {
            self.leave(query);
        }
    }
}
