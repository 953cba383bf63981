//! States with a note.
ghost use Rattle.std.specs.Prelude.{◌≡◌, IfOk, Some};
ghost use Rattle.least_memory.specs.Notes.{note_of};
ghost use Rattle.pure_terms.specs.View.{term_view};

use crate::concrete::NoActions;
use gil_values::Text;
use mem_model::{Failure, MemoryName};
use pure_terms::{Term, Terms, Var};
use sequence::Sequence;
use std::alloc::{AllocError, Global};
use sym_model::{Branch, Branches, SymMemory, SymResult};

/// A state that has the empty heap wherever its note, if it has one, has a value.
#[derive(Debug, Drop)]
pub struct Noted {
    note: Option<Term>,
}

impl Noted {
    /// The state with a note, which takes no memory.
    pub fn with_note(note: Term) -> Noted
        ensures { note_of result ≡ Some (term_view note) }
    {
        Noted { note: Some(note) }
    }

    /// A state with an equal note.
    fn alike(&self, alloc: Global) -> Result<Noted, AllocError>
        ensures { IfOk result (λ s. note_of s ≡ note_of self.now) }
    {
        match &self.note {
            Some(note) => Ok(Noted::with_note(note.copy(alloc)?)),
            None => Ok(Noted { note: None }),
        }
    }
}

impl SymMemory for Noted {
    ghost use Rattle.std.specs.Prelude.{⊤};
    ghost use Rattle.least_memory.specs.Notes.{noted_stands, noted_terms, noted_plain, noted_kept, all_asked, no_form_matters};
    ghost use Rattle.least_memory.specs.NotesMean.{notes_mean, all_are_given, notes_are_plain};

    type Local = NoActions;

    ghost stands = { noted_stands };

    ghost terms = { noted_terms };

    ghost asked = { all_asked };

    ghost depends = { no_form_matters };

    ghost plain = { noted_plain };

    ghost keeps_plain = { ⊤ };

    ghost keeps_narrow = { ⊥ };

    ghost kept = { noted_kept };

    ghost meaning = { notes_mean };

    ghost asked_are_given = { all_are_given };

    ghost plain_is_said = { notes_are_plain };

    fn name() -> MemoryName {
        MemoryName::Record
    }

    fn empty(_alloc: Global) -> Result<Noted, AllocError> {
        Ok(Noted { note: None })
    }

    fn copy(&self, alloc: Global) -> Result<Noted, AllocError> {
        self.alike(alloc)
    }

    fn act(
        &self,
        alloc: Global,
        _action: &Text,
        _fresh: Option<Var>,
        _args: &Terms,
    ) -> Result<Branches<Noted>, AllocError> {
        let mut branches = Sequence::new(alloc);
        branches.push(Branch {
            conds: Sequence::new(alloc),
            state: self.alike(alloc)?,
            result: SymResult::failed_with(alloc, Failure::Action)?,
        })?;
        Ok(branches)
    }
}
