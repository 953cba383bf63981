//! Terms in a table, with the normal forms that are known of them.
ghost use Rattle.std.specs.Prelude.{◌≡◌, ◌⊎◌, ℕ, [], slice_get, IfSome, Some};

use std::alloc::{AllocError, Global};
use term_table::{TermId, TermTable};

/// Terms as numbers of a table, of some of which the normal form is known.
#[derive(Drop)]
pub(crate) struct Normals {
    pub(crate) table: TermTable,
    /// At the place of a number that of its normal form, where it is known.
    pub(crate) forms: Vec<Option<TermId>>,
}

impl Normals {
    /// No terms, which takes no memory.
    pub(crate) fn new(alloc: Global) -> Normals
        ensures table { result.table ≡ [] }
        ensures forms { result.forms.items ≡ [] }
    {
        Normals {
            table: TermTable::new(alloc),
            forms: Vec::new(alloc),
        }
    }

    /// The normal form of a number, where it is known.
    pub(crate) fn known(&self, id: TermId) -> Option<TermId>
        ensures { IfSome result (λ m. slice_get self.now.forms.items id ≡ Some (Some m)) }
    {
        match self.forms.get(id.place()) {
            Some(form) => *form,
            None => None,
        }
    }

    /// Notes the normal form of a number. What is known then was known before, or is this.
    pub(crate) fn note(&mut self, id: TermId, form: TermId) -> Result<(), AllocError>
        ensures known { (i m : ℕ) → slice_get self.new.forms.items i ≡ Some (Some m)
            → (slice_get self.old.forms.items i ≡ Some (Some m)) ⊎ ((i ≡ id) × (m ≡ form)) }
        ensures table { self.new.table ≡ self.old.table }
    {
        let count = self.table.len();
        lengthen(&mut self.forms, count)?;
        put(&mut self.forms, id, form);
        Ok(())
    }
}

/// Makes the list at least so long. Nothing more is known then.
fn lengthen(forms: &mut Vec<Option<TermId>>, count: usize) -> Result<(), AllocError>
    ensures { (i m : ℕ) → slice_get forms.new.items i ≡ Some (Some m) → slice_get forms.old.items i ≡ Some (Some m) }
{
    for _number in forms.len()..count {
        forms.push(None)?;
    }
    Ok(())
}

/// Puts a normal form at the place of a number, where the list is long enough.
fn put(forms: &mut Vec<Option<TermId>>, id: TermId, form: TermId)
    ensures { (i m : ℕ) → slice_get forms.new.items i ≡ Some (Some m)
        → (slice_get forms.old.items i ≡ Some (Some m)) ⊎ ((i ≡ id) × (m ≡ form)) }
{
    let place = id.place();
    if place < forms.len() {
        forms[place] = Some(form);
    }
}
