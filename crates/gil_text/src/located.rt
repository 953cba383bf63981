//! The lists of a text as they are read, with the byte at which each item begins. A text of GIL has procedures, and one of a source
//! language has functions.
ghost use Rattle.std.specs.Prelude.{◌≡◌, [], OnOk};
ghost use Rattle.gil_text.specs.Located.{no_items, with_added};

use gil_syntax::{PredDef, PredDefs, Spec, Specs};
use sequence::Sequence;
use std::alloc::{AllocError, Global};

/// An item of a text whose procedures or functions are of the type `F`.
#[derive(Debug, Drop)]
pub enum TextItem<F> {
    Function(F),
    Spec(Spec),
    Pred(PredDef),
}

/// The byte at which something begins.
pub type Places = Sequence<usize>;

/// The lists of a text, and the bytes at which their items begin.
#[derive(Debug, Drop)]
pub struct Located<F> {
    pub functions: Sequence<F>,
    pub specs: Specs,
    pub preds: PredDefs,
    pub functions_at: Places,
    pub specs_at: Places,
    pub preds_at: Places,
}

impl<F> Located<F> {
    /// Lists without items.
    pub fn new(alloc: Global) -> Located<F>
        ensures { result ≡ no_items }
    {
        Located {
            functions: Sequence::new(alloc),
            specs: Sequence::new(alloc),
            preds: Sequence::new(alloc),
            functions_at: Sequence::new(alloc),
            specs_at: Sequence::new(alloc),
            preds_at: Sequence::new(alloc),
        }
    }
}

impl<F: Drop> Located<F> {
    /// Adds an item that begins at a byte to its list.
    pub fn add(&mut self, item: TextItem<F>, at: usize) -> Result<(), AllocError>
        ensures { OnOk result (self.new ≡ with_added self.old item at) }
    {
        match item {
            TextItem::Function(function) => {
                self.functions.push(function)?;
                self.functions_at.push(at)
            }
            TextItem::Spec(specification) => {
                self.specs.push(specification)?;
                self.specs_at.push(at)
            }
            TextItem::Pred(predicate) => {
                self.preds.push(predicate)?;
                self.preds_at.push(at)
            }
        }
    }
}
