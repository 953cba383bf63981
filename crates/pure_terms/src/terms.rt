//! Terms and lists of terms.
ghost use Rattle.std.specs.Prelude.{◌≡◌, [], ◌∷◌, ◌++◌, ◌<◌, length, map, slice_get, Some, IfOk, OnOk, OnErr};
ghost use Rattle.std.specs.Option.{option_map};
ghost use Rattle.std.specs.Slice.Iter.{iter_rest};
ghost use Rattle.pure_terms.specs.View.{term_view, terms_view};

use crate::literals::Literal;
use crate::variables::Var;
use gil_values::{BinOp, UnOp};
use std::alloc::{AllocError, Global};
use std::rc::Rc;
use std::slice::Iter;

/// A term. Contracts see it as its pure data, by `term_view`.
#[cycle(term)]
#[derive(Debug, Drop)]
pub enum Term {
    Lit(Literal),
    Var(Var),
    List(Terms),
    Op1(UnOp, Rc<Term>),
    Op2(BinOp, Rc<Term>, Rc<Term>),
}

/// A list of terms. Contracts see it as a list of pure data, by `terms_view`.
#[cycle(term)]
#[derive(Debug, Drop)]
pub struct Terms {
    pub(crate) items: Vec<Term>,
}

impl Term {
    /// An equal term.
    pub fn copy(&self, alloc: Global) -> Result<Term, AllocError>
        ensures { IfOk result (λ t. term_view t ≡ term_view self.now) }
    {
        copy_term(alloc, self)
    }
}

impl Terms {
    /// The empty list, which takes no memory.
    pub fn new(alloc: Global) -> Terms
        ensures { terms_view result ≡ [] }
    {
        Terms {
            items: Vec::new(alloc),
        }
    }

    /// How many terms there are.
    pub fn len(&self) -> usize
        ensures { result ≡ length (terms_view self.now) }
    {
        self.items.len()
    }

    /// The term at a place of the list, counted from 0.
    pub fn get(&self, index: usize) -> Option<&Term>
        ensures { option_map (λ t. term_view t.now) result ≡ slice_get (terms_view self.now) index }
    {
        self.items.get(index)
    }

    /// Adds a term at the end.
    pub fn push(&mut self, term: Term) -> Result<(), AllocError>
        ensures ok { OnOk result (terms_view self.new ≡ terms_view self.old ++ term_view term ∷ []) }
        ensures err { OnErr result (terms_view self.new ≡ terms_view self.old) }
    {
        self.items.push(term)?;
        Ok(())
    }

    /// Goes over the terms in order.
    pub fn iter(&self) -> Iter<'_, Term>
        ensures { map term_view (iter_rest result) ≡ terms_view self.now }
    {
        self.items.iter()
    }

    /// The terms as a slice.
    pub fn as_slice(&self) -> &[Term]
        ensures { map term_view result.now ≡ terms_view self.now }
    {
        self.items.as_slice()
    }

    /// The term at a place of the list; the others are let go.
    pub fn into_element(self, index: usize) -> Term
        requires { index < length (terms_view self) }
        ensures { slice_get (terms_view self) index ≡ Some (term_view result) }
    {
        let mut items = self.items;
        items.swap_remove(index)
    }

    /// An equal list.
    pub fn copy(&self, alloc: Global) -> Result<Terms, AllocError>
        ensures { IfOk result (λ ts. terms_view ts ≡ terms_view self.now) }
    {
        copy_terms(alloc, self)
    }
}

#[cycle(copy)]
fn copy_term(alloc: Global, term: &Term) -> Result<Term, AllocError>
    ensures { IfOk result (λ t. term_view t ≡ term_view term.now) }
{
    match term {
        Term::Lit(literal) => Ok(Term::Lit(literal.copy(alloc)?)),
        Term::Var(variable) => Ok(Term::Var(*variable)),
        Term::List(terms) => Ok(Term::List(copy_terms(alloc, terms)?)),
        Term::Op1(op, operand) => Ok(Term::Op1(*op, operand.clone()?)),
        Term::Op2(op, left, right) => Ok(Term::Op2(*op, left.clone()?, right.clone()?)),
    }
}

#[cycle(copy)]
fn copy_terms(alloc: Global, terms: &Terms) -> Result<Terms, AllocError>
    ensures { IfOk result (λ ts. terms_view ts ≡ terms_view terms.now) }
{
    let mut items = Vec::with_capacity(alloc, terms.items.len())?;
    for term in &terms.items {
        items.push(copy_term(alloc, term)?)?;
    }
    Ok(Terms { items })
}
