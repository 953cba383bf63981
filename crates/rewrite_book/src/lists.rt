//! Rules of lists.
ghost use Rattle.std.specs.Prelude.{◌≡◌, IfOk, length, pos};
ghost use Rattle.std.specs.Option.{option_map};
ghost use Rattle.pure_terms.specs.Folding.{element_term};
ghost use Rattle.pure_terms.specs.Pure.{from_list, to_list};
ghost use Rattle.pure_terms.specs.View.{term_view, terms_view};
ghost use Rattle.rewrite_book.specs.Answers.{AnswersWell};
ghost use Rattle.rewrite_book.specs.Forms as forms;

use gil_values::{BinOp, UnOp};
use pure_terms::{Literal, Term, Terms, folding_replaces};
use std::alloc::{AllocError, Global};

/// `len` of a list term is the number of its elements.
pub fn len_list(t: &Term) -> Result<Option<Term>, AllocError>
    ensures form { IfOk result (λ o. option_map term_view o ≡ forms.len_list (term_view t.now)) }
    ensures well { AnswersWell t.now result }
{
    length_of_list(t)
}

/// `nth` of a list term at a literal within it is its element.
pub fn nth_list(alloc: Global, t: &Term) -> Result<Option<Term>, AllocError>
    ensures form { IfOk result (λ o. option_map term_view o ≡ forms.nth_list (term_view t.now)) }
    ensures well { AnswersWell t.now result }
{
    folding_replaces();
    element_of_list(alloc, t)
}

fn length_of_list(t: &Term) -> Result<Option<Term>, AllocError>
    ensures { IfOk result (λ o. option_map term_view o ≡ forms.len_list (term_view t.now)) }
{
    match t {
        Term::Op1(UnOp::Len, operand) => match &**operand {
            Term::List(terms) => Ok(Some(count_of(terms))),
            _ => Ok(None),
        },
        _ => Ok(None),
    }
}

fn element_of_list(alloc: Global, t: &Term) -> Result<Option<Term>, AllocError>
    ensures { IfOk result (λ o. option_map term_view o ≡ forms.nth_list (term_view t.now)) }
{
    match t {
        Term::Op2(BinOp::Nth, list, place) => match (&**list, &**place) {
            (Term::List(terms), Term::Lit(Literal::Int(place))) => element_at(alloc, terms, *place),
            _ => Ok(None),
        },
        _ => Ok(None),
    }
}

/// The element at a number, where that is a place of the list.
fn element_at(alloc: Global, terms: &Terms, place: i128) -> Result<Option<Term>, AllocError>
    ensures { IfOk result (λ o. option_map term_view o ≡ element_term (from_list (terms_view terms.now)) place) }
{
    match find_element(terms, place) {
        Some(term) => Ok(Some(term.copy(alloc)?)),
        None => Ok(None),
    }
}

fn find_element(terms: &Terms, place: i128) -> Option<&Term>
    ensures { option_map (λ t. term_view t.now) result ≡ element_term (from_list (terms_view terms.now)) place }
{
    if place < 0 {
        return None;
    }
    if place >= terms.len() as i128 {
        return None;
    }
    terms.get(place as usize)
}

/// The number of elements.
fn count_of(terms: &Terms) -> Term
    ensures { term_view result ≡ forms.number (pos (length (to_list (from_list (terms_view terms.now))))) }
{
    Term::Lit(Literal::Int(terms.len() as i128))
}
