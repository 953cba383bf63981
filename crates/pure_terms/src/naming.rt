//! Which variables a term names.
ghost use Rattle.std.specs.Prelude.{◌≡◌, ◌↔◌, IsTrue, nat_eq, nat_lt};
ghost use Rattle.std.specs.List.{list_all, list_any};
ghost use Rattle.pure_terms.specs.Meaning.{IsOver};
ghost use Rattle.pure_terms.specs.Naming.{is_in_table, names_number, names_only_below, names_only};
ghost use Rattle.pure_terms.specs.Pure.{from_list, variables_of_all};
ghost use Rattle.pure_terms.specs.View.{term_view, terms_view};

use crate::terms::{Term, Terms};
use crate::variables::{Var, VarTable};

impl Term {
    /// Whether the term names the variable with a number.
    pub fn names(&self, number: u64) -> bool
        ensures { result ≡ names_number number (term_view self.now) }
    {
        term_names(self, number)
    }

    /// Whether each variable that the term names has a lower number.
    pub fn names_only_below(&self, number: u64) -> bool
        ensures { result ≡ names_only_below number (term_view self.now) }
    {
        term_names_only_below(self, number)
    }

    /// Whether the term names only variables of the table, with their sorts there.
    pub fn is_over(&self, vars: &VarTable) -> bool
        ensures { IsTrue result ↔ IsOver vars.now (term_view self.now) }
    {
        term_is_over(self, vars)
    }
}

#[cycle(names)]
fn term_names(term: &Term, number: u64) -> bool
    ensures { result ≡ names_number number (term_view term.now) }
{
    match term {
        Term::Lit(_) => false,
        Term::Var(variable) => number == variable.number,
        Term::List(terms) => terms_name(terms, number),
        Term::Op1(_, operand) => term_names(operand, number),
        Term::Op2(_, left, right) => term_names(left, number) || term_names(right, number),
    }
}

#[cycle(names)]
fn terms_name(terms: &Terms, number: u64) -> bool
    ensures { result ≡ list_any (λ x. nat_eq number x.number) (variables_of_all (from_list (terms_view terms.now))) }
{
    for term in &terms.items {
        if term_names(term, number) {
            return true;
        }
    }
    false
}

#[cycle(below)]
fn term_names_only_below(term: &Term, number: u64) -> bool
    ensures { result ≡ names_only_below number (term_view term.now) }
{
    match term {
        Term::Lit(_) => true,
        Term::Var(variable) => variable.number < number,
        Term::List(terms) => terms_name_only_below(terms, number),
        Term::Op1(_, operand) => term_names_only_below(operand, number),
        Term::Op2(_, left, right) => {
            term_names_only_below(left, number) && term_names_only_below(right, number)
        }
    }
}

#[cycle(below)]
fn terms_name_only_below(terms: &Terms, number: u64) -> bool
    ensures { result ≡ list_all (λ x. nat_lt x.number number) (variables_of_all (from_list (terms_view terms.now))) }
{
    for term in &terms.items {
        if !term_names_only_below(term, number) {
            return false;
        }
    }
    true
}

/// Whether the variable is one of the table, with its sort there.
fn is_in_table(variable: &Var, vars: &VarTable) -> bool
    ensures { result ≡ is_in_table vars.now variable.now }
{
    match vars.get(variable.number as usize) {
        Some(sort) => *sort == variable.sort,
        None => false,
    }
}

#[cycle(over)]
fn term_is_over(term: &Term, vars: &VarTable) -> bool
    ensures { result ≡ names_only vars.now (term_view term.now) }
{
    match term {
        Term::Lit(_) => true,
        Term::Var(variable) => is_in_table(variable, vars),
        Term::List(terms) => terms_are_over(terms, vars),
        Term::Op1(_, operand) => term_is_over(operand, vars),
        Term::Op2(_, left, right) => term_is_over(left, vars) && term_is_over(right, vars),
    }
}

#[cycle(over)]
fn terms_are_over(terms: &Terms, vars: &VarTable) -> bool
    ensures { result ≡ list_all (is_in_table vars.now) (variables_of_all (from_list (terms_view terms.now))) }
{
    for term in &terms.items {
        if !term_is_over(term, vars) {
            return false;
        }
    }
    true
}
