//! Which lists of atoms a decider always decides.
ghost use Rattle.std.specs.Prelude.{◌≡◌, ◌↔◌, ◌<◌, ◌^◌, IsTrue, nat_eq};
ghost use Rattle.std.specs.List.{list_all, list_any};
ghost use Rattle.pure_terms.specs.Fragment.{is_simple, are_simple, names_sort, name_sort, is_plain, is_variable_of, is_integer_literal, is_shift, is_flat, is_kind_of_any, is_kind_literal, is_kind_test, is_simple_equality, is_integer_side, is_order, is_comparison, has_form, any_is_a_side, is_fragment_term, has_fragment_form, is_literal_between, has_literals_between, have_literals_between, has_narrow_literals, variable_count, InFragment};
ghost use Rattle.pure_terms.specs.Meaning.{AreOver};
ghost use Rattle.pure_terms.specs.Naming.{names_number};
ghost use Rattle.pure_terms.specs.Pure.{from_list, term_of, variables_of_all};
ghost use Rattle.pure_terms.specs.View.{term_view, terms_view, atom_view, atoms_view};

use crate::atoms::{Atom, Atoms};
use crate::literals::Literal;
use crate::terms::{Term, Terms};
use crate::variables::{Sort, VarTable};
use gil_values::{BinOp, Kind, UnOp};

impl Term {
    /// Whether the term is a literal, a variable, an Int variable plus or minus an Int literal, or a list term of such
    /// terms.
    pub fn is_simple(&self) -> bool
        ensures { result ≡ is_simple (term_view self.now) }
    {
        is_simple_term(self)
    }

    /// Whether the term names a variable of a sort.
    pub fn names_sort(&self, sort: Sort) -> bool
        ensures { result ≡ names_sort sort (term_view self.now) }
    {
        term_names_sort(self, sort)
    }

    /// Whether each Int literal of the term lies between two numbers, these included.
    pub fn has_literals_between(&self, low: i128, high: i128) -> bool
        ensures { result ≡ has_literals_between low high (term_view self.now) }
    {
        are_literals_between(self, low, high)
    }

    /// Whether the term is a simple one without variables of sort any or list.
    pub fn is_plain(&self) -> bool
        ensures { result ≡ is_plain (term_view self.now) }
    {
        self.is_simple() && !self.names_sort(Sort::Any) && !self.names_sort(Sort::List)
    }

    /// Whether the term is an Int literal.
    pub fn is_integer_literal(&self) -> bool
        ensures { result ≡ is_integer_literal (term_view self.now) }
    {
        matches!(self, Term::Lit(Literal::Int(_)))
    }

    /// Whether the term is a variable of a sort.
    pub fn is_variable_of(&self, sort: Sort) -> bool
        ensures { result ≡ is_variable_of sort (term_view self.now) }
    {
        match self {
            Term::Var(variable) => variable.sort == sort,
            _ => false,
        }
    }
}

#[cycle(simple)]
fn is_simple_term(term: &Term) -> bool
    ensures { result ≡ is_simple (term_view term.now) }
{
    match term {
        Term::Lit(_) => true,
        Term::Var(_) => true,
        Term::List(terms) => are_simple_terms(terms),
        Term::Op1(_, _) => false,
        Term::Op2(op, left, right) => {
            is_shift(*op) && left.is_variable_of(Sort::Int) && right.is_integer_literal()
        }
    }
}

#[cycle(simple)]
fn are_simple_terms(terms: &Terms) -> bool
    ensures { result ≡ are_simple (from_list (terms_view terms.now)) }
{
    for term in &terms.items {
        if !is_simple_term(term) {
            return false;
        }
    }
    true
}

#[cycle(sorts)]
fn term_names_sort(term: &Term, sort: Sort) -> bool
    ensures { result ≡ names_sort sort (term_view term.now) }
{
    match term {
        Term::Lit(_) => false,
        Term::Var(variable) => variable.sort == sort,
        Term::List(terms) => terms_name_sort(terms, sort),
        Term::Op1(_, operand) => term_names_sort(operand, sort),
        Term::Op2(_, left, right) => term_names_sort(left, sort) || term_names_sort(right, sort),
    }
}

#[cycle(sorts)]
fn terms_name_sort(terms: &Terms, sort: Sort) -> bool
    ensures { result ≡ name_sort sort (from_list (terms_view terms.now)) }
{
    for term in &terms.items {
        if term_names_sort(term, sort) {
            return true;
        }
    }
    false
}

#[cycle(literals)]
fn are_literals_between(term: &Term, low: i128, high: i128) -> bool
    ensures { result ≡ has_literals_between low high (term_view term.now) }
{
    match term {
        Term::Lit(literal) => is_literal_between(literal, low, high),
        Term::Var(_) => true,
        Term::List(terms) => are_all_literals_between(terms, low, high),
        Term::Op1(_, operand) => are_literals_between(operand, low, high),
        Term::Op2(_, left, right) => {
            are_literals_between(left, low, high) && are_literals_between(right, low, high)
        }
    }
}

#[cycle(literals)]
fn are_all_literals_between(terms: &Terms, low: i128, high: i128) -> bool
    ensures { result ≡ have_literals_between low high (from_list (terms_view terms.now)) }
{
    for term in &terms.items {
        if !are_literals_between(term, low, high) {
            return false;
        }
    }
    true
}

fn is_literal_between(literal: &Literal, low: i128, high: i128) -> bool
    ensures { result ≡ is_literal_between low high literal.now }
{
    match literal {
        Literal::Int(n) => low <= *n && *n <= high,
        _ => true,
    }
}

/// Plus and minus.
fn is_shift(op: BinOp) -> bool
    ensures { result ≡ is_shift op }
{
    matches!(op, BinOp::Add | BinOp::Subtract)
}

/// The least and the greatest literal of the fragment: -2^80 and 2^80.
const LEAST_LITERAL: i128 = -1_208_925_819_614_629_174_706_176;

const GREATEST_LITERAL: i128 = 1_208_925_819_614_629_174_706_176;

/// A list of the fragment names fewer variables than this: 2^40.
const FEW_VARIABLES: usize = 1_099_511_627_776;

impl Atom {
    /// Whether the atom has a form of the fragment.
    pub fn has_fragment_form(&self) -> bool
        ensures { result ≡ has_fragment_form (atom_view self.now) }
    {
        match self {
            Atom::Holds(term) => is_fragment_term(term),
            Atom::Not(term) => is_fragment_term(term),
            Atom::Open(_) => false,
        }
    }

    /// Whether each Int literal of the atom is one of the fragment: it lies between -2^80 and 2^80.
    pub fn has_narrow_literals(&self) -> bool
        ensures { result ≡ has_narrow_literals (atom_view self.now) }
    {
        self.term()
            .has_literals_between(LEAST_LITERAL, GREATEST_LITERAL)
    }
}

/// Whether a list of atoms over the variables of a table is one of the fragment, which a decider always decides.
pub fn in_fragment(vars: &VarTable, atoms: &Atoms) -> bool
    requires { AreOver vars.now (atoms_view atoms.now) }
    ensures { IsTrue result ↔ InFragment (atoms_view atoms.now) }
{
    if !have_fragment_forms(atoms) {
        return false;
    }
    if !have_narrow_literals(atoms) {
        return false;
    }
    name_few_variables(vars, atoms)
}

fn have_fragment_forms(atoms: &Atoms) -> bool
    ensures { result ≡ list_all (λ a. has_fragment_form (atom_view a)) atoms.now }
{
    atoms.iter().all(|atom| atom.has_fragment_form())
}

fn have_narrow_literals(atoms: &Atoms) -> bool
    ensures { result ≡ list_all (λ a. has_narrow_literals (atom_view a)) atoms.now }
{
    atoms.iter().all(|atom| atom.has_narrow_literals())
}

/// Whether the atoms name fewer variables than a list of the fragment may.
fn name_few_variables(vars: &VarTable, atoms: &Atoms) -> bool
    requires { AreOver vars.now (atoms_view atoms.now) }
    ensures { IsTrue result ↔ (variable_count (atoms_view atoms.now) < 2 ^ 40) }
{
    vars.len() < FEW_VARIABLES || named_count(vars, atoms) < FEW_VARIABLES
}

/// How many variables of the table the atoms name.
fn named_count(vars: &VarTable, atoms: &Atoms) -> usize
    requires { AreOver vars.now (atoms_view atoms.now) }
    ensures { result ≡ variable_count (atoms_view atoms.now) }
{
    let mut count = 0;
    for number in 0..vars.len() {
        if some_atom_names(atoms, number as u64) {
            count += 1;
        }
    }
    count
}

fn some_atom_names(atoms: &Atoms, number: u64) -> bool
    ensures { result ≡ list_any (λ a. names_number number (term_of (atom_view a))) atoms.now }
{
    atoms.iter().any(|atom| atom.term().names(number))
}

/// Whether an atom's term is one of the fragment, limits aside.
fn is_fragment_term(term: &Term) -> bool
    ensures { result ≡ is_fragment_term (term_view term.now) }
{
    has_form(term) && !term.names_sort(Sort::List) && (is_kind_test(term) || any_is_a_side(term))
}

/// Whether a term is a Bool variable, `=` of two simple terms, `<` or `<=` of two simple terms that are whole numbers, or
/// a test of a kind.
fn has_form(term: &Term) -> bool
    ensures { result ≡ has_form (term_view term.now) }
{
    term.is_variable_of(Sort::Bool)
        || is_simple_equality(term)
        || is_comparison(term)
        || is_kind_test(term)
}

fn is_simple_equality(term: &Term) -> bool
    ensures { result ≡ is_simple_equality (term_view term.now) }
{
    match term {
        Term::Op2(BinOp::Equal, left, right) => left.is_simple() && right.is_simple(),
        _ => false,
    }
}

fn is_comparison(term: &Term) -> bool
    ensures { result ≡ is_comparison (term_view term.now) }
{
    match term {
        Term::Op2(op, left, right) => {
            is_order(*op) && is_integer_side(left) && is_integer_side(right)
        }
        _ => false,
    }
}

/// `(kind(x) = K)` of a variable of sort any and a kind.
fn is_kind_test(term: &Term) -> bool
    ensures { result ≡ is_kind_test (term_view term.now) }
{
    match term {
        Term::Op2(BinOp::Equal, left, right) => is_kind_of_any(left) && is_kind_literal(right),
        _ => false,
    }
}

fn is_kind_of_any(term: &Term) -> bool
    ensures { result ≡ is_kind_of_any (term_view term.now) }
{
    match term {
        Term::Op1(UnOp::Kind, operand) => operand.is_variable_of(Sort::Any),
        _ => false,
    }
}

fn is_kind_literal(term: &Term) -> bool
    ensures { result ≡ is_kind_literal (term_view term.now) }
{
    matches!(term, Term::Lit(Literal::Kind(_)))
}

/// Whether a variable of sort any stands only as one whole side of an `=` whose other side is a variable or a literal.
fn any_is_a_side(term: &Term) -> bool
    ensures { result ≡ any_is_a_side (term_view term.now) }
{
    match term {
        Term::Op2(BinOp::Equal, left, right) => {
            (is_flat(left) && is_flat(right))
                || (!left.names_sort(Sort::Any) && !right.names_sort(Sort::Any))
        }
        _ => !term.names_sort(Sort::Any),
    }
}

/// A literal or a variable.
fn is_flat(term: &Term) -> bool
    ensures { result ≡ is_flat (term_view term.now) }
{
    matches!(term, Term::Lit(_) | Term::Var(_))
}

/// A simple term whose form and sorts tell that it is a whole number.
fn is_integer_side(term: &Term) -> bool
    ensures { result ≡ is_integer_side (term_view term.now) }
{
    term.is_simple() && matches!(term.known_kind(), Some(Kind::Int))
}

/// `<` or `<=`.
fn is_order(op: BinOp) -> bool
    ensures { result ≡ is_order op }
{
    matches!(op, BinOp::Less | BinOp::LessOrEqual)
}
