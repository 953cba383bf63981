//! What is asked of operands before an operator is applied.
ghost use Rattle.std.specs.Prelude.{◌≡◌, [], ◌∷◌, ◌++◌, None, IfOk};
ghost use Rattle.pure_terms.specs.Pure.{unary_of, binary_of, positive, negative};
ghost use Rattle.pure_terms.specs.View.{term_view, atom_view, atoms_view};
ghost use Rattle.sym_evaluation.specs.Checks as checks;
ghost use Rattle.sym_evaluation.specs.CheckView.{check_view};

use gil_values::{BinOp, Kind, UnOp};
use pure_terms::{Atom, Atoms, Literal, Term};
use sequence::Sequence;
use std::alloc::{AllocError, Global};
use std::rc::Rc;
use sym_model::{Alternatives, asked};

/// A check passes, fails, or asks.
#[derive(Debug, Drop)]
pub enum Check {
    Passes,
    Fails,
    Asks(Question),
}

/// A question is met where all of the first conditions are true, and isn't where one of the alternatives holds.
#[derive(Debug, Drop)]
pub struct Question {
    pub met: Atoms,
    pub unmet: Alternatives,
}

// ---- terms

fn unary_term(alloc: Global, op: UnOp, operand: &Term) -> Result<Term, AllocError>
    ensures { IfOk result (λ t. term_view t ≡ unary_of op (term_view operand.now)) }
{
    Ok(Term::Op1(op, Rc::new(alloc, operand.copy(alloc)?)?))
}

fn binary_term(alloc: Global, op: BinOp, left: Term, right: Term) -> Result<Term, AllocError>
    ensures { IfOk result (λ t. term_view t ≡ binary_of op (term_view left) (term_view right)) }
{
    let left = Rc::new(alloc, left)?;
    let right = Rc::new(alloc, right)?;
    Ok(Term::Op2(op, left, right))
}

/// `(kind(t) = K)`.
pub fn is_of_kind(alloc: Global, term: &Term, kind: Kind) -> Result<Term, AllocError>
    ensures { IfOk result (λ t. term_view t ≡ checks.is_of_kind (term_view term.now) kind) }
{
    let left = unary_term(alloc, UnOp::Kind, term)?;
    binary_term(alloc, BinOp::Equal, left, Term::Lit(Literal::Kind(kind)))
}

// ---- lists of atoms

fn only(alloc: Global, atom: Atom) -> Result<Atoms, AllocError>
    ensures { IfOk result (λ atoms. atoms_view atoms ≡ atom_view atom ∷ []) }
{
    let mut atoms = Sequence::new(alloc);
    atoms.push(atom)?;
    Ok(atoms)
}

/// The atoms, and then that the term is of neither kind.
fn and_neither(
    alloc: Global,
    atoms: Atoms,
    term: &Term,
    first: Kind,
    second: Kind,
) -> Result<Atoms, AllocError>
    ensures { IfOk result
        (λ all. atoms_view all ≡ atoms_view atoms ++ checks.none_of (term_view term.now) (first ∷ second ∷ [])) }
{
    let mut atoms = atoms;
    atoms.push(Atom::Not(is_of_kind(alloc, term, first)?))?;
    atoms.push(Atom::Not(is_of_kind(alloc, term, second)?))?;
    Ok(atoms)
}

/// The atoms, and then that the term is of no kind whose values have no length.
fn and_has_length(alloc: Global, atoms: Atoms, term: &Term) -> Result<Atoms, AllocError>
    ensures { IfOk result
        (λ all. atoms_view all ≡ atoms_view atoms ++ checks.none_of (term_view term.now) checks.kinds_without_length) }
{
    let atoms = and_neither(alloc, atoms, term, Kind::Int, Kind::Bool)?;
    let mut atoms = and_neither(alloc, atoms, term, Kind::Sym, Kind::Kind)?;
    atoms.push(Atom::Not(is_of_kind(alloc, term, Kind::Proc)?))?;
    Ok(atoms)
}

/// That the term is neither a text nor a list.
fn has_no_length(alloc: Global, term: &Term) -> Result<Atoms, AllocError>
    ensures { IfOk result (λ atoms. atoms_view atoms ≡ checks.none_of (term_view term.now) checks.kinds_with_length) }
{
    and_neither(alloc, Sequence::new(alloc), term, Kind::Str, Kind::List)
}

// ---- checks

fn decided(passes: bool) -> Check
    ensures { check_view result ≡ checks.decided passes }
{
    if passes { Check::Passes } else { Check::Fails }
}

/// Passes where the term is true.
fn needs(alloc: Global, term: Term) -> Result<Check, AllocError>
    ensures { IfOk result (λ c. check_view c ≡ checks.needs (term_view term)) }
{
    let unmet = asked(alloc, Atom::Not(term.copy(alloc)?))?;
    let met = only(alloc, Atom::Holds(term))?;
    Ok(Check::Asks(Question { met, unmet }))
}

/// Passes where the term is false.
fn needs_not(alloc: Global, term: Term) -> Result<Check, AllocError>
    ensures { IfOk result (λ c. check_view c ≡ checks.needs_not (term_view term)) }
{
    let unmet = asked(alloc, Atom::Holds(term.copy(alloc)?))?;
    let met = only(alloc, Atom::Not(term))?;
    Ok(Check::Asks(Question { met, unmet }))
}

/// Whether the term is of a kind.
pub fn kind_check(alloc: Global, kind: Kind, term: &Term) -> Result<Check, AllocError>
    ensures { IfOk result (λ c. check_view c ≡ checks.kind_check kind (term_view term.now)) }
{
    match term.known_kind() {
        Some(known) => Ok(decided(known == kind)),
        None => needs(alloc, is_of_kind(alloc, term, kind)?),
    }
}

fn has_length(kind: Kind) -> bool
    ensures { result ≡ checks.has_length kind }
{
    kind == Kind::Str || kind == Kind::List
}

/// Whether the term is a text or a list.
pub fn length_check(alloc: Global, term: &Term) -> Result<Check, AllocError>
    ensures { IfOk result (λ c. check_view c ≡ checks.length_check (term_view term.now)) }
{
    match term.known_kind() {
        Some(known) => Ok(decided(has_length(known))),
        None => {
            let met = and_has_length(alloc, Sequence::new(alloc), term)?;
            let mut unmet = Sequence::new(alloc);
            unmet.push(has_no_length(alloc, term)?)?;
            Ok(Check::Asks(Question { met, unmet }))
        }
    }
}

/// `(kind(s) = kind(t))`.
fn are_of_one_kind(alloc: Global, s: &Term, t: &Term) -> Result<Term, AllocError>
    ensures { IfOk result (λ u. term_view u ≡ checks.are_of_one_kind (term_view s.now) (term_view t.now)) }
{
    let left = unary_term(alloc, UnOp::Kind, s)?;
    let right = unary_term(alloc, UnOp::Kind, t)?;
    binary_term(alloc, BinOp::Equal, left, right)
}

fn ask_both(alloc: Global, s: &Term, t: &Term) -> Result<Check, AllocError>
    ensures { IfOk result (λ c. check_view c ≡ checks.append_check_by None None (term_view s.now) (term_view t.now)) }
{
    let same = are_of_one_kind(alloc, s, t)?;
    let mut unmet = asked(alloc, Atom::Not(same.copy(alloc)?))?;
    unmet.push(has_no_length(alloc, s)?)?;
    let met = and_has_length(alloc, only(alloc, Atom::Holds(same))?, s)?;
    Ok(Check::Asks(Question { met, unmet }))
}

/// Whether both terms are texts, or both are lists.
pub fn append_check(alloc: Global, s: &Term, t: &Term) -> Result<Check, AllocError>
    ensures { IfOk result (λ c. check_view c ≡ checks.append_check (term_view s.now) (term_view t.now)) }
{
    match (s.known_kind(), t.known_kind()) {
        (Some(kind), _) => {
            if has_length(kind) {
                kind_check(alloc, kind, t)
            } else {
                Ok(Check::Fails)
            }
        }
        (None, Some(kind)) => {
            if has_length(kind) {
                needs(alloc, is_of_kind(alloc, s, kind)?)
            } else {
                Ok(Check::Fails)
            }
        }
        (None, None) => ask_both(alloc, s, t),
    }
}

fn with_zero(alloc: Global, op: BinOp, term: &Term) -> Result<Term, AllocError>
    ensures { IfOk result (λ t. term_view t ≡ binary_of op (term_view term.now) checks.zero_term) }
{
    binary_term(alloc, op, term.copy(alloc)?, Term::Lit(Literal::Int(0)))
}

/// Whether a divisor is other than 0.
pub fn divisor_check(alloc: Global, term: &Term) -> Result<Check, AllocError>
    ensures { IfOk result (λ c. check_view c ≡ checks.divisor_check (term_view term.now)) }
{
    match term {
        Term::Lit(Literal::Int(n)) => Ok(decided(*n != 0)),
        _ => needs_not(alloc, with_zero(alloc, BinOp::Equal, term)?),
    }
}

/// Whether a place of a list is no number below 0.
pub fn start_check(alloc: Global, place: &Term) -> Result<Check, AllocError>
    ensures { IfOk result (λ c. check_view c ≡ checks.start_check (term_view place.now)) }
{
    match place {
        Term::Lit(Literal::Int(n)) => Ok(decided(*n >= 0)),
        _ => needs_not(alloc, with_zero(alloc, BinOp::Less, place)?),
    }
}

/// The length of a list, which the form of a list term tells.
fn length_of(alloc: Global, list: &Term) -> Result<Term, AllocError>
    ensures { IfOk result (λ t. term_view t ≡ checks.length_of (term_view list.now)) }
{
    match list {
        Term::List(elements) => Ok(Term::Lit(Literal::Int(elements.len() as i128))),
        _ => unary_term(alloc, UnOp::Len, list),
    }
}

/// Whether a place is below a length.
fn below_check(alloc: Global, place: &Term, length: Term) -> Result<Check, AllocError>
    ensures { IfOk result (λ c. check_view c ≡ checks.end_check_by (term_view place.now) (term_view length)) }
{
    match (place, &length) {
        (Term::Lit(Literal::Int(i)), Term::Lit(Literal::Int(n))) => Ok(decided(*i < *n)),
        _ => needs(
            alloc,
            binary_term(alloc, BinOp::Less, place.copy(alloc)?, length)?,
        ),
    }
}

/// Whether a place of a list is below its length.
pub fn end_check(alloc: Global, list: &Term, place: &Term) -> Result<Check, AllocError>
    ensures { IfOk result (λ c. check_view c ≡ checks.end_check (term_view list.now) (term_view place.now)) }
{
    let length = length_of(alloc, list)?;
    below_check(alloc, place, length)
}
