//! The atoms of which one holds where a list is split, and the proof that is made of proofs for each of them.
ghost use Rattle.std.specs.Prelude.{◌≡◌, ◌<◌, length, map, slice_get, Some, IfOk};
ghost use Rattle.gil_values.specs.declared.kinds.Kind.{Kind};
ghost use Rattle.pure_terms.specs.declared.literals.Literal.{Literal};
ghost use Rattle.pure_terms.specs.Pure.{literal, variable, from_list, positive};
ghost use Rattle.pure_terms.specs.View.{term_view, terms_view, atom_view, atoms_view};
ghost use Rattle.solver_proof.specs.Chains.{equals, kind_is};
ghost use Rattle.solver_proof.specs.Closing.{boolean_atoms, kind_value_atoms, element_disequalities};
ghost use Rattle.solver_proof.specs.View.{proof_view, proofs_view};
ghost use Rattle.solver_rules.specs.Steps.{ArePlain, IsOpenVariable, IsSmallFact, IsListDisequality};
ghost use Rattle.path_solver.specs.Searching.{AreBranches, joined_proof};

use crate::subjects::{different_lists, kind_said};
use gil_values::{BinOp, Kind, UnOp};
use pure_terms::{Atom, Atoms, Literal, Term, Terms, Var, VarTable};
use solver_proof::{Proof, Proofs};
use std::alloc::{AllocError, Global};
use std::rc::Rc;

/// How a list is split.
#[derive(Clone, Copy)]
pub(crate) enum Form {
    /// By the kinds of a variable.
    Cases(Var),
    /// By the values of the kind that the atom at this place says of a variable.
    Values(usize),
    /// By the elements of the list terms of which the atom at this place is a disequality.
    Differ(usize),
}

/// How a list is split, and the atoms of which one holds then.
#[derive(Drop)]
pub(crate) struct Branches {
    pub(crate) form: Form,
    pub(crate) atoms: Atoms,
}

/// The proof of a list that is split so, from a proof for each of the atoms.
pub(crate) fn joined(form: Form, proofs: Proofs) -> Proof
    ensures { proof_view result ≡ joined_proof form (proofs_view proofs) }
{
    match form {
        Form::Cases(subject) => Proof::Cases(Term::Var(subject), proofs),
        Form::Values(place) => Proof::Values(place, proofs),
        Form::Differ(place) => Proof::Differ(place, proofs),
    }
}

/// The kinds that values have.
const KINDS_OF_VALUES: [Kind; 7] = [
    Kind::Int,
    Kind::Bool,
    Kind::Str,
    Kind::Sym,
    Kind::Kind,
    Kind::Proc,
    Kind::List,
];

/// The kinds that are values.
const ALL_KINDS: [Kind; 9] = [
    Kind::Int,
    Kind::Bool,
    Kind::Str,
    Kind::Sym,
    Kind::Kind,
    Kind::Proc,
    Kind::List,
    Kind::Undef,
    Kind::Null,
];

/// A variable of sort any has one of the kinds.
#[inline(never)]
pub(crate) fn kinds_of(
    alloc: Global,
    vars: &VarTable,
    list: &Atoms,
    subject: Var,
) -> Result<Branches, AllocError>
    requires { IsOpenVariable vars.now (atoms_view list.now) subject }
    ensures { IfOk result (AreBranches vars.now (atoms_view list.now)) }
{
    let atoms = kind_tests(alloc, subject, KINDS_OF_VALUES.as_slice())?;
    Ok(Branches {
        form: Form::Cases(subject),
        atoms,
    })
}

/// The variable of which an atom says a kind with few values has one of them.
#[inline(never)]
pub(crate) fn values_at(
    alloc: Global,
    vars: &VarTable,
    list: &Atoms,
    place: usize,
) -> Result<Branches, AllocError>
    requires plain { ArePlain vars.now (atoms_view list.now) }
    requires small { IsSmallFact (atoms_view list.now) place }
    ensures { IfOk result (AreBranches vars.now (atoms_view list.now)) }
{
    match list.get(place) {
        Some(atom) => match kind_said(atom) {
            Some(said) => {
                let atoms = values_of(alloc, said.subject, said.kind)?;
                Ok(Branches {
                    form: Form::Values(place),
                    atoms,
                })
            }
            None => unreachable!(),
        },
        None => unreachable!(),
    }
}

/// Some elements of list terms that differ do.
#[inline(never)]
pub(crate) fn differences_at(
    alloc: Global,
    vars: &VarTable,
    list: &Atoms,
    place: usize,
) -> Result<Branches, AllocError>
    requires plain { ArePlain vars.now (atoms_view list.now) }
    requires lists { IsListDisequality (atoms_view list.now) place }
    ensures { IfOk result (AreBranches vars.now (atoms_view list.now)) }
{
    match list.get(place) {
        Some(atom) => match different_lists(atom) {
            Some(lists) => {
                let atoms = differences(alloc, lists.left, lists.right)?;
                Ok(Branches {
                    form: Form::Differ(place),
                    atoms,
                })
            }
            None => unreachable!(),
        },
        None => unreachable!(),
    }
}

/// The equalities of a variable with the values of a kind that has few.
fn values_of(alloc: Global, subject: Var, kind: Kind) -> Result<Atoms, AllocError>
    ensures booleans { kind ≡ Kind.Bool → IfOk result (λ atoms. atoms_view atoms ≡ boolean_atoms (variable subject)) }
    ensures kinds { kind ≡ Kind.Kind → IfOk result (λ atoms. atoms_view atoms ≡ kind_value_atoms (variable subject)) }
{
    match kind {
        Kind::Bool => truth_equalities(alloc, subject),
        _ => kind_equalities(alloc, subject, ALL_KINDS.as_slice()),
    }
}

fn truth_equalities(alloc: Global, subject: Var) -> Result<Atoms, AllocError>
    ensures { IfOk result (λ atoms. atoms_view atoms ≡ boolean_atoms (variable subject)) }
{
    let mut atoms = Atoms::new(alloc);
    atoms.push(value_atom(alloc, subject, Literal::Bool(true))?)?;
    atoms.push(value_atom(alloc, subject, Literal::Bool(false))?)?;
    Ok(atoms)
}

fn kind_equalities(alloc: Global, subject: Var, kinds: &[Kind]) -> Result<Atoms, AllocError>
    ensures { IfOk result (λ atoms. atoms_view atoms ≡ map (λ k. positive (equals (variable subject) (literal (Literal.Kind k)))) kinds.now) }
{
    let mut atoms = Atoms::new(alloc);
    for kind in kinds {
        atoms.push(value_atom(alloc, subject, Literal::Kind(*kind))?)?;
    }
    Ok(atoms)
}

fn kind_tests(alloc: Global, subject: Var, kinds: &[Kind]) -> Result<Atoms, AllocError>
    ensures { IfOk result (λ atoms. atoms_view atoms ≡ map (λ k. positive (kind_is (variable subject) k)) kinds.now) }
{
    let mut atoms = Atoms::new(alloc);
    for kind in kinds {
        atoms.push(kind_atom(alloc, subject, *kind)?)?;
    }
    Ok(atoms)
}

/// The disequalities of the elements of two list terms.
fn differences(alloc: Global, left: &Terms, right: &Terms) -> Result<Atoms, AllocError>
    ensures { IfOk result (λ atoms. atoms_view atoms ≡ element_disequalities (from_list (terms_view left.now)) (from_list (terms_view right.now))) }
{
    let mut atoms = Atoms::new(alloc);
    for index in 0..left.len().min(right.len()) {
        atoms.push(difference_at(alloc, left, right, index)?)?;
    }
    Ok(atoms)
}

/// The disequality of the elements of two list terms at a place.
fn difference_at(
    alloc: Global,
    left: &Terms,
    right: &Terms,
    place: usize,
) -> Result<Atom, AllocError>
    requires left { place < length (terms_view left.now) }
    requires right { place < length (terms_view right.now) }
    ensures { IfOk result (λ a. slice_get (element_disequalities (from_list (terms_view left.now)) (from_list (terms_view right.now))) place ≡ Some (atom_view a)) }
{
    match left.get(place) {
        Some(s) => match right.get(place) {
            Some(t) => {
                let difference = equality(alloc, s.copy(alloc)?, t.copy(alloc)?)?;
                Ok(Atom::Not(difference))
            }
            None => unreachable!(),
        },
        None => unreachable!(),
    }
}

/// The variable has this value.
fn value_atom(alloc: Global, subject: Var, value: Literal) -> Result<Atom, AllocError>
    ensures { IfOk result (λ a. atom_view a ≡ positive (equals (variable subject) (literal value))) }
{
    let term = equality(alloc, Term::Var(subject), Term::Lit(value))?;
    Ok(Atom::Holds(term))
}

/// The variable has this kind.
fn kind_atom(alloc: Global, subject: Var, kind: Kind) -> Result<Atom, AllocError>
    ensures { IfOk result (λ a. atom_view a ≡ positive (kind_is (variable subject) kind)) }
{
    let of = Term::Op1(UnOp::Kind, Rc::new(alloc, Term::Var(subject))?);
    let term = equality(alloc, of, Term::Lit(Literal::Kind(kind)))?;
    Ok(Atom::Holds(term))
}

/// The equality of two terms.
pub(crate) fn equality(alloc: Global, left: Term, right: Term) -> Result<Term, AllocError>
    ensures { IfOk result (λ t. term_view t ≡ equals (term_view left) (term_view right)) }
{
    Ok(Term::Op2(BinOp::Equal, Rc::new(alloc, left)?, Rc::new(alloc, right)?))
}
