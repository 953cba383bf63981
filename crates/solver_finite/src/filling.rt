//! Values for all variables, where some have values.
use crate::problems::{Problem, distance};
use crate::rules::{different_lists, pair_of};
use crate::shapes::{KINDS, Shape};
use gil_values::{BinOp, Kind};
use pure_terms::{Atom, Atoms, Literal, Sort, Term, Terms, Var, VarTable};
use std::alloc::{AllocError, Global};
use std::rc::Rc;

fn equality(alloc: Global, left: Term, right: Term) -> Result<Term, AllocError> {
    Ok(Term::Op2(BinOp::Equal, Rc::new(alloc, left)?, Rc::new(alloc, right)?))
}

fn kind_at(value: usize) -> Kind {
    match KINDS.get(value) {
        Some(kind) => *kind,
        None => Kind::Null,
    }
}

/// The atom that a variable has this value.
fn value_atom(
    alloc: Global,
    vars: &VarTable,
    problem: &Problem,
    variable: usize,
    value: usize,
) -> Result<Atom, AllocError> {
    let sort = match vars.get(variable) {
        Some(sort) => *sort,
        None => Sort::Any,
    };
    let number = variable as u64;
    let term = Term::Var(Var { number, sort });
    let literal = match problem.shapes.shape(variable) {
        Some(Shape::Truth) => Literal::Bool(value != 0),
        Some(Shape::Kind) => Literal::Kind(kind_at(value)),
        _ => Literal::Int(problem.number(variable, value)),
    };
    Ok(Atom::Holds(equality(alloc, term, Term::Lit(literal))?))
}

/// Whether two terms may differ, with what is chosen, and whether they surely do.
fn may_differ(problem: &Problem, chosen: &[usize], left: &Term, right: &Term) -> (bool, bool) {
    match pair_of(&problem.shapes, left, right) {
        Some(pair) => match distance(problem, chosen, pair) {
            Some(distance) => (distance != 0, distance != 0),
            None => (true, false),
        },
        None => (*left != *right, false),
    }
}

/// The first place of elements that surely differ, or else of such that may.
fn different_place(
    problem: &Problem,
    chosen: &[usize],
    lefts: &Terms,
    rights: &Terms,
) -> Option<usize> {
    let mut found: Option<usize> = None;
    for (place, left) in lefts.as_slice().iter().enumerate() {
        if let Some(right) = rights.get(place) {
            let (may, does) = may_differ(problem, chosen, left, right);
            if does {
                return Some(place);
            }
            if may && found.is_none() {
                found = Some(place);
            }
        }
    }
    found
}

/// The disequality of two elements by which list terms are to differ.
fn element_atom(
    alloc: Global,
    problem: &Problem,
    chosen: &[usize],
    atom: &Atom,
) -> Result<Option<Atom>, AllocError> {
    let Some((lefts, rights)) = different_lists(atom) else {
        return Ok(None);
    };
    let Some(place) = different_place(problem, chosen, lefts, rights) else {
        return Ok(None);
    };
    match (lefts.get(place), rights.get(place)) {
        (Some(left), Some(right)) => {
            let term = equality(alloc, left.copy(alloc)?, right.copy(alloc)?)?;
            Ok(Some(Atom::Not(term)))
        }
        _ => Ok(None),
    }
}

/// A list with the values that are chosen, and for each disequality of list terms one of elements.
pub(crate) fn filled_list(
    alloc: Global,
    vars: &VarTable,
    problem: &Problem,
    chosen: &[usize],
    list: &Atoms,
) -> Result<Atoms, AllocError> {
    let mut longer = Atoms::new(alloc);
    for atom in list.as_slice() {
        longer.push(atom.copy(alloc)?)?;
        if let Some(more) = element_atom(alloc, problem, chosen, atom)? {
            longer.push(more)?;
        }
    }
    for (variable, value) in chosen.iter().enumerate() {
        if *value != 0 {
            longer.push(value_atom(alloc, vars, problem, variable, *value - 1)?)?;
        }
    }
    Ok(longer)
}
