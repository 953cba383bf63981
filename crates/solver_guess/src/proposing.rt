//! A guess at what is so of a list of atoms: values for its variables, or a proof by a chain of equalities. No answer rests on it.
use crate::facts::{Clash, Fact, Facts, Said, literal_said};
use crate::joining::Classes;
use crate::numbering::numbers_for;
use crate::terms::{disequality_of, equality_of, literal_of, variable_of};
use crate::values::values_by;
use pure_terms::{Atoms, Literal, Term, Valuation, VarTable};
use solver_proof::{ChainEnd, Places, Proof};
use std::alloc::{AllocError, Global};

/// What is guessed, and has to be tested.
#[derive(Drop)]
pub(crate) enum Proposal {
    Values(Valuation),
    Proof(Proof),
    Nothing,
}

/// Two variables of one class, and what leads on from each.
#[derive(Clone, Copy)]
struct Ends {
    first: usize,
    before: Option<usize>,
    second: usize,
    after: Option<usize>,
}

fn classes_of(alloc: Global, vars: &VarTable, list: &Atoms) -> Result<Classes, AllocError> {
    let mut classes = Classes::new(alloc, vars.len())?;
    for (place, atom) in list.as_slice().iter().enumerate() {
        if let Some(pair) = equality_of(atom) {
            if let (Some(left), Some(right)) = (variable_of(pair.left), variable_of(pair.right)) {
                classes.join(left, right, place);
            }
        }
    }
    Ok(classes)
}

fn chain_proof(
    alloc: Global,
    classes: &Classes,
    ends: Ends,
    end: ChainEnd,
) -> Result<Proof, AllocError> {
    let chain = classes.chain(alloc, ends.first, ends.second)?;
    let mut places = Places::new(alloc);
    if let Some(place) = ends.before {
        places.push(place)?;
    }
    for place in &chain {
        places.push(*place)?;
    }
    if let Some(place) = ends.after {
        places.push(place)?;
    }
    Ok(Proof::Chain(places, end))
}

/// The proof that a class can't have two literals.
fn clash_proof(alloc: Global, classes: &Classes, clash: Clash) -> Result<Proof, AllocError> {
    let ends = Ends {
        first: clash.first.variable,
        before: Some(clash.first.place),
        second: clash.second.variable,
        after: Some(clash.second.place),
    };
    chain_proof(alloc, classes, ends, ChainEnd::Literals)
}

fn has_said(list: &Atoms, fact: Fact, literal: &Literal) -> Option<Said> {
    let said = fact.said?;
    let other = literal_said(list, said)?;
    if *other == *literal { Some(said) } else { None }
}

/// How a variable and a literal are equated.
fn ends_at_literal(
    list: &Atoms,
    classes: &Classes,
    facts: &Facts,
    left: &Term,
    right: &Term,
) -> Option<Ends> {
    let first = variable_of(left)?;
    let literal = literal_of(right)?;
    let said = has_said(list, facts.get(classes.root(first))?, literal)?;
    Some(Ends {
        first,
        before: None,
        second: said.variable,
        after: Some(said.place),
    })
}

/// How two variables are equated.
fn ends_at_variables(classes: &Classes, left: &Term, right: &Term) -> Option<Ends> {
    let first = variable_of(left)?;
    let second = variable_of(right)?;
    if classes.root(first) != classes.root(second) {
        return None;
    }
    Some(Ends {
        first,
        before: None,
        second,
        after: None,
    })
}

/// How two terms are equated.
fn ends_of(
    list: &Atoms,
    classes: &Classes,
    facts: &Facts,
    left: &Term,
    right: &Term,
) -> Option<Ends> {
    if let Some(ends) = ends_at_variables(classes, left, right) {
        return Some(ends);
    }
    if let Some(ends) = ends_at_literal(list, classes, facts, left, right) {
        return Some(ends);
    }
    ends_at_literal(list, classes, facts, right, left)
}

/// A proof by a disequality of terms that are equated.
fn link_proof(
    alloc: Global,
    list: &Atoms,
    classes: &Classes,
    facts: &Facts,
) -> Result<Option<Proof>, AllocError> {
    for (place, atom) in list.as_slice().iter().enumerate() {
        if let Some(pair) = disequality_of(atom) {
            if let Some(ends) = ends_of(list, classes, facts, pair.left, pair.right) {
                return Ok(Some(chain_proof(alloc, classes, ends, ChainEnd::Not(place))?));
            }
        }
    }
    Ok(None)
}

/// Values, or a proof, or neither.
pub(crate) fn propose(
    alloc: Global,
    vars: &VarTable,
    list: &Atoms,
) -> Result<Proposal, AllocError> {
    let classes = classes_of(alloc, vars, list)?;
    let mut facts = Facts::new(alloc, vars, &classes)?;
    if let Some(clash) = facts.note(&classes, list) {
        return Ok(Proposal::Proof(clash_proof(alloc, &classes, clash)?));
    }
    if let Some(proof) = link_proof(alloc, list, &classes, &facts)? {
        return Ok(Proposal::Proof(proof));
    }
    match numbers_for(alloc, list, &classes, &facts)? {
        Some(numbers) => {
            let values = values_by(alloc, vars, list, &classes, &facts, &numbers)?;
            Ok(Proposal::Values(values))
        }
        None => Ok(Proposal::Nothing),
    }
}
