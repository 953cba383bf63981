//! What atoms say of classes of variables. This guides a guess, and no answer rests on it.
use crate::joining::Classes;
use crate::terms::{disequality_of, equality_of, kind_said, literal_of, truth_said, variable_of};
use gil_values::Kind;
use pure_terms::{Atom, Atoms, Literal, Term, VarTable};
use std::alloc::{AllocError, Global};

/// Where an atom has the literal.
#[derive(Clone, Copy)]
pub(crate) enum Side {
    Left,
    Right,
    /// The atom is a variable, which it says to be true or false.
    Alone(bool),
}

/// A variable is said to be equal to a literal by the atom at a place.
#[derive(Clone, Copy)]
pub(crate) struct Said {
    pub(crate) variable: usize,
    pub(crate) place: usize,
    pub(crate) side: Side,
}

/// What is known of a class.
#[derive(Clone, Copy)]
pub(crate) struct Fact {
    pub(crate) said: Option<Said>,
    pub(crate) kind: Option<Kind>,
    /// The kinds that its value doesn't have, as bits.
    pub(crate) barred: u16,
    /// What a truth value of the class may be.
    pub(crate) truth: bool,
    /// Its variable with the least number.
    pub(crate) least: usize,
}

/// What is known of each class, at the number of its root.
#[derive(Drop)]
pub(crate) struct Facts {
    pub(crate) items: Vec<Fact>,
}

/// Two literals that a class can't both have.
#[derive(Clone, Copy)]
pub(crate) struct Clash {
    pub(crate) first: Said,
    pub(crate) second: Said,
}

pub(crate) fn bit_of(kind: Kind) -> u16 {
    match kind {
        Kind::Int => 1,
        Kind::Bool => 2,
        Kind::Str => 4,
        Kind::Sym => 8,
        Kind::Kind => 16,
        Kind::Proc => 32,
        Kind::List => 64,
        Kind::Undef => 128,
        Kind::Null => 256,
    }
}

/// What the atom at a place says a variable to be.
fn said_by(atom: &Atom, place: usize) -> Option<Said> {
    if let Some((variable, truth)) = truth_said(atom) {
        return Some(Said {
            variable,
            place,
            side: Side::Alone(truth),
        });
    }
    let pair = equality_of(atom)?;
    if let (Some(variable), Some(_)) = (variable_of(pair.left), literal_of(pair.right)) {
        return Some(Said {
            variable,
            place,
            side: Side::Right,
        });
    }
    if let (Some(variable), Some(_)) = (variable_of(pair.right), literal_of(pair.left)) {
        return Some(Said {
            variable,
            place,
            side: Side::Left,
        });
    }
    None
}

/// The literal that is said, where it stands in an atom.
pub(crate) fn literal_said<'a>(list: &'a Atoms, said: Said) -> Option<&'a Literal> {
    let pair = equality_of(list.get(said.place)?)?;
    match said.side {
        Side::Left => literal_of(pair.left),
        Side::Right => literal_of(pair.right),
        Side::Alone(_) => None,
    }
}

/// The truth value that is said.
pub(crate) fn truth_of(list: &Atoms, said: Said) -> Option<bool> {
    if let Side::Alone(truth) = said.side {
        return Some(truth);
    }
    match literal_said(list, said) {
        Some(Literal::Bool(truth)) => Some(*truth),
        _ => None,
    }
}

/// Whether the same is said twice.
fn are_same(list: &Atoms, first: Said, second: Said) -> bool {
    match (truth_of(list, first), truth_of(list, second)) {
        (Some(one), Some(other)) => one == other,
        (None, None) => match (literal_said(list, first), literal_said(list, second)) {
            (Some(one), Some(other)) => *one == *other,
            _ => false,
        },
        _ => false,
    }
}

fn kind_of(list: &Atoms, said: Said) -> Option<Kind> {
    match literal_said(list, said) {
        Some(literal) => Some(literal.kind()),
        None => Some(Kind::Bool),
    }
}

impl Facts {
    /// The classes of the variables of a table, of which their sorts tell.
    pub(crate) fn new(
        alloc: Global,
        vars: &VarTable,
        classes: &Classes,
    ) -> Result<Facts, AllocError> {
        let mut items: Vec<Fact> = Vec::with_capacity(alloc, vars.len())?;
        for least in 0..vars.len() {
            items.push(Fact {
                said: None,
                kind: None,
                barred: 0,
                truth: true,
                least,
            })?;
        }
        let mut facts = Facts { items };
        for (variable, sort) in vars.as_slice().iter().enumerate() {
            facts.note_variable(classes.root(variable), variable, sort.kind());
        }
        Ok(facts)
    }

    pub(crate) fn get(&self, root: usize) -> Option<Fact> {
        self.items.get(root).copied()
    }

    fn put(&mut self, root: usize, fact: Fact) {
        if root < self.items.len() {
            self.items[root] = fact;
        }
    }

    fn note_variable(&mut self, root: usize, variable: usize, kind: Option<Kind>) {
        if let Some(mut fact) = self.get(root) {
            fact.least = fact.least.min(variable);
            if fact.kind.is_none() {
                fact.kind = kind;
            }
            self.put(root, fact);
        }
    }

    fn note_kind(&mut self, root: usize, kind: Kind, is_so: bool) {
        if let Some(mut fact) = self.get(root) {
            if is_so {
                if fact.kind.is_none() {
                    fact.kind = Some(kind);
                }
            } else {
                fact.barred |= bit_of(kind);
            }
            self.put(root, fact);
        }
    }

    fn note_denied(&mut self, root: usize, truth: bool) {
        if let Some(mut fact) = self.get(root) {
            fact.truth = !truth;
            self.put(root, fact);
        }
    }

    /// Notes a literal of a class, and gives it with another one that the class had.
    fn note_said(&mut self, list: &Atoms, root: usize, said: Said) -> Option<Clash> {
        let mut fact = self.get(root)?;
        if let Some(first) = fact.said {
            if are_same(list, first, said) {
                return None;
            }
            return Some(Clash {
                first,
                second: said,
            });
        }
        fact.said = Some(said);
        if fact.kind.is_none() {
            fact.kind = kind_of(list, said);
        }
        self.put(root, fact);
        None
    }

    fn note_sides(&mut self, classes: &Classes, left: &Term, right: &Term) {
        if let (Some(variable), Some(Literal::Bool(truth))) = (
            variable_of(left),
            literal_of(right),
        ) {
            self.note_denied(classes.root(variable), *truth);
        }
    }

    fn note_atom(&mut self, classes: &Classes, atom: &Atom) {
        if let Some(said) = kind_said(atom) {
            self.note_kind(classes.root(said.variable), said.kind, said.is_so);
        }
        if let Some(pair) = disequality_of(atom) {
            self.note_sides(classes, pair.left, pair.right);
            self.note_sides(classes, pair.right, pair.left);
        }
    }

    /// Notes what all atoms say, and gives two literals that clash.
    pub(crate) fn note(&mut self, classes: &Classes, list: &Atoms) -> Option<Clash> {
        for (place, atom) in list.as_slice().iter().enumerate() {
            self.note_atom(classes, atom);
            if let Some(said) = said_by(atom, place) {
                let clash = self.note_said(list, classes.root(said.variable), said);
                if clash.is_some() {
                    return clash;
                }
            }
        }
        None
    }
}
