//! Which of a variable's values are looked at.
use gil_values::{BinOp, Kind, UnOp};
use pure_terms::{Atom, Atoms, Literal, Sort, Term, VarTable};
use std::alloc::{AllocError, Global};

/// What the values of a variable are.
#[derive(Clone, Copy, PartialEq, Eq)]
pub(crate) enum Shape {
    Number,
    Truth,
    Kind,
}

/// The shape of a variable, and the place of the atom that says it of a variable of sort any.
#[derive(Clone, Copy)]
pub(crate) struct Shaped {
    pub(crate) shape: Shape,
    pub(crate) place: Option<usize>,
}

/// The shapes of variables, where they have one.
#[derive(Drop)]
pub(crate) struct Shapes {
    shapes: Vec<Option<Shaped>>,
}

/// The kinds, in the order in which proofs go over them.
pub(crate) const KINDS: [Kind; 9] = [
    Kind::Int,
    Kind::Bool,
    Kind::Str,
    Kind::Sym,
    Kind::Kind,
    Kind::Proc,
    Kind::List,
    Kind::Undef,
    Kind::Null,
];

/// Where a kind stands in that order.
pub(crate) fn kind_number(kind: Kind) -> i128 {
    for (number, other) in KINDS.iter().enumerate() {
        if kind == *other {
            return number as i128;
        }
    }
    0
}

fn shape_of_sort(sort: Sort) -> Option<Shape> {
    match sort {
        Sort::Int => Some(Shape::Number),
        Sort::Bool => Some(Shape::Truth),
        _ => None,
    }
}

fn shape_of_kind(kind: Kind) -> Option<Shape> {
    match kind {
        Kind::Bool => Some(Shape::Truth),
        Kind::Kind => Some(Shape::Kind),
        _ => None,
    }
}

/// A variable of sort any of which an atom says a kind with few values, and which.
fn said(atom: &Atom) -> Option<(usize, Shape)> {
    match atom {
        Atom::Holds(Term::Op2(BinOp::Equal, left, right)) => match (&**left, &**right) {
            (Term::Op1(UnOp::Kind, of), Term::Lit(Literal::Kind(kind))) => match &**of {
                Term::Var(x) if x.sort == Sort::Any => match shape_of_kind(*kind) {
                    Some(shape) => Some((x.number as usize, shape)),
                    None => None,
                },
                _ => None,
            },
            _ => None,
        },
        _ => None,
    }
}

impl Shapes {
    /// The shapes of the variables of a table, with the kinds that a list says.
    pub(crate) fn new(alloc: Global, vars: &VarTable, list: &Atoms) -> Result<Shapes, AllocError> {
        let mut shapes: Vec<Option<Shaped>> = Vec::with_capacity(alloc, vars.len())?;
        for sort in vars.as_slice() {
            shapes.push(match shape_of_sort(*sort) {
                Some(shape) => Some(Shaped { shape, place: None }),
                None => None,
            })?;
        }
        for (place, atom) in list.as_slice().iter().enumerate() {
            if let Some((variable, shape)) = said(atom) {
                if variable < shapes.len() {
                    let place = Some(place);
                    shapes[variable] = Some(Shaped { shape, place });
                }
            }
        }
        Ok(Shapes { shapes })
    }

    pub(crate) fn get(&self, variable: usize) -> Option<Shaped> {
        match self.shapes.get(variable) {
            Some(shaped) => *shaped,
            None => None,
        }
    }

    pub(crate) fn shape(&self, variable: usize) -> Option<Shape> {
        match self.get(variable) {
            Some(shaped) => Some(shaped.shape),
            None => None,
        }
    }
}
