//! What is read of terms and atoms.
use gil_values::{BinOp, Kind, UnOp};
use pure_terms::{Atom, Literal, Sort, Term, Var};

/// A variable, or none, plus a number.
#[derive(Clone, Copy)]
pub(crate) struct Shift {
    pub(crate) variable: Option<usize>,
    pub(crate) plus: i128,
}

/// Two terms.
#[derive(Clone, Copy)]
pub(crate) struct Pair<'a> {
    pub(crate) left: &'a Term,
    pub(crate) right: &'a Term,
}

/// What an atom says of a variable's kind.
#[derive(Clone, Copy)]
pub(crate) struct KindSaid {
    pub(crate) variable: usize,
    pub(crate) kind: Kind,
    pub(crate) is_so: bool,
}

/// One number is at most another one, less a number.
#[derive(Clone, Copy)]
pub(crate) struct AtMost {
    pub(crate) low: Shift,
    pub(crate) high: Shift,
    pub(crate) more: i128,
}

pub(crate) fn place_of(variable: Var) -> usize {
    variable.number as usize
}

pub(crate) fn variable_of(term: &Term) -> Option<usize> {
    match term {
        Term::Var(variable) => Some(place_of(*variable)),
        _ => None,
    }
}

pub(crate) fn literal_of(term: &Term) -> Option<&Literal> {
    match term {
        Term::Lit(literal) => Some(literal),
        _ => None,
    }
}

fn number_of(term: &Term) -> Option<i128> {
    match term {
        Term::Lit(Literal::Int(number)) => Some(*number),
        _ => None,
    }
}

fn shift_of(variable: &Term, plus: Option<i128>) -> Option<Shift> {
    match (variable, plus) {
        (Term::Var(x), Some(plus)) if x.sort == Sort::Int => Some(Shift {
            variable: Some(place_of(*x)),
            plus,
        }),
        _ => None,
    }
}

fn opposite(number: Option<i128>) -> Option<i128> {
    match number {
        Some(number) => 0i128.checked_sub(number),
        None => None,
    }
}

/// A whole number as a variable plus a number.
pub(crate) fn number_side(term: &Term) -> Option<Shift> {
    match term {
        Term::Op2(BinOp::Add, s, t) => shift_of(s, number_of(t)),
        Term::Op2(BinOp::Subtract, s, t) => shift_of(s, opposite(number_of(t))),
        Term::Lit(Literal::Int(number)) => Some(Shift {
            variable: None,
            plus: *number,
        }),
        _ => shift_of(term, Some(0)),
    }
}

fn equal_sides(term: &Term) -> Option<Pair<'_>> {
    match term {
        Term::Op2(BinOp::Equal, left, right) => Some(Pair { left, right }),
        _ => None,
    }
}

/// The terms that an atom says to be equal.
pub(crate) fn equality_of(atom: &Atom) -> Option<Pair<'_>> {
    match atom {
        Atom::Holds(term) => equal_sides(term),
        _ => None,
    }
}

/// The terms that an atom says to be different.
pub(crate) fn disequality_of(atom: &Atom) -> Option<Pair<'_>> {
    match atom {
        Atom::Not(term) => equal_sides(term),
        _ => None,
    }
}

/// A variable that is true or false by itself.
pub(crate) fn truth_said(atom: &Atom) -> Option<(usize, bool)> {
    match atom {
        Atom::Holds(Term::Var(variable)) => Some((place_of(*variable), true)),
        Atom::Not(Term::Var(variable)) => Some((place_of(*variable), false)),
        _ => None,
    }
}

fn kind_of_sides(is_so: bool, left: &Term, right: &Term) -> Option<KindSaid> {
    match (left, right) {
        (Term::Op1(UnOp::Kind, of), Term::Lit(Literal::Kind(kind))) => match variable_of(of) {
            Some(variable) => Some(KindSaid {
                variable,
                kind: *kind,
                is_so,
            }),
            None => None,
        },
        _ => None,
    }
}

/// What an atom says of a variable's kind.
pub(crate) fn kind_said(atom: &Atom) -> Option<KindSaid> {
    match atom {
        Atom::Holds(Term::Op2(BinOp::Equal, left, right)) => kind_of_sides(true, left, right),
        Atom::Not(Term::Op2(BinOp::Equal, left, right)) => kind_of_sides(false, left, right),
        _ => None,
    }
}

fn at_most(low: &Term, high: &Term, more: i128) -> Option<AtMost> {
    match (number_side(low), number_side(high)) {
        (Some(low), Some(high)) => Some(AtMost { low, high, more }),
        _ => None,
    }
}

/// What an atom says of the order of two numbers.
pub(crate) fn order_said(atom: &Atom) -> Option<AtMost> {
    match atom {
        Atom::Holds(Term::Op2(BinOp::LessOrEqual, s, t)) => at_most(s, t, 0),
        Atom::Holds(Term::Op2(BinOp::Less, s, t)) => at_most(s, t, 1),
        Atom::Holds(Term::Op2(BinOp::Equal, s, t)) => at_most(s, t, 0),
        Atom::Not(Term::Op2(BinOp::LessOrEqual, s, t)) => at_most(t, s, 1),
        Atom::Not(Term::Op2(BinOp::Less, s, t)) => at_most(t, s, 0),
        _ => None,
    }
}

/// The other order of two numbers that an atom says to be equal.
pub(crate) fn order_back(atom: &Atom) -> Option<AtMost> {
    match atom {
        Atom::Holds(Term::Op2(BinOp::Equal, s, t)) => at_most(t, s, 0),
        _ => None,
    }
}

/// The numbers that an atom says to be different.
pub(crate) fn difference_said(atom: &Atom) -> Option<(Shift, Shift)> {
    let pair = disequality_of(atom)?;
    match (number_side(pair.left), number_side(pair.right)) {
        (Some(first), Some(second)) => Some((first, second)),
        _ => None,
    }
}
