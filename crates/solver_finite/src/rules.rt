//! What atoms say of truth values and whole numbers, as rules over variables.
use crate::shapes::{Shape, Shapes, kind_number};
use gil_values::BinOp;
use pure_terms::{Atom, Atoms, Literal, Term, Terms};
use std::alloc::{AllocError, Global};

/// A variable, or none, plus a number. Of the truth values, true is 1 and false is 0, and kinds are numbered.
#[derive(Clone, Copy)]
pub(crate) struct Side {
    pub(crate) variable: Option<usize>,
    pub(crate) plus: i128,
    pub(crate) shape: Shape,
}

/// Two sides of one shape.
#[derive(Clone, Copy)]
pub(crate) struct Pair {
    pub(crate) left: Side,
    pub(crate) right: Side,
}

/// What a rule says of its pairs.
#[derive(Clone, Copy)]
pub(crate) enum Form {
    /// The left side less the right one, plus this number, is at most 0.
    AtMost(i128),
    /// The left side less the right one is 0.
    Equal,
    /// Two truth values, or two kinds, are the same.
    Same,
    /// The sides differ.
    Apart,
    /// The sides of some pair differ; the pairs are of elements of list terms.
    SomeApart,
}

/// A rule that the atom at a place says of pairs which stand one after another.
#[derive(Clone, Copy)]
pub(crate) struct Rule {
    pub(crate) place: usize,
    pub(crate) form: Form,
    pub(crate) first: usize,
    pub(crate) count: usize,
}

/// Rules, and the pairs that they speak of.
#[derive(Drop)]
pub(crate) struct Rules {
    pub(crate) rules: Vec<Rule>,
    pub(crate) pairs: Vec<Pair>,
}

fn opposite(number: Option<i128>) -> Option<i128> {
    match number {
        Some(number) => 0i128.checked_sub(number),
        None => None,
    }
}

fn number_of(term: &Term) -> Option<i128> {
    match term {
        Term::Lit(Literal::Int(number)) => Some(*number),
        _ => None,
    }
}

/// A variable of a shape, plus a number.
fn shifted(shapes: &Shapes, variable: &Term, plus: Option<i128>) -> Option<Side> {
    let plus = plus?;
    match variable {
        Term::Var(x) => {
            let variable = x.number as usize;
            let shape = shapes.shape(variable)?;
            let variable = Some(variable);
            Some(Side {
                variable,
                plus,
                shape,
            })
        }
        _ => None,
    }
}

fn literal_side(literal: &Literal) -> Option<Side> {
    let (plus, shape) = match literal {
        Literal::Int(number) => (*number, Shape::Number),
        Literal::Bool(truth) => (if *truth { 1 } else { 0 }, Shape::Truth),
        Literal::Kind(kind) => (kind_number(*kind), Shape::Kind),
        _ => return None,
    };
    Some(Side {
        variable: None,
        plus,
        shape,
    })
}

/// A truth value, a kind or a whole number.
fn side_of(shapes: &Shapes, term: &Term) -> Option<Side> {
    match term {
        Term::Op2(BinOp::Add, s, t) => shifted(shapes, s, number_of(t)),
        Term::Op2(BinOp::Subtract, s, t) => shifted(shapes, s, opposite(number_of(t))),
        Term::Lit(literal) => literal_side(literal),
        _ => shifted(shapes, term, Some(0)),
    }
}

/// The sides that two terms are, where both are of one shape.
pub(crate) fn pair_of(shapes: &Shapes, left: &Term, right: &Term) -> Option<Pair> {
    let left = side_of(shapes, left)?;
    let right = side_of(shapes, right)?;
    if left.shape == right.shape {
        Some(Pair { left, right })
    } else {
        None
    }
}

/// The elements of the list terms of one length that an atom says to be different.
pub(crate) fn different_lists(atom: &Atom) -> Option<(&Terms, &Terms)> {
    match atom {
        Atom::Not(Term::Op2(BinOp::Equal, left, right)) => match (&**left, &**right) {
            (Term::List(left), Term::List(right)) if left.len() == right.len() => {
                Some((left, right))
            }
            _ => None,
        },
        _ => None,
    }
}

fn truth_pair(shapes: &Shapes, term: &Term, truth: bool) -> Option<(Form, Pair)> {
    let left = side_of(shapes, term)?;
    let right = literal_side(&Literal::Bool(truth))?;
    if left.shape == Shape::Truth {
        Some((Form::Same, Pair { left, right }))
    } else {
        None
    }
}

fn order(shapes: &Shapes, left: &Term, right: &Term, more: i128) -> Option<(Form, Pair)> {
    let pair = pair_of(shapes, left, right)?;
    if pair.left.shape == Shape::Number {
        Some((Form::AtMost(more), pair))
    } else {
        None
    }
}

fn equality(shapes: &Shapes, left: &Term, right: &Term) -> Option<(Form, Pair)> {
    let pair = pair_of(shapes, left, right)?;
    if pair.left.shape == Shape::Number {
        Some((Form::Equal, pair))
    } else {
        Some((Form::Same, pair))
    }
}

fn difference(shapes: &Shapes, left: &Term, right: &Term) -> Option<(Form, Pair)> {
    let pair = pair_of(shapes, left, right)?;
    Some((Form::Apart, pair))
}

/// What an atom says of one pair.
fn said(shapes: &Shapes, atom: &Atom) -> Option<(Form, Pair)> {
    match atom {
        Atom::Holds(Term::Op2(op, left, right)) => match *op {
            BinOp::LessOrEqual => order(shapes, left, right, 0),
            BinOp::Less => order(shapes, left, right, 1),
            BinOp::Equal => equality(shapes, left, right),
            _ => None,
        },
        Atom::Not(Term::Op2(op, left, right)) => match *op {
            BinOp::LessOrEqual => order(shapes, right, left, 1),
            BinOp::Less => order(shapes, right, left, 0),
            BinOp::Equal => difference(shapes, left, right),
            _ => None,
        },
        Atom::Holds(term) => truth_pair(shapes, term, true),
        Atom::Not(term) => truth_pair(shapes, term, false),
        _ => None,
    }
}

/// The pairs of the elements of two list terms, where all are pairs.
fn add_elements(
    shapes: &Shapes,
    left: &Terms,
    right: &Terms,
    pairs: &mut Vec<Pair>,
) -> Result<bool, AllocError> {
    for (place, term) in left.as_slice().iter().enumerate() {
        let Some(other) = right.get(place) else {
            return Ok(false);
        };
        match pair_of(shapes, term, other) {
            Some(pair) => pairs.push(pair)?,
            None => return Ok(false),
        }
    }
    Ok(true)
}

/// What the atoms of a list say.
pub(crate) fn rules_of(alloc: Global, shapes: &Shapes, list: &Atoms) -> Result<Rules, AllocError> {
    let mut rules: Vec<Rule> = Vec::new(alloc);
    let mut pairs: Vec<Pair> = Vec::new(alloc);
    for (place, atom) in list.as_slice().iter().enumerate() {
        let first = pairs.len();
        if let Some((left, right)) = different_lists(atom) {
            if add_elements(shapes, left, right, &mut pairs)? {
                rules.push(Rule {
                    place,
                    form: Form::SomeApart,
                    first,
                    count: left.len(),
                })?;
            }
        } else if let Some((form, pair)) = said(shapes, atom) {
            pairs.push(pair)?;
            rules.push(Rule {
                place,
                form,
                first,
                count: 1,
            })?;
        }
    }
    Ok(Rules { rules, pairs })
}

impl Rules {
    /// The pairs of a rule.
    pub(crate) fn pairs_of(&self, rule: Rule) -> &[Pair] {
        let end = rule.first.saturating_add(rule.count);
        if rule.first <= end && end <= self.pairs.len() {
            &self.pairs[rule.first..end]
        } else {
            &[]
        }
    }

    /// The only pair of a rule.
    pub(crate) fn pair_of(&self, rule: Rule) -> Option<Pair> {
        match self.pairs.get(rule.first) {
            Some(pair) => Some(*pair),
            None => None,
        }
    }

    pub(crate) fn get(&self, index: usize) -> Option<Rule> {
        match self.rules.get(index) {
            Some(rule) => Some(*rule),
            None => None,
        }
    }
}
