//! Proofs that the values of variables break a rule.
use crate::paths::{Paths, Told};
use crate::problems::Problem;
use crate::ranges::End;
use crate::rules::{Form, Pair, Rule, Side, different_lists, pair_of};
use crate::shapes::Shape;
use crate::trees::Tree;
use gil_values::BinOp;
use pure_terms::{Atom, Atoms, Term, Terms};
use solver_proof::{ChainEnd, Factor, Factors, Places, Proof, Proofs};
use std::alloc::{AllocError, Global};
use std::rc::Rc;

/// A node of a tree at which a rule is broken, and what leads there.
#[derive(Clone, Copy)]
pub(crate) struct Site<'a> {
    pub(crate) problem: &'a Problem,
    pub(crate) list: &'a Atoms,
    pub(crate) tree: &'a Tree,
    pub(crate) paths: &'a Paths,
    pub(crate) node: usize,
}

/// Two terms that are said to differ, at this place.
#[derive(Clone, Copy)]
struct Different<'a> {
    left: &'a Term,
    right: &'a Term,
    place: usize,
}

/// Adds a factor to those of other atoms, or to that of the same one.
fn add_factor(factors: &mut Vec<Factor>, atom: usize, factor: i128) -> Result<(), AllocError> {
    for place in 0..factors.len() {
        if factors[place].atom == atom {
            factors[place].factor = match factors[place].factor.checked_add(factor) {
                Some(sum) => sum,
                None => factor,
            };
            return Ok(());
        }
    }
    factors.push(Factor { atom, factor })?;
    Ok(())
}

fn sum_of(alloc: Global, all: Vec<Factor>) -> Result<Proof, AllocError> {
    let mut factors = Factors::new(alloc);
    for factor in all {
        factors.push(factor)?;
    }
    Ok(Proof::Sum(factors))
}

/// The term that a first one is at most a second one.
pub(crate) fn at_most(alloc: Global, left: &Term, right: &Term) -> Result<Term, AllocError> {
    let left = left.copy(alloc)?;
    let right = right.copy(alloc)?;
    Ok(Term::Op2(
        BinOp::LessOrEqual,
        Rc::new(alloc, left)?,
        Rc::new(alloc, right)?,
    ))
}

/// Whether an atom says that a term is at most another one.
fn is_at_most(atom: Option<&Atom>, left: &Term, right: &Term) -> bool {
    match atom {
        Some(Atom::Holds(Term::Op2(BinOp::LessOrEqual, low, high))) => {
            **low == *left && **high == *right
        }
        _ => false,
    }
}

/// The proof where a term is true, and where it is false.
pub(crate) fn split(
    alloc: Global,
    term: Term,
    first: Proof,
    second: Proof,
) -> Result<Proof, AllocError> {
    let first = Box::new(alloc, first)?;
    let second = Box::new(alloc, second)?;
    Ok(Proof::Split(term, first, second))
}

impl Site<'_> {
    fn told(&self, side: Side) -> Option<Told> {
        self.paths
            .told(self.problem, self.tree, self.node, side.variable?)
    }

    /// Adds the rows that bound a side.
    fn add_bound(
        &self,
        alloc: Global,
        factors: &mut Vec<Factor>,
        end: End,
        side: Side,
    ) -> Result<(), AllocError> {
        let Some(variable) = side.variable else {
            return Ok(());
        };
        let place = match (self.told(side), end) {
            (Some(told), End::Low) => told.low,
            (Some(told), End::High) => told.high,
            (None, _) => None,
        };
        if let Some(place) = place {
            return add_factor(factors, place, 1);
        }
        let reason = self
            .problem
            .ranges
            .reason(alloc, &self.problem.rules, end, variable)?;
        for followed in &reason {
            let factor = if followed.is_forwards { 1 } else { -1 };
            add_factor(factors, followed.place, factor)?;
        }
        Ok(())
    }

    /// The sum of the row at a place, which wants the left side to be at most the right one, or lower, with what bounds them.
    fn sum(
        &self,
        alloc: Global,
        place: usize,
        factor: i128,
        pair: Pair,
    ) -> Result<Proof, AllocError> {
        let mut factors: Vec<Factor> = Vec::new(alloc);
        add_factor(&mut factors, place, factor)?;
        self.add_bound(alloc, &mut factors, End::Low, pair.left)?;
        self.add_bound(alloc, &mut factors, End::High, pair.right)?;
        sum_of(alloc, factors)
    }

    /// The place where it is said that a number is at most another one, by an atom of the list or by a split.
    fn said_at_most(&self, left: &Term, right: &Term, pair: Pair) -> Option<usize> {
        if let Some(place) = self.split_at_most(left, right, pair) {
            return Some(place);
        }
        for (end, side) in [(End::High, pair.left), (End::Low, pair.right)] {
            if let Some(place) = self.bound_place(end, side) {
                if is_at_most(self.list.get(place), left, right) {
                    return Some(place);
                }
            }
        }
        None
    }

    /// The place of the atom that bounds a side.
    fn bound_place(&self, end: End, side: Side) -> Option<usize> {
        let bound = self.problem.ranges.at(end, side.variable?)?;
        Some(self.problem.rules.get(bound.rule)?.place)
    }

    /// The place of the split that says that a variable is at most the number that it is.
    fn split_at_most(&self, left: &Term, right: &Term, pair: Pair) -> Option<usize> {
        match (left, right) {
            (Term::Var(_), Term::Lit(_)) if self.number(pair.left) == Some(pair.right.plus) => {
                self.told(pair.left)?.high
            }
            _ => None,
        }
    }

    /// The proof that numbers which are said to differ are the same, where so many atoms stand before.
    fn numbers_meet(
        &self,
        alloc: Global,
        different: Different<'_>,
        pair: Pair,
        len: usize,
    ) -> Result<Proof, AllocError> {
        let Pair { left, right } = pair;
        let turned = Pair {
            left: right,
            right: left,
        };
        let up = self.said_at_most(different.left, different.right, pair);
        let down = self.said_at_most(different.right, different.left, turned);
        let next = if up.is_some() {
            len
        } else {
            len.saturating_add(1)
        };
        let meet = Proof::Meet(up.unwrap_or(len), down.unwrap_or(next), different.place);
        let mut proof = meet;
        if down.is_none() {
            let below = self.sum(alloc, next, 1, pair)?;
            let term = at_most(alloc, different.right, different.left)?;
            proof = split(alloc, term, proof, below)?;
        }
        if up.is_none() {
            let above = self.sum(alloc, len, 1, turned)?;
            let term = at_most(alloc, different.left, different.right)?;
            proof = split(alloc, term, proof, above)?;
        }
        Ok(proof)
    }

    /// The place of the split that says which truth value or kind a side has.
    fn literal_place(&self, side: Side) -> Option<usize> {
        self.told(side)?.low
    }

    /// The chain between two truth values or kinds, by these places.
    fn chain(
        &self,
        alloc: Global,
        pair: Pair,
        between: Option<usize>,
        end: ChainEnd,
    ) -> Result<Proof, AllocError> {
        let mut places = Places::new(alloc);
        for place in [
            self.literal_place(pair.left),
            between,
            self.literal_place(pair.right),
        ] {
            if let Some(place) = place {
                places.push(place)?;
            }
        }
        Ok(Proof::Chain(places, end))
    }

    /// The proof that two terms are the same that are said to differ.
    fn same(
        &self,
        alloc: Global,
        different: Different<'_>,
        len: usize,
    ) -> Result<Option<Proof>, AllocError> {
        let Some(pair) = pair_of(&self.problem.shapes, different.left, different.right) else {
            return Ok(None);
        };
        if pair.left.variable.is_none() && pair.right.variable.is_none() {
            return Ok(Some(Proof::False(different.place)));
        }
        if pair.left.shape != Shape::Number {
            let end = ChainEnd::Not(different.place);
            return Ok(Some(self.chain(alloc, pair, None, end)?));
        }
        Ok(Some(self.numbers_meet(alloc, different, pair, len)?))
    }

    /// The proof that no elements of two list terms differ.
    fn same_lists(
        &self,
        alloc: Global,
        place: usize,
        lefts: &Terms,
        rights: &Terms,
        len: usize,
    ) -> Result<Option<Proof>, AllocError> {
        let mut proofs = Proofs::new(alloc);
        for (index, left) in lefts.as_slice().iter().enumerate() {
            let Some(right) = rights.get(index) else {
                return Ok(None);
            };
            let different = Different {
                left,
                right,
                place: len,
            };
            match self.same(alloc, different, len.saturating_add(1))? {
                Some(proof) => proofs.push(proof)?,
                None => return Ok(None),
            }
        }
        Ok(Some(Proof::Differ(place, proofs)))
    }

    /// The proof that an equality of numbers is broken.
    fn apart(&self, alloc: Global, place: usize, pair: Pair) -> Result<Proof, AllocError> {
        if self.is_above(pair) {
            return self.sum(alloc, place, 1, pair);
        }
        let turned = Pair {
            left: pair.right,
            right: pair.left,
        };
        self.sum(alloc, place, -1, turned)
    }

    fn number(&self, side: Side) -> Option<i128> {
        match side.variable {
            Some(variable) => {
                let told = self.told(side)?;
                self.problem
                    .number(variable, told.value)
                    .checked_add(side.plus)
            }
            None => Some(side.plus),
        }
    }

    fn is_above(&self, pair: Pair) -> bool {
        match (self.number(pair.left), self.number(pair.right)) {
            (Some(left), Some(right)) => right < left,
            _ => false,
        }
    }

    /// The proof that an atom's disequality is broken.
    fn difference(
        &self,
        alloc: Global,
        place: usize,
        len: usize,
    ) -> Result<Option<Proof>, AllocError> {
        let Some(atom) = self.list.get(place) else {
            return Ok(None);
        };
        if let Some((lefts, rights)) = different_lists(atom) {
            return self.same_lists(alloc, place, lefts, rights, len);
        }
        match atom {
            Atom::Not(Term::Op2(BinOp::Equal, left, right)) => {
                self.same(alloc, Different { left, right, place }, len)
            }
            _ => Ok(None),
        }
    }

    /// The proof that a rule is broken, where so many atoms stand before.
    pub(crate) fn broken(
        &self,
        alloc: Global,
        rule: Rule,
        len: usize,
    ) -> Result<Option<Proof>, AllocError> {
        let Some(pair) = self.problem.rules.pair_of(rule) else {
            return Ok(None);
        };
        match rule.form {
            Form::AtMost(_) => Ok(Some(self.sum(alloc, rule.place, 1, pair)?)),
            Form::Equal => Ok(Some(self.apart(alloc, rule.place, pair)?)),
            Form::Same => {
                let between = Some(rule.place);
                Ok(Some(self.chain(alloc, pair, between, ChainEnd::Literals)?))
            }
            Form::Apart => self.difference(alloc, rule.place, len),
            Form::SomeApart => self.difference(alloc, rule.place, len),
        }
    }
}
