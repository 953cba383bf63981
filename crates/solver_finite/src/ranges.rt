//! The least and the greatest number of each variable, by the rules about orders and equalities, and which rule told each.
use crate::rules::{Form, Pair, Rule, Rules, Side};
use std::alloc::{AllocError, Global};

/// A number that bounds a variable, and the rule that says it.
#[derive(Clone, Copy)]
pub(crate) struct Bound {
    pub(crate) number: i128,
    pub(crate) rule: usize,
}

/// The bounds of each variable, where there are any.
#[derive(Drop)]
pub(crate) struct Ranges {
    lows: Vec<Option<Bound>>,
    highs: Vec<Option<Bound>>,
    /// Whether no rule tells more. Where orders form a cycle they may tell more each time.
    pub(crate) are_settled: bool,
}

/// Which bound of a variable is meant.
#[derive(Clone, Copy, PartialEq, Eq)]
pub(crate) enum End {
    Low,
    High,
}

/// A rule that was followed: its atom, and the sign of its row.
#[derive(Clone, Copy)]
pub(crate) struct Followed {
    pub(crate) place: usize,
    pub(crate) is_forwards: bool,
}

/// So often all rules are gone over.
const TURNS: usize = 100;

fn bound_at(bounds: &[Option<Bound>], place: usize) -> Option<Bound> {
    match bounds.get(place) {
        Some(bound) => *bound,
        None => None,
    }
}

fn put(bounds: &mut [Option<Bound>], place: usize, bound: Bound) {
    if place < bounds.len() {
        bounds[place] = Some(bound);
    }
}

fn none_of(alloc: Global, count: usize) -> Result<Vec<Option<Bound>>, AllocError> {
    let mut bounds: Vec<Option<Bound>> = Vec::with_capacity(alloc, count)?;
    for _place in 0..count {
        bounds.push(None)?;
    }
    Ok(bounds)
}

/// The number that a rule about `left - right + more` wants to be at most 0, forwards or backwards.
fn more_of(form: Form, is_forwards: bool) -> Option<i128> {
    match form {
        Form::AtMost(more) if is_forwards => Some(more),
        Form::Equal => Some(0),
        _ => None,
    }
}

/// The pair of a rule, forwards or backwards.
fn turned(pair: Pair, is_forwards: bool) -> Pair {
    if is_forwards {
        pair
    } else {
        Pair {
            left: pair.right,
            right: pair.left,
        }
    }
}

impl Ranges {
    pub(crate) fn at(&self, end: End, variable: usize) -> Option<Bound> {
        match end {
            End::Low => bound_at(self.lows.as_slice(), variable),
            End::High => bound_at(self.highs.as_slice(), variable),
        }
    }

    /// The least, or the greatest, number of a side.
    fn number_of(&self, end: End, side: Side) -> Option<i128> {
        match side.variable {
            Some(variable) => self.at(end, variable)?.number.checked_add(side.plus),
            None => Some(side.plus),
        }
    }

    /// Takes what is above a number out of a variable's range, and says whether that was something.
    fn lower(&mut self, variable: usize, number: Option<i128>, rule: usize) -> bool {
        let Some(number) = number else {
            return false;
        };
        match self.at(End::High, variable) {
            Some(old) if old.number <= number => false,
            _ => {
                put(self.highs.as_mut_slice(), variable, Bound { number, rule });
                true
            }
        }
    }

    /// Takes what is below a number out of a variable's range, and says whether that was something.
    fn raise(&mut self, variable: usize, number: Option<i128>, rule: usize) -> bool {
        let Some(number) = number else {
            return false;
        };
        match self.at(End::Low, variable) {
            Some(old) if number <= old.number => false,
            _ => {
                put(self.lows.as_mut_slice(), variable, Bound { number, rule });
                true
            }
        }
    }

    /// Follows `left + more <= right`.
    fn follow(&mut self, pair: Pair, more: i128, rule: usize) -> bool {
        let mut moved = false;
        if let Some(variable) = pair.left.variable {
            let high = difference(self.number_of(End::High, pair.right), more);
            moved = self.lower(variable, difference(high, pair.left.plus), rule);
        }
        if let Some(variable) = pair.right.variable {
            let low = sum(self.number_of(End::Low, pair.left), more);
            moved = self.raise(variable, difference(low, pair.right.plus), rule) || moved;
        }
        moved
    }

    fn follow_rule(&mut self, rules: &Rules, index: usize, rule: Rule) -> bool {
        let Some(pair) = rules.pair_of(rule) else {
            return false;
        };
        let mut moved = false;
        for is_forwards in [true, false] {
            if let Some(more) = more_of(rule.form, is_forwards) {
                if self.follow(turned(pair, is_forwards), more, index) {
                    moved = true;
                }
            }
        }
        moved
    }

    /// Follows each rule once, from the first or from the last one.
    fn pass(&mut self, rules: &Rules, from_last: bool) -> bool {
        let mut moved = false;
        let count = rules.rules.len();
        for turn in 0..count {
            let index = if from_last { count - (turn + 1) } else { turn };
            if let Some(rule) = rules.get(index) {
                if self.follow_rule(rules, index, rule) {
                    moved = true;
                }
            }
        }
        moved
    }

    /// The ranges of so many variables.
    pub(crate) fn new(alloc: Global, count: usize, rules: &Rules) -> Result<Ranges, AllocError> {
        let lows = none_of(alloc, count)?;
        let highs = none_of(alloc, count)?;
        let mut ranges = Ranges {
            lows,
            highs,
            are_settled: false,
        };
        for turn in 0..TURNS {
            if !ranges.pass(rules, turn % 2 == 1) {
                ranges.are_settled = true;
                return Ok(ranges);
            }
        }
        Ok(ranges)
    }

    /// The rules that lead to a bound of a variable.
    pub(crate) fn reason(
        &self,
        alloc: Global,
        rules: &Rules,
        end: End,
        variable: usize,
    ) -> Result<Vec<Followed>, AllocError> {
        let mut all: Vec<Followed> = Vec::new(alloc);
        let mut at = variable;
        for _step in 0..self.lows.len() {
            let Some((followed, next)) = self.before(rules, end, at) else {
                return Ok(all);
            };
            all.push(followed)?;
            match next {
                Some(next) => at = next,
                None => return Ok(all),
            }
        }
        Ok(all)
    }

    /// The rule that told a bound of a variable, and the variable from whose bound it came.
    fn before(
        &self,
        rules: &Rules,
        end: End,
        variable: usize,
    ) -> Option<(Followed, Option<usize>)> {
        let rule = rules.get(self.at(end, variable)?.rule)?;
        let pair = rules.pair_of(rule)?;
        let is_left = pair.left.variable == Some(variable);
        let is_forwards = match (rule.form, end) {
            (Form::AtMost(_), _) => true,
            (_, End::High) => is_left,
            (_, End::Low) => !is_left,
        };
        let other = if is_left { pair.right } else { pair.left };
        let followed = Followed {
            place: rule.place,
            is_forwards,
        };
        Some((followed, other.variable))
    }
}

fn sum(number: Option<i128>, by: i128) -> Option<i128> {
    match number {
        Some(number) => number.checked_add(by),
        None => None,
    }
}

fn difference(number: Option<i128>, by: i128) -> Option<i128> {
    match number {
        Some(number) => number.checked_sub(by),
        None => None,
    }
}
