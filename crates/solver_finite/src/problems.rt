//! The variables with few values, and the rules over them.
use crate::lists::{Grouped, add_to_count, count_at, counts_of, number_at, plus, put_count};
use crate::ranges::{End, Ranges};
use crate::rules::{Form, Pair, Rule, Rules, Side, rules_of};
use crate::shapes::{KINDS, Shape, Shapes};
use pure_terms::{Atoms, VarTable};
use std::alloc::{AllocError, Global};

/// Rules over variables, each of which has one of some values that stand one after another.
#[derive(Drop)]
pub(crate) struct Problem {
    pub(crate) rules: Rules,
    pub(crate) ranges: Ranges,
    /// The variables of each rule.
    pub(crate) scopes: Grouped,
    /// The rules of each variable.
    pub(crate) of_variables: Grouped,
    /// The least number of each variable.
    pub(crate) lows: Vec<i128>,
    /// How many values each variable has, and 0 where these are too many.
    pub(crate) sizes: Vec<usize>,
    /// Where the values of each variable begin, if all are put in one list.
    pub(crate) firsts: Vec<usize>,
    pub(crate) shapes: Shapes,
}

/// With more numbers in its range a variable isn't looked at.
const WIDEST: i128 = 4096;

/// So many numbers may be left of a variable's range where its rules order numbers.
const FEW: usize = 16;

/// So many may be left where they don't.
const MANY: usize = 256;

/// So many values all variables may have together.
const MOST: usize = 1_000_000;

/// How many values of a shape a variable has, where they are few.
fn size_of(shape: Option<Shape>, ranges: &Ranges, variable: usize) -> usize {
    match shape {
        Some(Shape::Number) if ranges.are_settled => numbers_in_range(ranges, variable),
        Some(Shape::Number) => 0,
        Some(Shape::Truth) => 2,
        Some(Shape::Kind) => KINDS.len(),
        None => 0,
    }
}

/// How many numbers a range has, where they are few.
fn numbers_in_range(ranges: &Ranges, variable: usize) -> usize {
    match (
        ranges.at(End::Low, variable),
        ranges.at(End::High, variable),
    ) {
        (Some(low), Some(high)) => match high.number.checked_sub(low.number) {
            Some(more) if 0 <= more && more < WIDEST => (more as usize).saturating_add(1),
            _ => 0,
        },
        _ => 0,
    }
}

fn low_of(shape: Option<Shape>, ranges: &Ranges, variable: usize) -> i128 {
    match (shape, ranges.at(End::Low, variable)) {
        (Some(Shape::Number), Some(low)) => low.number,
        _ => 0,
    }
}

/// The pairs from a place on.
fn since(pairs: &[(usize, usize)], first: usize) -> &[(usize, usize)] {
    if first <= pairs.len() {
        &pairs[first..]
    } else {
        &[]
    }
}

fn add_variable(
    index: usize,
    side: Side,
    first: usize,
    pairs: &mut Vec<(usize, usize)>,
) -> Result<(), AllocError> {
    let Some(variable) = side.variable else {
        return Ok(());
    };
    for (_, other) in since(pairs.as_slice(), first) {
        if *other == variable {
            return Ok(());
        }
    }
    pairs.push((index, variable))?;
    Ok(())
}

/// Each rule with each of its variables.
fn uses_of(alloc: Global, rules: &Rules) -> Result<Vec<(usize, usize)>, AllocError> {
    let mut uses: Vec<(usize, usize)> = Vec::new(alloc);
    for (index, rule) in rules.rules.iter().enumerate() {
        let first = uses.len();
        for pair in rules.pairs_of(*rule) {
            add_variable(index, pair.left, first, &mut uses)?;
            add_variable(index, pair.right, first, &mut uses)?;
        }
    }
    Ok(uses)
}

fn turned(alloc: Global, uses: &[(usize, usize)]) -> Result<Vec<(usize, usize)>, AllocError> {
    let mut all: Vec<(usize, usize)> = Vec::with_capacity(alloc, uses.len())?;
    for (rule, variable) in uses {
        all.push((*variable, *rule))?;
    }
    Ok(all)
}

impl Problem {
    /// What a list says of the variables of a table.
    pub(crate) fn new(alloc: Global, vars: &VarTable, list: &Atoms) -> Result<Problem, AllocError> {
        let shapes = Shapes::new(alloc, vars, list)?;
        let rules = rules_of(alloc, &shapes, list)?;
        let ranges = Ranges::new(alloc, vars.len(), &rules)?;
        let uses = uses_of(alloc, &rules)?;
        let scopes = Grouped::new(alloc, rules.rules.len(), uses.as_slice())?;
        let by_variables = turned(alloc, uses.as_slice())?;
        let of_variables = Grouped::new(alloc, vars.len(), by_variables.as_slice())?;
        let mut lows: Vec<i128> = Vec::with_capacity(alloc, vars.len())?;
        let mut sizes: Vec<usize> = Vec::with_capacity(alloc, vars.len())?;
        for variable in 0..vars.len() {
            let shape = shapes.shape(variable);
            lows.push(low_of(shape, &ranges, variable))?;
            sizes.push(size_of(shape, &ranges, variable))?;
        }
        let mut problem = Problem {
            rules,
            ranges,
            scopes,
            of_variables,
            lows,
            sizes,
            firsts: Vec::new(alloc),
            shapes,
        };
        problem.leave_wide(alloc)?;
        Ok(problem)
    }

    /// Leaves out the variables of which too many values are left, and counts where those of the others begin.
    fn leave_wide(&mut self, alloc: Global) -> Result<(), AllocError> {
        let mut firsts: Vec<usize> = Vec::with_capacity(alloc, self.sizes.len())?;
        let mut first: usize = 0;
        for variable in 0..self.sizes.len() {
            let size = self.size(variable);
            let few = self.few(variable);
            if few < size && few < self.values_left(variable, size) {
                put_count(self.sizes.as_mut_slice(), variable, 0);
            }
            if MOST < first.saturating_add(size) {
                put_count(self.sizes.as_mut_slice(), variable, 0);
            }
            firsts.push(first)?;
            first = first.saturating_add(self.size(variable));
        }
        self.firsts = firsts;
        Ok(())
    }

    /// How many values of a variable are few.
    fn few(&self, variable: usize) -> usize {
        for index in self.of_variables.of(variable) {
            if self.is_order(*index) {
                return FEW;
            }
        }
        MANY
    }

    /// How many values the rules about a variable alone leave it, of so many.
    fn values_left(&self, variable: usize, size: usize) -> usize {
        let mut barred: usize = 0;
        for index in self.of_variables.of(variable) {
            if self.scopes.of(*index).len() == 1 && self.is_about_one_value(*index) {
                barred = barred.saturating_add(1);
            }
        }
        size.saturating_sub(barred)
    }

    /// Whether a rule bars one value of its variable.
    fn is_about_one_value(&self, index: usize) -> bool {
        match self.rules.get(index) {
            Some(rule) => match rule.form {
                Form::Apart => true,
                _ => false,
            },
            None => false,
        }
    }

    /// How many values all variables have together.
    pub(crate) fn values(&self) -> usize {
        let mut sum: usize = 0;
        for size in &self.sizes {
            sum = sum.saturating_add(*size);
        }
        sum
    }

    pub(crate) fn size(&self, variable: usize) -> usize {
        count_at(self.sizes.as_slice(), variable)
    }

    /// Whether a variable is a whole number.
    pub(crate) fn is_number(&self, variable: usize) -> bool {
        self.shapes.shape(variable) == Some(Shape::Number)
    }

    /// The number of a variable's value.
    pub(crate) fn number(&self, variable: usize, value: usize) -> i128 {
        plus(number_at(self.lows.as_slice(), variable), value as i128)
    }

    /// Where a variable's value stands in the list of all values.
    pub(crate) fn place(&self, variable: usize, value: usize) -> usize {
        count_at(self.firsts.as_slice(), variable).saturating_add(value)
    }

    /// Whether a rule speaks of variables with few values alone.
    pub(crate) fn is_small(&self, index: usize) -> bool {
        for variable in self.scopes.of(index) {
            if self.size(*variable) == 0 {
                return false;
            }
        }
        true
    }

    /// Whether a rule over several variables speaks of an order or of equal numbers.
    pub(crate) fn is_order(&self, index: usize) -> bool {
        match self.rules.get(index) {
            Some(rule) => match rule.form {
                Form::AtMost(_) => 1 < self.scopes.of(index).len(),
                Form::Equal => 1 < self.scopes.of(index).len(),
                _ => false,
            },
            None => false,
        }
    }

    /// How many variables each rule speaks of, and none that is to be left out.
    pub(crate) fn open_counts(&self, alloc: Global) -> Result<Vec<usize>, AllocError> {
        let mut open = counts_of(alloc, self.rules.rules.len(), 0)?;
        for index in 0..self.rules.rules.len() {
            let count = if self.is_small(index) {
                self.scopes.of(index).len()
            } else {
                usize::MAX
            };
            add_to_count(open.as_mut_slice(), index, count);
        }
        Ok(open)
    }
}

/// The number of a side, with values of which each is one more than it is, or 0 where there is none.
fn number_of(problem: &Problem, chosen: &[usize], side: Side) -> Option<i128> {
    match side.variable {
        Some(variable) => {
            let value = count_at(chosen, variable);
            if value == 0 {
                return None;
            }
            problem.number(variable, value - 1).checked_add(side.plus)
        }
        None => Some(side.plus),
    }
}

/// The left number less the right one, where both are known.
pub(crate) fn distance(problem: &Problem, chosen: &[usize], pair: Pair) -> Option<i128> {
    let left = number_of(problem, chosen, pair.left)?;
    let right = number_of(problem, chosen, pair.right)?;
    left.checked_sub(right)
}

/// Whether values break a rule.
pub(crate) fn breaks(problem: &Problem, chosen: &[usize], rule: Rule) -> bool {
    for pair in problem.rules.pairs_of(rule) {
        let Some(distance) = distance(problem, chosen, *pair) else {
            return false;
        };
        match rule.form {
            Form::AtMost(more) => return 0 < plus(distance, more),
            Form::Equal => return distance != 0,
            Form::Same => return distance != 0,
            Form::Apart => return distance == 0,
            Form::SomeApart => {
                if distance != 0 {
                    return false;
                }
            }
        }
    }
    true
}
