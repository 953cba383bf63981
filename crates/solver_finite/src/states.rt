//! Which values of variables are left, and which are chosen.
use crate::lists::{add_to_count, count_at, counts_of, put_count};
use crate::problems::{Problem, breaks};
use std::alloc::{AllocError, Global};

/// A variable and one of its values.
#[derive(Clone, Copy)]
pub(crate) struct Barred {
    variable: usize,
    value: usize,
}

/// What is left of a problem.
#[derive(Drop)]
pub(crate) struct State {
    /// One more than the value of each variable, or 0 where none is chosen.
    pub(crate) chosen: Vec<usize>,
    /// One more than the rule that bars each value, or 0.
    barred_by: Vec<usize>,
    /// How many values of each variable aren't barred.
    left: Vec<usize>,
    /// Of how many variables of each rule no value is chosen.
    open: Vec<usize>,
    /// The barred values, the last one last.
    trail: Vec<Barred>,
    /// How often the rules of each variable left one without values.
    weights: Vec<usize>,
}

impl State {
    /// Nothing is chosen, and what rules over one variable bar is barred.
    pub(crate) fn new(alloc: Global, problem: &Problem) -> Result<State, AllocError> {
        let mut left = counts_of(alloc, problem.sizes.len(), 0)?;
        for variable in 0..problem.sizes.len() {
            put_count(left.as_mut_slice(), variable, problem.size(variable));
        }
        let mut state = State {
            chosen: counts_of(alloc, problem.sizes.len(), 0)?,
            barred_by: counts_of(alloc, problem.values(), 0)?,
            left,
            open: problem.open_counts(alloc)?,
            trail: Vec::new(alloc),
            weights: counts_of(alloc, problem.sizes.len(), 1)?,
        };
        for index in 0..state.open.len() {
            if count_at(state.open.as_slice(), index) == 1 {
                state.filter(problem, index)?;
            }
        }
        Ok(state)
    }

    pub(crate) fn barred_by(&self, problem: &Problem, variable: usize, value: usize) -> usize {
        count_at(self.barred_by.as_slice(), problem.place(variable, value))
    }

    /// How many values have been barred.
    pub(crate) fn mark(&self) -> usize {
        self.trail.len()
    }

    /// Chooses a value, and bars those that it leaves no room.
    pub(crate) fn choose(
        &mut self,
        problem: &Problem,
        variable: usize,
        value: usize,
    ) -> Result<(), AllocError> {
        put_count(
            self.chosen.as_mut_slice(),
            variable,
            value.saturating_add(1),
        );
        for index in problem.of_variables.of(variable) {
            let open = count_at(self.open.as_slice(), *index).saturating_sub(1);
            put_count(self.open.as_mut_slice(), *index, open);
        }
        for index in problem.of_variables.of(variable) {
            if count_at(self.open.as_slice(), *index) == 1 {
                self.filter(problem, *index)?;
            }
        }
        Ok(())
    }

    /// Takes the choice of a variable's value back, and what was barred since so many values were.
    pub(crate) fn take_back(&mut self, problem: &Problem, variable: usize, mark: usize) {
        if count_at(self.chosen.as_slice(), variable) != 0 {
            put_count(self.chosen.as_mut_slice(), variable, 0);
            for index in problem.of_variables.of(variable) {
                add_to_count(self.open.as_mut_slice(), *index, 1);
            }
        }
        for _count in mark..self.trail.len() {
            if let Some(barred) = self.trail.pop() {
                let place = problem.place(barred.variable, barred.value);
                put_count(self.barred_by.as_mut_slice(), place, 0);
                add_to_count(self.left.as_mut_slice(), barred.variable, 1);
            }
        }
    }

    /// The variable of a rule of which no value is chosen.
    fn open_variable(&self, problem: &Problem, index: usize) -> Option<usize> {
        for variable in problem.scopes.of(index) {
            if count_at(self.chosen.as_slice(), *variable) == 0 {
                return Some(*variable);
            }
        }
        None
    }

    /// Bars the values of a rule's last open variable that break it.
    fn filter(&mut self, problem: &Problem, index: usize) -> Result<(), AllocError> {
        let Some(rule) = problem.rules.get(index) else {
            return Ok(());
        };
        let Some(variable) = self.open_variable(problem, index) else {
            return Ok(());
        };
        for value in 0..problem.size(variable) {
            if self.barred_by(problem, variable, value) == 0 {
                put_count(
                    self.chosen.as_mut_slice(),
                    variable,
                    value.saturating_add(1),
                );
                if breaks(problem, self.chosen.as_slice(), rule) {
                    self.bar(problem, variable, value, index)?;
                }
            }
        }
        put_count(self.chosen.as_mut_slice(), variable, 0);
        if count_at(self.left.as_slice(), variable) == 0 {
            self.blame(problem, index);
        }
        Ok(())
    }

    fn bar(
        &mut self,
        problem: &Problem,
        variable: usize,
        value: usize,
        index: usize,
    ) -> Result<(), AllocError> {
        self.trail.push(Barred { variable, value })?;
        let place = problem.place(variable, value);
        put_count(
            self.barred_by.as_mut_slice(),
            place,
            index.saturating_add(1),
        );
        let left = count_at(self.left.as_slice(), variable).saturating_sub(1);
        put_count(self.left.as_mut_slice(), variable, left);
        Ok(())
    }

    /// The variables of a rule that left one without values weigh more.
    fn blame(&mut self, problem: &Problem, index: usize) {
        for variable in problem.scopes.of(index) {
            add_to_count(self.weights.as_mut_slice(), *variable, 1);
        }
    }

    /// Whether a variable is to be given a value.
    fn is_open(&self, problem: &Problem, variable: usize) -> bool {
        problem.size(variable) != 0
            && count_at(self.chosen.as_slice(), variable) == 0
            && !problem.of_variables.of(variable).is_empty()
    }

    /// The variable whose value is to be chosen next: one with at most one value left, else one with few for its weight.
    pub(crate) fn next_variable(&self, problem: &Problem) -> Option<usize> {
        let mut best: Option<usize> = None;
        let mut best_left: usize = 0;
        let mut best_weight: usize = 1;
        for variable in 0..problem.sizes.len() {
            if self.is_open(problem, variable) {
                let left = count_at(self.left.as_slice(), variable);
                let weight = count_at(self.weights.as_slice(), variable);
                if left == 0 {
                    return Some(variable);
                }
                let is_sure = left == 1;
                let is_better = best.is_none()
                    || (best_left != 1
                        && (is_sure
                            || left.saturating_mul(best_weight)
                                < best_left.saturating_mul(weight)));
                if is_better {
                    best = Some(variable);
                    best_left = left;
                    best_weight = weight;
                }
            }
        }
        best
    }
}
