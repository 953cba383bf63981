//! The search for values of variables with few of them.
use crate::lists::{count_at, flags_of, is_at, put_flag};
use crate::problems::Problem;
use crate::states::State;
use crate::trees::Tree;
use std::alloc::{AllocError, Global};

/// What a search comes to.
#[derive(Drop)]
pub(crate) enum Outcome {
    /// For each variable one more than its value, or 0.
    Chosen(Vec<usize>),
    /// The root of the tree that shows that there are no values.
    Nothing(Tree, usize),
    /// It takes too long.
    Late,
}

/// A variable whose values are tried.
#[derive(Clone, Copy)]
struct Level {
    variable: usize,
    /// The value that is tried next.
    next: usize,
    /// How many values had been barred before.
    mark: usize,
    /// Where the nodes of its values begin.
    start: usize,
}

/// What is to be done next.
#[derive(Clone, Copy)]
enum Turn {
    /// Another variable is chosen.
    Deeper,
    /// The next value of the last variable is tried.
    Onwards,
    /// This node shows that there is nothing with the value that is tried.
    Back(usize),
    /// There is a solution.
    Found,
    /// This node shows that there is none.
    Shut(usize),
}

/// A search.
#[derive(Drop)]
struct Search {
    levels: Vec<Level>,
    /// The nodes of the values that have been tried at each level.
    nodes: Vec<usize>,
    /// For each level, which variables its nodes name.
    named: Vec<bool>,
    /// Which variables the last node names.
    carried: Vec<bool>,
    tree: Tree,
}

/// So many steps are made before the search begins anew with what it has learnt of variables' weights; each time there are more.
const FIRST_STEPS: usize = 2_000;

/// So often the search begins anew.
const ROUNDS: usize = 60;

/// So many steps are made where numbers are ordered, of which the steps of the solver tell more.
const FEW_STEPS: usize = 50_000;

/// The counts from a place on.
fn from_start(counts: &[usize], start: usize) -> &[usize] {
    if start <= counts.len() {
        &counts[start..]
    } else {
        &[]
    }
}

impl Search {
    fn new(alloc: Global, count: usize) -> Result<Search, AllocError> {
        Ok(Search {
            levels: Vec::new(alloc),
            nodes: Vec::new(alloc),
            named: Vec::new(alloc),
            carried: flags_of(alloc, count)?,
            tree: Tree::new(alloc),
        })
    }

    fn width(&self) -> usize {
        self.carried.len()
    }

    fn name_place(&self, level: usize, variable: usize) -> usize {
        level.saturating_mul(self.width()).saturating_add(variable)
    }

    /// Chooses the next variable.
    fn deeper(&mut self, problem: &Problem, state: &State) -> Result<Turn, AllocError> {
        let Some(variable) = state.next_variable(problem) else {
            return Ok(Turn::Found);
        };
        let place = self.name_place(self.levels.len(), 0);
        for _flag in self.named.len()..place.saturating_add(self.width()) {
            self.named.push(false)?;
        }
        for flag in 0..self.width() {
            put_flag(self.named.as_mut_slice(), place.saturating_add(flag), false);
        }
        self.levels.push(Level {
            variable,
            next: 0,
            mark: state.mark(),
            start: self.nodes.len(),
        })?;
        Ok(Turn::Onwards)
    }

    /// Tries the next value of the last variable.
    fn onwards(&mut self, problem: &Problem, state: &mut State) -> Result<Turn, AllocError> {
        let Some(level) = self.last_level() else {
            return Ok(Turn::Found);
        };
        state.take_back(problem, level.variable, level.mark);
        for value in level.next..problem.size(level.variable) {
            let barred_by = state.barred_by(problem, level.variable, value);
            if barred_by == 0 {
                self.put_next(value.saturating_add(1));
                state.choose(problem, level.variable, value)?;
                return Ok(Turn::Deeper);
            }
            self.add_broken(problem, level.variable, barred_by - 1)?;
        }
        self.close(level)
    }

    fn last_level(&self) -> Option<Level> {
        match self.levels.as_slice().last() {
            Some(level) => Some(*level),
            None => None,
        }
    }

    fn put_next(&mut self, next: usize) {
        let count = self.levels.len();
        if 0 < count {
            self.levels[count - 1].next = next;
        }
    }

    /// A rule bars the value.
    fn add_broken(
        &mut self,
        problem: &Problem,
        variable: usize,
        rule: usize,
    ) -> Result<(), AllocError> {
        let node = self.tree.add_broken(rule)?;
        self.nodes.push(node)?;
        let level = self.levels.len().saturating_sub(1);
        for other in problem.scopes.of(rule) {
            if *other != variable {
                let place = self.name_place(level, *other);
                put_flag(self.named.as_mut_slice(), place, true);
            }
        }
        Ok(())
    }

    /// All values of the last variable have been tried.
    fn close(&mut self, level: Level) -> Result<Turn, AllocError> {
        let below = from_start(self.nodes.as_slice(), level.start);
        let node = self.tree.add_each(level.variable, below)?;
        self.drop_level(level.start);
        let from = self.name_place(self.levels.len(), 0);
        for variable in 0..self.width() {
            let flag = is_at(self.named.as_slice(), from.saturating_add(variable));
            put_flag(self.carried.as_mut_slice(), variable, flag);
        }
        put_flag(self.carried.as_mut_slice(), level.variable, false);
        Ok(Turn::Back(node))
    }

    /// Takes the last level away, with its nodes.
    fn drop_level(&mut self, start: usize) {
        self.nodes.truncate(start);
        self.levels.pop();
    }

    /// A node shows that there is nothing with the value of the last variable, or with any value of it.
    fn back(
        &mut self,
        problem: &Problem,
        state: &mut State,
        node: usize,
    ) -> Result<Turn, AllocError> {
        let Some(level) = self.last_level() else {
            return Ok(Turn::Shut(node));
        };
        if is_at(self.carried.as_slice(), level.variable) {
            self.nodes.push(node)?;
            self.add_carried(level.variable);
            return Ok(Turn::Onwards);
        }
        state.take_back(problem, level.variable, level.mark);
        self.drop_level(level.start);
        Ok(Turn::Back(node))
    }

    /// The last level names what the last node does.
    fn add_carried(&mut self, variable: usize) {
        let level = self.levels.len().saturating_sub(1);
        let place = self.name_place(level, 0);
        for other in 0..self.width() {
            if other != variable && is_at(self.carried.as_slice(), other) {
                put_flag(self.named.as_mut_slice(), place.saturating_add(other), true);
            }
        }
    }

    fn step(
        &mut self,
        problem: &Problem,
        state: &mut State,
        turn: Turn,
    ) -> Result<Turn, AllocError> {
        match turn {
            Turn::Deeper => self.deeper(problem, state),
            Turn::Onwards => self.onwards(problem, state),
            Turn::Back(node) => self.back(problem, state, node),
            other => Ok(other),
        }
    }

    /// Takes all choices back.
    fn leave(&mut self, problem: &Problem, state: &mut State) {
        for _level in 0..self.levels.len() {
            if let Some(level) = self.levels.pop() {
                state.take_back(problem, level.variable, level.mark);
            }
        }
    }
}

/// Searches with so many steps.
fn search_within(
    alloc: Global,
    problem: &Problem,
    state: &mut State,
    steps: usize,
) -> Result<Outcome, AllocError> {
    let mut search = Search::new(alloc, problem.sizes.len())?;
    let mut turn = Turn::Deeper;
    for _step in 0..steps {
        turn = search.step(problem, state, turn)?;
        match turn {
            Turn::Found => return Ok(Outcome::Chosen(copied(alloc, state.chosen.as_slice())?)),
            Turn::Shut(root) => return Ok(Outcome::Nothing(search.tree, root)),
            _ => {}
        }
    }
    search.leave(problem, state);
    Ok(Outcome::Late)
}

fn copied(alloc: Global, counts: &[usize]) -> Result<Vec<usize>, AllocError> {
    let mut all: Vec<usize> = Vec::with_capacity(alloc, counts.len())?;
    for place in 0..counts.len() {
        all.push(count_at(counts, place))?;
    }
    Ok(all)
}

/// Whether rules order numbers of several variables.
fn has_orders(problem: &Problem) -> bool {
    for index in 0..problem.rules.rules.len() {
        if problem.is_small(index) && problem.is_order(index) {
            return true;
        }
    }
    false
}

/// Searches for values that break no rule over variables with few values, in about so many steps.
pub(crate) fn searched(
    alloc: Global,
    problem: &Problem,
    most: usize,
) -> Result<Outcome, AllocError> {
    let mut state = State::new(alloc, problem)?;
    let most = if has_orders(problem) {
        most.min(FEW_STEPS)
    } else {
        most
    };
    let mut steps = FIRST_STEPS;
    for _round in 0..ROUNDS {
        match search_within(alloc, problem, &mut state, steps.min(most))? {
            Outcome::Late => {}
            outcome => return Ok(outcome),
        }
        if most <= steps {
            return Ok(Outcome::Late);
        }
        steps = steps.saturating_add(steps / 2);
    }
    Ok(Outcome::Late)
}
