//! Where the splits stand by which a proof goes over the values of variables.
use crate::problems::Problem;
use crate::trees::{Node, Tree};
use std::alloc::{AllocError, Global};

/// How a node is reached.
#[derive(Clone, Copy)]
pub(crate) struct Reached {
    /// How many atoms stand before it, with those of the splits above.
    pub(crate) len: usize,
    /// The node above, which goes over the values of a variable, if there is one.
    above: Option<usize>,
    /// The value of that variable.
    value: usize,
}

/// The places of the splits that say which value a variable has: that it is at least its number, and at most. Where there is none
/// the list says it.
#[derive(Clone, Copy)]
pub(crate) struct Told {
    pub(crate) value: usize,
    pub(crate) low: Option<usize>,
    pub(crate) high: Option<usize>,
    /// How many atoms there are behind the splits.
    pub(crate) len: usize,
}

/// More halvings than numbers have.
const HALVINGS: usize = 64;

/// The splits by halves that lead to one of so many values, where so many atoms stand before.
fn halved(is_number: bool, size: usize, value: usize, len: usize) -> Told {
    let mut told = Told {
        value,
        low: None,
        high: None,
        len,
    };
    if !is_number {
        told.low = Some(len);
        told.high = Some(len);
        told.len = len.saturating_add(1);
        return told;
    }
    let mut low: usize = 0;
    let mut high = size.saturating_sub(1);
    for _halving in 0..HALVINGS {
        if high <= low {
            return told;
        }
        let middle = low + (high - low) / 2;
        if value <= middle {
            high = middle;
            told.high = Some(told.len);
        } else {
            low = middle.saturating_add(1);
            told.low = Some(told.len);
        }
        told.len = told.len.saturating_add(1);
    }
    told
}

/// How each node of a tree is reached from its root.
#[derive(Drop)]
pub(crate) struct Paths {
    reached: Vec<Option<Reached>>,
}

impl Paths {
    /// How the nodes below a root are reached, which stands behind so many atoms.
    pub(crate) fn new(
        alloc: Global,
        problem: &Problem,
        tree: &Tree,
        root: usize,
        len: usize,
    ) -> Result<Paths, AllocError> {
        let mut reached: Vec<Option<Reached>> = Vec::with_capacity(alloc, tree.len())?;
        for _node in 0..tree.len() {
            reached.push(None)?;
        }
        let mut paths = Paths { reached };
        paths.put(
            root,
            Reached {
                len,
                above: None,
                value: 0,
            },
        );
        let count = tree.len();
        for back in 0..count {
            let node = count - (back + 1);
            paths.reach_below(problem, tree, node);
        }
        Ok(paths)
    }

    fn put(&mut self, node: usize, reached: Reached) {
        if node < self.reached.len() {
            self.reached[node] = Some(reached);
        }
    }

    pub(crate) fn get(&self, node: usize) -> Option<Reached> {
        match self.reached.get(node) {
            Some(reached) => *reached,
            None => None,
        }
    }

    fn reach_below(&mut self, problem: &Problem, tree: &Tree, node: usize) {
        let Some(reached) = self.get(node) else {
            return;
        };
        let Some(Node::Each(variable, first)) = tree.get(node) else {
            return;
        };
        let size = problem.size(variable);
        for (value, below) in tree.below(problem, variable, first).iter().enumerate() {
            let told = halved(problem.is_number(variable), size, value, reached.len);
            self.put(
                *below,
                Reached {
                    len: told.len,
                    above: Some(node),
                    value,
                },
            );
        }
    }

    /// Which value a variable has at a node.
    pub(crate) fn told(
        &self,
        problem: &Problem,
        tree: &Tree,
        node: usize,
        variable: usize,
    ) -> Option<Told> {
        let mut at = node;
        for _step in 0..self.reached.len() {
            let reached = self.get(at)?;
            let above = reached.above?;
            let Node::Each(other, _) = tree.get(above)? else {
                return None;
            };
            if other == variable {
                let len = self.get(above)?.len;
                let size = problem.size(variable);
                return Some(halved(problem.is_number(variable), size, reached.value, len));
            }
            at = above;
        }
        None
    }

    /// How many atoms stand before the deepest node.
    pub(crate) fn deepest(&self) -> usize {
        let mut most: usize = 0;
        for reached in &self.reached {
            if let Some(found) = reached {
                most = most.max(found.len);
            }
        }
        most
    }
}
