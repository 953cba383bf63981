//! The tree of what was tried without a solution.
use crate::problems::Problem;
use std::alloc::{AllocError, Global};

/// What shows that there is no solution below.
#[derive(Clone, Copy)]
pub(crate) enum Node {
    /// The values that are chosen above break this rule.
    Broken(usize),
    /// Nothing is found with any value of the variable. The nodes of its values stand one after another from this place.
    Each(usize, usize),
}

/// Nodes, each of which stands behind those below it.
#[derive(Drop)]
pub(crate) struct Tree {
    nodes: Vec<Node>,
    below: Vec<usize>,
}

impl Tree {
    pub(crate) fn new(alloc: Global) -> Tree {
        Tree {
            nodes: Vec::new(alloc),
            below: Vec::new(alloc),
        }
    }

    pub(crate) fn len(&self) -> usize {
        self.nodes.len()
    }

    pub(crate) fn get(&self, node: usize) -> Option<Node> {
        match self.nodes.get(node) {
            Some(found) => Some(*found),
            None => None,
        }
    }

    /// The nodes of the values of a variable, of which there are so many, from a place on.
    pub(crate) fn below(&self, problem: &Problem, variable: usize, first: usize) -> &[usize] {
        let end = first.saturating_add(problem.size(variable));
        if first <= end && end <= self.below.len() {
            &self.below[first..end]
        } else {
            &[]
        }
    }

    /// Adds that a rule is broken.
    pub(crate) fn add_broken(&mut self, rule: usize) -> Result<usize, AllocError> {
        let node = self.nodes.len();
        self.nodes.push(Node::Broken(rule))?;
        Ok(node)
    }

    /// Adds that nothing is found with any value of a variable.
    pub(crate) fn add_each(
        &mut self,
        variable: usize,
        below: &[usize],
    ) -> Result<usize, AllocError> {
        let node = self.nodes.len();
        let first = self.below.len();
        for index in below {
            self.below.push(*index)?;
        }
        self.nodes.push(Node::Each(variable, first))?;
        Ok(node)
    }
}
