//! A list of atoms with the classes of its terms.
use equality_core::Classes;
use pure_terms::{Atoms, Valuation, VarTable};

/// A list of atoms over a table, with the classes of its terms, and numbers of its Int variables.
#[derive(Clone, Copy)]
pub struct Node<'a> {
    pub vars: &'a VarTable,
    pub list: &'a Atoms,
    pub classes: &'a Classes,
    pub numbers: &'a Valuation,
}
