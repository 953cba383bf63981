//! How long the texts and names of literals are, and longer ones.
ghost use Rattle.std.specs.Prelude.{◌≡◌, map, IfOk};
ghost use Rattle.pure_terms.specs.View.{term_view, atoms_view};
ghost use Rattle.equality_core.specs.Nodes.{node_view};
ghost use Rattle.equality_core.specs.Values.{letters_of, letters_of_term, letters_of_sides, AreShort, letters, HaveFewLetters};

use crate::nodes::Node;
use gil_values::Text;
use pure_terms::{Atoms, Literal, Term};
use std::alloc::{AllocError, Global};

fn letters_of(literal: &Literal) -> usize
    ensures { result ≡ letters_of literal.now }
{
    match literal {
        Literal::Str(text) => text.as_str().len(),
        Literal::Proc(name) => name.as_str().len(),
        Literal::Int(_) => 0,
        Literal::Bool(_) => 0,
        Literal::Kind(_) => 0,
    }
}

fn letters_of_term(term: &Term) -> usize
    ensures { result ≡ letters_of_term (term_view term.now) }
{
    match term {
        Term::Lit(literal) => letters_of(literal),
        Term::Var(_) => 0,
        Term::List(_) => 0,
        Term::Op1(_, _) => 0,
        Term::Op2(_, _, _) => 0,
    }
}

fn letters_of_sides(term: &Term) -> usize
    ensures { result ≡ letters_of_sides (term_view term.now) }
{
    match term {
        Term::Op2(_, left, right) => letters_of_term(left).max(letters_of_term(right)),
        Term::Lit(_) => 0,
        Term::Var(_) => 0,
        Term::List(_) => 0,
        Term::Op1(_, _) => 0,
    }
}

/// The most letters of a literal of a node.
pub(crate) fn longest_of_nodes(nodes: &[Node]) -> usize
    ensures { HaveFewLetters result (map node_view nodes.now) }
{
    let mut longest = 0;
    for node in nodes {
        longest = letters_of_term(&node.term).max(longest);
    }
    longest
}

/// The most letters of a literal that is a side of an atom.
pub(crate) fn longest_of_sides(atoms: &Atoms) -> usize
    ensures { AreShort result (atoms_view atoms.now) }
{
    let atoms = atoms.as_slice();
    let mut longest = 0;
    for atom in atoms {
        longest = letters_of_sides(atom.term()).max(longest);
    }
    longest
}

fn one_letter(alloc: Global) -> Result<Text, AllocError>
    ensures { IfOk result (λ t. t ≡ letters 1) }
{
    match Text::from_str(alloc, "a")? {
        Some(text) => Ok(text),
        None => unreachable!(),
    }
}

fn no_letters(alloc: Global) -> Result<Text, AllocError>
    ensures { IfOk result (λ t. t ≡ letters 0) }
{
    match Text::from_str(alloc, "")? {
        Some(text) => Ok(text),
        None => unreachable!(),
    }
}

/// A text of so many letters.
pub(crate) fn text_of(alloc: Global, count: usize) -> Result<Text, AllocError>
    ensures { IfOk result (λ t. t ≡ letters count) }
{
    let letter = one_letter(alloc)?;
    let mut text = no_letters(alloc)?;
    for _turn in 0..count {
        text.push_text(&letter)?;
    }
    Ok(text)
}
