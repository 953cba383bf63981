//! The kinds of variables, as their classes tell.
ghost use Rattle.std.specs.Prelude.{◌≡◌, None, IfOk, IfSome, IfNone};
ghost use Rattle.gil_values.specs.declared.kinds.Kind.{Kind};
ghost use Rattle.pure_terms.specs.declared.variables.Sort.{Sort};
ghost use Rattle.pure_terms.specs.Kinds.{known_kind};
ghost use Rattle.pure_terms.specs.Pure.{variable};
ghost use Rattle.pure_terms.specs.View.{term_view, atom_view};
ghost use Rattle.solver_rules.specs.Nodes.{vars_of, classes_of, IsNodeOf};
ghost use Rattle.solver_rules.specs.Kinds.{IsKindSaid, AreFound};
ghost use Rattle.solver_rules.specs.Rules.{HasKind, HasKindFact};

use crate::nodes::Node;
use crate::pairs::fact_of;
use equality_core::{Kinds, Wanted};
use gil_values::Kind;
use pure_terms::{Atom, Term, Var};
use std::alloc::{AllocError, Global};

/// The kinds of all variables, or a variable whose kind isn't told.
#[derive(Drop)]
pub enum KindsFound {
    All(Kinds),
    Open(Var),
}

/// The kind that an atom says of a term that is equated with this one.
fn kind_at(node: &Node<'_>, term: &Term, atom: &Atom) -> Option<Kind>
    requires { IsNodeOf node.now }
    ensures found { IfSome result (IsKindSaid (classes_of node.now) (term_view term.now) (atom_view atom.now)) }
    ensures none { IfNone result ((k : Kind) → IsKindSaid (classes_of node.now) (term_view term.now) (atom_view atom.now) k → ⊥) }
{
    match fact_of(atom) {
        Some(fact) => {
            if !fact.is_so {
                return None;
            }
            if !node.classes.equates(term, fact.subject) {
                return None;
            }
            Some(fact.kind)
        }
        None => None,
    }
}

/// The kind that some atom says of a term that is equated with this one.
fn said_kind(node: &Node<'_>, term: &Term) -> Option<Kind>
    requires { IsNodeOf node.now }
    ensures found { IfSome result (HasKindFact (classes_of node.now) (term_view term.now)) }
    ensures none { IfNone result ((k : Kind) → HasKindFact (classes_of node.now) (term_view term.now) k → ⊥) }
{
    let atoms = node.list.as_slice();
    for atom in atoms {
        if let Some(kind) = kind_at(node, term, atom) {
            return Some(kind);
        }
    }
    None
}

/// The kind of a term, as its class tells.
fn kind_of(node: &Node<'_>, term: &Term) -> Option<Kind>
    requires { IsNodeOf node.now }
    ensures found { IfSome result (HasKind (classes_of node.now) (term_view term.now)) }
    ensures none { IfNone result (known_kind (term_view term.now) ≡ None) }
    ensures unsaid { IfNone result ((k : Kind) → HasKindFact (classes_of node.now) (term_view term.now) k → ⊥) }
{
    match node.classes.first_in_class(term, Wanted::KnownKind) {
        Some(known) => known.known_kind(),
        None => said_kind(node, term),
    }
}

/// The kind of a variable of a table.
fn kind_of_variable(node: &Node<'_>, x: Var) -> Option<Kind>
    requires { IsNodeOf node.now }
    ensures found { IfSome result (HasKind (classes_of node.now) (variable x)) }
    ensures none { IfNone result (x.sort ≡ Sort.Any) }
    ensures unsaid { IfNone result ((k : Kind) → HasKindFact (classes_of node.now) (variable x) k → ⊥) }
{
    let term = Term::Var(x);
    kind_of(node, &term)
}

/// The kinds of all variables.
pub fn kinds_of(alloc: Global, node: &Node<'_>) -> Result<KindsFound, AllocError>
    requires { IsNodeOf node.now }
    ensures { IfOk result (AreFound (vars_of node.now) (classes_of node.now)) }
{
    let sorts = node.vars.as_slice();
    let mut kinds = Kinds::new(alloc);
    for (number, sort) in sorts.iter().enumerate() {
        let x = Var {
            number: number as u64,
            sort: *sort,
        };
        match kind_of_variable(node, x) {
            Some(kind) => kinds.push(kind)?,
            None => return Ok(KindsFound::Open(x)),
        }
    }
    Ok(KindsFound::All(kinds))
}
