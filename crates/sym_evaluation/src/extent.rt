//! How deep and how large terms are.
ghost use Rattle.std.specs.Prelude.{◌≡◌, ◌+◌, ◌<◌, ◌≤◌, ◌⊎◌, ◌↔◌, IfNone, IfSome, IsTrue};
ghost use Rattle.pure_terms.specs.Pure.{from_list, size, sizes};
ghost use Rattle.pure_terms.specs.View.{term_view, terms_view};
ghost use Rattle.sym_evaluation.specs.Extent.{IsWithin, deepest, depth};

use pure_terms::{Term, Terms};

/// How deep the nodes of a name's term may stand. Terms are copied, compared, printed and let go by recursion, which takes stack
/// for each node on the way down.
pub const DEEPEST_TERM: usize = 1_000;

/// How many nodes a name's term may have. A term may share its parts, but what is asked of it takes time for each place at
/// which a part stands.
pub const MOST_TERM_NODES: usize = 32_768;

/// Whether a term is at most so deep and has at most so many nodes. At most so many of them are looked at.
pub(crate) fn is_within(term: &Term, limit: usize, most: usize) -> bool
    ensures { IsTrue result ↔ IsWithin limit most (term_view term.now) }
{
    nodes_left(term, limit, most).is_some()
}

/// How many nodes are left of so many when those of a term are taken away, where there are as many and none stands too deep.
#[cycle(extent)]
fn nodes_left(term: &Term, limit: usize, most: usize) -> Option<usize>
    ensures shallow { IfSome result (λ left. depth (term_view term.now) ≤ limit) }
    ensures small { IfSome result (λ left. size (term_view term.now) + left ≡ most) }
    ensures beyond { IfNone result ((limit < depth (term_view term.now)) ⊎ (most < size (term_view term.now))) }
{
    if most == 0 {
        return None;
    }
    match term {
        Term::Lit(_) | Term::Var(_) => Some(most - 1),
        _ if limit == 0 => None,
        Term::List(terms) => nodes_left_of_all(terms, limit - 1, most - 1),
        Term::Op1(_, operand) => nodes_left(operand, limit - 1, most - 1),
        Term::Op2(_, left, right) => {
            let most = nodes_left(left, limit - 1, most - 1)?;
            nodes_left(right, limit - 1, most)
        }
    }
}

#[cycle(extent)]
fn nodes_left_of_all(terms: &Terms, limit: usize, most: usize) -> Option<usize>
    ensures shallow { IfSome result (λ left. deepest (from_list (terms_view terms.now)) ≤ limit) }
    ensures small { IfSome result (λ left. sizes (from_list (terms_view terms.now)) + left ≡ most) }
    ensures beyond { IfNone result ((limit < deepest (from_list (terms_view terms.now))) ⊎ (most < sizes (from_list (terms_view terms.now)))) }
{
    let mut left = most;
    for term in terms.as_slice() {
        left = nodes_left(term, limit, left)?;
    }
    Some(left)
}
