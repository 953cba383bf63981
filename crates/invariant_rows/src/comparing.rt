//! Comparing lists of terms, uses, facts and bindings by what they are.
ghost use Rattle.std.specs.Prelude.{◌≡◌, IsTrue};
ghost use Rattle.pure_terms.specs.View.{terms_view};
ghost use Rattle.invariant_rows.specs.Remainders.{AreSameAt};
ghost use Rattle.sym_evaluation.specs.View.{binding_view, bindings_view};
ghost use Rattle.sym_model.specs.View.{use_view, uses_view};
ghost use Rattle.sym_states.specs.View.{fact_view, facts_view};

use pure_terms::Terms;
use sym_evaluation::Binding;
use sym_model::CoreUse;
use sym_states::PredChunk;

/// Whether two lists have the same term at a place.
fn has_same_term(left: &Terms, right: &Terms, place: usize) -> bool
    ensures { IsTrue result → AreSameAt (terms_view left.now) (terms_view right.now) place }
{
    match left.get(place) {
        Some(first) => match right.get(place) {
            Some(second) => *first == *second,
            None => false,
        },
        None => false,
    }
}

/// Whether two lists have the same terms.
pub(crate) fn are_same_terms(left: &Terms, right: &Terms) -> bool
    ensures { IsTrue result → terms_view left.now ≡ terms_view right.now }
{
    if left.len() != right.len() {
        return false;
    }
    for place in 0..left.len() {
        if !has_same_term(left, right, place) {
            return false;
        }
    }
    true
}

pub(crate) fn is_same_use(left: &CoreUse, right: &CoreUse) -> bool
    ensures { IsTrue result → use_view left.now ≡ use_view right.now }
{
    left.core == right.core
        && are_same_terms(&left.ins, &right.ins)
        && are_same_terms(&left.outs, &right.outs)
}

fn has_same_use(left: &[CoreUse], right: &[CoreUse], place: usize) -> bool
    ensures { IsTrue result → AreSameAt (uses_view left.now) (uses_view right.now) place }
{
    match left.get(place) {
        Some(first) => match right.get(place) {
            Some(second) => is_same_use(first, second),
            None => false,
        },
        None => false,
    }
}

/// Whether two lists have the same uses.
pub(crate) fn are_same_uses(left: &[CoreUse], right: &[CoreUse]) -> bool
    ensures { IsTrue result → uses_view left.now ≡ uses_view right.now }
{
    if left.len() != right.len() {
        return false;
    }
    for place in 0..left.len() {
        if !has_same_use(left, right, place) {
            return false;
        }
    }
    true
}

fn is_same_fact(left: &PredChunk, right: &PredChunk) -> bool
    ensures { IsTrue result → fact_view left.now ≡ fact_view right.now }
{
    left.pred == right.pred
        && are_same_terms(&left.ins, &right.ins)
        && are_same_terms(&left.outs, &right.outs)
}

fn has_same_fact(left: &[PredChunk], right: &[PredChunk], place: usize) -> bool
    ensures { IsTrue result → AreSameAt (facts_view left.now) (facts_view right.now) place }
{
    match left.get(place) {
        Some(first) => match right.get(place) {
            Some(second) => is_same_fact(first, second),
            None => false,
        },
        None => false,
    }
}

/// Whether two lists have the same facts.
pub(crate) fn are_same_facts(left: &[PredChunk], right: &[PredChunk]) -> bool
    ensures { IsTrue result → facts_view left.now ≡ facts_view right.now }
{
    if left.len() != right.len() {
        return false;
    }
    for place in 0..left.len() {
        if !has_same_fact(left, right, place) {
            return false;
        }
    }
    true
}

fn is_same_binding(left: &Binding, right: &Binding) -> bool
    ensures { IsTrue result → binding_view left.now ≡ binding_view right.now }
{
    left.name == right.name && left.term == right.term
}

fn has_same_binding(left: &[Binding], right: &[Binding], place: usize) -> bool
    ensures { IsTrue result → AreSameAt (bindings_view left.now) (bindings_view right.now) place }
{
    match left.get(place) {
        Some(first) => match right.get(place) {
            Some(second) => is_same_binding(first, second),
            None => false,
        },
        None => false,
    }
}

/// Whether two lists have the same names with the same terms.
pub(crate) fn are_same_bindings(left: &[Binding], right: &[Binding]) -> bool
    ensures { IsTrue result → bindings_view left.now ≡ bindings_view right.now }
{
    if left.len() != right.len() {
        return false;
    }
    for place in 0..left.len() {
        if !has_same_binding(left, right, place) {
            return false;
        }
    }
    true
}
