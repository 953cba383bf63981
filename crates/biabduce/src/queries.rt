//! The lists of conditions that no decider must decide.
ghost use Rattle.std.specs.Prelude.{◌≡◌, ◌++◌, ◌∷◌, [], IfOk};
ghost use Rattle.std.specs.List.{list_all};
ghost use Rattle.pure_terms.specs.Fragment.{has_fragment_form};
ghost use Rattle.pure_terms.specs.Pure.{opening};
ghost use Rattle.pure_terms.specs.View.{atom_view, atoms_view, term_view};
ghost use Rattle.sym_model.specs.Lists.{IsAmong};
ghost use Rattle.sym_model.specs.Pure.{sub_terms};
ghost use Rattle.sym_model.specs.View.{key_view};
ghost use Rattle.sym_paths.specs.Steps.{place_of as number_of_atom};
ghost use Rattle.biabduce.specs.Asked.{asked_of_end};

use gil_values::Place;
use pure_terms::{Atom, Atoms, Query, Reason, Term, VarTable};
use std::alloc::{AllocError, Global};
use sym_model::{SymKey, SymSub};
use sym_paths::Ended;

/// The number of the atom that a reason names.
pub(crate) fn number_of(reason: Reason) -> usize
    ensures { result ≡ number_of_atom reason }
{
    match reason {
        Reason::Atom(number) | Reason::Number(number) => number,
    }
}

/// Whether a path goes on.
pub(crate) fn ask_conditions(path: Ended, place: Place, outside: usize) -> Query
    ensures place { result.place ≡ place }
    ensures choices { result.path ≡ path.choices }
    ensures vars { result.vars ≡ path.vars }
    ensures given { atoms_view result.given ≡ atoms_view path.given }
    ensures query { atoms_view result.query ≡ atoms_view path.conds }
{
    let Ended {
        vars,
        conds,
        given,
        choices,
        end: _,
    } = path;
    Query {
        place,
        path: choices,
        vars,
        given,
        query: conds,
        outside,
    }
}

/// Which form a term has on a path.
pub(crate) fn ask_form(path: Ended, place: Place, term: Term) -> Result<Query, AllocError>
    ensures place { IfOk result (λ q. q.place ≡ place) }
    ensures choices { IfOk result (λ q. q.path ≡ path.choices) }
    ensures vars { IfOk result (λ q. q.vars ≡ path.vars) }
    ensures given { IfOk result (λ q. atoms_view q.given ≡ atoms_view path.given) }
    ensures query { IfOk result (λ q. atoms_view q.query ≡ atoms_view path.conds ++ opening (term_view term) ∷ []) }
{
    let outside = path.conds.len();
    let mut query = ask_conditions(path, place, outside);
    query.query.push(Atom::Open(term))?;
    Ok(query)
}

/// Whether each condition has a form of the fragment.
fn have_forms(conds: &Atoms) -> bool
    ensures { result ≡ list_all (λ a. has_fragment_form (atom_view a)) conds.now }
{
    conds.iter().all(|condition| condition.has_fragment_form())
}

/// The number of the first condition that has none.
fn first_without_form(conds: &Atoms) -> usize {
    let items = conds.as_slice();
    for number in 0..items.len() {
        if !items[number].has_fragment_form() {
            return number;
        }
    }
    0
}

/// What isn't decided of a path that can't be said: its conditions, where one of them has no form of the fragment. Else it is the term
/// that can't be said, a parameter that is named as the result, and its form is asked besides.
pub(crate) fn ask_end(path: Ended, place: Place, term: Term) -> Result<Query, AllocError>
    ensures place { IfOk result (λ q. q.place ≡ place) }
    ensures choices { IfOk result (λ q. q.path ≡ path.choices) }
    ensures vars { IfOk result (λ q. q.vars ≡ path.vars) }
    ensures given { IfOk result (λ q. atoms_view q.given ≡ atoms_view path.given) }
    ensures query { IfOk result (λ q. atoms_view q.query ≡ asked_of_end (atoms_view path.conds) (term_view term)) }
{
    if have_forms(&path.conds) {
        return ask_form(path, place, term);
    }
    let number = first_without_form(&path.conds);
    Ok(ask_conditions(path, place, number))
}

/// The first term of a key that names what isn't in a table, or else the key's location.
pub(crate) fn late_term(alloc: Global, vars: &VarTable, key: &SymKey) -> Result<Term, AllocError>
    ensures { IfOk result (λ t. IsAmong (term_view t) ((key_view key.now).loc ∷ sub_terms (key_view key.now).sub)) }
{
    if key.loc.is_over(vars) {
        match &key.sub {
            SymSub::Name(term) | SymSub::At(term) => {
                if !term.is_over(vars) {
                    return term.copy(alloc);
                }
            }
            _ => {}
        }
    }
    key.loc.copy(alloc)
}
