//! Combining alternatives.
ghost use Rattle.std.specs.Prelude.{◌≡◌, [], ◌∷◌, ◌++◌, map, IfOk, IsTrue};
ghost use Rattle.std.specs.List.{list_any};
ghost use Rattle.pure_terms.specs.Pure.{PureAtom};
ghost use Rattle.pure_terms.specs.View.{atom_view, atoms_view, term_view};
ghost use Rattle.sym_model.specs.Alternatives.{
  alternatives_view,
  never as no_alternative,
  always as no_condition,
  given,
  both as combined,
  is_empty,
  settled,
  with_form as with_form_of,
};

use pure_terms::{Atom, Atoms, Term};
use sequence::Sequence;
use std::alloc::{AllocError, Global};

/// Lists of conditions, which hold where all conditions of one of them are true. Contracts see them by
/// `alternatives_view`.
pub type Alternatives = Sequence<Atoms>;

/// No alternative, which never holds.
pub fn never(alloc: Global) -> Alternatives
    ensures { alternatives_view result ≡ no_alternative }
{
    Sequence::new(alloc)
}

/// One alternative without conditions, which always holds.
pub fn always(alloc: Global) -> Result<Alternatives, AllocError>
    ensures { IfOk result (λ x. alternatives_view x ≡ no_condition) }
{
    let mut alternatives = Sequence::new(alloc);
    alternatives.push(Sequence::new(alloc))?;
    Ok(alternatives)
}

/// One alternative of one condition.
pub fn asked(alloc: Global, condition: Atom) -> Result<Alternatives, AllocError>
    ensures { IfOk result (λ x. alternatives_view x ≡ given (atom_view condition)) }
{
    let mut conditions = Sequence::new(alloc);
    conditions.push(condition)?;
    let mut alternatives = Sequence::new(alloc);
    alternatives.push(conditions)?;
    Ok(alternatives)
}

/// An equal list of conditions.
pub fn copy_conditions(alloc: Global, conditions: &Atoms) -> Result<Atoms, AllocError>
    ensures { IfOk result (λ a. atoms_view a ≡ atoms_view conditions.now) }
{
    let mut copied = Sequence::new(alloc);
    for condition in conditions.as_slice() {
        copied.push(condition.copy(alloc)?)?;
    }
    Ok(copied)
}

/// The conditions of both lists.
fn join(alloc: Global, first: &Atoms, second: &Atoms) -> Result<Atoms, AllocError>
    ensures { IfOk result (λ a. atoms_view a ≡ atoms_view first.now ++ atoms_view second.now) }
{
    let mut joined = copy_conditions(alloc, first)?;
    for condition in second.as_slice() {
        joined.push(condition.copy(alloc)?)?;
    }
    Ok(joined)
}

/// The alternatives, and then each of the second ones behind the first conditions.
fn join_each(
    alloc: Global,
    alternatives: Alternatives,
    first: &Atoms,
    second: &Alternatives,
) -> Result<Alternatives, AllocError>
    ensures { IfOk result (λ x. alternatives_view x ≡ alternatives_view alternatives ++ map (λ b. atoms_view first.now ++ b)
        (alternatives_view second.now)) }
{
    let mut alternatives = alternatives;
    for conditions in second.as_slice() {
        alternatives.push(join(alloc, first, conditions)?)?;
    }
    Ok(alternatives)
}

/// The first alternatives and then the second ones, which hold where one of them does.
pub fn extend(
    alloc: Global,
    first: Alternatives,
    second: &Alternatives,
) -> Result<Alternatives, AllocError>
    ensures { IfOk result (λ x. alternatives_view x ≡ alternatives_view first ++ alternatives_view second.now) }
{
    let mut alternatives = first;
    for conditions in second.as_slice() {
        alternatives.push(copy_conditions(alloc, conditions)?)?;
    }
    Ok(alternatives)
}

/// One of the first and one of the second alternatives, which hold where both do.
pub fn both(
    alloc: Global,
    first: &Alternatives,
    second: &Alternatives,
) -> Result<Alternatives, AllocError>
    ensures { IfOk result (λ x. alternatives_view x ≡ combined (alternatives_view first.now) (alternatives_view second.now)) }
{
    let mut alternatives = Sequence::new(alloc);
    for conditions in first.as_slice() {
        alternatives = join_each(alloc, alternatives, conditions, second)?;
    }
    Ok(alternatives)
}

/// The alternatives, where besides the literal form of a term is needed.
pub fn with_form(
    alloc: Global,
    term: &Term,
    alternatives: &Alternatives,
) -> Result<Alternatives, AllocError>
    ensures { IfOk result (λ x. alternatives_view x ≡ with_form_of (term_view term.now) (alternatives_view alternatives.now)) }
{
    let mut opened = Sequence::new(alloc);
    opened.push(Atom::Open(term.copy(alloc)?))?;
    join_each(alloc, Sequence::new(alloc), &opened, alternatives)
}

/// Whether there is an alternative without conditions.
fn is_sure(alternatives: &Alternatives) -> bool
    ensures { result ≡ list_any is_empty (alternatives_view alternatives.now) }
{
    for conditions in alternatives.as_slice() {
        if conditions.len() == 0 {
            return true;
        }
    }
    false
}

/// The alternatives, of which one without conditions stands alone.
pub fn settle(alloc: Global, alternatives: Alternatives) -> Result<Alternatives, AllocError>
    ensures { IfOk result (λ x. alternatives_view x ≡ settled (alternatives_view alternatives)) }
{
    if is_sure(&alternatives) {
        return always(alloc);
    }
    Ok(alternatives)
}
