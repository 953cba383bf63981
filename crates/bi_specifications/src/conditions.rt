//! The conditions of a path, by whether what they speak of was there at the beginning.
ghost use Rattle.std.specs.Prelude.{◌≡◌, ◌||◌, IfNone, IfSome, IfOk, IsTrue};
ghost use Rattle.pure_terms.specs.declared.variables.Sort.{Sort as PureSort};
ghost use Rattle.pure_terms.specs.Fragment.{has_fragment_form, names_sort};
ghost use Rattle.pure_terms.specs.Pure.{term_of};
ghost use Rattle.pure_terms.specs.View.{atoms_view};
ghost use Rattle.sym_model.specs.Lists.{Each};
ghost use Rattle.bi_specifications.specs.Shape.{early_conds, late_conds};

use bi_beginnings::stands_among;
use pure_terms::{Atoms, Sort, Term};
use sequence::Sequence;
use std::alloc::{AllocError, Global};

/// The conditions that name only variables of the beginning, of which there were so many, each once.
pub(crate) fn early_conditions(
    alloc: Global,
    conds: &Atoms,
    count: usize,
) -> Result<Atoms, AllocError>
    ensures { IfOk result (λ early. atoms_view early ≡ early_conds count (atoms_view conds.now)) }
{
    let mut early = Sequence::new(alloc);
    for condition in conds.as_slice() {
        if condition.term().names_only_below(count as u64) && !stands_among(&early, condition) {
            early.push(condition.copy(alloc)?)?;
        }
    }
    Ok(early)
}

/// The other conditions, each once.
pub(crate) fn late_conditions(
    alloc: Global,
    conds: &Atoms,
    count: usize,
) -> Result<Atoms, AllocError>
    ensures { IfOk result (λ late. atoms_view late ≡ late_conds count (atoms_view conds.now)) }
{
    let mut late = Sequence::new(alloc);
    for condition in conds.as_slice() {
        if !condition.term().names_only_below(count as u64) && !stands_among(&late, condition) {
            late.push(condition.copy(alloc)?)?;
        }
    }
    Ok(late)
}

/// The term of the first of these conditions that can't be said, since it has no form of the fragment or names no new symbol.
pub(crate) fn first_unsaid(alloc: Global, late: &Atoms) -> Result<Option<Term>, AllocError>
    ensures none { IfOk result (λ o. IfNone o (Each (λ a. IsTrue (has_fragment_form a) × IsTrue (names_sort PureSort.Fresh (term_of a)))
        (atoms_view late.now))) }
    ensures some { IfOk result (λ o. IfSome o (λ t. ¬ Each (λ a. IsTrue (has_fragment_form a) × IsTrue (names_sort PureSort.Fresh (term_of a)))
        (atoms_view late.now))) }
{
    for condition in late.as_slice() {
        if !condition.has_fragment_form() || !condition.term().names_sort(Sort::Fresh) {
            return Ok(Some(condition.term().copy(alloc)?));
        }
    }
    Ok(None)
}
