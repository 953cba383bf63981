//! Lists of sorts.
ghost use Rattle.value_text.specs.Reading.{Gives};
ghost use Rattle.pure_terms.specs.declared.variables.Sort as sorts;
ghost use Rattle.report_parts.specs.Reading as spec;

use list_text::{Reader, list_at};
use pure_terms::Sort;
use sequence::Sequence;
use std::alloc::Global;
use value_text::{ReadFault, behind, expect};

struct SortReader;

impl Reader for SortReader {
    type Item = Sort;

    ghost Pure = { sorts.Sort };

    ghost view = { λ sort. sort };

    ghost reading = { spec.sort_at };

    fn item_at(_alloc: Global, bytes: &[u8]) -> Result<(Sort, &[u8]), ReadFault> {
        sort_at(bytes)
    }
}

/// The sorts at the front, in brackets.
pub(crate) fn sorts_at(alloc: Global, bytes: &[u8]) -> Result<(Sequence<Sort>, &[u8]), ReadFault>
    ensures { Gives (λ x. (x.0, x.1.now)) result (spec.sorts_at bytes.now) }
{
    list_at::<SortReader>(alloc, bytes)
}

/// The sort at the front.
fn sort_at(bytes: &[u8]) -> Result<(Sort, &[u8]), ReadFault>
    ensures { Gives (λ x. (x.0, x.1.now)) result (spec.sort_at bytes.now) }
{
    if let Some(rest) = behind("int", bytes) {
        return Ok((Sort::Int, rest));
    }
    if let Some(rest) = behind("bool", bytes) {
        return Ok((Sort::Bool, rest));
    }
    if let Some(rest) = behind("str", bytes) {
        return Ok((Sort::Str, rest));
    }
    if let Some(rest) = behind("sym", bytes) {
        return Ok((Sort::Sym, rest));
    }
    rarer_sort_at(bytes)
}

/// The sort at the front, if it is one of the others.
fn rarer_sort_at(bytes: &[u8]) -> Result<(Sort, &[u8]), ReadFault>
    ensures { Gives (λ x. (x.0, x.1.now)) result (spec.rarer_sort_at bytes.now) }
{
    if let Some(rest) = behind("list", bytes) {
        return Ok((Sort::List, rest));
    }
    if let Some(rest) = behind("any", bytes) {
        return Ok((Sort::Any, rest));
    }
    let rest = expect("fresh", bytes)?;
    Ok((Sort::Fresh, rest))
}
