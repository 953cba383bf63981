//! The sorts of new variables.
ghost use Rattle.std.specs.Prelude.{◌≡◌};
ghost use Rattle.sym_states.specs.Sorts.{declared_sort, IsCommon, IsNarrowed, IsSortOf};

use gil_syntax::{Param, Params, SpecSort};
use gil_values::Text;
use pure_terms::Sort;

/// The sort of variables that have the values of a declared sort.
fn declared(sort: SpecSort) -> Sort
    ensures { result ≡ declared_sort sort }
{
    match sort {
        SpecSort::Int => Sort::Int,
        SpecSort::Bool => Sort::Bool,
        SpecSort::Str => Sort::Str,
        SpecSort::Sym => Sort::Sym,
        SpecSort::List => Sort::List,
        SpecSort::Any => Sort::Any,
    }
}

/// The one of two sorts whose values are those that both have, if they have any.
fn common(first: Sort, second: Sort) -> Option<Sort>
    ensures { IsCommon first second result }
{
    match (first.kind(), second.kind()) {
        (None, _) => Some(second),
        (_, None) => Some(first),
        (Some(one), Some(other)) => { if one == other { Some(first) } else { None } }
    }
}

/// The sort with the values that a declaration leaves to a name, if it leaves any.
fn narrowed(sort: Sort, param: &Param, name: &Text) -> Option<Sort>
    ensures { IsNarrowed sort param.now name.now result }
{
    if param.name == *name {
        return common(sort, declared(param.sort));
    }
    Some(sort)
}

/// The sort with the values that all declarations leave to a name, if they leave any.
pub(crate) fn sort_of(params: &Params, name: &Text) -> Option<Sort>
    ensures { IsSortOf params.now name.now result }
{
    let mut sort = Sort::Any;
    for param in params.as_slice() {
        match narrowed(sort, param, name) {
            Some(left) => sort = left,
            None => return None,
        }
    }
    Some(sort)
}
