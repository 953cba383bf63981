//! The variables of a specification.
ghost use Rattle.std.specs.Prelude.{◌≡◌, [], ◌∷◌, ◌++◌, IfOk, OnOk};
ghost use Rattle.gil_syntax.specs.Valid.{is_among, param_names};
ghost use Rattle.gil_syntax.specs.View.{spec_view};
ghost use Rattle.spec_vacuity.specs.Translation.{is_own_variable, sort_of, table_of, variable_from, variables_of};

use crate::names::stands_in_items;
use gil_syntax::{Param, Params, Spec, SpecSort};
use gil_values::Text;
use pure_terms::{Sort, Var, VarTable};
use sequence::Sequence;
use std::alloc::{AllocError, Global};

/// The sort of a variable that stands for what is declared.
fn sort_of(sort: SpecSort) -> Sort
    ensures { result ≡ sort_of sort }
{
    match sort {
        SpecSort::Int => Sort::Int,
        SpecSort::Bool => Sort::Bool,
        SpecSort::Str => Sort::Str,
        SpecSort::Sym => Sort::Sym,
        SpecSort::List => Sort::List,
        SpecSort::Any => Sort::Any,
    }
}

fn is_parameter(params: &Params, name: &Text) -> bool
    ensures { result ≡ is_among (param_names params.now) name.now }
{
    for param in params.as_slice() {
        if *name == param.name {
            return true;
        }
    }
    false
}

/// Whether the precondition names what is declared, and no parameter has its name.
fn is_own_variable(spec: &Spec, param: &Param) -> bool
    ensures { result ≡ is_own_variable (spec_view spec.now) param.now }
{
    stands_in_items(&param.name, spec.pre.as_slice()) && !is_parameter(&spec.params, &param.name)
}

fn push_copy(list: &mut Params, alloc: Global, param: &Param) -> Result<(), AllocError>
    ensures { OnOk result (list.new ≡ list.old ++ param.now ∷ []) }
{
    list.push(Param {
        name: param.name.copy(alloc)?,
        sort: param.sort,
    })?;
    Ok(())
}

fn copy_params(alloc: Global, params: &Params) -> Result<Params, AllocError>
    ensures { IfOk result (λ copies. copies ≡ params.now) }
{
    let mut copies = Sequence::new(alloc);
    for param in params.as_slice() {
        push_copy(&mut copies, alloc, param)?;
    }
    Ok(copies)
}

/// The parameters, and then the declared variables that the precondition names.
pub(crate) fn variables_of(alloc: Global, spec: &Spec) -> Result<Params, AllocError>
    ensures { IfOk result (λ variables. variables ≡ variables_of (spec_view spec.now)) }
{
    let mut variables = copy_params(alloc, &spec.params)?;
    for param in spec.logicals.as_slice() {
        if is_own_variable(spec, param) {
            push_copy(&mut variables, alloc, param)?;
        }
    }
    Ok(variables)
}

/// The sorts of the variables.
pub(crate) fn table_of(alloc: Global, variables: &Params) -> Result<VarTable, AllocError>
    ensures { IfOk result (λ table. table ≡ table_of variables.now) }
{
    let mut table = Sequence::new(alloc);
    for variable in variables.as_slice() {
        table.push(sort_of(variable.sort))?;
    }
    Ok(table)
}

/// The variable of a name, of two of one name the first.
pub(crate) fn variable_of(variables: &Params, name: &Text) -> Option<Var>
    ensures { result ≡ variable_from 0 variables.now name.now }
{
    let items = variables.as_slice();
    for place in 0..items.len() {
        if items[place].name == *name {
            return Some(Var {
                number: place as u64,
                sort: sort_of(items[place].sort),
            });
        }
    }
    None
}
