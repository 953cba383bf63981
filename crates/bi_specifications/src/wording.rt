//! The text of a specification.
ghost use Rattle.std.specs.Prelude.{◌≡◌, ◌≤◌, ◌<◌, ◌-◌, [], ◌∷◌, ◌++◌, length, drop, map, true, false, IfNone, IfSome, IfOk};
ghost use Rattle.assertion_terms.specs.Named.{table_names, assertion_of as pure_assertion};
ghost use Rattle.checked_runs.specs.Specifications.{result_name as pure_result_name};
ghost use Rattle.gil_syntax.specs.Valid.{is_among};
ghost use Rattle.gil_syntax.specs.View.{assertion_view};
ghost use Rattle.pure_terms.specs.declared.variables.Sort.{Sort as PureSort};
ghost use Rattle.pure_terms.specs.Fragment.{is_variable_of};
ghost use Rattle.pure_terms.specs.Kinds.{same_sort};
ghost use Rattle.pure_terms.specs.View.{atom_view, atoms_view, term_view};
ghost use Rattle.sym_model.specs.View.{uses_view};
ghost use Rattle.bi_specifications.specs.Shape.{name_sort as pure_name_sort, any_params, numbered_params, result_atom as pure_result_atom, told_atom as pure_told_atom, ending_of};

use assertion_terms::{assertion_of, names_of_table, numbered_name};
use gil_syntax::{Assertion, Assertions, Param, Params, SpecSort, Texts};
use gil_values::{BinOp, Text};
use pure_terms::{Atom, Atoms, Sort, Term, Var, VarTable};
use sequence::Sequence;
use std::alloc::{AllocError, Global};
use std::rc::Rc;
use sym_model::CoreUses;

/// The name of the result in postconditions.
fn result_name(alloc: Global) -> Result<Text, AllocError>
    ensures { IfOk result (λ t. t ≡ pure_result_name) }
{
    match Text::from_str(alloc, "ret")? {
        Some(name) => Ok(name),
        None => unreachable!(),
    }
}

/// The number of the first of these names that is that of the result, if one is.
pub(crate) fn result_parameter(names: &Texts) -> Option<usize>
    ensures none { IfNone result (is_among names.now pure_result_name ≡ false) }
    ensures some { IfSome result (λ number. (number < length names.now) × (is_among names.now pure_result_name ≡ true)) }
{
    let names = names.as_slice();
    for number in 0..names.len() {
        if "ret" == names[number].as_str() {
            return Some(number);
        }
    }
    None
}

/// Parameters of any sort.
pub(crate) fn any_parameters(alloc: Global, names: &Texts) -> Result<Params, AllocError>
    ensures { IfOk result (λ params. params ≡ any_params names.now) }
{
    let mut params = Sequence::new(alloc);
    for name in names.as_slice() {
        params.push(Param {
            name: name.copy(alloc)?,
            sort: SpecSort::Any,
        })?;
    }
    Ok(params)
}

/// The sort of the name of a variable.
fn name_sort(sort: Sort) -> SpecSort
    ensures { result ≡ pure_name_sort sort }
{
    match sort {
        Sort::Int => SpecSort::Int,
        Sort::Bool => SpecSort::Bool,
        Sort::Str => SpecSort::Str,
        Sort::Sym | Sort::Fresh => SpecSort::Sym,
        Sort::List => SpecSort::List,
        Sort::Any => SpecSort::Any,
    }
}

/// Logical variables for the variables of the table from a number on.
pub(crate) fn numbered_variables(
    alloc: Global,
    vars: &VarTable,
    first: usize,
) -> Result<Params, AllocError>
    requires { first ≤ length vars.now }
    ensures { IfOk result (λ logicals. logicals ≡ numbered_params first (drop first vars.now)) }
{
    let sorts = vars.as_slice();
    let mut logicals = Sequence::new(alloc);
    for number in first..sorts.len() {
        let name = numbered_name(alloc, number as u64)?;
        let sort = name_sort(sorts[number]);
        logicals.push(Param { name, sort })?;
    }
    Ok(logicals)
}

/// That the variable with this number, which is the result, is the value of a term.
fn result_atom(alloc: Global, number: usize, term: &Term) -> Result<Atom, AllocError>
    ensures { IfOk result (λ a. atom_view a ≡ pure_result_atom number (term_view term.now)) }
{
    let variable = Term::Var(Var {
        number: number as u64,
        sort: Sort::Any,
    });
    let left = Rc::new(alloc, variable)?;
    let right = Rc::new(alloc, term.copy(alloc)?)?;
    Ok(Atom::Holds(Term::Op2(BinOp::Equal, left, right)))
}

/// The atom, and behind it the others.
fn with_others(alloc: Global, first: Atom, others: &Atoms) -> Result<Atoms, AllocError>
    ensures { IfOk result (λ atoms. atoms_view atoms ≡ atom_view first ∷ atoms_view others.now) }
{
    let mut atoms = Sequence::new(alloc);
    atoms.push(first)?;
    for atom in others.as_slice() {
        atoms.push(atom.copy(alloc)?)?;
    }
    Ok(atoms)
}

/// What is there at the beginning: the uses and the conditions, where so many variables have names.
pub(crate) fn precondition(
    alloc: Global,
    params: &Texts,
    count: usize,
    uses: &CoreUses,
    early: &Atoms,
) -> Result<Assertion, AllocError>
    requires { length params.now ≤ count }
    ensures { IfOk result (λ items. assertion_view items ≡ pure_assertion (table_names params.now (count - length params.now))
        (uses_view uses.now) (atoms_view early.now)) }
{
    let names = names_of_table(alloc, params, count - params.len())?;
    assertion_of(alloc, &names, uses, early)
}

/// That a term is the variable with this number, which is the result.
fn told_atom(alloc: Global, number: usize, term: &Term) -> Result<Atom, AllocError>
    ensures { IfOk result (λ a. atom_view a ≡ pure_told_atom number (term_view term.now)) }
{
    let variable = Term::Var(Var {
        number: number as u64,
        sort: Sort::Any,
    });
    let left = Rc::new(alloc, term.copy(alloc)?)?;
    let right = Rc::new(alloc, variable)?;
    Ok(Atom::Holds(Term::Op2(BinOp::Equal, left, right)))
}

fn is_fresh(sort: Sort) -> bool
    ensures { result ≡ same_sort sort PureSort.Fresh }
{
    matches!(sort, Sort::Fresh)
}

/// Whether a term is a new symbol.
fn is_new_symbol(term: &Term) -> bool
    ensures { result ≡ is_variable_of PureSort.Fresh (term_view term.now) }
{
    match term {
        Term::Var(variable) => is_fresh(variable.sort),
        _ => false,
    }
}

/// The items of the one assertion, and behind them those of the other.
fn joined(first: Assertion, others: Assertion) -> Result<Assertion, AllocError>
    ensures { IfOk result (λ items. assertion_view items ≡ assertion_view first ++ assertion_view others) }
{
    let mut items = first;
    for item in others.into_vec() {
        items.push(item)?;
    }
    Ok(items)
}

/// What is there at the end: the uses, the value of a term as the result, and the conditions. Where the term is a new symbol the result
/// tells it first.
pub(crate) fn postcondition(
    alloc: Global,
    params: &Texts,
    count: usize,
    uses: &CoreUses,
    term: &Term,
    late: &Atoms,
) -> Result<Assertion, AllocError>
    requires { length params.now ≤ count }
    ensures { IfOk result (λ items. assertion_view items ≡ ending_of
        (table_names params.now (count - length params.now) ++ pure_result_name ∷ []) (is_variable_of PureSort.Fresh (term_view term.now))
        (uses_view uses.now) count (term_view term.now) (atoms_view late.now)) }
{
    let mut names = names_of_table(alloc, params, count - params.len())?;
    names.push(result_name(alloc)?)?;
    if is_new_symbol(term) {
        let told = with_others(alloc, told_atom(alloc, count, term)?, &Sequence::new(alloc))?;
        let first = assertion_of(alloc, &names, &Sequence::new(alloc), &told)?;
        let others = assertion_of(alloc, &names, uses, late)?;
        return joined(first, others);
    }
    let atoms = with_others(alloc, result_atom(alloc, count, term)?, late)?;
    assertion_of(alloc, &names, uses, &atoms)
}

/// The only one.
pub(crate) fn only(alloc: Global, assertion: Assertion) -> Result<Assertions, AllocError>
    ensures { IfOk result (λ all. map assertion_view all ≡ assertion_view assertion ∷ []) }
{
    let mut all = Sequence::new(alloc);
    all.push(assertion)?;
    Ok(all)
}
