//! The values with which a path begins, by their names.
ghost use Rattle.std.specs.Prelude.{◌≡◌, [], ◌∷◌, ◌++◌, map, Err, IfOk, OnOk, if◌then◌else◌};
ghost use Rattle.std.specs.Option.{option_and_then, option_map, option_to_list};
ghost use Rattle.assert_logic.specs.Names.{named_by_items};
ghost use Rattle.checked_paths.specs.Causes.{shown_view};
ghost use Rattle.gil_report.specs.View.{binding_view, witness_view};
ghost use Rattle.gil_syntax.specs.Valid.{is_among, param_names};
ghost use Rattle.gil_syntax.specs.View.{spec_view};
ghost use Rattle.gil_values.specs.View.{values_view};
ghost use Rattle.pure_terms.specs.Meaning.{value as pure_value};
ghost use Rattle.pure_terms.specs.View.{term_view, terms_view};
ghost use Rattle.pure_terms.specs.declared.truth.HoldsFault.TheVariants.{Number};
ghost use Rattle.report_causes.specs.Causes.{binding_of, bindings_by, entry_terms, variable_terms, AreTooWide};
ghost use Rattle.report_causes.specs.Names.{own_variables};
ghost use Rattle.report_causes.specs.Telling.{told_arguments, told_values, value_at, TellsPath};
ghost use Rattle.spec_causes.specs.Causes.{entry_for};
ghost use Rattle.spec_vacuity.specs.Translation.{is_own_variable};
ghost use Rattle.sym_evaluation.specs.Pure.{term_at};
ghost use Rattle.sym_evaluation.specs.View.{store_view};

use crate::questions::copy_choices;
use crate::variables::is_own_variable;
use checked_paths::{Entered, Shown};
use gil_report::{Binding, Bindings, Witness};
use gil_syntax::{Param, Params, Spec, Texts};
use gil_values::Text;
use pure_terms::{HoldsFault, Term, Terms, Valuation, value_of};
use sequence::Sequence;
use std::alloc::{AllocError, Global};
use sym_evaluation::SymStore;
use sym_paths::copy_place;
use sym_states::names_in;

/// Adds the value of a term by this name, where it has one.
fn bind_value(
    alloc: Global,
    bindings: &mut Bindings,
    name: &Text,
    term: &Term,
    valuation: &Valuation,
) -> Result<(), HoldsFault>
    ensures ok { OnOk result (map binding_view bindings.new ≡ map binding_view bindings.old
        ++ binding_of name.now (pure_value (values_view valuation.now) (term_view term.now))) }
    ensures number { result ≡ Err Number → AreTooWide (values_view valuation.now) (term_view term.now ∷ []) }
{
    match value_of(alloc, term, valuation)? {
        Some(value) => {
            let name = name.copy(alloc)?;
            bindings.push(Binding { name, value })?;
            Ok(())
        }
        None => Ok(()),
    }
}

/// Adds the value by this name of the term, where there is one and it has one.
fn bind(
    alloc: Global,
    bindings: &mut Bindings,
    name: &Text,
    term: Option<&Term>,
    valuation: &Valuation,
) -> Result<(), HoldsFault>
    ensures ok { OnOk result (map binding_view bindings.new ≡ map binding_view bindings.old
        ++ binding_of name.now (option_and_then (pure_value (values_view valuation.now)) (option_map (λ t. term_view t.now) term.entry))) }
    ensures number { result ≡ Err Number → AreTooWide (values_view valuation.now)
        (option_to_list (option_map (λ t. term_view t.now) term.entry)) }
{
    match term {
        Some(term) => bind_value(alloc, bindings, name, term, valuation),
        None => Ok(()),
    }
}

/// The values of the parameters' terms by their names.
fn arguments(
    alloc: Global,
    params: &Params,
    args: &Terms,
    valuation: &Valuation,
) -> Result<Bindings, HoldsFault>
    ensures ok { IfOk result (λ bindings. map binding_view bindings
        ≡ told_arguments (values_view valuation.now) (param_names params.now) (terms_view args.now)) }
    ensures number { result ≡ Err Number → AreTooWide (values_view valuation.now) (terms_view args.now) }
{
    let mut bindings = Sequence::new(alloc);
    for (index, param) in params.as_slice().iter().enumerate() {
        bind(
            alloc,
            &mut bindings,
            &param.name,
            args.get(index),
            valuation,
        )?;
    }
    Ok(bindings)
}

/// Adds the value of the term of what is declared, by its name, where the precondition names it. These are the names in the precondition.
fn bind_own(
    alloc: Global,
    bindings: &mut Bindings,
    named: &Texts,
    spec: &Spec,
    param: &Param,
    variables: &SymStore,
    valuation: &Valuation,
) -> Result<(), HoldsFault>
    requires { is_among named.now param.now.name ≡ named_by_items (spec_view spec.now).pre param.now.name }
    ensures ok { OnOk result (map binding_view bindings.new ≡ map binding_view bindings.old ++ (if is_own_variable (spec_view spec.now) param.now
        then binding_of param.now.name (value_at (values_view valuation.now) (store_view variables.now) param.now.name) else [])) }
    ensures number { result ≡ Err Number → AreTooWide (values_view valuation.now) (if is_own_variable (spec_view spec.now) param.now
        then option_to_list (term_at (store_view variables.now) param.now.name) else []) }
{
    if is_own_variable(named, spec, param) {
        let term = variables.get(&param.name);
        bind(alloc, bindings, &param.name, term, valuation)
    } else {
        Ok(())
    }
}

/// Adds the values of the terms of the declared variables that the precondition names, by their names.
fn bind_variables(
    alloc: Global,
    bindings: &mut Bindings,
    spec: &Spec,
    variables: &SymStore,
    valuation: &Valuation,
) -> Result<(), HoldsFault>
    ensures ok { OnOk result (map binding_view bindings.new ≡ map binding_view bindings.old
        ++ bindings_by (value_at (values_view valuation.now) (store_view variables.now)) (own_variables (spec_view spec.now))) }
    ensures number { result ≡ Err Number → AreTooWide (values_view valuation.now)
        (variable_terms (store_view variables.now) (own_variables (spec_view spec.now))) }
{
    let named = names_in(alloc, &spec.pre)?;
    for param in spec.logicals.as_slice() {
        bind_own(alloc, bindings, &named, spec, param, variables, valuation)?;
    }
    Ok(())
}

/// The values of the entry's terms by their names.
fn bindings_of(
    alloc: Global,
    spec: &Spec,
    entered: &Entered,
    valuation: &Valuation,
) -> Result<Bindings, HoldsFault>
    ensures ok { IfOk result (λ bindings. map binding_view bindings
        ≡ told_values (values_view valuation.now) (spec_view spec.now) (entry_for (spec_view spec.now) entered.now)) }
    ensures number { result ≡ Err Number → AreTooWide (values_view valuation.now)
        (entry_terms (spec_view spec.now) (entry_for (spec_view spec.now) entered.now)) }
{
    let mut bindings = arguments(alloc, &spec.params, &entered.args, valuation)?;
    bind_variables(alloc, &mut bindings, spec, &entered.variables, valuation)?;
    Ok(bindings)
}

/// The terms with that of what is declared, where the precondition names it and it has one. These are the names in the precondition.
fn with_own(
    alloc: Global,
    terms: Terms,
    named: &Texts,
    spec: &Spec,
    param: &Param,
    variables: &SymStore,
) -> Result<Terms, AllocError>
    requires { is_among named.now param.now.name ≡ named_by_items (spec_view spec.now).pre param.now.name }
    ensures { IfOk result (λ all. terms_view all ≡ terms_view terms ++ (if is_own_variable (spec_view spec.now) param.now
        then option_to_list (term_at (store_view variables.now) param.now.name) else [])) }
{
    let mut terms = terms;
    if is_own_variable(named, spec, param) {
        if let Some(term) = variables.get(&param.name) {
            terms.push(term.copy(alloc)?)?;
        }
    }
    Ok(terms)
}

/// The terms with those of the declared variables that the precondition names.
fn with_variables(
    alloc: Global,
    terms: Terms,
    spec: &Spec,
    variables: &SymStore,
) -> Result<Terms, AllocError>
    ensures { IfOk result (λ all. terms_view all
        ≡ terms_view terms ++ variable_terms (store_view variables.now) (own_variables (spec_view spec.now))) }
{
    let named = names_in(alloc, &spec.pre)?;
    let mut terms = terms;
    for param in spec.logicals.as_slice() {
        terms = with_own(alloc, terms, &named, spec, param, variables)?;
    }
    Ok(terms)
}

fn copy_terms(alloc: Global, terms: &Terms) -> Result<Terms, AllocError>
    ensures { IfOk result (λ copied. terms_view copied ≡ terms_view terms.now) }
{
    let mut copied = Terms::new(alloc);
    for term in terms.as_slice() {
        copied.push(term.copy(alloc)?)?;
    }
    Ok(copied)
}

/// The terms of the values with which a path begins.
pub(crate) fn entry_terms(
    alloc: Global,
    spec: &Spec,
    entered: &Entered,
) -> Result<Terms, AllocError>
    ensures { IfOk result (λ terms. terms_view terms ≡ entry_terms (spec_view spec.now) (entry_for (spec_view spec.now) entered.now)) }
{
    let terms = copy_terms(alloc, &entered.args)?;
    with_variables(alloc, terms, spec, &entered.variables)
}

/// The path that is shown, with the values of the entry's terms.
pub(crate) fn witness(
    alloc: Global,
    spec: &Spec,
    entered: &Entered,
    shown: &Shown,
    valuation: &Valuation,
) -> Result<Witness, HoldsFault>
    ensures ok { IfOk result (λ told. TellsPath (spec_view spec.now) (entry_for (spec_view spec.now) entered.now)
        (shown_view shown.now) (values_view valuation.now) (witness_view told)) }
    ensures number { result ≡ Err Number → AreTooWide (values_view valuation.now)
        (entry_terms (spec_view spec.now) (entry_for (spec_view spec.now) entered.now)) }
{
    let with = bindings_of(alloc, spec, entered, valuation)?;
    let place = copy_place(alloc, &shown.place)?;
    let path = copy_choices(alloc, &shown.path)?;
    Ok(Witness { place, path, with })
}
