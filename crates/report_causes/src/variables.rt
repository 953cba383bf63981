//! The variables of a specification's precondition by their names.
ghost use Rattle.std.specs.Prelude.{◌≡◌, IfOk};
ghost use Rattle.assert_logic.specs.Names.{named_by_items};
ghost use Rattle.gil_syntax.specs.Valid.{is_among, param_names};
ghost use Rattle.gil_syntax.specs.View.{spec_view};
ghost use Rattle.report_causes.specs.Names.{variable_names};
ghost use Rattle.spec_vacuity.specs.Translation.{is_own_variable};

use gil_syntax::{Param, Params, Spec, Texts};
use gil_values::Text;
use sequence::Sequence;
use solver_print::Names;
use std::alloc::{AllocError, Global};
use sym_states::names_in;

/// Whether a name is one of a list.
fn is_among(names: &Texts, name: &Text) -> bool
    ensures { result ≡ is_among names.now name.now }
{
    for other in names.as_slice() {
        if *name == *other {
            return true;
        }
    }
    false
}

fn is_parameter(params: &Params, name: &Text) -> bool
    ensures { result ≡ is_among (param_names params.now) name.now }
{
    for param in params.as_slice() {
        if *name == param.name {
            return true;
        }
    }
    false
}

/// Whether the precondition names what is declared, and no parameter has its name. These are the names in the precondition.
pub(crate) fn is_own_variable(named: &Texts, spec: &Spec, param: &Param) -> bool
    requires { is_among named.now param.now.name ≡ named_by_items (spec_view spec.now).pre param.now.name }
    ensures { result ≡ is_own_variable (spec_view spec.now) param.now }
{
    is_among(named, &param.name) && !is_parameter(&spec.params, &param.name)
}

/// The names of parameters.
fn param_names(alloc: Global, params: &Params) -> Result<Names, AllocError>
    ensures { IfOk result (λ names. names ≡ param_names params.now) }
{
    let mut names = Sequence::new(alloc);
    for param in params.as_slice() {
        names.push(param.name.copy(alloc)?)?;
    }
    Ok(names)
}

/// The names of the parameters, and then of the declared variables that the precondition names.
pub fn variable_names(alloc: Global, spec: &Spec) -> Result<Names, AllocError>
    ensures { IfOk result (λ names. names ≡ variable_names (spec_view spec.now)) }
{
    let named = names_in(alloc, &spec.pre)?;
    let mut names = param_names(alloc, &spec.params)?;
    for param in spec.logicals.as_slice() {
        if is_own_variable(&named, spec, param) {
            names.push(param.name.copy(alloc)?)?;
        }
    }
    Ok(names)
}
