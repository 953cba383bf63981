//! Where an assertion stands, and the names that are known there at first.
ghost use Rattle.std.specs.Prelude.{◌≡◌};
ghost use Rattle.gil_syntax.specs.Valid.{is_among, param_names};
ghost use Rattle.gil_syntax.specs.View.{expr_view, spec_view};
ghost use Rattle.gil_syntax.specs.WellMade as made;
ghost use Rattle.assert_logic.specs.Modes as modes;
ghost use Rattle.assert_logic.specs.ModesView.{scope_view};

use crate::names::stands_in_items;
use gil_syntax::{Expr, Param, PredDef, Spec};

/// Where an assertion stands.
#[derive(Clone, Copy)]
pub(crate) enum Scope<'a> {
    Precondition(&'a Spec),
    Postcondition(&'a Spec),
    Case(&'a PredDef),
    /// In a procedure that has this specification, or none.
    LogicCommand(Option<&'a Spec>),
}

/// Whether a parameter has the name.
fn is_param(params: &[Param], name: &str) -> bool
    ensures { result ≡ is_among (param_names params.now) name.now }
{
    for param in params {
        if name == param.name.as_str() {
            return true;
        }
    }
    false
}

/// Whether it is the name of a logical variable.
fn has_hash(name: &str) -> bool
    ensures { result ≡ made.has_hash name.now }
{
    match name.as_bytes() {
        [first, ..] => *first == b'#',
        [] => false,
    }
}

/// Whether it is a variable of the precondition, which the precondition names.
fn is_variable_of(spec: &Spec, name: &str) -> bool
    ensures { result ≡ modes.is_variable_of (spec_view spec.now) name.now }
{
    has_hash(name) && stands_in_items(name, spec.pre.as_slice())
}

impl<'a> Scope<'a> {
    /// Whether a name is known before the first item.
    pub(crate) fn knows(&self, name: &str) -> bool
        ensures { result ≡ modes.known_at_first (scope_view self.now) name.now }
    {
        match self {
            Scope::Precondition(spec) => is_param(spec.params.as_slice(), name),
            Scope::Postcondition(spec) => {
                is_param(spec.params.as_slice(), name)
                    || is_variable_of(spec, name)
                    || name == "ret"
            }
            Scope::Case(pred) => is_param(pred.ins.as_slice(), name),
            Scope::LogicCommand(None) => !has_hash(name) && name != "ret",
            Scope::LogicCommand(Some(spec)) => {
                !has_hash(name) && name != "ret" || is_variable_of(spec, name)
            }
        }
    }

    /// Whether the expression is one name that may become known.
    pub(crate) fn may_become_known(&self, expression: &Expr) -> bool
        ensures { result ≡ modes.may_become_known (scope_view self.now) (expr_view expression.now) }
    {
        match expression {
            Expr::Logical(_) => true,
            Expr::Name(name) => match self {
                Scope::Case(pred) => is_param(pred.outs.as_slice(), name.as_str()),
                _ => false,
            },
            _ => false,
        }
    }
}
