//! Specifications whose parameters aren't the procedure's, and predicates used with other numbers of ins or outs.
ghost use Rattle.std.specs.Prelude.{◌≡◌, map};
ghost use Rattle.std.specs.Str.{bytes_eq};
ghost use Rattle.std.specs.Cmp.Lexicographic.{pointwise};
ghost use Rattle.gil_syntax.specs.Valid as valid;
ghost use Rattle.gil_syntax.specs.Valid.{has_wrong_arity, a_proc, a_spec, a_pred};
ghost use Rattle.gil_syntax.specs.View.{proc_view, spec_view, pred_def_view};
ghost use Rattle.gil_syntax.specs.ByName.{parts_of, IsIndexed, AreDistinct};
ghost use Rattle.gil_syntax.specs.Sought.{no_node};

use crate::by_name::PartsByName;
use crate::seeking::{Sought, in_assertions, in_body, in_spec};
use crate::{Expr, Param, PredDef, PredUse, Proc, Spec};
use gil_values::Text;

/// Uses with other numbers of ins or outs than the predicate has.
#[derive(Clone, Copy)]
struct Misuse<'a> {
    program: &'a PartsByName<'a>,
}

impl<'a> Sought for Misuse<'a> {
    ghost is_ready = { λ s. IsIndexed s.program.now × AreDistinct (parts_of s.program.now) };

    ghost is_node = { λ s. no_node };

    ghost is_use = { λ s. valid.misuses (valid.predicates_of (parts_of s.program.now)) };

    fn tests_node(&self, _expression: &Expr) -> bool {
        false
    }

    fn tests_use(&self, used: &PredUse) -> bool {
        match self.program.arity(used.pred.as_str()) {
            Some(arity) => arity.ins != used.ins.len() || arity.outs != used.outs.len(),
            None => false,
        }
    }
}

/// Whether the texts are the parameters' names, in order.
fn are_names_of(texts: &[Text], params: &[Param]) -> bool
    ensures { result ≡ pointwise bytes_eq texts.now (map (λ q. q.name) params.now) }
{
    if texts.len() != params.len() {
        return false;
    }
    for (place, text) in texts.iter().enumerate() {
        if *text != params[place].name {
            return false;
        }
    }
    true
}

/// Whether a procedure uses a predicate so.
pub(crate) fn proc_has_wrong_arity(program: &PartsByName<'_>, proc: &Proc) -> bool
    requires indexed { IsIndexed program.now }
    requires distinct { AreDistinct (parts_of program.now) }
    ensures { result ≡ has_wrong_arity (parts_of program.now) (a_proc (proc_view proc.now)) }
{
    let sought = Misuse { program };
    in_body(&sought, &proc.body)
}

/// Whether a specification has other parameters than its procedure.
fn has_other_params(program: &PartsByName<'_>, spec: &Spec) -> bool
    requires { IsIndexed program.now }
    ensures { result ≡ valid.has_other_params (parts_of program.now) (a_spec (spec_view spec.now)) }
{
    match program.proc(spec.name.as_str()) {
        Some(proc) => !are_names_of(proc.params.as_slice(), spec.params.as_slice()),
        None => false,
    }
}

/// Whether a specification has other parameters than its procedure, or uses a predicate so.
pub(crate) fn spec_has_wrong_arity(program: &PartsByName<'_>, spec: &Spec) -> bool
    requires indexed { IsIndexed program.now }
    requires distinct { AreDistinct (parts_of program.now) }
    ensures { result ≡ has_wrong_arity (parts_of program.now) (a_spec (spec_view spec.now)) }
{
    if has_other_params(program, spec) {
        return true;
    }
    let sought = Misuse { program };
    in_spec(&sought, spec)
}

/// Whether a predicate uses a predicate so.
pub(crate) fn pred_has_wrong_arity(program: &PartsByName<'_>, pred: &PredDef) -> bool
    requires indexed { IsIndexed program.now }
    requires distinct { AreDistinct (parts_of program.now) }
    ensures { result ≡ has_wrong_arity (parts_of program.now) (a_pred (pred_def_view pred.now)) }
{
    let sought = Misuse { program };
    in_assertions(&sought, &pred.cases)
}
