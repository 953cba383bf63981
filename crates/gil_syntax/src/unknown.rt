//! Names that stand for nothing: specifications of no procedure, predicates that are neither core nor defined, and logical
//! variables that aren't declared where they stand.
ghost use Rattle.std.specs.Prelude.{◌≡◌, IfOk, false, ◌||◌};
ghost use Rattle.gil_syntax.specs.Programs.{find_spec};
ghost use Rattle.gil_syntax.specs.Valid.{is_among, logicals_of_spec, has_unknown_name, a_proc, a_spec, a_pred};
ghost use Rattle.gil_syntax.specs.View.{command_view, proc_view, spec_view, pred_def_view, numbered_command_view};
ghost use Rattle.gil_syntax.specs.ByName.{parts_of, IsIndexed};
ghost use Rattle.gil_syntax.specs.Found.{stands_in_command};
ghost use Rattle.gil_syntax.specs.Names.{has_name};
ghost use Rattle.gil_syntax.specs.Sought.{is_undeclared, is_unknown_use, declared_by};

use crate::by_name::PartsByName;
use crate::named::{Names, names_in};
use crate::seeking::{Sought, in_assertions, in_command, in_spec};
use crate::{Command, Expr, NumberedCommand, PredDef, PredUse, Proc, Spec};
use gil_values::Text;
use std::alloc::{AllocError, Global};
use std::collections::HashSet;

/// Logical variables in neither of two sets, and predicates that are neither core nor defined.
#[derive(Clone, Copy)]
struct Unknown<'a> {
    program: &'a PartsByName<'a>,
    declared: &'a Names<'a>,
    own: &'a Names<'a>,
}

impl<'a> Sought for Unknown<'a> {
    ghost is_ready = { λ s. IsIndexed s.program.now };

    ghost is_node = { λ s. is_undeclared (λ x. has_name s.declared.now x || has_name s.own.now x) };

    ghost is_use = { λ s. is_unknown_use (parts_of s.program.now) };

    fn tests_node(&self, expression: &Expr) -> bool {
        match expression {
            Expr::Logical(variable) => {
                let name = variable.as_str();
                !self.declared.contains(name) && !self.own.contains(name)
            }
            _ => false,
        }
    }

    fn tests_use(&self, used: &PredUse) -> bool {
        !self.program.has_pred(used.pred.as_str())
    }
}

/// The logical variables of the specification of a procedure, none where it has none.
fn declared_for<'a>(
    alloc: Global,
    program: &PartsByName<'a>,
    name: &Text,
) -> Result<Names<'a>, AllocError>
    requires { IsIndexed program.now }
    ensures { IfOk result (λ s. has_name s ≡ is_among (logicals_of_spec (find_spec (parts_of program.now).specs name.now))) }
{
    match program.spec(name.as_str()) {
        Some(spec) => names_in(alloc, spec.logicals.as_slice()),
        None => Ok(HashSet::new(alloc)),
    }
}

/// Whether a command has such a name, where these logical variables are declared for its procedure.
fn command_has_unknown_name(
    alloc: Global,
    program: &PartsByName<'_>,
    declared: &Names<'_>,
    numbered: &NumberedCommand,
) -> Result<bool, AllocError>
    requires { IsIndexed program.now }
    ensures { IfOk result
        (λ b. b ≡ stands_in_command (is_undeclared (declared_by (has_name declared.now) (command_view numbered.now.command)))
        (is_unknown_use (parts_of program.now)) (numbered_command_view numbered.now)) }
{
    let command = &numbered.command;
    let none = HashSet::new(alloc);
    match command {
        Command::LoopInvariant(_, params, _) => {
            let own = names_in(alloc, params.as_slice())?;
            let sought = Unknown {
                program,
                declared,
                own: &own,
            };
            Ok(in_command(&sought, command))
        }
        Command::Fold(_) | Command::Unfold(_) | Command::AssertThat(_) => {
            let sought = Unknown {
                program,
                declared,
                own: &none,
            };
            Ok(in_command(&sought, command))
        }
        _ => {
            let sought = Unknown {
                program,
                declared: &none,
                own: &none,
            };
            Ok(in_command(&sought, command))
        }
    }
}

/// Whether a procedure has such a name.
pub(crate) fn proc_has_unknown_name(
    alloc: Global,
    program: &PartsByName<'_>,
    proc: &Proc,
) -> Result<bool, AllocError>
    requires { IsIndexed program.now }
    ensures { IfOk result (λ b. b ≡ has_unknown_name (parts_of program.now) (a_proc (proc_view proc.now))) }
{
    let declared = declared_for(alloc, program, &proc.name)?;
    for numbered in proc.body.as_slice() {
        if command_has_unknown_name(alloc, program, &declared, numbered)? {
            return Ok(true);
        }
    }
    Ok(false)
}

/// Whether a specification has such a name, or is of no procedure.
pub(crate) fn spec_has_unknown_name(
    alloc: Global,
    program: &PartsByName<'_>,
    spec: &Spec,
) -> Result<bool, AllocError>
    requires { IsIndexed program.now }
    ensures { IfOk result (λ b. b ≡ has_unknown_name (parts_of program.now) (a_spec (spec_view spec.now))) }
{
    if program.proc(spec.name.as_str()).is_none() {
        return Ok(true);
    }
    let declared = names_in(alloc, spec.logicals.as_slice())?;
    let none = HashSet::new(alloc);
    let sought = Unknown {
        program,
        declared: &declared,
        own: &none,
    };
    Ok(in_spec(&sought, spec))
}

/// Whether a predicate has such a name.
pub(crate) fn pred_has_unknown_name(
    alloc: Global,
    program: &PartsByName<'_>,
    pred: &PredDef,
) -> Result<bool, AllocError>
    requires { IsIndexed program.now }
    ensures { IfOk result (λ b. b ≡ has_unknown_name (parts_of program.now) (a_pred (pred_def_view pred.now))) }
{
    let declared = names_in(alloc, pred.logicals.as_slice())?;
    let none = HashSet::new(alloc);
    let sought = Unknown {
        program,
        declared: &declared,
        own: &none,
    };
    Ok(in_assertions(&sought, &pred.cases))
}
