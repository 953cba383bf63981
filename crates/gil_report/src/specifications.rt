//! Printed specifications.
ghost use Rattle.std.specs.Prelude.{◌≡◌, ◌++◌, map, string_bytes, OnOk};
ghost use Rattle.std.specs.List.{flat_map};
ghost use Rattle.gil_syntax.specs.View.{assertion_view, spec_view};
ghost use Rattle.syntax_print.specs.Assertions.{printed_block, printed_params};
ghost use Rattle.gil_report.specs.Printed.{printed_specification};

use crate::print::Print;
use gil_syntax::{Assertions, Params, Spec};
use gil_values::push_separator;
use std::alloc::AllocError;
use syntax_print::{push_block, push_param, push_variables};

impl Print for Spec {
    ghost printed = { λ s. printed_specification (spec_view s) };

    fn print(&self, out: &mut String) -> Result<(), AllocError> {
        out.push_str("spec ")?;
        out.push_str(self.name.as_str())?;
        out.push_str("(")?;
        push_params(out, &self.params)?;
        out.push_str(") ")?;
        push_variables(out, &self.logicals)?;
        out.push_str(" ")?;
        push_block(out, &self.pre)?;
        push_blocks(out, " ", &self.posts)?;
        push_blocks(out, " throw ", &self.errors)?;
        Ok(())
    }
}

/// Adds parameters, with commas between them.
fn push_params(out: &mut String, params: &Params) -> Result<(), AllocError>
    ensures { OnOk result (string_bytes out.new ≡ string_bytes out.old ++ printed_params params.now) }
{
    for (index, param) in params.as_slice().iter().enumerate() {
        push_separator(out, ", ", index)?;
        push_param(out, param)?;
    }
    Ok(())
}

/// Adds assertions in braces, each behind these characters.
fn push_blocks(out: &mut String, before: &str, assertions: &Assertions) -> Result<(), AllocError>
    ensures { OnOk result (string_bytes out.new ≡ string_bytes out.old
        ++ flat_map (λ items. before.now ++ printed_block items) (map assertion_view assertions.now)) }
{
    for assertion in assertions.as_slice() {
        out.push_str(before)?;
        push_block(out, assertion)?;
    }
    Ok(())
}
