//! The parts of answers that are printed as one text.
ghost use Rattle.std.specs.Prelude.{◌≡◌, ◌++◌, codes, string_bytes, OnOk};
ghost use Rattle.gil_values.specs.Printed.{numeral, printed_value};
ghost use Rattle.gil_values.specs.View.{value_view};
ghost use Rattle.gil_report.specs.Lines.{line};
ghost use Rattle.gil_report.specs.Printed.{lack_word, printed_binding, printed_condition, printed_sort};
ghost use Rattle.gil_report.specs.View.{binding_view, condition_view};

use crate::answers::{Binding, Condition, Lack};
use crate::print::Print;
use gil_values::{Value, push_number, push_value};
use pure_terms::Sort;
use std::alloc::AllocError;
use syntax_print::push_expr;

impl Print for u64 {
    ghost printed = { numeral };

    fn print(&self, out: &mut String) -> Result<(), AllocError> {
        push_number(out, *self)
    }
}

impl Print for usize {
    ghost printed = { numeral };

    fn print(&self, out: &mut String) -> Result<(), AllocError> {
        push_number(out, *self as u64)
    }
}

impl Print for Sort {
    ghost printed = { printed_sort };

    fn print(&self, out: &mut String) -> Result<(), AllocError> {
        out.push_str(word_of_sort(*self))
    }
}

impl Print for Value {
    ghost printed = { λ v. printed_value (value_view v) };

    fn print(&self, out: &mut String) -> Result<(), AllocError> {
        push_value(out, self)
    }
}

impl Print for Binding {
    ghost printed = { λ b. printed_binding (binding_view b) };

    fn print(&self, out: &mut String) -> Result<(), AllocError> {
        out.push_str(self.name.as_str())?;
        out.push_str(" = ")?;
        push_value(out, &self.value)
    }
}

impl Print for Condition {
    ghost printed = { λ c. printed_condition (condition_view c) };

    fn print(&self, out: &mut String) -> Result<(), AllocError> {
        match self {
            Condition::Holds(expression) => push_expr(out, expression),
            Condition::Open(expression) => {
                out.push_str("open(")?;
                push_expr(out, expression)?;
                out.push_str(")")
            }
        }
    }
}

/// The word of a sort.
fn word_of_sort(sort: Sort) -> &'static str
    ensures { result.now ≡ printed_sort sort }
{
    match sort {
        Sort::Int => "int",
        Sort::Bool => "bool",
        Sort::Str => "str",
        Sort::Sym => "sym",
        Sort::Fresh => "fresh",
        Sort::List => "list",
        Sort::Any => "any",
    }
}

/// The word of what a path lacks.
pub fn word_of_lack(lack: Lack) -> &'static str
    ensures { result.now ≡ lack_word lack }
{
    match lack {
        Lack::Missing => "missing",
        Lack::Post => "post",
        Lack::Invariant => "invariant",
        Lack::CallPre => "callpre",
        Lack::FoldBody => "foldbody",
        Lack::Cut => "cut",
    }
}

/// Adds a line of words and a number.
pub fn push_counted(out: &mut String, words: &str, count: u64) -> Result<(), AllocError>
    ensures { OnOk result (string_bytes out.new ≡ string_bytes out.old ++ line (words.now ++ numeral count)) }
{
    out.push_str(words)?;
    push_number(out, count)?;
    out.push_str("\n")?;
    Ok(())
}
