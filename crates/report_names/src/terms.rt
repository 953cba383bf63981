//! Terms as expressions.
ghost use Rattle.std.specs.Prelude.{◌≡◌, ◌++◌, codes, map, IfOk};
ghost use Rattle.gil_syntax.specs.View.{expr_view, exprs_view};
ghost use Rattle.gil_syntax.specs.WellMade as made;
ghost use Rattle.gil_values.specs.Characters.{IsText};
ghost use Rattle.gil_values.specs.Printed.{numeral};
ghost use Rattle.pure_terms.specs.View.{term_view, terms_view};
ghost use Rattle.solver_print.specs.Terms.{name_of};
ghost use Rattle.report_names.specs.Named.{expression_of, named as pure_named};

use gil_syntax::{Expr, Exprs};
use gil_values::{Text, push_number};
use pure_terms::{Term, Terms};
use solver_print::Names;
use std::alloc::{AllocError, Global};

/// The expression that a term is, with these names for its variables.
#[cycle(name)]
pub fn named_term(alloc: Global, names: &Names, term: &Term) -> Result<Expr, AllocError>
    ensures { IfOk result (λ e. expr_view e ≡ expression_of names.now (term_view term.now)) }
{
    match term {
        Term::Lit(literal) => Ok(Expr::Lit(literal.value(alloc)?)),
        Term::Var(variable) => variable_named(alloc, names, variable.number),
        Term::List(terms) => Ok(Expr::List(named_terms(alloc, names, terms)?)),
        Term::Op1(op, operand) => {
            let operand = named_term(alloc, names, operand)?;
            Ok(Expr::Op1(*op, Box::new(alloc, operand)?))
        }
        Term::Op2(op, left, right) => {
            let left = named_term(alloc, names, left)?;
            let right = named_term(alloc, names, right)?;
            Ok(Expr::Op2(*op, Box::new(alloc, left)?, Box::new(alloc, right)?))
        }
    }
}

/// The expressions that terms are.
#[cycle(name)]
fn named_terms(alloc: Global, names: &Names, terms: &Terms) -> Result<Exprs, AllocError>
    ensures { IfOk result (λ es. exprs_view es ≡ map (expression_of names.now) (terms_view terms.now)) }
{
    let mut list = Exprs::new(alloc);
    for term in terms.as_slice() {
        list.push(named_term(alloc, names, term)?)?;
    }
    Ok(list)
}

/// The variable with this number, by its name: a logical one where that begins with `#`.
fn variable_named(alloc: Global, names: &Names, number: u64) -> Result<Expr, AllocError>
    ensures { IfOk result (λ e. expr_view e ≡ pure_named (name_of names.now number)) }
{
    let name = variable_name(alloc, names, number)?;
    if has_hash(&name) {
        Ok(Expr::Logical(name))
    } else {
        Ok(Expr::Name(name))
    }
}

/// Whether it is the name of a logical variable.
fn has_hash(name: &Text) -> bool
    ensures { result ≡ made.has_hash name.now }
{
    match name.as_str().as_bytes() {
        [first, ..] => *first == b'#',
        [] => false,
    }
}

/// The name of the variable with this number: that at its place of the list, and `v` and its number where the list has none.
fn variable_name(alloc: Global, names: &Names, number: u64) -> Result<Text, AllocError>
    ensures { IfOk result (λ name. name ≡ name_of names.now number) }
{
    match names.get(number as usize) {
        Some(name) => name.copy(alloc),
        None => numbered_name(alloc, number),
    }
}

/// `v` and a number.
fn numbered_name(alloc: Global, number: u64) -> Result<Text, AllocError>
    ensures { IfOk result (λ name. name ≡ codes "v" ++ numeral number) }
{
    let mut characters = String::from_str(alloc, "v")?;
    push_number(&mut characters, number)?;
    text_of(alloc, characters.as_str())
}

/// The text with these characters.
fn text_of(alloc: Global, characters: &str) -> Result<Text, AllocError>
    requires { IsText characters.now }
    ensures { IfOk result (λ t. t ≡ characters.now) }
{
    match Text::from_str(alloc, characters)? {
        Some(text) => Ok(text),
        None => unreachable!(),
    }
}
