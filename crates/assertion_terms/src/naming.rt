//! Named forms.
ghost use Rattle.std.specs.Prelude.{◌≡◌, map, slice_get, IfOk};
ghost use Rattle.gil_syntax.specs.View.{expr_view, exprs_view, item_view, assertion_view};
ghost use Rattle.gil_syntax.specs.WellMade as made;
ghost use Rattle.gil_grammar.specs.Assertions.{may_be_item as pure_item_form};
ghost use Rattle.gil_values.specs.Characters.{IsText};
ghost use Rattle.pure_terms.specs.View.{term_view, terms_view, atom_view, atoms_view};
ghost use Rattle.sym_model.specs.View.{use_view, uses_view};
ghost use Rattle.assertion_terms.specs.Named.{
  numbered,
  table_names,
  named as pure_named,
  name_or_none,
  expr_of,
  true_item as pure_true_item,
  item_of as pure_item,
  use_item as pure_use,
  assertion_of as pure_assertion,
};

use gil_syntax::{Assertion, Expr, Exprs, Item, PredUse, Texts};
use gil_values::{BinOp, Text, UnOp, Value, push_number};
use pure_terms::{Atom, Atoms, Term, Terms};
use sequence::Sequence;
use std::alloc::{AllocError, Global};
use sym_model::{CoreUse, CoreUses};

/// The text with these characters.
fn text_of(alloc: Global, characters: &str) -> Result<Text, AllocError>
    requires { IsText characters.now }
    ensures { IfOk result (λ t. t ≡ characters.now) }
{
    match Text::from_str(alloc, characters)? {
        Some(text) => Ok(text),
        None => unreachable!(),
    }
}

/// `#v` and a number.
pub fn numbered_name(alloc: Global, number: u64) -> Result<Text, AllocError>
    ensures { IfOk result (λ name. name ≡ numbered number) }
{
    let mut characters = String::from_str(alloc, "#v")?;
    push_number(&mut characters, number)?;
    text_of(alloc, characters.as_str())
}

/// The names of a table of variables, which begins with the parameters and has so many others.
pub fn names_of_table(alloc: Global, params: &Texts, others: usize) -> Result<Texts, AllocError>
    ensures { IfOk result (λ names. names ≡ table_names params.now others) }
{
    let mut names = Sequence::new(alloc);
    for name in params.as_slice() {
        names.push(name.copy(alloc)?)?;
    }
    for _other in 0..others {
        let name = numbered_name(alloc, names.len() as u64)?;
        names.push(name)?;
    }
    Ok(names)
}

/// Whether it is the name of a logical variable.
fn has_hash(name: &Text) -> bool
    ensures { result ≡ made.has_hash name.now }
{
    match name.as_str().as_bytes() {
        [first, ..] => *first == b'#',
        [] => false,
    }
}

/// The variable with this name.
fn named(alloc: Global, name: &Text) -> Result<Expr, AllocError>
    ensures { IfOk result (λ e. expr_view e ≡ pure_named name.now) }
{
    let copied = name.copy(alloc)?;
    if has_hash(name) {
        Ok(Expr::Logical(copied))
    } else {
        Ok(Expr::Name(copied))
    }
}

/// The variable with this number, by its name.
fn variable_named(alloc: Global, names: &Texts, number: u64) -> Result<Expr, AllocError>
    ensures { IfOk result (λ e. expr_view e ≡ pure_named (name_or_none (slice_get names.now number))) }
{
    match names.get(number as usize) {
        Some(name) => named(alloc, name),
        None => Ok(Expr::Name(text_of(alloc, "")?)),
    }
}

/// The expression that a term is, with these names for its variables.
#[cycle(name)]
pub fn expression_of(alloc: Global, names: &Texts, term: &Term) -> Result<Expr, AllocError>
    ensures { IfOk result (λ e. expr_view e ≡ expr_of names.now (term_view term.now)) }
{
    match term {
        Term::Lit(literal) => Ok(Expr::Lit(literal.value(alloc)?)),
        Term::Var(variable) => variable_named(alloc, names, variable.number),
        Term::List(terms) => Ok(Expr::List(expressions_of(alloc, names, terms)?)),
        Term::Op1(op, operand) => {
            let operand = expression_of(alloc, names, operand)?;
            Ok(Expr::Op1(*op, Box::new(alloc, operand)?))
        }
        Term::Op2(op, left, right) => {
            let left = expression_of(alloc, names, left)?;
            let right = expression_of(alloc, names, right)?;
            Ok(Expr::Op2(*op, Box::new(alloc, left)?, Box::new(alloc, right)?))
        }
    }
}

/// The expressions that terms are.
#[cycle(name)]
fn expressions_of(alloc: Global, names: &Texts, terms: &Terms) -> Result<Exprs, AllocError>
    ensures { IfOk result (λ es. exprs_view es ≡ map (expr_of names.now) (terms_view terms.now)) }
{
    let mut list = Exprs::new(alloc);
    for term in terms.as_slice() {
        list.push(expression_of(alloc, names, term)?)?;
    }
    Ok(list)
}

/// Whether the expression may be an item: an operator between two operands, or `not`.
fn may_be_item(expression: &Expr) -> bool
    ensures { result ≡ pure_item_form (expr_view expression.now) }
{
    match expression {
        Expr::Op1(op, _) => matches!(op, UnOp::Not),
        Expr::Op2(op, _, _) => !matches!(op, BinOp::Nth),
        Expr::Lit(_) | Expr::Name(_) | Expr::Logical(_) | Expr::List(_) => false,
    }
}

/// That an expression is true, as an item.
fn true_item(alloc: Global, expression: Expr) -> Result<Item, AllocError>
    ensures { IfOk result (λ item. item_view item ≡ pure_true_item (expr_view expression)) }
{
    if may_be_item(&expression) {
        return Ok(Item::Pure(expression));
    }
    let right = Expr::Lit(Value::Bool(true));
    let left = Box::new(alloc, expression)?;
    let right = Box::new(alloc, right)?;
    Ok(Item::Pure(Expr::Op2(BinOp::Equal, left, right)))
}

/// An atom as an item.
fn item_of(alloc: Global, names: &Texts, atom: &Atom) -> Result<Item, AllocError>
    ensures { IfOk result (λ item. item_view item ≡ pure_item names.now (atom_view atom.now)) }
{
    match atom {
        Atom::Holds(term) => {
            let expression = expression_of(alloc, names, term)?;
            true_item(alloc, expression)
        }
        Atom::Not(term) => {
            let operand = Box::new(alloc, expression_of(alloc, names, term)?)?;
            Ok(Item::Pure(Expr::Op1(UnOp::Not, operand)))
        }
        Atom::Open(term) => {
            let left = Box::new(alloc, expression_of(alloc, names, term)?)?;
            let right = Box::new(alloc, expression_of(alloc, names, term)?)?;
            Ok(Item::Pure(Expr::Op2(BinOp::Equal, left, right)))
        }
    }
}

/// A use of a core predicate as an item.
fn use_item(alloc: Global, names: &Texts, used: &CoreUse) -> Result<Item, AllocError>
    ensures { IfOk result (λ item. item_view item ≡ pure_use names.now (use_view used.now)) }
{
    let pred = used.core.copy(alloc)?;
    let ins = expressions_of(alloc, names, &used.ins)?;
    let outs = expressions_of(alloc, names, &used.outs)?;
    Ok(Item::Uses(PredUse { pred, ins, outs }))
}

/// The uses as items, and then the atoms.
pub fn assertion_of(
    alloc: Global,
    names: &Texts,
    uses: &CoreUses,
    atoms: &Atoms,
) -> Result<Assertion, AllocError>
    ensures { IfOk result (λ items. assertion_view items ≡ pure_assertion names.now (uses_view uses.now) (atoms_view atoms.now)) }
{
    let mut items = Sequence::new(alloc);
    for used in uses.as_slice() {
        items.push(use_item(alloc, names, used)?)?;
    }
    for atom in atoms.as_slice() {
        items.push(item_of(alloc, names, atom)?)?;
    }
    Ok(items)
}
