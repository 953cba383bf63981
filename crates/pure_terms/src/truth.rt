//! The values of terms and the truth of atoms under a valuation.
ghost use Rattle.std.specs.Prelude.{◌≡◌, List, true, false, slice_get, IfOk, IsOk, Err, Some};
ghost use Rattle.std.specs.Option.{option_map};
ghost use Rattle.gil_values.specs.Answers.{Answers};
ghost use Rattle.gil_values.specs.Operators.{Outcome};
ghost use Rattle.gil_values.specs.Pure.{PureValue, boolean};
ghost use Rattle.gil_values.specs.View.{value_view, values_view};
ghost use Rattle.pure_terms.specs.declared.truth.HoldsFault.TheVariants.{Number, Memory};
ghost use Rattle.pure_terms.specs.Direct.{IsModerate};
ghost use Rattle.pure_terms.specs.Meaning.{literal_value, truth, value as pure_value};
ghost use Rattle.pure_terms.specs.Pure.{PureTerm, PureTerms, list_of, unary_of, binary_of, term_of, from_list};
ghost use Rattle.pure_terms.specs.Truth.{Evaluates, EvaluatesAll, IsDefined, with_last};
ghost use Rattle.pure_terms.specs.View.{term_view, terms_view, atom_view};
ghost use Rattle.pure_terms.specs.Wide.{is_wide, has_wide_part};

use crate::atoms::Atom;
use crate::direct::direct_truth;
use crate::literals::Literal;
use crate::terms::{Term, Terms};
use crate::variables::Valuation;
use gil_values::{BinOp, OpFault, UnOp, Value, Values, apply1, apply2};
use std::alloc::{AllocError, Global};
use thiserror::Error;

/// Why the truth of an atom isn't told.
#[derive(Clone, Copy, Debug, PartialEq, Eq, Error)]
pub enum HoldsFault {
    /// The term, or a term that stands in it, has a value that is a whole number below -2^127 or above 2^127 - 1.
    #[error("the number is too wide")]
    Number,
    /// Want of memory.
    #[error("out of memory")]
    Memory,
}

impl From<AllocError> for HoldsFault {
    ghost from_gives = { λ _ fault. fault ≡ Memory };

    fn from(_: AllocError) -> HoldsFault {
        HoldsFault::Memory
    }
}

/// Whether an atom is true under a valuation. On atoms of the fragment it takes no memory.
pub fn holds(alloc: Global, atom: &Atom, valuation: &Valuation) -> Result<bool, HoldsFault>
    ensures ok { IfOk result (λ b. b ≡ truth (values_view valuation.now) (atom_view atom.now)) }
    ensures narrow { IfOk result (λ _. has_wide_part (values_view valuation.now) (term_of (atom_view atom.now)) ≡ false) }
    ensures number { result ≡ Err Number → has_wide_part (values_view valuation.now) (term_of (atom_view atom.now)) ≡ true }

    // Neither fault comes on an atom of the fragment, where the numbers lie between -2^125 and 2^125.
    ensures sure { IsModerate (values_view valuation.now) (atom_view atom.now) → IsOk result }
{
    match direct_truth(atom.term(), valuation) {
        Some(truth) => Ok(truth_of(atom, truth)),
        None => evaluate_atom(alloc, atom, valuation),
    }
}

/// The value of a term, or nothing where it is undefined. Each term that stands in it is evaluated, whatever is undefined.
pub fn value_of(
    alloc: Global,
    term: &Term,
    valuation: &Valuation,
) -> Result<Option<Value>, HoldsFault>
    ensures { Evaluates (values_view valuation.now) (term_view term.now) result }
{
    evaluate(alloc, term, valuation)
}

/// The truth of an atom whose term has this value.
fn truth_of(atom: &Atom, value: bool) -> bool
    ensures { (v : List PureValue) → pure_value v (term_of (atom_view atom.now)) ≡ Some (boolean value) → result ≡ truth v (atom_view atom.now) }
{
    match atom {
        Atom::Holds(_) => value,
        Atom::Not(_) => !value,
        Atom::Open(_) => true,
    }
}

/// The truth of an atom by the values of all that stands in it.
fn evaluate_atom(alloc: Global, atom: &Atom, valuation: &Valuation) -> Result<bool, HoldsFault>
    ensures ok { IfOk result (λ b. b ≡ truth (values_view valuation.now) (atom_view atom.now)) }
    ensures narrow { IfOk result (λ _. has_wide_part (values_view valuation.now) (term_of (atom_view atom.now)) ≡ false) }
    ensures number { result ≡ Err Number → has_wide_part (values_view valuation.now) (term_of (atom_view atom.now)) ≡ true }
{
    match atom {
        Atom::Holds(term) => {
            let value = evaluate(alloc, term, valuation)?;
            Ok(matches!(value, Some(Value::Bool(true))))
        }
        Atom::Not(term) => {
            let value = evaluate(alloc, term, valuation)?;
            Ok(matches!(value, Some(Value::Bool(false))))
        }
        Atom::Open(term) => {
            let value = evaluate(alloc, term, valuation)?;
            Ok(value.is_some())
        }
    }
}

/// The value of a term. Each term that stands in it is evaluated, whatever is undefined.
#[cycle(evaluate)]
fn evaluate(alloc: Global, term: &Term, valuation: &Valuation) -> Result<Option<Value>, HoldsFault>
    ensures { Evaluates (values_view valuation.now) (term_view term.now) result }
{
    match term {
        Term::Lit(literal) => Ok(Some(value_of_literal(alloc, literal)?)),
        Term::Var(variable) => look_up(alloc, variable.number, valuation),
        Term::List(terms) => as_list(evaluate_all(alloc, terms, valuation)),
        Term::Op1(op, operand) => apply_one(alloc, *op, evaluate(alloc, operand, valuation)),
        Term::Op2(op, left, right) => {
            let left = evaluate(alloc, left, valuation);
            let right = evaluate(alloc, right, valuation);
            apply_two(alloc, *op, left, right)
        }
    }
}

/// The values of terms, where all are defined.
#[cycle(evaluate)]
fn evaluate_all(
    alloc: Global,
    terms: &Terms,
    valuation: &Valuation,
) -> Result<Option<Values>, HoldsFault>
    ensures { EvaluatesAll (values_view valuation.now) (from_list (terms_view terms.now)) result }
{
    let mut values = Some(Values::new(alloc));
    for term in &terms.items {
        match evaluate(alloc, term, valuation) {
            Ok(value) => values = add_value(values, value)?,
            Err(fault) => return Err(fault),
        }
    }
    Ok(values)
}

/// The list of values, where all are defined.
fn as_list(values: Result<Option<Values>, HoldsFault>) -> Result<Option<Value>, HoldsFault>
    ensures { (v : List PureValue) (ts : PureTerms) → EvaluatesAll v ts values → Evaluates v (list_of ts) result }
{
    match values {
        Ok(Some(values)) => Ok(Some(Value::List(values))),
        Ok(None) => Ok(None),
        Err(fault) => Err(fault),
    }
}

/// The value of an operator, where that of its operand is defined.
fn apply_one(
    alloc: Global,
    op: UnOp,
    operand: Result<Option<Value>, HoldsFault>,
) -> Result<Option<Value>, HoldsFault>
    ensures { (v : List PureValue) (t : PureTerm) → Evaluates v t operand → Evaluates v (unary_of op t) result }
{
    match operand {
        Ok(Some(value)) => defined(apply1(alloc, op, &value)),
        Ok(None) => Ok(None),
        Err(fault) => Err(fault),
    }
}

/// The value of an operator, where those of its operands are defined.
fn apply_two(
    alloc: Global,
    op: BinOp,
    left: Result<Option<Value>, HoldsFault>,
    right: Result<Option<Value>, HoldsFault>,
) -> Result<Option<Value>, HoldsFault>
    ensures { (v : List PureValue) (s t : PureTerm) → Evaluates v s left → Evaluates v t right → Evaluates v (binary_of op s t) result }
{
    match (left, right) {
        (Ok(Some(left)), Ok(Some(right))) => defined(apply2(alloc, op, &left, &right)),
        (Err(fault), _) => Err(fault),
        (_, Err(fault)) => Err(fault),
        _ => Ok(None),
    }
}

/// The values with one more, where it is defined.
fn add_value(values: Option<Values>, value: Option<Value>) -> Result<Option<Values>, AllocError>
    ensures { IfOk result (λ all. option_map values_view all ≡ with_last (option_map values_view values) (option_map value_view value)) }
{
    match (values, value) {
        (Some(mut values), Some(value)) => {
            values.push(value)?;
            Ok(Some(values))
        }
        _ => Ok(None),
    }
}

/// The value of a variable.
fn look_up(alloc: Global, number: u64, valuation: &Valuation) -> Result<Option<Value>, HoldsFault>
    ensures value { IfOk result (λ o. option_map value_view o ≡ slice_get (values_view valuation.now) number) }
    ensures narrow { IfOk result (λ o. is_wide (option_map value_view o) ≡ false) }
    ensures number { ¬ (result ≡ Err Number) }
{
    match valuation.get(number as usize) {
        Some(value) => Ok(Some(copy_of(alloc, value)?)),
        None => Ok(None),
    }
}

fn value_of_literal(alloc: Global, literal: &Literal) -> Result<Value, AllocError>
    ensures same { IfOk result (λ w. value_view w ≡ literal_value literal.now) }
    ensures narrow { IfOk result (λ w. is_wide (Some (value_view w)) ≡ false) }
{
    match literal {
        Literal::Int(n) => Ok(Value::Int(*n)),
        Literal::Bool(b) => Ok(Value::Bool(*b)),
        Literal::Str(text) => Ok(Value::Str(text.copy(alloc)?)),
        Literal::Kind(kind) => Ok(Value::Kind(*kind)),
        Literal::Proc(name) => Ok(Value::Proc(name.copy(alloc)?)),
    }
}

/// An equal value.
fn copy_of(alloc: Global, value: &Value) -> Result<Value, AllocError>
    ensures same { IfOk result (λ w. value_view w ≡ value_view value.now) }
    ensures narrow { IfOk result (λ w. is_wide (Some (value_view w)) ≡ false) }
{
    match value {
        Value::Int(n) => Ok(Value::Int(*n)),
        Value::Bool(b) => Ok(Value::Bool(*b)),
        Value::Str(text) => Ok(Value::Str(text.copy(alloc)?)),
        Value::Sym(symbol) => Ok(Value::Sym(*symbol)),
        Value::Kind(kind) => Ok(Value::Kind(*kind)),
        Value::Proc(name) => Ok(Value::Proc(name.copy(alloc)?)),
        Value::List(values) => Ok(Value::List(values.copy(alloc)?)),
    }
}

/// What an operator answered, where it is a value.
fn defined(answer: Result<Value, OpFault>) -> Result<Option<Value>, HoldsFault>
    ensures { (outcome : Outcome) → Answers answer outcome → IsDefined outcome result }
{
    match answer {
        Ok(value) => Ok(Some(value)),
        Err(OpFault::Number) => Err(HoldsFault::Number),
        Err(OpFault::Memory) => Err(HoldsFault::Memory),
        Err(_) => Ok(None),
    }
}
