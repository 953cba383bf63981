//! Values for classes of variables. This makes a guess, and no answer rests on it.
use crate::facts::{Fact, Facts, bit_of, literal_said, truth_of};
use crate::joining::Classes;
use crate::numbering::Numbers;
use gil_values::{Kind, Text, Value, Values};
use pure_terms::{Atoms, Literal, Sort, Valuation, VarTable};
use std::alloc::{AllocError, Global};

/// The kinds that are tried for a class of which none is known: those of which there is always a new value come first.
const KINDS: [Kind; 6] = [
    Kind::Sym,
    Kind::Str,
    Kind::Int,
    Kind::Proc,
    Kind::Bool,
    Kind::Kind,
];

/// The most letters that a new text begins with.
const LONGEST: usize = 100;

/// The kind of a class, or one that it may have.
pub(crate) fn kind_for(fact: Fact) -> Kind {
    if let Some(kind) = fact.kind {
        return kind;
    }
    for kind in KINDS.as_slice() {
        if fact.barred & bit_of(*kind) == 0 {
            return *kind;
        }
    }
    Kind::List
}

fn letters_of(literal: &Literal) -> usize {
    match literal {
        Literal::Str(text) => text.as_str().len(),
        Literal::Proc(name) => name.as_str().len(),
        _ => 0,
    }
}

/// More letters than a text of a class has, if these are few.
fn letters_before(list: &Atoms, facts: &Facts) -> usize {
    let mut most: usize = 0;
    for fact in &facts.items {
        if let Some(said) = fact.said {
            if let Some(literal) = literal_said(list, said) {
                most = most.max(letters_of(literal));
            }
        }
    }
    most.min(LONGEST) + 1
}

fn letter(digit: usize) -> &'static str {
    match digit % 4 {
        0 => "a",
        1 => "b",
        2 => "c",
        _ => "d",
    }
}

fn push_letter(alloc: Global, text: &mut Text, digit: usize) -> Result<(), AllocError> {
    match Text::from_str(alloc, letter(digit))? {
        Some(one) => text.push_text(&one),
        None => Ok(()),
    }
}

/// A text for a number: so many letters, and then its digits.
fn text_for(alloc: Global, before: usize, number: usize) -> Result<Text, AllocError> {
    let Some(mut text) = Text::from_str(alloc, "")? else {
        return Err(AllocError);
    };
    for _turn in 0..before {
        push_letter(alloc, &mut text, 0)?;
    }
    let mut rest = number;
    for _turn in 0..32 {
        if rest == 0 {
            return Ok(text);
        }
        push_letter(alloc, &mut text, rest)?;
        rest /= 4;
    }
    Ok(text)
}

/// The value of a class.
fn value_for(
    alloc: Global,
    list: &Atoms,
    fact: Fact,
    number: i128,
    before: usize,
) -> Result<Value, AllocError> {
    if let Some(said) = fact.said {
        if let Some(truth) = truth_of(list, said) {
            return Ok(Value::Bool(truth));
        }
        if let Some(literal) = literal_said(list, said) {
            return literal.value(alloc);
        }
    }
    match kind_for(fact) {
        Kind::Int => Ok(Value::Int(number)),
        Kind::Str => Ok(Value::Str(text_for(alloc, before, fact.least)?)),
        Kind::Sym => Ok(Value::Sym(fact.least as u64)),
        Kind::Proc => Ok(Value::Proc(text_for(alloc, before, fact.least)?)),
        Kind::Kind => Ok(Value::Kind(Kind::Int)),
        _ => Ok(Value::Bool(fact.truth)),
    }
}

/// A value for each variable of a table.
pub(crate) fn values_by(
    alloc: Global,
    vars: &VarTable,
    list: &Atoms,
    classes: &Classes,
    facts: &Facts,
    numbers: &Numbers,
) -> Result<Valuation, AllocError> {
    let before = letters_before(list, facts);
    let mut values = Values::new(alloc);
    for (variable, sort) in vars.as_slice().iter().enumerate() {
        let root = classes.root(variable);
        let value = match facts.get(root) {
            Some(fact) => value_for(alloc, list, fact, numbers.of_class(root), before)?,
            None => Value::Bool(*sort == Sort::Bool),
        };
        values.push(value)?;
    }
    Ok(values)
}
