//! The literals of terms.
ghost use Rattle.std.specs.Prelude.{◌≡◌, IfOk};
ghost use Rattle.gil_values.specs.View.{value_view};
ghost use Rattle.pure_terms.specs.Folding.{literal_of};
ghost use Rattle.pure_terms.specs.Kinds.{kind_of_literal};
ghost use Rattle.pure_terms.specs.Meaning.{literal_value};

use gil_values::{Kind, Text, Value};
use std::alloc::{AllocError, Global};

/// A literal: a value in which no symbol occurs and which is no list.
#[derive(Debug, Drop)]
pub enum Literal {
    Int(i128),
    Bool(bool),
    Str(Text),
    Kind(Kind),
    /// A procedure's name.
    Proc(Text),
}

impl Literal {
    /// The literal that is this value, where there is one.
    pub fn from_value(value: Value) -> Option<Literal>
        ensures { result ≡ literal_of (value_view value) }
    {
        match value {
            Value::Int(n) => Some(Literal::Int(n)),
            Value::Bool(b) => Some(Literal::Bool(b)),
            Value::Str(text) => Some(Literal::Str(text)),
            Value::Kind(kind) => Some(Literal::Kind(kind)),
            Value::Proc(name) => Some(Literal::Proc(name)),
            Value::Sym(_) => None,
            Value::List(_) => None,
        }
    }

    /// The literal as a value.
    pub fn value(&self, alloc: Global) -> Result<Value, AllocError>
        ensures { IfOk result (λ v. value_view v ≡ literal_value self.now) }
    {
        match self {
            Literal::Int(n) => Ok(Value::Int(*n)),
            Literal::Bool(b) => Ok(Value::Bool(*b)),
            Literal::Str(text) => Ok(Value::Str(text.copy(alloc)?)),
            Literal::Kind(kind) => Ok(Value::Kind(*kind)),
            Literal::Proc(name) => Ok(Value::Proc(name.copy(alloc)?)),
        }
    }

    /// The kind of the literal's value.
    pub fn kind(&self) -> Kind
        ensures { result ≡ kind_of_literal self.now }
    {
        match self {
            Literal::Int(_) => Kind::Int,
            Literal::Bool(_) => Kind::Bool,
            Literal::Str(_) => Kind::Str,
            Literal::Kind(_) => Kind::Kind,
            Literal::Proc(_) => Kind::Proc,
        }
    }

    /// An equal literal.
    pub fn copy(&self, alloc: Global) -> Result<Literal, AllocError>
        ensures { IfOk result (λ l. l ≡ self.now) }
    {
        match self {
            Literal::Int(n) => Ok(Literal::Int(*n)),
            Literal::Bool(b) => Ok(Literal::Bool(*b)),
            Literal::Str(text) => Ok(Literal::Str(text.copy(alloc)?)),
            Literal::Kind(kind) => Ok(Literal::Kind(*kind)),
            Literal::Proc(name) => Ok(Literal::Proc(name.copy(alloc)?)),
        }
    }
}
