//! Values and lists of values.
ghost use Rattle.std.specs.Prelude.{◌≡◌, [], ◌∷◌, ◌++◌, length, map, slice_get, IfOk, OnOk, OnErr};
ghost use Rattle.std.specs.Option.{option_map};
ghost use Rattle.std.specs.Slice.Iter.{iter_rest};
ghost use Rattle.gil_values.specs.View.{value_view, values_view};
ghost use Rattle.gil_values.specs.Pure.{kind_of};

use crate::kinds::Kind;
use crate::texts::Text;
use std::alloc::{AllocError, Global};
use std::slice::Iter;

/// A value of GIL. Contracts see it as its pure data, by `value_view`.
#[cycle(value)]
#[derive(Debug, Drop)]
pub enum Value {
    Int(i128),
    Bool(bool),
    Str(Text),
    Sym(u64),
    Kind(Kind),
    Proc(Text),
    List(Values),
}

/// A list of values. Contracts see it as a list of pure data, by `values_view`.
#[cycle(value)]
#[derive(Debug, Drop)]
pub struct Values {
    pub(crate) items: Vec<Value>,
}

impl Value {
    /// The kind of the value.
    pub fn kind(&self) -> Kind
        ensures { result ≡ kind_of (value_view self.now) }
    {
        match self {
            Value::Int(_) => Kind::Int,
            Value::Bool(_) => Kind::Bool,
            Value::Str(_) => Kind::Str,
            Value::Sym(_) => Kind::Sym,
            Value::Kind(_) => Kind::Kind,
            Value::Proc(_) => Kind::Proc,
            Value::List(_) => Kind::List,
        }
    }

    /// An equal value.
    pub fn copy(&self, alloc: Global) -> Result<Value, AllocError>
        ensures { IfOk result (λ v. value_view v ≡ value_view self.now) }
    {
        copy_value(alloc, self)
    }
}

impl Values {
    /// The empty list, which takes no memory.
    pub fn new(alloc: Global) -> Values
        ensures { values_view result ≡ [] }
    {
        Values {
            items: Vec::new(alloc),
        }
    }

    /// How many values there are.
    pub fn len(&self) -> usize
        ensures { result ≡ length (values_view self.now) }
    {
        self.items.len()
    }

    /// The value at a place of the list, counted from 0.
    pub fn get(&self, index: usize) -> Option<&Value>
        ensures { option_map (λ v. value_view v.now) result ≡ slice_get (values_view self.now) index }
    {
        self.items.get(index)
    }

    /// Adds a value at the end.
    pub fn push(&mut self, value: Value) -> Result<(), AllocError>
        ensures ok { OnOk result (values_view self.new ≡ values_view self.old ++ value_view value ∷ []) }
        ensures err { OnErr result (values_view self.new ≡ values_view self.old) }
    {
        self.items.push(value)?;
        Ok(())
    }

    /// Goes over the values in order.
    pub fn iter(&self) -> Iter<'_, Value>
        ensures { map value_view (iter_rest result) ≡ values_view self.now }
    {
        self.items.iter()
    }

    /// The values as a slice.
    pub fn as_slice(&self) -> &[Value]
        ensures { map value_view result.now ≡ values_view self.now }
    {
        self.items.as_slice()
    }

    /// An equal list.
    pub fn copy(&self, alloc: Global) -> Result<Values, AllocError>
        ensures { IfOk result (λ vs. values_view vs ≡ values_view self.now) }
    {
        copy_values(alloc, self)
    }
}

#[cycle(copy)]
fn copy_value(alloc: Global, value: &Value) -> Result<Value, AllocError>
    ensures { IfOk result (λ v. value_view v ≡ value_view value.now) }
{
    match value {
        Value::Int(n) => Ok(Value::Int(*n)),
        Value::Bool(b) => Ok(Value::Bool(*b)),
        Value::Str(text) => Ok(Value::Str(text.copy(alloc)?)),
        Value::Sym(symbol) => Ok(Value::Sym(*symbol)),
        Value::Kind(kind) => Ok(Value::Kind(*kind)),
        Value::Proc(name) => Ok(Value::Proc(name.copy(alloc)?)),
        Value::List(values) => Ok(Value::List(copy_values(alloc, values)?)),
    }
}

#[cycle(copy)]
fn copy_values(alloc: Global, values: &Values) -> Result<Values, AllocError>
    ensures { IfOk result (λ vs. values_view vs ≡ values_view values.now) }
{
    let mut items = Vec::with_capacity(alloc, values.items.len())?;
    for value in &values.items {
        items.push(copy_value(alloc, value)?)?;
    }
    Ok(Values { items })
}
