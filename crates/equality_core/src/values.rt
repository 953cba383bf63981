//! The values of classes.
ghost use Rattle.std.specs.Prelude.{◌≡◌, ◌+◌, ◌<◌, slice_get, length, Some, None, IfOk, IsSome};
ghost use Rattle.gil_values.specs.View.{value_view, values_view};
ghost use Rattle.gil_values.specs.declared.kinds.Kind.{Kind};
ghost use Rattle.equality_core.specs.Classes.{classes_view, given_list};
ghost use Rattle.equality_core.specs.Valued.{FitNumbers};
ghost use Rattle.equality_core.specs.Values.{IsInTable, new_value, IsValueOf, AreValues, HasRoot, HaveFewLetters, IsClassed};

use crate::classes::Classes;
use crate::letters::text_of;
use crate::rooting::{first_with, int_with, literal_with};
use gil_values::{Kind, Value, Values};
use pure_terms::{Sort, Valuation, Var, VarTable};
use sequence::Sequence;
use std::alloc::{AllocError, Global};

/// The kinds of the variables 0, 1, 2 and so on.
pub type Kinds = Sequence<Kind>;

/// One more than the greatest number that is given to an Int variable: 2^124 + 1.
const FIRST_NEW: i128 = 21267647932558653966460912964485513217;

/// The length of a new text.
fn new_length(long: usize, key: usize) -> Result<usize, AllocError>
    ensures { IfOk result (λ n. n ≡ long + 1 + key) }
{
    match long.checked_add(1) {
        Some(first) => match first.checked_add(key) {
            Some(count) => Ok(count),
            None => Err(AllocError),
        },
        None => Err(AllocError),
    }
}

/// A list of one number.
fn list_of(alloc: Global, key: usize) -> Result<Value, AllocError>
    ensures { IfOk result (λ w. value_view w ≡ new_value 0 Kind.List key) }
{
    let mut values = Values::new(alloc);
    values.push(Value::Int(key as i128))?;
    Ok(Value::List(values))
}

/// A value of a kind, another one for each key.
fn new_value(alloc: Global, long: usize, kind: Kind, key: usize) -> Result<Value, AllocError>
    ensures { IfOk result (λ w. value_view w ≡ new_value long kind key) }
{
    match kind {
        Kind::Int => Ok(Value::Int(FIRST_NEW + key as i128)),
        Kind::Bool => Ok(Value::Bool(false)),
        Kind::Str => Ok(Value::Str(text_of(alloc, new_length(long, key)?)?)),
        Kind::Sym => Ok(Value::Sym(key as u64)),
        Kind::Kind => Ok(Value::Kind(Kind::Int)),
        Kind::Proc => Ok(Value::Proc(text_of(alloc, new_length(long, key)?)?)),
        Kind::List => list_of(alloc, key),
        Kind::Undef => Ok(Value::Bool(false)),
        Kind::Null => Ok(Value::Bool(false)),
    }
}

/// The value that a list has at a place.
fn value_at(alloc: Global, values: &Values, place: usize) -> Result<Value, AllocError>
    requires { IsSome (slice_get (values_view values.now) place) }
    ensures { IfOk result (λ w. slice_get (values_view values.now) place ≡ Some (value_view w)) }
{
    match values.get(place) {
        Some(value) => value.copy(alloc),
        None => unreachable!(),
    }
}

/// The value of a variable that has a node.
fn value_in_class(
    alloc: Global,
    classes: &Classes,
    vars: &VarTable,
    roots: &[Option<usize>],
    numbers: &Valuation,
    kinds: &Kinds,
    long: usize,
    x: Var,
    kind: Kind,
    root: usize,
) -> Result<Value, AllocError>
    requires classed { IsClassed vars.now (classes_view classes.now) roots.now }
    requires numbers { FitNumbers vars.now (given_list (classes_view classes.now)) (values_view numbers.now) }
    requires long { HaveFewLetters long (classes_view classes.now).nodes }
    requires there { IsInTable vars.now x }
    requires kind { slice_get kinds.now x.number ≡ Some kind }
    requires has { HasRoot roots.now root x.number }
    ensures { IfOk result (λ w. IsValueOf vars.now (given_list (classes_view classes.now))
        (values_view numbers.now) kinds.now long x (value_view w)) }
{
    if let Some(literal) = literal_with(classes.nodes.items.as_slice(), root) {
        return literal.value(alloc);
    }
    match int_with(vars.as_slice(), roots, root) {
        Some(other) => value_at(alloc, numbers, other),
        None => new_value(
            alloc,
            long,
            kind,
            first_with(roots, root, x.number as usize),
        ),
    }
}

/// The value of a variable that has none.
fn value_alone(
    alloc: Global,
    classes: &Classes,
    vars: &VarTable,
    roots: &[Option<usize>],
    numbers: &Valuation,
    kinds: &Kinds,
    long: usize,
    x: Var,
    kind: Kind,
) -> Result<Value, AllocError>
    requires classed { IsClassed vars.now (classes_view classes.now) roots.now }
    requires numbers { FitNumbers vars.now (given_list (classes_view classes.now)) (values_view numbers.now) }
    requires there { IsInTable vars.now x }
    requires kind { slice_get kinds.now x.number ≡ Some kind }
    requires none { slice_get roots.now x.number ≡ Some None }
    ensures { IfOk result (λ w. IsValueOf vars.now (given_list (classes_view classes.now))
        (values_view numbers.now) kinds.now long x (value_view w)) }
{
    match x.sort {
        Sort::Int => value_at(alloc, numbers, x.number as usize),
        _ => new_value(alloc, long, kind, x.number as usize),
    }
}

fn root_at(roots: &[Option<usize>], place: usize) -> Option<usize>
    requires { place < length roots.now }
    ensures { slice_get roots.now place ≡ Some result }
{
    roots[place]
}

/// The value of a variable.
fn value_of(
    alloc: Global,
    classes: &Classes,
    vars: &VarTable,
    roots: &[Option<usize>],
    numbers: &Valuation,
    kinds: &Kinds,
    long: usize,
    x: Var,
    kind: Kind,
) -> Result<Value, AllocError>
    requires classed { IsClassed vars.now (classes_view classes.now) roots.now }
    requires numbers { FitNumbers vars.now (given_list (classes_view classes.now)) (values_view numbers.now) }
    requires long { HaveFewLetters long (classes_view classes.now).nodes }
    requires there { IsInTable vars.now x }
    requires kind { slice_get kinds.now x.number ≡ Some kind }
    ensures { IfOk result (λ w. IsValueOf vars.now (given_list (classes_view classes.now))
        (values_view numbers.now) kinds.now long x (value_view w)) }
{
    match root_at(roots, x.number as usize) {
        Some(root) => value_in_class(
            alloc, classes, vars, roots, numbers, kinds, long, x, kind, root,
        ),
        None => value_alone(alloc, classes, vars, roots, numbers, kinds, long, x, kind),
    }
}

/// The values of all variables of a table.
pub(crate) fn values_of(
    alloc: Global,
    classes: &Classes,
    vars: &VarTable,
    roots: &[Option<usize>],
    numbers: &Valuation,
    kinds: &Kinds,
    long: usize,
) -> Result<Valuation, AllocError>
    requires classed { IsClassed vars.now (classes_view classes.now) roots.now }
    requires numbers { FitNumbers vars.now (given_list (classes_view classes.now)) (values_view numbers.now) }
    requires long { HaveFewLetters long (classes_view classes.now).nodes }
    requires one_each { length kinds.now ≡ length vars.now }
    ensures { IfOk result (λ v. AreValues vars.now (given_list (classes_view classes.now))
        (values_view numbers.now) kinds.now long (values_view v)) }
{
    let sorts = vars.as_slice();
    let kind_list = kinds.as_slice();
    let mut values = Values::new(alloc);
    for (number, sort) in sorts.iter().enumerate() {
        let x = Var {
            number: number as u64,
            sort: *sort,
        };
        let kind = kind_list[number];
        let value = value_of(alloc, classes, vars, roots, numbers, kinds, long, x, kind)?;
        values.push(value)?;
    }
    Ok(values)
}
