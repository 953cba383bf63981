//! Equality of values, which goes down a value's own nesting alone.
ghost use Rattle.std.specs.Prelude.{◌≡◌};
ghost use Rattle.std.specs.Cmp.{on_equiv, on_per, partial_equiv_from_equiv};
ghost use Rattle.gil_values.specs.Equality.{same_value, same_elements, EqualityIsIdentity};
ghost use Rattle.gil_values.specs.EqualityLaws.{same_value-equivalence, same_elements-equivalence};
ghost use Rattle.gil_values.specs.View.{value_view, values_view};

use crate::tree::{Value, Values};

/// Values are equal where they are of one kind and the same in what they hold.
impl PartialEq for Value {
    ghost eq = { λ v w. same_value (value_view v) (value_view w) };

    ghost laws = { on_per value_view (partial_equiv_from_equiv same_value-equivalence) };

    fn eq(&self, other: &Value) -> bool {
        are_equal(self, other)
    }
}

impl Eq for Value {
    ghost laws = { on_equiv value_view same_value-equivalence };
}

/// Lists of values are equal where they are so element by element.
impl PartialEq for Values {
    ghost eq = { λ vs ws. same_elements (values_view vs) (values_view ws) };

    ghost laws = { on_per values_view (partial_equiv_from_equiv same_elements-equivalence) };

    fn eq(&self, other: &Values) -> bool {
        are_equal_lists(self, other)
    }
}

impl Eq for Values {
    ghost laws = { on_equiv values_view same_elements-equivalence };
}

/// The law of equality: values are equal exactly where they are the same pure data.
pub fn equality_is_identity()
    ensures { EqualityIsIdentity }
{}

#[cycle(same)]
fn are_equal(a: &Value, b: &Value) -> bool
    ensures { result ≡ same_value (value_view a.now) (value_view b.now) }
{
    match (a, b) {
        (Value::Int(m), Value::Int(n)) => *m == *n,
        (Value::Bool(p), Value::Bool(q)) => *p == *q,
        (Value::Str(s), Value::Str(t)) => *s == *t,
        (Value::Sym(m), Value::Sym(n)) => *m == *n,
        (Value::Kind(k), Value::Kind(l)) => *k == *l,
        (Value::Proc(f), Value::Proc(g)) => *f == *g,
        (Value::List(vs), Value::List(ws)) => are_equal_lists(vs, ws),
        _ => false,
    }
}

#[cycle(same)]
fn are_equal_lists(vs: &Values, ws: &Values) -> bool
    ensures { result ≡ same_elements (values_view vs.now) (values_view ws.now) }
{
    if vs.items.len() != ws.items.len() {
        return false;
    }
    for (index, v) in vs.items.iter().enumerate() {
        if !are_equal(v, &ws.items[index]) {
            return false;
        }
    }
    true
}
