//! Terms of the fragment whose values are read off a valuation. No value is made anew, so it takes no memory.
ghost use Rattle.std.specs.Prelude.{◌≡◌, slice_get, IfSome, Some, true, false};
ghost use Rattle.std.specs.Option.{is_some};
ghost use Rattle.gil_values.specs.Equality.{same_value};
ghost use Rattle.gil_values.specs.Pure.{from_list as list_elements};
ghost use Rattle.gil_values.specs.View.{value_view, values_view};
ghost use Rattle.pure_terms.specs.Direct.{
  number_at,
  shifted,
  is_number,
  is_kind_at,
  kind_at,
  equal_at,
  ordered,
  compared_at,
  truth_at,
  is_readable,
  are_readable,
  is_at,
  are_at,
  are_same,
  lists_are_same,
};
ghost use Rattle.pure_terms.specs.Meaning.{literal_value};
ghost use Rattle.pure_terms.specs.Pure.{from_list};
ghost use Rattle.pure_terms.specs.Truth.{have_wide_parts, AreNarrow};
ghost use Rattle.pure_terms.specs.View.{term_view, terms_view};
ghost use Rattle.pure_terms.specs.Wide.{is_wide, has_wide_part};

use crate::literals::Literal;
use crate::terms::{Term, Terms};
use crate::variables::Valuation;
use gil_values::{BinOp, Kind, UnOp, Value, Values};

/// The truth of a Bool variable, of an equality of simple terms, of an order of whole numbers, and of a test of a variable's
/// kind, where it is read off the valuation.
pub(crate) fn direct_truth(term: &Term, valuation: &Valuation) -> Option<bool>
    ensures truth { result ≡ truth_at (values_view valuation.now) (term_view term.now) }
    ensures narrow { IfSome result (λ _. has_wide_part (values_view valuation.now) (term_view term.now) ≡ false) }
{
    match term {
        Term::Lit(_) => None,
        Term::Var(variable) => match valuation.get(variable.number as usize) {
            Some(Value::Bool(b)) => Some(*b),
            _ => None,
        },
        Term::List(_) => None,
        Term::Op1(_, _) => None,
        Term::Op2(op, left, right) => compare(*op, left, right, valuation),
    }
}

/// The truth of a comparison.
fn compare(op: BinOp, left: &Term, right: &Term, valuation: &Valuation) -> Option<bool>
    ensures truth { result ≡ compared_at (values_view valuation.now) op (term_view left.now) (term_view right.now) }
    ensures narrow { IfSome result (λ _. AreNarrow (values_view valuation.now) (term_view left.now) (term_view right.now)) }
{
    match op {
        BinOp::Equal => match test_kind(left, right, valuation) {
            Some(b) => Some(b),
            None => compare_values(left, right, valuation),
        },
        _ => compare_numbers(op, left, right, valuation),
    }
}

/// Whether a variable's value has a kind.
fn test_kind(left: &Term, right: &Term, valuation: &Valuation) -> Option<bool>
    ensures truth { result ≡ kind_at (values_view valuation.now) (term_view left.now) (term_view right.now) }
    ensures narrow { IfSome result (λ _. AreNarrow (values_view valuation.now) (term_view left.now) (term_view right.now)) }
{
    match (left, right) {
        (Term::Op1(UnOp::Kind, operand), Term::Lit(Literal::Kind(kind))) => {
            has_kind(operand, *kind, valuation)
        }
        _ => None,
    }
}

fn has_kind(term: &Term, kind: Kind, valuation: &Valuation) -> Option<bool>
    ensures truth { result ≡ is_kind_at (values_view valuation.now) (term_view term.now) kind }
    ensures narrow { IfSome result (λ _. has_wide_part (values_view valuation.now) (term_view term.now) ≡ false) }
{
    match term {
        Term::Var(variable) => match valuation.get(variable.number as usize) {
            Some(value) if is_held_value(value) => Some(value.kind() == kind),
            _ => None,
        },
        _ => None,
    }
}

/// Whether two simple terms have the same value.
fn compare_values(left: &Term, right: &Term, valuation: &Valuation) -> Option<bool>
    ensures truth { result ≡ equal_at (values_view valuation.now) (term_view left.now) (term_view right.now) }
    ensures narrow { IfSome result (λ _. AreNarrow (values_view valuation.now) (term_view left.now) (term_view right.now)) }
{
    if is_readable_term(left, valuation) && is_readable_term(right, valuation) {
        Some(are_same_terms(left, right, valuation))
    } else {
        None
    }
}

/// Whether a whole number is less than another, or at most that.
fn compare_numbers(op: BinOp, left: &Term, right: &Term, valuation: &Valuation) -> Option<bool>
    ensures truth { result ≡ ordered op (number_at (values_view valuation.now) (term_view left.now)) (number_at (values_view valuation.now) (term_view right.now)) }
    ensures narrow { IfSome result (λ _. AreNarrow (values_view valuation.now) (term_view left.now) (term_view right.now)) }
{
    match (op, number_of(left, valuation), number_of(right, valuation)) {
        (BinOp::Less, Some(m), Some(n)) => Some(m < n),
        (BinOp::LessOrEqual, Some(m), Some(n)) => Some(m <= n),
        _ => None,
    }
}

/// The whole number that a literal or a variable is, or one plus or minus another.
fn number_of(term: &Term, valuation: &Valuation) -> Option<i128>
    ensures number { result ≡ number_at (values_view valuation.now) (term_view term.now) }
    ensures narrow { IfSome result (λ _. has_wide_part (values_view valuation.now) (term_view term.now) ≡ false) }
{
    match term {
        Term::Lit(Literal::Int(n)) => Some(*n),
        Term::Lit(_) => None,
        Term::Var(variable) => match valuation.get(variable.number as usize) {
            Some(Value::Int(n)) => Some(*n),
            _ => None,
        },
        Term::List(_) => None,
        Term::Op1(_, _) => None,
        Term::Op2(op, left, right) => {
            let left = number_of(left, valuation);
            let right = number_of(right, valuation);
            shift(*op, left, right)
        }
    }
}

/// One number plus or minus another, where 128 bits hold it.
fn shift(op: BinOp, left: Option<i128>, right: Option<i128>) -> Option<i128>
    ensures { result ≡ shifted op left right }
{
    match (op, left, right) {
        (BinOp::Add, Some(m), Some(n)) => m.checked_add(n),
        (BinOp::Subtract, Some(m), Some(n)) => m.checked_sub(n),
        _ => None,
    }
}

/// Whether each variable of a term has a value, and 128 bits hold each number that is made.
#[cycle(readable)]
fn is_readable_term(term: &Term, valuation: &Valuation) -> bool
    ensures readable { result ≡ is_readable (values_view valuation.now) (term_view term.now) }
    ensures narrow { result ≡ true → has_wide_part (values_view valuation.now) (term_view term.now) ≡ false }
{
    match term {
        Term::Lit(literal) => is_held_literal(literal),
        Term::Var(variable) => has_value(variable.number, valuation),
        Term::List(terms) => are_readable_terms(terms, valuation),
        Term::Op1(_, _) => false,
        Term::Op2(_, _, _) => number_of(term, valuation).is_some(),
    }
}

/// Whether a variable has a value.
fn has_value(number: u64, valuation: &Valuation) -> bool
    ensures value { result ≡ is_some (slice_get (values_view valuation.now) number) }
    ensures narrow { is_wide (slice_get (values_view valuation.now) number) ≡ false }
{
    match valuation.get(number as usize) {
        Some(value) => is_held_value(value),
        None => false,
    }
}

/// Every literal is held: its whole number, where it is one, has 128 bits.
fn is_held_literal(literal: &Literal) -> bool
    ensures held { result ≡ true }
    ensures narrow { is_wide (Some (literal_value literal.now)) ≡ false }
{
    match literal {
        Literal::Int(n) => *n <= i128::MAX,
        Literal::Bool(_) => true,
        Literal::Str(_) => true,
        Literal::Kind(_) => true,
        Literal::Proc(_) => true,
    }
}

/// Every value is held: its whole number, where it is one, has 128 bits.
fn is_held_value(value: &Value) -> bool
    ensures held { result ≡ true }
    ensures narrow { is_wide (Some (value_view value.now)) ≡ false }
{
    match value {
        Value::Int(n) => *n <= i128::MAX,
        Value::Bool(_) => true,
        Value::Str(_) => true,
        Value::Sym(_) => true,
        Value::Kind(_) => true,
        Value::Proc(_) => true,
        Value::List(_) => true,
    }
}

#[cycle(readable)]
fn are_readable_terms(terms: &Terms, valuation: &Valuation) -> bool
    ensures readable { result ≡ are_readable (values_view valuation.now) (from_list (terms_view terms.now)) }
    ensures narrow { result ≡ true → have_wide_parts (values_view valuation.now) (from_list (terms_view terms.now)) ≡ false }
{
    for term in &terms.items {
        if !is_readable_term(term, valuation) {
            return false;
        }
    }
    true
}

/// Whether a literal is a value.
fn literal_is(literal: &Literal, value: &Value) -> bool
    ensures { result ≡ same_value (literal_value literal.now) (value_view value.now) }
{
    match (literal, value) {
        (Literal::Int(m), Value::Int(n)) => *m == *n,
        (Literal::Bool(p), Value::Bool(q)) => *p == *q,
        (Literal::Str(s), Value::Str(t)) => *s == *t,
        (Literal::Kind(k), Value::Kind(l)) => *k == *l,
        (Literal::Proc(f), Value::Proc(g)) => *f == *g,
        _ => false,
    }
}

/// Whether a value is a whole number, where there is one.
fn number_is(number: Option<i128>, value: &Value) -> bool
    ensures { result ≡ is_number number (value_view value.now) }
{
    match (number, value) {
        (Some(m), Value::Int(n)) => m == *n,
        _ => false,
    }
}

/// Whether a term has a value.
#[cycle(has)]
fn term_is(term: &Term, value: &Value, valuation: &Valuation) -> bool
    ensures { result ≡ is_at (values_view valuation.now) (term_view term.now) (value_view value.now) }
{
    match term {
        Term::Lit(literal) => literal_is(literal, value),
        Term::Var(variable) => match valuation.get(variable.number as usize) {
            Some(other) => *other == *value,
            None => false,
        },
        Term::List(terms) => match value {
            Value::List(values) => terms_are(terms, values, valuation),
            _ => false,
        },
        Term::Op1(_, _) => false,
        Term::Op2(_, _, _) => number_is(number_of(term, valuation), value),
    }
}

/// Whether terms have these values, one by one.
#[cycle(has)]
fn terms_are(terms: &Terms, values: &Values, valuation: &Valuation) -> bool
    ensures { result ≡ are_at (values_view valuation.now) (from_list (terms_view terms.now)) (list_elements (values_view values.now)) }
{
    let elements = values.as_slice();
    if terms.items.len() != elements.len() {
        return false;
    }
    for (index, term) in terms.items.iter().enumerate() {
        if !term_is(term, &elements[index], valuation) {
            return false;
        }
    }
    true
}

/// Whether a term has the value of a literal.
fn term_is_literal(term: &Term, literal: &Literal, valuation: &Valuation) -> bool
    ensures { result ≡ is_at (values_view valuation.now) (term_view term.now) (literal_value literal.now) }
{
    match term {
        Term::Lit(other) => *other == *literal,
        Term::Var(variable) => match valuation.get(variable.number as usize) {
            Some(value) => literal_is(literal, value),
            None => false,
        },
        Term::List(_) => false,
        Term::Op1(_, _) => false,
        Term::Op2(_, _, _) => is_number_literal(number_of(term, valuation), literal),
    }
}

/// Whether a literal is a whole number, where there is one.
fn is_number_literal(number: Option<i128>, literal: &Literal) -> bool
    ensures { result ≡ is_number number (literal_value literal.now) }
{
    match (number, literal) {
        (Some(m), Literal::Int(n)) => m == *n,
        _ => false,
    }
}

/// Whether two terms have the same value.
#[cycle(alike)]
fn are_same_terms(left: &Term, right: &Term, valuation: &Valuation) -> bool
    ensures { result ≡ are_same (values_view valuation.now) (term_view left.now) (term_view right.now) }
{
    match left {
        Term::List(terms) => match right {
            Term::List(others) => are_same_lists(terms, others, valuation),
            Term::Var(variable) => match valuation.get(variable.number as usize) {
                Some(value) => term_is(left, value, valuation),
                None => false,
            },
            _ => false,
        },
        Term::Lit(literal) => term_is_literal(right, literal, valuation),
        Term::Var(variable) => match valuation.get(variable.number as usize) {
            Some(value) => term_is(right, value, valuation),
            None => false,
        },
        Term::Op1(_, _) => false,
        Term::Op2(_, _, _) => match number_of(left, valuation) {
            Some(n) => term_is(right, &Value::Int(n), valuation),
            None => false,
        },
    }
}

#[cycle(alike)]
fn are_same_lists(terms: &Terms, others: &Terms, valuation: &Valuation) -> bool
    ensures { result ≡ lists_are_same (values_view valuation.now) (from_list (terms_view terms.now)) (from_list (terms_view others.now)) }
{
    if terms.items.len() != others.items.len() {
        return false;
    }
    for (index, term) in terms.items.iter().enumerate() {
        if !are_same_terms(term, &others.items[index], valuation) {
            return false;
        }
    }
    true
}
