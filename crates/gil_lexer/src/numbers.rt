//! The numbers that texts spell.
ghost use Rattle.std.specs.Prelude.{◌≡◌, ℤ, IfSome, IfNone, FitsSigned, ◌^◌, ◌≤◌};
ghost use Rattle.std.specs.Int.{w64};
ghost use Rattle.gil_lexer.specs.Spelling.{SpellsNumber};
ghost use Rattle.gil_lexer.specs.Reading as spec;

// The largest number that digits may write, behind a `-`.
const LARGEST: u128 = 1 << 63;

// The number that digits write, if the text is digits alone, at least one, and it is at most 2^63.
fn magnitude(digits: &[u8]) -> Option<u64>
    ensures value { result ≡ spec.magnitude digits.now }
    ensures fits { IfSome result (λ n. n ≤ 2 ^ 63) }
{
    if digits.is_empty() {
        return None;
    }
    let mut value = 0u64;
    'digits: for byte in digits {
        let digit = char::from(*byte).to_digit(10)?;
        let next = u128::from(value) * 10 + u128::from(digit);
        if next > LARGEST {
            return None;
        }
        value = next as u64;
    }
    Some(value)
}

/// The number of a number's token: its decimal digits, with a `-` before them or without. None where the
/// bytes are no number from -2^63 to 2^63 - 1, or not that alone.
pub fn number_of(text: &[u8]) -> Option<i64>
    ensures some { IfSome result (λ n. SpellsNumber text.now n) }
    ensures none { IfNone result ((n : ℤ) → FitsSigned w64 n → SpellsNumber text.now n → ⊥) }
{
    value(text)
}

// The number that the bytes write.
#[tactic(auto, unfolding(crate::specs::Reading::number_value))]
pub(crate) fn value(text: &[u8]) -> Option<i64>
    ensures { result ≡ spec.number_value text.now }
{
    match text {
        [b'-', digits @ ..] => 0i64.checked_sub_unsigned(magnitude(digits)?),
        digits => 0i64.checked_add_unsigned(magnitude(digits)?),
    }
}
