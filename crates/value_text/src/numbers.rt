//! Numbers.
ghost use Rattle.std.specs.Prelude.{◌≡◌, ◌≤◌, ◌^◌, length, IfSome, IfOk};
ghost use Rattle.std.specs.Char.{is_ascii_digit};
ghost use Rattle.std.specs.List.{prefix_len};
ghost use Rattle.gil_lexer.specs.Bytes.{begins};
ghost use Rattle.value_text.specs.Reading as spec;
ghost use Rattle.value_text.specs.Reading.{Gives};

use crate::faults::ReadFault;
use crate::words::{begins_with, expect};

/// The largest magnitude of a number of 128 bits.
const LARGEST: u128 = 1 << 127;

/// How many digits stand at the front.
fn digits_len(bytes: &[u8]) -> usize
    ensures len { result ≡ prefix_len is_ascii_digit bytes.now }
    ensures within { result ≤ length bytes.now }
{
    bytes.iter().take_while(|b| b.is_ascii_digit()).count()
}

/// Whether the bytes begin as a whole number does.
pub(crate) fn begins_number(bytes: &[u8]) -> bool
    ensures { result ≡ begins spec.is_number_start bytes.now }
{
    match bytes {
        [first, ..] => *first == b'-' || first.is_ascii_digit(),
        [] => false,
    }
}

/// The number that digits write, if the bytes are digits alone, at least one, and it is at most 2^127.
fn magnitude(digits: &[u8]) -> Option<u128>
    ensures value { result ≡ spec.magnitude digits.now }
    ensures fits { IfSome result (λ n. n ≤ 2 ^ 127) }
{
    if digits.is_empty() {
        return None;
    }
    let mut value = 0u128;
    'digits: for byte in digits {
        let digit = char::from(*byte).to_digit(10)?;
        if value > LARGEST / 10 {
            return None;
        }
        let next = value * 10 + u128::from(digit);
        if next > LARGEST {
            return None;
        }
        value = next;
    }
    Some(value)
}

/// The number that the digits at the front write, at most 2^127.
#[tactic(auto, unfolding(crate::specs::Reading::number_at))]
fn number_at(bytes: &[u8]) -> Result<(u128, &[u8]), ReadFault>
    ensures value { Gives (λ x. (x.0, x.1.now)) result (spec.number_at bytes.now) }
    ensures fits { IfOk result (λ x. x.0 ≤ 2 ^ 127) }
{
    let len = digits_len(bytes);
    match magnitude(&bytes[..len]) {
        Some(value) => Ok((value, &bytes[len..])),
        None => Err(ReadFault::Form),
    }
}

/// The number at the front, if it has 64 bits.
#[tactic(auto, unfolding(crate::specs::Reading::natural_at))]
pub fn natural_at(bytes: &[u8]) -> Result<(u64, &[u8]), ReadFault>
    ensures { Gives (λ x. (x.0, x.1.now)) result (spec.natural_at 64 bytes.now) }
{
    let (value, rest) = number_at(bytes)?;
    match u64::try_from(value) {
        Ok(value) => Ok((value, rest)),
        Err(_) => Err(ReadFault::Form),
    }
}

/// The number at the front, if it has 64 bits, as a length.
pub fn long_at(bytes: &[u8]) -> Result<(usize, &[u8]), ReadFault>
    ensures { Gives (λ x. (x.0, x.1.now)) result (spec.natural_at 64 bytes.now) }
{
    let (value, rest) = natural_at(bytes)?;
    Ok((value as usize, rest))
}

/// The number at the front, if it has 32 bits.
#[tactic(auto, unfolding(crate::specs::Reading::natural_at))]
pub fn small_at(bytes: &[u8]) -> Result<(u32, &[u8]), ReadFault>
    ensures { Gives (λ x. (x.0, x.1.now)) result (spec.natural_at 32 bytes.now) }
{
    let (value, rest) = number_at(bytes)?;
    match u32::try_from(value) {
        Ok(value) => Ok((value, rest)),
        Err(_) => Err(ReadFault::Form),
    }
}

/// The whole number at the front, if it has 128 bits.
pub fn integer_at(bytes: &[u8]) -> Result<(i128, &[u8]), ReadFault>
    ensures { Gives (λ x. (x.0, x.1.now)) result (spec.integer_at bytes.now) }
{
    if begins_with(b'-', bytes) {
        negative_at(bytes)
    } else {
        positive_at(bytes)
    }
}

/// The whole number at the front that is behind a minus sign.
#[tactic(auto, unfolding(crate::specs::Reading::negative_at))]
fn negative_at(bytes: &[u8]) -> Result<(i128, &[u8]), ReadFault>
    ensures { Gives (λ x. (x.0, x.1.now)) result (spec.negative_at bytes.now) }
{
    let digits = expect("-", bytes)?;
    let (value, rest) = number_at(digits)?;
    match 0i128.checked_sub_unsigned(value) {
        Some(value) => Ok((value, rest)),
        None => Err(ReadFault::Form),
    }
}

/// The whole number at the front that has no sign.
#[tactic(auto, unfolding(crate::specs::Reading::positive_at))]
fn positive_at(bytes: &[u8]) -> Result<(i128, &[u8]), ReadFault>
    ensures { Gives (λ x. (x.0, x.1.now)) result (spec.positive_at bytes.now) }
{
    let (value, rest) = number_at(bytes)?;
    match i128::try_from(value) {
        Ok(value) => Ok((value, rest)),
        Err(_) => Err(ReadFault::Form),
    }
}
