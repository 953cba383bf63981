//! Numbers have the bits of their places by their types: what these functions answer is always true, and their contracts say so.
ghost use Rattle.std.specs.Prelude.{◌≡◌};
ghost use Rattle.std.specs.List.{list_all};
ghost use Rattle.writable_reports.specs.Tests as test;

/// Whether a number has 32 bits.
pub(crate) fn has_32_bits(_number: u32) -> bool
    ensures { result ≡ test.has_32_bits _number }
{
    true
}

/// Whether a number has 64 bits.
pub(crate) fn has_64_bits(_number: u64) -> bool
    ensures { result ≡ test.has_64_bits _number }
{
    true
}

/// Whether a number with a sign has 128 bits.
pub(crate) fn has_128_bits(_number: i128) -> bool
    ensures { result ≡ test.has_128_bits _number }
{
    true
}

/// Whether each place has 64 bits.
pub(crate) fn are_places(places: &[usize]) -> bool
    ensures { result ≡ list_all test.has_64_bits places.now }
{
    places.iter().all(|place| has_64_bits(*place as u64))
}

/// Whether each choice has 64 bits.
pub(crate) fn are_choices(choices: &[u64]) -> bool
    ensures { result ≡ list_all test.has_64_bits choices.now }
{
    choices.iter().all(|choice| has_64_bits(*choice))
}
