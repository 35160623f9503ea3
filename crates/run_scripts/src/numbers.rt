//! The numbers that words spell: an `i32` with a sign or none, a position, and a `u64`.
//!
//! Definition: `Numbers`. A word that spells no number, or one out of range, has none.

ghost use Rattle.std.specs.Prelude.{◌≡◌, ◌-◌, ◌^◌};
ghost use Rattle.run_scripts.specs.Numbers as spec;
ghost use Rattle.run_scripts.specs.Private.Arguments.{within_position};
ghost use Rattle.run_scripts.specs.Private.Digits as private;

/// The number that a word spells: one or more digits, with a `-` before them or none, where it fits
/// an `i32`.
pub fn number_of(word: &[u8]) -> Option<i32>
    ensures { result ≡ spec.number_of word.now }
{
    match word {
        [b'-', digits @ ..] => {
            let value = u32::try_from(natural_of(digits)?).ok()?;
            i32::try_from(-i64::from(value)).ok()
        }
        digits => i32::try_from(natural_of(digits)?).ok(),
    }
}

/// The position that a word spells: one or more digits, where their value fits a `u32`.
pub fn position_of(word: &[u8]) -> Option<usize>
    ensures { result ≡ spec.position_of word.now }
{
    position(natural_of(word)?)
}

/// The position that a number is, where it fits a `u32`.
pub(crate) fn position(number: u64) -> Option<usize>
    ensures { result ≡ within_position number }
{
    Some(u32::try_from(number).ok()? as usize)
}

/// The value of one or more digits, where it fits a `u64`.
pub fn natural_of(word: &[u8]) -> Option<u64>
    ensures { result ≡ spec.natural_of (2 ^ 64 - 1) word.now }
{
    if word.is_empty() {
        return None;
    }
    let mut value = 0u64;
    for byte in word {
        value = with_digit(value, *byte)?;
    }
    Some(value)
}

/// The value with one more digit at its end, where it fits a `u64`.
fn with_digit(value: u64, byte: u8) -> Option<u64>
    ensures { result ≡ private.with_digit value byte }
{
    if !byte.is_ascii_digit() {
        return None;
    }
    value.checked_mul(10)?.checked_add(u64::from(byte - b'0'))
}
