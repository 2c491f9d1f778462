//! Numbers in decimal digits.
ghost use Rattle.std.specs.Prelude.{◌≡◌, ◌≤◌, ◌<◌};
ghost use Rattle.fmp_expect.specs.Words as spec;
ghost use Rattle.fmp_expect.specs.Words.{capped, digits_number, number_of, numeral_value, signed_number};

/// Greater numbers are read as this one.
const CAP: u64 = 1 << 32;

/// The number that digits spell, at most `CAP`; none if a byte is no digit.
fn digits_in(text: &[u8]) -> Option<u64>
    ensures { result ≡ capped (digits_number text.now) }
{
    let mut value = 0;
    for byte in text {
        if !byte.is_ascii_digit() {
            return None;
        }
        value = (value * 10 + u64::from(*byte - b'0')).min(CAP);
    }
    Some(value)
}

/// The number that a text spells without leading zeros, at most `CAP`; none if it is no number.
fn numeral_in(text: &[u8]) -> Option<u64>
    ensures { result ≡ capped (numeral_value text.now) }
{
    match text {
        [] | [b'0', _, ..] => None,
        _ => digits_in(text),
    }
}

/// The number from `low` to `high` that a text spells.
pub fn number_in(low: u32, high: u32, text: &[u8]) -> Option<u32>
    ensures { result ≡ number_of low high text.now }
{
    let number = numeral_in(text)?;
    if number >= u64::from(low) && number <= u64::from(high) {
        Some(number as u32)
    } else {
        None
    }
}

/// The number that a text spells, with a minus in front just if it is negative.
pub fn signed_in(text: &[u8]) -> Option<i32>
    ensures { result ≡ signed_number text.now }
{
    match text {
        [] => None,
        [b'-', digits @ ..] => {
            let number = number_in(1, 1 << 31, digits)?;
            Some((0 - i64::from(number)) as i32)
        }
        _ => {
            let number = number_in(0, (1 << 31) - 1, text)?;
            Some(number as i32)
        }
    }
}
