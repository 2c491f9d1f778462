//! Numbers in decimal digits.
ghost use Rattle.std.specs.Prelude.{◌≡◌};
ghost use Rattle.fmp_trace.specs.Steps.{digits_number, numeral_value};
ghost use Rattle.fmp_session.specs.Commands.{capped, count_of, number_of};

/// The greatest number of events, 2^20.
const MOST: u32 = 1 << 20;

/// The number that digits spell, or the one after the greatest number of events where it is greater; none if a byte
/// is no digit.
fn digits_in(text: &[u8]) -> Option<u32>
    ensures { result ≡ capped (digits_number text.now) }
{
    let mut value = 0;
    for byte in text {
        if !byte.is_ascii_digit() {
            return None;
        }
        value = (value * 10 + u32::from(*byte - b'0')).min(MOST + 1);
    }
    Some(value)
}

/// The number that a text spells without leading zeros, as `digits_in` gives it; none if it is no number.
fn numeral_in(text: &[u8]) -> Option<u32>
    ensures { result ≡ capped (numeral_value text.now) }
{
    match text {
        [] | [b'0', _, ..] => None,
        _ => digits_in(text),
    }
}

/// The number from 1 to 2^20 that a text spells.
pub fn count_in(text: &[u8]) -> Option<u32>
    ensures { result ≡ count_of text.now }
{
    let number = numeral_in(text)?;
    if number >= 1 && number <= MOST {
        Some(number)
    } else {
        None
    }
}

/// The number from 1 to `most` that a text spells.
pub fn number_in(text: &[u8], most: u8) -> Option<u8>
    ensures { result ≡ number_of most text.now }
{
    let number = count_in(text)?;
    if number <= u32::from(most) {
        Some(number as u8)
    } else {
        None
    }
}
