//! Numbers in decimal digits, of any length.
ghost use Rattle.std.specs.Prelude.{◌≡◌};
ghost use Rattle.fmp_trace.specs.Steps.{digits_number, numeral_value, capped, ranged_number};

use crate::faults::Flaw;

/// Greater numbers are read as this one.
const CAP: u32 = 1000;

/// The number that digits spell, at most `CAP`; none if a byte is no digit.
fn digits_in(text: &[u8]) -> Option<u32>
    ensures { result ≡ capped (digits_number text.now) }
{
    let mut value = 0;
    for byte in text {
        if !byte.is_ascii_digit() {
            return None;
        }
        value = (value * 10 + u32::from(*byte - b'0')).min(CAP);
    }
    Some(value)
}

/// The number that a text spells without leading zeros, at most `CAP`; none if it is no number.
fn number_in(text: &[u8]) -> Option<u32>
    ensures { result ≡ capped (numeral_value text.now) }
{
    match text {
        [] | [b'0', _, ..] => None,
        _ => digits_in(text),
    }
}

/// The number that a text spells, if it is one from 1 to `most`.
pub fn ranged_in(text: &[u8], most: u8) -> Result<u8, Flaw>
    ensures { result ≡ ranged_number most (numeral_value text.now) }
{
    match number_in(text) {
        Some(number) => {
            if number >= 1 && number <= u32::from(most) {
                Ok(number as u8)
            } else {
                Err(Flaw::Range)
            }
        }
        None => Err(Flaw::Form),
    }
}
