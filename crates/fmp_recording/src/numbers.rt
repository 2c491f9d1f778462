//! Numbers in decimal digits, of any length.
ghost use Rattle.std.specs.Prelude.{◌≡◌};
ghost use Rattle.fmp_trace.specs.Steps.{digits_number, numeral_value};
ghost use Rattle.fmp_recording.specs.Recordings.{capped, negative, number_of, number_up_to, positive, time_number};

use crate::faults::RecordingFlaw;

/// The latest time, in microseconds since the start.
const LATEST: u64 = 1 << 53;

/// Greater numbers are read as this one, which is no time and has more than 32 bits.
const CAP: u64 = (1 << 53) + 1;

/// The number that digits spell, at most `CAP`; none if a byte is no digit.
fn digits_in(text: &[u8]) -> Option<u64>
    ensures { result ≡ capped (digits_number text.now) }
{
    let mut value = 0;
    for byte in text {
        if !byte.is_ascii_digit() {
            return None;
        }
        value = (value * 10 + u64::from(*byte - b'0')).min(CAP);
    }
    Some(value)
}

/// The number that a text spells without leading zeros, at most `CAP`; none if it is no number.
fn numeral_in(text: &[u8]) -> Option<u64>
    ensures { result ≡ capped (numeral_value text.now) }
{
    match text {
        [] | [b'0', _, ..] => None,
        _ => digits_in(text),
    }
}

fn positive_in(text: &[u8]) -> Option<i32>
    ensures { result ≡ positive (numeral_value text.now) }
{
    match numeral_in(text) {
        Some(number) => {
            if number < 1 << 31 {
                Some(number as i32)
            } else {
                None
            }
        }
        None => None,
    }
}

fn negative_in(text: &[u8]) -> Option<i32>
    ensures { result ≡ negative (numeral_value text.now) }
{
    match numeral_in(text) {
        Some(number) => {
            if number >= 1 && number <= 1 << 31 {
                Some((0 - number as i64) as i32)
            } else {
                None
            }
        }
        None => None,
    }
}

/// The number that a text is: of 32 bits, with `-` in front if it is negative, and without zeros in front.
pub fn number_in(text: &[u8]) -> Option<i32>
    ensures { result ≡ number_of text.now }
{
    match text {
        [b'-', digits @ ..] => negative_in(digits),
        _ => positive_in(text),
    }
}

/// The number from 1 to `most` that a text is.
pub fn ranged_in(text: &[u8], most: u8) -> Result<u8, RecordingFlaw>
    ensures { result ≡ number_up_to most (number_of text.now) }
{
    match number_in(text) {
        Some(number) => {
            if number >= 1 && number <= i32::from(most) {
                Ok(number as u8)
            } else {
                Err(RecordingFlaw::Range)
            }
        }
        None => Err(RecordingFlaw::Form),
    }
}

/// The time that a text is, in microseconds.
pub fn time_in(text: &[u8]) -> Result<u64, RecordingFlaw>
    ensures { result ≡ time_number (numeral_value text.now) }
{
    match numeral_in(text) {
        Some(number) => {
            if number <= LATEST {
                Ok(number)
            } else {
                Err(RecordingFlaw::Range)
            }
        }
        None => Err(RecordingFlaw::Form),
    }
}
