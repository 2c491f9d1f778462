//! The time at the end of a line.
ghost use Rattle.std.specs.Prelude.{◌≡◌, ◌+◌, ◌≤◌, IfSome, length, nat_eq, position};
ghost use Rattle.fmp_recording.specs.Recordings.{line_time, said_before, time_after, time_position as spec_position};

use crate::faults::RecordingFlaw;
use crate::numbers::time_in;

fn at_sign_in(text: &[u8]) -> Option<usize>
    ensures { result ≡ position (λ byte. nat_eq byte 64) text.now }
{
    text.iter().position(|byte| *byte == b'@')
}

/// Where ` @` stands in a line, if its first `@` is after a blank.
pub fn time_position(line: &[u8]) -> Option<usize>
    ensures position { result ≡ spec_position line.now }
    ensures inside { IfSome result (λ position. position + 2 ≤ length line.now) }
{
    match at_sign_in(line) {
        Some(position) => {
            if position >= 1 && line[position - 1] == b' ' {
                Some(position - 1)
            } else {
                None
            }
        }
        None => None,
    }
}

/// A line without its time.
pub fn without_time(line: &[u8]) -> &[u8]
    ensures { result.now ≡ said_before (spec_position line.now) line.now }
{
    match time_position(line) {
        Some(position) => &line[..position],
        None => line,
    }
}

/// The time of a line, if it has one.
pub fn time_of(line: &[u8]) -> Result<Option<u64>, RecordingFlaw>
    ensures { result ≡ time_after (spec_position line.now) line.now }
{
    match time_position(line) {
        Some(position) => match time_in(&line[position + 2..]) {
            Ok(time) => Ok(Some(time)),
            Err(flaw) => Err(flaw),
        },
        None => Ok(None),
    }
}

/// The time of a line; none if it has none, or none in the right form.
pub fn time_or_none(line: &[u8]) -> Option<u64>
    ensures { result ≡ line_time line.now }
{
    time_of(line).unwrap_or(None)
}
