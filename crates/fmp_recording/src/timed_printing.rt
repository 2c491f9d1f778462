//! Recordings with times, as they are written.
ghost use Rattle.std.specs.Prelude.{◌≡◌, ◌++◌, ◌∷◌, [], OnErr, OnOk, length};
ghost use Rattle.fmp_trace.specs.Fronts.{Begins};
ghost use Rattle.fmp_recording.specs.RecordingLaws.{TimedRecordingsReadBack};
ghost use Rattle.fmp_recording.specs.Recordings.{given_text, time_text, timed_text};

use crate::printing::append_given;
use fmp_outside::Given;
use itoa::Buffer;
use std::alloc::AllocError;

/// Appends the time of a line, if it has one.
#[tactic(auto, using(crate::proofs::Fronts::begins_if, crate::proofs::Fronts::begins_on))]
fn append_time(time: Option<u64>, out: &mut Vec<u8>) -> Result<(), AllocError>
    ensures kept { Begins out.old.items out.new.items }
    ensures ok { OnOk result (out.new.items ≡ out.old.items ++ time_text time) }
{
    match time {
        Some(time) => {
            out.extend_from_slice(b" @")?;
            out.extend_from_slice(Buffer::new().format(time).as_bytes())
        }
        None => Ok(()),
    }
}

/// Appends the line of what came and when, with its line feed. If memory runs out, the text has an unfinished end.
#[tactic(auto, using(crate::proofs::Fronts::begins_if, crate::proofs::Fronts::begins_on))]
fn append_timed_line(given: Given, time: Option<u64>, out: &mut Vec<u8>) -> Result<(), AllocError>
    ensures kept { Begins out.old.items out.new.items }
    ensures ok { OnOk result (out.new.items
        ≡ out.old.items ++ (given_text given ++ (time_text time ++ 10 ∷ []))) }
{
    append_given(given, out)?;
    append_time(time, out)?;
    out.extend_from_slice(b"\n")
}

#[tactic(auto, using(crate::proofs::Fronts::begins_if, crate::proofs::Fronts::begins_on))]
fn append_timed(
    recording: &[Given],
    times: &[Option<u64>],
    out: &mut Vec<u8>,
) -> Result<(), AllocError>
    requires { length times.now ≡ length recording.now }
    ensures ok { OnOk result (out.new.items ≡ out.old.items ++ timed_text recording.now times.now) }
    ensures kept { Begins out.old.items out.new.items }
{
    for place in 0..recording.len() {
        append_timed_line(recording[place], times[place], out)?;
    }
    Ok(())
}

/// Appends a recording as `print_recording` does, each line with its time, in microseconds since the start, if it has
/// one.
#[tactic(auto, using(crate::proofs::Fronts::front_of))]
pub fn print_timed_recording(
    recording: &[Given],
    times: &[Option<u64>],
    out: &mut Vec<u8>,
) -> Result<(), AllocError>
    requires { length times.now ≡ length recording.now }
    ensures ok { OnOk result (out.new.items ≡ out.old.items ++ timed_text recording.now times.now) }
    ensures err { OnErr result (out.new.items ≡ out.old.items) }
{
    let before = out.len();
    let printed = append_timed(recording, times, out);
    if printed.is_err() {
        out.truncate(before);
    }
    printed
}

/// The text that `print_timed_recording` writes of a run and its times is read as this run and these times.
pub fn timed_recordings_read_back()
    ensures { TimedRecordingsReadBack }
{}
