//! Recordings, as they are written.
ghost use Rattle.std.specs.Prelude.{◌≡◌, ◌++◌, ◌∷◌, [], OnErr, OnOk, decimal};
ghost use Rattle.std.specs.Fmt.{signed_decimal};
ghost use Rattle.fmp_trace.specs.Fronts.{Begins};
ghost use Rattle.fmp_recording.specs.RecordingLaws.{PrintedLinesReadBack, PrintedRecordingsReadBack};
ghost use Rattle.fmp_recording.specs.Recordings.{act_text, arguments_text, given_text, recorded_lines_text};
ghost use Rattle.fmp_recording.specs.Recordings.{recorded_text, recording_text};

use crate::recorded::RecordedLine;
use fmp_base::Fault;
use fmp_outside::{Act, Given};
use itoa::Buffer;
use std::alloc::AllocError;

#[tactic(auto, using(crate::proofs::Fronts::begins_if, crate::proofs::Fronts::begins_on))]
fn append_number(number: u8, out: &mut Vec<u8>) -> Result<(), AllocError>
    ensures ok { OnOk result (out.new.items ≡ out.old.items ++ decimal number) }
    ensures kept { Begins out.old.items out.new.items }
{
    out.extend_from_slice(Buffer::new().format(u32::from(number)).as_bytes())
}

#[tactic(auto, using(crate::proofs::Fronts::begins_if, crate::proofs::Fronts::begins_on))]
fn append_signed(number: i32, out: &mut Vec<u8>) -> Result<(), AllocError>
    ensures ok { OnOk result (out.new.items ≡ out.old.items ++ signed_decimal number) }
    ensures kept { Begins out.old.items out.new.items }
{
    out.extend_from_slice(Buffer::new().format(number).as_bytes())
}

#[tactic(auto, using(crate::proofs::Fronts::begins_if, crate::proofs::Fronts::begins_on))]
fn append_arguments(arguments: &[i32], out: &mut Vec<u8>) -> Result<(), AllocError>
    ensures ok { OnOk result (out.new.items ≡ out.old.items ++ arguments_text arguments.now) }
    ensures kept { Begins out.old.items out.new.items }
{
    for argument in arguments {
        out.extend_from_slice(b" ")?;
        append_signed(*argument, out)?;
    }
    Ok(())
}

#[tactic(auto, using(crate::proofs::Fronts::begins_if, crate::proofs::Fronts::begins_on))]
fn append_act(act: Act, out: &mut Vec<u8>) -> Result<(), AllocError>
    ensures ok { OnOk result (out.new.items ≡ out.old.items ++ act_text act) }
    ensures kept { Begins out.old.items out.new.items }
{
    match act {
        Act::Call(call) => {
            out.extend_from_slice(call.service().name().as_bytes())?;
            append_arguments(call.arguments().as_slice(), out)
        }
        Act::End => out.extend_from_slice(b"end"),
        Act::Fault(Fault::Overflow) => out.extend_from_slice(b"fault F_OVF"),
        Act::Fault(Fault::Division) => out.extend_from_slice(b"fault F_DIV"),
        Act::Fault(Fault::Index) => out.extend_from_slice(b"fault F_IDX"),
    }
}

/// Appends what comes. If memory runs out, the text has an unfinished end.
#[tactic(auto, using(crate::proofs::Fronts::begins_if, crate::proofs::Fronts::begins_on))]
pub fn append_given(given: Given, out: &mut Vec<u8>) -> Result<(), AllocError>
    ensures ok { OnOk result (out.new.items ≡ out.old.items ++ given_text given) }
    ensures kept { Begins out.old.items out.new.items }
{
    match given {
        Given::Act(p, act) => {
            out.extend_from_slice(b"run ")?;
            append_number(p, out)?;
            out.extend_from_slice(b" ")?;
            append_act(act, out)
        }
        Given::Tick => out.extend_from_slice(b"tick"),
        Given::Int(number) => {
            out.extend_from_slice(b"int ")?;
            append_number(number, out)
        }
    }
}

/// Appends the line of what came, with its line feed. If memory runs out, the text has an unfinished end.
#[tactic(auto, using(crate::proofs::Fronts::begins_if, crate::proofs::Fronts::begins_on))]
fn append_line(given: Given, out: &mut Vec<u8>) -> Result<(), AllocError>
    ensures ok { OnOk result (out.new.items ≡ out.old.items ++ (given_text given ++ 10 ∷ [])) }
    ensures kept { Begins out.old.items out.new.items }
{
    append_given(given, out)?;
    out.extend_from_slice(b"\n")
}

#[tactic(auto, using(crate::proofs::Fronts::begins_if, crate::proofs::Fronts::begins_on))]
fn append_recording(recording: &[Given], out: &mut Vec<u8>) -> Result<(), AllocError>
    ensures ok { OnOk result (out.new.items ≡ out.old.items ++ recording_text recording.now) }
    ensures kept { Begins out.old.items out.new.items }
{
    for given in recording {
        append_line(*given, out)?;
    }
    Ok(())
}

/// Appends a recording, each line ended by a line feed. If memory runs out, the text stays as it was.
#[tactic(auto, using(crate::proofs::Fronts::front_of))]
pub fn print_recording(recording: &[Given], out: &mut Vec<u8>) -> Result<(), AllocError>
    ensures ok { OnOk result (out.new.items ≡ out.old.items ++ recording_text recording.now) }
    ensures err { OnErr result (out.new.items ≡ out.old.items) }
{
    let before = out.len();
    let printed = append_recording(recording, out);
    if printed.is_err() {
        out.truncate(before);
    }
    printed
}

/// Appends what a line says, with its line feed. If memory runs out, the text has an unfinished end.
#[tactic(auto, using(crate::proofs::Fronts::begins_if, crate::proofs::Fronts::begins_on))]
fn append_recorded(recorded: RecordedLine, out: &mut Vec<u8>) -> Result<(), AllocError>
    ensures ok { OnOk result (out.new.items ≡ out.old.items ++ (recorded_text recorded ++ 10 ∷ [])) }
    ensures kept { Begins out.old.items out.new.items }
{
    match recorded {
        RecordedLine::Came(given) => append_line(given, out),
        RecordedLine::Restart => out.extend_from_slice(b"restart\n"),
    }
}

#[tactic(auto, using(crate::proofs::Fronts::begins_if, crate::proofs::Fronts::begins_on))]
fn append_lines(lines: &[RecordedLine], out: &mut Vec<u8>) -> Result<(), AllocError>
    ensures ok { OnOk result (out.new.items ≡ out.old.items ++ recorded_lines_text lines.now) }
    ensures kept { Begins out.old.items out.new.items }
{
    for recorded in lines {
        append_recorded(*recorded, out)?;
    }
    Ok(())
}

/// Appends the lines of a recording, each ended by a line feed. If memory runs out, the text stays as it was.
#[tactic(auto, using(crate::proofs::Fronts::front_of))]
pub fn print_lines(lines: &[RecordedLine], out: &mut Vec<u8>) -> Result<(), AllocError>
    ensures ok { OnOk result (out.new.items ≡ out.old.items ++ recorded_lines_text lines.now) }
    ensures err { OnErr result (out.new.items ≡ out.old.items) }
{
    let before = out.len();
    let printed = append_lines(lines, out);
    if printed.is_err() {
        out.truncate(before);
    }
    printed
}

/// The text that `print_recording` writes of a run is read as this run, and that which `print_lines` writes as these
/// lines.
pub fn printed_recordings_read_back()
    ensures recording { PrintedRecordingsReadBack }
    ensures lines { PrintedLinesReadBack }
{}
