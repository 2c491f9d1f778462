//! The tables of a run as objects of JSON, one a line: what each task did, and how long responses took.
ghost use Rattle.std.specs.Prelude.{◌≡◌};

use fmp_base::{Handler, System};
use fmp_frames::{ResponseSummary, Responses, Tallies, TaskTally};
use fmp_json::{begin, finish, number_member, text_member};
use json::Writer;
use std::alloc::{AllocError, Global};

/// Writes what a task did.
fn write_tally(writer: &mut Writer, tally: &TaskTally) -> Result<(), AllocError>
    ensures { writer.new.before ≡ writer.old.before }
{
    number_member(writer, "starts", u64::from(tally.starts))?;
    number_member(writer, "calls", u64::from(tally.calls))?;
    number_member(writer, "waits", u64::from(tally.waits))?;
    number_member(writer, "time_outs", u64::from(tally.time_outs))?;
    number_member(writer, "preemptions", u64::from(tally.preemptions))?;
    number_member(writer, "kept", u64::from(tally.kept))
}

/// What a task of this name did, which spun after this many events, in a run of `all` events.
fn tally_record(
    alloc: Global,
    name: &[u8],
    tally: &TaskTally,
    spins: u32,
    all: u32,
) -> Result<Vec<u8>, AllocError> {
    let name = String::from_utf8_lossy(alloc, name)?;
    let mut writer = begin(alloc)?;
    text_member(&mut writer, "task", &name)?;
    write_tally(&mut writer, tally)?;
    number_member(&mut writer, "spins", u64::from(spins))?;
    number_member(&mut writer, "events", u64::from(tally.events))?;
    number_member(&mut writer, "of", u64::from(all))?;
    finish(writer)
}

/// Appends an object for each task: its counts, and the number of all events.
pub fn append_tally_records(
    alloc: Global,
    sys: &System,
    tallies: &Tallies,
    out: &mut Vec<u8>,
) -> Result<(), AllocError> {
    for (position, config) in sys.tasks.iter().enumerate() {
        if let Some(tally) = tallies.tallies.get(position) {
            let spins = tallies.spins.get(position).copied().unwrap_or(0);
            let name = config.name.as_bytes();
            let record = tally_record(alloc, name, tally, spins, tallies.events)?;
            out.extend_from_slice(&record)?;
        }
    }
    Ok(())
}

/// How long the responses of a handler of this name took.
fn summary_record(
    alloc: Global,
    name: &[u8],
    summary: ResponseSummary,
) -> Result<Vec<u8>, AllocError> {
    let name = String::from_utf8_lossy(alloc, name)?;
    let mut writer = begin(alloc)?;
    text_member(&mut writer, "request", &name)?;
    number_member(&mut writer, "responses", summary.count as u64)?;
    number_member(&mut writer, "median_us", summary.median)?;
    number_member(&mut writer, "worst_us", summary.worst)?;
    finish(writer)
}

/// Appends an object for a handler of this name, if it woke a task that ran.
fn append_summary(
    alloc: Global,
    responses: &Responses,
    handler: Handler,
    name: &[u8],
    out: &mut Vec<u8>,
) -> Result<(), AllocError> {
    if let Some(summary) = responses.summary(alloc, handler)? {
        let record = summary_record(alloc, name, summary)?;
        out.extend_from_slice(&record)?;
    }
    Ok(())
}

/// Appends an object for each handler that woke a task that ran: how many responses there are, and how long they took
/// at the median and at worst, in microseconds.
pub fn append_response_records(
    alloc: Global,
    sys: &System,
    responses: &Responses,
    out: &mut Vec<u8>,
) -> Result<(), AllocError> {
    for position in 0..32u8 {
        let name = format!(in alloc; "#{}", position + 1)?;
        let handler = Handler::Interrupt(position);
        append_summary(alloc, responses, handler, name.as_bytes(), out)?;
    }
    for (position, config) in sys.cyclics.iter().enumerate() {
        if let Ok(position) = u8::try_from(position) {
            let (handler, name) = (Handler::Cyclic(position), config.name.as_bytes());
            append_summary(alloc, responses, handler, name, out)?;
        }
    }
    Ok(())
}
