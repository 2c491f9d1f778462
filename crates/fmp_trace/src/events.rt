//! Steps texts, as they are written.
ghost use Rattle.std.specs.Prelude.{◌≡◌, ◌≤◌, ◌+◌, ◌∷◌, [], ◌++◌, length, take, OnOk, OnErr};
ghost use Rattle.fmp_trace.specs.Fronts.{Begins};
ghost use Rattle.fmp_trace.specs.Steps.{event_text, steps_text};
ghost use Rattle.fmp_trace.specs.StepsLaws.{PrintedStepsReadBack};

use crate::texts::{LineBytes, ROOM, append_array, append_line, append_number};
use fmp_base::Event;
use std::alloc::AllocError;

fn append_event(event: Event, line: &mut [u8], end: usize) -> usize
    requires { end + 20 ≤ length line.old }
    ensures text { take result line.new ≡ take end line.old ++ event_text event }
    ensures short { result ≤ end + 20 }
{
    match event {
        Event::Run(processor) => {
            let end = append_array(*b"run ", line, end);
            append_number(u32::from(processor), line, end)
        }
        Event::Tick => append_array(*b"tick", line, end),
        Event::Int(interrupt) => {
            let end = append_array(*b"int ", line, end);
            append_number(u32::from(interrupt), line, end)
        }
    }
}

/// Puts together the line of an event, with a line feed after, and gives its end.
fn put_step(event: Event, line: &mut LineBytes) -> usize
    ensures text { take result line.new ≡ event_text event ++ 10 ∷ [] }
    ensures short { result ≤ ROOM }
{
    let end = append_event(event, line, 0);
    append_array(*b"\n", line, end)
}

fn append_steps(events: &[Event], out: &mut Vec<u8>) -> Result<(), AllocError>
    ensures ok { OnOk result (out.new.items ≡ out.old.items ++ steps_text events.now) }
    ensures err { OnErr result (Begins out.old.items out.new.items) }
{
    let mut line = [0; ROOM];
    for event in events {
        let end = put_step(*event, &mut line);
        append_line(&line, end, out)?;
    }
    Ok(())
}

/// Appends events as a steps text, each ended by a line feed. If memory runs out, the text stays as it was.
pub fn print_steps(events: &[Event], out: &mut Vec<u8>) -> Result<(), AllocError>
    ensures ok { OnOk result (out.new.items ≡ out.old.items ++ steps_text events.now) }
    ensures err { OnErr result (out.new.items ≡ out.old.items) }
{
    let before = out.len();
    let printed = append_steps(events, out);
    if printed.is_err() {
        out.truncate(before);
    }
    printed
}

/// The text that `print_steps` writes of events in range is read as these events.
pub fn printed_steps_read_back()
    ensures { PrintedStepsReadBack }
{}
