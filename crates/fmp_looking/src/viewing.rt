//! A run in the formats of trace viewers.
ghost use Rattle.std.specs.Prelude.{◌≤◌, ◌^◌, length};

use crate::exit::{ViewExit, memory};
use crate::looking::RunLook;
use crate::opened::Opened;
use crate::timeline::run_of;
use fmp_base::System;
use fmp_kernel::Coming;
use fmp_slices::{Clock, resources, standard_log, trace_events};
use fmp_timeline::Run;
use std::alloc::{AllocError, Global};

/// A format for viewers.
#[derive(Clone, Copy)]
pub enum Format {
    /// A value change dump.
    Dump,
    /// A format of trace viewers.
    Trace(TraceFormat),
}

/// A format of trace viewers.
#[derive(Clone, Copy)]
pub enum TraceFormat {
    /// The Trace Event Format.
    Events,
    /// The standard log of TraceLogVisualizer.
    Log,
    /// The resource file of that log.
    Resources,
}

/// Whether a recording has times, one for each event of its run.
fn has_times(run: &Run, times: &[Option<u64>]) -> bool {
    let events = run.next_event().saturating_sub(1);
    times.len() == events as usize && times.iter().any(|time| time.is_some())
}

/// When the events of a run came: at these times of a recording, if they are those of its events; else event `n` is at
/// `n` microseconds.
fn clock_of(alloc: Global, run: &Run, times: &[Option<u64>]) -> Result<Clock, AllocError> {
    if has_times(run, times) {
        return Clock::recorded(alloc, times);
    }
    Ok(Clock::by_number(alloc))
}

/// A run of a system in a format.
fn written(
    alloc: Global,
    sys: &System,
    run: &Run,
    times: &[Option<u64>],
    format: TraceFormat,
) -> Result<Vec<u8>, AllocError> {
    let clock = clock_of(alloc, run, times)?;
    match format {
        TraceFormat::Events => trace_events(alloc, sys, &[], run, &clock),
        TraceFormat::Log => standard_log(alloc, sys, run, &clock),
        TraceFormat::Resources => resources(alloc, sys, &[]),
    }
}

/// What comes to a system as a run in a format.
fn written_of<O: Opened, T: Coming<O::Bodies>>(
    alloc: Global,
    opened: &O,
    events: &[T],
    times: &[Option<u64>],
    format: TraceFormat,
) -> Result<Vec<u8>, AllocError>
    requires { length events.now ≤ 2 ^ 31 }
{
    let run = run_of(alloc, opened, events, false, &[])?;
    written(alloc, opened.system(), &run, times, format)
}

impl RunLook for TraceFormat {
    type Made = Vec<u8>;

    fn of<O: Opened, T: Coming<O::Bodies>>(
        &self,
        alloc: Global,
        opened: &O,
        events: &[T],
        times: &[Option<u64>],
    ) -> Result<Vec<u8>, ViewExit> {
        written_of(alloc, opened, events, times, *self).map_err(|error| memory(error))
    }
}
