//! The table of a run: what each task did, and how long responses took where the times of a recording tell it.
ghost use Rattle.std.specs.Prelude.{◌≡◌, ◌+◌, ◌≤◌, ◌^◌, IfOk, length};
ghost use Rattle.fmp_frames.specs.Shown.{WasShown};
ghost use Rattle.fmp_frames.specs.Timing.{first_timed, timed_of};

use crate::commands::{RunOutput, output_of};
use crate::exit::{ViewExit, memory};
use crate::looking::RunLook;
use crate::opened::Opened;
use crate::stats_records::append_response_records;
use fmp_base::System;
use fmp_frames::{Responses, Timing, Viewer, append_responses, known_times, last_frame, show_all};
use fmp_kernel::{Body, Coming, Kernel};
use fmp_warnings::Form;
use std::alloc::{AllocError, Global};

/// What is told of the responses of a run of a kernel over what comes to it at these times.
#[tactic(none)]
fn timed<'a, B: Body, T: Coming<B>>(
    alloc: Global,
    kernel: &mut Kernel<B>,
    events: &[T],
    times: &'a [u64],
) -> Result<Timing<'a>, AllocError>
    requires few { kernel.old.taken + length events.now ≤ 2 ^ 31 }
    ensures { IfOk result (λ timing. WasShown (λ x f. timed_of x ≡ first_timed times.now f)
        ⟦<Timing<'a> as Viewer>⟧.shown B.meaning T.reaction kernel.old events.now timing) }
{
    let setup = last_frame(alloc, kernel)?;
    let mut timing = Timing::new(alloc, times, &setup)?;
    drop(setup);
    show_all(alloc, kernel, events, &mut timing)?;
    Ok(timing)
}

/// Appends the table of responses after an empty line, or an object for each handler; nothing where there are none.
fn append_timing(
    alloc: Global,
    form: Form,
    sys: &System,
    responses: &Responses,
    out: &mut Vec<u8>,
) -> Result<(), AllocError> {
    match form {
        Form::Text if responses.all.is_empty() => Ok(()),
        Form::Text => {
            out.push(b'\n')?;
            append_responses(alloc, sys, responses, out)
        }
        Form::Json => append_response_records(alloc, sys, responses, out),
    }
}

/// What is told of the responses of a run of a system over what comes to it at these times.
#[tactic(none)]
fn timing_of<'a, O: Opened, T: Coming<O::Bodies>>(
    alloc: Global,
    opened: &O,
    events: &[T],
    times: &'a [u64],
) -> Result<Timing<'a>, AllocError>
    requires { length events.now ≤ 2 ^ 31 }
{
    let mut kernel = opened.kernel(alloc)?;
    let timing = timed(alloc, &mut kernel, events, times);
    drop(kernel);
    timing
}

/// What is told of responses; nothing where some times are not those of events.
fn responses_text(
    alloc: Global,
    form: Form,
    sys: &System,
    timing: &Timing<'_>,
) -> Result<Vec<u8>, AllocError> {
    let mut out = Vec::new(alloc);
    if timing.times.is_empty() {
        append_timing(alloc, form, sys, &timing.responses, &mut out)?;
    }
    Ok(out)
}

/// The table of the responses of a run of a system at these times.
fn responses_of<O: Opened, T: Coming<O::Bodies>>(
    alloc: Global,
    form: Form,
    opened: &O,
    events: &[T],
    times: &[u64],
) -> Result<Vec<u8>, AllocError>
    requires { length events.now ≤ 2 ^ 31 }
{
    let timing = timing_of(alloc, opened, events, times)?;
    responses_text(alloc, form, opened.system(), &timing)
}

/// The table of what each task of a run did, and after it that of the responses where the times are known.
fn stats_of<O: Opened, T: Coming<O::Bodies>>(
    alloc: Global,
    form: Form,
    opened: &O,
    events: &[T],
    times: &[Option<u64>],
) -> Result<Vec<u8>, AllocError>
    requires { length events.now ≤ 2 ^ 31 }
{
    let mut table = output_of(alloc, opened, events, RunOutput::Table(form))?;
    let times = known_times(alloc, times)?;
    if !times.is_empty() {
        let responses = responses_of(alloc, form, opened, events, &times)?;
        table.extend_from_slice(&responses)?;
    }
    Ok(table)
}

/// The table of a run, in this form.
#[derive(Clone, Copy)]
pub struct Stats(pub Form);

impl RunLook for Stats {
    type Made = Vec<u8>;

    fn of<O: Opened, T: Coming<O::Bodies>>(
        &self,
        alloc: Global,
        opened: &O,
        events: &[T],
        times: &[Option<u64>],
    ) -> Result<Vec<u8>, ViewExit> {
        stats_of(alloc, self.0, opened, events, times).map_err(|error| memory(error))
    }
}
