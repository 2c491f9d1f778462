//! The responses of a run whose times are known.
ghost use Rattle.std.specs.Prelude.{◌≡◌, IfOk, OnOk, drop};
ghost use Rattle.fmp_frames.specs.Frames.{table_of};
ghost use Rattle.fmp_frames.specs.Timing as spec;

use crate::responses::Responses;
use crate::{Frame, Viewer};
use fmp_base::Line;
use std::alloc::{AllocError, Global};

/// The responses of a run so far, where it is known when its events came.
#[derive(Drop)]
pub struct Timing<'a> {
    /// When the events come that are still to be shown, in microseconds.
    pub times: &'a [u64],
    /// The responses to the requests of handlers.
    pub responses: Responses,
}

/// All times but the first.
fn after_first(times: &[u64]) -> &[u64]
    ensures { result.now ≡ drop 1 times.now }
{
    match times {
        [_, rest @ ..] => rest,
        [] => times,
    }
}

impl<'a> Timing<'a> {
    /// No responses after setup. Setup and the events come at these times, in microseconds. `AllocError` if memory runs
    /// out.
    pub fn new(alloc: Global, times: &'a [u64], setup: &Frame) -> Result<Timing<'a>, AllocError>
        ensures { IfOk result (λ made. spec.timed_of made ≡ spec.first_timed times.now (table_of setup.now)) }
    {
        Ok(Timing {
            times: after_first(times),
            responses: Responses::new(alloc, setup.states.len())?,
        })
    }

    /// The next event, which told these lines.
    fn take(&mut self, lines: &[Line]) -> Result<(), AllocError>
        ensures { OnOk result (spec.timed_of self.new
            ≡ spec.after_next self.old.times.now lines.now (spec.timed_of self.old)) }
    {
        let [now, rest @ ..] = self.times else {
            return Ok(());
        };
        self.responses.take_event(*now, lines)?;
        self.times = rest;
        Ok(())
    }
}

impl Viewer for Timing<'_> {
    ghost shown = { λ x f y. spec.timed_of y ≡ spec.timed_after (spec.timed_of x) f };

    /// One event more. One that kept a place has no time, and one after the last time is left out.
    fn show(&mut self, _alloc: Global, frame: &Frame) -> Result<(), AllocError> {
        match frame.kept {
            Some(_) => Ok(()),
            None => self.take(&frame.lines),
        }
    }
}
