//! The table of the calls of a run.
ghost use Rattle.std.specs.Prelude.{◌≡◌, ◌+◌, ◌≤◌, ◌^◌, IfOk, length};
ghost use Rattle.fmp_frames.specs.Told.{told_after_all, told_of};
ghost use Rattle.fmp_frames.specs.Shown.{WasShown};
ghost use Rattle.fmp_looking.specs.Called.{begins_called};

use fmp_base::System;
use fmp_frames::{Frame, ToldCalls, Viewer, append_calls, last_frame, show_all};
use fmp_kernel::{Body, Coming, Kernel};
use std::alloc::{AllocError, Global};

/// The calls of a run so far.
#[derive(Drop)]
pub struct CallView {
    pub calls: ToldCalls,
}

impl CallView {
    /// The calls of a run after setup, which makes none. `AllocError` if memory runs out.
    fn new(alloc: Global, setup: &Frame) -> Result<CallView, AllocError>
        ensures { IfOk result (λ made. told_of made.calls ≡ begins_called (length setup.now.states.items)) }
    {
        Ok(CallView {
            calls: ToldCalls::new(alloc, setup.states.len())?,
        })
    }
}

impl Viewer for CallView {
    ghost shown = { λ x f y. told_of y.calls ≡ told_after_all (told_of x.calls) f.lines };

    /// One event more.
    fn show(&mut self, _alloc: Global, frame: &Frame) -> Result<(), AllocError> {
        self.calls.tell(&frame.lines)
    }
}

/// What is told of the calls of a run of a kernel over what comes to it.
#[tactic(none)]
fn called<B: Body, T: Coming<B>>(
    alloc: Global,
    kernel: &mut Kernel<B>,
    events: &[T],
) -> Result<CallView, AllocError>
    requires few { kernel.old.taken + length events.now ≤ 2 ^ 31 }
    ensures { IfOk result (λ called. WasShown (λ x f. told_of x.calls ≡ begins_called (length f.states))
        ⟦<CallView as Viewer>⟧.shown B.meaning T.reaction kernel.old events.now called) }
{
    let setup = last_frame(alloc, kernel)?;
    let mut called = CallView::new(alloc, &setup)?;
    drop(setup);
    show_all(alloc, kernel, events, &mut called)?;
    Ok(called)
}

/// The table of the calls of a run of a kernel of this system over what comes to it.
#[tactic(none)]
pub fn calls_on<B: Body, T: Coming<B>>(
    alloc: Global,
    sys: &System,
    kernel: &mut Kernel<B>,
    events: &[T],
) -> Result<Vec<u8>, AllocError>
    requires few { kernel.old.taken + length events.now ≤ 2 ^ 31 }
{
    let called = called(alloc, kernel, events)?;
    let mut out = Vec::new(alloc);
    append_calls(alloc, sys, &called.calls, &mut out)?;
    Ok(out)
}
