//! A run, shown frame by frame.
ghost use Rattle.std.specs.Prelude.{◌≡◌, ◌+◌, ◌≤◌, ◌^◌, length, OnOk};
ghost use Rattle.fmp_frames.specs.Frames.{FrameTable, frame_of, frames_of_each, kept_frame as frame_of_kept, table_of};
ghost use Rattle.fmp_frames.specs.Showing.{HasShown};
ghost use Rattle.fmp_kernel.specs.Comings.{view_after_each};

use crate::frame::{Frame, kept_frame, last_frame};
use fmp_base::Effect;
use fmp_kernel::{Body, Coming, Kernel};
use std::alloc::{AllocError, Global};

/// A viewer, to which a run is shown frame by frame.
pub trait Viewer {
    /// What a frame makes of it.
    ghost shown: { Self → FrameTable → Self → Type 0 };

    /// One frame more. `AllocError` if memory runs out.
    fn show(&mut self, alloc: Global, frame: &Frame) -> Result<(), AllocError>
        ensures { OnOk result (shown self.old (table_of frame.now) self.new) };
}

/// Shows the frame of the last event that was done.
fn show_last<B: Body, V: Viewer>(
    alloc: Global,
    kernel: &Kernel<B>,
    viewer: &mut V,
) -> Result<(), AllocError>
    ensures { OnOk result (V.shown viewer.old
        (frame_of kernel.now.system (B.meaning kernel.now.body) kernel.now.bound kernel.now.world kernel.now.lines)
        viewer.new) }
{
    let frame = last_frame(alloc, kernel)?;
    viewer.show(alloc, &frame)
}

/// Shows the frame of an event that kept the place of the actor of the processor that it ran.
fn show_kept<B: Body, V: Viewer>(
    alloc: Global,
    kernel: &Kernel<B>,
    ran: Option<u8>,
    viewer: &mut V,
) -> Result<(), AllocError>
    ensures { OnOk result (V.shown viewer.old
        (frame_of_kept kernel.now.system (B.meaning kernel.now.body) kernel.now.bound kernel.now.world ran)
        viewer.new) }
{
    let frame = kept_frame(alloc, kernel, ran)?;
    viewer.show(alloc, &frame)
}

/// Takes what comes to a kernel, and shows the frame of each that is taken, in order. `AllocError` if memory runs out.
pub fn show_all<B: Body, T: Coming<B>, V: Viewer>(
    alloc: Global,
    kernel: &mut Kernel<B>,
    events: &[T],
    viewer: &mut V,
) -> Result<(), AllocError>
    requires few { kernel.old.taken + length events.now ≤ 2 ^ 31 }
    ensures shown { OnOk result (HasShown V.shown viewer.old
        (frames_of_each B.meaning T.reaction kernel.old events.now)
        viewer.new) }
    ensures after { OnOk result (kernel.new ≡ view_after_each T.reaction kernel.old events.now) }
{
    for e in events {
        match e.take(kernel) {
            Effect::Done => show_last(alloc, kernel, viewer)?,
            Effect::Kept => show_kept(alloc, kernel, e.place(), viewer)?,
            Effect::Nothing => {}
        }
    }
    Ok(())
}
