//! The frames of a run on a kernel.
ghost use Rattle.std.specs.Prelude.{◌≡◌, ◌+◌, [], ◌∷◌, ◌++◌, ◌≤◌, ◌^◌, length, map, IfOk, OnOk};
ghost use Rattle.fmp_frames.specs.Frames.{frame_of, frames_of_each, kept_frame as frame_of_kept, table_of};
ghost use Rattle.fmp_kernel.specs.Comings.{view_after_each};

use crate::frame::{Frame, kept_frame, last_frame};
use fmp_base::Effect;
use fmp_kernel::{Body, Coming, Kernel};
use std::alloc::{AllocError, Global};

/// The frame of the last event stands after these.
#[tactic(auto, using(crate::proofs::FrameLemmas::map_push))]
fn append_last<B: Body>(
    alloc: Global,
    kernel: &Kernel<B>,
    all: &mut Vec<Frame>,
) -> Result<(), AllocError>
    ensures { OnOk result (map table_of all.new.items ≡ map table_of all.old.items
        ++ frame_of kernel.now.system (B.meaning kernel.now.body) kernel.now.bound kernel.now.world
        kernel.now.lines ∷ []) }
{
    let frame = last_frame(alloc, kernel)?;
    all.push(frame)?;
    Ok(())
}

/// The frame of an event that kept the place of the actor of the processor that it ran stands after these.
#[tactic(auto, using(crate::proofs::FrameLemmas::map_push))]
fn append_kept<B: Body>(
    alloc: Global,
    kernel: &Kernel<B>,
    ran: Option<u8>,
    all: &mut Vec<Frame>,
) -> Result<(), AllocError>
    ensures { OnOk result (map table_of all.new.items ≡ map table_of all.old.items
        ++ frame_of_kept kernel.now.system (B.meaning kernel.now.body) kernel.now.bound kernel.now.world ran ∷ []) }
{
    let frame = kept_frame(alloc, kernel, ran)?;
    all.push(frame)?;
    Ok(())
}

/// Takes what comes to a kernel, and gives the frame of each that is taken, in order. `AllocError` if memory runs out.
pub fn frames<B: Body, T: Coming<B>>(
    alloc: Global,
    kernel: &mut Kernel<B>,
    events: &[T],
) -> Result<Vec<Frame>, AllocError>
    requires few { kernel.old.taken + length events.now ≤ 2 ^ 31 }
    ensures frames { IfOk result (λ fs. map table_of fs.items
        ≡ frames_of_each B.meaning T.reaction kernel.old events.now) }
    ensures after { OnOk result (kernel.new ≡ view_after_each T.reaction kernel.old events.now) }
    ensures count { kernel.new.taken ≤ kernel.old.taken + length events.now }
    ensures system { kernel.new.system ≡ kernel.old.system }
{
    let mut all = Vec::new(alloc);
    for e in events {
        match e.take(kernel) {
            Effect::Done => append_last(alloc, kernel, &mut all)?,
            Effect::Kept => append_kept(alloc, kernel, e.place(), &mut all)?,
            Effect::Nothing => {}
        }
    }
    Ok(all)
}
