//! The kernel of an image after a list of events.
ghost use Rattle.std.specs.Prelude.{◌≡◌, ◌<◌, ◌^◌, [], IsTrue};
ghost use Rattle.fmp_base.specs.Steps.{step};
ghost use Rattle.fmp_drive.specs.Driving.{HasTaken};
ghost use Rattle.fmp_kernel.specs.KernelViews.{view_after};
ghost use Rattle.fmp_replay.specs.Replays.{kernel_after};
ghost use Rattle.fmp_witness.specs.Followed.{IsFollowed};

use fmp_base::{Effect, Event};
use fmp_code::Vm;
use fmp_image_bytes::Image;
use fmp_kernel::{Body, Kernel};

/// The most events that a kernel takes.
pub const TAKEN_MOST: u32 = 1 << 20;

/// Takes an event: whether it does something.
pub fn does<B: Body>(kernel: &mut Kernel<B>, e: Event) -> bool
    requires { kernel.old.taken < 2 ^ 20 }
    ensures taken { IsTrue result → HasTaken B.meaning kernel.old kernel.new e }
    ensures view { kernel.new ≡ view_after kernel.old
        (step kernel.old.system (B.meaning kernel.old.body) kernel.old.bound kernel.old.world e) }
{
    match kernel.step(e) {
        Effect::Nothing => false,
        Effect::Kept => true,
        Effect::Done => true,
    }
}

/// Takes events one after the other on the kernel of an image that was just set up, at this bound: whether each of them
/// does something. The first that does nothing is the last that is tried.
pub fn follow(kernel: &mut Kernel<Vm<'_>>, image: &Image, n: u64, steps: &[Event]) -> bool
    requires { kernel.old ≡ kernel_after image.now n [] }
    ensures { IsTrue result → IsFollowed image.now n steps.now kernel.new }
{
    for e in steps {
        if kernel.taken() >= TAKEN_MOST {
            return false;
        }
        if !does(kernel, *e) {
            return false;
        }
    }
    true
}
