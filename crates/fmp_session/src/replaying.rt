//! Events that a kernel takes one after the other.
ghost use Rattle.std.specs.Prelude.{◌≡◌, ◌+◌, ◌≤◌, ◌^◌, IfOk, length};
ghost use Rattle.fmp_kernel.specs.KernelViews.{view_after_all};
ghost use Rattle.fmp_replay.specs.Replays.{IsLegal, kernel_after};

use fmp_base::Event;
use fmp_code::Vm;
use fmp_image_bytes::Image;
use fmp_kernel::{Body, Kernel};
use fmp_replay::kernel_of;
use std::alloc::{AllocError, Global};

/// Takes events, one after the other.
fn take_all<B: Body>(kernel: &mut Kernel<B>, events: &[Event])
    requires { kernel.old.taken + length events.now ≤ 2 ^ 20 }
    ensures { kernel.new ≡ view_after_all B.meaning kernel.old events.now }
{
    for e in events {
        kernel.step(*e);
    }
}

/// The kernel of an image after events, each of which does something. `AllocError` if memory runs out.
#[tactic(none)]
pub fn kernel_over<'a>(
    alloc: Global,
    image: &'a Image,
    n: u64,
    events: &[Event],
) -> Result<Kernel<Vm<'a>>, AllocError>
    requires few { length events.now ≤ 2 ^ 20 }
    requires legal { IsLegal image.now n events.now }
    ensures { IfOk result (λ kernel. kernel ≡ kernel_after image.now n events.now) }
{
    let mut kernel = kernel_of(alloc, image, n)?;
    take_all(&mut kernel, events);
    Ok(kernel)
}
