//! The kernel of an image, and what a list of events makes of it.
#![tactic(auto)]

ghost use Rattle.std.specs.Prelude.{◌≡◌, [], IfOk};
ghost use Rattle.fmp_replay.specs.Replays.{kernel_after};

use fmp_code::Vm;
use fmp_image_bytes::Image;
use fmp_kernel::Kernel;
use std::alloc::{AllocError, Global};

/// The kernel of an image after setup. A stretch of a body takes at most n instructions. `AllocError` where memory runs
/// out: no call of the kernel takes any.
pub fn kernel_of<'a>(alloc: Global, image: &'a Image, n: u64) -> Result<Kernel<Vm<'a>>, AllocError>
    ensures { IfOk result (λ kernel. kernel ≡ kernel_after image.now n []) }
{
    image.keeps_rules();
    match Kernel::new(alloc, image.vm(), image.system(), n) {
        Ok(kernel) => Ok(kernel),
        Err(_) => Err(AllocError),
    }
}
