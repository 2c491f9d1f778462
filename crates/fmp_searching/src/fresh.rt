//! The kernel of an image after setup.
ghost use Rattle.std.specs.Prelude.{IfOk, []};
ghost use Rattle.fmp_searching.specs.Fresh.{HasSeen};

use fmp_code::Vm;
use fmp_image_bytes::Image;
use fmp_kernel::Kernel;
use fmp_replay::kernel_of;
use std::alloc::{AllocError, Global};

/// The kernel of an image after setup, on which nothing is done yet. `AllocError` if memory runs out.
#[tactic(none)]
pub fn fresh_kernel<'a>(
    alloc: Global,
    image: &'a Image,
    n: u64,
) -> Result<Kernel<Vm<'a>>, AllocError>
    ensures { IfOk result (λ kernel. HasSeen image.now n [] kernel) }
{
    kernel_of(alloc, image, n)
}
