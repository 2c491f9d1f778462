//! An image that is opened.
ghost use Rattle.std.specs.Prelude.{◌≡◌};

use crate::opened::Opened;
use fmp_base::System;
use fmp_code::Vm;
use fmp_image_bytes::Image;
use fmp_kernel::Kernel;
use fmp_replay::kernel_of;
use std::alloc::{AllocError, Global};

/// An image, with the bound of a stretch.
#[derive(Clone, Copy)]
pub struct OpenImage<'a> {
    pub image: &'a Image,
    pub bound: u64,
}

impl<'a> OpenImage<'a> {
    /// An image with the bound of a stretch.
    pub fn new(image: &'a Image, bound: u64) -> OpenImage<'a>
        ensures image { result.image.now ≡ image.now }
        ensures bound { result.bound ≡ bound }
    {
        OpenImage { image, bound }
    }
}

impl<'a> Opened for OpenImage<'a> {
    ghost use Rattle.std.specs.Prelude.{[]};
    ghost use Rattle.fmp_replay.specs.Replays.{kernel_after};

    type Bodies = Vm<'a>;

    ghost start = { λ o. kernel_after o.image.now o.bound [] };

    fn system(&self) -> &System {
        self.image.system()
    }

    fn kernel(&self, alloc: Global) -> Result<Kernel<Vm<'a>>, AllocError> {
        kernel_of(alloc, self.image, self.bound)
    }
}
