//! Systems that are opened to be looked at.
ghost use Rattle.std.specs.Prelude.{◌≡◌, IfErr, IfOk};
ghost use Rattle.fmp_base.specs.Systems.{tables_of};
ghost use Rattle.fmp_kernel.specs.KernelViews.{KernelView};

use fmp_base::System;
use fmp_kernel::{Body, Kernel};
use std::alloc::{AllocError, Global};

/// A system that is opened: its kernel after setup can be made again and again.
pub trait Opened {
    /// Its bodies.
    type Bodies: Body + Drop;

    /// Its kernel after setup.
    ghost start: { Self → KernelView Self.Bodies Self.Bodies.Ctx };

    /// Its tables.
    fn system(&self) -> &System
        ensures { tables_of result.now ≡ (start self.now).system };

    /// Its kernel after setup, which has taken nothing yet. `AllocError` if memory runs out.
    fn kernel(&self, alloc: Global) -> Result<Kernel<Self::Bodies>, AllocError>
        ensures start { IfOk result (λ kernel. kernel ≡ start self.now) }
        ensures taken { IfOk result (λ kernel. kernel.taken ≡ 0) };
}
