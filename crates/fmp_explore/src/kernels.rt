//! The two kernels with which a search examines states.
ghost use Rattle.std.specs.Prelude.{IfOk};
ghost use Rattle.fmp_explore.specs.Searching.{AreKernelsOf, IsKernelOf};
ghost use Rattle.fmp_witness.specs.Asked.{asked_of};

use fmp_code::Vm;
use fmp_kernel::Kernel;
use fmp_replay::kernel_of;
use fmp_witness::SearchSubject;
use std::alloc::{AllocError, Global};

/// The kernels with which states are examined, one after the other.
#[derive(Drop)]
pub struct KernelPair<'a> {
    /// It is put into the state that is examined.
    pub top: Kernel<Vm<'a>>,
    /// Events are tried on it.
    pub work: Kernel<Vm<'a>>,
}

/// A kernel and one that was just set up. `AllocError` if memory runs out.
fn with_work<'a>(
    alloc: Global,
    subject: &SearchSubject<'a>,
    top: Kernel<Vm<'a>>,
) -> Result<KernelPair<'a>, AllocError>
    requires { IsKernelOf (asked_of subject.now) top }
    ensures { IfOk result (AreKernelsOf (asked_of subject.now)) }
{
    let work = kernel_of(alloc, subject.image, subject.n)?;
    Ok(KernelPair { top, work })
}

/// Two kernels that were just set up. `AllocError` if memory runs out.
#[tactic(none)]
pub fn kernels_of<'a>(
    alloc: Global,
    subject: &SearchSubject<'a>,
) -> Result<KernelPair<'a>, AllocError>
    ensures { IfOk result (AreKernelsOf (asked_of subject.now)) }
{
    let top = kernel_of(alloc, subject.image, subject.n)?;
    with_work(alloc, subject, top)
}
