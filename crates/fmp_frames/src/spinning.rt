//! What the actors of the processors of a kernel spin for.
ghost use Rattle.std.specs.Prelude.{◌≡◌, ◌<◌, IfOk};
ghost use Rattle.fmp_base.specs.Stretches.{ending};
ghost use Rattle.fmp_frames.specs.Frames.{each as each_of};
ghost use Rattle.fmp_frames.specs.Spinning as spec;

use crate::reading::each;
use fmp_base::{Call, Processor, Stretch};
use fmp_kernel::{Body, Kernel};
use fmp_why::{SpinWait, may_spin, spin_on};
use std::alloc::{AllocError, Global};

/// The call that a stretch ends with, if it ends with one.
fn call_of<C: Copy>(stretch: Stretch<C>) -> Option<Call>
    ensures { result ≡ spec.call_of (ending stretch) }
{
    match stretch {
        Stretch::Call(_, call) => Some(call),
        Stretch::End(_) | Stretch::Fault(..) | Stretch::Over(_) => None,
    }
}

/// The call that the next run of the processor at a place comes to, if it comes to one, on a kernel.
fn next_call<B: Body>(kernel: &Kernel<B>, p: u8) -> Option<Call>
    requires below { p < 255 }
    ensures { result
        ≡ spec.next_call kernel.now.system (B.meaning kernel.now.body) kernel.now.bound kernel.now.world p }
{
    match kernel.actor(p + 1) {
        Some(actor) => call_of(
            kernel
                .body()
                .stretch(actor.entry, kernel.bound(), actor.context),
        ),
        None => None,
    }
}

/// What the actor of the processor at a place spins for; these are all processors. No stretch is made where no spin
/// lock is held, or the processor may not ask for one.
fn spin_at<B: Body>(kernel: &Kernel<B>, processors: &[Processor], p: u8) -> Option<SpinWait>
    requires there { p < kernel.now.system.processors }
    requires below { p < 255 }
    ensures { result ≡ spec.spin_at kernel.now.system (B.meaning kernel.now.body) kernel.now.bound kernel.now.world
        processors.now p }
{
    let cpu = kernel.tables().processor(p);
    if !may_spin(processors, &cpu) {
        return None;
    }
    let locks = kernel.tables().spin_lock_count() as u8;
    spin_on(processors, locks, &cpu, next_call(kernel, p))
}

/// What the actor of each processor spins for; these are all processors. `AllocError` if memory runs out.
pub fn spins<B: Body>(
    alloc: Global,
    kernel: &Kernel<B>,
    processors: &[Processor],
) -> Result<Vec<Option<SpinWait>>, AllocError>
    ensures { IfOk result (λ xs. xs.items ≡ each_of (spec.spin_at kernel.now.system (B.meaning kernel.now.body)
        kernel.now.bound kernel.now.world processors.now) kernel.now.system.processors) }
{
    each(
        alloc,
        kernel.tables().processor_count() as u8,
        |p| spin_at(kernel, processors, p),
    )
}
