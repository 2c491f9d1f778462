//! Why a processor does not go on.
ghost use Rattle.std.specs.Prelude.{◌≡◌};
ghost use Rattle.fmp_base.specs.Stretches.{ending};
ghost use Rattle.fmp_drive.specs.NextRuns.{AreNext, next_run as next_run_of, told_by as told};

use fmp_base::{Call, Stretch};
use fmp_kernel::{Body, Kernel};

/// The greatest number of processors.
const PROCESSORS: usize = 8;

/// How the next run of a processor ends, as far as the stretch of its actor tells it.
#[derive(Clone, Copy)]
pub enum NextRun {
    /// The processor runs neither a task nor a handler, so its run does nothing.
    NoActor,
    /// The stretch needs more instructions than the bound, so the run keeps its place.
    OverBound,
    /// The stretch ends with this call. If it spins for a held spin lock, the run does nothing.
    Calls(Call),
    /// The stretch ends the task or the handler, or stops it with a fault.
    Ends,
}

/// What a stretch tells of the run that makes it.
fn told_by<C: Copy>(stretch: Stretch<C>) -> NextRun
    ensures { result ≡ told (ending stretch) }
{
    match stretch {
        Stretch::Call(_, call) => NextRun::Calls(call),
        Stretch::End(_) | Stretch::Fault(..) => NextRun::Ends,
        Stretch::Over(_) => NextRun::OverBound,
    }
}

/// How the next run of the processor of this number, from 1, ends on a kernel.
fn next_run<B: Body>(kernel: &Kernel<B>, p: u8) -> NextRun
    ensures { result ≡ next_run_of B.meaning kernel.now p }
{
    match kernel.actor(p) {
        Some(actor) => told_by(
            kernel
                .body()
                .stretch(actor.entry, kernel.bound(), actor.context),
        ),
        None => NextRun::NoActor,
    }
}

/// How the next run of each processor ends, by places from 0, on a kernel. There is no actor after the last processor.
pub fn next_runs<B: Body>(kernel: &Kernel<B>) -> [NextRun; PROCESSORS]
    ensures { AreNext B.meaning kernel.now result }
{
    let mut runs = [NextRun::NoActor; PROCESSORS];
    for p in 0..PROCESSORS {
        runs[p] = next_run(kernel, p as u8 + 1);
    }
    runs
}
