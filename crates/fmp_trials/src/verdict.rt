//! Whether a run of a kernel meets what is expected.
ghost use Rattle.std.specs.Prelude.{◌≡◌, ◌+◌, ◌≤◌, ◌^◌, IfOk, length};
ghost use Rattle.fmp_trials.specs.Verdicts as spec;
ghost use Rattle.fmp_trials.specs.Verdicts.{IsBeside};

use fmp_base::TaskState;
use fmp_expect::{BrokenExpectation, Checker, Expected, tell_run};
use fmp_kernel::{Body, Coming, Kernel};
use std::alloc::{AllocError, Global};

/// The states of the tasks.
fn states_of<B: Body>(alloc: Global, kernel: &Kernel<B>) -> Result<Vec<TaskState>, AllocError>
    ensures { IfOk result (λ states. states.items ≡ spec.states_in kernel.now) }
{
    let mut states = Vec::new(alloc);
    for task in 0..kernel.tables().task_count() as u8 {
        states.push(kernel.state(task))?;
    }
    Ok(states)
}

/// The first of the expectations that a run has failed, of which the checker was told, where the kernel has come to its
/// end. `AllocError` if memory runs out.
pub fn verdict_at_end<B: Body>(
    alloc: Global,
    kernel: &Kernel<B>,
    checker: &Checker,
) -> Result<Option<BrokenExpectation>, AllocError>
    ensures { IfOk result (spec.IsVerdictAtEnd kernel.now checker.now) }
{
    let states = states_of(alloc, kernel)?;
    Ok(checker.verdict(&states, kernel.done()))
}

/// The first of the expectations that a run of a kernel fails: by the lines and the states that it shows from the
/// kernel's last event, or setup, on, or by the states of its tasks at the end. `AllocError` if memory runs out.
pub fn run_verdict<B: Body, T: Coming<B>>(
    alloc: Global,
    kernel: &mut Kernel<B>,
    events: &[T],
    expected: &[Expected],
) -> Result<Option<BrokenExpectation>, AllocError>
    requires { kernel.old.taken + length events.now ≤ 2 ^ 31 }
    ensures verdict { IfOk result
        (λ broken. broken ≡ spec.verdict T.reaction kernel.old events.now expected.now) }
    ensures beside { IsBeside kernel.old kernel.new }
{
    let mut checker = Checker::new(alloc, expected)?;
    tell_run(kernel, events, &mut checker);
    verdict_at_end(alloc, kernel, &checker)
}
