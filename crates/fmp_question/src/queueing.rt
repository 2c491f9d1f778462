//! How many activations and wakeups of tasks are queued.
ghost use Rattle.std.specs.Prelude.{◌≡◌};
ghost use Rattle.std.specs.List.{list_all};
ghost use Rattle.fmp_schedules.specs.Schedules as spec;

use crate::question::Question;
use fmp_base::TaskBlock;
use fmp_kernel::{Body, Kernel};
use fmp_tasks::KernelState;

/// Whether at most this many activations and wakeups of a task are queued.
fn is_within(most: u8, task: TaskBlock) -> bool
    ensures { result ≡ spec.is_within most task }
{
    task.activations <= most && task.wakeups <= most
}

/// The same of each task.
fn are_all_within(most: u8, tables: &KernelState) -> bool
    ensures { result ≡ list_all (spec.is_within most) tables.now.state.tasks }
{
    for t in 0..tables.task_count() as u8 {
        if !is_within(most, tables.task(t)) {
            return false;
        }
    }
    true
}

/// Whether at most as many activations and wakeups of each task are queued on a kernel as a question allows.
pub fn queues_within<B: Body>(kernel: &Kernel<B>, question: &Question) -> bool
    ensures { result ≡ spec.are_within question.now.queued kernel.now.world.state.tasks }
{
    match question.queued {
        Some(most) => are_all_within(most, kernel.tables()),
        None => true,
    }
}
