//! The tasks that are started in a state, and the calls in which they wait.
use fmp_base::{Phase, System};
use fmp_code::MachineContext;
use fmp_fields::low_byte;
use fmp_kernel::{Body, Kernel};
use fmp_question::{CallSite, body_of, last_call};
use std::alloc::{AllocError, Global};

/// A task that is started, and the call in which it waits, if it does.
#[derive(Clone, Copy, Debug, PartialEq, Eq)]
pub struct Started {
    pub task: u8,
    pub waits: Option<CallSite>,
}

/// Where a task stands, if there is one and it is started.
fn started_at<B: Body<Ctx = MachineContext>>(
    kernel: &Kernel<B>,
    task: u8,
    body: u8,
) -> Option<Started> {
    let tables = kernel.tables();
    if usize::from(task) >= tables.task_count() {
        return None;
    }
    match tables.task(task).phase {
        Phase::Dormant => None,
        Phase::Ready => Some(Started { task, waits: None }),
        Phase::Waiting(_) => {
            let pc = last_call(kernel.held(task));
            let waits = Some(CallSite { body, pc });
            Some(Started { task, waits })
        }
    }
}

/// The tasks that are started. `AllocError` if memory runs out.
pub fn started_tasks<B: Body<Ctx = MachineContext>>(
    alloc: Global,
    kernel: &Kernel<B>,
    sys: &System,
) -> Result<Vec<Started>, AllocError> {
    let mut all = Vec::new(alloc);
    for (t, config) in sys.tasks.iter().enumerate() {
        if let Some(started) = started_at(kernel, low_byte(t), body_of(config.entry)) {
            all.push(started)?;
        }
    }
    Ok(all)
}
