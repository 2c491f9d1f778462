//! Which tasks stay as they are when tables are put into a saved state. No contract speaks of it: whoever restores a
//! state reads it and compares.
use crate::kernel_state::KernelState;
use crate::queues::{is_ready, queue_of};
use fmp_base::{Phase, TaskBlock, WaitCause};

/// Whether two waits are for the same. It is false for two that wait for bits of an eventflag, or to send a word.
fn is_same_cause(a: WaitCause, b: WaitCause) -> bool {
    match (a, b) {
        (WaitCause::Sleep, WaitCause::Sleep) | (WaitCause::Delay, WaitCause::Delay) => true,
        (WaitCause::Semaphore(s), WaitCause::Semaphore(r)) => s == r,
        (WaitCause::Receiving(d), WaitCause::Receiving(e)) => d == e,
        (WaitCause::Mailbox(x), WaitCause::Mailbox(y)) => x == y,
        _ => false,
    }
}

/// Whether two phases are the same. It may be false for two equal ones in which a task waits, as `is_same_cause` may
/// be.
fn is_same_phase(a: Phase, b: Phase) -> bool {
    match (a, b) {
        (Phase::Dormant, Phase::Dormant) | (Phase::Ready, Phase::Ready) => true,
        (Phase::Waiting(cause), Phase::Waiting(other)) => is_same_cause(cause, other),
        _ => false,
    }
}

/// Whether two blocks are the same. It may be false for two equal ones in which a task waits, as `is_same_cause` may
/// be.
pub fn is_same_block(a: &TaskBlock, b: &TaskBlock) -> bool {
    is_same_phase(a.phase, b.phase)
        && a.suspended == b.suspended
        && a.priority == b.priority
        && a.processor == b.processor
        && a.activations == b.activations
        && a.next_processor == b.next_processor
        && a.wakeups == b.wakeups
        && a.deadline == b.deadline
}

/// Whether a task with a block stands in the queue of another one.
fn shares_queue(a: &TaskBlock, other: &TaskBlock) -> bool {
    if is_ready(a) {
        return is_ready(other) && a.processor == other.processor && a.priority == other.priority;
    }
    queue_of(a.phase).is_some() && is_same_phase(a.phase, other.phase)
}

/// Marks the tasks that stand after another one in their queue.
fn mark_behind(tables: &KernelState, marks: &mut [bool; 256]) {
    let count = tables.task_count() as u8;
    for t in 0..count {
        if let Some(next) = tables.behind(t) {
            marks[next as usize] = true;
        }
    }
}

/// The saved block of a task, if that is the block that the task has.
fn kept_block<'a>(tables: &KernelState, blocks: &'a [TaskBlock], t: u8) -> Option<&'a TaskBlock> {
    if t as usize >= tables.task_count() {
        return None;
    }
    let block = blocks.get(t as usize)?;
    if is_same_block(&tables.task(t), block) {
        Some(block)
    } else {
        None
    }
}

/// The task before another one in the saved order, with this block, if both stand in one queue.
fn in_front(blocks: &[TaskBlock], before: Option<u8>, block: &TaskBlock) -> Option<u8> {
    let other = before?;
    if shares_queue(block, blocks.get(other as usize)?) {
        Some(other)
    } else {
        None
    }
}

/// Marks the tasks of the saved order that stay as they are: those with the saved block, which in their queue stand
/// after the same tasks.
pub fn mark_staying(
    tables: &KernelState,
    blocks: &[TaskBlock],
    order: &[u8],
    stays: &mut [bool; 256],
) {
    let mut are_behind = [false; 256];
    mark_behind(tables, &mut are_behind);
    let mut before: Option<u8> = None;
    for task in order {
        let t = *task;
        if let Some(block) = kept_block(tables, blocks, t) {
            stays[t as usize] = match in_front(blocks, before, block) {
                Some(other) => stays[other as usize] && tables.behind(other) == Some(t),
                None => !are_behind[t as usize],
            };
        }
        before = Some(t);
    }
}
