//! Cycles of tasks that wait for one another.
ghost use Rattle.std.specs.Prelude.{◌≡◌, IfOk, Some, length};
ghost use Rattle.fmp_why.specs.Cycles as spec;

use std::alloc::{AllocError, Global};

/// The task that a task waits for, if it waits for one.
pub fn next_of(blockers: &[Option<u8>], task: u8) -> Option<u8>
    ensures { result ≡ spec.next_of blockers.now task }
{
    match blockers.get(usize::from(task)) {
        Some(next) => *next,
        None => None,
    }
}

/// Whether a task waits for itself, by way of at most as many tasks as there are, where `blockers` has the task that
/// each one waits for.
pub fn is_on_cycle(blockers: &[Option<u8>], task: u8) -> bool
    ensures { result ≡ spec.is_on_cycle blockers.now task }
{
    let mut at = next_of(blockers, task);
    for _step in 0..blockers.len() {
        let Some(next) = at else {
            return false;
        };
        if next == task {
            return true;
        }
        at = next_of(blockers, next);
    }
    false
}

/// The first task that waits for itself so, among the first 255.
pub fn first_on_cycle(blockers: &[Option<u8>]) -> Option<u8>
    ensures { result ≡ spec.first_on_cycle blockers.now }
{
    for task in 0..blockers.len().min(255) as u8 {
        if is_on_cycle(blockers, task) {
            return Some(task);
        }
    }
    None
}

/// The task that a task waits for, unless that is the first one of a cycle.
fn next_but(blockers: &[Option<u8>], task: u8, first: u8) -> Option<u8>
    ensures { result ≡ spec.next_but (spec.next_of blockers.now task) first }
{
    match next_of(blockers, task) {
        Some(next) if next != first => Some(next),
        _ => None,
    }
}

/// The tasks of the cycle that a task is on, this one first: each waits for the next one, and the last one for the
/// first. `AllocError` if memory runs out.
pub fn cycle_tasks(alloc: Global, blockers: &[Option<u8>], first: u8) -> Result<Vec<u8>, AllocError>
    ensures { IfOk result (λ tasks. tasks.items
        ≡ spec.cycle_tasks blockers.now first (length blockers.now) (Some first)) }
{
    let mut tasks = Vec::new(alloc);
    let mut at = Some(first);
    for _link in 0..blockers.len() {
        let Some(task) = at else {
            return Ok(tasks);
        };
        tasks.push(task)?;
        at = next_but(blockers, task, first);
    }
    Ok(tasks)
}
