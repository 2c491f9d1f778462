//! How the tasks of a system stand: they have ended, are in a deadlock, are held up, or go on.
ghost use Rattle.std.specs.Prelude.{◌≡◌, position};
ghost use Rattle.fmp_why.specs.Verdicts as spec;

use crate::cycles::first_on_cycle;
use crate::obstacles::SpinWait;
use fmp_base::{Phase, TaskBlock};

/// How the tasks of a system stand.
#[derive(Clone, Copy)]
pub enum SystemVerdict {
    /// Every task is dormant.
    Ended,
    /// This task waits for itself, by way of others or not.
    Deadlock(u8),
    /// Some task waits, is suspended, or spins.
    HeldUp,
    /// Some task is started, and none is held up.
    Free,
}

/// Whether a task is not dormant.
fn is_started(block: &TaskBlock) -> bool
    ensures { result ≡ spec.is_started block.now }
{
    match block.phase {
        Phase::Dormant => false,
        Phase::Ready | Phase::Waiting(_) => true,
    }
}

/// Whether a task waits.
pub fn is_waiting(phase: Phase) -> bool
    ensures { result ≡ spec.is_waiting phase }
{
    match phase {
        Phase::Waiting(_) => true,
        Phase::Dormant | Phase::Ready => false,
    }
}

/// Whether a task waits or is suspended.
fn is_held_up(block: &TaskBlock) -> bool
    ensures { result ≡ spec.is_held_up block.now }
{
    is_waiting(block.phase) || block.suspended
}

/// Whether there is something that is spun for.
pub fn is_spin(spin: Option<SpinWait>) -> bool
    ensures { result ≡ spec.is_spin spin }
{
    match spin {
        Some(_) => true,
        None => false,
    }
}

/// The first task that is not dormant.
fn first_started(blocks: &[TaskBlock]) -> Option<usize>
    ensures { result ≡ position spec.is_started blocks.now }
{
    blocks.iter().position(|block| is_started(block))
}

/// The first task that waits or is suspended.
fn first_held_up(blocks: &[TaskBlock]) -> Option<usize>
    ensures { result ≡ position spec.is_held_up blocks.now }
{
    blocks.iter().position(|block| is_held_up(block))
}

/// The first processor whose actor spins.
fn first_spin(spins: &[Option<SpinWait>]) -> Option<usize>
    ensures { result ≡ position spec.is_spin spins.now }
{
    spins.iter().position(|spin| is_spin(*spin))
}

/// Whether tasks are held up of which some are started and none waits for itself.
fn held_up_or_free(blocks: &[TaskBlock], spins: &[Option<SpinWait>]) -> SystemVerdict
    ensures { result ≡ spec.stuck_or_free (position spec.is_held_up blocks.now) (position spec.is_spin spins.now) }
{
    match (first_held_up(blocks), first_spin(spins)) {
        (None, None) => SystemVerdict::Free,
        _ => SystemVerdict::HeldUp,
    }
}

/// How tasks stand, of which each waits for the one that `blockers` has; `spins` has what the actor of each processor
/// spins for.
pub fn verdict_of(
    blocks: &[TaskBlock],
    spins: &[Option<SpinWait>],
    blockers: &[Option<u8>],
) -> SystemVerdict
    ensures { result ≡ spec.verdict_of blocks.now spins.now blockers.now }
{
    if first_started(blocks).is_none() {
        return SystemVerdict::Ended;
    }
    match first_on_cycle(blockers) {
        Some(task) => SystemVerdict::Deadlock(task),
        None => held_up_or_free(blocks, spins),
    }
}
