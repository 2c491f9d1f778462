//! What tasks spin for, and which task holds what another waits or spins for.
ghost use Rattle.std.specs.Prelude.{◌≡◌, position};
ghost use Rattle.fmp_base.specs.ProcessorCalls.{is_spin as is_spin_lock, is_free as is_free_lock};
ghost use Rattle.fmp_why.specs.Obstacles as spec;

use fmp_base::arguments::numbered;
use fmp_base::{Call, Handler, Lock, Phase, Processor, TaskBlock, WaitCause};

/// A spin lock for which an actor spins.
#[derive(Clone, Copy, PartialEq, Eq)]
pub struct SpinWait {
    /// The place of the spin lock.
    pub lock: u8,
    /// The place of the processor that holds it.
    pub holder: usize,
}

/// The spin lock that a call asks for by `loc_spn`, of this many.
fn asked_lock(locks: u8, call: Option<Call>) -> Option<u8>
    ensures { result ≡ spec.asked_lock locks call }
{
    match call {
        Some(Call::LocSpn { lock }) => numbered(usize::from(locks), lock),
        _ => None,
    }
}

/// Whether this lock is spin lock l.
fn is_spin(l: u8, lock: Lock) -> bool
    ensures { result ≡ is_spin_lock l lock }
{
    match lock {
        Lock::Free | Lock::Cpu => false,
        Lock::Spin(held) => held == l,
    }
}

/// The first of these processors that holds a spin lock.
fn holder_of(processors: &[Processor], lock: u8) -> Option<usize>
    ensures { result ≡ spec.holder_of processors.now lock }
{
    processors.iter().position(|cpu| is_spin(lock, cpu.lock))
}

/// A spin lock that a processor holds.
fn held_lock(processors: &[Processor], lock: Option<u8>) -> Option<SpinWait>
    ensures { result ≡ spec.held_lock processors.now lock }
{
    let lock = lock?;
    let holder = holder_of(processors, lock)?;
    Some(SpinWait { lock, holder })
}

fn is_free(lock: Lock) -> bool
    ensures { result ≡ is_free_lock lock }
{
    match lock {
        Lock::Free => true,
        Lock::Cpu | Lock::Spin(_) => false,
    }
}

fn runs_task(handler: Option<Handler>, run: Option<u8>) -> bool
    ensures { result ≡ spec.runs_task handler run }
{
    match (handler, run) {
        (None, Some(_)) => true,
        _ => false,
    }
}

/// Whether a processor runs a task and no handler, and its CPU is not locked.
fn is_open(cpu: &Processor) -> bool
    ensures { result ≡ spec.is_open cpu.now }
{
    runs_task(cpu.handler, cpu.run) && is_free(cpu.lock)
}

/// Whether a processor holds a spin lock.
fn holds_spin_lock(cpu: &Processor) -> bool
    ensures { result ≡ spec.holds_spin_lock cpu.now }
{
    match cpu.lock {
        Lock::Spin(_) => true,
        Lock::Free | Lock::Cpu => false,
    }
}

/// The first of these processors that holds a spin lock.
fn first_holder(processors: &[Processor]) -> Option<usize>
    ensures { result ≡ position spec.holds_spin_lock processors.now }
{
    processors.iter().position(|cpu| holds_spin_lock(cpu))
}

/// Whether some processor holds a spin lock.
fn is_any_held(processors: &[Processor]) -> bool
    ensures { result ≡ spec.is_any_held processors.now }
{
    match first_holder(processors) {
        Some(_) => true,
        None => false,
    }
}

/// Whether the actor of a processor may spin by some call: it may ask for a spin lock, and one is held.
pub fn may_spin(processors: &[Processor], cpu: &Processor) -> bool
    ensures { result ≡ spec.may_spin processors.now cpu.now }
{
    is_open(cpu) && is_any_held(processors)
}

/// What the actor of a processor spins for, if its next call is this one: the spin lock that it asks for, if it may ask
/// and some processor holds it. There are this many spin locks.
pub fn spin_on(
    processors: &[Processor],
    locks: u8,
    cpu: &Processor,
    call: Option<Call>,
) -> Option<SpinWait>
    ensures { result ≡ spec.spin_on processors.now locks cpu.now call }
{
    if is_open(cpu) {
        held_lock(processors, asked_lock(locks, call))
    } else {
        None
    }
}

fn is_task(task: usize, run: Option<u8>) -> bool
    ensures { result ≡ spec.is_task task run }
{
    match run {
        Some(other) => usize::from(other) == task,
        None => false,
    }
}

/// What a task spins for, given what the actor of each processor spins for.
pub fn spin_of(
    processors: &[Processor],
    spins: &[Option<SpinWait>],
    task: usize,
) -> Option<SpinWait>
    ensures { result ≡ spec.spin_of processors.now spins.now task }
{
    let mut rest = spins;
    for cpu in processors {
        let [spin, more @ ..] = rest else {
            return None;
        };
        if is_task(task, cpu.run) {
            return *spin;
        }
        rest = more;
    }
    None
}

/// The task that the processor at a place runs.
fn run_at(processors: &[Processor], place: usize) -> Option<u8>
    ensures { result ≡ spec.run_at processors.now place }
{
    processors.get(place)?.run
}

/// The task that holds what a task in this phase waits for with no end, by the holders of the semaphores.
fn wait_holder(holders: &[Option<u8>], phase: Phase, deadline: Option<u32>) -> Option<u8>
    ensures { result ≡ spec.wait_holder holders.now phase deadline }
{
    match (phase, deadline) {
        (Phase::Waiting(WaitCause::Semaphore(place)), None) => *holders.get(usize::from(place))?,
        _ => None,
    }
}

fn spin_holder(processors: &[Processor], spin: Option<SpinWait>) -> Option<u8>
    ensures { result ≡ spec.spin_holder processors.now spin }
{
    match spin {
        Some(spin) => run_at(processors, spin.holder),
        None => None,
    }
}

/// The task that holds what a task of this block waits for with no end, or spins for: the holder of a semaphore, as
/// `holders` has it, or the task on the processor that holds a spin lock.
pub fn blocker_of(
    holders: &[Option<u8>],
    processors: &[Processor],
    block: &TaskBlock,
    spin: Option<SpinWait>,
) -> Option<u8>
    ensures { result ≡ spec.blocker_of holders.now processors.now block.now spin }
{
    match wait_holder(holders, block.phase, block.deadline) {
        Some(task) => Some(task),
        None => spin_holder(processors, spin),
    }
}
