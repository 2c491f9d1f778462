//! The parts of a state as numbers without a sign.
ghost use Rattle.std.specs.Prelude.{◌≡◌, ◌≤◌, ◌^◌, IfNone, IfSome};
ghost use Rattle.fmp_reachable.specs.Numbers as numbers;

use fmp_base::{FlagMode, Handler, Lock, Phase, WaitCause};

/// 1 for what is so.
pub fn bit(holds: bool) -> u32
    ensures { result ≡ numbers.bit holds }
{
    if holds { 1 } else { 0 }
}

/// A place that may be missing: with 1 added, or 0 where it is missing.
pub fn place(place: Option<u8>) -> u32
    ensures { result ≡ numbers.place place }
{
    match place {
        Some(place) => u32::from(place) + 1,
        None => 0,
    }
}

/// The ticks from the clock up to a time, with 1 added; 0 if there is no time. `None` if this is 2^32 or more.
pub fn ticks_to(clock: u32, time: Option<u32>) -> Option<u32>
    ensures value { IfSome result (λ n. n ≡ numbers.ticks_to clock time) }
    ensures far { IfNone result (2 ^ 32 ≤ numbers.ticks_to clock time) }
{
    match time {
        Some(time) => time.saturating_sub(clock).checked_add(1),
        None => Some(0),
    }
}

/// A signed number as one without a sign: small numbers stay small.
pub fn unsigned(value: i32) -> u32
    ensures { result ≡ numbers.unsigned value }
{
    let size = value.unsigned_abs();
    if value < 0 {
        (size - 1) * 2 + 1
    } else {
        size * 2
    }
}

/// The number of a wait's kind.
fn wait_kind(cause: WaitCause) -> u32
    ensures { result ≡ numbers.wait_kind cause }
{
    match cause {
        WaitCause::Sleep => 2,
        WaitCause::Delay => 3,
        WaitCause::Semaphore(_) => 4,
        WaitCause::Flag {
            mode: FlagMode::And,
            ..
        } => 5,
        WaitCause::Flag {
            mode: FlagMode::Or,
            ..
        } => 6,
        WaitCause::Sending { .. } => 7,
        WaitCause::Receiving(_) => 8,
        WaitCause::Mailbox(_) => 9,
    }
}

/// The number of a phase and, where it is a wait, of its kind.
pub fn phase_kind(phase: Phase) -> u32
    ensures { result ≡ numbers.phase_kind phase }
{
    match phase {
        Phase::Dormant => 0,
        Phase::Ready => 1,
        Phase::Waiting(cause) => wait_kind(cause),
    }
}

/// The place of the object of a wait for this.
fn cause_object(cause: WaitCause) -> Option<u8>
    ensures { result ≡ numbers.cause_object cause }
{
    match cause {
        WaitCause::Sleep | WaitCause::Delay => None,
        WaitCause::Semaphore(s) => Some(s),
        WaitCause::Flag { flag, .. } => Some(flag),
        WaitCause::Sending { queue, .. } => Some(queue),
        WaitCause::Receiving(d) => Some(d),
        WaitCause::Mailbox(x) => Some(x),
    }
}

/// The place of the object of a wait.
pub fn wait_object(phase: Phase) -> Option<u8>
    ensures { result ≡ numbers.wait_object phase }
{
    match phase {
        Phase::Dormant | Phase::Ready => None,
        Phase::Waiting(cause) => cause_object(cause),
    }
}

/// The bits or the word of a wait for this.
fn cause_value(cause: WaitCause) -> u32
    ensures { result ≡ numbers.cause_value cause }
{
    match cause {
        WaitCause::Flag { pattern, .. } => u32::from(pattern),
        WaitCause::Sending { word, .. } => unsigned(word),
        WaitCause::Sleep
        | WaitCause::Delay
        | WaitCause::Semaphore(_)
        | WaitCause::Receiving(_)
        | WaitCause::Mailbox(_) => 0,
    }
}

/// The bits or the word of a wait.
pub fn wait_value(phase: Phase) -> u32
    ensures { result ≡ numbers.wait_value phase }
{
    match phase {
        Phase::Dormant | Phase::Ready => 0,
        Phase::Waiting(cause) => cause_value(cause),
    }
}

/// The lock of a processor.
pub fn lock_number(lock: Lock) -> u32
    ensures { result ≡ numbers.lock_number lock }
{
    match lock {
        Lock::Free => 0,
        Lock::Cpu => 1,
        Lock::Spin(l) => u32::from(l) + 2,
    }
}

/// The place of the interrupt whose handler this is.
pub fn interrupt_of(handler: Option<Handler>) -> Option<u8>
    ensures { result ≡ numbers.interrupt_of handler }
{
    match handler {
        Some(Handler::Interrupt(i)) => Some(i),
        Some(Handler::Cyclic(_)) | None => None,
    }
}

/// The place of the cyclic handler that this is.
pub fn cyclic_of(handler: Option<Handler>) -> Option<u8>
    ensures { result ≡ numbers.cyclic_of handler }
{
    match handler {
        Some(Handler::Cyclic(c)) => Some(c),
        Some(Handler::Interrupt(_)) | None => None,
    }
}
