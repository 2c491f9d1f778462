//! The numbers that a dump has for states, waits, handlers and locks.
ghost use Rattle.std.specs.Prelude.{◌≡◌};
ghost use Rattle.fmp_frames.specs.Values as spec;

use crate::refusals::is_ok;
use fmp_base::{Handler, Line, Lock, Phase, StateWord, WaitCause};

/// 1 if it holds, else 0.
pub fn one_if(holds: bool) -> u32
    ensures { result ≡ spec.one_if holds }
{
    if holds { 1 } else { 0 }
}

/// The number of a state: 0 DORMANT, 1 READY, 2 RUNNING, 3 WAITING, 4 SUSPENDED, 5 WAITING-SUSPENDED.
pub fn state_code(word: StateWord) -> u32
    ensures { result ≡ spec.state_code word }
{
    match word {
        StateWord::Dormant => 0,
        StateWord::Ready => 1,
        StateWord::Running => 2,
        StateWord::Waiting => 3,
        StateWord::Suspended => 4,
        StateWord::WaitingSuspended => 5,
    }
}

/// The number, from 1, of what stands at a place; 0 if there is none.
pub fn number_or_zero(place: Option<u8>) -> u32
    ensures { result ≡ spec.number_or_zero place }
{
    match place {
        Some(place) => u32::from(place) + 1,
        None => 0,
    }
}

/// The number of a handler: 0 for none, C for cyclic handler C, 256 and I for the handler of interrupt I.
pub fn handler_code(handler: Option<Handler>) -> u32
    ensures { result ≡ spec.handler_code handler }
{
    match handler {
        None => 0,
        Some(Handler::Cyclic(cyclic)) => u32::from(cyclic) + 1,
        Some(Handler::Interrupt(place)) => u32::from(place) + 257,
    }
}

/// The number of a lock: 0 for none, 1 for the CPU lock, 256 and L for spin lock L.
pub fn lock_code(lock: Lock) -> u32
    ensures { result ≡ spec.lock_code lock }
{
    match lock {
        Lock::Free => 0,
        Lock::Cpu => 1,
        Lock::Spin(place) => u32::from(place) + 257,
    }
}

fn cause_code(cause: WaitCause) -> u32
    ensures { result ≡ spec.cause_code cause }
{
    match cause {
        WaitCause::Sleep => 1,
        WaitCause::Delay => 2,
        WaitCause::Semaphore(_) => 3,
        WaitCause::Flag { .. } => 4,
        WaitCause::Sending { .. } => 5,
        WaitCause::Receiving(_) => 6,
        WaitCause::Mailbox(_) => 7,
    }
}

/// The number of what a task waits for: 0 nothing, 1 a wakeup, 2 the end of a delay, 3 a semaphore, 4 an eventflag,
/// 5 room in a data queue, 6 a word of a data queue, 7 a message.
pub fn wait_code(phase: Phase) -> u32
    ensures { result ≡ spec.wait_code phase }
{
    match phase {
        Phase::Waiting(cause) => cause_code(cause),
        Phase::Dormant | Phase::Ready => 0,
    }
}

fn cause_object(cause: WaitCause) -> u32
    ensures { result ≡ spec.cause_object cause }
{
    match cause {
        WaitCause::Sleep | WaitCause::Delay => 0,
        WaitCause::Semaphore(place) => u32::from(place) + 1,
        WaitCause::Flag { flag, .. } => u32::from(flag) + 1,
        WaitCause::Sending { queue, .. } => u32::from(queue) + 1,
        WaitCause::Receiving(queue) => u32::from(queue) + 1,
        WaitCause::Mailbox(place) => u32::from(place) + 1,
    }
}

/// The number of the object that a task waits for; 0 if it waits for none.
pub fn wait_object(phase: Phase) -> u32
    ensures { result ≡ spec.wait_object phase }
{
    match phase {
        Phase::Waiting(cause) => cause_object(cause),
        Phase::Dormant | Phase::Ready => 0,
    }
}

/// The number for a handler: 2 if it runs on some processor, and 1 more if it is pending.
pub fn handling(running: usize, is_pending: bool) -> u32
    ensures { result ≡ spec.handling running is_pending }
{
    2 * one_if(running > 0) + one_if(is_pending)
}

/// The number for a processor, by a line: 2 if the line tells a fault there, 1 a call there that is answered otherwise
/// than E_OK, else 0.
pub fn refused_by(line: Line, place: usize) -> u32
    ensures { result ≡ spec.refused_by place line }
{
    match line {
        Line::Fault { processor, .. } => 2 * one_if(usize::from(processor) == place),
        Line::Call {
            processor,
            reply: Some(reply),
            ..
        } => one_if(usize::from(processor) == place && !is_ok(reply.code)),
        _ => 0,
    }
}
