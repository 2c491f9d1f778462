//! Numbers of a row as parts of a state. Any number is taken: one that no state has gives some other part.
use crate::field::low_byte;
use crate::piece::BLOCK;
use fmp_base::{FlagMode, Handler, Lock, Phase, Processor, TaskBlock, WaitCause};

/// The number at a place; 0 if there is none.
pub fn number_at(numbers: &[u32], place: usize) -> u32 {
    match numbers.get(place) {
        Some(number) => *number,
        None => 0,
    }
}

/// The last byte of a number.
pub fn byte_of(number: u32) -> u8 {
    low_byte(number as usize)
}

/// The last 16 bits of a number.
pub fn half_of(number: u32) -> u16 {
    (number % 65_536) as u16
}

/// The number with a sign of which this is the one without.
pub fn signed(number: u32) -> i32 {
    let half = (number / 2) as i32;
    if number % 2 == 0 { half } else { -half - 1 }
}

/// A place that may be missing.
pub fn place_of(number: u32) -> Option<u8> {
    match number {
        0 => None,
        place => Some(byte_of(place - 1)),
    }
}

/// How many ticks lie before a time that may be missing.
pub fn ticks_of(number: u32) -> Option<u32> {
    number.checked_sub(1)
}

/// What a task waits for, by the kind of its wait, the place of the object with 1 added, and the bits or the word.
fn cause_of(kind: u32, object: u32, wanted: u32) -> WaitCause {
    let object = byte_of(object.saturating_sub(1));
    match kind {
        2 => WaitCause::Sleep,
        3 => WaitCause::Delay,
        4 => WaitCause::Semaphore(object),
        5 => WaitCause::Flag {
            flag: object,
            pattern: half_of(wanted),
            mode: FlagMode::And,
        },
        6 => WaitCause::Flag {
            flag: object,
            pattern: half_of(wanted),
            mode: FlagMode::Or,
        },
        7 => WaitCause::Sending {
            queue: object,
            word: signed(wanted),
        },
        8 => WaitCause::Receiving(object),
        _ => WaitCause::Mailbox(object),
    }
}

/// The phase of which these are the first three numbers of a task.
fn phase_of(kind: u32, object: u32, wanted: u32) -> Phase {
    match kind {
        0 => Phase::Dormant,
        1 => Phase::Ready,
        _ => Phase::Waiting(cause_of(kind, object, wanted)),
    }
}

/// The block of a task whose numbers, from its phase on, these begin with. `None` where there are too few.
pub fn block_of(numbers: &[u32]) -> Option<TaskBlock> {
    if numbers.len() < BLOCK {
        return None;
    }
    Some(TaskBlock {
        phase: phase_of(numbers[0], numbers[1], numbers[2]),
        suspended: numbers[3] == 1,
        priority: byte_of(numbers[4]),
        processor: byte_of(numbers[5]),
        activations: byte_of(numbers[6]),
        next_processor: place_of(numbers[7]),
        wakeups: byte_of(numbers[8]),
        deadline: ticks_of(numbers[9]),
    })
}

/// Whether a task with this block is not started.
pub fn is_dormant(block: &TaskBlock) -> bool {
    matches!(block.phase, Phase::Dormant)
}

/// Whether a task with this block stands in a queue.
pub fn is_queued(block: &TaskBlock) -> bool {
    match block.phase {
        Phase::Dormant => false,
        Phase::Ready => !block.suspended,
        Phase::Waiting(_) => true,
    }
}

/// The lock of a number.
fn lock_of(number: u32) -> Lock {
    match number {
        0 => Lock::Free,
        1 => Lock::Cpu,
        spin => Lock::Spin(byte_of(spin - 2)),
    }
}

/// The handler whose place as an interrupt's or as a cyclic one this is, with 1 added; none where both are 0.
fn handler_of(interrupt: u32, cyclic: u32) -> Option<Handler> {
    match place_of(interrupt) {
        Some(i) => Some(Handler::Interrupt(i)),
        None => place_of(cyclic).map(|c| Handler::Cyclic(c)),
    }
}

/// The processor whose numbers, from the task that it runs on, these begin with.
pub fn processor_of(numbers: &[u32]) -> Processor {
    Processor {
        run: place_of(number_at(numbers, 0)),
        lock: lock_of(number_at(numbers, 1)),
        dispatch_disabled: number_at(numbers, 2) == 1,
        handler: handler_of(number_at(numbers, 3), number_at(numbers, 4)),
    }
}
