//! The records of the kernel's state: tasks, processors, waits and locks.
/// The state of a task (uITRON 4.0, section 3.2.1), apart from suspension.
#[derive(Clone, Copy)]
pub enum Phase {
    /// Not started.
    Dormant,
    /// Able to run, if it is not suspended.
    Ready,
    /// Waiting for this.
    Waiting(WaitCause),
}

/// What a task waits for.
#[derive(Clone, Copy, PartialEq, Eq)]
pub enum WaitCause {
    /// A wakeup.
    Sleep,
    /// The end of a delay.
    Delay,
    /// A resource of this semaphore.
    Semaphore(u8),
    /// Bits of an eventflag.
    Flag {
        flag: u8,
        pattern: u16,
        mode: FlagMode,
    },
    /// Room in this data queue, for a word.
    Sending {
        queue: u8,
        word: i32,
    },
    /// A word of this data queue.
    Receiving(u8),
    /// A message of this mailbox.
    Mailbox(u8),
}

/// When an eventflag's pattern satisfies a waiting task (uITRON 4.0, section 4.4.2).
#[derive(Clone, Copy, PartialEq, Eq)]
pub enum FlagMode {
    /// All bits of the wait pattern are set.
    And,
    /// Any bit of the wait pattern is set.
    Or,
}

/// How long a caller may wait.
#[derive(Clone, Copy)]
pub enum TimeLimit {
    /// TMO_FEVR: without end.
    Forever,
    /// TMO_POL: not at all.
    Poll,
    /// For this many ticks, 1 to 2^30.
    Ticks(u32),
}

/// A queue of waiting tasks, by the place of its object.
#[derive(Clone, Copy)]
pub enum WaitQueue {
    /// For a resource of this semaphore.
    Semaphore(u8),
    /// For bits of this eventflag.
    Flag(u8),
    /// For room in this data queue.
    Senders(u8),
    /// For a word of this data queue.
    Receivers(u8),
    /// For a message of this mailbox.
    Mailbox(u8),
}

/// The task control block, without what never changes and without the context of its body.
#[derive(Clone, Copy)]
pub struct TaskBlock {
    /// Its state, apart from suspension.
    pub phase: Phase,
    /// Whether it is suspended.
    pub suspended: bool,
    /// The current priority, from 1, the most urgent, to 16.
    pub priority: u8,
    /// The place of the assigned processor.
    pub processor: u8,
    /// Queued activations, at most the queue limit of the system.
    pub activations: u8,
    /// The place of the processor that the next start assigns, if one is stored.
    pub next_processor: Option<u8>,
    /// Queued wakeups, at most the queue limit of the system.
    pub wakeups: u8,
    /// The clock at which a wait ends, if it has a limit.
    pub deadline: Option<u32>,
}

/// What keeps a processor from being interrupted.
#[derive(Clone, Copy, PartialEq, Eq)]
pub enum Lock {
    /// Nothing.
    Free,
    /// The CPU lock.
    Cpu,
    /// The spin lock at this place.
    Spin(u8),
}

/// A handler, by the place of its interrupt (its number less 1) or of its cyclic handler.
#[derive(Clone, Copy, PartialEq, Eq)]
pub enum Handler {
    /// The handler of an interrupt.
    Interrupt(u8),
    /// A cyclic handler.
    Cyclic(u8),
}

/// The actor that makes a call, ends or faults: a task, by its place, or a handler.
#[derive(Clone, Copy, PartialEq, Eq)]
pub enum Caller {
    /// A task.
    Task(u8),
    /// A handler that runs.
    Handler(Handler),
}

/// A processor.
#[derive(Clone, Copy)]
pub struct Processor {
    /// The place of the task that it runs, if any.
    pub run: Option<u8>,
    /// What keeps it from being interrupted.
    pub lock: Lock,
    /// Whether dispatching is disabled.
    pub dispatch_disabled: bool,
    /// The handler that runs, if any.
    pub handler: Option<Handler>,
}
