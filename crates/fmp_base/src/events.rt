//! Events, which are what the kernel is told, and the lines with which it answers.
use crate::bodies::Fault;
use crate::calls::{Call, Reply};
use crate::states::{Caller, Handler};

/// What the kernel is told.
#[derive(Clone, Copy, Debug, PartialEq, Eq)]
pub enum Event {
    /// The processor of this number runs its actor to the next service call, end or fault.
    Run(u8),
    /// The clock advances by one.
    Tick,
    /// The interrupt of this number is requested.
    Int(u8),
}

/// What an event did.
#[derive(Clone, Copy, Debug, PartialEq, Eq)]
pub enum Effect {
    /// It changed the state, and takes the next number of the trace.
    Done,
    /// The bound was reached, and the context at that point is kept. There is no line, and the trace goes on at the
    /// same number.
    Kept,
    /// The state is as it was, and there is no line.
    Nothing,
}

/// A line of the trace without its event's number. Tasks, handlers and processors go by their places.
#[derive(Clone, Copy)]
pub enum Line {
    /// The clock is now this.
    Tick(u32),
    /// The interrupt at this place was requested.
    Int(u8),
    /// A service call, with its reply, or none if the caller waits.
    Call {
        processor: u8,
        caller: Caller,
        call: Call,
        reply: Option<Reply>,
    },
    /// A body ended.
    End {
        processor: u8,
        caller: Caller,
    },
    /// A body stopped with a fault.
    Fault {
        processor: u8,
        caller: Caller,
        fault: Fault,
    },
    /// A waiting task was released with a reply.
    Gets {
        processor: u8,
        task: u8,
        reply: Reply,
    },
    /// A task started.
    Starts {
        processor: u8,
        task: u8,
    },
    /// A cyclic handler became pending.
    Pends {
        processor: u8,
        cyclic: u8,
    },
    /// A handler began.
    Begins {
        processor: u8,
        handler: Handler,
    },
    /// A processor runs another task than before, or none.
    Runs {
        processor: u8,
        task: Option<u8>,
    },
}

/// The word that the last lines have for a task's state (uITRON 4.0, section 3.2.1).
#[derive(Clone, Copy, PartialEq, Eq)]
pub enum StateWord {
    /// A processor runs it.
    Running,
    /// It could run, and its processor runs another.
    Ready,
    /// It waits.
    Waiting,
    /// It could run if it were not suspended.
    Suspended,
    /// It waits, and is suspended.
    WaitingSuspended,
    /// It is not started.
    Dormant,
}

/// What is shown of a task at the end.
#[derive(Clone, Copy)]
pub struct TaskState {
    /// Its state.
    pub word: StateWord,
    /// The place of the assigned processor.
    pub processor: u8,
    /// The current priority, 1 to 16.
    pub priority: u8,
}
