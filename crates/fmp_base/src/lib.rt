//! The words of the kernel: codes, service calls and their arguments, the words of both texts, events, lines of the
//! trace, the tables of a system, the records of its state, and the trait of the bodies that it runs. The definitions
//! of what they mean stand in `specs/`.
#![tactic(auto)]

pub mod arguments;
pub mod bodies;
pub mod body;
pub mod calls;
pub mod catalogue;
pub mod codes;
pub mod counted;
pub mod events;
mod finding;
mod initials;
pub mod laws;
pub mod names;
pub mod operators;
pub mod permissions;
pub mod requests;
pub mod services;
pub mod states;
pub mod stop;
pub mod systems;
pub mod tally;
pub mod ties;
mod trace_words;
pub mod words;

pub use bodies::{Fault, HandlerContext, HandlerStart, Held, Stretch};
pub use body::Body;
pub use calls::{Answer, Call, Reply};
pub use catalogue::{Action, ObjectKind, Parameter};
pub use codes::Er;
pub use counted::{CountedLinks, WorkCount};
pub use events::{Effect, Event, Line, StateWord, TaskState};
pub use names::Name;
pub use operators::{BinaryOperator, UnaryOperator};
pub use permissions::Permission;
pub use requests::Arguments;
pub use services::{SERVICES, Service};
pub use states::{
    Caller, FlagMode, Handler, Lock, Phase, Processor, TaskBlock, TimeLimit, WaitCause, WaitQueue,
};
pub use stop::StretchStop;
pub use systems::{
    CyclicConfig, DataQueueConfig, Entry, FlagConfig, InterruptConfig, MailboxConfig,
    MessageConfig, QUEUE_LIMIT, QueueOrder, SemaphoreConfig, SharedWordConfig, SpinLockConfig,
    System, TaskConfig,
};
pub use trace_words::FAULTS;
