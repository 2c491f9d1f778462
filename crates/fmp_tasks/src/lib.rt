//! The tables of a system and the state of its kernel, as the service calls see them: the task blocks with the queues
//! of tasks, the objects' values, the processors and the clock. What the calls share is here too: a task starts, ends,
//! waits, is released or suspended. No call but `new` takes memory.
#![tactic(auto)]

pub mod answers;
mod config;
pub mod kernel_state;
mod latest;
mod marks;
mod messages;
pub mod order;
mod queues;
mod restart;
pub mod restoring;
pub mod saved;
mod setup;
mod staying;
pub mod tasks;
pub mod trail;
mod words;

pub use config::copied_system;
pub use kernel_state::KernelState;
pub use order::Order;
pub use saved::{SavedMessage, SavedState, SavedWord};
