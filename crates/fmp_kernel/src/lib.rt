//! The kernel over bodies that are given by a trait: one event is one step of its state. It takes every system in
//! range, and carries out all service calls, for tasks, for handlers, and for bodies that run elsewhere.
#![tactic(auto)]

pub mod actors;
mod calls;
mod coming;
mod coming_laws;
mod events;
pub mod kernel;
pub mod laws;
mod restoring;
mod runner;
mod settling;
mod spins;
mod stamps;
mod starting;
mod ticks;

pub use actors::Actor;
pub use coming::Coming;
pub use coming_laws::events_are_steps;
pub use fmp_base::Body;
pub use fmp_contexts::{ContextTest, SavedContexts};
pub use kernel::{Kernel, KernelFault};
pub use restoring::Saved;
pub use stamps::run_place;
