//! The contexts of the bodies of tasks and handlers, kept in place between their stretches, and what the lines of an
//! event mean for them.
#![tactic(auto)]

mod contexts;
mod deliveries;
mod kept;
mod restoring;

pub use contexts::{BodyContexts, stretch};
pub use deliveries::{carry_out, end_context, entry_of};
pub use restoring::{ContextTest, SavedContexts, restore_contexts};
