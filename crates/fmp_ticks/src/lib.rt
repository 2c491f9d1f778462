//! Times in the future: the deadlines of tasks, and the times at which cyclic handlers are due. No call but `new` takes
//! memory.
#![tactic(auto)]

pub mod cyclics;
mod deadline_heap;
pub mod deadlines;
mod heap;
mod times;

pub use cyclics::Cyclics;
pub use deadlines::TickQueue;
