//! The ready queues, over borrowed rings: for each processor and priority a list of the tasks that are able to run
//! there, in order, and for each processor a bitmap of the lists that are not empty. No call but `new` takes memory.
#![tactic(auto)]

pub mod bits;
pub mod queues;

pub use queues::ReadyQueues;
