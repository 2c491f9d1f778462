//! The wait queues, over borrowed rings: for each semaphore, eventflag and mailbox a list of the tasks that wait there,
//! and two for each data queue, of senders and of receivers. No call takes memory.
#![tactic(auto)]

pub mod place;
pub mod queues;

pub use queues::{ObjectCounts, WaitQueues};
