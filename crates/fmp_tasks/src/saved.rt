//! A state of the kernel as it is saved: plain values, by which tables are put into it again.
use fmp_base::{Processor, TaskBlock};

/// A word in a data queue.
#[derive(Clone, Copy)]
pub struct SavedWord {
    /// The place of the data queue.
    pub queue: u8,
    /// The word.
    pub word: i32,
}

/// A message in a mailbox.
#[derive(Clone, Copy)]
pub struct SavedMessage {
    /// The place of the mailbox.
    pub mailbox: u8,
    /// The place of the message.
    pub message: u8,
}

/// A state of the kernel at clock 0. Everything goes by its place in the tables of the system, from 0.
#[derive(Drop)]
pub struct SavedState {
    /// The block of each task. A deadline is how many ticks lie before it, from 1.
    pub blocks: Vec<TaskBlock>,
    /// The tasks that are ready or waiting: those of one queue in the order in which they stand in it.
    pub order: Vec<u8>,
    /// The count of each semaphore.
    pub semaphores: Vec<u16>,
    /// The pattern of each eventflag.
    pub flags: Vec<u16>,
    /// The words in data queues: those of one queue in their order, the oldest first.
    pub words: Vec<SavedWord>,
    /// The messages in mailboxes: those of one mailbox in their order, the first one first.
    pub messages: Vec<SavedMessage>,
    /// Each shared word.
    pub shared_words: Vec<i32>,
    /// Each processor.
    pub processors: Vec<Processor>,
    /// For each cyclic handler how many ticks lie before its next start, from 1, if it is started.
    pub due_times: Vec<Option<u32>>,
    /// Whether each cyclic handler is pending.
    pub pending_cyclics: Vec<bool>,
    /// Whether each of the 32 interrupts is pending.
    pub pending_interrupts: Vec<bool>,
}
