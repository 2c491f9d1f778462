//! A frame: what is seen of a kernel after an event.
ghost use Rattle.std.specs.Prelude.{◌≡◌, IfOk};
ghost use Rattle.fmp_frames.specs.Frames.{frame_of, kept_frame as frame_of_kept, table_of};

use crate::reading::{
    blocks, data_queues, flags, mailboxes, pending_cyclics, pending_interrupts, processors,
    semaphores, shared_words, states,
};
use crate::spinning::spins;
use fmp_base::{Line, Processor, TaskBlock, TaskState};
use fmp_kernel::{Body, Kernel};
use fmp_why::SpinWait;
use std::alloc::{AllocError, Global};

/// What setup or an event that was taken told, and the state after it. Each table is in order of number.
#[derive(Drop)]
pub struct Frame {
    /// What happened.
    pub lines: Vec<Line>,
    /// The processor, by its place from 0, whose actor kept its place, if the event did that; then there are no lines.
    pub kept: Option<u8>,
    /// The clock.
    pub clock: u32,
    /// What is shown of the tasks.
    pub states: Vec<TaskState>,
    /// The tasks with their waits.
    pub blocks: Vec<TaskBlock>,
    /// The processors.
    pub processors: Vec<Processor>,
    /// What the actor of each processor spins for: what its next run would come to.
    pub spins: Vec<Option<SpinWait>>,
    /// The counts of the semaphores.
    pub semaphores: Vec<u16>,
    /// The patterns of the eventflags.
    pub flags: Vec<u16>,
    /// How many words the data queues hold.
    pub data_queues: Vec<u8>,
    /// How many messages are in the mailboxes.
    pub mailboxes: Vec<u8>,
    /// The values of the shared words.
    pub shared_words: Vec<i32>,
    /// Whether the cyclic handlers are pending.
    pub pending_cyclics: Vec<bool>,
    /// Whether the handlers of the interrupts from 1 to 32 are pending.
    pub pending_interrupts: Vec<bool>,
}

/// The frame of a kernel as it is, with these lines, or of an event that kept a place. `AllocError` if memory runs out.
fn frame_with<B: Body>(
    alloc: Global,
    kernel: &Kernel<B>,
    told: &[Line],
    kept: Option<u8>,
) -> Result<Frame, AllocError>
    ensures { IfOk result (λ f. table_of f ≡ record (frame_of kernel.now.system (B.meaning kernel.now.body)
        kernel.now.bound kernel.now.world told.now) { kept = kept }) }
{
    let tables = kernel.tables();
    let mut lines = Vec::new(alloc);
    lines.extend_from_slice(told)?;
    let processors = processors(alloc, tables)?;
    Ok(Frame {
        lines,
        kept,
        clock: tables.clock(),
        states: states(alloc, kernel)?,
        blocks: blocks(alloc, tables)?,
        spins: spins(alloc, kernel, &processors)?,
        processors,
        semaphores: semaphores(alloc, tables)?,
        flags: flags(alloc, tables)?,
        data_queues: data_queues(alloc, tables)?,
        mailboxes: mailboxes(alloc, tables)?,
        shared_words: shared_words(alloc, tables)?,
        pending_cyclics: pending_cyclics(alloc, tables)?,
        pending_interrupts: pending_interrupts(alloc, tables)?,
    })
}

/// The frame of setup, or of the last event that was done, of a kernel. `AllocError` if memory runs out.
pub fn last_frame<B: Body>(alloc: Global, kernel: &Kernel<B>) -> Result<Frame, AllocError>
    ensures { IfOk result (λ f. table_of f ≡ frame_of kernel.now.system (B.meaning kernel.now.body) kernel.now.bound
        kernel.now.world kernel.now.lines) }
{
    frame_with(alloc, kernel, kernel.lines(), None)
}

/// The frame of an event that kept the place of the actor of the processor that it ran. `AllocError` if memory runs
/// out.
pub fn kept_frame<B: Body>(
    alloc: Global,
    kernel: &Kernel<B>,
    ran: Option<u8>,
) -> Result<Frame, AllocError>
    ensures { IfOk result (λ f. table_of f ≡ frame_of_kept kernel.now.system (B.meaning kernel.now.body)
        kernel.now.bound kernel.now.world ran) }
{
    frame_with(alloc, kernel, &[], ran)
}
