//! What is seen of the tables of a kernel, kind by kind.
ghost use Rattle.std.specs.Prelude.{◌≡◌, ◌<◌, ℕ, length, get_or, pos, IfOk};
ghost use Rattle.fmp_base.specs.FlagCalls.{pattern_at};
ghost use Rattle.fmp_base.specs.Runs.{task_state};
ghost use Rattle.fmp_base.specs.States.{processor_at, task_at};
ghost use Rattle.fmp_base.specs.Ticks.{is_pending};
ghost use Rattle.fmp_frames.specs.Frames as spec;
ghost use Rattle.fmp_frames.specs.Frames.{message_count, word_count};

use fmp_base::{Processor, TaskBlock, TaskState};
use fmp_kernel::{Body, Kernel};
use fmp_tasks::KernelState;
use std::alloc::{AllocError, Global};

/// The numbers of interrupts end here.
const INTERRUPTS: u8 = 32;

/// What a function gives for each number below a count, in order.
pub fn each<T: Drop, F: Fn(u8) -> T>(
    alloc: Global,
    count: u8,
    read: F,
) -> Result<Vec<T>, AllocError>
    requires { (i : ℕ) → i < count → F.pre read i }
    ensures { (f : ℕ → T) → ((i : ℕ) (x : T) → i < count → F.post read i x → x ≡ f i)
        → IfOk result (λ xs. xs.items ≡ spec.each f count) }
{
    let mut xs = Vec::with_capacity(alloc, count as usize)?;
    for i in 0..count {
        xs.push(read(i))?;
    }
    Ok(xs)
}

/// What is shown of all tasks of a kernel, in order of number. `AllocError` if memory runs out, as of each call below.
pub fn states<B: Body>(alloc: Global, kernel: &Kernel<B>) -> Result<Vec<TaskState>, AllocError>
    ensures { IfOk result (λ xs. xs.items
        ≡ spec.each (task_state kernel.now.world.state) (length kernel.now.system.tasks)) }
{
    each(
        alloc,
        kernel.tables().task_count() as u8,
        |i| kernel.state(i),
    )
}

/// What is kept of all tasks.
pub fn blocks(alloc: Global, tables: &KernelState) -> Result<Vec<TaskBlock>, AllocError>
    ensures { IfOk result (λ xs. xs.items ≡ spec.each (task_at tables.now.state.tasks)
        (length tables.now.system.tasks)) }
{
    each(alloc, tables.task_count() as u8, |i| tables.task(i))
}

/// All processors.
pub fn processors(alloc: Global, tables: &KernelState) -> Result<Vec<Processor>, AllocError>
    ensures { IfOk result (λ xs. xs.items ≡ spec.each (processor_at tables.now.state) tables.now.system.processors) }
{
    each(
        alloc,
        tables.processor_count() as u8,
        |i| tables.processor(i),
    )
}

/// The count of each semaphore.
pub fn semaphores(alloc: Global, tables: &KernelState) -> Result<Vec<u16>, AllocError>
    ensures { IfOk result (λ xs. xs.items ≡ spec.each (λ i. get_or tables.now.state.semaphores i 0)
        (length tables.now.system.semaphores)) }
{
    each(alloc, tables.semaphore_count() as u8, |i| tables.count(i))
}

/// The pattern of each eventflag.
pub fn flags(alloc: Global, tables: &KernelState) -> Result<Vec<u16>, AllocError>
    ensures { IfOk result (λ xs. xs.items ≡ spec.each (pattern_at tables.now.state) (length tables.now.system.flags)) }
{
    each(alloc, tables.flag_count() as u8, |i| tables.pattern(i))
}

/// How many words each data queue holds.
pub fn data_queues(alloc: Global, tables: &KernelState) -> Result<Vec<u8>, AllocError>
    ensures { IfOk result (λ xs. xs.items ≡ spec.each (word_count tables.now.state)
        (length tables.now.system.data_queues)) }
{
    each(
        alloc,
        tables.data_queue_count() as u8,
        |i| tables.data_queue_length(i),
    )
}

/// How many messages are in each mailbox.
pub fn mailboxes(alloc: Global, tables: &KernelState) -> Result<Vec<u8>, AllocError>
    ensures { IfOk result (λ xs. xs.items ≡ spec.each (message_count tables.now.state)
        (length tables.now.system.mailboxes)) }
{
    each(
        alloc,
        tables.mailbox_count() as u8,
        |i| tables.mailbox_length(i),
    )
}

/// The value of each shared word.
pub fn shared_words(alloc: Global, tables: &KernelState) -> Result<Vec<i32>, AllocError>
    ensures { IfOk result (λ xs. xs.items ≡ spec.each (λ i. get_or tables.now.state.shared_words i (pos 0))
        (length tables.now.system.shared_words)) }
{
    each(
        alloc,
        tables.shared_word_count() as u8,
        |i| tables.shared_word(i),
    )
}

/// Whether each cyclic handler is pending.
pub fn pending_cyclics(alloc: Global, tables: &KernelState) -> Result<Vec<bool>, AllocError>
    ensures { IfOk result (λ xs. xs.items ≡ spec.each (is_pending tables.now.state.pending_cyclics)
        (length tables.now.system.cyclics)) }
{
    each(
        alloc,
        tables.cyclic_count() as u8,
        |i| tables.is_cyclic_pending(i),
    )
}

/// Whether the handler of each interrupt, from number 1 to 32, is pending.
pub fn pending_interrupts(alloc: Global, tables: &KernelState) -> Result<Vec<bool>, AllocError>
    ensures { IfOk result (λ xs. xs.items ≡ spec.each (is_pending tables.now.state.pending_interrupts) 32) }
{
    each(alloc, INTERRUPTS, |i| tables.is_interrupt_pending(i))
}
