//! Copies of the tables of a system, and attributes in them.
ghost use Rattle.std.specs.Prelude.{◌≡◌, IfOk};
ghost use Rattle.fmp_base.specs.Queues.{order_of as order_of_queue};
ghost use Rattle.fmp_base.specs.Systems.{tables_of, defined_for};

use fmp_base::{InterruptConfig, QueueOrder, System, WaitQueue};
use std::alloc::{AllocError, Global};

/// A copy of the rows of a table.
fn copied<T: Copy>(alloc: Global, rows: &[T]) -> Result<Vec<T>, AllocError>
    ensures { IfOk result (λ v. v.items ≡ rows.now) }
{
    let mut copy = Vec::with_capacity(alloc, rows.len())?;
    for row in rows {
        copy.push_reserved(*row);
    }
    Ok(copy)
}

/// A copy of the tables of a system. `AllocError` if memory runs out.
pub fn copied_system(alloc: Global, sys: &System) -> Result<System, AllocError>
    ensures { IfOk result (λ s. tables_of s ≡ tables_of sys.now) }
{
    Ok(System {
        processors: sys.processors,
        queue_limit: sys.queue_limit,
        tasks: copied(alloc, sys.tasks.as_slice())?,
        semaphores: copied(alloc, sys.semaphores.as_slice())?,
        flags: copied(alloc, sys.flags.as_slice())?,
        data_queues: copied(alloc, sys.data_queues.as_slice())?,
        mailboxes: copied(alloc, sys.mailboxes.as_slice())?,
        messages: copied(alloc, sys.messages.as_slice())?,
        shared_words: copied(alloc, sys.shared_words.as_slice())?,
        spin_locks: copied(alloc, sys.spin_locks.as_slice())?,
        cyclics: copied(alloc, sys.cyclics.as_slice())?,
        interrupts: copied(alloc, sys.interrupts.as_slice())?,
    })
}

/// The order of a wait queue: that of its object, where receivers of words queue in FIFO order.
pub fn order_of(sys: &System, queue: WaitQueue) -> QueueOrder
    ensures { result ≡ order_of_queue (tables_of sys.now) queue }
{
    match queue {
        WaitQueue::Semaphore(s) => match sys.semaphores.get(s as usize) {
            Some(config) => config.order,
            None => QueueOrder::Fifo,
        },
        WaitQueue::Flag(f) => match sys.flags.get(f as usize) {
            Some(config) => config.order,
            None => QueueOrder::Fifo,
        },
        WaitQueue::Senders(d) => match sys.data_queues.get(d as usize) {
            Some(config) => config.order,
            None => QueueOrder::Fifo,
        },
        WaitQueue::Receivers(_) => QueueOrder::Fifo,
        WaitQueue::Mailbox(x) => match sys.mailboxes.get(x as usize) {
            Some(config) => config.order,
            None => QueueOrder::Fifo,
        },
    }
}

/// The handler that is defined for an interrupt number, if any.
pub fn handler_for(configs: &[InterruptConfig], number: u8) -> Option<InterruptConfig>
    ensures { result ≡ defined_for number configs.now }
{
    for config in configs {
        if config.number == number {
            return Some(*config);
        }
    }
    None
}
