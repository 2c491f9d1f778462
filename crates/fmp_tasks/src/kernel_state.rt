//! The tables of the system and the state of the kernel.
ghost use Rattle.std.specs.Prelude.{◌≡◌, IfOk};
ghost use Rattle.fmp_base.specs.Ranges.{IsInRange};
ghost use Rattle.fmp_base.specs.Setups.{created_state};
ghost use Rattle.fmp_base.specs.Systems.{tables_of};

use crate::config::copied_system;
use crate::latest::Latest;
use crate::marks::SettleMarks;
use crate::order::Order;
use crate::setup::{
    created_blocks, empty_contents, empty_queues, idle_handlers, initial_values, wait_queues,
};
use crate::words::QueueWords;
use fmp_base::{System, TaskBlock};
use fmp_ready::ReadyQueues;
use fmp_ring::Rings;
use fmp_spin::{PendingHandlers, Processors};
use fmp_ticks::{Cyclics, TickQueue};
use fmp_waitq::WaitQueues;
use std::alloc::{AllocError, Global};
use std::marker::Model;

mod clock;
mod configs;
mod copying;
mod laws;
mod processors;
mod queued;
mod tasks;
mod values;

/// The tables of the system, which never change, and the state of the kernel: the task blocks with the queues and
/// deadlines that belong to them, and the values of the objects, the processors and the handlers. Everything goes by
/// its place, from 0. The tasks are in the lists of `rings`, which are the ready queues and the wait queues; the
/// messages are in those of `mailboxes`. A processor that is not marked has nothing to settle. The contract of each
/// call that changes the state gives the whole state that it leaves.
#[derive(Drop)]
pub struct KernelState {
    system: System,
    blocks: Vec<TaskBlock>,
    order: Order,
    rings: Rings,
    ready: ReadyQueues,
    waits: WaitQueues,
    deadlines: TickQueue,
    latest: Latest,
    semaphores: Vec<u16>,
    flags: Vec<u16>,
    words: Vec<QueueWords>,
    mailboxes: Rings,
    shared_words: Vec<i32>,
    processors: Processors,
    cyclics: Cyclics,
    pending: PendingHandlers,
    marks: SettleMarks,
    clock: u32,
}

impl Model for KernelState {
    ghost use Rattle.fmp_tasks.specs.Tables.{TablesView, tables_view, IsWhole};

    ghost Value = { TablesView };

    ghost view = { tables_view };

    ghost invariant = { IsWhole };
}

impl KernelState {
    /// The state in which a system starts, with no task started yet (uITRON 4.0, section 3.7). `AllocError` if memory
    /// runs out.
    pub fn new(alloc: Global, sys: &System) -> Result<KernelState, AllocError>
        requires { IsInRange (tables_of sys.now) }
        ensures { IfOk result
            (λ h. h ≡ record { system = tables_of sys.now; state = created_state (tables_of sys.now) }) }
    {
        let system = copied_system(alloc, sys)?;
        let blocks = created_blocks(alloc, sys.tasks.as_slice())?;
        let waits = wait_queues(sys);
        let queues = empty_queues(alloc, sys, waits)?;
        let values = initial_values(alloc, sys)?;
        let contents = empty_contents(alloc, sys)?;
        let handlers = idle_handlers(alloc, sys)?;
        let processors = Processors::new(alloc, sys.processors)?;
        let (ready, rings, deadlines) = queues;
        let (semaphores, flags, shared_words) = values;
        let (words, mailboxes) = contents;
        let (cyclics, pending) = handlers;
        Ok(KernelState {
            system,
            blocks,
            order: Order::new(),
            rings,
            ready,
            waits,
            deadlines,
            latest: Latest::new(),
            semaphores,
            flags,
            words,
            mailboxes,
            shared_words,
            processors,
            cyclics,
            pending,
            marks: SettleMarks::all(),
            clock: 0,
        })
    }
}
