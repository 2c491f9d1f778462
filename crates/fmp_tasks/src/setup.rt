//! The parts of the state in which a system starts.
ghost use Rattle.std.specs.Prelude.{◌≡◌, ◌+◌, ◌*◌, [], IfOk, map, replicate};
ghost use Rattle.fmp_base.specs.Ranges.{IsInRange};
ghost use Rattle.fmp_base.specs.Setups.{created as created_block, created_state};
ghost use Rattle.fmp_base.specs.Systems.{tables_of};
ghost use Rattle.fmp_spin.specs.Pending.{none_pending};
ghost use Rattle.fmp_tasks.specs.Empties.{empty_mailboxes, no_bits, no_deadlines, no_tasks};
ghost use Rattle.fmp_tasks.specs.Homes.{waits_of};
ghost use Rattle.fmp_waitq.specs.WaitLists.{count_of_lists};

use crate::words::QueueWords;
use fmp_base::{
    FlagConfig, Phase, SemaphoreConfig, SharedWordConfig, System, TaskBlock, TaskConfig,
};
use fmp_ready::ReadyQueues;
use fmp_ring::Rings;
use fmp_spin::PendingHandlers;
use fmp_ticks::{Cyclics, TickQueue};
use fmp_waitq::{ObjectCounts, WaitQueues};
use std::alloc::{AllocError, Global};

/// A task that has been created and not started.
pub fn created(config: &TaskConfig) -> TaskBlock
    ensures { result ≡ created_block config.now }
{
    TaskBlock {
        phase: Phase::Dormant,
        suspended: false,
        priority: config.priority,
        processor: config.processor,
        activations: 0,
        next_processor: None,
        wakeups: 0,
        deadline: None,
    }
}

/// All tasks, created and not started.
pub fn created_blocks(alloc: Global, configs: &[TaskConfig]) -> Result<Vec<TaskBlock>, AllocError>
    ensures { IfOk result (λ v. v.items ≡ map created_block configs.now) }
{
    let mut blocks = Vec::with_capacity(alloc, configs.len())?;
    for config in configs {
        blocks.push_reserved(created(config));
    }
    Ok(blocks)
}

/// The initial counts of semaphores.
fn initial_counts(alloc: Global, configs: &[SemaphoreConfig]) -> Result<Vec<u16>, AllocError>
    ensures { IfOk result (λ v. v.items ≡ map (λ c. c.initial) configs.now) }
{
    let mut counts = Vec::with_capacity(alloc, configs.len())?;
    for config in configs {
        counts.push_reserved(config.initial);
    }
    Ok(counts)
}

/// The initial patterns of eventflags.
fn initial_patterns(alloc: Global, configs: &[FlagConfig]) -> Result<Vec<u16>, AllocError>
    ensures { IfOk result (λ v. v.items ≡ map (λ c. c.initial) configs.now) }
{
    let mut patterns = Vec::with_capacity(alloc, configs.len())?;
    for config in configs {
        patterns.push_reserved(config.initial);
    }
    Ok(patterns)
}

/// The initial values of shared words.
fn initial_words(alloc: Global, configs: &[SharedWordConfig]) -> Result<Vec<i32>, AllocError>
    ensures { IfOk result (λ v. v.items ≡ map (λ c. c.initial) configs.now) }
{
    let mut words = Vec::with_capacity(alloc, configs.len())?;
    for config in configs {
        words.push_reserved(config.initial);
    }
    Ok(words)
}

/// The wait queues of a system.
pub fn wait_queues(sys: &System) -> WaitQueues
    requires { IsInRange (tables_of sys.now) }
    ensures { result ≡ waits_of (tables_of sys.now) }
{
    WaitQueues {
        processors: sys.processors,
        counts: ObjectCounts {
            semaphores: sys.semaphores.len() as u8,
            flags: sys.flags.len() as u8,
            data_queues: sys.data_queues.len() as u8,
            mailboxes: sys.mailboxes.len() as u8,
        },
    }
}

/// How many lists tasks stand in: sixteen ready queues for each processor, and the wait queues.
fn list_count(waits: WaitQueues) -> u16
    ensures { result ≡ waits.processors * 16 + count_of_lists waits.counts }
{
    let counts = waits.counts;
    let data_queues = counts.data_queues as u16;
    let single = counts.semaphores as u16 + counts.flags as u16 + counts.mailboxes as u16;
    waits.processors as u16 * 16 + single + data_queues + data_queues
}

/// No ready queue with a task, empty lists, and no deadlines.
pub fn empty_queues(
    alloc: Global,
    sys: &System,
    waits: WaitQueues,
) -> Result<(ReadyQueues, Rings, TickQueue), AllocError>
    requires range { IsInRange (tables_of sys.now) }
    requires waits { waits ≡ waits_of (tables_of sys.now) }
    ensures ready { IfOk result (λ q. q.0 ≡ no_bits (tables_of sys.now)) }
    ensures rings { IfOk result (λ q. q.1 ≡ no_tasks (tables_of sys.now)) }
    ensures deadlines { IfOk result (λ q. q.2 ≡ no_deadlines (tables_of sys.now)) }
{
    let ready = ReadyQueues::new(alloc, sys.processors)?;
    let rings = Rings::new(alloc, list_count(waits), sys.tasks.len() as u16)?;
    let deadlines = TickQueue::new(alloc, sys.tasks.len() as u8)?;
    Ok((ready, rings, deadlines))
}

/// The initial values of semaphores, eventflags and shared words.
pub fn initial_values(
    alloc: Global,
    sys: &System,
) -> Result<(Vec<u16>, Vec<u16>, Vec<i32>), AllocError>
    ensures semaphores { IfOk result (λ v. v.0.items ≡ (created_state (tables_of sys.now)).semaphores) }
    ensures flags { IfOk result (λ v. v.1.items ≡ (created_state (tables_of sys.now)).flags) }
    ensures shared_words { IfOk result (λ v. v.2.items ≡ (created_state (tables_of sys.now)).shared_words) }
{
    let semaphores = initial_counts(alloc, sys.semaphores.as_slice())?;
    let flags = initial_patterns(alloc, sys.flags.as_slice())?;
    let shared_words = initial_words(alloc, sys.shared_words.as_slice())?;
    Ok((semaphores, flags, shared_words))
}

/// This many data queues with no word.
fn empty_words(alloc: Global, queues: usize) -> Result<Vec<QueueWords>, AllocError>
    ensures { IfOk result (λ v. v.items ≡ replicate queues []) }
{
    let mut words = Vec::with_capacity(alloc, queues)?;
    for _ in 0..queues {
        words.push_reserved(QueueWords::new(alloc)?);
    }
    Ok(words)
}

/// Empty data queues and mailboxes.
pub fn empty_contents(alloc: Global, sys: &System) -> Result<(Vec<QueueWords>, Rings), AllocError>
    requires { IsInRange (tables_of sys.now) }
    ensures words { IfOk result (λ v. v.0.items ≡ (created_state (tables_of sys.now)).data_queues) }
    ensures mailboxes { IfOk result (λ v. v.1 ≡ empty_mailboxes (tables_of sys.now)) }
{
    let words = empty_words(alloc, sys.data_queues.len())?;
    let mailboxes = Rings::new(alloc, sys.mailboxes.len() as u16, sys.messages.len() as u16)?;
    Ok((words, mailboxes))
}

/// The cyclic handlers, and no pending handler.
pub fn idle_handlers(alloc: Global, sys: &System) -> Result<(Cyclics, PendingHandlers), AllocError>
    requires { IsInRange (tables_of sys.now) }
    ensures due_times { IfOk result (λ v. v.0 ≡ (created_state (tables_of sys.now)).due_times) }
    ensures pending { IfOk result (λ v. v.1 ≡ none_pending (tables_of sys.now)) }
{
    let cyclics = Cyclics::new(alloc, sys)?;
    let pending = PendingHandlers::new(alloc, sys)?;
    Ok((cyclics, pending))
}
