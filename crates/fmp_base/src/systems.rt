//! The tables of a system: what its configuration makes.
ghost use Rattle.std.specs.Prelude.{◌≡◌};
ghost use Rattle.fmp_base.specs.Systems.{tables_of, without_objects};

use crate::names::Name;
use std::alloc::Global;

/// The order of a queue of tasks or messages.
#[derive(Clone, Copy)]
pub enum QueueOrder {
    /// TA_TFIFO, TA_MFIFO.
    Fifo,
    /// TA_TPRI, TA_MPRI.
    Priority,
}

/// The body of a task or of a handler.
#[derive(Clone, Copy)]
pub enum Entry {
    /// The name that the configuration gives.
    Named(Name),
    /// The place of the body among the bodies.
    Body(u8),
}

/// A task, as CRE_TSK and its class define it (uITRON 4.0, section 4.1; FMP kernel, classes).
#[derive(Clone, Copy)]
pub struct TaskConfig {
    /// Its name.
    pub name: Name,
    /// TA_ACT: the task starts when it is created.
    pub activated: bool,
    /// The extended information, which its body gets at the start.
    pub exinf: i32,
    /// Its body.
    pub entry: Entry,
    /// The initial priority, 1 to 16.
    pub priority: u8,
    /// The size of the stack in bytes, 1 to 65536.
    pub stack: u32,
    /// The place of the initial processor.
    pub processor: u8,
    /// Whether the initial processor is the only one allowed.
    pub only: bool,
}

/// A semaphore, as CRE_SEM defines it (uITRON 4.0, section 4.4.1).
#[derive(Clone, Copy)]
pub struct SemaphoreConfig {
    /// Its name.
    pub name: Name,
    /// The order of the waiting tasks.
    pub order: QueueOrder,
    /// The initial count, 0 to `most`.
    pub initial: u16,
    /// The greatest count, 1 to 65535.
    pub most: u16,
}

/// An eventflag, as CRE_FLG defines it (uITRON 4.0, section 4.4.2).
#[derive(Clone, Copy)]
pub struct FlagConfig {
    /// Its name.
    pub name: Name,
    /// The order of the waiting tasks.
    pub order: QueueOrder,
    /// TA_WMUL: several tasks may wait.
    pub multiple: bool,
    /// TA_CLR: a satisfied wait clears all bits.
    pub clears: bool,
    /// The initial bit pattern.
    pub initial: u16,
}

/// A data queue, as CRE_DTQ defines it (uITRON 4.0, section 4.4.3).
#[derive(Clone, Copy)]
pub struct DataQueueConfig {
    /// Its name.
    pub name: Name,
    /// The order of the senders; receivers queue in FIFO order.
    pub order: QueueOrder,
    /// How many words it holds, 0 to 255.
    pub capacity: u8,
}

/// A mailbox, as CRE_MBX defines it (uITRON 4.0, section 4.4.4).
#[derive(Clone, Copy)]
pub struct MailboxConfig {
    /// Its name.
    pub name: Name,
    /// The order of the waiting tasks.
    pub order: QueueOrder,
    /// The order of its messages.
    pub message_order: QueueOrder,
    /// The greatest priority number of a message, 1 to 16; it matters only if messages queue by priority.
    pub most: u8,
}

/// A message, as CRE_MSG defines it, this kernel's own.
#[derive(Clone, Copy)]
pub struct MessageConfig {
    /// Its name.
    pub name: Name,
    /// 1, the most urgent, to 16.
    pub priority: u8,
}

/// A shared word, as CRE_SHR defines it, this kernel's own.
#[derive(Clone, Copy)]
pub struct SharedWordConfig {
    /// Its name.
    pub name: Name,
    /// Its value at the start.
    pub initial: i32,
}

/// A spin lock, as CRE_SPN defines it (FMP kernel, spin locks).
#[derive(Clone, Copy)]
pub struct SpinLockConfig {
    /// Its name.
    pub name: Name,
}

/// A cyclic handler, as CRE_CYC and its class define it (uITRON 4.0, section 4.7.2).
#[derive(Clone, Copy)]
pub struct CyclicConfig {
    /// Its name.
    pub name: Name,
    /// TA_STA: the handler is started when it is created.
    pub started: bool,
    /// The extended information, which its body gets at the start.
    pub exinf: i32,
    /// Its body.
    pub entry: Entry,
    /// Ticks, 1 to 2^30.
    pub period: u32,
    /// Ticks, 0 to 2^30.
    pub phase: u32,
    /// The place of the processor that it runs on.
    pub processor: u8,
}

/// An interrupt handler, as DEF_INH and its class define it (uITRON 4.0, section 4.9).
#[derive(Clone, Copy)]
pub struct InterruptConfig {
    /// The interrupt number, 1 to 32.
    pub number: u8,
    /// Its body.
    pub entry: Entry,
    /// The place of the processor that it runs on.
    pub processor: u8,
}

/// How many activations, and how many wakeups, of a task can be queued in a system that is read from its configuration.
pub const QUEUE_LIMIT: u8 = 255;

/// All tables of an accepted configuration. Each table is in order of number, the interrupts in order of text.
#[derive(Drop)]
pub struct System {
    /// How many processors there are, 1 to 8.
    pub processors: u8,
    /// How many activations, and how many wakeups, of a task can be queued, 1 to 255.
    pub queue_limit: u8,
    /// The tasks: at most 255, as of each kind below.
    pub tasks: Vec<TaskConfig>,
    /// The semaphores.
    pub semaphores: Vec<SemaphoreConfig>,
    /// The eventflags.
    pub flags: Vec<FlagConfig>,
    /// The data queues.
    pub data_queues: Vec<DataQueueConfig>,
    /// The mailboxes.
    pub mailboxes: Vec<MailboxConfig>,
    /// The messages.
    pub messages: Vec<MessageConfig>,
    /// The shared words.
    pub shared_words: Vec<SharedWordConfig>,
    /// The spin locks.
    pub spin_locks: Vec<SpinLockConfig>,
    /// The cyclic handlers.
    pub cyclics: Vec<CyclicConfig>,
    /// The interrupt handlers, at most 32.
    pub interrupts: Vec<InterruptConfig>,
}

impl System {
    /// A system of this many processors, 1 to 8, without objects, with the queue limit of a configuration.
    pub fn empty(alloc: Global, processors: u8) -> System
        ensures { tables_of result ≡ without_objects processors }
    {
        System {
            processors,
            queue_limit: QUEUE_LIMIT,
            tasks: Vec::new(alloc),
            semaphores: Vec::new(alloc),
            flags: Vec::new(alloc),
            data_queues: Vec::new(alloc),
            mailboxes: Vec::new(alloc),
            messages: Vec::new(alloc),
            shared_words: Vec::new(alloc),
            spin_locks: Vec::new(alloc),
            cyclics: Vec::new(alloc),
            interrupts: Vec::new(alloc),
        }
    }
}
