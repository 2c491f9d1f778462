//! The tables of the system.
ghost use Rattle.std.specs.Prelude.{◌≡◌, ◌<◌, ◌≤◌, ◌^◌, length, IfSome};
ghost use Rattle.fmp_base.specs.Systems.{
  task_config,
  semaphore_config,
  flag_config,
  data_queue_config,
  mailbox_config,
  message_config,
  cyclic_config,
  interrupt_config,
};

use crate::config::handler_for;
use crate::kernel_state::KernelState;
use fmp_base::{
    CyclicConfig, DataQueueConfig, FlagConfig, InterruptConfig, MailboxConfig, MessageConfig,
    SemaphoreConfig, TaskConfig,
};

impl KernelState {
    /// What a task is created with.
    pub fn task_config(&self, t: u8) -> TaskConfig
        requires { t < length self.now.system.tasks }
        ensures value { result ≡ task_config self.now.system t }
        ensures urgent { 1 ≤ result.priority }
        ensures least { result.priority ≤ 16 }
        ensures processor { result.processor < self.now.system.processors }
    {
        self.system.tasks[t as usize]
    }

    /// The greatest count of queued activations and of queued wakeups of a task.
    pub fn queue_limit(&self) -> u8
        ensures { result ≡ self.now.system.queue_limit }
    {
        self.system.queue_limit
    }

    /// What a semaphore is created with.
    pub fn semaphore_config(&self, s: u8) -> SemaphoreConfig
        requires { s < length self.now.system.semaphores }
        ensures { result ≡ semaphore_config self.now.system s }
    {
        self.system.semaphores[s as usize]
    }

    /// What an eventflag is created with.
    pub fn flag_config(&self, f: u8) -> FlagConfig
        requires { f < length self.now.system.flags }
        ensures { result ≡ flag_config self.now.system f }
    {
        self.system.flags[f as usize]
    }

    /// What a data queue is created with.
    pub fn data_queue_config(&self, d: u8) -> DataQueueConfig
        requires { d < length self.now.system.data_queues }
        ensures { result ≡ data_queue_config self.now.system d }
    {
        self.system.data_queues[d as usize]
    }

    /// What a mailbox is created with.
    pub fn mailbox_config(&self, x: u8) -> MailboxConfig
        requires { x < length self.now.system.mailboxes }
        ensures { result ≡ mailbox_config self.now.system x }
    {
        self.system.mailboxes[x as usize]
    }

    /// What a message is created with.
    pub fn message_config(&self, g: u8) -> MessageConfig
        requires { g < length self.now.system.messages }
        ensures { result ≡ message_config self.now.system g }
    {
        self.system.messages[g as usize]
    }

    /// What a cyclic handler is created with.
    pub fn cyclic_config(&self, c: u8) -> CyclicConfig
        requires { c < length self.now.system.cyclics }
        ensures value { result ≡ cyclic_config self.now.system c }
        ensures period { result.period ≤ 2 ^ 30 }
        ensures phase { result.phase ≤ 2 ^ 30 }
        ensures processor { result.processor < self.now.system.processors }
    {
        self.system.cyclics[c as usize]
    }

    /// The handler of the interrupt at a place, if one is defined.
    pub fn interrupt_config(&self, i: u8) -> Option<InterruptConfig>
        requires { i < 255 }
        ensures value { result ≡ interrupt_config self.now.system i }
        ensures processor { IfSome result (λ config. config.processor < self.now.system.processors) }
    {
        handler_for(self.system.interrupts.as_slice(), i + 1)
    }

    /// How many spin locks there are.
    pub fn spin_lock_count(&self) -> usize
        ensures count { result ≡ length self.now.system.spin_locks }
        ensures few { result ≤ 255 }
    {
        self.system.spin_locks.len()
    }
}
