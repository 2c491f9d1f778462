//! Which tasks came last into the wait queues of priority order.
ghost use Rattle.std.specs.Prelude.{◌<◌};

use fmp_base::WaitQueue;

/// How many tasks are remembered: one for each priority, in each of sixteen groups of queues.
const SLOTS: usize = 256;

/// For each priority the task that came last into a wait queue at it. It may have left since, or be in another queue of
/// the group: the caller looks where it is. So the contracts say nothing of it, and nothing depends on it except how
/// long the search for a place takes.
#[derive(Drop)]
pub struct Latest {
    tasks: [u8; SLOTS],
}

/// Where the task that came last into a queue at a priority is remembered.
fn slot(queue: WaitQueue, priority: u8) -> usize
    ensures { result < 256 }
{
    let place = match queue {
        WaitQueue::Semaphore(s) => s,
        WaitQueue::Flag(f) => f,
        WaitQueue::Senders(d) => d,
        WaitQueue::Receivers(d) => d,
        WaitQueue::Mailbox(x) => x,
    };
    (place % 16) as usize * 16 + (priority % 16) as usize
}

impl Latest {
    /// Some task for each priority.
    pub fn new() -> Latest {
        Latest { tasks: [0; SLOTS] }
    }

    /// The task that may have come last into a queue at a priority.
    pub fn task(&self, queue: WaitQueue, priority: u8) -> u8 {
        self.tasks[slot(queue, priority)]
    }

    /// Task t comes into a queue at a priority.
    pub fn remember(&mut self, queue: WaitQueue, priority: u8, t: u8) {
        self.tasks[slot(queue, priority)] = t;
    }
}
