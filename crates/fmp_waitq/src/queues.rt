//! The wait queues.
ghost use Rattle.std.specs.Prelude.{◌≡◌, ℕ, ◌+◌, ◌<◌, ◌≤◌, List, ◌++◌, ◌∷◌, [], length, nat_eq, true, false, IfSome};
ghost use Rattle.std.specs.List.{list_any};
ghost use Rattle.fmp_base.specs.Links.{AddsAtMost};
ghost use Rattle.fmp_base.specs.MailboxCalls.{behind_equals, enqueued};
ghost use Rattle.fmp_base.specs.Queues.{first_of, priority_in};
ghost use Rattle.fmp_base.specs.States.{without};
ghost use Rattle.fmp_ring.specs.Orders.{IsOrder};
ghost use Rattle.fmp_ring.specs.Places.{Walked};
ghost use Rattle.fmp_ring.specs.RingLists.{is_linked, follower};
ghost use Rattle.fmp_waitq.specs.WaitLists.{head, place_of, AreLent, IsThere, queue_at, with_queue};

use crate::place::{place, place_from};
use fmp_base::{QueueOrder, TaskBlock, WaitQueue, WorkCount};
use fmp_ring::{Rings, as_byte};

/// How many objects of each kind have wait queues, 0 to 255 each.
#[derive(Clone, Copy)]
pub struct ObjectCounts {
    pub semaphores: u8,
    pub flags: u8,
    pub data_queues: u8,
    pub mailboxes: u8,
}

/// The wait queues of all objects (uITRON 4.0, section 4.4). They are lists of the rings that each call is lent, after
/// sixteen ready queues for each of this many processors. Objects and tasks go by their places, from 0.
#[derive(Clone, Copy)]
pub struct WaitQueues {
    pub processors: u8,
    pub counts: ObjectCounts,
}

/// The place of the list of a queue among the wait queues.
fn place_among(counts: ObjectCounts, queue: WaitQueue) -> u16
    ensures value { result ≡ place_of counts queue }
    ensures range { result ≤ 1275 }
{
    let semaphores = counts.semaphores as u16;
    let flags = counts.flags as u16;
    let data_queues = counts.data_queues as u16;
    match queue {
        WaitQueue::Semaphore(s) => s as u16,
        WaitQueue::Flag(f) => semaphores + f as u16,
        WaitQueue::Senders(d) => semaphores + flags + d as u16,
        WaitQueue::Receivers(d) => semaphores + flags + data_queues + d as u16,
        WaitQueue::Mailbox(x) => semaphores + flags + data_queues + data_queues + x as u16,
    }
}

/// The head of a queue.
fn head_of(w: WaitQueues, queue: WaitQueue) -> u16
    ensures { result ≡ head w queue }
{
    w.processors as u16 * 16 + place_among(w.counts, queue)
}

impl WaitQueues {
    /// The first task in a queue, if any.
    pub fn first(self, rings: &Rings, queue: WaitQueue, steps: &mut WorkCount) -> Option<u8>
        requires lent { AreLent self rings.now }
        requires queue { IsThere self.counts queue }
        ensures value { result ≡ first_of (queue_at self rings.now queue) }
        ensures there { IfSome result (λ t. t < rings.now.nodes) }
        ensures order { IsOrder rings.now.nodes (queue_at self rings.now queue) }
        ensures steps { AddsAtMost 1 steps.old steps.new }
    {
        as_byte(rings.first(head_of(self, queue), steps))
    }

    /// The task that follows another in a queue, if any.
    pub fn next(self, rings: &Rings, queue: WaitQueue, t: u8, steps: &mut WorkCount) -> Option<u8>
        requires lent { AreLent self rings.now }
        requires there { list_any (nat_eq t) (queue_at self rings.now queue) ≡ true }
        ensures value { result ≡ follower t (queue_at self rings.now queue) }
        ensures there { IfSome result (λ u. u < rings.now.nodes) }
        ensures steps { AddsAtMost 1 steps.old steps.new }
    {
        as_byte(rings.next(t as u16, steps))
    }

    /// Puts a task, which stands in no list, into a queue: last in FIFO order (TA_TFIFO), after those that are at least
    /// as urgent in priority order (TA_TPRI). The priorities are those of the task blocks.
    pub fn join(
        self,
        rings: &mut Rings,
        queue: WaitQueue,
        order: QueueOrder,
        blocks: &[TaskBlock],
        t: u8,
        steps: &mut WorkCount,
    )
        requires lent { AreLent self rings.old }
        requires queue { IsThere self.counts queue }
        requires task { t < rings.old.nodes }
        requires free { is_linked t rings.old.lists ≡ false }
        ensures rings { rings.new
            ≡ with_queue self rings.old queue
            (enqueued order (priority_in blocks.now) t (queue_at self rings.old queue)) }
        ensures steps { AddsAtMost (length (queue_at self rings.old queue) + 6) steps.old steps.new }
    {
        let head = head_of(self, queue);
        match order {
            QueueOrder::Fifo => rings.push_back(head, t as u16, steps),
            QueueOrder::Priority => match place(rings, head, blocks, t as u16, steps) {
                Some(at) => rings.insert_before(t as u16, at, steps),
                None => rings.push_back(head, t as u16, steps),
            },
        }
    }

    /// Puts a task, which stands in no list, into a queue of priority order, where one that is at least as urgent
    /// stands behind none that is less urgent: after all that are at least as urgent. It looks at those behind that
    /// one alone.
    pub fn join_behind(
        self,
        rings: &mut Rings,
        queue: WaitQueue,
        blocks: &[TaskBlock],
        t: u8,
        other: u8,
        steps: &mut WorkCount,
    )
        requires lent { AreLent self rings.old }
        requires queue { IsThere self.counts queue }
        requires task { t < rings.old.nodes }
        requires free { is_linked t rings.old.lists ≡ false }
        requires order { IsOrder rings.old.nodes (queue_at self rings.old queue) }
        requires behind { Walked (priority_in blocks.now) t (queue_at self rings.old queue) (Some other) }
        requires urgent { priority_in blocks.now other ≤ priority_in blocks.now t }
        ensures rings { rings.new
            ≡ with_queue self rings.old queue
            (behind_equals (priority_in blocks.now) t (queue_at self rings.old queue)) }
        ensures steps { AddsAtMost (length (queue_at self rings.old queue) + 6) steps.old steps.new }
    {
        let head = head_of(self, queue);
        let start = rings.next(other as u16, steps);
        match place_from(rings, head, blocks, t as u16, start, steps) {
            Some(at) => rings.insert_before(t as u16, at, steps),
            None => rings.push_back(head, t as u16, steps),
        }
    }

    /// Takes a task out of the queue in which it is.
    pub fn leave(self, rings: &mut Rings, queue: WaitQueue, t: u8, steps: &mut WorkCount)
        requires { list_any (nat_eq t) (queue_at self rings.old queue) ≡ true }
        ensures rings { rings.new ≡ with_queue self rings.old queue (without (queue_at self rings.old queue) t) }
        ensures gone { is_linked t rings.new.lists ≡ false }
        ensures steps { AddsAtMost 5 steps.old steps.new }
    {
        rings.remove(t as u16, steps);
    }

    /// Puts a task whose priority has changed where it comes now in a queue of priority order: after those that are at
    /// least as urgent.
    pub fn reorder(
        self,
        rings: &mut Rings,
        queue: WaitQueue,
        blocks: &[TaskBlock],
        t: u8,
        steps: &mut WorkCount,
    )
        requires lent { AreLent self rings.old }
        requires queue { IsThere self.counts queue }
        requires task { t < rings.old.nodes }
        requires there { list_any (nat_eq t) (queue_at self rings.old queue) ≡ true }
        ensures rings { rings.new
            ≡ with_queue self rings.old queue
            (behind_equals (priority_in blocks.now) t (without (queue_at self rings.old queue) t)) }
        ensures steps { AddsAtMost (length (queue_at self rings.old queue) + 11) steps.old steps.new }
    {
        self.leave(rings, queue, t, steps);
        self.join(rings, queue, QueueOrder::Priority, blocks, t, steps);
    }
}
