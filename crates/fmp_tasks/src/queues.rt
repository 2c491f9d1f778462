//! Where a task stands by its block: the moves into its queue and out of it.
ghost use Rattle.std.specs.Prelude.{◌≡◌, ◌<◌, ◌≤◌, length, nat_eq, true, false, slice_set, IfSome};
ghost use Rattle.fmp_base.specs.MailboxCalls.{behind_equals, enqueued};
ghost use Rattle.fmp_base.specs.Queues.{is_ready as is_ready_block, is_same_queue as is_same};
ghost use Rattle.fmp_base.specs.Queues.{order_of as order_of_queue, priority_in, queue_of as queue_of_phase, waits_in};
ghost use Rattle.fmp_base.specs.States.{task_at};
ghost use Rattle.fmp_base.specs.Systems.{tables_of};
ghost use Rattle.fmp_ring.specs.RingLists.{is_linked};
ghost use Rattle.fmp_ready.specs.ReadyLists.{AreExact};
ghost use Rattle.fmp_waitq.specs.WaitLists.{AreLent, IsThere, queue_at, with_queue};
ghost use Rattle.fmp_tasks.specs.Homes.{home, counts_of, order_with_head, left_from, joined_to, IsAmong, IsSomeThere};
ghost use Rattle.fmp_tasks.specs.Joining.{AreOrdered, IsOrdered};

use crate::config::order_of;
use crate::latest::Latest;
use fmp_base::{Phase, QueueOrder, System, TaskBlock, WaitCause, WaitQueue, WorkCount};
use fmp_ready::ReadyQueues;
use fmp_ring::Rings;
use fmp_ticks::{Cyclics, TickQueue};
use fmp_waitq::WaitQueues;

/// Whether a task is able to run: neither dormant nor waiting nor suspended.
pub fn is_ready(x: &TaskBlock) -> bool
    ensures { result ≡ is_ready_block x.now }
{
    matches!(&x.phase, Phase::Ready) && !x.suspended
}

/// The wait queue in which a task of this phase stands, if any.
pub fn queue_of(phase: Phase) -> Option<WaitQueue>
    ensures { result ≡ queue_of_phase phase }
{
    match phase {
        Phase::Dormant => None,
        Phase::Ready => None,
        Phase::Waiting(cause) => match cause {
            WaitCause::Sleep => None,
            WaitCause::Delay => None,
            WaitCause::Semaphore(s) => Some(WaitQueue::Semaphore(s)),
            WaitCause::Flag { flag, .. } => Some(WaitQueue::Flag(flag)),
            WaitCause::Sending { queue, .. } => Some(WaitQueue::Senders(queue)),
            WaitCause::Receiving(d) => Some(WaitQueue::Receivers(d)),
            WaitCause::Mailbox(x) => Some(WaitQueue::Mailbox(x)),
        },
    }
}

/// Takes task t, which is x, out of its queue, if it stands in one.
#[inline(always)]
pub fn leave(ready: &mut ReadyQueues, waits: WaitQueues, rings: &mut Rings, x: &TaskBlock, t: u8)
    requires urgent { 1 ≤ x.now.priority }
    requires least { x.now.priority ≤ 16 }
    requires processor { x.now.processor < length ready.old }
    requires processors { waits.processors ≡ length ready.old }
    requires exact { AreExact ready.old rings.old }
    requires lent { AreLent waits rings.old }
    requires queue { IsSomeThere waits.counts (queue_of_phase x.now.phase) }
    requires there { IsAmong t rings.old.lists (home waits x.now) }
    ensures rings { rings.new ≡ record rings.old { lists = left_from rings.old.lists (home waits x.now) t } }
    ensures processors { length ready.new ≡ length ready.old }
    ensures exact { AreExact ready.new rings.new }
    ensures lent { AreLent waits rings.new }
{
    let mut steps = WorkCount::new();
    if is_ready(x) {
        ready.dequeue(rings, x.processor, x.priority, t, &mut steps);
    } else if let Some(queue) = queue_of(x.phase) {
        waits.leave(rings, queue, t, &mut steps);
    }
}

/// Whether two wait queues are one.
fn is_same_queue(a: WaitQueue, b: WaitQueue) -> bool
    ensures { result ≡ is_same a b }
{
    match (a, b) {
        (WaitQueue::Semaphore(s), WaitQueue::Semaphore(r)) => s == r,
        (WaitQueue::Flag(f), WaitQueue::Flag(g)) => f == g,
        (WaitQueue::Senders(d), WaitQueue::Senders(e)) => d == e,
        (WaitQueue::Receivers(d), WaitQueue::Receivers(e)) => d == e,
        (WaitQueue::Mailbox(x), WaitQueue::Mailbox(y)) => x == y,
        _ => false,
    }
}

/// Whether a task waits in a queue.
fn is_waiting_in(queue: WaitQueue, x: &TaskBlock) -> bool
    ensures { result ≡ waits_in queue x.now }
{
    match queue_of(x.phase) {
        Some(other) => is_same_queue(queue, other),
        None => false,
    }
}

/// The task that is remembered for a queue at the priority of task t, where it waits there and is at least as urgent.
fn remembered(latest: &Latest, blocks: &[TaskBlock], queue: WaitQueue, t: u8) -> Option<u8>
    requires { t < length blocks.now }
    ensures there { IfSome result (λ u. u < length blocks.now) }
    ensures another { IfSome result (λ u. nat_eq u t ≡ false) }
    ensures waits { IfSome result (λ u. waits_in queue (task_at blocks.now u) ≡ true) }
    ensures urgent { IfSome result (λ u. priority_in blocks.now u ≤ priority_in blocks.now t) }
{
    let priority = blocks[t as usize].priority;
    let u = latest.task(queue, priority);
    if u == t || u as usize >= blocks.len() {
        return None;
    }
    let x = &blocks[u as usize];
    if x.priority <= priority && is_waiting_in(queue, x) {
        Some(u)
    } else {
        None
    }
}

/// Puts task t into a wait queue of priority order.
#[inline(never)]
fn join_by_priority(
    waits: WaitQueues,
    rings: &mut Rings,
    latest: &mut Latest,
    blocks: &[TaskBlock],
    queue: WaitQueue,
    t: u8,
)
    requires lent { AreLent waits rings.old }
    requires queue { IsThere waits.counts queue }
    requires there { t < length blocks.now }
    requires task { t < rings.old.nodes }
    requires free { is_linked t rings.old.lists ≡ false }
    requires ordered { IsOrdered waits blocks.now rings.old queue t }
    ensures rings { rings.new
        ≡ with_queue waits rings.old queue (behind_equals (priority_in blocks.now) t (queue_at waits rings.old queue)) }
{
    let mut steps = WorkCount::new();
    match remembered(latest, blocks, queue, t) {
        Some(u) => waits.join_behind(rings, queue, blocks, t, u, &mut steps),
        None => waits.join(rings, queue, QueueOrder::Priority, blocks, t, &mut steps),
    }
    latest.remember(queue, blocks[t as usize].priority, t);
}

/// Puts task t into a wait queue.
#[inline(always)]
fn join_queue(
    waits: WaitQueues,
    rings: &mut Rings,
    latest: &mut Latest,
    sys: &System,
    blocks: &[TaskBlock],
    queue: WaitQueue,
    t: u8,
)
    requires lent { AreLent waits rings.old }
    requires queue { IsThere waits.counts queue }
    requires there { t < length blocks.now }
    requires task { t < rings.old.nodes }
    requires free { is_linked t rings.old.lists ≡ false }
    requires ordered { AreOrdered waits (tables_of sys.now) blocks.now rings.old t }
    ensures rings { rings.new
        ≡ with_queue waits rings.old queue
        (enqueued (order_of_queue (tables_of sys.now) queue) (priority_in blocks.now) t
        (queue_at waits rings.old queue)) }
{
    match order_of(sys, queue) {
        QueueOrder::Fifo => {
            waits.join(
                rings,
                queue,
                QueueOrder::Fifo,
                blocks,
                t,
                &mut WorkCount::new(),
            );
        }
        QueueOrder::Priority => join_by_priority(waits, rings, latest, blocks, queue, t),
    }
}

/// Puts task t, which is x, into its queue, if it is to stand in one.
#[inline(always)]
pub fn join(
    ready: &mut ReadyQueues,
    waits: WaitQueues,
    rings: &mut Rings,
    latest: &mut Latest,
    sys: &System,
    blocks: &[TaskBlock],
    x: &TaskBlock,
    t: u8,
)
    requires urgent { 1 ≤ x.now.priority }
    requires least { x.now.priority ≤ 16 }
    requires processor { x.now.processor < length ready.old }
    requires processors { waits.processors ≡ length ready.old }
    requires exact { AreExact ready.old rings.old }
    requires lent { AreLent waits rings.old }
    requires counts { waits.counts ≡ counts_of (tables_of sys.now) }
    requires queue { IsSomeThere waits.counts (queue_of_phase x.now.phase) }
    requires task { t < rings.old.nodes }
    requires there { t < length blocks.now }
    requires ordered { AreOrdered waits (tables_of sys.now) blocks.now rings.old t }
    requires free { is_linked t rings.old.lists ≡ false }
    ensures rings { rings.new
        ≡ record rings.old {
          lists = joined_to (order_with_head waits (tables_of sys.now)) (priority_in blocks.now)
              rings.old.lists (home waits x.now) t;
        } }
    ensures processors { length ready.new ≡ length ready.old }
    ensures exact { AreExact ready.new rings.new }
    ensures lent { AreLent waits rings.new }
{
    if is_ready(x) {
        ready.enqueue(rings, x.processor, x.priority, t, &mut WorkCount::new());
    } else if let Some(queue) = queue_of(x.phase) {
        join_queue(waits, rings, latest, sys, blocks, queue, t);
    }
}

/// The deadline of task t becomes this.
#[inline(always)]
pub fn set_deadline(deadlines: &mut TickQueue, t: u8, deadline: Option<u32>)
    requires { t < length deadlines.old }
    ensures { deadlines.new ≡ slice_set deadlines.old t deadline }
{
    let mut steps = WorkCount::new();
    match deadline {
        Some(when) => deadlines.set(t, when, &mut steps),
        None => deadlines.cancel(t, &mut steps),
    }
}

/// The due time of cyclic handler c becomes this.
#[inline(always)]
pub fn set_due_time(cyclics: &mut Cyclics, c: u8, due: Option<u32>)
    requires { c < length cyclics.old }
    ensures { cyclics.new ≡ slice_set cyclics.old c due }
{
    match due {
        Some(when) => cyclics.start(c, when),
        None => cyclics.stop(c),
    }
}
