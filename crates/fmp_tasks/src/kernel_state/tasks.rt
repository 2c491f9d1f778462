//! The task blocks and the queues in which the tasks stand.
ghost use Rattle.std.specs.Prelude.{◌≡◌, ◌+◌, ◌<◌, ◌≤◌, length, nat_eq, true, false, IfSome};
ghost use Rattle.std.specs.List.{list_any};
ghost use Rattle.fmp_base.specs.Queues.{is_ready, top, first_ready, first_waiting, wait_queue};
ghost use Rattle.fmp_base.specs.States.{task_at, with_task, with_last, with_removed};
ghost use Rattle.fmp_base.specs.TaskCalls.{goes_last, rotated};
ghost use Rattle.fmp_ring.specs.Orders.{IsOrder};
ghost use Rattle.fmp_ring.specs.RingLists.{follower};
ghost use Rattle.fmp_tasks.specs.Holding.{queue_holding};
ghost use Rattle.fmp_tasks.specs.Homes.{Fits, Stays, is_in_order, counts_of};
ghost use Rattle.fmp_waitq.specs.WaitLists.{IsThere};

use crate::config::order_of;
use crate::kernel_state::KernelState;
use crate::queues::{is_ready as is_able, join, leave, queue_of, set_deadline};
use fmp_base::{QueueOrder, TaskBlock, WaitQueue, WorkCount};
use fmp_ring::as_byte;

impl KernelState {
    /// How many tasks there are.
    pub fn task_count(&self) -> usize
        ensures count { result ≡ length self.now.state.tasks }
        ensures configs { result ≡ length self.now.system.tasks }
        ensures few { result ≤ 255 }
    {
        self.blocks.len()
    }

    /// A task.
    pub fn task(&self, t: u8) -> TaskBlock
        requires { t < length self.now.system.tasks }
        ensures value { result ≡ task_at self.now.state.tasks t }
        ensures fits { Fits self.now.system result }
        ensures later { IfSome result.deadline (λ w. self.now.state.clock + 1 ≤ w) }
    {
        self.blocks[t as usize]
    }

    /// The task that a processor is to run: the first of its most urgent ready tasks, if any.
    pub fn top(&self, p: u8) -> Option<u8>
        requires { p < self.now.system.processors }
        ensures value { result ≡ top self.now.state p }
        ensures there { IfSome result (λ t. t < length self.now.system.tasks) }
    {
        self.ready.top(&self.rings, p, &mut WorkCount::new())
    }

    /// The first ready task of a priority, 1 to 16, on a processor, if any.
    pub fn first_ready(&self, p: u8, priority: u8) -> Option<u8>
        requires processor { p < self.now.system.processors }
        requires urgent { 1 ≤ priority }
        requires least { priority ≤ 16 }
        ensures value { result ≡ first_ready self.now.state p priority }
        ensures there { IfSome result (λ t. t < length self.now.system.tasks) }
        ensures ready { IfSome result (λ t. is_ready (task_at self.now.state.tasks t) ≡ true) }
    {
        self.ready
            .first(&self.rings, p, priority, &mut WorkCount::new())
    }

    /// The first task that waits in a queue, if any.
    #[inline(always)]
    pub fn first_waiting(&self, queue: WaitQueue) -> Option<u8>
        requires { IsThere (counts_of self.now.system) queue }
        ensures value { result ≡ first_waiting self.now.system self.now.state queue }
        ensures there { IfSome result (λ t. t < length self.now.system.tasks) }
    {
        self.waits.first(&self.rings, queue, &mut WorkCount::new())
    }

    /// The task that waits in a queue right behind another one, if any. No task stands in a queue twice.
    pub fn waiting_behind(&self, queue: WaitQueue, t: u8) -> Option<u8>
        requires queue { IsThere (counts_of self.now.system) queue }
        requires waits { list_any (nat_eq t) (wait_queue self.now.system self.now.state queue) ≡ true }
        ensures value { result ≡ follower t (wait_queue self.now.system self.now.state queue) }
        ensures there { IfSome result (λ u. u < length self.now.system.tasks) }
        ensures order { IsOrder (length self.now.system.tasks) (wait_queue self.now.system self.now.state queue) }
    {
        self.waits
            .next(&self.rings, queue, t, &mut WorkCount::new())
    }

    /// The task that stands right behind another one in its queue, the ready queue of its processor and priority or the
    /// wait queue of an object; none where that one is the last, or stands in none.
    pub fn behind(&self, t: u8) -> Option<u8>
        ensures value { result ≡ follower t (queue_holding self.now.system self.now.state t) }
        ensures there { IfSome result (λ u. u < length self.now.system.tasks) }
    {
        if !self.rings.is_linked(t as u16, &mut WorkCount::new()) {
            return None;
        }
        as_byte(self.rings.next(t as u16, &mut WorkCount::new()))
    }

    /// Whether a task goes to the end when its priority changes: a ready one, and one in a queue of priority order.
    pub fn goes_last(&self, x: &TaskBlock) -> bool
        ensures value { result ≡ goes_last self.now.system x.now }
        ensures in_order { result ≡ true → is_in_order x.now ≡ true }
    {
        match queue_of(x.phase) {
            Some(queue) => matches!(order_of(&self.system, queue), QueueOrder::Priority),
            None => is_able(x),
        }
    }

    /// Task t becomes x, in its place.
    pub fn set_task(&mut self, t: u8, x: TaskBlock)
        requires there { t < length self.old.system.tasks }
        requires fits { Fits self.old.system x }
        requires later { IfSome x.deadline (λ w. self.old.state.clock + 1 ≤ w) }
        requires stays { Stays self.old.system (task_at self.old.state.tasks t) x }
        ensures { self.new ≡ record self.old { state = with_task self.old.state t x } }
    {
        self.blocks[t as usize] = x;
        set_deadline(&mut self.deadlines, t, x.deadline);
    }

    /// Task t becomes x, and goes to the end of the order.
    #[inline(always)]
    pub fn set_last(&mut self, t: u8, x: &TaskBlock)
        requires there { t < length self.old.system.tasks }
        requires fits { Fits self.old.system x.now }
        requires later { IfSome x.now.deadline (λ w. self.old.state.clock + 1 ≤ w) }
        requires in_order { is_in_order x.now ≡ true }
        ensures { self.new ≡ record self.old { state = with_last self.old.state t x.now } }
    {
        self.marks.mark(self.blocks[t as usize].processor);
        self.marks.mark(x.processor);
        leave(
            &mut self.ready,
            self.waits,
            &mut self.rings,
            &self.blocks[t as usize],
            t,
        );
        self.blocks[t as usize] = *x;
        join(
            &mut self.ready,
            self.waits,
            &mut self.rings,
            &mut self.latest,
            &self.system,
            self.blocks.as_slice(),
            x,
            t,
        );
        set_deadline(&mut self.deadlines, t, x.deadline);
        self.order.to_end(t);
    }

    /// Task t becomes x, and leaves the order.
    pub fn set_removed(&mut self, t: u8, x: TaskBlock)
        requires there { t < length self.old.system.tasks }
        requires fits { Fits self.old.system x }
        requires later { IfSome x.deadline (λ w. self.old.state.clock + 1 ≤ w) }
        requires in_order { is_in_order x ≡ false }
        ensures { self.new ≡ record self.old { state = with_removed self.old.state t x } }
    {
        self.marks.mark(self.blocks[t as usize].processor);
        leave(
            &mut self.ready,
            self.waits,
            &mut self.rings,
            &self.blocks[t as usize],
            t,
        );
        self.blocks[t as usize] = x;
        set_deadline(&mut self.deadlines, t, x.deadline);
        self.order.leave(t);
    }

    /// The first ready task of a priority, 1 to 16, on a processor goes to the end of the order (`rot_rdq`).
    pub fn rotate(&mut self, p: u8, priority: u8)
        requires processor { p < self.old.system.processors }
        requires urgent { 1 ≤ priority }
        requires least { priority ≤ 16 }
        ensures { self.new
            ≡ record self.old { state = rotated self.old.state (first_ready self.old.state p priority) } }
    {
        if let Some(t) = self.first_ready(p, priority) {
            self.marks.mark(p);
            self.ready
                .rotate(&mut self.rings, p, priority, &mut WorkCount::new());
            self.order.to_end(t);
        }
    }
}
