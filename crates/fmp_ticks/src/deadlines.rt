//! The deadlines of tasks.
ghost use Rattle.std.specs.Prelude.{◌≡◌, ◌+◌, ◌<◌, ◌≤◌, length, slice_index_or, slice_set, IfOk, IfSome, is_some};
ghost use Rattle.std.specs.Prelude.{replicate, Some, None, true};
ghost use Rattle.fmp_base.specs.Links.{AddsAtMost};
ghost use Rattle.fmp_ticks.specs.Times.{first_due as first_due_of, NoneBefore};

use crate::deadline_heap::DeadlineHeap;
use crate::heap::{is_before, rank};
use crate::times::unset;
use fmp_base::WorkCount;
use std::alloc::{AllocError, Global};
use std::marker::Model;

mod copying;

/// For each task the clock at which its wait or delay ends, if it is limited (uITRON 4.0, sections 2.1.7 and 4.2).
/// Tasks go by their places, from 0. It is seen as the list of these times. The tasks that have one stand in a heap,
/// the first of them at its top; the last argument of each call counts the comparisons of tasks.
#[derive(Drop)]
pub struct TickQueue {
    deadlines: Vec<Option<u32>>,
    heap: DeadlineHeap,
}

impl Model for TickQueue {
    ghost use Rattle.std.specs.Prelude.{ℕ, List, Option};
    ghost use Rattle.fmp_ticks.specs.Ranks.{IsTickHeap};

    ghost Value = { List (Option ℕ) };

    ghost view = { λ a. a.deadlines.items };

    ghost invariant = { λ a. IsTickHeap a.deadlines.items a.heap };
}

impl TickQueue {
    /// No deadline for any of this many tasks. `AllocError` if memory runs out.
    pub fn new(alloc: Global, tasks: u8) -> Result<TickQueue, AllocError>
        ensures { IfOk result (λ q. q ≡ replicate tasks None) }
    {
        let deadlines = unset(alloc, tasks)?;
        let heap = DeadlineHeap::new(alloc, tasks)?;
        Ok(TickQueue { deadlines, heap })
    }

    /// A task's wait ends when the clock is `when`.
    #[inline(never)]
    pub fn set(&mut self, t: u8, when: u32, steps: &mut WorkCount)
        requires { t < length self.old }
        ensures value { self.new ≡ slice_set self.old t (Some when) }
        ensures steps { AddsAtMost 22 steps.old steps.new }
    {
        let slot = self.heap.slot_of(t);
        let stood = self.deadlines[t as usize].is_some();
        self.deadlines[t as usize] = Some(when);
        self.heap.set_rank(slot, rank(Some(when), t));
        if stood {
            self.heap.mend(slot, steps);
        } else {
            self.heap.enter(slot, steps);
        }
    }

    /// A task that has a deadline has none any more.
    #[inline(never)]
    fn take_out(&mut self, t: u8, steps: &mut WorkCount)
        requires there { t < length self.old }
        requires stood { is_some (slice_index_or self.old t None) ≡ true }
        ensures value { self.new ≡ slice_set self.old t None }
        ensures steps { AddsAtMost 22 steps.old steps.new }
    {
        let slot = self.heap.slot_of(t);
        self.deadlines[t as usize] = None;
        self.heap.set_rank(slot, rank(None, t));
        if slot + 1 < self.heap.count() {
            self.heap.leave(slot, steps);
        } else {
            self.heap.leave_end(slot);
        }
    }

    /// A task has no deadline any more.
    #[inline(always)]
    pub fn cancel(&mut self, t: u8, steps: &mut WorkCount)
        requires { t < length self.old }
        ensures value { self.new ≡ slice_set self.old t None }
        ensures steps { AddsAtMost 22 steps.old steps.new }
    {
        if self.deadlines[t as usize].is_some() {
            self.take_out(t, steps);
        }
    }

    /// Of the tasks whose deadline is now the first by number, if any. No deadline lies before now. Nothing changes.
    pub fn due(&self, now: u32, steps: &mut WorkCount) -> Option<u8>
        requires { NoneBefore now self.now }
        ensures value { result ≡ first_due_of now self.now }
        ensures there { IfSome result (λ t. t < length self.now) }
        ensures steps { AddsAtMost 1 steps.old steps.new }
    {
        if self.heap.count() == 0 {
            return None;
        }
        let first = self.heap.task(0);
        if is_before(rank(Some(now), first), self.heap.rank(0), steps) {
            None
        } else {
            Some(first)
        }
    }
}
