//! The ready queues.
ghost use Rattle.std.specs.Prelude.{◌≡◌, ◌+◌, ◌-◌, ◌*◌, ◌<◌, ◌≤◌, ◌^◌, ◌++◌, ◌∷◌, [], length, nat_eq, true, false};
ghost use Rattle.std.specs.Prelude.{IfOk, IfSome, replicate};
ghost use Rattle.std.specs.List.{list_any};
ghost use Rattle.fmp_base.specs.Links.{AddsAtMost};
ghost use Rattle.fmp_base.specs.Queues.{first_of};
ghost use Rattle.fmp_base.specs.States.{without};
ghost use Rattle.fmp_ring.specs.RingLists.{is_linked, rotated};
ghost use Rattle.fmp_ready.specs.ReadyLists.{head, queue_at, with_queue, most_urgent, AreExact};

use crate::bits::{lowest_bit, with_bit, without_bit};
use fmp_base::WorkCount;
use fmp_ring::{Rings, as_byte};
use std::alloc::{AllocError, Global};
use std::marker::Model;

mod copying;

/// For each processor (uITRON 4.0, section 3.2, and the FMP kernel) sixteen queues, one for each priority, 1 being the
/// most urgent. They are the first lists of the rings that each call is lent, sixteen for each processor; what stands
/// here is a bitmap for each processor, of the queues that are not empty. Processors and tasks go by their places, from
/// 0.
#[derive(Drop)]
pub struct ReadyQueues {
    bitmaps: Vec<u16>,
}

impl Model for ReadyQueues {
    ghost use Rattle.std.specs.Prelude.{ℕ, List};

    ghost Value = { List ℕ };

    ghost view = { λ a. a.bitmaps.items };
}

/// The head of a queue.
fn head_of(p: u8, priority: u8) -> u16
    requires { 1 ≤ priority }
    ensures { result ≡ head p priority }
{
    p as u16 * 16 + (priority as u16 - 1)
}

impl ReadyQueues {
    /// Empty queues for this many processors. `AllocError` if memory runs out.
    pub fn new(alloc: Global, processors: u8) -> Result<ReadyQueues, AllocError>
        ensures { IfOk result (λ r. r ≡ replicate processors 0) }
    {
        let bitmaps = vec![in alloc; 0u16; processors as usize]?;
        Ok(ReadyQueues { bitmaps })
    }

    /// Puts a task, which stands in no list, last in a queue.
    pub fn enqueue(&mut self, rings: &mut Rings, p: u8, priority: u8, t: u8, steps: &mut WorkCount)
        requires exact { AreExact self.old rings.old }
        requires processor { p < length self.old }
        requires urgent { 1 ≤ priority }
        requires least { priority ≤ 16 }
        requires task { t < rings.old.nodes }
        requires free { is_linked t rings.old.lists ≡ false }
        ensures rings { rings.new ≡ with_queue rings.old p priority (queue_at rings.old p priority ++ t ∷ []) }
        ensures exact { AreExact self.new rings.new }
        ensures processors { length self.new ≡ length self.old }
        ensures steps { AddsAtMost 5 steps.old steps.new }
    {
        rings.push_back(head_of(p, priority), t as u16, steps);
        self.bitmaps[p as usize] = with_bit(self.bitmaps[p as usize], priority - 1);
    }

    /// Takes a task out of the queue in which it is.
    pub fn dequeue(&mut self, rings: &mut Rings, p: u8, priority: u8, t: u8, steps: &mut WorkCount)
        requires exact { AreExact self.old rings.old }
        requires processor { p < length self.old }
        requires urgent { 1 ≤ priority }
        requires least { priority ≤ 16 }
        requires there { list_any (nat_eq t) (queue_at rings.old p priority) ≡ true }
        ensures rings { rings.new ≡ with_queue rings.old p priority (without (queue_at rings.old p priority) t) }
        ensures gone { is_linked t rings.new.lists ≡ false }
        ensures exact { AreExact self.new rings.new }
        ensures processors { length self.new ≡ length self.old }
        ensures steps { AddsAtMost 6 steps.old steps.new }
    {
        rings.remove(t as u16, steps);
        if rings.first(head_of(p, priority), steps).is_none() {
            self.bitmaps[p as usize] = without_bit(self.bitmaps[p as usize], priority - 1);
        }
    }

    /// Puts the first task of a queue, if any, last (`rot_rdq`).
    pub fn rotate(&self, rings: &mut Rings, p: u8, priority: u8, steps: &mut WorkCount)
        requires exact { AreExact self.now rings.old }
        requires processor { p < length self.now }
        requires urgent { 1 ≤ priority }
        requires least { priority ≤ 16 }
        ensures rings { rings.new ≡ with_queue rings.old p priority (rotated (queue_at rings.old p priority)) }
        ensures exact { AreExact self.now rings.new }
        ensures steps { AddsAtMost 11 steps.old steps.new }
    {
        rings.rotate(head_of(p, priority), steps);
    }

    /// The first task of a queue, if any.
    pub fn first(&self, rings: &Rings, p: u8, priority: u8, steps: &mut WorkCount) -> Option<u8>
        requires exact { AreExact self.now rings.now }
        requires processor { p < length self.now }
        requires urgent { 1 ≤ priority }
        requires least { priority ≤ 16 }
        ensures value { result ≡ first_of (queue_at rings.now p priority) }
        ensures there { IfSome result (λ t. t < rings.now.nodes) }
        ensures steps { AddsAtMost 1 steps.old steps.new }
    {
        as_byte(rings.first(head_of(p, priority), steps))
    }

    /// The task that a processor is to run, if any: the first of its most urgent queue that is not empty.
    pub fn top(&self, rings: &Rings, p: u8, steps: &mut WorkCount) -> Option<u8>
        requires exact { AreExact self.now rings.now }
        requires processor { p < length self.now }
        ensures value { result ≡ most_urgent rings.now p }
        ensures there { IfSome result (λ t. t < rings.now.nodes) }
        ensures steps { AddsAtMost 1 steps.old steps.new }
    {
        match lowest_bit(self.bitmaps[p as usize]) {
            Some(place) => as_byte(rings.first(p as u16 * 16 + place as u16, steps)),
            None => None,
        }
    }
}
