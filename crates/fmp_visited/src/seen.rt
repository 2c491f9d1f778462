//! The states that were seen: a row of bytes for each, the state that led to it, and the event that did.
ghost use Rattle.std.specs.Prelude.{
  ◌≡◌,
  ◌-◌,
  ◌<◌,
  ◌≤◌,
  ◌↔◌,
  [],
  ℕ,
  IsTrue,
  IfOk,
  OnErr,
  length,
  reverse,
  slice_get,
  unwrap_or,
};
ghost use Rattle.fmp_visited.specs.Links.{last_events, path_of};
ghost use Rattle.fmp_visited.specs.Seen.{Adds, with_state};

use crate::kept::StateStore;
use crate::link::{RowEntry, StateLink};
use crate::slots::{FreeSlot, Slot, empty_slots, enter_all, slot_of, slot_with};
use fmp_base::Event;
use std::alloc::{AllocError, Global};
use std::marker::Model;

/// How many slots there are at first.
const SLOTS: usize = 1024;

/// The states that were seen, in the order in which they were first reached. The slots say where the state with a hash
/// stands: what is found there is compared byte by byte.
#[derive(Drop)]
pub struct Seen {
    kept: StateStore,
    slots: Vec<u64>,
    /// How many states may be kept.
    most: u32,
}

impl Model for Seen {
    ghost use Rattle.std.specs.Prelude.{◌≤◌, length};
    ghost use Rattle.fmp_visited.specs.Seen.{SeenStates};

    ghost Value = { SeenStates };

    ghost view = { λ s. record { rows = s.kept.rows; links = s.kept.links; most = s.most } };

    ghost invariant = { λ s. length s.kept.links ≤ s.most };
}

/// The events of a path that was walked backwards, in order.
fn in_order(mut events: Vec<Event>) -> Vec<Event>
    ensures { result.items ≡ reverse events.items }
{
    events.reverse();
    events
}

impl Seen {
    /// No state yet, of at most this many. `AllocError` if memory runs out.
    pub fn new(alloc: Global, most: u32) -> Result<Seen, AllocError>
        ensures { IfOk result (λ seen. seen ≡ record { rows = []; links = []; most = most }) }
    {
        Ok(Seen {
            kept: StateStore::new(alloc),
            slots: empty_slots(alloc, SLOTS)?,
            most,
        })
    }

    /// How many states there are.
    pub fn len(&self) -> usize
        ensures rows { result ≡ length self.now.rows }
        ensures links { result ≡ length self.now.links }
        ensures few { result ≤ self.now.most }
    {
        self.kept.len()
    }

    /// Whether there is no state.
    pub fn is_empty(&self) -> bool
        ensures { IsTrue result ↔ (length self.now.links ≡ 0) }
    {
        self.kept.len() == 0
    }

    /// How a state was reached, if there is one at this place.
    pub fn link(&self, i: u32) -> Option<StateLink>
        ensures { result ≡ slice_get self.now.links i }
    {
        self.kept.link(i as usize)
    }

    /// How the state was reached that was kept last, if there is one.
    pub fn last(&self) -> Option<StateLink>
        ensures { result ≡ slice_get self.now.links (length self.now.links - 1) }
    {
        self.kept.link(self.kept.len().saturating_sub(1))
    }

    /// The row of a state; an empty one if there is no state at this place.
    pub fn row(&self, i: u32) -> &[u8]
        ensures { result.now ≡ unwrap_or (slice_get self.now.rows i) [] }
    {
        match self.kept.row(i as usize) {
            Some(row) => row,
            None => &[],
        }
    }

    /// Makes twice as many slots where more than three quarters of them are full. `AllocError` if memory runs out.
    fn make_room(&mut self, alloc: Global) -> Result<(), AllocError>
        ensures { self.new ≡ self.old }
    {
        if self.kept.len() < self.slots.len() / 4 * 3 {
            return Ok(());
        }
        let mut slots = empty_slots(alloc, self.slots.len().saturating_mul(2))?;
        enter_all(&mut slots, &self.slots);
        self.slots = slots;
        Ok(())
    }

    /// Keeps a state of a row that is new, and whose slot is this one.
    fn keep(&mut self, slot: FreeSlot, row: &[u8], link: StateLink) -> Result<u32, AllocError>
        requires { length self.old.links < self.old.most }
        ensures ok { IfOk result (λ i. (i ≡ length self.old.links) × (self.new ≡ with_state self.old row.now link)) }
        ensures err { OnErr result (self.new ≡ self.old) }
    {
        let i = self.kept.len() as u32;
        self.kept.push(row, link)?;
        if slot.place < self.slots.len() {
            self.slots[slot.place] = slot_with(slot.tag, i);
        }
        Ok(i)
    }

    /// The place of the state with this row. A new one is kept, with how it was reached, if one more may be.
    /// `AllocError` if memory runs out: then the states are as before.
    pub fn add(
        &mut self,
        alloc: Global,
        row: &[u8],
        link: StateLink,
    ) -> Result<RowEntry, AllocError>
        ensures ok { IfOk result (Adds self.old self.new row.now link) }
        ensures err { OnErr result (self.new ≡ self.old) }
    {
        self.make_room(alloc)?;
        match slot_of(&self.slots, &self.kept, row) {
            None => Err(AllocError),
            Some(Slot::Taken(state)) => Ok(RowEntry::Known(state)),
            Some(Slot::Free(slot)) => {
                if self.kept.len() >= self.most as usize {
                    return Ok(RowEntry::Full);
                }
                let i = self.keep(slot, row, link)?;
                Ok(RowEntry::New(i))
            }
        }
    }

    /// How many events lead to a state; 0 if there is none at this place.
    fn depth(&self, i: u32) -> u32
        ensures { path_of self.now.links i ≡ last_events result self.now.links i }
    {
        match self.link(i) {
            Some(link) => link.depth,
            None => 0,
        }
    }

    /// The events that lead to a state, in order. `AllocError` if memory runs out.
    pub fn path(&self, alloc: Global, i: u32) -> Result<Vec<Event>, AllocError>
        ensures { IfOk result (λ events. events.items ≡ path_of self.now.links i) }
    {
        let mut events = Vec::new(alloc);
        let mut at = i;
        for _event in 0..self.depth(i) {
            let Some(link) = self.link(at) else {
                return Ok(in_order(events));
            };
            events.push(link.event)?;
            at = link.parent;
        }
        Ok(in_order(events))
    }
}
