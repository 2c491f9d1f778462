//! The slots, which say where the state with a tag stands. A slot holds the tag: so the row of a state with another tag
//! is not looked at.
ghost use Rattle.std.specs.Prelude.{◌≡◌, ◌+◌, ◌<◌, ◌≤◌, ◌↔◌, Some, IsTrue, IfSome, length, slice_get};
ghost use Rattle.fmp_visited.specs.Slots.{IsSlotFor};

use crate::kept::StateStore;
use std::alloc::{AllocError, Global};

/// A slot with no state.
const EMPTY: u64 = u64::MAX;

/// How many tags there are.
const TAGS: u64 = 4_294_967_296;

/// What a hash is multiplied by: odd, and 2^64 times the golden ratio.
const SPREAD: u64 = 0x9e37_79b9_7f4a_7c15;

/// An empty slot, and the tag of the row whose state comes there.
#[derive(Clone, Copy)]
pub struct FreeSlot {
    pub place: usize,
    pub tag: u32,
}

/// Where a row belongs.
#[derive(Clone, Copy)]
pub enum Slot {
    /// The state at this place has it.
    Taken(u32),
    /// No state has it: one that does comes into this slot.
    Free(FreeSlot),
}

/// The eight bytes of a row from a place on, as one number.
fn word_at(row: &[u8], place: usize) -> u64
    requires { place + 8 ≤ length row.now }
{
    u64::from_le_bytes([
        row[place],
        row[place + 1],
        row[place + 2],
        row[place + 3],
        row[place + 4],
        row[place + 5],
        row[place + 6],
        row[place + 7],
    ])
}

/// The hash of a row that goes on with this number.
fn mixed(hash: u64, number: u64) -> u64 {
    let product = (hash ^ number).wrapping_mul(SPREAD);
    product ^ (product >> 29)
}

/// A hash of a row: eight bytes at a time, and at the end the last eight. A row of fewer bytes is taken byte by byte.
fn hash_of(row: &[u8]) -> u64 {
    let mut hash = mixed(SPREAD, row.len() as u64);
    let words = row.len() / 8;
    for word in 0..words {
        hash = mixed(hash, word_at(row, word * 8));
    }
    if words == 0 {
        for byte in row {
            hash = mixed(hash, u64::from(*byte));
        }
    } else if words * 8 < row.len() {
        hash = mixed(hash, word_at(row, row.len() - 8));
    }
    hash ^ (hash >> 32)
}

/// The tag of a row: 32 bits of its hash. Its slot is looked for from the place on that the last of them tell.
fn tag_of(row: &[u8]) -> u32 {
    (hash_of(row) % TAGS) as u32
}

/// The slot of a state whose row has this tag.
pub fn slot_with(tag: u32, state: u32) -> u64 {
    u64::from(tag) << 32 | u64::from(state)
}

/// The tag in a slot.
fn tag_in(slot: u64) -> u32 {
    (slot >> 32) as u32
}

/// The state in a slot.
fn state_in(slot: u64) -> u32 {
    (slot % TAGS) as u32
}

/// Slots, this many, with no state. `AllocError` if memory runs out.
pub fn empty_slots(alloc: Global, count: usize) -> Result<Vec<u64>, AllocError> {
    vec![in alloc; EMPTY; count]
}

/// Whether the row of the state at a place is this one.
fn has_row(kept: &StateStore, state: u32, row: &[u8]) -> bool
    ensures { IsTrue result ↔ (slice_get kept.now.rows state ≡ Some row.now) }
{
    match kept.row(state as usize) {
        Some(found) => found == row,
        None => false,
    }
}

/// The slot of this row: the one that has its state, or else the empty one where it comes. None if there is neither.
pub fn slot_of(slots: &[u64], kept: &StateStore, row: &[u8]) -> Option<Slot>
    ensures { IfSome result (IsSlotFor (length slots.now) kept.now.rows row.now) }
{
    let last = slots.len().checked_sub(1)?;
    let tag = tag_of(row);
    for i in 0..slots.len() {
        let place = (tag as usize).wrapping_add(i) & last;
        let slot = slots[place];
        if slot == EMPTY {
            return Some(Slot::Free(FreeSlot { place, tag }));
        }
        let state = state_in(slot);
        if tag_in(slot) == tag && has_row(kept, state, row) {
            return Some(Slot::Taken(state));
        }
    }
    None
}

/// The first empty slot for a tag. None if none is empty.
fn free_place(slots: &[u64], tag: u32) -> Option<usize>
    ensures { IfSome result (λ place. place < length slots.now) }
{
    let last = slots.len().checked_sub(1)?;
    for i in 0..slots.len() {
        let place = (tag as usize).wrapping_add(i) & last;
        if slots[place] == EMPTY {
            return Some(place);
        }
    }
    None
}

/// Puts the states of other slots into these, in which they are not.
pub fn enter_all(slots: &mut [u64], from: &[u64]) {
    for i in 0..from.len() {
        let slot = from[i];
        if slot != EMPTY
            && let Some(place) = free_place(slots, tag_in(slot))
        {
            slots[place] = slot;
        }
    }
}
