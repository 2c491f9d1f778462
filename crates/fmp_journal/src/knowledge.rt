//! What the scribe and the seats of a row know of it. These types are data of the contracts: no value of them is made.
use crate::entry::JournalEntry;
use std::collections::LinkedList;

/// The reads of `follow`: how many there were, which word the last one read, by its place from 0, and what it found.
pub struct SeatLook {
    pub reads: u64,
    pub word: u64,
    pub found: u64,
}

/// What the scribe knows: the whole journal, and of which seats it has entries that they have not counted yet, one mark
/// for each; how many words the row has, how many seats it is to have, and how many were made.
pub struct Pen {
    pub capacity: u64,
    pub seats: u64,
    pub made: u64,
    pub journal: LinkedList<JournalEntry>,
    pub marks: LinkedList<u64>,
}

/// What a seat knows: its number, the beginning of the journal that it has seen, how many entries of its own it has
/// counted, and its reads.
pub struct SeenJournal {
    pub capacity: u64,
    pub seats: u64,
    pub number: u64,
    pub seen: LinkedList<JournalEntry>,
    pub mine: u64,
    pub look: SeatLook,
}

/// The scribe has the pen, and a seat has what it has seen. While a seat is shown the journal it has both.
pub struct View {
    pub has_pen: bool,
    pub pen: Pen,
    pub has_sight: bool,
    pub sight: SeenJournal,
}

/// How many words and seats a row is made for.
#[derive(Clone, Copy)]
pub struct Limits {
    pub capacity: u32,
    pub seats: u8,
}
