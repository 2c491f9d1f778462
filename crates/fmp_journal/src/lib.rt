//! The journal of a board as words that anyone reads without waiting, its scribe, the seats of callers, and their
//! receipts. The scribe writes it under the board's lock, and each seat has seen a beginning of it. A receipt says what
//! an event did; stamps tell whether an outcome is still current.
#![tactic(auto)]

pub mod entry;
mod knowledge;
mod receipt;
pub mod row;
mod rule;
pub mod scribe;
pub mod seat;
mod stamps;
mod steps;

pub use entry::{JournalEntry, words_read_back};
pub use receipt::Receipt;
pub use row::{EmptyRow, Row};
pub use scribe::Scribe;
pub use seat::Seat;
pub use stamps::is_current;
