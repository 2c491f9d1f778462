//! A board that many threads share: a kernel and its journal under one lock, and seats for the callers.
#![tactic(auto)]

mod blank;
mod board;
mod book;
mod closed;
mod desk;
mod fault;
mod outcome;
mod site;
mod submitting;

pub use blank::Blank;
pub use board::Board;
pub use book::Book;
pub use closed::Closed;
pub use fault::BoardFault;
pub use fmp_journal::{Receipt, Seat};
pub use outcome::{Outcome, Ticket, Workspace};
pub use site::Site;
