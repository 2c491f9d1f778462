//! Threads that share a board: a worker for each processor, one for the ticks, and one for the interrupts; and a
//! follower, which never waits, runs the journal on a kernel of its own, and prints it. The board itself is in
//! `fmp_board`, and exported here too.
#![tactic(auto)]

mod feed;
mod follower;
mod printing;
mod running;
mod turns;

pub use fmp_board::{
    Blank, Board, BoardFault, Book, Closed, Outcome, Receipt, Seat, Site, Ticket, Workspace,
};
pub use follower::{Follower, FollowerStart, followed_text_is_front};
pub use running::{run_all, run_paced};
pub use turns::{Gate, Load, Pace, Unpaced};
