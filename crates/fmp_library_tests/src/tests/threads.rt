//! Threads that run a board.
ghost use Rattle.std.specs.Prelude.{◌≡◌, All};
ghost use Rattle.fmp_board.specs.Boards.{IsAt, blank as blank_of};

use fmp_hostrun::{Blank, Board, BoardFault, Closed, Gate, Seat, Site, run_all};
use std::alloc::Global;
use std::sync::Wait;
use std::thread::Threads;

/// Runs a board by threads at this gate: what was answered, how many seats came back, and the closed board.
pub fn run<'a, S: Site + Send + Sync, G: Gate, R: Threads + Wait + Sync>(
    rt: &R,
    alloc: Global,
    blank: Blank<'a>,
    seats: Vec<Seat>,
    gate: &G,
    turns: u32,
) -> (Result<u32, BoardFault>, usize, Closed<'a>)
    requires blank { blank ≡ blank_of S.image S.bound S.row_id }
    requires seats { All (IsAt S.row_id) seats.items }
{
    let board: Board<'a, S> = blank.open();
    let (seats, journaled) = run_all(rt, alloc, &board, gate, seats, turns, 0);
    (journaled, seats.len(), board.close_all(seats))
}
