//! A taker of events from many threads.
ghost use Rattle.std.specs.Prelude.{◌≡◌, ◌+◌, ℕ, MatchBool, None, Some};
ghost use Rattle.fmp_board.specs.Boards.{IsAt};
ghost use Rattle.fmp_board.specs.Outcomes.{Drew, IsDrawn, IsOutcome, Submitted};
ghost use Rattle.fmp_board.specs.Visits.{Fed, Visited, journaled};
ghost use Rattle.fmp_image_bytes.specs.Images.{ImageTables};
ghost use Rattle.fmp_journal.specs.Seats.{RowId};

use fmp_base::Event;
use fmp_board::{Board, BoardFault, Receipt, Site, Workspace};
use fmp_journal::Seat;
use std::sync::Wait;

/// Takes events from many threads, as a board does.
pub(crate) trait Feed {
    /// The image that it runs.
    ghost image: { ImageTables };

    /// How many instructions a stretch may take.
    ghost bound: { ℕ };

    /// Its row.
    ghost row_id: { RowId };

    /// A workspace for its stretches, in which none is made yet.
    fn workspace(&self) -> Workspace;

    /// The next stretch of the actor of processor p, if it has one, in a workspace. It is made outside the lock.
    fn stretch<R: Wait>(&self, rt: &R, seat: &mut Seat, p: u8, workspace: &mut Workspace) -> bool
        requires at { IsAt row_id seat.old }
        ensures at { IsAt row_id seat.new }
        ensures visited { Visited image bound row_id seat.old seat.new }
        ensures mine { seat.new.mine ≡ seat.old.mine }
        ensures made { MatchBool result
            (IsOutcome workspace.new × Drew image bound seat.new.seen p (Some workspace.new.ticket)
            × IsDrawn image bound seat.new.seen workspace.new.ticket)
            (Drew image bound seat.new.seen p None) };

    /// Takes the outcome that a workspace has, under the number of the seat.
    fn submit<R: Wait>(
        &self,
        rt: &R,
        seat: &mut Seat,
        workspace: &Workspace,
    ) -> Result<Receipt, BoardFault>
        requires at { IsAt row_id seat.old }
        requires drawn { IsDrawn image bound seat.old.seen workspace.now.ticket }
        requires outcome { IsOutcome workspace.now }
        ensures at { IsAt row_id seat.new }
        ensures visited { Visited image bound row_id seat.old seat.new }
        ensures mine { seat.new.mine ≡ seat.old.mine + journaled result }
        ensures submitted { Submitted image bound row_id workspace.now.ticket seat.old seat.new result };

    /// Takes an event, under the number of the seat.
    fn feed<R: Wait>(&self, rt: &R, seat: &mut Seat, event: Event) -> Result<Receipt, BoardFault>
        requires at { IsAt row_id seat.old }
        ensures at { IsAt row_id seat.new }
        ensures visited { Visited image bound row_id seat.old seat.new }
        ensures mine { seat.new.mine ≡ seat.old.mine + journaled result }
        ensures fed { Fed image bound row_id event seat.old seat.new result };
}

impl<'a, S: Site> Feed for Board<'a, S> {
    ghost image = { S.image };

    ghost bound = { S.bound };

    ghost row_id = { S.row_id };

    fn workspace(&self) -> Workspace {
        Workspace::new(self.image())
    }

    fn stretch<R: Wait>(&self, rt: &R, seat: &mut Seat, p: u8, workspace: &mut Workspace) -> bool {
        Board::stretch(self, rt, seat, p, workspace)
    }

    fn submit<R: Wait>(
        &self,
        rt: &R,
        seat: &mut Seat,
        workspace: &Workspace,
    ) -> Result<Receipt, BoardFault> {
        self.submit_from(rt, seat, workspace)
    }

    fn feed<R: Wait>(&self, rt: &R, seat: &mut Seat, event: Event) -> Result<Receipt, BoardFault> {
        Board::feed(self, rt, seat, event)
    }
}
