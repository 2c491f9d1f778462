//! The book of a board as it lies under the free lock.
ghost use Rattle.std.specs.Prelude.{◌≡◌, ◌+◌, ◌≤◌, [], IfSome, vec_capacity};

use crate::book::Book;
use crate::closed::Closed;
use crate::fault::BoardFault;
use crate::outcome::{Ticket, Workspace};
use crate::site::Site;
use fmp_base::Event;
use fmp_journal::{Receipt, Seat};

/// The kernel and its journal as they lie under the free lock: a book in whose journal each seat has counted its
/// entries. A seat that enters one is shown it before the lock is free. Its calls are those of the board.
#[derive(Drop)]
pub(crate) struct Desk<'a, S: Site> {
    book: Book<'a, S>,
    ghost counted: { book.marks ≡ [] },
}

impl<'a, S: Site> Desk<'a, S> {
    ghost use Rattle.std.specs.Prelude.{◌≡◌, ◌+◌, ◌≤◌, [], All, IfSome, MatchBool, None, Some, true, vec_capacity};
    ghost use Rattle.fmp_journal.specs.Seats.{events};
    ghost use Rattle.fmp_board.specs.Boards.{HasCounted, IsAt, IsClosed, IsCountedBy};
    ghost use Rattle.fmp_board.specs.Outcomes.{Drew, IsDrawn, IsOutcome, IsTicket, Submitted, waiting};
    ghost use Rattle.fmp_board.specs.Visits.{Fed, Visited, journaled};

    /// The desk of a book in whose journal each seat has counted its entries.
    pub fn new(book: Book<'a, S>) -> Desk<'a, S>
        requires { book.marks ≡ [] }
    {
        Desk { book }
    }

    /// The seat sees the journal.
    #[tactic(auto, using(crate::proofs::Visiting::visited, crate::proofs::Visiting::none_counted))]
    pub fn show(&mut self, seat: &mut Seat)
        requires { IsAt S.row_id seat.old }
        ensures at { IsAt S.row_id seat.new }
        ensures visited { Visited S.image S.bound S.row_id seat.old seat.new }
        ensures mine { seat.new.mine ≡ seat.old.mine }
        ensures seen { seat.new.seen ≡ self.new.book.journal }
        ensures book { self.new.book ≡ self.old.book }
    {
        self.book.show(seat);
    }

    /// A ticket for the stretch that the actor of processor p makes next, if it has one.
    #[tactic(auto, using(crate::proofs::Visiting::drawn_here))]
    pub fn ticket(&mut self, seat: &mut Seat, p: u8) -> Option<Ticket<'a>>
        requires { IsAt S.row_id seat.old }
        ensures at { IsAt S.row_id seat.new }
        ensures visited { Visited S.image S.bound S.row_id seat.old seat.new }
        ensures mine { seat.new.mine ≡ seat.old.mine }
        ensures drew { Drew S.image S.bound seat.new.seen p result }
        ensures drawn { IfSome result (IsDrawn S.image S.bound seat.new.seen) }
    {
        self.show(seat);
        self.book.ticket(p)
    }

    /// Draws a ticket for the stretch that the actor of processor p makes next into a workspace, if it has one.
    #[tactic(auto, using(crate::proofs::Visiting::drawn_here))]
    pub fn draw(&mut self, seat: &mut Seat, p: u8, workspace: &mut Workspace) -> bool
        requires { IsAt S.row_id seat.old }
        ensures at { IsAt S.row_id seat.new }
        ensures visited { Visited S.image S.bound S.row_id seat.old seat.new }
        ensures mine { seat.new.mine ≡ seat.old.mine }
        ensures drew { MatchBool result
            (Drew S.image S.bound seat.new.seen p (Some workspace.new.ticket)
            × (workspace.new ≡ waiting workspace.new.ticket) × IsTicket workspace.new.ticket)
            (Drew S.image S.bound seat.new.seen p None × (workspace.new ≡ workspace.old)) }
        ensures drawn { result ≡ true → IsDrawn S.image S.bound seat.new.seen workspace.new.ticket }
    {
        self.show(seat);
        self.book.draw(p, workspace)
    }

    /// Takes the run of an outcome's processor, by the stretch that was made outside the lock.
    pub fn submit(&mut self, seat: &mut Seat, outcome: &Workspace) -> Result<Receipt, BoardFault>
        requires at { IsAt S.row_id seat.old }
        requires drawn { IsDrawn S.image S.bound seat.old.seen outcome.now.ticket }
        requires outcome { IsOutcome outcome.now }
        ensures at { IsAt S.row_id seat.new }
        ensures visited { Visited S.image S.bound S.row_id seat.old seat.new }
        ensures mine { seat.new.mine ≡ seat.old.mine + journaled result }
        ensures submitted { Submitted S.image S.bound S.row_id outcome.now.ticket seat.old seat.new result }
    {
        self.show(seat);
        let answer = self.book.enter_stretch(seat.number(), outcome);
        self.book.show(seat);
        answer
    }

    /// Takes an event.
    pub fn feed(&mut self, seat: &mut Seat, event: Event) -> Result<Receipt, BoardFault>
        requires at { IsAt S.row_id seat.old }
        ensures at { IsAt S.row_id seat.new }
        ensures visited { Visited S.image S.bound S.row_id seat.old seat.new }
        ensures mine { seat.new.mine ≡ seat.old.mine + journaled result }
        ensures fed { Fed S.image S.bound S.row_id event seat.old seat.new result }
    {
        self.show(seat);
        let answer = self.book.enter(seat.number(), event);
        self.book.show(seat);
        answer
    }

    /// Each of these seats sees the journal.
    fn show_all(&mut self, seats: Vec<Seat>)
        requires { All (IsAt S.row_id) seats.items }
        ensures counted { All (HasCounted self.old.book.journal) seats.items }
        ensures book { self.new.book ≡ self.old.book }
    {
        for mut seat in seats {
            self.show(&mut seat);
        }
    }

    /// The kernel, and the events of the journal in a list that has room for them.
    pub fn close_all(mut self, seats: Vec<Seat>, room: Vec<Event>) -> Closed<'a>
        requires at { All (IsAt S.row_id) seats.items }
        requires room { (room.items ≡ []) × (S.row_id.capacity ≤ vec_capacity room) }
        ensures closed { IsClosed S.image S.bound S.row_id.capacity S.row_id.seats result }
        ensures counted { IsCountedBy S.image S.bound S.row_id.capacity S.row_id.seats seats.items result }
    {
        self.show_all(seats);
        let Desk { book } = self;
        book.into_closed(room)
    }

    /// The kernel, and the events of the journal in a list that has room for them.
    pub fn close(mut self, seat: &mut Seat, room: Vec<Event>) -> Closed<'a>
        requires at { IsAt S.row_id seat.old }
        requires room { (room.items ≡ []) × (S.row_id.capacity ≤ vec_capacity room) }
        ensures at { IsAt S.row_id seat.new }
        ensures visited { Visited S.image S.bound S.row_id seat.old seat.new }
        ensures mine { seat.new.mine ≡ seat.old.mine }
        ensures closed { IsClosed S.image S.bound S.row_id.capacity S.row_id.seats result }
        ensures journal { result.events ≡ events seat.new.seen }
    {
        self.show(seat);
        let Desk { book } = self;
        book.into_closed(room)
    }
}
