//! A board that many threads share.
ghost use Rattle.std.specs.Prelude.{◌≡◌, ◌≤◌, ◌^◌, [], vec_capacity};

use crate::book::Book;
use crate::closed::Closed;
use crate::desk::Desk;
use crate::fault::BoardFault;
use crate::outcome::{Outcome, Ticket, Workspace};
use crate::site::Site;
use fmp_base::Event;
use fmp_image_bytes::Image;
use fmp_journal::{Receipt, Row, Seat};
use std::sync::{Mutex, Wait};

/// A kernel that many threads share, with the journal of what they did on it. Both lie under one lock, as a
/// `Book`; the row, beside it, is read without the lock.
#[derive(Drop)]
pub struct Board<'a, S: Site> {
    image: &'a Image,
    row: Row,
    room: Vec<Event>,
    bound: u64,
    desk: Mutex<Desk<'a, S>>,
    ghost image_is: { image.now ≡ S.image },
    ghost row_is: { row ≡ S.row_id },
    ghost room_is: { (room.items ≡ []) × (S.row_id.capacity ≤ vec_capacity room) },
    ghost bound_is: { (bound ≡ S.bound) × (1 ≤ bound) × (bound ≤ 2 ^ 48) },
    ghost most_is: { S.row_id.capacity ≤ 2 ^ 20 },
}

impl<'a, S: Site> Board<'a, S> {
    ghost use Rattle.std.specs.Prelude.{◌≡◌, ◌+◌, ◌^◌, ◌<◌, ◌≤◌, ◌⊎◌, ◌++◌, [], ◌∷◌, All, length, None, Some};
    ghost use Rattle.std.specs.Prelude.{MatchBool, IfNone, IfSome, vec_capacity};
    ghost use mathlib.Core.List.{IsPrefix};
    ghost use Rattle.fmp_journal.specs.Seats.{AreNew, events, given};
    ghost use Rattle.fmp_journal.specs.Views.{looked_at};
    ghost use Rattle.fmp_journal.specs.Words.{event_in};
    ghost use Rattle.fmp_board.specs.Boards.{IsAt, IsClosed, IsCountedBy};
    ghost use Rattle.fmp_board.specs.Outcomes.{Drew, IsDrawn, IsOutcome, Submitted};
    ghost use Rattle.fmp_board.specs.Visits.{Fed, Visited, journaled};

    /// A board over a book in which nothing is journaled.
    pub(crate) fn new(
        image: &'a Image,
        row: Row,
        room: Vec<Event>,
        bound: u64,
        book: Book<'a, S>,
    ) -> Board<'a, S>
        requires image { image.now ≡ S.image }
        requires row { row ≡ S.row_id }
        requires room { (room.items ≡ []) × (S.row_id.capacity ≤ vec_capacity room) }
        requires book { (book.journal ≡ []) × (book.marks ≡ []) }
        requires bound { (bound ≡ S.bound) × (1 ≤ bound) × (bound ≤ 2 ^ 48) }
        requires most { S.row_id.capacity ≤ 2 ^ 20 }
    {
        Board {
            image,
            row,
            room,
            bound,
            desk: Mutex::new(Desk::new(book)),
        }
    }

    /// How many processors the system of its image has, 1 to 8.
    pub fn processors(&self) -> u8
        ensures { result ≡ S.image.system.processors }
    {
        self.image.system().processors
    }

    /// The image that it runs.
    pub fn image(&self) -> &'a Image
        ensures { result.now ≡ S.image }
    {
        self.image
    }

    /// How many instructions a stretch of a body may take, 1 to 2^48.
    pub fn bound(&self) -> u64
        ensures value { result ≡ S.bound }
        ensures low { 1 ≤ result }
        ensures high { result ≤ 2 ^ 48 }
    {
        self.bound
    }

    /// How many events its journal has room for, at most 2^20.
    pub fn capacity(&self) -> u32
        ensures value { result ≡ S.row_id.capacity }
        ensures most { result ≤ 2 ^ 20 }
    {
        self.row.capacity()
    }

    /// A ticket for the stretch that the actor of processor p makes next. None exactly if there is no such processor,
    /// or it has no actor. The seat has then seen the whole journal.
    pub fn ticket<R: Wait>(&self, rt: &R, seat: &mut Seat, p: u8) -> Option<Ticket<'a>>
        requires at { IsAt S.row_id seat.old }
        ensures at { IsAt S.row_id seat.new }
        ensures visited { Visited S.image S.bound S.row_id seat.old seat.new }
        ensures mine { seat.new.mine ≡ seat.old.mine }
        ensures drew { Drew S.image S.bound seat.new.seen p result }
        ensures drawn { IfSome result (IsDrawn S.image S.bound seat.new.seen) }
    {
        self.desk.lock(rt).ticket(seat, p)
    }

    /// Takes the run of an outcome's processor on the kernel, by the stretch that was made outside the lock, and
    /// journals it under the number of the seat if it does something. It requires the seat that drew the ticket. The
    /// seat has then seen the whole journal, its own event included.
    ///
    /// `BoardFault::Stale`, exactly if the stamp of the processor is no longer that of the ticket; else
    /// `BoardFault::Full`, exactly if the journal has no room for one more event. Then nothing has changed but what the
    /// seat has seen.
    pub fn submit<R: Wait>(
        &self,
        rt: &R,
        seat: &mut Seat,
        outcome: Outcome,
    ) -> Result<Receipt, BoardFault>
        requires at { IsAt S.row_id seat.old }
        requires drawn { IsDrawn S.image S.bound seat.old.seen outcome.ticket }
        ensures at { IsAt S.row_id seat.new }
        ensures visited { Visited S.image S.bound S.row_id seat.old seat.new }
        ensures mine { seat.new.mine ≡ seat.old.mine + journaled result }
        ensures submitted { Submitted S.image S.bound S.row_id outcome.ticket seat.old seat.new result }
    {
        self.submit_from(rt, seat, outcome.workspace())
    }

    /// Draws a ticket and makes its stretch in a workspace, outside the lock: whether there was a ticket. Else the
    /// workspace is as it was. The seat has then seen the whole journal.
    pub fn stretch<R: Wait>(
        &self,
        rt: &R,
        seat: &mut Seat,
        p: u8,
        workspace: &mut Workspace,
    ) -> bool
        requires at { IsAt S.row_id seat.old }
        ensures at { IsAt S.row_id seat.new }
        ensures visited { Visited S.image S.bound S.row_id seat.old seat.new }
        ensures mine { seat.new.mine ≡ seat.old.mine }
        ensures made { MatchBool result
            (IsOutcome workspace.new × Drew S.image S.bound seat.new.seen p (Some workspace.new.ticket)
            × IsDrawn S.image S.bound seat.new.seen workspace.new.ticket)
            (Drew S.image S.bound seat.new.seen p None × (workspace.new ≡ workspace.old)) }
    {
        if !self.desk.lock(rt).draw(seat, p, workspace) {
            return false;
        }
        workspace.stretch(self.image);
        true
    }

    /// Submits the outcome that a workspace has, as `submit` does.
    pub fn submit_from<R: Wait>(
        &self,
        rt: &R,
        seat: &mut Seat,
        workspace: &Workspace,
    ) -> Result<Receipt, BoardFault>
        requires at { IsAt S.row_id seat.old }
        requires drawn { IsDrawn S.image S.bound seat.old.seen workspace.now.ticket }
        requires outcome { IsOutcome workspace.now }
        ensures at { IsAt S.row_id seat.new }
        ensures visited { Visited S.image S.bound S.row_id seat.old seat.new }
        ensures mine { seat.new.mine ≡ seat.old.mine + journaled result }
        ensures submitted { Submitted S.image S.bound S.row_id workspace.now.ticket seat.old seat.new result }
    {
        self.desk.lock(rt).submit(seat, workspace)
    }

    /// Takes an event on the kernel, and journals it under the number of the seat if it does something. A `Run` works
    /// out its stretch under the lock, for which the call waits. The seat has then seen the whole journal, its own
    /// event included.
    ///
    /// `BoardFault::Full`, exactly if the journal has no room for one more event; then nothing has changed but what the
    /// seat has seen.
    pub fn feed<R: Wait>(
        &self,
        rt: &R,
        seat: &mut Seat,
        event: Event,
    ) -> Result<Receipt, BoardFault>
        requires at { IsAt S.row_id seat.old }
        ensures at { IsAt S.row_id seat.new }
        ensures visited { Visited S.image S.bound S.row_id seat.old seat.new }
        ensures mine { seat.new.mine ≡ seat.old.mine + journaled result }
        ensures fed { Fed S.image S.bound S.row_id event seat.old seat.new result }
    {
        self.desk.lock(rt).feed(seat, event)
    }

    /// Both seats have then seen the whole journal, and therefore the same.
    pub fn meet<R: Wait>(&self, rt: &R, one: &mut Seat, other: &mut Seat)
        requires one { IsAt S.row_id one.old }
        requires other { IsAt S.row_id other.old }
        ensures at { IsAt S.row_id one.new × IsAt S.row_id other.new }
        ensures one { Visited S.image S.bound S.row_id one.old one.new }
        ensures other { Visited S.image S.bound S.row_id other.old other.new }
        ensures mine { (one.new.mine ≡ one.old.mine) × (other.new.mine ≡ other.old.mine) }
        ensures same { one.new.seen ≡ other.new.seen }
    {
        let mut desk = self.desk.lock(rt);
        let desk = &mut *desk;
        desk.show(one);
        desk.show(other);
    }

    /// The next event of the row after those that this seat's `follow` gave, by one read of its word. None if as many
    /// events were given as the row has words, or if the word was found empty; never while the seat has seen more
    /// events than were given. It never waits.
    pub fn follow(&self, seat: &mut Seat) -> Option<Event>
        requires at { IsAt S.row_id seat.old }
        ensures at { IsAt S.row_id seat.new }
        ensures same { seat.new
            ≡ record seat.old { seen = seat.new.seen; place = seat.new.place; look = seat.new.look } }
        ensures grows { IsPrefix seat.old.seen seat.new.seen }
        ensures reads { seat.old.place < S.row_id.capacity
            → (seat.new.look ≡ looked_at seat.old.look seat.old.place seat.new.look.found)
            × (result ≡ event_in seat.new.look.found) }
        ensures end { seat.old.place ≡ S.row_id.capacity → (seat.new ≡ seat.old) × (result ≡ None) }
        ensures some { IfSome result
            (λ event. (seat.new.place ≡ seat.old.place + 1) × (given seat.new ≡ given seat.old ++ event ∷ [])) }
        ensures none { IfNone result ((seat.new.place ≡ seat.old.place)
            × (seat.new.seen ≡ seat.old.seen) × (length seat.old.seen ≤ seat.old.place)) }
        ensures empty { IfNone result ((seat.old.place ≡ S.row_id.capacity)
            ⊎ (seat.new.look ≡ looked_at seat.old.look seat.old.place 0)) }
    {
        seat.follow(&self.row)
    }

    /// Ends the board. The seat has then seen its journal. It never waits, and takes no memory.
    pub fn close(self, seat: &mut Seat) -> Closed<'a>
        requires at { IsAt S.row_id seat.old }
        ensures at { IsAt S.row_id seat.new }
        ensures visited { Visited S.image S.bound S.row_id seat.old seat.new }
        ensures mine { seat.new.mine ≡ seat.old.mine }
        ensures closed { IsClosed S.image S.bound S.row_id.capacity S.row_id.seats result }
        ensures journal { result.events ≡ events seat.new.seen }
    {
        let (desk, room) = self.into_parts();
        desk.close(seat, room)
    }

    /// Ends the board and these seats of it. Each of them has counted all of its own entries in the journal, however
    /// much of it it had seen. With all seats of a board that was just opened the journal is empty. It never waits, and
    /// takes no memory.
    pub fn close_all(self, seats: Vec<Seat>) -> Closed<'a>
        requires at { All (IsAt S.row_id) seats.items }
        ensures closed { IsClosed S.image S.bound S.row_id.capacity S.row_id.seats result }
        ensures counted { IsCountedBy S.image S.bound S.row_id.capacity S.row_id.seats seats.items result }
        ensures empty { AreNew S.row_id seats.items → result.events ≡ [] }
    {
        let (desk, room) = self.into_parts();
        desk.close_all(seats, room)
    }

    /// What was under the lock, and room for the events of its journal.
    fn into_parts(self) -> (Desk<'a, S>, Vec<Event>)
        ensures { (result.1.items ≡ []) × (S.row_id.capacity ≤ vec_capacity result.1) }
    {
        let Board {
            image: _,
            row: _,
            room,
            bound: _,
            desk,
        } = self;
        (desk.into_inner(), room)
    }
}
