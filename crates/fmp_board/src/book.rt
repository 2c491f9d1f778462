//! What lies under the lock of a board: the kernel and its journal.
ghost use Rattle.std.specs.Prelude.{◌≡◌, ◌<◌, ◌≤◌, [], length, vec_capacity};
ghost use Rattle.fmp_board.specs.Boards.{IsReplay, IsRoom};
ghost use Rattle.fmp_journal.specs.Seats.{events};

use crate::blank::Limits;
use crate::closed::Closed;
use crate::fault::BoardFault;
use crate::site::Site;
use fmp_base::{Effect, Event};
use fmp_code::Vm;
use fmp_image_bytes::Image;
use fmp_journal::{JournalEntry, Receipt, Scribe, Seat};
use fmp_kernel::Kernel;
use std::marker::{Model, PhantomData};

/// The kernel and its journal under the lock of a board: the journal has the events that did something. Its type keeps
/// that the image and the limits are those of the site, that the journal is legal, and that the kernel is the replay of
/// the journal. So that holds whenever the lock of the board is free.
#[derive(Drop)]
pub struct Book<'a, S: Site> {
    pub(crate) image: &'a Image,
    pub(crate) kernel: Kernel<Vm<'a>>,
    pub(crate) scribe: Scribe,
    pub(crate) limits: Limits,
    pub(crate) site: PhantomData<S>,
}

impl<'a, S: Site> Model for Book<'a, S> {
    ghost use Rattle.std.specs.Prelude.{◌≡◌, vec_capacity};
    ghost use Rattle.fmp_board.specs.Boards.{BookState, IsReplay, IsRoom};

    ghost Value = { BookState };

    ghost view = { λ b. record { journal = b.scribe.journal; marks = b.scribe.marks } };

    ghost invariant = { λ b. (b.image.now ≡ S.image) × (b.scribe.row ≡ S.row_id)
        × IsRoom S.row_id b.limits.capacity b.limits.seats
        × IsReplay S.image S.bound S.row_id.capacity S.row_id.seats b.kernel b.scribe.journal
        × (b.limits.bound ≡ S.bound) };
}

impl<'a, S: Site> Book<'a, S> {
    ghost use Rattle.std.specs.Prelude.{◌≡◌, ◌<◌, ◌≤◌, ◌↔◌, [], length, slice_get, vec_capacity, IfOk, IsTrue, OnOk};
    ghost use Rattle.std.specs.Prelude.{OnErr, MatchResult};
    ghost use Rattle.fmp_board.specs.declared.fault.BoardFault.TheVariants.{Full};
    ghost use Rattle.fmp_board.specs.Boards.{IsAt, IsJournal, IsReplay, IsRoom};
    ghost use Rattle.fmp_journal.specs.Receipts.{journal_after, marks_after, receipt_of};
    ghost use Rattle.fmp_replay.specs.Replays.{kernel_after, reaction};
    ghost use Rattle.fmp_board.specs.Visits.{shown, unmarked};
    ghost use Rattle.fmp_journal.specs.Views.{own};
    ghost use mathlib.Core.List.{IsPrefix};
    ghost use Rattle.fmp_journal.specs.Seats.{events};
    ghost use Rattle.fmp_journal.specs.Words.{entry};

    pub(crate) fn new(
        image: &'a Image,
        kernel: Kernel<Vm<'a>>,
        scribe: Scribe,
        limits: Limits,
    ) -> Book<'a, S>
        requires site { (image.now ≡ S.image) × (scribe.row ≡ S.row_id) × (limits.bound ≡ S.bound) }
        requires room { IsRoom S.row_id limits.capacity limits.seats }
        requires replay { IsReplay S.image S.bound S.row_id.capacity S.row_id.seats kernel scribe.journal }
        ensures { result ≡ record { journal = scribe.journal; marks = scribe.marks } }
    {
        Book {
            image,
            kernel,
            scribe,
            limits,
            site: PhantomData,
        }
    }

    /// The image that it runs.
    pub fn image(&self) -> &'a Image
        ensures { result.now ≡ S.image }
    {
        self.image
    }

    /// How many events it has room for.
    pub fn capacity(&self) -> u32
        ensures { result ≡ S.row_id.capacity }
    {
        self.limits.capacity
    }

    /// How many seats the board has.
    pub fn seats(&self) -> u8
        ensures { result ≡ S.row_id.seats }
    {
        self.limits.seats
    }

    /// The kernel: the replay of the journal.
    pub fn kernel(&self) -> &Kernel<Vm<'a>>
        ensures { result.now ≡ kernel_after S.image S.bound (events self.now.journal) }
    {
        &self.kernel
    }

    /// How many events the journal has.
    pub fn len(&self) -> u32
        ensures { result ≡ length self.now.journal }
    {
        self.scribe.len()
    }

    /// Whether the journal has no events.
    pub fn is_empty(&self) -> bool
        ensures { IsTrue result ↔ (self.now.journal ≡ []) }
    {
        self.scribe.is_empty()
    }

    /// The entry at a place of the journal, from 0, if there is one. Each was taken at its place.
    pub fn entry(&mut self, place: u32) -> Option<JournalEntry>
        ensures entry { result ≡ slice_get self.old.journal place }
        ensures same { self.new ≡ self.old }
        ensures legal { IsJournal S.image S.bound S.row_id.capacity S.row_id.seats self.old.journal }
    {
        self.scribe.entry(place)
    }

    /// Takes an event on the kernel, and journals it under the number of a seat if it is taken.
    ///
    /// `BoardFault::Full`, exactly if the journal has no room for one more event; then nothing has changed.
    pub fn enter(&mut self, seat: u8, event: Event) -> Result<Receipt, BoardFault>
        requires { seat < S.row_id.seats }
        ensures full { MatchResult result (λ _. length self.old.journal < S.row_id.capacity)
            (λ f. (f ≡ Full) × (length self.old.journal ≡ S.row_id.capacity)) }
        ensures receipt { IfOk result (λ r. r
            ≡ receipt_of (length self.old.journal) (reaction S.image S.bound (events self.old.journal) event)) }
        ensures journal { OnOk result (self.new.journal
            ≡ journal_after self.old.journal (entry seat event)
            (reaction S.image S.bound (events self.old.journal) event)) }
        ensures marks { OnOk result (self.new.marks
            ≡ marks_after self.old.marks seat (reaction S.image S.bound (events self.old.journal) event)) }
        ensures same { OnErr result (self.new ≡ self.old) }
        ensures legal { IsJournal S.image S.bound S.row_id.capacity S.row_id.seats self.old.journal }
    {
        if self.scribe.is_full() {
            return Err(BoardFault::Full);
        }
        match self.kernel.step(event) {
            Effect::Nothing => Ok(Receipt::nothing()),
            Effect::Done => {
                self.scribe.write(seat, event);
                Ok(Receipt::done(self.scribe.len(), self.kernel.lines()))
            }
            Effect::Kept => {
                self.scribe.write(seat, event);
                Ok(Receipt::kept(self.scribe.len()))
            }
        }
    }

    /// The seat has then seen the whole journal, which begins with all that it had seen, and has counted its entries;
    /// its marks are cleared.
    pub(crate) fn show(&mut self, seat: &mut Seat)
        requires { IsAt S.row_id seat.old }
        ensures book { self.new ≡ unmarked self.old seat.old.number }
        ensures seat { seat.new ≡ shown seat.old self.old }
        ensures grows { IsPrefix seat.old.seen self.old.journal }
        ensures counted { length (own seat.old.number self.old.journal) ≡ seat.new.mine }
        ensures legal { IsJournal S.image S.bound S.row_id.capacity S.row_id.seats self.old.journal }
    {
        self.scribe.show(seat);
    }

    /// The kernel, and the events of the journal in a list that has room for them.
    pub(crate) fn into_closed(self, room: Vec<Event>) -> Closed<'a>
        requires { (room.items ≡ []) × (S.row_id.capacity ≤ vec_capacity room) }
        ensures kernel { result.kernel ≡ kernel_after S.image S.bound (events self.entry.journal) }
        ensures events { result.events ≡ events self.entry.journal }
        ensures legal { IsJournal S.image S.bound S.row_id.capacity S.row_id.seats self.entry.journal }
    {
        let Book {
            image: _,
            kernel,
            mut scribe,
            limits: _,
            site: _,
        } = self;
        let events = scribe.events(room);
        Closed::new(kernel, events)
    }
}
