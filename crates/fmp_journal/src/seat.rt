//! A reader's seat at a row.
ghost use Rattle.std.specs.Prelude.{◌≡◌, ◌+◌, ◌<◌, ◌≤◌, ◌⊎◌, ◌++◌, [], ◌∷◌, true, false, length, None, IfSome, IfNone};
ghost use mathlib.Core.List.{IsPrefix};
ghost use Rattle.fmp_journal.specs.Views.{own, times, new_sight, seat_view, scribe_view, pen_shown, looked_at};
ghost use Rattle.fmp_journal.specs.Words.{event_in};
ghost use Rattle.fmp_journal.specs.Seats.{new_seat, given};

use crate::entry::JournalEntry;
use crate::row::Row;
use crate::steps::{Token, Words, look, show};
use fmp_base::Event;
use std::marker::Model;

/// A caller's seat at a row. Contracts see what it has seen of the journal, how many entries of its own it has counted,
/// how many events its `follow` gave and how it read them.
#[derive(Drop)]
pub struct Seat {
    token: Token,
    number: u8,
    place: u32,
}

impl Model for Seat {
    ghost use Rattle.std.specs.Prelude.{◌≡◌, []};
    ghost use Rattle.fmp_journal.specs.Seats.{SeatState, seat_state, IsSeat};

    ghost Value = { SeatState };

    ghost view = { λ s. seat_state s.token.table_id s.token.me.0.sight s.place };

    ghost invariant = { λ s. IsSeat s.token.table_id s.token.me.0 s.number s.place × (s.token.me.1 ≡ []) };
}

impl Seat {
    pub(crate) fn new(token: Token, number: u8) -> Seat
        requires view { token.me ≡ (seat_view (new_sight token.table_id.words token.me.0.sight.seats number), []) }
        requires number { number < token.me.0.sight.seats }
        ensures { result
            ≡ new_seat
            (record { table = token.table_id; capacity = token.table_id.words; seats = token.me.0.sight.seats })
            number }
    {
        Seat {
            token,
            number,
            place: 0,
        }
    }

    /// Its number, from 0.
    pub fn number(&self) -> u8
        ensures number { result ≡ self.now.number }
        ensures of_row { result < self.now.row.seats }
    {
        self.number
    }

    /// How many events its `follow` gave.
    pub fn place(&self) -> u32
        ensures place { result ≡ self.now.place }
        ensures seen { result ≤ length self.now.seen }
    {
        self.place
    }

    /// The next event of the row after those that this seat's `follow` gave, by one read of its word. None if as many
    /// events were given as the row has words, or if the word was found empty; never while the seat has seen more
    /// events than were given. It never waits.
    #[tactic(auto, using(crate::proofs::Rows::given_more))]
    pub fn follow(&mut self, row: &Row) -> Option<Event>
        requires { self.old.row ≡ row.now }
        ensures same { self.new
            ≡ record self.old { seen = self.new.seen; place = self.new.place; look = self.new.look } }
        ensures grows { IsPrefix self.old.seen self.new.seen }

        // Below the capacity it reads one word, that of its place, and answers what it found there.
        ensures reads { self.old.place < self.old.row.capacity
            → (self.new.look ≡ looked_at self.old.look self.old.place self.new.look.found)
            × (result ≡ event_in self.new.look.found) }
        ensures end { self.old.place ≡ self.old.row.capacity → (self.new ≡ self.old) × (result ≡ None) }

        ensures some { IfSome result
            (λ event. (self.new.place ≡ self.old.place + 1) × (given self.new ≡ given self.old ++ event ∷ [])) }
        ensures none { IfNone result ((self.new.place ≡ self.old.place)
            × (self.new.seen ≡ self.old.seen) × (length self.old.seen ≤ self.old.place)) }
        ensures empty { IfNone result
            ((self.old.place ≡ self.old.row.capacity) ⊎ (self.new.look ≡ looked_at self.old.look self.old.place 0)) }
    {
        if self.place >= row.capacity() {
            return None;
        }
        let word = look(row.words(), &mut self.token, self.place as usize);
        let entry = JournalEntry::from_word(word)?;
        self.place += 1;
        Some(entry.event)
    }

    /// Under the scribe's pen the seat sees the whole journal, and counts the entries that the marks name.
    pub(crate) fn show(&mut self, words: &Words, scribe: Token) -> Token
        requires table { (scribe.table_id ≡ words.now.table_id)
            × (self.old.row.table ≡ words.now.table_id) × (0 < words.now.table_id.words) }
        requires scribe { (scribe.me.0.has_pen ≡ true) × (scribe.me.0.has_sight ≡ false) × (scribe.me.1 ≡ []) }
        ensures seat { self.new
            ≡ record self.old {
              seen = scribe.me.0.pen.journal;
              mine = self.old.mine + times self.old.number
                  scribe.me.0.pen.marks;
            } }
        ensures grows { IsPrefix self.old.seen scribe.me.0.pen.journal }
        ensures counted { length (own self.old.number scribe.me.0.pen.journal) ≡ self.new.mine }
        ensures scribe { (result.table_id ≡ words.now.table_id)
            × (result.me ≡ (scribe_view (pen_shown self.old.number scribe.me.0.pen), [])) }
    {
        show(words, scribe, &mut self.token)
    }
}
