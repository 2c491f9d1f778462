//! The writer of a row.
ghost use Rattle.std.specs.Prelude.{◌≡◌, ◌<◌, ◌≤◌, ◌↔◌, [], length, slice_get, vec_capacity, IsTrue, MatchBool};
ghost use mathlib.Core.List.{IsPrefix};
ghost use Rattle.fmp_journal.specs.Views.{own, new_pen, scribe_view};
ghost use Rattle.fmp_journal.specs.Seats.{events, new_scribe, scribe_after, scribe_unmarked, seat_shown};

use crate::entry::JournalEntry;
use crate::knowledge::View;
use crate::row::Row;
use crate::seat::Seat;
use crate::steps::{Token, read, write};
use atomic_table::Badge;
use fmp_base::Event;
use std::marker::Model;
use std::mem;

/// The writer of the row. It is seen as the journal and its marks: the seats that have not counted one of their entries
/// yet.
#[derive(Drop)]
pub struct Scribe {
    row: Row,
    badge: Badge<View>,
    written: u32,
}

impl Model for Scribe {
    ghost use Rattle.fmp_journal.specs.Seats.{ScribeState, scribe_state, the_view, IsScribe};

    ghost Value = { ScribeState };

    ghost view = { λ s. scribe_state s.row (the_view s.badge.views) };

    ghost invariant = { λ s. IsScribe s.row s.badge.table_id s.badge.views s.written };
}

impl Scribe {
    pub(crate) fn new(row: Row, token: Token) -> Scribe
        requires table { token.table_id ≡ row.table }
        requires view { token.me ≡ (scribe_view (new_pen row.capacity row.seats row.seats), []) }
        ensures { result ≡ new_scribe row }
    {
        Scribe {
            row,
            badge: token.into_badge(),
            written: 0,
        }
    }

    /// How many events are written.
    pub fn len(&self) -> u32
        ensures len { result ≡ length self.now.journal }
        ensures room { result ≤ self.now.row.capacity }
    {
        self.written
    }

    /// Whether nothing is written.
    pub fn is_empty(&self) -> bool
        ensures { IsTrue result ↔ (self.now.journal ≡ []) }
    {
        self.written == 0
    }

    /// Whether every word is written.
    pub fn is_full(&self) -> bool
        ensures { MatchBool result (length self.now.journal ≡ self.now.row.capacity)
            (length self.now.journal < self.now.row.capacity) }
    {
        self.written >= self.row.capacity()
    }

    /// Writes an event under the number of a seat at the first empty word, and marks the seat.
    pub fn write(&mut self, seat: u8, event: Event)
        requires room { length self.old.journal < self.old.row.capacity }
        requires seat { seat < self.old.row.seats }
        ensures { self.new ≡ scribe_after self.old seat event }
    {
        let entry = JournalEntry { seat, event };
        let mut token = mem::replace(&mut self.badge, Badge::blank()).into_seat::<()>();
        write(self.row.words(), &mut token, self.written as usize, entry);
        self.badge = token.into_badge();
        self.written += 1;
    }

    /// The seat has then seen the whole journal, which begins with all that it had seen, and has counted its entries;
    /// its marks are cleared.
    pub fn show(&mut self, seat: &mut Seat)
        requires { seat.old.row ≡ self.old.row }
        ensures seat { seat.new ≡ seat_shown seat.old self.old }
        ensures grows { IsPrefix seat.old.seen self.old.journal }
        ensures counted { length (own seat.old.number self.old.journal) ≡ seat.new.mine }
        ensures scribe { self.new ≡ scribe_unmarked self.old seat.old.number }
    {
        let token = mem::replace(&mut self.badge, Badge::blank()).into_seat::<()>();
        self.badge = seat.show(self.row.words(), token).into_badge();
    }

    /// The entry at a place of the journal, from 0, if it is written.
    pub fn entry(&mut self, place: u32) -> Option<JournalEntry>
        ensures entry { result ≡ slice_get self.old.journal place }
        ensures same { self.new ≡ self.old }
    {
        if place >= self.written {
            return None;
        }
        let mut token = mem::replace(&mut self.badge, Badge::blank()).into_seat::<()>();
        let word = read(self.row.words(), &mut token, place as usize);
        self.badge = token.into_badge();
        JournalEntry::from_word(word)
    }

    /// The events of the journal, in a list that has room for them.
    pub fn events(&mut self, mut room: Vec<Event>) -> Vec<Event>
        requires { (room.items ≡ []) × (length self.old.journal ≤ vec_capacity room) }
        ensures { result.items ≡ events self.old.journal }
    {
        for place in 0..self.len() {
            if let Some(entry) = self.entry(place) {
                room.push_reserved(entry.event);
            }
        }
        room
    }
}
