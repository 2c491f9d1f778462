//! A row of words that many read and one writes.
ghost use Rattle.std.specs.Prelude.{◌≡◌, ◌<◌, ◌≤◌, [], IfOk, replicate, vec_capacity};
ghost use Rattle.fmp_journal.specs.Views.{scribe_view, new_pen};
ghost use Rattle.fmp_journal.specs.Seats.{AreNew};

use crate::knowledge::Limits;
use crate::scribe::Scribe;
use crate::seat::Seat;
use crate::steps::{RowTable, Token, Words, deal, lay};
use std::alloc::{AllocError, Global};
use std::marker::Model;
use std::sync::Arc;

/// A row of words, which the scribe writes one after another, and each owner of a seat reads. It is seen as its name:
/// which table it is, its capacity in words, and its number of seats.
#[derive(Drop)]
pub struct Row {
    table: Arc<RowTable, Global>,
    capacity: u32,
}

impl Model for Row {
    ghost use Rattle.std.specs.Prelude.{◌≡◌};
    ghost use Rattle.std.specs.Arc.{arc_value};
    ghost use Rattle.fmp_journal.specs.Seats.{RowId, row_id, IsTable};

    ghost Value = { RowId };

    ghost view = { λ r. row_id (arc_value r.table).shared.table_id (arc_value r.table).shared.key };

    ghost invariant = { λ r. IsTable (arc_value r.table).shared.table_id (arc_value r.table).shared.key
        × (r.capacity ≡ (arc_value r.table).shared.key.capacity) };
}

impl Row {
    ghost use Rattle.std.specs.Prelude.{◌≡◌, ◌<◌, ◌^◌};
    ghost use Rattle.std.specs.Arc.{arc_value};
    ghost use Rattle.fmp_journal.specs.Seats.{row_id, IsTable};

    pub(crate) fn new(table: Arc<RowTable, Global>, capacity: u32) -> Row
        requires table { IsTable (arc_value table).shared.table_id (arc_value table).shared.key }
        requires capacity { capacity ≡ (arc_value table).shared.key.capacity }
        ensures { result ≡ row_id (arc_value table).shared.table_id (arc_value table).shared.key }
    {
        Row { table, capacity }
    }

    /// How many words it has: as many events as can be journaled.
    pub fn capacity(&self) -> u32
        ensures capacity { result ≡ self.now.capacity }
        ensures some { 0 < result }
        ensures words { self.now.table.words ≡ result }
    {
        self.capacity
    }

    pub(crate) fn words(&self) -> &Words
        ensures table { (result.now.table_id ≡ self.now.table)
            × (self.now.table.words ≡ self.now.capacity) × (0 < self.now.capacity) }
        ensures limits { (result.now.key.capacity ≡ self.now.capacity)
            × (result.now.key.seats ≡ self.now.seats) × (self.now.capacity < 2 ^ 32) }
    {
        &self.table.shared
    }
}

/// A row in which nothing is written, with its scribe and its seats.
#[derive(Drop)]
pub struct EmptyRow {
    pub row: Row,
    pub scribe: Scribe,
    pub seats: Vec<Seat>,
}

/// The words of an empty row.
fn empty_words(alloc: Global, capacity: u32) -> Result<Vec<u64>, AllocError>
    ensures { IfOk result (λ words. words.items ≡ replicate capacity 0) }
{
    vec![in alloc; 0u64; capacity as usize]
}

/// All seats of an empty row, one after another.
fn dealt_seats(words: &Words, scribe: &mut Token, mut seats: Vec<Seat>, count: u8) -> Vec<Seat>
    requires table { (scribe.old.table_id ≡ words.now.table_id) × (0 < words.now.table_id.words) }
    requires scribe { scribe.old.me ≡ (scribe_view (new_pen words.now.table_id.words count 0), []) }
    requires seats { (seats.items ≡ []) × (count ≤ vec_capacity seats) }
    ensures scribe { (scribe.new.table_id ≡ words.now.table_id)
        × (scribe.new.me ≡ (scribe_view (new_pen words.now.table_id.words count count), [])) }
    ensures seats { AreNew (record { table = words.now.table_id; capacity = words.now.table_id.words; seats = count })
        result.items }
{
    for number in 0..count {
        let token = deal(words, scribe);
        seats.push_reserved(Seat::new(token, number));
    }
    seats
}

impl EmptyRow {
    ghost use Rattle.std.specs.Prelude.{◌≡◌, ◌<◌, IfOk, All};
    ghost use Rattle.fmp_journal.specs.Seats.{new_scribe, AreNew};

    /// A row of `capacity` words, at least one, with its scribe and `seats` seats, numbered from 0. All the memory that
    /// it ever takes is taken here. `AllocError` if memory runs out.
    #[tactic(auto, using(crate::proofs::Rows::all_here))]
    pub fn new(alloc: Global, capacity: u32, seats: u8) -> Result<EmptyRow, AllocError>
        requires { 0 < capacity }
        ensures row { IfOk result (λ made. (made.row.capacity ≡ capacity) × (made.row.seats ≡ seats)) }
        ensures scribe { IfOk result (λ made. made.scribe ≡ new_scribe made.row) }
        ensures seats { IfOk result (λ made. AreNew made.row made.seats.items) }
        ensures here { IfOk result (λ made. All (λ seat. seat.row ≡ made.row) made.seats.items) }
    {
        let empty = empty_words(alloc, capacity)?;
        let room = Vec::with_capacity(alloc, seats as usize)?;
        let (table, mut token) = lay(alloc, empty.as_slice(), &Limits { capacity, seats })?;
        let seats = dealt_seats(&table.shared, &mut token, room, seats);
        let table = Arc::new(alloc, table)?;
        let again = Arc::try_clone(&table)?;
        Ok(EmptyRow {
            row: Row::new(table, capacity),
            scribe: Scribe::new(Row::new(again, capacity), token),
            seats,
        })
    }
}
