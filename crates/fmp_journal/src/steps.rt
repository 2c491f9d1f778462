//! The steps on the words of a row. No other file makes one.
ghost use Rattle.std.specs.Prelude.{◌≡◌, ◌+◌, ◌<◌, ◌≤◌, true, false, [], ◌∷◌, List, length, slice_get, replicate, IfOk};
ghost use Rattle.std.specs.Prelude.{MatchOption, Some};
ghost use mathlib.Core.List.{IsPrefix};
ghost use Rattle.fmp_journal.specs.declared.entry.JournalEntry.{JournalEntry};
ghost use Rattle.fmp_journal.specs.Words.{entry_of};
ghost use Rattle.fmp_journal.specs.Views.{own, times, first_view, seat_part, scribe_part, lent, after_deal, dealt};
ghost use Rattle.fmp_journal.specs.Views.{written, looked, shown};

use crate::entry::JournalEntry;
use crate::knowledge::{Limits, View};
use crate::rule::{CatchesUp, Deals, Lends, Looks, Reads, RowRule, Writes};
use atomic_table::{Shared, Table};
use std::alloc::{AllocError, Global};

/// The table of a row, with its memory.
pub type RowTable = Table<(), View, Limits, RowRule, Global>;

/// The words of a row.
pub type Words = Shared<(), View, Limits, RowRule>;

/// What the scribe and each seat step with.
pub type Token = atomic_table::Seat<(), View>;

/// A table of empty words, with the scribe's token.
pub fn lay(alloc: Global, empty: &[u64], limits: &Limits) -> Result<(RowTable, Token), AllocError>
    requires { empty.now ≡ replicate limits.now.capacity 0 }
    ensures table { IfOk result
        (λ r. (r.0.shared.table_id.words ≡ limits.now.capacity) × (r.0.shared.key ≡ limits.now)) }
    ensures scribe { IfOk result (λ r. (r.1.table_id ≡ r.0.shared.table_id)
        × (r.1.me ≡ (first_view limits.now.capacity limits.now.seats, []))) }
{
    RowTable::of_words(alloc, empty, limits)
}

/// The scribe of an empty journal makes the next seat.
pub fn deal(words: &Words, scribe: &mut Token) -> Token
    requires table { (scribe.old.table_id ≡ words.now.table_id) × (0 < words.now.table_id.words) }
    requires scribe { (scribe.old.me.0.has_pen ≡ true)
        × (scribe.old.me.0.pen.journal ≡ []) × (scribe.old.me.0.pen.marks ≡ []) }
    ensures scribe { (scribe.new.table_id ≡ scribe.old.table_id)
        × (scribe.new.me ≡ (after_deal scribe.old.me.0, scribe.old.me.1)) }
    ensures seat { (result.table_id ≡ scribe.old.table_id) × (result.me ≡ (dealt scribe.old.me.0, [])) }
{
    words.split_seat::<Deals>(scribe)
}

/// The scribe stores an entry at the first empty word.
pub fn write(words: &Words, scribe: &mut Token, at: usize, entry: JournalEntry)
    requires table { (scribe.old.table_id ≡ words.now.table_id)
        × (at < words.now.table_id.words) × (at < words.now.key.capacity) }
    requires scribe { (scribe.old.me.0.has_pen ≡ true) × (length scribe.old.me.0.pen.journal ≡ at) }
    requires seat { entry.seat < words.now.key.seats }
    ensures table { scribe.new.table_id ≡ scribe.old.table_id }
    ensures view { scribe.new.me ≡ (written scribe.old.me.0 entry, scribe.old.me.1) }
{
    words.store::<Writes>(scribe, at, entry.word());
}

/// The scribe reads a word.
pub fn read(words: &Words, scribe: &mut Token, at: usize) -> u64
    requires table { (scribe.old.table_id ≡ words.now.table_id) × (at < words.now.table_id.words) }
    requires scribe { scribe.old.me.0.has_pen ≡ true }
    ensures same { (scribe.new.table_id ≡ scribe.old.table_id) × (scribe.new.me ≡ scribe.old.me) }
    ensures found { entry_of result ≡ slice_get scribe.old.me.0.pen.journal at }
{
    words.load::<Reads>(scribe, at)
}

/// A seat reads a word.
pub fn look(words: &Words, seat: &mut Token, at: usize) -> u64
    requires table { (seat.old.table_id ≡ words.now.table_id) × (at < words.now.table_id.words) }
    requires seat { seat.old.me.0.has_sight ≡ true }
    ensures table { seat.new.table_id ≡ seat.old.table_id }
    ensures view { seat.new.me ≡ (looked seat.old.me.0 seat.new.me.0.sight.seen at result, seat.old.me.1) }
    ensures grows { IsPrefix seat.old.me.0.sight.seen seat.new.me.0.sight.seen }
    ensures room { length seat.new.me.0.sight.seen ≤ seat.old.me.0.sight.capacity }
    ensures found { MatchOption (entry_of result) ((result ≡ 0)
        × (seat.new.me.0.sight.seen ≡ seat.old.me.0.sight.seen) × (length seat.new.me.0.sight.seen ≤ at))
        (λ x. slice_get seat.new.me.0.sight.seen at ≡ Some x) }
{
    words.load::<Looks>(seat, at)
}

/// A seat is lent the pen, sees the whole journal, and gives the pen back as a new scribe's token.
pub fn show(words: &Words, scribe: Token, seat: &mut Token) -> Token
    requires table { (scribe.table_id ≡ words.now.table_id)
        × (seat.old.table_id ≡ words.now.table_id) × (0 < words.now.table_id.words) }
    requires scribe { (scribe.me.0.has_pen ≡ true) × (scribe.me.0.has_sight ≡ false) × (scribe.me.1 ≡ []) }
    requires seat { seat.old.me.0.has_sight ≡ true }
    ensures table { (result.table_id ≡ words.now.table_id) × (seat.new.table_id ≡ words.now.table_id) }
    ensures grows { IsPrefix seat.old.me.0.sight.seen scribe.me.0.pen.journal }
    ensures room { length scribe.me.0.pen.journal ≤ seat.old.me.0.sight.capacity }
    ensures counted { length (own seat.old.me.0.sight.number scribe.me.0.pen.journal)
        ≡ seat.old.me.0.sight.mine + times seat.old.me.0.sight.number scribe.me.0.pen.marks }
    ensures seat { seat.new.me ≡ (seat_part (shown (lent seat.old.me.0 scribe.me.0)), seat.old.me.1) }
    ensures scribe { result.me ≡ (scribe_part (shown (lent seat.old.me.0 scribe.me.0)), []) }
{
    words.join_seat::<Lends>(seat, scribe);
    words.load::<CatchesUp>(seat, 0);
    words.split_seat::<Lends>(seat)
}
