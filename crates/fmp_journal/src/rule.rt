//! The rule of the row, and the kinds of step that keep it.
use crate::knowledge::{Limits, View};
use atomic_table::{Join, Play, Split, TableRule};

/// The written words are those of the journal and stand at the front, the scribe knows all of it, and each seat has
/// seen a beginning of it.
pub struct RowRule;

impl TableRule<(), View, Limits> for RowRule {
    ghost use Rattle.fmp_journal.specs.Rule.{IsKept};
    ghost use Rattle.fmp_journal.specs.Views.{first_view};

    ghost holds = { λ limits state. IsKept limits.capacity limits.seats state };

    ghost first = { λ limits. first_view limits.capacity limits.seats };
}

/// The scribe stores the word of an entry at the first empty word.
pub struct Writes;

impl Play<(), View> for Writes {
    ghost use Rattle.fmp_journal.specs.Views.{Wrote};

    ghost then = { Wrote };
}

/// The scribe reads a word.
pub struct Reads;

impl Play<(), View> for Reads {
    ghost use Rattle.fmp_journal.specs.Views.{Read};

    ghost then = { Read };
}

/// A seat reads a word.
pub struct Looks;

impl Play<(), View> for Looks {
    ghost use Rattle.fmp_journal.specs.Views.{Looked};

    ghost then = { Looked };
}

/// A seat that is lent the pen sees the whole journal, and counts its entries.
pub struct CatchesUp;

impl Play<(), View> for CatchesUp {
    ghost use Rattle.fmp_journal.specs.Views.{CaughtUp};

    ghost then = { CaughtUp };
}

/// The scribe makes the next seat.
pub struct Deals;

impl Split<View> for Deals {
    ghost use Rattle.fmp_journal.specs.Views.{after_deal, dealt};

    ghost left = { after_deal };

    ghost right = { dealt };
}

/// A seat is lent the pen, and gives it back.
pub struct Lends;

impl Join<View> for Lends {
    ghost use Rattle.fmp_journal.specs.Views.{lent, nobody};

    ghost both = { lent };

    ghost spent = { nobody };
}

impl Split<View> for Lends {
    ghost use Rattle.fmp_journal.specs.Views.{seat_part, scribe_part};

    ghost left = { seat_part };

    ghost right = { scribe_part };
}
