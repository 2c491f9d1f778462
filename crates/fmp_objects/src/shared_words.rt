//! The service calls on shared words, which are this kernel's own: words that every body reads and writes.
ghost use Rattle.std.specs.Prelude.{◌≡◌, ◌<◌, [], length, IfSome};
ghost use Rattle.fmp_base.specs.Outcomes.{numbered as place_of};
ghost use Rattle.fmp_base.specs.SemaphoreCalls.{ld_shr as ld_shr_case, st_shr as st_shr_case};
ghost use Rattle.fmp_tasks.specs.Tables.{outcome, SameShape};

use fmp_base::arguments::numbered;
use fmp_base::{Answer, Er};
use fmp_tasks::KernelState;
use fmp_tasks::answers::{gives, replied};

/// The shared word that a number names, if there is one.
fn shared_word_of(tables: &KernelState, number: i32) -> Option<u8>
    ensures value { result ≡ place_of (length tables.now.state.shared_words) number }
    ensures there { IfSome result (λ w. w < length tables.now.system.shared_words) }
{
    numbered(tables.shared_word_count(), number)
}

/// `ld_shr`, this kernel's own: gives a shared word, and changes nothing. E_ID if the number names none.
pub fn ld_shr(tables: &KernelState, word: i32) -> Answer
    ensures { outcome result tables.now [] ≡ ld_shr_case tables.now.state word }
{
    match shared_word_of(tables, word) {
        Some(w) => gives(tables.shared_word(w)),
        None => replied(Er::Id),
    }
}

/// `st_shr`, this kernel's own: writes a shared word. E_ID if the number names none; nothing changes then.
pub fn st_shr(tables: &mut KernelState, word: i32, value: i32) -> Answer
    ensures outcome { outcome result tables.new [] ≡ st_shr_case tables.old.state word value }
    ensures shape { SameShape tables.old tables.new }
{
    match shared_word_of(tables, word) {
        Some(w) => {
            tables.set_shared_word(w, value);
            replied(Er::Ok)
        }
        None => replied(Er::Id),
    }
}
