//! Printing into room that is reserved.
ghost use Rattle.std.specs.Prelude.{◌≡◌, ◌+◌, ◌++◌, ◌≤◌, length, vec_capacity, vec_len};
ghost use Rattle.fmp_base.specs.Systems.{tables_of};
ghost use Rattle.fmp_base.specs.Texts.{lines_text};

use fmp_base::{Line, System};
use fmp_trace::print;

/// Room for the lines of any event, in bytes: at most 519 lines of at most 128 bytes.
pub const EVENT_ROOM: usize = 66_432;

/// Appends the lines of the event of this number, each ended by a line feed, to a text that has room for those of any
/// event.
pub fn print_reserved(sys: &System, number: u32, lines: &[Line], out: &mut Vec<u8>)
    requires few { length lines.now ≤ 519 }
    requires room { vec_len out.old + EVENT_ROOM ≤ vec_capacity out.old }
    ensures { out.new.items ≡ out.old.items ++ lines_text (tables_of sys.now) number lines.now }
{
    if print(sys, number, lines, out).is_err() {
        unreachable!();
    }
}
