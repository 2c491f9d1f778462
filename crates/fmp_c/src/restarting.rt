//! The counts of a system that C holds begin again.
ghost use Rattle.std.specs.Prelude.{◌≡◌, IfSome, None, Some};
ghost use Rattle.fmp_c.specs.Exports.{machine_restarted};

use crate::handle::FmpSystem;
use std::alloc::Global;
use std::mem;

/// What is answered where the counts have begun again.
const DONE: u32 = 1;

/// What is answered where the handle holds no system.
const BLANK: u32 = 4;

/// The counts begin again: the clock, and the numbers of events done and taken, are 0, also those of the text of a
/// checked system. Each deadline and each due time is as far from the clock as before, and nothing else changes. So
/// each later event does what it would do without this call, by lines that differ in the number of the clock at most.
/// The answer is 1, or 4 where the handle is blank. It takes no memory.
#[unsafe(no_mangle)]
pub extern "C" fn fmp_restart_count(alloc: Global, h: &mut FmpSystem) -> u32
    ensures restarted { IfSome h.old.machine (λ m. (h.new.machine ≡ Some (machine_restarted m)) × (result ≡ 1)) }
    ensures blank { h.old.machine ≡ None → (h.new.machine ≡ None) × (result ≡ 4) }
{
    match mem::replace(h, FmpSystem::blank()).into_box(alloc) {
        Some(held) => {
            let mut machine = held;
            machine.restart_count();
            *h = FmpSystem::of(machine);
            DONE
        }
        None => BLANK,
    }
}
