//! Bodies that no text gives.
ghost use Rattle.std.specs.Prelude.{◌≡◌};

use fmp_base::{Body, Call, Reply, Stretch};
use std::marker::Model;

/// Bodies that all do the same: a number of delays of one tick, and the end.
#[derive(Drop)]
pub struct Pulse {
    /// How many delays each start makes.
    pub beats: u32,
}

impl Model for Pulse {
    ghost use Rattle.std.specs.Prelude.{ℕ};

    ghost Value = { ℕ };

    ghost view = { λ pulse. pulse.beats };
}

impl Body for Pulse {
    ghost use Rattle.fmp_library_tests.specs.Pulses.{pulse_meaning};
    ghost use Rattle.fmp_library_tests.specs.PulseLemmas.{pulse-stays};

    /// How many delays are left.
    type Ctx = u32;

    ghost meaning = { pulse_meaning };

    ghost has_entry = { λ pulse entry. Unit {0} };

    ghost is_context = { λ pulse entry left. Unit {0} };

    fn start(&self, entry: u8, exinf: i32) -> u32 {
        self.beats
    }

    fn stretch(&self, entry: u8, n: u64, left: u32) -> Stretch<u32> {
        if n < 1 {
            Stretch::Over(left)
        } else if left == 0 {
            Stretch::End(left)
        } else {
            Stretch::Call(left, Call::DlyTsk { delay: 1 })
        }
    }

    fn deliver(&self, entry: u8, left: u32, r: Reply) -> u32 {
        left.saturating_sub(1)
    }

    ghost stays = { pulse-stays };
}
