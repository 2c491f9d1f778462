//! Which processors may have something to settle.
ghost use Rattle.std.specs.Prelude.{◌≡◌, ◌<◌, false, replicate, slice_index_or, slice_set, true};

use std::marker::Model;

/// How many processors there are at most.
const PROCESSORS: usize = 8;

/// For each processor, by its place, whether it may have something to settle.
#[derive(Drop)]
pub struct SettleMarks {
    marked: [bool; PROCESSORS],
}

impl Model for SettleMarks {
    ghost use Rattle.std.specs.Prelude.{Bool, List};

    ghost Value = { List Bool };

    ghost view = { λ m. m.marked };
}

impl SettleMarks {
    /// All processors are marked.
    pub fn all() -> SettleMarks
        ensures { result ≡ replicate 8 true }
    {
        SettleMarks {
            marked: [true; PROCESSORS],
        }
    }

    /// Whether a processor is marked.
    pub fn is_marked(&self, p: u8) -> bool
        requires { p < 8 }
        ensures { result ≡ slice_index_or self.now p true }
    {
        self.marked[p as usize]
    }

    /// A processor is marked.
    pub fn mark(&mut self, p: u8)
        requires { p < 8 }
        ensures { self.new ≡ slice_set self.old p true }
    {
        self.marked[p as usize] = true;
    }

    /// A processor is no longer marked.
    pub fn unmark(&mut self, p: u8)
        requires { p < 8 }
        ensures { self.new ≡ slice_set self.old p false }
    {
        self.marked[p as usize] = false;
    }
}
