//! A count of steps, and an array of links of which each read and each write is a step.
ghost use Rattle.std.specs.Prelude.{◌≡◌, ◌+◌, ◌<◌, length, slice_set, true, IfOk};
ghost use Rattle.std.specs.List.{range_with_len};
ghost use Rattle.fmp_base.specs.Links.{link_at};

use crate::tally::Tally;
use std::alloc::{AllocError, Global};
use std::marker::Model;
use std::snapshot::Snapshot;

/// How much work was done, in steps. It has no bytes: only the contracts see it.
#[derive(Drop)]
pub struct WorkCount {
    tally: Snapshot<Tally>,
}

impl Model for WorkCount {
    ghost use Rattle.std.specs.Prelude.{ℕ};
    ghost use Rattle.fmp_base.specs.Tallies.{count_of};

    ghost Value = { ℕ };

    ghost view = { λ s. count_of s.tally.value };
}

impl WorkCount {
    /// None so far.
    pub fn new() -> WorkCount
        ensures { result ≡ 0 }
    {
        let start = Tally::Start;
        WorkCount {
            tally: Snapshot::of(&start),
        }
    }

    /// One more.
    pub fn add_one(&mut self)
        ensures { self.new ≡ self.old + 1 }
    {
        let start = Tally::Start;
        let before = std::mem::replace(&mut self.tally, Snapshot::of(&start));
        let next = Tally::Next(before);
        self.tally = Snapshot::of(&next);
    }
}

/// A count of work has no bytes.
pub fn steps_are_ghost() -> bool
    ensures { result ≡ true }
{
    const _: () = prove!(size_of::<WorkCount>() == 0);
    true
}

/// An array of links, each from its own place to some place. Only `get` and `set` read and write them, and `put_back`,
/// which is no step, since no call of the kernel makes it.
#[derive(Drop)]
pub struct CountedLinks {
    links: Vec<u32>,
}

impl Model for CountedLinks {
    ghost use Rattle.std.specs.Prelude.{ℕ, List};

    ghost Value = { List ℕ };

    ghost view = { λ c. c.links.items };
}

impl CountedLinks {
    /// An array of this many links, each to its own place. `AllocError` if memory runs out.
    pub fn new(alloc: Global, length: u32) -> Result<CountedLinks, AllocError>
        ensures { IfOk result (λ c. c ≡ range_with_len 0 length) }
    {
        let links: Vec<u32> = (0..length).collect(alloc)?;
        Ok(CountedLinks { links })
    }

    /// The link at a place. One step.
    pub fn get(&self, place: u32, steps: &mut WorkCount) -> u32
        requires { place < length self.now }
        ensures link { result ≡ link_at self.now place }
        ensures steps { steps.new ≡ steps.old + 1 }
    {
        steps.add_one();
        self.links[place as usize]
    }

    /// Writes the link at a place. One step.
    pub fn set(&mut self, place: u32, link: u32, steps: &mut WorkCount)
        requires { place < length self.old }
        ensures links { self.new ≡ slice_set self.old place link }
        ensures steps { steps.new ≡ steps.old + 1 }
    {
        steps.add_one();
        self.links[place as usize] = link;
    }

    /// Puts the links of another array of this length in the place of these.
    pub fn put_back(&mut self, from: &CountedLinks)
        requires { length self.old ≡ length from.now }
        ensures { self.new ≡ from.now }
    {
        self.links.copy_from_slice(from.links.as_slice());
    }
}
