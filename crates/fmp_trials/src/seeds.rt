//! Seeds in parts, which are tried at the same time.
ghost use Rattle.std.specs.Prelude.{◌≡◌, ◌+◌, ◌-◌, ◌<◌};
ghost use Rattle.fmp_trials.specs.Parts as spec;

use crate::testing::FailingSeed;
use std::alloc::AllocError;

/// Seeds one after the other.
#[derive(Clone, Copy)]
pub struct Seeds {
    /// The seed before the first one.
    pub before: u64,
    pub last: u64,
}

impl Seeds {
    /// How many there are.
    pub fn count(self) -> u64
        ensures { result ≡ self.last - self.before }
    {
        self.last.saturating_sub(self.before)
    }

    /// The seed before the part of this number, from 0 on, where they are cut into this many parts.
    fn edge(self, parts: u64, number: u64) -> u64
        requires { 0 < parts }
        ensures { result ≡ spec.edge self parts number }
    {
        let size = self.count().div_ceil(parts);
        let before = self.before.saturating_add(number.saturating_mul(size));
        before.min(self.last)
    }

    /// The part of this number, from 0 on, where they are cut into this many parts, in order.
    pub fn part(self, parts: u64, number: u64) -> Seeds
        requires parts { 0 < parts }
        requires number { number < parts }
        ensures before { result.before ≡ spec.edge self parts number }
        ensures last { result.last ≡ spec.edge self parts (number + 1) }
    {
        Seeds {
            before: self.edge(parts, number),
            last: self.edge(parts, number + 1),
        }
    }
}

/// What came of the first of these parts of seeds in which a run fails, or memory ran out; none if there is no such
/// part.
pub fn first_of(
    mut parts: Vec<Result<Option<FailingSeed>, AllocError>>,
) -> Result<Option<FailingSeed>, AllocError>
    ensures { result ≡ spec.first_of parts.items }
{
    for _part in 0..parts.len() {
        match parts.remove(0) {
            Ok(None) => {}
            Ok(Some(found)) => return Ok(Some(found)),
            Err(error) => return Err(error),
        }
    }
    Ok(None)
}
