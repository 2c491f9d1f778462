//! How often the branches of bodies went each way. What is capped grows with the bodies, not with their runs.
ghost use Rattle.std.specs.Prelude.{◌≡◌, ◌==◌, ◌&&◌, ◌<◌, ℕ, Bool, OnOk, get_or, if◌then◌else◌, length};
ghost use Rattle.fmp_looking.specs.Ways as spec;

use std::alloc::{AllocError, Global};

/// How often a branch went each way: of more than 2^64 - 1 times, this many.
#[derive(Clone, Copy)]
pub struct WayCounts {
    /// How often what it goes by was not 0.
    pub is_true: u64,
    /// How often it was.
    pub is_false: u64,
}

/// How often the branches of a body went each way, by their numbers from 0.
#[derive(Drop)]
struct BodyWays {
    branches: Vec<WayCounts>,
}

/// How often the branches of bodies went each way.
#[derive(Drop)]
pub struct BranchWays {
    bodies: Vec<BodyWays>,
}

/// Of a branch that was never reached.
const NEVER: WayCounts = WayCounts {
    is_true: 0,
    is_false: 0,
};

/// Makes room for the branch of this number.
fn grow_branches(branches: &mut Vec<WayCounts>, number: usize) -> Result<(), AllocError>
    ensures room { OnOk result (number < length branches.new.items) }
    ensures same { OnOk result ((n : ℕ) → get_or branches.new.items n spec.never
        ≡ get_or branches.old.items n spec.never) }
{
    while branches.len() <= number {
        branches.push(NEVER)?;
    }
    Ok(())
}

/// Makes room for the body of this number.
fn grow_bodies(alloc: Global, bodies: &mut Vec<BodyWays>, body: usize) -> Result<(), AllocError>
    ensures room { OnOk result (body < length bodies.new.items) }
    ensures same { OnOk result ((b : ℕ) → spec.branches_of bodies.new.items b ≡ spec.branches_of bodies.old.items b) }
{
    while bodies.len() <= body {
        bodies.push(BodyWays {
            branches: Vec::new(alloc),
        })?;
    }
    Ok(())
}

impl WayCounts {
    ghost use Rattle.std.specs.Prelude.{◌≡◌};
    ghost use Rattle.fmp_looking.specs.Ways.{both_ways, capped, one_way, times_of};

    /// Of a branch that went one way only, this many times.
    pub fn one_way(is_true: bool, times: u64) -> WayCounts
        ensures { result ≡ one_way is_true times }
    {
        if is_true {
            WayCounts {
                is_true: times,
                is_false: 0,
            }
        } else {
            WayCounts {
                is_true: 0,
                is_false: times,
            }
        }
    }

    /// How often it went this way.
    pub fn times(self, way: bool) -> u64
        ensures { result ≡ capped (times_of way self) }
    {
        if way { self.is_true } else { self.is_false }
    }

    /// Both together.
    fn and(self, more: WayCounts) -> WayCounts
        ensures { result ≡ both_ways self more }
    {
        WayCounts {
            is_true: self.is_true.saturating_add(more.is_true),
            is_false: self.is_false.saturating_add(more.is_false),
        }
    }
}

impl BodyWays {
    ghost use Rattle.std.specs.Prelude.{◌≡◌, ◌==◌, ℕ, OnOk, get_or, if◌then◌else◌};
    ghost use Rattle.fmp_looking.specs.Ways.{both_ways, never};

    /// Adds to what is known of the branch of a number.
    fn add(&mut self, number: usize, more: WayCounts) -> Result<(), AllocError>
        ensures { OnOk result ((n : ℕ) → get_or self.new.branches.items n never
            ≡ (if n == number then both_ways (get_or self.old.branches.items n never) more
            else get_or self.old.branches.items n never)) }
    {
        grow_branches(&mut self.branches, number)?;
        self.branches[number] = self.branches[number].and(more);
        Ok(())
    }
}

impl BranchWays {
    ghost use Rattle.std.specs.Prelude.{◌≡◌, ◌+◌, ◌==◌, ◌&&◌, ℕ, Bool, OnOk, get_or, if◌then◌else◌};
    ghost use Rattle.fmp_looking.specs.Ways.{capped, never, times_in, times_of};

    /// No branch was reached yet.
    pub fn none(alloc: Global) -> BranchWays
        ensures { (b n : ℕ) (way : Bool) → times_in result b n way ≡ 0 }
    {
        BranchWays {
            bodies: Vec::new(alloc),
        }
    }

    /// How often the branch of a number of a body went a way, where both are counted from 0.
    pub fn times(&self, body: usize, number: usize, way: bool) -> u64
        ensures { result ≡ times_in self.now body number way }
    {
        match self.bodies.get(body) {
            Some(ways) => match ways.branches.get(number) {
                Some(counts) => counts.times(way),
                None => 0,
            },
            None => 0,
        }
    }

    /// Adds to what is known of the branch of a number of a body. `AllocError` if memory runs out.
    pub fn add(
        &mut self,
        alloc: Global,
        body: usize,
        number: usize,
        more: WayCounts,
    ) -> Result<(), AllocError>
        ensures { OnOk result ((b n : ℕ) (way : Bool) → times_in self.new b n way
            ≡ capped (times_in self.old b n way
            + (if (b == body) && (n == number) then times_of way more else 0))) }
    {
        grow_bodies(alloc, &mut self.bodies, body)?;
        self.bodies[body].add(number, more)
    }

    /// Adds what is known of the branches of a body.
    fn add_body(
        &mut self,
        alloc: Global,
        body: usize,
        branches: &[WayCounts],
    ) -> Result<(), AllocError>
        ensures { OnOk result ((b n : ℕ) (way : Bool) → times_in self.new b n way
            ≡ capped (times_in self.old b n way
            + (if b == body then times_of way (get_or branches.now n never) else 0))) }
    {
        for number in 0..branches.len() {
            self.add(alloc, body, number, branches[number])?;
        }
        Ok(())
    }

    /// Adds what is known by others. `AllocError` if memory runs out.
    pub fn add_all(&mut self, alloc: Global, others: &BranchWays) -> Result<(), AllocError>
        ensures { OnOk result ((b n : ℕ) (way : Bool) → times_in self.new b n way
            ≡ capped (times_in self.old b n way + times_in others.now b n way)) }
    {
        for body in 0..others.bodies.len() {
            self.add_body(alloc, body, &others.bodies[body].branches)?;
        }
        Ok(())
    }
}
