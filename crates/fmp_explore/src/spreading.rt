//! What can be reached from each state: its bits are spread to each state from which events lead to it.
use crate::actors::ActorBits;
use crate::targets::{TargetList, TargetPlace, TargetVisitor, at};
use fmp_visited::Seen;
use std::alloc::{AllocError, Global};

/// How many sweeps over all states are made, at most. Most events lead to states that come later, so a few are enough,
/// except where long paths lead back to earlier states again and again.
const SWEEPS: usize = 16;

/// Few states are less than one in this many. What is kept of each of them takes 16 bytes.
const FEW: u32 = 8;

/// A sweep, in which each state takes the bits of its targets in one byte.
#[derive(Drop)]
struct Sweep<'a> {
    bits: &'a mut ActorBits,
    byte: usize,
    /// A state that has all of these bits needs no more.
    needed: u8,
    /// Whether one was new to a state.
    changed: bool,
}

impl TargetVisitor for Sweep<'_> {
    fn skips(&self, source: u32) -> bool {
        self.bits.bits(source, self.byte) & self.needed == self.needed
    }

    fn visit(&mut self, source: u32, target: u32) {
        self.changed |= self.bits.take(source, target, self.byte);
    }
}

/// How many events lead to each state, and a number more.
#[derive(Drop)]
struct SourceCounts {
    counts: Vec<u32>,
}

impl TargetVisitor for SourceCounts {
    fn skips(&self, _source: u32) -> bool {
        false
    }

    fn visit(&mut self, _source: u32, target: u32) {
        if let Some(count) = self.counts.get_mut(target as usize) {
            *count = count.wrapping_add(1);
        }
    }
}

/// For each state, those from which events lead to it.
#[derive(Drop)]
struct Sources {
    /// Where those of each state begin, and at the end how many there are in all.
    firsts: Vec<u32>,
    states: Vec<u32>,
}

impl TargetVisitor for Sources {
    fn skips(&self, _source: u32) -> bool {
        false
    }

    /// Puts a source in front of those of a target.
    fn visit(&mut self, source: u32, target: u32) {
        if let Some(first) = self.firsts.get_mut(target as usize) {
            *first = first.wrapping_sub(1);
            if let Some(state) = self.states.get_mut(*first as usize) {
                *state = source;
            }
        }
    }
}

/// Puts the sum of the numbers up to each place there. Gives the sum of all.
fn add_up(numbers: &mut [u32]) -> u32 {
    let mut sum: u32 = 0;
    for place in 0..numbers.len() {
        if let Some(number) = numbers.get_mut(place) {
            sum = sum.wrapping_add(*number);
            *number = sum;
        }
    }
    sum
}

impl Sources {
    /// The sources of the states of a list. `AllocError` if memory runs out.
    fn new(alloc: Global, targets: &TargetList, seen: &Seen) -> Result<Sources, AllocError> {
        let room = (targets.len() as usize).saturating_add(1);
        let mut counted = SourceCounts {
            counts: vec![in alloc; 0_u32; room]?,
        };
        targets.visit_back(seen, &mut counted);
        let mut firsts = counted.counts;
        let all = add_up(&mut firsts);
        let states = vec![in alloc; 0_u32; all as usize]?;
        let mut sources = Sources { firsts, states };
        targets.visit_back(seen, &mut sources);
        Ok(sources)
    }
}

/// The states whose bits are still to be spread.
#[derive(Drop)]
struct OpenStates {
    list: Vec<u32>,
    /// For each state, whether it is in the list.
    is_in: Vec<bool>,
}

impl OpenStates {
    /// All of this many states. `AllocError` if memory runs out.
    fn all(alloc: Global, count: u32) -> Result<OpenStates, AllocError> {
        let mut list = Vec::new(alloc);
        for state in 0..count {
            list.push(state)?;
        }
        let is_in = vec![in alloc; true; count as usize]?;
        Ok(OpenStates { list, is_in })
    }

    /// Takes one out, if there is one.
    fn pop(&mut self) -> Option<u32> {
        let state = self.list.pop()?;
        if let Some(is_in) = self.is_in.get_mut(state as usize) {
            *is_in = false;
        }
        Some(state)
    }

    /// Puts one in, if it is out. `AllocError` if memory runs out.
    fn push(&mut self, state: u32) -> Result<(), AllocError> {
        if let Some(is_in) = self.is_in.get_mut(state as usize)
            && !*is_in
        {
            *is_in = true;
            self.list.push(state)?;
        }
        Ok(())
    }
}

/// Spreads the bits in a byte of a state to its sources. `AllocError` if memory runs out.
fn spread_one(
    sources: &Sources,
    bits: &mut ActorBits,
    byte: usize,
    open: &mut OpenStates,
    state: u32,
) -> Result<(), AllocError> {
    let next = state.saturating_add(1);
    for place in at(&sources.firsts, state)..at(&sources.firsts, next) {
        let source = at(&sources.states, place);
        if bits.take(source, state, byte) {
            open.push(source)?;
        }
    }
    Ok(())
}

/// Spreads the bits in a byte of all states one by one: each again where it has changed. `AllocError` if memory runs
/// out.
fn spread_each(
    alloc: Global,
    targets: &TargetList,
    seen: &Seen,
    bits: &mut ActorBits,
    byte: usize,
) -> Result<(), AllocError> {
    let sources = Sources::new(alloc, targets, seen)?;
    let mut open = OpenStates::all(alloc, targets.len())?;
    for _turn in 0..u64::MAX {
        let Some(state) = open.pop() else {
            return Ok(());
        };
        spread_one(&sources, bits, byte, &mut open, state)?;
    }
    Ok(())
}

impl Sweep<'_> {
    /// Goes over all states: whether a bit was new to one.
    fn go_over(&mut self, targets: &TargetList, seen: &Seen) -> bool {
        self.changed = false;
        targets.visit_back(seen, self);
        self.changed
    }

    /// Goes over the states at these places until no bit is new to one: whether that came.
    fn settles(&mut self, targets: &TargetList, seen: &Seen, places: &[TargetPlace]) -> bool {
        for _sweep in 0..SWEEPS {
            self.changed = false;
            targets.visit_at(seen, places, self);
            if !self.changed {
                return true;
            }
        }
        false
    }

    /// Whether few of this many states need more.
    fn is_near(&self, states: u32) -> bool {
        let mut count: u32 = 0;
        for state in 0..states {
            if !self.skips(state) {
                count = count.saturating_add(1);
            }
        }
        count < states / FEW
    }
}

/// The bits of a byte that a state needs, where some state has these. The last bit, at this place, says that an end
/// can be reached. It is asked only of a state that lacks another bit, and from such a state none can be reached that
/// has all others: so a state that has all others needs no more. Where a task acts in no state, or there are more
/// bytes, a state needs all.
fn needed_of(all: u8, bits: &ActorBits, last: usize) -> u8 {
    let others = (1_u8 << (last % 8)).wrapping_sub(1);
    if bits.width() == 1 && all & others == others {
        others
    } else {
        all
    }
}

/// Makes sweeps over a byte until one changes nothing: whether that came. Once few states need more, the sweeps go over
/// these alone. The first state has all bits from the start, since every state can be reached from it.
fn has_swept(
    alloc: Global,
    targets: &TargetList,
    seen: &Seen,
    bits: &mut ActorBits,
    byte: usize,
    last: usize,
) -> bool {
    let all = bits.bits_of_some(targets.len(), byte);
    bits.set_all(0, byte, all);
    let needed = needed_of(all, bits, last);
    let mut sweep = Sweep {
        bits,
        byte,
        needed,
        changed: false,
    };
    for _sweep in 0..SWEEPS {
        if !sweep.go_over(targets, seen) {
            return true;
        }
        if sweep.is_near(targets.len())
            && let Ok(places) = targets.places(alloc, seen, &sweep)
        {
            return sweep.settles(targets, seen, &places);
        }
    }
    false
}

/// Gives each state the bits of those that can be reached from it. The last bit, at this place, may be missing in
/// states that have all others. `AllocError` if memory runs out.
pub fn spread(
    alloc: Global,
    targets: &TargetList,
    seen: &Seen,
    bits: &mut ActorBits,
    last: usize,
) -> Result<(), AllocError> {
    for byte in 0..bits.width() {
        if !has_swept(alloc, targets, seen, bits, byte, last) {
            spread_each(alloc, targets, seen, bits, byte)?;
        }
    }
    Ok(())
}
