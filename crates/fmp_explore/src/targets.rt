//! The states to which the events of states lead, in few bytes. A state that an event reached first is not written,
//! since its link names its source. Another one is written by how far it lies before the first state that was new when
//! its source was begun: mostly one or two bytes. The bytes are read in either direction.
ghost use Rattle.std.specs.Prelude.{◌≡◌, ◌-◌, ◌%◌, ◌^◌, [], slice_get, unwrap_or};

use crate::values::number_at;
use fmp_visited::Seen;
use std::alloc::{AllocError, Global};

/// How many bytes a number takes at most.
const LONGEST: usize = 5;

/// Who is told of the events between states.
pub trait TargetVisitor {
    /// Whether the targets of a state need not be told.
    fn skips(&self, source: u32) -> bool;

    /// An event leads from a state to another one.
    fn visit(&mut self, source: u32, target: u32);
}

/// The targets of states that were examined in order.
#[derive(Drop)]
pub struct TargetList {
    /// For each state a 0, and then a number for each target that is written.
    bytes: Vec<u8>,
    /// How many states there are.
    count: u32,
    /// How many states were kept when the last of them was begun.
    base: u32,
}

/// The states that were seen in a slice of a search, and were entered there.
#[derive(Clone, Copy)]
pub struct EnteredStates<'a> {
    pub seen: &'a Seen,
    /// Where each of them stands in the search.
    pub places: &'a [u32],
    /// How many states were kept there before.
    pub kept: usize,
}

/// A place in a list, between the targets of one state and those of the next.
#[derive(Clone, Copy)]
struct Cursor {
    /// The place in the bytes.
    place: usize,
    /// How many states were kept there.
    kept: u32,
}

/// A state, and the place after its targets.
#[derive(Clone, Copy)]
pub struct TargetPlace {
    source: u32,
    kept: u32,
    place: usize,
}

/// A place below 2^32 as a number of 32 bits; of a greater one its last 32 bits.
pub fn low_word(place: usize) -> u32
    ensures { result ≡ place % 2 ^ 32 }
{
    (place % 4_294_967_296) as u32
}

/// The number at a place; 0 if there is none.
pub fn at(list: &[u32], place: u32) -> u32
    ensures { result ≡ unwrap_or (slice_get list.now place) 0 }
{
    number_at(list, place as usize)
}

/// The state from which another one was reached first; itself if there is none at this place.
fn source_of(seen: &Seen, state: u32) -> u32 {
    match seen.link(state) {
        Some(link) => link.parent,
        None => state,
    }
}

impl TargetList {
    /// No state.
    pub fn new(alloc: Global) -> TargetList
        ensures bytes { result.bytes.items ≡ [] }
        ensures count { result.count ≡ 0 }
        ensures base { result.base ≡ 0 }
    {
        TargetList {
            bytes: Vec::new(alloc),
            count: 0,
            base: 0,
        }
    }

    /// How many states there are.
    pub fn len(&self) -> u32
        ensures { result ≡ self.now.count }
    {
        self.count
    }

    /// The last state.
    pub fn last(&self) -> u32
        ensures { result ≡ self.now.count - 1 }
    {
        self.count.saturating_sub(1)
    }

    /// Adds a number: seven bits in a byte, the highest first, and each byte but the first has its highest bit set.
    fn push_number(&mut self, number: u32) -> Result<(), AllocError> {
        for byte in 1..LONGEST {
            let part = number >> (7 * (LONGEST - byte));
            if part >= 128 {
                self.bytes.push((part % 128 + 128) as u8)?;
            } else if part > 0 {
                self.bytes.push(part as u8)?;
            }
        }
        let least = (number % 128) as u8;
        self.bytes
            .push(if number < 128 { least } else { least + 128 })?;
        Ok(())
    }

    /// The number that begins at a place, and the place after it; 0 if none does.
    fn number_from(&self, start: usize) -> (u32, usize) {
        let mut number: u32 = 0;
        let mut place = start;
        for _byte in 0..LONGEST {
            let Some(byte) = self.bytes.get(place) else {
                return (number, place);
            };
            if place != start && *byte < 128 {
                return (number, place);
            }
            number = number.wrapping_mul(128) | u32::from(*byte % 128);
            place = place.saturating_add(1);
        }
        (number, place)
    }

    /// The number that ends before a place, and the place where it begins; 0 if none does.
    fn number_before(&self, end: usize) -> (u32, usize) {
        let mut number: u32 = 0;
        let mut unit: u32 = 1;
        let mut place = end;
        for _byte in 0..LONGEST {
            let before = place.wrapping_sub(1);
            let Some(byte) = self.bytes.get(before) else {
                return (number, place);
            };
            place = before;
            number |= u32::from(*byte % 128).wrapping_mul(unit);
            if *byte < 128 {
                return (number, place);
            }
            unit = unit.wrapping_mul(128);
        }
        (number, place)
    }

    /// Adds a state with no target yet, where this many are kept. `AllocError` if memory runs out.
    pub fn begin(&mut self, kept: u32) -> Result<(), AllocError> {
        self.base = kept;
        self.count = self.count.saturating_add(1);
        self.push_number(0)
    }

    /// Adds a target of the last state, but for itself and for states that were reached first from it. `AllocError` if
    /// memory runs out.
    pub fn push(&mut self, target: u32) -> Result<(), AllocError> {
        if target >= self.base || target == self.last() {
            return Ok(());
        }
        self.push_number(self.base - target)
    }

    /// Adds those targets of a state of a slice that are written. The cursor stands before them, and then after them.
    fn push_written(
        &mut self,
        other: &TargetList,
        states: EnteredStates<'_>,
        cursor: &mut Cursor,
    ) -> Result<(), AllocError> {
        let (_begin, start) = other.number_from(cursor.place);
        cursor.place = start;
        for _target in start..other.bytes.len() {
            let (back, next) = other.number_from(cursor.place);
            if back == 0 {
                return Ok(());
            }
            cursor.place = next;
            self.push(at(states.places, cursor.kept.wrapping_sub(back)))?;
        }
        Ok(())
    }

    /// Adds those that were reached first from a state of a slice, where this many states are kept before them. Gives
    /// how many are kept after them.
    fn push_first(
        &mut self,
        source: u32,
        states: EnteredStates<'_>,
        cursor: &mut Cursor,
        kept: u32,
    ) -> Result<u32, AllocError> {
        let mut kept = kept;
        for target in cursor.kept..low_word(states.places.len()) {
            if source_of(states.seen, target) != source {
                return Ok(kept);
            }
            let place = at(states.places, target);
            self.push(place)?;
            kept = kept.max(place.saturating_add(1));
            cursor.kept = target.saturating_add(1);
        }
        Ok(kept)
    }

    /// Adds the targets of a slice. `AllocError` if memory runs out.
    pub fn join(
        &mut self,
        other: &TargetList,
        states: EnteredStates<'_>,
    ) -> Result<(), AllocError> {
        let mut kept = low_word(states.kept);
        let mut cursor = Cursor {
            place: 0,
            kept: other.count,
        };
        for source in 0..other.count {
            self.begin(kept)?;
            self.push_written(other, states, &mut cursor)?;
            kept = self.push_first(source, states, &mut cursor, kept)?;
        }
        Ok(())
    }

    /// Tells of the events to states that were reached first from this one. The cursor stands after them, and then
    /// before them.
    fn visit_first<V: TargetVisitor>(
        &self,
        seen: &Seen,
        source: u32,
        cursor: &mut Cursor,
        visitor: &mut V,
    ) {
        for _target in 0..cursor.kept {
            let target = cursor.kept.saturating_sub(1);
            if source_of(seen, target) != source {
                return;
            }
            visitor.visit(source, target);
            cursor.kept = target;
        }
    }

    /// The same of the other targets of a state.
    fn visit_written<V: TargetVisitor>(&self, source: u32, cursor: &mut Cursor, visitor: &mut V) {
        for _target in 0..cursor.place {
            let (back, before) = self.number_before(cursor.place);
            cursor.place = before;
            if back == 0 {
                return;
            }
            visitor.visit(source, cursor.kept.wrapping_sub(back));
        }
    }

    /// Moves the cursor before the states that were reached first from this one.
    fn skip_first(&self, seen: &Seen, source: u32, cursor: &mut Cursor) {
        for _target in 0..cursor.kept {
            let target = cursor.kept.saturating_sub(1);
            if source_of(seen, target) != source {
                return;
            }
            cursor.kept = target;
        }
    }

    /// Moves the cursor before the other targets of a state. Only its first byte is 0.
    fn skip_written(&self, cursor: &mut Cursor) {
        for _byte in 0..cursor.place {
            cursor.place = cursor.place.saturating_sub(1);
            if self.bytes.get(cursor.place) == Some(&0) {
                return;
            }
        }
    }

    /// Tells of each event from a state to another one. The cursor stands after its targets, and then before them.
    fn visit_one<V: TargetVisitor>(
        &self,
        seen: &Seen,
        source: u32,
        cursor: &mut Cursor,
        visitor: &mut V,
    ) {
        self.visit_first(seen, source, cursor, visitor);
        self.visit_written(source, cursor, visitor);
    }

    /// The place after the targets of the last state, where these states were seen.
    fn end(&self, seen: &Seen) -> Cursor {
        Cursor {
            place: self.bytes.len(),
            kept: low_word(seen.len()),
        }
    }

    /// Tells of each event between different states, from the last source to the first, where these states were seen.
    pub fn visit_back<V: TargetVisitor>(&self, seen: &Seen, visitor: &mut V) {
        let mut cursor = self.end(seen);
        for turn in 0..self.count {
            let source = self.count.saturating_sub(turn).saturating_sub(1);
            if visitor.skips(source) {
                self.skip_first(seen, source, &mut cursor);
                self.skip_written(&mut cursor);
            } else {
                self.visit_one(seen, source, &mut cursor, visitor);
            }
        }
    }

    /// The places of the targets of the states that a visitor does not skip, from the last state to the first.
    /// `AllocError` if memory runs out.
    pub fn places<V: TargetVisitor>(
        &self,
        alloc: Global,
        seen: &Seen,
        visitor: &V,
    ) -> Result<Vec<TargetPlace>, AllocError> {
        let mut places = Vec::new(alloc);
        let mut cursor = self.end(seen);
        for turn in 0..self.count {
            let source = self.count.saturating_sub(turn).saturating_sub(1);
            if !visitor.skips(source) {
                places.push(TargetPlace {
                    source,
                    kept: cursor.kept,
                    place: cursor.place,
                })?;
            }
            self.skip_first(seen, source, &mut cursor);
            self.skip_written(&mut cursor);
        }
        Ok(places)
    }

    /// Tells of each event from the states at these places to another one, in their order.
    pub fn visit_at<V: TargetVisitor>(&self, seen: &Seen, places: &[TargetPlace], visitor: &mut V) {
        for at in places {
            if !visitor.skips(at.source) {
                let mut cursor = Cursor {
                    place: at.place,
                    kept: at.kept,
                };
                self.visit_one(seen, at.source, &mut cursor, visitor);
            }
        }
    }
}
