//! A heap of the tasks that have deadlines, in rows: the task and the rank at each slot, and the slot of each task.
ghost use Rattle.std.specs.Prelude.{◌≡◌, ◌≢◌, ℕ, ◌+◌, ◌-◌, ◌<◌, ◌≤◌, ◌*◌, length, nat_lt, slice_index, slice_set};
ghost use Rattle.fmp_base.specs.Links.{AddsAtMost};
ghost use Rattle.fmp_ticks.specs.Ranks.{rank as rank_of, rank_in, AreRowsFor, KeepRanks, IsHeap, IsOpenAt, IsHeapBelow};
ghost use Rattle.fmp_ticks.specs.Slots.{Slots, AreInverse, exchanged, rows_of, held_at};

use fmp_base::WorkCount;

/// A task and its rank, which are taken out of the rows while the task goes to its slot.
#[derive(Clone, Copy)]
struct HeldTask {
    task: u8,
    rank: u64,
}

/// The place of a task in the order of deadlines and then of numbers, from 1, or 0 if it has no deadline.
pub fn rank(deadline: Option<u32>, task: u8) -> u64
    ensures { result ≡ rank_of deadline task }
{
    match deadline {
        Some(when) => when as u64 * 256 + task as u64 + 1,
        None => 0,
    }
}

/// Whether a rank is before another. This is one step.
pub fn is_before(a: u64, b: u64, steps: &mut WorkCount) -> bool
    ensures value { result ≡ nat_lt a b }
    ensures steps { steps.new ≡ steps.old + 1 }
{
    steps.add_one();
    a < b
}

/// Of the two children of a slot, the one whose task is first. The result of the comparison is subtracted: a branch
/// here would be mispredicted half of the time.
fn first_child(ranks: &[u64], slot: usize, steps: &mut WorkCount) -> usize
    requires within { slot * 2 + 2 < length ranks.now }
    requires few { length ranks.now ≤ 255 }
    ensures low { slot * 2 + 1 ≤ result }
    ensures high { result ≤ slot * 2 + 2 }
    ensures left { slice_index ranks.now result ≤ slice_index ranks.now (slot * 2 + 1) }
    ensures right { slice_index ranks.now result ≤ slice_index ranks.now (slot * 2 + 2) }
    ensures steps { steps.new ≡ steps.old + 1 }
{
    let right = slot * 2 + 2;
    right - is_before(ranks[right - 1], ranks[right], steps) as usize
}

/// A task stands at a slot, with its rank.
#[inline(always)]
fn put(slots: &mut [u8], ranks: &mut [u64], positions: &mut [u8], slot: usize, held: HeldTask)
    requires slot { slot < length slots.old }
    requires long { length ranks.old ≡ length slots.old }
    requires few { length slots.old ≤ 255 }
    requires task { held.task < length positions.old }
    ensures slots { slots.new ≡ slice_set slots.old slot held.task }
    ensures ranks { ranks.new ≡ slice_set ranks.old slot held.rank }
    ensures positions { positions.new ≡ slice_set positions.old held.task slot }
{
    slots[slot] = held.task;
    ranks[slot] = held.rank;
    positions[held.task as usize] = slot as u8;
}

/// The tasks at two slots change places, with their ranks.
#[inline(always)]
pub fn exchange(slots: &mut [u8], ranks: &mut [u64], positions: &mut [u8], i: usize, j: usize)
    requires inverse { AreInverse slots.old positions.old }
    requires long { length ranks.old ≡ length slots.old }
    requires first { i < length slots.old }
    requires second { j < length slots.old }
    ensures inverse { AreInverse slots.new positions.new }
    ensures slots { slots.new ≡ exchanged slots.old i j }
    ensures ranks { ranks.new ≡ exchanged ranks.old i j }
{
    let first = ranks[i];
    ranks[i] = ranks[j];
    ranks[j] = first;
    let a = slots[i];
    let b = slots[j];
    slots[i] = b;
    slots[j] = a;
    positions[a as usize] = j as u8;
    positions[b as usize] = i as u8;
}

/// The task at a slot is to go down to a slot that has one child at most, whatever its own deadline is: at each level
/// the first of the two children takes the slot above it. The slot that is free in the end, where the task is not put
/// yet.
#[inline(always)]
fn descend(
    slots: &mut [u8],
    ranks: &mut [u64],
    positions: &mut [u8],
    count: usize,
    from: usize,
    steps: &mut WorkCount,
) -> usize
    requires inverse { AreInverse slots.old positions.old }
    requires long { length ranks.old ≡ length slots.old }
    requires open { IsOpenAt (slice_index ranks.old) count (length slots.old) from }
    ensures rows { AreRowsFor (rows_of slots.old ranks.old) slots.new ranks.new positions.new result
        (slice_index slots.old from) (slice_index ranks.old from) }
    ensures open { IsOpenAt
        (rank_in (held_at slots.new ranks.new result (slice_index slots.old from) (slice_index ranks.old from))) count
        (length slots.new) result }
    ensures few { count ≤ result * 2 + 2 }
    ensures steps { AddsAtMost 7 steps.old steps.new }
{
    let mut slot = from;
    while slot * 2 + 2 < count {
        let child = first_child(ranks, slot, steps);
        let moved = HeldTask {
            task: slots[child],
            rank: ranks[child],
        };
        put(slots, ranks, positions, slot, moved);
        slot = child;
    }
    slot
}

/// A slot that is free gets the task of its only child, if it has one. The slot that is free then.
#[inline(always)]
fn descend_last(
    slots: &mut [u8],
    ranks: &mut [u64],
    positions: &mut [u8],
    count: usize,
    from: usize,
) -> usize
    requires long { length ranks.old ≡ length slots.old }
    requires short { length slots.old ≤ 255 }
    requires here { from < count }
    requires within { count ≤ length slots.old }
    requires few { count ≤ from * 2 + 2 }
    requires tasks { (k : ℕ) → k < length slots.old → k ≢ from → slice_index slots.old k < length positions.old }
    ensures rows { (before : Slots) → (task rank : ℕ)
        → AreRowsFor before slots.old ranks.old positions.old from task rank
        → AreRowsFor before slots.new ranks.new positions.new result task rank }
    ensures open { (task rank : ℕ)
        → IsOpenAt (rank_in (held_at slots.old ranks.old from task rank)) count (length slots.old) from
        → IsOpenAt (rank_in (held_at slots.new ranks.new result task rank)) count (length slots.new) result }
    ensures childless { count ≤ result * 2 + 1 }
{
    let child = from * 2 + 1;
    if child >= count {
        return from;
    }
    let moved = HeldTask {
        task: slots[child],
        rank: ranks[child],
    };
    put(slots, ranks, positions, from, moved);
    child
}

/// A task that is to stand at a slot rises past those that it is before: each goes down to the slot below it. The slot
/// that is free in the end, where the task is not put yet.
#[inline(always)]
fn rise(
    slots: &mut [u8],
    ranks: &mut [u64],
    positions: &mut [u8],
    from: usize,
    held: HeldTask,
    steps: &mut WorkCount,
) -> usize
    requires here { from < length slots.old }
    requires long { length ranks.old ≡ length slots.old }
    requires inverse { AreInverse (slice_set slots.old from held.task) (slice_set positions.old held.task from) }
    ensures here { result < length slots.new }
    ensures rows { AreRowsFor (held_at slots.old ranks.old from held.task held.rank) slots.new ranks.new positions.new
        result held.task held.rank }
    ensures heap { (n : ℕ)
        → IsHeapBelow (rank_in (held_at slots.old ranks.old from held.task held.rank)) n (length slots.old) from
        → IsHeap (rank_in (held_at slots.new ranks.new result held.task held.rank)) n (length slots.new) }
    ensures steps { AddsAtMost 7 steps.old steps.new }
{
    let mut slot = from;
    while slot > 0 {
        let parent = (slot - 1) / 2;
        if !is_before(held.rank, ranks[parent], steps) {
            return slot;
        }
        let moved = HeldTask {
            task: slots[parent],
            rank: ranks[parent],
        };
        put(slots, ranks, positions, slot, moved);
        slot = parent;
    }
    slot
}

/// The task at a slot, whose deadline has changed, goes to where it belongs. The heap's end, which takes the slot of a
/// task that leaves, nearly always belongs near the bottom: so the task goes there first, at one comparison a level,
/// and rises then.
#[inline(always)]
pub fn mend(
    slots: &mut [u8],
    ranks: &mut [u64],
    positions: &mut [u8],
    count: usize,
    slot: usize,
    steps: &mut WorkCount,
)
    requires inverse { AreInverse slots.old positions.old }
    requires long { length ranks.old ≡ length slots.old }
    requires open { IsOpenAt (slice_index ranks.old) count (length slots.old) slot }
    requires inside { 1 ≤ slice_index ranks.old slot }
    ensures inverse { AreInverse slots.new positions.new }
    ensures slots { length slots.new ≡ length slots.old }
    ensures long { length ranks.new ≡ length slots.new }
    ensures ranks { KeepRanks (rows_of slots.old ranks.old) (rows_of slots.new ranks.new) }
    ensures heap { IsHeap (slice_index ranks.new) count (length slots.new) }
    ensures steps { AddsAtMost 14 steps.old steps.new }
{
    let held = HeldTask {
        task: slots[slot],
        rank: ranks[slot],
    };
    let low = descend(slots, ranks, positions, count, slot, steps);
    let leaf = descend_last(slots, ranks, positions, count, low);
    let end = rise(slots, ranks, positions, leaf, held, steps);
    put(slots, ranks, positions, end, held);
}

/// The task at a slot outside the heap, which has this many slots, enters it and goes to where it belongs.
#[inline(always)]
pub fn enter(
    slots: &mut [u8],
    ranks: &mut [u64],
    positions: &mut [u8],
    count: usize,
    slot: usize,
    steps: &mut WorkCount,
)
    requires inverse { AreInverse slots.old positions.old }
    requires long { length ranks.old ≡ length slots.old }
    requires outside { count ≤ slot }
    requires there { slot < length slots.old }
    requires open { IsOpenAt (slice_index (exchanged ranks.old slot count)) (count + 1) (length slots.old) count }
    requires inside { 1 ≤ slice_index (exchanged ranks.old slot count) count }
    ensures inverse { AreInverse slots.new positions.new }
    ensures slots { length slots.new ≡ length slots.old }
    ensures long { length ranks.new ≡ length slots.new }
    ensures ranks { KeepRanks (rows_of (exchanged slots.old slot count) (exchanged ranks.old slot count))
        (rows_of slots.new ranks.new) }
    ensures heap { IsHeap (slice_index ranks.new) (count + 1) (length slots.new) }
    ensures steps { AddsAtMost 14 steps.old steps.new }
{
    let held = HeldTask {
        task: slots[slot],
        rank: ranks[slot],
    };
    let moved = HeldTask {
        task: slots[count],
        rank: ranks[count],
    };
    put(slots, ranks, positions, slot, moved);
    let end = rise(slots, ranks, positions, count, held, steps);
    put(slots, ranks, positions, end, held);
}

/// The task at a slot before the end of the heap, which has this many slots, leaves it, and the task at the end goes
/// from there to where it belongs.
#[inline(always)]
pub fn leave(
    slots: &mut [u8],
    ranks: &mut [u64],
    positions: &mut [u8],
    count: usize,
    slot: usize,
    steps: &mut WorkCount,
)
    requires inverse { AreInverse slots.old positions.old }
    requires long { length ranks.old ≡ length slots.old }
    requires before { slot + 1 < count }
    requires within { count ≤ length slots.old }
    requires open { IsOpenAt (slice_index (exchanged ranks.old slot (count - 1))) (count - 1) (length slots.old) slot }
    requires inside { 1 ≤ slice_index (exchanged ranks.old slot (count - 1)) slot }
    ensures inverse { AreInverse slots.new positions.new }
    ensures slots { length slots.new ≡ length slots.old }
    ensures long { length ranks.new ≡ length slots.new }
    ensures ranks { KeepRanks (rows_of (exchanged slots.old slot (count - 1)) (exchanged ranks.old slot (count - 1)))
        (rows_of slots.new ranks.new) }
    ensures heap { IsHeap (slice_index ranks.new) (count - 1) (length slots.new) }
    ensures steps { AddsAtMost 14 steps.old steps.new }
{
    let end = count - 1;
    exchange(slots, ranks, positions, slot, end);
    mend(slots, ranks, positions, end, slot, steps);
}
