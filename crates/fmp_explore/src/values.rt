//! The table of values: how many values each field has in some of the states that were seen, and how many values are
//! kept for each sentence and limit.
ghost use Rattle.std.specs.Prelude.{◌≡◌, ◌≤◌, slice_get, unwrap_or};

use fmp_fields::What;
use fmp_visited::{Seen, unpack};
use std::alloc::{AllocError, Global};

/// What has values in the states of a search.
#[derive(Clone, Copy)]
pub enum Varied {
    /// This field of the states.
    Field(What),
    /// What is kept for the monitor at this place of the question's.
    Standing(usize),
}

/// How many values a field has, or what is kept for a monitor.
#[derive(Clone, Copy)]
pub struct Variety {
    pub what: Varied,
    pub values: usize,
}

/// How many different values stand in a list that is in order.
fn different(values: &[u64]) -> usize {
    let mut count: usize = 0;
    let mut last: Option<u64> = None;
    for value in values {
        if last != Some(*value) {
            count = count.saturating_add(1);
        }
        last = Some(*value);
    }
    count
}

/// How many states are looked at, at most.
const SAMPLE: usize = 1 << 14;

/// How many numbers of states are looked at, at most, but for those of one state.
const NUMBERS: usize = 1 << 22;

/// Where a value stands among the numbers of a state.
#[derive(Clone, Copy)]
struct Column {
    place: usize,
    /// Whether it is two numbers, of which the second stands after that place.
    is_pair: bool,
}

/// The number at a place; 0 where there is none.
pub fn number_at(numbers: &[u32], place: usize) -> u32
    ensures { result ≡ unwrap_or (slice_get numbers.now place) 0 }
{
    match numbers.get(place) {
        Some(number) => *number,
        None => 0,
    }
}

/// The value that stands among these numbers.
fn value_in(numbers: &[u32], column: Column) -> u64 {
    let first = u64::from(number_at(numbers, column.place));
    if !column.is_pair {
        return first;
    }
    let second = number_at(numbers, column.place.saturating_add(1));
    first
        .saturating_mul(1 << 32)
        .saturating_add(u64::from(second))
}

/// How many states with this many numbers each are looked at, at most.
fn sample_size(numbers: usize) -> usize
    ensures { 1 ≤ result }
{
    SAMPLE.min(NUMBERS / numbers.max(1)).max(1)
}

/// The numbers of some of the states, which lie equally far apart.
fn sampled(alloc: Global, seen: &Seen, first: &[u32]) -> Result<Vec<Vec<u32>>, AllocError> {
    let mut sample = Vec::new(alloc);
    let size = sample_size(first.len());
    let stride = (seen.len() / size).saturating_add(1);
    for i in 0..size.min(seen.len()) {
        let state = i.saturating_mul(stride) % 4_294_967_295;
        let mut numbers = Vec::new(alloc);
        unpack(seen.row(state as u32), first, &mut numbers)?;
        sample.push(numbers)?;
    }
    Ok(sample)
}

/// How many values there are in these states, of which these are the numbers.
fn count_in(alloc: Global, sample: &[Vec<u32>], column: Column) -> Result<usize, AllocError> {
    let mut values = Vec::with_capacity(alloc, sample.len())?;
    for numbers in sample {
        values.push(value_in(numbers, column))?;
    }
    values.sort()?;
    Ok(different(&values))
}

/// Adds how many values are kept for each monitor: its two numbers stand after those of this many fields.
fn add_standings(
    alloc: Global,
    sample: &[Vec<u32>],
    fields: usize,
    monitors: usize,
    table: &mut Vec<Variety>,
) -> Result<(), AllocError> {
    for monitor in 0..monitors {
        let column = Column {
            place: fields.saturating_add(monitor.saturating_mul(2)),
            is_pair: true,
        };
        table.push(Variety {
            what: Varied::Standing(monitor),
            values: count_in(alloc, sample, column)?,
        })?;
    }
    Ok(())
}

/// How many values each field has in a sample of the states that were seen, in order of the fields, and then how many
/// are kept for each monitor, where the first state has these values. `AllocError` if memory runs out.
pub fn varieties(
    alloc: Global,
    seen: &Seen,
    first: &[u32],
    fields: &[What],
) -> Result<Vec<Variety>, AllocError> {
    let sample = sampled(alloc, seen, first)?;
    let mut table = Vec::new(alloc);
    for (place, what) in fields.iter().enumerate() {
        let column = Column {
            place,
            is_pair: false,
        };
        table.push(Variety {
            what: Varied::Field(*what),
            values: count_in(alloc, &sample, column)?,
        })?;
    }
    let monitors = first.len().saturating_sub(fields.len()) / 2;
    add_standings(alloc, &sample, fields.len(), monitors, &mut table)?;
    Ok(table)
}
