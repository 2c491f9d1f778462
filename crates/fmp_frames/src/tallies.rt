//! What all tasks of a run did.
ghost use Rattle.std.specs.Prelude.{◌≡◌, [], length, IfOk, get_or};
ghost use Rattle.fmp_frames.specs.Frames.{each, table_of};
ghost use Rattle.fmp_frames.specs.Counting as spec;

use crate::counting::{NOTHING, TaskChanges, TaskTally, counted, keeper, more, spun};
use crate::{Frame, Viewer};
use fmp_base::{Processor, TaskState};
use fmp_why::SpinWait;
use std::alloc::{AllocError, Global};

/// What each task did so far in a run, in order of number.
#[derive(Drop)]
pub struct Tallies {
    /// The counts.
    pub tallies: Vec<TaskTally>,
    /// What is shown of the tasks after the last event.
    pub shown: Vec<TaskState>,
    /// After how many events each task spun.
    pub spins: Vec<u32>,
    /// How many events were taken, up to the greatest number.
    pub events: u32,
}

/// The counts of a task so far; none if there is no such task.
fn tally_at(tallies: &[TaskTally], task: usize) -> TaskTally
    ensures { result ≡ get_or tallies.now task spec.nothing }
{
    match tallies.get(task) {
        Some(tally) => *tally,
        None => NOTHING,
    }
}

/// The counts of this many tasks after one more event. `AllocError` if memory runs out.
fn all_counted(
    alloc: Global,
    count: usize,
    before: &[TaskTally],
    event: TaskChanges<'_>,
) -> Result<Vec<TaskTally>, AllocError>
    ensures { IfOk result (λ tallies. tallies.items
        ≡ each (λ t. spec.counted t event.entry.lines.now event.entry.kept event.entry.was.now event.entry.is.now
        (get_or before.now t spec.nothing)) count) }
{
    let mut tallies = Vec::with_capacity(alloc, count)?;
    for task in 0..count {
        let tally = tally_at(before, task);
        tallies.push(counted(&tally, task, event))?;
    }
    Ok(tallies)
}

/// After how many events a task spun so far; none if there is no such task.
fn count_at(counts: &[u32], task: usize) -> u32
    ensures { result ≡ get_or counts.now task 0 }
{
    match counts.get(task) {
        Some(count) => *count,
        None => 0,
    }
}

/// After how many events each of this many tasks spun, after one more that left these processors and what their actors
/// spin for. `AllocError` if memory runs out.
fn all_spun(
    alloc: Global,
    count: usize,
    before: &[u32],
    processors: &[Processor],
    spins: &[Option<SpinWait>],
) -> Result<Vec<u32>, AllocError>
    ensures { IfOk result (λ counts. counts.items
        ≡ each (λ t. spec.spun t processors.now spins.now (get_or before.now t 0)) count) }
{
    let mut counts = Vec::with_capacity(alloc, count)?;
    for task in 0..count {
        counts.push(spun(count_at(before, task), task, processors, spins))?;
    }
    Ok(counts)
}

/// The same states, in a vector of their own.
fn copied(alloc: Global, states: &[TaskState]) -> Result<Vec<TaskState>, AllocError>
    ensures { IfOk result (λ copy. copy.items ≡ states.now) }
{
    let mut copy = Vec::new(alloc);
    copy.extend_from_slice(states)?;
    Ok(copy)
}

impl Tallies {
    /// What the tasks did in setup. `AllocError` if memory runs out.
    pub fn new(alloc: Global, setup: &Frame) -> Result<Tallies, AllocError>
        ensures { IfOk result (λ made. spec.counts_of made ≡ spec.first_counts (table_of setup.now)) }
    {
        let states = setup.states.as_slice();
        let event = TaskChanges {
            lines: &setup.lines,
            kept: None,
            was: &[],
            is: states,
        };
        Ok(Tallies {
            tallies: all_counted(alloc, states.len(), &[], event)?,
            shown: copied(alloc, states)?,
            spins: all_spun(alloc, states.len(), &[], &[], &[])?,
            events: 0,
        })
    }

    /// The counts of the tasks after one more event.
    fn tallies_after(&self, alloc: Global, frame: &Frame) -> Result<Vec<TaskTally>, AllocError>
        ensures { IfOk result (λ tallies. tallies.items
            ≡ (spec.counts_after (spec.counts_of self.now) (table_of frame.now)).tallies) }
    {
        let event = TaskChanges {
            lines: &frame.lines,
            kept: keeper(frame.kept, &frame.processors),
            was: &self.shown,
            is: &frame.states,
        };
        all_counted(alloc, self.tallies.len(), &self.tallies, event)
    }

    /// After how many events each task spun, after one more.
    fn spins_after(&self, alloc: Global, frame: &Frame) -> Result<Vec<u32>, AllocError>
        ensures { IfOk result (λ counts. counts.items
            ≡ (spec.counts_after (spec.counts_of self.now) (table_of frame.now)).spins) }
    {
        all_spun(
            alloc,
            self.spins.len(),
            &self.spins,
            &frame.processors,
            &frame.spins,
        )
    }
}

impl Viewer for Tallies {
    ghost shown = { λ x f y. spec.counts_of y ≡ spec.counts_after (spec.counts_of x) f };

    /// One event more. After an error nothing is counted of it.
    fn show(&mut self, alloc: Global, frame: &Frame) -> Result<(), AllocError> {
        let shown = copied(alloc, &frame.states)?;
        let spins = self.spins_after(alloc, frame)?;
        self.tallies = self.tallies_after(alloc, frame)?;
        self.shown = shown;
        self.spins = spins;
        self.events = more(self.events, 1);
        Ok(())
    }
}
