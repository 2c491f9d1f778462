//! What is counted of a task.
ghost use Rattle.std.specs.Prelude.{◌≡◌, length, slice_get};
ghost use Rattle.std.specs.List.{filter};
ghost use Rattle.fmp_frames.specs.Counting as spec;

use fmp_base::{Caller, Er, Line, Processor, StateWord, TaskState};
use fmp_why::{SpinWait, is_spin, spin_of};

/// What a task did in a run. Each count stops at the greatest number that it can have.
#[derive(Clone, Copy)]
pub struct TaskTally {
    /// How often it started.
    pub starts: u32,
    /// Its service calls.
    pub calls: u32,
    /// Those of them at which it began to wait.
    pub waits: u32,
    /// Waits that ended by their time limit.
    pub time_outs: u32,
    /// How often it was RUNNING before an event and READY after it.
    pub preemptions: u32,
    /// How often its stretch reached the bound and kept its place.
    pub kept: u32,
    /// The events that it made: its calls, ends and faults, and the stretches that kept its place.
    pub events: u32,
}

/// A task that did nothing.
pub const NOTHING: TaskTally = TaskTally {
    starts: 0,
    calls: 0,
    waits: 0,
    time_outs: 0,
    preemptions: 0,
    kept: 0,
    events: 0,
};

fn is_task(caller: Caller, task: usize) -> bool
    ensures { result ≡ spec.is_task task caller }
{
    match caller {
        Caller::Task(other) => usize::from(other) == task,
        Caller::Handler(_) => false,
    }
}

fn starts(line: Line, task: usize) -> bool
    ensures { result ≡ spec.starts task line }
{
    match line {
        Line::Starts { task: other, .. } => usize::from(other) == task,
        _ => false,
    }
}

fn calls(line: Line, task: usize) -> bool
    ensures { result ≡ spec.calls task line }
{
    match line {
        Line::Call { caller, .. } => is_task(caller, task),
        _ => false,
    }
}

fn waits(line: Line, task: usize) -> bool
    ensures { result ≡ spec.waits task line }
{
    match line {
        Line::Call {
            caller,
            reply: None,
            ..
        } => is_task(caller, task),
        _ => false,
    }
}

fn is_time_out(code: Er) -> bool
    ensures { result ≡ spec.is_time_out code }
{
    match code {
        Er::Tmout => true,
        _ => false,
    }
}

fn times_out(line: Line, task: usize) -> bool
    ensures { result ≡ spec.times_out task line }
{
    match line {
        Line::Gets {
            task: other,
            reply,
            ..
        } => usize::from(other) == task && is_time_out(reply.code),
        _ => false,
    }
}

fn acts(line: Line, task: usize) -> bool
    ensures { result ≡ spec.acts task line }
{
    match line {
        Line::Call { caller, .. } | Line::End { caller, .. } | Line::Fault { caller, .. } => {
            is_task(caller, task)
        }
        _ => false,
    }
}

/// The word for what is shown of a task.
fn word_at(states: &[TaskState], task: usize) -> Option<StateWord>
    ensures { result ≡ spec.word_of (slice_get states.now task) }
{
    match states.get(task) {
        Some(shown) => Some(shown.word),
        None => None,
    }
}

fn is_preempted(was: Option<StateWord>, is: Option<StateWord>) -> bool
    ensures { result ≡ spec.is_preempted was is }
{
    match (was, is) {
        (Some(StateWord::Running), Some(StateWord::Ready)) => true,
        _ => false,
    }
}

fn one_if(holds: bool) -> usize
    ensures { result ≡ spec.one_if holds }
{
    if holds { 1 } else { 0 }
}

/// This many more, up to the greatest number.
pub fn more(count: u32, by: usize) -> u32
    ensures { result ≡ spec.more count by }
{
    match u32::try_from(by) {
        Ok(by) => count.saturating_add(by),
        Err(_) => u32::MAX,
    }
}

fn starts_in(lines: &[Line], task: usize) -> usize
    ensures { result ≡ length (filter (spec.starts task) lines.now) }
{
    lines.iter().filter(|line| starts(**line, task)).count()
}

fn calls_in(lines: &[Line], task: usize) -> usize
    ensures { result ≡ length (filter (spec.calls task) lines.now) }
{
    lines.iter().filter(|line| calls(**line, task)).count()
}

fn waits_in(lines: &[Line], task: usize) -> usize
    ensures { result ≡ length (filter (spec.waits task) lines.now) }
{
    lines.iter().filter(|line| waits(**line, task)).count()
}

fn time_outs_in(lines: &[Line], task: usize) -> usize
    ensures { result ≡ length (filter (spec.times_out task) lines.now) }
{
    lines.iter().filter(|line| times_out(**line, task)).count()
}

fn acts_in(lines: &[Line], task: usize) -> usize
    ensures { result ≡ length (filter (spec.acts task) lines.now) }
{
    lines.iter().filter(|line| acts(**line, task)).count()
}

/// The task whose place an event kept, given the place of the processor on which it kept one, if it did.
pub fn keeper(kept: Option<u8>, processors: &[Processor]) -> Option<u8>
    ensures { result ≡ spec.keeper kept processors.now }
{
    let cpu = processors.get(kept? as usize)?;
    match cpu.handler {
        Some(_) => None,
        None => cpu.run,
    }
}

fn is_keeper(kept: Option<u8>, task: usize) -> bool
    ensures { result ≡ spec.is_keeper task kept }
{
    match kept {
        Some(other) => usize::from(other) == task,
        None => false,
    }
}

/// What an event did to tasks.
#[derive(Clone, Copy)]
pub struct TaskChanges<'a> {
    /// The lines that it told.
    pub lines: &'a [Line],
    /// The task whose place it kept, if it did that.
    pub kept: Option<u8>,
    /// The states of the tasks before it.
    pub was: &'a [TaskState],
    /// Their states after it.
    pub is: &'a [TaskState],
}

/// The counts of a task after one more event.
pub fn counted(tally: &TaskTally, task: usize, event: TaskChanges<'_>) -> TaskTally
    ensures { result ≡ spec.counted task event.entry.lines.now event.entry.kept event.entry.was.now event.entry.is.now
        tally.now }
{
    let lines = event.lines;
    let preempted = is_preempted(word_at(event.was, task), word_at(event.is, task));
    let keeps = one_if(is_keeper(event.kept, task));
    TaskTally {
        starts: more(tally.starts, starts_in(lines, task)),
        calls: more(tally.calls, calls_in(lines, task)),
        waits: more(tally.waits, waits_in(lines, task)),
        time_outs: more(tally.time_outs, time_outs_in(lines, task)),
        preemptions: more(tally.preemptions, one_if(preempted)),
        kept: more(tally.kept, keeps),
        events: more(more(tally.events, acts_in(lines, task)), keeps),
    }
}

/// After how many events a task spun, with one more event, which left these processors and these spins of their actors.
pub fn spun(count: u32, task: usize, processors: &[Processor], spins: &[Option<SpinWait>]) -> u32
    ensures { result ≡ spec.spun task processors.now spins.now count }
{
    more(count, one_if(is_spin(spin_of(processors, spins, task))))
}
