//! Two runs of a system side by side: the first event in which they differ.
ghost use Rattle.std.specs.Bool.{Decides};
ghost use Rattle.std.specs.Prelude.{◌≡◌, ◌+◌, ◌-◌, ◌∷◌, [], ◌++◌, ◌<◌, ◌≤◌, ◌^◌, IfOk, OnOk, length, min, option_map};
ghost use Rattle.std.specs.Prelude.{slice_get};
ghost use Rattle.fmp_base.specs.Systems.{tables_of};
ghost use Rattle.fmp_frames.specs.Frames.{table_of};
ghost use Rattle.fmp_frames.specs.Compares as spec;
ghost use Rattle.fmp_frames.specs.Compares.{AreStates, IsFirstDifference, IsToldFurther, events_of, run_told};
ghost use Rattle.fmp_frames.specs.Shown.{WasShown};
ghost use Rattle.fmp_named.specs.Lines.{named_lines};

use crate::frame::{Frame, last_frame};
use crate::showing::{Viewer, show_all};
use fmp_base::{System, TaskBlock, TaskState};
use fmp_kernel::{Body, Coming, Kernel};
use fmp_named::{append_lines, append_state};
use std::alloc::{AllocError, Global};

/// How many events in front of the first that differs are shown.
const BEFORE: usize = 5;

/// A run as it is told, event by event.
#[derive(Drop)]
pub struct ToldRun<'a> {
    sys: &'a System,
    /// The lines of setup and of each event, in order of their numbers.
    texts: Vec<Vec<u8>>,
    /// The states of the tasks after the last event.
    states: Vec<TaskState>,
    blocks: Vec<TaskBlock>,
}

/// The number of an event, which is below 2^32: for a greater number, the greatest one.
fn event_number(number: usize) -> u32
    ensures { result ≡ min number (2 ^ 32 - 1) }
{
    u32::try_from(number).unwrap_or(u32::MAX)
}

/// The lines of a frame, which has this number.
fn text_of(alloc: Global, sys: &System, number: usize, frame: &Frame) -> Result<Vec<u8>, AllocError>
    ensures { IfOk result (λ text. text.items
        ≡ named_lines (tables_of sys.now) (min number (2 ^ 32 - 1)) frame.now.lines.items) }
{
    let mut text = Vec::new(alloc);
    append_lines(sys, event_number(number), &frame.lines, &mut text)?;
    Ok(text)
}

impl<'a> ToldRun<'a> {
    /// A system after setup. `AllocError` if memory runs out.
    fn new(alloc: Global, sys: &'a System, setup: &Frame) -> Result<ToldRun<'a>, AllocError>
        ensures states { IfOk result (λ made. AreStates made (table_of setup.now)) }
        ensures sys { IfOk result (λ made. made.sys ≡ sys.entry) }
        ensures events { IfOk result (λ made. events_of made
            ≡ named_lines (tables_of sys.now) 0 setup.now.lines.items ∷ []) }
    {
        let mut texts = Vec::new(alloc);
        texts.push(text_of(alloc, sys, 0, setup)?)?;
        Ok(ToldRun {
            sys,
            texts,
            states: Vec::from_slice(alloc, &setup.states)?,
            blocks: Vec::from_slice(alloc, &setup.blocks)?,
        })
    }

    /// Adds the lines of a frame, unless its event kept a place.
    #[tactic(auto, using(crate::proofs::FrameLemmas::map_push))]
    fn tell(&mut self, alloc: Global, frame: &Frame) -> Result<(), AllocError>
        ensures sys { self.new.sys ≡ self.old.sys }
        ensures events { OnOk result (length (events_of self.old) < 2 ^ 32 → events_of self.new
            ≡ events_of self.old ++ spec.told_at (tables_of self.old.sys.now) (length (events_of self.old))
            frame.now.kept frame.now.lines.items) }
    {
        match frame.kept {
            Some(_) => Ok(()),
            None => {
                let text = text_of(alloc, self.sys, self.texts.len(), frame)?;
                self.texts.push(text)?;
                Ok(())
            }
        }
    }
}

impl Viewer for ToldRun<'_> {
    ghost shown = { λ x f y. IsToldFurther x f y };

    /// One event more: what it tells, and the states of the frame.
    fn show(&mut self, alloc: Global, frame: &Frame) -> Result<(), AllocError> {
        self.tell(alloc, frame)?;
        self.states = Vec::from_slice(alloc, &frame.states)?;
        self.blocks = Vec::from_slice(alloc, &frame.blocks)?;
        Ok(())
    }
}

/// What is told of a run of a kernel of this system: of all that comes to it. `AllocError` if memory runs out.
#[tactic(none)]
pub fn told_on<'a, B: Body, T: Coming<B>>(
    alloc: Global,
    sys: &'a System,
    kernel: &mut Kernel<B>,
    events: &[T],
) -> Result<ToldRun<'a>, AllocError>
    requires few { kernel.old.taken + length events.now ≤ 2 ^ 31 }
    ensures shown { IfOk result (λ told. WasShown (λ x f. AreStates x f)
        ⟦<ToldRun<'a> as Viewer>⟧.shown B.meaning T.reaction kernel.old events.now told) }
    ensures events { IfOk result (λ told.
        events_of told ≡ run_told (tables_of sys.now) B.meaning T.reaction kernel.old events.now) }
{
    let setup = last_frame(alloc, kernel)?;
    let mut told = ToldRun::new(alloc, sys, &setup)?;
    show_all(alloc, kernel, events, &mut told)?;
    Ok(told)
}

/// The text of the event of a number; none if there is no such event.
fn event_text<'b>(told: &'b ToldRun<'_>, number: usize) -> Option<&'b [u8]>
    ensures { option_map (λ text. text.now) result ≡ slice_get (events_of told.now) number }
{
    match told.texts.get(number) {
        Some(text) => Some(text.as_slice()),
        None => None,
    }
}

/// Whether two runs tell the same of the event of a number.
fn is_same(a: &ToldRun<'_>, b: &ToldRun<'_>, number: usize) -> bool
    ensures { Decides result (slice_get (events_of a.now) number ≡ slice_get (events_of b.now) number) }
{
    match (event_text(a, number), event_text(b, number)) {
        (Some(one), Some(other)) => one == other,
        (None, None) => true,
        _ => false,
    }
}

/// The number of the first event that two runs tell otherwise, setup being number 0; none where both tell the same
/// events.
pub fn first_difference(a: &ToldRun<'_>, b: &ToldRun<'_>) -> Option<usize>
    ensures { IsFirstDifference (events_of a.now) (events_of b.now) result }
{
    for number in 0..a.texts.len().max(b.texts.len()) {
        if !is_same(a, b, number) {
            return Some(number);
        }
    }
    None
}

/// Appends lines, each after a mark.
#[tactic(auto, unfolding(crate::specs::Compares::marked))]
fn append_marked(mark: &[u8], lines: &[u8], out: &mut Vec<u8>) -> Result<(), AllocError>
    ensures { OnOk result (out.new.items ≡ out.old.items ++ spec.marked mark.now lines.now) }
{
    let mut begins = true;
    for byte in lines {
        if begins {
            out.extend_from_slice(mark)?;
        }
        out.push(*byte)?;
        begins = *byte == b'\n';
    }
    Ok(())
}

/// Appends the text of the event of a number after a mark, or that there is none.
fn append_event(
    mark: &[u8],
    told: &ToldRun<'_>,
    number: usize,
    out: &mut Vec<u8>,
) -> Result<(), AllocError>
    ensures { OnOk result (out.new.items ≡ out.old.items ++ spec.event_shown mark.now told.now number) }
{
    match event_text(told, number) {
        Some(text) => append_marked(mark, text, out),
        None => append_marked(mark, b"the run has ended\n", out),
    }
}

/// The line of the state of the task at a place.
fn state_line(alloc: Global, told: &ToldRun<'_>, task: usize) -> Result<Vec<u8>, AllocError>
    ensures { IfOk result (λ line. line.items ≡ spec.state_line told.now task) }
{
    let mut line = Vec::new(alloc);
    match (told.states.get(task), told.blocks.get(task)) {
        (Some(state), Some(block)) => append_state(told.sys, task, *state, block, &mut line)?,
        _ => {}
    }
    Ok(line)
}

/// Appends two lines, each after its mark, if they are not the same.
fn append_beside(one: &[u8], other: &[u8], out: &mut Vec<u8>) -> Result<(), AllocError>
    ensures { OnOk result (out.new.items ≡ out.old.items ++ spec.beside one.now other.now) }
{
    if one == other {
        return Ok(());
    }
    append_marked(b"- ", one, out)?;
    append_marked(b"+ ", other, out)
}

/// Appends the states of the task at a place at the ends of two runs, if they are not the same.
fn append_task_beside(
    alloc: Global,
    a: &ToldRun<'_>,
    b: &ToldRun<'_>,
    task: usize,
    out: &mut Vec<u8>,
) -> Result<(), AllocError>
    ensures { OnOk result (out.new.items
        ≡ out.old.items ++ spec.beside (spec.state_line a.now task) (spec.state_line b.now task)) }
{
    let one = state_line(alloc, a, task)?;
    let other = state_line(alloc, b, task)?;
    append_beside(&one, &other, out)
}

/// How many tasks have states at the end of one of two runs.
fn task_count(a: &ToldRun<'_>, b: &ToldRun<'_>) -> usize
    ensures { result ≡ spec.task_count a.now b.now }
{
    a.states.len().max(b.states.len())
}

/// Appends the states of this many tasks that differ at the ends of two runs.
fn append_states_beside(
    alloc: Global,
    a: &ToldRun<'_>,
    b: &ToldRun<'_>,
    count: usize,
    out: &mut Vec<u8>,
) -> Result<(), AllocError>
    ensures { OnOk result (out.new.items ≡ out.old.items ++ spec.states_beside a.now b.now 0 count) }
{
    for task in 0..count {
        append_task_beside(alloc, a, b, task, out)?;
    }
    Ok(())
}

/// Appends the events of a run in front of the one of this number.
fn append_before(told: &ToldRun<'_>, number: usize, out: &mut Vec<u8>) -> Result<(), AllocError>
    ensures { OnOk result (out.new.items
        ≡ out.old.items ++ spec.events_shown told.now (number - 5) (number - (number - 5))) }
{
    for before in number.saturating_sub(BEFORE)..number {
        append_event(b"  ", told, before, out)?;
    }
    Ok(())
}

/// Appends the event of a number in which two runs differ, after those in front of it.
fn append_events(
    a: &ToldRun<'_>,
    b: &ToldRun<'_>,
    number: usize,
    out: &mut Vec<u8>,
) -> Result<(), AllocError>
    ensures { OnOk result (out.new.items ≡ out.old.items ++ spec.events_beside a.now b.now number) }
{
    append_before(a, number, out)?;
    append_event(b"- ", a, number, out)?;
    append_event(b"+ ", b, number, out)
}

/// Appends the event of a number in which two runs differ, after those in front of it, and the states of the tasks
/// that differ then: these are the same runs up to that event. `AllocError` if memory runs out.
pub fn append_difference(
    alloc: Global,
    runs: (&ToldRun<'_>, &ToldRun<'_>),
    number: usize,
    ends: (&ToldRun<'_>, &ToldRun<'_>),
    out: &mut Vec<u8>,
) -> Result<(), AllocError>
    ensures { OnOk result (out.new.items ≡ out.old.items
        ++ spec.difference runs.entry.0.now runs.entry.1.now number ends.entry.0.now ends.entry.1.now) }
{
    append_events(runs.0, runs.1, number, out)?;
    append_states_beside(alloc, ends.0, ends.1, task_count(ends.0, ends.1), out)
}
