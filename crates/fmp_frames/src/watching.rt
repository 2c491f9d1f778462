//! Why nothing goes on in a run: what its tasks wait and spin for at the end.
ghost use Rattle.std.specs.Prelude.{◌≡◌, ◌+◌, ◌<◌, ◌≤◌, ◌^◌, [], IfOk, OnOk, length, map, min, take};
ghost use Rattle.fmp_base.specs.Systems.{tables_of};
ghost use Rattle.fmp_frames.specs.Frames.{table_of};
ghost use Rattle.fmp_frames.specs.Shown.{WasShown, frame_now, number_after};
ghost use Rattle.fmp_kernel.specs.Comings.{view_after_each};
ghost use Rattle.fmp_frames.specs.Watches as spec;
ghost use Rattle.fmp_frames.specs.Watches.{IsSeen, IsSeenFurther, IsWhy, LeadUp, after_first, told_of_run};
ghost use Rattle.fmp_why.specs.Histories.{told_with};
ghost use Rattle.fmp_why.specs.HistoryTables.{IsTold, tables};
ghost use Rattle.fmp_why.specs.Reports.{report};

use crate::frame::{Frame, last_frame};
use crate::showing::{Viewer, show_all};
use fmp_base::{Processor, System, TaskBlock};
use fmp_drive::{NextRun, next_runs};
use fmp_kernel::{Body, Coming, Kernel};
use fmp_why::{History, Scene, SpinWait, append_report};
use std::alloc::{AllocError, Global};

/// What was seen of a run: what its lines told, and the tasks and the processors after its last event.
#[derive(Drop)]
pub struct RunWatcher {
    history: History,
    /// The number of the last event.
    number: u32,
    /// The tasks.
    pub blocks: Vec<TaskBlock>,
    /// The processors.
    pub processors: Vec<Processor>,
    /// What the actor of each processor spins for.
    pub spins: Vec<Option<SpinWait>>,
}

impl RunWatcher {
    /// What is seen of a system after setup. `AllocError` if memory runs out.
    fn new(alloc: Global, sys: &System, setup: &Frame) -> Result<RunWatcher, AllocError>
        ensures seen { IfOk result (λ made. IsSeen made (table_of setup.now)) }
        ensures number { IfOk result (λ made. made.number ≡ 0) }
        ensures told { IfOk result (λ made.
            IsTold (tables_of sys.now) (told_with setup.now.lines.items 0 []) (tables made.history)) }
    {
        let mut history = History::new(alloc, sys)?;
        history.note(&setup.lines, 0);
        Ok(RunWatcher {
            history,
            number: 0,
            blocks: Vec::from_slice(alloc, &setup.blocks)?,
            processors: Vec::from_slice(alloc, &setup.processors)?,
            spins: Vec::from_slice(alloc, &setup.spins)?,
        })
    }

    /// The number of the event of a frame, which is the next one unless it kept a place.
    fn number_of(&self, frame: &Frame) -> u32
        ensures { self.now.number + 1 < 2 ^ 32 → result ≡ number_after self.now.number frame.now.kept }
    {
        match frame.kept {
            Some(_) => self.number,
            None => self.number.saturating_add(1),
        }
    }
}

impl Viewer for RunWatcher {
    ghost shown = { λ x f y. IsSeenFurther x f y };

    /// One event more: its lines are told, and the tasks, the processors and what is spun for are those of the frame.
    fn show(&mut self, alloc: Global, frame: &Frame) -> Result<(), AllocError> {
        self.number = self.number_of(frame);
        self.history.note(&frame.lines, self.number);
        self.blocks = Vec::from_slice(alloc, &frame.blocks)?;
        self.processors = Vec::from_slice(alloc, &frame.processors)?;
        self.spins = Vec::from_slice(alloc, &frame.spins)?;
        Ok(())
    }
}

/// What is seen of a run of a kernel of this system: of all that comes to it. `AllocError` if memory runs out.
#[tactic(none)]
pub fn watched<B: Body, T: Coming<B>>(
    alloc: Global,
    sys: &System,
    kernel: &mut Kernel<B>,
    events: &[T],
) -> Result<RunWatcher, AllocError>
    requires few { kernel.old.taken + length events.now ≤ 2 ^ 31 }
    ensures shown { IfOk result (λ watcher. WasShown (λ x f. IsSeen x f)
        ⟦<RunWatcher as Viewer>⟧.shown B.meaning T.reaction kernel.old events.now watcher) }
    ensures after { OnOk result (kernel.new ≡ view_after_each T.reaction kernel.old events.now) }
    ensures seen { IfOk result (λ watcher.
        IsSeen watcher (frame_now B.meaning (view_after_each T.reaction kernel.old events.now))) }
    ensures told { IfOk result (λ watcher. IsTold (tables_of sys.now)
        (told_of_run B.meaning T.reaction kernel.old events.now) (tables watcher.history)) }
{
    let setup = last_frame(alloc, kernel)?;
    let mut watcher = RunWatcher::new(alloc, sys, &setup)?;
    show_all(alloc, kernel, events, &mut watcher)?;
    Ok(watcher)
}

/// Whether a next run reaches the bound.
fn is_over(run: NextRun) -> bool
    ensures { result ≡ spec.is_over run }
{
    matches!(run, NextRun::OverBound)
}

/// Whether each of these next runs reaches the bound.
fn are_over(alloc: Global, runs: &[NextRun]) -> Result<Vec<bool>, AllocError>
    ensures { IfOk result (λ over. over.items ≡ map spec.is_over runs.now) }
{
    let mut over = Vec::new(alloc);
    for run in runs {
        over.push(is_over(*run))?;
    }
    Ok(over)
}

/// Whether the next stretch of each of this many processors reaches the bound.
fn over_bound(
    alloc: Global,
    next: &[NextRun; 8],
    processors: usize,
) -> Result<Vec<bool>, AllocError>
    requires { length next.now ≡ 8 }
    ensures { IfOk result (λ over. over.items ≡ map spec.is_over (take (min processors 8) next.now)) }
{
    are_over(alloc, &next[..processors.min(8)])
}

/// What is said of what was seen, where the next runs of the processors end so.
fn report_of(
    alloc: Global,
    sys: &System,
    watcher: &RunWatcher,
    next: &[NextRun; 8],
) -> Result<Vec<u8>, AllocError>
    requires { length next.now ≡ 8 }
    ensures { IfOk result (λ out. out.items ≡ report (spec.sight_seen (tables_of sys.now) watcher.now next.now)) }
{
    let over = over_bound(alloc, next, watcher.processors.len())?;
    let scene = Scene {
        sys,
        history: &watcher.history,
        blocks: &watcher.blocks,
        processors: &watcher.processors,
        spins: &watcher.spins,
        over: &over,
    };
    let mut out = Vec::new(alloc);
    append_report(alloc, &scene, &mut out)?;
    Ok(out)
}

/// Why nothing goes on after what came to a kernel of this system: what each task waits or spins for, and how they
/// stand. Of bodies that run elsewhere the next call is not known, so none of them spins. `AllocError` if memory runs
/// out.
#[tactic(none)]
pub fn why<B: Body, T: Coming<B>>(
    alloc: Global,
    sys: &System,
    kernel: &mut Kernel<B>,
    events: &[T],
) -> Result<Vec<u8>, AllocError>
    requires few { kernel.old.taken + length events.now ≤ 2 ^ 31 }
    ensures { IfOk result (λ text.
        IsWhy (tables_of sys.now) B.meaning T.reaction kernel.old events.now text.items) }
{
    let watcher = watched(alloc, sys, kernel, events)?;
    let next = next_runs(kernel);
    report_of(alloc, sys, &watcher, &next)
}

/// How much of what comes to a kernel it takes up to the event of this number: as few as there can be for that event to
/// be done, or all of them if it is not done with them.
pub fn count_up_to<B: Body, T: Coming<B>>(
    kernel: &mut Kernel<B>,
    events: &[T],
    number: u32,
) -> usize
    requires { kernel.old.taken + length events.now ≤ 2 ^ 31 }
    ensures few { result ≤ length events.now }
    ensures count { LeadUp T.reaction kernel.old events.now number result }
    ensures after { kernel.new ≡ after_first T.reaction kernel.old events.now result }
{
    let mut place = 0;
    for e in events {
        if kernel.done() >= number {
            return place;
        }
        e.take(kernel);
        place += 1;
    }
    place
}
