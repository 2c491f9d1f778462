//! The picture of a run.
ghost use Rattle.std.specs.Prelude.{◌≡◌, ◌+◌, ◌≤◌, ◌^◌, IfOk, length};
ghost use Rattle.fmp_timeline.specs.Shown.{tasks_shown};
ghost use Rattle.fmp_frames.specs.Shown.{WasShown};

use crate::exit::{ViewExit, exit_of, memory};
use crate::looking::{RunLook, known_of};
use crate::opened::Opened;
use crate::recording::{Beside, Recorder};
use fmp_base::System;
use fmp_drawing::{DrawFault, MOST_BYTES, draw_timed};
use fmp_engine::SimFault;
use fmp_frames::{CallPosition, IdleTurn, Viewer, idle_turns, last_frame, show_all};
use fmp_kernel::{Body, Coming, Kernel};
use fmp_slices::page_of;
use fmp_timeline::{Choice, PicturePage, Run};
use std::alloc::{AllocError, Global};
use thiserror::Error;

/// Why there is no picture.
#[derive(Clone, Copy, Debug, Error)]
pub enum TimelineFault {
    /// There is no run.
    #[error("{0}")]
    Sim(SimFault),
    /// The run ends before the first event that is asked for, with this one.
    #[error("the run has no event so late: its last is {0}")]
    NoEvent(u32),
    /// The picture would be too large: half of its events are these.
    #[error("the picture would have more than {max} bytes; draw a part, as --from {0} --to {1}", max = MOST_BYTES)]
    TooLarge(u32, u32),
}

/// What is drawn of a run.
#[derive(Clone, Copy)]
pub struct Drawing {
    /// The events.
    pub choice: Choice,
    /// Whether the objects have lanes too.
    pub objects: bool,
    /// Whether the picture stands in a page.
    pub html: bool,
}

/// Which events of those that are asked for a picture has, where it has not all of them.
#[derive(Clone, Copy)]
pub struct PictureCut {
    pub first: u32,
    pub last: u32,
    /// The last event that was asked for, and that the run has.
    pub end: u32,
}

/// A picture, and whether it was cut.
#[derive(Drop)]
pub struct Picture {
    pub bytes: Vec<u8>,
    pub cut: Option<PictureCut>,
}

/// Whether a page has not all events that are asked for, of a run whose last event is this.
fn cut_of(page: &PicturePage, drawing: Drawing, last: u32) -> Option<PictureCut> {
    let end = drawing.choice.last.min(last);
    if page.last >= end {
        return None;
    }
    Some(PictureCut {
        first: page.first,
        last: page.last,
        end,
    })
}

/// What is recorded of a run of a kernel of this system over what comes to it.
#[tactic(none)]
fn recorded<'a, B: Body, T: Coming<B>>(
    alloc: Global,
    sys: &'a System,
    kernel: &mut Kernel<B>,
    events: &[T],
    beside: Beside<'a>,
) -> Result<Recorder<'a>, AllocError>
    requires few { kernel.old.taken + length events.now ≤ 2 ^ 31 }
    ensures { IfOk result (λ recorder. WasShown
        (λ x f. x.shown.items ≡ tasks_shown f.states f.blocks f.processors)
        ⟦<Recorder<'a> as Viewer>⟧.shown B.meaning T.reaction kernel.old events.now recorder) }
{
    let setup = last_frame(alloc, kernel)?;
    let mut recorder = Recorder::new(alloc, sys, beside, &setup)?;
    drop(setup);
    show_all(alloc, kernel, events, &mut recorder)?;
    Ok(recorder)
}

/// A run of a kernel of this system over what comes to it.
#[tactic(none)]
fn run_on<B: Body, T: Coming<B>>(
    alloc: Global,
    sys: &System,
    kernel: &mut Kernel<B>,
    events: &[T],
    beside: Beside<'_>,
) -> Result<Run, AllocError>
    requires few { kernel.old.taken + length events.now ≤ 2 ^ 31 }
{
    let recorder = recorded(alloc, sys, kernel, events, beside)?;
    Ok(recorder.finish())
}

/// The turns that do nothing among what comes to a system.
#[tactic(none)]
fn turns_of<O: Opened, T: Coming<O::Bodies>>(
    alloc: Global,
    opened: &O,
    events: &[T],
) -> Result<Vec<IdleTurn>, AllocError>
    requires { length events.now ≤ 2 ^ 31 }
{
    let mut kernel = opened.kernel(alloc)?;
    let turns = idle_turns(alloc, &mut kernel, events);
    drop(kernel);
    turns
}

/// A run of a system, with this beside its frames.
#[tactic(none)]
fn run_with<O: Opened, T: Coming<O::Bodies>>(
    alloc: Global,
    opened: &O,
    events: &[T],
    beside: Beside<'_>,
) -> Result<Run, AllocError>
    requires { length events.now ≤ 2 ^ 31 }
{
    let mut kernel = opened.kernel(alloc)?;
    let run = run_on(alloc, opened.system(), &mut kernel, events, beside);
    drop(kernel);
    run
}

/// A run of a system, with its objects or without. The calls of its events stand at these positions, from the first
/// event on, as far as they are known.
pub fn run_of<O: Opened, T: Coming<O::Bodies>>(
    alloc: Global,
    opened: &O,
    events: &[T],
    objects: bool,
    positions: &[Option<CallPosition>],
) -> Result<Run, AllocError>
    requires { length events.now ≤ 2 ^ 31 }
{
    let turns = turns_of(alloc, opened, events)?;
    let beside = Beside {
        objects,
        turns: &turns,
        positions,
    };
    run_with(alloc, opened, events, beside)
}

/// These times, if they are those of a run's events.
fn times_for<'a>(run: &Run, times: &'a [u64]) -> &'a [u64] {
    if times.len() == run.next_event() as usize {
        times
    } else {
        &[]
    }
}

/// A run to draw: its system, and the title of its picture.
#[derive(Clone, Copy)]
struct DrawnRun<'a> {
    sys: &'a System,
    run: &'a Run,
    title: &'a [u8],
}

/// A picture as it is asked for: alone, or in a page of its run.
fn framed(
    alloc: Global,
    drawn: DrawnRun<'_>,
    page: PicturePage,
    html: bool,
    picture: Vec<u8>,
) -> Result<Vec<u8>, AllocError> {
    if html {
        page_of(alloc, drawn.sys, drawn.run, drawn.title, page, &picture)
    } else {
        Ok(picture)
    }
}

/// A picture as it is asked for, which has this page of the events.
fn finished(
    alloc: Global,
    drawn: DrawnRun<'_>,
    drawing: Drawing,
    page: PicturePage,
    picture: Vec<u8>,
) -> Result<Picture, TimelineFault> {
    let cut = cut_of(&page, drawing, drawn.run.next_event().saturating_sub(1));
    match framed(alloc, drawn, page, drawing.html, picture) {
        Ok(bytes) => Ok(Picture { bytes, cut }),
        Err(_) => Err(TimelineFault::Sim(SimFault::Memory)),
    }
}

/// Why a page of events is not drawn.
fn fault_of(fault: DrawFault, page: &PicturePage) -> TimelineFault {
    match fault {
        DrawFault::Memory(_) => TimelineFault::Sim(SimFault::Memory),
        DrawFault::TooLarge => {
            let half = page.last.saturating_sub(page.first) / 2;
            TimelineFault::TooLarge(page.first, page.first.saturating_add(half))
        }
    }
}

/// The picture that is asked for of a run, whose events came at these times if these are known.
fn picture_of(
    alloc: Global,
    drawn: DrawnRun<'_>,
    drawing: Drawing,
    times: &[u64],
) -> Result<Picture, TimelineFault> {
    let DrawnRun { sys, run, title } = drawn;
    let last = run.next_event().saturating_sub(1);
    if drawing.choice.first > last {
        return Err(TimelineFault::NoEvent(last));
    }
    let page = PicturePage::new(sys, run, drawing.choice);
    let times = times_for(run, times);
    match draw_timed(alloc, sys, run, title, page, times) {
        Ok(picture) => finished(alloc, drawn, drawing, page, picture),
        Err(fault) => Err(fault_of(fault, &page)),
    }
}

/// What is drawn of a run, and the title of the picture.
#[derive(Clone, Copy)]
pub struct Titled<'a> {
    pub title: &'a [u8],
    pub drawing: Drawing,
    /// Where the calls of the events stand, from the first event on, as far as they are known.
    pub positions: &'a [Option<CallPosition>],
}

impl RunLook for Titled<'_> {
    type Made = Picture;

    fn of<O: Opened, T: Coming<O::Bodies>>(
        &self,
        alloc: Global,
        opened: &O,
        events: &[T],
        times: &[Option<u64>],
    ) -> Result<Picture, ViewExit> {
        let times = known_of(alloc, times)?;
        match run_of(alloc, opened, events, self.drawing.objects, self.positions) {
            Ok(run) => {
                let drawn = DrawnRun {
                    sys: opened.system(),
                    run: &run,
                    title: self.title,
                };
                let picture = picture_of(alloc, drawn, self.drawing, &times);
                drop(run);
                picture.map_err(|fault| exit_of(fault))
            }
            Err(error) => Err(memory(error)),
        }
    }
}
