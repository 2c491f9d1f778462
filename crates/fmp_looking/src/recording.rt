//! A run as its picture has it, recorded frame by frame.
ghost use Rattle.std.specs.Prelude.{◌≡◌, ◌-◌, ◌<◌, IfOk, None, OnOk, get_or};
ghost use Rattle.fmp_timeline.specs.Shown as spec;

use crate::run_positions::position_of;
use fmp_base::{Line, System};
use fmp_frames::{CallPosition, Frame, IdleTurn, Viewer};
use fmp_timeline::{Moment, Run, TaskShown, tasks_shown};
use fmp_trace::print;
use std::alloc::{AllocError, Global};

/// What is recorded of a run beside its frames.
#[derive(Clone, Copy)]
pub struct Beside<'a> {
    /// Whether the histories of objects are recorded.
    pub objects: bool,
    /// All turns that do nothing, in order.
    pub turns: &'a [IdleTurn],
    /// Where the calls of the events stand, from the first event on; none are known after the last one here.
    pub positions: &'a [Option<CallPosition>],
}

/// A run so far.
#[derive(Drop)]
pub struct Recorder<'a> {
    sys: &'a System,
    beside: Beside<'a>,
    /// How many of them are recorded.
    taken: usize,
    run: Run,
    /// What the lanes show of the tasks after the last event.
    pub shown: Vec<TaskShown>,
}

/// Where the call of the event of this number stands; setup, which has number 0, makes none.
fn position_at(positions: &[Option<CallPosition>], event: u32) -> Option<CallPosition>
    ensures setup { event ≡ 0 → result ≡ None }
    ensures event { 0 < event → result ≡ get_or positions.now (event - 1) None }
{
    if event == 0 {
        return None;
    }
    position_of(positions, event)
}

/// A text with this after its first line.
fn after_first_line(alloc: Global, text: &[u8], more: &[u8]) -> Result<Vec<u8>, AllocError> {
    let end = text
        .iter()
        .position(|byte| *byte == b'\n')
        .unwrap_or(text.len());
    let mut out = Vec::from_slice(alloc, text.get(..end).unwrap_or(&[]))?;
    out.extend_from_slice(more)?;
    out.extend_from_slice(text.get(end..).unwrap_or(&[]))?;
    Ok(out)
}

/// The text of these lines of an event, with where its call stands after the first of them, if it tells a call and
/// that is known.
fn with_position(
    alloc: Global,
    lines: &[Line],
    position: Option<CallPosition>,
    text: Vec<u8>,
) -> Result<Vec<u8>, AllocError> {
    match (lines.first(), position) {
        (Some(Line::Call { .. }), Some(CallPosition { line, column })) => {
            let more = format!(in alloc; " at {line}:{column}")?;
            after_first_line(alloc, &text, more.as_bytes())
        }
        _ => Ok(text),
    }
}

impl<'a> Recorder<'a> {
    /// A run of a system after setup, with this beside its frames. `AllocError` if memory runs out.
    pub fn new(
        alloc: Global,
        sys: &'a System,
        beside: Beside<'a>,
        setup: &Frame,
    ) -> Result<Recorder<'a>, AllocError>
        ensures { IfOk result (λ made. made.shown.items
            ≡ spec.tasks_shown setup.now.states.items setup.now.blocks.items setup.now.processors.items) }
    {
        let mut recorder = Recorder {
            sys,
            beside,
            taken: 0,
            run: Run::new(alloc, sys, beside.objects)?,
            shown: Vec::new(alloc),
        };
        recorder.record(alloc, setup)?;
        Ok(recorder)
    }

    /// Records the turns that do nothing before the next event.
    fn take_turns(&mut self) {
        let next = self.run.next_event();
        for turn in self.beside.turns.get(self.taken..).unwrap_or(&[]) {
            if turn.event >= next {
                break;
            }
            self.run.idle_turn(turn.processor);
            self.taken = self.taken.saturating_add(1);
        }
    }

    /// Notes the processors whose actors spin after the last event.
    fn take_spins(&mut self, frame: &Frame) {
        for place in 0..frame.spins.len().min(255) as u8 {
            if let Some(Some(_)) = frame.spins.get(usize::from(place)) {
                self.run.idle_turn(place);
            }
        }
    }

    /// One frame more.
    fn record(&mut self, alloc: Global, frame: &Frame) -> Result<(), AllocError>
        ensures { OnOk result (self.new.shown.items
            ≡ spec.tasks_shown frame.now.states.items frame.now.blocks.items frame.now.processors.items) }
    {
        self.take_turns();
        let event = self.run.next_event();
        let mut text = Vec::new(alloc);
        print(self.sys, event, &frame.lines, &mut text)?;
        let position = position_at(self.beside.positions, event);
        let text = with_position(alloc, &frame.lines, position, text)?;
        let shown = tasks_shown(alloc, &frame.states, &frame.blocks, &frame.processors)?;
        self.run.show(
            alloc,
            &Moment {
                lines: &frame.lines,
                text: &text,
                clock: frame.clock,
                tasks: &shown,
                states: &frame.states,
                blocks: &frame.blocks,
                processors: &frame.processors,
                semaphores: &frame.semaphores,
                flags: &frame.flags,
                shared_words: &frame.shared_words,
                pending_cyclics: &frame.pending_cyclics,
                pending_interrupts: &frame.pending_interrupts,
            },
        )?;
        self.take_spins(frame);
        self.shown = shown;
        Ok(())
    }

    /// A stretch that reached its bound on this processor, and kept its place: the lanes show the tasks as they did,
    /// and that of its actor has a mark.
    fn record_kept(&mut self, alloc: Global, frame: &Frame, processor: u8) -> Result<(), AllocError>
        ensures { OnOk result (self.new.shown.items
            ≡ spec.tasks_shown frame.now.states.items frame.now.blocks.items frame.now.processors.items) }
    {
        self.take_turns();
        let shown = tasks_shown(alloc, &frame.states, &frame.blocks, &frame.processors)?;
        self.run.keep_place(processor)?;
        self.take_spins(frame);
        self.shown = shown;
        Ok(())
    }

    /// The whole run.
    pub fn finish(mut self) -> Run {
        self.take_turns();
        self.run
    }
}

impl Viewer for Recorder<'_> {
    ghost shown = { λ x f y. y.shown.items ≡ spec.tasks_shown f.states f.blocks f.processors };

    /// One event more: what the lanes show of the tasks is what the frame says of them.
    fn show(&mut self, alloc: Global, frame: &Frame) -> Result<(), AllocError> {
        match frame.kept {
            Some(processor) => self.record_kept(alloc, frame, processor),
            None => self.record(alloc, frame),
        }
    }
}
