//! A run in the Trace Event Format, as JSON.
ghost use Rattle.std.specs.Prelude.{◌≡◌, ◌+◌, ◌++◌, IfOk, OnOk, Some, codes, decimal, take, true};
ghost use Rattle.fmp_base.specs.Systems.{tables_of};
ghost use Rattle.fmp_slices.specs.Clocks.{time_at};
ghost use Rattle.fmp_slices.specs.Tracks as lanes;
ghost use Rattle.fmp_slices.specs.Traces as spec;

use crate::clock::Clock;
use crate::entries::{append_instant, append_slice, append_title};
use crate::flows::append_links;
use crate::labels::{append_actor, append_body, append_state};
use crate::lanes::{EVENTS, INTERRUPTS, Lane, PROCESSORS, TASKS, TICKS, processor_lane, task_lane};
use fmp_base::{Handler, Name, System};
use fmp_json::{append, append_number};
use fmp_timeline::{Note, Occupant, Run, Stay, TaskShown, Track};
use std::alloc::{AllocError, Global};

/// The name of a group of tracks, after no comma.
const HEAD: &[u8] =
    b"[{\"ph\":\"M\",\"pid\":1,\"tid\":0,\"name\":\"process_name\",\"args\":{\"name\":\"processors\"}}\n";

/// What the slices of a run are made from.
#[derive(Clone, Copy)]
struct SliceSource<'a> {
    alloc: Global,
    sys: &'a System,
    bodies: &'a [Name],
    run: &'a Run,
    clock: &'a Clock,
}

/// Words and a number after them, from 1.
fn numbered(alloc: Global, words: &[u8], place: u8) -> Result<Vec<u8>, AllocError>
    ensures { IfOk result (λ text. text.items ≡ words.now ++ decimal (place + 1)) }
{
    let mut text = Vec::from_slice(alloc, words)?;
    append_number(u64::from(place) + 1, &mut text)?;
    Ok(text)
}

/// Appends the name of the first group.
fn append_head(out: &mut Vec<u8>) -> Result<(), AllocError>
    ensures { OnOk result (out.new.items ≡ out.old.items ++ spec.head_text) }
{
    append(HEAD, out)
}

impl SliceSource<'_> {
    /// When a state begins and ends: that of the end of the run lasts a microsecond after the last event.
    fn span<S>(self, stay: &Stay<S>) -> (u64, u64)
        ensures from { result.0 ≡ time_at (spec.source_of self.entry).times stay.now.from }
        ensures to { result.1 ≡ spec.ends_at (spec.source_of self.entry) stay.now.to }
    {
        let from = self.clock.at(stay.from);
        let to = match stay.to {
            Some(event) => self.clock.at(event),
            None => {
                let last = self.run.next_event().saturating_sub(1);
                self.clock.at(last).saturating_add(1)
            }
        };
        (from, to)
    }

    /// The names of the groups but the first, and of all tracks.
    fn append_titles(self, out: &mut Vec<u8>) -> Result<(), AllocError>
        ensures { OnOk result (out.new.items
            ≡ out.old.items ++ spec.titles_text (tables_of self.entry.sys.now)) }
    {
        self.append_group(TASKS, b"tasks", out)?;
        self.append_group(EVENTS, b"events", out)?;
        self.append_track(TICKS, b"ticks", out)?;
        self.append_track(INTERRUPTS, b"interrupts", out)?;
        self.append_processor_titles(out)?;
        self.append_task_titles(out)
    }

    fn append_processor_titles(self, out: &mut Vec<u8>) -> Result<(), AllocError>
        ensures { OnOk result (out.new.items
            ≡ out.old.items ++ spec.processor_titles self.entry.sys.now.processors) }
    {
        for place in 0..self.sys.processors {
            self.append_processor_title(place, out)?;
        }
        Ok(())
    }

    fn append_processor_title(self, place: u8, out: &mut Vec<u8>) -> Result<(), AllocError>
        ensures { OnOk result (out.new.items ≡ out.old.items
            ++ spec.track_title (lanes.processor_lane place) (codes "processor " ++ decimal (place + 1))) }
    {
        let name = numbered(self.alloc, b"processor ", place)?;
        self.append_track(processor_lane(place), &name, out)
    }

    fn append_task_titles(self, out: &mut Vec<u8>) -> Result<(), AllocError>
        ensures { OnOk result (out.new.items ≡ out.old.items
            ++ spec.texts_from spec.task_title 0 (take 255 (tables_of self.entry.sys.now).tasks)) }
    {
        for place in 0..self.sys.tasks.len().min(255) as u8 {
            let name = self.sys.tasks[usize::from(place)].name;
            self.append_track(task_lane(place), name.as_bytes(), out)?;
        }
        Ok(())
    }

    fn append_group(self, group: u64, name: &[u8], out: &mut Vec<u8>) -> Result<(), AllocError>
        ensures { OnOk result (out.new.items ≡ out.old.items ++ spec.group_title group name.now) }
    {
        let lane = Lane { group, number: 0 };
        append_title(self.alloc, lane, "process_name", name, out)
    }

    fn append_track(self, lane: Lane, name: &[u8], out: &mut Vec<u8>) -> Result<(), AllocError>
        ensures { OnOk result (out.new.items ≡ out.old.items ++ spec.track_title lane name.now) }
    {
        append_title(self.alloc, lane, "thread_name", name, out)
    }

    /// The slice of a task or handler on a processor; none while the processor is idle.
    fn append_turn(
        self,
        lane: Lane,
        stay: &Stay<Occupant>,
        out: &mut Vec<u8>,
    ) -> Result<(), AllocError>
        ensures { OnOk result (out.new.items
            ≡ out.old.items ++ spec.turn_text (spec.source_of self.entry) lane stay.now) }
    {
        let Some(actor) = stay.state.actor() else {
            return Ok(());
        };
        let mut name = Vec::new(self.alloc);
        append_actor(self.sys, self.bodies, actor, &mut name)?;
        append_slice(self.alloc, lane, self.span(stay), &name, out)
    }

    /// The slices of a processor, in order of time.
    fn append_processor(
        self,
        place: u8,
        track: &Track<Occupant>,
        out: &mut Vec<u8>,
    ) -> Result<(), AllocError>
        ensures { OnOk result (out.new.items
            ≡ out.old.items ++ spec.turns_text (spec.source_of self.entry) place track.now) }
    {
        for number in 0..track.len() {
            let Some(stay) = track.stay(number) else {
                return Ok(());
            };
            self.append_turn(processor_lane(place), &stay, out)?;
        }
        Ok(())
    }

    /// The slice of a state of a task.
    fn append_stay(
        self,
        lane: Lane,
        stay: &Stay<TaskShown>,
        out: &mut Vec<u8>,
    ) -> Result<(), AllocError>
        ensures { OnOk result (out.new.items
            ≡ out.old.items ++ spec.task_text (spec.source_of self.entry) lane stay.now) }
    {
        let mut name = Vec::new(self.alloc);
        append_state(self.sys, self.bodies, stay.state, &mut name)?;
        append_slice(self.alloc, lane, self.span(stay), &name, out)
    }

    /// The slices of a task, in order of time.
    fn append_task(
        self,
        place: u8,
        track: &Track<TaskShown>,
        out: &mut Vec<u8>,
    ) -> Result<(), AllocError>
        ensures { OnOk result (out.new.items
            ≡ out.old.items ++ spec.states_text (spec.source_of self.entry) place track.now) }
    {
        for number in 0..track.len() {
            let Some(stay) = track.stay(number) else {
                return Ok(());
            };
            self.append_stay(task_lane(place), &stay, out)?;
        }
        Ok(())
    }

    /// The slices of all processors, and of all tasks.
    fn append_slices(self, out: &mut Vec<u8>) -> Result<(), AllocError>
        ensures { OnOk result (out.new.items ≡ out.old.items ++ spec.slices_text (spec.source_of self.entry)) }
    {
        self.append_processors(out)?;
        self.append_tasks(out)
    }

    fn append_processors(self, out: &mut Vec<u8>) -> Result<(), AllocError>
        ensures { OnOk result (out.new.items ≡ out.old.items
            ++ spec.texts_from (spec.turns_text (spec.source_of self.entry)) 0
            (take 255 self.entry.run.now.occupants.items)) }
    {
        for place in 0..self.run.occupants.len().min(255) as u8 {
            self.append_processor(place, &self.run.occupants[usize::from(place)], out)?;
        }
        Ok(())
    }

    fn append_tasks(self, out: &mut Vec<u8>) -> Result<(), AllocError>
        ensures { OnOk result (out.new.items ≡ out.old.items
            ++ spec.texts_from (spec.states_text (spec.source_of self.entry)) 0
            (take 255 self.entry.run.now.tasks.items)) }
    {
        for place in 0..self.run.tasks.len().min(255) as u8 {
            self.append_task(place, &self.run.tasks[usize::from(place)], out)?;
        }
        Ok(())
    }

    fn append_tick(self, time: u64, clock: u32, out: &mut Vec<u8>) -> Result<(), AllocError>
        ensures { OnOk result (out.new.items ≡ out.old.items ++ spec.tick_text true time clock) }
    {
        let mut name = Vec::from_slice(self.alloc, b"tick ")?;
        append_number(u64::from(clock), &mut name)?;
        append_instant(self.alloc, TICKS, time, &name, out)
    }

    fn append_interrupt(self, time: u64, place: u8, out: &mut Vec<u8>) -> Result<(), AllocError>
        ensures { OnOk result (out.new.items
            ≡ out.old.items ++ spec.interrupt_text (spec.source_of self.entry) time (Some place)) }
    {
        let mut name = Vec::new(self.alloc);
        append_body(self.sys, self.bodies, Handler::Interrupt(place), &mut name)?;
        append_instant(self.alloc, INTERRUPTS, time, &name, out)
    }

    /// The tick or the interrupt of an event, if it is one.
    fn append_note(self, event: u32, note: &Note, out: &mut Vec<u8>) -> Result<(), AllocError>
        ensures { OnOk result (out.new.items
            ≡ out.old.items ++ spec.note_text (spec.source_of self.entry) event note.now) }
    {
        let time = self.clock.at(event);
        if note.ticks {
            self.append_tick(time, note.clock, out)?;
        }
        match note.interrupt {
            Some(place) => self.append_interrupt(time, place, out),
            None => Ok(()),
        }
    }

    fn append_notes(self, out: &mut Vec<u8>) -> Result<(), AllocError>
        ensures { OnOk result (out.new.items ≡ out.old.items ++ spec.notes_text (spec.source_of self.entry)) }
    {
        let mut event = 0u32;
        for note in &self.run.notes {
            self.append_note(event, note, out)?;
            event = event.saturating_add(1);
        }
        Ok(())
    }

    fn append_all(self, out: &mut Vec<u8>) -> Result<(), AllocError>
        ensures { OnOk result (out.new.items ≡ out.old.items ++ spec.trace_text (spec.source_of self.entry)) }
    {
        append_head(out)?;
        self.append_titles(out)?;
        self.append_slices(out)?;
        self.append_notes(out)?;
        append_links(self.alloc, self.sys, self.clock, &self.run.links, out)?;
        append(b"]\n", out)
    }
}

/// A run of a system in the Trace Event Format: an array of objects of JSON, a line each. First come the names of the
/// tracks, then the slices of each processor and of each task, each track's in order of time, then ticks and
/// interrupts, and at last the arrows. The names of the bodies are those of an image, in order of number; where they
/// are missing, `append_body` says what stands for them. `AllocError` if memory runs out.
pub fn trace_events(
    alloc: Global,
    sys: &System,
    bodies: &[Name],
    run: &Run,
    clock: &Clock,
) -> Result<Vec<u8>, AllocError>
    ensures { IfOk result (λ trace. trace.items ≡ spec.trace_text (record {
      sys = tables_of sys.now;
      bodies = bodies.now;
      run = run.now;
      times = clock.now.times.items;
    })) }
{
    let source = SliceSource {
        alloc,
        sys,
        bodies,
        run,
        clock,
    };
    let mut out = Vec::new(alloc);
    source.append_all(&mut out)?;
    Ok(out)
}
