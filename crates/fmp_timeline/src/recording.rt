//! How a run is recorded, one event after another.
ghost use Rattle.std.specs.Prelude.{◌≡◌, ◌∷◌, ◌++◌, OnOk, [], length};
ghost use Rattle.fmp_timeline.specs.Events as events;
ghost use Rattle.fmp_timeline.specs.Recordings as spec;
ghost use Rattle.fmp_timeline.specs.Tracks.{shown as spec_shown};

use crate::marks::Migration;
use crate::run::{Note, Run, processor_in};
use crate::states::{Handling, Moment, Occupant, TaskShown, handling_of, occupant_of};
use crate::tracks::Track;
use crate::waits::Waits;
use fmp_base::{Handler, Line, Lock, Processor, TaskState};
use std::alloc::{AllocError, Global};

/// What the axis shows of an event.
fn note(moment: &Moment<'_>, end: usize) -> Note
    ensures { result ≡ spec.note_of moment.now end }
{
    let interrupt = match moment.lines.first() {
        Some(Line::Int(place)) => Some(*place),
        _ => None,
    };
    Note {
        clock: moment.clock,
        interrupt,
        ticks: matches!(moment.lines.first(), Some(Line::Tick(_))),
        end,
    }
}

/// Shows the state after an event at a place of these tracks.
#[tactic(auto, using(crate::proofs::Recordings::changed_beyond, crate::proofs::Recordings::changed_by_set))]
fn show_at<S: Copy + PartialEq + Drop>(
    tracks: &mut [Track<S>],
    place: usize,
    event: u32,
    state: S,
) -> Result<(), AllocError>
    ensures { OnOk result (spec.changes_in tracks.new
        ≡ spec.changed_at (spec_shown S.eq event state) (spec.changes_in tracks.old) place) }
{
    if place < tracks.len() {
        tracks[place].show(event, state)
    } else {
        Ok(())
    }
}

/// Shows the states after an event, each in the track at its place.
#[tactic(auto, using(crate::proofs::Recordings::shown_all))]
fn show_all<S: Copy + PartialEq + Drop>(
    tracks: &mut [Track<S>],
    event: u32,
    states: &[S],
) -> Result<(), AllocError>
    ensures { OnOk result (spec.changes_in tracks.new
        ≡ spec.all_shown S.eq event states.now (spec.changes_in tracks.old)) }
{
    for (place, state) in states.iter().enumerate() {
        show_at(tracks, place, event, *state)?;
    }
    Ok(())
}

/// Keeps what is told of the waits that an event ends, or changes.
fn end_waits(
    waits: &mut Waits,
    tasks: &[Track<TaskShown>],
    event: u32,
    moment: &Moment<'_>,
) -> Result<(), AllocError> {
    for task in 0..moment.tasks.len().min(255) as u8 {
        let place = usize::from(task);
        if let Some(track) = tasks.get(place)
            && let Some(last) = track.last()
            && let Some(cause) = last.wait
            && last != moment.tasks[place]
        {
            waits.end(event, task, cause)?;
        }
    }
    Ok(())
}

/// Shows what the processors do, which locks they hold, and whether they dispatch.
fn show_processors(
    occupants: &mut [Track<Occupant>],
    locks: &mut [Track<Lock>],
    dispatches: &mut [Track<bool>],
    event: u32,
    processors: &[Processor],
) -> Result<(), AllocError> {
    for (place, x) in processors.iter().enumerate() {
        show_at(occupants, place, event, occupant_of(x))?;
        show_at(locks, place, event, x.lock)?;
        show_at(dispatches, place, event, !x.dispatch_disabled)?;
    }
    Ok(())
}

fn show_cyclics(
    cyclics: &mut [Track<Handling>],
    event: u32,
    moment: &Moment<'_>,
) -> Result<(), AllocError> {
    for place in 0..moment.pending_cyclics.len().min(255) as u8 {
        let pends = moment.pending_cyclics[usize::from(place)];
        let shown = handling_of(Handler::Cyclic(place), pends, moment.processors);
        show_at(cyclics, usize::from(place), event, shown)?;
    }
    Ok(())
}

fn show_interrupts(
    interrupts: &mut [Track<Handling>],
    event: u32,
    moment: &Moment<'_>,
) -> Result<(), AllocError> {
    for place in 0..moment.pending_interrupts.len().min(32) as u8 {
        let pends = moment.pending_interrupts[usize::from(place)];
        let shown = handling_of(Handler::Interrupt(place), pends, moment.processors);
        show_at(interrupts, usize::from(place), event, shown)?;
    }
    Ok(())
}

fn take_priorities(priorities: &mut [u8], states: &[TaskState]) {
    for (priority, state) in priorities.iter_mut().zip(states) {
        *priority = state.priority;
    }
}

/// Keeps which tasks are assigned to another processor than before.
fn take_migrations(
    migrations: &mut Vec<Migration>,
    tasks: &[Track<TaskShown>],
    event: u32,
    states: &[TaskState],
) -> Result<(), AllocError> {
    for task in 0..states.len().min(255) as u8 {
        let state = &states[usize::from(task)];
        if let Some(from) = processor_in(tasks, task)
            && from != state.processor
        {
            migrations.push(Migration {
                event,
                task,
                from,
                to: state.processor,
            })?;
        }
    }
    Ok(())
}

impl Run {
    /// One moment more: setup, and then each event that did something. `AllocError` if memory runs out.
    pub fn show(&mut self, alloc: Global, moment: &Moment<'_>) -> Result<(), AllocError>
        ensures notes { OnOk result (self.new.notes.items
            ≡ self.old.notes.items ++ spec.note_of moment.now (length self.new.text.items) ∷ []) }
        ensures text { OnOk result (self.new.text.items ≡ self.old.text.items ++ moment.now.text.now) }
        ensures tasks { OnOk result (spec.changes_in self.new.tasks.items
            ≡ spec.all_shown ⟦<TaskShown as PartialEq>⟧.eq (events.next_event self.old) moment.now.tasks.now
            (spec.changes_in self.old.tasks.items)) }
    {
        let event = self.next_event();
        self.take_deeds(event, moment)?;
        self.objects.show(alloc, event, moment)?;
        self.show_lanes(event, moment)?;
        self.text.extend_from_slice(moment.text)?;
        self.notes.push(note(moment, self.text.len()))?;
        Ok(())
    }

    /// What an event did.
    fn take_deeds(&mut self, event: u32, moment: &Moment<'_>) -> Result<(), AllocError>
        ensures notes { self.new.notes ≡ self.old.notes }
        ensures text { self.new.text ≡ self.old.text }
        ensures tasks { self.new.tasks ≡ self.old.tasks }
    {
        end_waits(&mut self.waits, &self.tasks, event, moment)?;
        self.waits.note(event, moment.lines)?;
        self.take_lines(event, moment.lines)?;
        self.take_call(event, moment)?;
        take_migrations(&mut self.migrations, &self.tasks, event, moment.states)?;
        self.spins.show(event, moment)
    }

    /// The states after an event.
    fn show_lanes(&mut self, event: u32, moment: &Moment<'_>) -> Result<(), AllocError>
        ensures notes { self.new.notes ≡ self.old.notes }
        ensures text { self.new.text ≡ self.old.text }
        ensures tasks { OnOk result (spec.changes_in self.new.tasks.items
            ≡ spec.all_shown ⟦<TaskShown as PartialEq>⟧.eq event moment.now.tasks.now
            (spec.changes_in self.old.tasks.items)) }
    {
        take_priorities(&mut self.priorities, moment.states);
        show_all(&mut self.tasks, event, moment.tasks)?;
        show_processors(
            &mut self.occupants,
            &mut self.locks,
            &mut self.dispatches,
            event,
            moment.processors,
        )?;
        show_cyclics(&mut self.cyclics, event, moment)?;
        show_interrupts(&mut self.interrupts, event, moment)
    }

    /// A turn of the processor at this place did nothing, since its actor spins for a spin lock or makes no progress.
    pub fn idle_turn(&mut self, processor: u8) {
        let event = self.next_event().saturating_sub(1);
        if let Some(track) = self.occupants.get(usize::from(processor))
            && let Some(occupant) = track.last()
            && let Some(actor) = occupant.actor()
        {
            self.spins.begin(event, processor, actor);
        }
    }
}
