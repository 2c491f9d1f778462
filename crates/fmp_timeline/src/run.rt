//! A run as it is drawn: the states of its lanes over its events, and what its events did.
ghost use Rattle.std.specs.Prelude.{◌≡◌, option_map, slice_get};
ghost use Rattle.fmp_timeline.specs.Events as events;

use crate::marks::{
    ActorLink, Bond, CallMade, EventMark, Migration, Sign, actor_of, bond_of, ends_wait, line_link,
    line_sign, moves, task_named,
};
use crate::objects::ObjectHistories;
use crate::page::PanelSpan;
use crate::spins::Spins;
use crate::states::{Handling, Moment, Occupant, TaskShown};
use crate::tracks::Track;
use crate::waits::Waits;
use fmp_base::{Call, Caller, Er, Handler, Line, Lock, System};
use std::alloc::{AllocError, Global};

/// Numbers of tasks, of cyclic handlers and of interrupts end here.
const PLACES: usize = 256;

/// An event: what its axis shows, and where its lines end in the text.
#[derive(Clone, Copy)]
pub struct Note {
    /// The clock after it.
    pub clock: u32,
    /// The place of the interrupt that it requested.
    pub interrupt: Option<u8>,
    /// Whether the clock went on.
    pub ticks: bool,
    /// Where its lines end.
    pub end: usize,
}

/// What a task or a handler did, and what came to it.
#[derive(Drop)]
pub struct Deeds {
    pub marks: Vec<EventMark>,
    pub calls: Vec<CallMade>,
}

/// A run so far: what each event did, and the states between them.
#[derive(Drop)]
pub struct Run {
    pub notes: Vec<Note>,
    pub text: Vec<u8>,
    pub tasks: Vec<Track<TaskShown>>,
    pub occupants: Vec<Track<Occupant>>,
    pub locks: Vec<Track<Lock>>,
    pub dispatches: Vec<Track<bool>>,
    pub cyclics: Vec<Track<Handling>>,
    pub interrupts: Vec<Track<Handling>>,
    /// The priorities of the tasks after the last event.
    pub priorities: Vec<u8>,
    /// Of tasks, cyclic handlers and interrupts, by `place_of`.
    pub deeds: Vec<Deeds>,
    pub links: Vec<ActorLink>,
    pub migrations: Vec<Migration>,
    pub spins: Spins,
    pub objects: ObjectHistories,
    pub waits: Waits,
    /// The events at which a call was refused or a body at fault.
    pub wrong: Vec<u32>,
}

/// The place of a task or handler among all.
fn place_of(caller: Caller) -> usize
    ensures { result ≡ events.place_of caller }
{
    match caller {
        Caller::Task(task) => usize::from(task),
        Caller::Handler(Handler::Cyclic(cyclic)) => PLACES + usize::from(cyclic),
        Caller::Handler(Handler::Interrupt(place)) => 2 * PLACES + usize::from(place),
    }
}

/// The place of the processor that a task is assigned to after the last event.
pub fn processor_in(tasks: &[Track<TaskShown>], task: u8) -> Option<u8>
    ensures { result ≡ events.processor_of (slice_get tasks.now task) }
{
    match tasks.get(usize::from(task)) {
        Some(track) => match track.last() {
            Some(shown) => Some(shown.processor),
            None => None,
        },
        None => None,
    }
}

/// Appends this many tracks with no states.
fn add_tracks<S: Copy + PartialEq + Drop>(
    alloc: Global,
    count: usize,
    all: &mut Vec<Track<S>>,
) -> Result<(), AllocError> {
    for _track in 0..count {
        all.push(Track::new(alloc))?;
    }
    Ok(())
}

impl Run {
    /// A run of a system before its setup, with its objects or without. `AllocError` if memory runs out, as of each
    /// call below.
    pub fn new(alloc: Global, sys: &System, objects: bool) -> Result<Run, AllocError> {
        let spins = Spins::new(alloc, usize::from(sys.processors))?;
        let objects = ObjectHistories::new(alloc, sys, objects)?;
        let waits = Waits::new(alloc, sys)?;
        let mut run = Run {
            notes: Vec::new(alloc),
            text: Vec::new(alloc),
            tasks: Vec::new(alloc),
            occupants: Vec::new(alloc),
            locks: Vec::new(alloc),
            dispatches: Vec::new(alloc),
            cyclics: Vec::new(alloc),
            interrupts: Vec::new(alloc),
            priorities: Vec::new(alloc),
            deeds: Vec::new(alloc),
            links: Vec::new(alloc),
            migrations: Vec::new(alloc),
            spins,
            objects,
            waits,
            wrong: Vec::new(alloc),
        };
        run.add_lanes(alloc, sys)?;
        Ok(run)
    }

    /// The lanes of a system, with no states and no deeds.
    fn add_lanes(&mut self, alloc: Global, sys: &System) -> Result<(), AllocError> {
        let processors = usize::from(sys.processors);
        add_tracks(alloc, sys.tasks.len(), &mut self.tasks)?;
        add_tracks(alloc, processors, &mut self.occupants)?;
        add_tracks(alloc, processors, &mut self.locks)?;
        add_tracks(alloc, processors, &mut self.dispatches)?;
        add_tracks(alloc, sys.cyclics.len(), &mut self.cyclics)?;
        add_tracks(alloc, 32, &mut self.interrupts)?;
        self.priorities.resize(sys.tasks.len(), 0)?;
        self.add_deeds(alloc)
    }

    /// The tasks and handlers, with no deeds.
    fn add_deeds(&mut self, alloc: Global) -> Result<(), AllocError> {
        for _actor in 0..3 * PLACES {
            self.deeds.push(Deeds {
                marks: Vec::new(alloc),
                calls: Vec::new(alloc),
            })?;
        }
        Ok(())
    }

    /// The number of the next event; setup has 0.
    pub fn next_event(&self) -> u32
        ensures { result ≡ events.next_event self.now }
    {
        u32::try_from(self.notes.len()).unwrap_or(u32::MAX)
    }

    /// What a task or a handler did, and what came to it.
    pub fn deeds_of(&self, caller: Caller) -> Option<&Deeds>
        ensures { option_map (λ deeds. deeds.now) result
            ≡ slice_get self.now.deeds.items (events.place_of caller) }
    {
        self.deeds.get(place_of(caller))
    }

    /// The states of a handler.
    pub fn handling(&self, handler: Handler) -> Option<&Track<Handling>>
        ensures { option_map (λ track. track.now) result ≡ events.handling self.now handler }
    {
        match handler {
            Handler::Cyclic(place) => self.cyclics.get(usize::from(place)),
            Handler::Interrupt(place) => self.interrupts.get(usize::from(place)),
        }
    }

    /// Whether a handler is pending or runs after some event of a panel.
    pub fn is_handling(&self, handler: Handler, span: &PanelSpan) -> bool {
        let Some(track) = self.handling(handler) else {
            return false;
        };
        let idle = Handling {
            runs: false,
            pends: false,
        };
        let places = track.places(span.first, span.last);
        places.len() > 1 || track.at(span.first) != Some(idle)
    }

    fn mark(&mut self, event: u32, at: Caller, sign: Sign) -> Result<(), AllocError>
        ensures notes { self.new.notes ≡ self.old.notes }
        ensures text { self.new.text ≡ self.old.text }
        ensures tasks { self.new.tasks ≡ self.old.tasks }
    {
        if let Some(deeds) = self.deeds.get_mut(place_of(at)) {
            deeds.marks.push(EventMark { event, sign })?;
        }
        if sign.is_wrong() {
            self.wrong.push(event)?;
        }
        Ok(())
    }

    /// Whether the last mark of an actor says that it kept its place after this event.
    fn has_kept(&self, event: u32, actor: Caller) -> bool {
        match self.deeds_of(actor) {
            Some(deeds) => match deeds.marks.last() {
                Some(mark) => mark.event == event && matches!(mark.sign, Sign::Kept),
                None => false,
            },
            None => false,
        }
    }

    /// The actor of the processor at this place kept its place after the last event; of several times there is one
    /// mark.
    pub fn keep_place(&mut self, processor: u8) -> Result<(), AllocError>
        ensures notes { self.new.notes ≡ self.old.notes }
        ensures text { self.new.text ≡ self.old.text }
        ensures tasks { self.new.tasks ≡ self.old.tasks }
    {
        let event = self.next_event().saturating_sub(1);
        if let Some(track) = self.occupants.get(usize::from(processor))
            && let Some(occupant) = track.last()
            && let Some(actor) = occupant.actor()
            && !self.has_kept(event, actor)
        {
            self.mark(event, actor, Sign::Kept)?;
        }
        Ok(())
    }

    /// The marks and the links of the lines.
    pub fn take_lines(&mut self, event: u32, lines: &[Line]) -> Result<(), AllocError>
        ensures notes { self.new.notes ≡ self.old.notes }
        ensures text { self.new.text ≡ self.old.text }
        ensures tasks { self.new.tasks ≡ self.old.tasks }
    {
        let actor = actor_of(lines);
        for line in lines {
            if let Some((at, sign)) = line_sign(*line) {
                self.mark(event, at, sign)?;
            }
            if let Some(link) = line_link(*line, event, actor) {
                self.links.push(link)?;
            }
        }
        Ok(())
    }

    /// The mark of an accepted call on a task, which has no line.
    fn quiet_sign(&self, call: Call, task: u8, moment: &Moment<'_>) -> Option<Sign> {
        let moved = moves(moment.lines, task);
        match call {
            Call::ActTsk { .. } | Call::IactTsk { .. } | Call::MactTsk { .. } if !moved => {
                Some(Sign::Queued)
            }
            Call::WupTsk { .. } | Call::IwupTsk { .. } if !moved => Some(Sign::WakeupQueued),
            Call::TerTsk { .. } => Some(Sign::Terminated),
            Call::ChgPri { .. } => {
                let state = moment.states.get(usize::from(task))?;
                let old = self.priorities.get(usize::from(task))?;
                (*old != state.priority).then_some(Sign::Priority(state.priority))
            }
            _ => None,
        }
    }

    /// The place of the processor that a task is assigned to after the last event.
    pub fn processor_of(&self, task: u8) -> Option<u8>
        ensures { result ≡ events.processor_of (slice_get self.now.tasks.items task) }
    {
        processor_in(&self.tasks, task)
    }

    /// Whether a task is assigned to another processor than before.
    fn is_moved(&self, task: u8, moment: &Moment<'_>) -> bool {
        match (
            self.processor_of(task),
            moment.states.get(usize::from(task)),
        ) {
            (Some(before), Some(after)) => before != after.processor,
            _ => false,
        }
    }

    /// What an accepted call does to a task beside its lines.
    fn take_effect(
        &mut self,
        event: u32,
        caller: Caller,
        call: Call,
        moment: &Moment<'_>,
    ) -> Result<(), AllocError>
        ensures notes { self.new.notes ≡ self.old.notes }
        ensures text { self.new.text ≡ self.old.text }
        ensures tasks { self.new.tasks ≡ self.old.tasks }
    {
        let Some((number, bond)) = bond_of(call) else {
            return Ok(());
        };
        let Some(task) = task_named(number, caller) else {
            return Ok(());
        };
        let sign = self.quiet_sign(call, task, moment);
        if let Some(sign) = sign {
            self.mark(event, Caller::Task(task), sign)?;
        }
        let seen = match bond {
            Bond::Starts | Bond::Releases => sign.is_some(),
            Bond::Migrates => self.is_moved(task, moment),
            Bond::Changes => true,
        };
        if seen && caller != Caller::Task(task) {
            self.links.push(ActorLink {
                event,
                from: caller,
                task,
                bond,
            })?;
        }
        Ok(())
    }

    /// The call of an event.
    pub fn take_call(&mut self, event: u32, moment: &Moment<'_>) -> Result<(), AllocError>
        ensures notes { self.new.notes ≡ self.old.notes }
        ensures text { self.new.text ≡ self.old.text }
        ensures tasks { self.new.tasks ≡ self.old.tasks }
    {
        let Some(
            Line::Call {
                caller,
                call,
                reply,
                ..
            },
        ) = moment.lines.first()
        else {
            return Ok(());
        };
        if let Some(deeds) = self.deeds.get_mut(place_of(*caller)) {
            deeds.calls.push(CallMade {
                event,
                call: *call,
                reply: *reply,
                releases: ends_wait(moment.lines),
            })?;
        }
        match reply {
            Some(reply) if reply.code == Er::Ok => self.take_effect(event, *caller, *call, moment),
            _ => Ok(()),
        }
    }
}
