//! Spinning spans, in which a processor's turns did nothing.
use crate::marks::{CallMade, EventMark, Sign};
use crate::page::PanelSpan;
use crate::run::Run;
use crate::states::{Moment, occupant_of};
use crate::tracks::Stay;
use fmp_base::{Call, Caller, Er, Line, Lock};
use std::alloc::{AllocError, Global};
use std::ops::Range;

/// A span in which the turns of a processor do nothing.
#[derive(Clone, Copy)]
pub struct SpinSpan {
    /// The last event before it.
    pub from: u32,
    /// The event that ends it, if one does.
    pub to: Option<u32>,
    /// The place of the processor.
    pub processor: u8,
    /// The actor that spins.
    pub actor: Caller,
}

impl SpinSpan {
    /// Whether it is of a processor and covers one of these events.
    fn meets(&self, processor: u8, first: u32, last: u32) -> bool {
        let lasts = match self.to {
            Some(to) => to > first,
            None => true,
        };
        lasts && self.processor == processor && self.from <= last
    }

    fn stay(self) -> Stay<SpinSpan> {
        Stay {
            from: self.from,
            to: self.to,
            state: self,
        }
    }
}

/// All such spans of a run.
#[derive(Drop)]
pub struct Spins {
    /// Those that ended, in order of their ends.
    pub ended: Vec<SpinSpan>,
    /// That of each processor that goes on, if there is one.
    pub open: Vec<Option<SpinSpan>>,
}

/// Whether the event is one of this processor's actor.
fn is_own(lines: &[Line], place: u8) -> bool {
    match lines.first() {
        Some(
            Line::Call { processor, .. }
            | Line::End { processor, .. }
            | Line::Fault { processor, .. },
        ) => *processor == place,
        _ => false,
    }
}

/// Whether a span ends at this moment.
fn ends(spin: &SpinSpan, moment: &Moment<'_>) -> bool {
    let actor = match moment.processors.get(usize::from(spin.processor)) {
        Some(processor) => occupant_of(processor).actor(),
        None => None,
    };
    is_own(moment.lines, spin.processor) || actor != Some(spin.actor)
}

impl Spins {
    /// None so far, on this many processors. `AllocError` if memory runs out, as of each call below.
    pub fn new(alloc: Global, processors: usize) -> Result<Spins, AllocError> {
        Ok(Spins {
            ended: Vec::new(alloc),
            open: vec![in alloc; None; processors]?,
        })
    }

    /// A processor's actor spins from this event on, unless it does already.
    pub fn begin(&mut self, from: u32, processor: u8, actor: Caller) {
        if let Some(open) = self.open.get_mut(usize::from(processor))
            && open.is_none()
        {
            *open = Some(SpinSpan {
                from,
                to: None,
                processor,
                actor,
            });
        }
    }

    /// Ends the spans that this moment ends.
    pub fn show(&mut self, event: u32, moment: &Moment<'_>) -> Result<(), AllocError> {
        for open in self.open.iter_mut() {
            if let Some(spin) = *open
                && ends(&spin, moment)
            {
                self.ended.push(SpinSpan {
                    to: Some(event),
                    ..spin
                })?;
                *open = None;
            }
        }
        Ok(())
    }

    /// The span of a processor that has not ended.
    fn open_at(&self, processor: u8) -> Option<SpinSpan> {
        *self.open.get(usize::from(processor))?
    }

    /// Whether a span of a processor meets these events.
    pub fn meet(&self, processor: u8, first: u32, last: u32) -> bool {
        for spin in &self.ended {
            if spin.meets(processor, first, last) {
                return true;
            }
        }
        match self.open_at(processor) {
            Some(spin) => spin.meets(processor, first, last),
            None => false,
        }
    }

    /// The places of all spans: of those that ended, and after them of the one that has not.
    pub fn places(&self) -> Range<usize> {
        0..self.ended.len().saturating_add(1)
    }

    /// The span at a place, if it is of this processor and meets a panel.
    pub fn stay(&self, place: usize, processor: u8, span: &PanelSpan) -> Option<Stay<SpinSpan>> {
        let spin = match self.ended.get(place) {
            Some(spin) => *spin,
            None => self.open_at(processor)?,
        };
        spin.meets(processor, span.first, span.last)
            .then_some(spin.stay())
    }
}

/// The place of the spin lock that a call got, if it asked for one.
fn lock_got(made: &CallMade) -> Option<u8> {
    match (made.call, made.reply) {
        (Call::LocSpn { lock }, Some(reply)) if reply.code == Er::Ok => {
            u8::try_from(lock.checked_sub(1)?).ok()
        }
        _ => None,
    }
}

/// How a body stopped between two events, if it did.
fn stop_between(marks: &[EventMark], after: u32, before: u32) -> Option<Sign> {
    let from = marks.partition_point(|mark| mark.event <= after);
    for mark in marks.get(from..).unwrap_or(&[]) {
        if mark.event >= before {
            break;
        }
        if matches!(mark.sign, Sign::Ended | Sign::Faulted(_) | Sign::Terminated) {
            return Some(mark.sign);
        }
    }
    None
}

impl Run {
    /// The place of a spin lock that another processor holds where a span begins.
    fn lock_beside(&self, spin: &SpinSpan) -> Option<u8> {
        for place in 0..self.locks.len().min(8) as u8 {
            if place != spin.processor
                && let Some(Lock::Spin(lock)) = self.locks[usize::from(place)].at(spin.from)
            {
                return Some(lock);
            }
        }
        None
    }

    /// The place of the spin lock for which the actor of a span spins: the one that it gets by its next call; where it
    /// makes none, one that another processor holds. None if it asks for none, but makes no progress.
    pub fn lock_of(&self, spin: &SpinSpan) -> Option<u8> {
        let deeds = self.deeds_of(spin.actor)?;
        let place = deeds.calls.partition_point(|made| made.event <= spin.from);
        let next = deeds.calls.get(place);
        let before = match next {
            Some(made) => made.event,
            None => u32::MAX,
        };
        match (stop_between(&deeds.marks, spin.from, before), next) {
            (Some(Sign::Ended | Sign::Faulted(_)), _) => None,
            (None, Some(made)) => lock_got(made),
            _ => self.lock_beside(spin),
        }
    }
}
