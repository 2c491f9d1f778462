//! A state over the events of a run, as its changes.
ghost use Rattle.std.specs.Prelude.{◌≡◌, ◌+◌, ◌-◌, OnOk, [], length, option_map, slice_get};
ghost use Rattle.fmp_timeline.specs.Tracks as spec;

use std::alloc::{AllocError, Global};
use std::ops::Range;

/// A state that lasts from an event to another, which begins the next state, or to the end of the run.
#[derive(Clone, Copy)]
pub struct Stay<S> {
    /// The event after which the state is this.
    pub from: u32,
    /// The event after which it is another, if there is one.
    pub to: Option<u32>,
    /// The state.
    pub state: S,
}

/// A state and the event that made it.
#[derive(Clone, Copy)]
struct StateChange<S> {
    event: u32,
    state: S,
}

/// The states of something over the events of a run: one after each event, kept as changes.
#[derive(Drop)]
pub struct Track<S: Drop> {
    changes: Vec<StateChange<S>>,
}

/// The state of a change that lasts until this event.
fn stay_until<S: Copy>(change: &StateChange<S>, to: Option<u32>) -> Stay<S>
    ensures { result ≡ record { from = change.now.event; to = to; state = change.now.state } }
{
    Stay {
        from: change.event,
        to,
        state: change.state,
    }
}

impl<S: Copy + PartialEq> Track<S> {
    /// No states so far.
    pub fn new(alloc: Global) -> Track<S>
        ensures { result.changes.items ≡ [] }
    {
        Track {
            changes: Vec::new(alloc),
        }
    }

    /// The state after the last event that was shown.
    pub fn last(&self) -> Option<S>
        ensures { result ≡ spec.last_state self.now.changes.items }
    {
        match self.changes.last() {
            Some(change) => Some(change.state),
            None => None,
        }
    }

    /// How many states there were, one after another.
    #[tactic(auto, using(crate::proofs::Stays::stays_length))]
    pub fn len(&self) -> usize
        ensures { result ≡ length (spec.stays_of self.now) }
    {
        self.changes.len()
    }

    /// The state after this event, which is later than those before it.
    pub fn show(&mut self, event: u32, state: S) -> Result<(), AllocError>
        ensures { OnOk result (self.new.changes.items ≡ spec.shown S.eq event state self.old.changes.items) }
    {
        if self.last() != Some(state) {
            self.changes.push(StateChange { event, state })?;
        }
        Ok(())
    }

    /// How many changes come no later than this event.
    fn count_to(&self, event: u32) -> usize
        ensures { spec.AreInOrder self.now.changes.items → result ≡ spec.count_to event self.now.changes.items }
    {
        self.changes.partition_point(|change| change.event <= event)
    }

    /// The state after this event.
    pub fn at(&self, event: u32) -> Option<S>
        ensures { spec.AreInOrder self.now.changes.items → result ≡ spec.state_at event self.now.changes.items }
    {
        let place = self.count_to(event).checked_sub(1)?;
        match self.changes.get(place) {
            Some(change) => Some(change.state),
            None => None,
        }
    }

    /// The places of the states that hold after one of these events.
    pub fn places(&self, first: u32, last: u32) -> Range<usize>
        ensures start { spec.AreInOrder self.now.changes.items
            → result.start ≡ spec.count_to first self.now.changes.items - 1 }
        ensures end { spec.AreInOrder self.now.changes.items
            → result.end ≡ spec.count_to last self.now.changes.items }
    {
        self.count_to(first).saturating_sub(1)..self.count_to(last)
    }

    /// The event of the change after the one at a place, if there is one.
    fn event_after(&self, place: usize) -> Option<u32>
        ensures { result ≡ option_map (λ c. c.event) (slice_get self.now.changes.items (place + 1)) }
    {
        if place >= self.changes.len() {
            return None;
        }
        match self.changes.get(place + 1) {
            Some(change) => Some(change.event),
            None => None,
        }
    }

    /// The state of the change at a place, which lasts until this event.
    fn stay_from(&self, place: usize, to: Option<u32>) -> Option<Stay<S>>
        ensures { result ≡ option_map (λ c. record { from = c.event; to = to; state = c.state })
            (slice_get self.now.changes.items place) }
    {
        match self.changes.get(place) {
            Some(change) => Some(stay_until(change, to)),
            None => None,
        }
    }

    /// The state at a place, and how long it lasts.
    pub fn stay(&self, place: usize) -> Option<Stay<S>>
        ensures { result ≡ slice_get (spec.stays_of self.now) place }
    {
        self.stay_from(place, self.event_after(place))
    }
}
