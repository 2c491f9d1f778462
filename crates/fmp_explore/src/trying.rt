//! The events that are tried in each state, and what they did there.
ghost use Rattle.std.specs.Prelude.{◌≡◌, ◌+◌, ◌<◌, None, Some, is_some, min, true};
ghost use Rattle.fmp_explore.specs.Searching.{came_on, marked};

use crate::notes::PathEnd;
use fmp_base::Event;
use fmp_schedules::Monitor;
use fmp_visited::StateLink;
use fmp_witness::SearchSubject;

/// A state that is examined.
#[derive(Drop)]
pub struct ExaminedState {
    /// Its place among the states that are kept.
    pub state: u32,
    /// How many events lead to it.
    pub depth: u32,
    /// How many interrupts came, where their number is limited.
    pub came: usize,
    /// The monitors in it.
    pub monitors: Vec<Monitor>,
}

/// The examination of a state, in a search for what is asked about a subject.
#[derive(Clone, Copy)]
pub struct Examination<'e, 'a> {
    pub subject: &'e SearchSubject<'a>,
    pub at: &'e ExaminedState,
}

impl<'a> Examination<'_, 'a> {
    /// The events that lead to the state.
    pub fn end(&self) -> PathEnd<'a>
        ensures after { result.after.now ≡ self.now.subject.now.question.now.after.items }
        ensures state { result.state ≡ self.now.at.now.state }
        ensures last { result.last ≡ None }
    {
        PathEnd {
            after: &self.subject.question.after,
            state: self.at.state,
            last: None,
        }
    }
}

/// An event that is tried in a state.
#[derive(Clone, Copy)]
pub struct Attempt<'e, 'a> {
    pub here: Examination<'e, 'a>,
    pub event: Event,
}

impl<'a> Attempt<'_, 'a> {
    /// How the state is reached to which the event leads.
    pub fn link(&self, kept: bool) -> StateLink
        ensures { result ≡ record {
          parent = self.now.here.at.now.state;
          event = self.now.event;
          kept = kept;
          depth = min (self.now.here.at.now.depth + 1) 4294967295;
        } }
    {
        StateLink {
            parent: self.here.at.state,
            event: self.event,
            kept,
            depth: self.here.at.depth.saturating_add(1),
        }
    }

    /// The events that lead to the state, with this one.
    pub fn end(&self) -> PathEnd<'a>
        ensures after { result.after.now ≡ self.now.here.subject.now.question.now.after.items }
        ensures state { result.state ≡ self.now.here.at.now.state }
        ensures last { result.last ≡ Some self.now.event }
    {
        PathEnd {
            after: &self.here.subject.question.after,
            state: self.here.at.state,
            last: Some(self.event),
        }
    }

    /// How many interrupts came after the event, where their number is limited.
    pub fn came(&self) -> usize
        requires { is_some self.now.here.subject.now.question.now.interrupts ≡ true → self.now.here.at.now.came < 256 }
        ensures { result ≡ came_on self.now.here.subject.now.question.now.interrupts self.now.here.at.now.came
            self.now.event }
    {
        match (self.here.subject.question.interrupts, self.event) {
            (None, _) => 0,
            (Some(_), Event::Int(_)) => self.here.at.came + 1,
            (Some(_), _) => self.here.at.came,
        }
    }
}

/// What was done in the state that is examined.
#[derive(Clone, Copy)]
pub struct StateMarks {
    /// Whether no processor did anything.
    pub idle: bool,
    /// Whether an interrupt did something.
    pub interrupted: bool,
}

impl StateMarks {
    /// An event did something.
    pub fn note(&mut self, e: Event)
        ensures { self.new ≡ marked self.old e }
    {
        match e {
            Event::Run(_) => self.idle = false,
            Event::Int(_) => self.interrupted = true,
            Event::Tick => {}
        }
    }
}
