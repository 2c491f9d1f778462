//! Monitors: sentences about runs and limits of interrupts, each with what is kept of it along the lines of the trace.
ghost use Rattle.std.specs.Prelude.{◌≡◌, IfSome, is_some};
ghost use Rattle.fmp_schedules.specs.Monitors as spec;

use crate::limit::InterruptLimit;
use fmp_base::{Event, Line};
use fmp_monitors::{Sentence, Standing, breaks_by_line, breaks_in_state, next_standing};
use fmp_tasks::KernelState;

/// What a monitor watches.
#[derive(Clone, Copy)]
pub enum MonitorSubject {
    /// A sentence, which events may break.
    Sentence(Sentence),
    /// A limit, which holds an interrupt back.
    Limit(InterruptLimit),
}

/// What is watched, and what is kept of it.
#[derive(Clone, Copy)]
pub struct Monitor {
    pub subject: MonitorSubject,
    pub standing: Standing,
}

/// A line that breaks a sentence.
#[derive(Clone, Copy, Debug, PartialEq, Eq)]
pub struct Breach {
    /// The place of the line, from 0.
    pub place: usize,
    /// What was kept of the sentence before it.
    pub standing: Standing,
}

impl MonitorSubject {
    /// What is kept of it after one more line.
    fn next(&self, standing: Standing, line: &Line) -> Standing
        ensures { result ≡ spec.next_by self.now standing line.now }
    {
        match self {
            MonitorSubject::Sentence(sentence) => next_standing(sentence, standing, *line),
            MonitorSubject::Limit(limit) => limit.next(standing, line),
        }
    }

    /// Whether it is a sentence that a line breaks.
    fn is_broken_by(&self, standing: Standing, line: &Line) -> bool
        ensures { result ≡ spec.breaks_by self.now standing line.now }
    {
        match self {
            MonitorSubject::Sentence(sentence) => breaks_by_line(sentence, standing, *line),
            MonitorSubject::Limit(_) => false,
        }
    }

    /// Whether it is a sentence that a state breaks.
    fn is_broken_in(&self, state: &KernelState) -> bool
        ensures { result ≡ spec.breaks_in self.now state.now.state }
    {
        match self {
            MonitorSubject::Sentence(sentence) => breaks_in_state(sentence, state),
            MonitorSubject::Limit(_) => false,
        }
    }

    /// Whether it lets the interrupt of this number come.
    fn lets(&self, standing: Standing, number: u8) -> bool
        ensures { result ≡ spec.lets_by self.now standing number }
    {
        match self {
            MonitorSubject::Sentence(_) => true,
            MonitorSubject::Limit(limit) => limit.lets(standing, number),
        }
    }
}

impl Monitor {
    /// A sentence of which nothing is kept.
    pub fn new(sentence: Sentence) -> Monitor
        ensures { result ≡ spec.at_open sentence }
    {
        Monitor {
            subject: MonitorSubject::Sentence(sentence),
            standing: Standing::Open,
        }
    }

    /// A limit of an interrupt before any event.
    pub fn limiting(limit: InterruptLimit) -> Monitor
        ensures { result ≡ spec.at_limit limit }
    {
        Monitor {
            subject: MonitorSubject::Limit(limit),
            standing: limit.at_first(),
        }
    }

    /// The monitor after one more line.
    fn on(&self, line: &Line) -> Monitor
        ensures { result ≡ spec.monitor_on self.now line.now }
    {
        Monitor {
            subject: self.subject,
            standing: self.subject.next(self.standing, line),
        }
    }

    /// The monitor after these lines.
    pub fn after(&self, lines: &[Line]) -> Monitor
        ensures { result ≡ spec.monitor_after self.now lines.now }
    {
        let mut monitor = *self;
        for line in lines {
            monitor = monitor.on(line);
        }
        monitor
    }

    /// What was kept of the sentence, if a line breaks it.
    fn broken_by(&self, line: &Line) -> Option<Standing>
        ensures broken { is_some result ≡ spec.breaks self.now line.now }
        ensures standing { IfSome result (λ standing. self.now.standing ≡ standing) }
    {
        if self.subject.is_broken_by(self.standing, line) {
            Some(self.standing)
        } else {
            None
        }
    }

    /// The first of these lines that breaks the sentence, if one does.
    pub fn first_breach(&self, lines: &[Line]) -> Option<Breach>
        ensures broken { is_some result ≡ spec.is_broken self.now lines.now }
        ensures there { IfSome result (spec.IsBreach self.now lines.now) }
    {
        let mut monitor = *self;
        for place in 0..lines.len() {
            let line = &lines[place];
            if let Some(standing) = monitor.broken_by(line) {
                return Some(Breach { place, standing });
            }
            monitor = monitor.on(line);
        }
        None
    }

    /// Whether a state after setup, or after an event, breaks the sentence.
    pub fn is_broken_in(&self, state: &KernelState) -> bool
        ensures { result ≡ spec.is_broken_in self.now state.now.state }
    {
        self.subject.is_broken_in(state)
    }

    /// Whether the limit, if it is one, lets an event come.
    pub fn lets(&self, event: Event) -> bool
        ensures { result ≡ spec.lets self.now event }
    {
        match event {
            Event::Int(number) => self.subject.lets(self.standing, number),
            Event::Run(_) | Event::Tick => true,
        }
    }
}

/// Whether each limit among these lets an event come.
pub fn all_let(monitors: &[Monitor], event: Event) -> bool
    ensures { result ≡ spec.all_let monitors.now event }
{
    for monitor in monitors {
        if !monitor.lets(event) {
            return false;
        }
    }
    true
}
