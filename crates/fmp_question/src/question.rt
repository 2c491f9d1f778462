//! What is asked about all schedules: what must never happen, which events may happen, and where to stop.

ghost use Rattle.std.specs.Prelude.{◌<◌, ◌≡◌, ◌^◌, ◌↔◌, [], IsTrue, None, count_by, false, is_some, true};
ghost use Rattle.std.specs.List.{position};
ghost use Rattle.fmp_schedules.specs.Deadlocks.{is_interrupt as is_request, may_interrupt as may};
ghost use Rattle.fmp_question.specs.Forbidden.{forbids, is_answered as answers, is_fault as stops_with};
ghost use Rattle.fmp_question.specs.Forbidden.{is_put as prints, is_same_code as same_code};
ghost use Rattle.fmp_question.specs.Forbidden.{is_same_fault as same_fault};
ghost use Rattle.fmp_question.specs.Forbidden.{tells as names};
ghost use Rattle.fmp_question.specs.Beginning.{CanBegin};

use crate::site::CallSite;
use fmp_base::{Call, Er, Event, Fault, Line};
use fmp_schedules::{Monitor, is_act};
use std::alloc::Global;

/// The codes that calls and the ends of waits answer.
pub const ANSWERS: [Er; 9] = [
    Er::Ok,
    Er::Par,
    Er::Id,
    Er::Ctx,
    Er::Iluse,
    Er::Obj,
    Er::Qovr,
    Er::Rlwai,
    Er::Tmout,
];

/// What must never happen.
#[derive(Clone, Copy)]
pub enum Never {
    /// A call, or the end of a wait, answers this code.
    Answer(Er),
    /// Somebody prints this value.
    Put(i32),
    /// A body stops with this fault.
    Fault(Fault),
    /// The task at this place makes a call, ends a wait, ends, stops with a fault, or is terminated.
    Acts(u8),
}

/// An answer that must never be given to one call.
#[derive(Clone, Copy)]
pub struct NeverAt {
    pub code: Er,
    /// The call that answers the code, or in which a wait ends with it.
    pub site: CallSite,
    /// The place of the task that must not get it; nobody may, if none is given.
    pub by: Option<usize>,
}

/// When the clock may advance.
#[derive(Clone, Copy, Debug, PartialEq, Eq)]
pub enum Ticks {
    /// At any time.
    Any,
    /// Only where no processor can do anything.
    Idle,
}

/// What is asked about all schedules of a system.
#[derive(Drop)]
pub struct Question {
    /// What must never happen.
    pub nevers: Vec<Never>,
    /// The answers that must never be given, each to one call.
    pub nevers_at: Vec<NeverAt>,
    /// The sentences that must hold, and the limits of single interrupts, each with what is kept of it before setup.
    pub monitors: Vec<Monitor>,
    /// For each task, by its place, whether it may wait forever, as servers do. Tasks after the last one may not.
    pub rest: Vec<bool>,
    /// When the clock may advance.
    pub ticks: Ticks,
    /// How many interrupts there may be; any number, if none is given.
    pub interrupts: Option<u8>,
    /// How many activations and how many wakeups of a task may be queued after an event; any number, if none is given.
    pub queued: Option<u8>,
    /// Whether the search goes on after the first finding, for the first of each kind and place.
    pub all: bool,
    /// How many states may be kept.
    pub states: u32,
    /// How many seconds the search may take; any number, if none is given.
    pub seconds: Option<u32>,
    /// The events after which the search begins, each of which does something: none, if it begins at setup. After
    /// others nothing is claimed of all schedules.
    pub after: Vec<Event>,
}

impl Question {
    /// Deadlocks and bodies that go on forever without a call are looked for, and nothing else. No task may wait
    /// forever. Ticks and interrupts come at any time, and any number of activations and wakeups may be queued. The
    /// search stops at the first finding, or at 2^24 states, and takes any time.
    pub fn new(alloc: Global) -> Question
        ensures nevers { result.nevers.items ≡ [] }
        ensures nevers_at { result.nevers_at.items ≡ [] }
        ensures monitors { result.monitors.items ≡ [] }
        ensures rest { result.rest.items ≡ [] }
        ensures ticks { result.ticks ≡ Ticks.Any }
        ensures interrupts { result.interrupts ≡ None }
        ensures queued { result.queued ≡ None }
        ensures all { result.all ≡ false }
        ensures states { result.states ≡ 2 ^ 24 }
        ensures seconds { result.seconds ≡ None }
        ensures after { result.after.items ≡ [] }
    {
        Question {
            nevers: Vec::new(alloc),
            nevers_at: Vec::new(alloc),
            monitors: Vec::new(alloc),
            rest: Vec::new(alloc),
            ticks: Ticks::Any,
            interrupts: None,
            queued: None,
            all: false,
            states: 1 << 24,
            seconds: None,
            after: Vec::new(alloc),
        }
    }

    /// Whether one more interrupt may come after these events.
    pub fn may_interrupt(&self, steps: &[Event]) -> bool
        ensures may { result ≡ may self.now.interrupts steps.now }
        ensures few { IsTrue result → is_some self.now.interrupts ≡ true → count_by is_request steps.now < 255 }
    {
        match self.interrupts {
            Some(most) => interrupt_count(steps) < usize::from(most),
            None => true,
        }
    }
}

impl Question {
    /// Whether a search can begin after the events: nothing is watched where there are such events, and there are no
    /// more interrupts among them than a row tells.
    pub fn can_begin(&self) -> bool
        ensures { IsTrue result ↔ CanBegin self.now }
    {
        if interrupt_count(&self.after) >= 256 {
            return false;
        }
        self.after.is_empty() || self.monitors.is_empty()
    }
}

/// Whether an event is an interrupt.
fn is_interrupt(e: Event) -> bool
    ensures { result ≡ is_request e }
{
    match e {
        Event::Int(_) => true,
        Event::Run(_) | Event::Tick => false,
    }
}

/// How many of these events are interrupts.
pub fn interrupt_count(steps: &[Event]) -> usize
    ensures { result ≡ count_by is_request steps.now }
{
    steps.iter().filter(|e| is_interrupt(**e)).count()
}

/// Whether two codes are one.
pub fn is_same_code(a: Er, b: Er) -> bool
    ensures { result ≡ same_code a b }
{
    a == b
}

/// Whether two faults are one.
fn is_same_fault(a: Fault, b: Fault) -> bool
    ensures { result ≡ same_fault a b }
{
    match (a, b) {
        (Fault::Overflow, Fault::Overflow) => true,
        (Fault::Division, Fault::Division) => true,
        (Fault::Index, Fault::Index) => true,
        _ => false,
    }
}

/// Whether a line tells that a call, or the end of a wait, answers this code.
fn is_answered(code: Er, line: &Line) -> bool
    ensures { result ≡ answers code line.now }
{
    match line {
        Line::Call {
            reply: Some(reply),
            ..
        } => is_same_code(reply.code, code),
        Line::Gets { reply, .. } => is_same_code(reply.code, code),
        _ => false,
    }
}

/// Whether a line tells that this value is printed.
fn is_put(value: i32, line: &Line) -> bool
    ensures { result ≡ prints value line.now }
{
    match line {
        Line::Call {
            call: Call::Put { value: printed },
            ..
        } => *printed == value,
        _ => false,
    }
}

/// Whether a line tells that a body stops with this fault.
fn is_fault(fault: Fault, line: &Line) -> bool
    ensures { result ≡ stops_with fault line.now }
{
    match line {
        Line::Fault { fault: told, .. } => is_same_fault(*told, fault),
        _ => false,
    }
}

/// Whether a line tells what must never happen.
fn tells(never: Never, line: &Line) -> bool
    ensures { result ≡ names never line.now }
{
    match never {
        Never::Answer(code) => is_answered(code, line),
        Never::Put(value) => is_put(value, line),
        Never::Fault(fault) => is_fault(fault, line),
        Never::Acts(t) => is_act(t, line),
    }
}

/// Whether a line tells something of what must never happen.
fn tells_any(nevers: &[Never], line: &Line) -> bool
    ensures { result ≡ forbids nevers.now line.now }
{
    for never in nevers {
        if tells(*never, line) {
            return true;
        }
    }
    false
}

/// Whether a line tells something that must never happen anywhere.
pub fn is_forbidden(question: &Question, line: &Line) -> bool
    ensures { result ≡ forbids question.now.nevers.items line.now }
{
    tells_any(&question.nevers, line)
}

/// The place of the first of what must never happen anywhere that a line tells. None if it tells nothing of it.
pub fn first_forbidden(question: &Question, line: &Line) -> Option<usize>
    ensures { result ≡ position (λ never. names never line.now) question.now.nevers.items }
{
    question.nevers.iter().position(|never| tells(*never, line))
}
