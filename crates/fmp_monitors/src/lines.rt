//! What a line of a trace tells.
ghost use Rattle.std.specs.Prelude.{◌≡◌};
ghost use Rattle.fmp_monitors.specs.Happenings as spec;

use crate::happening::{ExpectedActor, ExpectedDeed, Happening};
use fmp_base::{Call, Caller, Er, Fault, Handler, Line, Reply, StateWord};

fn is_same(a: i32, b: i32) -> bool
    ensures { result ≡ spec.is_same a b }
{
    a == b
}

fn is_code(a: Er, b: Er) -> bool
    ensures { result ≡ spec.is_code a b }
{
    is_same(a.code(), b.code())
}

fn is_fault(a: Fault, b: Fault) -> bool
    ensures { result ≡ spec.is_fault a b }
{
    match (a, b) {
        (Fault::Overflow, Fault::Overflow) => true,
        (Fault::Division, Fault::Division) => true,
        (Fault::Index, Fault::Index) => true,
        _ => false,
    }
}

/// Whether two states of a task are one.
pub fn is_state(a: StateWord, b: StateWord) -> bool
    ensures { result ≡ spec.is_state a b }
{
    match (a, b) {
        (StateWord::Running, StateWord::Running) => true,
        (StateWord::Ready, StateWord::Ready) => true,
        (StateWord::Waiting, StateWord::Waiting) => true,
        (StateWord::Suspended, StateWord::Suspended) => true,
        (StateWord::WaitingSuspended, StateWord::WaitingSuspended) => true,
        (StateWord::Dormant, StateWord::Dormant) => true,
        _ => false,
    }
}

fn is_actor(actor: ExpectedActor, who: Caller) -> bool
    ensures { result ≡ spec.is_actor actor who }
{
    match (actor, who) {
        (ExpectedActor::Task(task), Caller::Task(other)) => usize::from(other) == task,
        (ExpectedActor::Cyclic(cyclic), Caller::Handler(Handler::Cyclic(other))) => {
            usize::from(other) == cyclic
        }
        (ExpectedActor::Interrupt(interrupt), Caller::Handler(Handler::Interrupt(other))) => {
            other == interrupt
        }
        _ => false,
    }
}

fn is_by(by: Option<ExpectedActor>, who: Caller) -> bool
    ensures { result ≡ spec.is_by by who }
{
    match by {
        Some(actor) => is_actor(actor, who),
        None => true,
    }
}

fn has_code(code: Er, reply: Option<Reply>) -> bool
    ensures { result ≡ spec.has_code code reply }
{
    match reply {
        Some(reply) => is_code(reply.code, code),
        None => false,
    }
}

fn puts(value: i32, call: Call) -> bool
    ensures { result ≡ spec.puts value call }
{
    match call {
        Call::Put { value: printed } => is_same(printed, value),
        _ => false,
    }
}

fn is_called(deed: ExpectedDeed, call: Call, reply: Option<Reply>) -> bool
    ensures { result ≡ spec.is_called deed call reply }
{
    match deed {
        ExpectedDeed::Answer(code) => has_code(code, reply),
        ExpectedDeed::Put(value) => puts(value, call),
        ExpectedDeed::Stop(_) => false,
    }
}

fn is_released(deed: ExpectedDeed, reply: Reply) -> bool
    ensures { result ≡ spec.is_released deed reply }
{
    match deed {
        ExpectedDeed::Answer(code) => is_code(reply.code, code),
        ExpectedDeed::Put(_) | ExpectedDeed::Stop(_) => false,
    }
}

fn is_stopped(deed: ExpectedDeed, told: Fault) -> bool
    ensures { result ≡ spec.is_stopped deed told }
{
    match deed {
        ExpectedDeed::Stop(fault) => is_fault(told, fault),
        ExpectedDeed::Answer(_) | ExpectedDeed::Put(_) => false,
    }
}

/// Whether a line tells that this happens.
pub fn tells(happening: Happening, line: Line) -> bool
    ensures { result ≡ spec.tells happening line }
{
    match line {
        Line::Call {
            caller,
            call,
            reply,
            ..
        } => is_called(happening.deed, call, reply) && is_by(happening.by, caller),
        Line::Gets { task, reply, .. } => {
            is_released(happening.deed, reply) && is_by(happening.by, Caller::Task(task))
        }
        Line::Fault { caller, fault, .. } => {
            is_stopped(happening.deed, fault) && is_by(happening.by, caller)
        }
        _ => false,
    }
}

fn is_task_of(actor: ExpectedActor, task: Option<u8>) -> bool
    ensures { result ≡ spec.is_task_of actor task }
{
    match task {
        Some(task) => is_actor(actor, Caller::Task(task)),
        None => false,
    }
}

/// Whether a line tells that this actor runs.
pub fn runs(actor: ExpectedActor, line: Line) -> bool
    ensures { result ≡ spec.runs actor line }
{
    match line {
        Line::Call { caller, .. } | Line::End { caller, .. } | Line::Fault { caller, .. } => {
            is_actor(actor, caller)
        }
        Line::Begins { handler, .. } => is_actor(actor, Caller::Handler(handler)),
        Line::Runs { task, .. } => is_task_of(actor, task),
        _ => false,
    }
}

/// Whether a line tells that the interrupt at this place is requested.
pub fn is_interrupt(interrupt: u8, line: Line) -> bool
    ensures { result ≡ spec.is_interrupt interrupt line }
{
    match line {
        Line::Int(other) => other == interrupt,
        _ => false,
    }
}

/// Whether a line tells that the clock advances.
pub fn is_tick(line: Line) -> bool
    ensures { result ≡ spec.is_tick line }
{
    matches!(line, Line::Tick(_))
}

/// The task of a caller, if it is one.
fn task_of(who: Caller) -> Option<u8>
    ensures { result ≡ spec.task_of who }
{
    match who {
        Caller::Task(task) => Some(task),
        Caller::Handler(_) => None,
    }
}

/// The task of whose deed a line tells, if it tells of one.
fn task_in(line: Line) -> Option<u8>
    ensures { result ≡ spec.task_in line }
{
    match line {
        Line::Call { caller, .. } | Line::End { caller, .. } | Line::Fault { caller, .. } => {
            task_of(caller)
        }
        Line::Gets { task, .. } => Some(task),
        _ => None,
    }
}

/// The task that does this by a line, if one does.
pub fn entering(happening: Happening, line: Line) -> Option<u8>
    ensures { result ≡ spec.entering happening line }
{
    if tells(happening, line) {
        task_in(line)
    } else {
        None
    }
}

fn is_this(task: u8, other: Option<u8>) -> bool
    ensures { result ≡ spec.is_this task other }
{
    match other {
        Some(other) => other == task,
        None => false,
    }
}

/// Whether a call terminates this task if it is answered `E_OK`.
fn terminates(task: u8, call: Call) -> bool
    ensures { result ≡ spec.terminates task call }
{
    match call {
        Call::TerTsk { task: number } => is_same(number, i32::from(task) + 1),
        _ => false,
    }
}

/// Whether a line tells that this task ends, stops with a fault or is terminated.
fn is_over(task: u8, line: Line) -> bool
    ensures { result ≡ spec.is_over task line }
{
    match line {
        Line::Call { call, reply, .. } => terminates(task, call) && has_code(Er::Ok, reply),
        Line::End { caller, .. } | Line::Fault { caller, .. } => is_this(task, task_of(caller)),
        _ => false,
    }
}

/// Whether a line tells that this task does this.
fn does(happening: Happening, task: u8, line: Line) -> bool
    ensures { result ≡ spec.does happening task line }
{
    tells(happening, line) && is_this(task, task_in(line))
}

/// Whether this task leaves by a line: the line tells that it does this, or that it is over.
pub fn leaves(happening: Happening, task: u8, line: Line) -> bool
    ensures { result ≡ spec.leaves happening task line }
{
    does(happening, task, line) || is_over(task, line)
}
