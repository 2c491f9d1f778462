//! What the lines of a run tell of calls.
ghost use Rattle.std.specs.Prelude.{◌≡◌, [], IfOk, None, OnOk, get_or, replicate};
ghost use Rattle.fmp_frames.specs.Told as spec;

use fmp_base::{Caller, Er, Line, Reply, Service};
use std::alloc::{AllocError, Global};

/// What a line tells of a call.
#[derive(Clone, Copy, PartialEq, Eq)]
pub enum ToldOutcome {
    /// It is made, and is answered this code at once.
    Answered(Er),
    /// It is made, and its caller begins to wait.
    Waits,
    /// Its caller waited, and gets this code.
    Released(Er),
}

/// A line that tells of a call: who made it, and which call it is.
#[derive(Clone, Copy)]
pub struct CallTold {
    pub caller: Caller,
    pub service: Service,
    pub outcome: ToldOutcome,
}

/// What the lines of a run told of calls so far.
#[derive(Drop)]
pub struct ToldCalls {
    /// What each line told, in order.
    pub told: Vec<CallTold>,
    /// By the number of a task, the call at which it began to wait last.
    pub waiting: Vec<Option<Service>>,
}

/// What became of a call with this reply, or with none.
fn outcome_of(reply: Option<Reply>) -> ToldOutcome
    ensures { result ≡ spec.outcome_of reply }
{
    match reply {
        Some(reply) => ToldOutcome::Answered(reply.code),
        None => ToldOutcome::Waits,
    }
}

/// The call at which a task began to wait last, if there is such a task.
fn waiting_at(waiting: &[Option<Service>], task: u8) -> Option<Service>
    ensures { result ≡ get_or waiting.now task None }
{
    match waiting.get(usize::from(task)) {
        Some(service) => *service,
        None => None,
    }
}

/// The end of the wait of a task that began to wait at this call.
fn released(task: u8, service: Option<Service>, code: Er) -> Option<CallTold>
    ensures { result ≡ spec.released task service code }
{
    match service {
        Some(service) => Some(CallTold {
            caller: Caller::Task(task),
            service,
            outcome: ToldOutcome::Released(code),
        }),
        None => None,
    }
}

/// What a line tells of a call, where tasks began to wait at these calls.
fn told_by(waiting: &[Option<Service>], line: Line) -> Option<CallTold>
    ensures { result ≡ spec.told_by waiting.now line }
{
    match line {
        Line::Call {
            caller,
            call,
            reply,
            ..
        } => Some(CallTold {
            caller,
            service: call.service(),
            outcome: outcome_of(reply),
        }),
        Line::Gets { task, reply, .. } => { released(task, waiting_at(waiting, task), reply.code) }
        _ => None,
    }
}

/// A task begins to wait at this call.
fn wait_at(waiting: &mut [Option<Service>], task: u8, service: Service)
    ensures { waiting.new ≡ spec.wait_at waiting.old task service }
{
    let task = usize::from(task);
    if task < waiting.len() {
        waiting[task] = Some(service);
    }
}

/// A line is told, at whose call a task may begin to wait.
fn note_wait(waiting: &mut [Option<Service>], line: Line)
    ensures { waiting.new ≡ spec.waiting_after waiting.old line }
{
    match line {
        Line::Call {
            caller: Caller::Task(task),
            call,
            reply: None,
            ..
        } => wait_at(waiting, task, call.service()),
        _ => {}
    }
}

/// No call, for this many tasks.
fn no_calls(alloc: Global, tasks: usize) -> Result<Vec<Option<Service>>, AllocError>
    ensures { IfOk result (λ waiting. waiting.items ≡ replicate tasks None) }
{
    let mut waiting = Vec::new(alloc);
    for task in 0..tasks {
        let _ = task;
        waiting.push(None)?;
    }
    Ok(waiting)
}

impl ToldCalls {
    /// No line is told yet, of a system with this many tasks. `AllocError` if memory runs out.
    pub fn new(alloc: Global, tasks: usize) -> Result<ToldCalls, AllocError>
        ensures told { IfOk result (λ calls. calls.told.items ≡ []) }
        ensures waiting { IfOk result (λ calls. calls.waiting.items ≡ replicate tasks None) }
    {
        Ok(ToldCalls {
            told: Vec::new(alloc),
            waiting: no_calls(alloc, tasks)?,
        })
    }

    /// One line more.
    fn tell_line(&mut self, line: Line) -> Result<(), AllocError>
        ensures { OnOk result (spec.told_of self.new ≡ spec.told_after (spec.told_of self.old) line) }
    {
        if let Some(told) = told_by(&self.waiting, line) {
            self.told.push(told)?;
        }
        note_wait(&mut self.waiting, line);
        Ok(())
    }

    /// More lines, in order. After an error what was told of them is not whole.
    pub fn tell(&mut self, lines: &[Line]) -> Result<(), AllocError>
        ensures { OnOk result (spec.told_of self.new ≡ spec.told_after_all (spec.told_of self.old) lines.now) }
    {
        for line in lines {
            self.tell_line(*line)?;
        }
        Ok(())
    }
}
