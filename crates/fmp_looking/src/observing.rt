//! Which calls a run makes, and what they are answered.
ghost use Rattle.std.specs.Prelude.{◌≡◌, ◌+◌, ◌≤◌, ◌^◌, IfOk, None, get_or, length, replicate};
ghost use Rattle.fmp_instructions.specs.Instructions.{code_tables};
ghost use Rattle.fmp_looking.specs.Observed as spec;

use crate::driving::task_count;
use fmp_base::{Caller, Effect, Er, Event, Line, Reply};
use fmp_frames::{CallPosition, CodePositions, event_position};
use fmp_instructions::MachineContext;
use fmp_kernel::{Body, Coming, Kernel};
use std::alloc::{AllocError, Global};

/// What is seen of a call.
#[derive(Clone, Copy)]
pub enum Outcome {
    /// It was made.
    Made,
    /// It was answered this code.
    Answered(Er),
}

/// Something is seen of the call at a position.
#[derive(Clone, Copy)]
pub struct CallSeen {
    pub position: CallPosition,
    pub outcome: Outcome,
}

/// What is seen of calls so far.
#[derive(Drop)]
struct CallsSeen {
    calls: Vec<CallSeen>,
    /// By the number of a task, the call at which it began to wait last, where that is known.
    waiting: Vec<Option<CallPosition>>,
}

/// The call at which a task began to wait last, if it is known.
fn waiting_at(waiting: &[Option<CallPosition>], task: u8) -> Option<CallPosition>
    ensures { result ≡ get_or waiting.now task None }
{
    match waiting.get(usize::from(task)) {
        Some(position) => *position,
        None => None,
    }
}

/// This many tasks of which none waits.
fn no_waits(alloc: Global, tasks: u8) -> Result<Vec<Option<CallPosition>>, AllocError>
    ensures { IfOk result (λ waiting. waiting.items ≡ replicate tasks None) }
{
    let mut waiting = Vec::new(alloc);
    for task in 0..tasks {
        let _ = task;
        waiting.push(None)?;
    }
    Ok(waiting)
}

impl CallsSeen {
    ghost use Rattle.std.specs.Prelude.{◌≡◌, IfOk, OnOk};
    ghost use Rattle.fmp_looking.specs.Observed.{answered, heard_event, heard_line, heard_lines, heard_of, made};
    ghost use Rattle.fmp_looking.specs.Observed.{replied, unheard, waits};

    /// Nothing is seen of a run of a system of this many tasks, after calls of earlier ones.
    fn new(alloc: Global, calls: Vec<CallSeen>, tasks: u8) -> Result<CallsSeen, AllocError>
        ensures { IfOk result (λ s. heard_of s ≡ unheard calls.items tasks) }
    {
        let waiting = no_waits(alloc, tasks)?;
        Ok(CallsSeen { calls, waiting })
    }

    /// A call was made, if one was.
    fn note_made(&mut self, position: Option<CallPosition>) -> Result<(), AllocError>
        ensures { OnOk result (heard_of self.new ≡ made (heard_of self.old) position) }
    {
        let Some(position) = position else {
            return Ok(());
        };
        let outcome = Outcome::Made;
        self.calls.push(CallSeen { position, outcome })?;
        Ok(())
    }

    /// A call was answered a code, if it is known which call.
    fn note_answer(&mut self, position: Option<CallPosition>, code: Er) -> Result<(), AllocError>
        ensures { OnOk result (heard_of self.new ≡ answered (heard_of self.old) position code) }
    {
        let Some(position) = position else {
            return Ok(());
        };
        let outcome = Outcome::Answered(code);
        self.calls.push(CallSeen { position, outcome })?;
        Ok(())
    }

    /// A task began to wait at a call.
    fn note_wait(&mut self, task: u8, position: Option<CallPosition>)
        ensures { heard_of self.new ≡ waits (heard_of self.old) task position }
    {
        let task = usize::from(task);
        if task < self.waiting.len() {
            self.waiting[task] = position;
        }
    }

    /// A call of a caller got this reply, or its caller waits.
    fn note_reply(
        &mut self,
        position: Option<CallPosition>,
        caller: Caller,
        reply: Option<Reply>,
    ) -> Result<(), AllocError>
        ensures { OnOk result (heard_of self.new ≡ replied (heard_of self.old) position caller reply) }
    {
        match (reply, caller) {
            (Some(reply), _) => self.note_answer(position, reply.code),
            (None, Caller::Task(task)) => {
                self.note_wait(task, position);
                Ok(())
            }
            (None, Caller::Handler(_)) => Ok(()),
        }
    }

    /// One line more, of an event that makes this call, if it makes one.
    fn note_line(&mut self, position: Option<CallPosition>, line: Line) -> Result<(), AllocError>
        ensures { OnOk result (heard_of self.new ≡ heard_line (heard_of self.old) position line) }
    {
        match line {
            Line::Call { caller, reply, .. } => self.note_reply(position, caller, reply),
            Line::Gets { task, reply, .. } => {
                let position = waiting_at(&self.waiting, task);
                self.note_answer(position, reply.code)
            }
            _ => Ok(()),
        }
    }

    /// The lines of an event that makes this call, if it makes one.
    fn note_lines(
        &mut self,
        position: Option<CallPosition>,
        lines: &[Line],
    ) -> Result<(), AllocError>
        ensures { OnOk result (heard_of self.new ≡ heard_lines (heard_of self.old) position lines.now) }
    {
        for line in lines {
            self.note_line(position, *line)?;
        }
        Ok(())
    }

    /// An event is done that makes this call, if it makes one.
    fn note_done(
        &mut self,
        position: Option<CallPosition>,
        lines: &[Line],
    ) -> Result<(), AllocError>
        ensures { OnOk result (heard_of self.new ≡ heard_lines (made (heard_of self.old) position) position lines.now) }
    {
        self.note_made(position)?;
        self.note_lines(position, lines)
    }

    /// An event did this: if it is done, it made this call, if it makes one, and these are its lines.
    fn note(
        &mut self,
        position: Option<CallPosition>,
        effect: Effect,
        lines: &[Line],
    ) -> Result<(), AllocError>
        ensures { OnOk result (heard_of self.new ≡ heard_event (heard_of self.old) position effect lines.now) }
    {
        match effect {
            Effect::Done => self.note_done(position, lines),
            Effect::Kept | Effect::Nothing => Ok(()),
        }
    }
}

/// The calls of earlier runs, and those that events make on a kernel: that each was made, and what it was answered.
/// `AllocError` if memory runs out.
pub fn calls_seen<B: Body<Ctx = MachineContext>>(
    alloc: Global,
    kernel: &mut Kernel<B>,
    text: CodePositions<'_>,
    events: &[Event],
    calls: Vec<CallSeen>,
) -> Result<Vec<CallSeen>, AllocError>
    requires few { kernel.old.taken + length events.now ≤ 2 ^ 31 }
    ensures { IfOk result (λ seen. seen.items ≡ spec.calls_seen B.meaning (code_tables text.entry.code.now)
        text.entry.positions.now kernel.old events.now calls.items) }
{
    let mut heard = CallsSeen::new(alloc, calls, task_count(kernel))?;
    for e in events {
        let position = event_position(kernel, text, *e);
        let effect = e.take(kernel);
        heard.note(position, effect, kernel.lines())?;
    }
    Ok(heard.calls)
}
