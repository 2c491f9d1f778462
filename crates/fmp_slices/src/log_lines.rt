//! A run in the standard log of TraceLogVisualizer: a line a change, `[time]object.attribute=value` or
//! `[time]object.behaviour()`.
ghost use Rattle.std.specs.Prelude.{◌≡◌, ◌++◌, IfOk, OnOk};
ghost use Rattle.fmp_base.specs.Systems.{tables_of};
ghost use Rattle.fmp_slices.specs.Clocks.{time_at};
ghost use Rattle.fmp_slices.specs.Resources.{actor_object};
ghost use Rattle.fmp_slices.specs.StandardLog as spec;

use crate::changes::{ChangeSubject, TrackChange, changes_of};
use crate::clock::Clock;
use crate::resource_file::{append_context, append_handler, append_object};
use fmp_base::{Caller, Handler, StateWord, System};
use fmp_json::{append, append_number};
use fmp_timeline::{Occupant, Run};
use std::alloc::{AllocError, Global};

/// A state as the visualizer has it.
fn state_name(word: StateWord) -> &'static str
    ensures { result.now ≡ spec.state_name word }
{
    match word {
        StateWord::Dormant => "DORMANT",
        StateWord::Ready => "RUNNABLE",
        StateWord::Running => "RUNNING",
        StateWord::Waiting => "WAITING",
        StateWord::Suspended => "SUSPENDED",
        StateWord::WaitingSuspended => "WAITING-SUSPENDED",
    }
}

/// Appends what a line begins with: its time and the name of its object.
fn append_front(time: u64, object: &[u8], out: &mut Vec<u8>) -> Result<(), AllocError>
    ensures { OnOk result (out.new.items ≡ out.old.items ++ spec.front_text time object.now) }
{
    append(b"[", out)?;
    append_number(time, out)?;
    append(b"]", out)?;
    append(object, out)?;
    append(b".", out)
}

/// Appends a line: at this time the object of this name did or became this.
fn append_line(
    time: u64,
    object: &[u8],
    what: &str,
    value: &[u8],
    out: &mut Vec<u8>,
) -> Result<(), AllocError>
    ensures { OnOk result (out.new.items
        ≡ out.old.items ++ spec.line_text time object.now what.now value.now) }
{
    append_front(time, object, out)?;
    append(what.as_bytes(), out)?;
    append(value, out)?;
    append(b"\n", out)
}

/// What a handler does that begins or ends, and the state that it comes into.
fn handling_words(begins: bool) -> (&'static str, &'static str)
    ensures event { result.0.now ≡ spec.handling_event begins }
    ensures state { result.1.now ≡ spec.handling_state begins }
{
    if begins {
        ("enter()", "RUNNING")
    } else {
        ("leave()", "DORMANT")
    }
}

/// What the lines of a run are made from.
#[derive(Clone, Copy)]
struct LineSource<'a> {
    alloc: Global,
    sys: &'a System,
    run: &'a Run,
    clock: &'a Clock,
}

impl LineSource<'_> {
    fn name_of(self, actor: Caller) -> Result<Vec<u8>, AllocError>
        ensures { IfOk result (λ name. name.items ≡ actor_object (tables_of self.entry.sys.now) actor) }
    {
        let mut name = Vec::new(self.alloc);
        append_object(self.sys, actor, &mut name)?;
        Ok(name)
    }

    /// The state of the task at a place after an event, if there is one.
    fn word_at(self, task: u8, event: u32) -> Option<StateWord> {
        Some(self.run.tasks.get(usize::from(task))?.at(event)?.word)
    }

    /// The lines of a task whose state after an event is this.
    fn append_word(
        self,
        event: u32,
        task: u8,
        word: StateWord,
        out: &mut Vec<u8>,
    ) -> Result<(), AllocError>
        ensures { OnOk result (out.new.items ≡ out.old.items ++ spec.word_line (tables_of self.entry.sys.now)
            (time_at self.entry.clock.now.times.items event) task word) }
    {
        let time = self.clock.at(event);
        let name = self.name_of(Caller::Task(task))?;
        append_line(time, &name, "state=", state_name(word).as_bytes(), out)
    }

    /// The line of a task, if its state is another after an event than before it.
    fn append_task(self, event: u32, task: u8, out: &mut Vec<u8>) -> Result<(), AllocError> {
        let Some(word) = self.word_at(task, event) else {
            return Ok(());
        };
        let before = match event.checked_sub(1) {
            Some(before) => self.word_at(task, before),
            None => None,
        };
        if before == Some(word) {
            return Ok(());
        }
        self.append_word(event, task, word, out)
    }

    /// What a processor runs after an event, if there is such a processor.
    fn occupant_at(self, processor: u8, event: u32) -> Option<Occupant> {
        self.run.occupants.get(usize::from(processor))?.at(event)
    }

    /// The two lines of a handler that begins, or ends.
    fn append_handling(
        self,
        time: u64,
        handler: Handler,
        begins: bool,
        out: &mut Vec<u8>,
    ) -> Result<(), AllocError>
        ensures { OnOk result (out.new.items
            ≡ out.old.items ++ spec.handling_lines (tables_of self.entry.sys.now) time handler begins) }
    {
        let mut name = Vec::new(self.alloc);
        append_handler(self.sys, handler, &mut name)?;
        let (what, state) = handling_words(begins);
        append_line(time, &name, what, &[], out)?;
        append_line(time, &name, "state=", state.as_bytes(), out)
    }

    /// The lines of a handler that ends and of one that begins, where a processor runs another than before.
    fn append_handlers(
        self,
        time: u64,
        before: Option<Handler>,
        after: Option<Handler>,
        out: &mut Vec<u8>,
    ) -> Result<(), AllocError> {
        if before == after {
            return Ok(());
        }
        if let Some(handler) = before {
            self.append_handling(time, handler, false, out)?;
        }
        match after {
            Some(handler) => self.append_handling(time, handler, true, out),
            None => Ok(()),
        }
    }

    /// The line of the context of a processor.
    fn append_context(
        self,
        time: u64,
        processor: u8,
        actor: Option<Caller>,
        out: &mut Vec<u8>,
    ) -> Result<(), AllocError>
        ensures { OnOk result (out.new.items ≡ out.old.items
            ++ spec.context_line (tables_of self.entry.sys.now) time processor actor) }
    {
        let mut context = Vec::new(self.alloc);
        append_context(processor, &mut context)?;
        match actor {
            Some(actor) => {
                let name = self.name_of(actor)?;
                append_line(time, &context, "name=", &name, out)
            }
            None => append_line(time, &context, "name=", b"None", out),
        }
    }

    /// The lines of a processor that runs something else after an event than before it.
    fn append_processor(
        self,
        event: u32,
        processor: u8,
        out: &mut Vec<u8>,
    ) -> Result<(), AllocError> {
        let Some(occupant) = self.occupant_at(processor, event) else {
            return Ok(());
        };
        let before = match event.checked_sub(1) {
            Some(before) => self.occupant_at(processor, before),
            None => None,
        };
        let handler = match before {
            Some(before) => before.handler,
            None => None,
        };
        let time = self.clock.at(event);
        self.append_handlers(time, handler, occupant.handler, out)?;
        self.append_context(time, processor, occupant.actor(), out)
    }

    fn append_change(self, change: TrackChange, out: &mut Vec<u8>) -> Result<(), AllocError> {
        match change.subject {
            ChangeSubject::Task(task) => self.append_task(change.event, task, out),
            ChangeSubject::Processor(processor) => self.append_processor(
                change.event,
                processor,
                out,
            ),
        }
    }
}

/// A run of a system in the standard log of TraceLogVisualizer, for its resource file of `resources`. The lines stand
/// in order of time; those of an event are the tasks whose states change, in order of number, and then the processors:
/// the handler that ends, the handler that begins, and the context. `AllocError` if memory runs out.
pub fn standard_log(
    alloc: Global,
    sys: &System,
    run: &Run,
    clock: &Clock,
) -> Result<Vec<u8>, AllocError> {
    let source = LineSource {
        alloc,
        sys,
        run,
        clock,
    };
    let changes = changes_of(alloc, run)?;
    let mut out = Vec::new(alloc);
    for change in &changes {
        source.append_change(*change, &mut out)?;
    }
    Ok(out)
}
