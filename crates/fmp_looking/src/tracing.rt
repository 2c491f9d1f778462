//! The trace of a run in the names of its objects, and the states at its end.
ghost use Rattle.std.specs.Prelude.{◌≡◌, ◌+◌, ◌≤◌, ◌^◌, ◌++◌, [], IfOk, length};
ghost use Rattle.fmp_base.specs.Systems.{tables_of};
ghost use Rattle.fmp_frames.specs.Frames.{table_of};
ghost use Rattle.fmp_frames.specs.Shown.{WasShown};
ghost use Rattle.fmp_frames.specs.Watches.{IsWhy};
ghost use Rattle.fmp_looking.specs.Traces as spec;
ghost use Rattle.fmp_looking.specs.Traces.{IsBegun, IsTrace, Traces, end_text};

use crate::exit::{ViewExit, memory};
use crate::looking::RunLook;
use crate::opened::Opened;
use crate::run_positions::position_of;
use crate::states::states_in;
use crate::why::why_of;
use fmp_base::{System, TaskBlock, TaskState};
use fmp_frames::{
    CallPosition, EventLines, Frame, LineForm, Viewer, append_positioned, last_frame, show_all,
};
use fmp_kernel::{Body, Coming, Kernel};
use fmp_warnings::Form;
use std::alloc::{AllocError, Global};

/// How the events of a run are printed.
#[derive(Clone, Copy)]
struct Printing<'a> {
    form: Form,
    /// The system, whose objects have names.
    sys: &'a System,
    /// Where the calls of the events stand, from the first event on; none are shown after the last one here.
    positions: &'a [Option<CallPosition>],
}

/// A trace so far, and the states of the tasks after its last event.
#[derive(Drop)]
pub struct Tracer<'a> {
    printing: Printing<'a>,
    /// The number of the last event.
    number: u32,
    out: Vec<u8>,
    states: Vec<TaskState>,
    blocks: Vec<TaskBlock>,
}

/// The form of a line that says where its call stands.
pub fn line_form(form: Form) -> LineForm
    ensures { result ≡ spec.line_form form }
{
    match form {
        Form::Text => LineForm::Text,
        Form::Json => LineForm::Record,
    }
}

/// The number of the last event, after one that kept the place of a processor or none.
fn number_after(number: u32, kept: Option<u8>) -> u32
    ensures { result ≡ spec.number_after number kept }
{
    match kept {
        Some(_) => number,
        None => number.saturating_add(1),
    }
}

impl<'a> Tracer<'a> {
    /// The trace of a system after setup. `AllocError` if memory runs out.
    fn new(alloc: Global, printing: Printing<'a>, setup: &Frame) -> Result<Tracer<'a>, AllocError>
        ensures { IfOk result (λ made. IsBegun printing.entry.form (tables_of printing.entry.sys.now)
            printing.entry.positions.now made (table_of setup.now)) }
    {
        let mut out = Vec::new(alloc);
        let form = line_form(printing.form);
        let told = EventLines {
            number: 0,
            position: None,
            lines: &setup.lines,
        };
        append_positioned(alloc, form, printing.sys, told, &mut out)?;
        Ok(Tracer {
            printing,
            number: 0,
            out,
            states: Vec::from_slice(alloc, &setup.states)?,
            blocks: Vec::from_slice(alloc, &setup.blocks)?,
        })
    }

    /// The whole trace: its lines, and the states at the end.
    fn finish(self, alloc: Global) -> Result<Vec<u8>, AllocError>
        ensures { IfOk result (λ out. out.items ≡ self.entry.out.items ++ end_text self.entry) }
    {
        let Tracer {
            printing,
            mut out,
            states,
            blocks,
            ..
        } = self;
        let end = states_in(alloc, printing.form, printing.sys, &states, &blocks)?;
        out.extend_from_slice(&end)?;
        Ok(out)
    }
}

impl Viewer for Tracer<'_> {
    ghost shown = { λ x f y. Traces x f y };

    /// One event more.
    fn show(&mut self, alloc: Global, frame: &Frame) -> Result<(), AllocError> {
        self.number = number_after(self.number, frame.kept);
        let told = EventLines {
            number: self.number,
            position: position_of(self.printing.positions, self.number),
            lines: &frame.lines,
        };
        append_positioned(
            alloc,
            line_form(self.printing.form),
            self.printing.sys,
            told,
            &mut self.out,
        )?;
        self.states = Vec::from_slice(alloc, &frame.states)?;
        self.blocks = Vec::from_slice(alloc, &frame.blocks)?;
        Ok(())
    }
}

/// What is traced of a run of a kernel over what comes to it.
#[tactic(none)]
fn traced<'a, B: Body, T: Coming<B>>(
    alloc: Global,
    printing: Printing<'a>,
    kernel: &mut Kernel<B>,
    events: &[T],
) -> Result<Tracer<'a>, AllocError>
    requires few { kernel.old.taken + length events.now ≤ 2 ^ 31 }
    ensures { IfOk result (λ tracer. WasShown
        (IsBegun printing.entry.form (tables_of printing.entry.sys.now) printing.entry.positions.now)
        ⟦<Tracer<'a> as Viewer>⟧.shown B.meaning T.reaction kernel.old events.now tracer) }
{
    let setup = last_frame(alloc, kernel)?;
    let mut tracer = Tracer::new(alloc, printing, &setup)?;
    drop(setup);
    show_all(alloc, kernel, events, &mut tracer)?;
    Ok(tracer)
}

/// The trace of a run of a kernel over what comes to it. `AllocError` if memory runs out.
#[tactic(none)]
fn trace_on<B: Body, T: Coming<B>>(
    alloc: Global,
    printing: Printing<'_>,
    kernel: &mut Kernel<B>,
    events: &[T],
) -> Result<Vec<u8>, AllocError>
    requires few { kernel.old.taken + length events.now ≤ 2 ^ 31 }
    ensures { IfOk result (λ out. IsTrace printing.entry.form (tables_of printing.entry.sys.now)
        printing.entry.positions.now B.meaning T.reaction kernel.old events.now out.items) }
{
    let tracer = traced(alloc, printing, kernel, events)?;
    tracer.finish(alloc)
}

/// The trace of a run of a system. The calls of its events stand at these positions, from the first event on; it shows
/// no place after the last one. `AllocError` if memory runs out.
#[tactic(none)]
pub fn trace_of<O: Opened, T: Coming<O::Bodies>>(
    alloc: Global,
    form: Form,
    positions: &[Option<CallPosition>],
    opened: &O,
    events: &[T],
) -> Result<Vec<u8>, AllocError>
    requires { length events.now ≤ 2 ^ 31 }
    ensures { IfOk result (λ out. IsTrace form (O.start opened.now).system positions.now O.Bodies.meaning T.reaction
        (O.start opened.now) events.now out.items) }
{
    let mut kernel = opened.kernel(alloc)?;
    let printing = Printing {
        form,
        sys: opened.system(),
        positions,
    };
    let trace = trace_on(alloc, printing, &mut kernel, events);
    drop(kernel);
    trace
}

/// The trace of a run, and what each task waits or spins for at its end.
#[derive(Drop)]
pub struct Recorded {
    pub text: Vec<u8>,
    pub why: Vec<u8>,
}

/// What is printed of a run of a system. `AllocError` if memory runs out.
fn told_of<O: Opened, T: Coming<O::Bodies>>(
    alloc: Global,
    form: Form,
    opened: &O,
    events: &[T],
) -> Result<Recorded, AllocError>
    requires { length events.now ≤ 2 ^ 31 }
    ensures text { IfOk result (λ told. IsTrace form (O.start opened.now).system [] O.Bodies.meaning T.reaction
        (O.start opened.now) events.now told.text.items) }
    ensures why { IfOk result (λ told. IsWhy (O.start opened.now).system O.Bodies.meaning T.reaction
        (O.start opened.now) events.now told.why.items) }
{
    let text = trace_of(alloc, form, &[], opened, events)?;
    let why = why_of(alloc, opened, events)?;
    Ok(Recorded { text, why })
}

impl RunLook for Form {
    ghost use Rattle.std.specs.Prelude.{[]};
    ghost use Rattle.fmp_frames.specs.Watches.{IsWhy};
    ghost use Rattle.fmp_looking.specs.Traces.{IsTrace};

    type Made = Recorded;

    ghost makes = { λ form meaning reaction k xs times told.
        IsTrace form k.system [] meaning reaction k xs told.text.items
        × IsWhy k.system meaning reaction k xs told.why.items };

    fn of<O: Opened, T: Coming<O::Bodies>>(
        &self,
        alloc: Global,
        opened: &O,
        events: &[T],
        _times: &[Option<u64>],
    ) -> Result<Recorded, ViewExit> {
        match told_of(alloc, *self, opened, events) {
            Ok(told) => Ok(told),
            Err(error) => Err(memory(error)),
        }
    }
}
