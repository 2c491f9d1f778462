//! What each command reads of bytes and makes of them.
ghost use Rattle.std.specs.Prelude.{◌≡◌, ◌+◌, ◌≤◌, ◌^◌, IfOk, length, option_map};
ghost use Rattle.fmp_base.specs.Systems.{tables_of};
ghost use Rattle.fmp_diagnosis.specs.Topics.{topic_asked as topic_asked_by};
ghost use Rattle.fmp_frames.specs.Counting.{counts_of, first_counts};
ghost use Rattle.fmp_frames.specs.DumpedRuns.{IsBegun};
ghost use Rattle.fmp_frames.specs.Shown.{WasShown};
ghost use Rattle.fmp_trace.specs.Steps.{steps_text};
ghost use Rattle.fmp_looking.specs.Drives as spec;
ghost use Rattle.fmp_looking.specs.Drives.{IsDrivenText};
ghost use Rattle.fmp_looking.specs.Looks.{OfImage};
ghost use Rattle.fmp_looking.specs.Meanings.{IsMeaning};
ghost use Rattle.fmp_looking.specs.Outputs.{IsOutput};

use crate::calling::calls_on;
use crate::driving::{Drive, driven};
use crate::exit::{ViewExit, memory};
use crate::looking::RunLook;
use crate::open_image::OpenImage;
use crate::opened::Opened;
use crate::opening::image_of;
use crate::stats_records::append_tally_records;
use crate::why::why_of;
use fmp_arguments::kept_events;
use fmp_base::{Event, System};
use fmp_diagnosis::{explain, topic_asked};
use fmp_drive::{DriveStop, NextRun};
use fmp_engine::SimFault;
use fmp_frames::{Tallies, Viewer, Waves, last_frame, show_all};
use fmp_image_bytes::Image;
use fmp_kernel::{Body, Coming, Kernel};
use fmp_trace::print_steps;
use fmp_warnings::Form;
use std::alloc::{AllocError, Global};

/// What the code that this word asks for means; none if there is none.
pub fn code(alloc: Global, word: &str) -> Result<Option<Vec<u8>>, AllocError>
    ensures { IfOk result (λ text. IsMeaning (topic_asked_by word.now) (option_map (λ t. t.items) text)) }
{
    let Some(topic) = topic_asked(alloc, word.as_bytes())? else {
        return Ok(None);
    };
    let mut out = Vec::new(alloc);
    explain(alloc, topic, &mut out)?;
    Ok(Some(out))
}

/// How a drive ended.
#[derive(Clone, Copy)]
pub struct DriveEnding {
    pub stop: DriveStop,
    /// How the next run of each processor ends, by places from 0.
    pub next: [NextRun; 8],
    /// How many processors there are, at most 8.
    pub processors: u8,
}

/// What a drive prints and says.
#[derive(Drop)]
pub struct DrivenText {
    /// The text of the steps.
    pub steps: Vec<u8>,
    pub ending: DriveEnding,
    /// What each task waits or spins for at the end.
    pub why: Vec<u8>,
}

/// How an image is driven.
#[derive(Clone, Copy)]
pub struct Driving {
    /// How many events are done at most, 0 to 2^20.
    pub events: u32,
    /// Whether processors go at random, and by which number.
    pub seed: Option<u64>,
    /// The bound of a stretch, 1 to 2^48.
    pub bound: u64,
}

/// The text of steps. `AllocError` if memory runs out.
pub fn printed_steps(alloc: Global, steps: &[Event]) -> Result<Vec<u8>, AllocError>
    ensures { IfOk result (λ text. text.items ≡ steps_text steps.now) }
{
    let mut text = Vec::new(alloc);
    print_steps(steps, &mut text)?;
    Ok(text)
}

/// How the drive of an image ended.
pub fn ending_of(image: &Image, drive: &Drive) -> DriveEnding
    ensures { result ≡ spec.ending_of image.now drive.now }
{
    DriveEnding {
        stop: drive.driven.stop,
        next: drive.next,
        processors: image.system().processors,
    }
}

/// The text of steps that run an image, why they stop, what each processor would do next, and what tasks wait for then.
#[tactic(none)]
fn driven_text(alloc: Global, image: &Image, driving: Driving) -> Result<DrivenText, AllocError>
    ensures { IfOk result (IsDrivenText image.now driving) }
{
    let drive = driven(
        alloc,
        image,
        kept_events(driving.events),
        driving.seed,
        driving.bound,
    )?;
    let steps = printed_steps(alloc, &drive.driven.steps)?;
    let why = why_of(
        alloc,
        &OpenImage::new(image, driving.bound),
        &drive.driven.steps,
    )?;
    let ending = ending_of(image, &drive);
    Ok(DrivenText { steps, ending, why })
}

/// The same, or that memory runs out.
fn driven_of(alloc: Global, image: &Image, driving: Driving) -> Result<DrivenText, SimFault>
    ensures { IfOk result (IsDrivenText image.now driving) }
{
    match driven_text(alloc, image, driving) {
        Ok(driven) => Ok(driven),
        Err(_) => Err(SimFault::Memory),
    }
}

/// Steps that run the image of these bytes, why they stop, and what each processor would do next.
pub fn steps(alloc: Global, image: &[u8], driving: Driving) -> Result<DrivenText, SimFault>
    ensures { IfOk result (λ t. OfImage image.now (λ i. IsDrivenText i driving t)) }
{
    match image_of(alloc, image) {
        Ok(image) => {
            let driven = driven_of(alloc, &image, driving);
            drop(image);
            driven
        }
        Err(fault) => Err(fault),
    }
}

/// What is counted of a run of a kernel over what comes to it.
#[tactic(none)]
fn tallied<B: Body, T: Coming<B>>(
    alloc: Global,
    kernel: &mut Kernel<B>,
    events: &[T],
) -> Result<Tallies, AllocError>
    requires few { kernel.old.taken + length events.now ≤ 2 ^ 31 }
    ensures { IfOk result (λ tallies. WasShown (λ x f. counts_of x ≡ first_counts f)
        ⟦<Tallies as Viewer>⟧.shown B.meaning T.reaction kernel.old events.now tallies) }
{
    let setup = last_frame(alloc, kernel)?;
    let mut tallies = Tallies::new(alloc, &setup)?;
    drop(setup);
    show_all(alloc, kernel, events, &mut tallies)?;
    Ok(tallies)
}

/// Appends the table of what each task did, or an object for each.
fn append_tallies(
    alloc: Global,
    form: Form,
    sys: &System,
    tallies: &Tallies,
    out: &mut Vec<u8>,
) -> Result<(), AllocError> {
    match form {
        Form::Text => tallies.append_table(alloc, sys, out),
        Form::Json => append_tally_records(alloc, sys, tallies, out),
    }
}

/// The table of a run of a kernel of this system over what comes to it.
#[tactic(none)]
fn table_on<B: Body, T: Coming<B>>(
    alloc: Global,
    form: Form,
    sys: &System,
    kernel: &mut Kernel<B>,
    events: &[T],
) -> Result<Vec<u8>, AllocError>
    requires few { kernel.old.taken + length events.now ≤ 2 ^ 31 }
{
    let tallies = tallied(alloc, kernel, events)?;
    let mut out = Vec::new(alloc);
    append_tallies(alloc, form, sys, &tallies, &mut out)?;
    Ok(out)
}

/// The waves of a run of a kernel of this system over what comes to it.
#[tactic(none)]
fn waved<B: Body, T: Coming<B>>(
    alloc: Global,
    sys: &System,
    kernel: &mut Kernel<B>,
    events: &[T],
) -> Result<Waves, AllocError>
    requires few { kernel.old.taken + length events.now ≤ 2 ^ 31 }
    ensures { IfOk result (λ waves. WasShown (λ x f. IsBegun (tables_of sys.now) f x)
        ⟦<Waves as Viewer>⟧.shown B.meaning T.reaction kernel.old events.now waves) }
{
    let setup = last_frame(alloc, kernel)?;
    let mut waves = Waves::new(alloc, sys, &setup)?;
    drop(setup);
    show_all(alloc, kernel, events, &mut waves)?;
    Ok(waves)
}

/// The waveform of a run of a kernel of this system over what comes to it.
#[tactic(none)]
fn dump_on<B: Body, T: Coming<B>>(
    alloc: Global,
    sys: &System,
    kernel: &mut Kernel<B>,
    events: &[T],
) -> Result<Vec<u8>, AllocError>
    requires few { kernel.old.taken + length events.now ≤ 2 ^ 31 }
    ensures { IfOk result (λ out. IsOutput RunOutput.Dump (tables_of sys.now) B.meaning T.reaction kernel.old
        events.now out.items) }
{
    let waves = waved(alloc, sys, kernel, events)?;
    waves.finish()
}

/// What is made of a run.
#[derive(Clone, Copy)]
pub enum RunOutput {
    /// The table of what each task did.
    Table(Form),
    /// The waveform, as a value change dump.
    Dump,
    /// The table of calls.
    Calls,
}

/// What is made of a run of a kernel of this system over what comes to it.
fn output_on<B: Body, T: Coming<B>>(
    alloc: Global,
    sys: &System,
    kernel: &mut Kernel<B>,
    events: &[T],
    output: RunOutput,
) -> Result<Vec<u8>, AllocError>
    requires few { kernel.old.taken + length events.now ≤ 2 ^ 31 }
    ensures { IfOk result (λ out. IsOutput output (tables_of sys.now) B.meaning T.reaction kernel.old events.now
        out.items) }
{
    match output {
        RunOutput::Table(form) => table_on(alloc, form, sys, kernel, events),
        RunOutput::Dump => dump_on(alloc, sys, kernel, events),
        RunOutput::Calls => calls_on(alloc, sys, kernel, events),
    }
}

/// What is made of what comes to a system.
#[tactic(none)]
pub fn output_of<O: Opened, T: Coming<O::Bodies>>(
    alloc: Global,
    opened: &O,
    events: &[T],
    output: RunOutput,
) -> Result<Vec<u8>, AllocError>
    requires { length events.now ≤ 2 ^ 31 }
    ensures { IfOk result (λ out. IsOutput output (O.start opened.now).system O.Bodies.meaning T.reaction
        (O.start opened.now) events.now out.items) }
{
    let mut kernel = opened.kernel(alloc)?;
    let made = output_on(alloc, opened.system(), &mut kernel, events, output);
    drop(kernel);
    made
}

impl RunLook for RunOutput {
    ghost use Rattle.fmp_looking.specs.Outputs.{IsOutput};

    type Made = Vec<u8>;

    ghost makes = { λ output meaning reaction k xs times out.
        IsOutput output k.system meaning reaction k xs out.items };

    fn of<O: Opened, T: Coming<O::Bodies>>(
        &self,
        alloc: Global,
        opened: &O,
        events: &[T],
        _times: &[Option<u64>],
    ) -> Result<Vec<u8>, ViewExit> {
        match output_of(alloc, opened, events, *self) {
            Ok(out) => Ok(out),
            Err(error) => Err(memory(error)),
        }
    }
}
