//! A run of a system that is built from its texts in memory.
ghost use Rattle.std.specs.Prelude.{◌≡◌, ◌≤◌, ◌∷◌, ◌^◌, [], None, IfOk, Ok, false, length, true};
ghost use Rattle.fmp_kernel.specs.Comings.{reaction_of};
ghost use Rattle.fmp_image.specs.Building.{Builds};
ghost use Rattle.fmp_instructions.specs.Machine.{code_meaning};
ghost use Rattle.fmp_replay.specs.Replays.{kernel_after};
ghost use Rattle.fmp_trace.specs.Steps.{steps_of};
ghost use Rattle.fmp_looking.specs.BuiltRuns.{AreComing, IsDrive, IsRunOf, IsRunOfTexts, IsRunTrace, IsTraced};
ghost use Rattle.fmp_looking.specs.Covered.{IsCoverage, IsLcov};
ghost use Rattle.fmp_looking.specs.Traces.{AreShown, IsTrace};

use crate::commands::{DriveEnding, RunOutput, ending_of, output_of};
use crate::covering::{run_coverage, run_tracefile};
use crate::driving::driven;
use crate::open_image::OpenImage;
use crate::opening::events_of;
use crate::refused::NamedText;
use crate::run_positions::positions_by_text;
use crate::tracing::trace_of;
use crate::why::why_of;
use fmp_arguments::kept_events;
use fmp_base::Event;
use fmp_engine::SimFault;
use fmp_frames::CallPosition;
use fmp_image::build;
use fmp_image_bytes::Image;
use fmp_lex::BuildFault;
use fmp_warnings::Form;
use std::alloc::{AllocError, Global};

/// How a system is run.
#[derive(Clone, Copy)]
pub struct Running {
    pub form: Form,
    /// Whether the table of calls is printed in place of the trace.
    pub calls: bool,
    /// Whether the lines of a trace say where their calls stand; objects of JSON always do.
    pub positions: bool,
    /// Whether a table of what calls and branches come to is made.
    pub coverage: bool,
    /// Whether a tracefile of lcov is made.
    pub lcov: bool,
    /// How many events are done at most where there are no steps, 0 to 2^20.
    pub events: u32,
    /// Whether processors go at random there, and by which number.
    pub seed: Option<u64>,
    /// The bound of a stretch.
    pub bound: u64,
}

/// Why there is no trace.
#[derive(Clone, Copy)]
pub enum NoTrace {
    /// A text, or the steps, have a fault.
    Faulty,
    /// Memory ran out.
    Memory,
}

/// What is printed and said of a run.
#[derive(Drop)]
pub struct Traced {
    /// The trace, and the states at its end.
    pub text: Vec<u8>,
    /// How its drive ended, if it was driven.
    pub ending: Option<DriveEnding>,
    /// What each task waits or spins for at the end.
    pub why: Vec<u8>,
    /// The tracefile of lcov; empty if it is not asked for.
    pub tracefile: Vec<u8>,
    /// The table of what calls and branches come to; empty if it is not asked for.
    pub coverage: Vec<u8>,
}

/// Steps, and how their drive ended if they were driven.
#[derive(Drop)]
struct Stepped {
    events: Vec<Event>,
    ending: Option<DriveEnding>,
}

/// The image that two texts build.
fn built(alloc: Global, cfg: &[u8], src: &[u8]) -> Result<Image, NoTrace>
    ensures { IfOk result (Builds cfg.now src.now) }
{
    match build(alloc, cfg, src) {
        Ok(image) => Ok(image),
        Err(BuildFault::Memory) => Err(NoTrace::Memory),
        Err(BuildFault::At(..)) => Err(NoTrace::Faulty),
    }
}

/// The trace of a run of an image over events, whose calls stand at these positions. `AllocError` if memory runs out.
fn image_trace(
    alloc: Global,
    run: Running,
    positions: &[Option<CallPosition>],
    image: &Image,
    events: &[Event],
) -> Result<Vec<u8>, AllocError>
    requires few { length events.now ≤ 2 ^ 20 }
    ensures { IfOk result (λ out. IsTrace run.form image.now.system positions.now code_meaning
        (reaction_of code_meaning) (kernel_after image.now run.bound []) events.now out.items) }
{
    let opened = OpenImage::new(image, run.bound);
    trace_of(alloc, run.form, positions, &opened, events)
}

/// The events that a drive of an image takes, and how it ended.
#[tactic(none)]
fn driven_events(alloc: Global, image: &Image, run: Running) -> Result<Stepped, AllocError>
    ensures drive { IfOk result (λ s. IsDrive image.now run s.events.items s.ending) }
    ensures few { IfOk result (λ s. length s.events.items ≤ 2 ^ 20) }
{
    let drive = driven(alloc, image, kept_events(run.events), run.seed, run.bound)?;
    let ending = ending_of(image, &drive);
    Ok(Stepped {
        events: drive.driven.steps,
        ending: Some(ending),
    })
}

/// The events of a steps text for an image.
fn read_events(alloc: Global, image: &Image, text: &[u8]) -> Result<Stepped, NoTrace>
    ensures read { IfOk result (λ s. steps_of image.now.system.processors text.now ≡ Ok s.events.items) }
    ensures ending { IfOk result (λ s. s.ending ≡ None) }
    ensures few { IfOk result (λ s. length s.events.items ≤ 2 ^ 20) }
{
    match events_of(alloc, text, image.system().processors) {
        Ok(events) => Ok(Stepped {
            events,
            ending: None,
        }),
        Err(SimFault::Memory) => Err(NoTrace::Memory),
        Err(_) => Err(NoTrace::Faulty),
    }
}

/// The events of a steps text for an image, or of a drive of it where there is no text.
fn steps_for(
    alloc: Global,
    image: &Image,
    steps: Option<&[u8]>,
    run: Running,
) -> Result<Stepped, NoTrace>
    ensures coming { IfOk result (λ s. AreComing image.now run steps.entry s.events.items s.ending) }
    ensures few { IfOk result (λ s. length s.events.items ≤ 2 ^ 20) }
{
    match steps {
        Some(text) => read_events(alloc, image, text),
        None => match driven_events(alloc, image, run) {
            Ok(stepped) => Ok(stepped),
            Err(_) => Err(NoTrace::Memory),
        },
    }
}

/// Where the calls of a run of an image stand in the text of its bodies, if that is shown: in objects of JSON it always
/// is.
fn shown_positions(
    alloc: Global,
    image: &Image,
    src: &[u8],
    events: &[Event],
    run: Running,
) -> Result<Vec<Option<CallPosition>>, AllocError>
    requires few { length events.now ≤ 2 ^ 20 }
    ensures { IfOk result (λ made. AreShown run.form run.positions src.now image.now run.bound events.now
        made.items) }
{
    match run.form {
        Form::Json => positions_by_text(alloc, image, src, events, run.bound),
        Form::Text => {
            if run.positions {
                positions_by_text(alloc, image, src, events, run.bound)
            } else {
                Ok(Vec::new(alloc))
            }
        }
    }
}

/// The trace of a run of an image over events, or the table of its calls. Its bodies are those of this text.
fn printed(
    alloc: Global,
    image: &Image,
    src: &[u8],
    events: &[Event],
    run: Running,
) -> Result<Vec<u8>, AllocError>
    requires { length events.now ≤ 2 ^ 20 }
    ensures { run.calls ≡ false
        → IfOk result (λ out. IsRunTrace image.now src.now run events.now out.items) }
{
    if run.calls {
        let opened = OpenImage::new(image, run.bound);
        return output_of(alloc, &opened, events, RunOutput::Calls);
    }
    let positions = shown_positions(alloc, image, src, events, run)?;
    image_trace(alloc, run, &positions, image, events)
}

/// The tracefile of lcov of what a run of an image comes to in this text of its bodies, if it is asked for; else empty.
fn tracefile_for(
    alloc: Global,
    image: &Image,
    source: NamedText<'_>,
    events: &[Event],
    run: Running,
) -> Result<Vec<u8>, AllocError>
    requires few { length events.now ≤ 2 ^ 20 }
    ensures { run.lcov ≡ true → IfOk result (λ out. IsLcov source.entry.name.now source.entry.text.now image.now
        run.bound (events.now ∷ []) out.items) }
{
    if run.lcov {
        run_tracefile(alloc, image, source, events, run.bound)
    } else {
        Ok(Vec::new(alloc))
    }
}

/// The table of what the calls and branches of this text of its bodies come to in a run of an image, if it is asked
/// for; else empty.
fn coverage_for(
    alloc: Global,
    image: &Image,
    source: NamedText<'_>,
    events: &[Event],
    run: Running,
) -> Result<Vec<u8>, AllocError>
    requires few { length events.now ≤ 2 ^ 20 }
    ensures { run.coverage ≡ true → IfOk result (λ out. IsCoverage source.entry.name.now source.entry.text.now
        image.now run.bound (events.now ∷ []) out.items) }
{
    if run.coverage {
        run_coverage(alloc, image, source, events, run.bound)
    } else {
        Ok(Vec::new(alloc))
    }
}

/// What is printed of a run of an image over steps.
fn traced_over(
    alloc: Global,
    image: &Image,
    source: NamedText<'_>,
    stepped: &Stepped,
    run: Running,
) -> Result<Traced, AllocError>
    requires { length stepped.now.events.items ≤ 2 ^ 20 }
    ensures traced { IfOk result (λ t. IsTraced image.now source.entry run stepped.now.events.items t) }
    ensures ending { IfOk result (λ t. t.ending ≡ stepped.now.ending) }
{
    let text = printed(alloc, image, source.text, &stepped.events, run)?;
    let opened = OpenImage::new(image, run.bound);
    let why = why_of(alloc, &opened, &stepped.events)?;
    let tracefile = tracefile_for(alloc, image, source, &stepped.events, run)?;
    let coverage = coverage_for(alloc, image, source, &stepped.events, run)?;
    Ok(Traced {
        text,
        ending: stepped.ending,
        why,
        tracefile,
        coverage,
    })
}

/// What is printed of a run of an image over a steps text, or of a drive of it.
fn traced_image(
    alloc: Global,
    image: &Image,
    source: NamedText<'_>,
    steps: Option<&[u8]>,
    run: Running,
) -> Result<Traced, NoTrace>
    ensures { IfOk result (IsRunOf image.now source.entry steps.entry run) }
{
    let stepped = steps_for(alloc, image, steps, run)?;
    match traced_over(alloc, image, source, &stepped, run) {
        Ok(traced) => Ok(traced),
        Err(_) => Err(NoTrace::Memory),
    }
}

/// What is printed of a run of the system of two texts: over a steps text, or of a drive where there is none.
pub fn traced_texts(
    alloc: Global,
    cfg: &[u8],
    source: NamedText<'_>,
    steps: Option<&[u8]>,
    run: Running,
) -> Result<Traced, NoTrace>
    ensures { IfOk result (IsRunOfTexts cfg.now source.entry steps.entry run) }
{
    let image = built(alloc, cfg, source.text)?;
    let traced = traced_image(alloc, &image, source, steps, run);
    drop(image);
    traced
}
