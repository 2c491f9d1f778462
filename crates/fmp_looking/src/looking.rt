//! Looks at runs: of an image over a steps text, and of a recording.
ghost use Rattle.std.specs.Prelude.{⊤, ℕ, ◌≡◌, ◌≤◌, ◌^◌, List, [], IfOk, Ok, Option, length};
ghost use Rattle.fmp_base.specs.Meanings.{Meaning};
ghost use Rattle.fmp_base.specs.Steps.{Reaction};
ghost use Rattle.fmp_foreign.specs.Foreign.{foreign_meaning};
ghost use Rattle.fmp_foreign.specs.Hosting.{reaction};
ghost use Rattle.fmp_frames.specs.Times.{known_times};
ghost use Rattle.fmp_instructions.specs.Machine.{code_meaning};
ghost use Rattle.fmp_kernel.specs.Comings.{reaction_of};
ghost use Rattle.fmp_kernel.specs.KernelViews.{KernelView};
ghost use Rattle.fmp_recording.specs.Recordings as recordings;
ghost use Rattle.fmp_recording.specs.Replaying.{new_kernel};
ghost use Rattle.fmp_replay.specs.Replays.{kernel_after};
ghost use Rattle.fmp_looking.specs.Exits.{exit_of_recording, has_last_events};
ghost use Rattle.fmp_looking.specs.Looks.{OfImage, OfRecording, OfSteps, OfSystem};

use crate::exit::{ViewExit, memory};
use crate::kinds::exit_over;
use crate::open_image::OpenImage;
use crate::open_system::OpenSystem;
use crate::opened::Opened;
use crate::opening::{StepsRun, events_for, image_of};
use fmp_frames::known_times;
use fmp_kernel::Coming;
use fmp_outside::Given;
use fmp_recording::{MOST_LINES, RecordingFault, read_recording, read_times};
use std::alloc::Global;

/// A look at a run of a system, whatever its bodies are.
pub trait RunLook {
    /// What it makes of a run.
    type Made;

    /// What holds of that: by what bodies mean, what comes to a kernel after setup, what each does to a kernel, and
    /// when they came.
    ghost makes: { {B C X : Type 0} → Self → (B → Meaning C) → (KernelView B C → X → Reaction C) → KernelView B C
        → List X → List (Option ℕ) → Self.Made → Type 0 } = { λ _ _ _ _ _ _ _. ⊤ };

    /// What it makes of what comes to a system. The times are those of a recording, in microseconds, in the same order;
    /// an image has none.
    fn of<O: Opened, T: Coming<O::Bodies>>(
        &self,
        alloc: Global,
        opened: &O,
        events: &[T],
        times: &[Option<u64>],
    ) -> Result<Self::Made, ViewExit>
        requires { length events.now ≤ 2 ^ 31 }
        ensures { IfOk result (makes self.now O.Bodies.meaning T.reaction (O.start opened.now) events.now
            times.now) };
}

/// What a look makes of a run of an image over a steps text.
fn over_steps<L: RunLook>(
    alloc: Global,
    look: &L,
    opened: &OpenImage<'_>,
    steps: &[u8],
) -> Result<L::Made, ViewExit>
    ensures { IfOk result (λ made. OfSteps opened.now.image.now steps.now (λ es. L.makes look.now
        code_meaning (reaction_of code_meaning) (kernel_after opened.now.image.now opened.now.bound []) es [] made)) }
{
    match events_for(alloc, opened.image, steps) {
        Ok(events) => look.of(alloc, opened, &events, &[]),
        Err(exit) => Err(exit),
    }
}

/// What a look makes of a run of an image over a steps text.
pub fn look_at_image<L: RunLook>(
    alloc: Global,
    look: &L,
    run: StepsRun<'_>,
) -> Result<L::Made, ViewExit>
    ensures { IfOk result (λ made. OfImage run.entry.image.now (λ i. OfSteps i run.entry.steps.now (λ es. L.makes
        look.now code_meaning (reaction_of code_meaning) (kernel_after i run.entry.bound []) es [] made))) }
{
    match image_of(alloc, run.image) {
        Ok(image) => {
            let made = over_steps(alloc, look, &OpenImage::new(&image, run.bound), run.steps);
            drop(image);
            made
        }
        Err(fault) => Err(exit_over(alloc, fault, run.image)),
    }
}

/// What was recorded, if it is at most as much as a kernel takes.
fn within_most(recording: Vec<Given>) -> Result<Vec<Given>, ViewExit>
    ensures same { IfOk result (λ kept. kept.items ≡ recording.items) }
    ensures few { IfOk result (λ kept. length kept.items ≤ 2 ^ 31) }
{
    if recording.len() > MOST_LINES as usize {
        let line = MOST_LINES + 1;
        return Err(ViewExit::Recording(RecordingFault::TooMany { line }));
    }
    Ok(recording)
}

/// Whether a recording has the last events of its run alone: its first line says how many are left out.
fn has_last_events(text: &[u8]) -> bool
    ensures { result ≡ has_last_events text.now }
{
    text.starts_with(b"dropped ")
}

/// Why a recording of this text is not read, which has this fault.
fn exit_over_recording(fault: RecordingFault, text: &[u8]) -> ViewExit
    ensures { result ≡ exit_of_recording fault text.now }
{
    match fault {
        RecordingFault::Memory => ViewExit::Recording(fault),
        RecordingFault::Line { .. }
        | RecordingFault::Range { .. }
        | RecordingFault::TooMany { .. } => {
            if has_last_events(text) {
                ViewExit::LastEvents
            } else {
                ViewExit::Recording(fault)
            }
        }
    }
}

/// What a recording of a system of this many processors says.
pub fn recording_of(alloc: Global, text: &[u8], processors: u8) -> Result<Vec<Given>, ViewExit>
    ensures read { IfOk result (λ recording. recordings.recording_of processors text.now ≡ Ok recording.items) }
    ensures few { IfOk result (λ recording. length recording.items ≤ 2 ^ 31) }
{
    match read_recording(alloc, text, processors) {
        Ok(recording) => within_most(recording),
        Err(fault) => Err(exit_over_recording(fault, text)),
    }
}

/// When each line of a recording came, where it says so.
fn times_of(alloc: Global, recording: &[u8]) -> Result<Vec<Option<u64>>, ViewExit>
    ensures { IfOk result (λ times. times.items ≡ recordings.times_of recording.now) }
{
    read_times(alloc, recording).map_err(|error| memory(error))
}

/// When setup and each event of a run came; nothing where that is not known.
pub fn known_of(alloc: Global, times: &[Option<u64>]) -> Result<Vec<u64>, ViewExit>
    ensures { IfOk result (λ known. known.items ≡ known_times times.now) }
{
    known_times(alloc, times).map_err(|error| memory(error))
}

/// What a look makes of a recorded run of a system.
fn over_recording<L: RunLook>(
    alloc: Global,
    look: &L,
    opened: &OpenSystem,
    recording: &[u8],
) -> Result<L::Made, ViewExit>
    ensures { IfOk result (λ made. OfRecording opened.now recording.now (λ gs. L.makes look.now
        foreign_meaning reaction (new_kernel opened.now) gs (recordings.times_of recording.now) made)) }
{
    let events = recording_of(alloc, recording, opened.system().processors)?;
    let times = times_of(alloc, recording)?;
    look.of(alloc, opened, &events, &times)
}

/// What a look makes of a recorded run of the system of a configuration.
pub fn look_at_recording<L: RunLook>(
    alloc: Global,
    look: &L,
    cfg: &[u8],
    recording: &[u8],
) -> Result<L::Made, ViewExit>
    ensures { IfOk result (λ made. OfSystem cfg.now (λ sys. OfRecording sys recording.now (λ gs. L.makes look.now
        foreign_meaning reaction (new_kernel sys) gs (recordings.times_of recording.now) made))) }
{
    match OpenSystem::new(alloc, cfg) {
        Ok(opened) => {
            let made = over_recording(alloc, look, &opened, recording);
            drop(opened);
            made
        }
        Err(fault) => Err(ViewExit::Configuration(fault)),
    }
}
