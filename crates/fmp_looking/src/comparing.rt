//! Two runs of a system side by side: the first event in which they differ.
ghost use Rattle.std.specs.Prelude.{◌≡◌, ◌-◌, ◌≤◌, ◌^◌, [], IfOk, length, min, option_map};
ghost use Rattle.fmp_foreign.specs.Foreign.{foreign_meaning};
ghost use Rattle.fmp_foreign.specs.Hosting.{reaction};
ghost use Rattle.fmp_frames.specs.Compares as frame_spec;
ghost use Rattle.fmp_frames.specs.Compares.{events_of};
ghost use Rattle.fmp_frames.specs.Watches.{LeadUp};
ghost use Rattle.fmp_instructions.specs.Machine.{code_meaning};
ghost use Rattle.fmp_kernel.specs.Comings.{reaction_of};
ghost use Rattle.fmp_recording.specs.Replaying.{new_kernel};
ghost use Rattle.fmp_replay.specs.Replays.{kernel_after};
ghost use Rattle.fmp_looking.specs.Differences.{IsDifference, IsToldUpTo, told_by};
ghost use Rattle.fmp_looking.specs.Looks.{OfImage, OfRecording, OfSteps, OfSystem};

use crate::exit::{ViewExit, memory};
use crate::kinds::exit_over;
use crate::looking::recording_of;
use crate::open_image::OpenImage;
use crate::open_system::OpenSystem;
use crate::opened::Opened;
use crate::opening::{events_for, image_of};
use fmp_frames::{ToldRun, append_difference, count_up_to, first_difference, told_on};
use fmp_kernel::Coming;
use std::alloc::{AllocError, Global};

/// What is told of a run of a system.
#[tactic(none)]
fn told_of<'a, O: Opened, T: Coming<O::Bodies>>(
    alloc: Global,
    opened: &'a O,
    events: &[T],
) -> Result<ToldRun<'a>, AllocError>
    requires { length events.now ≤ 2 ^ 31 }
    ensures { IfOk result (λ told.
        events_of told ≡ told_by O.Bodies.meaning T.reaction (O.start opened.now) events.now) }
{
    let mut kernel = opened.kernel(alloc)?;
    let told = told_on(alloc, opened.system(), &mut kernel, events);
    drop(kernel);
    told
}

/// The number of an event, which is below 2^32: for a greater number, the greatest one.
fn event_number(number: usize) -> u32
    ensures { result ≡ min number (2 ^ 32 - 1) }
{
    u32::try_from(number).unwrap_or(u32::MAX)
}

/// How much of what comes to a system leads up to the event of a number, or all of it if there are fewer.
#[tactic(none)]
fn count_to<O: Opened, T: Coming<O::Bodies>>(
    alloc: Global,
    opened: &O,
    events: &[T],
    number: usize,
) -> Result<usize, AllocError>
    requires { length events.now ≤ 2 ^ 31 }
    ensures few { IfOk result (λ count. count ≤ length events.now) }
    ensures count { IfOk result (LeadUp T.reaction (O.start opened.now) events.now (min number (2 ^ 32 - 1))) }
{
    let mut kernel = opened.kernel(alloc)?;
    let count = count_up_to(&mut kernel, events, event_number(number));
    drop(kernel);
    Ok(count)
}

/// What is told of a run of a system up to the event of a number.
fn told_up_to<'a, O: Opened, T: Coming<O::Bodies>>(
    alloc: Global,
    opened: &'a O,
    events: &[T],
    number: usize,
) -> Result<ToldRun<'a>, AllocError>
    requires { length events.now ≤ 2 ^ 31 }
    ensures { IfOk result (IsToldUpTo O.Bodies.meaning T.reaction (O.start opened.now) events.now number) }
{
    let count = count_to(alloc, opened, events, number)?;
    told_of(alloc, opened, &events[..count])
}

/// What is told of two runs of a system.
#[derive(Drop)]
struct RunsTold<'a> {
    a: ToldRun<'a>,
    b: ToldRun<'a>,
}

/// What is told of two runs of a system.
fn both_told<'a, O: Opened, T: Coming<O::Bodies>>(
    alloc: Global,
    opened: &'a O,
    a: &[T],
    b: &[T],
) -> Result<RunsTold<'a>, AllocError>
    requires a { length a.now ≤ 2 ^ 31 }
    requires b { length b.now ≤ 2 ^ 31 }
    ensures a { IfOk result (λ told.
        events_of told.a ≡ told_by O.Bodies.meaning T.reaction (O.start opened.now) a.now) }
    ensures b { IfOk result (λ told.
        events_of told.b ≡ told_by O.Bodies.meaning T.reaction (O.start opened.now) b.now) }
{
    let a = told_of(alloc, opened, a)?;
    let b = told_of(alloc, opened, b)?;
    Ok(RunsTold { a, b })
}

/// What is told of two runs of a system up to the event of a number.
fn both_told_up_to<'a, O: Opened, T: Coming<O::Bodies>>(
    alloc: Global,
    opened: &'a O,
    a: &[T],
    b: &[T],
    number: usize,
) -> Result<RunsTold<'a>, AllocError>
    requires a { length a.now ≤ 2 ^ 31 }
    requires b { length b.now ≤ 2 ^ 31 }
    ensures a { IfOk result (λ told. IsToldUpTo O.Bodies.meaning T.reaction (O.start opened.now) a.now number told.a) }
    ensures b { IfOk result (λ told. IsToldUpTo O.Bodies.meaning T.reaction (O.start opened.now) b.now number told.b) }
{
    let a = told_up_to(alloc, opened, a, number)?;
    let b = told_up_to(alloc, opened, b, number)?;
    Ok(RunsTold { a, b })
}

/// What is printed of runs that differ first in the event of a number, up to which they tell this.
fn text_of(
    alloc: Global,
    runs: &RunsTold<'_>,
    number: usize,
    ends: &RunsTold<'_>,
) -> Result<Vec<u8>, AllocError>
    ensures { IfOk result (λ out. out.items
        ≡ frame_spec.difference runs.now.a runs.now.b number ends.now.a ends.now.b) }
{
    let mut out = Vec::new(alloc);
    let (runs, ends) = ((&runs.a, &runs.b), (&ends.a, &ends.b));
    append_difference(alloc, runs, number, ends, &mut out)?;
    Ok(out)
}

/// The first event in which two runs of a system differ, with the events before it and the states that differ then;
/// none if they tell the same. `AllocError` if memory runs out.
fn difference<O: Opened, T: Coming<O::Bodies>>(
    alloc: Global,
    opened: &O,
    a: &[T],
    b: &[T],
) -> Result<Option<Vec<u8>>, AllocError>
    requires a { length a.now ≤ 2 ^ 31 }
    requires b { length b.now ≤ 2 ^ 31 }
    ensures { IfOk result (λ text. IsDifference O.Bodies.meaning T.reaction (O.start opened.now) a.now b.now
        (option_map (λ t. t.items) text)) }
{
    let runs = both_told(alloc, opened, a, b)?;
    match first_difference(&runs.a, &runs.b) {
        Some(number) => {
            let ends = both_told_up_to(alloc, opened, a, b, number)?;
            let text = text_of(alloc, &runs, number, &ends)?;
            Ok(Some(text))
        }
        None => Ok(None),
    }
}

/// The difference of the runs of an image over two steps texts.
fn difference_over(
    alloc: Global,
    opened: &OpenImage<'_>,
    a: &[u8],
    b: &[u8],
) -> Result<Option<Vec<u8>>, ViewExit>
    ensures { IfOk result (λ text. OfSteps opened.now.image.now a.now (λ xs. OfSteps opened.now.image.now b.now
        (λ ys. IsDifference code_meaning (reaction_of code_meaning)
        (kernel_after opened.now.image.now opened.now.bound []) xs ys (option_map (λ t. t.items) text)))) }
{
    let xs = events_for(alloc, opened.image, a)?;
    let ys = events_for(alloc, opened.image, b)?;
    match difference(alloc, opened, &xs, &ys) {
        Ok(difference) => Ok(difference),
        Err(error) => Err(memory(error)),
    }
}

/// The difference of the runs of the image of these bytes over two steps texts; none if they tell the same.
pub fn diff(
    alloc: Global,
    image: &[u8],
    a: &[u8],
    b: &[u8],
    bound: u64,
) -> Result<Option<Vec<u8>>, ViewExit>
    ensures { IfOk result (λ text. OfImage image.now (λ i. OfSteps i a.now (λ xs. OfSteps i b.now
        (λ ys. IsDifference code_meaning (reaction_of code_meaning) (kernel_after i bound []) xs ys
        (option_map (λ t. t.items) text))))) }
{
    match image_of(alloc, image) {
        Ok(image) => {
            let opened = OpenImage::new(&image, bound);
            let difference = difference_over(alloc, &opened, a, b);
            drop(image);
            difference
        }
        Err(fault) => Err(exit_over(alloc, fault, image)),
    }
}

/// The difference of two recorded runs of a system.
fn difference_recorded(
    alloc: Global,
    opened: &OpenSystem,
    a: &[u8],
    b: &[u8],
) -> Result<Option<Vec<u8>>, ViewExit>
    ensures { IfOk result (λ text. OfRecording opened.now a.now (λ xs. OfRecording opened.now b.now
        (λ ys. IsDifference foreign_meaning reaction (new_kernel opened.now) xs ys
        (option_map (λ t. t.items) text)))) }
{
    let processors = opened.system().processors;
    let xs = recording_of(alloc, a, processors)?;
    let ys = recording_of(alloc, b, processors)?;
    match difference(alloc, opened, &xs, &ys) {
        Ok(difference) => Ok(difference),
        Err(error) => Err(memory(error)),
    }
}

/// The difference of two recorded runs of the system of a configuration; none if they tell the same.
pub fn diff_recordings(
    alloc: Global,
    cfg: &[u8],
    a: &[u8],
    b: &[u8],
) -> Result<Option<Vec<u8>>, ViewExit>
    ensures { IfOk result (λ text. OfSystem cfg.now (λ sys. OfRecording sys a.now (λ xs. OfRecording sys b.now
        (λ ys. IsDifference foreign_meaning reaction (new_kernel sys) xs ys (option_map (λ t. t.items) text))))) }
{
    match OpenSystem::new(alloc, cfg) {
        Ok(opened) => {
            let difference = difference_recorded(alloc, &opened, a, b);
            drop(opened);
            difference
        }
        Err(fault) => Err(ViewExit::Configuration(fault)),
    }
}
