//! Where the calls of a run stand in the text of its bodies.
ghost use Rattle.std.specs.Prelude.{◌≡◌, ◌-◌, ◌≤◌, ◌^◌, IfOk, None, get_or, length, true};
ghost use Rattle.fmp_frames.specs.CallPositions.{AreCallsOf, fits};
ghost use Rattle.fmp_looking.specs.Looks.{OfImage, OfSteps};
ghost use Rattle.fmp_looking.specs.PositionedRuns.{positions_in, start_of};
ghost use Rattle.fmp_looking.specs.Traces.{ArePositions};

use crate::exit::{ViewExit, memory};
use crate::kinds::exit_over;
use crate::open_image::OpenImage;
use crate::opening::{StepsRun, events_for, image_of};
use fmp_base::Event;
use fmp_code::Vm;
use fmp_frames::{CallPosition, CallPositions, CodePositions, positions_made};
use fmp_image_bytes::Image;
use fmp_kernel::Kernel;
use fmp_replay::kernel_of;
use std::alloc::{AllocError, Global};

/// A run of an image from setup on, whose calls stand at these positions of a text of its bodies.
#[derive(Clone, Copy)]
pub struct PositionedRun<'a> {
    pub image: &'a Image,
    /// The bound of a stretch.
    pub bound: u64,
    pub positions: &'a CallPositions,
    pub events: &'a [Event],
}

/// For each event of a run that is done on this kernel where the call stands that it makes, if it makes one.
#[tactic(none)]
fn positions_on<'a>(
    alloc: Global,
    kernel: &mut Kernel<Vm<'a>>,
    run: PositionedRun<'a>,
) -> Result<Vec<Option<CallPosition>>, AllocError>
    requires kernel { kernel.old ≡ start_of run }
    requires few { length run.events.now ≤ 2 ^ 20 }
    ensures { IfOk result (λ made. made.items ≡ positions_in run.entry) }
{
    let text = CodePositions {
        code: run.image.code(),
        positions: run.positions,
    };
    positions_made(alloc, kernel, text, run.events)
}

/// For each event of a run that is done where the call stands that it makes, if it makes one. `AllocError` if memory
/// runs out.
#[tactic(none)]
pub fn positions_over(
    alloc: Global,
    run: PositionedRun<'_>,
) -> Result<Vec<Option<CallPosition>>, AllocError>
    requires few { length run.events.now ≤ 2 ^ 20 }
    ensures { IfOk result (λ made. made.items ≡ positions_in run.entry) }
{
    let mut kernel = kernel_of(alloc, run.image, run.bound)?;
    let made = positions_on(alloc, &mut kernel, run);
    drop(kernel);
    made
}

/// The same, in this text of the bodies of the image.
#[tactic(none)]
pub fn positions_by_text(
    alloc: Global,
    image: &Image,
    src: &[u8],
    events: &[Event],
    n: u64,
) -> Result<Vec<Option<CallPosition>>, AllocError>
    requires few { length events.now ≤ 2 ^ 20 }
    ensures { IfOk result (λ made. ArePositions src.now image.now n events.now made.items) }
{
    let positions = CallPositions::new(alloc, src)?;
    let run = PositionedRun {
        image,
        bound: n,
        positions: &positions,
        events,
    };
    positions_over(alloc, run)
}

/// Where the call of the event of this number stands, by the positions from the first event on.
pub fn position_of(positions: &[Option<CallPosition>], number: u32) -> Option<CallPosition>
    ensures { result ≡ get_or positions.now (number - 1) None }
{
    match positions.get((number as usize).saturating_sub(1)) {
        Some(position) => *position,
        None => None,
    }
}

/// Where the calls of the code of an image stand in a text of its bodies. The text must have as many bodies as the
/// image, each with as many calls.
pub fn positions_for(alloc: Global, image: &Image, src: &[u8]) -> Result<CallPositions, ViewExit>
    ensures calls { IfOk result (λ made. AreCallsOf src.now made) }
    ensures fit { IfOk result (λ made. fits image.now.code made ≡ true) }
{
    let positions = CallPositions::new(alloc, src).map_err(|error| memory(error))?;
    match positions.fits(alloc, image.code()) {
        Ok(true) => Ok(positions),
        Ok(false) => Err(ViewExit::OtherText),
        Err(error) => Err(memory(error)),
    }
}

/// Where the calls of a run of an image over a steps text stand in this text of its bodies.
fn positions_over_steps(
    alloc: Global,
    opened: &OpenImage<'_>,
    steps: &[u8],
    src: &[u8],
) -> Result<Vec<Option<CallPosition>>, ViewExit>
    ensures { IfOk result (λ made. OfSteps opened.now.image.now steps.now
        (λ es. ArePositions src.now opened.now.image.now opened.now.bound es made.items)) }
{
    let image = opened.image;
    let events = events_for(alloc, image, steps)?;
    let positions = positions_for(alloc, image, src)?;
    let run = PositionedRun {
        image,
        bound: opened.bound,
        positions: &positions,
        events: &events,
    };
    match positions_over(alloc, run) {
        Ok(made) => Ok(made),
        Err(error) => Err(memory(error)),
    }
}

/// Where the calls of a run stand in this text of the bodies of its image, for each event that is done. The text must
/// have as many bodies as the image, each with as many calls.
pub fn positions_of_run(
    alloc: Global,
    run: StepsRun<'_>,
    src: &[u8],
) -> Result<Vec<Option<CallPosition>>, ViewExit>
    ensures { IfOk result (λ made. OfImage run.entry.image.now (λ i. OfSteps i run.entry.steps.now
        (λ es. ArePositions src.now i run.entry.bound es made.items))) }
{
    match image_of(alloc, run.image) {
        Ok(image) => {
            let opened = OpenImage::new(&image, run.bound);
            let made = positions_over_steps(alloc, &opened, run.steps, src);
            drop(image);
            made
        }
        Err(fault) => Err(exit_over(alloc, fault, run.image)),
    }
}
