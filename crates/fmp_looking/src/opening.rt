//! The image, and the events of a steps text.
ghost use Rattle.std.specs.Prelude.{◌≡◌, ◌≤◌, ◌^◌, IfOk, Ok, length};
ghost use Rattle.fmp_image_bytes.specs.Images.{image_at};
ghost use Rattle.fmp_trace.specs.Steps.{steps_of};

use crate::exit::ViewExit;
use crate::kinds::exit_over;
use fmp_base::Event;
use fmp_engine::SimFault;
use fmp_image_bytes::{Image, LoadFault, load};
use fmp_trace::{StepsFault, read_steps};
use std::alloc::Global;

/// A run of an image over a steps text, as its files have it.
#[derive(Clone, Copy)]
pub struct StepsRun<'a> {
    /// The bytes of the image.
    pub image: &'a [u8],
    /// The steps text.
    pub steps: &'a [u8],
    /// The bound of a stretch, 1 to 2^48.
    pub bound: u64,
}

/// The image that these bytes spell, or the fault that `fmp sim` has of them.
pub fn image_of(alloc: Global, bytes: &[u8]) -> Result<Image, SimFault>
    ensures { IfOk result (λ image. image_at bytes.now ≡ Ok image) }
{
    match load(alloc, bytes) {
        Ok(image) => Ok(image),
        Err(LoadFault::Memory) => Err(SimFault::Memory),
        Err(fault) => Err(SimFault::Load(fault)),
    }
}

/// The events of a steps text for this many processors, or the fault that `fmp sim` reports of it.
pub fn events_of(alloc: Global, text: &[u8], processors: u8) -> Result<Vec<Event>, SimFault>
    ensures read { IfOk result (λ events. steps_of processors text.now ≡ Ok events.items) }
    ensures few { IfOk result (λ events. length events.items ≤ 2 ^ 20) }
{
    match read_steps(alloc, text, processors) {
        Ok(events) => Ok(events),
        Err(StepsFault::Memory) => Err(SimFault::Memory),
        Err(fault) => Err(SimFault::Steps(fault)),
    }
}

/// The events of a steps text for an image, or why there are none.
pub fn events_for(alloc: Global, image: &Image, text: &[u8]) -> Result<Vec<Event>, ViewExit>
    ensures read { IfOk result (λ events. steps_of image.now.system.processors text.now ≡ Ok events.items) }
    ensures few { IfOk result (λ events. length events.items ≤ 2 ^ 20) }
{
    match events_of(alloc, text, image.system().processors) {
        Ok(events) => Ok(events),
        Err(fault) => Err(exit_over(alloc, fault, text)),
    }
}
