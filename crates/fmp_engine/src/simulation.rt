//! A simulation: an image run on the kernel over the events of a steps text.

ghost use Rattle.std.specs.Prelude.{◌≡◌, ◌≤◌, ◌^◌, ℕ, List, [], IfErr, OnErr, OnOk};
ghost use Rattle.fmp_image.specs.Building.{Builds};
ghost use Rattle.fmp_engine.specs.Simulations.{IsWhySim, IsWhySimCut, PrintsTexts, Simulates, SimulatesInto};
ghost use Rattle.fmp_image_bytes.specs.Images.{ImageTables, Spells};

use crate::fault::{SimCut, SimFault, TextCut};
use crate::outlet::Outlet;
use crate::play::{Subject, play_into};
use fmp_image::laws::built_image_prints_text;
use fmp_image_bytes::{Image, LoadFault, load};
use fmp_trace::Steps;
use std::alloc::Global;

/// Runs an image over the events of a steps text, and gives an outlet what it prints.
fn simulate_image<T: Outlet>(
    alloc: Global,
    image: &Image,
    steps: &[u8],
    n: u64,
    outlet: &mut T,
) -> Result<(), SimCut>
    requires low { 1 ≤ n }
    requires high { n ≤ 2 ^ 48 }
    ensures ok { (bytes : List ℕ) → Spells image.now bytes →
        OnOk result (SimulatesInto T.gave bytes steps.now n outlet.old outlet.new []) }
    ensures err { (bytes : List ℕ) → Spells image.now bytes →
        IfErr result (IsWhySimCut T.gave T.stopped bytes steps.now n outlet.old outlet.new) }
{
    image.keeps_rules();
    let system = image.system();
    let mut events = match Steps::new(steps, system.processors) {
        Ok(events) => events,
        Err(fault) => return Err(SimCut::Refused(SimFault::Steps(fault))),
    };
    let subject = Subject {
        system,
        body: image.vm(),
        bound: n,
    };
    match play_into(alloc, subject, &mut events, outlet) {
        Ok(()) => Ok(()),
        Err(TextCut::Memory) => Err(SimCut::Refused(SimFault::Memory)),
        Err(TextCut::Stopped) => Err(SimCut::Stopped),
    }
}

/// Loads an image, runs it over the events of a steps text, and gives an outlet what it prints.
fn simulate<T: Outlet>(
    alloc: Global,
    image: &[u8],
    steps: &[u8],
    n: u64,
    outlet: &mut T,
) -> Result<(), SimCut>
    requires low { 1 ≤ n }
    requires high { n ≤ 2 ^ 48 }
    ensures ok { OnOk result (SimulatesInto T.gave image.now steps.now n outlet.old outlet.new []) }
    ensures err { IfErr result (IsWhySimCut T.gave T.stopped image.now steps.now n outlet.old outlet.new) }
{
    let image = match load(alloc, image) {
        Ok(image) => image,
        Err(LoadFault::Memory) => return Err(SimCut::Refused(SimFault::Memory)),
        Err(fault) => return Err(SimCut::Refused(SimFault::Load(fault))),
    };
    let simulated = simulate_image(alloc, &image, steps, n, outlet);
    drop(image);
    simulated
}

/// Loads an image, runs it over the events of a steps text within n instructions a stretch, 1 to 2^48, and gives an
/// outlet the trace and the states of the tasks at the end, piece by piece.
///
/// The image is judged first, then the steps. Where one of them is refused or memory runs out, the outlet has been
/// given nothing.
pub fn sim_into<T: Outlet>(
    alloc: Global,
    image: &[u8],
    steps: &[u8],
    n: u64,
    outlet: &mut T,
) -> Result<(), SimCut>
    requires low { 1 ≤ n }
    requires high { n ≤ 2 ^ 48 }
    ensures ok { OnOk result (SimulatesInto T.gave image.now steps.now n outlet.old outlet.new []) }
    // Where two texts build the image, what it prints is what they mean.
    ensures headline { (cfg src : List ℕ) (i : ImageTables) (b : Builds cfg src i) → Spells i image.now →
        (text : List ℕ) → Simulates image.now steps.now n [] text → PrintsTexts i b.tasks.bodies steps.now n [] text }
    ensures err { IfErr result (IsWhySimCut T.gave T.stopped image.now steps.now n outlet.old outlet.new) }
{
    built_image_prints_text();
    simulate(alloc, image, steps, n, outlet)
}

/// Appends what a simulation prints. After an error nothing has been appended.
fn append_simulated(
    alloc: Global,
    image: &[u8],
    steps: &[u8],
    n: u64,
    out: &mut Vec<u8>,
) -> Result<(), SimFault>
    requires low { 1 ≤ n }
    requires high { n ≤ 2 ^ 48 }
    ensures ok { OnOk result (Simulates image.now steps.now n out.old.items out.new.items) }
    ensures refused { IfErr result (λ f. IsWhySim f image.now steps.now) }
    ensures err { OnErr result (out.new.items ≡ out.old.items) }
{
    let before = out.len();
    match simulate(alloc, image, steps, n, out) {
        Ok(()) => Ok(()),
        Err(SimCut::Refused(fault)) => Err(fault),
        Err(SimCut::Stopped) => {
            out.truncate(before);
            Err(SimFault::Memory)
        }
    }
}

/// Loads an image, runs it over the events of a steps text within n instructions a stretch, 1 to 2^48, and appends the
/// trace and the states of the tasks at the end.
///
/// The image is judged first, then the steps. After an error nothing has been appended.
pub fn sim(
    alloc: Global,
    image: &[u8],
    steps: &[u8],
    n: u64,
    out: &mut Vec<u8>,
) -> Result<(), SimFault>
    requires low { 1 ≤ n }
    requires high { n ≤ 2 ^ 48 }
    ensures ok { OnOk result (Simulates image.now steps.now n out.old.items out.new.items) }
    // Where two texts build the image, what was appended is what they mean.
    ensures headline { (cfg src : List ℕ) (i : ImageTables) (b : Builds cfg src i) → Spells i image.now →
        OnOk result (PrintsTexts i b.tasks.bodies steps.now n out.old.items out.new.items) }
    ensures refused { IfErr result (λ f. IsWhySim f image.now steps.now) }
    ensures err { OnErr result (out.new.items ≡ out.old.items) }
{
    built_image_prints_text();
    append_simulated(alloc, image, steps, n, out)
}
