//! The coverage of the text of its bodies by runs of an image: as a table, and as a tracefile of lcov.
ghost use Rattle.std.specs.Prelude.{◌≡◌, ◌≤◌, ◌++◌, ◌∷◌, ◌^◌, [], IfOk, OnOk, length};
ghost use Rattle.fmp_looking.specs.Covered.{IsCoverage, IsLcov, IsSeen, seen_of};
ghost use Rattle.fmp_looking.specs.PositionedRuns.{calls_in, positions_in, start_of, steps_in};
ghost use Rattle.fmp_looking.specs.Ways.{IsWithSteps};

use crate::branches::add_branch_steps;
use crate::coverage::{counts_in, text_lines};
use crate::lcov::tracefile;
use crate::marks::marks_of;
use crate::observing::{CallSeen, calls_seen};
use crate::refused::NamedText;
use crate::run_positions::{PositionedRun, positions_over};
use crate::tables::{branch_counts, coverage_table};
use crate::ways::BranchWays;
use fmp_base::Event;
use fmp_code::Vm;
use fmp_frames::{CallPosition, CallPositions, CodePositions};
use fmp_image_bytes::Image;
use fmp_kernel::Kernel;
use fmp_replay::kernel_of;
use std::alloc::{AllocError, Global};

/// What is seen in runs of an image.
#[derive(Drop)]
pub struct Sightings {
    /// Where the calls stand that were made.
    made: Vec<Option<CallPosition>>,
    /// What they were answered.
    calls: Vec<CallSeen>,
    /// How often branches went each way.
    ways: BranchWays,
}

/// What is seen in runs of an image, and where the calls of its bodies stand.
#[derive(Drop)]
pub struct RunsSeen {
    positions: CallPositions,
    sightings: Sightings,
}

/// The calls of earlier runs, and those of a run on this kernel.
#[tactic(none)]
fn calls_on<'a>(
    alloc: Global,
    kernel: &mut Kernel<Vm<'a>>,
    run: PositionedRun<'a>,
    calls: Vec<CallSeen>,
) -> Result<Vec<CallSeen>, AllocError>
    requires kernel { kernel.old ≡ start_of run }
    requires few { length run.events.now ≤ 2 ^ 20 }
    ensures { IfOk result (λ seen. seen.items ≡ calls_in run.entry calls.items) }
{
    let text = CodePositions {
        code: run.image.code(),
        positions: run.positions,
    };
    calls_seen(alloc, kernel, text, run.events, calls)
}

/// The calls of earlier runs, and those of a run.
#[tactic(none)]
fn calls_over(
    alloc: Global,
    run: PositionedRun<'_>,
    calls: Vec<CallSeen>,
) -> Result<Vec<CallSeen>, AllocError>
    requires few { length run.events.now ≤ 2 ^ 20 }
    ensures { IfOk result (λ seen. seen.items ≡ calls_in run.entry calls.items) }
{
    let mut kernel = kernel_of(alloc, run.image, run.bound)?;
    let seen = calls_on(alloc, &mut kernel, run, calls);
    drop(kernel);
    seen
}

/// Adds the ways that branches went in a run.
#[tactic(none)]
fn add_steps(alloc: Global, run: PositionedRun<'_>, ways: &mut BranchWays) -> Result<(), AllocError>
    requires few { length run.events.now ≤ 2 ^ 20 }
    ensures { OnOk result (IsWithSteps 1 ways.old (steps_in run.entry) ways.new) }
{
    let mut kernel = kernel_of(alloc, run.image, run.bound)?;
    let added = add_branch_steps(alloc, &mut kernel, run.image.code(), run.events, ways);
    drop(kernel);
    added
}

/// Adds where the calls of a run stand.
fn add_made(
    alloc: Global,
    run: PositionedRun<'_>,
    made: &mut Vec<Option<CallPosition>>,
) -> Result<(), AllocError>
    requires few { length run.events.now ≤ 2 ^ 20 }
    ensures { OnOk result (made.new.items ≡ made.old.items ++ positions_in run.entry) }
{
    let more = positions_over(alloc, run)?;
    made.extend_from_slice(&more)
}

impl Sightings {
    ghost use Rattle.std.specs.Prelude.{List, ◌≡◌, ◌≤◌, ◌^◌, IfOk, length};
    ghost use Rattle.fmp_frames.specs.declared.call_positions.CallPosition.{CallPosition as Position};
    ghost use Rattle.fmp_looking.specs.Covered.{both, none_seen, seen_at, with_run as after_run};

    /// Nothing is seen yet.
    pub fn none(alloc: Global) -> Sightings
        ensures { (positions : List (List Position)) → seen_at positions result ≡ none_seen positions }
    {
        Sightings {
            made: Vec::new(alloc),
            calls: Vec::new(alloc),
            ways: BranchWays::none(alloc),
        }
    }

    /// What is seen in a run too. `AllocError` if memory runs out.
    pub fn with_run(self, alloc: Global, run: PositionedRun<'_>) -> Result<Sightings, AllocError>
        requires few { length run.events.now ≤ 2 ^ 20 }
        ensures { IfOk result (λ s. seen_at run.entry.positions.now s
            ≡ after_run run.entry.image.now run.entry.bound (seen_at run.entry.positions.now self)
            run.entry.events.now) }
    {
        let Sightings {
            mut made,
            calls,
            mut ways,
        } = self;
        add_made(alloc, run, &mut made)?;
        let calls = calls_over(alloc, run, calls)?;
        add_steps(alloc, run, &mut ways)?;
        Ok(Sightings { made, calls, ways })
    }

    /// What is seen in later runs too. `AllocError` if memory runs out.
    pub fn and(self, alloc: Global, later: &Sightings) -> Result<Sightings, AllocError>
        ensures { IfOk result (λ s. (positions : List (List Position)) →
            seen_at positions s ≡ both (seen_at positions self) (seen_at positions later.now)) }
    {
        let Sightings {
            mut made,
            mut calls,
            mut ways,
        } = self;
        made.extend_from_slice(&later.made)?;
        calls.extend_from_slice(&later.calls)?;
        ways.add_all(alloc, &later.ways)?;
        Ok(Sightings { made, calls, ways })
    }
}

impl RunsSeen {
    ghost use Rattle.std.specs.Prelude.{◌≡◌, IfOk};
    ghost use Rattle.fmp_looking.specs.Covered.{IsTable, IsTracefile, seen_at, seen_of};

    /// What is seen in runs of an image whose calls stand at these positions.
    pub fn new(positions: CallPositions, sightings: Sightings) -> RunsSeen
        ensures { seen_of result ≡ seen_at positions sightings }
    {
        RunsSeen {
            positions,
            sightings,
        }
    }

    /// The table of what is seen, in this text of the file of this name. `AllocError` if memory runs out.
    pub fn table(&self, alloc: Global, file: &str, src: &[u8]) -> Result<Vec<u8>, AllocError>
        ensures { IfOk result (λ out. IsTable file.now src.now (seen_of self.now) out.items) }
    {
        let marks = marks_of(alloc, src)?;
        coverage_table(
            alloc,
            file.as_bytes(),
            &self.sightings.calls,
            &self.sightings.ways,
            &marks,
        )
    }

    /// The tracefile of lcov of what is seen, in this text of the file of this name. `AllocError` if memory runs out.
    pub fn tracefile(&self, alloc: Global, file: &str, src: &[u8]) -> Result<Vec<u8>, AllocError>
        ensures { IfOk result (λ out. IsTracefile file.now src.now (seen_of self.now) out.items) }
    {
        let lines = text_lines(alloc, src)?;
        let counts = counts_in(alloc, &lines, &self.sightings.made)?;
        let marks = marks_of(alloc, src)?;
        let branches = branch_counts(alloc, &self.sightings.ways, &marks)?;
        tracefile(alloc, file, &counts, &branches)
    }
}

/// What is seen of a run of an image with bodies of this text.
fn seen_of_run(
    alloc: Global,
    image: &Image,
    src: &[u8],
    events: &[Event],
    n: u64,
) -> Result<RunsSeen, AllocError>
    requires few { length events.now ≤ 2 ^ 20 }
    ensures { IfOk result (λ s. IsSeen src.now image.now n (events.now ∷ []) (seen_of s)) }
{
    let positions = CallPositions::new(alloc, src)?;
    let run = PositionedRun {
        image,
        bound: n,
        positions: &positions,
        events,
    };
    let none = Sightings::none(alloc);
    let seen = none.with_run(alloc, run)?;
    Ok(RunsSeen::new(positions, seen))
}

/// The table of the coverage of this text of its bodies by a run of an image. `AllocError` if memory runs out.
pub fn run_coverage(
    alloc: Global,
    image: &Image,
    source: NamedText<'_>,
    events: &[Event],
    n: u64,
) -> Result<Vec<u8>, AllocError>
    requires few { length events.now ≤ 2 ^ 20 }
    ensures { IfOk result (λ out. IsCoverage source.entry.name.now source.entry.text.now image.now n
        (events.now ∷ []) out.items) }
{
    let seen = seen_of_run(alloc, image, source.text, events, n)?;
    seen.table(alloc, source.name, source.text)
}

/// The tracefile of lcov of the coverage of this text of its bodies by a run of an image. `AllocError` if memory runs
/// out.
pub fn run_tracefile(
    alloc: Global,
    image: &Image,
    source: NamedText<'_>,
    events: &[Event],
    n: u64,
) -> Result<Vec<u8>, AllocError>
    requires few { length events.now ≤ 2 ^ 20 }
    ensures { IfOk result (λ out. IsLcov source.entry.name.now source.entry.text.now image.now n (events.now ∷ [])
        out.items) }
{
    let seen = seen_of_run(alloc, image, source.text, events, n)?;
    seen.tracefile(alloc, source.name, source.text)
}
