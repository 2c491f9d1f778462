//! Random runs of an image.
ghost use Rattle.std.specs.Prelude.{◌≡◌, ◌-◌, IfNone, IfOk, IfSome, false};
ghost use Rattle.fmp_instructions.specs.Machine.{code_meaning};
ghost use Rattle.fmp_trials.specs.Drawn.{AllHaveMet, any_of_end};
ghost use Rattle.fmp_trials.specs.Found.{IsFound, IsShortened};
ghost use Rattle.fmp_trials.specs.Shortening.{IsFailing};
ghost use Rattle.fmp_looking.specs.Covered.{AreRunsSeen, IsRunOf, seen_at};
ghost use Rattle.fmp_looking.specs.CallSentences.{breaks_by};
ghost use Rattle.fmp_looking.specs.Tested.{IsFirstOf, subject_in};

use crate::call_sentences::CallJudge;
use crate::covering::Sightings;
use crate::open_image::OpenImage;
use crate::opened::Opened;
use crate::run_positions::PositionedRun;
use fmp_code::Vm;
use fmp_expect::Expected;
use fmp_frames::CallPositions;
use fmp_trials::{
    Bench, FailedTrial, FailingSeed, RunPlan, Seeds, first_failed_trial, first_failing,
    random_steps, shortened,
};
use std::alloc::{AllocError, Global};

/// Random runs of an image, and what is expected of them.
#[derive(Clone, Copy)]
pub struct Trials<'a> {
    pub opened: OpenImage<'a>,
    pub expected: &'a [Expected],
    /// What is said of calls.
    pub judge: &'a CallJudge<'a>,
    pub plan: RunPlan<'a>,
    /// How many threads make the runs.
    pub jobs: u32,
}

/// Kernels of an image, on which its runs are made.
pub type ImageBench<'a> = Bench<'a, Vm<'a>, CallJudge<'a>>;

/// Two kernels of an image after setup, on which its runs are made.
pub fn bench_of<'a>(alloc: Global, trials: &Trials<'a>) -> Result<ImageBench<'a>, AllocError>
    ensures { IfOk result (λ bench. bench ≡ subject_in trials.now) }
{
    let start = trials.opened.kernel(alloc)?;
    let kernel = trials.opened.kernel(alloc)?;
    Ok(Bench::new(start, kernel, trials.expected, trials.judge))
}

/// The first of the random runs of an image, of the seeds from 1 to this one, that fails what is expected, made
/// shorter. The runs of the seeds before it, or of all where there is none, meet that. `AllocError` if memory runs out.
pub fn failed_trial_of(
    alloc: Global,
    trials: &Trials<'_>,
    seeds: u32,
) -> Result<Option<FailedTrial>, AllocError>
    ensures found { IfOk result (λ found. IfSome found
        (IsFound code_meaning breaks_by (subject_in trials.now) trials.now.plan seeds)) }
    ensures met { any_of_end trials.now.expected.now ≡ false → IfOk result (λ found. IfNone found
        (AllHaveMet code_meaning breaks_by (subject_in trials.now) trials.now.plan 0 seeds)) }
{
    let mut bench = bench_of(alloc, trials)?;
    let found = first_failed_trial(alloc, &mut bench, trials.plan, u64::from(seeds));
    drop(bench);
    found
}

/// The first of these seeds whose random run of an image fails what is expected, and that run. The runs of the seeds
/// before it, or of all where there is none, meet that. `AllocError` if memory runs out.
pub fn failing_seed_of(
    alloc: Global,
    trials: &Trials<'_>,
    seeds: Seeds,
) -> Result<Option<FailingSeed>, AllocError>
    ensures { IfOk result (IsFirstOf trials.now seeds.before seeds.last) }
{
    let mut bench = bench_of(alloc, trials)?;
    let found = first_failing(alloc, &mut bench, trials.plan, seeds);
    drop(bench);
    found
}

/// A random run of an image that fails what is expected, made shorter. `AllocError` if memory runs out.
pub fn shortened_trial_of(
    alloc: Global,
    trials: &Trials<'_>,
    found: FailingSeed,
) -> Result<FailedTrial, AllocError>
    requires { IsFailing code_meaning breaks_by (subject_in trials.now) found.run }
    ensures { IfOk result (IsShortened code_meaning breaks_by (subject_in trials.now) found) }
{
    let mut bench = bench_of(alloc, trials)?;
    let trial = shortened(alloc, &mut bench, found);
    drop(bench);
    trial
}

/// What is seen in the random runs of these seeds, on the kernels of an image whose calls stand at these positions.
fn seen_on<'a>(
    alloc: Global,
    bench: &mut ImageBench<'a>,
    trials: &Trials<'_>,
    positions: &CallPositions,
    seeds: Seeds,
) -> Result<Sightings, AllocError>
    requires { bench.old ≡ subject_in trials.now }
    ensures { IfOk result (λ seen. AreRunsSeen (IsRunOf trials.now) positions.now
        trials.now.opened.image.now trials.now.opened.bound seeds.before (seeds.last - seeds.before)
        (seen_at positions.now seen)) }
{
    let mut seen = Sightings::none(alloc);
    for made in 0..seeds.count() {
        let steps = random_steps(alloc, bench, trials.plan, seeds.before + made + 1)?;
        let run = PositionedRun {
            image: trials.opened.image,
            bound: trials.opened.bound,
            positions,
            events: &steps,
        };
        seen = seen.with_run(alloc, run)?;
    }
    Ok(seen)
}

/// What is seen in the random runs of these seeds of an image whose calls stand at these positions. `AllocError` if
/// memory runs out.
pub fn sightings_of(
    alloc: Global,
    trials: &Trials<'_>,
    positions: &CallPositions,
    seeds: Seeds,
) -> Result<Sightings, AllocError>
    ensures { IfOk result (λ seen. AreRunsSeen (IsRunOf trials.now) positions.now
        trials.now.opened.image.now trials.now.opened.bound seeds.before (seeds.last - seeds.before)
        (seen_at positions.now seen)) }
{
    let mut bench = bench_of(alloc, trials)?;
    let seen = seen_on(alloc, &mut bench, trials, positions, seeds);
    drop(bench);
    seen
}
