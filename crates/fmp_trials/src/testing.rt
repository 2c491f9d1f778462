//! Random runs one after the other, until one fails.
ghost use Rattle.std.specs.Prelude.{◌≡◌, ◌<◌, ◌≤◌, ◌^◌, None, IfNone, IfOk, IfSome, false, length};
ghost use Rattle.fmp_trials.specs.Choices.{choices_of};
ghost use Rattle.fmp_trials.specs.Drawn.{AllHaveMet, HasMet, IsRandomRun, any_of_end};
ghost use Rattle.fmp_trials.specs.Shortening.{IsFailing};
ghost use Rattle.fmp_trials.specs.Found.{IsFirstFailing, IsFound, IsShortened};
ghost use Rattle.fmp_trials.specs.Trials.{broken_by};

use crate::bench::Bench;
use crate::choices::{Choices, RunPlan};
use crate::random_run::RandomRun;
use crate::seeds::Seeds;
use crate::shortening::{FailingRun, shorten};
use fmp_base::Event;
use fmp_expect::LineJudge;
use fmp_kernel::Body;
use std::alloc::{AllocError, Global};

/// How many events are run at most to make a run shorter, as `FailingRun::room` counts them.
const ROOM: u64 = 1 << 25;

/// A random run that fails an expectation, made shorter.
#[derive(Drop)]
pub struct FailedTrial {
    /// Its seed.
    pub seed: u64,
    /// How many events it had.
    pub drawn: usize,
    /// What is left of it.
    pub run: FailingRun,
    /// Whether no event of that can be left out. Where that is not known, there was no more room to try.
    pub shortest: bool,
}

/// A seed whose random run fails an expectation, and that run.
#[derive(Drop)]
pub struct FailingSeed {
    pub seed: u64,
    pub run: FailingRun,
}

/// The run over these steps, if it fails.
fn failing<B: Body, J: LineJudge<B>>(
    alloc: Global,
    bench: &mut Bench<'_, B, J>,
    steps: Vec<Event>,
) -> Result<Option<FailingRun>, AllocError>
    requires { length steps.items ≤ 2 ^ 20 }
    ensures same { bench.new ≡ bench.old }
    ensures failing { IfOk result (λ found. IfSome found (IsFailing B.meaning J.breaks bench.new)) }
    ensures steps { IfOk result (λ found. IfSome found (λ f. f.steps.items ≡ steps.items)) }
    ensures met { IfOk result (λ found. IfNone found (broken_by B.meaning J.breaks bench.old steps.items ≡ None)) }
{
    match bench.verdict(alloc, &steps)? {
        Some(broken) => Ok(Some(FailingRun {
            steps,
            broken,
            room: ROOM,
        })),
        None => Ok(None),
    }
}

/// The random run of this seed, if it fails.
#[tactic(auto, using(crate::proofs::Drawn::met_if_passed, crate::proofs::Drawn::met_if_quiet))]
fn failing_run<B: Body, J: LineJudge<B>>(
    alloc: Global,
    bench: &mut Bench<'_, B, J>,
    plan: RunPlan<'_>,
    seed: u64,
) -> Result<Option<FailingRun>, AllocError>
    ensures same { bench.new ≡ bench.old }
    ensures failing { IfOk result (λ found. IfSome found (IsFailing B.meaning J.breaks bench.new)) }
    ensures run { IfOk result (λ found. IfSome found (λ f.
        IsRandomRun B.meaning bench.old.start bench.old.expected (choices_of plan.entry seed) f.steps.items)) }
    ensures met { any_of_end bench.old.expected ≡ false
        → IfOk result (λ found. IfNone found (HasMet B.meaning J.breaks bench.old plan.entry seed)) }
{
    let mut choices = Choices::new(plan, seed);
    let RandomRun { steps, is_broken } = bench.random_run(alloc, &mut choices)?;
    if !is_broken && bench.is_idle() {
        return Ok(None);
    }
    failing(alloc, bench, steps)
}

/// The first of these seeds whose random run fails an expectation, and that run. The runs of the seeds before it, or of
/// all where there is none, meet all expectations, if none of these is of the end of a run. `AllocError` if memory runs
/// out.
pub fn first_failing<B: Body, J: LineJudge<B>>(
    alloc: Global,
    bench: &mut Bench<'_, B, J>,
    plan: RunPlan<'_>,
    seeds: Seeds,
) -> Result<Option<FailingSeed>, AllocError>
    ensures same { bench.new ≡ bench.old }
    ensures first { IfOk result (IsFirstFailing B.meaning J.breaks bench.old plan.entry seeds) }
{
    for before in seeds.before..seeds.last {
        if let Some(run) = failing_run(alloc, bench, plan, before + 1)? {
            return Ok(Some(FailingSeed {
                seed: before + 1,
                run,
            }));
        }
    }
    Ok(None)
}

/// A random run that fails, made shorter, so that it fails the same expectation. `AllocError` if memory runs out.
pub fn shortened<B: Body, J: LineJudge<B>>(
    alloc: Global,
    bench: &mut Bench<'_, B, J>,
    found: FailingSeed,
) -> Result<FailedTrial, AllocError>
    requires { IsFailing B.meaning J.breaks bench.old found.run }
    ensures same { bench.new ≡ bench.old }
    ensures shortened { IfOk result (IsShortened B.meaning J.breaks bench.new found) }
    ensures ended { IfOk result (λ trial. trial.shortest ≡ false → trial.run.room ≡ 0) }
{
    let FailingSeed { seed, mut run } = found;
    let drawn = run.steps.len();
    let shortest = shorten(alloc, bench, &mut run)?;
    Ok(FailedTrial {
        seed,
        drawn,
        run,
        shortest,
    })
}

/// The events of the random run of this seed up to the first that breaks a sentence, or the last. `AllocError` if
/// memory runs out.
pub fn random_steps<B: Body, J: LineJudge<B>>(
    alloc: Global,
    bench: &mut Bench<'_, B, J>,
    plan: RunPlan<'_>,
    seed: u64,
) -> Result<Vec<Event>, AllocError>
    ensures same { bench.new ≡ bench.old }
    ensures few { IfOk result (λ steps. length steps.items ≤ 2 ^ 20) }
    ensures run { IfOk result (λ steps.
        IsRandomRun B.meaning bench.old.start bench.old.expected (choices_of plan.entry seed) steps.items) }
{
    let mut choices = Choices::new(plan, seed);
    let run = bench.random_run(alloc, &mut choices)?;
    Ok(run.steps)
}

/// The first of the random runs of the seeds from 1 to this one that fails an expectation, made shorter. The runs of
/// the seeds before it, or of all where there is none, meet all expectations, if none of these is of the end of a run.
/// `AllocError` if memory runs out.
pub fn first_failed_trial<B: Body, J: LineJudge<B>>(
    alloc: Global,
    bench: &mut Bench<'_, B, J>,
    plan: RunPlan<'_>,
    seeds: u64,
) -> Result<Option<FailedTrial>, AllocError>
    ensures same { bench.new ≡ bench.old }
    ensures found { IfOk result (λ found. IfSome found (IsFound B.meaning J.breaks bench.old plan.entry seeds)) }
    ensures met { any_of_end bench.old.expected ≡ false
        → IfOk result (λ found. IfNone found (AllHaveMet B.meaning J.breaks bench.old plan.entry 0 seeds)) }
{
    let seeds = Seeds {
        before: 0,
        last: seeds,
    };
    match first_failing(alloc, bench, plan, seeds)? {
        Some(found) => Ok(Some(shortened(alloc, bench, found)?)),
        None => Ok(None),
    }
}
