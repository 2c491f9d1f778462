//! Random runs of an image that several threads make. Each makes those of a part of the seeds, and what comes of the
//! parts is taken in order.
ghost use Rattle.std.specs.Prelude.{ℕ, ◌≡◌, ◌+◌, ◌-◌, ◌<◌, ◌≤◌, IfNone, IfOk, IfSome, List, false};
ghost use Rattle.fmp_frames.specs.declared.call_positions.CallPosition.{CallPosition};
ghost use Rattle.fmp_image_bytes.specs.Images.{ImageTables};
ghost use Rattle.fmp_instructions.specs.Machine.{code_meaning};
ghost use Rattle.fmp_trials.specs.declared.seeds.Seeds.{Seeds};
ghost use Rattle.fmp_trials.specs.Drawn.{AllHaveMet, any_of_end};
ghost use Rattle.fmp_trials.specs.Found.{IsFound};
ghost use Rattle.fmp_trials.specs.Parts.{edge};
ghost use Rattle.fmp_looking.specs.declared.trying.Trials.{Trials};
ghost use Rattle.fmp_looking.specs.Covered.{ArePartsSeen, AreRunsSeen, AreTrialsSeen, IsRunOf, IsWithPart, seen_at};
ghost use Rattle.fmp_looking.specs.Covered.{seen_of};
ghost use Rattle.fmp_looking.specs.CallSentences.{breaks_by};
ghost use Rattle.fmp_looking.specs.Tested.{AreFirstOf, IsFirstOf, subject_in};

use crate::covering::{RunsSeen, Sightings};
use crate::trying::{Trials, failing_seed_of, shortened_trial_of, sightings_of};
use fmp_frames::CallPositions;
use fmp_trials::{FailedTrial, FailingSeed, Seeds, first_of};
use std::alloc::{AllocError, Global};
use std::thread;
use std::thread::Threads;

/// How many runs a thread makes in a round at most.
const ROUND_MOST: u64 = 64;

/// What comes of each part of these seeds, where each thread looks at one for the first whose random run of an image
/// fails what is expected.
fn failing_parts<R: Threads + Sync>(
    alloc: Global,
    rt: &R,
    trials: &Trials<'_>,
    seeds: Seeds,
) -> Result<Vec<Result<Option<FailingSeed>, AllocError>>, AllocError>
    requires { 0 < trials.now.jobs }
    ensures { IfOk result (λ parts. AreFirstOf trials.now seeds trials.now.jobs parts.items) }
{
    let jobs = trials.jobs;
    let look = |k: usize| -> Result<Option<FailingSeed>, AllocError>
        requires { k < jobs }
        ensures { IfOk result (IsFirstOf trials.entry.now (edge seeds jobs k) (edge seeds jobs (k + 1))) }
    { failing_seed_of(alloc, trials, seeds.part(u64::from(jobs), k as u64)) };
    let parts = thread::map_indices(rt, alloc, jobs as usize, &look)?;
    Ok(parts)
}

/// The first of these seeds whose random run of an image fails what is expected, and that run. Each thread looks at a
/// part of the seeds.
fn failing_seed_beside<R: Threads + Sync>(
    alloc: Global,
    rt: &R,
    trials: &Trials<'_>,
    seeds: Seeds,
) -> Result<Option<FailingSeed>, AllocError>
    requires { 0 < trials.now.jobs }
    ensures { IfOk result (IsFirstOf trials.now seeds.before seeds.last) }
{
    let parts = failing_parts(alloc, rt, trials, seeds)?;
    first_of(parts)
}

/// Rounds of random runs. A thread makes one run in the first of them, and more and more in later ones: so few are made
/// beyond a seed that fails.
#[derive(Clone, Copy)]
struct Round {
    jobs: u32,
    /// How many runs a thread makes.
    each: u64,
    /// The seed before those of the round.
    before: u64,
}

impl Round {
    /// The seeds of the round, of which this is the last of all.
    fn seeds(self, last: u64) -> Seeds
        ensures before { result.before ≡ self.before }
        ensures last { self.before < last → 0 < self.each → 0 < self.jobs → self.before < result.last }
        ensures most { result.last ≤ last }
    {
        let count = self.each.saturating_mul(u64::from(self.jobs));
        Seeds {
            before: self.before,
            last: self.before.saturating_add(count).min(last),
        }
    }

    /// The round after the one that ends with this seed.
    fn after(self, last: u64) -> Round
        ensures before { result.before ≡ last }
        ensures each { 0 < self.each → 0 < result.each }
        ensures jobs { result.jobs ≡ self.jobs }
    {
        Round {
            each: self.each.saturating_mul(2).min(ROUND_MOST),
            before: last,
            ..self
        }
    }
}

/// The first of the seeds up to this one whose random run of an image fails what is expected, and that run, by several
/// threads.
fn first_failing_beside<R: Threads + Sync>(
    alloc: Global,
    rt: &R,
    trials: &Trials<'_>,
    last: u64,
) -> Result<Option<FailingSeed>, AllocError>
    requires { 0 < trials.now.jobs }
    ensures { IfOk result (IsFirstOf trials.now 0 last) }
{
    let mut round = Round {
        jobs: trials.jobs,
        each: 1,
        before: 0,
    };
    for _round in 0..last {
        let seeds = round.seeds(last);
        if seeds.count() == 0 {
            return Ok(None);
        }
        match failing_seed_beside(alloc, rt, trials, seeds)? {
            Some(found) => return Ok(Some(found)),
            None => round = round.after(seeds.last),
        }
    }
    Ok(None)
}

/// The first of the random runs of an image, of the seeds from 1 to this one, that fails what is expected, made
/// shorter, where threads make them. The runs of the seeds before it, or of all where there is none, meet
/// that. `AllocError` if memory runs out.
pub fn failed_trial_beside<R: Threads + Sync>(
    alloc: Global,
    rt: &R,
    trials: &Trials<'_>,
    seeds: u32,
) -> Result<Option<FailedTrial>, AllocError>
    requires { 0 < trials.now.jobs }
    ensures found { IfOk result (λ found. IfSome found
        (IsFound code_meaning breaks_by (subject_in trials.now) trials.now.plan seeds)) }
    ensures met { any_of_end trials.now.expected.now ≡ false → IfOk result (λ found. IfNone found
        (AllHaveMet code_meaning breaks_by (subject_in trials.now) trials.now.plan 0 seeds)) }
{
    match first_failing_beside(alloc, rt, trials, u64::from(seeds))? {
        Some(found) => Ok(Some(shortened_trial_of(alloc, trials, found)?)),
        None => Ok(None),
    }
}

/// What is seen in the random runs of each part of these seeds of an image, whose calls stand at these positions. Each
/// part is made by a thread.
fn parts_seen<R: Threads + Sync>(
    alloc: Global,
    rt: &R,
    trials: &Trials<'_>,
    positions: &CallPositions,
    seeds: Seeds,
) -> Result<Vec<Result<Sightings, AllocError>>, AllocError>
    requires { 0 < trials.now.jobs }
    ensures { IfOk result (λ parts. ArePartsSeen (IsRunOf trials.now) positions.now
        trials.now.opened.image.now trials.now.opened.bound seeds trials.now.jobs parts.items) }
{
    let jobs = trials.jobs;
    let look = |k: usize| -> Result<Sightings, AllocError>
        requires { k < jobs }
        ensures { IfOk result (λ s. AreRunsSeen (IsRunOf trials.entry.now) positions.entry.now
            trials.entry.now.opened.image.now trials.entry.now.opened.bound
            (edge seeds jobs k) (edge seeds jobs (k + 1) - edge seeds jobs k) (seen_at positions.entry.now s)) }
    {
        sightings_of(
            alloc,
            trials,
            positions,
            seeds.part(u64::from(jobs), k as u64),
        )
    };
    let parts = thread::map_indices(rt, alloc, jobs as usize, &look)?;
    Ok(parts)
}

/// What was seen, and what is seen in the runs of a part after it.
fn and_part(
    alloc: Global,
    seen: Sightings,
    part: &Result<Sightings, AllocError>,
) -> Result<Sightings, AllocError>
    ensures { IfOk result (IsWithPart seen part.now) }
{
    match part {
        Ok(later) => seen.and(alloc, later),
        Err(_) => Err(AllocError),
    }
}

/// What is seen in the runs of parts, in order.
fn all_seen(alloc: Global, parts: &[Result<Sightings, AllocError>]) -> Result<Sightings, AllocError>
    ensures { IfOk result (λ s. (t : Trials) (positions : List (List CallPosition)) (i : ImageTables)
        (n : ℕ) (seeds : Seeds) (jobs : ℕ) → 0 < jobs → seeds.before ≤ seeds.last
        → ArePartsSeen (IsRunOf t) positions i n seeds jobs parts.now →
        AreRunsSeen (IsRunOf t) positions i n seeds.before (seeds.last - seeds.before) (seen_at positions s)) }
{
    let mut seen = Sightings::none(alloc);
    for k in 0..parts.len() {
        seen = and_part(alloc, seen, &parts[k])?;
    }
    Ok(seen)
}

/// What is seen in the random runs of these seeds of an image, whose calls stand at these positions, where threads make
/// them.
fn sightings_beside<R: Threads + Sync>(
    alloc: Global,
    rt: &R,
    trials: &Trials<'_>,
    positions: &CallPositions,
    seeds: Seeds,
) -> Result<Sightings, AllocError>
    requires jobs { 0 < trials.now.jobs }
    requires order { seeds.before ≤ seeds.last }
    ensures { IfOk result (λ seen. AreRunsSeen (IsRunOf trials.now) positions.now
        trials.now.opened.image.now trials.now.opened.bound seeds.before (seeds.last - seeds.before)
        (seen_at positions.now seen)) }
{
    let parts = parts_seen(alloc, rt, trials, positions, seeds)?;
    all_seen(alloc, &parts)
}

/// The same, where one thread makes them if no more are asked for.
fn sightings_by<R: Threads + Sync>(
    alloc: Global,
    rt: &R,
    trials: &Trials<'_>,
    positions: &CallPositions,
    seeds: Seeds,
) -> Result<Sightings, AllocError>
    requires { seeds.before ≤ seeds.last }
    ensures { IfOk result (λ seen. AreRunsSeen (IsRunOf trials.now) positions.now
        trials.now.opened.image.now trials.now.opened.bound seeds.before (seeds.last - seeds.before)
        (seen_at positions.now seen)) }
{
    if trials.jobs <= 1 {
        return sightings_of(alloc, trials, positions, seeds);
    }
    sightings_beside(alloc, rt, trials, positions, seeds)
}

/// What is seen of the random runs of an image with bodies of this text, of the seeds from 1 to this one. `AllocError`
/// if memory runs out.
pub fn seen_of_trials<R: Threads + Sync>(
    alloc: Global,
    rt: &R,
    trials: &Trials<'_>,
    src: &[u8],
    last: u64,
) -> Result<RunsSeen, AllocError>
    ensures { IfOk result (λ seen. AreTrialsSeen (IsRunOf trials.now) src.now trials.now.opened.image.now
        trials.now.opened.bound last (seen_of seen)) }
{
    let positions = CallPositions::new(alloc, src)?;
    let all = Seeds { before: 0, last };
    let seen = sightings_by(alloc, rt, trials, &positions, all)?;
    Ok(RunsSeen::new(positions, seen))
}
