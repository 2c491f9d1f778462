//! What is told of a search while it goes on, and when its time is over.
ghost use Rattle.std.specs.Prelude.{◌≡◌, ◌+◌, ◌<◌, ◌^◌, IfOk, length};
ghost use Rattle.fmp_searching.specs.Claimed.{IsExplored};
ghost use Rattle.fmp_searching.specs.Deeds.{HasSaid, SaysOnly};
ghost use Rattle.fmp_searching.specs.Sources.{source_tables};

use crate::exploring::{Explored, explored_image};
use crate::sources::ExploredSources;
use fmp_explore::SearchWatcher;
use fmp_files::Outside;
use std::alloc::{AllocError, Global};
use std::marker::{Brand, PhantomData};
use std::thread::Threads;
use std::time::{Clock, Duration, Instant};

/// Stands for the start of one search, so that what is done outside from there on is known by a type.
trait SearchStart {
    ghost use Rattle.std.specs.Prelude.{List, Option};
    ghost use Rattle.std.specs.Borrow.{GName};
    ghost use Rattle.fmp_files.specs.Deeds.{Deed};

    /// The reference that leads outside.
    ghost name: { GName };

    /// What was done until then, where it is known.
    ghost done: { Option (List Deed) };
}

impl SearchStart for Brand {
    ghost use Rattle.std.specs.Prelude.{None};

    ghost name = { 0 };

    ghost done = { None };
}

/// What an exploration tells on standard error while it goes on, and when it has had its time.
#[derive(Drop)]
struct Telling<'o, 'c, S: SearchStart, O: Outside, C: Clock> {
    outside: &'o mut O,
    clock: &'c C,
    /// When its time is over, if it is limited and the clock can be read.
    end: Option<Instant>,
    start: PhantomData<S>,
    ghost same: { outside.ghost_name ≡ S.name },
    ghost said: { HasSaid S.done (O.done outside.now) },
}

impl<S: SearchStart, O: Outside, C: Clock> SearchWatcher for Telling<'_, '_, S, O, C> {
    #[tactic(auto, using(crate::proofs::Saying::said_more))]
    fn grown(&mut self, states: usize, examined: usize, depth: u32) {
        self.outside.say(format_args!(
            "{states} states, {examined} of them examined, {depth} deep\n"
        ));
    }

    fn is_over(&mut self) -> bool {
        match self.end {
            Some(end) => is_past(self.clock, end),
            None => false,
        }
    }
}

/// Whether a moment is past; not if the clock cannot be read.
fn is_past<C: Clock>(clock: &C, end: Instant) -> bool {
    match Instant::now(clock) {
        Ok(now) => now >= end,
        Err(_) => false,
    }
}

/// The moment after these seconds from now; none where no seconds are given, or the clock cannot be read.
fn end_after<C: Clock>(clock: &C, seconds: Option<u32>) -> Option<Instant> {
    let duration = Duration::from_secs(u64::from(seconds?));
    let now = Instant::now(clock).ok()?;
    now.checked_add(duration)
}

/// Explores the schedules of an image from this start on, and gives back the outside.
#[tactic(auto, using(crate::proofs::Saying::said_none, crate::proofs::Saying::says_only))]
fn explored_from<'o, S: SearchStart, O: Outside, R: Clock + Threads + Sync>(
    alloc: Global,
    outside: &'o mut O,
    rt: &R,
    jobs: u32,
    sources: &ExploredSources<'_>,
) -> (Result<Explored, AllocError>, &'o mut O)
    requires places { sources.now.sentences.sections + length sources.now.sentences.expected.now < 2 ^ 64 }
    requires name { outside.ghost_name ≡ S.name }
    requires done { O.done outside.old ≡ S.done }
    ensures explored { IfOk result.0 (IsExplored (source_tables sources.now)) }
    ensures same { result.1.ghost_name ≡ outside.entry.ghost_name }
    ensures says { SaysOnly (O.done outside.old) (O.done result.1.now) }
{
    let mut telling = Telling::<'o, '_, S, O, R> {
        outside,
        clock: rt,
        end: end_after(rt, sources.claim.question.seconds),
        start: PhantomData,
    };
    let explored = explored_image(alloc, rt, jobs, sources, &mut telling);
    let Telling { outside, .. } = telling;
    (explored, outside)
}

/// Explores the schedules of an image, by this many threads, and tells on standard error how far the search has come.
/// `AllocError` if there is no memory to begin with, or for what is printed.
pub fn explored_aloud<O: Outside, R: Clock + Threads + Sync>(
    alloc: Global,
    outside: &mut O,
    rt: &R,
    jobs: u32,
    sources: &ExploredSources<'_>,
) -> Result<Explored, AllocError>
    requires { sources.now.sentences.sections + length sources.now.sentences.expected.now < 2 ^ 64 }
    ensures explored { IfOk result (IsExplored (source_tables sources.now)) }
    ensures says { SaysOnly (O.done outside.old) (O.done outside.new) }
{
    let (explored, outside) = explored_from::<Brand, O, R>(alloc, outside, rt, jobs, sources);
    // No effect at run time. The proof reads what `outside` holds from this use of it.
    let _ = &*outside;
    explored
}
