//! Who examines the slices of a search: nobody, or threads.
ghost use Rattle.std.specs.Prelude.{All, IfOk, ⊤};
ghost use Rattle.std.specs.Thread.{IsSync};
ghost use Rattle.fmp_explore.specs.Searching.{IsSearch};
ghost use Rattle.fmp_explore.specs.Slices.{AreReady, AreSlices, AreTakenOver, IsSlice, IsTaken};
ghost use Rattle.fmp_explore.specs.declared.searches.Search.{Search};
ghost use Rattle.fmp_explore.specs.declared.slices.Slice.{Slice};
ghost use Rattle.fmp_witness.specs.Asked.{asked_of};

use crate::searches::Search;
use crate::slices::{MadeSlice, Span, examined};
use fmp_witness::SearchSubject;
use std::alloc::{AllocError, Global};
use std::thread::Threads;
use std::{mem, thread};

/// Who examines slices of a search at the same time.
pub trait Crew {
    /// What it needs to examine slices: threads may share its handle.
    ghost can_work: { Self → Type 0 };

    /// How many slices are examined at once; less than two if none are.
    fn jobs(&self) -> usize;

    /// Hands over the states of a span of a search, in slices, in order. `AllocError` if memory ran out for all of
    /// them.
    fn hand_over(
        &self,
        alloc: Global,
        subject: &SearchSubject<'_>,
        whole: &Search,
        span: Span,
    ) -> Result<Vec<MadeSlice>, AllocError>
        requires crew { can_work self.now }
        requires whole { IsSearch (asked_of subject.now) whole.now }
        ensures { IfOk result (λ slices. AreTakenOver (asked_of subject.now) whole.now slices.items) };

    /// Examines slices at the same time, and does something else meanwhile. `AllocError` if memory ran out for all of
    /// them.
    fn examine_beside<B, G: FnMut() -> B>(
        &self,
        alloc: Global,
        subject: &SearchSubject<'_>,
        taken: Vec<MadeSlice>,
        beside: &mut G,
    ) -> (Result<Vec<MadeSlice>, AllocError>, B)
        requires crew { can_work self.now }
        requires taken { AreReady (asked_of subject.now) taken.items }
        requires beside { G.pre beside.old }
        ensures slices { (whole : Search) → AreTakenOver (asked_of subject.now) whole taken.items →
            IfOk result.0 (λ slices. AreSlices (asked_of subject.now) whole slices.items) }
        ensures beside { G.step beside.old result.1 beside.new };
}

/// Nobody: a search examines its states itself.
#[derive(Clone, Copy)]
pub struct Alone;

impl Crew for Alone {
    ghost can_work = { λ _. ⊤ };

    fn jobs(&self) -> usize {
        1
    }

    fn hand_over(
        &self,
        alloc: Global,
        _subject: &SearchSubject<'_>,
        _whole: &Search,
        _span: Span,
    ) -> Result<Vec<MadeSlice>, AllocError> {
        Ok(Vec::new(alloc))
    }

    fn examine_beside<B, G: FnMut() -> B>(
        &self,
        alloc: Global,
        _subject: &SearchSubject<'_>,
        _taken: Vec<MadeSlice>,
        beside: &mut G,
    ) -> (Result<Vec<MadeSlice>, AllocError>, B) {
        (Ok(Vec::new(alloc)), beside())
    }
}

/// How many states are entered in about the time in which one is examined.
const ENTERED_MEANWHILE: usize = 8;

/// Threads, this many in all, with the one that searches.
#[derive(Clone, Copy)]
pub struct Workers<'r, R> {
    pub rt: &'r R,
    pub jobs: usize,
}

/// The part of this number of a span, of as many as there are jobs. The last part is smaller than the others, since the
/// thread that examines it enters a round of slices first.
fn part(span: Span, jobs: usize, k: usize) -> Span {
    if jobs == 0 {
        return span;
    }
    let count = span.len() as usize;
    let size = count.saturating_add(count / ENTERED_MEANWHILE) / jobs + 1;
    let first = (span.first as usize)
        .saturating_add(k.saturating_mul(size))
        .min(span.end as usize);
    let end = first.saturating_add(size).min(span.end as usize);
    Span {
        first: first as u32,
        end: end as u32,
    }
}

impl<R: Threads + Sync> Crew for Workers<'_, R> {
    ghost can_work = { λ _. IsSync R.row };

    fn jobs(&self) -> usize {
        self.jobs
    }

    fn hand_over(
        &self,
        alloc: Global,
        subject: &SearchSubject<'_>,
        whole: &Search,
        span: Span,
    ) -> Result<Vec<MadeSlice>, AllocError> {
        let jobs = self.jobs;
        let take = |k: usize| -> MadeSlice
            requires { IsSearch (asked_of subject.now) whole.now }
            ensures { IfOk result (IsTaken (asked_of subject.entry.now) whole.entry.now) }
        { whole.hand_over(subject, part(span, jobs, k)) };
        thread::map_indices(self.rt, alloc, jobs, &take)
    }

    fn examine_beside<B, G: FnMut() -> B>(
        &self,
        alloc: Global,
        subject: &SearchSubject<'_>,
        taken: Vec<MadeSlice>,
        beside: &mut G,
    ) -> (Result<Vec<MadeSlice>, AllocError>, B) {
        if taken.is_empty() {
            return (Ok(taken), beside());
        }
        let rt = self.rt;
        let mut taken = taken;
        let taken = &mut taken;
        let mut examine = || -> Result<Vec<MadeSlice>, AllocError>
            requires { IsSync R.row × AreReady (asked_of subject.now) taken.now.items }
            ensures { (whole : Search) → AreTakenOver (asked_of subject.entry.now) whole taken.entry.now.items →
                IfOk result (λ slices. AreSlices (asked_of subject.entry.now) whole slices.items) }
        { examine_all(alloc, rt, subject, mem::replace(taken, Vec::new(alloc))) };
        thread::join_mut(rt, &mut examine, beside)
    }
}

/// Slices whose states are examined, each in a thread of its own where one can be made.
fn examine_all<R: Threads + Sync>(
    alloc: Global,
    rt: &R,
    subject: &SearchSubject<'_>,
    taken: Vec<MadeSlice>,
) -> Result<Vec<MadeSlice>, AllocError>
    requires { AreReady (asked_of subject.now) taken.items }
    ensures { (whole : Search) → AreTakenOver (asked_of subject.now) whole taken.items →
        IfOk result (λ slices. AreSlices (asked_of subject.now) whole slices.items) }
{
    let examine = |slice: MadeSlice| -> MadeSlice
        requires { IfOk slice (λ s. IsSearch (asked_of subject.now) s.search) }
        ensures { (whole : Search) → IfOk slice (IsTaken (asked_of subject.entry.now) whole) →
            IfOk result (IsSlice (asked_of subject.entry.now) whole) }
    { examined(subject, slice) };
    let made = thread::map_vec(rt, taken, &examine)?;
    Ok(made)
}
