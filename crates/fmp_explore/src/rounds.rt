//! How a search goes on: it examines the next state; or it enters a round of slices, while threads examine those of the
//! next round.
ghost use Rattle.std.specs.Prelude.{◌≡◌, ◌+◌, ◌<◌, ◌≤◌, [], IfOk, OnOk, length};
ghost use Rattle.fmp_explore.specs.Searching.{AreKernelsOf, IsSearch, IsSearching};
ghost use Rattle.fmp_explore.specs.Slices.{AreReady, AreSlices, AreTakenOver, IsInRound, IsSlice, IsTaken};
ghost use Rattle.fmp_explore.specs.declared.searches.Search.{Search};
ghost use Rattle.fmp_witness.specs.Asked.{Asked, asked_of};

use crate::crew::Crew;
use crate::kernels::KernelPair;
use crate::searches::Search;
use crate::searching::SearchWatcher;
use crate::slices::{MadeSlice, Slice, Span, examined};
use fmp_witness::SearchSubject;
use std::alloc::{AllocError, Global};
use std::mem;

/// How many states there are when it is told first how far the search has come.
const TOLD_FIRST: usize = 1 << 14;

/// How many states a slice has at least.
const SLICE_LEAST: usize = 1 << 7;

/// How many states a slice has at most.
const SLICE_MOST: usize = 1 << 11;

/// For how many states no slices are made, at least, after one could not be entered: those of the slice.
const PAUSE_LEAST: u32 = 1 << 11;

/// For how many states none are made, at most.
const PAUSE_MOST: u32 = 1 << 16;

/// How far a search has come.
#[derive(Drop)]
pub struct Progress {
    /// The place of the state that is examined next.
    pub next: u32,
    /// The slices of the next states, which are examined and not entered yet.
    pub pending: Vec<MadeSlice>,
    /// The place after the states of these slices.
    pending_end: u32,
    /// How many states there were when it was told last how far the search has come.
    told: usize,
    /// The place from which on slices are made.
    slices: u32,
    /// For how many states none are made where one cannot be entered.
    pause: u32,
}

impl Progress {
    /// No state is examined.
    pub fn new(alloc: Global) -> Progress
        ensures next { result.next ≡ 0 }
        ensures pending { result.pending.items ≡ [] }
    {
        Progress {
            next: 0,
            pending: Vec::new(alloc),
            pending_end: 0,
            told: TOLD_FIRST / 2,
            slices: 0,
            pause: PAUSE_LEAST,
        }
    }

    /// A slice could not be entered.
    fn put_off(&mut self)
        ensures { self.new.next ≡ self.old.next }
    {
        self.slices = self.next.saturating_add(self.pause);
        self.pause = self.pause.saturating_mul(2).min(PAUSE_MOST);
    }

    /// All slices of a round were entered.
    fn resume(&mut self)
        ensures { self.new.next ≡ self.old.next }
    {
        self.pause = PAUSE_LEAST;
    }

    /// Takes the slices that are not entered yet.
    fn take_pending(&mut self, alloc: Global) -> Vec<MadeSlice>
        ensures next { self.new.next ≡ self.old.next }
        ensures pending { result.items ≡ self.old.pending.items }
    {
        mem::replace(&mut self.pending, Vec::new(alloc))
    }

    /// These slices, of the states of a span, are entered next, if all before them were entered.
    fn put_pending(&mut self, alloc: Global, slices: Vec<MadeSlice>, span: Span)
        ensures next { self.new.next ≡ self.old.next }
        ensures pending { (asked : Asked) (whole : Search) → AreSlices asked whole slices.items →
            AreSlices asked whole self.new.pending.items }
    {
        if span.first == self.next {
            self.pending = slices;
            self.pending_end = span.end;
        } else {
            self.pending = Vec::new(alloc);
            self.pending_end = self.next;
        }
    }
}

/// The slices of a round whose states were examined.
#[derive(Drop)]
struct ExaminedSlices {
    /// Those that the crew examined. `AllocError` if memory ran out for all of them.
    others: Result<Vec<MadeSlice>, AllocError>,
    /// The one that the search examined itself. `AllocError` if memory ran out before.
    own: Result<MadeSlice, AllocError>,
}

/// The place after this one, if there is one; else this one.
fn place_after(place: u32) -> u32
    ensures { result ≤ place + 1 }
{
    place.saturating_add(1)
}

/// Takes the last of the states that are handed over. `AllocError` if there was no memory for them, or there are none.
fn take_last(taken: &mut Vec<MadeSlice>) -> MadeSlice
    ensures taken { (asked : Asked) (whole : Search) → AreTakenOver asked whole taken.old.items →
        AreTakenOver asked whole taken.new.items }
    ensures last { (asked : Asked) (whole : Search) → AreTakenOver asked whole taken.old.items →
        IfOk result (IsTaken asked whole) }
{
    taken.pop().unwrap_or(Err(AllocError))
}

/// Slices, and one more. `AllocError` if memory ran out for all of them, or runs out.
fn with_last(
    slices: Result<Vec<MadeSlice>, AllocError>,
    last: MadeSlice,
) -> Result<Vec<MadeSlice>, AllocError>
    ensures { (asked : Asked) (whole : Search) → IfOk slices (λ made. AreSlices asked whole made.items) →
        IfOk last (IsSlice asked whole) → IfOk result (λ made. AreSlices asked whole made.items) }
{
    let mut slices = slices?;
    slices.push(last)?;
    Ok(slices)
}

impl Search {
    /// How many of the states from a place on, this many at most, have the depth of the first one.
    fn same_depth(&self, first: u32, most: usize) -> usize {
        let depth = self.depth_of(first);
        let end = (first as usize).saturating_add(most).min(u32::MAX as usize) as u32;
        for place in first..end {
            if self.depth_of(place) != depth {
                return (place - first) as usize;
            }
        }
        most
    }

    /// The states of the next round; none if there are not enough of them. Where no slices are pending, half of the
    /// states are left for the round that is examined while this one is entered.
    fn next_span(&self, subject: &SearchSubject<'_>, jobs: usize, progress: &Progress) -> Span {
        let first = progress.next.max(progress.pending_end);
        let none = Span { first, end: first };
        if jobs < 2 || first < progress.slices {
            return none;
        }
        let least = jobs.saturating_mul(SLICE_LEAST);
        let left = self.seen.len().saturating_sub(first as usize);
        let mut count = left.min(jobs.saturating_mul(SLICE_MOST));
        if progress.pending.is_empty() && left >= least.saturating_mul(2) {
            count = count.min(left / 2);
        }
        if !subject.question.all && self.notes.has_any() {
            count = self.same_depth(first, count);
        }
        if count < least {
            return none;
        }
        let end = (first as usize)
            .saturating_add(count)
            .min(u32::MAX as usize) as u32;
        Span { first, end }
    }

    /// Examines the next state.
    fn go_on<'a, W: SearchWatcher>(
        &mut self,
        subject: &SearchSubject<'a>,
        kernels: &mut KernelPair<'a>,
        watcher: &mut W,
        progress: &mut Progress,
    ) -> Result<(), AllocError>
        requires searching { IsSearching (asked_of subject.now) progress.old.next self.old }
        requires there { progress.old.next < length self.old.seen.rows }
        requires kernels { AreKernelsOf (asked_of subject.now) kernels.old }
        requires pending { AreSlices (asked_of subject.now) self.old progress.old.pending.items }
        ensures searching { OnOk result (IsSearching (asked_of subject.now) progress.new.next self.new) }
        ensures pending { OnOk result (AreSlices (asked_of subject.now) self.new progress.new.pending.items) }
        ensures kernels { AreKernelsOf (asked_of subject.now) kernels.new }
    {
        self.examine(subject, kernels, progress.next)?;
        progress.next = place_after(progress.next);
        progress.told = self.tell(watcher, progress.told, progress.next as usize);
        Ok(())
    }

    /// Enters a slice, if its states are the next ones and it can be entered: whether it was.
    fn enter_slice<W: SearchWatcher>(
        &mut self,
        subject: &SearchSubject<'_>,
        slice: &Slice,
        watcher: &mut W,
        progress: &mut Progress,
    ) -> Result<bool, AllocError>
        ensures { (whole : Search) → IsSlice (asked_of subject.now) whole slice.now →
            IsInRound (asked_of subject.now) whole progress.old.next self.old →
            OnOk result (IsInRound (asked_of subject.now) whole progress.new.next self.new) }
    {
        if slice.span.first != progress.next {
            return Ok(false);
        }
        if !self.can_enter(subject, slice) {
            return Ok(false);
        }
        progress.told = self.enter(slice, watcher, progress.told)?;
        progress.next = slice.span.end;
        Ok(true)
    }

    /// The same of a slice for which there may have been no memory.
    fn enter_made<W: SearchWatcher>(
        &mut self,
        subject: &SearchSubject<'_>,
        made: &MadeSlice,
        watcher: &mut W,
        progress: &mut Progress,
    ) -> Result<bool, AllocError>
        ensures { (whole : Search) → IfOk made.now (IsSlice (asked_of subject.now) whole) →
            IsInRound (asked_of subject.now) whole progress.old.next self.old →
            OnOk result (IsInRound (asked_of subject.now) whole progress.new.next self.new) }
    {
        match made {
            Ok(slice) => self.enter_slice(subject, slice, watcher, progress),
            Err(_) => Ok(false),
        }
    }

    /// Enters slices in order, up to the first that cannot be entered.
    fn enter_all<W: SearchWatcher>(
        &mut self,
        subject: &SearchSubject<'_>,
        slices: &[MadeSlice],
        watcher: &mut W,
        progress: &mut Progress,
    ) -> Result<(), AllocError>
        ensures { (whole : Search) → AreSlices (asked_of subject.now) whole slices.now →
            IsInRound (asked_of subject.now) whole progress.old.next self.old →
            OnOk result (IsInRound (asked_of subject.now) whole progress.new.next self.new) }
    {
        for k in 0..slices.len() {
            if !self.enter_made(subject, &slices[k], watcher, progress)? {
                progress.put_off();
                return Ok(());
            }
        }
        progress.resume();
        Ok(())
    }

    /// Enters the slices that are pending, in order, up to the first that cannot be entered. None is pending then.
    fn enter_round<W: SearchWatcher>(
        &mut self,
        subject: &SearchSubject<'_>,
        watcher: &mut W,
        progress: &mut Progress,
    ) -> Result<(), AllocError>
        ensures { (whole : Search) → AreSlices (asked_of subject.now) whole progress.old.pending.items →
            IsInRound (asked_of subject.now) whole progress.old.next self.old →
            OnOk result (IsInRound (asked_of subject.now) whole progress.new.next self.new) }
    {
        let pending = progress.take_pending(self.alloc);
        self.enter_all(subject, &pending, watcher, progress)
    }

    /// The same, and then examines states that are handed over: their slice then.
    fn enter_first<W: SearchWatcher>(
        &mut self,
        subject: &SearchSubject<'_>,
        own: MadeSlice,
        watcher: &mut W,
        progress: &mut Progress,
    ) -> Result<MadeSlice, AllocError>
        requires own { IfOk own (λ slice. IsSearch (asked_of subject.now) slice.search) }
        ensures entered { (whole : Search) → AreSlices (asked_of subject.now) whole progress.old.pending.items →
            IsInRound (asked_of subject.now) whole progress.old.next self.old →
            OnOk result (IsInRound (asked_of subject.now) whole progress.new.next self.new) }
        ensures own { (whole : Search) → IfOk own (IsTaken (asked_of subject.now) whole) →
            IfOk result (λ made. IfOk made (IsSlice (asked_of subject.now) whole)) }
    {
        self.enter_round(subject, watcher, progress)?;
        Ok(examined(subject, own))
    }

    /// Enters the slices that are pending, and then examines the states of one that is handed over, while the crew
    /// examines the others.
    fn enter_with_crew<W: SearchWatcher, C: Crew>(
        &mut self,
        crew: &C,
        subject: &SearchSubject<'_>,
        taken: Vec<MadeSlice>,
        own: &mut MadeSlice,
        watcher: &mut W,
        progress: &mut Progress,
    ) -> ExaminedSlices
        requires crew { C.can_work crew.now }
        requires taken { AreReady (asked_of subject.now) taken.items }
        requires own { IfOk own.old (λ slice. IsSearch (asked_of subject.now) slice.search) }
        ensures entered { (whole : Search) → AreSlices (asked_of subject.now) whole progress.old.pending.items →
            IsInRound (asked_of subject.now) whole progress.old.next self.old →
            OnOk result.own (IsInRound (asked_of subject.now) whole progress.new.next self.new) }
        ensures slices { (whole : Search) → AreTakenOver (asked_of subject.now) whole taken.items →
            IfOk result.others (λ slices. AreSlices (asked_of subject.now) whole slices.items) }
        ensures own { (whole : Search) → IfOk own.old (IsTaken (asked_of subject.now) whole) →
            IfOk result.own (λ made. IfOk made (IsSlice (asked_of subject.now) whole)) }
    {
        let alloc = self.alloc;
        let search = self;
        let mut enter = || -> Result<MadeSlice, AllocError>
            requires { IfOk own.now (λ slice. IsSearch (asked_of subject.now) slice.search) }
            ensures entered { (whole : Search) →
                AreSlices (asked_of subject.entry.now) whole progress.entry.now.pending.items →
                IsInRound (asked_of subject.entry.now) whole progress.entry.now.next search.entry.now →
                OnOk result (IsInRound (asked_of subject.entry.now) whole progress.exit.now.next search.exit.now) }
            ensures own { (whole : Search) → IfOk own.entry.now (IsTaken (asked_of subject.entry.now) whole) →
                IfOk result (λ made. IfOk made (IsSlice (asked_of subject.entry.now) whole)) }
        {
            let own = mem::replace(own, Err(AllocError));
            search.enter_first(subject, own, watcher, progress)
        };
        let (others, made) = crew.examine_beside(alloc, subject, taken, &mut enter);
        ExaminedSlices { others, own: made }
    }

    /// Enters the slices that are pending, and examines the last of those of the next round, while the crew examines
    /// the others. Gives all slices of that round, in order.
    fn enter_beside<W: SearchWatcher, C: Crew>(
        &mut self,
        crew: &C,
        subject: &SearchSubject<'_>,
        taken: Vec<MadeSlice>,
        last: MadeSlice,
        watcher: &mut W,
        progress: &mut Progress,
    ) -> Result<Vec<MadeSlice>, AllocError>
        requires crew { C.can_work crew.now }
        requires taken { AreReady (asked_of subject.now) taken.items }
        requires last { IfOk last (λ slice. IsSearch (asked_of subject.now) slice.search) }
        ensures entered { (whole : Search) → AreSlices (asked_of subject.now) whole progress.old.pending.items →
            IsInRound (asked_of subject.now) whole progress.old.next self.old →
            OnOk result (IsInRound (asked_of subject.now) whole progress.new.next self.new) }
        ensures slices { (whole : Search) → AreTakenOver (asked_of subject.now) whole taken.items →
            IfOk last (IsTaken (asked_of subject.now) whole) →
            IfOk result (λ slices. AreSlices (asked_of subject.now) whole slices.items) }
    {
        let mut own = last;
        let slices = self.enter_with_crew(crew, subject, taken, &mut own, watcher, progress);
        let made = slices.own?;
        with_last(slices.others, made)
    }

    /// Enters the slices that are pending, while the states of a span are examined in others. Those that cannot be
    /// entered are left.
    fn go_on_beside<W: SearchWatcher, C: Crew>(
        &mut self,
        crew: &C,
        subject: &SearchSubject<'_>,
        span: Span,
        watcher: &mut W,
        progress: &mut Progress,
    ) -> Result<(), AllocError>
        requires searching { IsSearching (asked_of subject.now) progress.old.next self.old }
        requires there { progress.old.next < length self.old.seen.rows }
        requires pending { AreSlices (asked_of subject.now) self.old progress.old.pending.items }
        requires crew { C.can_work crew.now }
        ensures searching { OnOk result (IsSearching (asked_of subject.now) progress.new.next self.new) }
        ensures pending { OnOk result (AreSlices (asked_of subject.now) self.new progress.new.pending.items) }
    {
        let mut taken = crew.hand_over(self.alloc, subject, self, span)?;
        let last = take_last(&mut taken);
        let slices = self.enter_beside(crew, subject, taken, last, watcher, progress)?;
        progress.put_pending(self.alloc, slices, span);
        Ok(())
    }

    /// Enters the slices that are pending. Those that cannot be entered are left.
    fn enter_pending<W: SearchWatcher>(
        &mut self,
        subject: &SearchSubject<'_>,
        watcher: &mut W,
        progress: &mut Progress,
    ) -> Result<(), AllocError>
        requires searching { IsSearching (asked_of subject.now) progress.old.next self.old }
        requires there { progress.old.next < length self.old.seen.rows }
        requires pending { AreSlices (asked_of subject.now) self.old progress.old.pending.items }
        ensures searching { OnOk result (IsSearching (asked_of subject.now) progress.new.next self.new) }
        ensures pending { OnOk result (AreSlices (asked_of subject.now) self.new progress.new.pending.items) }
    {
        self.enter_round(subject, watcher, progress)?;
        let none = Span {
            first: progress.next,
            end: progress.next,
        };
        progress.put_pending(self.alloc, Vec::new(self.alloc), none);
        Ok(())
    }

    /// Examines the next state, or enters the next states and examines others beside that.
    pub fn advance<'a, W: SearchWatcher, C: Crew>(
        &mut self,
        crew: &C,
        subject: &SearchSubject<'a>,
        kernels: &mut KernelPair<'a>,
        watcher: &mut W,
        progress: &mut Progress,
    ) -> Result<(), AllocError>
        requires searching { IsSearching (asked_of subject.now) progress.old.next self.old }
        requires there { progress.old.next < length self.old.seen.rows }
        requires pending { AreSlices (asked_of subject.now) self.old progress.old.pending.items }
        requires crew { C.can_work crew.now }
        requires kernels { AreKernelsOf (asked_of subject.now) kernels.old }
        ensures searching { OnOk result (IsSearching (asked_of subject.now) progress.new.next self.new) }
        ensures pending { OnOk result (AreSlices (asked_of subject.now) self.new progress.new.pending.items) }
        ensures kernels { AreKernelsOf (asked_of subject.now) kernels.new }
    {
        let span = self.next_span(subject, crew.jobs(), progress);
        if span.first < span.end {
            return self.go_on_beside(crew, subject, span, watcher, progress);
        }
        if !progress.pending.is_empty() {
            return self.enter_pending(subject, watcher, progress);
        }
        self.go_on(subject, kernels, watcher, progress)
    }
}
