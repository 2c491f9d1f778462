//! The search: breadth first over the states of a system, each restored from its row.
ghost use Rattle.std.specs.Prelude.{◌≡◌, ◌≢◌, ◌<◌, IfOk, IfSome, length};
ghost use Rattle.fmp_explore.specs.Noted.{told_at};
ghost use Rattle.fmp_explore.specs.Searching.{AreKernelsOf, HasEnded, IsBegun};
ghost use Rattle.fmp_witness.specs.Asked.{asked_of};

use crate::crew::Crew;
use crate::kernels::{KernelPair, kernels_of};
use crate::rounds::Progress;
use crate::searches::Search;
use fmp_witness::SearchSubject;
use std::alloc::AllocError;

/// Who is told how far a search has come, and limits its time.
pub trait SearchWatcher {
    /// There are 2^14 states, or twice as many as when this was told last. The last one is this deep.
    fn grown(&mut self, states: usize, examined: usize, depth: u32);

    /// Whether the time of the search is over. This is asked before each state is examined, or before each round of
    /// slices.
    fn is_over(&mut self) -> bool;
}

/// Why a search ended.
#[derive(Clone, Copy, Debug, PartialEq, Eq)]
pub enum Ending {
    /// Every state was examined.
    Complete,
    /// Something was found, and no more was asked for.
    Found,
    /// The greatest number of states was kept.
    StateLimit,
    /// The time that is allowed was over.
    TimeLimit,
    /// There was no more memory.
    OutOfMemory,
}

impl Search {
    /// Why the search ends before the state at a place, if it does.
    fn ending_before<W: SearchWatcher>(
        &self,
        subject: &SearchSubject<'_>,
        watcher: &mut W,
        state: u32,
    ) -> Option<Ending>
        ensures { IfSome result (λ ending. ending ≢ Ending.Complete) }
    {
        let depth = subject
            .question
            .after
            .len()
            .saturating_add(self.depth_of(state) as usize);
        if self.unwritten || !subject.question.all && self.notes.has_within(depth) {
            Some(Ending::Found)
        } else if self.full {
            Some(Ending::StateLimit)
        } else if watcher.is_over() {
            Some(Ending::TimeLimit)
        } else {
            None
        }
    }

    /// Why the search ends where every state that is kept was examined.
    fn last_ending(&self) -> Ending {
        if self.full {
            Ending::StateLimit
        } else {
            Ending::Complete
        }
    }

    /// Tells how far the search has come, if there are twice as many states as when that was told last. Gives how many
    /// there were when it was told last.
    pub fn tell<W: SearchWatcher>(&self, watcher: &mut W, told: usize, examined: usize) -> usize
        ensures { result ≡ told_at told (length self.now.seen.rows) }
    {
        if self.seen.len() < told.saturating_mul(2) {
            return told;
        }
        watcher.grown(self.seen.len(), examined, self.depth());
        self.seen.len()
    }

    /// Examines the states in order until none is left, or the search ends.
    fn examine_all<'a, W: SearchWatcher, C: Crew>(
        &mut self,
        crew: &C,
        subject: &SearchSubject<'a>,
        kernels: &mut KernelPair<'a>,
        watcher: &mut W,
    ) -> Result<Ending, AllocError>
        requires begun { IsBegun (asked_of subject.now) self.old }
        requires crew { C.can_work crew.now }
        requires kernels { AreKernelsOf (asked_of subject.now) kernels.old }
        ensures { IfOk result (HasEnded (asked_of subject.now) self.new) }
    {
        let mut progress = Progress::new(self.alloc);
        for _turn in 0..u32::MAX {
            if progress.next as usize >= self.seen.len() {
                return Ok(self.last_ending());
            }
            if let Some(ending) = self.ending_before(subject, watcher, progress.next) {
                return Ok(ending);
            }
            self.advance(crew, subject, kernels, watcher, &mut progress)?;
        }
        Ok(Ending::StateLimit)
    }

    /// Runs the search to its end, with kernels of its own. `AllocError` if memory runs out.
    #[tactic(none)]
    pub fn run<W: SearchWatcher, C: Crew>(
        &mut self,
        crew: &C,
        subject: &SearchSubject<'_>,
        watcher: &mut W,
    ) -> Result<Ending, AllocError>
        requires begun { IsBegun (asked_of subject.now) self.old }
        requires crew { C.can_work crew.now }
        ensures { IfOk result (HasEnded (asked_of subject.now) self.new) }
    {
        let mut kernels = kernels_of(self.alloc, subject)?;
        let ending = self.examine_all(crew, subject, &mut kernels, watcher);
        drop(kernels);
        ending
    }
}
