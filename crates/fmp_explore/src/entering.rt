//! How what slices found is entered into the search whose states they are: in order, so that all is as if its own
//! states had been examined one after the other.
ghost use Rattle.std.specs.Prelude.{◌≡◌, ◌≤◌, ◌<◌, List, ℕ, IfOk, OnOk, Some, length, slice_get, true};
ghost use Rattle.fmp_explore.specs.Searching.{Grows, Stays};
ghost use Rattle.fmp_explore.specs.Slices.{AreEntered, HasEntered, IsAmong};

use crate::searches::Search;
use crate::searching::SearchWatcher;
use crate::slices::Slice;
use crate::targets::EnteredStates;
use fmp_visited::StateLink;
use fmp_witness::SearchSubject;
use std::alloc::AllocError;

/// Whether a search has no more states than this.
fn has_all(search: &Search, count: u32) -> bool
    ensures { result ≡ true → length search.now.seen.rows ≤ count }
{
    search.seen.len() <= count as usize
}

impl Search {
    /// Whether what a slice found can be entered: it found nothing that this search would have to look at itself, and
    /// there is room for its states.
    pub fn can_enter(&self, subject: &SearchSubject<'_>, slice: &Slice) -> bool {
        let theirs = &slice.search;
        let room = (subject.question.states as usize).saturating_sub(self.seen.len());
        !theirs.full
            && !theirs.unwritten
            && !theirs.edges.is_lost()
            && self.notes.knows(&theirs.notes)
            && theirs.seen.len() <= room
    }

    /// The state at a place is one of a slice, at this place there.
    fn enter_own(&mut self, slice: &Slice, place: u32, k: u32)
        ensures grows { Grows self.old self.new }
        ensures kept { self.new.sure ≡ true → (row : List ℕ) →
            slice_get slice.now.search.seen.rows k ≡ Some row → IsAmong self.new.seen.rows row }
    {
        let has = self.has_at(place, slice.search.seen.row(k));
        self.sure &= has;
    }

    /// The states of a slice are its first ones. Gives how many they are.
    fn enter_all_own(&mut self, slice: &Slice, places: &mut Vec<u32>) -> Result<u32, AllocError>
        ensures grows { OnOk result (Grows self.old self.new) }
        ensures entered { IfOk result (λ next. AreEntered slice.now.search next self.new) }
    {
        for place in slice.span.first..slice.span.end {
            self.enter_own(slice, place, place - slice.span.first);
            places.push(place)?;
        }
        Ok(slice.span.len())
    }

    /// Keeps the state at a place of a slice, to which this link leads here: its place here.
    fn enter_next(&mut self, slice: &Slice, k: u32, link: StateLink) -> Result<u32, AllocError>
        ensures grows { OnOk result (Grows self.old self.new) }
        ensures kept { OnOk result (self.new.sure ≡ true → (row : List ℕ) →
            slice_get slice.now.search.seen.rows k ≡ Some row → IsAmong self.new.seen.rows row) }
    {
        self.keep_row(slice.search.seen.row(k), link)
    }

    /// Keeps the states of a slice from a place on to which events of the slice's state at `parent` led, which stands
    /// at this place here. Gives the place of the first one that is left.
    fn enter_from(
        &mut self,
        slice: &Slice,
        parent: u32,
        from: u32,
        places: &mut Vec<u32>,
    ) -> Result<u32, AllocError>
        requires { AreEntered slice.now.search from self.old }
        ensures grows { OnOk result (Grows self.old self.new) }
        ensures entered { IfOk result (λ next. AreEntered slice.now.search next self.new) }
    {
        for k in from..u32::MAX {
            let Some(link) = slice.search.seen.link(k) else {
                return Ok(k);
            };
            if slice.span.first.saturating_add(link.parent) != parent {
                return Ok(k);
            }
            let place = self.enter_next(slice, k, StateLink { parent, ..link })?;
            places.push(place)?;
        }
        Ok(u32::MAX)
    }

    /// Keeps the states of a slice, and tells how far the search has come. Gives how many were kept, and how many
    /// states there were when it was told last.
    fn enter_rows<W: SearchWatcher>(
        &mut self,
        slice: &Slice,
        watcher: &mut W,
        told: usize,
        places: &mut Vec<u32>,
    ) -> Result<(u32, usize), AllocError>
        ensures grows { OnOk result (Grows self.old self.new) }
        ensures entered { IfOk result (λ r. AreEntered slice.now.search r.0 self.new) }
    {
        let mut next = self.enter_all_own(slice, places)?;
        let mut told = told;
        for place in slice.span.first..slice.span.end {
            next = self.enter_from(slice, place, next, places)?;
            told = self.tell(watcher, told, place as usize + 1);
        }
        Ok((next, told))
    }

    /// Adds what a slice noted, whose states were entered so. All of them are kept, or not.
    fn join(&mut self, theirs: &Search, states: EnteredStates<'_>, all: bool)
        ensures stays { Stays self.old self.new }
        ensures sure { self.new.sure ≡ true → theirs.now.sure ≡ true }
        ensures all { self.new.sure ≡ true → all ≡ true }
    {
        self.sure &= theirs.sure;
        self.sure &= all;
        self.notes.join(&theirs.notes);
        self.edges.join(self.alloc, &theirs.edges, states);
    }

    /// Enters what a slice found, and tells how far the search has come. Gives how many states there were when it was
    /// told last. `AllocError` if memory runs out.
    pub fn enter<W: SearchWatcher>(
        &mut self,
        slice: &Slice,
        watcher: &mut W,
        told: usize,
    ) -> Result<usize, AllocError>
        ensures { OnOk result (HasEntered slice.now.search self.old self.new) }
    {
        let kept = self.seen.len();
        let mut places = Vec::new(self.alloc);
        let (next, told) = self.enter_rows(slice, watcher, told, &mut places)?;
        let all = has_all(&slice.search, next);
        let states = EnteredStates {
            seen: &slice.search.seen,
            places: &places,
            kept,
        };
        self.join(&slice.search, states, all);
        Ok(told)
    }
}
