//! Slices: states that a search keeps and has not examined yet, handed to a search of their own that examines them. The
//! result is the same wherever it runs, so slices can be examined at the same time as one another, and as the search
//! itself.
ghost use Rattle.std.specs.Prelude.{◌≡◌, ◌-◌, ◌≤◌, IfOk, OnOk, Some, length, slice_get, true};
ghost use Rattle.fmp_explore.specs.Searching.{AreKernelsOf, Grows, HasExamined, IsSearch, Stays};
ghost use Rattle.fmp_explore.specs.Slices.{HasExaminedFirst, HasKeptRow, HasTaken, IsSlice, IsSliceOf, IsTaken};
ghost use Rattle.fmp_explore.specs.declared.searches.Search.{Search};
ghost use Rattle.fmp_witness.specs.Asked.{asked_of};

use crate::edges::Edges;
use crate::kernels::{KernelPair, kernels_of};
use crate::searches::Search;
use crate::standing::is_same;
use fmp_code::Vm;
use fmp_kernel::Kernel;
use fmp_visited::{RowEntry, Seen, StateLink};
use fmp_witness::SearchSubject;
use std::alloc::AllocError;

/// Which states of a search are a slice.
#[derive(Clone, Copy)]
pub struct Span {
    /// The place of the first one.
    pub first: u32,
    /// The place after the last one.
    pub end: u32,
}

impl Span {
    /// How many states there are.
    pub fn len(self) -> u32
        ensures { result ≡ self.end - self.first }
    {
        self.end.saturating_sub(self.first)
    }
}

/// States of another search, the whole one, and the search to which they are handed. They are its first states.
#[derive(Drop)]
pub struct Slice {
    pub span: Span,
    pub search: Search,
}

/// A slice, unless memory ran out for it.
pub type MadeSlice = Result<Slice, AllocError>;

impl Search {
    /// A search with no state yet that keeps rows as this one does. `AllocError` if memory runs out.
    fn again(&self, subject: &SearchSubject<'_>) -> Result<Search, AllocError>
        requires { IsSearch (asked_of subject.now) self.now }
        ensures { IfOk result (IsSliceOf (asked_of subject.now) self.now) }
    {
        let rows = self.rows.again(self.alloc, subject)?;
        let tries = Vec::from_slice(self.alloc, &self.tries)?;
        let seen = Seen::new(self.alloc, subject.question.states)?;
        let notes = self.notes.again()?;
        Ok(Search {
            alloc: self.alloc,
            rows,
            tries,
            seen,
            notes,
            edges: Edges::new(self.alloc, subject.image.system().tasks.len()),
            full: false,
            unwritten: false,
            sure: true,
        })
    }

    /// Keeps the state of a row, to which this link leads: its place, or 0 if as many are kept as are allowed.
    /// `AllocError` if memory runs out.
    pub fn keep_row(&mut self, row: &[u8], link: StateLink) -> Result<u32, AllocError>
        ensures { OnOk result (HasKeptRow self.old self.new row.now) }
    {
        let entry = self.seen.add(self.alloc, row, link)?;
        match entry {
            RowEntry::New(place) => Ok(place),
            RowEntry::Known(place) => Ok(place),
            RowEntry::Full => {
                self.full = true;
                self.sure = false;
                Ok(0)
            }
        }
    }

    /// Keeps the row of the state at a place of another search, if there is one.
    #[tactic(auto, using(crate::proofs::SearchStepLemmas::same_grows))]
    fn take_row(&mut self, whole: &Search, place: u32) -> Result<(), AllocError>
        ensures { OnOk result (Grows self.old self.new) }
    {
        let Some(link) = whole.seen.link(place) else {
            return Ok(());
        };
        self.keep_row(whole.seen.row(place), link)?;
        Ok(())
    }

    /// Whether the state at a place has this row.
    pub fn has_at(&self, place: u32, row: &[u8]) -> bool
        ensures { result ≡ true → slice_get self.now.seen.rows place ≡ Some row.now }
    {
        if place as usize >= self.seen.len() {
            return false;
        }
        is_same(self.seen.row(place), row)
    }

    /// Checks whether the state at a place has this row. If not, nothing is sure.
    #[tactic(auto, using(crate::proofs::SearchStepLemmas::same_grows))]
    fn check_row(&mut self, k: u32, row: &[u8])
        ensures grows { Grows self.old self.new }
        ensures there { self.new.sure ≡ true → slice_get self.new.seen.rows k ≡ Some row.now }
    {
        if self.has_at(k, row) {
            return;
        }
        self.sure = false;
        self.edges.give_up(self.alloc);
    }

    /// Keeps the rows of states of another search as those of its first states. `AllocError` if memory runs out.
    fn take_rows(&mut self, whole: &Search, span: Span) -> Result<(), AllocError>
        ensures { OnOk result (HasTaken whole.now span.first span.end self.old self.new) }
    {
        for place in span.first..span.end {
            self.take_row(whole, place)?;
            let row = whole.seen.row(place);
            self.check_row(place - span.first, row);
        }
        Ok(())
    }

    /// A span, if there are states at its places; else one of no states.
    fn within(&self, span: Span) -> Span
        ensures { result.end ≤ length self.now.seen.rows }
    {
        if span.end as usize <= self.seen.len() {
            span
        } else {
            Span { first: 0, end: 0 }
        }
    }

    /// Hands states of this search to a search of their own. `AllocError` if memory runs out.
    pub fn hand_over(&self, subject: &SearchSubject<'_>, span: Span) -> Result<Slice, AllocError>
        requires { IsSearch (asked_of subject.now) self.now }
        ensures { IfOk result (IsTaken (asked_of subject.now) self.now) }
    {
        let span = self.within(span);
        let mut search = self.again(subject)?;
        search.take_rows(self, span)?;
        Ok(Slice { span, search })
    }

    /// Makes room for what is done in the system of a kernel. `AllocError` if memory runs out.
    fn cover(
        &mut self,
        subject: &SearchSubject<'_>,
        kernel: &Kernel<Vm<'_>>,
    ) -> Result<(), AllocError>
        ensures { OnOk result (Stays self.old self.new) }
    {
        self.notes.cover(subject, kernel)
    }

    /// Examines the state at a place, if there is one. If not, nothing is sure.
    fn examine_there<'a>(
        &mut self,
        subject: &SearchSubject<'a>,
        kernels: &mut KernelPair<'a>,
        k: u32,
    ) -> Result<(), AllocError>
        requires search { IsSearch (asked_of subject.now) self.old }
        requires kernels { AreKernelsOf (asked_of subject.now) kernels.old }
        ensures examined { OnOk result (HasExamined (asked_of subject.now) self.old self.new k) }
        ensures kernels { AreKernelsOf (asked_of subject.now) kernels.new }
    {
        if k as usize >= self.seen.len() {
            self.sure = false;
            self.edges.give_up(self.alloc);
            return Ok(());
        }
        self.examine(subject, kernels, k)
    }

    /// Examines the first states, this many.
    fn examine_first<'a>(
        &mut self,
        subject: &SearchSubject<'a>,
        kernels: &mut KernelPair<'a>,
        count: u32,
    ) -> Result<(), AllocError>
        requires search { IsSearch (asked_of subject.now) self.old }
        requires kernels { AreKernelsOf (asked_of subject.now) kernels.old }
        ensures { OnOk result (HasExaminedFirst (asked_of subject.now) count self.old self.new) }
    {
        for k in 0..count {
            self.examine_there(subject, kernels, k)?;
        }
        Ok(())
    }
}

impl Slice {
    /// Examines its states.
    fn examine_on<'a>(
        &mut self,
        subject: &SearchSubject<'a>,
        kernels: &mut KernelPair<'a>,
    ) -> Result<(), AllocError>
        requires search { IsSearch (asked_of subject.now) self.old.search }
        requires kernels { AreKernelsOf (asked_of subject.now) kernels.old }
        ensures { (whole : Search) → IsTaken (asked_of subject.now) whole self.old →
            OnOk result (IsSlice (asked_of subject.now) whole self.new) }
    {
        self.search.cover(subject, &kernels.top)?;
        let count = self.span.len();
        self.search.examine_first(subject, kernels, count)
    }

    /// The same, with kernels of its own. `AllocError` if memory runs out.
    #[tactic(none)]
    fn examine(&mut self, subject: &SearchSubject<'_>) -> Result<(), AllocError>
        requires { IsSearch (asked_of subject.now) self.old.search }
        ensures { (whole : Search) → IsTaken (asked_of subject.now) whole self.old →
            OnOk result (IsSlice (asked_of subject.now) whole self.new) }
    {
        let mut kernels = kernels_of(self.search.alloc, subject)?;
        let done = self.examine_on(subject, &mut kernels);
        drop(kernels);
        done
    }
}

/// A slice whose states are examined, of one for which there was memory. `AllocError` if memory runs out, or did.
pub fn examined(subject: &SearchSubject<'_>, taken: MadeSlice) -> MadeSlice
    requires { IfOk taken (λ slice. IsSearch (asked_of subject.now) slice.search) }
    ensures { (whole : Search) → IfOk taken (IsTaken (asked_of subject.now) whole) →
        IfOk result (IsSlice (asked_of subject.now) whole) }
{
    let mut slice = taken?;
    slice.examine(subject)?;
    Ok(slice)
}
