//! What a search keeps: the states that it has seen, and what it has noted on its way.
ghost use Rattle.std.specs.Prelude.{◌≡◌, ◌-◌, [], IfOk, None, OnOk, false, length, true};
ghost use Rattle.fmp_schedules.specs.Monitors.{is_any_broken_in};
ghost use Rattle.fmp_schedules.specs.Schedules.{is_any_broken};
ghost use Rattle.fmp_explore.specs.States.{AreFew, AreMonitorsOf, watched_with};
ghost use Rattle.fmp_explore.specs.Searching.{HasKept, HasLive, IsFresh, IsSoundKernel, Stays, asked_here};
ghost use Rattle.fmp_explore.specs.Noted.{depth_at, events_to};
ghost use Rattle.fmp_witness.specs.Asked.{asked_of};

use crate::edges::Edges;
use crate::notes::{Notes, PathEnd};
use crate::rows::Rows;
use crate::trying::Examination;
use crate::values::{Variety, varieties};
use fmp_base::{Event, Line};
use fmp_code::Vm;
use fmp_kernel::Kernel;
use fmp_question::{CallSite, Question};
use fmp_schedules::{Monitor, tries_of};
use fmp_visited::{RowEntry, Seen, StateLink};
use fmp_witness::{Coverage, Finding, SearchSubject};
use std::alloc::{AllocError, Global};

/// Whether there are no monitors.
pub fn are_none(monitors: &[Monitor]) -> bool
    ensures { result ≡ true → monitors.now ≡ [] }
{
    monitors.is_empty()
}

/// A search under way.
#[derive(Drop)]
pub struct Search {
    /// Where its memory comes from.
    pub alloc: Global,
    pub rows: Rows,
    /// The events that are tried in each state.
    pub tries: Vec<Event>,
    pub seen: Seen,
    pub notes: Notes,
    pub edges: Edges,
    /// Whether a state could not be kept, since the greatest number is kept already.
    pub full: bool,
    /// Whether an answer left the local at the out place of its call as it was, where it counts as written.
    pub unwritten: bool,
    /// Whether nothing was found, and each event was followed, led to a state that is kept, and wrote the out places
    /// that count as written.
    pub sure: bool,
}

impl Search {
    /// A search with no state yet, where the local at the out place of a call counts as written by every reply, or by
    /// E_OK alone. `AllocError` if memory runs out.
    pub fn new(alloc: Global, outs: bool, subject: &SearchSubject<'_>) -> Result<Search, AllocError>
        ensures { IfOk result (IsFresh (asked_of subject.now)) }
    {
        let sys = subject.image.system();
        let tries = tries_of(alloc, sys)?;
        let seen = Seen::new(alloc, subject.question.states)?;
        let rows = Rows::new(alloc, outs, subject)?;
        Ok(Search {
            alloc,
            rows,
            tries,
            seen,
            notes: Notes::new(alloc),
            edges: Edges::new(alloc, sys.tasks.len()),
            full: false,
            unwritten: false,
            sure: true,
        })
    }

    /// What it noted, which it forgets. `AllocError` if memory runs out.
    pub fn take_candidates(&mut self) -> Result<Vec<Finding>, AllocError> {
        self.notes.take_candidates()
    }

    /// What was ever done, which it forgets.
    pub fn take_coverage(&mut self) -> Coverage
        ensures { result ≡ self.old.notes.coverage }
    {
        self.notes.take_coverage()
    }

    /// For each monitor, whether what its sentence speaks of ever came, which it forgets.
    pub fn take_premises(&mut self) -> Vec<bool>
        ensures { result.items ≡ self.old.notes.premises.items }
    {
        self.notes.take_premises()
    }

    /// How many values each field has in the states that were seen. `AllocError` if memory runs out.
    pub fn varieties(&self) -> Result<Vec<Variety>, AllocError> {
        varieties(
            self.alloc,
            &self.seen,
            &self.rows.first,
            self.rows.fields.list(),
        )
    }

    /// The events that lead to a state, with those after which the search began. `AllocError` if memory runs out.
    pub fn steps_to(&self, question: &Question, state: u32) -> Result<Vec<Event>, AllocError>
        ensures { IfOk result (λ events. events.items
            ≡ events_to self.now.seen.links question.now.after.items state None) }
    {
        let end = PathEnd {
            after: &question.after,
            state,
            last: None,
        };
        end.among(&self.seen).events(self.alloc)
    }

    /// How many events lead to a state from the one in which the search began.
    pub fn depth_of(&self, state: u32) -> u32
        ensures { result ≡ depth_at self.now.seen.links state }
    {
        match self.seen.link(state) {
            Some(link) => link.depth,
            None => 0,
        }
    }

    /// How many events lead to the state that was reached last.
    pub fn depth(&self) -> u32
        ensures { result ≡ depth_at self.now.seen.links (length self.now.seen.links - 1) }
    {
        match self.seen.last() {
            Some(link) => link.depth,
            None => 0,
        }
    }

    /// Keeps the state of a kernel to which this link leads, with its monitors, if it is new. This many interrupts
    /// came. `AllocError` if memory runs out.
    pub fn keep(
        &mut self,
        subject: &SearchSubject<'_>,
        kernel: &Kernel<Vm<'_>>,
        came: usize,
        monitors: &[Monitor],
        link: StateLink,
    ) -> Result<(), AllocError>
        requires live { HasLive (asked_of subject.now) self.old.rows }
        requires sound { IsSoundKernel (asked_of subject.now) kernel.now }
        requires few { AreFew subject.now.question.now came }
        requires held { AreMonitorsOf subject.now.question.now.monitors.items monitors.now }
        ensures { OnOk result
            (HasKept (asked_of subject.now) self.old self.new kernel.now.world
            (watched_with subject.now.question.now came monitors.now)) }
    {
        self.rows.write(kernel, came, monitors)?;
        let entry = self.seen.add(self.alloc, &self.rows.row, link)?;
        self.edges.note_entry(self.alloc, entry);
        match entry {
            RowEntry::New(_) => {
                self.notes.coverage.note_state(kernel.tables());
                Ok(())
            }
            RowEntry::Known(_) => Ok(()),
            RowEntry::Full => {
                self.full = true;
                self.sure = false;
                Ok(())
            }
        }
    }

    /// Notes what a list of events leads to, whose last one left these lines by a stretch that made this call, if it
    /// made one, and found these monitors: whether a line breaks a sentence.
    pub fn note_breaches(
        &mut self,
        lines: &[Line],
        end: PathEnd<'_>,
        monitors: &[Monitor],
        made: Option<CallSite>,
    ) -> Result<(), AllocError>
        ensures stays { OnOk result (Stays self.old self.new) }
        ensures clean { OnOk result (self.new.sure ≡ true → is_any_broken monitors.now lines.now ≡ false) }
    {
        if are_none(monitors) {
            return Ok(());
        }
        let path = end.among(&self.seen);
        let found = self.notes.note_breaches(lines, path, monitors, made)?;
        self.sure &= !found;
        Ok(())
    }

    /// Notes the sentences that the state of a kernel breaks, which is the state that is examined.
    pub fn note_state(
        &mut self,
        kernel: &Kernel<Vm<'_>>,
        here: Examination<'_, '_>,
    ) -> Result<(), AllocError>
        ensures stays { OnOk result (Stays self.old self.new) }
        ensures upheld { OnOk result (self.new.sure ≡ true → is_any_broken_in
            (asked_here here.entry).question.monitors.items kernel.now.world.state ≡ false) }
    {
        let path = here.end().among(&self.seen);
        let found = self
            .notes
            .note_state(path, kernel.tables(), &here.subject.question.monitors)?;
        self.sure &= !found;
        Ok(())
    }
}
