//! How a search begins: the state after the events with which it begins is kept.
ghost use Rattle.std.specs.Prelude.{◌≡◌, [], OnOk, count_by, false, true};
ghost use Rattle.std.specs.List.{list_any};
ghost use Rattle.fmp_replay.specs.Replays.{kernel_after};
ghost use Rattle.fmp_schedules.specs.Deadlocks.{is_interrupt as is_request};
ghost use Rattle.fmp_schedules.specs.Schedules.{is_any_broken};
ghost use Rattle.fmp_explore.specs.States.{AreFew, AreMonitorsOf, watched_with};
ghost use Rattle.fmp_witness.specs.Followed.{IsFollowed};
ghost use Rattle.fmp_question.specs.Sites.{is_bad};
ghost use Rattle.fmp_explore.specs.Searching.{
  HasKept,
  HasLive,
  IsBegun,
  IsClean,
  IsFresh,
  IsSearch,
  Stays,
  monitors_at_setup,
};
ghost use Rattle.fmp_witness.specs.Asked.{asked_of};

use crate::notes::PathEnd;
use crate::searches::Search;
use crate::standings::monitors_after;
use fmp_base::Event;
use fmp_code::Vm;
use fmp_kernel::Kernel;
use fmp_question::interrupt_count;
use fmp_replay::kernel_of;
use fmp_schedules::Monitor;
use fmp_visited::StateLink;
use fmp_witness::{SearchSubject, follow};
use std::alloc::AllocError;

impl Search {
    /// Notes the lines of setup.
    fn note_setup(
        &mut self,
        subject: &SearchSubject<'_>,
        kernel: &Kernel<Vm<'_>>,
    ) -> Result<(), AllocError>
        ensures stays { OnOk result (Stays self.old self.new) }
        ensures clean { OnOk result (self.new.sure ≡ true →
            list_any (is_bad subject.now.image.now.system subject.now.question.now kernel.now.world) kernel.now.lines
            ≡ false) }
        ensures alone { OnOk result (self.new.sure ≡ true →
            is_any_broken subject.now.question.now.monitors.items kernel.now.lines ≡ false) }
    {
        let setup = PathEnd {
            after: &[],
            state: 0,
            last: None,
        };
        let path = setup.among(&self.seen);
        let found = self.notes.note_lines(subject, kernel, path, None)?;
        self.sure &= !found;
        self.note_breaches(kernel.lines(), setup, &subject.question.monitors, None)
    }

    /// Keeps the first state, that of a kernel which has taken the events after which the search begins, with its
    /// monitors. `AllocError` if memory runs out.
    fn keep_first(
        &mut self,
        subject: &SearchSubject<'_>,
        kernel: &Kernel<Vm<'_>>,
        monitors: &[Monitor],
    ) -> Result<(), AllocError>
        requires live { HasLive (asked_of subject.now) self.old.rows }
        requires few { AreFew subject.now.question.now (count_by is_request subject.now.question.now.after.items) }
        requires followed { IsFollowed subject.now.image.now subject.now.n subject.now.question.now.after.items
            kernel.now }
        requires held { AreMonitorsOf subject.now.question.now.monitors.items monitors.now }
        ensures { OnOk result
            (HasKept (asked_of subject.now) self.old self.new kernel.now.world
            (watched_with subject.now.question.now (count_by is_request subject.now.question.now.after.items)
            monitors.now)) }
    {
        let link = StateLink {
            parent: 0,
            event: Event::Tick,
            kept: false,
            depth: 0,
        };
        let came = interrupt_count(&subject.question.after);
        subject.image.keeps_rules();
        self.keep(subject, kernel, came, monitors, link)
    }

    /// Takes the events after which the search begins on a kernel that was just set up, and keeps the state after them,
    /// where the monitors are these at setup. `AllocError` if memory runs out.
    fn begin_after(
        &mut self,
        subject: &SearchSubject<'_>,
        kernel: &mut Kernel<Vm<'_>>,
        monitors: &[Monitor],
    ) -> Result<(), AllocError>
        requires search { IsSearch (asked_of subject.now) self.old }
        requires kernel { kernel.old ≡ kernel_after subject.now.image.now subject.now.n [] }
        requires monitors { monitors.now ≡ monitors_at_setup (asked_of subject.now) }
        requires clean { self.old.sure ≡ true → IsClean (asked_of subject.now) }
        ensures { OnOk result (IsBegun (asked_of subject.now) self.new) }
    {
        let question = subject.question;
        if !question.can_begin() {
            self.sure = false;
            return Ok(());
        }
        if !follow(kernel, subject.image, subject.n, &question.after) {
            self.sure = false;
            return Ok(());
        }
        self.keep_first(subject, kernel, monitors)
    }

    /// Keeps the state after the events with which the search begins, on a kernel that was just set up. `AllocError` if
    /// memory runs out.
    fn begin_on(
        &mut self,
        subject: &SearchSubject<'_>,
        kernel: &mut Kernel<Vm<'_>>,
    ) -> Result<(), AllocError>
        requires fresh { IsFresh (asked_of subject.now) self.old }
        requires kernel { kernel.old ≡ kernel_after subject.now.image.now subject.now.n [] }
        ensures { OnOk result (IsBegun (asked_of subject.now) self.new) }
    {
        self.notes.cover(subject, kernel)?;
        self.note_setup(subject, kernel)?;
        let monitors = monitors_after(self.alloc, &subject.question.monitors, kernel.lines())?;
        self.rows.begin(kernel, &monitors)?;
        self.begin_after(subject, kernel, &monitors)
    }

    /// Keeps the state after the events with which the search begins. `AllocError` if memory runs out.
    pub fn begin(&mut self, subject: &SearchSubject<'_>) -> Result<(), AllocError>
        requires { IsFresh (asked_of subject.now) self.old }
        ensures { OnOk result (IsBegun (asked_of subject.now) self.new) }
    {
        let mut kernel = kernel_of(self.alloc, subject.image, subject.n)?;
        let begun = self.begin_on(subject, &mut kernel);
        drop(kernel);
        begun
    }
}
