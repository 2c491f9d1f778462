//! What a search notes of the events that it tries, and the states that it keeps after them.
ghost use Rattle.std.specs.Prelude.{◌≡◌, List, OnOk, false, true};
ghost use Rattle.std.specs.List.{list_all, list_any};
ghost use Rattle.fmp_base.specs.Meanings.{World};
ghost use Rattle.fmp_instructions.specs.Instructions.{BodyTables};
ghost use Rattle.fmp_instructions.specs.declared.instructions.MachineContext.{MachineContext};
ghost use Rattle.fmp_kernel.specs.KernelViews.{KernelView};
ghost use Rattle.fmp_schedules.specs.Schedules.{is_any_broken};
ghost use Rattle.fmp_explore.specs.States.{AreMonitorsOf};
ghost use Rattle.fmp_live.specs.Fits.{is_written};
ghost use Rattle.fmp_question.specs.Sites.{is_bad};
ghost use Rattle.fmp_explore.specs.Searching.{
  HasDealtWith,
  HasDone,
  HasKept,
  HasKeptPlace,
  HasLive,
  HasStepped,
  IsAttempt,
  IsSearch,
  IsSoundKernel,
  Stays,
  asked_here,
  watched_after,
};

use crate::notes::PathEnd;
use crate::searches::{Search, are_none};
use crate::standings::monitors_after;
use crate::stretching::{Ahead, NextStretch, next_stretch, task_on};
use crate::trying::Attempt;
use fmp_base::{Effect, Event};
use fmp_code::Vm;
use fmp_kernel::Kernel;
use fmp_question::{CallSite, Outlook, are_written, may_rest, queues_within};
use fmp_schedules::{InterruptLimit, Monitor, MonitorSubject, all_let};
use fmp_witness::{FindingKind, SearchSubject};
use std::alloc::AllocError;

/// Whether a limit never lets an event come again.
fn is_used_up(monitors: &[Monitor], event: Event) -> bool {
    monitors.iter().any(|monitor| {
        matches!(
            monitor.subject,
            MonitorSubject::Limit(InterruptLimit::AtMost { .. })
        ) && !monitor.lets(event)
    })
}

impl Search {
    /// Keeps the state of a kernel to which an attempt led, whose event kept a place or was done, with its monitors.
    fn keep_next(
        &mut self,
        kernel: &Kernel<Vm<'_>>,
        attempt: Attempt<'_, '_>,
        kept: bool,
        monitors: &[Monitor],
    ) -> Result<(), AllocError>
        requires live { HasLive (asked_here attempt.here) self.old.rows }
        requires sound { IsSoundKernel (asked_here attempt.here) kernel.now }
        requires attempt { IsAttempt attempt }
        requires held { AreMonitorsOf attempt.here.subject.now.question.now.monitors.items monitors.now }
        ensures { OnOk result
            (HasKept (asked_here attempt.entry.here) self.old self.new kernel.now.world
            (watched_after attempt.entry monitors.now)) }
    {
        self.keep(
            attempt.here.subject,
            kernel,
            attempt.came(),
            monitors,
            attempt.link(kept),
        )
    }

    /// Whether a reply that an event told left the local at the out place of its call as it was, where that counts as
    /// written.
    fn leaves_place(&self, subject: &SearchSubject<'_>, kernel: &Kernel<Vm<'_>>) -> bool
        ensures { result ≡ false → self.now.rows.outs ≡ true → list_all (is_written
            subject.now.image.now.system subject.now.image.now.code kernel.now.world) kernel.now.lines ≡ true }
    {
        let image = subject.image;
        self.rows.outs && !are_written(kernel, image.system(), image.code())
    }

    /// Notes the lines of an event that is done, by a stretch that made this call, if it made one, and that found these
    /// monitors.
    fn note_lines(
        &mut self,
        kernel: &Kernel<Vm<'_>>,
        attempt: Attempt<'_, '_>,
        made: Option<CallSite>,
        monitors: &[Monitor],
    ) -> Result<(), AllocError>
        ensures stays { OnOk result (Stays self.old self.new) }
        ensures clean { OnOk result (self.new.sure ≡ true →
            list_any (is_bad (asked_here attempt.entry.here).image.system (asked_here attempt.entry.here).question
            kernel.now.world) kernel.now.lines ≡ false) }
        ensures alone { OnOk result (self.new.sure ≡ true → is_any_broken monitors.now kernel.now.lines ≡ false) }
        ensures written { OnOk result (self.new.sure ≡ true → self.new.rows.outs ≡ true → list_all
            (is_written (asked_here attempt.entry.here).image.system (asked_here attempt.entry.here).image.code
            kernel.now.world) kernel.now.lines ≡ true) }
    {
        let left = self.leaves_place(attempt.here.subject, kernel);
        self.unwritten |= left;
        self.sure &= !left;
        if let Some(site) = made {
            self.notes.coverage.note_call(site);
        }
        self.edges.note_lines(kernel.lines());
        let end = attempt.end();
        let path = end.among(&self.seen);
        let found = self
            .notes
            .note_lines(attempt.here.subject, kernel, path, made)?;
        self.sure &= !found;
        self.note_breaches(kernel.lines(), end, monitors, made)
    }

    /// An event is done, by a stretch that made this call, if it made one.
    fn note_done(
        &mut self,
        kernel: &Kernel<Vm<'_>>,
        attempt: Attempt<'_, '_>,
        made: Option<CallSite>,
    ) -> Result<(), AllocError>
        requires search { IsSearch (asked_here attempt.here) self.old }
        requires sound { IsSoundKernel (asked_here attempt.here) kernel.now }
        requires attempt { IsAttempt attempt }
        ensures { (w : World MachineContext) →
            HasDone (asked_here attempt.entry.here) w attempt.entry.event kernel.now →
            OnOk result (HasDealtWith attempt.entry self.old self.new w) }
    {
        let before = &attempt.here.at.monitors;
        self.note_lines(kernel, attempt, made, before)?;
        if are_none(before) {
            return self.keep_next(kernel, attempt, false, before);
        }
        let monitors = monitors_after(self.alloc, before, kernel.lines())?;
        self.keep_next(kernel, attempt, false, &monitors)
    }

    /// Notes that a limit holds back the event of an attempt: for good, or until the clock has advanced.
    fn note_held(&mut self, attempt: Attempt<'_, '_>)
        ensures { Stays self.old self.new }
    {
        if is_used_up(&attempt.here.at.monitors, attempt.event) {
            self.edges.note_end(self.alloc);
        }
    }

    /// An event is done, by a stretch that made this call, if it made one. If it leaves more queued than allowed, or a
    /// limit holds it back, it may not come, and is left out.
    fn note_done_within(
        &mut self,
        kernel: &Kernel<Vm<'_>>,
        attempt: Attempt<'_, '_>,
        made: Option<CallSite>,
    ) -> Result<(), AllocError>
        requires search { IsSearch (asked_here attempt.here) self.old }
        requires sound { IsSoundKernel (asked_here attempt.here) kernel.now }
        requires attempt { IsAttempt attempt }
        ensures { (w : World MachineContext) →
            HasDone (asked_here attempt.entry.here) w attempt.entry.event kernel.now →
            OnOk result (HasDealtWith attempt.entry self.old self.new w) }
    {
        if !queues_within(kernel, attempt.here.subject.question) {
            self.edges.note_end(self.alloc);
            return Ok(());
        }
        if !all_let(&attempt.here.at.monitors, attempt.event) {
            self.note_held(attempt);
            return Ok(());
        }
        self.note_done(kernel, attempt, made)
    }

    /// Notes that the actor of a processor goes on forever. It is this task or a handler, and its body is this one.
    fn note_endless(
        &mut self,
        end: PathEnd<'_>,
        p: u8,
        task: Option<u8>,
        body: Option<CallSite>,
    ) -> Result<(), AllocError>
        ensures { OnOk result (Stays self.old self.new) }
    {
        if let Some(t) = task {
            self.edges.note_act(t);
        }
        let path = end.among(&self.seen);
        self.notes.note_kind(path, FindingKind::Endless(p), body)
    }

    /// Finds out what becomes of the actor of a processor, of this body, whose place an event will keep, and notes it
    /// if it goes on forever. None, and nothing is noted, of a task that may rest.
    fn note_outlook(
        &mut self,
        kernel: &Kernel<Vm<'_>>,
        attempt: Attempt<'_, '_>,
        p: u8,
        body: Option<CallSite>,
    ) -> Result<Option<Outlook>, AllocError>
        requires { kernel.now.body ≡ attempt.here.subject.now.image.now.code }
        ensures { OnOk result (Stays self.old self.new) }
    {
        let task = task_on(kernel, p);
        if let Some(t) = task
            && may_rest(attempt.here.subject.question, t)
        {
            return Ok(None);
        }
        let seen = self
            .notes
            .outlooks
            .on(kernel, &attempt.here.subject.image.vm(), p)?;
        if seen == Outlook::Endless {
            self.note_endless(attempt.here.end(), p, task, body)?;
        }
        Ok(Some(seen))
    }

    /// Looks at the stretch of an event that is not yet taken, and notes that its actor goes on forever, if it does.
    /// `AllocError` if memory runs out.
    pub fn note_ahead(
        &mut self,
        kernel: &Kernel<Vm<'_>>,
        attempt: Attempt<'_, '_>,
    ) -> Result<Ahead, AllocError>
        requires { kernel.now.body ≡ attempt.here.subject.now.image.now.code }
        ensures { OnOk result (Stays self.old self.new) }
    {
        let stretch = next_stretch(
            kernel,
            &attempt.here.subject.image.vm(),
            attempt.here.subject.n,
            attempt.event,
        );
        let outlook = match (stretch, attempt.event) {
            (NextStretch::Keeps(_), Event::Run(p)) => {
                self.note_outlook(kernel, attempt, p, stretch.body())?
            }
            _ => None,
        };
        Ok(Ahead {
            made: stretch.call(),
            outlook,
        })
    }

    /// An event kept the place of an actor, of which this was told before: it holds there too.
    fn note_place(
        &mut self,
        kernel: &Kernel<Vm<'_>>,
        event: Event,
        outlook: Option<Outlook>,
    ) -> Result<(), AllocError>
        ensures { OnOk result (Stays self.old self.new) }
    {
        match (event, outlook) {
            (Event::Run(p), Some(seen)) => self.notes.outlooks.go_on(kernel, p, seen),
            _ => Ok(()),
        }
    }

    /// An event kept the place of an actor, of which this was told before.
    fn note_kept(
        &mut self,
        kernel: &Kernel<Vm<'_>>,
        attempt: Attempt<'_, '_>,
        outlook: Option<Outlook>,
    ) -> Result<(), AllocError>
        requires search { IsSearch (asked_here attempt.here) self.old }
        requires sound { IsSoundKernel (asked_here attempt.here) kernel.now }
        requires attempt { IsAttempt attempt }
        ensures { (w : World MachineContext) →
            HasKeptPlace (asked_here attempt.entry.here) w attempt.entry.event kernel.now →
            OnOk result (HasDealtWith attempt.entry self.old self.new w) }
    {
        self.note_place(kernel, attempt.event, outlook)?;
        self.keep_next(kernel, attempt, true, &attempt.here.at.monitors)
    }

    /// Notes what an event did, which did this, and of whose stretch this was known before.
    pub fn note_effect(
        &mut self,
        kernel: &Kernel<Vm<'_>>,
        attempt: Attempt<'_, '_>,
        effect: Effect,
        ahead: Ahead,
    ) -> Result<(), AllocError>
        requires search { IsSearch (asked_here attempt.here) self.old }
        requires sound { IsSoundKernel (asked_here attempt.here) kernel.now }
        requires attempt { IsAttempt attempt }
        ensures { (before : KernelView (List BodyTables) MachineContext) →
            HasStepped (asked_here attempt.entry.here) before attempt.entry.event kernel.now effect →
            OnOk result (HasDealtWith attempt.entry self.old self.new before.world) }
    {
        attempt.here.subject.image.keeps_rules();
        match effect {
            Effect::Nothing => Ok(()),
            Effect::Done => self.note_done_within(kernel, attempt, ahead.made),
            Effect::Kept => self.note_kept(kernel, attempt, ahead.outlook),
        }
    }
}
