//! Examining a state: each event that may come is tried in it, and it is checked whether it is a deadlock.
ghost use Rattle.std.specs.Prelude.{◌≡◌, ◌≢◌, ◌+◌, ◌<◌, ◌≤◌, [], IfOk, IsTrue, OnOk, false, is_some, length, true};
ghost use Rattle.fmp_base.specs.Steps.{Nothing};
ghost use Rattle.fmp_base.specs.Meanings.{World};
ghost use Rattle.fmp_instructions.specs.declared.instructions.MachineContext.{MachineContext};
ghost use Rattle.fmp_explore.specs.Searching.{AreKernelsOf, AreMarks, CanStep, Grows, HasDealtWith, HasExamined};
ghost use Rattle.fmp_explore.specs.Searching.{HasLooked, HasLookedAt, HasTried, HasTriedOut, IsAttempt, IsKernelOf};
ghost use Rattle.fmp_explore.specs.Searching.{IsSearch, IsStateFor, IsTrying, MayRequest, asked_here, came_on};
ghost use Rattle.fmp_explore.specs.Searching.{watched_here};
ghost use Rattle.fmp_explore.specs.States.{AreFew, MayCome, counted, reaction_in};
ghost use Rattle.fmp_schedules.specs.Schedules.{may_still};
ghost use Rattle.fmp_schedules.specs.Tries.{all_tries};
ghost use Rattle.fmp_witness.specs.Asked.{asked_of};

use crate::kernels::KernelPair;
use crate::searches::Search;
use crate::stretching::Ahead;
use crate::trying::{Attempt, Examination, StateMarks};
use fmp_base::{Effect, Event};
use fmp_code::Vm;
use fmp_kernel::Kernel;
use fmp_question::{Question, Ticks, stands_still};
use fmp_witness::{FindingKind, SearchSubject};
use std::alloc::AllocError;

/// Whether one more interrupt may come where this many came.
fn may_interrupt(question: &Question, came: usize) -> bool
    ensures may { result ≡ may_still question.now.interrupts (counted question.now.interrupts came) }
    ensures few { IsTrue result → is_some question.now.interrupts ≡ true → came < 255 }
{
    match question.interrupts {
        Some(most) => came < usize::from(most),
        None => true,
    }
}

/// Whether the clock may advance in a state where this was done.
fn may_tick(question: &Question, marks: StateMarks) -> bool
    ensures ticks { result ≡ false → question.now.ticks ≢ Ticks.Any }
    ensures marks { result ≡ false → marks.idle ≡ false }
{
    match question.ticks {
        Ticks::Any => true,
        Ticks::Idle => marks.idle,
    }
}

/// Whether an event may be tried in a state where this was done.
fn may_try(here: Examination<'_, '_>, marks: StateMarks, event: Event) -> bool
    requires few { AreFew (asked_here here).question here.at.now.came }
    ensures few { IsTrue result → AreFew (asked_here here.entry).question
        (came_on (asked_here here.entry).question.interrupts here.entry.at.now.came event) }
    ensures no { (w : World MachineContext) → result ≡ false →
        AreMarks (asked_here here.entry) w (watched_here here.entry) marks →
        MayCome (asked_here here.entry) w (watched_here here.entry) event → ⊥ }
    ensures request { result ≡ true →
        MayRequest (asked_here here.entry).question (watched_here here.entry) event }
{
    match event {
        Event::Run(_) => true,
        Event::Tick => may_tick(here.subject.question, marks),
        Event::Int(_) => may_interrupt(here.subject.question, here.at.came),
    }
}

/// Whether no sentence is watched, and no single interrupt is limited.
fn watches_nothing(question: &Question) -> bool
    ensures { result ≡ true → question.now.monitors.items ≡ [] }
{
    question.monitors.is_empty()
}

/// Whether an event of this effect did something.
fn has_done(effect: Effect) -> bool
    ensures nothing { result ≡ false → effect ≡ Effect.Nothing }
    ensures something { result ≡ true → effect ≢ Effect.Nothing }
{
    match effect {
        Effect::Nothing => false,
        Effect::Kept | Effect::Done => true,
    }
}

impl Search {
    /// Tries an event on a kernel in its state, where this is known of its stretch: whether it does something.
    #[tactic(auto, using(crate::proofs::KernelLemmas::step_over))]
    fn attempt_ahead<'a>(
        &mut self,
        kernel: &mut Kernel<Vm<'a>>,
        attempt: Attempt<'_, 'a>,
        ahead: Ahead,
    ) -> Result<bool, AllocError>
        requires search { IsSearch (asked_here attempt.here) self.old }
        requires ready { CanStep (asked_here attempt.here) kernel.old }
        requires attempt { IsAttempt attempt }
        ensures dealt { OnOk result (HasDealtWith attempt.entry self.old self.new kernel.old.world) }
        ensures still { IfOk result (λ did. did ≡ false → kernel.new ≡ kernel.old) }
        ensures does { IfOk result (λ did. did ≡ true →
            reaction_in (asked_here attempt.entry.here) kernel.old.world attempt.entry.event ≢ Nothing) }
        ensures over { IsKernelOf (asked_here attempt.entry.here) kernel.new }
    {
        attempt.here.subject.image.keeps_rules();
        let effect = kernel.step(attempt.event);
        self.note_effect(kernel, attempt, effect, ahead)?;
        Ok(has_done(effect))
    }

    /// The same, where nothing is known yet of its stretch.
    #[tactic(auto, using(crate::proofs::KernelLemmas::ready_over))]
    fn attempt<'a>(
        &mut self,
        kernel: &mut Kernel<Vm<'a>>,
        attempt: Attempt<'_, 'a>,
    ) -> Result<bool, AllocError>
        requires search { IsSearch (asked_here attempt.here) self.old }
        requires ready { CanStep (asked_here attempt.here) kernel.old }
        requires attempt { IsAttempt attempt }
        ensures dealt { OnOk result (HasDealtWith attempt.entry self.old self.new kernel.old.world) }
        ensures still { IfOk result (λ did. did ≡ false → kernel.new ≡ kernel.old) }
        ensures does { IfOk result (λ did. did ≡ true →
            reaction_in (asked_here attempt.entry.here) kernel.old.world attempt.entry.event ≢ Nothing) }
        ensures over { IsKernelOf (asked_here attempt.entry.here) kernel.new }
    {
        let ahead = self.note_ahead(kernel, attempt)?;
        self.attempt_ahead(kernel, attempt, ahead)
    }

    /// Tries the event at a place of those that are tried, if it may come now: whether it does something.
    #[tactic(auto, using(crate::proofs::KernelLemmas::ready_over))]
    fn try_at<'a>(
        &mut self,
        kernel: &mut Kernel<Vm<'a>>,
        here: Examination<'_, 'a>,
        marks: &mut StateMarks,
        place: usize,
    ) -> Result<bool, AllocError>
        requires place { place < length self.old.tries.items }
        requires ready { CanStep (asked_here here) kernel.old }
        requires state { IsStateFor (asked_here here) here.at.now }
        requires trying { IsTrying (asked_here here) kernel.old.world (watched_here here) marks.old place self.old }
        ensures trying { OnOk result
            (IsTrying (asked_here here.entry) kernel.old.world (watched_here here.entry) marks.new
            (place + 1) self.new) }
        ensures grows { OnOk result (Grows self.old self.new) }
        ensures still { IfOk result (λ did. did ≡ false → kernel.new ≡ kernel.old) }
        ensures over { IsKernelOf (asked_here here.entry) kernel.new }
    {
        let event = self.tries[place];
        if !may_try(here, *marks, event) {
            return Ok(false);
        }
        let attempt = Attempt { here, event };
        if !self.attempt(kernel, attempt)? {
            return Ok(false);
        }
        here.subject.image.keeps_rules();
        self.notes.events = self.notes.events.saturating_add(1);
        marks.note(event);
        Ok(true)
    }

    /// Tries the events from this place on, up to another one, on a kernel in the state that is examined, until one
    /// does something. Gives the place after it, or after the last.
    #[tactic(auto, using(crate::proofs::KernelLemmas::ready_over))]
    fn try_from<'a>(
        &mut self,
        kernel: &mut Kernel<Vm<'a>>,
        here: Examination<'_, 'a>,
        marks: &mut StateMarks,
        first: usize,
        end: usize,
    ) -> Result<usize, AllocError>
        requires first { first < end }
        requires end { end ≤ length self.old.tries.items }
        requires ready { CanStep (asked_here here) kernel.old }
        requires state { IsStateFor (asked_here here) here.at.now }
        requires trying { IsTrying (asked_here here) kernel.old.world (watched_here here) marks.old first self.old }
        ensures tried { IfOk result
            (HasTried (asked_here here.entry) kernel.old.world (watched_here here.entry) marks.new
            self.old self.new) }
        ensures above { IfOk result (λ next. first < next) }
        ensures over { IsKernelOf (asked_here here.entry) kernel.new }
    {
        for place in first..end {
            if self.try_at(kernel, here, marks, place)? {
                return Ok(place + 1);
            }
        }
        Ok(end)
    }

    /// The same, on a kernel that is first put back into the state that `from` is in.
    fn try_on<'a>(
        &mut self,
        from: &Kernel<Vm<'a>>,
        kernel: &mut Kernel<Vm<'a>>,
        here: Examination<'_, 'a>,
        marks: &mut StateMarks,
        first: usize,
        end: usize,
    ) -> Result<usize, AllocError>
        requires first { first < end }
        requires end { end ≤ length self.old.tries.items }
        requires ready { CanStep (asked_here here) from.now }
        requires state { IsStateFor (asked_here here) here.at.now }
        requires trying { IsTrying (asked_here here) from.now.world (watched_here here) marks.old first self.old }
        requires over { IsKernelOf (asked_here here) kernel.old }
        ensures tried { IfOk result
            (HasTried (asked_here here.entry) from.now.world (watched_here here.entry) marks.new
            self.old self.new) }
        ensures above { IfOk result (λ next. first < next) }
        ensures over { IsKernelOf (asked_here here.entry) kernel.new }
    {
        kernel.put_back(from);
        self.try_from(kernel, here, marks, first, end)
    }

    /// Tries the events before a place in the state that is examined, in which `from` is: what was done there.
    fn try_before<'a>(
        &mut self,
        from: &Kernel<Vm<'a>>,
        kernel: &mut Kernel<Vm<'a>>,
        here: Examination<'_, 'a>,
        end: usize,
    ) -> Result<StateMarks, AllocError>
        requires search { IsSearch (asked_here here) self.old }
        requires end { end ≤ length self.old.tries.items }
        requires ready { CanStep (asked_here here) from.now }
        requires state { IsStateFor (asked_here here) here.at.now }
        requires over { IsKernelOf (asked_here here) kernel.old }
        ensures tried { IfOk result
            (λ marks. HasTried (asked_here here.entry) from.now.world (watched_here here.entry) marks
            self.old self.new end) }
        ensures over { IsKernelOf (asked_here here.entry) kernel.new }
    {
        let mut marks = StateMarks {
            idle: true,
            interrupted: false,
        };
        self.edges.begin_state(self.alloc, self.seen.len());
        let mut next = 0;
        for _try in 0..end {
            if next >= end {
                return Ok(marks);
            }
            next = self.try_on(from, kernel, here, &mut marks, next, end)?;
        }
        Ok(marks)
    }

    /// Tries the last event too, which is at this place: what was done then.
    fn try_last<'a>(
        &mut self,
        from: &Kernel<Vm<'a>>,
        kernel: &mut Kernel<Vm<'a>>,
        here: Examination<'_, 'a>,
        marks: StateMarks,
        last: usize,
    ) -> Result<StateMarks, AllocError>
        requires last { length self.old.tries.items ≤ last + 1 }
        requires ready { CanStep (asked_here here) from.now }
        requires state { IsStateFor (asked_here here) here.at.now }
        requires trying { IsTrying (asked_here here) from.now.world (watched_here here) marks last self.old }
        requires over { IsKernelOf (asked_here here) kernel.old }
        ensures tried { IfOk result
            (λ marks. HasTried (asked_here here.entry) from.now.world (watched_here here.entry) marks
            self.old self.new (length (all_tries (asked_here here.entry).image.system))) }
        ensures over { IsKernelOf (asked_here here.entry) kernel.new }
    {
        let end = self.tries.len();
        if last >= end {
            return Ok(marks);
        }
        let mut marks = marks;
        let _next = self.try_on(from, kernel, here, &mut marks, last, end)?;
        Ok(marks)
    }

    /// Checks whether the state of a kernel, in which no processor can do anything, is a deadlock, or waits for an
    /// interrupt.
    fn look(
        &mut self,
        kernel: &Kernel<Vm<'_>>,
        here: Examination<'_, '_>,
        marks: StateMarks,
    ) -> Result<(), AllocError>
        requires over { IsKernelOf (asked_here here) kernel.now }
        requires marks { AreMarks (asked_here here) kernel.now.world (watched_here here) marks }
        ensures { OnOk result
            (HasLooked (asked_here here.entry) self.old self.new kernel.now.world (watched_here here.entry)) }
    {
        if !stands_still(kernel, here.subject.question) {
            return Ok(());
        }
        if marks.interrupted {
            self.edges.note_waiting(self.alloc);
            return Ok(());
        }
        self.sure = false;
        self.edges.note_end(self.alloc);
        let path = here.end().among(&self.seen);
        self.notes.note_kind(path, FindingKind::Deadlock, None)
    }

    /// Checks whether the state that is examined, in which this was done, is a deadlock.
    fn look_if_idle(
        &mut self,
        kernel: &Kernel<Vm<'_>>,
        here: Examination<'_, '_>,
        marks: StateMarks,
    ) -> Result<(), AllocError>
        requires over { IsKernelOf (asked_here here) kernel.now }
        requires marks { AreMarks (asked_here here) kernel.now.world (watched_here here) marks }
        ensures { OnOk result
            (HasLooked (asked_here here.entry) self.old self.new kernel.now.world (watched_here here.entry)) }
    {
        if marks.idle {
            self.look(kernel, here, marks)
        } else {
            Ok(())
        }
    }

    /// Checks whether the state that is examined, in which this was done, is a deadlock, and whether it breaks a
    /// sentence.
    fn look_at(
        &mut self,
        kernel: &Kernel<Vm<'_>>,
        here: Examination<'_, '_>,
        marks: StateMarks,
    ) -> Result<(), AllocError>
        requires over { IsKernelOf (asked_here here) kernel.now }
        requires marks { AreMarks (asked_here here) kernel.now.world (watched_here here) marks }
        ensures { OnOk result
            (HasLookedAt (asked_here here.entry) self.old self.new kernel.now.world (watched_here here.entry)) }
    {
        self.look_if_idle(kernel, here, marks)?;
        self.note_state(kernel, here)?;
        Ok(())
    }

    /// Whether a state in which this was done is no deadlock, no sentence is watched, and there is an event at a place.
    fn is_busy(&self, subject: &SearchSubject<'_>, marks: StateMarks, last: usize) -> bool
        ensures there { result ≡ true → last < length self.now.tries.items }
        ensures busy { result ≡ true → marks.idle ≡ false }
        ensures none { result ≡ true → subject.now.question.now.monitors.items ≡ [] }
    {
        last < self.tries.len() && !marks.idle && watches_nothing(subject.question)
    }

    /// Goes on to examine a state, in which `from` is, where all events but the last were tried: tries that one, and
    /// checks whether the state is a deadlock, and whether it breaks a sentence.
    fn finish<'a>(
        &mut self,
        from: &Kernel<Vm<'a>>,
        kernel: &mut Kernel<Vm<'a>>,
        here: Examination<'_, 'a>,
        marks: StateMarks,
        last: usize,
    ) -> Result<(), AllocError>
        requires last { length self.old.tries.items ≤ last + 1 }
        requires ready { CanStep (asked_here here) from.now }
        requires state { IsStateFor (asked_here here) here.at.now }
        requires trying { IsTrying (asked_here here) from.now.world (watched_here here) marks last self.old }
        requires over { IsKernelOf (asked_here here) kernel.old }
        ensures tried { OnOk result
            (HasTriedOut (asked_here here.entry) self.old self.new from.now.world (watched_here here.entry)) }
        ensures over { IsKernelOf (asked_here here.entry) kernel.new }
    {
        here.subject.image.keeps_rules();
        let marks = self.try_last(from, kernel, here, marks, last)?;
        self.look_at(from, here, marks)
    }

    /// The same of a state that is no deadlock, since something was done in it, where no sentence is watched: so the
    /// last event is tried on the kernel that is in it.
    #[tactic(auto, using(crate::proofs::KernelLemmas::ready_over))]
    fn finish_busy<'a>(
        &mut self,
        kernel: &mut Kernel<Vm<'a>>,
        here: Examination<'_, 'a>,
        marks: StateMarks,
        last: usize,
    ) -> Result<(), AllocError>
        requires there { last < length self.old.tries.items }
        requires last { length self.old.tries.items ≤ last + 1 }
        requires busy { marks.idle ≡ false }
        requires none { (asked_here here).question.monitors.items ≡ [] }
        requires ready { CanStep (asked_here here) kernel.old }
        requires state { IsStateFor (asked_here here) here.at.now }
        requires trying { IsTrying (asked_here here) kernel.old.world (watched_here here) marks last self.old }
        ensures tried { OnOk result
            (HasTriedOut (asked_here here.entry) self.old self.new kernel.old.world (watched_here here.entry)) }
        ensures over { IsKernelOf (asked_here here.entry) kernel.new }
    {
        here.subject.image.keeps_rules();
        let mut marks = marks;
        self.try_at(kernel, here, &mut marks, last)?;
        Ok(())
    }

    /// Examines a state, in which the first kernel is: tries each event in it, and checks whether it is a deadlock, and
    /// whether it breaks a sentence.
    #[tactic(auto, using(crate::proofs::KernelLemmas::ready_over))]
    fn examine_on<'a>(
        &mut self,
        kernels: &mut KernelPair<'a>,
        here: Examination<'_, 'a>,
    ) -> Result<(), AllocError>
        requires search { IsSearch (asked_here here) self.old }
        requires ready { CanStep (asked_here here) kernels.old.top }
        requires state { IsStateFor (asked_here here) here.at.now }
        requires work { IsKernelOf (asked_here here) kernels.old.work }
        ensures tried { OnOk result
            (HasTriedOut (asked_here here.entry) self.old self.new kernels.old.top.world (watched_here here.entry)) }
        ensures kernels { AreKernelsOf (asked_here here.entry) kernels.new }
    {
        let end = self.tries.len();
        let last = end.saturating_sub(1);
        let marks = self.try_before(&kernels.top, &mut kernels.work, here, last)?;
        let busy = self.is_busy(here.subject, marks, last);
        if busy {
            return self.finish_busy(&mut kernels.top, here, marks, last);
        }
        self.finish(&kernels.top, &mut kernels.work, here, marks, last)
    }

    /// Examines the state at a place.
    pub fn examine<'a>(
        &mut self,
        subject: &SearchSubject<'a>,
        kernels: &mut KernelPair<'a>,
        state: u32,
    ) -> Result<(), AllocError>
        requires search { IsSearch (asked_of subject.now) self.old }
        requires there { state < length self.old.seen.rows }
        requires kernels { AreKernelsOf (asked_of subject.now) kernels.old }
        ensures examined { OnOk result (HasExamined (asked_of subject.now) self.old self.new state) }
        ensures kernels { AreKernelsOf (asked_of subject.now) kernels.new }
    {
        let at = self.examined(subject, state)?;
        if !self.stand_at(subject, &kernels.work, &mut kernels.top, &at)? {
            self.sure = false;
            self.edges.give_up(self.alloc);
            return Ok(());
        }
        self.examine_on(kernels, Examination { subject, at: &at })
    }
}
