//! Runs that are tried one after the other, each from the same kernel.
ghost use Rattle.std.specs.Prelude.{◌≡◌, ◌≤◌, ◌^◌, IfOk, length};
ghost use Rattle.fmp_trials.specs.Drawn.{IsDrawn};
ghost use Rattle.fmp_trials.specs.Verdicts.{IsBeside};

use crate::choices::Choices;
use crate::random_run::{RandomRun, random_run};
use crate::verdict::run_verdict;
use fmp_base::Event;
use fmp_expect::{BrokenExpectation, Checker, Expected, LineJudge, judge_run};
use fmp_kernel::{Body, Kernel};
use std::alloc::{AllocError, Global};
use std::marker::Model;

/// How many units of a stretch weigh as much as an event.
const EVENT_UNITS: u64 = 1024;

/// A kernel from which runs begin, one on which they are made, what is expected of them, and a judge of their lines. It
/// is seen as all but the second of these.
#[derive(Drop)]
pub struct Bench<'a, B: Body, J: LineJudge<B>> {
    start: Kernel<B>,
    kernel: Kernel<B>,
    expected: &'a [Expected],
    judge: &'a J,
}

impl<'a, B: Body, J: LineJudge<B>> Model for Bench<'a, B, J> {
    ghost use Rattle.std.specs.Prelude.{◌≡◌};
    ghost use Rattle.fmp_trials.specs.Trials.{Subject};
    ghost use Rattle.fmp_trials.specs.Verdicts.{IsBeside};

    ghost Value = { Subject B B.Ctx J };

    ghost view = { λ b. record { start = b.start; expected = b.expected.now; judge = b.judge.now } };

    ghost invariant = { λ b. IsBeside b.start b.kernel × (b.start.taken ≡ 0) };
}

impl<'a, B: Body, J: LineJudge<B>> Bench<'a, B, J> {
    ghost use Rattle.std.specs.Prelude.{None, true};
    ghost use Rattle.fmp_base.specs.declared.events.Line.{Line as LineTold};
    ghost use Rattle.fmp_kernel.specs.KernelViews.{KernelView};
    ghost use Rattle.fmp_expect.specs.Judges.{broken_along};
    ghost use Rattle.fmp_kernel.specs.Comings.{reaction_of};
    ghost use Rattle.fmp_trials.specs.Trials.{broken_by};
    ghost use Rattle.fmp_trials.specs.Verdicts.{verdict};

    /// Runs from the first kernel, which has taken nothing, made on the other one.
    pub fn new(
        start: Kernel<B>,
        kernel: Kernel<B>,
        expected: &'a [Expected],
        judge: &'a J,
    ) -> Bench<'a, B, J>
        requires beside { IsBeside start kernel }
        requires taken { start.taken ≡ 0 }
        ensures start { result.start ≡ start }
        ensures expected { result.expected ≡ expected.now }
        ensures judge { result.judge ≡ judge.now }
    {
        Bench {
            start,
            kernel,
            expected,
            judge,
        }
    }

    /// Whether it is known that no line breaks a sentence that looks at where lines stand.
    pub fn is_idle(&self) -> bool
        ensures { result ≡ true → (k : KernelView B B.Ctx) → (l : LineTold) → J.breaks self.now.judge k l ≡ None }
    {
        self.judge.is_idle()
    }

    /// The first of the sentences that look at where a line stands that the run over these events fails.
    fn judged(&mut self, events: &[Event]) -> Option<BrokenExpectation>
        requires { length events.now ≤ 2 ^ 31 }
        ensures broken { result
            ≡ broken_along (J.breaks self.old.judge) (reaction_of B.meaning) self.old.start events.now }
        ensures same { self.new ≡ self.old }
    {
        if self.is_idle() {
            return None;
        }
        self.kernel.put_back(&self.start);
        judge_run(&mut self.kernel, events, self.judge)
    }

    /// The first of the expectations that the run over these events fails by what it shows or at its end.
    fn shown(
        &mut self,
        alloc: Global,
        events: &[Event],
    ) -> Result<Option<BrokenExpectation>, AllocError>
        requires { length events.now ≤ 2 ^ 31 }
        ensures verdict { IfOk result (λ broken. broken
            ≡ verdict (reaction_of B.meaning) self.old.start events.now self.old.expected) }
        ensures same { self.new ≡ self.old }
    {
        self.kernel.put_back(&self.start);
        run_verdict(alloc, &mut self.kernel, events, self.expected)
    }

    /// The first of the expectations that the run over these events fails, or else the first of the sentences that look
    /// at where a line stands. `AllocError` if memory runs out.
    pub fn verdict(
        &mut self,
        alloc: Global,
        events: &[Event],
    ) -> Result<Option<BrokenExpectation>, AllocError>
        requires { length events.now ≤ 2 ^ 31 }
        ensures verdict { IfOk result (λ broken. broken ≡ broken_by B.meaning J.breaks self.old events.now) }
        ensures same { self.new ≡ self.old }
    {
        match self.shown(alloc, events)? {
            Some(broken) => Ok(Some(broken)),
            None => Ok(self.judged(events)),
        }
    }

    /// How many events weigh as much as the stretches of the last run that reached their bound.
    pub(crate) fn long_weight(&self) -> u64 {
        let long = self.kernel.taken() - self.kernel.done();
        u64::from(long).saturating_mul(self.kernel.bound() / EVENT_UNITS)
    }

    /// A random run up to the first event that breaks a sentence, or the last. `AllocError` if memory runs out.
    pub fn random_run(
        &mut self,
        alloc: Global,
        choices: &mut Choices<'_>,
    ) -> Result<RandomRun, AllocError>
        ensures few { IfOk result (λ run. length run.steps.items ≤ 2 ^ 20) }
        ensures drawn { IfOk result (IsDrawn B.meaning self.old.start self.old.expected choices.old) }
        ensures same { self.new ≡ self.old }
    {
        let mut checker = Checker::new(alloc, self.expected)?;
        self.kernel.put_back(&self.start);
        random_run(alloc, &mut self.kernel, &mut checker, choices)
    }
}
