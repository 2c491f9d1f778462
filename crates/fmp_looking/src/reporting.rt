//! Random runs of an image that are judged by a text of expectations, and what is printed of the first that fails.
ghost use Rattle.std.specs.Prelude.{◌≡◌, ◌≤◌, ◌^◌, [], IfNone, IfOk, IfSome, OnOk, false, length};
ghost use Rattle.fmp_base.specs.Systems.{tables_of};
ghost use Rattle.fmp_instructions.specs.Machine.{code_meaning};
ghost use Rattle.fmp_kernel.specs.Comings.{reaction_of};
ghost use Rattle.fmp_replay.specs.Replays.{kernel_after};
ghost use Rattle.fmp_trace.specs.Steps.{steps_text};
ghost use Rattle.fmp_trials.specs.Drawn.{AllHaveMet, any_of_end, is_of_end};
ghost use Rattle.fmp_trials.specs.Found.{IsFound};
ghost use Rattle.fmp_looking.specs.CallSentences.{breaks_by};
ghost use Rattle.fmp_looking.specs.Looks.{ShowsBroken};
ghost use Rattle.fmp_looking.specs.Tested.{HaveMetText, IsFailedTest, plan_in, subject_in, subject_of};

use crate::call_sentences::{CallJudge, CallNever, sentences_of};
use crate::commands::printed_steps;
use crate::exit::{ViewExit, memory};
use crate::expecting::{Expectations, report_of};
use crate::open_image::OpenImage;
use crate::trying::{Trials, failed_trial_of};
use crate::trying_beside::failed_trial_beside;
use crate::wanted::ImageTest;
use fmp_expect::Expected;
use fmp_monitors::Sentence;
use fmp_trials::{FailedTrial, RunPlan};
use std::alloc::{AllocError, Global};
use std::thread::Threads;

/// A random run that fails an expectation, and what is printed of it.
#[derive(Drop)]
pub struct FailedTest {
    /// The run, made shorter.
    pub trial: FailedTrial,
    /// The text of its steps.
    pub steps: Vec<u8>,
    /// What `expect` prints of them.
    pub report: Vec<u8>,
}

/// What is said of an expectation of the end of a run, in the line of this number.
fn end_text(alloc: Global, line: usize) -> ViewExit {
    match format!(in alloc;
        "expect:{line}: `end` is of the end of a run; a random run is cut off"
    ) {
        Ok(text) => ViewExit::Expect(text),
        Err(error) => memory(error),
    }
}

/// Whether a sentence is about the end of a run.
fn is_of_end(sentence: &Sentence) -> bool
    ensures { result ≡ is_of_end sentence.now }
{
    match sentence {
        Sentence::End { .. } => true,
        _ => false,
    }
}

/// Refuses expectations of the end of a run.
fn refuse_ends(alloc: Global, expected: &[Expected]) -> Result<(), ViewExit>
    ensures { OnOk result (any_of_end expected.now ≡ false) }
{
    for one in expected {
        if is_of_end(&one.sentence) {
            return Err(end_text(alloc, one.line));
        }
    }
    Ok(())
}

/// What is printed of a run of an image that fails one of the expectations of a text.
fn printed_test(
    alloc: Global,
    opened: &OpenImage<'_>,
    expectations: &Expectations<'_>,
    trial: FailedTrial,
) -> Result<FailedTest, AllocError>
    requires { length trial.run.steps.items ≤ 2 ^ 20 }
    ensures trial { IfOk result (λ test. test.trial ≡ trial) }
    ensures steps { IfOk result (λ test. test.steps.items ≡ steps_text trial.run.steps.items) }
    ensures report { IfOk result (λ test. ShowsBroken (reaction_of code_meaning)
        (kernel_after opened.now.image.now opened.now.bound []) trial.run.steps.items expectations.now.name.now
        expectations.now.text.now trial.run.broken test.report.items) }
{
    let steps = printed_steps(alloc, &trial.run.steps)?;
    let events = &trial.run.steps;
    let report = report_of(alloc, opened, events, expectations, trial.run.broken)?;
    Ok(FailedTest {
        trial,
        steps,
        report,
    })
}

/// The same, or that memory runs out.
fn failed_test(
    alloc: Global,
    opened: &OpenImage<'_>,
    expectations: &Expectations<'_>,
    trial: FailedTrial,
) -> Result<FailedTest, ViewExit>
    requires { length trial.run.steps.items ≤ 2 ^ 20 }
    ensures trial { IfOk result (λ test. test.trial ≡ trial) }
    ensures steps { IfOk result (λ test. test.steps.items ≡ steps_text trial.run.steps.items) }
    ensures report { IfOk result (λ test. ShowsBroken (reaction_of code_meaning)
        (kernel_after opened.now.image.now opened.now.bound []) trial.run.steps.items expectations.now.name.now
        expectations.now.text.now trial.run.broken test.report.items) }
{
    match printed_test(alloc, opened, expectations, trial) {
        Ok(test) => Ok(test),
        Err(error) => Err(memory(error)),
    }
}

/// How the random runs of a test go.
pub fn plan_of<'a>(test: &ImageTest<'a>) -> RunPlan<'a>
    ensures { result ≡ plan_in test.now }
{
    RunPlan {
        events: test.testing.events,
        tick: test.testing.tick,
        interrupts: test.rates,
    }
}

/// The first of the random runs of an image that fails what is expected, made shorter.
fn found_by<R: Threads + Sync>(
    alloc: Global,
    rt: &R,
    trials: &Trials<'_>,
    seeds: u32,
) -> Result<Option<FailedTrial>, AllocError>
    ensures found { IfOk result (λ found. IfSome found
        (IsFound code_meaning breaks_by (subject_in trials.now) trials.now.plan seeds)) }
    ensures met { any_of_end trials.now.expected.now ≡ false → IfOk result (λ found. IfNone found
        (AllHaveMet code_meaning breaks_by (subject_in trials.now) trials.now.plan 0 seeds)) }
{
    if trials.jobs <= 1 {
        return failed_trial_of(alloc, trials, seeds);
    }
    failed_trial_beside(alloc, rt, trials, seeds)
}

/// The first of the random runs of a test that fails one of these expectations, or of these sentences about calls.
fn first_failed<R: Threads + Sync>(
    alloc: Global,
    rt: &R,
    test: &ImageTest<'_>,
    expected: &[Expected],
    nevers: &[CallNever],
) -> Result<Option<FailedTrial>, ViewExit>
    ensures found { IfOk result (λ found. IfSome found (IsFound code_meaning breaks_by
        (subject_of test.now.image.now test.now.testing.bound expected.now nevers.now) (plan_in test.now)
        test.now.testing.seeds)) }
    ensures met { any_of_end expected.now ≡ false → IfOk result (λ found. IfNone found (AllHaveMet code_meaning
        breaks_by (subject_of test.now.image.now test.now.testing.bound expected.now nevers.now)
        (plan_in test.now) 0 test.now.testing.seeds)) }
{
    let judge = CallJudge::new(test.image, nevers);
    let trials = Trials {
        opened: OpenImage {
            image: test.image,
            bound: test.testing.bound,
        },
        expected,
        judge: &judge,
        plan: plan_of(test),
        jobs: test.testing.jobs,
    };
    found_by(alloc, rt, &trials, test.testing.seeds).map_err(|error| memory(error))
}

/// Makes the random runs of a test: the first that fails one of the expectations of a text. Where none does, all runs
/// meet them; nothing is said of other runs. The bodies of the image have this text.
/// The reasons to make none are a fault of the text of expectations, a line of it that begins with `end`, or is about a
/// line without a call, and that memory runs out.
pub fn tested<R: Threads + Sync>(
    alloc: Global,
    rt: &R,
    test: &ImageTest<'_>,
    src: &[u8],
    expectations: &Expectations<'_>,
) -> Result<Option<FailedTest>, ViewExit>
    ensures failed { IfOk result (λ found. IfSome found
        (IsFailedTest test.now.image.now (tables_of test.now.configured.now) test.now.testing.bound
        (plan_in test.now) test.now.testing.seeds src.now expectations.now.name.now expectations.now.text.now)) }
    ensures met { IfOk result (λ found. IfNone found
        (HaveMetText test.now.image.now (tables_of test.now.configured.now) test.now.testing.bound
        (plan_in test.now) test.now.testing.seeds src.now expectations.now.text.now)) }
{
    let sentences = sentences_of(alloc, test.image, test.configured, src, expectations.text)?;
    refuse_ends(alloc, &sentences.expected)?;
    let found = first_failed(alloc, rt, test, &sentences.expected, &sentences.nevers)?;
    match found {
        Some(trial) => {
            let opened = OpenImage::new(test.image, test.testing.bound);
            let failed = failed_test(alloc, &opened, expectations, trial)?;
            Ok(Some(failed))
        }
        None => Ok(None),
    }
}
