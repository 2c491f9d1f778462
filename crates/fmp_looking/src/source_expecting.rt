//! Whether a run of an image meets a text of expectations of which some are about the calls of a line, where the text
//! of its bodies is given.
ghost use Rattle.std.specs.Prelude.{◌≡◌, ◌≤◌, ◌++◌, ◌^◌, [], IfOk, OnOk, filter, is_some, length, map, nat_eq};
ghost use Rattle.fmp_expect.specs.Judges.{broken_along};
ghost use Rattle.fmp_instructions.specs.Machine.{code_meaning};
ghost use Rattle.fmp_kernel.specs.Comings.{reaction_of};
ghost use Rattle.fmp_replay.specs.Replays.{kernel_after};
ghost use Rattle.fmp_trials.specs.Trials.{broken_by};
ghost use Rattle.fmp_looking.specs.Judgements as spec;
ghost use Rattle.fmp_looking.specs.CallSentences.{AreNamedSentences, breaks_by, judge_of};
ghost use Rattle.fmp_looking.specs.Expects.{empty_claims};
ghost use Rattle.fmp_looking.specs.Looks.{OfImage, OfSteps};
ghost use Rattle.fmp_looking.specs.SourceVerdicts.{AreSourceJudgements, IsSourceVerdict, fails_sentences};
ghost use Rattle.fmp_looking.specs.Tested.{subject_of};

use crate::call_sentences::{CallJudge, CallNever, RunSentences, sentences_of};
use crate::exit::{ViewExit, memory};
use crate::expecting::{Expectations, Verdict, failure_text, verdict_of};
use crate::judged::Judged;
use crate::judged_cases::{cases_of, told_in};
use crate::judging::{Judgement, JudgementForm, judgements_of};
use crate::kinds::exit_over;
use crate::named_system::named_system;
use crate::open_image::OpenImage;
use crate::opened::Opened;
use crate::opening::{StepsRun, events_for, image_of};
use crate::run_positions::positions_for;
use fmp_base::Event;
use fmp_expect::{BrokenExpectation, CallSentence, judge_run};
use std::alloc::{AllocError, Global};

/// A text of expectations, and the text of the bodies of an image.
#[derive(Clone, Copy)]
pub struct SourceExpectations<'a> {
    pub expectations: Expectations<'a>,
    pub src: &'a [u8],
}

/// Which of these sentences about calls a run of an image breaks first.
#[tactic(none)]
fn judged_on(
    alloc: Global,
    opened: &OpenImage<'_>,
    events: &[Event],
    nevers: &[CallNever],
) -> Result<Option<BrokenExpectation>, AllocError>
    requires { length events.now ≤ 2 ^ 20 }
    ensures { IfOk result (λ broken. broken ≡ broken_along (breaks_by (judge_of opened.now.image.now nevers.now))
        (reaction_of code_meaning) (kernel_after opened.now.image.now opened.now.bound []) events.now) }
{
    let judge = CallJudge::new(opened.image, nevers);
    let mut kernel = opened.kernel(alloc)?;
    let broken = judge_run(&mut kernel, events, &judge);
    drop(kernel);
    Ok(broken)
}

/// What a run of an image comes to, where these sentences are expected of it.
fn verdict_by(
    alloc: Global,
    opened: &OpenImage<'_>,
    events: &[Event],
    sentences: &RunSentences,
) -> Result<Verdict, AllocError>
    requires { length events.now ≤ 2 ^ 20 }
    ensures broken { IfOk result (λ v. v.broken ≡ broken_by code_meaning breaks_by
        (subject_of opened.now.image.now opened.now.bound sentences.now.expected.items sentences.now.nevers.items)
        events.now) }
    ensures empty { IfOk result (λ v. v.empty.items ≡ empty_claims (reaction_of code_meaning)
        (kernel_after opened.now.image.now opened.now.bound []) events.now sentences.now.expected.items) }
{
    let Verdict { broken, empty } = verdict_of(alloc, opened, events, &sentences.expected)?;
    match broken {
        Some(broken) => Ok(Verdict {
            broken: Some(broken),
            empty,
        }),
        None => {
            let broken = judged_on(alloc, opened, events, &sentences.nevers)?;
            Ok(Verdict { broken, empty })
        }
    }
}

/// What is printed of a run of an image that does not meet these sentences of a text.
fn failure_of(
    alloc: Global,
    opened: &OpenImage<'_>,
    events: &[Event],
    expectations: &Expectations<'_>,
    sentences: &RunSentences,
) -> Result<Option<Vec<u8>>, AllocError>
    requires { length events.now ≤ 2 ^ 20 }
    ensures { IfOk result (λ text. is_some text ≡ fails_sentences opened.now.image.now opened.now.bound events.now
        expectations.now.strict sentences.now) }
{
    let verdict = verdict_by(alloc, opened, events, sentences)?;
    failure_text(alloc, opened, events, expectations, &verdict)
}

/// What is said of calls by the sentence of this line.
fn nevers_at(alloc: Global, nevers: &[CallNever], line: usize) -> Result<Vec<CallNever>, AllocError>
    ensures { IfOk result (λ said. said.items ≡ filter (λ n. nat_eq n.line line) nevers.now) }
{
    let mut said = Vec::new(alloc);
    for never in nevers {
        if never.line == line {
            said.push(*never)?;
        }
    }
    Ok(said)
}

/// How a run of an image does by one sentence about calls.
fn judgement_of(
    alloc: Global,
    opened: &OpenImage<'_>,
    events: &[Event],
    nevers: &[CallNever],
    sentence: CallSentence,
) -> Result<Judgement, AllocError>
    requires { length events.now ≤ 2 ^ 20 }
    ensures { IfOk result (λ j. j ≡ spec.judged_by_call (kernel_after opened.now.image.now opened.now.bound [])
        (judge_of opened.now.image.now) events.now nevers.now sentence) }
{
    let nevers = nevers_at(alloc, nevers, sentence.line)?;
    Ok(Judgement {
        line: sentence.line,
        broken: judged_on(alloc, opened, events, &nevers)?,
        is_empty: false,
    })
}

/// Adds how a run of an image does by each of these sentences about calls.
fn add_judgements(
    alloc: Global,
    opened: &OpenImage<'_>,
    events: &[Event],
    sentences: &RunSentences,
    all: &mut Vec<Judgement>,
) -> Result<(), AllocError>
    requires { length events.now ≤ 2 ^ 20 }
    ensures { OnOk result (all.new.items ≡ all.old.items
        ++ map (spec.judged_by_call (kernel_after opened.now.image.now opened.now.bound [])
        (judge_of opened.now.image.now) events.now sentences.now.nevers.items) sentences.now.of_calls.items) }
{
    for sentence in &sentences.of_calls {
        all.push(judgement_of(alloc, opened, events, &sentences.nevers, *sentence)?)?;
    }
    Ok(())
}

/// How a run of an image does by each of these sentences alone: those about calls come last.
fn judgements_by(
    alloc: Global,
    opened: &OpenImage<'_>,
    events: &[Event],
    sentences: &RunSentences,
) -> Result<Vec<Judgement>, AllocError>
    requires { length events.now ≤ 2 ^ 20 }
    ensures { IfOk result (λ all. all.items
        ≡ spec.judged_by_each (kernel_after opened.now.image.now opened.now.bound []) (judge_of opened.now.image.now)
        events.now sentences.now) }
{
    let mut all = judgements_of(alloc, opened, events, &sentences.expected)?;
    add_judgements(alloc, opened, events, sentences, &mut all)?;
    Ok(all)
}

/// How a run of an image does by each of these sentences of a text alone, in a form.
fn judged_text(
    alloc: Global,
    opened: &OpenImage<'_>,
    events: &[Event],
    judged: &Judged<'_>,
    sentences: &RunSentences,
) -> Result<Vec<u8>, AllocError>
    requires { length events.now ≤ 2 ^ 20 }
    ensures { IfOk result (λ out. spec.IsTold judged.now.form judged.now.expectations.name.now
        judged.now.expectations.strict
        (map (spec.named_by judged.now.expectations.text.now)
        (spec.judged_by_each (kernel_after opened.now.image.now opened.now.bound []) (judge_of opened.now.image.now)
        events.now sentences.now)) out.items) }
{
    let Judged { expectations, form } = judged;
    let all = judgements_by(alloc, opened, events, sentences)?;
    let cases = cases_of(alloc, opened, events, expectations, &all)?;
    told_in(alloc, *form, expectations.name, expectations.strict, &cases)
}

/// The sentences of a text for an image whose bodies have this text, which must have as many bodies as the image, each
/// with as many calls. They may name an interrupt by its handler's body.
fn sentences_for(
    alloc: Global,
    opened: &OpenImage<'_>,
    sourced: &SourceExpectations<'_>,
) -> Result<RunSentences, ViewExit>
    ensures { IfOk result (AreNamedSentences opened.now.image.now sourced.now.src.now
        sourced.now.expectations.text.now) }
{
    positions_for(alloc, opened.image, sourced.src)?;
    let configured = named_system(alloc, opened.image.system(), sourced.src).map_err(|error| memory(
        error,
    ))?;
    sentences_of(
        alloc,
        opened.image,
        &configured,
        sourced.src,
        sourced.expectations.text,
    )
}

/// What is printed of a run of an image over a steps text that does not meet a text.
fn failure_over(
    alloc: Global,
    opened: &OpenImage<'_>,
    steps: &[u8],
    sourced: &SourceExpectations<'_>,
) -> Result<Option<Vec<u8>>, ViewExit>
    ensures { IfOk result (λ text. OfSteps opened.now.image.now steps.now
        (λ es. IsSourceVerdict opened.now.image.now opened.now.bound es sourced.now (is_some text))) }
{
    let events = events_for(alloc, opened.image, steps)?;
    let sentences = sentences_for(alloc, opened, sourced)?;
    match failure_of(alloc, opened, &events, &sourced.expectations, &sentences) {
        Ok(text) => Ok(text),
        Err(error) => Err(memory(error)),
    }
}

/// How a run of an image over a steps text does by each sentence of a text alone, in a form.
fn judgements_over(
    alloc: Global,
    opened: &OpenImage<'_>,
    steps: &[u8],
    sourced: &SourceExpectations<'_>,
    form: JudgementForm,
) -> Result<Vec<u8>, ViewExit>
    ensures { IfOk result (λ out. OfSteps opened.now.image.now steps.now
        (λ es. AreSourceJudgements opened.now.image.now opened.now.bound es sourced.now form out.items)) }
{
    let events = events_for(alloc, opened.image, steps)?;
    let sentences = sentences_for(alloc, opened, sourced)?;
    let judged = Judged {
        expectations: sourced.expectations,
        form,
    };
    match judged_text(alloc, opened, &events, &judged, &sentences) {
        Ok(out) => Ok(out),
        Err(error) => Err(memory(error)),
    }
}

/// What is printed of a run that does not meet a text: the first line that fails, and the event in which it does; or
/// the lines that say nothing of the run, if these fail too. The text of the bodies must have as many as the image,
/// each with as many calls.
pub fn source_failure(
    alloc: Global,
    run: StepsRun<'_>,
    sourced: &SourceExpectations<'_>,
) -> Result<Option<Vec<u8>>, ViewExit>
    ensures { IfOk result (λ text. OfImage run.entry.image.now (λ i. OfSteps i run.entry.steps.now
        (λ es. IsSourceVerdict i run.entry.bound es sourced.now (is_some text)))) }
{
    match image_of(alloc, run.image) {
        Ok(image) => {
            let opened = OpenImage::new(&image, run.bound);
            let failure = failure_over(alloc, &opened, run.steps, sourced);
            drop(image);
            failure
        }
        Err(fault) => Err(exit_over(alloc, fault, run.image)),
    }
}

/// How a run does by each sentence of a text alone, in a form: those about calls come last. The text of the bodies must
/// have as many as the image, each with as many calls.
pub fn source_judgements(
    alloc: Global,
    run: StepsRun<'_>,
    sourced: &SourceExpectations<'_>,
    form: JudgementForm,
) -> Result<Vec<u8>, ViewExit>
    ensures { IfOk result (λ out. OfImage run.entry.image.now (λ i. OfSteps i run.entry.steps.now
        (λ es. AreSourceJudgements i run.entry.bound es sourced.now form out.items))) }
{
    match image_of(alloc, run.image) {
        Ok(image) => {
            let opened = OpenImage::new(&image, run.bound);
            let told = judgements_over(alloc, &opened, run.steps, sourced, form);
            drop(image);
            told
        }
        Err(fault) => Err(exit_over(alloc, fault, run.image)),
    }
}
