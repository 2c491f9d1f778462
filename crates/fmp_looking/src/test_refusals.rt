//! The calls that are refused in the random runs of `test`.
ghost use Rattle.std.specs.Prelude.{◌≡◌, IfOk, OnOk};
ghost use Rattle.fmp_frames.specs.Answers.{is_answer, was_answered, with_answer};
ghost use Rattle.fmp_looking.specs.TestRefusals as spec;
ghost use Rattle.fmp_looking.specs.TestRefusals.{AreAnswersOf, AreRefusedLines, AreTestRefusals, with_answers};
ghost use Rattle.fmp_looking.specs.Covered.{IsRunOf};
ghost use Rattle.fmp_looking.specs.Tested.{subject_in};

use crate::call_sentences::CallJudge;
use crate::exit::{ViewExit, memory};
use crate::expecting::other_expected;
use crate::open_image::OpenImage;
use crate::refused::{NamedText, answers_over, lines_of, refused_among};
use crate::reporting::plan_of;
use crate::tables::is_same_code;
use crate::trying::{ImageBench, Trials, bench_of};
use crate::wanted::{ImageTest, TestTexts};
use fmp_frames::{CallPositions, CodePositions, LineForm, SiteAnswer};
use fmp_trials::random_steps;
use std::alloc::{AllocError, Global};

/// Whether two answers are one.
fn is_same_answer(one: SiteAnswer, other: SiteAnswer) -> bool
    ensures { result ≡ is_answer one.site one.code other }
{
    other.site.body == one.site.body
        && other.site.pc == one.site.pc
        && is_same_code(other.code, one.code)
}

/// Whether an answer is known.
fn is_known(answers: &[SiteAnswer], one: SiteAnswer) -> bool
    ensures { result ≡ was_answered answers.now one.site one.code }
{
    answers.iter().any(|other| is_same_answer(one, *other))
}

/// Adds an answer, unless it is known.
fn add_answer(answers: &mut Vec<SiteAnswer>, one: SiteAnswer) -> Result<(), AllocError>
    ensures { OnOk result (answers.new.items ≡ with_answer answers.old.items one.site one.code) }
{
    if is_known(answers, one) {
        return Ok(());
    }
    answers.push(one)?;
    Ok(())
}

/// Adds the answers of a run, each unless it is known.
fn add_answers(answers: &mut Vec<SiteAnswer>, more: &[SiteAnswer]) -> Result<(), AllocError>
    ensures { OnOk result (answers.new.items ≡ with_answers answers.old.items more.now) }
{
    for one in more {
        add_answer(answers, *one)?;
    }
    Ok(())
}

/// What the calls of the first random runs of an image were answered, this many: each call with each code, once.
fn answers_on<'a>(
    alloc: Global,
    bench: &mut ImageBench<'a>,
    trials: &Trials<'_>,
    runs: u64,
) -> Result<Vec<SiteAnswer>, AllocError>
    requires { bench.old ≡ subject_in trials.now }
    ensures { IfOk result (λ answers. AreAnswersOf (IsRunOf trials.now) trials.now.opened.image.now
        trials.now.opened.bound runs answers.items) }
{
    let mut answers = Vec::new(alloc);
    for made in 0..runs {
        let steps = random_steps(alloc, bench, trials.plan, made + 1)?;
        let more = answers_over(alloc, trials.opened.image, trials.opened.bound, &steps)?;
        add_answers(&mut answers, &more)?;
    }
    Ok(answers)
}

/// The same on new kernels of the image.
fn answers_of(alloc: Global, trials: &Trials<'_>, runs: u64) -> Result<Vec<SiteAnswer>, AllocError>
    ensures { IfOk result (λ answers. AreAnswersOf (IsRunOf trials.now) trials.now.opened.image.now
        trials.now.opened.bound runs answers.items) }
{
    let mut bench = bench_of(alloc, trials)?;
    let answers = answers_on(alloc, &mut bench, trials, runs);
    drop(bench);
    answers
}

/// A line of this form for each call that is refused in the first random runs of an image, this many, by where it
/// stands in this text of its bodies.
fn lines_in(
    alloc: Global,
    form: LineForm,
    trials: &Trials<'_>,
    source: NamedText<'_>,
    runs: u64,
) -> Result<Vec<u8>, AllocError>
    ensures { IfOk result (λ out. AreRefusedLines (IsRunOf trials.now) form source.entry.name.now
        source.entry.text.now trials.now.opened.image.now trials.now.opened.bound runs out.items) }
{
    let positions = CallPositions::new(alloc, source.text)?;
    let answers = answers_of(alloc, trials, runs)?;
    let refused = refused_among(alloc, trials.opened.image, &answers)?;
    let text = CodePositions {
        code: trials.opened.image.code(),
        positions: &positions,
    };
    lines_of(alloc, form, source.name.as_bytes(), text, &refused)
}

/// The form of the lines of a test.
fn form_of(is_json: bool) -> LineForm
    ensures { result ≡ spec.form_of is_json }
{
    if is_json {
        LineForm::Record
    } else {
        LineForm::Text
    }
}

/// A line for each call that is refused in the first random runs of a test, this many: always, or by a code that says
/// that it is used wrongly.
pub fn test_refusals(
    alloc: Global,
    test: &ImageTest<'_>,
    texts: TestTexts<'_>,
    runs: u64,
) -> Result<Vec<u8>, ViewExit>
    ensures { IfOk result (λ out. AreTestRefusals test.now texts.entry runs out.items) }
{
    let expected = other_expected(alloc, test.configured, texts.expectations)?;
    let judge = CallJudge::none(test.image);
    let trials = Trials {
        opened: OpenImage {
            image: test.image,
            bound: test.testing.bound,
        },
        expected: &expected,
        judge: &judge,
        plan: plan_of(test),
        jobs: test.testing.jobs,
    };
    let source = NamedText {
        name: test.testing.src,
        text: texts.src,
    };
    match lines_in(alloc, form_of(test.testing.json), &trials, source, runs) {
        Ok(lines) => Ok(lines),
        Err(error) => Err(memory(error)),
    }
}
