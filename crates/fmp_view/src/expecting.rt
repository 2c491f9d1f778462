//! The command `expect`: whether a run meets what is expected of it.
ghost use Rattle.std.specs.Prelude.{◌≡◌, ◌⊎◌, IfOk, IfSome, false, is_some, option_map};
ghost use Rattle.fmp_looking.specs.SourceVerdicts.{AreSourceJudgements, IsSourceVerdict};
ghost use Rattle.fmp_looking.specs.TestDeeds.{IsDone, IsRefusal};
ghost use Rattle.fmp_view.specs.Expected.{EndsExpect, IsJudged, IsReportApart, IsRunJudged, IsRunTold, IsShown, IsTold};
ghost use Rattle.fmp_view.specs.Expected.{OfSourceFiles, PrintsSome, ShowsJudged, TellsJudged, WritesReport};
ghost use Rattle.fmp_view.specs.Expected.{judged_status};

use crate::asking::{Expecting, RunFiles};
use crate::differing::DIFFER;
use crate::runs::{is_read, is_this_file, made_of_run, write};
use crate::telling::{end_look, printed};
use crate::word_mistakes::report_over_input;
use fmp_files::{Outside, read_file, refuse_mistake};
use fmp_looking::{
    Expectations, Judged, JudgementForm, SourceExpectations, StepsRun, ViewExit, source_failure,
    source_judgements,
};
use fmp_searching::read_both;
use fmp_warnings::Form;
use std::alloc::Global;

/// What this text of expectations expects.
fn expectations_of<'a>(expecting: Expecting<'a>, text: &'a [u8]) -> Expectations<'a>
    ensures name { result.name.now ≡ expecting.entry.name.now }
    ensures text { result.text.now ≡ text.now }
    ensures strict { result.strict ≡ expecting.entry.strict }
{
    Expectations {
        name: expecting.name,
        text,
        strict: expecting.strict,
    }
}

/// A run over a steps text whose files have these names, with the text of its bodies.
#[derive(Clone, Copy)]
struct SourceFiles<'a> {
    image: &'a str,
    steps: &'a str,
    bound: u64,
    src: &'a str,
}

/// What is printed of a run over a steps text that fails expectations, of which some are about the calls of a line.
fn source_failure_of<O: Outside>(
    alloc: Global,
    outside: &O,
    files: SourceFiles<'_>,
    expectations: &Expectations<'_>,
) -> Result<Option<Vec<u8>>, ViewExit>
    ensures { IfOk result (λ text. OfSourceFiles (O.files outside.now) files.entry.image.now files.entry.steps.now
        files.entry.src.now expectations.now
        (λ i es sourced. IsSourceVerdict i files.entry.bound es sourced (is_some text))) }
{
    let both = read_both(alloc, outside, files.image, files.steps)?;
    let src = read_file(alloc, outside, files.src, None)?;
    let run = StepsRun {
        image: &both.0,
        steps: &both.1,
        bound: files.bound,
    };
    let sourced = SourceExpectations {
        expectations: *expectations,
        src: &src,
    };
    source_failure(alloc, run, &sourced)
}

/// What is printed of a run that fails these expectations, where the file of the text of its bodies is given or not.
fn run_failure<O: Outside>(
    alloc: Global,
    outside: &O,
    run: RunFiles<'_>,
    src: Option<&str>,
    expectations: &Expectations<'_>,
) -> Result<Option<Vec<u8>>, ViewExit>
    ensures { IfOk result (λ text. IsRunJudged (O.files outside.now) run.entry src.entry expectations.now
        (is_some text)) }
{
    match run {
        RunFiles::Steps {
            image,
            steps,
            bound,
        } => match src {
            Some(src) => {
                let files = SourceFiles {
                    image,
                    steps,
                    bound,
                    src,
                };
                source_failure_of(alloc, outside, files, expectations)
            }
            None => made_of_run(alloc, outside, run, expectations),
        },
        RunFiles::Recording { .. } => made_of_run(alloc, outside, run, expectations),
    }
}

/// What is printed of a run that fails an expectation of the text of this file.
fn failure_of<O: Outside>(
    alloc: Global,
    outside: &O,
    run: RunFiles<'_>,
    expecting: Expecting<'_>,
) -> Result<Option<Vec<u8>>, ViewExit>
    ensures { IfOk result (λ text. IsJudged (O.files outside.now) run.entry expecting.entry (is_some text)) }
{
    let text = read_file(alloc, outside, expecting.name, None)?;
    run_failure(
        alloc,
        outside,
        run,
        expecting.src,
        &expectations_of(expecting, &text),
    )
}

/// How a run over a steps text does by each expectation, of which some are about the calls of a line, in a form.
fn source_told_of<O: Outside>(
    alloc: Global,
    outside: &O,
    files: SourceFiles<'_>,
    judged: &Judged<'_>,
) -> Result<Vec<u8>, ViewExit>
    ensures { IfOk result (λ out. OfSourceFiles (O.files outside.now) files.entry.image.now files.entry.steps.now
        files.entry.src.now judged.now.expectations
        (λ i es sourced. AreSourceJudgements i files.entry.bound es sourced judged.now.form out.items)) }
{
    let both = read_both(alloc, outside, files.image, files.steps)?;
    let src = read_file(alloc, outside, files.src, None)?;
    let run = StepsRun {
        image: &both.0,
        steps: &both.1,
        bound: files.bound,
    };
    let sourced = SourceExpectations {
        expectations: judged.expectations,
        src: &src,
    };
    source_judgements(alloc, run, &sourced, judged.form)
}

/// How a run does by each expectation, in a form, where the file of the text of its bodies is given or not.
fn run_told<O: Outside>(
    alloc: Global,
    outside: &O,
    run: RunFiles<'_>,
    src: Option<&str>,
    judged: &Judged<'_>,
) -> Result<Vec<u8>, ViewExit>
    ensures { IfOk result (λ out. IsRunTold (O.files outside.now) run.entry src.entry judged.now out.items) }
{
    match run {
        RunFiles::Steps {
            image,
            steps,
            bound,
        } => match src {
            Some(src) => {
                let files = SourceFiles {
                    image,
                    steps,
                    bound,
                    src,
                };
                source_told_of(alloc, outside, files, judged)
            }
            None => made_of_run(alloc, outside, run, judged),
        },
        RunFiles::Recording { .. } => made_of_run(alloc, outside, run, judged),
    }
}

/// How a run does by each expectation of the text of this file, in a form.
fn told_of<O: Outside>(
    alloc: Global,
    outside: &O,
    run: RunFiles<'_>,
    expecting: Expecting<'_>,
    form: JudgementForm,
) -> Result<Vec<u8>, ViewExit>
    ensures { IfOk result (λ out. IsTold (O.files outside.now) run.entry expecting.entry form out.items) }
{
    let text = read_file(alloc, outside, expecting.name, None)?;
    let judged = Judged {
        expectations: expectations_of(expecting, &text),
        form,
    };
    run_told(alloc, outside, run, expecting.src, &judged)
}

/// What is shown of a run that is judged, in the form that is asked for. The failure says which expectation it fails.
fn shown_of<O: Outside>(
    alloc: Global,
    outside: &O,
    run: RunFiles<'_>,
    expecting: Expecting<'_>,
    failure: Option<Vec<u8>>,
) -> Result<Option<Vec<u8>>, ViewExit>
    ensures { IfOk result (λ text. IsShown expecting.entry.form (O.files outside.now) run.entry expecting.entry
        (is_some failure) (option_map (λ t. t.items) text)) }
{
    match expecting.form {
        Form::Json => match told_of(alloc, outside, run, expecting, JudgementForm::Records) {
            Ok(records) => Ok(Some(records)),
            Err(exit) => Err(exit),
        },
        Form::Text => Ok(failure),
    }
}

/// Writes the report of a run to its file, if one is asked for, and gives the status.
fn write_report<O: Outside>(
    alloc: Global,
    outside: &mut O,
    run: RunFiles<'_>,
    expecting: Expecting<'_>,
) -> u8
    ensures written { result ≡ 0 → WritesReport (O.files outside.old) run.entry expecting.entry (O.done outside.old)
        (O.done outside.new) }
    ensures status { (result ≡ 0) ⊎ IsRefusal result }
{
    match expecting.junit {
        Some(out) => match told_of(alloc, outside, run, expecting, JudgementForm::Junit) {
            Ok(report) => write(alloc, outside, out, &report),
            Err(exit) => end_look(outside, &exit),
        },
        None => 0,
    }
}

/// The status where a run fails an expectation, and where it does not.
fn judged_status(fails: bool) -> u8
    ensures { result ≡ judged_status fails }
{
    if fails { DIFFER } else { 0 }
}

/// Prints what is shown of a run that is judged, with status 4 if it fails.
fn print_shown<O: Outside>(alloc: Global, outside: &mut O, fails: bool, text: Option<Vec<u8>>) -> u8
    ensures prints { IsDone result → PrintsSome (option_map (λ t. t.items) text) (O.done outside.old)
        (O.done outside.new) }
    ensures status { (result ≡ judged_status fails) ⊎ IsRefusal result }
{
    match text {
        Some(text) => match printed(alloc, outside, &text) {
            Ok(()) => judged_status(fails),
            Err(status) => status,
        },
        None => judged_status(fails),
    }
}

/// Writes the report of a run that is judged, and prints what is shown of it, with status 4 if it fails.
fn tell_judged<O: Outside>(
    alloc: Global,
    outside: &mut O,
    run: RunFiles<'_>,
    expecting: Expecting<'_>,
    fails: bool,
    text: Option<Vec<u8>>,
) -> u8
    ensures { IsDone result → TellsJudged (O.files outside.old) run.entry expecting.entry fails
        (option_map (λ t. t.items) text) (O.done outside.old) (O.done outside.new) result }
{
    match write_report(alloc, outside, run, expecting) {
        0 => print_shown(alloc, outside, fails, text),
        status => status,
    }
}

/// Tells what a run that is judged comes to, with status 4 if it fails. The failure says which expectation it fails.
fn show_judged<O: Outside>(
    alloc: Global,
    outside: &mut O,
    run: RunFiles<'_>,
    expecting: Expecting<'_>,
    failure: Option<Vec<u8>>,
) -> u8
    ensures { IsDone result → ShowsJudged (O.files outside.old) run.entry expecting.entry (is_some failure)
        (O.done outside.old) (O.done outside.new) result }
{
    let fails = failure.is_some();
    match shown_of(alloc, outside, run, expecting, failure) {
        Ok(text) => tell_judged(alloc, outside, run, expecting, fails, text),
        Err(exit) => end_look(outside, &exit),
    }
}

/// Whether the file of a report is one of those that are read.
fn overwrites_input<O: Outside>(outside: &O, run: RunFiles<'_>, expecting: Expecting<'_>) -> bool
    ensures { result ≡ false → IfSome expecting.entry.junit (λ out. IsReportApart run.entry expecting.entry out.now) }
{
    match expecting.junit {
        Some(out) => {
            is_read(outside, out, run)
                || outside.is_one_file(out, expecting.name)
                || is_this_file(outside, out, expecting.src)
        }
        None => false,
    }
}

/// Says that a report would be written over a file that is read, and gives the status that the program ends with.
#[tactic(auto, using(fmp_looking::proofs::TestEnds::mistake_refuses))]
fn refuse_report<O: Outside>(alloc: Global, outside: &mut O) -> u8
    ensures { IsRefusal result }
{
    refuse_mistake(outside, report_over_input(alloc))
}

/// Prints which expectation a run fails, or how it does by each, with status 4 if it fails one. A report is written
/// before.
#[tactic(auto, using(fmp_looking::proofs::TestEnds::not_done))]
pub fn run_expect<O: Outside>(
    alloc: Global,
    outside: &mut O,
    run: RunFiles<'_>,
    expecting: Expecting<'_>,
) -> u8
    ensures { IsDone result → EndsExpect (O.files outside.old) run.entry expecting.entry (O.done outside.old)
        (O.done outside.new) result }
{
    if overwrites_input(outside, run, expecting) {
        return refuse_report(alloc, outside);
    }
    match failure_of(alloc, outside, run, expecting) {
        Ok(failure) => show_judged(alloc, outside, run, expecting, failure),
        Err(exit) => end_look(outside, &exit),
    }
}
