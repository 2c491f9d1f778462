//! What comes of random runs, as an object of JSON.
ghost use Rattle.std.specs.Prelude.{◌≡◌, ◌++◌, IfOk, OnOk, Some, option_map};
ghost use Rattle.fmp_looking.specs.TestRecords as spec;

use crate::expecting::Expectations;
use crate::reporting::FailedTest;
use fmp_expect::line_at;
use fmp_json::{begin, finish, number_member, text_member};
use fmp_trials::FailedTrial;
use json::Writer;
use std::alloc::{AllocError, Global};

/// The texts of a run that fails.
#[derive(Clone, Copy)]
struct FailedTexts<'a> {
    /// The line of the expectation that it fails.
    expectation: &'a str,
    steps: &'a str,
}

/// Writes which file runs are judged by, and how many runs were asked for, and made.
fn write_asked(writer: &mut Writer, file: &str, seeds: u64, runs: u64) -> Result<(), AllocError>
    ensures before { writer.new.before ≡ writer.old.before }
    ensures tokens { OnOk result (writer.new.tokens
        ≡ writer.old.tokens ++ spec.asked_members file.now seeds runs) }
{
    text_member(writer, "file", file)?;
    number_member(writer, "seeds", seeds)?;
    number_member(writer, "runs", runs)
}

/// Writes which run fails, and how many events it had.
fn write_run(writer: &mut Writer, trial: &FailedTrial) -> Result<(), AllocError>
    ensures before { writer.new.before ≡ writer.old.before }
    ensures tokens { OnOk result (writer.new.tokens ≡ writer.old.tokens ++ spec.run_members trial.now) }
{
    text_member(writer, "verdict", "fails")?;
    number_member(writer, "seed", trial.seed)?;
    number_member(writer, "drawn", trial.drawn as u64)
}

/// Writes which line it fails, in which event, and its steps.
fn write_failed(
    writer: &mut Writer,
    trial: &FailedTrial,
    texts: FailedTexts<'_>,
) -> Result<(), AllocError>
    ensures before { writer.new.before ≡ writer.old.before }
    ensures tokens { OnOk result (writer.new.tokens ≡ writer.old.tokens
        ++ spec.failed_members trial.now texts.entry.expectation.now texts.entry.steps.now) }
{
    number_member(writer, "line", trial.run.broken.line as u64)?;
    text_member(writer, "expectation", texts.expectation)?;
    number_member(writer, "event", u64::from(trial.run.broken.event))?;
    text_member(writer, "steps", texts.steps)
}

/// The object of runs of which this one fails.
fn failed_record(
    alloc: Global,
    file: &str,
    seeds: u32,
    trial: &FailedTrial,
    texts: FailedTexts<'_>,
) -> Result<Vec<u8>, AllocError>
    ensures { IfOk result (λ line. line.items
        ≡ spec.failed_record file.now seeds trial.now texts.entry.expectation.now texts.entry.steps.now) }
{
    let mut writer = begin(alloc)?;
    write_asked(&mut writer, file, u64::from(seeds), trial.seed)?;
    write_run(&mut writer, trial)?;
    write_failed(&mut writer, trial, texts)?;
    finish(writer)
}

/// The object of runs of which none fails.
fn none_record(alloc: Global, file: &str, seeds: u32) -> Result<Vec<u8>, AllocError>
    ensures { IfOk result (λ line. line.items ≡ spec.none_record file.now seeds) }
{
    let mut writer = begin(alloc)?;
    write_asked(&mut writer, file, u64::from(seeds), u64::from(seeds))?;
    text_member(&mut writer, "verdict", "none fails")?;
    finish(writer)
}

/// The object of runs of which this one fails, with its texts.
fn shown_record(
    alloc: Global,
    expectations: &Expectations<'_>,
    seeds: u32,
    failed: &FailedTest,
) -> Result<Vec<u8>, AllocError>
    ensures { IfOk result (λ line. line.items
        ≡ spec.test_record expectations.now.name.now expectations.now.text.now seeds (Some failed.now)) }
{
    let text = line_at(expectations.text, failed.trial.run.broken.line);
    let expectation = String::from_utf8_lossy(alloc, text)?;
    let steps = String::from_utf8_lossy(alloc, &failed.steps)?;
    let texts = FailedTexts {
        expectation: &expectation,
        steps: &steps,
    };
    failed_record(alloc, expectations.name, seeds, &failed.trial, texts)
}

/// What comes of this many random runs that are judged by a text, of which this one fails, if one does, as an object of
/// JSON in a line. `AllocError` if memory runs out.
pub fn test_record(
    alloc: Global,
    expectations: &Expectations<'_>,
    seeds: u32,
    failed: Option<&FailedTest>,
) -> Result<Vec<u8>, AllocError>
    ensures { IfOk result (λ line. line.items ≡ spec.test_record expectations.now.name.now expectations.now.text.now
        seeds (option_map (λ f. f.now) failed.entry)) }
{
    match failed {
        Some(failed) => shown_record(alloc, expectations, seeds, failed),
        None => none_record(alloc, expectations.name, seeds),
    }
}
