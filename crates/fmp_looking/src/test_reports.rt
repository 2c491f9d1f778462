//! Reports of random runs in the XML of JUnit.
ghost use Rattle.std.specs.Prelude.{ℕ, ◌≡◌, ◌++◌, ◌∷◌, [], IfErr, IfOk, List, OnOk, false, map, option_map};
ghost use Rattle.fmp_base.specs.Systems.{tables_of};
ghost use Rattle.fmp_files.specs.Deeds.{Does, wrote};
ghost use Rattle.fmp_looking.specs.Judgements as spec;
ghost use Rattle.fmp_looking.specs.Judgements.{IsTestReport};
ghost use Rattle.fmp_looking.specs.TestDeeds.{IsRefusal, Reports};

use crate::call_sentences::call_sentences_in;
use crate::exit::{ViewExit, memory};
use crate::expecting::{Expectations, other_expected};
use crate::judged_cases::{JudgedCase, report_of};
use crate::judging::Judgement;
use crate::reporting::FailedTest;
use crate::test_outputs::{end_test, write_to};
use crate::wanted::ReadTest;
use fmp_base::System;
use fmp_expect::{BrokenExpectation, CallSentence, Expected, line_at};
use fmp_files::Outside;
use std::alloc::{AllocError, Global};

/// What is broken, if it stands in this line.
fn broken_in(line: usize, broken: Option<BrokenExpectation>) -> Option<BrokenExpectation>
    ensures { result ≡ spec.broken_in line broken }
{
    match broken {
        Some(broken) if broken.line == line => Some(broken),
        _ => None,
    }
}

/// How random runs do by the expectation in a line, of which one breaks this, if one does.
fn tested_by(broken: Option<BrokenExpectation>, line: usize) -> Judgement
    ensures { result ≡ spec.tested_by broken line }
{
    Judgement {
        line,
        broken: broken_in(line, broken),
        is_empty: false,
    }
}

/// What a run breaks that fails, if there is one.
fn broken_by(failed: Option<&FailedTest>) -> Option<BrokenExpectation>
    ensures { result ≡ option_map (λ f. f.now.trial.run.broken) failed.entry }
{
    match failed {
        Some(failed) => Some(failed.trial.run.broken),
        None => None,
    }
}

/// In which event a run of which seed breaks an expectation, if one does.
fn message_of(
    alloc: Global,
    broken: Option<BrokenExpectation>,
    failed: Option<&FailedTest>,
) -> Result<String, AllocError> {
    match (broken, failed) {
        (Some(broken), Some(failed)) => format!(in alloc;
            "fails in event {} of the run of seed {}",
            broken.event, failed.trial.seed
        ),
        _ => Ok(String::new(alloc)),
    }
}

/// The steps of a run that breaks an expectation, if it does.
fn shown_of(
    alloc: Global,
    broken: Option<BrokenExpectation>,
    failed: Option<&FailedTest>,
) -> Result<String, AllocError> {
    match (broken, failed) {
        (Some(_), Some(failed)) => String::from_utf8_lossy(alloc, &failed.steps),
        _ => Ok(String::new(alloc)),
    }
}

/// How random runs do by an expectation of a text, with its texts.
fn case_of(
    alloc: Global,
    text: &[u8],
    failed: Option<&FailedTest>,
    judgement: Judgement,
) -> Result<JudgedCase, AllocError>
    ensures { IfOk result (λ case. spec.named_case case ≡ spec.named_by text.now judgement) }
{
    Ok(JudgedCase {
        judgement,
        name: String::from_utf8_lossy(alloc, line_at(text, judgement.line))?,
        message: message_of(alloc, judgement.broken, failed)?,
        shown: shown_of(alloc, judgement.broken, failed)?,
    })
}

/// How random runs do by each of the expectations in these lines of a text.
fn cases_of(
    alloc: Global,
    text: &[u8],
    lines: &[usize],
    failed: Option<&FailedTest>,
) -> Result<Vec<JudgedCase>, AllocError>
    ensures { IfOk result (λ cases. map spec.named_case cases.items ≡ map (spec.named_by text.now)
        (map (spec.tested_by (option_map (λ f. f.now.trial.run.broken) failed.entry)) lines.now)) }
{
    let broken = broken_by(failed);
    let mut cases = Vec::new(alloc);
    for line in lines {
        cases.push(case_of(alloc, text, failed, tested_by(broken, *line))?)?;
    }
    Ok(cases)
}

/// The lines of expectations, and then those of sentences about calls.
fn lines_of(
    alloc: Global,
    expected: &[Expected],
    sentences: &[CallSentence],
) -> Result<Vec<usize>, AllocError>
    ensures { IfOk result (λ lines. lines.items ≡ spec.lines_of expected.now sentences.now) }
{
    let mut lines = Vec::new(alloc);
    add_expected(&mut lines, expected)?;
    add_call_sentences(&mut lines, sentences)?;
    Ok(lines)
}

/// Adds the lines of expectations.
fn add_expected(lines: &mut Vec<usize>, expected: &[Expected]) -> Result<(), AllocError>
    ensures { OnOk result (lines.new.items ≡ lines.old.items ++ map (λ x. x.line) expected.now) }
{
    for one in expected {
        lines.push(one.line)?;
    }
    Ok(())
}

/// Adds the lines of sentences about calls.
fn add_call_sentences(lines: &mut Vec<usize>, sentences: &[CallSentence]) -> Result<(), AllocError>
    ensures { OnOk result (lines.new.items ≡ lines.old.items ++ map (λ p. p.line) sentences.now) }
{
    for one in sentences {
        lines.push(one.line)?;
    }
    Ok(())
}

/// A report of random runs that were judged by the expectations in these lines, of which this one fails, if one does.
fn report_with(
    alloc: Global,
    expectations: &Expectations<'_>,
    lines: &[usize],
    failed: Option<&FailedTest>,
) -> Result<Vec<u8>, AllocError>
    ensures { IfOk result (λ out. spec.IsReport expectations.now.name.now false
        (map (spec.named_by expectations.now.text.now)
        (map (spec.tested_by (option_map (λ f. f.now.trial.run.broken) failed.entry)) lines.now)) out.items) }
{
    let cases = cases_of(alloc, expectations.text, lines, failed)?;
    report_of(alloc, expectations.name, false, &cases)
}

/// The lines of the expectations of a text for a system, and then those of its sentences about calls.
fn lines_in(alloc: Global, sys: &System, text: &[u8]) -> Result<Vec<usize>, ViewExit>
    ensures { IfOk result (λ lines. spec.AreLinesOf (tables_of sys.now) text.now lines.items) }
{
    let expected = other_expected(alloc, sys, text)?;
    let sentences = call_sentences_in(alloc, sys, text)?;
    lines_of(alloc, &expected, &sentences).map_err(|error| memory(error))
}

/// A report of random runs of a system that were judged by the expectations of a text, of which this one fails, if one
/// does: only the expectation that it breaks fails. The reasons to give none are a fault of the text, and that memory
/// runs out.
fn test_report(
    alloc: Global,
    sys: &System,
    expectations: &Expectations<'_>,
    failed: Option<&FailedTest>,
) -> Result<Vec<u8>, ViewExit>
    ensures { IfOk result (λ out. spec.IsTestReport (tables_of sys.now) expectations.now.name.now
        expectations.now.text.now (option_map (λ f. f.now.trial.run.broken) failed.entry) out.items) }
{
    let lines = lines_in(alloc, sys, expectations.text)?;
    report_with(alloc, expectations, &lines, failed).map_err(|error| memory(error))
}

/// The expectations of a text in the file of this name.
pub fn expectations_of<'a>(name: &'a str, text: &'a [u8]) -> Expectations<'a>
    ensures name { result.name.now ≡ name.now }
    ensures text { result.text.now ≡ text.now }
{
    Expectations {
        name,
        text,
        strict: false,
    }
}

/// The report of a test, of whose runs this one fails, if one does.
fn report_by(
    alloc: Global,
    read: &ReadTest<'_>,
    failed: Option<&FailedTest>,
) -> Result<Vec<u8>, ViewExit>
    ensures { IfOk result (λ out. IsTestReport (tables_of read.now.test.now.configured.now) read.now.test.now.expect.now
        read.now.texts.expectations.now (option_map (λ f. f.now.trial.run.broken) failed.entry) out.items) }
{
    let ReadTest { test, texts } = *read;
    let expectations = expectations_of(test.expect, texts.expectations);
    test_report(alloc, test.configured, &expectations, failed)
}

/// Writes the report of a test to this file. The error is the status that the program ends with.
fn write_report_to<O: Outside>(
    alloc: Global,
    outside: &mut O,
    out: &str,
    read: &ReadTest<'_>,
    failed: Option<&FailedTest>,
) -> Result<(), u8>
    ensures ok { OnOk result ((report : List ℕ)
        × IsTestReport (tables_of read.now.test.now.configured.now) read.now.test.now.expect.now
        read.now.texts.expectations.now (option_map (λ f. f.now.trial.run.broken) failed.entry) report
        × Does (O.done outside.old) (wrote out.now report ∷ []) (O.done outside.new)) }
    ensures err { IfErr result IsRefusal }
{
    match report_by(alloc, read, failed) {
        Ok(report) => write_to(alloc, outside, out, &report),
        Err(exit) => Err(end_test(outside, &exit)),
    }
}

/// Writes the report of a test to its file, if one is asked for. The error is the status that the program ends with.
#[tactic(auto, using(crate::proofs::TestEnds::reports_none))]
pub fn write_report<O: Outside>(
    alloc: Global,
    outside: &mut O,
    read: &ReadTest<'_>,
    failed: Option<&FailedTest>,
) -> Result<(), u8>
    ensures ok { OnOk result (Reports read.now (option_map (λ f. f.now) failed.entry) (O.done outside.old)
        (O.done outside.new)) }
    ensures err { IfErr result IsRefusal }
{
    let test = read.test;
    match test.testing.junit {
        Some(out) => write_report_to(alloc, outside, out, read, failed),
        None => Ok(()),
    }
}
