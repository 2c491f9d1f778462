//! Judgements with their texts, and how they are told to other programs.
ghost use Rattle.std.specs.Prelude.{◌≡◌, ◌≤◌, ◌++◌, ◌^◌, IfOk, OnOk, false, length, map};
ghost use Rattle.std.specs.List.{flat_map};
ghost use Rattle.fmp_json.specs.Junit.{is_error, is_failure};
ghost use Rattle.fmp_looking.specs.Judgements as spec;

use crate::expecting::{Expectations, event_text};
use crate::judging::{Judgement, JudgementForm};
use crate::opened::Opened;
use fmp_expect::{BrokenExpectation, line_at};
use fmp_json::{
    TestCase, TestSuite, Verdict, append_report, begin, finish, number_member, text_member,
};
use fmp_kernel::Coming;
use json::Writer;
use std::alloc::{AllocError, Global};

/// A judgement with its texts.
#[derive(Drop)]
pub struct JudgedCase {
    pub judgement: Judgement,
    /// The text of the expectation.
    pub name: String,
    /// Why the run fails it, in one line; empty if it does not.
    pub message: String,
    /// What shows that it fails, as the lines of the event.
    pub shown: String,
}

/// Why a run fails an expectation.
fn message_of(
    alloc: Global,
    broken: Option<BrokenExpectation>,
    fails: bool,
) -> Result<String, AllocError> {
    match broken {
        Some(broken) => format!(in alloc; "fails in event {}", broken.event),
        None if fails => String::from_str(alloc, "never happens at all"),
        None => Ok(String::new(alloc)),
    }
}

/// The lines of the event in which a run breaks an expectation.
fn shown_of<O: Opened, T: Coming<O::Bodies>>(
    alloc: Global,
    opened: &O,
    events: &[T],
    broken: Option<BrokenExpectation>,
) -> Result<String, AllocError>
    requires { length events.now ≤ 2 ^ 31 }
{
    match broken {
        Some(broken) => {
            let event = event_text(alloc, opened, events, broken.event)?;
            String::from_utf8_lossy(alloc, &event)
        }
        None => Ok(String::new(alloc)),
    }
}

/// A judgement of a run with its texts.
fn case_of<O: Opened, T: Coming<O::Bodies>>(
    alloc: Global,
    opened: &O,
    events: &[T],
    expectations: &Expectations<'_>,
    judgement: Judgement,
) -> Result<JudgedCase, AllocError>
    requires { length events.now ≤ 2 ^ 31 }
    ensures { IfOk result (λ case. spec.named_case case ≡ spec.named_by expectations.now.text.now judgement) }
{
    let name = line_at(expectations.text, judgement.line);
    Ok(JudgedCase {
        judgement,
        name: String::from_utf8_lossy(alloc, name)?,
        message: message_of(
            alloc,
            judgement.broken,
            judgement.fails(expectations.strict),
        )?,
        shown: shown_of(alloc, opened, events, judgement.broken)?,
    })
}

/// The judgements of a run with their texts, in their order. `AllocError` if memory runs out.
pub fn cases_of<O: Opened, T: Coming<O::Bodies>>(
    alloc: Global,
    opened: &O,
    events: &[T],
    expectations: &Expectations<'_>,
    judgements: &[Judgement],
) -> Result<Vec<JudgedCase>, AllocError>
    requires { length events.now ≤ 2 ^ 31 }
    ensures { IfOk result (λ cases. map spec.named_case cases.items
        ≡ map (spec.named_by expectations.now.text.now) judgements.now) }
{
    let mut cases = Vec::new(alloc);
    for judgement in judgements {
        cases.push(case_of(alloc, opened, events, expectations, *judgement)?)?;
    }
    Ok(cases)
}

/// The verdict of a test.
fn test_verdict<'a>(case: &'a JudgedCase, strict: bool) -> Verdict<'a>
    ensures failure { is_failure result ≡ spec.fails strict case.now.judgement }
    ensures error { is_error result ≡ false }
{
    if case.judgement.fails(strict) {
        Verdict::Failure(case.message.as_str(), case.shown.as_str())
    } else {
        Verdict::Passed
    }
}

/// A judgement as a test.
fn test_of<'a>(case: &'a JudgedCase, strict: bool) -> TestCase<'a>
    ensures { spec.told_test result ≡ spec.wanted_test strict (spec.named_case case.now) }
{
    TestCase {
        name: case.name.as_str(),
        line: case.judgement.line,
        verdict: test_verdict(case, strict),
    }
}

/// Judgements as tests, in their order.
fn tests_of<'a>(
    alloc: Global,
    strict: bool,
    cases: &'a [JudgedCase],
) -> Result<Vec<TestCase<'a>>, AllocError>
    ensures { IfOk result (λ tests.
        map spec.told_test tests.items ≡ map (spec.wanted_test strict) (map spec.named_case cases.now)) }
{
    let mut tests = Vec::new(alloc);
    for case in cases {
        tests.push(test_of(case, strict))?;
    }
    Ok(tests)
}

/// A report in the XML of JUnit of a suite of this name, which has these tests.
fn suite_report<'a>(
    alloc: Global,
    name: &'a str,
    tests: &'a [TestCase<'a>],
) -> Result<Vec<u8>, AllocError>
    ensures { IfOk result (λ out. spec.IsSuiteReport name.now tests.now out.items) }
{
    let mut out = Vec::new(alloc);
    let suite = TestSuite { name, cases: tests };
    append_report(&[suite], &mut out)?;
    Ok(out)
}

/// A report of judgements in the XML of JUnit, as a suite of this name. `AllocError` if memory runs out.
pub fn report_of(
    alloc: Global,
    name: &str,
    strict: bool,
    cases: &[JudgedCase],
) -> Result<Vec<u8>, AllocError>
    ensures { IfOk result (λ out. spec.IsReport name.now strict (map spec.named_case cases.now) out.items) }
{
    let tests = tests_of(alloc, strict, cases)?;
    suite_report(alloc, name, &tests)
}

/// How a run does by an expectation, in a word.
fn verdict_word(broken: Option<BrokenExpectation>, is_empty: bool) -> &'static str
    ensures { result.now ≡ spec.verdict_word broken is_empty }
{
    match broken {
        Some(_) => "fails",
        None if is_empty => "empty",
        None => "holds",
    }
}

/// Writes the event in which a run breaks an expectation, if it does.
fn write_event(writer: &mut Writer, broken: Option<BrokenExpectation>) -> Result<(), AllocError>
    ensures before { writer.new.before ≡ writer.old.before }
    ensures tokens { OnOk result (writer.new.tokens ≡ writer.old.tokens ++ spec.event_members broken) }
{
    match broken {
        Some(broken) => number_member(writer, "event", u64::from(broken.event)),
        None => Ok(()),
    }
}

/// Writes a judgement by an expectation of this file and text.
fn write_judgement(
    writer: &mut Writer,
    file: &str,
    text: &str,
    judgement: &Judgement,
) -> Result<(), AllocError>
    ensures before { writer.new.before ≡ writer.old.before }
    ensures tokens { OnOk result (writer.new.tokens
        ≡ writer.old.tokens ++ spec.judgement_members file.now text.now judgement.now) }
{
    text_member(writer, "file", file)?;
    number_member(writer, "line", judgement.line as u64)?;
    text_member(writer, "expectation", text)?;
    let word = verdict_word(judgement.broken, judgement.is_empty);
    text_member(writer, "verdict", word)?;
    write_event(writer, judgement.broken)
}

/// A judgement by an expectation of this file and text, as an object of JSON.
fn record_of(
    alloc: Global,
    file: &str,
    text: &str,
    judgement: &Judgement,
) -> Result<Vec<u8>, AllocError>
    ensures { IfOk result (λ line. line.items ≡ spec.judgement_record file.now text.now judgement.now) }
{
    let mut writer = begin(alloc)?;
    write_judgement(&mut writer, file, text, judgement)?;
    finish(writer)
}

/// Appends a judgement as an object of JSON.
fn append_record(
    alloc: Global,
    file: &str,
    case: &JudgedCase,
    out: &mut Vec<u8>,
) -> Result<(), AllocError>
    ensures { OnOk result (out.new.items ≡ out.old.items ++ spec.named_record file.now (spec.named_case case.now)) }
{
    let record = record_of(alloc, file, case.name.as_str(), &case.judgement)?;
    out.extend_from_slice(&record)
}

/// Judgements by the expectations of this file as objects of JSON, one a line.
fn records_of(alloc: Global, file: &str, cases: &[JudgedCase]) -> Result<Vec<u8>, AllocError>
    ensures { IfOk result (λ out. out.items
        ≡ flat_map (spec.named_record file.now) (map spec.named_case cases.now)) }
{
    let mut out = Vec::new(alloc);
    for case in cases {
        append_record(alloc, file, case, &mut out)?;
    }
    Ok(out)
}

/// Judgements by the expectations of the file of this name, in a form. `AllocError` if memory runs out.
pub fn told_in(
    alloc: Global,
    form: JudgementForm,
    name: &str,
    strict: bool,
    cases: &[JudgedCase],
) -> Result<Vec<u8>, AllocError>
    ensures { IfOk result (λ out. spec.IsTold form name.now strict (map spec.named_case cases.now) out.items) }
{
    match form {
        JudgementForm::Junit => report_of(alloc, name, strict, cases),
        JudgementForm::Records => records_of(alloc, name, cases),
    }
}
