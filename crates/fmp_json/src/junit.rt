//! Reports of tests: suites, their tests, and what came of them.
ghost use Rattle.std.specs.Prelude.{◌≡◌, ◌++◌, OnOk};
ghost use Rattle.std.specs.List.{count_by};
ghost use Rattle.fmp_json.specs.Junit as spec;

use crate::text::append;
use crate::xml::{append_content, append_number, append_text};
use std::alloc::AllocError;

/// What came of a test.
#[derive(Clone, Copy)]
pub enum Verdict<'a> {
    /// It holds.
    Passed,
    /// It does not hold: what is said of it in one line, and a text, as the steps that show it.
    Failure(&'a str, &'a str),
    /// Whether it holds is not known: why.
    Error(&'a str),
}

/// A test: its name, the line that it stands in, from 1, and what came of it.
#[derive(Clone, Copy)]
pub struct TestCase<'a> {
    pub name: &'a str,
    pub line: usize,
    pub verdict: Verdict<'a>,
}

/// A suite: the name of a file, and its tests.
#[derive(Clone, Copy)]
pub struct TestSuite<'a> {
    pub name: &'a str,
    pub cases: &'a [TestCase<'a>],
}

impl Verdict<'_> {
    /// Whether a test failed.
    fn is_failure(&self) -> bool
        ensures { result ≡ spec.is_failure self.now }
    {
        matches!(self, Verdict::Failure(..))
    }

    /// Whether it is not known if a test holds.
    fn is_error(&self) -> bool
        ensures { result ≡ spec.is_error self.now }
    {
        matches!(self, Verdict::Error(_))
    }
}

/// How many tests fail.
fn failures(cases: &[TestCase<'_>]) -> usize
    ensures { result ≡ count_by (λ c. spec.is_failure c.verdict) cases.now }
{
    let mut count: usize = 0;
    for case in cases {
        if case.verdict.is_failure() {
            count += 1;
        }
    }
    count
}

/// Of how many tests it is not known if they hold.
fn errors(cases: &[TestCase<'_>]) -> usize
    ensures { result ≡ count_by (λ c. spec.is_error c.verdict) cases.now }
{
    let mut count: usize = 0;
    for case in cases {
        if case.verdict.is_error() {
            count += 1;
        }
    }
    count
}

/// Appends what is said of a test that fails.
#[tactic(auto, unfolding(crate::specs::Junit::failure_text))]
fn append_failure(message: &str, text: &str, out: &mut Vec<u8>) -> Result<(), AllocError>
    ensures { OnOk result (out.new.items ≡ out.old.items ++ spec.failure_text message.now text.now) }
{
    append(b">\n      <failure", out)?;
    append_text(b"message", message, out)?;
    append(b">", out)?;
    append_content(text, out)?;
    append(b"</failure>\n    </testcase>\n", out)
}

/// Appends what is said of a test of which it is not known if it holds.
#[tactic(auto, unfolding(crate::specs::Junit::error_text))]
fn append_error(message: &str, out: &mut Vec<u8>) -> Result<(), AllocError>
    ensures { OnOk result (out.new.items ≡ out.old.items ++ spec.error_text message.now) }
{
    append(b">\n      <error", out)?;
    append_text(b"message", message, out)?;
    append(b"/>\n    </testcase>\n", out)
}

/// Appends what came of a test.
fn append_verdict(verdict: Verdict<'_>, out: &mut Vec<u8>) -> Result<(), AllocError>
    ensures { OnOk result (out.new.items ≡ out.old.items ++ spec.verdict_text verdict.entry) }
{
    match verdict {
        Verdict::Passed => append(b"/>\n", out),
        Verdict::Failure(message, text) => append_failure(message, text, out),
        Verdict::Error(message) => append_error(message, out),
    }
}

/// Appends the name of a test, and where it stands.
#[tactic(auto, unfolding(crate::specs::Junit::place_text))]
fn append_place(file: &str, case: &TestCase<'_>, out: &mut Vec<u8>) -> Result<(), AllocError>
    ensures { OnOk result (out.new.items ≡ out.old.items ++ spec.place_text file.now case.now) }
{
    append_text(b"classname", file, out)?;
    append_text(b"name", case.name, out)?;
    append_text(b"file", file, out)?;
    append_number(b"line", case.line, out)
}

/// Appends a test.
#[tactic(auto, unfolding(crate::specs::Junit::case_text))]
fn append_case(file: &str, case: &TestCase<'_>, out: &mut Vec<u8>) -> Result<(), AllocError>
    ensures { OnOk result (out.new.items ≡ out.old.items ++ spec.case_text file.now case.now) }
{
    append(b"    <testcase", out)?;
    append_place(file, case, out)?;
    append_verdict(case.verdict, out)
}

/// Appends tests.
fn append_cases(file: &str, cases: &[TestCase<'_>], out: &mut Vec<u8>) -> Result<(), AllocError>
    ensures { OnOk result (out.new.items ≡ out.old.items ++ spec.cases_text file.now cases.now) }
{
    for case in cases {
        append_case(file, case, out)?;
    }
    Ok(())
}

/// Appends how many tests there are, how many fail, and of how many it is not known.
#[tactic(auto, unfolding(crate::specs::Junit::counts_text))]
fn append_counts(cases: &[TestCase<'_>], out: &mut Vec<u8>) -> Result<(), AllocError>
    ensures { OnOk result (out.new.items ≡ out.old.items ++ spec.counts_text cases.now) }
{
    append_number(b"tests", cases.len(), out)?;
    append_number(b"failures", failures(cases), out)?;
    append_number(b"errors", errors(cases), out)
}

/// Appends what stands in front of the tests of a suite.
#[tactic(auto, unfolding(crate::specs::Junit::head_text))]
fn append_head(suite: &TestSuite<'_>, out: &mut Vec<u8>) -> Result<(), AllocError>
    ensures { OnOk result (out.new.items ≡ out.old.items ++ spec.head_text suite.now) }
{
    append(b"  <testsuite", out)?;
    append_text(b"name", suite.name, out)?;
    append_counts(suite.cases, out)?;
    append(b">\n", out)
}

/// Appends a suite.
#[tactic(auto, unfolding(crate::specs::Junit::suite_text))]
fn append_suite(suite: &TestSuite<'_>, out: &mut Vec<u8>) -> Result<(), AllocError>
    ensures { OnOk result (out.new.items ≡ out.old.items ++ spec.suite_text suite.now) }
{
    append_head(suite, out)?;
    append_cases(suite.name, suite.cases, out)?;
    append(b"  </testsuite>\n", out)
}

/// Appends suites.
fn append_suites(suites: &[TestSuite<'_>], out: &mut Vec<u8>) -> Result<(), AllocError>
    ensures { OnOk result (out.new.items ≡ out.old.items ++ spec.suites_text suites.now) }
{
    for suite in suites {
        append_suite(suite, out)?;
    }
    Ok(())
}

/// Appends a report of suites. If memory runs out, the text has an unfinished end. Of what XML does not have, a
/// control character is written as `?`, and U+FFFE and U+FFFF as U+FFFD.
#[tactic(auto, unfolding(crate::specs::Junit::report_text))]
pub fn append_report(suites: &[TestSuite<'_>], out: &mut Vec<u8>) -> Result<(), AllocError>
    ensures { OnOk result (out.new.items ≡ out.old.items ++ spec.report_text suites.now) }
{
    append(
        b"<?xml version=\"1.0\" encoding=\"UTF-8\"?>\n<testsuites>\n",
        out,
    )?;
    append_suites(suites, out)?;
    append(b"</testsuites>\n", out)
}
