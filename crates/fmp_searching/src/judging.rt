//! What came of each thing that a search was asked, as a test.
ghost use Rattle.std.specs.Prelude.{◌≡◌, ◌==◌, IfOk, map, slice_get};
ghost use Rattle.std.specs.List.{list_any};
ghost use Rattle.fmp_json.specs.Junit.{is_error, is_failure};
ghost use Rattle.fmp_searching.specs.Seen.{is_broken, is_broken_call_sentence, is_same};
ghost use Rattle.fmp_searching.specs.Tests as spec;

use crate::end_records::without_feed;
use crate::ending::{append_end, append_unlooked, is_done};
use crate::finding::say_seen;
use crate::records::position_of;
use crate::seen::{Seen, SeenKind};
use crate::sources::ExploredSources;
use crate::unsaid::{is_complete, is_unsaid};
use fmp_explore::{Ending, Finding, Monitor, Question, Report};
use fmp_json::{TestCase, Verdict};
use fmp_trace::print_steps;
use std::alloc::{AllocError, Global};

/// What came of what is asked.
#[derive(Clone, Copy)]
pub enum TestOutcome {
    /// No finding breaks it, and the search is over with it.
    Passed,
    /// The finding at this place breaks it, and none before does.
    Broken(usize),
    /// It says nothing of any schedule, and that counts.
    Unsaid,
    /// No finding breaks it, but the search is not over with it.
    Unknown,
}

/// What is asked: what would break it, its name, and the line in which it stands, if it has one.
#[derive(Drop)]
pub struct AskedTest {
    pub kind: SeenKind,
    pub name: String,
    pub line: Option<usize>,
}

/// What is asked, as a test, with its texts.
#[derive(Drop)]
pub struct JudgedTest {
    pub kind: SeenKind,
    pub outcome: TestOutcome,
    pub name: String,
    /// The line of the sentence; of what has no line of its own, that of the call that breaks it, or 1.
    pub line: usize,
    /// Why it does not pass, in one line.
    pub message: String,
    /// The steps of the finding that breaks it.
    pub steps: String,
}

/// A search that is over: what was asked, what was found, and what is seen of each finding, in order.
#[derive(Clone, Copy)]
pub struct Searched<'a> {
    pub question: &'a Question,
    pub report: &'a Report,
    pub seen: &'a [Seen],
}

/// Whether two findings break the same.
fn is_same(one: SeenKind, other: SeenKind) -> bool
    ensures { result ≡ is_same one other }
{
    match (one, other) {
        (SeenKind::Never, SeenKind::Never) => true,
        (SeenKind::Fault, SeenKind::Fault) => true,
        (SeenKind::Alone(place), SeenKind::Alone(other)) => place == other,
        (SeenKind::Sentence(place), SeenKind::Sentence(other)) => place == other,
        (SeenKind::CallSentence(place), SeenKind::CallSentence(other)) => place == other,
        (SeenKind::Deadlock, SeenKind::Deadlock) => true,
        (SeenKind::Endless, SeenKind::Endless) => true,
        (SeenKind::Stuck, SeenKind::Stuck) => true,
        _ => false,
    }
}

/// Whether a place is one of these.
fn is_among(place: usize, places: &[usize]) -> bool
    ensures { result ≡ list_any (λ other. place == other) places.now }
{
    for other in places {
        if place == *other {
            return true;
        }
    }
    false
}

/// Whether one of these places is that of a sentence about calls which is asked.
fn is_broken_call_sentence(asked: SeenKind, broken: &[usize]) -> bool
    ensures { result ≡ is_broken_call_sentence asked broken.now }
{
    match asked {
        SeenKind::CallSentence(place) => is_among(place, broken),
        _ => false,
    }
}

/// Whether a finding breaks what is asked.
fn is_broken(asked: SeenKind, seen: &Seen) -> bool
    ensures { result ≡ is_broken asked seen.now }
{
    is_same(asked, seen.kind) || is_broken_call_sentence(asked, &seen.call_sentences)
}

/// The first finding that breaks what is asked.
#[tactic(auto, using(crate::proofs::FirstFindings::first_of_at))]
fn first_of(asked: SeenKind, seen: &[Seen]) -> Option<usize>
    ensures { result ≡ spec.first_of asked 0 seen.now }
{
    for i in 0..seen.len() {
        if is_broken(asked, &seen[i]) {
            return Some(i);
        }
    }
    None
}

/// Whether the search is over with what is asked.
fn is_over(asked: SeenKind, report: &Report) -> bool
    ensures { result ≡ spec.is_over asked report.now }
{
    match asked {
        SeenKind::Stuck => is_done(report.stuck_search),
        _ => report.holds || (is_complete(report.ending) && !report.findings.is_empty()),
    }
}

/// Whether what is at a place among these monitors and premises says nothing.
fn is_unsaid_among(monitors: &[Monitor], premises: &[bool], place: usize) -> bool
    ensures { result ≡ spec.is_unsaid_by (slice_get monitors.now place) (slice_get premises.now place) }
{
    let Some(monitor) = monitors.get(place) else {
        return false;
    };
    match premises.get(place) {
        Some(came) => is_unsaid(&monitor.subject, *came),
        None => false,
    }
}

/// Whether the sentence at a place says nothing of any schedule.
fn is_unsaid_at(question: &Question, report: &Report, place: usize) -> bool
    ensures { result ≡ spec.is_unsaid_at question.now report.now place }
{
    is_complete(report.ending) && is_unsaid_among(&question.monitors, &report.premises, place)
}

/// Whether what is asked is a sentence that says nothing of any schedule.
fn is_unsaid_kind(asked: SeenKind, question: &Question, report: &Report) -> bool
    ensures { result ≡ spec.is_unsaid_kind asked question.now report.now }
{
    match asked {
        SeenKind::Alone(place) | SeenKind::Sentence(place) => is_unsaid_at(question, report, place),
        SeenKind::Never
        | SeenKind::CallSentence(_)
        | SeenKind::Fault
        | SeenKind::Deadlock
        | SeenKind::Endless
        | SeenKind::Stuck => false,
    }
}

/// What came of what is asked.
fn outcome_of(strict: bool, searched: Searched<'_>, asked: SeenKind) -> TestOutcome
    ensures { result ≡ spec.outcome_of strict searched.entry.question.now searched.entry.report.now
        searched.entry.seen.now asked }
{
    if let Some(place) = first_of(asked, searched.seen) {
        return TestOutcome::Broken(place);
    }
    if strict && is_unsaid_kind(asked, searched.question, searched.report) {
        return TestOutcome::Unsaid;
    }
    if is_over(asked, searched.report) {
        TestOutcome::Passed
    } else {
        TestOutcome::Unknown
    }
}

/// What is said of a finding in one line.
fn broken_message(
    alloc: Global,
    sources: &ExploredSources<'_>,
    finding: &Finding,
    seen: &Seen,
) -> Result<String, AllocError> {
    let mut text = Vec::new(alloc);
    say_seen(&mut text, sources, finding, seen)?;
    String::from_utf8_lossy(alloc, &text)
}

/// Why stuck tasks were not looked for after a search in which every state was examined.
fn unlooked_message(
    alloc: Global,
    question: &Question,
    report: &Report,
) -> Result<String, AllocError> {
    let mut text = Vec::new(alloc);
    append_unlooked(question, report.stuck_search, &mut text)?;
    String::from_utf8_lossy(alloc, &without_feed(text))
}

/// Why the search is not over with what is asked.
fn unknown_message(
    alloc: Global,
    asked: SeenKind,
    question: &Question,
    report: &Report,
) -> Result<String, AllocError> {
    match (asked, report.ending) {
        (SeenKind::Stuck, Ending::Complete) => unlooked_message(alloc, question, report),
        (_, Ending::Found) => {
            String::from_str(alloc, "not known: the search ended at its first finding")
        }
        _ => {
            let mut text = Vec::new(alloc);
            append_end(question, report.ending, false, &mut text)?;
            String::from_utf8_lossy(alloc, &without_feed(text))
        }
    }
}

/// Why what is asked does not pass.
fn message_of(
    alloc: Global,
    sources: &ExploredSources<'_>,
    searched: Searched<'_>,
    asked: SeenKind,
    outcome: TestOutcome,
) -> Result<String, AllocError> {
    let (findings, seen) = (&searched.report.findings, searched.seen);
    match outcome {
        TestOutcome::Passed => Ok(String::new(alloc)),
        TestOutcome::Broken(place) => match (findings.get(place), seen.get(place)) {
            (Some(finding), Some(seen)) => broken_message(alloc, sources, finding, seen),
            _ => Ok(String::new(alloc)),
        },
        TestOutcome::Unsaid => String::from_str(alloc, "never happens at all"),
        TestOutcome::Unknown => unknown_message(alloc, asked, searched.question, searched.report),
    }
}

/// The steps of the finding that breaks what is asked, if one does.
fn steps_of(
    alloc: Global,
    searched: Searched<'_>,
    outcome: TestOutcome,
) -> Result<String, AllocError> {
    let mut text = Vec::new(alloc);
    if let TestOutcome::Broken(place) = outcome
        && let Some(finding) = searched.report.findings.get(place)
    {
        print_steps(&finding.steps, &mut text)?;
    }
    String::from_utf8_lossy(alloc, &text)
}

/// The line of the call of the finding that breaks what is asked; 1 if none does, or it has no call.
fn broken_line(
    sources: &ExploredSources<'_>,
    searched: Searched<'_>,
    outcome: TestOutcome,
) -> usize {
    if let TestOutcome::Broken(place) = outcome
        && let Some(seen) = searched.seen.get(place)
        && let Some(site) = seen.site
        && let Some(line) = position_of(sources, seen.kind, site).line
    {
        return usize::try_from(line).unwrap_or(1);
    }
    1
}

/// What came of what is asked, as a test. `AllocError` if memory runs out.
pub fn judged(
    alloc: Global,
    sources: &ExploredSources<'_>,
    searched: Searched<'_>,
    asked: &AskedTest,
) -> Result<JudgedTest, AllocError>
    ensures outcome { IfOk result (λ t. t.outcome ≡ spec.outcome_of sources.now.named.strict
        searched.entry.question.now searched.entry.report.now searched.entry.seen.now t.kind) }
    ensures kind { IfOk result (λ t. t.kind ≡ asked.now.kind) }
{
    let outcome = outcome_of(sources.named.strict, searched, asked.kind);
    let line = broken_line(sources, searched, outcome);
    Ok(JudgedTest {
        kind: asked.kind,
        outcome,
        name: asked.name.clone()?,
        line: asked.line.unwrap_or(line),
        message: message_of(alloc, sources, searched, asked.kind, outcome)?,
        steps: steps_of(alloc, searched, outcome)?,
    })
}

/// The verdict of a test.
fn verdict_of<'a>(test: &'a JudgedTest) -> Verdict<'a>
    ensures failure { is_failure result ≡ spec.fails test.now.outcome }
    ensures error { is_error result ≡ spec.is_unknown test.now.outcome }
{
    match test.outcome {
        TestOutcome::Passed => Verdict::Passed,
        TestOutcome::Broken(_) | TestOutcome::Unsaid => {
            Verdict::Failure(test.message.as_str(), test.steps.as_str())
        }
        TestOutcome::Unknown => Verdict::Error(test.message.as_str()),
    }
}

/// A test of a report.
fn case_of<'a>(test: &'a JudgedTest) -> TestCase<'a>
    ensures { spec.counted_test result ≡ spec.wanted_test test.now }
{
    TestCase {
        name: test.name.as_str(),
        line: test.line,
        verdict: verdict_of(test),
    }
}

/// The tests of a report, in their order. `AllocError` if memory runs out.
pub fn cases_of<'a>(alloc: Global, tests: &'a [JudgedTest]) -> Result<Vec<TestCase<'a>>, AllocError>
    ensures { IfOk result (λ cases. map spec.counted_test cases.items ≡ map spec.wanted_test tests.now) }
{
    let mut cases = Vec::new(alloc);
    for test in tests {
        cases.push(case_of(test))?;
    }
    Ok(cases)
}
