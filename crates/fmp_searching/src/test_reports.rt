//! A search as a report in the XML of JUnit: a suite with a test for each sentence of the file, and one with a test for
//! each other thing that was asked.
ghost use Rattle.std.specs.Prelude.{◌≡◌, ◌+◌, ◌++◌, ◌<◌, ◌^◌, [], ◌∷◌, IfOk, OnOk, length, map, nat_lt};
ghost use Rattle.std.specs.Prelude.{if◌then◌else◌};
ghost use Rattle.fmp_json.specs.Junit.{report_text};
ghost use Rattle.fmp_searching.specs.Sources.{source_tables};
ghost use Rattle.fmp_searching.specs.Tests as spec;
ghost use Rattle.fmp_searching.specs.declared.seen.SeenKind.TheVariants as kind;

use crate::judging::{AskedTest, JudgedTest, Searched, cases_of, judged};
use crate::parts::{add_monitors, add_nevers, deadlock_part};
use crate::seen::SeenKind;
use crate::sources::ExploredSources;
use fmp_expect::line_at;
use fmp_explore::Monitor;
use fmp_json::{TestCase, TestSuite, append_report};
use std::alloc::{AllocError, Global};

/// Adds the sentence of the file that stands in the line of this number.
fn add_sentence(
    alloc: Global,
    asked: &mut Vec<AskedTest>,
    sources: &ExploredSources<'_>,
    kind: SeenKind,
    line: usize,
) -> Result<(), AllocError>
    ensures { OnOk result (map (λ t. t.kind) asked.new.items ≡ map (λ t. t.kind) asked.old.items ++ kind ∷ []) }
{
    asked.push(AskedTest {
        kind,
        name: String::from_utf8_lossy(alloc, line_at(sources.sentences.text, line))?,
        line: Some(line),
    })?;
    Ok(())
}

/// The lines between two of a file.
#[derive(Clone, Copy)]
struct LinesBetween {
    /// They come after this one.
    after: usize,
    /// They come before this one, if there is one.
    before: Option<usize>,
}

impl LinesBetween {
    ghost use Rattle.std.specs.Prelude.{◌≡◌};
    ghost use Rattle.fmp_searching.specs.Tests.{is_between};

    /// Whether a line is one of them.
    fn contains(self, line: usize) -> bool
        ensures { result ≡ is_between self.after self.before line }
    {
        match self.before {
            Some(before) => line > self.after && line < before,
            None => line > self.after,
        }
    }
}

/// A sentence of the file about calls.
#[derive(Clone, Copy)]
struct SentenceAtCalls {
    /// Its place among those about calls, from 0.
    place: usize,
    /// The line in which it stands.
    line: usize,
}

/// Adds a sentence about calls, if it stands in one of these lines.
fn add_call_sentence(
    alloc: Global,
    asked: &mut Vec<AskedTest>,
    sources: &ExploredSources<'_>,
    lines: LinesBetween,
    sentence: SentenceAtCalls,
) -> Result<(), AllocError>
    ensures { OnOk result (map (λ t. t.kind) asked.new.items ≡ map (λ t. t.kind) asked.old.items
        ++ (if spec.is_between lines.after lines.before sentence.line
        then kind.CallSentence sentence.place ∷ [] else [])) }
{
    let SentenceAtCalls { place, line } = sentence;
    if lines.contains(line) {
        add_sentence(alloc, asked, sources, SeenKind::CallSentence(place), line)
    } else {
        Ok(())
    }
}

/// Adds the sentences of the file about calls that stand in these lines.
#[tactic(auto, using(crate::proofs::SeenLists::calls_between_at))]
fn add_call_sentences(
    alloc: Global,
    asked: &mut Vec<AskedTest>,
    sources: &ExploredSources<'_>,
    lines: LinesBetween,
) -> Result<(), AllocError>
    ensures { OnOk result (map (λ t. t.kind) asked.new.items ≡ map (λ t. t.kind) asked.old.items
        ++ spec.calls_between lines.after lines.before 0 sources.now.sentences.call_sentences.now) }
{
    let calls = sources.sentences.call_sentences;
    for place in 0..calls.len() {
        let line = calls[place].line;
        add_call_sentence(
            alloc,
            asked,
            sources,
            lines,
            SentenceAtCalls { place, line },
        )?;
    }
    Ok(())
}

/// The sentences of the file, in the order of their lines.
#[tactic(auto, using(crate::proofs::SeenLists::sentence_kinds_at))]
fn asked_sentences(
    alloc: Global,
    sources: &ExploredSources<'_>,
) -> Result<Vec<AskedTest>, AllocError>
    requires { sources.now.sentences.sections + length sources.now.sentences.expected.now < 2 ^ 64 }
    ensures { IfOk result (λ asked. map (λ t. t.kind) asked.items
        ≡ spec.sentence_kinds sources.now.sentences.call_sentences.now sources.now.sentences.sections 0
        sources.now.sentences.expected.now) }
{
    let (sections, expected) = (sources.sentences.sections, sources.sentences.expected);
    let mut asked = Vec::new(alloc);
    let mut last: usize = 0;
    for i in 0..expected.len() {
        let line = expected[i].line;
        let lines = LinesBetween {
            after: last,
            before: Some(line),
        };
        add_call_sentences(alloc, &mut asked, sources, lines)?;
        add_sentence(
            alloc,
            &mut asked,
            sources,
            SeenKind::Sentence(sections + i),
            line,
        )?;
        last = line;
    }
    let lines = LinesBetween {
        after: last,
        before: None,
    };
    add_call_sentences(alloc, &mut asked, sources, lines)?;
    Ok(asked)
}

/// Adds a test of this name.
fn add_asked(
    alloc: Global,
    asked: &mut Vec<AskedTest>,
    kind: SeenKind,
    name: &[u8],
) -> Result<(), AllocError>
    ensures { OnOk result (map (λ t. t.kind) asked.new.items ≡ map (λ t. t.kind) asked.old.items ++ kind ∷ []) }
{
    let name = String::from_utf8_lossy(alloc, name)?;
    asked.push(AskedTest {
        kind,
        name,
        line: None,
    })?;
    Ok(())
}

/// Parts of a claim in one line.
fn joined(alloc: Global, parts: &[Vec<u8>]) -> Result<Vec<u8>, AllocError> {
    let mut text = Vec::new(alloc);
    for part in parts {
        if !text.is_empty() {
            text.extend_from_slice(b", ")?;
        }
        text.extend_from_slice(part)?;
    }
    Ok(text)
}

/// Adds what must never happen by the command line, if anything but faults must.
fn add_asked_nevers(
    alloc: Global,
    asked: &mut Vec<AskedTest>,
    sources: &ExploredSources<'_>,
) -> Result<(), AllocError>
    ensures { OnOk result (map (λ t. t.kind) asked.new.items ≡ map (λ t. t.kind) asked.old.items
        ++ spec.never_kinds (source_tables sources.now)) }
{
    let mut parts = Vec::new(alloc);
    let at_calls = sources.sentences.nevers_at;
    add_nevers(alloc, &sources.claim, at_calls, &mut parts)?;
    if parts.is_empty() {
        return Ok(());
    }
    add_asked(alloc, asked, SeenKind::Never, &joined(alloc, &parts)?)
}

/// Adds the section at a place, which this monitor watches, if the monitor there is one of a section.
fn add_asked_section(
    alloc: Global,
    asked: &mut Vec<AskedTest>,
    sources: &ExploredSources<'_>,
    place: usize,
    monitor: Monitor,
) -> Result<(), AllocError>
    ensures { OnOk result (map (λ t. t.kind) asked.new.items ≡ map (λ t. t.kind) asked.old.items
        ++ (if nat_lt place sources.now.sentences.sections then kind.Alone place ∷ [] else [])) }
{
    if place >= sources.sentences.sections {
        return Ok(());
    }
    let mut parts = Vec::new(alloc);
    add_monitors(alloc, sources.claim.configured, &[monitor], &mut parts)?;
    add_asked(
        alloc,
        asked,
        SeenKind::Alone(place),
        &joined(alloc, &parts)?,
    )
}

/// Adds the sections.
#[tactic(auto, using(crate::proofs::SeenLists::section_kinds_at))]
fn add_asked_sections(
    alloc: Global,
    asked: &mut Vec<AskedTest>,
    sources: &ExploredSources<'_>,
) -> Result<(), AllocError>
    ensures { OnOk result (map (λ t. t.kind) asked.new.items ≡ map (λ t. t.kind) asked.old.items
        ++ spec.section_kinds sources.now.sentences.sections 0 sources.now.claim.question.now.monitors.items) }
{
    let monitors = &sources.claim.question.monitors;
    for place in 0..monitors.len() {
        add_asked_section(alloc, asked, sources, place, monitors[place])?;
    }
    Ok(())
}

/// Adds what is always asked.
fn add_asked_last(
    alloc: Global,
    asked: &mut Vec<AskedTest>,
    sources: &ExploredSources<'_>,
) -> Result<(), AllocError>
    ensures { OnOk result (map (λ t. t.kind) asked.new.items ≡ map (λ t. t.kind) asked.old.items
        ++ spec.last_kinds) }
{
    let claim = &sources.claim;
    let deadlock = deadlock_part(alloc, claim.image.system(), claim.question)?;
    add_asked(alloc, asked, SeenKind::Deadlock, &deadlock)?;
    add_asked(alloc, asked, SeenKind::Fault, b"no fault")?;
    let endless = b"no body that goes on for ever without a call";
    add_asked(alloc, asked, SeenKind::Endless, endless)?;
    add_asked(alloc, asked, SeenKind::Stuck, b"no stuck task")
}

/// What is asked beside the sentences of the file.
fn asked_others(alloc: Global, sources: &ExploredSources<'_>) -> Result<Vec<AskedTest>, AllocError>
    ensures { IfOk result (λ asked.
        map (λ t. t.kind) asked.items ≡ spec.other_kinds (source_tables sources.now)) }
{
    let mut asked = Vec::new(alloc);
    add_asked_nevers(alloc, &mut asked, sources)?;
    add_asked_sections(alloc, &mut asked, sources)?;
    add_asked_last(alloc, &mut asked, sources)?;
    Ok(asked)
}

/// What came of what is asked.
fn judge_all(
    alloc: Global,
    sources: &ExploredSources<'_>,
    searched: Searched<'_>,
    asked: &[AskedTest],
) -> Result<Vec<JudgedTest>, AllocError>
    ensures judged { IfOk result (λ tests. spec.AreJudged sources.now.named.strict searched.entry.question.now
        searched.entry.report.now searched.entry.seen.now tests.items) }
    ensures kinds { IfOk result (λ tests. map (λ t. t.kind) tests.items ≡ map (λ t. t.kind) asked.now) }
{
    let mut tests = Vec::new(alloc);
    for one in asked {
        tests.push(judged(alloc, sources, searched, one)?)?;
    }
    Ok(tests)
}

/// A report of suites.
fn report_of(alloc: Global, suites: &[TestSuite<'_>]) -> Result<Vec<u8>, AllocError>
    ensures { IfOk result (λ out. out.items ≡ report_text suites.now) }
{
    let mut out = Vec::new(alloc);
    append_report(suites, &mut out)?;
    Ok(out)
}

/// A report of one suite.
fn report_of_one<'a>(
    alloc: Global,
    name: &'a str,
    cases: &'a [TestCase<'a>],
) -> Result<Vec<u8>, AllocError>
    ensures { IfOk result (λ out. spec.IsReportOf (map spec.counted_test cases.now) out.items) }
{
    report_of(alloc, &[TestSuite { name, cases }])
}

/// A report of the tests of the sentences of a file, and of the other tests.
fn report_of_two<'a>(
    alloc: Global,
    file: &'a str,
    sentences: &'a [TestCase<'a>],
    name: &'a str,
    cases: &'a [TestCase<'a>],
) -> Result<Vec<u8>, AllocError>
    ensures { IfOk result (λ out. spec.IsReportOf
        (map spec.counted_test sentences.now ++ map spec.counted_test cases.now) out.items) }
{
    let of_file = TestSuite {
        name: file,
        cases: sentences,
    };
    report_of(alloc, &[of_file, TestSuite { name, cases }])
}

/// A report of a search that was asked no sentence of a file.
fn plain_report(
    alloc: Global,
    sources: &ExploredSources<'_>,
    searched: Searched<'_>,
) -> Result<Vec<u8>, AllocError>
    requires file { sources.now.sentences.file.now ≡ [] }
    requires question { searched.question.now ≡ sources.now.claim.question.now }
    ensures { IfOk result (λ out. spec.IsTestReport (source_tables sources.now) searched.entry.report.now
        searched.entry.seen.now out.items) }
{
    let asked = asked_others(alloc, sources)?;
    let tests = judge_all(alloc, sources, searched, &asked)?;
    let cases = cases_of(alloc, &tests)?;
    report_of_one(alloc, sources.named.src, &cases)
}

/// A report of the tests of the sentences of a file, and of other tests.
fn judged_report(
    alloc: Global,
    sources: &ExploredSources<'_>,
    sentences: Vec<JudgedTest>,
    tests: Vec<JudgedTest>,
) -> Result<Vec<u8>, AllocError>
    ensures { IfOk result (λ out. spec.IsReportOf
        (map spec.wanted_test sentences.items ++ map spec.wanted_test tests.items) out.items) }
{
    let of_file = cases_of(alloc, &sentences)?;
    let cases = cases_of(alloc, &tests)?;
    let (file, src) = (sources.sentences.file, sources.named.src);
    report_of_two(alloc, file, &of_file, src, &cases)
}

/// A report of a search that was asked the sentences of a file.
fn report_with_file(
    alloc: Global,
    sources: &ExploredSources<'_>,
    searched: Searched<'_>,
) -> Result<Vec<u8>, AllocError>
    requires file { 0 < length sources.now.sentences.file.now }
    requires places { sources.now.sentences.sections + length sources.now.sentences.expected.now < 2 ^ 64 }
    requires question { searched.question.now ≡ sources.now.claim.question.now }
    ensures { IfOk result (λ out. spec.IsTestReport (source_tables sources.now) searched.entry.report.now
        searched.entry.seen.now out.items) }
{
    let asked = asked_sentences(alloc, sources)?;
    let sentences = judge_all(alloc, sources, searched, &asked)?;
    let others = asked_others(alloc, sources)?;
    let tests = judge_all(alloc, sources, searched, &others)?;
    judged_report(alloc, sources, sentences, tests)
}

/// A report of a search. `AllocError` if memory runs out.
pub fn search_report(
    alloc: Global,
    sources: &ExploredSources<'_>,
    searched: Searched<'_>,
) -> Result<Vec<u8>, AllocError>
    requires places { sources.now.sentences.sections + length sources.now.sentences.expected.now < 2 ^ 64 }
    requires question { searched.question.now ≡ sources.now.claim.question.now }
    ensures { IfOk result (λ out. spec.IsTestReport (source_tables sources.now) searched.entry.report.now
        searched.entry.seen.now out.items) }
{
    if sources.sentences.file.is_empty() {
        plain_report(alloc, sources, searched)
    } else {
        report_with_file(alloc, sources, searched)
    }
}
