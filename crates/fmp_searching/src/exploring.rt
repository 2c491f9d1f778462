//! What `explore` prints of the schedules of two texts.
ghost use Rattle.std.specs.Prelude.{◌≡◌, ◌+◌, ◌++◌, ◌<◌, ◌^◌, All, IfOk, IfSome, OnOk, is_some, length, map, true};
ghost use Rattle.fmp_explore.specs.Searching.{NothingIsFound};
ghost use Rattle.fmp_witness.specs.Findings.{IsFound};
ghost use Rattle.fmp_searching.specs.Claimed.{IsExplored, IsReportIn, IsReportText, Tells, text_of};
ghost use Rattle.fmp_searching.specs.Extent.{covered_text, extent_line, extent_text, values_text, waits_line};
ghost use Rattle.fmp_searching.specs.Findings.{finding_text};
ghost use Rattle.fmp_searching.specs.Lines.{numbered};
ghost use Rattle.fmp_searching.specs.Records.{IsReportRecords};
ghost use Rattle.fmp_searching.specs.Seen.{AreSeen};
ghost use Rattle.fmp_searching.specs.Sources.{source_tables};
ghost use Rattle.fmp_searching.specs.Tests.{IsTestReport};

use crate::coverage_records::coverage_records;
use crate::covering::{coverage_text, say_extent};
use crate::end_records::end_record;
use crate::ending::{append_ending, status_of};
use crate::finding::say_finding;
use crate::judging::Searched;
use crate::records::found_records;
use crate::seen::{Seen, all_seen};
use crate::sources::{Claim, ExploredSources};
use crate::test_reports::search_report;
use crate::unsaid::{counts_unsaid, say_all_unsaid};
use crate::varieties::say_varieties;
use fmp_explore::{Finding, Report, SearchWatcher, explore, explore_beside};
use fmp_trace::print_steps;
use fmp_warnings::Form;
use std::alloc::{AllocError, Global};
use std::thread::Threads;

/// What an exploration came to: what is printed, the steps text of each finding, a report of tests if one is asked for,
/// and the status.
#[derive(Drop)]
pub struct Explored {
    pub text: Vec<u8>,
    pub steps: Vec<Vec<u8>>,
    pub report: Option<Vec<u8>>,
    pub status: u8,
}

/// What is printed of findings, of which this is seen.
#[tactic(auto, using(crate::proofs::SeenLists::numbered_at))]
fn findings_text(
    alloc: Global,
    sources: &ExploredSources<'_>,
    findings: &[Finding],
    seen: &[Seen],
) -> Result<Vec<u8>, AllocError>
    ensures { IfOk result (λ text. text.items
        ≡ numbered (λ number f x. finding_text (source_tables sources.now) number f x) 1 findings.now seen.now) }
{
    let mut text = Vec::new(alloc);
    let count = findings.len().min(seen.len());
    for i in 0..count {
        say_finding(&mut text, sources, i + 1, &findings[i], &seen[i])?;
    }
    Ok(text)
}

/// Appends the by-products of a search, and what has the most values.
fn append_coverage(
    alloc: Global,
    out: &mut Vec<u8>,
    sources: &ExploredSources<'_>,
    report: &Report,
) -> Result<(), AllocError>
    ensures { OnOk result (out.new.items ≡ out.old.items ++ (covered_text (source_tables sources.now) report.now
        ++ values_text (source_tables sources.now) report.now.varieties.items)) }
{
    let coverage = coverage_text(alloc, sources, report)?;
    out.extend_from_slice(&coverage)?;
    say_varieties(alloc, out, sources, &report.varieties)
}

/// Appends how far a search went, and the same.
fn append_reach(
    alloc: Global,
    out: &mut Vec<u8>,
    sources: &ExploredSources<'_>,
    report: &Report,
) -> Result<(), AllocError>
    ensures { OnOk result (out.new.items ≡ out.old.items ++ (waits_line report.now.waits
        ++ (extent_line report.now.states report.now.events report.now.depth
        ++ (covered_text (source_tables sources.now) report.now
        ++ values_text (source_tables sources.now) report.now.varieties.items)))) }
{
    say_extent(out, report)?;
    append_coverage(alloc, out, sources, report)
}

/// Appends what is printed below the end of a search: the sentences that say nothing, how far it went, and what falls
/// out of it.
fn append_extent(
    alloc: Global,
    out: &mut Vec<u8>,
    sources: &ExploredSources<'_>,
    report: &Report,
) -> Result<(), AllocError>
    ensures { OnOk result (out.new.items ≡ out.old.items ++ extent_text (source_tables sources.now) report.now) }
{
    say_all_unsaid(alloc, out, sources, report)?;
    append_reach(alloc, out, sources, report)
}

/// What is printed of a report: its findings, what is claimed or why the search ended, and what the search saw.
fn report_text(
    alloc: Global,
    sources: &ExploredSources<'_>,
    report: &Report,
    seen: &[Seen],
) -> Result<Vec<u8>, AllocError>
    ensures { IfOk result (λ text. IsReportText (source_tables sources.now) report.now seen.now text.items) }
{
    let mut text = findings_text(alloc, sources, &report.findings, seen)?;
    append_ending(alloc, &sources.claim, report, &mut text)?;
    append_extent(alloc, &mut text, sources, report)?;
    Ok(text)
}

/// The same as objects of JSON, one in a line.
fn report_records(
    alloc: Global,
    sources: &ExploredSources<'_>,
    report: &Report,
    seen: &[Seen],
) -> Result<Vec<u8>, AllocError>
    ensures { IfOk result (λ text. IsReportRecords (source_tables sources.now) report.now seen.now text.items) }
{
    let mut text = found_records(alloc, sources, &report.findings, seen)?;
    let coverage = coverage_records(alloc, sources, report)?;
    text.extend_from_slice(&coverage)?;
    let end = end_record(alloc, sources, report)?;
    text.extend_from_slice(&end)?;
    Ok(text)
}

/// What is printed of a report in the form that is asked for.
fn report_in(
    alloc: Global,
    sources: &ExploredSources<'_>,
    report: &Report,
    seen: &[Seen],
) -> Result<Vec<u8>, AllocError>
    ensures { IfOk result (λ text.
        IsReportIn sources.now.named.form (source_tables sources.now) report.now seen.now text.items) }
{
    match sources.named.form {
        Form::Text => report_text(alloc, sources, report, seen),
        Form::Json => report_records(alloc, sources, report, seen),
    }
}

/// The steps text of a finding.
fn steps_text(alloc: Global, finding: &Finding) -> Result<Vec<u8>, AllocError>
    ensures { IfOk result (λ text. text.items ≡ text_of finding.now) }
{
    let mut text = Vec::new(alloc);
    print_steps(&finding.steps, &mut text)?;
    Ok(text)
}

/// The steps texts of findings.
fn steps_texts(alloc: Global, findings: &[Finding]) -> Result<Vec<Vec<u8>>, AllocError>
    ensures { IfOk result (λ texts. map (λ text. text.items) texts.items ≡ map text_of findings.now) }
{
    let mut texts = Vec::new(alloc);
    for finding in findings {
        texts.push(steps_text(alloc, finding)?)?;
    }
    Ok(texts)
}

/// A report of tests by what is seen of the findings, if one is asked for.
fn tests_asked(
    alloc: Global,
    sources: &ExploredSources<'_>,
    report: &Report,
    seen: &[Seen],
) -> Result<Option<Vec<u8>>, AllocError>
    requires { sources.now.sentences.sections + length sources.now.sentences.expected.now < 2 ^ 64 }
    ensures report { IfOk result (λ asked. IfSome asked
        (λ out. IsTestReport (source_tables sources.now) report.now seen.now out.items)) }
    ensures asked { IfOk result (λ asked. is_some asked ≡ sources.now.named.report) }
{
    if !sources.named.report {
        return Ok(None);
    }
    let searched = Searched {
        question: sources.claim.question,
        report,
        seen,
    };
    match search_report(alloc, sources, searched) {
        Ok(out) => Ok(Some(out)),
        Err(error) => Err(error),
    }
}

/// What is printed of a report, its steps texts, a report of tests if one is asked for, and the status, by what is seen
/// of its findings.
fn explored_by(
    alloc: Global,
    sources: &ExploredSources<'_>,
    report: &Report,
    seen: &[Seen],
) -> Result<Explored, AllocError>
    requires places { sources.now.sentences.sections + length sources.now.sentences.expected.now < 2 ^ 64 }
    requires seen { AreSeen (source_tables sources.now) report.now.findings.items seen.now }
    ensures { IfOk result (Tells (source_tables sources.now) report.now) }
{
    let unsaid = counts_unsaid(sources.named.strict, sources.claim.question, report);
    Ok(Explored {
        text: report_in(alloc, sources, report, seen)?,
        steps: steps_texts(alloc, &report.findings)?,
        report: tests_asked(alloc, sources, report, seen)?,
        status: status_of(unsaid, report),
    })
}

/// The same of a report.
fn explored_report(
    alloc: Global,
    sources: &ExploredSources<'_>,
    report: &Report,
) -> Result<Explored, AllocError>
    requires { sources.now.sentences.sections + length sources.now.sentences.expected.now < 2 ^ 64 }
    ensures { IfOk result (Tells (source_tables sources.now) report.now) }
{
    let seen = all_seen(alloc, sources, &report.findings)?;
    explored_by(alloc, sources, report, &seen)
}

/// What a search comes to, by this many threads.
fn searched<W: SearchWatcher, R: Threads + Sync>(
    alloc: Global,
    rt: &R,
    jobs: u32,
    claim: &Claim<'_>,
    watcher: &mut W,
) -> Result<Report, AllocError>
    ensures findings { IfOk result (λ r. All (IsFound claim.now.image.now claim.now.bound claim.now.question.now)
        r.findings.items) }
    ensures holds { IfOk result (λ r. r.holds ≡ true → NothingIsFound claim.now.image.now claim.now.bound
        claim.now.question.now) }
{
    let (image, bound, question) = (claim.image, claim.bound, claim.question);
    if jobs <= 1 {
        return explore(alloc, image, bound, question, watcher);
    }
    explore_beside(alloc, rt, jobs as usize, image, bound, question, watcher)
}

/// Explores the schedules of an image, by this many threads. `AllocError` if there is no memory to begin with, or for
/// what is printed.
pub fn explored_image<W: SearchWatcher, R: Threads + Sync>(
    alloc: Global,
    rt: &R,
    jobs: u32,
    sources: &ExploredSources<'_>,
    watcher: &mut W,
) -> Result<Explored, AllocError>
    requires { sources.now.sentences.sections + length sources.now.sentences.expected.now < 2 ^ 64 }
    ensures { IfOk result (IsExplored (source_tables sources.now)) }
{
    let report = searched(alloc, rt, jobs, &sources.claim, watcher)?;
    let explored = explored_report(alloc, sources, &report);
    drop(report);
    explored
}
