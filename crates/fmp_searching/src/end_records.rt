//! How a search ended, for other programs: an object of JSON in a line.
ghost use Rattle.std.specs.Prelude.{◌≡◌, ◌++◌, IfOk, OnOk, map, string_bytes};
ghost use Rattle.std.specs.Str.Lossy.{utf8_lossy};
ghost use Rattle.fmp_searching.specs.Claims.{claim_tables};
ghost use Rattle.fmp_searching.specs.Members.{string_tokens};
ghost use Rattle.fmp_searching.specs.Parts.{claim_parts};
ghost use Rattle.fmp_searching.specs.Records as spec;
ghost use Rattle.fmp_searching.specs.Sources.{source_tables};

use crate::claiming::append_claim;
use crate::ending::{append_end, append_unlooked, status_of};
use crate::parts::parts_of;
use crate::sources::{Claim, ExploredSources};
use crate::unsaid::counts_unsaid;
use fmp_explore::{Question, Report};
use fmp_json::{begin, begin_list, end_list, finish, number_member, text_member};
use json::Writer;
use std::alloc::{AllocError, Global};

/// A text without its last byte, a line feed.
pub fn without_feed(text: Vec<u8>) -> Vec<u8>
    ensures { result.items ≡ spec.without_feed text.items }
{
    let mut text = text;
    text.truncate(text.len().saturating_sub(1));
    text
}

/// What is claimed of a report that holds; else nothing.
fn claimed(alloc: Global, claim: &Claim<'_>, report: &Report) -> Result<Vec<u8>, AllocError>
    ensures { IfOk result (λ text. text.items ≡ spec.claimed_text (claim_tables claim.now) report.now) }
{
    let mut text = Vec::new(alloc);
    if !report.holds {
        return Ok(text);
    }
    append_claim(alloc, claim, report, &mut text)?;
    Ok(text)
}

/// Why a search ended whose report does not hold; else why stuck tasks were not looked for, if they were not.
fn stopped(alloc: Global, question: &Question, report: &Report) -> Result<Vec<u8>, AllocError>
    ensures { IfOk result (λ text. text.items ≡ spec.stopped_text question.now report.now) }
{
    let mut text = Vec::new(alloc);
    if report.holds {
        append_unlooked(question, report.stuck_search, &mut text)?;
        return Ok(text);
    }
    let found = !report.findings.is_empty();
    append_end(question, report.ending, found, &mut text)?;
    Ok(text)
}

/// What is claimed of a report, as a line; empty where nothing is.
fn claim_line(alloc: Global, claim: &Claim<'_>, report: &Report) -> Result<String, AllocError>
    ensures { IfOk result (λ line. string_bytes line ≡ spec.claim_line (claim_tables claim.now) report.now) }
{
    let text = claimed(alloc, claim, report)?;
    String::from_utf8_lossy(alloc, &without_feed(text))
}

/// Why a search claims nothing, or claims something and did not look for stuck tasks, as a line; empty if it did both,
/// or the reason is a finding.
fn stop_line(alloc: Global, question: &Question, report: &Report) -> Result<String, AllocError>
    ensures { IfOk result (λ line. string_bytes line ≡ spec.stop_line question.now report.now) }
{
    let text = stopped(alloc, question, report)?;
    String::from_utf8_lossy(alloc, &without_feed(text))
}

/// Texts as strings.
fn strings_of(alloc: Global, texts: &[Vec<u8>]) -> Result<Vec<String>, AllocError>
    ensures { IfOk result (λ strings. map string_bytes strings.items
        ≡ map (λ text. utf8_lossy text) (map (λ text. text.items) texts.now)) }
{
    let mut strings = Vec::new(alloc);
    for text in texts {
        strings.push(String::from_utf8_lossy(alloc, text)?)?;
    }
    Ok(strings)
}

/// The parts of a claim as strings.
fn part_strings(alloc: Global, claim: &Claim<'_>) -> Result<Vec<String>, AllocError>
    ensures { IfOk result (λ strings. map string_bytes strings.items
        ≡ map (λ part. utf8_lossy part) (claim_parts (claim_tables claim.now))) }
{
    let parts = parts_of(alloc, claim)?;
    strings_of(alloc, &parts)
}

/// Writes strings.
fn write_strings(writer: &mut Writer, strings: &[String]) -> Result<(), AllocError>
    ensures before { writer.new.before ≡ writer.old.before }
    ensures tokens { OnOk result (writer.new.tokens
        ≡ writer.old.tokens ++ string_tokens (map string_bytes strings.now)) }
{
    for string in strings {
        writer.string(string.as_str())?;
    }
    Ok(())
}

/// Writes what a claim is made of.
fn write_parts(writer: &mut Writer, parts: &[String]) -> Result<(), AllocError>
    ensures before { writer.new.before ≡ writer.old.before }
    ensures tokens { OnOk result (writer.new.tokens
        ≡ writer.old.tokens ++ spec.part_members (map string_bytes parts.now)) }
{
    begin_list(writer, "parts")?;
    write_strings(writer, parts)?;
    end_list(writer)
}

/// Writes the status of a search and its claim.
fn write_claim(writer: &mut Writer, status: u8, claim: &str) -> Result<(), AllocError>
    ensures before { writer.new.before ≡ writer.old.before }
    ensures tokens { OnOk result (writer.new.tokens
        ≡ writer.old.tokens ++ spec.claim_members status claim.now) }
{
    text_member(writer, "what", "end")?;
    number_member(writer, "status", u64::from(status))?;
    text_member(writer, "claim", claim)
}

/// Writes why a search ended, and how far it went.
fn write_extent(writer: &mut Writer, stopped: &str, report: &Report) -> Result<(), AllocError>
    ensures before { writer.new.before ≡ writer.old.before }
    ensures tokens { OnOk result (writer.new.tokens
        ≡ writer.old.tokens ++ spec.extent_members stopped.now report.now) }
{
    text_member(writer, "stopped", stopped)?;
    number_member(writer, "states", report.states as u64)?;
    number_member(writer, "events", report.events)?;
    number_member(writer, "depth", u64::from(report.depth))
}

/// What is said of the end of a search, as lines.
#[derive(Drop)]
struct EndLines {
    /// What it claims; empty where that is nothing.
    claim: String,
    /// Why it claims nothing, or did not look for stuck tasks; empty if it did both, or the reason is a finding.
    stopped: String,
    /// The parts of what it claims, or would.
    parts: Vec<String>,
}

/// What is said of the end of a search.
fn end_lines(alloc: Global, claim: &Claim<'_>, report: &Report) -> Result<EndLines, AllocError>
    ensures claim { IfOk result (λ lines.
        string_bytes lines.claim ≡ spec.claim_line (claim_tables claim.now) report.now) }
    ensures stopped { IfOk result (λ lines.
        string_bytes lines.stopped ≡ spec.stop_line claim.now.question.now report.now) }
    ensures parts { IfOk result (λ lines. map string_bytes lines.parts.items
        ≡ map (λ part. utf8_lossy part) (claim_parts (claim_tables claim.now))) }
{
    Ok(EndLines {
        claim: claim_line(alloc, claim, report)?,
        stopped: stop_line(alloc, claim.question, report)?,
        parts: part_strings(alloc, claim)?,
    })
}

/// How a search ended, with these lines, as an object of JSON.
fn end_line(
    alloc: Global,
    status: u8,
    lines: &EndLines,
    report: &Report,
) -> Result<Vec<u8>, AllocError>
    ensures { IfOk result (λ line. line.items ≡ spec.end_line status (string_bytes lines.now.claim)
        (string_bytes lines.now.stopped) (map string_bytes lines.now.parts.items) report.now) }
{
    let mut writer = begin(alloc)?;
    write_claim(&mut writer, status, lines.claim.as_str())?;
    write_parts(&mut writer, &lines.parts)?;
    write_extent(&mut writer, lines.stopped.as_str(), report)?;
    finish(writer)
}

/// How a search ended, as an object of JSON in a line. `AllocError` if memory runs out.
pub fn end_record(
    alloc: Global,
    sources: &ExploredSources<'_>,
    report: &Report,
) -> Result<Vec<u8>, AllocError>
    ensures { IfOk result (λ line. line.items ≡ spec.end_record (source_tables sources.now) report.now) }
{
    let lines = end_lines(alloc, &sources.claim, report)?;
    let unsaid = counts_unsaid(sources.named.strict, sources.claim.question, report);
    end_line(alloc, status_of(unsaid, report), &lines, report)
}
