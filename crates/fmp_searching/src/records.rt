//! What a search came to, for other programs: objects of JSON, one in a line.
ghost use Rattle.std.specs.Prelude.{◌≡◌, ◌++◌, IfOk, OnOk, option_and_then, option_map, slice_get, string_bytes};
ghost use Rattle.fmp_searching.specs.Lines.{numbered};
ghost use Rattle.fmp_searching.specs.Members as members;
ghost use Rattle.fmp_searching.specs.Records as spec;
ghost use Rattle.fmp_searching.specs.Sources.{source_tables};
ghost use Rattle.fmp_searching.specs.declared.seen.SeenKind.TheVariants as kind;

use crate::seen::{Seen, SeenKind};
use crate::sources::ExploredSources;
use crate::steps_files::steps_name_of;
use fmp_explore::{CallSite, Finding};
use fmp_frames::CallPosition;
use fmp_json::{append, begin, finish, number_member, text_member};
use json::Writer;
use std::alloc::{AllocError, Global};

/// Where a call or the head of a body stands in the text of the bodies, as far as that is known.
#[derive(Clone, Copy)]
pub struct RecordPosition {
    pub line: Option<u64>,
    pub column: Option<u64>,
}

/// A finding with its texts.
#[derive(Drop)]
pub struct FoundRecord {
    /// From 1.
    pub number: usize,
    pub kind: SeenKind,
    /// The line, in its file, of the sentence that is broken, if one is.
    pub sentence: Option<u64>,
    /// The call to which it belongs, if it belongs to one.
    pub position: Option<RecordPosition>,
    /// What is seen after its steps.
    pub text: String,
    /// How many steps it has.
    pub steps: usize,
    /// The file of its steps.
    pub steps_file: String,
}

/// Where the call stands that has this position, as far as that is known.
fn known_position(position: Option<CallPosition>) -> RecordPosition
    ensures { result ≡ members.known_position position }
{
    match position {
        Some(CallPosition { line, column }) => RecordPosition {
            line: Some(u64::from(line)),
            column: Some(column as u64),
        },
        None => RecordPosition {
            line: None,
            column: None,
        },
    }
}

/// Where a call stands.
pub fn call_position(sources: &ExploredSources<'_>, site: CallSite) -> RecordPosition
    ensures { result ≡ members.call_position (source_tables sources.now) site }
{
    let code = sources.claim.image.code();
    known_position(sources.claim.lines.position(code, site.body, site.pc))
}

/// Where the head of a body stands.
fn head_position(sources: &ExploredSources<'_>, site: CallSite) -> RecordPosition
    ensures { result ≡ spec.record_position (source_tables sources.now) kind.Endless site }
{
    let line = match sources.claim.lines.head(site.body) {
        Some(line) => Some(u64::from(line)),
        None => None,
    };
    RecordPosition { line, column: None }
}

/// Where the call of a finding stands; of a body that goes on for ever its head.
pub fn position_of(sources: &ExploredSources<'_>, kind: SeenKind, site: CallSite) -> RecordPosition
    ensures { result ≡ spec.record_position (source_tables sources.now) kind site }
{
    match kind {
        SeenKind::Endless => head_position(sources, site),
        _ => call_position(sources, site),
    }
}

/// The line of the first of these sentences about calls.
fn first_line(sources: &ExploredSources<'_>, call_sentences: &[usize]) -> Option<u64>
    ensures { result ≡ option_and_then (λ place. option_map (λ x. x.line)
        (slice_get (source_tables sources.now).call_sentences place)) (slice_get call_sentences.now 0) }
{
    sources
        .sentences
        .call_sentence_line(*call_sentences.get(0)?)
}

/// The line of the sentence that is broken, if one is.
fn sentence_line(sources: &ExploredSources<'_>, seen: &Seen) -> Option<u64>
    ensures { result ≡ spec.sentence_line (source_tables sources.now) seen.now.kind
        seen.now.call_sentences.items }
{
    match seen.kind {
        SeenKind::Sentence(place) => sources.sentences.line(place),
        _ => first_line(sources, &seen.call_sentences),
    }
}

/// Where the call of a finding stands, if it belongs to one.
fn seen_position(sources: &ExploredSources<'_>, seen: &Seen) -> Option<RecordPosition>
    ensures { result ≡ option_map
        (λ site. spec.record_position (source_tables sources.now) seen.now.kind site) seen.now.site }
{
    match seen.site {
        Some(site) => Some(position_of(sources, seen.kind, site)),
        None => None,
    }
}

/// A finding of this number with its texts.
fn found_of(
    alloc: Global,
    sources: &ExploredSources<'_>,
    number: usize,
    finding: &Finding,
    seen: &Seen,
) -> Result<FoundRecord, AllocError>
    ensures { IfOk result (λ found. spec.found_record found
        ≡ spec.finding_record (source_tables sources.now) number finding.now seen.now) }
{
    Ok(FoundRecord {
        number,
        kind: seen.kind,
        sentence: sentence_line(sources, seen),
        position: seen_position(sources, seen),
        text: String::from_utf8_lossy(alloc, &seen.text)?,
        steps: finding.steps.len(),
        steps_file: steps_name_of(alloc, sources.named.out, number)?,
    })
}

/// What a finding breaks, in a word.
fn kind_word(kind: SeenKind) -> &'static str
    ensures { result.now ≡ spec.kind_word kind }
{
    match kind {
        SeenKind::Never => "never",
        SeenKind::Fault => "fault",
        SeenKind::Alone(_) => "alone",
        SeenKind::Sentence(_) | SeenKind::CallSentence(_) => "sentence",
        SeenKind::Deadlock => "deadlock",
        SeenKind::Endless => "endless",
        SeenKind::Stuck => "stuck",
    }
}

/// Writes a member whose value is a number, if there is one.
pub fn write_number(writer: &mut Writer, name: &str, number: Option<u64>) -> Result<(), AllocError>
    ensures before { writer.new.before ≡ writer.old.before }
    ensures tokens { OnOk result (writer.new.tokens
        ≡ writer.old.tokens ++ members.number_or_none name.now number) }
{
    match number {
        Some(number) => number_member(writer, name, number),
        None => Ok(()),
    }
}

/// Writes where a call stands, if there is one.
pub fn write_position(
    writer: &mut Writer,
    position: Option<RecordPosition>,
) -> Result<(), AllocError>
    ensures before { writer.new.before ≡ writer.old.before }
    ensures tokens { OnOk result (writer.new.tokens ≡ writer.old.tokens ++ members.position_members position) }
{
    let Some(position) = position else {
        return Ok(());
    };
    write_number(writer, "line", position.line)?;
    write_number(writer, "column", position.column)
}

/// Writes what a finding breaks.
fn write_kind(writer: &mut Writer, found: &FoundRecord) -> Result<(), AllocError>
    ensures before { writer.new.before ≡ writer.old.before }
    ensures tokens { OnOk result (writer.new.tokens ≡ writer.old.tokens
        ++ spec.kind_members found.now.number found.now.kind found.now.sentence) }
{
    text_member(writer, "what", "finding")?;
    number_member(writer, "number", found.number as u64)?;
    text_member(writer, "kind", kind_word(found.kind))?;
    write_number(writer, "sentence", found.sentence)
}

/// Writes what is seen of a finding, how many steps lead there, and where these are.
fn write_seen(writer: &mut Writer, found: &FoundRecord) -> Result<(), AllocError>
    ensures before { writer.new.before ≡ writer.old.before }
    ensures tokens { OnOk result (writer.new.tokens ≡ writer.old.tokens
        ++ spec.seen_members (string_bytes found.now.text) found.now.steps
        (string_bytes found.now.steps_file)) }
{
    text_member(writer, "text", found.text.as_str())?;
    number_member(writer, "steps", found.steps as u64)?;
    text_member(writer, "in", found.steps_file.as_str())
}

/// A finding as an object of JSON.
fn found_record(alloc: Global, found: &FoundRecord) -> Result<Vec<u8>, AllocError>
    ensures { IfOk result (λ line. line.items ≡ spec.found_record found.now) }
{
    let mut writer = begin(alloc)?;
    write_kind(&mut writer, found)?;
    write_position(&mut writer, found.position)?;
    write_seen(&mut writer, found)?;
    finish(writer)
}

/// A finding of this number as an object of JSON.
fn finding_record(
    alloc: Global,
    sources: &ExploredSources<'_>,
    number: usize,
    finding: &Finding,
    seen: &Seen,
) -> Result<Vec<u8>, AllocError>
    ensures { IfOk result (λ line. line.items
        ≡ spec.finding_record (source_tables sources.now) number finding.now seen.now) }
{
    let found = found_of(alloc, sources, number, finding, seen)?;
    found_record(alloc, &found)
}

/// The findings of a search, of which this is seen, as objects of JSON, one in a line, in their order. `AllocError` if
/// memory runs out.
#[tactic(auto, using(crate::proofs::SeenLists::numbered_at))]
pub fn found_records(
    alloc: Global,
    sources: &ExploredSources<'_>,
    findings: &[Finding],
    seen: &[Seen],
) -> Result<Vec<u8>, AllocError>
    ensures { IfOk result (λ text. text.items
        ≡ numbered (λ number f x. spec.finding_record (source_tables sources.now) number f x) 1 findings.now
        seen.now) }
{
    let mut out = Vec::new(alloc);
    let count = findings.len().min(seen.len());
    for i in 0..count {
        let record = finding_record(alloc, sources, i + 1, &findings[i], &seen[i])?;
        append(&record, &mut out)?;
    }
    Ok(out)
}
