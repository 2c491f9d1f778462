//! What is found in the texts that are open, as diagnostics.
ghost use Rattle.std.specs.Prelude.{◌≡◌, ◌+◌, ◌-◌, ◌≤◌, ◌∷◌, [], IfOk, OnOk, length, min};
ghost use Rattle.fmp_server.specs.Findings.{AreFaults, AreFindings, IsMarked, IsTold};
ghost use Rattle.fmp_server.specs.Messages.{Adds};
ghost use Rattle.fmp_server.specs.Workspaces.{AreNotifications};

use crate::documents::{Document, OpenTexts};
use crate::messages::{begin_notification, finish};
use crate::positions::{TextRange, line_start, position_in};
use crate::writing::range_member;
use fmp_cfgparse::read_cfg;
use fmp_diagnosis::{FaultReport, Texts, finding_at};
use fmp_json::{begin_list, number_member, text_member};
use fmp_lex::{BuildFault, TextFile};
use fmp_tasklang::read_tasks;
use fmp_warnings::{
    ROUNDS, TextsFault, TextsVerdict, ToldFault, Warning, found_in, further_faults, warnings_of,
};
use json::Writer;
use std::alloc::{AllocError, Global};

/// The severity of a fault, as the protocol has it.
const ERROR: u64 = 1;

/// That of a warning.
const WARNING: u64 = 2;

/// How many bytes of texts are read at most to find the faults after the first one: an editor waits for the answer.
const READ_MAX: usize = 1 << 19;

/// What is found in the texts of a system.
#[derive(Drop)]
pub enum Found {
    /// Their faults, the first one first.
    Faults(Vec<ToldFault>),
    /// They have none: the warnings.
    Warnings(Vec<Warning>),
}

/// The fault that a reader ends with.
fn fault_in(fault: BuildFault) -> Result<Option<TextsFault>, AllocError> {
    match fault {
        BuildFault::Memory => Err(AllocError),
        BuildFault::At(file, position, kind) => Ok(Some(TextsFault {
            file,
            position,
            kind,
        })),
    }
}

/// The first fault of a configuration without bodies.
fn fault_of_configuration(alloc: Global, cfg: &[u8]) -> Result<Option<TextsFault>, AllocError> {
    match read_cfg(alloc, cfg) {
        Ok(system) => {
            drop(system);
            Ok(None)
        }
        Err(fault) => fault_in(fault),
    }
}

/// The first fault of the syntax of a task text without a configuration.
fn fault_of_bodies(alloc: Global, src: &[u8]) -> Result<Option<TextsFault>, AllocError> {
    match read_tasks(alloc, src) {
        Ok(program) => {
            drop(program);
            Ok(None)
        }
        Err(fault) => fault_in(fault),
    }
}

/// The first fault of the one text that is open.
fn fault_of_one(alloc: Global, open: OpenTexts<'_>) -> Result<Option<TextsFault>, AllocError> {
    let cfg = open.bytes_of(TextFile::Configuration);
    let src = open.bytes_of(TextFile::Source);
    if open.cfg.is_some() {
        fault_of_configuration(alloc, cfg)
    } else {
        fault_of_bodies(alloc, src)
    }
}

/// What is told of a fault.
fn told_of(alloc: Global, texts: Texts<'_>, fault: TextsFault) -> Result<ToldFault, AllocError>
    ensures { IfOk result (IsTold texts.entry fault) }
{
    let file = fault.file;
    let finding = finding_at(alloc, texts, file, fault.position, fault.kind)?;
    Ok(ToldFault { file, finding })
}

/// How many constructs of two texts may be left out; after each of them the texts are read again.
fn rounds_for(texts: Texts<'_>) -> u32 {
    let bytes = texts.cfg.len().saturating_add(texts.src.len()).max(1);
    (READ_MAX / bytes).min(ROUNDS as usize) as u32
}

/// What is told of two texts of which this is the first fault: that one, and those after it, fewer of long texts.
fn faults_of_both(
    alloc: Global,
    texts: Texts<'_>,
    fault: TextsFault,
) -> Result<Vec<ToldFault>, AllocError>
    ensures { IfOk result (λ told. AreFaults texts.entry fault told.items) }
{
    let mut told = further_faults(alloc, texts, fault, rounds_for(texts))?;
    let first = told_of(alloc, texts, fault)?;
    told.insert(0, first)?;
    Ok(told)
}

/// What is found in two texts: their faults, or else their warnings.
fn findings_of_both(alloc: Global, texts: Texts<'_>) -> Result<Found, AllocError>
    ensures { IfOk result (AreFindings texts.entry) }
{
    match found_in(alloc, texts.cfg, texts.src)? {
        TextsVerdict::Faulty(fault) => Ok(Found::Faults(faults_of_both(alloc, texts, fault)?)),
        TextsVerdict::Sound(_) => Ok(Found::Warnings(warnings_of(alloc, texts)?)),
    }
}

/// What is found in the one text that is open: its first fault.
fn findings_of_one(
    alloc: Global,
    open: OpenTexts<'_>,
    texts: Texts<'_>,
) -> Result<Found, AllocError> {
    let mut told = Vec::new(alloc);
    if let Some(fault) = fault_of_one(alloc, open)? {
        told.push(told_of(alloc, texts, fault)?)?;
    }
    Ok(Found::Faults(told))
}

/// What is found in the texts that are open: if both are, their faults, or else their warnings; if one is, its first
/// fault. `AllocError` if memory runs out.
pub fn findings_of(alloc: Global, open: OpenTexts<'_>) -> Result<Found, AllocError> {
    let texts = Texts {
        cfg: open.bytes_of(TextFile::Configuration),
        src: open.bytes_of(TextFile::Source),
    };
    if open.are_both() {
        findings_of_both(alloc, texts)
    } else {
        findings_of_one(alloc, open, texts)
    }
}

/// The byte of a column, from 1, of the line that begins at a byte of a text; the text's end if that is before it.
fn byte_of(text: &[u8], begin: usize, column: usize) -> usize
    requires { begin ≤ length text.now }
    ensures { result ≡ min (begin + (column - 1)) (length text.now) }
{
    begin
        .saturating_add(column.saturating_sub(1))
        .min(text.len())
}

/// What a finding marks of its text.
fn marked(text: &[u8], finding: &FaultReport) -> TextRange
    ensures { IsMarked text.now finding.now result }
{
    let line = u64::from(finding.line).saturating_sub(1);
    let begin = line_start(text, line);
    TextRange {
        start: position_in(text, line, byte_of(text, begin, finding.excerpt.column)),
        end: position_in(text, line, byte_of(text, begin, finding.end)),
    }
}

/// Writes the code of a fault.
#[tactic(auto, using(crate::proofs::Adding::adding))]
fn write_code(alloc: Global, writer: &mut Writer, finding: &FaultReport) -> Result<(), AllocError>
    ensures before { writer.new.before ≡ writer.old.before }
    ensures tokens { OnOk result (Adds writer.old.tokens writer.new.tokens) }
{
    let mut code = String::from_str(alloc, finding.code)?;
    code.push_str(finding.refusal)?;
    text_member(writer, "code", code.as_str())
}

/// Writes what is said of a finding of this severity.
#[tactic(auto, using(crate::proofs::Adding::adding))]
fn write_said(
    alloc: Global,
    writer: &mut Writer,
    severity: u64,
    finding: &FaultReport,
) -> Result<(), AllocError>
    ensures before { writer.new.before ≡ writer.old.before }
    ensures tokens { OnOk result (Adds writer.old.tokens writer.new.tokens) }
{
    number_member(writer, "severity", severity)?;
    if severity == ERROR {
        write_code(alloc, writer, finding)?;
    }
    text_member(writer, "source", "fmp")?;
    let sentence = String::from_utf8_lossy(alloc, &finding.sentence)?;
    text_member(writer, "message", sentence.as_str())
}

/// Writes a finding of a text as a diagnostic.
#[tactic(auto, using(crate::proofs::Adding::adding))]
fn write_diagnostic(
    alloc: Global,
    writer: &mut Writer,
    text: &[u8],
    severity: u64,
    finding: &FaultReport,
) -> Result<(), AllocError>
    ensures before { writer.new.before ≡ writer.old.before }
    ensures tokens { OnOk result (Adds writer.old.tokens writer.new.tokens) }
{
    writer.begin_object()?;
    range_member(writer, "range", marked(text, finding))?;
    write_said(alloc, writer, severity, finding)?;
    writer.end_object()
}

/// Writes the faults of one text as diagnostics.
#[tactic(auto, using(crate::proofs::Adding::adding))]
fn write_faults(
    alloc: Global,
    writer: &mut Writer,
    text: &[u8],
    file: TextFile,
    faults: &[ToldFault],
) -> Result<(), AllocError>
    ensures before { writer.new.before ≡ writer.old.before }
    ensures tokens { OnOk result (Adds writer.old.tokens writer.new.tokens) }
{
    for one in faults {
        if one.file == file {
            write_diagnostic(alloc, writer, text, ERROR, &one.finding)?;
        }
    }
    Ok(())
}

/// Writes the warnings of one text as diagnostics.
#[tactic(auto, using(crate::proofs::Adding::adding))]
fn write_warnings(
    alloc: Global,
    writer: &mut Writer,
    text: &[u8],
    file: TextFile,
    warnings: &[Warning],
) -> Result<(), AllocError>
    ensures before { writer.new.before ≡ writer.old.before }
    ensures tokens { OnOk result (Adds writer.old.tokens writer.new.tokens) }
{
    for one in warnings {
        if one.file == file {
            write_diagnostic(alloc, writer, text, WARNING, &one.finding)?;
        }
    }
    Ok(())
}

/// Writes what is found in one text as diagnostics.
#[tactic(auto, using(crate::proofs::Adding::adding))]
fn write_diagnostics(
    alloc: Global,
    writer: &mut Writer,
    text: &[u8],
    file: TextFile,
    found: &Found,
) -> Result<(), AllocError>
    ensures before { writer.new.before ≡ writer.old.before }
    ensures tokens { OnOk result (Adds writer.old.tokens writer.new.tokens) }
{
    begin_list(writer, "diagnostics")?;
    match found {
        Found::Faults(faults) => write_faults(alloc, writer, text, file, faults)?,
        Found::Warnings(warnings) => write_warnings(alloc, writer, text, file, warnings)?,
    }
    writer.end_array()
}

/// Writes what is found in the text of a document.
#[tactic(auto, using(crate::proofs::Adding::adding))]
fn write_document(
    alloc: Global,
    writer: &mut Writer,
    document: &Document,
    file: TextFile,
    found: &Found,
) -> Result<(), AllocError>
    ensures before { writer.new.before ≡ writer.old.before }
    ensures tokens { OnOk result (Adds writer.old.tokens writer.new.tokens) }
{
    writer.begin_object()?;
    text_member(writer, "uri", document.uri.as_str())?;
    write_diagnostics(alloc, writer, document.text.as_bytes(), file, found)?;
    writer.end_object()
}

/// The notification of what is found in the text of a document, which is this one of its system. `AllocError` if memory
/// runs out.
pub fn published(
    alloc: Global,
    document: &Document,
    file: TextFile,
    found: &Found,
) -> Result<Vec<u8>, AllocError>
    ensures { IfOk result (λ bytes. AreNotifications (bytes.items ∷ [])) }
{
    let mut writer = begin_notification(alloc, "textDocument/publishDiagnostics")?;
    write_document(alloc, &mut writer, document, file, found)?;
    finish(writer)
}

/// Writes that nothing is found in the document of a URI.
#[tactic(auto, using(crate::proofs::Adding::adding))]
fn write_nothing(writer: &mut Writer, uri: &str) -> Result<(), AllocError>
    ensures before { writer.new.before ≡ writer.old.before }
    ensures tokens { OnOk result (Adds writer.old.tokens writer.new.tokens) }
{
    writer.begin_object()?;
    text_member(writer, "uri", uri)?;
    begin_list(writer, "diagnostics")?;
    writer.end_array()?;
    writer.end_object()
}

/// The notification that nothing is found in the document of a URI, because it is open no more. `AllocError` if memory
/// runs out.
pub fn cleared(alloc: Global, uri: &str) -> Result<Vec<u8>, AllocError>
    ensures { IfOk result (λ bytes. AreNotifications (bytes.items ∷ [])) }
{
    let mut writer = begin_notification(alloc, "textDocument/publishDiagnostics")?;
    write_nothing(&mut writer, uri)?;
    finish(writer)
}
