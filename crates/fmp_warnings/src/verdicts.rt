//! What is shown of the texts of a system, and of the steps of a run of it: the faults, or the warnings.
ghost use Rattle.std.specs.Prelude.{◌≡◌, ◌++◌, IfOk, Ok, Some, flat_map};
ghost use Rattle.fmp_warnings.specs.declared.verdicts.TextsVerdict.TheVariants as found;
ghost use Rattle.fmp_warnings.specs.Verdicts as spec;
ghost use Rattle.fmp_warnings.specs.Verdicts.{AreWarnings, HasStepFault, IsFound, IsShown, IsShownOf};
ghost use Rattle.fmp_warnings.specs.Verdicts.{faults_text, warnings_text};

use crate::found::Warning;
use crate::further::{ROUNDS, ToldFault, further_faults};
use crate::idle::idle_steps;
use crate::warnings::warnings_of;
use fmp_diagnosis::{FaultReport, StepFlaw, Texts, finding_at, step_finding};
use fmp_image::build;
use fmp_lex::{BuildFault, FaultKind, TextFile, TokenPosition};
use fmp_trace::{StepsFault, read_steps};
use std::alloc::{AllocError, Global};

/// How findings are printed.
#[derive(Clone, Copy)]
pub enum Form {
    /// For readers: a sentence, and the line of the text with marks.
    Text,
    /// For programs: an object of JSON a line.
    Json,
}

/// The names of the files of a system's texts and of steps.
#[derive(Clone, Copy)]
pub struct FileNames<'a> {
    /// The file of the configuration.
    pub cfg: &'a str,
    /// The file of the bodies.
    pub src: &'a str,
    /// The file of the steps; empty where there are none.
    pub steps: &'a str,
}

/// How findings are printed, and under which names.
#[derive(Clone, Copy)]
struct Style<'a> {
    form: Form,
    names: FileNames<'a>,
}

/// The first fault of two texts.
#[derive(Clone, Copy)]
pub struct TextsFault {
    pub file: TextFile,
    pub position: TokenPosition,
    pub kind: FaultKind,
}

/// What two texts are found to be.
#[derive(Clone, Copy)]
pub enum TextsVerdict {
    /// They have this fault.
    Faulty(TextsFault),
    /// They build the image of a system with this many processors.
    Sound(u8),
}

/// The first fault of a steps text: the number of its line, and what is wrong there.
#[derive(Clone, Copy)]
pub struct StepFault {
    pub line: u32,
    pub flaw: StepFlaw,
}

/// What is shown.
#[derive(Drop)]
pub enum Shown {
    /// There is a fault: what is said of it.
    Faulty(Vec<u8>),
    /// There is none: the warnings.
    Sound(Vec<u8>),
}

impl Shown {
    /// What is printed.
    pub fn text(&self) -> &[u8] {
        match self {
            Shown::Faulty(text) | Shown::Sound(text) => text,
        }
    }

    /// The program's status if all of it is printed, as for `fmp check`: 1 where there is a fault, else 0.
    pub fn status(&self) -> u8
        ensures { result ≡ spec.status self.now }
    {
        match self {
            Shown::Faulty(_) => 1,
            Shown::Sound(_) => 0,
        }
    }
}

/// The first fault of two texts, or how many processors their system has.
pub fn found_in(alloc: Global, cfg: &[u8], src: &[u8]) -> Result<TextsVerdict, AllocError>
    ensures { IfOk result (IsFound cfg.now src.now) }
{
    match build(alloc, cfg, src) {
        Ok(image) => {
            let processors = image.system().processors;
            drop(image);
            Ok(TextsVerdict::Sound(processors))
        }
        Err(BuildFault::Memory) => Err(AllocError),
        Err(BuildFault::At(file, position, kind)) => Ok(TextsVerdict::Faulty(TextsFault {
            file,
            position,
            kind,
        })),
    }
}

/// A fault of the line of this number.
fn at_line(line: u32, flaw: StepFlaw) -> Result<Option<StepFault>, AllocError>
    ensures { result ≡ Ok (Some (record { line = line; flaw = flaw })) }
{
    Ok(Some(StepFault { line, flaw }))
}

/// The first fault of a steps text for this many processors; none if it has none.
fn step_fault(alloc: Global, text: &[u8], processors: u8) -> Result<Option<StepFault>, AllocError>
    ensures { IfOk result (HasStepFault processors text.now) }
{
    match read_steps(alloc, text, processors) {
        Ok(_events) => Ok(None),
        Err(StepsFault::Memory) => Err(AllocError),
        Err(StepsFault::Line { line }) => at_line(line, StepFlaw::Form),
        Err(StepsFault::Range { line }) => at_line(line, StepFlaw::Range(processors)),
        Err(StepsFault::TooMany { line }) => at_line(line, StepFlaw::TooMany),
    }
}

/// The name of a file.
fn name_of<'a>(names: FileNames<'a>, file: TextFile) -> &'a str
    ensures { result.now ≡ spec.name_of names.entry file }
{
    match file {
        TextFile::Configuration => names.cfg,
        TextFile::Source => names.src,
    }
}

/// A finding in the text of a file of this name, as it is printed.
fn printed(
    alloc: Global,
    form: Form,
    name: &str,
    finding: &FaultReport,
) -> Result<Vec<u8>, AllocError>
    ensures { IfOk result (λ out. out.items ≡ spec.printed form name.now finding.now) }
{
    match form {
        Form::Text => finding.report(alloc, name),
        Form::Json => finding.record(alloc, name),
    }
}

/// Warnings, as they are printed, one after the other.
fn printed_warnings(
    alloc: Global,
    style: Style<'_>,
    warnings: &[Warning],
) -> Result<Vec<u8>, AllocError>
    ensures { IfOk result (λ out. out.items ≡ warnings_text style.entry.form style.entry.names warnings.now) }
{
    let mut out = Vec::new(alloc);
    for warning in warnings {
        let text = printed(
            alloc,
            style.form,
            name_of(style.names, warning.file),
            &warning.finding,
        )?;
        out.extend_from_slice(&text)?;
    }
    Ok(out)
}

/// Findings in the text of a file of this name, as they are printed, one after the other.
fn printed_findings(
    alloc: Global,
    form: Form,
    name: &str,
    findings: &[FaultReport],
) -> Result<Vec<u8>, AllocError>
    ensures { IfOk result (λ out. out.items ≡ flat_map (spec.printed form name.now) findings.now) }
{
    let mut out = Vec::new(alloc);
    for finding in findings {
        let text = printed(alloc, form, name, finding)?;
        out.extend_from_slice(&text)?;
    }
    Ok(out)
}

/// Warnings of texts and findings of steps, as they are printed, one after the other.
fn printed_both(
    alloc: Global,
    style: Style<'_>,
    warnings: &[Warning],
    idle: &[FaultReport],
) -> Result<Vec<u8>, AllocError>
    ensures { IfOk result (λ out. out.items ≡ warnings_text style.entry.form style.entry.names warnings.now
        ++ flat_map (spec.printed style.entry.form style.entry.names.steps.now) idle.now) }
{
    let mut out = printed_warnings(alloc, style, warnings)?;
    let text = printed_findings(alloc, style.form, style.names.steps, idle)?;
    out.extend_from_slice(&text)?;
    Ok(out)
}

/// The warnings of two texts and of steps for this many processors, none of which has a fault, as they are printed.
fn printed_sound(
    alloc: Global,
    style: Style<'_>,
    texts: Texts<'_>,
    steps: &[u8],
    processors: u8,
) -> Result<Vec<u8>, AllocError>
    ensures { IfOk result (λ out. AreWarnings style.entry.form style.entry.names texts.entry steps.now out.items) }
{
    let warnings = warnings_of(alloc, texts)?;
    let idle = idle_steps(alloc, texts.cfg, steps, processors)?;
    let out = printed_both(alloc, style, &warnings, &idle)?;
    Ok(out)
}

/// What is shown of steps for this many processors, and of two texts that have no fault: the first fault of the steps,
/// or the warnings.
fn shown_of_steps(
    alloc: Global,
    style: Style<'_>,
    texts: Texts<'_>,
    steps: &[u8],
    processors: u8,
) -> Result<Shown, AllocError>
    ensures { IfOk result
        (IsShownOf style.entry.form style.entry.names texts.entry steps.now (found.Sound processors)) }
{
    if let Some(fault) = step_fault(alloc, steps, processors)? {
        let finding = step_finding(alloc, steps, fault.line, fault.flaw)?;
        return Ok(Shown::Faulty(printed(alloc, style.form, style.names.steps, &finding)?));
    }
    let out = printed_sound(alloc, style, texts, steps, processors)?;
    Ok(Shown::Sound(out))
}

/// The faults of two texts, as they are printed, one after the other.
fn printed_faults(
    alloc: Global,
    style: Style<'_>,
    faults: &[ToldFault],
) -> Result<Vec<u8>, AllocError>
    ensures { IfOk result (λ out. out.items ≡ faults_text style.entry.form style.entry.names faults.now) }
{
    let mut out = Vec::new(alloc);
    for fault in faults {
        let text = printed(
            alloc,
            style.form,
            name_of(style.names, fault.file),
            &fault.finding,
        )?;
        out.extend_from_slice(&text)?;
    }
    Ok(out)
}

/// A fault of this text and those after it, as they are printed.
fn printed_with(
    alloc: Global,
    style: Style<'_>,
    file: TextFile,
    finding: &FaultReport,
    further: &[ToldFault],
) -> Result<Vec<u8>, AllocError>
    ensures { IfOk result (λ out. out.items
        ≡ spec.printed style.entry.form (spec.name_of style.entry.names file) finding.now
        ++ faults_text style.entry.form style.entry.names further.now) }
{
    let mut out = printed(alloc, style.form, name_of(style.names, file), finding)?;
    let text = printed_faults(alloc, style, further)?;
    out.extend_from_slice(&text)?;
    Ok(out)
}

/// What is shown of two texts with this first fault: the fault, and those after it.
fn shown_of(
    alloc: Global,
    style: Style<'_>,
    texts: Texts<'_>,
    steps: &[u8],
    fault: TextsFault,
) -> Result<Shown, AllocError>
    ensures { IfOk result (IsShownOf style.entry.form style.entry.names texts.entry steps.now (found.Faulty fault)) }
{
    let finding = finding_at(alloc, texts, fault.file, fault.position, fault.kind)?;
    let further = further_faults(alloc, texts, fault, ROUNDS)?;
    let out = printed_with(alloc, style, fault.file, &finding, &further)?;
    Ok(Shown::Faulty(out))
}

/// What is said of the faults of two texts, the first one first, or else of the first fault of steps, which are empty
/// where there are none; or the warnings of the texts, and then those of the steps. `AllocError` if memory runs out.
pub fn shown_fault(
    alloc: Global,
    form: Form,
    names: FileNames<'_>,
    texts: Texts<'_>,
    steps: &[u8],
) -> Result<Shown, AllocError>
    ensures { IfOk result (IsShown form names.entry texts.entry steps.now) }
{
    let style = Style { form, names };
    match found_in(alloc, texts.cfg, texts.src)? {
        TextsVerdict::Faulty(fault) => shown_of(alloc, style, texts, steps, fault),
        TextsVerdict::Sound(processors) => shown_of_steps(alloc, style, texts, steps, processors),
    }
}
