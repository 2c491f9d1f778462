//! What is seen after the steps of a finding, and the call to which it belongs.
ghost use Rattle.std.specs.Prelude.{◌≡◌, ◌<◌, ◌++◌, IfOk, IfSome, OnOk, false, length, option_map, slice_get, true};
ghost use Rattle.fmp_searching.specs.Claims.{claim_tables};
ghost use Rattle.fmp_searching.specs.Said.{first_broken, left_text};
ghost use Rattle.fmp_searching.specs.Seen as spec;
ghost use Rattle.fmp_searching.specs.Sources.{source_tables};

use crate::call_sentences::{broken_by, is_forbidden, say_call_sentence};
use crate::left::say_left;
use crate::sources::ExploredSources;
use crate::stuck::{HeldUp, held_up};
use crate::stuck_words::append_stuck;
use fmp_base::Line;
use fmp_explore::{CallSite, Finding, FindingKind, Left, left_by};
use std::alloc::{AllocError, Global};

/// What a finding breaks.
#[derive(Clone, Copy)]
pub enum SeenKind {
    /// A line tells what must never happen.
    Never,
    /// A body stops with a fault.
    Fault,
    /// A task enters a section of the command line in which another one is. It stands at this place among the sentences
    /// of the question.
    Alone(usize),
    /// The sentence of the file is broken that stands at this place among those of the question.
    Sentence(usize),
    /// A call is answered what the sentence forbids that stands at this place among those of the file about calls.
    CallSentence(usize),
    /// No processor can do anything.
    Deadlock,
    /// A body goes on for ever without a call.
    Endless,
    /// A task can never go on.
    Stuck,
}

/// What is seen after the steps of a finding.
#[derive(Drop)]
pub struct Seen {
    /// The kind of the finding.
    pub found: FindingKind,
    pub kind: SeenKind,
    /// The places of the sentences of the file about calls that are broken, beside what the command line forbids too.
    pub call_sentences: Vec<usize>,
    /// The call to which it belongs, if it belongs to one.
    pub site: Option<CallSite>,
    /// What is said of it, without that call.
    pub text: Vec<u8>,
}

/// What is broken where the sentence at a place is, of which the first are those of sections.
fn kind_at(sections: usize, place: usize) -> SeenKind
    ensures { result ≡ spec.kind_at sections place }
{
    if place < sections {
        SeenKind::Alone(place)
    } else {
        SeenKind::Sentence(place)
    }
}

/// What a line breaks: a fault is one; what only a sentence about calls forbids has its place here.
fn line_kind(line: Option<&Line>, broken: Option<usize>) -> SeenKind
    ensures line { spec.is_line result ≡ true }
    ensures kind { result ≡ spec.line_kind (option_map (λ l. l.now) line.entry) broken }
{
    if let Some(Line::Fault { .. }) = line {
        return SeenKind::Fault;
    }
    match broken {
        Some(place) => SeenKind::CallSentence(place),
        None => SeenKind::Never,
    }
}

/// What a finding breaks whose last step told these lines; what only a sentence about calls forbids has its place here.
#[tactic(auto, using(crate::proofs::SameKinds::same_self))]
fn kind_by(sections: usize, kind: FindingKind, told: &[Line], broken: Option<usize>) -> SeenKind
    ensures broken { spec.breaks sections kind result ≡ true }
    ensures kind { result ≡ spec.kind_by sections kind told.now broken }
{
    match kind {
        FindingKind::Line(place) => line_kind(told.get(place), broken),
        FindingKind::Deadlock => SeenKind::Deadlock,
        FindingKind::Endless(_) => SeenKind::Endless,
        FindingKind::Breach(breached) => kind_at(sections, breached.monitor),
        FindingKind::State(place) => kind_at(sections, place),
        FindingKind::Stuck(_) => SeenKind::Stuck,
    }
}

/// What a finding breaks: of sentences about calls which, and what it breaks first of all that is asked.
#[derive(Drop)]
struct Broken {
    sentences: Vec<usize>,
    kind: SeenKind,
}

/// What only a sentence about calls forbids, of those that a finding breaks whose last step told these lines.
fn sentence_alone(
    sources: &ExploredSources<'_>,
    finding: &Finding,
    told: &[Line],
    broken: &[usize],
) -> Option<usize>
    requires { broken.now ≡ spec.broken_sentences (source_tables sources.now) finding.now told.now }
    ensures { result ≡ spec.sentence_alone (source_tables sources.now) finding.now told.now }
{
    if is_forbidden(sources, finding, told) {
        return None;
    }
    match broken.get(0) {
        Some(place) => Some(*place),
        None => None,
    }
}

/// What a finding breaks whose last step told these lines.
fn broken_of(
    alloc: Global,
    sources: &ExploredSources<'_>,
    finding: &Finding,
    told: &[Line],
) -> Result<Broken, AllocError>
    ensures { IfOk result (spec.IsBroken (source_tables sources.now) finding.now told.now) }
{
    let sentences = broken_by(alloc, sources, finding, told)?;
    let alone = sentence_alone(sources, finding, told, &sentences);
    let kind = kind_by(sources.sentences.sections, finding.kind, told, alone);
    Ok(Broken { sentences, kind })
}

/// Appends the first of these sentences about calls, which a finding breaks, with its line in the file.
fn say_first_broken(
    out: &mut Vec<u8>,
    sources: &ExploredSources<'_>,
    broken: &[usize],
) -> Result<(), AllocError>
    ensures { OnOk result (out.new.items
        ≡ out.old.items ++ first_broken (source_tables sources.now) broken.now) }
{
    match broken {
        [] => Ok(()),
        [place, ..] => say_call_sentence(out, sources, *place),
    }
}

/// What is said of what the steps of a finding leave, which breaks these sentences about calls.
fn left_said(
    alloc: Global,
    sources: &ExploredSources<'_>,
    kind: FindingKind,
    left: &Left,
    broken: &[usize],
) -> Result<Vec<u8>, AllocError>
    ensures { IfOk result (λ text. text.items ≡ left_text (source_tables sources.now) kind left.now.number
        left.now.lines.items left.now.started.items ++ first_broken (source_tables sources.now) broken.now) }
{
    let mut text = Vec::new(alloc);
    say_left(alloc, &mut text, sources, kind, left)?;
    say_first_broken(&mut text, sources, broken)?;
    Ok(text)
}

/// What the steps of a finding leave; nothing where that is not known.
fn shown_left(
    alloc: Global,
    sources: &ExploredSources<'_>,
    finding: &Finding,
) -> Result<Left, AllocError>
    ensures { IfOk result (spec.IsShown (claim_tables sources.now.claim) finding.now) }
{
    let claim = &sources.claim;
    match left_by(alloc, claim.image, claim.bound, &finding.steps)? {
        Some(left) => Ok(left),
        None => Ok(Left {
            number: 0,
            lines: Vec::new(alloc),
            started: Vec::new(alloc),
        }),
    }
}

/// What is seen of a finding, whose steps leave this.
fn seen_of_left(
    alloc: Global,
    sources: &ExploredSources<'_>,
    finding: &Finding,
    left: &Left,
) -> Result<Seen, AllocError>
    requires shown { spec.IsShown (claim_tables sources.now.claim) finding.now left.now }
    requires others { spec.is_stuck finding.now.kind ≡ false }
    ensures { IfOk result (spec.IsSeen (source_tables sources.now) finding.now) }
{
    let broken = broken_of(alloc, sources, finding, &left.lines)?;
    let text = left_said(alloc, sources, finding.kind, left, &broken.sentences)?;
    Ok(Seen {
        found: finding.kind,
        kind: broken.kind,
        call_sentences: broken.sentences,
        site: finding.site,
        text,
    })
}

/// What is seen of a finding that is no stuck task.
fn seen_left(
    alloc: Global,
    sources: &ExploredSources<'_>,
    finding: &Finding,
) -> Result<Seen, AllocError>
    requires { spec.is_stuck finding.now.kind ≡ false }
    ensures { IfOk result (spec.IsSeen (source_tables sources.now) finding.now) }
{
    let left = shown_left(alloc, sources, finding)?;
    seen_of_left(alloc, sources, finding, &left)
}

/// The call to which a stuck task belongs: the one by which it spins, or else its last one.
fn held_site(finding: &Finding, held: &HeldUp) -> Option<CallSite>
    ensures { result ≡ spec.held_site held.now.spun finding.now.site }
{
    match held.spun {
        Some(spun) => Some(spun.site),
        None => finding.site,
    }
}

/// What is said of a task that can never go on.
fn stuck_text(
    alloc: Global,
    sources: &ExploredSources<'_>,
    held: &HeldUp,
    task: u8,
) -> Result<Vec<u8>, AllocError>
    ensures { IfOk result (λ text. text.items
        ≡ spec.held_text (source_tables sources.now).claim.image.system task held.now) }
{
    let lock = match held.spun {
        Some(spun) => Some(spun.lock),
        None => None,
    };
    let mut text = Vec::new(alloc);
    let sys = sources.claim.image.system();
    append_stuck(sys, usize::from(task), &held.block, lock, &mut text)?;
    Ok(text)
}

/// The call of a task that can never go on, and what is said of it.
fn stuck_call(
    alloc: Global,
    sources: &ExploredSources<'_>,
    finding: &Finding,
    task: u8,
) -> Result<(Option<CallSite>, Vec<u8>), AllocError>
    ensures { IfOk result (λ said. spec.IsStuckSaid (source_tables sources.now) finding.now task said.0 said.1.items) }
{
    let claim = &sources.claim;
    match held_up(alloc, claim.image, claim.bound, &finding.steps, task)? {
        Some(held) => Ok((
            held_site(finding, &held),
            stuck_text(alloc, sources, &held, task)?,
        )),
        None => Ok((None, Vec::new(alloc))),
    }
}

/// What is seen of a finding that is a stuck task.
fn seen_stuck(
    alloc: Global,
    sources: &ExploredSources<'_>,
    finding: &Finding,
    task: u8,
) -> Result<Seen, AllocError>
    requires { finding.now.kind ≡ FindingKind.Stuck task }
    ensures { IfOk result (spec.IsSeen (source_tables sources.now) finding.now) }
{
    let (site, text) = stuck_call(alloc, sources, finding, task)?;
    Ok(Seen {
        found: FindingKind::Stuck(task),
        kind: SeenKind::Stuck,
        call_sentences: Vec::new(alloc),
        site,
        text,
    })
}

/// What is seen after the steps of a finding. `AllocError` if memory runs out.
pub fn seen_of(
    alloc: Global,
    sources: &ExploredSources<'_>,
    finding: &Finding,
) -> Result<Seen, AllocError>
    ensures { IfOk result (spec.IsSeen (source_tables sources.now) finding.now) }
{
    match finding.kind {
        FindingKind::Stuck(task) => seen_stuck(alloc, sources, finding, task),
        FindingKind::Line(_)
        | FindingKind::Deadlock
        | FindingKind::Endless(_)
        | FindingKind::Breach(_)
        | FindingKind::State(_) => seen_left(alloc, sources, finding),
    }
}

/// What is seen of the finding at a place among these.
fn seen_at(
    alloc: Global,
    sources: &ExploredSources<'_>,
    findings: &[Finding],
    place: usize,
) -> Result<Seen, AllocError>
    requires { place < length findings.now }
    ensures { IfOk result (λ seen. IfSome (slice_get findings.now place)
        (λ finding. spec.IsSeen (source_tables sources.now) finding seen)) }
{
    seen_of(alloc, sources, &findings[place])
}

/// What is seen of each finding, in their order. `AllocError` if memory runs out.
pub fn all_seen(
    alloc: Global,
    sources: &ExploredSources<'_>,
    findings: &[Finding],
) -> Result<Vec<Seen>, AllocError>
    ensures { IfOk result (λ all. spec.AreSeen (source_tables sources.now) findings.now all.items) }
{
    let mut all = Vec::new(alloc);
    for i in 0..findings.len() {
        all.push(seen_at(alloc, sources, findings, i)?)?;
    }
    Ok(all)
}
