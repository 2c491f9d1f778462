//! Which sentences of a file about calls a finding breaks.
ghost use Rattle.std.specs.Prelude.{◌≡◌, ◌++◌, IfOk, OnOk, Some, option_and_then, option_map, slice_get, take};
ghost use Rattle.fmp_base.specs.Systems.{tables_of};
ghost use Rattle.fmp_question.specs.Forbidden.{is_same_code as same_code};
ghost use Rattle.fmp_searching.specs.Claims.{claim_tables};
ghost use Rattle.fmp_searching.specs.Said as said;
ghost use Rattle.fmp_searching.specs.Seen as spec;
ghost use Rattle.fmp_searching.specs.Sources.{source_tables};

use crate::sources::{ExploredSources, say};
use fmp_base::{Caller, Er, Line, System};
use fmp_expect::CallSentence;
use fmp_explore::{CallSite, Finding, FindingKind, NeverAt};
use fmp_json::append_number;
use fmp_named::append_task;
use fmp_question::first_forbidden;
use std::alloc::{AllocError, Global};

/// An answer: its code, and the place of the task that gets it, if one does.
#[derive(Clone, Copy)]
pub struct Answer {
    pub code: Er,
    pub task: Option<u8>,
}

/// The task that a caller is, if it is one.
fn task_of(caller: Caller) -> Option<u8>
    ensures { result ≡ spec.task_of caller }
{
    match caller {
        Caller::Task(task) => Some(task),
        Caller::Handler(_) => None,
    }
}

/// The answer that a line tells.
fn answer_told(line: &Line) -> Option<Answer>
    ensures { result ≡ spec.answer_told line.now }
{
    match line {
        Line::Call {
            caller,
            reply: Some(reply),
            ..
        } => Some(Answer {
            code: reply.code,
            task: task_of(*caller),
        }),
        Line::Gets { task, reply, .. } => Some(Answer {
            code: reply.code,
            task: Some(*task),
        }),
        _ => None,
    }
}

/// Whether two codes are one.
fn is_same_code(one: Er, other: Er) -> bool
    ensures { result ≡ same_code one other }
{
    one == other
}

/// Whether the answers to this task are meant, if it is a task and some task's are.
fn is_meant(by: Option<usize>, task: Option<u8>) -> bool
    ensures { result ≡ spec.is_meant by task }
{
    match (by, task) {
        (None, _) => true,
        (Some(task), Some(other)) => task == usize::from(other),
        (Some(_), None) => false,
    }
}

/// Whether a sentence forbids an answer to a call in this line.
fn forbids_answer(never: &CallSentence, line: u32, answer: Answer) -> bool
    ensures { result ≡ spec.forbids_answer line answer never.now }
{
    never.at == line && is_same_code(never.code, answer.code) && is_meant(never.by, answer.task)
}

/// The places of the sentences that forbid an answer to a call in this line.
#[tactic(auto, using(crate::proofs::SeenLists::forbidding_at_place))]
fn forbidding(
    alloc: Global,
    sentences: &[CallSentence],
    line: u32,
    answer: Answer,
) -> Result<Vec<usize>, AllocError>
    ensures { IfOk result (λ places. places.items ≡ spec.forbidding line answer 0 sentences.now) }
{
    let mut places = Vec::new(alloc);
    for place in 0..sentences.len() {
        if forbids_answer(&sentences[place], line, answer) {
            places.push(place)?;
        }
    }
    Ok(places)
}

/// The line of the trace that a finding is about, of those that its last step told, if it is about one.
fn line_found<'a>(kind: FindingKind, told: &'a [Line]) -> Option<&'a Line>
    ensures { option_map (λ line. line.now) result ≡ spec.line_found kind told.now }
{
    match kind {
        FindingKind::Line(place) => told.get(place),
        _ => None,
    }
}

/// The answer that a finding tells whose last step told these lines.
fn answer_found(kind: FindingKind, told: &[Line]) -> Option<Answer>
    ensures { result ≡ option_and_then spec.answer_told (spec.line_found kind told.now) }
{
    answer_told(line_found(kind, told)?)
}

/// The line of the call to which a finding belongs.
fn call_line(sources: &ExploredSources<'_>, finding: &Finding) -> Option<u32>
    ensures { result ≡ spec.call_line (claim_tables sources.now.claim) finding.now }
{
    let claim = &sources.claim;
    claim.lines.line(claim.image.code(), finding.site?)
}

/// The places of the sentences that a finding breaks whose last step told these lines. `AllocError` if memory runs out.
pub fn broken_by(
    alloc: Global,
    sources: &ExploredSources<'_>,
    finding: &Finding,
    told: &[Line],
) -> Result<Vec<usize>, AllocError>
    ensures { IfOk result (λ places.
        places.items ≡ spec.broken_sentences (source_tables sources.now) finding.now told.now) }
{
    let Some(answer) = answer_found(finding.kind, told) else {
        return Ok(Vec::new(alloc));
    };
    match call_line(sources, finding) {
        Some(line) => forbidding(alloc, sources.sentences.call_sentences, line, answer),
        None => Ok(Vec::new(alloc)),
    }
}

/// Whether two positions of calls are one.
fn is_same_site(one: CallSite, other: CallSite) -> bool
    ensures { result ≡ spec.is_same_site one other }
{
    one.body == other.body && one.pc == other.pc
}

/// Whether one of these answers at calls is this one.
fn is_among(nevers: &[NeverAt], site: CallSite, answer: Answer) -> bool
    ensures { result ≡ spec.is_among nevers.now site answer }
{
    for never in nevers {
        if is_same_code(never.code, answer.code) && is_same_site(never.site, site) {
            return true;
        }
    }
    false
}

/// The answers at calls that the command line forbids.
fn nevers_of_words<'a>(sources: &ExploredSources<'a>) -> &'a [NeverAt]
    ensures { result.now ≡ take sources.now.sentences.nevers_at sources.now.claim.question.now.nevers_at.items }
{
    let nevers = &sources.claim.question.nevers_at;
    let count = sources.sentences.nevers_at.min(nevers.len());
    &nevers[..count]
}

/// Whether the command line forbids this answer to this call.
fn is_at_call(sources: &ExploredSources<'_>, site: Option<CallSite>, answer: Option<Answer>) -> bool
    ensures { result ≡ spec.is_at_call
        (take sources.now.sentences.nevers_at sources.now.claim.question.now.nevers_at.items) site answer }
{
    match (site, answer) {
        (Some(site), Some(answer)) => is_among(nevers_of_words(sources), site, answer),
        _ => false,
    }
}

/// Whether the command line forbids what a line tells, which belongs to this call.
fn is_line_forbidden(sources: &ExploredSources<'_>, site: Option<CallSite>, line: &Line) -> bool
    ensures { result ≡ spec.is_line_forbidden (source_tables sources.now) site (Some line.now) }
{
    first_forbidden(sources.claim.question, line).is_some()
        || is_at_call(sources, site, answer_told(line))
}

/// Whether the command line forbids what a finding tells whose last step told these lines.
pub fn is_forbidden(sources: &ExploredSources<'_>, finding: &Finding, told: &[Line]) -> bool
    ensures { result ≡ spec.is_forbidden (source_tables sources.now) finding.now told.now }
{
    match line_found(finding.kind, told) {
        Some(line) => is_line_forbidden(sources, finding.site, line),
        None => false,
    }
}

/// Appends whose answers are meant, if some task's are.
fn say_by(out: &mut Vec<u8>, sys: &System, by: Option<usize>) -> Result<(), AllocError>
    ensures { OnOk result (out.new.items ≡ out.old.items ++ said.by_text (tables_of sys.now) by) }
{
    match by {
        Some(task) => {
            say(out, " by ")?;
            append_task(sys, task, out)
        }
        None => Ok(()),
    }
}

/// Appends a sentence about calls, with its line in the file.
#[tactic(auto, unfolding(crate::specs::Said::never_text))]
fn say_never(
    out: &mut Vec<u8>,
    sources: &ExploredSources<'_>,
    never: &CallSentence,
) -> Result<(), AllocError>
    ensures { OnOk result (out.new.items
        ≡ out.old.items ++ said.never_text (source_tables sources.now) never.now) }
{
    say(out, ": ")?;
    say(out, sources.sentences.file)?;
    say(out, ":")?;
    append_number(never.line as u64, out)?;
    say(out, ": never ")?;
    say(out, never.code.name())?;
    say_by(out, sources.claim.image.system(), never.by)?;
    say(out, " at ")?;
    append_number(u64::from(never.at), out)
}

/// Appends the sentence at a place among those about calls, with its line in the file.
pub fn say_call_sentence(
    out: &mut Vec<u8>,
    sources: &ExploredSources<'_>,
    place: usize,
) -> Result<(), AllocError>
    ensures { OnOk result (out.new.items ≡ out.old.items ++ said.call_sentence_text (source_tables sources.now)
        (slice_get sources.now.sentences.call_sentences.now place)) }
{
    match sources.sentences.call_sentences.get(place) {
        Some(never) => say_never(out, sources, never),
        None => Ok(()),
    }
}
