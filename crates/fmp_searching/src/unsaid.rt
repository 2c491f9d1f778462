//! Sentences that say nothing of a search: what they speak of never came.
ghost use Rattle.std.specs.Prelude.{◌≡◌, ◌++◌, ◌&&◌, OnOk, codes};
ghost use Rattle.std.specs.Fmt.{signed_decimal};
ghost use Rattle.fmp_searching.specs.Extent as extent;
ghost use Rattle.fmp_searching.specs.Lines.{numbered};
ghost use Rattle.fmp_searching.specs.Sources.{source_tables};
ghost use Rattle.fmp_searching.specs.Unsaid as spec;

use crate::claiming::append_value;
use crate::left::{say_sentence, value_of};
use crate::sources::{ExploredSources, say};
use fmp_explore::{Ending, Monitor, Question, Report};
use fmp_monitors::{Sentence, has_premise};
use fmp_schedules::MonitorSubject;
use std::alloc::{AllocError, Global};

/// A monitor of a question, and whether what it speaks of came.
#[derive(Clone, Copy)]
pub struct Watched {
    /// Its place among the monitors of the question, from 0.
    pub place: usize,
    pub monitor: Monitor,
    pub came: bool,
}

/// Whether what a monitor watches says nothing, by whether what it speaks of came.
pub fn is_unsaid(subject: &MonitorSubject, came: bool) -> bool
    ensures { result ≡ spec.is_unsaid subject.now came }
{
    match subject {
        MonitorSubject::Sentence(sentence) => !came && has_premise(sentence),
        MonitorSubject::Limit(_) => false,
    }
}

/// Whether one of these monitors says nothing.
#[tactic(auto, using(crate::proofs::UnsaidLists::one_unsaid_at, crate::proofs::UnsaidLists::one_unsaid_end))]
fn is_one_unsaid(monitors: &[Monitor], premises: &[bool]) -> bool
    ensures { result ≡ spec.is_one_unsaid monitors.now premises.now }
{
    let count = monitors.len().min(premises.len());
    for i in 0..count {
        if is_unsaid(&monitors[i].subject, premises[i]) {
            return true;
        }
    }
    false
}

/// Whether a search that ended so has examined every state.
pub fn is_complete(ending: Ending) -> bool
    ensures { result ≡ spec.is_complete ending }
{
    match ending {
        Ending::Complete => true,
        Ending::Found | Ending::StateLimit | Ending::TimeLimit | Ending::OutOfMemory => false,
    }
}

/// Whether a search has examined every state, and what a sentence of the question speaks of never came.
fn has_unsaid(question: &Question, report: &Report) -> bool
    ensures { result ≡ spec.has_unsaid question.now report.now }
{
    is_complete(report.ending) && is_one_unsaid(&question.monitors, &report.premises)
}

/// Whether a sentence that says nothing counts as a finding: there is one, and the search is strict.
pub fn counts_unsaid(strict: bool, question: &Question, report: &Report) -> bool
    ensures { result ≡ (strict && spec.has_unsaid question.now report.now) }
{
    strict && has_unsaid(question, report)
}

/// Appends a section as the command line has it.
fn say_option(out: &mut Vec<u8>, enters: i32, leaves: i32) -> Result<(), AllocError>
    ensures { OnOk result (out.new.items ≡ out.old.items
        ++ (codes "--alone " ++ (signed_decimal enters ++ (codes "," ++ signed_decimal leaves)))) }
{
    say(out, "--alone ")?;
    append_value(enters, out)?;
    say(out, ",")?;
    append_value(leaves, out)
}

/// Appends a value between these texts.
fn say_put(out: &mut Vec<u8>, head: &str, value: i32, tail: &str) -> Result<(), AllocError>
    ensures { OnOk result (out.new.items
        ≡ out.old.items ++ (head.now ++ (signed_decimal value ++ tail.now))) }
{
    say(out, head)?;
    append_value(value, out)?;
    say(out, tail)
}

/// Appends a section as the command line has it, and between these texts the value that enters it.
fn say_section_as(
    out: &mut Vec<u8>,
    enters: i32,
    leaves: i32,
    head: &str,
    tail: &str,
) -> Result<(), AllocError>
    ensures { OnOk result (out.new.items ≡ out.old.items ++ (codes "--alone " ++ (signed_decimal enters
        ++ (codes "," ++ (signed_decimal leaves ++ (head.now ++ (signed_decimal enters ++ tail.now))))))) }
{
    say_option(out, enters, leaves)?;
    say_put(out, head, enters, tail)
}

/// Appends that no task enters a section with these values.
#[tactic(auto, unfolding(crate::specs::Extent::unentered_text))]
fn say_unentered(out: &mut Vec<u8>, enters: i32, leaves: i32) -> Result<(), AllocError>
    ensures { OnOk result (out.new.items ≡ out.old.items ++ extent.unentered_text enters leaves) }
{
    let head = ": never happens at all: put(";
    say_section_as(out, enters, leaves, head, ") by a task\n")
}

/// Appends that no task enters the section of a sentence, if it is of one.
fn say_section(out: &mut Vec<u8>, sentence: &Sentence) -> Result<(), AllocError>
    ensures { OnOk result (out.new.items ≡ out.old.items ++ extent.section_text sentence.now) }
{
    match sentence {
        Sentence::OneAtATime { entering, leaving } => {
            say_unentered(out, value_of(entering), value_of(leaving))
        }
        _ => Ok(()),
    }
}

/// Appends that the sentence at a place says nothing.
fn say_nothing(
    alloc: Global,
    out: &mut Vec<u8>,
    sources: &ExploredSources<'_>,
    place: usize,
    subject: &MonitorSubject,
) -> Result<(), AllocError>
    ensures { OnOk result (out.new.items
        ≡ out.old.items ++ extent.nothing_text (source_tables sources.now) place subject.now) }
{
    let MonitorSubject::Sentence(sentence) = subject else {
        return Ok(());
    };
    let sections = sources.sentences.sections;
    if place < sections {
        return say_section(out, sentence);
    }
    say_sentence(
        alloc,
        out,
        sources,
        place - sections,
        "never happens at all: ",
    )?;
    say(out, "\n")
}

/// Appends that the sentence of a monitor says nothing, if it does.
fn say_unsaid(
    alloc: Global,
    out: &mut Vec<u8>,
    sources: &ExploredSources<'_>,
    watched: Watched,
) -> Result<(), AllocError>
    ensures { OnOk result (out.new.items ≡ out.old.items
        ++ extent.unsaid_line (source_tables sources.now) watched.place watched.monitor watched.came) }
{
    let subject = &watched.monitor.subject;
    if is_unsaid(subject, watched.came) {
        say_nothing(alloc, out, sources, watched.place, subject)
    } else {
        Ok(())
    }
}

/// Appends the sentences of these monitors that say nothing.
#[tactic(auto, using(crate::proofs::SeenLists::numbered_at))]
fn say_each_unsaid(
    alloc: Global,
    out: &mut Vec<u8>,
    sources: &ExploredSources<'_>,
    monitors: &[Monitor],
    premises: &[bool],
) -> Result<(), AllocError>
    ensures { OnOk result (out.new.items ≡ out.old.items
        ++ numbered (λ place m came. extent.unsaid_line (source_tables sources.now) place m came) 0 monitors.now
        premises.now) }
{
    let count = monitors.len().min(premises.len());
    for place in 0..count {
        let (monitor, came) = (monitors[place], premises[place]);
        let watched = Watched {
            place,
            monitor,
            came,
        };
        say_unsaid(alloc, out, sources, watched)?;
    }
    Ok(())
}

/// Appends the sentences of which nothing ever came that they speak of, where every state was examined.
pub fn say_all_unsaid(
    alloc: Global,
    out: &mut Vec<u8>,
    sources: &ExploredSources<'_>,
    report: &Report,
) -> Result<(), AllocError>
    ensures { OnOk result (out.new.items
        ≡ out.old.items ++ extent.unsaid_text (source_tables sources.now) report.now) }
{
    if !is_complete(report.ending) {
        return Ok(());
    }
    say_each_unsaid(
        alloc,
        out,
        sources,
        &sources.claim.question.monitors,
        &report.premises,
    )
}
