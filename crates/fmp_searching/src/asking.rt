//! What the words of a command that explores want.
ghost use Rattle.std.specs.Prelude.{◌≡◌, IfOk, Ok, false, true};
ghost use Rattle.std.specs.List.{list_all};
ghost use Rattle.fmp_searching.specs.Questions as spec;
ghost use Rattle.fmp_searching.specs.Questions.{IsWanted};

use crate::limits::{are_counts, are_gaps, limits_in};
use crate::words::{CodeAt, Section, never_at_named, never_named, section_named};
use fmp_expect::ExpectationFlaw;
use fmp_explore::{Never, Ticks};
use fmp_monitors::Sentence;
use fmp_schedules::InterruptLimit;
use std::alloc::{AllocError, Global};

/// The words of a command that explores.
#[derive(Clone, Copy)]
pub struct ExploreWords<'a> {
    /// What must never happen, each as `never_named` or `never_at_named` reads it.
    pub nevers: &'a [&'a str],
    /// The sections, each as `section_named` reads it: at most 4.
    pub alone: &'a [&'a str],
    /// The names of the tasks that may wait forever.
    pub rest: &'a [&'a str],
    /// When the clock may advance.
    pub ticks: Ticks,
    /// How many interrupts there may be; any number, if none is given.
    pub interrupts: Option<u8>,
    /// How often single interrupts may come, each as `count_named` reads it.
    pub counts: &'a [&'a str],
    /// How many ticks come between two of a single interrupt, each as `gap_named` reads it.
    pub gaps: &'a [&'a str],
    /// How many activations and how many wakeups of a task may be queued after an event; any number, if none is given.
    pub queued: Option<u8>,
    /// Whether the search goes on after the first finding.
    pub all: bool,
    /// How many states may be kept.
    pub states: u32,
    /// How many seconds the search may take; any number, if none is given.
    pub seconds: Option<u32>,
}

/// Which words of a command are mistaken.
#[derive(Clone, Copy, Debug, PartialEq, Eq)]
pub enum CommandMistake {
    /// A word says nothing of what must never happen.
    Never,
    /// A word names no section, or there are more than 4.
    Alone,
    /// A word does not say how often an interrupt may come.
    Count,
    /// A word does not say how many ticks come between two of an interrupt.
    Gap,
    /// A word is the name of no task.
    Rest,
    /// No call stands in the line that a word names.
    Call,
    /// The line of this number of the text of sentences, from 1, has a flaw.
    Sentence { line: usize, flaw: ExpectationFlaw },
    /// A sentence is about the calls of a line in which none stands.
    SentenceCall,
    /// A sentence is about the end of a run, of which a search knows nothing.
    End,
}

/// The words of a command, and what they say before its files are read.
#[derive(Drop)]
pub struct ExploreChoices<'a> {
    pub asked: ExploreWords<'a>,
    /// What must never happen anywhere, but for faults, which never may.
    pub nevers: Vec<Never>,
    /// The codes that must never be answered to the calls of a line.
    pub nevers_at: Vec<CodeAt>,
    /// The sections in which one task at a time may be.
    pub sections: Vec<Section>,
    /// The limits of single interrupts.
    pub limits: Vec<InterruptLimit>,
}

/// How many sections are watched at most.
const SECTIONS_MAX: usize = 4;

/// Whether a word says what must never happen.
fn is_never(word: &str) -> bool
    ensures { result ≡ spec.is_never word.now }
{
    never_named(word).is_some() || never_at_named(word).is_some()
}

/// Whether each word says what must never happen.
fn are_nevers(words: &[&str]) -> bool
    ensures { result ≡ spec.are_nevers words.now }
{
    for word in words {
        if !is_never(word) {
            return false;
        }
    }
    true
}

/// What the words say must never happen anywhere.
fn nevers_in(alloc: Global, words: &[&str]) -> Result<Vec<Never>, AllocError>
    ensures { IfOk result (λ nevers. nevers.items ≡ spec.nevers_in words.now) }
{
    let mut nevers = Vec::new(alloc);
    for word in words {
        if let Some(never) = never_named(word) {
            nevers.push(never)?;
        }
    }
    Ok(nevers)
}

/// The codes that the words say must never be answered to the calls of a line.
fn codes_in(alloc: Global, words: &[&str]) -> Result<Vec<CodeAt>, AllocError>
    ensures { IfOk result (λ codes. codes.items ≡ spec.codes_in words.now) }
{
    let mut codes = Vec::new(alloc);
    for word in words {
        if let Some(code) = never_at_named(word) {
            codes.push(code)?;
        }
    }
    Ok(codes)
}

/// Whether each word names a section.
fn are_all_sections(words: &[&str]) -> bool
    ensures { result ≡ list_all (λ word. spec.is_section word.now) words.now }
{
    for word in words {
        if section_named(word).is_none() {
            return false;
        }
    }
    true
}

/// The sections that the words name.
fn sections_in(alloc: Global, words: &[&str]) -> Result<Vec<Section>, AllocError>
    ensures { IfOk result (λ sections. sections.items ≡ spec.sections_in words.now) }
{
    let mut sections = Vec::new(alloc);
    for word in words {
        if let Some(section) = section_named(word) {
            sections.push(section)?;
        }
    }
    Ok(sections)
}

/// What the words of a command say before its files are read, or which of them are mistaken: those of the sections are
/// read first, and those of the limits last. `AllocError` if memory runs out.
pub fn wanted_by<'a>(
    alloc: Global,
    asked: &ExploreWords<'a>,
) -> Result<Result<ExploreChoices<'a>, CommandMistake>, AllocError>
    ensures { IfOk result (λ wanted. IsWanted asked.now wanted) }
{
    if !are_all_sections(asked.alone) || asked.alone.len() > SECTIONS_MAX {
        return Ok(Err(CommandMistake::Alone));
    }
    if !are_nevers(asked.nevers) {
        return Ok(Err(CommandMistake::Never));
    }
    if !are_counts(asked.counts) {
        return Ok(Err(CommandMistake::Count));
    }
    if !are_gaps(asked.gaps) {
        return Ok(Err(CommandMistake::Gap));
    }
    Ok(Ok(ExploreChoices {
        asked: *asked,
        nevers: nevers_in(alloc, asked.nevers)?,
        nevers_at: codes_in(alloc, asked.nevers)?,
        sections: sections_in(alloc, asked.alone)?,
        limits: limits_in(alloc, asked.counts, asked.gaps)?,
    }))
}
