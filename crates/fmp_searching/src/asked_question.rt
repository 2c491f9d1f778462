//! The question that the words and the sentences of an exploration ask about an image.
ghost use Rattle.std.specs.Prelude.{◌≡◌, ◌++◌, IfOk, OnOk, false, map, true};
ghost use Rattle.fmp_base.specs.Names.{name_text};
ghost use Rattle.fmp_base.specs.Systems.{tables_of};
ghost use Rattle.fmp_searching.specs.Questions as spec;
ghost use Rattle.fmp_searching.specs.Inquiries.{AreKnownIn, AreWanted, Asks, AsksWith, IsAskedBy, Says};

use crate::asking::{CommandMistake, ExploreChoices};
use crate::at_calls::{all_codes, are_called_in, codes_of, nevers_at_of};
use crate::limits::add_limits;
use crate::sites::CallLines;
use crate::words::{CodeAt, Section};
use fmp_base::{Fault, System, TaskConfig};
use fmp_expect::{ExpectFault, Expected, read_other_sentences};
use fmp_explore::{Monitor, Never, Question};
use fmp_image_bytes::Image;
use fmp_monitors::{ExpectedDeed, Happening, Sentence};
use fmp_schedules::InterruptLimit;
use std::alloc::{AllocError, Global};

/// What the words of a command and a text of sentences ask about an image.
#[derive(Clone, Copy)]
pub struct Inquiry<'a> {
    /// The words, which are not mistaken.
    pub wanted: &'a ExploreChoices<'a>,
    /// The text of the sentences.
    pub text: &'a [u8],
    /// The system as its configuration describes it, which names the bodies of handlers.
    pub configured: &'a System,
    /// The image that the configuration and the bodies build.
    pub image: &'a Image,
    /// Where the calls of its bodies stand in their text.
    pub lines: &'a CallLines,
}

/// The faults of bodies, which must never happen.
const FAULTS: [Never; 3] = [
    Never::Fault(Fault::Overflow),
    Never::Fault(Fault::Division),
    Never::Fault(Fault::Index),
];

/// Whether a word is the name of a task.
fn is_task(tasks: &[TaskConfig], word: &str) -> bool
    ensures { result ≡ spec.is_task tasks.now word.now }
{
    for task in tasks {
        if task.name.as_bytes() == word.as_bytes() {
            return true;
        }
    }
    false
}

/// Whether each word is the name of a task.
fn are_tasks(tasks: &[TaskConfig], words: &[&str]) -> bool
    ensures { result ≡ spec.are_tasks tasks.now words.now }
{
    for word in words {
        if !is_task(tasks, word) {
            return false;
        }
    }
    true
}

/// Whether a word is the name of a task.
fn is_named(words: &[&str], task: &TaskConfig) -> bool
    ensures { result ≡ spec.is_named words.now task.now }
{
    for word in words {
        if task.name.as_bytes() == word.as_bytes() {
            return true;
        }
    }
    false
}

/// Whether a sentence says that a task of this name may rest.
fn rests(tasks: &[TaskConfig], task: &TaskConfig, sentence: &Sentence) -> bool
    ensures { result ≡ spec.rests tasks.now (name_text task.now.name) sentence.now }
{
    match sentence {
        Sentence::Rests(place) => match tasks.get(*place) {
            Some(other) => other.name.as_bytes() == task.name.as_bytes(),
            None => false,
        },
        _ => false,
    }
}

/// Whether one of these sentences says that a task of this name may rest.
fn is_resting(tasks: &[TaskConfig], expected: &[Expected], task: &TaskConfig) -> bool
    ensures { result ≡ spec.is_resting tasks.now expected.now task.now }
{
    for said in expected {
        if rests(tasks, task, &said.sentence) {
            return true;
        }
    }
    false
}

/// For each task, whether the words name it, or one of these sentences says that it may rest.
fn marks(
    alloc: Global,
    tasks: &[TaskConfig],
    words: &[&str],
    expected: &[Expected],
) -> Result<Vec<bool>, AllocError>
    ensures { IfOk result (λ rest. rest.items ≡ spec.marks tasks.now tasks.now words.now expected.now) }
{
    let mut rest = Vec::new(alloc);
    for task in tasks {
        rest.push(is_named(words, task) || is_resting(tasks, expected, task))?;
    }
    Ok(rest)
}

/// A happening: that somebody puts a value.
fn putting(value: i32) -> Happening
    ensures { result ≡ spec.putting value }
{
    Happening {
        deed: ExpectedDeed::Put(value),
        by: None,
    }
}

/// The monitor of a section.
fn monitor_of_section(section: &Section) -> Monitor
    ensures { result ≡ spec.monitor_of_section section.now }
{
    Monitor::new(Sentence::OneAtATime {
        entering: putting(section.enters),
        leaving: putting(section.leaves),
    })
}

/// Adds the monitors of sections.
fn add_sections(monitors: &mut Vec<Monitor>, sections: &[Section]) -> Result<(), AllocError>
    ensures { OnOk result (monitors.new.items
        ≡ monitors.old.items ++ map (λ s. spec.monitor_of_section s) sections.now) }
{
    for section in sections {
        monitors.push(monitor_of_section(section))?;
    }
    Ok(())
}

/// Adds the monitors of sentences.
fn add_expected(monitors: &mut Vec<Monitor>, expected: &[Expected]) -> Result<(), AllocError>
    ensures { OnOk result (monitors.new.items
        ≡ monitors.old.items ++ map (λ x. spec.monitor_of x) expected.now) }
{
    for said in expected {
        monitors.push(Monitor::new(said.sentence))?;
    }
    Ok(())
}

/// The monitors of sections, of sentences, and of limits.
fn monitors_of(
    alloc: Global,
    sections: &[Section],
    expected: &[Expected],
    limits: &[InterruptLimit],
) -> Result<Vec<Monitor>, AllocError>
    ensures { IfOk result (λ monitors. monitors.items
        ≡ spec.monitors_of sections.now expected.now limits.now) }
{
    let mut monitors = Vec::new(alloc);
    add_sections(&mut monitors, sections)?;
    add_expected(&mut monitors, expected)?;
    add_limits(&mut monitors, limits)?;
    Ok(monitors)
}

/// What must never happen: faults, and these.
fn with_faults(alloc: Global, nevers: &[Never]) -> Result<Vec<Never>, AllocError>
    ensures { IfOk result (λ all. all.items ≡ spec.faults ++ nevers.now) }
{
    let mut all = Vec::from_slice(alloc, &FAULTS)?;
    all.extend_from_slice(nevers)?;
    Ok(all)
}

/// The question of an inquiry, of these sentences, and of these codes at calls.
fn question_of(
    alloc: Global,
    inquiry: &Inquiry<'_>,
    expected: &[Expected],
    codes: &[CodeAt],
) -> Result<Question, AllocError>
    requires { AreWanted inquiry.now }
    ensures { IfOk result (λ q. AsksWith inquiry.now expected.now codes.now q) }
{
    let (wanted, image) = (inquiry.wanted, inquiry.image);
    let asked = &wanted.asked;
    let codes = all_codes(alloc, &wanted.nevers_at, codes)?;
    Ok(Question {
        nevers: with_faults(alloc, &wanted.nevers)?,
        nevers_at: nevers_at_of(alloc, image, inquiry.lines, &codes)?,
        monitors: monitors_of(alloc, &wanted.sections, expected, &wanted.limits)?,
        rest: marks(alloc, &image.system().tasks, asked.rest, expected)?,
        ticks: asked.ticks,
        interrupts: asked.interrupts,
        queued: asked.queued,
        all: asked.all,
        states: asked.states,
        seconds: asked.seconds,
        after: Vec::new(alloc),
    })
}

/// Whether a sentence is about the end of a run.
pub fn is_end(sentence: &Sentence) -> bool
    ensures { result ≡ spec.is_end sentence.now }
{
    match sentence {
        Sentence::End { .. } => true,
        _ => false,
    }
}

/// Whether one of these sentences is about the end of a run.
fn has_end(expected: &[Expected]) -> bool
    ensures { result ≡ spec.has_end expected.now }
{
    for said in expected {
        if is_end(&said.sentence) {
            return true;
        }
    }
    false
}

/// The question of an inquiry whose text says this, and of its codes at calls, of each of which there is one.
fn called_question(
    alloc: Global,
    inquiry: &Inquiry<'_>,
    expected: &[Expected],
    codes: &[CodeAt],
) -> Result<Question, AllocError>
    requires wanted { AreWanted inquiry.now }
    requires says { Says inquiry.now expected.now }
    requires lasting { spec.has_end expected.now ≡ false }
    requires codes { codes.now ≡ spec.codes_of (tables_of inquiry.now.configured.now) inquiry.now.text.now }
    requires called { spec.are_called inquiry.now.image.now.code inquiry.now.lines.now codes.now ≡ true }
    ensures { IfOk result (λ q. Asks inquiry.now q) }
{
    let question = question_of(alloc, inquiry, expected, codes)?;
    Ok(question)
}

/// The question of an inquiry whose text has these sentences, and of its sentences about calls, unless one of these is
/// about a line without any.
fn question_at_calls(
    alloc: Global,
    inquiry: &Inquiry<'_>,
    expected: &[Expected],
) -> Result<Result<Question, CommandMistake>, AllocError>
    requires wanted { AreWanted inquiry.now }
    requires known { AreKnownIn inquiry.now }
    requires says { Says inquiry.now expected.now }
    requires lasting { spec.has_end expected.now ≡ false }
    ensures { IfOk result (λ asked. IsAskedBy inquiry.now asked) }
{
    let codes = codes_of(alloc, inquiry.configured, inquiry.text)?;
    if !are_called_in(alloc, inquiry.image, inquiry.lines, &codes)? {
        return Ok(Err(CommandMistake::SentenceCall));
    }
    let question = called_question(alloc, inquiry, expected, &codes)?;
    Ok(Ok(question))
}

/// The question of an inquiry whose text has these sentences, unless one of these is about the end of a run.
fn lasting_question(
    alloc: Global,
    inquiry: &Inquiry<'_>,
    expected: &[Expected],
) -> Result<Result<Question, CommandMistake>, AllocError>
    requires wanted { AreWanted inquiry.now }
    requires known { AreKnownIn inquiry.now }
    requires says { Says inquiry.now expected.now }
    ensures { IfOk result (λ asked. IsAskedBy inquiry.now asked) }
{
    if has_end(expected) {
        return Ok(Err(CommandMistake::End));
    }
    question_at_calls(alloc, inquiry, expected)
}

/// The question of an inquiry whose words name tasks, and lines with calls.
fn said_question(
    alloc: Global,
    inquiry: &Inquiry<'_>,
) -> Result<Result<Question, CommandMistake>, AllocError>
    requires wanted { AreWanted inquiry.now }
    requires known { AreKnownIn inquiry.now }
    ensures { IfOk result (λ asked. IsAskedBy inquiry.now asked) }
{
    match read_other_sentences(alloc, inquiry.configured, inquiry.text) {
        Ok(expected) => lasting_question(alloc, inquiry, &expected),
        Err(ExpectFault::Memory) => Err(AllocError),
        Err(ExpectFault::Line { line, flaw }) => Ok(Err(CommandMistake::Sentence { line, flaw })),
    }
}

/// The question of an inquiry, or what is mistaken in it: words that name tasks are read first, and the text last.
/// `AllocError` if memory runs out.
pub fn question_by(
    alloc: Global,
    inquiry: &Inquiry<'_>,
) -> Result<Result<Question, CommandMistake>, AllocError>
    requires { AreWanted inquiry.now }
    ensures { IfOk result (λ asked. IsAskedBy inquiry.now asked) }
{
    let wanted = inquiry.wanted;
    if !are_tasks(&inquiry.image.system().tasks, wanted.asked.rest) {
        return Ok(Err(CommandMistake::Rest));
    }
    if !are_called_in(alloc, inquiry.image, inquiry.lines, &wanted.nevers_at)? {
        return Ok(Err(CommandMistake::Call));
    }
    said_question(alloc, inquiry)
}
