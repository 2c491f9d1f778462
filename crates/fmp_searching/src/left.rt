//! What is said of what the steps of a finding leave.
ghost use Rattle.std.specs.Prelude.{◌≡◌, ◌++◌, IfOk, OnOk, Some, codes, option_map, slice_get};
ghost use Rattle.fmp_base.specs.Systems.{tables_of};
ghost use Rattle.fmp_searching.specs.Extent.{said_text, value_of, words_of};
ghost use Rattle.fmp_searching.specs.Said as spec;
ghost use Rattle.fmp_searching.specs.Sources.{source_tables};

use crate::claiming::append_value;
use crate::sentences::append_sentence;
use crate::sources::{ExploredSources, say, say_position};
use fmp_base::{Line, System};
use fmp_expect::Expected;
use fmp_explore::{CallSite, FindingKind, Left, Monitor, SentenceBreach, Started};
use fmp_json::append_number;
use fmp_monitors::{ExpectedDeed, Happening, Sentence, Standing};
use fmp_named::append_task;
use fmp_schedules::MonitorSubject;
use fmp_trace::print;
use std::alloc::{AllocError, Global};

/// A line of the trace, without its line feed.
#[tactic(auto, unfolding(crate::specs::Said::told_text))]
fn told_text(alloc: Global, sys: &System, number: u32, line: Line) -> Result<Vec<u8>, AllocError>
    ensures { IfOk result (λ text. text.items ≡ spec.told_text (tables_of sys.now) number line) }
{
    let mut text = Vec::new(alloc);
    print(sys, number, &[line], &mut text)?;
    text.truncate(text.len().saturating_sub(1));
    Ok(text)
}

/// Appends the line at a place of those that the event of this number told, without its line feed.
fn say_line(
    alloc: Global,
    out: &mut Vec<u8>,
    sys: &System,
    number: u32,
    told: Option<&Line>,
) -> Result<(), AllocError>
    ensures { OnOk result (out.new.items ≡ out.old.items
        ++ spec.line_text (tables_of sys.now) number (option_map (λ l. l.now) told.entry)) }
{
    match told {
        Some(line) => {
            let text = told_text(alloc, sys, number, *line)?;
            out.extend_from_slice(&text)
        }
        None => Ok(()),
    }
}

/// Appends the call in which a task waits, if it does.
fn say_waits(
    out: &mut Vec<u8>,
    sources: &ExploredSources<'_>,
    waits: Option<CallSite>,
) -> Result<(), AllocError>
    ensures { OnOk result (out.new.items ≡ out.old.items ++ spec.waits_text (source_tables sources.now) waits) }
{
    let Some(site) = waits else {
        return Ok(());
    };
    let claim = &sources.claim;
    say(out, " (")?;
    say_position(out, sources, claim.lines.line(claim.image.code(), site))?;
    say(out, ")")
}

/// Appends a task that is started, with the call in which it waits.
fn say_started(
    out: &mut Vec<u8>,
    sources: &ExploredSources<'_>,
    started: Started,
) -> Result<(), AllocError>
    ensures { OnOk result (out.new.items
        ≡ out.old.items ++ spec.started_text (source_tables sources.now) started) }
{
    let sys = sources.claim.image.system();
    append_task(sys, usize::from(started.task), out)?;
    say_waits(out, sources, started.waits)
}

/// Appends a task that is started, after another one.
fn say_next_started(
    out: &mut Vec<u8>,
    sources: &ExploredSources<'_>,
    started: Started,
) -> Result<(), AllocError>
    ensures { OnOk result (out.new.items ≡ out.old.items
        ++ (codes ", " ++ spec.started_text (source_tables sources.now) started)) }
{
    say(out, ", ")?;
    say_started(out, sources, started)
}

/// Appends tasks that are started, each after another one.
fn say_more_started(
    out: &mut Vec<u8>,
    sources: &ExploredSources<'_>,
    started: &[Started],
) -> Result<(), AllocError>
    ensures { OnOk result (out.new.items
        ≡ out.old.items ++ spec.more_started (source_tables sources.now) started.now) }
{
    for task in started {
        say_next_started(out, sources, *task)?;
    }
    Ok(())
}

/// Appends the tasks of a deadlock: a first one, and more.
fn say_tasks(
    out: &mut Vec<u8>,
    sources: &ExploredSources<'_>,
    first: Started,
    more: &[Started],
) -> Result<(), AllocError>
    ensures { OnOk result (out.new.items ≡ out.old.items ++ (codes "deadlock of "
        ++ (spec.started_text (source_tables sources.now) first
        ++ spec.more_started (source_tables sources.now) more.now))) }
{
    say(out, "deadlock of ")?;
    say_started(out, sources, first)?;
    say_more_started(out, sources, more)
}

/// Appends the tasks of a deadlock.
fn say_deadlock(
    out: &mut Vec<u8>,
    sources: &ExploredSources<'_>,
    started: &[Started],
) -> Result<(), AllocError>
    ensures { OnOk result (out.new.items
        ≡ out.old.items ++ spec.deadlock_text (source_tables sources.now) started.now) }
{
    match started {
        [] => Ok(()),
        [first, more @ ..] => say_tasks(out, sources, *first, more),
    }
}

/// Appends that the actor of a processor goes on for ever.
#[tactic(auto, unfolding(crate::specs::Said::endless_text))]
fn say_endless(out: &mut Vec<u8>, processor: u8) -> Result<(), AllocError>
    ensures { OnOk result (out.new.items ≡ out.old.items ++ spec.endless_text processor) }
{
    say(out, "processor ")?;
    append_number(u64::from(processor), out)?;
    say(out, " goes on for ever without a call")
}

/// The value of a happening that somebody puts it.
pub fn value_of(happening: &Happening) -> i32
    ensures { result ≡ value_of happening.now.deed }
{
    match happening.deed {
        ExpectedDeed::Put(value) => value,
        _ => 0,
    }
}

/// Appends that a task is in the section between these values.
#[tactic(auto, unfolding(crate::specs::Said::between_text))]
fn say_between(
    out: &mut Vec<u8>,
    sys: &System,
    task: u8,
    enters: i32,
    leaves: i32,
) -> Result<(), AllocError>
    ensures { OnOk result (out.new.items
        ≡ out.old.items ++ spec.between_text (tables_of sys.now) task enters leaves) }
{
    say(out, ": while ")?;
    append_task(sys, usize::from(task), out)?;
    say(out, " is between put(")?;
    append_value(enters, out)?;
    say(out, ") and put(")?;
    append_value(leaves, out)?;
    say(out, ")")
}

/// Appends that a task is in the section that a sentence is about, if it is about one.
fn say_section_holder(
    out: &mut Vec<u8>,
    sys: &System,
    task: u8,
    sentence: &Sentence,
) -> Result<(), AllocError>
    ensures { OnOk result (out.new.items
        ≡ out.old.items ++ spec.section_holder (tables_of sys.now) task sentence.now) }
{
    match sentence {
        Sentence::OneAtATime { entering, leaving } => {
            say_between(out, sys, task, value_of(entering), value_of(leaving))
        }
        _ => Ok(()),
    }
}

/// Appends that a task is in the section that a monitor watches, if it watches one.
fn say_subject_holder(
    out: &mut Vec<u8>,
    sys: &System,
    task: u8,
    subject: &MonitorSubject,
) -> Result<(), AllocError>
    ensures { OnOk result (out.new.items
        ≡ out.old.items ++ spec.subject_holder (tables_of sys.now) task subject.now) }
{
    match subject {
        MonitorSubject::Sentence(sentence) => say_section_holder(out, sys, task, sentence),
        MonitorSubject::Limit(_) => Ok(()),
    }
}

/// Appends who is in the section that a task entered, which this monitor watches.
fn say_section_breach(
    out: &mut Vec<u8>,
    sys: &System,
    standing: Standing,
    monitor: Option<&Monitor>,
) -> Result<(), AllocError>
    ensures { OnOk result (out.new.items ≡ out.old.items
        ++ spec.section_breach (tables_of sys.now) standing (option_map (λ m. m.now) monitor.entry)) }
{
    match (monitor, standing) {
        (Some(monitor), Standing::Inside(task)) => {
            say_subject_holder(out, sys, task, &monitor.subject)
        }
        (Some(_), Standing::Open | Standing::Held | Standing::Waiting(_)) => Ok(()),
        (None, _) => Ok(()),
    }
}

/// A sentence without the comma and the blank after it.
fn words_of(alloc: Global, sys: &System, sentence: &Sentence) -> Result<Vec<u8>, AllocError>
    ensures { IfOk result (λ text. text.items ≡ words_of (tables_of sys.now) sentence.now) }
{
    let mut text = Vec::new(alloc);
    append_sentence(alloc, sys, sentence, &mut text)?;
    text.truncate(text.len().saturating_sub(2));
    Ok(text)
}

/// Appends a sentence of the file with its line, after what is said of it.
fn say_expected(
    alloc: Global,
    out: &mut Vec<u8>,
    sources: &ExploredSources<'_>,
    said: &Expected,
    of: &str,
) -> Result<(), AllocError>
    ensures { OnOk result (out.new.items
        ≡ out.old.items ++ said_text (source_tables sources.now) of.now (Some said.now)) }
{
    let words = words_of(alloc, sources.claim.configured, &said.sentence)?;
    say(out, sources.sentences.file)?;
    say(out, ":")?;
    append_number(said.line as u64, out)?;
    say(out, ": ")?;
    say(out, of)?;
    out.extend_from_slice(&words)
}

/// Appends a sentence of the file, at this place among them, with its line, and what is said of it.
pub fn say_sentence(
    alloc: Global,
    out: &mut Vec<u8>,
    sources: &ExploredSources<'_>,
    place: usize,
    of: &str,
) -> Result<(), AllocError>
    ensures { OnOk result (out.new.items ≡ out.old.items
        ++ said_text (source_tables sources.now) of.now (slice_get sources.now.sentences.expected.now place)) }
{
    match sources.sentences.expected.get(place) {
        Some(said) => say_expected(alloc, out, sources, said, of),
        None => Ok(()),
    }
}

/// Appends who is inside, if that is what a sentence is about.
fn say_inside(out: &mut Vec<u8>, sys: &System, standing: Standing) -> Result<(), AllocError>
    ensures { OnOk result (out.new.items ≡ out.old.items ++ spec.inside_text (tables_of sys.now) standing) }
{
    match standing {
        Standing::Inside(task) => {
            say(out, ": while ")?;
            append_task(sys, usize::from(task), out)?;
            say(out, " is inside")
        }
        Standing::Open | Standing::Held | Standing::Waiting(_) => Ok(()),
    }
}

/// Appends a sentence of the file that a line broke, and who was inside, if that is what it is about.
fn say_broken(
    alloc: Global,
    out: &mut Vec<u8>,
    sources: &ExploredSources<'_>,
    place: usize,
    standing: Standing,
) -> Result<(), AllocError>
    ensures { OnOk result (out.new.items
        ≡ out.old.items ++ spec.broken_text (source_tables sources.now) place standing) }
{
    say(out, ": ")?;
    say_sentence(alloc, out, sources, place, "")?;
    say_inside(out, sources.claim.image.system(), standing)
}

/// Appends which sentence a line broke, and how.
fn say_breach(
    alloc: Global,
    out: &mut Vec<u8>,
    sources: &ExploredSources<'_>,
    breached: SentenceBreach,
) -> Result<(), AllocError>
    ensures { OnOk result (out.new.items
        ≡ out.old.items ++ spec.breach_text (source_tables sources.now) breached) }
{
    let (place, sections) = (breached.monitor, sources.sentences.sections);
    let standing = breached.breach.standing;
    if place >= sections {
        return say_broken(alloc, out, sources, place - sections, standing);
    }
    let monitor = sources.claim.question.monitors.get(place);
    say_section_breach(out, sources.claim.image.system(), standing, monitor)
}

/// Appends the line that breaks a sentence, which sentence that is, and how.
fn say_breaking_line(
    alloc: Global,
    out: &mut Vec<u8>,
    sources: &ExploredSources<'_>,
    breached: SentenceBreach,
    left: &Left,
) -> Result<(), AllocError>
    ensures { OnOk result (out.new.items ≡ out.old.items ++ spec.left_text (source_tables sources.now)
        (FindingKind.Breach breached) left.now.number left.now.lines.items left.now.started.items) }
{
    let sys = sources.claim.image.system();
    let line = left.lines.get(breached.breach.place);
    say_line(alloc, out, sys, left.number, line)?;
    say_breach(alloc, out, sources, breached)
}

/// Appends what the steps of a finding leave.
pub fn say_left(
    alloc: Global,
    out: &mut Vec<u8>,
    sources: &ExploredSources<'_>,
    kind: FindingKind,
    left: &Left,
) -> Result<(), AllocError>
    ensures { OnOk result (out.new.items ≡ out.old.items ++ spec.left_text (source_tables sources.now) kind
        left.now.number left.now.lines.items left.now.started.items) }
{
    match kind {
        FindingKind::Line(place) => {
            let sys = sources.claim.image.system();
            say_line(alloc, out, sys, left.number, left.lines.get(place))
        }
        FindingKind::Deadlock => say_deadlock(out, sources, &left.started),
        FindingKind::Endless(processor) => say_endless(out, processor),
        FindingKind::Breach(breached) => say_breaking_line(alloc, out, sources, breached, left),
        FindingKind::State(place) => {
            let place = place.saturating_sub(sources.sentences.sections);
            say_sentence(alloc, out, sources, place, "")
        }
        FindingKind::Stuck(_) => Ok(()),
    }
}
