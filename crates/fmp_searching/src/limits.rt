//! Limits of single interrupts, as words say them, and as a claim does.
ghost use Rattle.std.specs.Prelude.{◌≡◌, ◌++◌, IfOk, OnOk};
ghost use Rattle.fmp_searching.specs.Limits as spec;

use crate::words::{number_named, parts_at_colon};
use fmp_explore::Monitor;
use fmp_json::{append, append_number};
use fmp_schedules::{InterruptLimit, MonitorSubject};
use std::alloc::{AllocError, Global};

/// The place of the interrupt that a text numbers, from 1 to 32.
#[tactic(auto, unfolding(crate::specs::Limits::interrupt_named))]
fn interrupt_named(text: &str) -> Option<u8>
    ensures { result ≡ spec.interrupt_named text.now }
{
    let number = number_named(text)?;
    if number == 0 || number > 32 {
        return None;
    }
    Some((number - 1) as u8)
}

/// The limit of a word as `3:2`: at most two of interrupt 3. None if the word is not of this form.
#[tactic(auto, unfolding(crate::specs::Limits::count_named))]
pub fn count_named(word: &str) -> Option<InterruptLimit>
    ensures { result ≡ spec.count_named word.now }
{
    let (first, second) = parts_at_colon(word)?;
    let interrupt = interrupt_named(first)?;
    let count = number_named(second)?;
    Some(InterruptLimit::AtMost { interrupt, count })
}

/// The limit of a word as `3:5`: at least five ticks between two of interrupt 3. None if the word is not of this form.
#[tactic(auto, unfolding(crate::specs::Limits::gap_named))]
pub fn gap_named(word: &str) -> Option<InterruptLimit>
    ensures { result ≡ spec.gap_named word.now }
{
    let (first, second) = parts_at_colon(word)?;
    let interrupt = interrupt_named(first)?;
    let ticks = number_named(second)?;
    Some(InterruptLimit::Apart { interrupt, ticks })
}

/// Whether each word says how often an interrupt may come.
pub(crate) fn are_counts(words: &[&str]) -> bool
    ensures { result ≡ spec.are_counts words.now }
{
    for word in words {
        if count_named(word).is_none() {
            return false;
        }
    }
    true
}

/// Whether each word says how many ticks come between two of an interrupt.
pub(crate) fn are_gaps(words: &[&str]) -> bool
    ensures { result ≡ spec.are_gaps words.now }
{
    for word in words {
        if gap_named(word).is_none() {
            return false;
        }
    }
    true
}

/// Adds how often interrupts may come, as words say.
fn add_counts(words: &[&str], limits: &mut Vec<InterruptLimit>) -> Result<(), AllocError>
    ensures { OnOk result (limits.new.items ≡ limits.old.items ++ spec.counts_in words.now) }
{
    for word in words {
        if let Some(limit) = count_named(word) {
            limits.push(limit)?;
        }
    }
    Ok(())
}

/// Adds how many ticks come between two of an interrupt, as words say.
fn add_gaps(words: &[&str], limits: &mut Vec<InterruptLimit>) -> Result<(), AllocError>
    ensures { OnOk result (limits.new.items ≡ limits.old.items ++ spec.gaps_in words.now) }
{
    for word in words {
        if let Some(limit) = gap_named(word) {
            limits.push(limit)?;
        }
    }
    Ok(())
}

/// The limits that the words of both options name.
pub(crate) fn limits_in(
    alloc: Global,
    counts: &[&str],
    gaps: &[&str],
) -> Result<Vec<InterruptLimit>, AllocError>
    ensures { IfOk result (λ limits. limits.items ≡ spec.limits_in counts.now gaps.now) }
{
    let mut limits = Vec::new(alloc);
    add_counts(counts, &mut limits)?;
    add_gaps(gaps, &mut limits)?;
    Ok(limits)
}

/// Adds the monitors of limits.
pub(crate) fn add_limits(
    monitors: &mut Vec<Monitor>,
    limits: &[InterruptLimit],
) -> Result<(), AllocError>
    ensures { OnOk result (monitors.new.items ≡ monitors.old.items ++ spec.monitors_of limits.now) }
{
    for limit in limits {
        monitors.push(Monitor::limiting(*limit))?;
    }
    Ok(())
}

/// The word for this many ticks.
#[tactic(auto, unfolding(crate::specs::Limits::tick_word))]
fn tick_word(count: u32) -> &'static [u8]
    ensures { result.now ≡ spec.tick_word count }
{
    if count == 1 { b" tick" } else { b" ticks" }
}

/// Appends of which interrupt something is said.
#[tactic(auto, unfolding(crate::specs::Limits::interrupt_text))]
fn append_interrupt(interrupt: u8, out: &mut Vec<u8>) -> Result<(), AllocError>
    ensures { OnOk result (out.new.items ≡ out.old.items ++ spec.interrupt_text interrupt) }
{
    append(b" of interrupt ", out)?;
    append_number(u64::from(interrupt) + 1, out)
}

/// Appends how often an interrupt may come.
#[tactic(auto, unfolding(crate::specs::Limits::count_text))]
fn append_count(interrupt: u8, count: u32, out: &mut Vec<u8>) -> Result<(), AllocError>
    ensures { OnOk result (out.new.items ≡ out.old.items ++ spec.count_text interrupt count) }
{
    append(b", with at most ", out)?;
    append_number(u64::from(count), out)?;
    append_interrupt(interrupt, out)
}

/// Appends how many ticks come between two of an interrupt.
#[tactic(auto, unfolding(crate::specs::Limits::gap_text))]
fn append_gap(interrupt: u8, ticks: u32, out: &mut Vec<u8>) -> Result<(), AllocError>
    ensures { OnOk result (out.new.items ≡ out.old.items ++ spec.gap_text interrupt ticks) }
{
    append(b", with at least ", out)?;
    append_number(u64::from(ticks), out)?;
    append(tick_word(ticks), out)?;
    append(b" between two", out)?;
    append_interrupt(interrupt, out)
}

/// Appends a limit.
fn append_limit(limit: InterruptLimit, out: &mut Vec<u8>) -> Result<(), AllocError>
    ensures { OnOk result (out.new.items ≡ out.old.items ++ spec.limit_text limit) }
{
    match limit {
        InterruptLimit::AtMost { interrupt, count } => append_count(interrupt, count, out),
        InterruptLimit::Apart { interrupt, ticks } => append_gap(interrupt, ticks, out),
    }
}

/// Appends the limit of a monitor, if it is of one.
fn append_subject(subject: &MonitorSubject, out: &mut Vec<u8>) -> Result<(), AllocError>
    ensures { OnOk result (out.new.items ≡ out.old.items ++ spec.subject_text subject.now) }
{
    match subject {
        MonitorSubject::Sentence(_) => Ok(()),
        MonitorSubject::Limit(limit) => append_limit(*limit, out),
    }
}

/// Appends how often, and how soon again, single interrupts may come.
#[tactic(auto, unfolding(crate::specs::Limits::limits_text))]
pub(crate) fn append_limits(monitors: &[Monitor], out: &mut Vec<u8>) -> Result<(), AllocError>
    ensures { OnOk result (out.new.items ≡ out.old.items ++ spec.limits_text monitors.now) }
{
    for monitor in monitors {
        append_subject(&monitor.subject, out)?;
    }
    Ok(())
}
