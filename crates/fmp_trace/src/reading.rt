//! The reader of steps texts.
ghost use Rattle.std.specs.Prelude.{◌≡◌, ◌==◌, ◌<◌, ◌≤◌, ◌+◌, [], ◌∷◌, ◌≢◌, length, position, IfOk, IfErr, IfSome, Ok};
ghost use Rattle.std.specs.Prelude.{Err, MatchOption, None, Some};
ghost use Rattle.fmp_trace.specs.Steps.{behind, line_meaning, lines_of, event_of_line, events_of, in_front, steps_of};
ghost use Rattle.fmp_trace.specs.Steps.{IsFaultOf};

use crate::decimals::ranged_in;
use crate::faults::{Flaw, StepsFault};
use fmp_base::Event;
use std::alloc::Global;

/// The greatest number of events of a run.
pub const MOST_STEPS: u32 = 1 << 20;

/// The greatest number of an interrupt.
const MOST_INTERRUPTS: u8 = 32;

/// What stands after this front of a text, if it begins with it.
fn text_behind<'a>(front: &[u8], text: &'a [u8]) -> Option<&'a [u8]>
    ensures { MatchOption result (behind front.now text.now ≡ None)
        (λ rest. behind front.now text.now ≡ Some rest.now) }
{
    text.strip_prefix(front)
}

/// The event of a line.
fn event_in(line: &[u8], processors: u8) -> Result<Event, Flaw>
    ensures { result ≡ line_meaning processors line.now }
{
    if let Some(number) = text_behind(b"run ", line) {
        return Ok(Event::Run(ranged_in(number, processors)?));
    }
    if let Some(number) = text_behind(b"int ", line) {
        return Ok(Event::Int(ranged_in(number, MOST_INTERRUPTS)?));
    }
    match text_behind(b"tick", line) {
        Some([]) => Ok(Event::Tick),
        _ => Err(Flaw::Form),
    }
}

/// The event of the line of this number.
fn event_at(line: &[u8], number: u32, processors: u8) -> Result<Event, StepsFault>
    ensures { result ≡ event_of_line processors number line.now }
{
    if number > MOST_STEPS {
        return Err(StepsFault::TooMany { line: number });
    }
    match event_in(line, processors) {
        Ok(event) => Ok(event),
        Err(Flaw::Form) => Err(StepsFault::Line { line: number }),
        Err(Flaw::Range) => Err(StepsFault::Range { line: number }),
    }
}

fn line_feed_in(text: &[u8]) -> Option<usize>
    ensures { result ≡ position (λ byte. byte == 10) text.now }
{
    text.iter().position(|byte| *byte == b'\n')
}

/// The first line, and the text after its line feed.
fn first_line(text: &[u8]) -> (&[u8], &[u8])
    requires { text.now ≢ [] }
    ensures lines { lines_of text.now ≡ result.0.now ∷ lines_of result.1.now }
    ensures shorter { length result.1.now < length text.now }
{
    match line_feed_in(text) {
        Some(place) => (&text[..place], &text[place + 1..]),
        None => (text, &[]),
    }
}

/// The number that a digit spells with a line feed after it, if it is from 1 to `most`. One comparison looks at both
/// bytes.
#[inline(always)]
fn ended_digit(digit: u8, feed: u8, most: u8) -> Option<u8>
    requires { most ≤ 9 }
    ensures low { IfSome result (λ number. 1 ≤ number) }
    ensures high { IfSome result (λ number. number ≤ most) }
    ensures digit { IfSome result (λ number. digit ≡ 48 + number) }
    ensures feed { IfSome result (λ number. feed ≡ 10) }
{
    let above = u16::from_le_bytes([digit, feed]).wrapping_sub(u16::from_le_bytes(*b"1\n"));
    if above < u16::from(most) {
        Some(above as u8 + 1)
    } else {
        None
    }
}

/// The processor that the first line of a text lets run, if the line says no more and the number is from 1 to `most`,
/// and the text after the line.
#[inline(always)]
fn short_run(text: &[u8], most: u8) -> Option<(u8, &[u8])>
    requires { most ≤ 9 }
    ensures low { IfSome result (λ run. 1 ≤ run.0) }
    ensures high { IfSome result (λ run. run.0 ≤ most) }
    ensures line { IfSome result (λ run. text.now ≡ 114 ∷ 117 ∷ 110 ∷ 32 ∷ (48 + run.0) ∷ 10 ∷ run.1.now) }
{
    let [r, u, n, blank, digit, feed, rest @ ..] = text else {
        return None;
    };
    let word = u32::from_le_bytes([*r, *u, *n, *blank]);
    if word != u32::from_le_bytes(*b"run ") {
        return None;
    }
    Some((ended_digit(*digit, *feed, most)?, rest))
}

/// The interrupt that the first line of a text raises, if the line says no more and the number has one digit, and the
/// text after the line.
#[inline(always)]
fn short_int(text: &[u8]) -> Option<(u8, &[u8])>
    ensures low { IfSome result (λ int. 1 ≤ int.0) }
    ensures high { IfSome result (λ int. int.0 ≤ 9) }
    ensures line { IfSome result (λ int. text.now ≡ 105 ∷ 110 ∷ 116 ∷ 32 ∷ (48 + int.0) ∷ 10 ∷ int.1.now) }
{
    let [i, n, t, blank, digit, feed, rest @ ..] = text else {
        return None;
    };
    let word = u32::from_le_bytes([*i, *n, *t, *blank]);
    if word != u32::from_le_bytes(*b"int ") {
        return None;
    }
    Some((ended_digit(*digit, *feed, 9)?, rest))
}

/// What stands after the first line of a text, if the line is `tick`.
#[inline(always)]
fn short_tick(text: &[u8]) -> Option<&[u8]>
    ensures { IfSome result (λ rest. text.now ≡ 116 ∷ 105 ∷ 99 ∷ 107 ∷ 10 ∷ rest.now) }
{
    let [t, i, c, k, feed, rest @ ..] = text else {
        return None;
    };
    let word = u32::from_le_bytes([*t, *i, *c, *k]);
    if word == u32::from_le_bytes(*b"tick") && *feed == b'\n' {
        Some(rest)
    } else {
        None
    }
}

/// The event of `short_run` or `short_tick`, where the number of the line is that of an event, and the text after it.
#[inline(always)]
pub fn short_event(text: &[u8], number: u32, processors: u8) -> Option<(Event, &[u8])>
    ensures event { IfSome result (λ first. events_of processors number (lines_of text.now)
        ≡ in_front (Ok first.0) (events_of processors (number + 1) (lines_of first.1.now))) }
    ensures shorter { IfSome result (λ first. length first.1.now < length text.now) }
    ensures counted { IfSome result (λ _. number ≤ 1048576) }
{
    if number > MOST_STEPS {
        return None;
    }
    if let Some((processor, rest)) = short_run(text, processors.min(9)) {
        return Some((Event::Run(processor), rest));
    }
    let rest = short_tick(text)?;
    Some((Event::Tick, rest))
}

/// The event of the first line of a text, which has this number, and the text after it.
#[cold]
#[inline(never)]
pub fn long_event(text: &[u8], number: u32, processors: u8) -> Result<(Event, &[u8]), StepsFault>
    requires { text.now ≢ [] }
    ensures event { IfOk result (λ first. events_of processors number (lines_of text.now)
        ≡ in_front (Ok first.0) (events_of processors (number + 1) (lines_of first.1.now))) }
    ensures fault { IfErr result (λ fault. events_of processors number (lines_of text.now) ≡ Err fault) }
    ensures shorter { IfOk result (λ first. length first.1.now < length text.now) }
    ensures counted { IfOk result (λ _. number ≤ 1048576) }
{
    if number <= MOST_STEPS {
        if let Some((interrupt, rest)) = short_int(text) {
            return Ok((Event::Int(interrupt), rest));
        }
    }
    let (line, rest) = first_line(text);
    Ok((event_at(line, number, processors)?, rest))
}

/// The event of the first line of a text, which has this number, and the text after it. Most lines are those of
/// `short_event`.
#[inline]
pub fn first_event(text: &[u8], number: u32, processors: u8) -> Result<(Event, &[u8]), StepsFault>
    requires { text.now ≢ [] }
    ensures event { IfOk result (λ first. events_of processors number (lines_of text.now)
        ≡ in_front (Ok first.0) (events_of processors (number + 1) (lines_of first.1.now))) }
    ensures fault { IfErr result (λ fault. events_of processors number (lines_of text.now) ≡ Err fault) }
    ensures shorter { IfOk result (λ first. length first.1.now < length text.now) }
    ensures counted { IfOk result (λ _. number ≤ 1048576) }
{
    match short_event(text, number, processors) {
        Some(first) => Ok(first),
        None => long_event(text, number, processors),
    }
}

/// Reads a steps text: one event a line, each line ended by a line feed, which the last may lack. The fault is
/// that of the first faulty line, unless memory runs out first.
pub fn read_steps(alloc: Global, text: &[u8], processors: u8) -> Result<Vec<Event>, StepsFault>
    ensures ok { IfOk result (λ events. steps_of processors text.now ≡ Ok events.items) }
    ensures fault { IfErr result (λ fault. IsFaultOf fault (steps_of processors text.now)) }
{
    let mut events = Vec::new(alloc);
    let mut rest = text;
    let mut number = 1;
    while !rest.is_empty() {
        let (event, after) = first_event(rest, number, processors)?;
        events.push(event).map_err(|_| StepsFault::Memory)?;
        rest = after;
        number += 1;
    }
    Ok(events)
}
