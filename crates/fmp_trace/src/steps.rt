//! Steps texts without faults, event by event.
ghost use Rattle.std.specs.Prelude.{◌≡◌, ◌≤◌, ◌∷◌, [], List, Result, IfErr, IfOk, MatchOption, Ok, Err, length};
ghost use Rattle.fmp_base.specs.declared.events.Event.{Event};
ghost use Rattle.fmp_trace.specs.declared.faults.StepsFault.{StepsFault};
ghost use Rattle.fmp_trace.specs.Steps.{Agrees, events_of, lines_of, read_events, steps_of};

use crate::faults::StepsFault;
use crate::reading::{long_event, short_event};
use fmp_base::Event;
use std::marker::Model;

/// The events of a steps text that are still to come. None of them is kept: each is read where it is asked for. It is
/// seen as the list of these events.
#[derive(Drop)]
pub struct Steps<'a> {
    /// The text from the next line on. What its lines mean does not depend on their numbers, since it has no fault.
    text: &'a [u8],
    processors: u8,
}

impl<'a> Model for Steps<'a> {
    ghost use Rattle.std.specs.Prelude.{◌≡◌, List, Ok};
    ghost use Rattle.fmp_base.specs.declared.events.Event.{Event};
    ghost use Rattle.fmp_trace.specs.Steps.{read_events, steps_of};

    ghost Value = { List Event };

    ghost view = { λ s. read_events (steps_of s.processors s.text.now) };

    ghost invariant = { λ s. steps_of s.processors s.text.now ≡ Ok (read_events (steps_of s.processors s.text.now)) };
}

/// The text after those lines of `short_event` that a text begins with, and the number of its first line. The first
/// line of the text given has this number.
fn behind_short(text: &[u8], number: u32, processors: u8) -> (&[u8], u32)
    requires { number ≤ 1048577 }
    ensures agrees { (whole : Result (List Event) StepsFault)
        → Agrees (events_of processors number (lines_of text.now)) whole
        → Agrees (events_of processors result.1 (lines_of result.0.now)) whole }
    ensures counted { result.1 ≤ 1048577 }
    ensures within { length result.0.now ≤ length text.now }
{
    let mut rest = text;
    let mut number = number;
    while let Some((_, after)) = short_event(rest, number, processors) {
        rest = after;
        number += 1;
    }
    (rest, number)
}

/// Whether a steps text has no fault, or its first one.
fn check(text: &[u8], processors: u8) -> Result<(), StepsFault>
    ensures events { IfOk result (λ _. steps_of processors text.now ≡ Ok (read_events (steps_of processors text.now))) }
    ensures fault { IfErr result (λ fault. steps_of processors text.now ≡ Err fault) }
{
    let (mut rest, mut number) = behind_short(text, 1, processors);
    while !rest.is_empty() {
        let (_, after) = long_event(rest, number, processors)?;
        (rest, number) = behind_short(after, number + 1, processors);
    }
    Ok(())
}

impl<'a> Steps<'a> {
    /// The events of a steps text, or its first fault. It takes no memory.
    pub fn new(text: &'a [u8], processors: u8) -> Result<Steps<'a>, StepsFault>
        ensures events { IfOk result (λ steps. steps_of processors text.now ≡ Ok steps) }
        ensures fault { IfErr result (λ fault. steps_of processors text.now ≡ Err fault) }
    {
        check(text, processors)?;
        Ok(Steps { text, processors })
    }

    /// Takes the next event, if there is one.
    #[tactic(auto, using(crate::proofs::EventsRead::left_whole, crate::proofs::EventsRead::first_and_left))]
    pub fn next_event(&mut self) -> Option<Event>
        ensures { MatchOption result (self.old ≡ []) (λ event. self.old ≡ event ∷ self.new) }
    {
        if let Some((event, rest)) = short_event(self.text, 1, self.processors) {
            self.text = rest;
            return Some(event);
        }
        if self.text.is_empty() {
            return None;
        }
        let Ok((event, rest)) = long_event(self.text, 1, self.processors) else {
            return None;
        };
        self.text = rest;
        Some(event)
    }
}
