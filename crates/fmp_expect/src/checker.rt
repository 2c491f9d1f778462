//! Whether a run meets expectations, one thing that it shows after the other.
ghost use Rattle.std.specs.Prelude.{◌≡◌, ◌++◌, [], List, IfOk, OnOk, map};
ghost use Rattle.fmp_expect.specs.declared.expectation.Expected.{Expected};
ghost use Rattle.fmp_expect.specs.Meaning.{Told, breaks_at_end as breaks_then, empty_lines, first_broken, with_lines};
ghost use Rattle.fmp_expect.specs.Meaning.{with_state};
ghost use Rattle.fmp_expect.specs.Watches as spec;
ghost use Rattle.fmp_expect.specs.Watches.{AreTold};
ghost use Rattle.fmp_monitors.specs.Meaning.{OfLine, OfState};

use crate::expectation::Expected;
use fmp_base::{Line, TaskState};
use fmp_monitors::{
    Sentence, Standing, breaks_by_line, breaks_in_state, has_premise, is_premise, is_state,
    next_standing,
};
use fmp_tasks::KernelState;
use std::alloc::{AllocError, Global};
use std::marker::Model;

/// An expectation that a run does not meet.
#[derive(Clone, Copy, Debug, PartialEq, Eq)]
pub struct BrokenExpectation {
    /// The line of the text, from 1.
    pub line: usize,
    /// The number of the event in which it fails.
    pub event: u32,
}

/// An expectation, and what is kept of it.
#[derive(Clone, Copy)]
pub struct Watch {
    pub expected: Expected,
    pub standing: Standing,
    /// The first event in which it failed.
    pub failed: Option<u32>,
    /// What the sentence speaks of has come.
    pub came: bool,
}

/// Expectations while a run goes on. It keeps as much as there are expectations, however long the run is.
/// It is seen as their list.
#[derive(Drop)]
pub struct Checker {
    watches: Vec<Watch>,
}

impl Model for Checker {
    ghost use Rattle.std.specs.Prelude.{List};
    ghost use Rattle.fmp_expect.specs.declared.checker.Watch.{Watch};

    ghost Value = { List Watch };

    ghost view = { λ checker. checker.watches.items };
}

/// The event in which an expectation failed, where this one may break it.
fn failed_by(failed: Option<u32>, broken: bool, number: u32) -> Option<u32>
    ensures { result ≡ spec.failed_by failed broken number }
{
    match failed {
        Some(event) => Some(event),
        None if broken => Some(number),
        None => None,
    }
}

/// An expectation after one more line, which is of the event of this number.
fn after_line(watch: &Watch, number: u32, line: Line) -> Watch
    ensures { result ≡ spec.next_watch number (OfLine line) watch.now }
{
    let sentence = &watch.expected.sentence;
    let broken = breaks_by_line(sentence, watch.standing, line);
    Watch {
        expected: watch.expected,
        standing: next_standing(sentence, watch.standing, line),
        failed: failed_by(watch.failed, broken, number),
        came: is_premise(sentence, line) || watch.came,
    }
}

/// An expectation after the state that the event of this number left.
fn after_state(watch: &Watch, number: u32, state: &KernelState) -> Watch
    ensures { result ≡ spec.next_watch number (OfState state.now.state) watch.now }
{
    let broken = breaks_in_state(&watch.expected.sentence, state);
    Watch {
        failed: failed_by(watch.failed, broken, number),
        ..*watch
    }
}

/// Tells one line.
fn tell_line(watches: &mut [Watch], number: u32, line: Line)
    ensures { watches.new ≡ map (spec.next_watch number (OfLine line)) watches.old }
{
    for watch in watches.iter_mut() {
        *watch = after_line(watch, number, line);
    }
}

/// Tells a state.
fn tell_state(watches: &mut [Watch], number: u32, state: &KernelState)
    ensures { watches.new ≡ map (spec.next_watch number (OfState state.now.state)) watches.old }
{
    for watch in watches.iter_mut() {
        *watch = after_state(watch, number, state);
    }
}

/// Tells lines.
fn tell_lines(watches: &mut [Watch], number: u32, lines: &[Line])
    ensures { watches.new ≡ spec.next_watches number lines.now watches.old }
{
    for line in lines {
        tell_line(watches, number, *line);
    }
}

/// Whether the end of a run breaks a sentence, where its tasks are in these states.
fn breaks_at_end(sentence: &Sentence, states: &[TaskState]) -> bool
    ensures { result ≡ breaks_then sentence.now states.now }
{
    match *sentence {
        Sentence::End { word, task } => match states.get(task) {
            Some(state) => !is_state(state.word, word),
            None => true,
        },
        _ => false,
    }
}

/// The event in which a run breaks an expectation, where its last event is the one of this number.
fn outcome(watch: &Watch, states: &[TaskState], number: u32) -> Option<u32>
    ensures { result ≡ spec.watch_outcome watch.now states.now number }
{
    failed_by(
        watch.failed,
        breaks_at_end(&watch.expected.sentence, states),
        number,
    )
}

/// The first of these expectations that failed.
fn first_failed(watches: &[Watch], states: &[TaskState], number: u32) -> Option<BrokenExpectation>
    ensures { result ≡ spec.first_failed watches.now states.now number }
{
    for watch in watches {
        if let Some(event) = outcome(watch, states, number) {
            return Some(BrokenExpectation {
                line: watch.expected.line,
                event,
            });
        }
    }
    None
}

/// Whether an expectation says nothing of what was told: what it speaks of never came.
fn is_empty(watch: &Watch) -> bool
    ensures { result ≡ spec.is_empty watch.now }
{
    has_premise(&watch.expected.sentence) && !watch.came
}

/// Adds the line of an expectation, if it says nothing of what was told.
fn add_empty(lines: &mut Vec<usize>, watch: &Watch) -> Result<(), AllocError>
    ensures { OnOk result (lines.new.items ≡ lines.old.items ++ spec.empty_line watch.now) }
{
    if is_empty(watch) {
        lines.push(watch.expected.line)?;
    }
    Ok(())
}

/// The lines of the expectations that say nothing of what was told.
fn lines_of_empty(alloc: Global, watches: &[Watch]) -> Result<Vec<usize>, AllocError>
    ensures { IfOk result (λ lines. lines.items ≡ spec.lines_of_empty watches.now) }
{
    let mut lines = Vec::new(alloc);
    for watch in watches {
        add_empty(&mut lines, watch)?;
    }
    Ok(lines)
}

impl Checker {
    /// These expectations before anything is told. `AllocError` if memory runs out.
    pub fn new(alloc: Global, expected: &[Expected]) -> Result<Checker, AllocError>
        ensures { IfOk result (λ checker. AreTold expected.now [] checker) }
    {
        let mut watches = Vec::new(alloc);
        for one in expected {
            watches.push(Watch {
                expected: *one,
                standing: Standing::Open,
                failed: None,
                came: false,
            })?;
        }
        Ok(Checker { watches })
    }

    fn tell_all(&mut self, number: u32, lines: &[Line])
        ensures { self.new ≡ spec.next_watches number lines.now self.old }
    {
        tell_lines(&mut self.watches, number, lines);
    }

    fn tell_one(&mut self, number: u32, state: &KernelState)
        ensures { self.new ≡ map (spec.next_watch number (OfState state.now.state)) self.old }
    {
        tell_state(&mut self.watches, number, state);
    }

    /// Tells the lines of the event of this number, or of setup, which has number 0.
    pub fn tell(&mut self, number: u32, lines: &[Line])
        ensures { (xs : List Expected) → (told : List Told) → AreTold xs told self.old
            → AreTold xs (with_lines number lines.now told) self.new }
    {
        self.tell_all(number, lines);
    }

    /// Tells the state after the event of this number, or after setup, which has number 0.
    pub fn tell_state(&mut self, number: u32, state: &KernelState)
        ensures { (xs : List Expected) → (told : List Told) → AreTold xs told self.old
            → AreTold xs (with_state number state.now.state told) self.new }
    {
        self.tell_one(number, state);
    }

    /// The first of the expectations that the run breaks, where its last event is the one of this number and its tasks
    /// are in these states; none if it meets them all.
    pub fn verdict(&self, states: &[TaskState], number: u32) -> Option<BrokenExpectation>
        ensures { (xs : List Expected) → (told : List Told) → AreTold xs told self.now
            → result ≡ first_broken xs told states.now number }
    {
        first_failed(&self.watches, states, number)
    }

    /// The lines of the expectations that say nothing of the run, since what they speak of never came: of `A before B`
    /// the second, of `never A after B` the opening, of a time within which something is to come its trigger, and of
    /// `between A and B` a task that enters. `AllocError` if memory runs out.
    pub fn empty_claims(&self, alloc: Global) -> Result<Vec<usize>, AllocError>
        ensures { (xs : List Expected) → (told : List Told) → AreTold xs told self.now
            → IfOk result (λ lines. lines.items ≡ empty_lines xs told) }
    {
        lines_of_empty(alloc, &self.watches)
    }
}
