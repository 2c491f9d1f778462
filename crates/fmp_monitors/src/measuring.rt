//! The numbers of a state that conditions speak of. What is not in the tables has a default value.
ghost use Rattle.std.specs.Prelude.{◌≡◌, get_or, length, pos};
ghost use Rattle.fmp_base.specs.DataQueueCalls.{words_at};
ghost use Rattle.fmp_base.specs.FlagCalls.{pattern_at};
ghost use Rattle.fmp_base.specs.MailboxCalls.{messages_at};
ghost use Rattle.fmp_base.specs.States.{processor_at, task_at};
ghost use Rattle.fmp_monitors.specs.Conditions as spec;

use crate::condition::Measure;
use fmp_base::{Lock, Phase, Processor, StateWord, TaskBlock};
use fmp_tasks::KernelState;

#[tactic(auto, using(std::proofs::lemmas::List::get_or_past))]
fn shared_word(state: &KernelState, place: usize) -> i32
    ensures { result ≡ get_or state.now.state.shared_words place (pos 0) }
{
    if place < state.shared_word_count() {
        state.shared_word(place as u8)
    } else {
        0
    }
}

#[tactic(auto, using(std::proofs::lemmas::List::get_or_past))]
fn count(state: &KernelState, place: usize) -> u16
    ensures { result ≡ get_or state.now.state.semaphores place 0 }
{
    if place < state.semaphore_count() {
        state.count(place as u8)
    } else {
        0
    }
}

#[tactic(auto, using(std::proofs::lemmas::List::get_or_past))]
fn pattern(state: &KernelState, place: usize) -> u16
    ensures { result ≡ pattern_at state.now.state place }
{
    if place < state.flag_count() {
        state.pattern(place as u8)
    } else {
        0
    }
}

#[tactic(auto, using(std::proofs::lemmas::List::get_or_past))]
fn queue_length(state: &KernelState, place: usize) -> u8
    ensures { result ≡ length (words_at state.now.state place) }
{
    if place < state.data_queue_count() {
        state.data_queue_length(place as u8)
    } else {
        0
    }
}

#[tactic(auto, using(std::proofs::lemmas::List::get_or_past))]
fn mailbox_length(state: &KernelState, place: usize) -> u8
    ensures { result ≡ length (messages_at state.now.state place) }
{
    if place < state.mailbox_count() {
        state.mailbox_length(place as u8)
    } else {
        0
    }
}

/// The block of the task at a place, or of a dormant one if there is none.
#[tactic(auto, using(crate::proofs::Absent::found_past))]
fn task_of(state: &KernelState, place: usize) -> TaskBlock
    ensures { result ≡ task_at state.now.state.tasks place }
{
    if place < state.task_count() {
        state.task(place as u8)
    } else {
        TaskBlock {
            phase: Phase::Dormant,
            suspended: false,
            priority: 1,
            processor: 0,
            activations: 0,
            next_processor: None,
            wakeups: 0,
            deadline: None,
        }
    }
}

/// The processor at a place, or an idle one if there is none.
#[tactic(auto, using(crate::proofs::Absent::found_past))]
fn processor_of(state: &KernelState, place: u8) -> Processor
    ensures { result ≡ processor_at state.now.state place }
{
    if usize::from(place) < state.processor_count() {
        state.processor(place)
    } else {
        Processor {
            run: None,
            lock: Lock::Free,
            dispatch_disabled: false,
            handler: None,
        }
    }
}

/// The number of a state that a measure names.
pub fn measured(measure: Measure, state: &KernelState) -> i32
    ensures { result ≡ spec.measured measure state.now.state }
{
    match measure {
        Measure::SharedWord(place) => shared_word(state, place),
        Measure::Count(place) => i32::from(count(state, place)),
        Measure::Pattern(place) => i32::from(pattern(state, place)),
        Measure::Words(place) => i32::from(queue_length(state, place)),
        Measure::Messages(place) => i32::from(mailbox_length(state, place)),
        Measure::Priority(place) => i32::from(task_of(state, place).priority),
    }
}

/// The task that a processor runs, if it runs one.
pub fn task_on(state: &KernelState, processor: u8) -> Option<u8>
    ensures { result ≡ (processor_at state.now.state processor).run }
{
    processor_of(state, processor).run
}

/// Whether a processor runs this task.
fn is_run_on(state: &KernelState, processor: u8, task: usize) -> bool
    ensures { result ≡ spec.is_run_on state.now.state processor task }
{
    match task_on(state, processor) {
        Some(other) => usize::from(other) == task,
        None => false,
    }
}

/// The state of the task at a place.
pub fn state_of(state: &KernelState, place: usize) -> StateWord
    ensures { result ≡ spec.word_at state.now.state place }
{
    let task = task_of(state, place);
    let runs = is_run_on(state, task.processor, place);
    StateWord::of(task.phase, task.suspended, runs)
}
