//! The values of a dump's variables in a frame.
ghost use Rattle.std.specs.Prelude.{◌≡◌, None, false, IfOk, get_or, length, pos, slice_get};
ghost use Rattle.std.specs.List.{filter};
ghost use Rattle.fmp_base.specs.States.{idle};
ghost use Rattle.fmp_frames.specs.Frames.{table_of};
ghost use Rattle.fmp_frames.specs.Values as spec;

use crate::Frame;
use crate::codes::{
    handler_code, handling, lock_code, number_or_zero, one_if, refused_by, state_code, wait_code,
    wait_object,
};
use crate::variable::{Variable, WaitedObject};
use fmp_base::{Handler, Line, Lock, Phase, Processor, StateWord, TaskBlock, TaskState, WaitCause};
use fmp_why::SpinWait;
use std::alloc::{AllocError, Global};

/// A processor; one on which nothing runs and that nothing holds if there is none at the place.
fn processor_at(processors: &[Processor], place: usize) -> Processor
    ensures { result ≡ get_or processors.now place idle }
{
    match processors.get(place) {
        Some(processor) => *processor,
        None => Processor {
            run: None,
            lock: Lock::Free,
            dispatch_disabled: false,
            handler: None,
        },
    }
}

/// What is shown of a task; of none a dormant one.
fn state_at(states: &[TaskState], place: usize) -> TaskState
    ensures { result ≡ get_or states.now place spec.unknown }
{
    match states.get(place) {
        Some(state) => *state,
        None => TaskState {
            word: StateWord::Dormant,
            processor: 0,
            priority: 0,
        },
    }
}

fn phase_at(blocks: &[TaskBlock], place: usize) -> Phase
    ensures { result ≡ spec.phase_of (slice_get blocks.now place) }
{
    match blocks.get(place) {
        Some(block) => block.phase,
        None => Phase::Dormant,
    }
}

fn is_set(flags: &[bool], place: usize) -> bool
    ensures { result ≡ get_or flags.now place false }
{
    match flags.get(place) {
        Some(flag) => *flag,
        None => false,
    }
}

fn count_at(counts: &[u16], place: usize) -> u32
    ensures { result ≡ get_or counts.now place 0 }
{
    match counts.get(place) {
        Some(count) => u32::from(*count),
        None => 0,
    }
}

fn length_at(lengths: &[u8], place: usize) -> u8
    ensures { result ≡ get_or lengths.now place 0 }
{
    match lengths.get(place) {
        Some(length) => *length,
        None => 0,
    }
}

fn word_at(words: &[i32], place: usize) -> i32
    ensures { result ≡ get_or words.now place (pos 0) }
{
    match words.get(place) {
        Some(word) => *word,
        None => 0,
    }
}

/// What the first line of an event says of a processor.
fn refused(lines: &[Line], place: usize) -> u32
    ensures { result ≡ spec.refused place (slice_get lines.now 0) }
{
    match lines.get(0) {
        Some(line) => refused_by(*line, place),
        None => 0,
    }
}

fn runs_cyclic(processor: &Processor, place: usize) -> bool
    ensures { result ≡ spec.runs_cyclic place processor.now }
{
    match processor.handler {
        Some(Handler::Cyclic(cyclic)) => usize::from(cyclic) == place,
        Some(Handler::Interrupt(_)) | None => false,
    }
}

fn runs_interrupt(processor: &Processor, place: usize) -> bool
    ensures { result ≡ spec.runs_interrupt place processor.now }
{
    match processor.handler {
        Some(Handler::Interrupt(interrupt)) => usize::from(interrupt) == place,
        Some(Handler::Cyclic(_)) | None => false,
    }
}

/// How many processors run the cyclic handler at a place.
fn running_cyclic(processors: &[Processor], place: usize) -> usize
    ensures { result ≡ length (filter (spec.runs_cyclic place) processors.now) }
{
    processors
        .iter()
        .filter(|processor| runs_cyclic(processor, place))
        .count()
}

/// How many processors run the handler of the interrupt at a place.
fn running_interrupt(processors: &[Processor], place: usize) -> usize
    ensures { result ≡ length (filter (spec.runs_interrupt place) processors.now) }
{
    processors
        .iter()
        .filter(|processor| runs_interrupt(processor, place))
        .count()
}

fn is_for(cause: WaitCause, object: WaitedObject) -> bool
    ensures { result ≡ spec.is_for object cause }
{
    match (object, cause) {
        (WaitedObject::Semaphore(place), WaitCause::Semaphore(other)) => usize::from(other)
            == place,
        (WaitedObject::Flag(place), WaitCause::Flag { flag, .. }) => usize::from(flag) == place,
        (WaitedObject::DataQueue(place), WaitCause::Sending { queue, .. }) => usize::from(queue)
            == place,
        (WaitedObject::DataQueue(place), WaitCause::Receiving(queue)) => usize::from(queue)
            == place,
        (WaitedObject::Mailbox(place), WaitCause::Mailbox(other)) => usize::from(other) == place,
        _ => false,
    }
}

fn waits_for(block: &TaskBlock, object: WaitedObject) -> bool
    ensures { result ≡ spec.waits_for object block.now }
{
    match block.phase {
        Phase::Waiting(cause) => is_for(cause, object),
        Phase::Dormant | Phase::Ready => false,
    }
}

/// How many tasks wait for an object.
fn waiting(blocks: &[TaskBlock], object: WaitedObject) -> usize
    ensures { result ≡ length (filter (spec.waits_for object) blocks.now) }
{
    blocks
        .iter()
        .filter(|block| waits_for(block, object))
        .count()
}

/// The lock for which the actor of the processor at a place spins.
fn spun_lock(spins: &[Option<SpinWait>], place: usize) -> Option<u8>
    ensures { result ≡ spec.lock_of (get_or spins.now place None) }
{
    match spins.get(place) {
        Some(Some(spin)) => Some(spin.lock),
        Some(None) | None => None,
    }
}

/// The value of a variable in a frame.
fn value_of(frame: &Frame, variable: Variable) -> u64
    ensures { result ≡ spec.value_of (table_of frame.now) variable }
{
    match variable {
        Variable::Clock => u64::from(frame.clock),
        Variable::Run(place) => u64::from(number_or_zero(
            processor_at(&frame.processors, place).run,
        )),
        Variable::Handler(place) => {
            u64::from(handler_code(processor_at(&frame.processors, place).handler))
        }
        Variable::Lock(place) => u64::from(lock_code(processor_at(&frame.processors, place).lock)),
        Variable::Spin(place) => u64::from(number_or_zero(spun_lock(&frame.spins, place))),
        Variable::Dispatch(place) => {
            u64::from(one_if(!processor_at(&frame.processors, place).dispatch_disabled))
        }
        Variable::Refused(place) => u64::from(refused(&frame.lines, place)),
        Variable::State(place) => u64::from(state_code(state_at(&frame.states, place).word)),
        Variable::Running(place) => {
            u64::from(one_if(state_code(state_at(&frame.states, place).word) == 2))
        }
        Variable::Processor(place) => u64::from(state_at(&frame.states, place).processor) + 1,
        Variable::Priority(place) => u64::from(state_at(&frame.states, place).priority),
        Variable::WaitKind(place) => u64::from(wait_code(phase_at(&frame.blocks, place))),
        Variable::WaitObject(place) => u64::from(wait_object(phase_at(&frame.blocks, place))),
        Variable::Cyclic(place) => u64::from(handling(
            running_cyclic(&frame.processors, place),
            is_set(&frame.pending_cyclics, place),
        )),
        Variable::Interrupt(place) => u64::from(handling(
            running_interrupt(&frame.processors, place),
            is_set(&frame.pending_interrupts, place),
        )),
        Variable::Count(place) => u64::from(count_at(&frame.semaphores, place)),
        Variable::Pattern(place) => u64::from(count_at(&frame.flags, place)),
        Variable::DataQueue(place) => u64::from(length_at(&frame.data_queues, place)),
        Variable::Mailbox(place) => u64::from(length_at(&frame.mailboxes, place)),
        Variable::Word(place) => u64::from(word_at(&frame.shared_words, place).cast_unsigned()),
        Variable::Waiting(object) => waiting(&frame.blocks, object) as u64,
    }
}

/// The values of these variables in a frame, in order. `AllocError` if memory runs out.
pub fn values_of(
    alloc: Global,
    frame: &Frame,
    variables: &[Variable],
) -> Result<Vec<u64>, AllocError>
    ensures { IfOk result (λ values. values.items ≡ spec.values_of (table_of frame.now) variables.now) }
{
    let mut values = Vec::with_capacity(alloc, variables.len())?;
    for variable in variables {
        values.push(value_of(frame, *variable))?;
    }
    Ok(values)
}
