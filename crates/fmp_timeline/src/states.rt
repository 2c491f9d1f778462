//! What the lanes show after an event.
ghost use Rattle.std.specs.Prelude.{◌≡◌, ◌↔◌, IfOk, get_or, slice_get, true};
ghost use Rattle.std.specs.List.{Any};
ghost use Rattle.fmp_timeline.specs.Shown as spec;

use fmp_base::{
    Caller, Handler, Line, Phase, Processor, StateWord, TaskBlock, TaskState, WaitCause,
};
use std::alloc::{AllocError, Global};

/// What setup or an event that did something told, and the state after it. Each table is in order of number.
#[derive(Clone, Copy)]
pub struct Moment<'a> {
    /// What happened.
    pub lines: &'a [Line],
    /// The lines as the trace has them, each with a line feed.
    pub text: &'a [u8],
    /// The clock.
    pub clock: u32,
    /// What the lanes show of the tasks.
    pub tasks: &'a [TaskShown],
    /// What is shown of them at the end of a trace.
    pub states: &'a [TaskState],
    /// The tasks with their waits.
    pub blocks: &'a [TaskBlock],
    /// The processors.
    pub processors: &'a [Processor],
    /// The counts of the semaphores.
    pub semaphores: &'a [u16],
    /// The patterns of the eventflags.
    pub flags: &'a [u16],
    /// The values of the shared words.
    pub shared_words: &'a [i32],
    /// Whether the cyclic handlers are pending.
    pub pending_cyclics: &'a [bool],
    /// Whether the handlers of the interrupts from 1 to 32 are pending.
    pub pending_interrupts: &'a [bool],
}

/// What the lane of a task shows.
#[derive(Clone, Copy, PartialEq, Eq)]
pub struct TaskShown {
    /// The place of the processor that the task is assigned to.
    pub processor: u8,
    /// Its state.
    pub word: StateWord,
    /// What it waits for.
    pub wait: Option<WaitCause>,
    /// The clock at whose tick the wait ends at the latest.
    pub deadline: Option<u32>,
    /// The handler under which it runs but does not go on.
    pub under: Option<Handler>,
    /// Whether its processor still runs it though it is suspended.
    pub held: bool,
}

/// What a processor does.
#[derive(Clone, Copy, PartialEq, Eq)]
pub struct Occupant {
    /// The place of the task that it runs.
    pub task: Option<u8>,
    /// The handler that runs on it.
    pub handler: Option<Handler>,
}

impl Occupant {
    /// The actor that goes on when the processor does.
    pub fn actor(self) -> Option<Caller>
        ensures { result ≡ spec.actor_of self }
    {
        match (self.handler, self.task) {
            (Some(handler), _) => Some(Caller::Handler(handler)),
            (None, Some(task)) => Some(Caller::Task(task)),
            (None, None) => None,
        }
    }
}

/// How far a handler is.
#[derive(Clone, Copy, PartialEq, Eq)]
pub struct Handling {
    /// It runs.
    pub runs: bool,
    /// It is pending.
    pub pends: bool,
}

/// What a task waits for.
fn wait_of(phase: Phase) -> Option<WaitCause>
    ensures { result ≡ spec.wait_of phase }
{
    match phase {
        Phase::Waiting(cause) => Some(cause),
        Phase::Dormant | Phase::Ready => None,
    }
}

fn is_task(run: Option<u8>, task: usize) -> bool
    ensures { result ≡ spec.is_task task run }
{
    match run {
        Some(other) => usize::from(other) == task,
        None => false,
    }
}

/// Whether the processor at a place runs a task.
fn is_run(processors: &[Processor], place: usize, task: usize) -> bool
    ensures { result ≡ spec.is_run task (slice_get processors.now place) }
{
    match processors.get(place) {
        Some(processor) => is_task(processor.run, task),
        None => false,
    }
}

/// The handler that has interrupted a task on its processor.
fn handler_over(processors: &[Processor], place: usize, task: usize) -> Option<Handler>
    ensures { result ≡ spec.handler_over task (slice_get processors.now place) }
{
    match processors.get(place) {
        Some(processor) if is_task(processor.run, task) => processor.handler,
        _ => None,
    }
}

/// What is shown of the task at this place.
pub fn task_shown(
    place: usize,
    state: &TaskState,
    block: &TaskBlock,
    processors: &[Processor],
) -> TaskShown
    ensures { result ≡ spec.task_shown place state.now block.now processors.now }
{
    let on = usize::from(state.processor);
    TaskShown {
        processor: state.processor,
        word: state.word,
        wait: wait_of(block.phase),
        deadline: block.deadline,
        under: handler_over(processors, on, place),
        held: is_run(processors, on, place) && block.suspended,
    }
}

/// What is shown of a task; of none a dormant one.
fn state_at(states: &[TaskState], task: usize) -> TaskState
    ensures { result ≡ get_or states.now task spec.no_state }
{
    match states.get(task) {
        Some(state) => *state,
        None => TaskState {
            word: StateWord::Dormant,
            processor: 0,
            priority: 0,
        },
    }
}

/// What is kept of a task; of none a dormant one.
fn block_at(blocks: &[TaskBlock], task: usize) -> TaskBlock
    ensures { result ≡ get_or blocks.now task spec.no_block }
{
    match blocks.get(task) {
        Some(block) => *block,
        None => TaskBlock {
            phase: Phase::Dormant,
            suspended: false,
            priority: 0,
            processor: 0,
            activations: 0,
            next_processor: None,
            wakeups: 0,
            deadline: None,
        },
    }
}

/// What is shown of a task; of none what is shown of a dormant one.
fn shown_at(
    states: &[TaskState],
    blocks: &[TaskBlock],
    processors: &[Processor],
    task: usize,
) -> TaskShown
    ensures { result ≡ spec.task_shown task (get_or states.now task spec.no_state)
        (get_or blocks.now task spec.no_block) processors.now }
{
    task_shown(
        task,
        &state_at(states, task),
        &block_at(blocks, task),
        processors,
    )
}

/// What is shown of all tasks, in order of number. `AllocError` if memory runs out.
pub fn tasks_shown(
    alloc: Global,
    states: &[TaskState],
    blocks: &[TaskBlock],
    processors: &[Processor],
) -> Result<Vec<TaskShown>, AllocError>
    ensures { IfOk result (λ shown. shown.items ≡ spec.tasks_shown states.now blocks.now processors.now) }
{
    let mut shown = Vec::with_capacity(alloc, states.len())?;
    for task in 0..states.len() {
        shown.push(shown_at(states, blocks, processors, task))?;
    }
    Ok(shown)
}

/// What a processor does.
pub fn occupant_of(processor: &Processor) -> Occupant
    ensures task { result.task ≡ processor.now.run }
    ensures handler { result.handler ≡ processor.now.handler }
{
    Occupant {
        task: processor.run,
        handler: processor.handler,
    }
}

/// Whether a handler runs on one of these processors.
fn is_running(handler: Handler, processors: &[Processor]) -> bool
    ensures { result ≡ true ↔ Any (spec.IsRunning handler) processors.now }
{
    for processor in processors {
        if processor.handler == Some(handler) {
            return true;
        }
    }
    false
}

/// How far a handler is.
pub fn handling_of(handler: Handler, pends: bool, processors: &[Processor]) -> Handling
    ensures runs { result.runs ≡ true ↔ Any (spec.IsRunning handler) processors.now }
    ensures pends { result.pends ≡ pends }
{
    Handling {
        runs: is_running(handler, processors),
        pends,
    }
}
