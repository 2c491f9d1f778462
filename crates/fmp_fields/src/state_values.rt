//! The values of the fields that are of no body: of a task's block, and of the objects.
ghost use Rattle.std.specs.Prelude.{◌≡◌, ◌≤◌, ◌^◌, ◌&&◌, [], IfNone, None, IfSome, get_or, length, nat_lt, pos};
ghost use Rattle.fmp_base.specs.Queues.{first_of};
ghost use Rattle.fmp_base.specs.States.{processor_at, task_at};
ghost use Rattle.fmp_base.specs.Ticks.{is_pending};
ghost use Rattle.fmp_fields.specs.FieldNumbers.{block_number, state_number, task_of as task_by};
ghost use Rattle.fmp_reachable.specs.Behind.{mailbox_at};
ghost use Rattle.fmp_reachable.specs.Numbers as numbers;
ghost use Rattle.fmp_reachable.specs.Rows.{due_at};

use crate::field::{What, low_byte};
use fmp_base::{Lock, Phase, Processor, TaskBlock};
use fmp_reachable::numbers::{
    bit, cyclic_of, interrupt_of, lock_number, phase_kind, place, ticks_to, unsigned, wait_object,
    wait_value,
};
use fmp_tasks::KernelState;

/// The task at a place; a dormant one if there is none.
pub fn task(tables: &KernelState, t: u8) -> TaskBlock
    ensures { result ≡ task_at tables.now.state.tasks t }
{
    if usize::from(t) < tables.task_count() {
        return tables.task(t);
    }
    TaskBlock {
        phase: Phase::Dormant,
        suspended: false,
        priority: 1,
        processor: 0,
        activations: 0,
        next_processor: None,
        wakeups: 0,
        deadline: None,
    }
}

/// The processor at a place; one on which nothing runs if there is none.
pub fn processor(tables: &KernelState, p: u8) -> Processor
    ensures { result ≡ processor_at tables.now.state p }
{
    if usize::from(p) < tables.processor_count() {
        return tables.processor(p);
    }
    Processor {
        run: None,
        lock: Lock::Free,
        dispatch_disabled: false,
        handler: None,
    }
}

/// The count of a semaphore; 0 if there is no such one.
fn count(tables: &KernelState, s: u8) -> u32
    ensures { result ≡ get_or tables.now.state.semaphores s 0 }
{
    if usize::from(s) < tables.semaphore_count() {
        u32::from(tables.count(s))
    } else {
        0
    }
}

/// The pattern of an eventflag; 0 if there is no such one.
fn pattern(tables: &KernelState, f: u8) -> u32
    ensures { result ≡ get_or tables.now.state.flags f 0 }
{
    if usize::from(f) < tables.flag_count() {
        u32::from(tables.pattern(f))
    } else {
        0
    }
}

/// How many words a data queue holds; none if there is no such one.
fn words(tables: &KernelState, d: u8) -> u32
    ensures { result ≡ length (get_or tables.now.state.data_queues d []) }
{
    if usize::from(d) < tables.data_queue_count() {
        u32::from(tables.data_queue_length(d))
    } else {
        0
    }
}

/// The word at a place of a data queue; 0 if there is no such one.
#[tactic(auto, using(crate::proofs::WordLaws::word_read))]
fn word(tables: &KernelState, d: u8, i: u8) -> i32
    ensures { result ≡ get_or (get_or tables.now.state.data_queues d []) i (pos 0) }
{
    if usize::from(d) >= tables.data_queue_count() {
        return 0;
    }
    match tables.word(d, i) {
        Some(word) => word,
        None => 0,
    }
}

/// The first message of a mailbox, if there is one.
fn first_message(tables: &KernelState, x: u8) -> Option<u8>
    ensures { result ≡ first_of (mailbox_at tables.now.state x) }
{
    if usize::from(x) < tables.mailbox_count() {
        tables.first_message(x)
    } else {
        None
    }
}

/// A shared word; 0 if there is no such one.
fn shared_word(tables: &KernelState, w: u8) -> i32
    ensures { result ≡ get_or tables.now.state.shared_words w (pos 0) }
{
    if usize::from(w) < tables.shared_word_count() {
        tables.shared_word(w)
    } else {
        0
    }
}

/// The clock at which a cyclic handler is due, if there is one and it is started.
fn due_time(tables: &KernelState, c: u8) -> Option<u32>
    ensures { result ≡ due_at tables.now.state c }
{
    if usize::from(c) < tables.cyclic_count() {
        tables.due_time(c)
    } else {
        None
    }
}

/// Whether a cyclic handler is pending.
fn is_cyclic_pending(tables: &KernelState, c: u8) -> bool
    ensures { result ≡ is_pending tables.now.state.pending_cyclics c }
{
    usize::from(c) < tables.cyclic_count() && tables.is_cyclic_pending(c)
}

/// Whether the interrupt at a place is one, below 32, and pending.
fn is_interrupt_pending(tables: &KernelState, i: u8) -> bool
    ensures { result ≡ nat_lt i 32 && is_pending tables.now.state.pending_interrupts i }
{
    i < 32 && tables.is_interrupt_pending(i)
}

/// A field that the block of its task tells, at this clock; 0 of any other one. `None` if this is 2^32 or more.
pub fn block_value(clock: u32, block: &TaskBlock, what: What) -> Option<u32>
    ensures value { IfSome result (λ n. n ≡ block_number clock block.now what) }
    ensures far { IfNone result (2 ^ 32 ≤ block_number clock block.now what) }
{
    let value = match what {
        What::Phase(_) => phase_kind(block.phase),
        What::Object(_) => place(wait_object(block.phase)),
        What::Wanted(_) => wait_value(block.phase),
        What::Suspended(_) => bit(block.suspended),
        What::Priority(_) => u32::from(block.priority),
        What::Processor(_) => u32::from(block.processor),
        What::Activations(_) => u32::from(block.activations),
        What::NextProcessor(_) => place(block.next_processor),
        What::Wakeups(_) => u32::from(block.wakeups),
        What::TicksLeft(_) => return ticks_to(clock, block.deadline),
        _ => 0,
    };
    Some(value)
}

/// A field that is of no block and no body, where this many interrupts came; 0 of one of a body. `None` if this is 2^32
/// or more.
pub fn object_value(tables: &KernelState, came: usize, what: What) -> Option<u32>
    requires { task_by what ≡ None }
    ensures value { IfSome result (λ n. n ≡ state_number tables.now.system tables.now.state came what) }
    ensures far { IfNone result (2 ^ 32 ≤ state_number tables.now.system tables.now.state came what) }
{
    let value = match what {
        What::Interrupts => u32::from(low_byte(came)),
        What::Behind(t) => place(tables.behind(t)),
        What::Runs(p) => place(processor(tables, p).run),
        What::Lock(p) => lock_number(processor(tables, p).lock),
        What::DispatchDisabled(p) => bit(processor(tables, p).dispatch_disabled),
        What::InterruptHandler(p) => place(interrupt_of(processor(tables, p).handler)),
        What::CyclicHandler(p) => place(cyclic_of(processor(tables, p).handler)),
        What::Count(s) => count(tables, s),
        What::Pattern(f) => pattern(tables, f),
        What::Words(d) => words(tables, d),
        What::Word(d, i) => unsigned(word(tables, d, i)),
        What::FirstMessage(x) => place(first_message(tables, x)),
        What::MessageBehind(g) => place(tables.message_behind(g)),
        What::SharedWord(w) => unsigned(shared_word(tables, w)),
        What::TicksToDue(c) => return ticks_to(tables.clock(), due_time(tables, c)),
        What::PendingCyclic(c) => bit(is_cyclic_pending(tables, c)),
        What::PendingInterrupt(i) => bit(is_interrupt_pending(tables, i)),
        What::Phase(_)
        | What::Object(_)
        | What::Wanted(_)
        | What::Suspended(_)
        | What::Priority(_)
        | What::Processor(_)
        | What::Activations(_)
        | What::NextProcessor(_)
        | What::Wakeups(_)
        | What::TicksLeft(_)
        | What::Pc(_)
        | What::Local(..)
        | What::Operands(_)
        | What::Operand(..)
        | What::HandlerPc(_)
        | What::HandlerLocal(..)
        | What::HandlerOperands(_)
        | What::HandlerOperand(..) => 0,
    };
    Some(value)
}
