//! Tables are put into a saved state, part by part, by calls that each say the whole state that they leave. What a call
//! requires is tested, so that whatever was saved, the tables stay whole. The contracts do not say that the state is
//! the saved one: a caller that needs this reads the state and compares.
ghost use Rattle.std.specs.Prelude.{◌≡◌, ◌&&◌, ◌+◌, ◌<◌, ◌≤◌, length, true, IfSome};
ghost use Rattle.fmp_base.specs.Queues.{is_ready as is_ready_block, queue_of as queue_of_phase};
ghost use Rattle.fmp_base.specs.TaskCalls.{is_dormant as is_dormant_phase};
ghost use Rattle.fmp_tasks.specs.Homes.{counts_of, is_in_order, is_waiting as is_waiting_phase, Fits, IsSomeThere};
ghost use Rattle.fmp_tasks.specs.Tables.{SameShape};
ghost use Rattle.fmp_waitq.specs.WaitLists.{IsThere};

use crate::kernel_state::KernelState;
use crate::queues::{is_ready, queue_of};
use crate::saved::{SavedMessage, SavedState, SavedWord};
use crate::setup::created;
use crate::staying::{is_same_block, mark_staying};
use fmp_base::{Handler, Phase, Processor, TaskBlock, WaitQueue};

/// How many interrupts there are.
const INTERRUPTS: u8 = 32;

/// Whether a phase is that of a task that is not started.
fn is_dormant(phase: Phase) -> bool
    ensures { result ≡ is_dormant_phase phase }
{
    match phase {
        Phase::Dormant => true,
        Phase::Ready => false,
        Phase::Waiting(_) => false,
    }
}

/// Whether a phase is that of a task that waits.
fn is_waiting(phase: Phase) -> bool
    ensures { result ≡ is_waiting_phase phase }
{
    match phase {
        Phase::Dormant => false,
        Phase::Ready => false,
        Phase::Waiting(_) => true,
    }
}

/// Whether a task stands in the order: it is ready and not suspended, or it waits.
fn stands(x: &TaskBlock) -> bool
    ensures { result ≡ is_in_order x.now }
{
    is_ready(x) || is_waiting(x.phase)
}

/// Whether a block is that of a task that is both not started and suspended, as no task is.
fn is_suspended_dormant(x: &TaskBlock) -> bool
    ensures { result ≡ (is_dormant_phase x.now.phase && x.now.suspended) }
{
    is_dormant(x.phase) && x.suspended
}

/// Whether a place is below a count, if there is one.
fn is_below(place: Option<u8>, count: usize) -> bool
    ensures { result ≡ true → IfSome place (λ p. p < count) }
{
    match place {
        Some(p) => (p as usize) < count,
        None => true,
    }
}

/// Whether a time lies after now, if there is one.
fn is_later(time: Option<u32>, now: u32) -> bool
    ensures { result ≡ true → IfSome time (λ w. now + 1 ≤ w) }
{
    match time {
        Some(when) => now < when,
        None => true,
    }
}

/// Whether the system has a wait queue.
fn has_queue(tables: &KernelState, queue: WaitQueue) -> bool
    ensures { result ≡ true → IsThere (counts_of tables.now.system) queue }
{
    match queue {
        WaitQueue::Semaphore(s) => (s as usize) < tables.semaphore_count(),
        WaitQueue::Flag(f) => (f as usize) < tables.flag_count(),
        WaitQueue::Senders(d) => (d as usize) < tables.data_queue_count(),
        WaitQueue::Receivers(d) => (d as usize) < tables.data_queue_count(),
        WaitQueue::Mailbox(x) => (x as usize) < tables.mailbox_count(),
    }
}

/// Whether the system has the wait queue of a phase, if that has one.
fn has_queue_of(tables: &KernelState, phase: Phase) -> bool
    ensures { result ≡ true → IsSomeThere (counts_of tables.now.system) (queue_of_phase phase) }
{
    match queue_of(phase) {
        Some(queue) => has_queue(tables, queue),
        None => true,
    }
}

/// The block, if its numbers are in range for the system, a dormant task is not suspended, and its deadline lies after
/// the clock.
fn fitting(tables: &KernelState, x: &TaskBlock) -> Option<TaskBlock>
    ensures fits { IfSome result (λ y. Fits tables.now.system y) }
    ensures later { IfSome result (λ y. IfSome y.deadline (λ w. tables.now.state.clock + 1 ≤ w)) }
{
    let count = tables.processor_count();
    if x.priority < 1 {
        return None;
    }
    if x.priority > 16 {
        return None;
    }
    if x.processor as usize >= count {
        return None;
    }
    if !is_below(x.next_processor, count) {
        return None;
    }
    if !has_queue_of(tables, x.phase) {
        return None;
    }
    if is_suspended_dormant(x) {
        return None;
    }
    if !is_later(x.deadline, tables.clock()) {
        return None;
    }
    Some(*x)
}

/// Task t leaves its queue, as created and not started.
fn put_out(tables: &mut KernelState, t: u8)
    requires { t < length tables.old.system.tasks }
    ensures { SameShape tables.old tables.new }
{
    let config = tables.task_config(t);
    tables.set_removed(t, created(&config));
}

/// Task t leaves its queue and becomes x, which has to fit, if it is not x; if x stands in a queue, it is not started
/// until it is put there. Gives whether x fits.
fn put_aside(tables: &mut KernelState, t: u8, x: &TaskBlock) -> bool
    requires { t < length tables.old.system.tasks }
    ensures { SameShape tables.old tables.new }
{
    let Some(block) = fitting(tables, x) else {
        return false;
    };
    if stands(&block) {
        put_out(tables, t);
    } else if !is_same_block(&tables.task(t), x) {
        tables.set_removed(t, block);
    }
    true
}

/// Task t becomes x, which has to fit and to stand in a queue, and goes to the end of the order. Gives whether it does.
fn put_last(tables: &mut KernelState, t: u8, x: &TaskBlock) -> bool
    requires { t < length tables.old.system.tasks }
    ensures { SameShape tables.old tables.new }
{
    let Some(block) = fitting(tables, x) else {
        return false;
    };
    if stands(&block) {
        tables.set_last(t, &block);
        true
    } else {
        false
    }
}

/// All tasks but those that stay leave their queues, and become as saved where they stand in none. Gives whether the
/// blocks are those of the tasks.
fn put_blocks(tables: &mut KernelState, blocks: &[TaskBlock], stays: &[bool; 256]) -> bool
    ensures { SameShape tables.old tables.new }
{
    let count = tables.task_count() as u8;
    if blocks.len() != count as usize {
        return false;
    }
    for t in 0..count {
        if !stays[t as usize] && !put_aside(tables, t, &blocks[t as usize]) {
            return false;
        }
    }
    true
}

/// The tasks of an order, but those that stay, go to the end of the order, one after the other. Gives whether they are
/// tasks that stand there.
fn put_order(
    tables: &mut KernelState,
    blocks: &[TaskBlock],
    order: &[u8],
    stays: &[bool; 256],
) -> bool
    ensures { SameShape tables.old tables.new }
{
    for task in order {
        let t = *task;
        if t as usize >= tables.task_count() {
            return false;
        }
        let Some(block) = blocks.get(t as usize) else {
            return false;
        };
        if !stays[t as usize] && !put_last(tables, t, block) {
            return false;
        }
    }
    true
}

/// The count of each semaphore. Gives whether there are as many.
fn put_counts(tables: &mut KernelState, counts: &[u16]) -> bool
    ensures { SameShape tables.old tables.new }
{
    let count = tables.semaphore_count() as u8;
    if counts.len() != count as usize {
        return false;
    }
    for s in 0..count {
        tables.set_count(s, counts[s as usize]);
    }
    true
}

/// The pattern of each eventflag. Gives whether there are as many.
fn put_patterns(tables: &mut KernelState, patterns: &[u16]) -> bool
    ensures { SameShape tables.old tables.new }
{
    let count = tables.flag_count() as u8;
    if patterns.len() != count as usize {
        return false;
    }
    for f in 0..count {
        tables.set_pattern(f, patterns[f as usize]);
    }
    true
}

/// Each shared word. Gives whether there are as many.
fn put_shared_words(tables: &mut KernelState, words: &[i32]) -> bool
    ensures { SameShape tables.old tables.new }
{
    let count = tables.shared_word_count() as u8;
    if words.len() != count as usize {
        return false;
    }
    for w in 0..count {
        tables.set_shared_word(w, words[w as usize]);
    }
    true
}

/// Each processor. Gives whether there are as many.
fn put_processors(tables: &mut KernelState, processors: &[Processor]) -> bool
    ensures { SameShape tables.old tables.new }
{
    let count = tables.processor_count() as u8;
    if processors.len() != count as usize {
        return false;
    }
    for p in 0..count {
        tables.set_processor(p, processors[p as usize]);
    }
    true
}

/// No data queue holds a word.
fn clear_queues(tables: &mut KernelState)
    ensures { SameShape tables.old tables.new }
{
    let count = tables.data_queue_count() as u8;
    for d in 0..count {
        tables.clear_words(d);
    }
}

/// A word comes last in its data queue. Gives whether there is such a queue, and room in it.
fn put_word(tables: &mut KernelState, saved: SavedWord) -> bool
    ensures { SameShape tables.old tables.new }
{
    if saved.queue as usize >= tables.data_queue_count() {
        return false;
    }
    if tables.has_room(saved.queue) {
        tables.append_word(saved.queue, saved.word);
        true
    } else {
        false
    }
}

/// The data queues hold these words and no others. Gives whether there are such queues, with room for them.
fn put_words(tables: &mut KernelState, words: &[SavedWord]) -> bool
    ensures { SameShape tables.old tables.new }
{
    clear_queues(tables);
    for saved in words {
        if !put_word(tables, *saved) {
            return false;
        }
    }
    true
}

/// No message is in a mailbox.
fn empty_mailbox(tables: &mut KernelState, x: u8)
    requires { x < length tables.old.system.mailboxes }
    ensures { SameShape tables.old tables.new }
{
    let count = tables.mailbox_length(x);
    for _ in 0..count {
        tables.take_message(x);
    }
}

/// No message is in any mailbox.
fn empty_mailboxes(tables: &mut KernelState)
    ensures { SameShape tables.old tables.new }
{
    let count = tables.mailbox_count() as u8;
    for x in 0..count {
        empty_mailbox(tables, x);
    }
}

/// A message comes into its mailbox. Gives whether there are such ones, and the message was in no mailbox.
fn put_message(tables: &mut KernelState, saved: SavedMessage) -> bool
    ensures { SameShape tables.old tables.new }
{
    if saved.mailbox as usize >= tables.mailbox_count() {
        return false;
    }
    if saved.message as usize >= tables.message_count() {
        return false;
    }
    if tables.is_queued(saved.message) {
        return false;
    }
    tables.enqueue_message(saved.mailbox, saved.message);
    true
}

/// The mailboxes hold these messages and no others. Gives whether there are such ones, each message once.
fn put_messages(tables: &mut KernelState, messages: &[SavedMessage]) -> bool
    ensures { SameShape tables.old tables.new }
{
    empty_mailboxes(tables);
    for saved in messages {
        if !put_message(tables, *saved) {
            return false;
        }
    }
    true
}

/// A cyclic handler is due then. Gives whether this lies after the clock.
fn put_due(tables: &mut KernelState, c: u8, due: Option<u32>) -> bool
    requires { c < length tables.old.system.cyclics }
    ensures { SameShape tables.old tables.new }
{
    if is_later(due, tables.clock()) {
        tables.set_due(c, due);
        true
    } else {
        false
    }
}

/// Each cyclic handler is due as saved. Gives whether there are as many times, all after the clock.
fn put_due_times(tables: &mut KernelState, times: &[Option<u32>]) -> bool
    ensures { SameShape tables.old tables.new }
{
    let count = tables.cyclic_count() as u8;
    if times.len() != count as usize {
        return false;
    }
    for c in 0..count {
        if !put_due(tables, c, times[c as usize]) {
            return false;
        }
    }
    true
}

/// Whether a cyclic handler is pending becomes this.
fn put_cyclic(tables: &mut KernelState, c: u8, pending: bool)
    requires { c < length tables.old.system.cyclics }
    ensures { SameShape tables.old tables.new }
{
    if pending {
        tables.pend_cyclic(c);
    } else if tables.is_cyclic_pending(c) {
        tables.clear_pending(Handler::Cyclic(c));
    }
}

/// The pending cyclic handlers. Gives whether it is said of as many as there are.
fn put_cyclics(tables: &mut KernelState, pending: &[bool]) -> bool
    ensures { SameShape tables.old tables.new }
{
    let count = tables.cyclic_count() as u8;
    if pending.len() != count as usize {
        return false;
    }
    for c in 0..count {
        put_cyclic(tables, c, pending[c as usize]);
    }
    true
}

/// Whether the interrupt at a place is pending becomes this.
fn put_interrupt(tables: &mut KernelState, i: u8, pending: bool)
    requires { i < 32 }
    ensures { SameShape tables.old tables.new }
{
    if pending {
        tables.pend_interrupt(i);
    } else if tables.is_interrupt_pending(i) {
        tables.clear_pending(Handler::Interrupt(i));
    }
}

/// Whether an interrupt is pending, here or as saved. They are counted, so several are looked at at once.
fn is_any_pending(tables: &KernelState, pending: &[bool]) -> bool
    requires { length pending.now ≡ 32 }
{
    let mut count: u32 = 0;
    for i in 0..INTERRUPTS {
        if pending[i as usize] | tables.is_interrupt_pending(i) {
            count += 1;
        }
    }
    count != 0
}

/// The pending interrupts. Gives whether it is said of all 32.
fn put_interrupts(tables: &mut KernelState, pending: &[bool]) -> bool
    ensures { SameShape tables.old tables.new }
{
    if pending.len() != INTERRUPTS as usize {
        return false;
    }
    // Mostly none is pending.
    if !is_any_pending(tables, pending) {
        return true;
    }
    for i in 0..INTERRUPTS {
        put_interrupt(tables, i, pending[i as usize]);
    }
    true
}

/// The tasks in their queues, and the processors.
fn put_tasks(tables: &mut KernelState, saved: &SavedState) -> bool
    ensures { SameShape tables.old tables.new }
{
    let mut stays = [false; 256];
    mark_staying(tables, &saved.blocks, &saved.order, &mut stays);
    if !put_blocks(tables, &saved.blocks, &stays) {
        return false;
    }
    if !put_order(tables, &saved.blocks, &saved.order, &stays) {
        return false;
    }
    put_processors(tables, &saved.processors)
}

/// What the objects hold.
fn put_objects(tables: &mut KernelState, saved: &SavedState) -> bool
    ensures { SameShape tables.old tables.new }
{
    if !put_counts(tables, &saved.semaphores) {
        return false;
    }
    if !put_patterns(tables, &saved.flags) {
        return false;
    }
    if !put_words(tables, &saved.words) {
        return false;
    }
    if !put_messages(tables, &saved.messages) {
        return false;
    }
    put_shared_words(tables, &saved.shared_words)
}

/// The handlers that are due or pending.
fn put_handlers(tables: &mut KernelState, saved: &SavedState) -> bool
    ensures { SameShape tables.old tables.new }
{
    if !put_due_times(tables, &saved.due_times) {
        return false;
    }
    if !put_cyclics(tables, &saved.pending_cyclics) {
        return false;
    }
    put_interrupts(tables, &saved.pending_interrupts)
}

/// Puts tables into a saved state of their system, with clock 0. Gives whether the saved values are a state; where they
/// are not, the tables are in some state. It takes no memory.
pub fn restore(tables: &mut KernelState, saved: &SavedState) -> bool
    ensures system { tables.new.system ≡ tables.old.system }
    ensures clock { tables.new.state.clock ≡ 0 }
{
    if tables.clock() != 0 {
        tables.restart_clock();
    }
    if !put_tasks(tables, saved) {
        return false;
    }
    if !put_objects(tables, saved) {
        return false;
    }
    put_handlers(tables, saved)
}
