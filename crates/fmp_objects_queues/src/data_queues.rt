//! The service calls on data queues (uITRON 4.0, section 4.4.3).
ghost use Rattle.std.specs.Prelude.{◌≡◌, ℕ, ◌<◌, length, slice_get, Some, IfSome};
ghost use Rattle.fmp_base.specs.Arguments.{IsTimeLimit};
ghost use Rattle.fmp_base.specs.declared.states.TaskBlock.{TaskBlock};
ghost use Rattle.fmp_base.specs.DataQueueCalls.{words_at, offered_word as offered_word_case, word_sent, forced_to};
ghost use Rattle.fmp_base.specs.DataQueueCalls.{word_received, word_received_from, snd_dtq as snd_dtq_case};
ghost use Rattle.fmp_base.specs.DataQueueCalls.{tsnd_dtq as tsnd_dtq_case, fsnd_dtq as fsnd_dtq_case};
ghost use Rattle.fmp_base.specs.DataQueueCalls.{rcv_dtq as rcv_dtq_case, trcv_dtq as trcv_dtq_case};
ghost use Rattle.fmp_base.specs.Outcomes.{numbered as place_of};
ghost use Rattle.fmp_base.specs.Queues.{first_waiting};
ghost use Rattle.fmp_base.specs.States.{task_at};
ghost use Rattle.fmp_tasks.specs.Lines.{AreEmptyWithRoom};
ghost use Rattle.fmp_tasks.specs.Tables.{outcome, SameShapeAndRoom};

use fmp_base::arguments::{limit_of, numbered};
use fmp_base::{Answer, Er, Line, Phase, TimeLimit, WaitCause, WaitQueue};
use fmp_tasks::KernelState;
use fmp_tasks::answers::{code, given, gives, replied};
use fmp_tasks::tasks::{release, wait_within};

/// The data queue that a number names, if there is one.
fn data_queue_of(tables: &KernelState, number: i32) -> Option<u8>
    ensures value { result ≡ place_of (length tables.now.state.data_queues) number }
    ensures there { IfSome result (λ d. d < length tables.now.system.data_queues) }
{
    numbered(tables.data_queue_count(), number)
}

/// The word with which a task of this phase waits; 0 if it waits with none.
fn offered_word(phase: Phase) -> i32
    ensures { result ≡ offered_word_case phase }
{
    match phase {
        Phase::Waiting(WaitCause::Sending { word, .. }) => word,
        _ => 0,
    }
}

/// The first task that waits to receive gets the word, or the word is put last if there is room, or else task me waits
/// with it within the limit.
fn send(
    tables: &mut KernelState,
    lines: &mut Vec<Line>,
    me: u8,
    limit: TimeLimit,
    d: u8,
    word: i32,
) -> Answer
    requires there { d < length tables.old.system.data_queues }
    requires me { me < length tables.old.system.tasks }
    requires limit { IsTimeLimit limit }
    requires lines { AreEmptyWithRoom 1 lines.old }
    ensures outcome { outcome result tables.new lines.new.items
        ≡ word_sent tables.old.system tables.old.state me (task_at tables.old.state.tasks me) word limit d }
    ensures kept { SameShapeAndRoom tables.old tables.new lines.old lines.new }
{
    if let Some(t) = tables.first_waiting(WaitQueue::Receivers(d)) {
        let x = tables.task(t);
        release(tables, lines, t, x, given(word));
        return replied(Er::Ok);
    }
    if tables.has_room(d) {
        tables.append_word(d, word);
        return replied(Er::Ok);
    }
    let x = tables.task(me);
    wait_within(tables, me, x, WaitCause::Sending { queue: d, word }, limit)
}

/// `snd_dtq` and `psnd_dtq` by task me (uITRON 4.0, section 4.4.3): releases the first task that waits to receive, with
/// E_OK and the word. With no such task it puts the word last if there is room, and else waits with it at the end of
/// the order within the limit. E_ID if the number names no data queue, then E_TMOUT if a poll would have to wait;
/// nothing changes then.
pub fn snd_dtq(
    tables: &mut KernelState,
    lines: &mut Vec<Line>,
    me: u8,
    limit: TimeLimit,
    queue: i32,
    word: i32,
) -> Answer
    requires me { me < length tables.old.system.tasks }
    requires limit { IsTimeLimit limit }
    requires lines { AreEmptyWithRoom 1 lines.old }
    ensures outcome { outcome result tables.new lines.new.items
        ≡ snd_dtq_case tables.old.system tables.old.state me (task_at tables.old.state.tasks me) limit queue word }
    ensures kept { SameShapeAndRoom tables.old tables.new lines.old lines.new }
{
    match data_queue_of(tables, queue) {
        Some(d) => send(tables, lines, me, limit, d, word),
        None => replied(Er::Id),
    }
}

/// `tsnd_dtq` by task me (uITRON 4.0, section 4.4.3): as `snd_dtq`, with the time limit that a number states, in ticks:
/// -1 is none, 0 polls, the greatest is 2^30. E_ID if the number names no data queue, then E_PAR if the limit is none
/// of these, then E_TMOUT if a poll would have to wait; nothing changes then.
pub fn tsnd_dtq(
    tables: &mut KernelState,
    lines: &mut Vec<Line>,
    me: u8,
    queue: i32,
    word: i32,
    limit: i32,
) -> Answer
    requires me { me < length tables.old.system.tasks }
    requires lines { AreEmptyWithRoom 1 lines.old }
    ensures outcome { outcome result tables.new lines.new.items
        ≡ tsnd_dtq_case tables.old.system tables.old.state me (task_at tables.old.state.tasks me) queue word limit }
    ensures kept { SameShapeAndRoom tables.old tables.new lines.old lines.new }
{
    let Some(d) = data_queue_of(tables, queue) else {
        return replied(Er::Id);
    };
    match limit_of(limit) {
        Some(limit) => send(tables, lines, me, limit, d, word),
        None => replied(Er::Par),
    }
}

/// `ipsnd_dtq`, and what `psnd_dtq` does for every caller (uITRON 4.0, section 4.4.3): as `snd_dtq` with a poll, but
/// with no caller. E_ID if the number names no data queue, then E_TMOUT if no task waits to receive and there is no
/// room; nothing changes then.
pub fn psnd_dtq(tables: &mut KernelState, lines: &mut Vec<Line>, queue: i32, word: i32) -> Answer
    requires lines { AreEmptyWithRoom 1 lines.old }
    ensures outcome { (me : ℕ) (x : TaskBlock)
        → outcome result tables.new lines.new.items
        ≡ snd_dtq_case tables.old.system tables.old.state me x TimeLimit.Poll queue word }
    ensures kept { SameShapeAndRoom tables.old tables.new lines.old lines.new }
{
    let Some(d) = data_queue_of(tables, queue) else {
        return replied(Er::Id);
    };
    if let Some(t) = tables.first_waiting(WaitQueue::Receivers(d)) {
        let x = tables.task(t);
        release(tables, lines, t, x, given(word));
        return replied(Er::Ok);
    }
    if tables.has_room(d) {
        tables.append_word(d, word);
        replied(Er::Ok)
    } else {
        replied(Er::Tmout)
    }
}

/// The first task that waits to receive gets the word, or the word is put last, where a full queue drops its oldest.
fn force(tables: &mut KernelState, lines: &mut Vec<Line>, d: u8, word: i32) -> Answer
    requires there { d < length tables.old.system.data_queues }
    requires lines { AreEmptyWithRoom 1 lines.old }
    ensures outcome { outcome result tables.new lines.new.items
        ≡ forced_to (first_waiting tables.old.system tables.old.state (WaitQueue.Receivers d)) tables.old.system
        tables.old.state d word }
    ensures kept { SameShapeAndRoom tables.old tables.new lines.old lines.new }
{
    if let Some(t) = tables.first_waiting(WaitQueue::Receivers(d)) {
        let x = tables.task(t);
        release(tables, lines, t, x, given(word));
    } else if tables.has_room(d) {
        tables.append_word(d, word);
    } else {
        tables.force_word(d, word);
    }
    replied(Er::Ok)
}

/// `fsnd_dtq` and `ifsnd_dtq` (uITRON 4.0, section 4.4.3): releases the first task that waits to receive, with E_OK and
/// the word. With no such task it puts the word last, and a full queue drops its oldest word first. E_ID if the number
/// names no data queue, then E_ILUSE if it can hold no word; nothing changes then.
pub fn fsnd_dtq(tables: &mut KernelState, lines: &mut Vec<Line>, queue: i32, word: i32) -> Answer
    requires lines { AreEmptyWithRoom 1 lines.old }
    ensures outcome { outcome result tables.new lines.new.items
        ≡ fsnd_dtq_case tables.old.system tables.old.state queue word }
    ensures kept { SameShapeAndRoom tables.old tables.new lines.old lines.new }
{
    let Some(d) = data_queue_of(tables, queue) else {
        return replied(Er::Id);
    };
    if tables.data_queue_config(d).capacity == 0 {
        return replied(Er::Iluse);
    }
    force(tables, lines, d, word)
}

/// The oldest word, which this is, leaves the queue. The word of the first task that waits to send, if any, is put
/// last, and the task is released.
fn take_oldest(tables: &mut KernelState, lines: &mut Vec<Line>, d: u8, word: i32) -> Answer
    requires there { d < length tables.old.system.data_queues }
    requires oldest { slice_get (words_at tables.old.state d) 0 ≡ Some word }
    requires lines { AreEmptyWithRoom 1 lines.old }
    ensures outcome { (me : ℕ) (x : TaskBlock) (limit : TimeLimit)
        → outcome result tables.new lines.new.items ≡ word_received tables.old.system tables.old.state me x limit d }
    ensures kept { SameShapeAndRoom tables.old tables.new lines.old lines.new }
{
    match tables.first_waiting(WaitQueue::Senders(d)) {
        Some(t) => {
            let x = tables.task(t);
            tables.force_word(d, offered_word(x.phase));
            release(tables, lines, t, x, code(Er::Ok));
        }
        None => tables.drop_oldest(d),
    }
    gives(word)
}

/// Task me gets the oldest word, or with none that of the first task that waits to send, or else it waits within the
/// limit.
fn receive(
    tables: &mut KernelState,
    lines: &mut Vec<Line>,
    me: u8,
    limit: TimeLimit,
    d: u8,
) -> Answer
    requires there { d < length tables.old.system.data_queues }
    requires me { me < length tables.old.system.tasks }
    requires limit { IsTimeLimit limit }
    requires lines { AreEmptyWithRoom 1 lines.old }
    ensures outcome { outcome result tables.new lines.new.items
        ≡ word_received tables.old.system tables.old.state me (task_at tables.old.state.tasks me) limit d }
    ensures kept { SameShapeAndRoom tables.old tables.new lines.old lines.new }
{
    if let Some(word) = tables.oldest_word(d) {
        return take_oldest(tables, lines, d, word);
    }
    if let Some(t) = tables.first_waiting(WaitQueue::Senders(d)) {
        let x = tables.task(t);
        release(tables, lines, t, x, code(Er::Ok));
        return gives(offered_word(x.phase));
    }
    let x = tables.task(me);
    wait_within(tables, me, x, WaitCause::Receiving(d), limit)
}

/// `rcv_dtq` and `prcv_dtq` by task me (uITRON 4.0, section 4.4.3): gives the oldest word; the word of the first task
/// that waits to send is then put last, and that task is released with E_OK. If the queue can hold no word, gives the
/// word of that task and releases it. With no word it waits at the end of the order within the limit. E_ID if the
/// number names no data queue, then E_TMOUT if a poll finds no word; nothing changes then.
pub fn rcv_dtq(
    tables: &mut KernelState,
    lines: &mut Vec<Line>,
    me: u8,
    limit: TimeLimit,
    queue: i32,
) -> Answer
    requires me { me < length tables.old.system.tasks }
    requires limit { IsTimeLimit limit }
    requires lines { AreEmptyWithRoom 1 lines.old }
    ensures outcome { outcome result tables.new lines.new.items
        ≡ rcv_dtq_case tables.old.system tables.old.state me (task_at tables.old.state.tasks me) limit queue }
    ensures kept { SameShapeAndRoom tables.old tables.new lines.old lines.new }
{
    match data_queue_of(tables, queue) {
        Some(d) => receive(tables, lines, me, limit, d),
        None => replied(Er::Id),
    }
}

/// `trcv_dtq` by task me (uITRON 4.0, section 4.4.3): as `rcv_dtq`, with the time limit that a number states, in ticks:
/// -1 is none, 0 polls, the greatest is 2^30. E_ID if the number names no data queue, then E_PAR if the limit is none
/// of these, then E_TMOUT if a poll finds no word; nothing changes then.
pub fn trcv_dtq(
    tables: &mut KernelState,
    lines: &mut Vec<Line>,
    me: u8,
    queue: i32,
    limit: i32,
) -> Answer
    requires me { me < length tables.old.system.tasks }
    requires lines { AreEmptyWithRoom 1 lines.old }
    ensures outcome { outcome result tables.new lines.new.items
        ≡ trcv_dtq_case tables.old.system tables.old.state me (task_at tables.old.state.tasks me) queue limit }
    ensures kept { SameShapeAndRoom tables.old tables.new lines.old lines.new }
{
    let Some(d) = data_queue_of(tables, queue) else {
        return replied(Er::Id);
    };
    match limit_of(limit) {
        Some(limit) => receive(tables, lines, me, limit, d),
        None => replied(Er::Par),
    }
}
