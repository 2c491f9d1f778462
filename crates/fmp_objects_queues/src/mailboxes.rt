//! The service calls on mailboxes (uITRON 4.0, section 4.4.4). A message is its number and its priority.
ghost use Rattle.std.specs.Prelude.{◌≡◌, ◌<◌, [], length, IfSome};
ghost use Rattle.fmp_base.specs.Arguments.{IsTimeLimit};
ghost use Rattle.fmp_base.specs.MailboxCalls.{message_sent, message_received, snd_mbx as snd_mbx_case};
ghost use Rattle.fmp_base.specs.MailboxCalls.{rcv_mbx as rcv_mbx_case, trcv_mbx as trcv_mbx_case};
ghost use Rattle.fmp_base.specs.Outcomes.{numbered as place_of};
ghost use Rattle.fmp_base.specs.States.{task_at};
ghost use Rattle.fmp_tasks.specs.Lines.{AreEmptyWithRoom};
ghost use Rattle.fmp_tasks.specs.Tables.{outcome, SameShape, SameShapeAndRoom};

use fmp_base::arguments::{limit_of, numbered};
use fmp_base::{Answer, Er, Line, QueueOrder, TimeLimit, WaitCause, WaitQueue};
use fmp_tasks::KernelState;
use fmp_tasks::answers::{given, gives, replied};
use fmp_tasks::tasks::{release, wait_within};

/// The mailbox that a number names, if there is one.
fn mailbox_of(tables: &KernelState, number: i32) -> Option<u8>
    ensures value { result ≡ place_of (length tables.now.state.mailboxes) number }
    ensures there { IfSome result (λ m. m < length tables.now.system.mailboxes) }
{
    numbered(tables.mailbox_count(), number)
}

/// The message that a number names, if there is one.
fn message_of(tables: &KernelState, number: i32) -> Option<u8>
    ensures value { result ≡ place_of (length tables.now.system.messages) number }
    ensures there { IfSome result (λ g. g < length tables.now.system.messages) }
{
    numbered(tables.message_count(), number)
}

/// The first task that waits for mailbox m gets message g, or the message is queued. E_PAR if messages queue by
/// priority and this one's is above the mailbox's limit, then E_OBJ if it is queued somewhere.
fn send(tables: &mut KernelState, lines: &mut Vec<Line>, m: u8, g: u8) -> Answer
    requires mailbox { m < length tables.old.system.mailboxes }
    requires message { g < length tables.old.system.messages }
    requires lines { AreEmptyWithRoom 1 lines.old }
    ensures outcome { outcome result tables.new lines.new.items ≡ message_sent tables.old.system tables.old.state m g }
    ensures kept { SameShapeAndRoom tables.old tables.new lines.old lines.new }
{
    let config = tables.mailbox_config(m);
    let by_priority = matches!(config.message_order, QueueOrder::Priority);
    if by_priority && config.most < tables.message_config(g).priority {
        return replied(Er::Par);
    }
    if tables.is_queued(g) {
        return replied(Er::Obj);
    }
    match tables.first_waiting(WaitQueue::Mailbox(m)) {
        Some(t) => {
            let x = tables.task(t);
            release(tables, lines, t, x, given(g as i32 + 1));
        }
        None => tables.enqueue_message(m, g),
    }
    replied(Er::Ok)
}

/// `snd_mbx` (uITRON 4.0, section 4.4.4): releases the first task that waits for the mailbox, with E_OK and the
/// message's number. With no such task it queues the message: with TA_MPRI after those of its priority and more urgent
/// ones, else last. In this order: E_ID if a number names no mailbox or no message, E_PAR if, with TA_MPRI, the
/// message's priority is above the mailbox's limit, E_OBJ if the message is queued in some mailbox; nothing changes
/// then.
pub fn snd_mbx(
    tables: &mut KernelState,
    lines: &mut Vec<Line>,
    mailbox: i32,
    message: i32,
) -> Answer
    requires lines { AreEmptyWithRoom 1 lines.old }
    ensures outcome { outcome result tables.new lines.new.items
        ≡ snd_mbx_case tables.old.system tables.old.state mailbox message }
    ensures kept { SameShapeAndRoom tables.old tables.new lines.old lines.new }
{
    let Some(m) = mailbox_of(tables, mailbox) else {
        return replied(Er::Id);
    };
    match message_of(tables, message) {
        Some(g) => send(tables, lines, m, g),
        None => replied(Er::Id),
    }
}

/// Task me gets the first message of mailbox m, or else it waits within the limit.
fn receive(tables: &mut KernelState, me: u8, limit: TimeLimit, m: u8) -> Answer
    requires there { m < length tables.old.system.mailboxes }
    requires me { me < length tables.old.system.tasks }
    requires limit { IsTimeLimit limit }
    ensures outcome { outcome result tables.new []
        ≡ message_received tables.old.state me (task_at tables.old.state.tasks me) limit m }
    ensures shape { SameShape tables.old tables.new }
{
    match tables.first_message(m) {
        Some(g) => {
            tables.take_message(m);
            gives(g as i32 + 1)
        }
        None => {
            let x = tables.task(me);
            wait_within(tables, me, x, WaitCause::Mailbox(m), limit)
        }
    }
}

/// `rcv_mbx` and `prcv_mbx` by task me (uITRON 4.0, section 4.4.4): gives the number of the first message and takes it
/// out, else waits at the end of the order within the limit. E_ID if the number names no mailbox, then E_TMOUT if a
/// poll finds no message; nothing changes then.
pub fn rcv_mbx(tables: &mut KernelState, me: u8, limit: TimeLimit, mailbox: i32) -> Answer
    requires me { me < length tables.old.system.tasks }
    requires limit { IsTimeLimit limit }
    ensures outcome { outcome result tables.new []
        ≡ rcv_mbx_case tables.old.state me (task_at tables.old.state.tasks me) limit mailbox }
    ensures shape { SameShape tables.old tables.new }
{
    match mailbox_of(tables, mailbox) {
        Some(m) => receive(tables, me, limit, m),
        None => replied(Er::Id),
    }
}

/// `trcv_mbx` by task me (uITRON 4.0, section 4.4.4): as `rcv_mbx`, with the time limit that a number states, in ticks:
/// -1 is none, 0 polls, the greatest is 2^30. E_ID if the number names no mailbox, then E_PAR if the limit is none of
/// these, then E_TMOUT if a poll finds no message; nothing changes then.
pub fn trcv_mbx(tables: &mut KernelState, me: u8, mailbox: i32, limit: i32) -> Answer
    requires { me < length tables.old.system.tasks }
    ensures outcome { outcome result tables.new []
        ≡ trcv_mbx_case tables.old.state me (task_at tables.old.state.tasks me) mailbox limit }
    ensures shape { SameShape tables.old tables.new }
{
    let Some(m) = mailbox_of(tables, mailbox) else {
        return replied(Er::Id);
    };
    match limit_of(limit) {
        Some(limit) => receive(tables, me, limit, m),
        None => replied(Er::Par),
    }
}
