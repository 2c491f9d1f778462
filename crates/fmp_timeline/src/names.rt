//! The names that a picture has for tasks, handlers, objects and calls.
ghost use Rattle.std.specs.Prelude.{◌≡◌, false, option_map};
ghost use Rattle.fmp_base.specs.Systems.{tables_of};
ghost use Rattle.fmp_named.specs.Names.{name_at};
ghost use Rattle.fmp_timeline.specs.Canvases.{Adds};
ghost use Rattle.fmp_timeline.specs.Names as spec;

use crate::canvas::Canvas;
use fmp_base::{Call, Handler, Name, ObjectKind, Reply, System, WaitCause};
use std::alloc::Global;

/// What an argument or a wait is about.
#[derive(Clone, Copy, PartialEq, Eq)]
pub enum ArgumentTopic {
    Task(u8),
    Semaphore(u8),
    Flag(u8),
    DataQueue(u8),
    Mailbox(u8),
    SharedWord(u8),
    SpinLock(u8),
    Cyclic(u8),
}

/// The name of what a topic is, if there is one.
fn name_of(sys: &System, topic: ArgumentTopic) -> Option<&Name>
    ensures { option_map (λ name. name.now) result
        ≡ name_at (tables_of sys.now) (spec.kind_of topic) (spec.place_of topic) }
{
    match topic {
        ArgumentTopic::Task(place) => Some(&sys.tasks.get(usize::from(place))?.name),
        ArgumentTopic::SharedWord(place) => Some(&sys.shared_words.get(usize::from(place))?.name),
        ArgumentTopic::SpinLock(place) => Some(&sys.spin_locks.get(usize::from(place))?.name),
        ArgumentTopic::Cyclic(place) => Some(&sys.cyclics.get(usize::from(place))?.name),
        ArgumentTopic::Semaphore(place) => Some(&sys.semaphores.get(usize::from(place))?.name),
        ArgumentTopic::Flag(place) => Some(&sys.flags.get(usize::from(place))?.name),
        ArgumentTopic::DataQueue(place) => Some(&sys.data_queues.get(usize::from(place))?.name),
        ArgumentTopic::Mailbox(place) => Some(&sys.mailboxes.get(usize::from(place))?.name),
    }
}

/// The bytes of the name of what a topic is; none if there is nothing.
pub fn bytes_of(sys: &System, topic: ArgumentTopic) -> &[u8]
    ensures { result.now ≡ spec.topic_text (tables_of sys.now) topic }
{
    match name_of(sys, topic) {
        Some(name) => name.as_bytes(),
        None => &[],
    }
}

/// The bytes of the name of the task at a place.
pub fn task_bytes(sys: &System, place: u8) -> &[u8]
    ensures { result.now ≡ spec.topic_text (tables_of sys.now) (ArgumentTopic.Task place) }
{
    bytes_of(sys, ArgumentTopic::Task(place))
}

/// Appends the name of a handler: of an interrupt these words and its number.
pub fn append_handler(sys: &System, handler: Handler, words: &str, out: &mut Canvas)
    ensures { Adds out.old out.new (spec.handler_text (tables_of sys.now) handler words.now) }
{
    match handler {
        Handler::Cyclic(place) => out.plain(bytes_of(sys, ArgumentTopic::Cyclic(place))),
        Handler::Interrupt(place) => out.numbered(words, u32::from(place).saturating_add(1), ""),
    }
}

/// The name of a handler as a text.
pub fn handler_text(alloc: Global, sys: &System, handler: Handler, words: &str) -> Canvas
    ensures { result.is_cut ≡ false
        → result.bytes.items ≡ spec.handler_text (tables_of sys.now) handler words.now }
{
    let mut text = Canvas::new(alloc);
    append_handler(sys, handler, words, &mut text);
    text
}

/// An object of a kind at a place, where a picture shows such objects.
fn topic_of(kind: ObjectKind, place: u8) -> Option<ArgumentTopic> {
    match kind {
        ObjectKind::Task => Some(ArgumentTopic::Task(place)),
        ObjectKind::Semaphore => Some(ArgumentTopic::Semaphore(place)),
        ObjectKind::Flag => Some(ArgumentTopic::Flag(place)),
        ObjectKind::DataQueue => Some(ArgumentTopic::DataQueue(place)),
        ObjectKind::Mailbox => Some(ArgumentTopic::Mailbox(place)),
        ObjectKind::SharedWord => Some(ArgumentTopic::SharedWord(place)),
        ObjectKind::SpinLock => Some(ArgumentTopic::SpinLock(place)),
        ObjectKind::Cyclic => Some(ArgumentTopic::Cyclic(place)),
        ObjectKind::Message => None,
    }
}

/// The kind of the objects of which an argument of a call, from 0, names one. The out place is no argument.
fn kind_named(call: Call, index: usize) -> Option<ObjectKind> {
    let service = call.service();
    let place = match service.out_place() {
        Some(out) if usize::from(out) <= index => index.saturating_add(1),
        _ => index,
    };
    service.parameters().get(place)?.object_kind()
}

/// The name of the message with this number.
fn message_name(sys: &System, number: i32) -> Option<&Name> {
    let place = usize::try_from(number.checked_sub(1)?).ok()?;
    Some(&sys.messages.get(place)?.name)
}

/// The name of the object of a kind with this number, if it has one.
fn numbered_name(sys: &System, kind: ObjectKind, number: i32) -> Option<&Name> {
    if let ObjectKind::Message = kind {
        return message_name(sys, number);
    }
    let place = u8::try_from(number.checked_sub(1)?).ok()?;
    name_of(sys, topic_of(kind, place)?)
}

/// The bytes of the name for an argument of a call, if it has one.
fn argument_name(sys: &System, call: Call, index: usize, number: i32) -> Option<&[u8]> {
    match kind_named(call, index)? {
        ObjectKind::Task if number == 0 => Some(b"self"),
        kind => Some(numbered_name(sys, kind, number)?.as_bytes()),
    }
}

fn append_argument(sys: &System, call: Call, index: usize, number: i32, out: &mut Canvas) {
    if index > 0 {
        out.raw(",");
    }
    match argument_name(sys, call, index, number) {
        Some(name) => out.plain(name),
        None => out.signed(number),
    }
}

/// Appends a call with the names of what its arguments are about.
pub fn append_call(sys: &System, call: Call, out: &mut Canvas) {
    out.raw(call.service().name());
    out.raw("(");
    let arguments = call.arguments();
    for (index, number) in arguments.as_slice().iter().enumerate() {
        append_argument(sys, call, index, *number, out);
    }
    out.raw(")");
}

/// Appends the value that a call gives.
pub fn append_value(reply: Option<Reply>, out: &mut Canvas)
    ensures { Adds out.old out.new (spec.value_text reply) }
{
    if let Some(reply) = reply
        && let Some(value) = reply.value
    {
        out.raw(" = ");
        out.signed(value);
    }
}

/// What a task waits for: an arrow where it sends or receives, and a name.
pub fn wait_name(sys: &System, cause: WaitCause) -> (&'static str, &[u8])
    ensures arrow { result.0.now ≡ spec.wait_arrow cause }
    ensures name { result.1.now ≡ spec.wait_text (tables_of sys.now) cause }
{
    match cause {
        WaitCause::Sleep => ("", b"sleep"),
        WaitCause::Delay => ("", b"delay"),
        WaitCause::Semaphore(place) => ("", bytes_of(sys, ArgumentTopic::Semaphore(place))),
        WaitCause::Flag { flag, .. } => ("", bytes_of(sys, ArgumentTopic::Flag(flag))),
        WaitCause::Sending { queue, .. } => ("→", bytes_of(sys, ArgumentTopic::DataQueue(queue))),
        WaitCause::Receiving(queue) => ("←", bytes_of(sys, ArgumentTopic::DataQueue(queue))),
        WaitCause::Mailbox(place) => ("←", bytes_of(sys, ArgumentTopic::Mailbox(place))),
    }
}
