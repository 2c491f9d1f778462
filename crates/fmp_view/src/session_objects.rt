//! The state of one task or object of a session.
ghost use Rattle.fmp_session.specs.Sessions.{IsSession};

use crate::answering::{Answer, states_text};
use crate::mistakes::asked_for;
use fmp_base::{Lock, Name, ObjectKind, Phase, Processor, System, TaskBlock, WaitCause};
use fmp_frames::{Frame, last_frame};
use fmp_named::{kind_word, object_name};
use fmp_session::{Session, object_record};
use fmp_warnings::Form;
use std::alloc::{AllocError, Global};

/// The kinds of objects.
const KINDS: [ObjectKind; 9] = [
    ObjectKind::Task,
    ObjectKind::Semaphore,
    ObjectKind::Flag,
    ObjectKind::DataQueue,
    ObjectKind::Mailbox,
    ObjectKind::Message,
    ObjectKind::SharedWord,
    ObjectKind::SpinLock,
    ObjectKind::Cyclic,
];

/// The places of objects end here.
const MOST: u8 = 255;

/// The object of a configuration that a name names.
#[derive(Clone, Copy)]
struct Named {
    kind: ObjectKind,
    /// Its place in the table of its kind.
    place: u8,
    name: Name,
}

/// The object of a kind that has this name.
fn named_in(sys: &System, kind: ObjectKind, name: &[u8]) -> Option<Named> {
    for place in 0..MOST {
        let found = object_name(sys, kind, i32::from(place) + 1)?;
        if found.as_bytes() == name {
            let name = found;
            return Some(Named { kind, place, name });
        }
    }
    None
}

/// The task or object that has this name.
fn find(sys: &System, name: &[u8]) -> Option<Named> {
    for kind in KINDS {
        if let Some(named) = named_in(sys, kind, name) {
            return Some(named);
        }
    }
    None
}

/// Adds the names of the objects of a kind.
fn add_names(sys: &System, kind: ObjectKind, known: &mut Vec<Name>) -> Result<(), AllocError> {
    for place in 0..MOST {
        match object_name(sys, kind, i32::from(place) + 1) {
            Some(name) => known.push(name)?,
            None => return Ok(()),
        }
    }
    Ok(())
}

/// The names of all tasks and objects.
fn names_of(alloc: Global, sys: &System) -> Result<Vec<Name>, AllocError> {
    let mut known = Vec::new(alloc);
    for kind in KINDS {
        add_names(sys, kind, &mut known)?;
    }
    Ok(known)
}

/// Why a line fails whose name names nothing.
fn no_object(alloc: Global, sys: &System, name: &[u8]) -> Result<String, AllocError> {
    let known = names_of(alloc, sys)?;
    let question = asked_for(alloc, name, &known)?;
    let name = String::from_utf8_lossy(alloc, name)?;
    format!(in alloc; "no task or object of the configuration has the name `{name}`{question}")
}

/// The number of the processor that holds a spin lock; 0 if none does.
fn holder_of(processors: &[Processor], lock: u8) -> i32 {
    match processors
        .iter()
        .position(|processor| processor.lock == Lock::Spin(lock))
    {
        Some(place) => place.min(8) as i32 + 1,
        None => 0,
    }
}

/// What is shown of an object.
#[derive(Clone, Copy)]
struct ObjectValue {
    /// What the value is, in a word.
    word: &'static str,
    value: i32,
}

/// The lines of the states of all tasks, in a form.
#[derive(Clone, Copy)]
struct StateLines<'a> {
    form: Form,
    text: &'a [u8],
}

/// What is shown of an object; nothing of a task.
fn value_of(sys: &System, frame: &Frame, named: Named) -> Option<ObjectValue> {
    let place = usize::from(named.place);
    let (word, value) = match named.kind {
        ObjectKind::Task => return None,
        ObjectKind::Semaphore => ("count", i32::from(*frame.semaphores.get(place)?)),
        ObjectKind::Flag => ("pattern", i32::from(*frame.flags.get(place)?)),
        ObjectKind::DataQueue => ("words", i32::from(*frame.data_queues.get(place)?)),
        ObjectKind::Mailbox => ("messages", i32::from(*frame.mailboxes.get(place)?)),
        ObjectKind::Message => ("priority", i32::from(sys.messages.get(place)?.priority)),
        ObjectKind::SharedWord => ("value", *frame.shared_words.get(place)?),
        ObjectKind::SpinLock => ("processor", holder_of(&frame.processors, named.place)),
        ObjectKind::Cyclic => ("pending", i32::from(*frame.pending_cyclics.get(place)?)),
    };
    Some(ObjectValue { word, value })
}

/// Whether a task of this block waits for an object.
fn waits_for(block: &TaskBlock, named: Named) -> bool {
    let Phase::Waiting(cause) = block.phase else {
        return false;
    };
    let place = named.place;
    match (named.kind, cause) {
        (ObjectKind::Semaphore, WaitCause::Semaphore(other)) => other == place,
        (ObjectKind::Flag, WaitCause::Flag { flag, .. }) => flag == place,
        (ObjectKind::DataQueue, WaitCause::Sending { queue, .. }) => queue == place,
        (ObjectKind::DataQueue, WaitCause::Receiving(queue)) => queue == place,
        (ObjectKind::Mailbox, WaitCause::Mailbox(other)) => other == place,
        _ => false,
    }
}

/// Whether the state of the task at a place, with this block, is shown of a task or an object.
fn is_shown(task: usize, block: &TaskBlock, named: Named) -> bool {
    match named.kind {
        ObjectKind::Task => task == usize::from(named.place),
        _ => waits_for(block, named),
    }
}

/// The line at a place of a text, from 0, without its line feed.
fn line_at(text: &[u8], place: usize) -> &[u8] {
    let mut lines = text.split(|byte| *byte == b'\n');
    match lines.nth(place) {
        Some(line) => line,
        None => &[],
    }
}

/// Appends those of the lines of the states of tasks that are shown of a task or an object.
fn append_states_of(
    states: &[u8],
    blocks: &[TaskBlock],
    named: Named,
    out: &mut Vec<u8>,
) -> Result<(), AllocError> {
    for (task, block) in blocks.iter().enumerate() {
        if is_shown(task, block, named) {
            out.extend_from_slice(line_at(states, task))?;
            out.push(b'\n')?;
        }
    }
    Ok(())
}

/// Appends what is shown of an object.
fn append_value(
    alloc: Global,
    form: Form,
    named: Named,
    shown: ObjectValue,
    out: &mut Vec<u8>,
) -> Result<(), AllocError> {
    let ObjectValue { word, value } = shown;
    let kind = kind_word(named.kind);
    let line = match form {
        Form::Text => {
            let name = String::from_utf8_lossy(alloc, named.name.as_bytes())?;
            let line = format!(in alloc; "{kind} {name}: {word} {value}\n")?;
            line.into_bytes()
        }
        Form::Json => object_record(alloc, kind, named.name.as_bytes(), value)?,
    };
    out.extend_from_slice(&line)
}

/// What is shown of a task or an object, from the lines of the states of all tasks: an object's value, and the states
/// of the tasks that wait for it.
fn shown_in(
    alloc: Global,
    sys: &System,
    frame: &Frame,
    states: StateLines<'_>,
    named: Named,
) -> Result<Vec<u8>, AllocError> {
    let mut out = Vec::new(alloc);
    if let Some(value) = value_of(sys, frame, named) {
        append_value(alloc, states.form, named, value, &mut out)?;
    }
    append_states_of(states.text, &frame.blocks, named, &mut out)?;
    Ok(out)
}

/// What is shown of a task or an object.
fn shown_of(
    alloc: Global,
    session: &Session<'_>,
    form: Form,
    named: Named,
) -> Result<Vec<u8>, AllocError>
    requires { IsSession session.now }
{
    let text = states_text(alloc, session, form)?;
    let states = StateLines { form, text: &text };
    let image = session.image();
    let frame = last_frame(alloc, session.kernel())?;
    let shown = shown_in(alloc, image.system(), &frame, states, named);
    drop(frame);
    shown
}

/// The state of the task or object of this name.
pub fn state_of(
    alloc: Global,
    session: &Session<'_>,
    form: Form,
    name: &[u8],
) -> Result<Answer, AllocError>
    requires { IsSession session.now }
{
    let sys = session.image().system();
    match find(sys, name) {
        Some(named) => Ok(Answer::Told(shown_of(alloc, session, form, named)?)),
        None => Ok(Answer::Refused(no_object(alloc, sys, name)?)),
    }
}
