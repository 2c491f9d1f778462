//! The names of fields, in the words of the two texts.
ghost use Rattle.std.specs.Prelude.{◌≡◌, ◌++◌, OnOk, Some, decimal, slice_get};
ghost use Rattle.fmp_base.specs.Systems.{tables_of};
ghost use Rattle.fmp_searching.specs.FieldNames as spec;
ghost use Rattle.fmp_searching.specs.Fields.{counts_queued};

use crate::sources::say;
use fmp_base::{Entry, Name, System, TaskConfig};
use fmp_fields::What;
use fmp_frames::begins_body;
use fmp_json::append_number;
use fmp_lex::{Keyword, Symbol, TextFault, TokenKind, Tokens, tokens};
use std::alloc::{AllocError, Global};

/// A place among the locals of a body: the name of its variable, and its index where that is an array.
#[derive(Clone, Copy)]
struct LocalPlace {
    name: Name,
    index: Option<u8>,
}

/// The names of the locals of each body of a text, by their places. `exinf`, at place 0, is left out.
#[derive(Drop)]
pub struct LocalNames {
    bodies: Vec<Vec<LocalPlace>>,
}

/// How many places the array has whose declaration goes on at this token; none, if it is no array.
fn places_at(list: &Tokens<'_>, at: usize) -> Option<u8> {
    let TokenKind::Symbol(Symbol::LeftBracket) = list.kind(at)? else {
        return None;
    };
    let TokenKind::Number(places) = list.kind(at.saturating_add(1))? else {
        return None;
    };
    u8::try_from(places).ok()
}

/// Adds the places of a variable.
fn add_variable(
    places: &mut Vec<LocalPlace>,
    name: Name,
    count: Option<u8>,
) -> Result<(), AllocError> {
    let Some(count) = count else {
        places.push(LocalPlace { name, index: None })?;
        return Ok(());
    };
    for index in 0..count {
        places.push(LocalPlace {
            name,
            index: Some(index),
        })?;
    }
    Ok(())
}

impl LocalNames {
    ghost use Rattle.std.specs.Prelude.{◌≡◌};
    ghost use Rattle.fmp_searching.specs.FieldNames.{local_at};

    /// Adds what the token at a place tells.
    fn note(&mut self, alloc: Global, list: &Tokens<'_>, at: usize) -> Result<(), AllocError> {
        let Some(kind) = list.kind(at) else {
            return Ok(());
        };
        if begins_body(kind) {
            self.bodies.push(Vec::new(alloc))?;
        }
        if let TokenKind::Keyword(Keyword::Var) = kind
            && let Some(TokenKind::Name(name)) = list.kind(at.saturating_add(1))
            && let Some(places) = self.bodies.last_mut()
        {
            add_variable(places, name, places_at(list, at.saturating_add(2)))?;
        }
        Ok(())
    }

    /// The names of the locals of a text that an image was built of; none for a text that is too long. `AllocError` if
    /// memory runs out.
    pub fn new(alloc: Global, src: &[u8]) -> Result<LocalNames, AllocError> {
        let mut names = LocalNames {
            bodies: Vec::new(alloc),
        };
        let list = match tokens(alloc, src) {
            Ok(list) => list,
            Err(TextFault::Memory) => return Err(AllocError),
            Err(TextFault::TooLong) => return Ok(names),
        };
        for at in 0..list.tokens.len() {
            names.note(alloc, &list.tokens, at)?;
        }
        Ok(names)
    }

    /// The local at a place of a body, but `exinf`.
    fn local(&self, entry: Entry, place: u8) -> Option<LocalPlace>
        ensures { result ≡ local_at self.now entry place }
    {
        let Entry::Body(body) = entry else {
            return None;
        };
        let places = self.bodies.get(usize::from(body))?;
        places.get(usize::from(place.checked_sub(1)?)).copied()
    }
}

/// Appends a name and a blank, if there is a name.
fn say_before(out: &mut Vec<u8>, name: Option<Name>) -> Result<(), AllocError>
    ensures { OnOk result (out.new.items ≡ out.old.items ++ spec.before name) }
{
    if let Some(name) = name {
        out.extend_from_slice(name.as_bytes())?;
        say(out, " ")?;
    }
    Ok(())
}

/// Appends a text and the number, from 1, of what stands at a place.
#[tactic(auto, unfolding(crate::specs::FieldNames::numbered_text))]
fn say_numbered(out: &mut Vec<u8>, text: &str, place: u8) -> Result<(), AllocError>
    ensures { OnOk result (out.new.items ≡ out.old.items ++ spec.numbered_text text.now place) }
{
    say(out, text)?;
    append_number(u64::from(place) + 1, out)
}

/// Appends the index of a local, where it is of an array.
fn say_index(out: &mut Vec<u8>, index: Option<u8>) -> Result<(), AllocError>
    ensures { OnOk result (out.new.items ≡ out.old.items ++ spec.index_text index) }
{
    let Some(index) = index else {
        return Ok(());
    };
    say(out, "[")?;
    append_number(u64::from(index), out)?;
    say(out, "]")
}

/// Appends the name of a local of a body.
fn say_local(out: &mut Vec<u8>, local: Option<LocalPlace>) -> Result<(), AllocError>
    ensures { OnOk result (out.new.items ≡ out.old.items ++ spec.local_name local) }
{
    match local {
        Some(LocalPlace { name, index }) => {
            out.extend_from_slice(name.as_bytes())?;
            say_index(out, index)
        }
        None => say(out, "exinf"),
    }
}

/// What a field of a task is. Most have two words at least, so that none is the name of a local.
fn task_word(what: What) -> &'static str
    ensures { result.now ≡ spec.task_word what }
{
    match what {
        What::Phase(_) => "task state",
        What::Object(_) => "object of its wait",
        What::Wanted(_) => "bits or word of its wait",
        What::Suspended(_) => "being suspended",
        What::Priority(_) => "current priority",
        What::Processor(_) => "assigned processor",
        What::NextProcessor(_) => "processor of its next start",
        What::Activations(_) => "activations",
        What::Wakeups(_) => "wakeups",
        What::TicksLeft(_) => "ticks left",
        What::Behind(_) => "place in its queue",
        What::Operands(_) => "operand count",
        _ => "place in its body",
    }
}

/// Appends what is meant of a task with this entry.
fn say_task_meant(
    out: &mut Vec<u8>,
    names: &LocalNames,
    entry: Entry,
    what: What,
) -> Result<(), AllocError>
    ensures { OnOk result (out.new.items ≡ out.old.items ++ spec.task_meant names.now entry what) }
{
    match what {
        What::Local(_, place) => say_local(out, names.local(entry, place)),
        What::Operand(_, place) => say_numbered(out, "operand ", place),
        _ => say(out, task_word(what)),
    }
}

/// Appends the name of a field of a task.
fn say_field_of(
    out: &mut Vec<u8>,
    config: &TaskConfig,
    names: &LocalNames,
    what: What,
) -> Result<(), AllocError>
    ensures { OnOk result (out.new.items
        ≡ out.old.items ++ spec.task_field names.now (Some config.now) what) }
{
    say_before(out, Some(config.name))?;
    say_task_meant(out, names, config.entry, what)
}

/// Appends the name of a field of the task at a place, if there is one.
fn say_task_field(
    out: &mut Vec<u8>,
    sys: &System,
    names: &LocalNames,
    t: u8,
    what: What,
) -> Result<(), AllocError>
    ensures { OnOk result (out.new.items
        ≡ out.old.items ++ spec.task_field names.now (slice_get (tables_of sys.now).tasks t) what) }
{
    match sys.tasks.get(usize::from(t)) {
        Some(config) => say_field_of(out, config, names, what),
        None => say(out, "task"),
    }
}

/// What a field of a processor is.
fn processor_word(what: What) -> &'static str
    ensures { result.now ≡ spec.processor_word what }
{
    match what {
        What::Runs(_) => "task",
        What::Lock(_) => "lock",
        What::DispatchDisabled(_) => "dispatching",
        What::InterruptHandler(_) => "interrupt handler",
        What::CyclicHandler(_) => "cyclic handler",
        What::HandlerOperands(_) => "operand count of its handler",
        _ => "place in its handler",
    }
}

/// Appends what is meant of a processor.
fn say_processor_meant(out: &mut Vec<u8>, what: What) -> Result<(), AllocError>
    ensures { OnOk result (out.new.items ≡ out.old.items ++ spec.processor_meant what) }
{
    match what {
        What::HandlerLocal(_, place) => {
            say_numbered(out, "local ", place)?;
            say(out, " of its handler")
        }
        What::HandlerOperand(_, place) => {
            say_numbered(out, "operand ", place)?;
            say(out, " of its handler")
        }
        _ => say(out, processor_word(what)),
    }
}

/// Appends the name of a field of a processor.
#[tactic(auto, unfolding(crate::specs::FieldNames::processor_field))]
fn say_processor_field(out: &mut Vec<u8>, processor: u8, what: What) -> Result<(), AllocError>
    ensures { OnOk result (out.new.items ≡ out.old.items ++ spec.processor_field processor what) }
{
    say_numbered(out, "processor ", processor)?;
    say(out, " ")?;
    say_processor_meant(out, what)
}

/// The name of the object that a field is of, if it is one of an object.
fn object_name(sys: &System, what: What) -> Option<Name>
    ensures { result ≡ spec.object_name (tables_of sys.now) what }
{
    match what {
        What::Count(s) => Some(sys.semaphores.get(usize::from(s))?.name),
        What::Pattern(f) => Some(sys.flags.get(usize::from(f))?.name),
        What::Words(d) | What::Word(d, _) => Some(sys.data_queues.get(usize::from(d))?.name),
        What::FirstMessage(x) => Some(sys.mailboxes.get(usize::from(x))?.name),
        What::MessageBehind(g) => Some(sys.messages.get(usize::from(g))?.name),
        What::SharedWord(w) => Some(sys.shared_words.get(usize::from(w))?.name),
        What::TicksToDue(c) | What::PendingCyclic(c) => {
            Some(sys.cyclics.get(usize::from(c))?.name)
        }
        _ => None,
    }
}

/// What a field of an object is, or how many interrupts came.
fn object_word(what: What) -> &'static str
    ensures { result.now ≡ spec.object_word what }
{
    match what {
        What::Count(_) => "count",
        What::Pattern(_) => "pattern",
        What::Words(_) => "words",
        What::FirstMessage(_) => "first message",
        What::MessageBehind(_) => "place in its mailbox",
        What::SharedWord(_) => "value",
        What::TicksToDue(_) => "next start",
        What::PendingCyclic(_) => "pending start",
        _ => "interrupts (--ints)",
    }
}

/// Appends what is meant of an object.
fn say_object_meant(out: &mut Vec<u8>, what: What) -> Result<(), AllocError>
    ensures { OnOk result (out.new.items ≡ out.old.items ++ spec.object_meant what) }
{
    match what {
        What::Word(_, place) => say_numbered(out, "word ", place),
        _ => say(out, object_word(what)),
    }
}

/// Appends the name of a field that is neither of a task nor of a processor.
fn say_object_field(out: &mut Vec<u8>, sys: &System, what: What) -> Result<(), AllocError>
    ensures { OnOk result (out.new.items ≡ out.old.items ++ spec.object_field (tables_of sys.now) what) }
{
    if let What::PendingInterrupt(place) = what {
        return say_numbered(out, "pending interrupt ", place);
    }
    say_before(out, object_name(sys, what))?;
    say_object_meant(out, what)
}

/// The task that a field is of, if it is one of a task.
fn task_of(what: What) -> Option<u8>
    ensures { result ≡ spec.task_of what }
{
    match what {
        What::Phase(t)
        | What::Object(t)
        | What::Wanted(t)
        | What::Suspended(t)
        | What::Priority(t)
        | What::Processor(t)
        | What::Activations(t)
        | What::NextProcessor(t)
        | What::Wakeups(t)
        | What::TicksLeft(t)
        | What::Behind(t)
        | What::Pc(t)
        | What::Local(t, _)
        | What::Operands(t)
        | What::Operand(t, _) => Some(t),
        _ => None,
    }
}

/// The processor that a field is of, if it is one of a processor.
fn processor_of(what: What) -> Option<u8>
    ensures { result ≡ spec.processor_of what }
{
    match what {
        What::Runs(p)
        | What::Lock(p)
        | What::DispatchDisabled(p)
        | What::InterruptHandler(p)
        | What::CyclicHandler(p)
        | What::HandlerPc(p)
        | What::HandlerLocal(p, _)
        | What::HandlerOperands(p)
        | What::HandlerOperand(p, _) => Some(p),
        _ => None,
    }
}

/// Whether a field is how many activations or wakeups of a task are queued.
pub fn is_queue(what: What) -> bool
    ensures { result ≡ counts_queued what }
{
    match what {
        What::Activations(_) | What::Wakeups(_) => true,
        _ => false,
    }
}

/// Appends the name of a field that is not one of a task.
fn say_other_field(out: &mut Vec<u8>, sys: &System, what: What) -> Result<(), AllocError>
    ensures { OnOk result (out.new.items
        ≡ out.old.items ++ spec.other_field (tables_of sys.now) (spec.processor_of what) what) }
{
    match processor_of(what) {
        Some(p) => say_processor_field(out, p, what),
        None => say_object_field(out, sys, what),
    }
}

/// Appends the name of a field in the words of the two texts, as `CONTROL samples`. `AllocError` if memory runs out.
pub fn append_name(
    out: &mut Vec<u8>,
    sys: &System,
    names: &LocalNames,
    what: What,
) -> Result<(), AllocError>
    ensures { OnOk result (out.new.items ≡ out.old.items ++ spec.field_name (tables_of sys.now) names.now what) }
{
    match task_of(what) {
        Some(t) => say_task_field(out, sys, names, t, what),
        None => say_other_field(out, sys, what),
    }
}
