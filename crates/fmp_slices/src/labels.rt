//! What slices are called.
ghost use Rattle.std.specs.Prelude.{◌≡◌, ◌++◌, OnOk};
ghost use Rattle.fmp_base.specs.Systems.{interrupt_config, tables_of};
ghost use Rattle.fmp_slices.specs.Labels as spec;

use fmp_base::{
    Caller, Entry, Handler, InterruptConfig, Name, Phase, StateWord, System, TaskBlock,
};
use fmp_json::{append, append_number};
use fmp_named::{append_caller, append_wait};
use fmp_timeline::TaskShown;
use std::alloc::AllocError;

/// The name of the body of an entry: its own, or that among the names of the bodies, in order of number.
pub fn entry_name(bodies: &[Name], entry: Entry) -> Option<Name>
    ensures { result ≡ spec.entry_name bodies.now entry }
{
    match entry {
        Entry::Named(name) => Some(name),
        Entry::Body(place) => bodies.get(usize::from(place)).copied(),
    }
}

/// The handler of the interrupt at a place.
pub fn interrupt_at(sys: &System, place: u8) -> Option<InterruptConfig>
    ensures { result ≡ interrupt_config (tables_of sys.now) place }
{
    for config in &sys.interrupts {
        if u32::from(config.number) == u32::from(place) + 1 {
            return Some(*config);
        }
    }
    None
}

/// The entry of a handler.
fn handler_entry(sys: &System, handler: Handler) -> Option<Entry>
    ensures { result ≡ spec.handler_entry (tables_of sys.now) handler }
{
    match handler {
        Handler::Cyclic(place) => match sys.cyclics.get(usize::from(place)) {
            Some(config) => Some(config.entry),
            None => None,
        },
        Handler::Interrupt(place) => match interrupt_at(sys, place) {
            Some(config) => Some(config.entry),
            None => None,
        },
    }
}

/// The name of the body of a handler, if it is known.
fn body_name(sys: &System, bodies: &[Name], handler: Handler) -> Option<Name>
    ensures { result ≡ spec.body_name (tables_of sys.now) bodies.now handler }
{
    match handler_entry(sys, handler) {
        Some(entry) => entry_name(bodies, entry),
        None => None,
    }
}

/// Appends what a handler is called where the name of its body is not known.
fn append_own_name(sys: &System, handler: Handler, out: &mut Vec<u8>) -> Result<(), AllocError>
    ensures { OnOk result (out.new.items ≡ out.old.items ++ spec.own_name (tables_of sys.now) handler) }
{
    match handler {
        Handler::Interrupt(place) => {
            append(b"interrupt ", out)?;
            append_number(u64::from(place) + 1, out)
        }
        Handler::Cyclic(_) => append_caller(sys, Caller::Handler(handler), out),
    }
}

/// Appends the name of the body of a handler. Where it is not known, that of a cyclic handler, and of an interrupt
/// `interrupt` and its number.
pub fn append_body(
    sys: &System,
    bodies: &[Name],
    handler: Handler,
    out: &mut Vec<u8>,
) -> Result<(), AllocError>
    ensures { OnOk result (out.new.items
        ≡ out.old.items ++ spec.body_text (tables_of sys.now) bodies.now handler) }
{
    match body_name(sys, bodies, handler) {
        Some(name) => append(name.as_bytes(), out),
        None => append_own_name(sys, handler, out),
    }
}

/// Appends the name of a task, or that of the body of a handler.
pub fn append_actor(
    sys: &System,
    bodies: &[Name],
    actor: Caller,
    out: &mut Vec<u8>,
) -> Result<(), AllocError>
    ensures { OnOk result (out.new.items
        ≡ out.old.items ++ spec.actor_text (tables_of sys.now) bodies.now actor) }
{
    match actor {
        Caller::Task(_) => append_caller(sys, actor, out),
        Caller::Handler(handler) => append_body(sys, bodies, handler, out),
    }
}

/// Appends what a task waits for, and until when; nothing if it does not wait.
fn append_cause(sys: &System, shown: TaskShown, out: &mut Vec<u8>) -> Result<(), AllocError>
    ensures { OnOk result (out.new.items ≡ out.old.items ++ spec.cause_text (tables_of sys.now) shown) }
{
    let Some(cause) = shown.wait else {
        return Ok(());
    };
    let block = TaskBlock {
        phase: Phase::Waiting(cause),
        suspended: false,
        priority: 0,
        processor: 0,
        activations: 0,
        next_processor: None,
        wakeups: 0,
        deadline: shown.deadline,
    };
    append_wait(sys, &block, out)
}

/// Appends that a task waits, for what and until when.
fn append_waiting(sys: &System, shown: TaskShown, out: &mut Vec<u8>) -> Result<(), AllocError>
    ensures { OnOk result (out.new.items ≡ out.old.items ++ spec.waiting_text (tables_of sys.now) shown) }
{
    append(b"waiting ", out)?;
    append_cause(sys, shown, out)
}

/// Appends what a running task does: it runs, or a handler has interrupted it.
fn append_running(
    sys: &System,
    bodies: &[Name],
    under: Option<Handler>,
    out: &mut Vec<u8>,
) -> Result<(), AllocError>
    ensures { OnOk result (out.new.items
        ≡ out.old.items ++ spec.running_text (tables_of sys.now) bodies.now under) }
{
    match under {
        Some(handler) => {
            append(b"interrupted by ", out)?;
            append_body(sys, bodies, handler, out)
        }
        None => append(b"running", out),
    }
}

/// Appends the state of a task: `running`, or `interrupted by` the handler under which it runs; `ready`, `suspended`,
/// `dormant`; and what it waits for.
pub fn append_state(
    sys: &System,
    bodies: &[Name],
    shown: TaskShown,
    out: &mut Vec<u8>,
) -> Result<(), AllocError>
    ensures { OnOk result (out.new.items
        ≡ out.old.items ++ spec.state_text (tables_of sys.now) bodies.now shown shown.word) }
{
    match shown.word {
        StateWord::Dormant => append(b"dormant", out),
        StateWord::Ready => append(b"ready", out),
        StateWord::Running => append_running(sys, bodies, shown.under, out),
        StateWord::Waiting => append_waiting(sys, shown, out),
        StateWord::Suspended => append(b"suspended", out),
        StateWord::WaitingSuspended => {
            append(b"suspended, ", out)?;
            append_waiting(sys, shown, out)
        }
    }
}
