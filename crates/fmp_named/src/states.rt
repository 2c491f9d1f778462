//! The states of the tasks at the end of a run, with what those that wait are waiting for.
ghost use Rattle.std.specs.Prelude.{◌≡◌, ◌++◌, ◌∷◌, [], codes, decimal, OnOk};
ghost use Rattle.fmp_base.specs.declared.states.WaitCause.TheVariants as cause;
ghost use Rattle.fmp_base.specs.Systems.{tables_of};
ghost use Rattle.fmp_named.specs.States as spec;

use crate::names::{append_task, kind_word, name_at};
use crate::text::{append_numbered, append_processor};
use fmp_base::{FlagMode, ObjectKind, Phase, System, TaskBlock, TaskState, WaitCause};
use fmp_json::{append, append_number};
use std::alloc::AllocError;

/// Appends an object by its kind and its name.
pub fn append_object(
    sys: &System,
    kind: ObjectKind,
    place: u8,
    out: &mut Vec<u8>,
) -> Result<(), AllocError>
    ensures { OnOk result (out.new.items ≡ out.old.items ++ spec.object_text (tables_of sys.now) kind place) }
{
    append(kind_word(kind).as_bytes(), out)?;
    append(b" ", out)?;
    match name_at(sys, kind, usize::from(place)) {
        Some(name) => append(name.as_bytes(), out),
        None => Ok(()),
    }
}

/// Appends words, and an object after them.
fn append_about(
    sys: &System,
    words: &[u8],
    kind: ObjectKind,
    place: u8,
    out: &mut Vec<u8>,
) -> Result<(), AllocError>
    ensures { OnOk result (out.new.items
        ≡ out.old.items ++ (words.now ++ spec.object_text (tables_of sys.now) kind place)) }
{
    append(words, out)?;
    append_object(sys, kind, place, out)
}

/// Which bits of a pattern a task waits for, in words.
fn mode_word(mode: FlagMode) -> &'static str
    ensures { result.now ≡ spec.mode_text mode }
{
    match mode {
        FlagMode::And => "for all bits of ",
        FlagMode::Or => "for any bit of ",
    }
}

/// Appends which bits of an eventflag a task waits for.
fn append_bits(
    sys: &System,
    flag: u8,
    pattern: u16,
    mode: FlagMode,
    out: &mut Vec<u8>,
) -> Result<(), AllocError>
    ensures { OnOk result (out.new.items
        ≡ out.old.items ++ spec.cause_text (tables_of sys.now) (cause.Flag flag pattern mode)) }
{
    append(mode_word(mode).as_bytes(), out)?;
    append_number(u64::from(pattern), out)?;
    append_about(sys, b" of ", ObjectKind::Flag, flag, out)
}

/// Appends what a task waits for.
fn append_cause(sys: &System, cause: WaitCause, out: &mut Vec<u8>) -> Result<(), AllocError>
    ensures { OnOk result (out.new.items ≡ out.old.items ++ spec.cause_text (tables_of sys.now) cause) }
{
    match cause {
        WaitCause::Sleep => append(b"for a wakeup", out),
        WaitCause::Delay => append(b"for the end of a delay", out),
        WaitCause::Semaphore(place) => append_about(
            sys,
            b"for ",
            ObjectKind::Semaphore,
            place,
            out,
        ),
        WaitCause::Flag {
            flag,
            pattern,
            mode,
        } => append_bits(sys, flag, pattern, mode, out),
        WaitCause::Sending { queue, .. } => append_about(
            sys,
            b"for room in ",
            ObjectKind::DataQueue,
            queue,
            out,
        ),
        WaitCause::Receiving(queue) => append_about(
            sys,
            b"for a word of ",
            ObjectKind::DataQueue,
            queue,
            out,
        ),
        WaitCause::Mailbox(place) => append_about(
            sys,
            b"for a message of ",
            ObjectKind::Mailbox,
            place,
            out,
        ),
    }
}

/// Appends the clock at which a wait ends, if it has a limit.
fn append_until(deadline: Option<u32>, out: &mut Vec<u8>) -> Result<(), AllocError>
    ensures { OnOk result (out.new.items ≡ out.old.items ++ spec.until_text deadline) }
{
    match deadline {
        Some(clock) => append_numbered(b", until tick ", clock, out),
        None => Ok(()),
    }
}

/// Appends what a task of this block waits for, and until when; nothing if it does not wait.
pub fn append_wait(sys: &System, block: &TaskBlock, out: &mut Vec<u8>) -> Result<(), AllocError>
    ensures { OnOk result (out.new.items
        ≡ out.old.items ++ spec.wait_text (tables_of sys.now) block.now.phase block.now.deadline) }
{
    match block.phase {
        Phase::Waiting(cause) => {
            append_cause(sys, cause, out)?;
            append_until(block.deadline, out)
        }
        Phase::Dormant | Phase::Ready => Ok(()),
    }
}

/// Appends a blank and what a task of this block waits for; nothing if it does not wait.
fn append_waiting(sys: &System, block: &TaskBlock, out: &mut Vec<u8>) -> Result<(), AllocError>
    ensures { OnOk result (out.new.items
        ≡ out.old.items ++ spec.waiting_text (tables_of sys.now) block.now.phase block.now.deadline) }
{
    match block.phase {
        Phase::Waiting(_) => {
            append(b" ", out)?;
            append_wait(sys, block, out)
        }
        Phase::Dormant | Phase::Ready => Ok(()),
    }
}

/// Appends the line of the task at a place.
pub fn append_state(
    sys: &System,
    task: usize,
    state: TaskState,
    block: &TaskBlock,
    out: &mut Vec<u8>,
) -> Result<(), AllocError>
    ensures { OnOk result (out.new.items
        ≡ out.old.items ++ spec.named_state (tables_of sys.now) task state block.now) }
{
    append_task(sys, task, out)?;
    append(b" ", out)?;
    append(state.word.name().as_bytes(), out)?;
    append_processor(state.processor, out)?;
    append_number(u64::from(state.priority), out)?;
    append_waiting(sys, block, out)?;
    append(b"\n", out)
}

/// Appends a line for each task, in order of number, from what is shown and what is kept of them: its state, its
/// processor and its priority as at the end of a trace, and after them what it waits for and until when.
pub fn append_states(
    sys: &System,
    states: &[TaskState],
    blocks: &[TaskBlock],
    out: &mut Vec<u8>,
) -> Result<(), AllocError>
    ensures { OnOk result (out.new.items
        ≡ out.old.items ++ spec.named_states (tables_of sys.now) 0 states.now blocks.now) }
{
    let mut rest = blocks;
    for (task, state) in states.iter().enumerate() {
        let [block, more @ ..] = rest else {
            return Ok(());
        };
        append_state(sys, task, *state, block, out)?;
        rest = more;
    }
    Ok(())
}
