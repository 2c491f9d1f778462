//! Turns of processors that do nothing, which leave no frame.
ghost use Rattle.std.specs.Prelude.{◌≡◌, ◌+◌, ◌≤◌, ◌^◌, IfOk, OnOk, length};
ghost use Rattle.fmp_frames.specs.Turns as spec;
ghost use Rattle.fmp_frames.specs.Turns.{AreIdleTurns};

use fmp_base::Effect;
use fmp_kernel::{Body, Coming, Kernel};
use std::alloc::{AllocError, Global};

/// A turn of a processor that does nothing: nothing runs there, or its actor spins for a spin lock.
#[derive(Clone, Copy)]
pub struct IdleTurn {
    /// The last event before it.
    pub event: u32,
    /// The place of the processor.
    pub processor: u8,
}

/// Whether two turns are one.
fn is_same_turn(a: IdleTurn, b: IdleTurn) -> bool
    ensures { result ≡ spec.is_same_turn a b }
{
    a.event == b.event && a.processor == b.processor
}

/// Whether a turn is the last of these.
fn is_last(turns: &[IdleTurn], turn: IdleTurn) -> bool
    ensures { result ≡ spec.is_last turns.now turn }
{
    match turns.last() {
        Some(last) => is_same_turn(turn, *last),
        None => false,
    }
}

/// Adds a turn, unless it is the last of these.
fn add_turn(turns: &mut Vec<IdleTurn>, turn: IdleTurn) -> Result<(), AllocError>
    ensures { OnOk result (turns.new.items ≡ spec.with_turn turns.old.items turn) }
{
    if is_last(turns, turn) {
        return Ok(());
    }
    turns.push(turn)?;
    Ok(())
}

/// Adds the turn of this processor, if it is one, after this event, unless it is the last of these.
fn add_idle(turns: &mut Vec<IdleTurn>, event: u32, place: Option<u8>) -> Result<(), AllocError>
    ensures { OnOk result (turns.new.items ≡ spec.with_idle turns.old.items event place) }
{
    match place {
        Some(processor) => add_turn(turns, IdleTurn { event, processor }),
        None => Ok(()),
    }
}

/// The turns that do nothing among what comes to a kernel, in order; of equal ones in succession the first.
/// `AllocError` if memory runs out.
pub fn idle_turns<B: Body, T: Coming<B>>(
    alloc: Global,
    kernel: &mut Kernel<B>,
    events: &[T],
) -> Result<Vec<IdleTurn>, AllocError>
    requires { kernel.old.taken + length events.now ≤ 2 ^ 31 }
    ensures { IfOk result (λ turns. AreIdleTurns T.reaction kernel.old events.now turns.items) }
{
    let mut turns = Vec::new(alloc);
    for e in events {
        let place = e.place();
        match e.take(kernel) {
            Effect::Done => {}
            Effect::Kept => {}
            Effect::Nothing => add_idle(&mut turns, kernel.done(), place)?,
        }
    }
    Ok(turns)
}
