//! What is said of a task that can never go on.
ghost use Rattle.std.specs.Prelude.{◌≡◌, ◌++◌, OnOk};
ghost use Rattle.fmp_base.specs.Systems.{tables_of};
ghost use Rattle.fmp_searching.specs.Stuck as spec;

use fmp_base::{ObjectKind, Phase, System, TaskBlock};
use fmp_json::append;
use fmp_named::{append_object, append_task, append_wait};
use std::alloc::{AllocError, Global};

/// Appends for what a task of this block waits, and until when.
fn append_waits(sys: &System, block: &TaskBlock, out: &mut Vec<u8>) -> Result<(), AllocError>
    ensures { OnOk result (out.new.items
        ≡ out.old.items ++ spec.waits_text (tables_of sys.now) block.now.phase block.now.deadline) }
{
    append(b" waits ", out)?;
    append_wait(sys, block, out)
}

/// Appends for which spin lock a task spins.
fn append_spins(sys: &System, lock: u8, out: &mut Vec<u8>) -> Result<(), AllocError>
    ensures { OnOk result (out.new.items ≡ out.old.items ++ spec.spins_text (tables_of sys.now) lock) }
{
    append(b" spins for ", out)?;
    append_object(sys, ObjectKind::SpinLock, lock, out)
}

/// Appends how a task stands that does not wait.
fn append_stands(
    sys: &System,
    suspended: bool,
    spins: Option<u8>,
    out: &mut Vec<u8>,
) -> Result<(), AllocError>
    ensures { OnOk result (out.new.items ≡ out.old.items ++ spec.stands_text (tables_of sys.now) suspended spins) }
{
    match spins {
        _ if suspended => append(b" is suspended", out),
        Some(lock) => append_spins(sys, lock, out),
        None => append(b" is ready", out),
    }
}

/// Appends what holds up a task of this block, which spins for this lock, if it spins.
fn append_held_up(
    sys: &System,
    block: &TaskBlock,
    spins: Option<u8>,
    out: &mut Vec<u8>,
) -> Result<(), AllocError>
    ensures { OnOk result (out.new.items
        ≡ out.old.items ++ spec.held_up_text (tables_of sys.now) block.now block.now.phase spins) }
{
    match block.phase {
        Phase::Waiting(_) => append_waits(sys, block, out),
        Phase::Dormant | Phase::Ready => append_stands(sys, block.suspended, spins, out),
    }
}

/// Appends that the task at a place, of this block, can never go on: what it waits for, that it is suspended, which
/// spin lock it spins for, or that it is ready and others run in its place. `AllocError` if memory runs out.
pub fn append_stuck(
    sys: &System,
    task: usize,
    block: &TaskBlock,
    spins: Option<u8>,
    out: &mut Vec<u8>,
) -> Result<(), AllocError>
    ensures { OnOk result (out.new.items
        ≡ out.old.items ++ spec.stuck_text (tables_of sys.now) task block.now spins) }
{
    append_task(sys, task, out)?;
    append_held_up(sys, block, spins, out)?;
    append(b", and can never go on though others run", out)
}
