//! What newly set bits of an eventflag do to the tasks that wait for it.
ghost use Rattle.std.specs.Prelude.{◌≡◌, ◌<◌, [], length, pos};
ghost use Rattle.fmp_base.specs.FlagCalls.{satisfies as satisfies_case, is_satisfied as is_satisfied_case};
ghost use Rattle.fmp_base.specs.FlagCalls.{walk as walk_case};
ghost use Rattle.fmp_base.specs.Outcomes.{given as given_value};
ghost use Rattle.fmp_base.specs.Queues.{wait_queue};
ghost use Rattle.fmp_base.specs.Systems.{flag_config};
ghost use Rattle.fmp_tasks.specs.Lines.{AreEmptyWithRoom};
ghost use Rattle.fmp_tasks.specs.Tables.{progress, SameShapeAndRoom};

use fmp_base::{FlagMode, Line, Phase, Reply, WaitCause, WaitQueue};
use fmp_tasks::KernelState;
use fmp_tasks::answers::given;
use fmp_tasks::tasks::release;

/// Whether bits satisfy a wait for a pattern: all of its bits, or any.
pub fn satisfies(mode: FlagMode, pattern: u16, bits: u16) -> bool
    ensures { result ≡ satisfies_case mode pattern bits }
{
    match mode {
        FlagMode::And => bits & pattern == pattern,
        FlagMode::Or => bits & pattern != 0,
    }
}

/// Whether bits satisfy a task of this phase.
fn is_satisfied(phase: Phase, bits: u16) -> bool
    ensures { result ≡ is_satisfied_case phase bits }
{
    match phase {
        Phase::Waiting(WaitCause::Flag { pattern, mode, .. }) => satisfies(mode, pattern, bits),
        _ => false,
    }
}

/// The reply E_OK with bits.
fn with_bits(bits: u16) -> Reply
    ensures { result ≡ given_value (pos bits) }
{
    given(bits as i32)
}

/// The waiting tasks of flag f that its bits satisfy are released with them, in the order of the queue; with TA_CLR the
/// first release clears all bits and is the last.
pub fn walk(tables: &mut KernelState, lines: &mut Vec<Line>, f: u8, bits: u16)
    requires there { f < length tables.old.system.flags }
    requires lines { AreEmptyWithRoom (length tables.old.system.tasks) lines.old }
    ensures progress { progress tables.new lines.new.items
        ≡ walk_case (flag_config tables.old.system f).clears f bits
        (wait_queue tables.old.system tables.old.state (WaitQueue.Flag f)) (progress tables.old []) }
    ensures kept { SameShapeAndRoom tables.old tables.new lines.old lines.new }
{
    let clears = tables.flag_config(f).clears;
    let mut at = tables.first_waiting(WaitQueue::Flag(f));
    while let Some(t) = at {
        // A release takes t out of the queue, so the task behind it is read first.
        at = tables.waiting_behind(WaitQueue::Flag(f), t);
        let x = tables.task(t);
        if !is_satisfied(x.phase, bits) {
            continue;
        }
        release(tables, lines, t, x, with_bits(bits));
        if clears {
            tables.set_pattern(f, 0);
            return;
        }
    }
}
