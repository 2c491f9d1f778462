//! The service calls on eventflags that set, clear or await bits (uITRON 4.0, section 4.4.2).
ghost use Rattle.std.specs.Prelude.{◌≡◌, ◌<◌, [], length, IfSome};
ghost use Rattle.fmp_base.specs.Arguments.{IsTimeLimit};
ghost use Rattle.fmp_base.specs.FlagCalls.{mode_of as mode_from, awaited, set_flg as set_flg_case};
ghost use Rattle.fmp_base.specs.FlagCalls.{clr_flg as clr_flg_case, wai_flg as wai_flg_case, twai_flg as twai_flg_case};
ghost use Rattle.fmp_base.specs.Outcomes.{numbered as place_of};
ghost use Rattle.fmp_base.specs.States.{task_at};
ghost use Rattle.fmp_tasks.specs.Lines.{AreEmptyWithRoom};
ghost use Rattle.fmp_tasks.specs.Tables.{outcome, SameShape, SameShapeAndRoom};

use crate::walking::{satisfies, walk};
use fmp_base::arguments::{limit_of, numbered, ranged};
use fmp_base::{Answer, Er, FlagMode, Line, TimeLimit, WaitCause, WaitQueue};
use fmp_tasks::KernelState;
use fmp_tasks::answers::{gives, replied};
use fmp_tasks::tasks::wait_within;

/// The eventflag that a number names, if there is one.
fn flag_of(tables: &KernelState, number: i32) -> Option<u8>
    ensures value { result ≡ place_of (length tables.now.state.flags) number }
    ensures there { IfSome result (λ f. f < length tables.now.system.flags) }
{
    numbered(tables.flag_count(), number)
}

/// The mode that a number states: 0 (TWF_ANDW) waits for all bits, 1 (TWF_ORW) for any.
fn mode_of(number: i32) -> Option<FlagMode>
    ensures { result ≡ mode_from number }
{
    match number {
        0 => Some(FlagMode::And),
        1 => Some(FlagMode::Or),
        _ => None,
    }
}

/// `set_flg` and `iset_flg` (uITRON 4.0, section 4.4.2): sets bits, and releases each waiting task that the pattern
/// satisfies, with E_OK and the pattern, in the order of the queue. With TA_CLR the first release clears all bits and
/// is the last. E_ID if the number names no flag, then E_PAR if the bits are not 0 to 65535; nothing changes then.
pub fn set_flg(tables: &mut KernelState, lines: &mut Vec<Line>, flag: i32, bits: i32) -> Answer
    requires lines { AreEmptyWithRoom (length tables.old.system.tasks) lines.old }
    ensures outcome { outcome result tables.new lines.new.items
        ≡ set_flg_case tables.old.system tables.old.state flag bits }
    ensures kept { SameShapeAndRoom tables.old tables.new lines.old lines.new }
{
    let Some(f) = flag_of(tables, flag) else {
        return replied(Er::Id);
    };
    let Some(more) = ranged(0, 65535, bits) else {
        return replied(Er::Par);
    };
    let pattern = tables.pattern(f) | more;
    tables.set_pattern(f, pattern);
    walk(tables, lines, f, pattern);
    replied(Er::Ok)
}

/// `clr_flg` (uITRON 4.0, section 4.4.2): clears the bits of a flag that are not set in a pattern. E_ID if the number
/// names no flag, then E_PAR if the pattern is not 0 to 65535; nothing changes then.
pub fn clr_flg(tables: &mut KernelState, flag: i32, pattern: i32) -> Answer
    ensures outcome { outcome result tables.new [] ≡ clr_flg_case tables.old.state flag pattern }
    ensures shape { SameShape tables.old tables.new }
{
    let Some(f) = flag_of(tables, flag) else {
        return replied(Er::Id);
    };
    let Some(kept) = ranged(0, 65535, pattern) else {
        return replied(Er::Par);
    };
    let bits = tables.pattern(f) & kept;
    tables.set_pattern(f, bits);
    replied(Er::Ok)
}

/// Task me gets the bits of flag f where they satisfy the wait, and with TA_CLR all bits are then cleared; else it
/// waits within the limit. E_ILUSE if a task waits for a flag without TA_WMUL.
fn await_bits(
    tables: &mut KernelState,
    me: u8,
    f: u8,
    pattern: u16,
    mode: FlagMode,
    limit: TimeLimit,
) -> Answer
    requires there { f < length tables.old.system.flags }
    requires me { me < length tables.old.system.tasks }
    requires limit { IsTimeLimit limit }
    ensures outcome { outcome result tables.new []
        ≡ awaited tables.old.system tables.old.state me (task_at tables.old.state.tasks me) f pattern mode limit }
    ensures shape { SameShape tables.old tables.new }
{
    let config = tables.flag_config(f);
    if !config.multiple && tables.first_waiting(WaitQueue::Flag(f)).is_some() {
        return replied(Er::Iluse);
    }
    let bits = tables.pattern(f);
    if !satisfies(mode, pattern, bits) {
        let x = tables.task(me);
        let cause = WaitCause::Flag {
            flag: f,
            pattern,
            mode,
        };
        return wait_within(tables, me, x, cause, limit);
    }
    if config.clears {
        tables.set_pattern(f, 0);
    }
    gives(bits as i32)
}

/// `wai_flg` and `pol_flg` by task me (uITRON 4.0, section 4.4.2): gives the bits of a flag if all bits of the wait
/// pattern are set (mode 0, TWF_ANDW) or any (mode 1, TWF_ORW), and with TA_CLR then clears all bits. Else it waits at
/// the end of the order within the limit. In this order: E_ID if the number names no flag, E_PAR if the wait pattern is
/// not 1 to 65535 or the mode not 0 or 1, E_ILUSE if a task waits for a flag without TA_WMUL, E_TMOUT if a poll finds
/// the bits not set; nothing changes then.
pub fn wai_flg(
    tables: &mut KernelState,
    me: u8,
    limit: TimeLimit,
    flag: i32,
    pattern: i32,
    mode: i32,
) -> Answer
    requires me { me < length tables.old.system.tasks }
    requires limit { IsTimeLimit limit }
    ensures outcome { outcome result tables.new []
        ≡ wai_flg_case tables.old.system tables.old.state me
        (task_at tables.old.state.tasks me) limit flag pattern mode }
    ensures shape { SameShape tables.old tables.new }
{
    let Some(f) = flag_of(tables, flag) else {
        return replied(Er::Id);
    };
    let Some(bits) = ranged(1, 65535, pattern) else {
        return replied(Er::Par);
    };
    match mode_of(mode) {
        Some(m) => await_bits(tables, me, f, bits, m, limit),
        None => replied(Er::Par),
    }
}

/// `twai_flg` by task me (uITRON 4.0, section 4.4.2): as `wai_flg`, with the time limit that a number states, in ticks:
/// -1 is none, 0 polls, the greatest is 2^30. E_PAR, after the test of the mode and before E_ILUSE, where the limit is
/// none of these; nothing changes then.
pub fn twai_flg(
    tables: &mut KernelState,
    me: u8,
    flag: i32,
    pattern: i32,
    mode: i32,
    limit: i32,
) -> Answer
    requires { me < length tables.old.system.tasks }
    ensures outcome { outcome result tables.new []
        ≡ twai_flg_case tables.old.system tables.old.state me (task_at tables.old.state.tasks me) flag pattern mode
        limit }
    ensures shape { SameShape tables.old tables.new }
{
    let Some(f) = flag_of(tables, flag) else {
        return replied(Er::Id);
    };
    let Some(bits) = ranged(1, 65535, pattern) else {
        return replied(Er::Par);
    };
    let Some(m) = mode_of(mode) else {
        return replied(Er::Par);
    };
    match limit_of(limit) {
        Some(limit) => await_bits(tables, me, f, bits, m, limit),
        None => replied(Er::Par),
    }
}
