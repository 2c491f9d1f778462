//! Sleep, wakeups, delays and release from waiting (uITRON 4.0, section 4.2).
ghost use Rattle.std.specs.Prelude.{◌≡◌, ◌+◌, ◌<◌, ◌≤◌, [], length, IfSome};
ghost use Rattle.fmp_base.specs.Arguments.{IsTimeLimit};
ghost use Rattle.fmp_base.specs.States.{task_at};
ghost use Rattle.fmp_base.specs.TaskCalls as calls;
ghost use Rattle.fmp_tasks.specs.Homes.{Fits};
ghost use Rattle.fmp_tasks.specs.Lines.{AreEmptyWithRoom};
ghost use Rattle.fmp_tasks.specs.Tables.{outcome, SameShape, SameShapeAndRoom};

use crate::targets::{by_number, delay_of, is_dormant, self_or};
use fmp_base::arguments::limit_of;
use fmp_base::{Answer, Er, Line, Phase, TaskBlock, TimeLimit, WaitCause};
use fmp_tasks::KernelState;
use fmp_tasks::answers::{code, gives, replied};
use fmp_tasks::tasks::{release, wait, wait_within};

/// The caller takes a queued wakeup, or else sleeps within a limit.
#[inline(always)]
fn sleep(tables: &mut KernelState, me: u8, limit: TimeLimit) -> Answer
    requires caller { me < length tables.old.system.tasks }
    requires limit { IsTimeLimit limit }
    ensures outcome { outcome result tables.new []
        ≡ calls.slp_tsk tables.old.state me (task_at tables.old.state.tasks me) limit }
    ensures shape { SameShape tables.old tables.new }
{
    let x = tables.task(me);
    if x.wakeups == 0 {
        return wait_within(tables, me, x, WaitCause::Sleep, limit);
    }
    let wakeups = x.wakeups - 1;
    tables.set_task(me, TaskBlock { wakeups, ..x });
    replied(Er::Ok)
}

/// `slp_tsk`: the caller takes a queued wakeup and goes on with E_OK, or else waits for one without limit. It is never
/// refused (uITRON 4.0, section 4.2).
#[inline(always)]
pub fn slp_tsk(tables: &mut KernelState, me: u8) -> Answer
    requires caller { me < length tables.old.system.tasks }
    ensures outcome { outcome result tables.new []
        ≡ calls.slp_tsk tables.old.state me (task_at tables.old.state.tasks me) TimeLimit.Forever }
    ensures shape { SameShape tables.old tables.new }
{
    sleep(tables, me, TimeLimit::Forever)
}

/// `tslp_tsk`: the caller takes a queued wakeup, or else waits for one within a limit: -1 (TMO_FEVR) is none, at 0
/// (TMO_POL) it does not wait and is told E_TMOUT, else that many ticks, up to 2^30. E_PAR at another limit. What is
/// refused changes nothing (uITRON 4.0, section 4.2).
pub fn tslp_tsk(tables: &mut KernelState, me: u8, limit: i32) -> Answer
    requires caller { me < length tables.old.system.tasks }
    ensures outcome { outcome result tables.new []
        ≡ calls.tslp_tsk tables.old.state me (task_at tables.old.state.tasks me) limit }
    ensures shape { SameShape tables.old tables.new }
{
    match limit_of(limit) {
        Some(limit) => sleep(tables, me, limit),
        None => replied(Er::Par),
    }
}

/// One more wakeup of task t, which is x, is queued; E_QOVR at the limit.
fn queue_wakeup(tables: &mut KernelState, t: u8, x: TaskBlock) -> Answer
    requires there { t < length tables.old.system.tasks }
    requires is { x ≡ task_at tables.old.state.tasks t }
    requires fits { Fits tables.old.system x }
    requires later { IfSome x.deadline (λ w. tables.old.state.clock + 1 ≤ w) }
    ensures outcome { outcome result tables.new [] ≡ calls.wakeup_queued tables.old.system tables.old.state t x }
    ensures shape { SameShape tables.old tables.new }
{
    if x.wakeups < tables.queue_limit() {
        let wakeups = x.wakeups + 1;
        tables.set_task(t, TaskBlock { wakeups, ..x });
        replied(Er::Ok)
    } else {
        replied(Er::Qovr)
    }
}

/// Task t is woken: a sleeping one is released, for another that is not dormant a wakeup is queued.
#[inline(always)]
fn wake(tables: &mut KernelState, lines: &mut Vec<Line>, t: u8) -> Answer
    requires there { t < length tables.old.system.tasks }
    requires lines { AreEmptyWithRoom 1 lines.old }
    ensures outcome { outcome result tables.new lines.new.items
        ≡ calls.woken tables.old.system tables.old.state t (task_at tables.old.state.tasks t) }
    ensures kept { SameShapeAndRoom tables.old tables.new lines.old lines.new }
{
    let x = tables.task(t);
    match x.phase {
        Phase::Dormant => replied(Er::Obj),
        Phase::Waiting(WaitCause::Sleep) => {
            release(tables, lines, t, x, code(Er::Ok));
            replied(Er::Ok)
        }
        Phase::Ready | Phase::Waiting(_) => queue_wakeup(tables, t, x),
    }
}

/// `wup_tsk`: wakes up a task. A sleeping one is released with E_OK; for another a wakeup is queued. E_ID if no task
/// has the number, where 0 (TSK_SELF) is the caller; E_OBJ if the task is dormant; E_QOVR if the queued wakeups are at
/// the limit. What is refused changes nothing (uITRON 4.0, section 4.2).
#[inline(always)]
pub fn wup_tsk(tables: &mut KernelState, lines: &mut Vec<Line>, me: u8, task: i32) -> Answer
    requires caller { me < length tables.old.system.tasks }
    requires lines { AreEmptyWithRoom 1 lines.old }
    ensures outcome { outcome result tables.new lines.new.items
        ≡ calls.wup_tsk tables.old.system tables.old.state me task }
    ensures kept { SameShapeAndRoom tables.old tables.new lines.old lines.new }
{
    match self_or(tables, me, task) {
        Some(t) => wake(tables, lines, t),
        None => replied(Er::Id),
    }
}

/// `iwup_tsk`: as `wup_tsk` from a handler, where no task is the caller: E_ID at 0 too. E_OBJ if the task is dormant;
/// E_QOVR if the queued wakeups are at the limit. What is refused changes nothing (uITRON 4.0, section 4.2).
pub fn iwup_tsk(tables: &mut KernelState, lines: &mut Vec<Line>, task: i32) -> Answer
    requires lines { AreEmptyWithRoom 1 lines.old }
    ensures outcome { outcome result tables.new lines.new.items
        ≡ calls.iwup_tsk tables.old.system tables.old.state task }
    ensures kept { SameShapeAndRoom tables.old tables.new lines.old lines.new }
{
    match by_number(tables, task) {
        Some(t) => wake(tables, lines, t),
        None => replied(Er::Id),
    }
}

/// `can_wup`: gives how many wakeups of a task are queued, and clears them. E_ID if no task has the number, where 0
/// (TSK_SELF) is the caller; E_OBJ if the task is dormant. What is refused changes nothing (uITRON 4.0, section 4.2).
pub fn can_wup(tables: &mut KernelState, me: u8, task: i32) -> Answer
    requires caller { me < length tables.old.system.tasks }
    ensures outcome { outcome result tables.new [] ≡ calls.can_wup tables.old.state me task }
    ensures shape { SameShape tables.old tables.new }
{
    let Some(t) = self_or(tables, me, task) else {
        return replied(Er::Id);
    };
    let x = tables.task(t);
    if is_dormant(x.phase) {
        return replied(Er::Obj);
    }
    tables.set_task(t, TaskBlock { wakeups: 0, ..x });
    gives(x.wakeups as i32)
}

/// `rel_wai` and `irel_wai`: a waiting task is released by force, with E_RLWAI. E_ID if no task has the number, also at
/// 0; E_OBJ if the task does not wait. What is refused changes nothing (uITRON 4.0, section 4.2).
pub fn rel_wai(tables: &mut KernelState, lines: &mut Vec<Line>, task: i32) -> Answer
    requires lines { AreEmptyWithRoom 1 lines.old }
    ensures outcome { outcome result tables.new lines.new.items ≡ calls.rel_wai tables.old.state task }
    ensures kept { SameShapeAndRoom tables.old tables.new lines.old lines.new }
{
    let Some(t) = by_number(tables, task) else {
        return replied(Er::Id);
    };
    let x = tables.task(t);
    match x.phase {
        Phase::Waiting(_) => {
            release(tables, lines, t, x, code(Er::Rlwai));
            replied(Er::Ok)
        }
        Phase::Dormant | Phase::Ready => replied(Er::Obj),
    }
}

/// `dly_tsk`: the caller waits until the clock has advanced by more than the delay, from 0 to 2^30 ticks. E_PAR at
/// another; then nothing changes (uITRON 4.0, section 4.2).
pub fn dly_tsk(tables: &mut KernelState, me: u8, delay: i32) -> Answer
    requires caller { me < length tables.old.system.tasks }
    ensures outcome { outcome result tables.new []
        ≡ calls.dly_tsk tables.old.state me (task_at tables.old.state.tasks me) delay }
    ensures shape { SameShape tables.old tables.new }
{
    let Some(n) = delay_of(delay) else {
        return replied(Er::Par);
    };
    let x = tables.task(me);
    let end = tables.clock() + n + 1;
    wait(tables, me, x, WaitCause::Delay, Some(end));
    Answer::Waits
}
