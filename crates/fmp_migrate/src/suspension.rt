//! Suspension of tasks (uITRON 4.0, section 4.2).
ghost use Rattle.std.specs.Prelude.{◌≡◌, ◌<◌, [], length, true, false, IfSome, ◌+◌, ◌≤◌};
ghost use Rattle.fmp_base.specs.States.{task_at};
ghost use Rattle.fmp_base.specs.TaskCalls as calls;
ghost use Rattle.fmp_tasks.specs.Homes.{Fits};
ghost use Rattle.fmp_tasks.specs.Tables.{outcome, SameShape};

use crate::targets::{by_number, is_dormant, self_or};
use fmp_base::{Answer, Er, Phase, TaskBlock};
use fmp_tasks::KernelState;
use fmp_tasks::answers::replied;
use fmp_tasks::tasks::suspend;

/// `sus_tsk`: suspends a task; a waiting one goes on waiting. E_ID if no task has the number, where 0 (TSK_SELF) is the
/// caller; E_OBJ if the task is dormant; E_QOVR if it is suspended already. What is refused changes nothing (uITRON
/// 4.0, section 4.2).
pub fn sus_tsk(tables: &mut KernelState, me: u8, task: i32) -> Answer
    requires caller { me < length tables.old.system.tasks }
    ensures outcome { outcome result tables.new [] ≡ calls.sus_tsk tables.old.state me task }
    ensures shape { SameShape tables.old tables.new }
{
    let Some(t) = self_or(tables, me, task) else {
        return replied(Er::Id);
    };
    let x = tables.task(t);
    if is_dormant(x.phase) {
        return replied(Er::Obj);
    }
    if x.suspended {
        return replied(Er::Qovr);
    }
    suspend(tables, t, x);
    replied(Er::Ok)
}

/// Task t, which is x and suspended, is resumed: a waiting one waits on in its place, another is ready, at the end.
fn resume(tables: &mut KernelState, t: u8, x: TaskBlock)
    requires there { t < length tables.old.system.tasks }
    requires is { x ≡ task_at tables.old.state.tasks t }
    requires fits { Fits tables.old.system x }
    requires later { IfSome x.deadline (λ w. tables.old.state.clock + 1 ≤ w) }
    requires suspended { x.suspended ≡ true }
    ensures state { tables.new
        ≡ record tables.old { state = calls.resumed_by x.phase tables.old.state t (record x { suspended = false }) } }
    ensures shape { SameShape tables.old tables.new }
{
    let y = TaskBlock {
        suspended: false,
        ..x
    };
    match x.phase {
        Phase::Waiting(_) => tables.set_task(t, y),
        Phase::Dormant | Phase::Ready => tables.set_last(t, &y),
    }
}

/// `rsm_tsk`: resumes a suspended task. A waiting one goes on waiting in its place; another is ready, at the end. E_ID
/// if no task has the number, also at 0; E_OBJ if the task is not suspended. What is refused changes nothing (uITRON
/// 4.0, section 4.2).
pub fn rsm_tsk(tables: &mut KernelState, task: i32) -> Answer
    ensures outcome { outcome result tables.new [] ≡ calls.rsm_tsk tables.old.state task }
    ensures shape { SameShape tables.old tables.new }
{
    let Some(t) = by_number(tables, task) else {
        return replied(Er::Id);
    };
    let x = tables.task(t);
    if !x.suspended {
        return replied(Er::Obj);
    }
    resume(tables, t, x);
    replied(Er::Ok)
}
