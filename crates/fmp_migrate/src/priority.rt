//! The current priority of tasks (uITRON 4.0, section 4.1).
ghost use Rattle.std.specs.Prelude.{◌≡◌, ◌<◌, ◌≤◌, [], length, IfSome, ◌+◌};
ghost use Rattle.fmp_base.specs.States.{task_at};
ghost use Rattle.fmp_base.specs.TaskCalls as calls;
ghost use Rattle.fmp_tasks.specs.Homes.{Fits};
ghost use Rattle.fmp_tasks.specs.Tables.{outcome, SameShape};

use crate::targets::{is_dormant, or_if_zero, self_or};
use fmp_base::arguments::ranged;
use fmp_base::{Answer, Er, TaskBlock};
use fmp_tasks::KernelState;
use fmp_tasks::answers::{gives, replied};

/// The priority of task t, which is x, changes: a ready task, and one in a queue of priority order, goes to the end.
fn set_priority(tables: &mut KernelState, t: u8, x: TaskBlock, priority: u8)
    requires there { t < length tables.old.system.tasks }
    requires is { x ≡ task_at tables.old.state.tasks t }
    requires fits { Fits tables.old.system x }
    requires later { IfSome x.deadline (λ w. tables.old.state.clock + 1 ≤ w) }
    requires urgent { 1 ≤ priority }
    requires least { priority ≤ 16 }
    ensures state { tables.new
        ≡ record tables.old {
          state = calls.moved_by (calls.goes_last tables.old.system x) tables.old.state t
              (record x { priority = priority });
        } }
    ensures shape { SameShape tables.old tables.new }
{
    let y = TaskBlock { priority, ..x };
    if tables.goes_last(&x) {
        tables.set_last(t, &y);
    } else {
        tables.set_task(t, y);
    }
}

/// `chg_pri`: the current priority of a task becomes this, from 1 to 16, or the initial one at 0 (TPRI_INI). A ready
/// task, and one in a queue of priority order, goes behind those of the same priority, even if it had that priority
/// already; another keeps its place. E_ID if no task has the number, where 0 (TSK_SELF) is the caller; E_PAR at another
/// priority; E_OBJ if the task is dormant. What is refused changes nothing (uITRON 4.0, section 4.1).
pub fn chg_pri(tables: &mut KernelState, me: u8, task: i32, priority: i32) -> Answer
    requires caller { me < length tables.old.system.tasks }
    ensures outcome { outcome result tables.new [] ≡ calls.chg_pri tables.old.system tables.old.state me task priority }
    ensures shape { SameShape tables.old tables.new }
{
    let Some(t) = self_or(tables, me, task) else {
        return replied(Er::Id);
    };
    let Some(n) = ranged(0, 16, priority) else {
        return replied(Er::Par);
    };
    let x = tables.task(t);
    if is_dormant(x.phase) {
        return replied(Er::Obj);
    }
    let initial = tables.task_config(t).priority;
    set_priority(tables, t, x, or_if_zero(initial, n as u8));
    replied(Er::Ok)
}

/// `get_pri`: gives the current priority of a task. E_ID if no task has the number, where 0 (TSK_SELF) is the caller;
/// E_OBJ if the task is dormant. Nothing changes (uITRON 4.0, section 4.1).
pub fn get_pri(tables: &KernelState, me: u8, task: i32) -> Answer
    requires caller { me < length tables.now.system.tasks }
    ensures outcome { outcome result tables.now [] ≡ calls.get_pri tables.now.state me task }
{
    let Some(t) = self_or(tables, me, task) else {
        return replied(Er::Id);
    };
    let x = tables.task(t);
    if is_dormant(x.phase) {
        return replied(Er::Obj);
    }
    gives(x.priority as i32)
}
