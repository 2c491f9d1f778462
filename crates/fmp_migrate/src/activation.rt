//! Activation of tasks (uITRON 4.0, section 4.1).
ghost use Rattle.std.specs.Prelude.{◌≡◌, ◌<◌, [], length, IfSome, ◌+◌, ◌≤◌};
ghost use Rattle.fmp_base.specs.States.{task_at};
ghost use Rattle.fmp_base.specs.TaskCalls as calls;
ghost use Rattle.fmp_tasks.specs.Homes.{Fits};
ghost use Rattle.fmp_tasks.specs.Lines.{AreEmptyWithRoom};
ghost use Rattle.fmp_tasks.specs.Tables.{outcome, SameShape, SameShapeAndRoom};

use crate::targets::{by_number, self_or};
use fmp_base::{Answer, Er, Line, Phase, TaskBlock};
use fmp_tasks::KernelState;
use fmp_tasks::answers::{gives, replied};
use fmp_tasks::tasks::start;

/// One more activation of task t, which is x, is queued; E_QOVR at the limit.
fn queue_activation(tables: &mut KernelState, t: u8, x: TaskBlock) -> Answer
    requires there { t < length tables.old.system.tasks }
    requires is { x ≡ task_at tables.old.state.tasks t }
    requires fits { Fits tables.old.system x }
    requires later { IfSome x.deadline (λ w. tables.old.state.clock + 1 ≤ w) }
    ensures outcome { outcome result tables.new [] ≡ calls.activation_queued tables.old.system tables.old.state t x }
    ensures shape { SameShape tables.old tables.new }
{
    if x.activations < tables.queue_limit() {
        let activations = x.activations + 1;
        tables.set_task(t, TaskBlock { activations, ..x });
        replied(Er::Ok)
    } else {
        replied(Er::Qovr)
    }
}

/// Task t is activated: a dormant one starts, for another an activation is queued.
fn activate(tables: &mut KernelState, lines: &mut Vec<Line>, t: u8) -> Answer
    requires there { t < length tables.old.system.tasks }
    requires lines { AreEmptyWithRoom 1 lines.old }
    ensures outcome { outcome result tables.new lines.new.items
        ≡ calls.activated tables.old.system tables.old.state t (task_at tables.old.state.tasks t) }
    ensures kept { SameShapeAndRoom tables.old tables.new lines.old lines.new }
{
    let x = tables.task(t);
    match x.phase {
        Phase::Dormant => {
            start(tables, lines, t, x);
            replied(Er::Ok)
        }
        Phase::Ready | Phase::Waiting(_) => queue_activation(tables, t, x),
    }
}

/// `act_tsk`: activates a task. A dormant one starts; for another an activation is queued. E_ID if no task has the
/// number, where 0 (TSK_SELF) is the caller; E_QOVR if the queued activations are at the limit. What is refused changes
/// nothing (uITRON 4.0, section 4.1).
pub fn act_tsk(tables: &mut KernelState, lines: &mut Vec<Line>, me: u8, task: i32) -> Answer
    requires caller { me < length tables.old.system.tasks }
    requires lines { AreEmptyWithRoom 1 lines.old }
    ensures outcome { outcome result tables.new lines.new.items
        ≡ calls.act_tsk tables.old.system tables.old.state me task }
    ensures kept { SameShapeAndRoom tables.old tables.new lines.old lines.new }
{
    match self_or(tables, me, task) {
        Some(t) => activate(tables, lines, t),
        None => replied(Er::Id),
    }
}

/// `iact_tsk`: as `act_tsk` from a handler, where no task is the caller: E_ID at 0 too. E_QOVR if the queued
/// activations are at the limit. What is refused changes nothing (uITRON 4.0, section 4.1).
pub fn iact_tsk(tables: &mut KernelState, lines: &mut Vec<Line>, task: i32) -> Answer
    requires lines { AreEmptyWithRoom 1 lines.old }
    ensures outcome { outcome result tables.new lines.new.items
        ≡ calls.iact_tsk tables.old.system tables.old.state task }
    ensures kept { SameShapeAndRoom tables.old tables.new lines.old lines.new }
{
    match by_number(tables, task) {
        Some(t) => activate(tables, lines, t),
        None => replied(Er::Id),
    }
}

/// `can_act`: gives how many activations of a task are queued, and clears them and the processor that is stored for its
/// next start. E_ID if no task has the number, where 0 (TSK_SELF) is the caller; then nothing changes (uITRON 4.0,
/// section 4.1).
pub fn can_act(tables: &mut KernelState, me: u8, task: i32) -> Answer
    requires caller { me < length tables.old.system.tasks }
    ensures outcome { outcome result tables.new [] ≡ calls.can_act tables.old.state me task }
    ensures shape { SameShape tables.old tables.new }
{
    let Some(t) = self_or(tables, me, task) else {
        return replied(Er::Id);
    };
    let x = tables.task(t);
    tables.set_task(
        t,
        TaskBlock {
            activations: 0,
            next_processor: None,
            ..x
        },
    );
    gives(x.activations as i32)
}
