//! The processor of tasks (FMP kernel, task management).
ghost use Rattle.std.specs.Prelude.{◌≡◌, ◌<◌, [], length, nat_eq, IfSome, ◌+◌, ◌≤◌};
ghost use Rattle.fmp_base.specs.States.{task_at};
ghost use Rattle.fmp_base.specs.TaskCalls as calls;
ghost use Rattle.fmp_tasks.specs.Homes.{Fits};
ghost use Rattle.fmp_tasks.specs.Lines.{AreEmptyWithRoom};
ghost use Rattle.fmp_tasks.specs.Tables.{outcome, SameShape, SameShapeAndRoom};

use crate::targets::{allowed_processor, is_dormant, is_ready, self_or};
use fmp_base::{Answer, Er, Line, Phase, TaskBlock};
use fmp_tasks::KernelState;
use fmp_tasks::answers::replied;
use fmp_tasks::tasks::start;

/// One more activation of task t, which is x, is queued, for a start on processor c; E_QOVR at the limit.
fn queue_activation_on(tables: &mut KernelState, t: u8, x: TaskBlock, c: u8) -> Answer
    requires there { t < length tables.old.system.tasks }
    requires is { x ≡ task_at tables.old.state.tasks t }
    requires fits { Fits tables.old.system x }
    requires later { IfSome x.deadline (λ w. tables.old.state.clock + 1 ≤ w) }
    requires processor { c < tables.old.system.processors }
    ensures outcome { outcome result tables.new []
        ≡ calls.activation_queued_on tables.old.system tables.old.state t x c }
    ensures shape { SameShape tables.old tables.new }
{
    if x.activations < tables.queue_limit() {
        let activations = x.activations + 1;
        let next_processor = Some(c);
        tables.set_task(
            t,
            TaskBlock {
                activations,
                next_processor,
                ..x
            },
        );
        replied(Er::Ok)
    } else {
        replied(Er::Qovr)
    }
}

/// `mact_tsk`: activates a task on a processor. A dormant one is assigned to it and starts; for another an activation
/// is queued, and the processor is stored for its next start. E_ID if no task has the number, where 0 (TSK_SELF) is the
/// caller; E_PAR if the task's class does not allow the processor, or there is none of the number; E_QOVR if the queued
/// activations are at the limit. What is refused changes nothing (FMP kernel, task management).
pub fn mact_tsk(
    tables: &mut KernelState,
    lines: &mut Vec<Line>,
    me: u8,
    task: i32,
    processor: i32,
) -> Answer
    requires caller { me < length tables.old.system.tasks }
    requires lines { AreEmptyWithRoom 1 lines.old }
    ensures outcome { outcome result tables.new lines.new.items
        ≡ calls.mact_tsk tables.old.system tables.old.state me task processor }
    ensures kept { SameShapeAndRoom tables.old tables.new lines.old lines.new }
{
    let Some(t) = self_or(tables, me, task) else {
        return replied(Er::Id);
    };
    let Some(c) = allowed_processor(tables, t, processor) else {
        return replied(Er::Par);
    };
    let x = tables.task(t);
    match x.phase {
        Phase::Dormant => {
            start(tables, lines, t, TaskBlock { processor: c, ..x });
            replied(Er::Ok)
        }
        Phase::Ready | Phase::Waiting(_) => queue_activation_on(tables, t, x, c),
    }
}

/// Task t, which is x, is assigned to processor c, where it goes to the end if it is ready; on its own processor
/// nothing changes.
fn assign(tables: &mut KernelState, t: u8, x: TaskBlock, c: u8)
    requires there { t < length tables.old.system.tasks }
    requires is { x ≡ task_at tables.old.state.tasks t }
    requires fits { Fits tables.old.system x }
    requires later { IfSome x.deadline (λ w. tables.old.state.clock + 1 ≤ w) }
    requires processor { c < tables.old.system.processors }
    ensures state { tables.new
        ≡ record tables.old { state = calls.assigned_by (nat_eq x.processor c) tables.old.state t x c } }
    ensures shape { SameShape tables.old tables.new }
{
    if x.processor == c {
        return;
    }
    let y = TaskBlock { processor: c, ..x };
    if is_ready(&x) {
        tables.set_last(t, &y);
    } else {
        tables.set_task(t, y);
    }
}

/// `mig_tsk`: a task of the caller's processor p is assigned to a processor; a ready one goes to the end there. On its
/// own processor nothing changes. E_ID if no task has the number, where 0 (TSK_SELF) is the caller; E_PAR if the task's
/// class does not allow the processor, or there is none of the number; E_OBJ if the task is dormant or assigned to
/// another processor than p. What is refused changes nothing (FMP kernel, task management).
pub fn mig_tsk(tables: &mut KernelState, p: u8, me: u8, task: i32, processor: i32) -> Answer
    requires caller { me < length tables.old.system.tasks }
    ensures outcome { outcome result tables.new []
        ≡ calls.mig_tsk tables.old.system tables.old.state p me task processor }
    ensures shape { SameShape tables.old tables.new }
{
    let Some(t) = self_or(tables, me, task) else {
        return replied(Er::Id);
    };
    let Some(c) = allowed_processor(tables, t, processor) else {
        return replied(Er::Par);
    };
    let x = tables.task(t);
    if is_dormant(x.phase) || x.processor != p {
        return replied(Er::Obj);
    }
    assign(tables, t, x, c);
    replied(Er::Ok)
}
