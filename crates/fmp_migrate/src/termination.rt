//! The end of tasks (uITRON 4.0, section 4.1).
ghost use Rattle.std.specs.Prelude.{◌≡◌, ◌<◌, length};
ghost use Rattle.fmp_base.specs.Changes.{ended_itself};
ghost use Rattle.fmp_base.specs.States.{task_at};
ghost use Rattle.fmp_base.specs.TaskCalls as calls;
ghost use Rattle.fmp_tasks.specs.Lines.{AreEmptyWithRoom};
ghost use Rattle.fmp_tasks.specs.Tables.{progress, outcome, SameShapeAndRoom};

use crate::targets::{by_number, is_dormant};
use fmp_base::{Answer, Er, Line, Lock, Processor};
use fmp_tasks::KernelState;
use fmp_tasks::answers::replied;
use fmp_tasks::tasks::end;

/// Task t, which processor p runs, ends itself, by `ext_tsk` or at the end of its body: the processor runs none, its
/// lock is freed, its dispatching enabled, and the task is dormant, or starts again if an activation is queued. It is
/// never refused (uITRON 4.0, section 4.1; FMP kernel, spin locks).
pub fn end_itself(tables: &mut KernelState, lines: &mut Vec<Line>, p: u8, t: u8)
    requires task { t < length tables.old.system.tasks }
    requires processor { p < tables.old.system.processors }
    requires lines { AreEmptyWithRoom 1 lines.old }
    ensures progress { progress tables.new lines.new.items
        ≡ ended_itself tables.old.system tables.old.state p t (task_at tables.old.state.tasks t) }
    ensures kept { SameShapeAndRoom tables.old tables.new lines.old lines.new }
{
    let x = tables.task(t);
    let processor = tables.processor(p);
    tables.set_processor(
        p,
        Processor {
            run: None,
            lock: Lock::Free,
            dispatch_disabled: false,
            ..processor
        },
    );
    end(tables, lines, t, x);
}

/// `ext_tsk`: the caller, which processor p runs, ends, as `end_itself` says, and gets no reply. It is never refused
/// (uITRON 4.0, section 4.1).
pub fn ext_tsk(tables: &mut KernelState, lines: &mut Vec<Line>, p: u8, me: u8) -> Answer
    requires caller { me < length tables.old.system.tasks }
    requires processor { p < tables.old.system.processors }
    requires lines { AreEmptyWithRoom 1 lines.old }
    ensures outcome { outcome result tables.new lines.new.items
        ≡ record {
          answer = Answer.Ends;
          progress = ended_itself tables.old.system tables.old.state p me
              (task_at tables.old.state.tasks me);
        } }
    ensures kept { SameShapeAndRoom tables.old tables.new lines.old lines.new }
{
    end_itself(tables, lines, p, me);
    Answer::Ends
}

/// `ter_tsk`: another task of the caller's processor p ends. E_ID if no task has the number, also at 0; E_ILUSE if it
/// is the caller's; E_OBJ if the task is dormant or assigned to another processor. What is refused changes nothing
/// (uITRON 4.0, section 4.1).
pub fn ter_tsk(tables: &mut KernelState, lines: &mut Vec<Line>, p: u8, me: u8, task: i32) -> Answer
    requires lines { AreEmptyWithRoom 1 lines.old }
    ensures outcome { outcome result tables.new lines.new.items
        ≡ calls.ter_tsk tables.old.system tables.old.state p me task }
    ensures kept { SameShapeAndRoom tables.old tables.new lines.old lines.new }
{
    let Some(t) = by_number(tables, task) else {
        return replied(Er::Id);
    };
    if t == me {
        return replied(Er::Iluse);
    }
    let x = tables.task(t);
    if is_dormant(x.phase) || x.processor != p {
        return replied(Er::Obj);
    }
    end(tables, lines, t, x);
    replied(Er::Ok)
}
