//! The calls for sleep, wakeup, suspension and delay of tasks (uITRON 4.0, section 4.2).
ghost use Rattle.std.specs.Prelude.{◌≡◌, ℕ, ◌<◌, length, vec_capacity};
ghost use Rattle.fmp_base.specs.Calls.{case_of};
ghost use Rattle.fmp_base.specs.Services.{service_of};
ghost use Rattle.fmp_base.specs.States.{task_at};
ghost use Rattle.fmp_kernel.specs.Groups.{group_of};
ghost use Rattle.fmp_tasks.specs.Lines.{AreEmptyWithRoom};
ghost use Rattle.fmp_tasks.specs.Tables.{outcome, SameShape};

use crate::calls::groups::ServiceGroup;
use fmp_base::{Answer, Call, Line};
use fmp_migrate::{can_wup, dly_tsk, rel_wai, rsm_tsk, slp_tsk, sus_tsk, tslp_tsk, wup_tsk};
use fmp_tasks::KernelState;

/// A call by task me for sleep, wakeup, suspension or delay.
pub fn synchronization_call(
    tables: &mut KernelState,
    lines: &mut Vec<Line>,
    me: u8,
    made: &Call,
) -> Answer
    requires group { group_of (service_of made.now) ≡ ServiceGroup.Synchronization }
    requires caller { me < length tables.old.system.tasks }
    requires lines { AreEmptyWithRoom 1 lines.old }
    ensures outcome { (p : ℕ)
        → outcome result tables.new lines.new.items
        ≡ case_of tables.old.system tables.old.state p me (task_at tables.old.state.tasks me) made.now }
    ensures shape { SameShape tables.old tables.new }
    ensures capacity { vec_capacity lines.new ≡ vec_capacity lines.old }
{
    match *made {
        Call::SlpTsk => slp_tsk(tables, me),
        Call::TslpTsk { limit } => tslp_tsk(tables, me, limit),
        Call::WupTsk { task } => wup_tsk(tables, lines, me, task),
        Call::CanWup { task } => can_wup(tables, me, task),
        Call::RelWai { task } => rel_wai(tables, lines, task),
        Call::SusTsk { task } => sus_tsk(tables, me, task),
        Call::RsmTsk { task } => rsm_tsk(tables, task),
        Call::DlyTsk { delay } => dly_tsk(tables, me, delay),
        _ => unreachable!(),
    }
}
