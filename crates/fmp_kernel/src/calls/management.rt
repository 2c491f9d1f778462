//! The calls that manage tasks (uITRON 4.0, sections 4.1 and 4.8; FMP kernel, task management).
ghost use Rattle.std.specs.Prelude.{◌≡◌, ◌<◌, ◌≤◌, length, vec_capacity};
ghost use Rattle.fmp_base.specs.Calls.{case_of};
ghost use Rattle.fmp_base.specs.Services.{service_of};
ghost use Rattle.fmp_base.specs.States.{task_at};
ghost use Rattle.fmp_kernel.specs.Groups.{group_of};
ghost use Rattle.fmp_tasks.specs.Lines.{AreEmptyWithRoom};
ghost use Rattle.fmp_tasks.specs.Tables.{outcome, SameShape};

use crate::calls::groups::ServiceGroup;
use fmp_base::{Answer, Call, Line};
use fmp_migrate::{
    act_tsk, can_act, chg_pri, ext_tsk, get_pri, get_tid, mact_tsk, mig_tsk, mrot_rdq, rot_rdq,
    ter_tsk,
};
use fmp_tasks::KernelState;

/// A call by task me, which processor p runs, that manages tasks.
pub fn management_call(
    tables: &mut KernelState,
    lines: &mut Vec<Line>,
    p: u8,
    me: u8,
    made: &Call,
) -> Answer
    requires group { group_of (service_of made.now) ≡ ServiceGroup.Management }
    requires caller { me < length tables.old.system.tasks }
    requires few { length tables.old.system.tasks ≤ 255 }
    requires processor { p < tables.old.system.processors }
    requires lines { AreEmptyWithRoom 1 lines.old }
    ensures outcome { outcome result tables.new lines.new.items
        ≡ case_of tables.old.system tables.old.state p me (task_at tables.old.state.tasks me) made.now }
    ensures shape { SameShape tables.old tables.new }
    ensures capacity { vec_capacity lines.new ≡ vec_capacity lines.old }
{
    match *made {
        Call::ActTsk { task } => act_tsk(tables, lines, me, task),
        Call::CanAct { task } => can_act(tables, me, task),
        Call::ExtTsk => ext_tsk(tables, lines, p, me),
        Call::TerTsk { task } => ter_tsk(tables, lines, p, me, task),
        Call::ChgPri { task, priority } => chg_pri(tables, me, task, priority),
        Call::GetPri { task } => get_pri(tables, me, task),
        Call::MactTsk { task, processor } => mact_tsk(tables, lines, me, task, processor),
        Call::MigTsk { task, processor } => mig_tsk(tables, p, me, task, processor),
        Call::RotRdq { priority } => rot_rdq(tables, p, me, priority),
        Call::MrotRdq {
            priority,
            processor,
        } => mrot_rdq(tables, me, priority, processor),
        Call::GetTid => get_tid(me),
        _ => unreachable!(),
    }
}
