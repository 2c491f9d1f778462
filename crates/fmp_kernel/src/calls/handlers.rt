//! The calls for handlers (uITRON 4.0, sections 4.1 to 4.4 and 4.8).
ghost use Rattle.std.specs.Prelude.{◌≡◌, ℕ, ◌<◌, vec_capacity};
ghost use Rattle.fmp_base.specs.declared.states.TaskBlock.{TaskBlock};
ghost use Rattle.fmp_base.specs.Calls.{case_of};
ghost use Rattle.fmp_base.specs.Ranges.{IsInRange};
ghost use Rattle.fmp_base.specs.Services.{service_of};
ghost use Rattle.fmp_kernel.specs.Groups.{group_of};
ghost use Rattle.fmp_tasks.specs.Lines.{AreEmptyWithRoom};
ghost use Rattle.fmp_tasks.specs.Tables.{outcome, SameShape};

use crate::calls::groups::ServiceGroup;
use fmp_base::{Answer, Call, Line};
use fmp_migrate::{iact_tsk, irot_rdq, iwup_tsk, rel_wai};
use fmp_objects::{set_flg, sig_sem};
use fmp_objects_queues::{fsnd_dtq, psnd_dtq};
use fmp_tasks::KernelState;

/// A call for handlers, on processor p, for every caller.
pub fn handler_call(tables: &mut KernelState, lines: &mut Vec<Line>, p: u8, made: &Call) -> Answer
    requires group { group_of (service_of made.now) ≡ ServiceGroup.Handlers }
    requires processor { p < tables.old.system.processors }
    requires range { IsInRange tables.old.system }
    requires lines { AreEmptyWithRoom 255 lines.old }
    ensures outcome { (me : ℕ) (x : TaskBlock)
        → outcome result tables.new lines.new.items ≡ case_of tables.old.system tables.old.state p me x made.now }
    ensures shape { SameShape tables.old tables.new }
    ensures capacity { vec_capacity lines.new ≡ vec_capacity lines.old }
{
    match *made {
        Call::IactTsk { task } => iact_tsk(tables, lines, task),
        Call::IwupTsk { task } => iwup_tsk(tables, lines, task),
        Call::IrelWai { task } => rel_wai(tables, lines, task),
        Call::IsigSem { semaphore } => sig_sem(tables, lines, semaphore),
        Call::IsetFlg { flag, pattern } => set_flg(tables, lines, flag, pattern),
        Call::IpsndDtq { queue, word } => psnd_dtq(tables, lines, queue, word),
        Call::IfsndDtq { queue, word } => fsnd_dtq(tables, lines, queue, word),
        Call::IrotRdq { priority } => irot_rdq(tables, p, priority),
        _ => unreachable!(),
    }
}
