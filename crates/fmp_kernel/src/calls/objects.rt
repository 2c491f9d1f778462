//! The calls on semaphores and eventflags (uITRON 4.0, section 4.4).
ghost use Rattle.std.specs.Prelude.{◌≡◌, ℕ, ◌<◌, ◌≤◌, length, vec_capacity};
ghost use Rattle.fmp_base.specs.Calls.{case_of};
ghost use Rattle.fmp_base.specs.Services.{service_of};
ghost use Rattle.fmp_base.specs.States.{task_at};
ghost use Rattle.fmp_kernel.specs.Groups.{group_of};
ghost use Rattle.fmp_tasks.specs.Lines.{AreEmptyWithRoom};
ghost use Rattle.fmp_tasks.specs.Tables.{outcome, SameShape};

use crate::calls::groups::ServiceGroup;
use fmp_base::{Answer, Call, Line, TimeLimit};
use fmp_objects::{clr_flg, set_flg, sig_sem, twai_flg, twai_sem, wai_flg, wai_sem};
use fmp_tasks::KernelState;

/// A call by task me on a semaphore or an eventflag.
pub fn object_call(tables: &mut KernelState, lines: &mut Vec<Line>, me: u8, made: &Call) -> Answer
    requires group { group_of (service_of made.now) ≡ ServiceGroup.Objects }
    requires caller { me < length tables.old.system.tasks }
    requires lines { AreEmptyWithRoom 1 lines.old }
    requires room_for_all { length tables.old.system.tasks ≤ vec_capacity lines.old }
    ensures outcome { (p : ℕ)
        → outcome result tables.new lines.new.items
        ≡ case_of tables.old.system tables.old.state p me (task_at tables.old.state.tasks me) made.now }
    ensures shape { SameShape tables.old tables.new }
    ensures capacity { vec_capacity lines.new ≡ vec_capacity lines.old }
{
    match *made {
        Call::SigSem { semaphore } => sig_sem(tables, lines, semaphore),
        Call::WaiSem { semaphore } => wai_sem(tables, me, TimeLimit::Forever, semaphore),
        Call::PolSem { semaphore } => wai_sem(tables, me, TimeLimit::Poll, semaphore),
        Call::TwaiSem { semaphore, limit } => twai_sem(tables, me, semaphore, limit),
        Call::SetFlg { flag, pattern } => set_flg(tables, lines, flag, pattern),
        Call::ClrFlg { flag, pattern } => clr_flg(tables, flag, pattern),
        Call::WaiFlg {
            flag,
            pattern,
            mode,
        } => wai_flg(tables, me, TimeLimit::Forever, flag, pattern, mode),
        Call::PolFlg {
            flag,
            pattern,
            mode,
        } => wai_flg(tables, me, TimeLimit::Poll, flag, pattern, mode),
        Call::TwaiFlg {
            flag,
            pattern,
            mode,
            limit,
        } => twai_flg(tables, me, flag, pattern, mode, limit),
        _ => unreachable!(),
    }
}
