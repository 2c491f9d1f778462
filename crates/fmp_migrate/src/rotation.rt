//! Rotation of ready queues, and the caller's own number (uITRON 4.0, section 4.8).
ghost use Rattle.std.specs.Prelude.{◌≡◌, ◌<◌, ◌≤◌, [], length};
ghost use Rattle.fmp_base.specs.Queues.{first_ready};
ghost use Rattle.fmp_base.specs.States.{KernelState as State, task_at, unchanged};
ghost use Rattle.fmp_base.specs.TaskCalls as calls;
ghost use Rattle.fmp_tasks.specs.Tables.{outcome, SameShape};

use crate::targets::or_if_zero;
use fmp_base::arguments::{numbered, ranged};
use fmp_base::{Answer, Er};
use fmp_tasks::KernelState;
use fmp_tasks::answers::{gives, replied};

/// The first ready task of a priority on processor p, if there is one, goes to the end.
#[tactic(auto, using(crate::proofs::Rotated::rotated_clock))]
fn rotate(tables: &mut KernelState, p: u8, priority: u8)
    requires processor { p < tables.old.system.processors }
    requires urgent { 1 ≤ priority }
    requires least { priority ≤ 16 }
    ensures state { tables.new
        ≡ record tables.old { state = calls.rotated tables.old.state (first_ready tables.old.state p priority) } }
    ensures shape { SameShape tables.old tables.new }
{
    tables.rotate(p, priority);
}

/// `rot_rdq`: of the caller's processor p, the first ready task of a priority, from 1 to 16, or the caller's current
/// one at 0 (TPRI_SELF), goes to the end. E_PAR at another priority; then nothing changes (uITRON 4.0, section 4.8).
pub fn rot_rdq(tables: &mut KernelState, p: u8, me: u8, priority: i32) -> Answer
    requires caller { me < length tables.old.system.tasks }
    requires processor { p < tables.old.system.processors }
    ensures outcome { outcome result tables.new []
        ≡ calls.rot_rdq tables.old.state p (task_at tables.old.state.tasks me) priority }
    ensures shape { SameShape tables.old tables.new }
{
    let Some(n) = ranged(0, 16, priority) else {
        return replied(Er::Par);
    };
    let own = tables.task(me).priority;
    rotate(tables, p, or_if_zero(own, n as u8));
    replied(Er::Ok)
}

/// `mrot_rdq`: of the processor of a number, the first ready task of a priority, from 1 to 16, or the caller's current
/// one at 0 (TPRI_SELF), goes to the end. E_PAR at another priority, or if no processor has the number; then nothing
/// changes (FMP kernel, system state management).
pub fn mrot_rdq(tables: &mut KernelState, me: u8, priority: i32, processor: i32) -> Answer
    requires caller { me < length tables.old.system.tasks }
    ensures outcome { outcome result tables.new []
        ≡ calls.mrot_rdq tables.old.system tables.old.state (task_at tables.old.state.tasks me) priority processor }
    ensures shape { SameShape tables.old tables.new }
{
    let Some(n) = ranged(0, 16, priority) else {
        return replied(Er::Par);
    };
    let Some(c) = numbered(tables.processor_count(), processor) else {
        return replied(Er::Par);
    };
    let own = tables.task(me).priority;
    rotate(tables, c, or_if_zero(own, n as u8));
    replied(Er::Ok)
}

/// `irot_rdq`: as `rot_rdq` by a handler of processor p, for a priority from 1 to 16. E_PAR at another, also at 0; then
/// nothing changes (uITRON 4.0, section 4.8).
pub fn irot_rdq(tables: &mut KernelState, p: u8, priority: i32) -> Answer
    requires processor { p < tables.old.system.processors }
    ensures outcome { outcome result tables.new [] ≡ calls.irot_rdq tables.old.state p priority }
    ensures shape { SameShape tables.old tables.new }
{
    let Some(n) = ranged(1, 16, priority) else {
        return replied(Er::Par);
    };
    rotate(tables, p, n as u8);
    replied(Er::Ok)
}

/// `get_tid`: gives the caller's number, one more than its place, whatever the state. It is never refused (uITRON 4.0,
/// section 4.8).
pub fn get_tid(me: u8) -> Answer
    requires { me < 255 }
    ensures { (s : State) → record { answer = result; progress = unchanged s } ≡ calls.get_tid s me }
{
    gives((me + 1) as i32)
}
