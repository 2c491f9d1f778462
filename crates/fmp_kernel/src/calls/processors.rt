//! The calls on cyclic handlers and on the state of the caller's processor (uITRON 4.0, sections 4.7 and 4.8; FMP
//! kernel, spin locks).
ghost use Rattle.std.specs.Prelude.{◌≡◌, ℕ, []};
ghost use Rattle.fmp_base.specs.declared.states.TaskBlock.{TaskBlock};
ghost use Rattle.fmp_base.specs.Calls.{case_of};
ghost use Rattle.fmp_base.specs.ProcessorCalls as calls;
ghost use Rattle.fmp_base.specs.Services.{service_of};
ghost use Rattle.fmp_kernel.specs.Groups.{group_of};
ghost use Rattle.fmp_tasks.specs.Tables.{outcome, SameShape};

use crate::calls::groups::ServiceGroup;
use fmp_base::arguments::numbered;
use fmp_base::{Answer, Call, Er};
use fmp_tasks::KernelState;
use fmp_tasks::answers::replied;

/// `sta_cyc`: a cyclic handler is due one period and a tick from now, also if it was started already. E_ID if the
/// number names none; nothing changes then.
fn sta_cyc(tables: &mut KernelState, cyclic: i32) -> Answer
    ensures outcome { outcome result tables.new [] ≡ calls.sta_cyc tables.old.system tables.old.state cyclic }
    ensures shape { SameShape tables.old tables.new }
{
    let Some(c) = numbered(tables.cyclic_count(), cyclic) else {
        return replied(Er::Id);
    };
    let due = tables.clock() + tables.cyclic_config(c).period + 1;
    tables.set_due(c, Some(due));
    replied(Er::Ok)
}

/// `stp_cyc`: a cyclic handler is no longer due; if it is pending it stays so. E_ID if the number names none; nothing
/// changes then.
fn stp_cyc(tables: &mut KernelState, cyclic: i32) -> Answer
    ensures outcome { outcome result tables.new [] ≡ calls.stp_cyc tables.old.state cyclic }
    ensures shape { SameShape tables.old tables.new }
{
    let Some(c) = numbered(tables.cyclic_count(), cyclic) else {
        return replied(Er::Id);
    };
    tables.set_due(c, None);
    replied(Er::Ok)
}

/// A call on a cyclic handler or on the state of processor p.
pub fn processor_call(tables: &mut KernelState, p: u8, made: &Call) -> Answer
    requires group { group_of (service_of made.now) ≡ ServiceGroup.Processors }
    ensures outcome { (me : ℕ) (x : TaskBlock)
        → outcome result tables.new [] ≡ case_of tables.old.system tables.old.state p me x made.now }
    ensures shape { SameShape tables.old tables.new }
{
    match *made {
        Call::StaCyc { cyclic } => sta_cyc(tables, cyclic),
        Call::StpCyc { cyclic } => stp_cyc(tables, cyclic),
        Call::LocCpu => tables.loc_cpu(p),
        Call::UnlCpu => tables.unl_cpu(p),
        Call::DisDsp => tables.set_dispatch(p, true),
        Call::EnaDsp => tables.set_dispatch(p, false),
        Call::LocSpn { lock } => tables.loc_spn(p, lock),
        Call::TrySpn { lock } => tables.try_spn(p, lock),
        Call::UnlSpn { lock } => tables.unl_spn(p, lock),
        _ => unreachable!(),
    }
}
