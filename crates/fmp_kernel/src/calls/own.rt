//! This kernel's own calls: `put`, and shared words.
ghost use Rattle.std.specs.Prelude.{◌≡◌, ℕ, []};
ghost use Rattle.fmp_base.specs.declared.states.TaskBlock.{TaskBlock};
ghost use Rattle.fmp_base.specs.Calls.{case_of};
ghost use Rattle.fmp_base.specs.Services.{service_of};
ghost use Rattle.fmp_kernel.specs.Groups.{group_of};
ghost use Rattle.fmp_tasks.specs.Tables.{outcome, SameShape};

use crate::calls::groups::ServiceGroup;
use fmp_base::{Answer, Call, Er};
use fmp_objects::{ld_shr, st_shr};
use fmp_tasks::KernelState;
use fmp_tasks::answers::replied;

/// A call of this kernel's own.
pub fn own_call(tables: &mut KernelState, made: &Call) -> Answer
    requires { group_of (service_of made.now) ≡ ServiceGroup.Own }
    ensures outcome { (p me : ℕ) (x : TaskBlock)
        → outcome result tables.new [] ≡ case_of tables.old.system tables.old.state p me x made.now }
    ensures shape { SameShape tables.old tables.new }
{
    match *made {
        Call::Put { .. } => replied(Er::Ok),
        Call::LdShr { word } => ld_shr(tables, word),
        Call::StShr { word, value } => st_shr(tables, word, value),
        _ => unreachable!(),
    }
}
